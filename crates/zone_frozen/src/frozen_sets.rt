//! Record sets that don't change any more.
ghost use Rattle.std.specs.Prelude.{◌≡◌, [], IfOk, IfErr, IfSome, length, option_copied, option_map};
ghost use Rattle.std.specs.List.Sorted.{IsStrictlySortedBy};
ghost use Rattle.std.specs.Map.{keys_of, lookup, remove_entry, set_value};
ghost use Rattle.std.specs.Map.Calls.{CalledAtPair, RetainsPairs};
ghost use Rattle.zone_proto.specs.Keys.{key_cmp, key_eq};
ghost use Rattle.zone_proto.specs.Results.{IsInsertion};
ghost use Rattle.zone_frozen.specs.Sets.{sets_from, sets_upto, sets_before, with_step, inserted_under, BelongsUnder, EndsWith};

use crate::hints::Hints;
use crate::places::{end_at, last_before, rows_from, start_of, starts_at};
use crate::rows::{insert_in_row, replace_row, retain_rows, step_row, take_row};
use crate::thawing::thawed;
use std::alloc::{AllocError, Global};
use std::collections::BTreeMap;
use std::marker::Model;
use zone_proto::{ProtoError, Record, RecordSet, RrKey};

/// Record sets by their keys, in the order of the keys, in one list.
#[derive(Drop)]
pub struct FrozenSets {
    rows: Vec<(RrKey, RecordSet)>,
    hints: Hints,
}

impl Model for FrozenSets {
    ghost use Rattle.std.specs.List.Sorted.{IsStrictlySortedBy};
    ghost use Rattle.std.specs.Map.{keys_of};
    ghost use Rattle.zone_proto.specs.Keys.{key_cmp};
    ghost use Rattle.zone_frozen.specs.Sets.{Sets};

    ghost Value = { Sets };

    ghost view = { λ frozen. frozen.rows.items };

    ghost invariant = { λ frozen. IsStrictlySortedBy key_cmp (keys_of frozen.rows.items) };
}

impl FrozenSets {
    /// The sets of a list in the order of their keys. Refused for want of memory alone.
    pub fn of_rows(alloc: Global, rows: Vec<(RrKey, RecordSet)>) -> Result<FrozenSets, AllocError>
        requires { IsStrictlySortedBy key_cmp (keys_of rows.items) }
        ensures { IfOk result (λ frozen. frozen ≡ rows.items) }
    {
        let hints = Hints::of_rows(alloc, rows.as_slice())?;
        Ok(FrozenSets { rows, hints })
    }

    /// The sets by their keys, in the order of the keys.
    pub fn as_slice(&self) -> &[(RrKey, RecordSet)]
        ensures sets { result.now ≡ self.now }
        ensures ordered { IsStrictlySortedBy key_cmp (keys_of self.now) }
    {
        self.rows.as_slice()
    }

    /// How many sets there are.
    pub fn len(&self) -> usize
        ensures { result ≡ length self.now }
    {
        self.rows.len()
    }

    /// The sets from a key on. Takes no memory.
    pub fn from(&self, least: &RrKey) -> &[(RrKey, RecordSet)]
        ensures sets { result.now ≡ sets_from self.now least.now }
        ensures ordered { IsStrictlySortedBy key_cmp (keys_of self.now) }
    {
        let rows = self.rows.as_slice();
        rows_from(rows, start_of(rows, &self.hints, least))
    }

    /// The same where they are mostly all sets.
    pub fn from_top(&self, least: &RrKey) -> &[(RrKey, RecordSet)]
        ensures sets { result.now ≡ sets_from self.now least.now }
        ensures ordered { IsStrictlySortedBy key_cmp (keys_of self.now) }
    {
        let rows = self.rows.as_slice();
        if starts_at(rows, 0, least) {
            return rows_from(rows, 0);
        }
        self.from(least)
    }

    /// The set under a key, if there is one. Takes no memory.
    pub fn get(&self, key: &RrKey) -> Option<&RecordSet>
        ensures { option_copied result ≡ lookup (key_eq key.now) self.now }
    {
        match self.from(key).first() {
            Some(first) if first.0.same_as(key) => Some(&first.1),
            _ => None,
        }
    }

    /// The last of the sets up to a key, if there are any. Takes no memory.
    pub fn last_upto(&self, key: &RrKey) -> Option<&(RrKey, RecordSet)>
        ensures { EndsWith (sets_upto self.now key.now) (option_copied result) }
    {
        let rows = self.rows.as_slice();
        let start = start_of(rows, &self.hints, key);
        last_before(rows, end_at(rows, start, key))
    }

    /// The last of the sets before a key, if there are any. Takes no memory.
    pub fn last_before(&self, key: &RrKey) -> Option<&(RrKey, RecordSet)>
        ensures { EndsWith (sets_before self.now key.now) (option_copied result) }
    {
        let rows = self.rows.as_slice();
        last_before(rows, start_of(rows, &self.hints, key))
    }
}

// The hints stay as they are where sets come and go: each is tested before it is used.
impl FrozenSets {
    /// Takes out the set under a key, and gives it with its key. Takes no memory.
    pub fn remove(&mut self, key: &RrKey) -> Option<(RrKey, RecordSet)>
        ensures set { option_map (λ e. e.1) result ≡ lookup (key_eq key.now) self.old }
        ensures key { IfSome result (λ e. e.0 ≡ key.now) }
        ensures removed { self.new ≡ remove_entry (key_eq key.now) self.old }
        ensures ordered { IsStrictlySortedBy key_cmp (keys_of self.new) }
    {
        take_row(&mut self.rows, key)
    }

    /// Puts a set in place of the one under a key, and gives that one. Where none is there, nothing changes. Takes no memory.
    pub fn replace(&mut self, key: &RrKey, set: RecordSet) -> Option<RecordSet>
        ensures before { result ≡ lookup (key_eq key.now) self.old }
        ensures put { self.new ≡ set_value (key_eq key.now) self.old set }
        ensures ordered { IsStrictlySortedBy key_cmp (keys_of self.new) }
    {
        replace_row(&mut self.rows, key, set)
    }

    /// Steps the serial of the set under a key, as [`RecordSet::step_serial`] says. Where none is there, nothing changes. Takes no
    /// memory.
    pub fn step_serial(&mut self, key: &RrKey)
        ensures stepped { self.new ≡ with_step key.now self.old }
        ensures ordered { IsStrictlySortedBy key_cmp (keys_of self.new) }
    {
        step_row(&mut self.rows, key)
    }

    /// Inserts a record into the set under a key, as [`RecordSet::insert`] says. The answer is whether it was taken; where no set
    /// is there, it isn't. Fails only for want of memory, which changes nothing.
    pub fn insert_record(
        &mut self,
        key: &RrKey,
        new: Record,
        serial: u32,
    ) -> Result<bool, ProtoError>
        requires { BelongsUnder new key.now self.old }
        ensures inserted { IsInsertion self.old (inserted_under new serial key.now self.old)
            result self.new }
        ensures ordered { IsStrictlySortedBy key_cmp (keys_of self.new) }
    {
        insert_in_row(&mut self.rows, key, new, serial)
    }

    /// Goes through the sets in their order: `keep` may change each, and answers whether it stays. Takes no memory.
    pub fn retain<F: FnMut(&RrKey, &mut RecordSet) -> bool>(&mut self, keep: F)
        requires pre { (f : _) (x1 : _) (x2 : _) → F.pre f x1 x2 }
        ensures kept { RetainsPairs (CalledAtPair F.FnMut) keep self.old self.new }
        ensures ordered { IsStrictlySortedBy key_cmp (keys_of self.new) }
    {
        retain_rows(&mut self.rows, keep);
    }

    /// Takes all sets out. Takes no memory.
    pub fn clear(&mut self)
        ensures empty { self.new ≡ [] }
        ensures ordered { IsStrictlySortedBy key_cmp (keys_of self.new) }
    {
        self.rows.clear();
    }

    /// The map of these sets. Without memory for it they are handed back.
    pub fn into_map(self, alloc: Global) -> Result<BTreeMap<RrKey, RecordSet>, FrozenSets>
        ensures ok { IfOk result (λ map. map.entries ≡ self) }
        ensures ordered { IsStrictlySortedBy key_cmp (keys_of self) }
        ensures same { IfErr result (λ frozen. frozen ≡ self) }
    {
        let FrozenSets { rows, hints } = self;
        match thawed(alloc, rows) {
            Ok(map) => Ok(map),
            Err(rows) => Err(FrozenSets { rows, hints }),
        }
    }
}
