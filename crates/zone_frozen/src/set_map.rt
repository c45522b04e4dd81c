//! The sets of a zone by their keys: in a map while they change, and in a list once they mostly stay.
ghost use Rattle.std.specs.Prelude.{◌≡◌, ◌↔◌, None, Some, [], length, IsTrue, IfOk, IfErr, IfSome, OnOk, OnErr, option_copied, option_map};
ghost use Rattle.std.specs.BTreeMap.{insert_entry};
ghost use Rattle.std.specs.Map.Iter.{deref_pair};
ghost use Rattle.std.specs.List.Sorted.{IsStrictlySortedBy};
ghost use Rattle.std.specs.Map.{keys_of, lookup, remove_entry, set_value, values_of};
ghost use Rattle.std.specs.Map.Calls.{CalledAtPair, RetainsPairs};
ghost use Rattle.zone_proto.specs.Keys.{key_cmp, key_eq};
ghost use Rattle.zone_proto.specs.Results.{IsInsertion};
ghost use Rattle.zone_frozen.specs.Sets.{sets_from, sets_upto, sets_before, with_step, inserted_under, BelongsUnder, EndsWith, MovesSets};

use crate::frozen_sets::FrozenSets;
use crate::set_range::SetRange;
use crate::set_values::SetValues;
use std::alloc::{AllocError, Global};
use std::collections::BTreeMap;
use std::marker::Model;
use std::mem::replace;
use zone_proto::{ProtoError, Record, RecordSet, RrKey};

/// Record sets by their keys, in the order of the keys.
#[derive(Drop)]
pub struct SetMap {
    kept: Kept,
}

/// How they are kept.
#[derive(Drop)]
pub(crate) enum Kept {
    /// In a map, as sets come and go.
    InMap(BTreeMap<RrKey, RecordSet>),
    /// In a list.
    InList(FrozenSets),
}

impl Model for SetMap {
    ghost use Rattle.std.specs.List.Sorted.{IsStrictlySortedBy};
    ghost use Rattle.std.specs.Map.{keys_of};
    ghost use Rattle.zone_proto.specs.Keys.{key_cmp};
    ghost use Rattle.zone_frozen.specs.Sets.{Sets};
    ghost use Rattle.zone_frozen.specs.Keeping.{sets_kept};

    ghost Value = { Sets };

    ghost view = { λ map. sets_kept map.kept };

    ghost invariant = { λ map. IsStrictlySortedBy key_cmp (keys_of (sets_kept map.kept)) };
}

impl SetMap {
    /// No sets. Takes no memory.
    pub fn new(alloc: Global) -> SetMap
        ensures { result ≡ [] }
    {
        SetMap {
            kept: Kept::InMap(BTreeMap::new(alloc)),
        }
    }

    /// The sets of a map, which may come and go. Takes no memory.
    pub fn of_map(map: BTreeMap<RrKey, RecordSet>) -> SetMap
        ensures { result ≡ map.entries }
    {
        // Its keys are in order.
        let _count = map.len();
        SetMap {
            kept: Kept::InMap(map),
        }
    }

    /// The sets of a list in the order of their keys, which mostly stay as they are. Refused for want of memory alone.
    pub fn of_rows(alloc: Global, rows: Vec<(RrKey, RecordSet)>) -> Result<SetMap, AllocError>
        requires { IsStrictlySortedBy key_cmp (keys_of rows.items) }
        ensures { IfOk result (λ map. map ≡ rows.items) }
    {
        let frozen = FrozenSets::of_rows(alloc, rows)?;
        Ok(SetMap {
            kept: Kept::InList(frozen),
        })
    }

    /// All sets, in the order of their keys. Takes no memory.
    pub fn iter(&self) -> SetRange<'_>
        ensures rest { result ≡ self.now }
        ensures ordered { IsStrictlySortedBy key_cmp (keys_of self.now) }
    {
        match &self.kept {
            Kept::InMap(map) => SetRange::of_map(map),
            Kept::InList(frozen) => SetRange::of_rows(frozen.as_slice()),
        }
    }

    /// The same without their keys. Takes no memory.
    pub fn values(&self) -> SetValues<'_>
        ensures rest { result ≡ values_of self.now }
        ensures ordered { IsStrictlySortedBy key_cmp (keys_of self.now) }
    {
        SetValues::of_range(self.iter())
    }

    /// How many sets there are.
    pub fn len(&self) -> usize
        ensures count { result ≡ length self.now }
        ensures ordered { IsStrictlySortedBy key_cmp (keys_of self.now) }
    {
        match &self.kept {
            Kept::InMap(map) => map.len(),
            Kept::InList(frozen) => frozen.len(),
        }
    }

    /// Whether there are none.
    pub fn is_empty(&self) -> bool
        ensures { IsTrue result ↔ (self.now ≡ []) }
    {
        self.len() == 0
    }

    /// The sets from a key on. Takes no memory.
    pub fn from(&self, least: &RrKey) -> SetRange<'_>
        ensures sets { result ≡ sets_from self.now least.now }
        ensures ordered { IsStrictlySortedBy key_cmp (keys_of self.now) }
    {
        match &self.kept {
            Kept::InMap(map) => SetRange::of_tree(map.range(least..)),
            Kept::InList(frozen) => SetRange::of_rows(frozen.from(least)),
        }
    }

    /// The set under a key, if there is one. Takes no memory.
    pub fn get(&self, key: &RrKey) -> Option<&RecordSet>
        ensures value { option_copied result ≡ lookup (key_eq key.now) self.now }
        ensures ordered { IsStrictlySortedBy key_cmp (keys_of self.now) }
    {
        match &self.kept {
            Kept::InMap(map) => map.get(key),
            Kept::InList(frozen) => frozen.get(key),
        }
    }

    /// The sets from a key on, where they are mostly all sets. Takes no memory.
    pub fn from_top(&self, least: &RrKey) -> SetRange<'_>
        ensures sets { result ≡ sets_from self.now least.now }
        ensures ordered { IsStrictlySortedBy key_cmp (keys_of self.now) }
    {
        match &self.kept {
            Kept::InMap(map) => SetRange::of_tree(map.range(least..)),
            Kept::InList(frozen) => SetRange::of_rows(frozen.from_top(least)),
        }
    }

    /// The last of the sets up to a key, if there are any. Takes no memory.
    pub fn last_upto(&self, key: &RrKey) -> Option<(&RrKey, &RecordSet)>
        ensures last { EndsWith (sets_upto self.now key.now) (option_map deref_pair result) }
        ensures ordered { IsStrictlySortedBy key_cmp (keys_of self.now) }
    {
        match &self.kept {
            Kept::InMap(map) => map.range(..=key).next_back(),
            Kept::InList(frozen) => match frozen.last_upto(key) {
                Some(row) => Some((&row.0, &row.1)),
                None => None,
            },
        }
    }

    /// The last of the sets before a key, if there are any. Takes no memory.
    pub fn last_before(&self, key: &RrKey) -> Option<(&RrKey, &RecordSet)>
        ensures last { EndsWith (sets_before self.now key.now) (option_map deref_pair result) }
        ensures ordered { IsStrictlySortedBy key_cmp (keys_of self.now) }
    {
        match &self.kept {
            Kept::InMap(map) => map.range(..key).next_back(),
            Kept::InList(frozen) => match frozen.last_before(key) {
                Some(row) => Some((&row.0, &row.1)),
                None => None,
            },
        }
    }
}

impl SetMap {
    /// Puts a set under a key, and gives the one that was there. Fails only for want of memory, where none was there; key and set are
    /// handed back then, and the others stay as they were.
    pub fn insert(
        &mut self,
        key: RrKey,
        set: RecordSet,
    ) -> Result<Option<RecordSet>, (RrKey, RecordSet)>
        ensures before { IfOk result (λ before. before ≡ lookup (key_eq key) self.old) }
        ensures put { OnOk result (self.new ≡ insert_entry key_cmp self.old key set) }
        ensures refused { IfErr result (λ refused. refused ≡ (key, set)) }
        ensures absent { OnErr result (lookup (key_eq key) self.old ≡ None) }
        ensures same { OnErr result (self.new ≡ self.old) }
    {
        if self.get(&key).is_some() {
            return Ok(self.replace(&key, set));
        }
        if self.thaw(key.name.alloc()).is_err() {
            return Err((key, set));
        }
        match self.insert_absent(key, set) {
            Ok(()) => Ok(None),
            Err(refused) => Err(refused),
        }
    }

    /// The same where no set is under the key.
    fn insert_absent(&mut self, key: RrKey, set: RecordSet) -> Result<(), (RrKey, RecordSet)>
        ensures put { OnOk result (self.new ≡ insert_entry key_cmp self.old key set) }
        ensures refused { IfErr result (λ refused. refused ≡ (key, set)) }
        ensures same { OnErr result (self.new ≡ self.old) }
    {
        match &mut self.kept {
            Kept::InMap(map) => match map.insert(key, set) {
                Ok(_) => Ok(()),
                Err(failed) => Err(failed.value),
            },
            Kept::InList(_) => Err((key, set)),
        }
    }

    /// Takes out the set under a key, and gives it with its key. Takes no memory.
    pub fn remove(&mut self, key: &RrKey) -> Option<(RrKey, RecordSet)>
        ensures set { option_map (λ e. e.1) result ≡ lookup (key_eq key.now) self.old }
        ensures key { IfSome result (λ e. e.0 ≡ key.now) }
        ensures removed { self.new ≡ remove_entry (key_eq key.now) self.old }
    {
        match &mut self.kept {
            Kept::InMap(map) => remove_in(map, key),
            Kept::InList(frozen) => frozen.remove(key),
        }
    }

    /// Puts a set in place of the one under a key, and gives that one. Where none is there, nothing changes. Takes no memory.
    pub fn replace(&mut self, key: &RrKey, set: RecordSet) -> Option<RecordSet>
        ensures before { result ≡ lookup (key_eq key.now) self.old }
        ensures put { self.new ≡ set_value (key_eq key.now) self.old set }
    {
        match &mut self.kept {
            Kept::InMap(map) => replace_in(map, key, set),
            Kept::InList(frozen) => frozen.replace(key, set),
        }
    }

    /// Steps the serial of the set under a key, as [`RecordSet::step_serial`] says. Where none is there, nothing changes. Takes no
    /// memory.
    pub fn step_serial(&mut self, key: &RrKey)
        ensures { self.new ≡ with_step key.now self.old }
    {
        match &mut self.kept {
            Kept::InMap(map) => step_in(map, key),
            Kept::InList(frozen) => frozen.step_serial(key),
        }
    }

    /// Inserts a record into the set under a key, as [`RecordSet::insert`] says. The answer is whether it was taken; where no set
    /// is there, it isn't. Fails only for want of memory, which changes nothing.
    pub fn insert_record(
        &mut self,
        key: &RrKey,
        new: Record,
        serial: u32,
    ) -> Result<bool, ProtoError>
        requires { BelongsUnder new key.now self.old }
        ensures { IsInsertion self.old (inserted_under new serial key.now self.old) result
            self.new }
    {
        match &mut self.kept {
            Kept::InMap(map) => insert_in(map, key, new, serial),
            Kept::InList(frozen) => frozen.insert_record(key, new, serial),
        }
    }

    /// Goes through the sets in their order: `keep` may change each, and answers whether it stays. Takes no memory.
    pub fn retain<F: FnMut(&RrKey, &mut RecordSet) -> bool>(&mut self, keep: F)
        requires pre { (f : _) (x1 : _) (x2 : _) → F.pre f x1 x2 }
        ensures { RetainsPairs (CalledAtPair F.FnMut) keep self.old self.new }
    {
        match &mut self.kept {
            Kept::InMap(map) => map.retain(keep),
            Kept::InList(frozen) => frozen.retain(keep),
        }
    }

    /// Takes all sets out. Takes no memory.
    pub fn clear(&mut self)
        ensures { self.new ≡ [] }
    {
        match &mut self.kept {
            Kept::InMap(map) => map.clear(),
            Kept::InList(frozen) => frozen.clear(),
        }
    }

    /// The sets in a map, out of a list too. Fails only for want of memory, which leaves them as they were.
    fn thaw(&mut self, alloc: Global) -> Result<(), AllocError>
        ensures same { self.new ≡ self.old }
        ensures ordered { IsStrictlySortedBy key_cmp (keys_of self.new) }
    {
        let taken = replace(&mut self.kept, Kept::InMap(BTreeMap::new(alloc)));
        match taken {
            Kept::InMap(map) => {
                self.kept = Kept::InMap(map);
                Ok(())
            }
            Kept::InList(frozen) => match frozen.into_map(alloc) {
                Ok(map) => {
                    self.kept = Kept::InMap(map);
                    Ok(())
                }
                Err(frozen) => {
                    self.kept = Kept::InList(frozen);
                    Err(AllocError)
                }
            },
        }
    }

    /// The same sets, in full nodes if they are in a map: those of one that is filled in the order of the keys are half full. While
    /// they are made, a list of the sets is beside them. Fails only for want of memory.
    pub fn compacted(self, alloc: Global) -> Result<SetMap, AllocError>
        ensures { IfOk result (λ made. made ≡ self) }
    {
        let SetMap { kept } = self;
        match kept {
            Kept::InMap(map) => Ok(SetMap::of_map(refilled(alloc, map)?)),
            Kept::InList(frozen) => Ok(SetMap {
                kept: Kept::InList(frozen),
            }),
        }
    }

    /// Moves the sets of a map here. Where memory is wanting, those that weren't moved yet stay there.
    pub fn append(
        &mut self,
        alloc: Global,
        more: &mut BTreeMap<RrKey, RecordSet>,
    ) -> Result<(), AllocError>
        ensures moved { MovesSets self.old more.old.entries self.new more.new.entries }
        ensures ok { OnOk result (more.new.entries ≡ []) }
    {
        self.thaw(alloc)?;
        match &mut self.kept {
            Kept::InMap(map) => map.append(more),
            Kept::InList(_) => Err(AllocError),
        }
    }
}

/// Takes out the set under a key, and gives it with its key.
fn remove_in(map: &mut BTreeMap<RrKey, RecordSet>, key: &RrKey) -> Option<(RrKey, RecordSet)>
    ensures set { option_map (λ e. e.1) result ≡ lookup (key_eq key.now) map.old.entries }
    ensures key { IfSome result (λ e. e.0 ≡ key.now) }
    ensures removed { map.new.entries ≡ remove_entry (key_eq key.now) map.old.entries }
    ensures ordered { IsStrictlySortedBy key_cmp (keys_of map.new.entries) }
{
    map.remove_entry(key)
}

/// Puts a set in place of the one under a key, and gives that one.
fn replace_in(
    map: &mut BTreeMap<RrKey, RecordSet>,
    key: &RrKey,
    set: RecordSet,
) -> Option<RecordSet>
    ensures before { result ≡ lookup (key_eq key.now) map.old.entries }
    ensures put { map.new.entries ≡ set_value (key_eq key.now) map.old.entries set }
    ensures ordered { IsStrictlySortedBy key_cmp (keys_of map.new.entries) }
{
    match map.get_mut(key) {
        Some(stood) => Some(replace(stood, set)),
        None => None,
    }
}

/// Steps the serial of the set under a key, if there is one.
fn step_in(map: &mut BTreeMap<RrKey, RecordSet>, key: &RrKey)
    ensures stepped { map.new.entries ≡ with_step key.now map.old.entries }
    ensures ordered { IsStrictlySortedBy key_cmp (keys_of map.new.entries) }
{
    if let Some(set) = map.get_mut(key) {
        set.step_serial();
    }
}

/// Inserts a record into the set under a key, if there is one.
fn insert_in(
    map: &mut BTreeMap<RrKey, RecordSet>,
    key: &RrKey,
    new: Record,
    serial: u32,
) -> Result<bool, ProtoError>
    requires { BelongsUnder new key.now map.old.entries }
    ensures inserted { IsInsertion map.old.entries
        (inserted_under new serial key.now map.old.entries) result map.new.entries }
    ensures ordered { IsStrictlySortedBy key_cmp (keys_of map.new.entries) }
{
    match map.get_mut(key) {
        Some(set) => set.insert(new, serial),
        None => Ok(false),
    }
}

/// The same sets in full nodes.
fn refilled(
    alloc: Global,
    sets: BTreeMap<RrKey, RecordSet>,
) -> Result<BTreeMap<RrKey, RecordSet>, AllocError>
    requires { IsStrictlySortedBy key_cmp (keys_of sets.entries) }
    ensures { IfOk result (λ made. made.entries ≡ sets.entries) }
{
    sets.into_iter().collect(alloc)
}
