//! The index of the owners of a zone's sets.
ghost use Rattle.std.specs.Prelude.{◌≡◌, [], not, cond, IsTrue, IfOk, OnOk, OnErr, IsOkUnless};
ghost use Rattle.std.specs.BTreeMap.{insert_entry};
ghost use Rattle.std.specs.BTreeSet.{insert_key};
ghost use Rattle.std.specs.List.{list_any, Contains};
ghost use Rattle.std.specs.List.Sorted.{IsStrictlySortedBy};
ghost use Rattle.std.specs.Map.{remove_entry, keys_of};
ghost use Rattle.zone_proto.specs.Keys.{key_cmp, key_eq};
ghost use Rattle.zone_proto.specs.Names.{name_cmp, is_at_or_above};
ghost use Rattle.zone_proto.specs.Sets.{RRset};
ghost use Rattle.zone_map.specs.DenialOwners.{listed_of, none_deny, other_owners, HasOwners};
ghost use Rattle.zone_map.specs.Upserts.{is_denial_type};
ghost use Rattle.zone_map.specs.Zones.{Sets, types_at, IsZone};

use crate::denial_index::{DenialIndex, collect_names, insert_owner};
use crate::record_map::is_denial_type;
use std::alloc::Global;
use std::collections::BTreeSet;
use std::marker::Model;
use zone_frozen::SetMap;
use zone_proto::{LowerName, ProtoError, RecordType, RrKey};

/// The owners of the sets of denial and, if there are any, those of the other sets: so one owner is read to find out whether a name or a
/// name below it owns another set, however many names there own sets of denial alone.
#[derive(Drop)]
pub(crate) struct OwnerIndex {
    denials: DenialIndex,
    /// In canonical order. Empty if there are no sets of denial: then each key is that of another set.
    others: BTreeSet<LowerName>,
}

impl Model for OwnerIndex {
    ghost use Rattle.zone_map.specs.DenialOwners.{Listed};

    ghost Value = { Listed };

    ghost view = { λ index. record { denials = index.denials; others = index.others.keys } };
}

impl OwnerIndex {
    /// No owners. Doesn't allocate.
    pub(crate) fn new(alloc: Global) -> OwnerIndex
        ensures { result ≡ listed_of [] }
    {
        OwnerIndex {
            denials: DenialIndex::new(alloc),
            others: BTreeSet::new(alloc),
        }
    }

    /// The owners in a map. Fails only for lack of memory.
    pub(crate) fn of_map(alloc: Global, sets: &SetMap) -> Result<OwnerIndex, ProtoError>
        ensures ok { IfOk result (λ index. index ≡ listed_of sets.now) }
        ensures err { IsOkUnless result ProtoError.Memory }
    {
        let denials = DenialIndex::of_map(alloc, sets)?;
        if denials.is_empty() {
            return Ok(OwnerIndex {
                denials,
                others: BTreeSet::new(alloc),
            });
        }
        let others = other_owners(alloc, sets)?;
        Ok(OwnerIndex { denials, others })
    }

    /// The owners of sets of denial.
    pub(crate) fn denials(&self) -> &DenialIndex
        ensures { result.now ≡ self.now.denials }
    {
        &self.denials
    }

    /// Takes in the owner of a key that is put into the map of these sets. Fails only for lack of memory, which changes nothing.
    pub(crate) fn insert(&mut self, key: &RrKey, sets: &SetMap) -> Result<(), ProtoError>
        ensures ok { OnOk result
            ((set : RRset) → IsZone sets.now → self.old ≡ listed_of sets.now
            → self.new ≡ listed_of (insert_entry key_cmp sets.now key.now set)) }
        ensures err { IsOkUnless result ProtoError.Memory }
        ensures same { OnErr result (self.new ≡ self.old) }
    {
        if !is_denial_type(key.record_type) {
            return self.insert_other(&key.name);
        }
        if !self.denials.is_empty() {
            return self.denials.insert(key);
        }
        let others = other_owners(key.name.alloc(), sets)?;
        self.denials.insert(key)?;
        self.others = others;
        Ok(())
    }

    /// Takes in the owner of a set of another type, if such owners are listed. Fails only for lack of memory, which changes nothing.
    fn insert_other(&mut self, name: &LowerName) -> Result<(), ProtoError>
        ensures denials { self.new.denials ≡ self.old.denials }
        ensures others { OnOk result
            (self.new.others
            ≡ cond (none_deny self.old.denials) self.old.others
            (insert_key name_cmp self.old.others name.now)) }
        ensures err { IsOkUnless result ProtoError.Memory }
        ensures same { OnErr result (self.new ≡ self.old) }
    {
        if self.denials.is_empty() {
            return Ok(());
        }
        insert_owner(&mut self.others, name)
    }

    /// Takes out the owner of a key that was taken out of the map, which now has these sets. Doesn't allocate.
    pub(crate) fn remove(&mut self, key: RrKey, sets: &SetMap)
        ensures { (had : Sets) → IsZone had → self.old ≡ listed_of had
            → sets.now ≡ remove_entry (key_eq key) had
            → self.new ≡ listed_of sets.now }
    {
        if is_denial_type(key.record_type) {
            self.denials.remove(&key);
            if self.denials.is_empty() {
                self.others.clear();
            }
            return;
        }
        if self.denials.is_empty() {
            return;
        }
        let least = RrKey::new(key.name, RecordType(0));
        if !owns_other(sets, &least) {
            self.others.remove(&least.name);
        }
    }

    /// Takes all owners out. Doesn't allocate.
    pub(crate) fn clear(&mut self)
        ensures { self.new ≡ listed_of [] }
    {
        self.denials.clear();
        self.others.clear();
    }

    /// Whether there are no sets of denial. Doesn't allocate.
    pub(crate) fn is_without_denials(&self) -> bool
        ensures { result ≡ none_deny self.now.denials }
    {
        self.denials.is_empty()
    }

    /// Whether a name or a name below it is listed as the owner of a set of another type. Only the first owner that isn't before the
    /// name is looked at: the names below a name are together. Doesn't allocate.
    pub(crate) fn owns_other_at_or_below(&self, name: &LowerName) -> bool
        ensures { result ≡ list_any (is_at_or_above name.now) self.now.others }
    {
        match self.others.range(name..).next() {
            Some(first) => name.zone_of(first),
            None => false,
        }
    }
}

/// The owners of sets of types other than those of denial. Fails only for lack of memory.
fn other_owners(alloc: Global, sets: &SetMap) -> Result<BTreeSet<LowerName>, ProtoError>
    ensures ok { IfOk result (λ names. names.keys ≡ other_owners sets.now) }
    ensures err { IsOkUnless result ProtoError.Memory }
{
    let names = other_names(alloc, sets)?;
    Ok(collect_names(alloc, names)?)
}

/// These owners, in one pass. Fails only for lack of memory.
fn other_names(alloc: Global, sets: &SetMap) -> Result<Vec<LowerName>, ProtoError>
    ensures names { IfOk result (λ names. HasOwners names.items sets.now) }
    ensures ordered { IsStrictlySortedBy key_cmp (keys_of sets.now) }
    ensures err { IsOkUnless result ProtoError.Memory }
{
    let mut names: Vec<LowerName> = Vec::new(alloc);
    for (key, _) in sets.iter() {
        // The sets of a name are together.
        if !is_denial_type(key.record_type) && !is_last(&names, &key.name) {
            names.push(key.name.clone()?)?;
        }
    }
    Ok(names)
}

/// Whether a name is the last in a list.
fn is_last(names: &[LowerName], name: &LowerName) -> bool
    ensures { IsTrue result → Contains names.now name.now }
{
    match names.last() {
        Some(last) => last == name,
        None => false,
    }
}

/// Whether the name of its least key, that of type 0, owns a set of a type other than those of denial. At most three keys are read.
fn owns_other(sets: &SetMap, least: &RrKey) -> bool
    requires { least.now.record_type.0 ≡ 0 }
    ensures { result
        ≡ list_any (λ t. not (is_denial_type t)) (types_at sets.now least.now.name) }
{
    for (key, _) in sets.from(least) {
        if key.name != least.name {
            break;
        }
        if !is_denial_type(key.record_type) {
            return true;
        }
    }
    false
}
