//! Sets that are put into the record map together, and taken out again.
ghost use Rattle.std.specs.Prelude.{◌≡◌, ℕ, ◌+◌, ◌≤◌, Bool, not, List, [], ◌∷◌, filter, Some, MatchOption, IsTrue, IfSome, IfOk, OnOk, OnErr, IsOkUnless, option_map, unwrap_or, vec_len, vec_capacity};
ghost use Rattle.std.specs.List.{list_any};
ghost use Rattle.std.specs.List.Sorted.{IsStrictlySortedBy};
ghost use Rattle.std.specs.Map.{keys_of};
ghost use Rattle.std.specs.Option.{option_or, IfNone};
ghost use Rattle.zone_proto.specs.declared.rr_key.RrKey.{RrKey as Key};
ghost use Rattle.zone_proto.specs.Keys.{key_cmp, key_eq};
ghost use Rattle.zone_proto.specs.Names.{Name};
ghost use Rattle.zone_frozen.specs.Sets.{InsertsSets, MovesSets};
ghost use Rattle.zone_map.specs.DenialOwners.{listed_of};
ghost use Rattle.zone_map.specs.Puts.{with_exchanged, with_before, without_all, without_denials, without_added, Restores};
ghost use Rattle.zone_map.specs.Zones.{Sets, set_at, IsZone};

use crate::keys_ahead::KeysAhead;
use crate::new_sets::{NewSets, collect_entries};
use crate::owner_index::OwnerIndex;
use crate::record_map::{RecordMap, is_denial_type};
use std::alloc::Global;
use std::collections::BTreeMap;
use std::marker::Model;
use std::mem::replace;
use zone_frozen::SetMap;
use zone_proto::{ProtoError, RecordSet, RrKey};

/// What was in a record map before sets were put into it. With it they are taken out again, which doesn't allocate.
#[derive(Drop)]
pub struct Replaced {
    /// The sets in whose place others came, each under its key.
    exchanged: Vec<(RrKey, RecordSet)>,
    /// The keys under which none stood. None if sets of denial alone came, and none stood.
    added: Option<Vec<RrKey>>,
    /// The index as it was, where another one came.
    index: Option<OwnerIndex>,
}

impl Model for Replaced {
    ghost use Rattle.zone_map.specs.Puts.{Before};

    ghost Value = { Before };

    ghost use Rattle.std.specs.Prelude.{option_map};

    ghost view = { λ r.
        record {
          exchanged = r.exchanged.items;
          added = option_map (λ keys. keys.items) r.added;
          owners = r.index;
        } };
}

/// Sets that are to be put into a map, in the order of their keys.
#[derive(Drop)]
struct Parted {
    /// Those under whose keys sets are there.
    common: Vec<(RrKey, RecordSet)>,
    /// The others.
    fresh: BTreeMap<RrKey, RecordSet>,
    /// The keys of the others. None if these are sets of denial alone, and none is there.
    added: Option<Vec<RrKey>>,
}

impl RecordMap {
    /// Puts new sets in, in place of those that are under their keys. What was there is handed out. Fails only for lack
    /// of memory, which leaves the map as it was.
    pub fn put_all(&mut self, alloc: Global, sets: NewSets) -> Result<Replaced, ProtoError>
        ensures ok { OnOk result
            ((n : Name) (t : ℕ)
            → set_at self.new n t ≡ option_or (set_at sets n t) (set_at self.old n t)) }
        ensures before { IfOk result (λ replaced. Restores replaced self.new self.old) }
        ensures zone { OnOk result (IsZone sets) }
        ensures err { IsOkUnless result ProtoError.Memory }
        ensures same { OnErr result (self.new ≡ self.old) }
    {
        let parted = self.part(alloc, sets.into_map())?;
        let Parted {
            common,
            fresh,
            added,
        } = parted;
        let mut exchanged = Vec::with_capacity(alloc, common.len())?;
        exchange(&mut self.sets, common, &mut exchanged);
        match add(alloc, &mut self.sets, &mut self.index, fresh) {
            Ok(index) => Ok(Replaced {
                exchanged,
                added,
                index,
            }),
            Err(error) => {
                put_back(&mut self.sets, added, exchanged);
                Err(error)
            }
        }
    }

    /// Puts back what was in the map before sets were put into it. Doesn't allocate.
    pub fn put_back(&mut self, replaced: Replaced)
        requires { (sets : Sets) × Restores replaced self.old sets }
        ensures { (sets : Sets) → Restores replaced self.old sets → self.new ≡ sets }
    {
        let Replaced {
            exchanged,
            added,
            index,
        } = replaced;
        put_back(&mut self.sets, added, exchanged);
        if let Some(index) = index {
            self.index = index;
        }
    }
}

impl RecordMap {
    /// Parts sets by whether others are under their keys.
    fn part(&self, alloc: Global, more: BTreeMap<RrKey, RecordSet>) -> Result<Parted, ProtoError>
        ensures common { IfOk result
            (λ parted. parted.common.items
            ≡ filter (λ e. list_any (key_eq e.0) (keys_of self.now)) more.entries) }
        ensures fresh { IfOk result
            (λ parted. parted.fresh.entries
            ≡ filter (λ e. not (list_any (key_eq e.0) (keys_of self.now))) more.entries) }
        ensures added { IfOk result
            (λ parted. IfSome parted.added (λ keys. keys.items ≡ keys_of parted.fresh.entries)) }
        ensures denials { IfOk result
            (λ parted. IfNone parted.added
            ((parted.common.items ≡ []) × (without_denials self.now ≡ self.now)
            × (without_denials parted.fresh.entries ≡ []))) }
        ensures err { IsOkUnless result ProtoError.Memory }
    {
        // Their keys are those of all sets of denial that the map has then, so that they needn't be copied.
        if self.index.is_without_denials() && are_denials(&more) {
            return Ok(Parted {
                common: Vec::new(alloc),
                fresh: more,
                added: None,
            });
        }
        part_by_keys(alloc, &self.sets, more)
    }
}

/// Parts sets by whether others are under their keys, which are copied. Where none do, the map stays as it is.
fn part_by_keys(
    alloc: Global,
    sets: &SetMap,
    more: BTreeMap<RrKey, RecordSet>,
) -> Result<Parted, ProtoError>
    ensures common { IfOk result
        (λ parted. parted.common.items
        ≡ filter (λ e. list_any (key_eq e.0) (keys_of sets.now)) more.entries) }
    ensures fresh { IfOk result
        (λ parted. parted.fresh.entries
        ≡ filter (λ e. not (list_any (key_eq e.0) (keys_of sets.now))) more.entries) }
    ensures added { IfOk result
        (λ parted. option_map (λ keys. keys.items) parted.added
        ≡ Some (keys_of parted.fresh.entries)) }
    ensures err { IsOkUnless result ProtoError.Memory }
{
    let added = absent_keys(alloc, sets, &more)?;
    if added.len() == more.len() {
        return Ok(Parted {
            common: Vec::new(alloc),
            fresh: more,
            added: Some(added),
        });
    }
    let (common, fresh) = separate(alloc, more, added.as_slice())?;
    let fresh = collect_entries(alloc, fresh)?;
    Ok(Parted {
        common,
        fresh,
        added: Some(added),
    })
}

/// Whether all sets are of a type of denial.
fn are_denials(sets: &BTreeMap<RrKey, RecordSet>) -> bool
    ensures { IsTrue result → without_denials sets.now.entries ≡ [] }
{
    for (key, _) in sets.iter() {
        if !is_denial_type(key.record_type) {
            return false;
        }
    }
    true
}

/// The keys of a map under which no sets are in another one: one pass over both maps.
fn absent_keys(
    alloc: Global,
    sets: &SetMap,
    more: &BTreeMap<RrKey, RecordSet>,
) -> Result<Vec<RrKey>, ProtoError>
    ensures ok { IfOk result
        (λ keys. keys.items
        ≡ filter (λ k. not (list_any (key_eq k) (keys_of sets.now)))
        (keys_of more.now.entries)) }
    ensures err { IsOkUnless result ProtoError.Memory }
{
    let mut absent = Vec::new(alloc);
    let mut ahead = KeysAhead::new(sets.iter());
    for key in more.keys() {
        if !ahead.has(key) {
            absent.push(key.clone()?)?;
        }
    }
    Ok(absent)
}

/// The sets of a map under whose keys others stand, and those under whose keys none do, which are `added`.
fn separate(
    alloc: Global,
    more: BTreeMap<RrKey, RecordSet>,
    added: &[RrKey],
) -> Result<(Vec<(RrKey, RecordSet)>, Vec<(RrKey, RecordSet)>), ProtoError>
    requires { (stands : Key → Bool)
        × (added.now ≡ filter (λ k. not (stands k)) (keys_of more.entries)) }
    ensures common { IfOk result
        (λ parts. (stands : Key → Bool)
        → added.now ≡ filter (λ k. not (stands k)) (keys_of more.entries)
        → parts.0.items ≡ filter (λ e. stands e.0) more.entries) }
    ensures fresh { IfOk result
        (λ parts. (stands : Key → Bool)
        → added.now ≡ filter (λ k. not (stands k)) (keys_of more.entries)
        → parts.1.items ≡ filter (λ e. not (stands e.0)) more.entries) }
    ensures err { IsOkUnless result ProtoError.Memory }
{
    let mut common = Vec::with_capacity(alloc, more.len() - added.len())?;
    let mut fresh = Vec::with_capacity(alloc, added.len())?;
    let mut left = added;
    for (key, set) in more {
        match behind(left, &key) {
            Some(others) => {
                fresh.push((key, set))?;
                left = others;
            }
            None => common.push((key, set))?,
        }
    }
    Ok((common, fresh))
}

/// The keys behind a key, if it is the first of these.
fn behind<'k>(keys: &'k [RrKey], key: &RrKey) -> Option<&'k [RrKey]>
    ensures { MatchOption result ((others : List Key) → ¬ (keys.now ≡ key.now ∷ others))
        (λ others. keys.now ≡ key.now ∷ others.now) }
{
    let (first, others) = keys.split_first()?;
    key.same_as(first).then_some(others)
}

/// Puts sets in place of those that are under their keys, which go behind those of `exchanged`, where there is room.
fn exchange(
    sets: &mut SetMap,
    common: Vec<(RrKey, RecordSet)>,
    exchanged: &mut Vec<(RrKey, RecordSet)>,
)
    requires room { vec_len exchanged.old + vec_len common ≤ vec_capacity exchanged.old }
    requires ordered { IsStrictlySortedBy key_cmp (keys_of sets.old) }
    ensures put { sets.new ≡ with_exchanged sets.old common.items }
    ensures before { with_before sets.new exchanged.new.items
        ≡ with_before sets.old exchanged.old.items }
    ensures ordered { IsStrictlySortedBy key_cmp (keys_of sets.new) }
{
    for (key, set) in common {
        if let Some(stood) = sets.replace(&key, set) {
            exchanged.push_reserved((key, stood));
        }
    }
}

/// Adds sets under whose keys none stand, and makes the index anew. The answer is the index as it was, if another one came in
/// its place.
fn add(
    alloc: Global,
    sets: &mut SetMap,
    index: &mut OwnerIndex,
    mut fresh: BTreeMap<RrKey, RecordSet>,
) -> Result<Option<OwnerIndex>, ProtoError>
    requires { IsStrictlySortedBy key_cmp (keys_of sets.old) }
    ensures added { OnOk result (InsertsSets sets.old fresh.entries sets.new) }
    ensures moved { (rest : Sets) × MovesSets sets.old fresh.entries sets.new rest }
    ensures index { OnOk result
        ((had : Sets) → keys_of sets.old ≡ keys_of had → index.old ≡ listed_of had
        → index.new ≡ listed_of sets.new) }
    ensures was { IfOk result (λ was. unwrap_or was index.new ≡ index.old) }
    ensures same { OnErr result (index.new ≡ index.old) }
    ensures err { IsOkUnless result ProtoError.Memory }
{
    if fresh.is_empty() {
        return Ok(None);
    }
    sets.append(alloc, &mut fresh)?;
    // Of the merged map: while two maps are merged they take most memory, and no index is beside them.
    let made = OwnerIndex::of_map(alloc, sets)?;
    Ok(Some(replace(index, made)))
}

/// Takes out the sets that were added, and puts back those that were exchanged, the last one first.
fn put_back(sets: &mut SetMap, added: Option<Vec<RrKey>>, mut exchanged: Vec<(RrKey, RecordSet)>)
    ensures { sets.new
        ≡ with_before (without_added sets.old (option_map (λ keys. keys.items) added))
        exchanged.items }
{
    match added {
        Some(keys) => remove_all(sets, keys),
        None => remove_denials(sets),
    }
    while let Some((key, stood)) = exchanged.pop() {
        let _ = sets.replace(&key, stood);
    }
}

/// Takes out the sets under these keys.
fn remove_all(sets: &mut SetMap, keys: Vec<RrKey>)
    ensures { sets.new ≡ without_all sets.old keys.items }
{
    for key in keys {
        let _ = sets.remove(&key);
    }
}

/// Takes out all sets of denial.
fn remove_denials(sets: &mut SetMap)
    ensures { sets.new ≡ without_denials sets.old }
{
    sets.retain(|key, _| !is_denial_type(key.record_type));
}
