//! Found sets, of which equal ones are listed once.
ghost use Rattle.std.specs.Prelude.{◌≡◌, ◌≤◌, [], map, length, Some, IfOk, OnOk, OnErr, IsOkUnless};
ghost use Rattle.std.specs.List.{list_any};
ghost use Rattle.std.specs.Map.{lookup};
ghost use Rattle.zone_proto.specs.declared.rr_key.RrKey.{RrKey as Key};
ghost use Rattle.zone_proto.specs.Keys.{key_eq};
ghost use Rattle.zone_proto.specs.Results.{IsCopy};
ghost use Rattle.zone_proto.specs.Sets.{same_set};
ghost use Rattle.zone_lookup.specs.FoundSets.{found_set};
ghost use Rattle.zone_lookup.specs.ListedSets.{set_key, HavePlaces, place_after};
ghost use Rattle.zone_lookup.specs.Runs.{with_new};

use crate::chain::push;
use crate::found::Found;
use std::alloc::Global;
use std::collections::BTreeMap;
use std::marker::Model;
use zone_proto::{LowerName, ProtoError, RecordSet, RrKey};

// So many sets are compared one by one: for few that is quickest.
const LIST_LIMIT: usize = 16;

/// Found sets in the order in which they came, an equal one once.
pub(crate) struct ListedSets<'z> {
    sets: Vec<Found<'z>>,
    /// Where the sets behind the first few stand, by owner and type.
    places: BTreeMap<RrKey, usize>,
}

/// A call of its own, so that the proofs of all that drop the list don't go into its parts.
impl<'z> Drop for ListedSets<'z> {
    fn drop(self) {
        let ListedSets { sets: _, places: _ } = self;
    }
}

impl<'z> Model for ListedSets<'z> {
    ghost use Rattle.std.specs.Prelude.{List, map};
    ghost use Rattle.zone_proto.specs.Sets.{RRset};
    ghost use Rattle.zone_lookup.specs.FoundSets.{found_set};
    ghost use Rattle.zone_lookup.specs.ListedSets.{HavePlaces};

    ghost Value = { List RRset };

    ghost view = { λ listed. map found_set listed.sets.items };

    ghost invariant = { λ listed.
        HavePlaces (map found_set listed.sets.items) listed.places.entries };
}

impl<'z> ListedSets<'z> {
    /// No sets. Doesn't allocate.
    pub(crate) fn new(alloc: Global) -> ListedSets<'z>
        ensures { result ≡ [] }
    {
        ListedSets {
            sets: Vec::new(alloc),
            places: BTreeMap::new(alloc),
        }
    }

    /// Puts a set behind those that are listed, unless an equal one is. Fails only for lack of memory.
    pub(crate) fn list_new(&mut self, found: Found<'z>) -> Result<(), ProtoError>
        ensures listed { OnOk result
            (self.new ≡ with_new same_set self.old (found_set found.entry)) }
        ensures err { IsOkUnless result ProtoError.Memory }
    {
        if self.sets.len() < LIST_LIMIT {
            if is_among(self.sets.as_slice(), found.set()) {
                return Ok(());
            }
            return push(&mut self.sets, found);
        }
        let key = key_of(found.set())?;
        if is_listed(self.sets.as_slice(), &self.places, &key, found.set()) {
            return Ok(());
        }
        put_place(&mut self.places, key, self.sets.len())?;
        push(&mut self.sets, found)
    }

    /// The sets themselves.
    pub(crate) fn into_vec(self) -> Vec<Found<'z>>
        ensures { map found_set result.items ≡ self.entry }
    {
        let ListedSets { sets, places: _ } = self;
        sets
    }
}

/// The owner of a set, in lower case, and its type. Fails only for lack of memory.
fn key_of(set: &RecordSet) -> Result<RrKey, ProtoError>
    ensures { IsCopy result (set_key set.now) }
{
    let name = LowerName::new(set.name())?;
    Ok(RrKey::new(name, set.record_type()))
}

/// Notes the place of a set. Fails only for lack of memory.
fn put_place(
    places: &mut BTreeMap<RrKey, usize>,
    key: RrKey,
    place: usize,
) -> Result<(), ProtoError>
    ensures ok { OnOk result
        ((k : Key)
        → lookup (key_eq k) places.new.entries ≡ place_after key place places.old.entries k) }
    ensures err { IsOkUnless result ProtoError.Memory }
    ensures same { OnErr result (places.new.entries ≡ places.old.entries) }
{
    places.insert(key, place)?;
    Ok(())
}

/// Whether a set is equal to one that is listed. Equal sets have one owner and one type, so where no place is noted for these,
/// the first few alone are asked.
fn is_listed(
    sets: &[Found<'_>],
    places: &BTreeMap<RrKey, usize>,
    key: &RrKey,
    set: &RecordSet,
) -> bool
    requires many { 16 ≤ length sets.now }
    requires places { HavePlaces (map found_set sets.now) places.now.entries }
    requires key { key.now ≡ set_key set.now }
    ensures { result ≡ list_any (λ f. same_set (found_set f) set.now) sets.now }
{
    match places.get(key) {
        Some(place) => is_among_from(sets, *place, set),
        None => is_among(&sets[..LIST_LIMIT], set),
    }
}

/// Whether a set is equal to one of these. The one at a place is asked before all others: a zone has one set of an owner and a
/// type, so that it is the equal one.
fn is_among_from(sets: &[Found<'_>], place: usize, set: &RecordSet) -> bool
    ensures { result ≡ list_any (λ f. same_set (found_set f) set.now) sets.now }
{
    if let Some(listed) = sets.get(place) {
        if listed.set() == set {
            return true;
        }
    }
    is_among(sets, set)
}

/// Whether a set is equal to one of these.
fn is_among(sets: &[Found<'_>], set: &RecordSet) -> bool
    ensures { result ≡ list_any (λ f. same_set (found_set f) set.now) sets.now }
{
    for listed in sets {
        if listed.set() == set {
            return true;
        }
    }
    false
}
