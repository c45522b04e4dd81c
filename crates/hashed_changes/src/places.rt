//! Digests with their owners, in the order of these, and which of them comes next after an owner.
ghost use Rattle.std.specs.Prelude.{◌≡◌, ◌≢◌, ◌++◌, ◌∷◌, [], Some, None, List, map, option_map, option_copied, IfOk, OnOk, IfErr, IfSome, IfNone, IsOkUnless};
ghost use Rattle.zone_proto.specs.HashedOwners.{hashed_owner};
ghost use Rattle.zone_proto.specs.Names.{name_cmp};
ghost use Rattle.zone_denial.specs.Covering.{covers};
ghost use Rattle.hashed_changes.specs.Among.{is_among};
ghost use Rattle.hashed_changes.specs.Faults.{IsUnclosedAt};
ghost use Rattle.hashed_changes.specs.Places.{fresh_places, owners_of, places_of, comes_before, AreInOrder, ArePlacesInOrder, IsNextPlace};
ghost use Rattle.hashed_changes.specs.Standing.{said, said_next, IsFollowed};

use crate::renew_fault::RenewFault;
use std::alloc::Global;
use zone_denial::chain_sets::first_nsec3;
use zone_denial::nsec3_sets::hashed_owner;
use zone_map::RecordMap;
use zone_proto::{LowerName, NSEC3, ProtoError, RecordType, RrKey, Seq};

/// A digest, and the owner of the NSEC3 set of a name that has it.
#[derive(Drop)]
pub(crate) struct Place {
    pub(crate) owner: LowerName,
    pub(crate) digest: Seq<u8>,
}

/// The place of a name that a change affects, and the types that the name's NSEC3 set lists, if the name gets one.
#[derive(Drop)]
pub(crate) struct Affected {
    pub(crate) place: Place,
    pub(crate) types: Option<Seq<RecordType>>,
}

/// The place of a digest.
pub(crate) fn place_of(digest: Seq<u8>, origin: &LowerName) -> Result<Place, RenewFault>
    ensures digest { IfOk result (λ p. p.digest ≡ digest) }
    ensures owner { IfOk result (λ p. p.owner ≡ hashed_owner origin.now p.digest) }
    ensures unclosed { IfErr result (λ f. f ≢ RenewFault.Unclosed) }
{
    match hashed_owner(digest.as_slice(), origin) {
        Ok(owner) => Ok(Place { owner, digest }),
        Err(ProtoError::Memory) => Err(RenewFault::Memory),
        Err(_) => Err(RenewFault::OwnerTooLong),
    }
}

/// The data of the NSEC3 set of an owner, if it has one. Refused by `Memory` alone.
pub(crate) fn said<'z>(
    zone: &'z RecordMap,
    owner: &LowerName,
) -> Result<Option<&'z NSEC3>, ProtoError>
    ensures ok { IfOk result (λ found. option_copied found ≡ said zone.now owner.now) }
    ensures err { IsOkUnless result ProtoError.Memory }
{
    let key = RrKey::new(owner.clone()?, RecordType::NSEC3);
    Ok(match zone.get(&key) {
        Some(set) => first_nsec3(set),
        None => None,
    })
}

/// The place that comes next by the NSEC3 set of an owner, if it has one.
fn said_next(
    zone: &RecordMap,
    origin: &LowerName,
    owner: &LowerName,
) -> Result<Option<Place>, RenewFault>
    ensures next { IfOk result
        (λ found. option_map (λ p. p.digest) found ≡ said_next zone.now owner.now) }
    ensures owner { IfOk result
        (λ found. IfSome found (λ p. p.owner ≡ hashed_owner origin.now p.digest)) }
    ensures unclosed { IfErr result (λ f. f ≢ RenewFault.Unclosed) }
{
    let found = said(zone, owner)?;
    match found {
        Some(data) => {
            let place = place_of(data.next_hashed_owner_name.clone()?, origin)?;
            Ok(Some(place))
        }
        None => Ok(None),
    }
}

/// Whether a name is the owner of one of these places. It halves them.
pub(crate) fn is_moved(affected: &[Affected], name: &LowerName) -> bool
    requires { AreInOrder affected.now }
    ensures { result ≡ is_among (owners_of affected.now) name.now }
{
    match affected.binary_search_by(|one| one.place.owner.cmp(name)) {
        Ok(_) => true,
        Err(_) => false,
    }
}

/// The first place by which an owner is followed that is none of the affected ones, by what the NSEC3 sets say. None where one of them says nothing,
/// or where they lead past more than these.
pub(crate) fn kept_after(
    zone: &RecordMap,
    origin: &LowerName,
    affected: &[Affected],
    owner: &LowerName,
) -> Result<Option<Place>, RenewFault>
    requires { AreInOrder affected.now }
    ensures followed { IfOk result (λ found. IfSome found
        (λ p. IsFollowed origin.now zone.now (owners_of affected.now) owner.now p.digest)) }
    ensures owner { IfOk result
        (λ found. IfSome found (λ p. p.owner ≡ hashed_owner origin.now p.digest)) }
    ensures none { IfOk result (λ found. IfNone found
        (IsUnclosedAt origin.now zone.now affected.now owner.now)) }
    ensures unclosed { IfErr result (λ f. f ≢ RenewFault.Unclosed) }
{
    let mut at = owner.clone()?;
    for _step in 0..affected.len() + 1 {
        let found = said_next(zone, origin, &at)?;
        let Some(place) = found else {
            return Ok(None);
        };
        if !is_moved(affected, &place.owner) {
            return Ok(Some(place));
        }
        at = place.owner;
    }
    Ok(None)
}

/// The places of the affected names that get sets, in their order. Refused by `Memory` alone.
pub(crate) fn fresh_places(alloc: Global, affected: &[Affected]) -> Result<Vec<Place>, ProtoError>
    ensures ok { IfOk result (λ places. places.items ≡ fresh_places affected.now) }
    ensures err { IsOkUnless result ProtoError.Memory }
{
    let mut places = Vec::new(alloc);
    for one in affected {
        push_if_fresh(one, &mut places)?;
    }
    Ok(places)
}

/// Puts the place of an affected name behind others, if the name gets a set. Refused by `Memory` alone.
#[tactic(auto, using(crate::proofs::InOrder::put_behind, crate::proofs::InOrder::not_put))]
fn push_if_fresh(one: &Affected, places: &mut Vec<Place>) -> Result<(), ProtoError>
    ensures ok { OnOk result
        (places.new.items ≡ places.old.items ++ fresh_places (one.now ∷ [])) }
    ensures err { IsOkUnless result ProtoError.Memory }
{
    if one.types.is_some() {
        let owner = one.place.owner.clone()?;
        let digest = one.place.digest.clone()?;
        places.push(Place { owner, digest })?;
    }
    Ok(())
}

/// The place that comes next after an owner on the circle: of this one, if there is any, and of those of the affected names that get sets. It halves
/// these.
pub(crate) fn next_of<'p>(
    kept: Option<&'p Place>,
    fresh: &'p [Place],
    owner: &LowerName,
) -> Option<&'p Place>
    requires { ArePlacesInOrder fresh.now }
    ensures { IsNextPlace owner.now (places_of (option_copied kept.entry) fresh.now)
        (option_copied result) }
{
    let next = next_among(fresh, owner);
    match kept {
        Some(place) => first_of(owner, place, next),
        None => next,
    }
}

/// The place that comes next after an owner on the circle of some.
fn next_among<'p>(places: &'p [Place], owner: &LowerName) -> Option<&'p Place>
    requires { ArePlacesInOrder places.now }
    ensures { IsNextPlace owner.now places.now (option_copied result) }
{
    let after = places.partition_point(|place| &place.owner <= owner);
    if after < places.len() {
        return Some(&places[after]);
    }
    places.first()
}

/// Of a place, and of others of which this one comes next after an owner, if there are any, the one that does so.
#[tactic(auto, using(crate::proofs::NextPlaces::comes_first, crate::proofs::NextPlaces::comes_later))]
fn first_of<'p>(owner: &LowerName, place: &'p Place, next: Option<&'p Place>) -> Option<&'p Place>
    ensures { (others : List Place)
        → IsNextPlace owner.now others (option_copied next.entry)
        → IsNextPlace owner.now (place.now ∷ others) (option_copied result) }
{
    if comes_before(owner, place, next) {
        return Some(place);
    }
    next
}

/// Whether a place comes before another one, if there is any, on the way up from an owner.
fn comes_before(owner: &LowerName, place: &Place, other: Option<&Place>) -> bool
    ensures { result ≡ comes_before owner.now place.now (option_copied other.entry) }
{
    match other {
        Some(other) => covers(owner, &other.owner, &place.owner),
        None => true,
    }
}

/// Whether a name is strictly between an owner and its next on the circle.
fn covers(owner: &LowerName, next: &LowerName, name: &LowerName) -> bool
    ensures { result ≡ covers name_cmp owner.now next.now name.now }
{
    (owner < name && name < next) || (next <= owner && (owner < name || name < next))
}
