//! The names that a change affects, hashed.
ghost use Rattle.std.specs.Prelude.{◌≡◌, ◌≢◌, ◌++◌, ◌∷◌, [], Some, map, option_map, IfErr, IfOk, OnOk};
ghost use Rattle.std.specs.List.Sorted.{IsPermutation};
ghost use Rattle.zone_denial.specs.Nsec3Zones.{hash_with};
ghost use Rattle.hashed_changes.specs.AffectedPlaces.{AreAffected, AreInTurn, IsAffected, types_of_set};
ghost use Rattle.hashed_changes.specs.Places.{AreInOrder};

use crate::named::gets_set;
use crate::places::{Affected, place_of};
use crate::renew_fault::RenewFault;
use crate::types::nsec3_types;
use std::alloc::Global;
use zone_map::RecordMap;
use zone_proto::{LowerName, NSEC3PARAM, Nsec3Hash, ProtoError, RecordType, Seq};

/// The places of these names in the order of their owners, each with its types if it gets an NSEC3 set.
#[tactic(auto, using(crate::proofs::AffectedPlaces::sorted_places))]
pub(crate) fn affected_places<H: Nsec3Hash>(
    alloc: Global,
    zone: &RecordMap,
    origin: &LowerName,
    names: &[LowerName],
    hash: &H,
    parameters: &NSEC3PARAM,
) -> Result<Vec<Affected>, RenewFault>
    ensures places { IfOk result (λ places. AreAffected origin.now zone.now
        (hash_with (H.digest_of hash.now) parameters.now) parameters.now.opt_out names.now
        places.items) }
    ensures order { IfOk result (λ places. AreInOrder places.items) }
    ensures unclosed { IfErr result (λ f. f ≢ RenewFault.Unclosed) }
{
    let mut places = places_in_turn(alloc, zone, origin, names, hash, parameters)?;
    put_in_order(&mut places);
    Ok(places)
}

/// Sorts places by their owners. Takes no memory.
fn put_in_order(places: &mut Vec<Affected>)
    ensures permutation { IsPermutation places.old.items places.new.items }
    ensures order { AreInOrder places.new.items }
{
    places.sort_unstable_by(|one, other| one.place.owner.cmp(&other.place.owner));
}

/// The places of these names, one for one.
fn places_in_turn<H: Nsec3Hash>(
    alloc: Global,
    zone: &RecordMap,
    origin: &LowerName,
    names: &[LowerName],
    hash: &H,
    parameters: &NSEC3PARAM,
) -> Result<Vec<Affected>, RenewFault>
    ensures places { IfOk result (λ places. AreInTurn origin.now zone.now
        (hash_with (H.digest_of hash.now) parameters.now) parameters.now.opt_out names.now
        places.items) }
    ensures unclosed { IfErr result (λ f. f ≢ RenewFault.Unclosed) }
{
    let mut places = Vec::new(alloc);
    for name in names {
        let place = affected_place(alloc, zone, origin, name, hash, parameters)?;
        push(&mut places, place)?;
    }
    Ok(places)
}

/// Puts a place behind others. Refused by `Memory` alone.
fn push(places: &mut Vec<Affected>, place: Affected) -> Result<(), ProtoError>
    ensures { OnOk result (places.new.items ≡ places.old.items ++ place ∷ []) }
{
    places.push(place)?;
    Ok(())
}

/// The place of a name, with its types if it gets an NSEC3 set.
fn affected_place<H: Nsec3Hash>(
    alloc: Global,
    zone: &RecordMap,
    origin: &LowerName,
    name: &LowerName,
    hash: &H,
    parameters: &NSEC3PARAM,
) -> Result<Affected, RenewFault>
    ensures place { IfOk result (IsAffected origin.now zone.now
        (hash_with (H.digest_of hash.now) parameters.now) parameters.now.opt_out name.now) }
    ensures unclosed { IfErr result (λ f. f ≢ RenewFault.Unclosed) }
{
    let digest = digest_of(hash, name, parameters)?;
    let place = place_of(digest, origin)?;
    let types = types_if_set(alloc, zone, origin, parameters.opt_out, name)?;
    Ok(Affected { place, types })
}

/// The digest of a name by a zone's parameters (RFC 5155 section 5).
fn digest_of<H: Nsec3Hash>(
    hash: &H,
    name: &LowerName,
    parameters: &NSEC3PARAM,
) -> Result<Seq<u8>, RenewFault>
    ensures digest { IfOk result
        (λ d. hash_with (H.digest_of hash.now) parameters.now name.now ≡ Some d) }
    ensures unclosed { IfErr result (λ f. f ≢ RenewFault.Unclosed) }
{
    match hash.hash(
        parameters.algorithm,
        parameters.salt.as_slice(),
        name,
        parameters.iterations,
    ) {
        Ok(digest) => Ok(Seq::from_vec(digest)),
        Err(ProtoError::Memory) => Err(RenewFault::Memory),
        Err(_) => Err(RenewFault::Hash),
    }
}

/// The types that the NSEC3 set of a name lists, if it gets one. Refused by `Memory` alone.
#[tactic(auto, using(crate::proofs::AffectedPlaces::no_types, crate::proofs::AffectedPlaces::some_types))]
fn types_if_set(
    alloc: Global,
    zone: &RecordMap,
    origin: &LowerName,
    opt_out: bool,
    name: &LowerName,
) -> Result<Option<Seq<RecordType>>, ProtoError>
    ensures { IfOk result (λ types. option_map (λ ts. map (λ t. t.0) ts) types
        ≡ types_of_set origin.now zone.now opt_out name.now) }
{
    let gets = gets_set(alloc, zone, origin, opt_out, name)?;
    if !gets {
        return Ok(None);
    }
    let types = nsec3_types(alloc, zone, origin, name)?;
    Ok(Some(types))
}
