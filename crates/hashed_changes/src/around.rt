//! What lies around the affected owners, found of one after the other in their order: the owners between two that aren't affected have the same around them.
ghost use Rattle.std.specs.Prelude.{◌≡◌, None, option_copied, IfErr, IfOk, IfSome, IsTrue};
ghost use Rattle.std.specs.List.{Contains};
ghost use Rattle.zone_proto.specs.HashedOwners.{hashed_owner};
ghost use Rattle.zone_proto.specs.Types.{NSEC3 as nsec3_type};
ghost use Rattle.zone_map.specs.Zones.{owners};
ghost use Rattle.hashed_changes.specs.Faults.{IsUnclosedAt, StandsForNone};
ghost use Rattle.hashed_changes.specs.Passing.{HasNoneBetween, IsAround, IsPassed};
ghost use Rattle.hashed_changes.specs.Places.{owners_of, AreInOrder};
ghost use Rattle.hashed_changes.specs.Standing.{IsFollowed};

use crate::nearest::nearest_owner;
use crate::places::{Affected, Place, kept_after};
use crate::renew_fault::RenewFault;
use zone_map::{Reads, RecordMap};
use zone_proto::{LowerName, RecordType};

/// What lies around an owner that isn't affected: the nearest owner of NSEC3 before it, and the place by which that is followed.
#[derive(Drop)]
pub(crate) struct Around {
    pub(crate) nearest: LowerName,
    pub(crate) kept: Place,
}

/// An affected owner, and what lies around it: nothing where each owner of NSEC3 is affected.
#[derive(Drop)]
pub(crate) struct Passed {
    pub(crate) owner: LowerName,
    pub(crate) around: Option<Around>,
}

/// An affected owner with what lies around it, if another one was passed last. Where the owners are passed in order, it costs what lies between the two.
#[tactic(auto, using(crate::proofs::Passing::is_passed))]
pub(crate) fn pass(
    zone: &RecordMap,
    origin: &LowerName,
    affected: &[Affected],
    last: Option<Passed>,
    one: &Affected,
) -> Result<Passed, RenewFault>
    requires order { AreInOrder affected.now }
    requires one { Contains affected.now one.now }
    requires last { IfSome last (IsPassed origin.now zone.now (owners_of affected.now)) }
    ensures passed { IfOk result (IsPassed origin.now zone.now (owners_of affected.now)) }
    ensures owner { IfOk result (λ p. p.owner ≡ one.now.place.owner) }
    ensures unclosed { IfErr result
        (λ f. f ≡ RenewFault.Unclosed → StandsForNone origin.now zone.now affected.now) }
{
    let around = around_next(zone, origin, affected, last, &one.place.owner)?;
    let owner = one.place.owner.clone()?;
    Ok(Passed { owner, around })
}

/// What lies around an owner, if another one was passed last.
fn around_next(
    zone: &RecordMap,
    origin: &LowerName,
    affected: &[Affected],
    last: Option<Passed>,
    owner: &LowerName,
) -> Result<Option<Around>, RenewFault>
    requires order { AreInOrder affected.now }
    requires last { IfSome last (IsPassed origin.now zone.now (owners_of affected.now)) }
    ensures around { IfOk result (IsAround origin.now zone.now (owners_of affected.now) owner.now) }
    ensures unclosed { IfErr result
        (λ f. f ≡ RenewFault.Unclosed → StandsForNone origin.now zone.now affected.now) }
{
    match last {
        Some(last) => around_after(zone, origin, affected, last, owner),
        None => around_of(zone, origin, affected, owner),
    }
}

/// What lies around an owner, where this one was passed last: the same, if no owner of NSEC3 stands between the two.
fn around_after(
    zone: &RecordMap,
    origin: &LowerName,
    affected: &[Affected],
    last: Passed,
    owner: &LowerName,
) -> Result<Option<Around>, RenewFault>
    requires order { AreInOrder affected.now }
    requires last { IsPassed origin.now zone.now (owners_of affected.now) last }
    ensures around { IfOk result (IsAround origin.now zone.now (owners_of affected.now) owner.now) }
    ensures unclosed { IfErr result
        (λ f. f ≡ RenewFault.Unclosed → StandsForNone origin.now zone.now affected.now) }
{
    if has_none_between(zone, &last.owner, owner) {
        return Ok(last.around);
    }
    around_of(zone, origin, affected, owner)
}

/// Whether a name isn't before another one, and no owner of NSEC3 stands between the two. It reads one owner. Doesn't allocate.
fn has_none_between(zone: &RecordMap, last: &LowerName, owner: &LowerName) -> bool
    ensures { IsTrue result
        → HasNoneBetween (owners zone.now nsec3_type) last.now owner.now }
{
    if owner < last {
        return false;
    }
    let mut reads = Reads::new();
    let mut earlier = zone.denial_owners_before(RecordType::NSEC3, owner);
    match earlier.read_last(&mut reads) {
        Some(nearest) => nearest <= last,
        None => true,
    }
}

/// What lies around an owner.
#[tactic(auto, using(crate::proofs::Passing::none_around, crate::proofs::Passing::some_around, crate::proofs::Closed::unclosed_near))]
fn around_of(
    zone: &RecordMap,
    origin: &LowerName,
    affected: &[Affected],
    owner: &LowerName,
) -> Result<Option<Around>, RenewFault>
    requires { AreInOrder affected.now }
    ensures around { IfOk result (IsAround origin.now zone.now (owners_of affected.now) owner.now) }
    ensures unclosed { IfErr result
        (λ f. f ≡ RenewFault.Unclosed → StandsForNone origin.now zone.now affected.now) }
{
    let found = nearest_owner(zone, affected, owner);
    match found {
        Some(nearest) => {
            let kept = kept_place(zone, origin, affected, nearest)?;
            let nearest = nearest.clone()?;
            Ok(Some(Around { nearest, kept }))
        }
        None => Ok(None),
    }
}

/// The place by which an owner is followed that is none of the affected ones.
fn kept_place(
    zone: &RecordMap,
    origin: &LowerName,
    affected: &[Affected],
    nearest: &LowerName,
) -> Result<Place, RenewFault>
    requires { AreInOrder affected.now }
    ensures followed { IfOk result
        (λ p. IsFollowed origin.now zone.now (owners_of affected.now) nearest.now p.digest) }
    ensures owner { IfOk result (λ p. p.owner ≡ hashed_owner origin.now p.digest) }
    ensures unclosed { IfErr result (λ f. f ≡ RenewFault.Unclosed
        → IsUnclosedAt origin.now zone.now affected.now nearest.now) }
{
    let found = kept_after(zone, origin, affected, nearest)?;
    match found {
        Some(place) => Ok(place),
        None => Err(RenewFault::Unclosed),
    }
}
