//! What the NSEC3 sets say that a change of a zone makes others.
ghost use Rattle.std.specs.Prelude.{◌≡◌, ◌++◌, ◌∷◌, [], Some, map, option_copied, None, IfErr, IfOk, OnOk, IfSome, IsSome};
ghost use Rattle.std.specs.List.{Contains};
ghost use Rattle.hashed_changes.specs.Faults.{StandsForNone};
ghost use Rattle.hashed_changes.specs.Passing.{IsPassed};
ghost use Rattle.hashed_changes.specs.Places.{fresh_places, owners_of, places_of, AreInOrder, ArePlacesInOrder};
ghost use Rattle.hashed_changes.specs.Renewal.{with_all_nearest, with_nearest};
ghost use Rattle.hashed_changes.specs.Renewals.{AreRight, IsLinked, LinksAffected, LinksNearest};
ghost use Rattle.hashed_changes.specs.Standing.{said};

use crate::around::{Passed, pass};
use crate::places::{Affected, Place, fresh_places, next_of, said};
use crate::renew_fault::RenewFault;
use std::alloc::Global;
use zone_map::RecordMap;
use zone_proto::{LowerName, ProtoError, RecordType, Seq};

/// What an NSEC3 set says: the digest that comes next, and the types of its name.
#[derive(Drop)]
pub(crate) struct Link {
    pub(crate) next: Seq<u8>,
    pub(crate) types: Seq<RecordType>,
}

/// An owner whose NSEC3 set is made anew, and what the set says, if the owner is to have one.
#[derive(Drop)]
pub(crate) struct Renewal {
    pub(crate) owner: LowerName,
    pub(crate) link: Option<Link>,
}

/// The owners whose NSEC3 sets are made anew where these names are affected, and what their sets say.
pub(crate) fn renewals(
    alloc: Global,
    zone: &RecordMap,
    origin: &LowerName,
    affected: &[Affected],
) -> Result<Vec<Renewal>, RenewFault>
    requires { AreInOrder affected.now }
    ensures owners { IfOk result (λ made. map (λ r. r.owner) made.items
        ≡ with_all_nearest zone.now (owners_of affected.now)) }
    ensures right { IfOk result (λ made. AreRight origin.now zone.now affected.now made.items) }
    ensures unclosed { IfErr result
        (λ f. f ≡ RenewFault.Unclosed → StandsForNone origin.now zone.now affected.now) }
{
    let fresh = fresh_places(alloc, affected)?;
    let mut made = Vec::new(alloc);
    let mut last = None;
    for one in affected {
        let passed = push_renewals(
            zone,
            origin,
            affected,
            fresh.as_slice(),
            last,
            one,
            &mut made,
        )?;
        last = Some(passed);
    }
    Ok(made)
}

/// Puts what the sets say of an affected name and of the nearest owner before it behind others, if another name was passed last.
#[tactic(auto, using(crate::proofs::InOrder::fresh_in_order))]
fn push_renewals(
    zone: &RecordMap,
    origin: &LowerName,
    affected: &[Affected],
    fresh: &[Place],
    last: Option<Passed>,
    one: &Affected,
    made: &mut Vec<Renewal>,
) -> Result<Passed, RenewFault>
    requires order { AreInOrder affected.now }
    requires fresh { fresh.now ≡ fresh_places affected.now }
    requires last { IfSome last (IsPassed origin.now zone.now (owners_of affected.now)) }
    requires one { Contains affected.now one.now }
    ensures passed { IfOk result (IsPassed origin.now zone.now (owners_of affected.now)) }
    ensures owners { OnOk result (map (λ r. r.owner) made.new.items
        ≡ map (λ r. r.owner) made.old.items
        ++ with_nearest zone.now (owners_of affected.now) one.now.place.owner) }
    ensures right { OnOk result (AreRight origin.now zone.now affected.now made.old.items
        → AreRight origin.now zone.now affected.now made.new.items) }
    ensures unclosed { IfErr result
        (λ f. f ≡ RenewFault.Unclosed → StandsForNone origin.now zone.now affected.now) }
{
    let passed = pass(zone, origin, affected, last, one)?;
    match &passed.around {
        Some(around) => {
            let own = renewal_of(Some(&around.kept), fresh, one)?;
            push(made, own)?;
            let before = renewal_before(zone, &around.kept, fresh, &around.nearest)?;
            push(made, before)?;
            Ok(passed)
        }
        None => {
            let own = renewal_of(None, fresh, one)?;
            push(made, own)?;
            Ok(passed)
        }
    }
}

/// Puts one behind others. Refused by `Memory` alone.
fn push(made: &mut Vec<Renewal>, renewal: Renewal) -> Result<(), ProtoError>
    ensures { OnOk result (made.new.items ≡ made.old.items ++ renewal ∷ []) }
{
    made.push(renewal)?;
    Ok(())
}

/// What the set of an affected name says.
fn renewal_of(kept: Option<&Place>, fresh: &[Place], one: &Affected) -> Result<Renewal, RenewFault>
    requires { ArePlacesInOrder fresh.now }
    ensures owner { IfOk result (λ r. r.owner ≡ one.now.place.owner) }
    ensures link { IfOk result (λ r.
        LinksAffected (option_copied kept.entry) fresh.now one.now r.link) }
    ensures unclosed { IfErr result (λ f. f ≡ RenewFault.Unclosed
        → IsSome one.now.types × (places_of (option_copied kept.entry) fresh.now ≡ [])) }
{
    let owner = one.place.owner.clone()?;
    match &one.types {
        Some(types) => {
            let link = link_to(kept, fresh, &one.place.owner, types)?;
            Ok(Renewal {
                owner,
                link: Some(link),
            })
        }
        None => Ok(Renewal { owner, link: None }),
    }
}

/// What the set of the nearest owner before says: the types that it says now, and another next digest.
fn renewal_before(
    zone: &RecordMap,
    kept: &Place,
    fresh: &[Place],
    nearest: &LowerName,
) -> Result<Renewal, RenewFault>
    requires { ArePlacesInOrder fresh.now }
    ensures owner { IfOk result (λ r. r.owner ≡ nearest.now) }
    ensures link { IfOk result (λ r.
        LinksNearest zone.now (Some kept.now) fresh.now nearest.now r.link) }
    ensures unclosed { IfErr result
        (λ f. f ≡ RenewFault.Unclosed → said zone.now nearest.now ≡ None) }
{
    let found = said(zone, nearest)?;
    match found {
        Some(data) => {
            let link = link_to(Some(kept), fresh, nearest, &data.types)?;
            Ok(Renewal {
                owner: nearest.clone()?,
                link: Some(link),
            })
        }
        None => Err(RenewFault::Unclosed),
    }
}

/// A link to the place that comes next after an owner, with these types.
fn link_to(
    kept: Option<&Place>,
    fresh: &[Place],
    owner: &LowerName,
    types: &Seq<RecordType>,
) -> Result<Link, RenewFault>
    requires { ArePlacesInOrder fresh.now }
    ensures link { IfOk result
        (IsLinked (option_copied kept.entry) fresh.now owner.now «types».now) }
    ensures unclosed { IfErr result
        (λ f. f ≡ RenewFault.Unclosed → places_of (option_copied kept.entry) fresh.now ≡ []) }
{
    let next = next_of(kept, fresh, owner);
    match next {
        Some(place) => Ok(Link {
            next: place.digest.clone()?,
            types: types.clone()?,
        }),
        None => Err(RenewFault::Unclosed),
    }
}
