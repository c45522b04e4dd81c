//! The zones that plans sign, in place of those that were planned.
ghost use Rattle.std.specs.Prelude.{◌≡◌, None};
ghost use Rattle.zone_database.specs.Databases.{zones_in};
ghost use Rattle.plan_calls.specs.Calls.{FinishesZone, FinishesZones};
ghost use Rattle.plan_calls.specs.Finishing.{FinishesWhole};
ghost use Rattle.plan_calls.specs.Versions.{FinishesVersion, FinishesWaiting, Puts};
ghost use Rattle.plan_calls.specs.declared.signing_plan.PlannedZone.TheVariants.{Whole as OfWhole};

use crate::finishing::install;
use crate::handle::PlanHandle;
use crate::outcome::PlanOutcome;
use crate::signing_plan::{PlannedZone, SigningPlan};
use crate::versions::{check_ready, finished_version};
use call_handles::Handle;
use held_updates::UpdatedZone;
use signed_versions::WaitingVersion;
use std::alloc::Global;
use std::mem;
use zone_database::{DatabaseHandle, ZoneDatabase};

/// Finishes a plan that was taken out of its handle.
#[tactic(auto, using(crate::proofs::VersionFacts::by_zones, crate::proofs::VersionFacts::closed))]
pub(crate) fn finish_held(
    alloc: Global,
    plan: &mut PlanHandle,
    taken: Box<SigningPlan>,
    zones: &mut DatabaseHandle,
) -> PlanOutcome
    requires { plan.old.held ≡ None }
    ensures { FinishesZones taken.value zones.old.held result plan.new.held zones.new.held }
{
    match zones.take(alloc) {
        Some(mut database) => {
            let outcome = finish_in(alloc, plan, taken, &mut database);
            zones.put(database);
            outcome
        }
        None => {
            plan.put(taken);
            PlanOutcome::Closed
        }
    }
}

/// The same in the zones of a database.
#[tactic(auto, using(crate::proofs::VersionFacts::of_whole, crate::proofs::VersionFacts::of_version, crate::proofs::VersionFacts::of_waiting))]
fn finish_in(
    alloc: Global,
    plan: &mut PlanHandle,
    mut held: Box<SigningPlan>,
    database: &mut ZoneDatabase,
) -> PlanOutcome
    requires { plan.old.held ≡ None }
    ensures { FinishesZone held.value.zone held.value.plan (zones_in database.old) result
        plan.new.held (zones_in database.new) }
{
    match mem::replace(&mut held.zone, PlannedZone::Whole) {
        PlannedZone::Whole => finish_whole(alloc, plan, held, database),
        PlannedZone::Version(version) => finish_version(alloc, plan, held, version, database),
        PlannedZone::Finished(updated) => finish_waiting(alloc, plan, held, updated, database),
    }
}

/// Puts the whole zone of a plan in place of the one that was planned.
#[tactic(auto, using(crate::proofs::VersionFacts::whole_done, crate::proofs::VersionFacts::whole_stays))]
fn finish_whole(
    alloc: Global,
    plan: &mut PlanHandle,
    held: Box<SigningPlan>,
    database: &mut ZoneDatabase,
) -> PlanOutcome
    requires zone { held.value.zone ≡ OfWhole }
    requires plan { plan.old.held ≡ None }
    ensures { FinishesWhole held.value.plan (zones_in database.old) result plan.new.held
        (zones_in database.new) }
{
    match install(alloc, &held.plan, database) {
        Ok(()) => PlanOutcome::Done,
        Err(outcome) => {
            plan.put(held);
            outcome
        }
    }
}

/// Puts a version of a zone in place of the one that an update was made of, with the signatures of its plan.
#[tactic(auto, using(crate::proofs::VersionFacts::version_put, crate::proofs::VersionFacts::version_stays, crate::proofs::VersionFacts::version_given_up))]
fn finish_version(
    alloc: Global,
    plan: &mut PlanHandle,
    mut held: Box<SigningPlan>,
    version: WaitingVersion,
    database: &mut ZoneDatabase,
) -> PlanOutcome
    requires { plan.old.held ≡ None }
    ensures { FinishesVersion held.value.plan version (zones_in database.old) result
        plan.new.held (zones_in database.new) }
{
    if let Err(outcome) = check_ready(alloc, &held.plan, database) {
        held.zone = PlannedZone::Version(version);
        plan.put(held);
        return outcome;
    }
    match finished_version(alloc, version, &held.plan, false) {
        Ok(updated) => put(alloc, updated, database),
        Err(outcome) => outcome,
    }
}

/// The same of one that was finished before.
#[tactic(auto, using(crate::proofs::VersionFacts::waiting_put, crate::proofs::VersionFacts::waiting_stays))]
fn finish_waiting(
    alloc: Global,
    plan: &mut PlanHandle,
    mut held: Box<SigningPlan>,
    updated: Box<UpdatedZone>,
    database: &mut ZoneDatabase,
) -> PlanOutcome
    requires { plan.old.held ≡ None }
    ensures { FinishesWaiting held.value.plan updated (zones_in database.old) result
        plan.new.held (zones_in database.new) }
{
    if let Err(outcome) = check_ready(alloc, &held.plan, database) {
        held.zone = PlannedZone::Finished(updated);
        plan.put(held);
        return outcome;
    }
    put(alloc, Box::into_inner(updated), database)
}

/// Puts a zone after an update in place of the one that was updated.
fn put(alloc: Global, updated: UpdatedZone, database: &mut ZoneDatabase) -> PlanOutcome
    ensures { Puts updated (zones_in database.old) result (zones_in database.new) }
{
    let UpdatedZone { zone, .. } = updated;
    match database.put_next(alloc, zone) {
        Ok(()) => PlanOutcome::Done,
        Err(_) => PlanOutcome::NoMemory,
    }
}
