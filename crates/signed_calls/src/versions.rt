//! Plans of what updates change of zones, whose signatures were given.
ghost use Rattle.std.specs.Prelude.{◌≡◌, true, None, IfErr, IfOk};
ghost use Rattle.zone_database.specs.Databases.{zones_in};
ghost use Rattle.held_plans.specs.Holding.{unfinished_fault};
ghost use Rattle.journal_calls.specs.Plans.{room};
ghost use Rattle.plan_calls.specs.Versions.{IsFinishedVersion, IsGivenUp};
ghost use Rattle.signed_calls.specs.Versions.{GivesFinished, SignsFinished, SignsVersion};

use call_handles::{Handle, write_front};
use held_plans::HeldPlan;
use held_updates::UpdatedZone;
use journal_calls::PlannedHandle;
use plan_calls::{
    PlanHandle, PlanOutcome, PlannedZone, SigningPlan, check_ready, finished_version,
};
use signed_versions::WaitingVersion;
use std::alloc::Global;
use zone_database::ZoneDatabase;

/// Has a version of a zone wait to be committed, with the signatures that were given of its plan. The plan stays if they don't fit or the zone isn't the
/// same any more; what is refused later gives it up.
#[tactic(auto, using(crate::proofs::VersionFacts::version_stays, crate::proofs::VersionFacts::version_given, crate::proofs::VersionFacts::version_given_up))]
pub(crate) fn sign_version(
    alloc: Global,
    update: &mut PlannedHandle,
    plan: &mut PlanHandle,
    mut held: Box<SigningPlan>,
    version: WaitingVersion,
    database: &ZoneDatabase,
    frame: &mut [u8],
    frame_written: &mut usize,
) -> PlanOutcome
    requires plan { plan.old.held ≡ None }
    requires update { update.old.held ≡ None }
    requires frame_written { frame_written.old ≡ 0 }
    ensures { SignsVersion held.value.plan version (zones_in database.now) result
        (room frame_written.new frame.old frame.new) update.new.held plan.new.held }
{
    if let Err(outcome) = check_ready(alloc, &held.plan, database) {
        held.zone = PlannedZone::Version(version);
        plan.put(held);
        return outcome;
    }
    match finish(alloc, version, &held.plan) {
        Ok(updated) => give(update, plan, held, updated, frame, frame_written),
        Err(outcome) => outcome,
    }
}

/// Has a version of a zone wait to be committed that was finished when there was no room for what its journal gets.
#[tactic(auto, using(crate::proofs::VersionFacts::finished_stays, crate::proofs::VersionFacts::finished_given))]
pub(crate) fn sign_finished(
    alloc: Global,
    update: &mut PlannedHandle,
    plan: &mut PlanHandle,
    mut held: Box<SigningPlan>,
    updated: Box<UpdatedZone>,
    database: &ZoneDatabase,
    frame: &mut [u8],
    frame_written: &mut usize,
) -> PlanOutcome
    requires plan { plan.old.held ≡ None }
    requires update { update.old.held ≡ None }
    requires frame_written { frame_written.old ≡ 0 }
    ensures { SignsFinished held.value.plan updated (zones_in database.now) result
        (room frame_written.new frame.old frame.new) update.new.held plan.new.held }
{
    if let Err(outcome) = check_ready(alloc, &held.plan, database) {
        held.zone = PlannedZone::Finished(updated);
        plan.put(held);
        return outcome;
    }
    give(update, plan, held, updated, frame, frame_written)
}

/// A version with the signatures of its plan, and what the journal of its zone gets. It is given up where that can't be made.
fn finish(
    alloc: Global,
    version: WaitingVersion,
    held: &HeldPlan,
) -> Result<Box<UpdatedZone>, PlanOutcome>
    requires { unfinished_fault held.now ≡ None }
    ensures finished { IfOk result (λ updated.
        IsFinishedVersion true version held.now.signatures updated.value) }
    ensures given_up { IfErr result (IsGivenUp version held.now) }
{
    let updated = match finished_version(alloc, version, held, true) {
        Ok(updated) => updated,
        Err(outcome) => return Err(outcome),
    };
    match Box::new(alloc, updated) {
        Ok(updated) => Ok(updated),
        Err(_) => Err(PlanOutcome::NoMemory),
    }
}

/// Holds the zone after an update, and writes what its journal gets into the room; where that is longer, the plan keeps the zone.
fn give(
    update: &mut PlannedHandle,
    plan: &mut PlanHandle,
    mut held: Box<SigningPlan>,
    updated: Box<UpdatedZone>,
    frame: &mut [u8],
    frame_written: &mut usize,
) -> PlanOutcome
    requires plan { plan.old.held ≡ None }
    requires update { update.old.held ≡ None }
    ensures { GivesFinished held.value.plan updated result
        (room frame_written.new frame.old frame.new) update.new.held plan.new.held }
{
    let octets = updated.frame.as_slice();
    *frame_written = octets.len();
    if frame.len() < octets.len() {
        held.zone = PlannedZone::Finished(updated);
        plan.put(held);
        return PlanOutcome::NoRoom;
    }
    write_front(octets, frame);
    update.put(updated);
    PlanOutcome::Done
}
