//! Updates of a signed zone that are made in the version that is to take its place.
ghost use Rattle.std.specs.Prelude.{◌≡◌, None, IfErr, IfOk, IfSome};
ghost use Rattle.zone_planning.specs.Faults.{IsUnwritableUnless};
ghost use Rattle.zone_database.specs.Databases.{zones_in};
ghost use Rattle.held_plans.specs.Asking.{AreSignable};
ghost use Rattle.signed_calls.specs.Preparing.{GivesSigning, rooms};
ghost use Rattle.signed_calls.specs.Versions.{version_plan};
ghost use Rattle.signed_versions.specs.Asking.{IsAskedFor};

use crate::outcome::PrepareOutcome;
use crate::signed_zone::GivenZone;
use crate::telling::hold_plan;
use arrival_calls::ClientMessage;
use held_plans::HeldPlan;
use held_updates::UpdateAccess;
use journal_calls::{JournalOutcome, PlannedHandle};
use plan_calls::{PlanHandle, PlanOutcome, PlannedZone, SigningPlan, zone_serial};
use signed_versions::{WaitingVersion, begin_asked_version};
use std::alloc::{AllocError, Global};
use zone_database::{Outcome, ZoneDatabase};
use zone_planning::PlanFault;
use zone_proto::NxProofKind;

/// Makes the update that a message asks for in the version that is to take the place of the zone, and writes the response; none where more than that is to be
/// made anew, or anything else is to come of the message. With NSEC3 it isn't tried.
pub(crate) fn asked_version(
    alloc: Global,
    database: &mut ZoneDatabase,
    access: &UpdateAccess,
    given: &GivenZone,
    message: &ClientMessage<'_>,
    out: &mut Vec<u8>,
) -> Result<Option<WaitingVersion>, AllocError>
    ensures asked { IfOk result (λ found. IfSome found (λ v. IsAskedFor access.now
        given.now.origin given.now.signing.keys.items given.now.signing.request
        message.now.moment message.now.octets.now (zones_in database.old) v out.new.items)) }
    ensures same { zones_in database.new ≡ zones_in database.old }
{
    match &given.signing.request.nx_proof_kind {
        NxProofKind::Nsec => begin_asked_version(
            alloc,
            database,
            access,
            &given.origin,
            given.signing.keys.as_slice(),
            &given.signing.request,
            message.moment,
            message.octets,
            out,
        ),
        NxProofKind::Nsec3 { .. } => Ok(None),
    }
}

/// Tells that there is something to sign of a version of a zone, and holds that.
#[tactic(auto, using(crate::proofs::PrepareFacts::of_version, crate::proofs::PrepareFacts::unwritable))]
pub(crate) fn hold_version(
    alloc: Global,
    update: &mut PlannedHandle,
    plan: &mut PlanHandle,
    version: WaitingVersion,
    octets: &[u8],
    buffer: &mut [u8],
    written: &mut usize,
    frame: &mut [u8],
    frame_written: &mut usize,
) -> PrepareOutcome
    requires update { update.old.held ≡ None }
    requires plan { plan.old.held ≡ None }
    requires written { written.old ≡ 0 }
    requires frame_written { frame_written.old ≡ 0 }
    ensures { GivesSigning octets.now (version_plan version) result
        (rooms written.new buffer.old buffer.new frame_written.new frame.old frame.new)
        update.new.held plan.new.held }
{
    match plan_of(alloc, &version) {
        Ok(held) => hold_plan(
            alloc,
            update,
            plan,
            SigningPlan {
                plan: held,
                zone: PlannedZone::Version(version),
            },
            octets,
            buffer,
            written,
            frame,
            frame_written,
        ),
        Err(PlanFault::Memory) => {
            PrepareOutcome::Update(JournalOutcome::Usual(Outcome::NoMemory))
        }
        Err(fault) => PrepareOutcome::Plan(PlanOutcome::Unplanned(fault)),
    }
}

/// The plan of what is to be signed of a version.
fn plan_of(alloc: Global, version: &WaitingVersion) -> Result<HeldPlan, PlanFault>
    ensures made { IfOk result (λ held. held ≡ (version_plan version.now).plan) }
    ensures fault { IfErr result
        (λ e. IsUnwritableUnless e (AreSignable version.now.change.plan.records)) }
{
    let Ok(serial) = zone_serial(version.before()) else {
        return Err(PlanFault::Memory);
    };
    let Ok(origin) = version.origin().clone() else {
        return Err(PlanFault::Memory);
    };
    HeldPlan::of_copy(alloc, origin, serial, version.plan())
}
