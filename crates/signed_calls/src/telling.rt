//! What a caller is told of an update of a signed zone that is prepared, and what is held of it.
ghost use Rattle.std.specs.Prelude.{◌≡◌, None};
ghost use Rattle.held_plans.specs.Holding.{made_plan};
ghost use Rattle.plan_calls.specs.SigningPlans.{whole};
ghost use Rattle.signed_calls.specs.Preparing.{GivesSigning, rooms, TellsReply, TellsSigned};

use crate::outcome::PrepareOutcome;
use call_handles::Handle;
use held_plans::HeldPlan;
use journal_calls::{JournalOutcome, PlannedHandle, give_alone, give_both, tell_plan};
use plan_calls::{PlanHandle, PlanOutcome, PlannedZone, SigningPlan};
use signed_updates::SignedPlan;
use std::alloc::Global;
use update_denials::Prepared;
use update_signing::SignedReply;
use zone_database::Outcome;
use zone_planning::PlanFault;
use zone_proto::LowerName;

/// Tells what is planned of a message, whose response has these octets.
#[tactic(auto, using(crate::proofs::PrepareFacts::planned_told, crate::proofs::PrepareFacts::signed_told))]
pub(crate) fn tell(
    alloc: Global,
    update: &mut PlannedHandle,
    plan: &mut PlanHandle,
    origin: LowerName,
    begun: SignedPlan,
    octets: &[u8],
    buffer: &mut [u8],
    written: &mut usize,
    frame: &mut [u8],
    frame_written: &mut usize,
) -> PrepareOutcome
    requires update { update.old.held ≡ None }
    requires plan { plan.old.held ≡ None }
    requires written { written.old ≡ 0 }
    requires frame_written { frame_written.old ≡ 0 }
    ensures { TellsSigned origin begun octets.now result
        (rooms written.new buffer.old buffer.new frame_written.new frame.old frame.new)
        update.new.held plan.new.held }
{
    match begun {
        SignedPlan::Planned(planned) => PrepareOutcome::Update(tell_plan(
            alloc,
            update,
            planned,
            octets,
            buffer,
            written,
            frame,
            frame_written,
        )),
        SignedPlan::Signed(reply) => tell_reply(
            alloc,
            update,
            plan,
            origin,
            reply,
            octets,
            buffer,
            written,
            frame,
            frame_written,
        ),
    }
}

/// The same of an update of the signed zone. The handle of the update holds nothing before and after.
#[tactic(auto, using(crate::proofs::PrepareFacts::prepared_told, crate::proofs::PrepareFacts::refused_told, crate::proofs::PrepareFacts::unsigned_told, crate::proofs::PrepareFacts::same_told))]
fn tell_reply(
    alloc: Global,
    update: &mut PlannedHandle,
    plan: &mut PlanHandle,
    origin: LowerName,
    reply: SignedReply,
    octets: &[u8],
    buffer: &mut [u8],
    written: &mut usize,
    frame: &mut [u8],
    frame_written: &mut usize,
) -> PrepareOutcome
    requires update { update.old.held ≡ None }
    requires plan { plan.old.held ≡ None }
    requires written { written.old ≡ 0 }
    requires frame_written { frame_written.old ≡ 0 }
    ensures { TellsReply origin reply octets.now result
        (rooms written.new buffer.old buffer.new frame_written.new frame.old frame.new)
        update.new.held plan.new.held }
{
    match reply {
        SignedReply::Prepared(prepared) => hold_prepared(
            alloc,
            update,
            plan,
            origin,
            prepared,
            octets,
            buffer,
            written,
            frame,
            frame_written,
        ),
        SignedReply::Refused(_) => PrepareOutcome::Update(give_alone(
            octets,
            buffer,
            written,
            frame,
            frame_written,
        )),
        SignedReply::Unsigned(_) => PrepareOutcome::Update(give_alone(
            octets,
            buffer,
            written,
            frame,
            frame_written,
        )),
        SignedReply::Unchanged => PrepareOutcome::Update(give_alone(
            octets,
            buffer,
            written,
            frame,
            frame_written,
        )),
    }
}

/// Tells that there is something to sign, and holds that.
#[tactic(auto, using(crate::proofs::PrepareFacts::of_made, crate::proofs::PrepareFacts::unwritable))]
fn hold_prepared(
    alloc: Global,
    update: &mut PlannedHandle,
    plan: &mut PlanHandle,
    origin: LowerName,
    prepared: Prepared,
    octets: &[u8],
    buffer: &mut [u8],
    written: &mut usize,
    frame: &mut [u8],
    frame_written: &mut usize,
) -> PrepareOutcome
    requires update { update.old.held ≡ None }
    requires plan { plan.old.held ≡ None }
    requires written { written.old ≡ 0 }
    requires frame_written { frame_written.old ≡ 0 }
    ensures { GivesSigning octets.now
        (whole (made_plan origin prepared.serial prepared.plan.records
        prepared.plan.keys.items)) result
        (rooms written.new buffer.old buffer.new frame_written.new frame.old frame.new)
        update.new.held plan.new.held }
{
    let Prepared { plan: made, serial } = prepared;
    match HeldPlan::of_plan(alloc, origin, serial, made) {
        Ok(plan_of_zone) => hold_plan(
            alloc,
            update,
            plan,
            SigningPlan {
                plan: plan_of_zone,
                zone: PlannedZone::Whole,
            },
            octets,
            buffer,
            written,
            frame,
            frame_written,
        ),
        Err(PlanFault::Memory) => {
            PrepareOutcome::Update(JournalOutcome::Usual(Outcome::NoMemory))
        }
        Err(fault) => PrepareOutcome::Plan(PlanOutcome::Unplanned(fault)),
    }
}

/// The same of the plan of what is to be signed.
pub(crate) fn hold_plan(
    alloc: Global,
    update: &mut PlannedHandle,
    plan: &mut PlanHandle,
    held: SigningPlan,
    octets: &[u8],
    buffer: &mut [u8],
    written: &mut usize,
    frame: &mut [u8],
    frame_written: &mut usize,
) -> PrepareOutcome
    requires update { update.old.held ≡ None }
    requires plan { plan.old.held ≡ None }
    requires written { written.old ≡ 0 }
    requires frame_written { frame_written.old ≡ 0 }
    ensures { GivesSigning octets.now held result
        (rooms written.new buffer.old buffer.new frame_written.new frame.old frame.new)
        update.new.held plan.new.held }
{
    let Ok(held) = Box::new(alloc, held) else {
        return PrepareOutcome::Update(JournalOutcome::Usual(Outcome::NoMemory));
    };
    if give_both(octets, &[], buffer, written, frame, frame_written) {
        plan.put(held);
        PrepareOutcome::Update(JournalOutcome::Usual(Outcome::Done))
    } else {
        drop(held);
        PrepareOutcome::Update(JournalOutcome::Usual(Outcome::NoRoom))
    }
}
