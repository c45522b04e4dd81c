//! Updates of signed zones whose signatures were given, in the zones that are kept.
ghost use Rattle.std.specs.Prelude.{◌≡◌, None, Some};
ghost use Rattle.zone_database.specs.Databases.{zones_in};
ghost use Rattle.journal_calls.specs.Plans.{room};
ghost use Rattle.plan_calls.specs.declared.signing_plan.PlannedZone.TheVariants.{Whole as OfWhole};
ghost use Rattle.signed_calls.specs.Held.{SignsHeld, SignsZone, SignsZones};
ghost use Rattle.signed_calls.specs.Signing.{HoldsWaiting, SignsIn, SignsWhole};

use crate::versions::{sign_finished, sign_version};
use call_handles::{Handle, write_front};
use held_plans::HeldPlan;
use held_updates::{UpdatedZone, journaled};
use journal_calls::PlannedHandle;
use plan_calls::{PlanHandle, PlanOutcome, PlannedZone, SigningPlan, check_serial, finished};
use std::alloc::Global;
use std::mem;
use zone_database::{DatabaseHandle, Zone, ZoneDatabase};
use zone_journal::EntryFault;
use zone_planning::PlanFault;

/// Has the zone of a plan, with the signatures that were given, wait to be committed ([`commit`](journal_calls::commit)) in the handle of the
/// update, and writes what its journal gets into the room. The plan is done with then; what the handle of the update held is given up. No zone
/// changes. A plan of what an update changes of a zone takes time by that, and one of a whole zone by the zone.
///
/// `NoPlan` where there is none: all stays then. `NoZone` and `ZoneChanged` where the zone that was updated isn't there any more, `Unfinished` for
/// signatures that aren't those that the plan wants, `Unplanned` where the journal can't take the change, `NoRoom` where what it gets is longer
/// than its room, whose length is told then; `NoMemory` and `Closed`: with these the plan and the room stay, and no update is held. But a plan of what
/// an update changes is given up by `Unplanned`, and it may be by `NoMemory`, since its version of the zone is changed in part then.
#[tactic(auto, using(crate::proofs::HeldFacts::no_plan, crate::proofs::HeldFacts::of_plan))]
pub fn sign(
    alloc: Global,
    update: &mut PlannedHandle,
    plan: &mut PlanHandle,
    zones: &mut DatabaseHandle,
    frame: &mut [u8],
    frame_written: &mut usize,
) -> PlanOutcome
    ensures signed { SignsHeld plan.old.held zones.old.held result
        (room frame_written.new frame.old frame.new) update.new.held plan.new.held }
    ensures zones { zones.new.held ≡ zones.old.held }
    ensures update { plan.old.held ≡ None → update.new.held ≡ update.old.held }
    ensures written { plan.old.held ≡ None → frame_written.new ≡ frame_written.old }
{
    match plan.take(alloc) {
        Some(held) => sign_taken(alloc, update, plan, held, zones, frame, frame_written),
        None => PlanOutcome::NoPlan,
    }
}

/// The same with the plan that was taken out of its handle.
#[tactic(auto, using(crate::proofs::HeldFacts::by_zones, crate::proofs::HeldFacts::closed))]
fn sign_taken(
    alloc: Global,
    update: &mut PlannedHandle,
    plan: &mut PlanHandle,
    taken: Box<SigningPlan>,
    zones: &mut DatabaseHandle,
    frame: &mut [u8],
    frame_written: &mut usize,
) -> PlanOutcome
    requires { plan.old.held ≡ None }
    ensures signed { SignsZones taken.value zones.old.held result
        (room frame_written.new frame.old frame.new) update.new.held plan.new.held }
    ensures zones { zones.new.held ≡ zones.old.held }
{
    journal_calls::free(alloc, update);
    *frame_written = 0;
    match zones.take(alloc) {
        Some(database) => {
            let outcome = sign_in(alloc, update, plan, taken, &database, frame, frame_written);
            zones.put(database);
            outcome
        }
        None => {
            plan.put(taken);
            PlanOutcome::Closed
        }
    }
}

/// The same in the zones of a database.
#[tactic(auto, using(crate::proofs::HeldFacts::of_whole, crate::proofs::HeldFacts::of_version, crate::proofs::HeldFacts::of_finished))]
fn sign_in(
    alloc: Global,
    update: &mut PlannedHandle,
    plan: &mut PlanHandle,
    mut held: Box<SigningPlan>,
    database: &ZoneDatabase,
    frame: &mut [u8],
    frame_written: &mut usize,
) -> PlanOutcome
    requires plan { plan.old.held ≡ None }
    requires update { update.old.held ≡ None }
    requires frame_written { frame_written.old ≡ 0 }
    ensures { SignsZone held.value.zone held.value.plan (zones_in database.now) result
        (room frame_written.new frame.old frame.new) update.new.held plan.new.held }
{
    match mem::replace(&mut held.zone, PlannedZone::Whole) {
        PlannedZone::Whole => {
            sign_whole(alloc, update, plan, held, database, frame, frame_written)
        }
        PlannedZone::Version(version) => sign_version(
            alloc,
            update,
            plan,
            held,
            version,
            database,
            frame,
            frame_written,
        ),
        PlannedZone::Finished(updated) => sign_finished(
            alloc,
            update,
            plan,
            held,
            updated,
            database,
            frame,
            frame_written,
        ),
    }
}

/// Has the whole zone of a plan wait to be committed.
#[tactic(auto, using(crate::proofs::SignFacts::all_done, crate::proofs::SignFacts::all_refused))]
fn sign_whole(
    alloc: Global,
    update: &mut PlannedHandle,
    plan: &mut PlanHandle,
    held: Box<SigningPlan>,
    database: &ZoneDatabase,
    frame: &mut [u8],
    frame_written: &mut usize,
) -> PlanOutcome
    requires zone { held.value.zone ≡ OfWhole }
    requires plan { plan.old.held ≡ None }
    requires update { update.old.held ≡ None }
    requires frame_written { frame_written.old ≡ 0 }
    ensures { SignsWhole held.value.plan (zones_in database.now) result
        (room frame_written.new frame.old frame.new) update.new.held plan.new.held }
{
    match sign_planned(alloc, update, &held.plan, database, frame, frame_written) {
        Ok(()) => PlanOutcome::Done,
        Err(outcome) => {
            plan.put(held);
            outcome
        }
    }
}

/// Has the whole zone of a plan of one of the zones of a database wait to be committed.
#[tactic(auto, using(crate::proofs::SignFacts::overtaken, crate::proofs::SignFacts::not_finished, crate::proofs::SignFacts::unjournaled, crate::proofs::SignFacts::waiting))]
fn sign_planned(
    alloc: Global,
    update: &mut PlannedHandle,
    held: &HeldPlan,
    database: &ZoneDatabase,
    frame: &mut [u8],
    frame_written: &mut usize,
) -> Result<(), PlanOutcome>
    requires update { update.old.held ≡ None }
    requires frame_written { frame_written.old ≡ 0 }
    ensures { SignsIn held.now (zones_in database.now) result
        (room frame_written.new frame.old frame.new) update.new.held }
{
    if let Err(outcome) = check_serial(held, database) {
        return Err(outcome);
    }
    let zone = match finished(alloc, held) {
        Ok(zone) => zone,
        Err(outcome) => return Err(outcome),
    };
    let before = database.get(held.origin());
    match journaled(alloc, true, before, zone) {
        Ok(updated) => hold(alloc, update, updated, frame, frame_written),
        Err(EntryFault::Memory) => Err(PlanOutcome::NoMemory),
        Err(EntryFault::Unreadable) => Err(PlanOutcome::Unplanned(PlanFault::Unwritable)),
        Err(EntryFault::Unwritable) => Err(PlanOutcome::Unplanned(PlanFault::Unwritable)),
    }
}

/// Holds a zone after an update, and writes what its journal gets into the room, unless that is longer.
fn hold(
    alloc: Global,
    update: &mut PlannedHandle,
    updated: UpdatedZone,
    frame: &mut [u8],
    frame_written: &mut usize,
) -> Result<(), PlanOutcome>
    requires update { update.old.held ≡ None }
    requires frame_written { frame_written.old ≡ 0 }
    ensures { HoldsWaiting updated result (room frame_written.new frame.old frame.new)
        update.new.held }
{
    let Ok(held) = Box::new(alloc, updated) else {
        return Err(PlanOutcome::NoMemory);
    };
    let octets = held.frame.as_slice();
    *frame_written = octets.len();
    if frame.len() < octets.len() {
        drop(held);
        return Err(PlanOutcome::NoRoom);
    }
    write_front(octets, frame);
    update.put(held);
    Ok(())
}
