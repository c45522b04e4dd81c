//! Updates that are planned in the zones that are kept, and those that are committed.
ghost use Rattle.std.specs.Prelude.{◌≡◌, [], None, Some, option_map};
ghost use Rattle.std.specs.Bool.{MatchBool};
ghost use Rattle.zone_database.specs.Databases.{zones_in};
ghost use Rattle.journal_calls.specs.Plans.{plan_told, AreGiven, AreTooLong, CommitsHeld, CommitsZones, GivesPlan, PlansByAccess, PlansHeld, PlansZones, TellsPlan, room};

use crate::outcome::JournalOutcome;
use crate::planned_handle::PlannedHandle;
use arrival_calls::ClientMessage;
use call_handles::{Handle, write_front};
use held_updates::{Commit, PlannedUpdate, UpdateAccess, UpdatedZone, commit_update, plan_update};
use std::alloc::Global;
use std::mem;
use update_calls::UpdatesHandle;
use zone_database::{DatabaseHandle, Outcome, ZoneDatabase};

/// Carries out a client's update beside its zone, one of those that a handle holds, by the keys and the rules that another holds, as [`plan_update`]
/// does where journals are kept: writes the response into one room, and what the zone's journal gets into the other, and the lengths of both into
/// `written` and `frame_written`. Where a zone is to change, the handle of the plan holds the zone after the update, and else nothing: what it
/// held before is given up. No zone changes.
///
/// `NoUpdate` where the message is no update; `NoRoom` where one of the two is longer than its room: the lengths are those that are needed.
/// `NoMemory`, `Closed` and `NoKeys` as elsewhere. With all but `Done` the rooms stay, and nothing is held.
#[tactic(auto, using(crate::proofs::PlanFacts::by_zones))]
pub fn begin(
    alloc: Global,
    plan: &mut PlannedHandle,
    zones: &mut DatabaseHandle,
    updates: &mut UpdatesHandle,
    message: &ClientMessage<'_>,
    buffer: &mut [u8],
    written: &mut usize,
    frame: &mut [u8],
    frame_written: &mut usize,
) -> JournalOutcome
    ensures plan { PlansHeld updates.old.held message.now zones.old.held
        (plan_told result written.new buffer.old buffer.new frame_written.new frame.old frame.new)
        plan.new.held }
    ensures zones { option_map zones_in zones.new.held
        ≡ option_map zones_in zones.old.held }
    ensures updates { updates.new.held ≡ updates.old.held }
{
    free(alloc, plan);
    *written = 0;
    *frame_written = 0;
    match zones.take(alloc) {
        Some(mut database) => {
            let outcome = begin_in(
                alloc,
                plan,
                &mut database,
                updates,
                message,
                buffer,
                written,
                frame,
                frame_written,
            );
            zones.put(database);
            outcome
        }
        None => JournalOutcome::Usual(Outcome::Closed),
    }
}

/// The same in the zones of a database.
#[tactic(auto, using(crate::proofs::PlanFacts::by_access))]
fn begin_in(
    alloc: Global,
    plan: &mut PlannedHandle,
    database: &mut ZoneDatabase,
    updates: &mut UpdatesHandle,
    message: &ClientMessage<'_>,
    buffer: &mut [u8],
    written: &mut usize,
    frame: &mut [u8],
    frame_written: &mut usize,
) -> JournalOutcome
    requires plan { plan.old.held ≡ None }
    requires written { written.old ≡ 0 }
    requires frame_written { frame_written.old ≡ 0 }
    ensures plan { PlansByAccess updates.old.held message.now (zones_in database.old)
        (plan_told result written.new buffer.old buffer.new frame_written.new frame.old frame.new)
        plan.new.held }
    ensures updates { updates.new.held ≡ updates.old.held }
    ensures same { zones_in database.new ≡ zones_in database.old }
{
    match updates.take(alloc) {
        Some(held) => {
            let outcome = begin_by(
                alloc,
                plan,
                database,
                &held,
                message,
                buffer,
                written,
                frame,
                frame_written,
            );
            updates.put(held);
            outcome
        }
        None => JournalOutcome::NoKeys,
    }
}

/// The same by these keys and rules.
#[tactic(auto, using(crate::proofs::PlanFacts::was_planned, crate::proofs::PlanFacts::unplanned))]
fn begin_by(
    alloc: Global,
    plan: &mut PlannedHandle,
    database: &mut ZoneDatabase,
    access: &UpdateAccess,
    message: &ClientMessage<'_>,
    buffer: &mut [u8],
    written: &mut usize,
    frame: &mut [u8],
    frame_written: &mut usize,
) -> JournalOutcome
    requires plan { plan.old.held ≡ None }
    requires written { written.old ≡ 0 }
    requires frame_written { frame_written.old ≡ 0 }
    ensures plan { PlansZones access.now message.now (zones_in database.old)
        (plan_told result written.new buffer.old buffer.new frame_written.new frame.old frame.new)
        plan.new.held }
    ensures same { zones_in database.new ≡ zones_in database.old }
{
    let mut out = Vec::new(alloc);
    match plan_update(
        alloc,
        database,
        access,
        message.moment,
        true,
        message.octets,
        &mut out,
    ) {
        Ok(planned) => tell_plan(
            alloc,
            plan,
            planned,
            out.as_slice(),
            buffer,
            written,
            frame,
            frame_written,
        ),
        Err(_) => JournalOutcome::Usual(Outcome::NoMemory),
    }
}

/// Tells what is planned of a message, whose response has these octets.
#[tactic(auto, using(crate::proofs::PlanFacts::other_told, crate::proofs::PlanFacts::refused_told, crate::proofs::PlanFacts::same_told, crate::proofs::PlanFacts::updated_told))]
pub fn tell_plan(
    alloc: Global,
    plan: &mut PlannedHandle,
    planned: PlannedUpdate,
    octets: &[u8],
    buffer: &mut [u8],
    written: &mut usize,
    frame: &mut [u8],
    frame_written: &mut usize,
) -> JournalOutcome
    requires plan { plan.old.held ≡ None }
    requires written { written.old ≡ 0 }
    requires frame_written { frame_written.old ≡ 0 }
    ensures { TellsPlan planned octets.now
        (plan_told result written.new buffer.old buffer.new frame_written.new frame.old frame.new)
        plan.new.held }
{
    match planned {
        PlannedUpdate::Other => JournalOutcome::NoUpdate,
        PlannedUpdate::Refused => give_alone(octets, buffer, written, frame, frame_written),
        PlannedUpdate::Unchanged => give_alone(octets, buffer, written, frame, frame_written),
        PlannedUpdate::Updated(updated) => hold(
            alloc,
            plan,
            updated,
            octets,
            buffer,
            written,
            frame,
            frame_written,
        ),
    }
}

/// Gives a response with which nothing else is to be done.
pub fn give_alone(
    octets: &[u8],
    buffer: &mut [u8],
    written: &mut usize,
    frame: &mut [u8],
    frame_written: &mut usize,
) -> JournalOutcome
    ensures { GivesPlan octets.now [] None result
        (plan_told result written.new buffer.old buffer.new frame_written.new frame.old frame.new)
        None }
{
    if give_both(octets, &[], buffer, written, frame, frame_written) {
        JournalOutcome::Usual(Outcome::Done)
    } else {
        JournalOutcome::Usual(Outcome::NoRoom)
    }
}

/// Tells that a zone is to change, and holds the one after the update.
fn hold(
    alloc: Global,
    plan: &mut PlannedHandle,
    updated: UpdatedZone,
    octets: &[u8],
    buffer: &mut [u8],
    written: &mut usize,
    frame: &mut [u8],
    frame_written: &mut usize,
) -> JournalOutcome
    requires plan { plan.old.held ≡ None }
    requires written { written.old ≡ 0 }
    requires frame_written { frame_written.old ≡ 0 }
    ensures { GivesPlan octets.now updated.frame.items (Some updated) result
        (plan_told result written.new buffer.old buffer.new frame_written.new frame.old frame.new)
        plan.new.held }
{
    let Ok(held) = Box::new(alloc, updated) else {
        return JournalOutcome::Usual(Outcome::NoMemory);
    };
    if give_both(
        octets,
        held.frame.as_slice(),
        buffer,
        written,
        frame,
        frame_written,
    ) {
        plan.put(held);
        JournalOutcome::Usual(Outcome::Done)
    } else {
        drop(held);
        JournalOutcome::Usual(Outcome::NoRoom)
    }
}

/// Writes a response into one room, and what a journal gets into the other, unless one of them is longer than its room; and the lengths of both.
/// Whether they are there.
pub fn give_both(
    octets: &[u8],
    entry: &[u8],
    buffer: &mut [u8],
    written: &mut usize,
    frame: &mut [u8],
    frame_written: &mut usize,
) -> bool
    ensures { MatchBool result
        (AreGiven octets.now entry.now (room written.new buffer.old buffer.new)
        (room frame_written.new frame.old frame.new))
        (AreTooLong octets.now entry.now (room written.new buffer.old buffer.new)
        (room frame_written.new frame.old frame.new)) }
{
    *written = octets.len();
    *frame_written = entry.len();
    if buffer.len() < octets.len() || frame.len() < entry.len() {
        return false;
    }
    write_front(octets, buffer);
    write_front(entry, frame);
    true
}

/// Puts the zone of a plan in place of the one that was updated, as [`commit_update`] does. Afterwards there is no plan, however it ends: `NoPlan`,
/// `ZoneChanged` where that zone isn't there any more, `NoMemory` and `Closed` change no zone.
#[tactic(auto, using(crate::proofs::PlanFacts::committed_held))]
pub fn commit(alloc: Global, plan: &mut PlannedHandle, zones: &mut DatabaseHandle) -> JournalOutcome
    ensures zones { CommitsHeld plan.old.held zones.old.held result zones.new.held }
    ensures plan { plan.new.held ≡ None }
{
    match plan.take(alloc) {
        Some(held) => commit_held(alloc, Box::into_inner(held), zones),
        None => JournalOutcome::NoPlan,
    }
}

/// The same of a plan.
#[tactic(auto, using(crate::proofs::PlanFacts::committed_zones))]
fn commit_held(alloc: Global, updated: UpdatedZone, zones: &mut DatabaseHandle) -> JournalOutcome
    ensures { CommitsHeld (Some updated) zones.old.held result zones.new.held }
{
    match zones.take(alloc) {
        Some(mut database) => {
            let outcome = commit_in(alloc, updated, &mut database);
            zones.put(database);
            outcome
        }
        None => {
            drop(updated);
            JournalOutcome::Usual(Outcome::Closed)
        }
    }
}

/// The same in the zones of a database.
fn commit_in(alloc: Global, updated: UpdatedZone, database: &mut ZoneDatabase) -> JournalOutcome
    ensures { CommitsZones updated (zones_in database.old) result (zones_in database.new) }
{
    match commit_update(alloc, database, updated) {
        Ok(Commit::Done) => JournalOutcome::Usual(Outcome::Done),
        Ok(Commit::Overtaken) => JournalOutcome::ZoneChanged,
        Err(_) => JournalOutcome::Usual(Outcome::NoMemory),
    }
}

/// Gives the memory of what a handle holds back. It holds nothing then.
pub fn free(alloc: Global, plan: &mut PlannedHandle)
    ensures { plan.new.held ≡ None }
{
    drop(mem::replace(plan, PlannedHandle::empty(alloc)));
}
