//! The steps of zones, as a program that isn't written in Rattle keeps them, and has them go out in place of a zone.
ghost use Rattle.std.specs.Prelude.{◌≡◌, None, OnErr, OnOk, option_map};
ghost use Rattle.std.specs.Arc.{arc_value};
ghost use Rattle.std.specs.List.{find};
ghost use Rattle.zone_database.specs.Databases.{begins_at, zones_in};
ghost use Rattle.held_steps.specs.Histories.{IsSame};
ghost use Rattle.transfer_calls.specs.Steps.{BeginsSteps, IsTaken, Notes, NotesFrom, NotesHeld, NotesZone, ShortensAnswer, ShortensBy, ShortensHeld};

use crate::grants::name_of;
use crate::outcome::TransferOutcome;
use crate::steps_handle::StepsHandle;
use crate::transfer_handle::TransferHandle;
use call_handles::Handle;
use held_steps::{HeldAnswer, HeldSteps};
use std::alloc::{AllocError, Global};
use std::mem;
use std::sync::Arc;
use zone_database::{DatabaseHandle, Outcome, Zone, ZoneDatabase};
use zone_proto::LowerName;

/// Has a handle hold the steps of no zone, in place of what it holds, and says how many records those of one zone may have, signatures among
/// them. `NoMemory` leaves what it holds.
#[tactic(auto, using(crate::proofs::StepFacts::begun))]
pub fn new_steps(alloc: Global, steps: &mut StepsHandle, most: u32) -> Outcome
    ensures { BeginsSteps most steps.old.held result steps.new.held }
{
    match Box::new(alloc, HeldSteps::new(alloc, most)) {
        Ok(held) => {
            steps.put(held);
            Outcome::Done
        }
        Err(_) => Outcome::NoMemory,
    }
}

/// Takes in the version of the zone of an origin that a handle of zones holds: as [`HeldSteps::recall`] does with the zone's journal, if there is one, and
/// else as [`HeldSteps::note`] does. `NoZone` where it holds no zone of this origin: what was kept of one is forgotten then. `NoSteps`, `Closed`,
/// `BadName` and `NoMemory` change nothing.
#[tactic(auto, using(crate::proofs::StepFacts::noted_held))]
pub fn note_zone(
    alloc: Global,
    steps: &mut StepsHandle,
    zones: &mut DatabaseHandle,
    origin: &[u8],
    journal: Option<&[u8]>,
) -> TransferOutcome
    ensures noted { NotesHeld (option_map (λ x. x.now) journal.entry) origin.now zones.old.held
        steps.old.held result steps.new.held }
    ensures zones { zones.new.held ≡ zones.old.held }
{
    match steps.take(alloc) {
        Some(mut held) => {
            let outcome = note_from(alloc, &mut held, zones, origin, journal);
            steps.put(held);
            outcome
        }
        None => TransferOutcome::NoSteps,
    }
}

/// The same of steps.
#[tactic(auto, using(crate::proofs::StepFacts::noted_from))]
fn note_from(
    alloc: Global,
    steps: &mut HeldSteps,
    zones: &mut DatabaseHandle,
    origin: &[u8],
    journal: Option<&[u8]>,
) -> TransferOutcome
    ensures noted { NotesFrom (option_map (λ x. x.now) journal.entry) origin.now zones.old.held
        steps.old result steps.new }
    ensures zones { zones.new.held ≡ zones.old.held }
{
    match zones.take(alloc) {
        Some(database) => {
            let outcome = note_in(alloc, steps, &database, origin, journal);
            zones.put(database);
            outcome
        }
        None => TransferOutcome::Usual(Outcome::Closed),
    }
}

/// The same from the zones of a database.
#[tactic(auto, using(crate::proofs::StepFacts::noted_named, crate::proofs::StepFacts::unread))]
fn note_in(
    alloc: Global,
    steps: &mut HeldSteps,
    database: &ZoneDatabase,
    origin: &[u8],
    journal: Option<&[u8]>,
) -> TransferOutcome
    ensures { Notes (option_map (λ x. x.now) journal.entry) origin.now (zones_in database.now)
        steps.old result steps.new }
{
    match name_of(alloc, origin) {
        Ok(origin) => note_at(alloc, steps, database, &origin, journal),
        Err(outcome) => outcome,
    }
}

/// The same of the zone of an origin.
#[tactic(auto, using(crate::proofs::StepFacts::noted_at, crate::proofs::StepFacts::forgotten_at, crate::proofs::StepFacts::unnoted, crate::proofs::StepFacts::unnoted_now))]
fn note_at(
    alloc: Global,
    steps: &mut HeldSteps,
    database: &ZoneDatabase,
    origin: &LowerName,
    journal: Option<&[u8]>,
) -> TransferOutcome
    ensures { NotesZone (option_map (λ x. x.now) journal.entry) origin.now
        (find (begins_at origin.now) (zones_in database.now)) steps.old result steps.new }
{
    match database.share(origin) {
        Ok(Some(zone)) => match take_in(alloc, steps, zone, journal) {
            Ok(()) => TransferOutcome::Usual(Outcome::Done),
            Err(_) => TransferOutcome::Usual(Outcome::NoMemory),
        },
        Ok(None) => {
            steps.forget(origin);
            TransferOutcome::Usual(Outcome::NoZone)
        }
        Err(_) => TransferOutcome::Usual(Outcome::NoMemory),
    }
}

/// Takes in a version of a zone.
#[tactic(auto, using(crate::proofs::StepFacts::taken_next, crate::proofs::StepFacts::taken_again))]
fn take_in(
    alloc: Global,
    steps: &mut HeldSteps,
    version: Arc<Zone>,
    journal: Option<&[u8]>,
) -> Result<(), AllocError>
    ensures taken { OnOk result (IsTaken (option_map (λ x. x.now) journal.entry)
        (arc_value version) steps.old steps.new) }
    ensures same { OnErr result (IsSame steps.old steps.new) }
{
    match journal {
        Some(journal) => steps.recall(alloc, version, journal),
        None => steps.note(alloc, version),
    }
}

/// Has the steps go out that the one lacks who asked by this message, in place of the zone whose transfer began, as [`HeldAnswer::shorten`] does
/// (RFC 1995 section 4). `NoSteps` where they don't, `NoTransfer` and `NoMemory` change nothing.
#[tactic(auto, using(crate::proofs::StepFacts::shortened_held))]
pub fn shorten(
    alloc: Global,
    transfer: &mut TransferHandle,
    steps: &mut StepsHandle,
    message: &[u8],
) -> TransferOutcome
    ensures sent { ShortensHeld steps.old.held message.now transfer.old.held result
        transfer.new.held }
    ensures steps { steps.new.held ≡ steps.old.held }
{
    match steps.take(alloc) {
        Some(held) => {
            let outcome = shorten_by(alloc, transfer, &held, message);
            steps.put(held);
            outcome
        }
        None => TransferOutcome::NoSteps,
    }
}

/// The same by these steps.
#[tactic(auto, using(crate::proofs::StepFacts::shortened_by))]
fn shorten_by(
    alloc: Global,
    transfer: &mut TransferHandle,
    steps: &HeldSteps,
    message: &[u8],
) -> TransferOutcome
    ensures { ShortensBy steps.now message.now transfer.old.held result transfer.new.held }
{
    match transfer.take(alloc) {
        Some(mut held) => {
            let outcome = shorten_answer(alloc, &mut held, steps, message);
            transfer.put(held);
            outcome
        }
        None => TransferOutcome::NoTransfer,
    }
}

/// The same of an answer.
fn shorten_answer(
    alloc: Global,
    answer: &mut HeldAnswer,
    steps: &HeldSteps,
    message: &[u8],
) -> TransferOutcome
    ensures { ShortensAnswer steps.now message.now answer.old result answer.new }
{
    match answer.shorten(alloc, steps, message) {
        Ok(true) => TransferOutcome::Usual(Outcome::Done),
        Ok(false) => TransferOutcome::NoSteps,
        Err(_) => TransferOutcome::Usual(Outcome::NoMemory),
    }
}

/// Gives the memory of the steps back that a handle holds. It holds none then.
pub fn free_steps(alloc: Global, steps: &mut StepsHandle)
    ensures { steps.new.held ≡ None }
{
    drop(mem::replace(steps, StepsHandle::empty(alloc)));
}
