//! What a program that isn't written in Rattle asks of a plan: the calls of `ningkraet`.
ghost use Rattle.std.specs.Prelude.{◌≡◌, ◌⊎◌, None, Some};
ghost use Rattle.zone_database.specs.Databases.{zones_in};
ghost use Rattle.plan_calls.specs.Asking.{GivesNext, TakesSignature};
ghost use Rattle.plan_calls.specs.Calls.{BeginsHeld, FinishesHeld, GivesHeld, IsBegunIn, TakesHeld};
ghost use Rattle.plan_calls.specs.SigningPlans.{whole};

use crate::beginning::begun;
use crate::handle::PlanHandle;
use crate::installing::finish_held;
use crate::outcome::PlanOutcome;
use crate::signing::Signing;
use crate::signing_plan::{PlannedZone, SigningPlan};
use call_handles::{Handle, write_front};
use held_plans::HeldPlan;
use std::alloc::Global;
use std::mem;
use zone_database::{DatabaseHandle, ZoneDatabase};

/// Plans the zone of an origin, which is to be signed by these keys, in place of what the handle of the plan holds. If it is refused,
/// that stays. No zone changes.
#[tactic(auto, using(crate::proofs::CallFacts::begun_held))]
pub fn begin(
    alloc: Global,
    zones: &mut DatabaseHandle,
    plan: &mut PlanHandle,
    origin: &[u8],
    keys: &[u8],
    how: &Signing,
    salt: &[u8],
) -> PlanOutcome
    ensures begun { BeginsHeld origin.now keys.now how.now salt.now zones.old.held plan.old.held
        result plan.new.held }
    ensures same { zones.new.held ≡ zones.old.held }
{
    match zones.take(alloc) {
        Some(database) => {
            let outcome = begin_in(alloc, &database, plan, origin, keys, how, salt);
            zones.put(database);
            outcome
        }
        None => PlanOutcome::Closed,
    }
}

/// Plans a zone of a database.
#[tactic(auto, using(crate::proofs::CallFacts::put_begun, crate::proofs::CallFacts::refused_begun))]
fn begin_in(
    alloc: Global,
    database: &ZoneDatabase,
    plan: &mut PlanHandle,
    origin: &[u8],
    keys: &[u8],
    how: &Signing,
    salt: &[u8],
) -> PlanOutcome
    ensures { IsBegunIn (zones_in database.now) origin.now keys.now how.now salt.now plan.old.held
        result plan.new.held }
{
    match begun(alloc, database, origin, keys, how, salt) {
        Ok(held) => put_plan(alloc, plan, held),
        Err(outcome) => outcome,
    }
}

/// Has a handle hold a plan of a whole zone, in place of what it holds; `NoMemory` leaves that.
fn put_plan(alloc: Global, plan: &mut PlanHandle, held: HeldPlan) -> PlanOutcome
    ensures { ((result ≡ PlanOutcome.Done) × (plan.new.held ≡ Some (whole held)))
        ⊎ ((result ≡ PlanOutcome.NoMemory) × (plan.new.held ≡ plan.old.held)) }
{
    let held = SigningPlan {
        plan: held,
        zone: PlannedZone::Whole,
    };
    match Box::new(alloc, held) {
        Ok(held) => {
            plan.put(held);
            PlanOutcome::Done
        }
        Err(_) => PlanOutcome::NoMemory,
    }
}

/// Writes what is to be signed next, and the number of its key.
#[tactic(auto, using(crate::proofs::CallFacts::gives_held))]
pub fn next(
    alloc: Global,
    plan: &mut PlanHandle,
    number: &mut u32,
    buffer: &mut [u8],
    written: &mut usize,
) -> PlanOutcome
    ensures { GivesHeld plan.old.held result
        (record {
          number_before = number.old;
          number = number.new;
          written = written.new;
          before = buffer.old;
          after = buffer.new;
        })
        plan.new.held }
{
    match plan.take(alloc) {
        Some(mut held) => {
            let outcome = hand_out(&mut held.plan, number, buffer, written);
            plan.put(held);
            outcome
        }
        None => {
            *written = 0;
            PlanOutcome::NoPlan
        }
    }
}

/// The same of a plan.
#[tactic(auto, using(crate::proofs::CallFacts::gives_none, crate::proofs::CallFacts::gives_one, crate::proofs::CallFacts::lacks_room))]
fn hand_out(
    held: &mut HeldPlan,
    number: &mut u32,
    buffer: &mut [u8],
    written: &mut usize,
) -> PlanOutcome
    ensures { GivesNext held.old result
        (record {
          number_before = number.old;
          number = number.new;
          written = written.new;
          before = buffer.old;
          after = buffer.new;
        })
        held.new }
{
    let Some(next) = held.next() else {
        *written = 0;
        return PlanOutcome::NoMore;
    };
    let octets = next.octets();
    *written = octets.len();
    if buffer.len() < octets.len() {
        return PlanOutcome::NoRoom;
    }
    write_front(octets, buffer);
    *number = u32::from(next.number());
    held.step();
    PlanOutcome::Done
}

/// Takes the next signature.
#[tactic(auto, using(crate::proofs::CallFacts::takes_held))]
pub fn sign(alloc: Global, plan: &mut PlanHandle, signature: &[u8]) -> PlanOutcome
    ensures { TakesHeld signature.now plan.old.held result plan.new.held }
{
    match plan.take(alloc) {
        Some(mut held) => {
            let outcome = take_in(alloc, &mut held.plan, signature);
            plan.put(held);
            outcome
        }
        None => PlanOutcome::NoPlan,
    }
}

/// The same of a plan.
fn take_in(alloc: Global, held: &mut HeldPlan, signature: &[u8]) -> PlanOutcome
    ensures { TakesSignature held.old signature.now result held.new }
{
    match held.sign(alloc, signature) {
        Ok(()) => PlanOutcome::Done,
        Err(_) => PlanOutcome::NoMemory,
    }
}

/// Puts the signed zone in place of the one that was planned, and gives the memory of the plan back. If it is refused, the zones and the
/// plan are as before. But a plan of what an update changes of a zone may be given up by `NoMemory` and `Unplanned`, since its version of the zone is
/// changed in part then. No journal gets anything.
#[tactic(auto, using(crate::proofs::VersionFacts::of_plan))]
pub fn finish(alloc: Global, plan: &mut PlanHandle, zones: &mut DatabaseHandle) -> PlanOutcome
    ensures { FinishesHeld plan.old.held zones.old.held result plan.new.held zones.new.held }
{
    match plan.take(alloc) {
        Some(held) => finish_held(alloc, plan, held, zones),
        None => PlanOutcome::NoPlan,
    }
}

/// Gives the memory of what a handle holds back. It holds nothing then.
pub fn free(alloc: Global, plan: &mut PlanHandle)
    ensures { plan.new.held ≡ None }
{
    drop(mem::replace(plan, PlanHandle::empty(alloc)));
}
