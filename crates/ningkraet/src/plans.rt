//! Zones that are signed by plans, each export by one call of `plan_calls`.
ghost use Rattle.std.specs.Prelude.{◌≡◌, None};
ghost use Rattle.plan_calls.specs.Calls.{BeginsHeld, FinishesHeld, GivesHeld, TakesHeld};
ghost use Rattle.plan_calls.specs.Outcomes.{Codes};

use plan_calls::{PlanHandle, Signing, calls};
use std::alloc::Global;
use zone_database::DatabaseHandle;

/// Plans the zone of an origin, to be signed by these keys, in place of the plan that is kept. No zone changes.
#[unsafe(no_mangle)]
pub extern "C" fn nk_plan_begin(
    alloc: Global,
    plan: &mut PlanHandle,
    zones: &mut DatabaseHandle,
    origin: &[u8],
    keys: &[u8],
    how: &Signing,
    salt: &[u8],
) -> u32
    ensures begun { Codes result (λ o.
        BeginsHeld origin.now keys.now how.now salt.now zones.old.held plan.old.held o
        plan.new.held) }
    ensures same { zones.new.held ≡ zones.old.held }
{
    calls::begin(alloc, zones, plan, origin, keys, how, salt).code()
}

/// Writes what is to be signed next into the room, and the number of its key.
#[unsafe(no_mangle)]
pub extern "C" fn nk_plan_next(
    alloc: Global,
    plan: &mut PlanHandle,
    number: &mut u32,
    buffer: &mut [u8],
    written: &mut usize,
) -> u32
    ensures { Codes result (λ o.
        GivesHeld plan.old.held o
        (record {
          number_before = number.old;
          number = number.new;
          written = written.new;
          before = buffer.old;
          after = buffer.new;
        })
        plan.new.held) }
{
    calls::next(alloc, plan, number, buffer, written).code()
}

/// Takes the next signature.
#[unsafe(no_mangle)]
pub extern "C" fn nk_plan_sign(alloc: Global, plan: &mut PlanHandle, signature: &[u8]) -> u32
    ensures { Codes result (λ o.
        TakesHeld signature.now plan.old.held o plan.new.held) }
{
    calls::sign(alloc, plan, signature).code()
}

/// Puts the signed zone in place of the one that was planned, and gives the memory of the plan back.
#[unsafe(no_mangle)]
pub extern "C" fn nk_plan_finish(
    alloc: Global,
    plan: &mut PlanHandle,
    zones: &mut DatabaseHandle,
) -> u32
    ensures { Codes result (λ o.
        FinishesHeld plan.old.held zones.old.held o plan.new.held zones.new.held) }
{
    calls::finish(alloc, plan, zones).code()
}

/// Gives the memory of the plan that is kept back. Nothing is kept then.
#[unsafe(no_mangle)]
pub extern "C" fn nk_plan_free(alloc: Global, plan: &mut PlanHandle)
    ensures { plan.new.held ≡ None }
{
    calls::free(alloc, plan)
}
