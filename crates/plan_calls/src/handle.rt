//! What a caller that isn't Rattle keeps of a plan.
ghost use Rattle.std.specs.Coded.{coded_option};
ghost use Rattle.std.specs.Prelude.{◌≡◌, Option};
ghost use Rattle.call_handles.specs.Holding.{owns_held};
ghost use Rattle.plan_calls.specs.declared.signing_plan.SigningPlan.{SigningPlan as Planned};
ghost use Rattle.plan_calls.specs.contracts.signing_plan.SigningPlan.{the_row};

use crate::signing_plan::SigningPlan;
use call_handles::{Handle, NullableBox};
use std::alloc::Global;
use std::marker::Model;

/// A plan behind a pointer, which is null if there is none. In memory it is that pointer alone.
#[repr(C)]
pub struct PlanHandle {
    ptr: *mut u8,
    alloc: Global,
    pub ghost held: { Option Planned } by { coded_option the_row.coded },
}

impl Model for PlanHandle {
    ghost also_owns = { λ h. owns_held the_row h.alloc h.ptr h.held };
}

impl Handle for PlanHandle {
    type Content = SigningPlan;

    ghost held = { λ h. h.held };

    fn from_raw(raw: NullableBox<SigningPlan>) -> PlanHandle
        ensures { result.held ≡ raw.content }
    {
        let NullableBox { ptr, alloc } = raw;
        let ptr = ptr as *mut u8;
        PlanHandle { ptr, alloc }
    }

    fn into_raw(self) -> NullableBox<SigningPlan>
        ensures { result.content ≡ self.held }
    {
        let PlanHandle { ptr, alloc } = self;
        let ptr = ptr as *mut SigningPlan;
        NullableBox { ptr, alloc }
    }
}

/// Gives the memory of the plan back.
impl Drop for PlanHandle {
    fn drop(self) {
        drop(self.into_raw().whole());
    }
}

/// It may go to another thread: what it holds is its own, and any thread may give the block back.
unsafe impl Send for PlanHandle {}
