//! What a caller that isn't Rattle keeps of the steps of zones.
ghost use Rattle.std.specs.Coded.{coded_option};
ghost use Rattle.std.specs.Prelude.{◌≡◌, Option};
ghost use Rattle.call_handles.specs.Holding.{owns_held};
ghost use Rattle.held_steps.specs.declared.histories.HeldSteps.{HeldSteps as Kept};
ghost use Rattle.held_steps.specs.contracts.histories.HeldSteps.{the_row};

use call_handles::{Handle, NullableBox};
use held_steps::HeldSteps;
use std::alloc::Global;
use std::marker::Model;

/// The steps of zones behind a pointer, which is null if there is none. In memory it is that pointer alone.
#[repr(C)]
pub struct StepsHandle {
    ptr: *mut u8,
    alloc: Global,
    pub ghost held: { Option Kept } by { coded_option the_row.coded },
}

impl Model for StepsHandle {
    ghost also_owns = { λ h. owns_held the_row h.alloc h.ptr h.held };
}

impl Handle for StepsHandle {
    type Content = HeldSteps;

    ghost held = { λ h. h.held };

    fn from_raw(raw: NullableBox<HeldSteps>) -> StepsHandle
        ensures { result.held ≡ raw.content }
    {
        let NullableBox { ptr, alloc } = raw;
        let ptr = ptr as *mut u8;
        StepsHandle { ptr, alloc }
    }

    fn into_raw(self) -> NullableBox<HeldSteps>
        ensures { result.content ≡ self.held }
    {
        let StepsHandle { ptr, alloc } = self;
        let ptr = ptr as *mut HeldSteps;
        NullableBox { ptr, alloc }
    }
}

/// Gives the memory of the steps back.
impl Drop for StepsHandle {
    fn drop(self) {
        drop(self.into_raw().whole());
    }
}

/// It may go to another thread: what it holds is its own, and any thread may give the block back.
unsafe impl Send for StepsHandle {}
