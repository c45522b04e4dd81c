//! What a caller that isn't Rattle keeps of a zone that is being sent.
ghost use Rattle.std.specs.Coded.{coded_option};
ghost use Rattle.std.specs.Prelude.{◌≡◌, Option};
ghost use Rattle.call_handles.specs.Holding.{owns_held};
ghost use Rattle.held_steps.specs.declared.held_answer.HeldAnswer.{HeldAnswer as Kept};
ghost use Rattle.held_steps.specs.contracts.held_answer.HeldAnswer.{the_row};

use call_handles::{Handle, NullableBox};
use held_steps::HeldAnswer;
use std::alloc::Global;
use std::marker::Model;

/// A zone that is being sent behind a pointer, which is null if there is none. In memory it is that pointer alone.
#[repr(C)]
pub struct TransferHandle {
    ptr: *mut u8,
    alloc: Global,
    pub ghost held: { Option Kept } by { coded_option the_row.coded },
}

impl Model for TransferHandle {
    ghost also_owns = { λ h. owns_held the_row h.alloc h.ptr h.held };
}

impl Handle for TransferHandle {
    type Content = HeldAnswer;

    ghost held = { λ h. h.held };

    fn from_raw(raw: NullableBox<HeldAnswer>) -> TransferHandle
        ensures { result.held ≡ raw.content }
    {
        let NullableBox { ptr, alloc } = raw;
        let ptr = ptr as *mut u8;
        TransferHandle { ptr, alloc }
    }

    fn into_raw(self) -> NullableBox<HeldAnswer>
        ensures { result.content ≡ self.held }
    {
        let TransferHandle { ptr, alloc } = self;
        let ptr = ptr as *mut HeldAnswer;
        NullableBox { ptr, alloc }
    }
}

/// Gives the memory of the transfer back.
impl Drop for TransferHandle {
    fn drop(self) {
        drop(self.into_raw().whole());
    }
}

/// It may go to another thread: what it holds is its own, and any thread may give the block back.
unsafe impl Send for TransferHandle {}
