//! What a caller that isn't Rattle keeps of an update that is planned.
ghost use Rattle.std.specs.Coded.{coded_option};
ghost use Rattle.std.specs.Prelude.{◌≡◌, Option};
ghost use Rattle.call_handles.specs.Holding.{owns_held};
ghost use Rattle.held_updates.specs.declared.planned.UpdatedZone.{UpdatedZone as Kept};
ghost use Rattle.held_updates.specs.contracts.planned.UpdatedZone.{the_row};

use call_handles::{Handle, NullableBox};
use held_updates::UpdatedZone;
use std::alloc::Global;
use std::marker::Model;

/// A zone after an update behind a pointer, which is null if there is none. In memory it is that pointer alone.
#[repr(C)]
pub struct PlannedHandle {
    ptr: *mut u8,
    alloc: Global,
    pub ghost held: { Option Kept } by { coded_option the_row.coded },
}

impl Model for PlannedHandle {
    ghost also_owns = { λ h. owns_held the_row h.alloc h.ptr h.held };
}

impl Handle for PlannedHandle {
    type Content = UpdatedZone;

    ghost held = { λ h. h.held };

    fn from_raw(raw: NullableBox<UpdatedZone>) -> PlannedHandle
        ensures { result.held ≡ raw.content }
    {
        let NullableBox { ptr, alloc } = raw;
        let ptr = ptr as *mut u8;
        PlannedHandle { ptr, alloc }
    }

    fn into_raw(self) -> NullableBox<UpdatedZone>
        ensures { result.content ≡ self.held }
    {
        let PlannedHandle { ptr, alloc } = self;
        let ptr = ptr as *mut UpdatedZone;
        NullableBox { ptr, alloc }
    }
}

/// Gives the memory of the zone back.
impl Drop for PlannedHandle {
    fn drop(self) {
        drop(self.into_raw().whole());
    }
}

/// It may go to another thread: what it holds is its own, and any thread may give the block back.
unsafe impl Send for PlannedHandle {}
