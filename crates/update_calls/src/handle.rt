//! What a caller that isn't Rattle keeps of the keys of a server, and of its rules.
ghost use Rattle.std.specs.Coded.{coded_option};
ghost use Rattle.std.specs.Prelude.{◌≡◌, Option};
ghost use Rattle.call_handles.specs.Holding.{owns_held};
ghost use Rattle.held_updates.specs.declared.access.UpdateAccess.{UpdateAccess as Kept};
ghost use Rattle.held_updates.specs.contracts.access.UpdateAccess.{the_row};

use call_handles::{Handle, NullableBox};
use held_updates::UpdateAccess;
use std::alloc::Global;
use std::marker::Model;

/// The keys of a server and the rules of its zones behind a pointer, which is null if there are none. In memory it is that pointer alone.
#[repr(C)]
pub struct UpdatesHandle {
    ptr: *mut u8,
    alloc: Global,
    pub ghost held: { Option Kept } by { coded_option the_row.coded },
}

impl Model for UpdatesHandle {
    ghost also_owns = { λ h. owns_held the_row h.alloc h.ptr h.held };
}

impl Handle for UpdatesHandle {
    type Content = UpdateAccess;

    ghost held = { λ h. h.held };

    fn from_raw(raw: NullableBox<UpdateAccess>) -> UpdatesHandle
        ensures { result.held ≡ raw.content }
    {
        let NullableBox { ptr, alloc } = raw;
        let ptr = ptr as *mut u8;
        UpdatesHandle { ptr, alloc }
    }

    fn into_raw(self) -> NullableBox<UpdateAccess>
        ensures { result.content ≡ self.held }
    {
        let UpdatesHandle { ptr, alloc } = self;
        let ptr = ptr as *mut UpdateAccess;
        NullableBox { ptr, alloc }
    }
}

/// Gives the memory of the keys back.
impl Drop for UpdatesHandle {
    fn drop(self) {
        drop(self.into_raw().whole());
    }
}

/// It may go to another thread: what it holds is its own, and any thread may give the block back.
unsafe impl Send for UpdatesHandle {}
