//! What a caller that isn't Rattle keeps of the keys of a server.
ghost use Rattle.std.specs.Coded.{coded_option};
ghost use Rattle.std.specs.Prelude.{◌≡◌, Option};
ghost use Rattle.call_handles.specs.Holding.{owns_held};
ghost use Rattle.held_transfers.specs.declared.access.TransferAccess.{TransferAccess as Kept};
ghost use Rattle.held_transfers.specs.contracts.access.TransferAccess.{the_row};

use call_handles::{Handle, NullableBox};
use held_transfers::TransferAccess;
use std::alloc::Global;
use std::marker::Model;

/// The keys of a server and who may have its zones behind a pointer, which is null if there is none. In memory it is that pointer alone.
#[repr(C)]
pub struct AccessHandle {
    ptr: *mut u8,
    alloc: Global,
    pub ghost held: { Option Kept } by { coded_option the_row.coded },
}

impl Model for AccessHandle {
    ghost also_owns = { λ h. owns_held the_row h.alloc h.ptr h.held };
}

impl Handle for AccessHandle {
    type Content = TransferAccess;

    ghost held = { λ h. h.held };

    fn from_raw(raw: NullableBox<TransferAccess>) -> AccessHandle
        ensures { result.held ≡ raw.content }
    {
        let NullableBox { ptr, alloc } = raw;
        let ptr = ptr as *mut u8;
        AccessHandle { ptr, alloc }
    }

    fn into_raw(self) -> NullableBox<TransferAccess>
        ensures { result.content ≡ self.held }
    {
        let AccessHandle { ptr, alloc } = self;
        let ptr = ptr as *mut TransferAccess;
        NullableBox { ptr, alloc }
    }
}

/// Gives the memory of the keys back.
impl Drop for AccessHandle {
    fn drop(self) {
        drop(self.into_raw().whole());
    }
}

/// It may go to another thread: what it holds is its own, and any thread may give the block back.
unsafe impl Send for AccessHandle {}
