//! What a caller that isn't Rattle keeps of a database.
ghost use Rattle.std.specs.Coded.{coded_option};
ghost use Rattle.std.specs.Prelude.{◌≡◌, Option};
ghost use Rattle.call_handles.specs.Holding.{owns_held};
ghost use Rattle.zone_database.specs.declared.database.ZoneDatabase.{ZoneDatabase as Listed};
ghost use Rattle.zone_database.specs.contracts.database.ZoneDatabase.{the_row};

use crate::database::ZoneDatabase;
use call_handles::{Handle, NullableBox};
use std::alloc::Global;
use std::marker::Model;

/// A database behind a pointer, which is null if there is none. In memory it is that pointer alone.
#[repr(C)]
pub struct DatabaseHandle {
    ptr: *mut u8,
    alloc: Global,
    pub ghost held: { Option Listed } by { coded_option the_row.coded },
}

impl Model for DatabaseHandle {
    ghost also_owns = { λ h. owns_held the_row h.alloc h.ptr h.held };
}

impl Handle for DatabaseHandle {
    type Content = ZoneDatabase;

    ghost held = { λ h. h.held };

    fn from_raw(raw: NullableBox<ZoneDatabase>) -> DatabaseHandle
        ensures { result.held ≡ raw.content }
    {
        let NullableBox { ptr, alloc } = raw;
        let ptr = ptr as *mut u8;
        DatabaseHandle { ptr, alloc }
    }

    fn into_raw(self) -> NullableBox<ZoneDatabase>
        ensures { result.content ≡ self.held }
    {
        let DatabaseHandle { ptr, alloc } = self;
        let ptr = ptr as *mut ZoneDatabase;
        NullableBox { ptr, alloc }
    }
}

/// Gives the memory of the database back.
impl Drop for DatabaseHandle {
    fn drop(self) {
        drop(self.into_raw().whole());
    }
}

/// It may go to another thread: what it holds is its own, and any thread may give the block back.
unsafe impl Send for DatabaseHandle {}
