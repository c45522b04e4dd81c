//! What a caller that isn't Rattle keeps of texts of files.
ghost use Rattle.std.specs.Coded.{coded_option};
ghost use Rattle.std.specs.Prelude.{◌≡◌, Option};
ghost use Rattle.call_handles.specs.Holding.{owns_held};
ghost use Rattle.included_texts.specs.declared.kept.KeptTexts.{KeptTexts as Kept};
ghost use Rattle.included_texts.specs.contracts.kept.KeptTexts.{the_row};

use call_handles::{Handle, NullableBox};
use included_texts::KeptTexts;
use std::alloc::Global;
use std::marker::Model;

/// Texts of files behind a pointer, which is null if there are none. In memory it is that pointer alone.
#[repr(C)]
pub struct FilesHandle {
    ptr: *mut u8,
    alloc: Global,
    pub ghost held: { Option Kept } by { coded_option the_row.coded },
}

impl Model for FilesHandle {
    ghost also_owns = { λ h. owns_held the_row h.alloc h.ptr h.held };
}

impl Handle for FilesHandle {
    type Content = KeptTexts;

    ghost held = { λ h. h.held };

    fn from_raw(raw: NullableBox<KeptTexts>) -> FilesHandle
        ensures { result.held ≡ raw.content }
    {
        let NullableBox { ptr, alloc } = raw;
        let ptr = ptr as *mut u8;
        FilesHandle { ptr, alloc }
    }

    fn into_raw(self) -> NullableBox<KeptTexts>
        ensures { result.content ≡ self.held }
    {
        let FilesHandle { ptr, alloc } = self;
        let ptr = ptr as *mut KeptTexts;
        NullableBox { ptr, alloc }
    }
}

/// Gives the memory of the texts back.
impl Drop for FilesHandle {
    fn drop(self) {
        drop(self.into_raw().whole());
    }
}

/// It may go to another thread: what it holds is its own, and any thread may give the block back.
unsafe impl Send for FilesHandle {}
