//! A box that may be missing, taken apart, so that its pointer can be in another struct.
ghost use Rattle.std.specs.Coded.{coded_option};
ghost use Rattle.std.specs.Prelude.{◌≡◌, Some, None, Option, MatchOption};
ghost use Rattle.call_handles.specs.Holding.{owns_held};

use crate::raw_box::RawBox;
use std::alloc::Global;
use std::marker::Model;
use std::ptr;

/// A box in two parts, or none. It owns the value and its block as the box does.
pub struct NullableBox<T> {
    /// Where the value lies, which is null if there is none.
    pub ptr: *mut T,
    /// What frees its block.
    pub alloc: Global,
    /// The value, if there is one.
    pub ghost content: { Option T } by { coded_option T.code },
}

impl<T> Model for NullableBox<T> {
    ghost also_owns = { λ raw. owns_held T.row raw.alloc raw.ptr raw.content };
}

impl<T: Drop> NullableBox<T> {
    /// No box.
    pub fn empty(alloc: Global) -> NullableBox<T>
        ensures { result.content ≡ None }
    {
        let ptr = ptr::null_mut();
        NullableBox { ptr, alloc }
    }

    /// Takes a box apart.
    pub fn apart(whole: Box<T>) -> NullableBox<T>
        ensures { result.content ≡ Some whole.value }
    {
        NullableBox::full(RawBox::apart(whole))
    }

    /// The box as it was, or none.
    pub fn whole(self) -> Option<Box<T>>
        ensures { MatchOption result (self.content ≡ None) (λ it. self.content ≡ Some it.value) }
    {
        match self.raw() {
            Some(raw) => Some(raw.whole()),
            None => None,
        }
    }

    /// A box of which it is known that it is there.
    fn full(raw: RawBox<T, Global>) -> NullableBox<T>
        ensures { result.content ≡ Some raw.content }
    {
        let RawBox { ptr, alloc } = raw;
        NullableBox { ptr, alloc }
    }

    /// The box in its two parts, if there is one.
    fn raw(self) -> Option<RawBox<T, Global>>
        ensures { MatchOption result (self.content ≡ None) (λ it. self.content ≡ Some it.content) }
    {
        let NullableBox { ptr, alloc } = self;
        if ptr.is_null() {
            None
        } else {
            Some(RawBox { ptr, alloc })
        }
    }
}
