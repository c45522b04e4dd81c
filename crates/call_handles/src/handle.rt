//! What a caller that isn't Rattle keeps of a value.
ghost use Rattle.std.specs.Prelude.{◌≡◌, Some, None, Option, MatchOption};

use crate::nullable_box::NullableBox;
use std::alloc::Global;
use std::mem;

/// A handle: a pointer to a value in a block of its own, or null. C passes it to a call, and a struct that C passes has no type
/// parameters, so each type of value has a struct of its own, which says how it is made of such a pointer and gives it back.
pub trait Handle: Sized {
    /// The type of the values that such handles hold.
    type Content: Drop;

    /// The value that a handle holds, if there is one.
    ghost held: { Self → Option Self.Content };

    /// Makes a handle of a box, or of none.
    fn from_raw(raw: NullableBox<Self::Content>) -> Self
        ensures { held result ≡ raw.content };

    /// Gives the box that the handle holds, or none.
    fn into_raw(self) -> NullableBox<Self::Content>
        ensures { result.content ≡ held self };

    /// Makes a handle that holds nothing.
    final fn empty(alloc: Global) -> Self
        ensures { held result ≡ None }
    {
        Self::from_raw(NullableBox::empty(alloc))
    }

    /// Takes the value out, if there is one. The handle holds nothing then.
    final fn take(&mut self, alloc: Global) -> Option<Box<Self::Content>>
        ensures taken { MatchOption result (held self.old ≡ None)
            (λ value. held self.old ≡ Some value.value) }
        ensures left { held self.new ≡ None }
    {
        let empty = Self::from_raw(NullableBox::empty(alloc));
        mem::replace(self, empty).into_raw().whole()
    }

    /// Puts a value in place of what is held, whose memory is given back.
    final fn put(&mut self, value: Box<Self::Content>)
        ensures { held self.new ≡ Some value.value }
    {
        let full = Self::from_raw(NullableBox::apart(value));
        drop(mem::replace(self, full).into_raw().whole());
    }
}
