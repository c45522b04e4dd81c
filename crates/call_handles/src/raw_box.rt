//! A box taken apart, so that its pointer can be in another struct.
ghost use Rattle.std.specs.Prelude.{◌≡◌};
ghost use Rattle.std_alloc.specs.Box.Ownership.{box_owns};

use std::alloc::Allocator;
use std::marker::Model;

/// A box in two parts. It owns the value and its block as the box does.
pub struct RawBox<T, A: Allocator> {
    /// Where the value lies.
    pub ptr: *mut T,
    /// What frees its block.
    pub alloc: A,
    /// The value.
    pub ghost content: { T },
}

impl<T, A: Allocator> Model for RawBox<T, A> {
    ghost also_owns = { λ raw. box_owns (A.dealloc_token raw.alloc) T.row raw.ptr raw.content };
}

impl<T: Drop, A: Allocator> RawBox<T, A> {
    /// Takes a box apart.
    pub fn apart(whole: Box<T, A>) -> RawBox<T, A>
        ensures { result.content ≡ whole.value }
    {
        let (ptr, alloc) = Box::into_raw_with_allocator(whole);
        RawBox { ptr, alloc }
    }

    /// The box as it was.
    pub fn whole(self) -> Box<T, A>
        ensures { result.value ≡ self.content }
    {
        let RawBox { ptr, alloc } = self;
        unsafe { Box::from_raw(alloc, ptr) }
    }
}
