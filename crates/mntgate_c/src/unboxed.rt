//! A box in its parts.

ghost use Rattle.std.specs.Prelude.{◌≡◌};
ghost use Rattle.std_alloc.specs.Box.Ownership.{box_owns};

use std::alloc::Allocator;
use std::marker::Model;

/// A value on the heap, by its pointer and the allocator that frees it: a box apart, so that its pointer can be kept by C.
pub(crate) struct Unboxed<T, A: Allocator> {
    pub(crate) at: *mut T,
    pub(crate) alloc: A,
    pub(crate) ghost value: { T },
}

impl<T, A: Allocator> Model for Unboxed<T, A> {
    ghost also_owns = { λ u. box_owns (A.dealloc_token u.alloc) T.row u.at u.value };
}

impl<T: Drop, A: Allocator> Unboxed<T, A> {
    /// Takes a box apart.
    pub(crate) fn of(boxed: Box<T, A>) -> Unboxed<T, A>
        ensures { result.value ≡ boxed.value }
    {
        let (at, alloc) = Box::into_raw_with_allocator(boxed);
        Unboxed { at, alloc }
    }

    /// Makes the box again.
    pub(crate) fn into_box(self) -> Box<T, A>
        ensures { result.value ≡ self.value }
    {
        let Unboxed { at, alloc } = self;
        unsafe { Box::from_raw(alloc, at) }
    }
}
