//! A box as its raw parts: pointer and allocator.

ghost use Rattle.std.specs.Prelude.{◌≡◌};
ghost use Rattle.std.specs.Box.Ownership.{box_owns};

use std::alloc::Allocator;
use std::marker::Model;

/// The raw parts of a box. They own its memory.
pub struct HandleParts<T, A: Allocator> {
    pub(crate) at: *mut T,
    pub(crate) alloc: A,
    pub ghost value: { T },
}

impl<T, A: Allocator> Model for HandleParts<T, A> {
    ghost also_owns = { λ p. box_owns (A.dealloc_token p.alloc) T.row p.at p.value };
}

impl<T, A: Allocator> HandleParts<T, A> {
    /// Returns the parts of a box.
    pub(crate) fn of(whole: Box<T, A>) -> HandleParts<T, A>
    where
        T: Drop,
        ensures { result.value ≡ whole.value }
    {
        let (at, alloc) = Box::into_raw_with_allocator(whole);
        HandleParts { at, alloc }
    }

    /// Returns the box of these parts.
    pub(crate) fn into_box(self) -> Box<T, A>
        ensures { result.value ≡ self.value }
    {
        let HandleParts { at, alloc } = self;
        unsafe { Box::from_raw(alloc, at) }
    }
}
