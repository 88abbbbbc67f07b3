//! The place of a boxed value, or of none: what lies between a box and a handle.
ghost use Rattle.std.specs.Prelude.{◌≡◌, Option, Some, None};
ghost use Rattle.std.specs.Coded.{coded_option};
ghost use Rattle.xcp_c.specs.Held.{IsOpen};

use std::alloc::Allocator;
use std::marker::Model;
use std::ptr::null_mut;

/// Where a boxed value lies, and what frees it; or null.
pub(crate) struct Place<T, A: Allocator> {
    pub(crate) at: *mut T,
    pub(crate) alloc: A,
    pub ghost value: { Option T } by { coded_option T.code },
}

impl<T, A: Allocator> Model for Place<T, A> {
    ghost use Rattle.xcp_c.specs.Held.{lies_there};

    ghost also_owns = { λ p. lies_there (A.dealloc_token p.alloc) T.row p.at p.value };
}

impl<T, A: Allocator> Place<T, A> {
    /// Nowhere.
    pub(crate) fn none(alloc: A) -> Place<T, A>
        ensures { result.value ≡ None }
    {
        Place {
            at: null_mut(),
            alloc,
        }
    }

    /// Where a box has its value.
    pub(crate) fn of(boxed: Box<T, A>) -> Place<T, A>
    where
        T: Drop,
        ensures { result.value ≡ Some boxed.value }
    {
        let (at, alloc) = Box::into_raw_with_allocator(boxed);
        Place { at, alloc }
    }

    /// The box again.
    pub(crate) fn into_box(self) -> Box<T, A>
        requires { IsOpen self.value }
        ensures { self.value ≡ Some result.value }
    {
        let Place { at, alloc } = self;
        unsafe { Box::from_raw(alloc, at) }
    }
}
