//! The handle of a reader.
ghost use Rattle.std.specs.Prelude.{◌≡◌, MatchBool, Option, Some, None};
ghost use Rattle.xcp_bank.specs.BankEnds.{ReaderEnd};
ghost use Rattle.xcp_c.specs.Held.{IsOpen, coded_reader};

use crate::place::Place;
use std::alloc::Global;
use std::marker::Model;
use xcp_bank::Reader;

/// The place of a boxed reader, or null.
#[repr(C)]
#[derive(Drop)]
pub struct ReaderHandle {
    at: *mut u8,
    alloc: Global,
    pub ghost value: { Option ReaderEnd } by { coded_reader },
}

impl Model for ReaderHandle {
    ghost use Rattle.xcp_c.specs.Held.{held_reader};

    ghost also_owns = { λ h. held_reader h.alloc h.at h.value };
}

impl ReaderHandle {
    /// A handle that owns nothing.
    pub(crate) fn closed(alloc: Global) -> ReaderHandle
        ensures { result.value ≡ None }
    {
        ReaderHandle::keep(Place::none(alloc))
    }

    /// A handle that owns this.
    pub(crate) fn of(boxed: Box<Reader>) -> ReaderHandle
        ensures { result.value ≡ Some boxed.value }
    {
        ReaderHandle::keep(Place::of(boxed))
    }

    /// What it owns.
    pub(crate) fn into_box(self) -> Box<Reader>
        requires { IsOpen self.value }
        ensures { self.value ≡ Some result.value }
    {
        self.give().into_box()
    }

    /// Whether it owns a value.
    pub(crate) fn is_open(&mut self) -> bool
        ensures { MatchBool result (IsOpen self.old.value) (self.old.value ≡ None)
            × (self.new ≡ self.old) }
    {
        !self.at.is_null()
    }

    /// Forgets the type of the place.
    fn keep(place: Place<Reader, Global>) -> ReaderHandle
        ensures { result.value ≡ place.value }
    {
        let Place { at, alloc } = place;
        ReaderHandle {
            at: at as *mut u8,
            alloc,
        }
    }

    /// The place with its type.
    fn give(self) -> Place<Reader, Global>
        ensures { result.value ≡ self.value }
    {
        let ReaderHandle { at, alloc } = self;
        Place {
            at: at as *mut Reader,
            alloc,
        }
    }
}

unsafe impl Send for ReaderHandle {}
