//! The handle of a framer.
ghost use Rattle.std.specs.Prelude.{◌≡◌, MatchBool, Option, Some, None};
ghost use Rattle.xcp_framing.specs.FramerInput.{FramerValue};
ghost use Rattle.xcp_c.specs.Held.{IsOpen, coded_framer};

use crate::place::Place;
use std::alloc::Global;
use std::marker::Model;
use xcp_framing::Framer;

/// The place of a boxed framer, or null.
#[repr(C)]
#[derive(Drop)]
pub struct FramerHandle {
    at: *mut u8,
    alloc: Global,
    pub ghost value: { Option FramerValue } by { coded_framer },
}

impl Model for FramerHandle {
    ghost use Rattle.xcp_c.specs.Held.{held_framer};

    ghost also_owns = { λ h. held_framer h.alloc h.at h.value };
}

impl FramerHandle {
    /// A handle that owns nothing.
    pub(crate) fn closed(alloc: Global) -> FramerHandle
        ensures { result.value ≡ None }
    {
        FramerHandle::keep(Place::none(alloc))
    }

    /// A handle that owns this.
    pub(crate) fn of(boxed: Box<Framer>) -> FramerHandle
        ensures { result.value ≡ Some boxed.value }
    {
        FramerHandle::keep(Place::of(boxed))
    }

    /// What it owns.
    pub(crate) fn into_box(self) -> Box<Framer>
        requires { IsOpen self.value }
        ensures { self.value ≡ Some result.value }
    {
        self.give().into_box()
    }

    /// Whether it owns a value.
    pub(crate) fn is_open(&mut self) -> bool
        ensures { MatchBool result (IsOpen self.old.value) (self.old.value ≡ None)
            × (self.new ≡ self.old) }
    {
        !self.at.is_null()
    }

    /// Forgets the type of the place.
    fn keep(place: Place<Framer, Global>) -> FramerHandle
        ensures { result.value ≡ place.value }
    {
        let Place { at, alloc } = place;
        FramerHandle {
            at: at as *mut u8,
            alloc,
        }
    }

    /// The place with its type.
    fn give(self) -> Place<Framer, Global>
        ensures { result.value ≡ self.value }
    {
        let FramerHandle { at, alloc } = self;
        Place {
            at: at as *mut Framer,
            alloc,
        }
    }
}

unsafe impl Send for FramerHandle {}
