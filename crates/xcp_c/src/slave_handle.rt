//! The handle of a slave.
ghost use Rattle.std.specs.Prelude.{◌≡◌, MatchBool, Option, Some, None};
ghost use Rattle.xcp_c.specs.Held.{IsOpen, coded_slave};
ghost use Rattle.xcp_c.specs.OpenValue.{OpenValue};

use crate::open_slave::OpenSlave;
use crate::place::Place;
use std::alloc::Global;
use std::marker::Model;

/// The place of a boxed slave, or null.
#[repr(C)]
#[derive(Drop)]
pub struct SlaveHandle {
    at: *mut u8,
    alloc: Global,
    pub ghost value: { Option OpenValue } by { coded_slave },
}

impl Model for SlaveHandle {
    ghost use Rattle.xcp_c.specs.Held.{held_slave};

    ghost also_owns = { λ h. held_slave h.alloc h.at h.value };
}

impl SlaveHandle {
    /// A handle that owns nothing.
    pub(crate) fn closed(alloc: Global) -> SlaveHandle
        ensures { result.value ≡ None }
    {
        SlaveHandle::keep(Place::none(alloc))
    }

    /// A handle that owns this.
    pub(crate) fn of(boxed: Box<OpenSlave>) -> SlaveHandle
        ensures { result.value ≡ Some boxed.value }
    {
        SlaveHandle::keep(Place::of(boxed))
    }

    /// What it owns.
    pub(crate) fn into_box(self) -> Box<OpenSlave>
        requires { IsOpen self.value }
        ensures { self.value ≡ Some result.value }
    {
        self.give().into_box()
    }

    /// Whether it owns a value.
    pub(crate) fn is_open(&mut self) -> bool
        ensures { MatchBool result (IsOpen self.old.value) (self.old.value ≡ None)
            × (self.new ≡ self.old) }
    {
        !self.at.is_null()
    }

    /// Forgets the type of the place.
    fn keep(place: Place<OpenSlave, Global>) -> SlaveHandle
        ensures { result.value ≡ place.value }
    {
        let Place { at, alloc } = place;
        SlaveHandle {
            at: at as *mut u8,
            alloc,
        }
    }

    /// The place with its type.
    fn give(self) -> Place<OpenSlave, Global>
        ensures { result.value ≡ self.value }
    {
        let SlaveHandle { at, alloc } = self;
        Place {
            at: at as *mut OpenSlave,
            alloc,
        }
    }
}

unsafe impl Send for SlaveHandle {}
