//! The acquisition lists.
ghost use Rattle.std.specs.Prelude.{◌≡◌, ◌≢◌, MatchBool, IfOk};
ghost use Rattle.std.specs.List.{list_any};
ghost use Rattle.xcp_daq.specs.DaqLists.{opening_daq, any_running};
ghost use Rattle.xcp_daq.specs.DaqInvariant.{IsDaq};

mod allocating;
mod configuring;
mod info;
mod multiple;
mod reading;
mod sampling;
mod starting;

use crate::mode::Mode;
use crate::odts::Odts;
use crate::pools::copied;
use crate::{Allocation, Pointer};
use std::alloc::{AllocError, Global};
use std::marker::Model;
use xcp_memory::Class;

/// The DAQ lists of a slave, its DAQ pointer, and how far the allocation of lists has come. There is room for all that the
/// class has, so no command takes memory.
#[derive(Drop)]
pub struct Daq {
    modes: Vec<Mode>,
    odts: Odts,
    pointer: Option<Pointer>,
    last: Option<Allocation>,
}

impl Model for Daq {
    ghost use Rattle.xcp_daq.specs.DaqLists.{DaqValue};
    ghost use Rattle.xcp_daq.specs.Pools.{daq_of};
    ghost use Rattle.xcp_daq.specs.private.ReservedPools.{IsModes};

    ghost Value = { DaqValue };

    ghost view = { λ d. daq_of d.odts.class d.modes.items d.odts.lists d.pointer d.last };

    ghost invariant = { λ d. IsModes d.modes d.odts d.pointer d.last };
}

impl Daq {
    /// No lists, no pointer, and nothing allocated. Its pools are all the memory that it ever takes.
    pub fn new(alloc: Global, class: Class) -> Result<Daq, AllocError>
        ensures { IfOk result (λ d. d ≡ opening_daq class) }
    {
        Ok(Daq {
            modes: Vec::with_capacity(alloc, class.limits().lists)?,
            odts: Odts::new(alloc, class)?,
            pointer: None,
            last: None,
        })
    }

    /// Goes back to how it was made: what a session's end does.
    pub fn reset(&mut self)
        ensures { self.new ≡ opening_daq self.old.class }
    {
        self.modes.clear();
        self.odts.clear();
        self.pointer = None;
        self.last = None;
    }

    /// Equal lists, with the pointer and the last allocating command, and with as much room.
    pub fn copy(&self, alloc: Global) -> Result<Daq, AllocError>
        ensures { IfOk result (λ d. d ≡ self.now) }
    {
        Ok(Daq {
            modes: copied(alloc, &self.modes, self.limits().lists)?,
            odts: self.odts.copy(alloc)?,
            pointer: self.pointer,
            last: self.last,
        })
    }

    /// Whether both have equal lists of the same class, the same pointer and the same last allocating command.
    pub fn same(&self, other: &Daq) -> bool
        ensures { MatchBool result (self.now ≡ other.now) (self.now ≢ other.now) }
    {
        self.odts.class() == other.odts.class()
            && self.pointer == other.pointer
            && self.last == other.last
            && self.same_lists(other)
    }

    fn same_lists(&self, other: &Daq) -> bool
        ensures { MatchBool result (self.now.lists ≡ other.now.lists) (self.now.lists ≢ other.now.lists) }
    {
        if !same_modes(&self.modes, &other.modes) {
            return false;
        }
        self.odts.same_lists(&other.odts)
    }

    /// Whether a list runs.
    #[tactic(auto, using(crate::proofs::DaqListLemmas::reads))]
    pub fn any_running(&self) -> bool
        ensures { result ≡ any_running self.now }
    {
        any_runs(&self.modes)
    }

    /// Tells a caller's proof what is true of all lists.
    pub fn known(&self)
        ensures { IsDaq self.now }
    {
        let _ = &self.modes;
    }
}

/// Whether a list runs.
fn any_runs(modes: &[Mode]) -> bool
    ensures { result ≡ list_any (λ m. m.running) modes.now }
{
    modes.iter().any(|mode| mode.running)
}

/// Whether both have the same modes.
fn same_modes(ours: &[Mode], theirs: &[Mode]) -> bool
    ensures { MatchBool result (ours.now ≡ theirs.now) (ours.now ≢ theirs.now) }
{
    if ours.len() != theirs.len() {
        return false;
    }
    for i in 0..ours.len() {
        if ours[i] != theirs[i] {
            return false;
        }
    }
    true
}
