//! The ODTs of all lists, in flat pools.
ghost use Rattle.std.specs.Prelude.{◌≡◌, ◌≢◌, MatchBool, IfOk, ◌<◌, ◌≤◌, ◌+◌, ◌++◌, [], None, Some, length, map, replicate, slice_index_or as get_or, slice_set};
ghost use Rattle.xcp_memory.specs.ClassLimits.{limits_of};
ghost use Rattle.xcp_daq.specs.Pools.{joined};

mod reading;
mod sampling;

use crate::Element;
use crate::pools::{blank, copied, end_of, place_of, put_in, sum_before};
use std::alloc::{AllocError, Global};
use std::marker::Model;
use xcp_memory::Class;

/// The ODTs of all lists: how many ODTs each list has, how many entries each ODT has, list by list, and the entries, ODT
/// by ODT. So the place of an ODT among all of them is its PID. There is room for all that the class has.
#[derive(Drop)]
pub(crate) struct Odts {
    class: Class,
    odt_counts: Vec<u16>,
    entry_counts: Vec<u16>,
    entries: Vec<Option<Element>>,
}

impl Model for Odts {
    ghost use Rattle.xcp_daq.specs.Pools.{parts};
    ghost use Rattle.xcp_daq.specs.private.ReservedPools.{OdtsValue, IsOdts};

    ghost Value = { OdtsValue };

    ghost view = { λ p. record { class = p.class; lists = parts p.odt_counts.items (parts p.entry_counts.items p.entries.items) } };

    ghost invariant = { λ p. IsOdts p.class p.odt_counts p.entry_counts p.entries };
}

impl Odts {
    /// No lists, with room for all that the class has.
    pub(crate) fn new(alloc: Global, class: Class) -> Result<Odts, AllocError>
        ensures { IfOk result (λ odts. odts ≡ record { class = class; lists = [] }) }
    {
        let limits = class.limits();
        Ok(Odts {
            class,
            odt_counts: Vec::with_capacity(alloc, limits.lists)?,
            entry_counts: Vec::with_capacity(alloc, limits.odts)?,
            entries: Vec::with_capacity(alloc, limits.entries)?,
        })
    }

    /// Equal lists, with as much room.
    pub(crate) fn copy(&self, alloc: Global) -> Result<Odts, AllocError>
        ensures { IfOk result (λ odts. odts ≡ self.now) }
    {
        let limits = self.class.limits();
        Ok(Odts {
            class: self.class,
            odt_counts: copied(alloc, &self.odt_counts, limits.lists)?,
            entry_counts: copied(alloc, &self.entry_counts, limits.odts)?,
            entries: copied(alloc, &self.entries, limits.entries)?,
        })
    }

    /// Whether both are equal lists.
    pub(crate) fn same_lists(&self, other: &Odts) -> bool
        ensures { MatchBool result (self.now.lists ≡ other.now.lists) (self.now.lists ≢ other.now.lists) }
    {
        if !same_counts(&self.odt_counts, &other.odt_counts) {
            return false;
        }
        if !same_counts(&self.entry_counts, &other.entry_counts) {
            return false;
        }
        same_entries(&self.entries, &other.entries)
    }

    /// Takes all lists away.
    pub(crate) fn clear(&mut self)
        ensures { self.new ≡ record { class = self.old.class; lists = [] } }
    {
        self.odt_counts.clear();
        self.entry_counts.clear();
        self.entries.clear();
    }

    /// Puts lists without ODTs behind the others.
    #[tactic(auto, using(crate::proofs::OdtLemmas::reads))]
    pub(crate) fn add_lists(&mut self, n: usize)
        requires { length self.old.lists + n ≤ (limits_of self.old.class).lists }
        ensures lists { self.new.lists ≡ self.old.lists ++ replicate n [] }
        ensures class { self.new.class ≡ self.old.class }
    {
        let end = self.odt_counts.len();
        put_in(&mut self.odt_counts, end, n, 0);
    }

    /// Puts ODTs without entries behind the others of a list.
    #[tactic(auto, using(crate::proofs::OdtLemmas::reads))]
    pub(crate) fn add_odts(&mut self, i: usize, n: usize)
        requires list { i < length self.old.lists }
        requires room { length (joined self.old.lists) + n ≤ (limits_of self.old.class).odts }
        ensures lists { self.new.lists ≡ slice_set self.old.lists i (get_or self.old.lists i [] ++ replicate n []) }
        ensures class { self.new.class ≡ self.old.class }
    {
        let end = end_of(&self.odt_counts, i);
        put_in(&mut self.entry_counts, end, n, 0);
        self.odt_counts[i] += n as u16;
    }

    /// Puts unwritten entries behind the others of an ODT.
    #[tactic(auto, using(crate::proofs::OdtLemmas::reads))]
    pub(crate) fn add_entries(&mut self, i: usize, j: usize, n: usize)
        requires list { i < length self.old.lists }
        requires odt { j < length (get_or self.old.lists i []) }
        requires room { length (joined (joined self.old.lists)) + n ≤ (limits_of self.old.class).entries }
        ensures lists { self.new.lists ≡ slice_set self.old.lists i (slice_set (get_or self.old.lists i []) j (get_or (get_or self.old.lists i []) j [] ++ replicate n None)) }
        ensures class { self.new.class ≡ self.old.class }
    {
        let g = place_of(&self.odt_counts, i, j);
        let end = end_of(&self.entry_counts, g);
        put_in(&mut self.entries, end, n, None);
        self.entry_counts[g] += n as u16;
    }

    /// Writes an entry.
    #[tactic(auto, using(crate::proofs::OdtLemmas::reads))]
    pub(crate) fn write(&mut self, i: usize, j: usize, k: usize, element: Element)
        requires list { i < length self.old.lists }
        requires odt { j < length (get_or self.old.lists i []) }
        requires entry { k < length (get_or (get_or self.old.lists i []) j []) }
        ensures lists { self.new.lists ≡ slice_set self.old.lists i (slice_set (get_or self.old.lists i []) j (slice_set (get_or (get_or self.old.lists i []) j []) k (Some element))) }
        ensures class { self.new.class ≡ self.old.class }
    {
        let g = place_of(&self.odt_counts, i, j);
        let m = place_of(&self.entry_counts, g, k);
        self.entries[m] = Some(element);
    }

    /// Makes all entries of a list unwritten.
    #[tactic(auto, using(crate::proofs::OdtLemmas::reads))]
    pub(crate) fn unwrite(&mut self, i: usize)
        requires { i < length self.old.lists }
        ensures lists { self.new.lists ≡ slice_set self.old.lists i (map (map (λ entry. None)) (get_or self.old.lists i [])) }
        ensures class { self.new.class ≡ self.old.class }
    {
        let first = sum_before(&self.odt_counts, i);
        let end = end_of(&self.odt_counts, i);
        let from = sum_before(&self.entry_counts, first);
        let to = sum_before(&self.entry_counts, end);
        blank(&mut self.entries, from, to);
    }
}

/// Whether both have the same counts.
fn same_counts(ours: &[u16], theirs: &[u16]) -> bool
    ensures { MatchBool result (ours.now ≡ theirs.now) (ours.now ≢ theirs.now) }
{
    ours == theirs
}

/// Whether both have the same entries.
fn same_entries(ours: &[Option<Element>], theirs: &[Option<Element>]) -> bool
    ensures { MatchBool result (ours.now ≡ theirs.now) (ours.now ≢ theirs.now) }
{
    if ours.len() != theirs.len() {
        return false;
    }
    for i in 0..ours.len() {
        if ours[i] != theirs[i] {
            return false;
        }
    }
    true
}
