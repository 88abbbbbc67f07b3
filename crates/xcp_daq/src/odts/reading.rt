//! What is asked of the ODTs.
ghost use Rattle.std.specs.Prelude.{◌≡◌, ℕ, ◌<◌, ◌≤◌, ◌+◌, [], None, length, take, drop, slice_index_or as get_or};
ghost use Rattle.xcp_memory.specs.ClassLimits.{limits_of};
ghost use Rattle.xcp_daq.specs.DaqLists.{any_large, first_size, odt_size};
ghost use Rattle.xcp_daq.specs.Pools.{joined, parts};
ghost use Rattle.xcp_daq.specs.private.SplicedPools.{total};

use super::Odts;
use crate::Element;
use crate::pools::{cut, place_of, rest, sum_before};
use xcp_memory::Class;

impl Odts {
    /// The class, whose limits hold.
    pub(crate) fn class(&self) -> Class
        ensures { result ≡ self.now.class }
    {
        self.class
    }

    /// How many ODTs there are in all.
    #[tactic(auto, using(crate::proofs::OdtLemmas::reads))]
    pub(crate) fn odt_count(&self) -> usize
        ensures value { result ≡ length (joined self.now.lists) }
        ensures most { result ≤ (limits_of self.now.class).odts }
        ensures bound { result ≤ 252 }
    {
        self.entry_counts.len()
    }

    /// How many entries there are in all.
    #[tactic(auto, using(crate::proofs::OdtLemmas::reads))]
    pub(crate) fn entry_count(&self) -> usize
        ensures value { result ≡ length (joined (joined self.now.lists)) }
        ensures bound { result ≤ 4096 }
    {
        self.entries.len()
    }

    /// How many ODTs there are before a list.
    #[tactic(auto, using(crate::proofs::OdtLemmas::reads))]
    pub(crate) fn first_pid(&self, i: usize) -> usize
        requires { i < length self.now.lists }
        ensures value { result ≡ length (joined (take i self.now.lists)) }
        ensures bound { result ≤ 252 }
    {
        sum_before(&self.odt_counts, i)
    }

    /// How many ODTs a list has.
    #[tactic(auto, using(crate::proofs::OdtLemmas::reads))]
    pub(crate) fn odts_of(&self, i: usize) -> usize
        requires { i < length self.now.lists }
        ensures { result ≡ length (get_or self.now.lists i []) }
    {
        self.odt_counts[i] as usize
    }

    /// How many entries an ODT has.
    #[tactic(auto, using(crate::proofs::OdtLemmas::reads))]
    pub(crate) fn entries_of(&self, i: usize, j: usize) -> usize
        requires list { i < length self.now.lists }
        requires odt { j < length (get_or self.now.lists i []) }
        ensures value { result ≡ length (get_or (get_or self.now.lists i []) j []) }
        ensures bound { result ≤ 4096 }
    {
        let g = place_of(&self.odt_counts, i, j);
        self.entry_counts[g] as usize
    }

    /// An entry.
    #[tactic(auto, using(crate::proofs::OdtLemmas::reads))]
    pub(crate) fn entry(&self, i: usize, j: usize, k: usize) -> Option<Element>
        requires list { i < length self.now.lists }
        requires odt { j < length (get_or self.now.lists i []) }
        requires entry { k < length (get_or (get_or self.now.lists i []) j []) }
        ensures { result ≡ get_or (get_or (get_or self.now.lists i []) j []) k None }
    {
        let g = place_of(&self.odt_counts, i, j);
        let m = place_of(&self.entry_counts, g, k);
        self.entries[m]
    }

    /// How many entries each ODT of a list has, and the entries from the list's first one on.
    #[tactic(auto, using(crate::proofs::OdtLemmas::reads))]
    pub(super) fn list(&self, i: usize) -> (&[u16], &[Option<Element>])
        requires { i < length self.now.lists }
        ensures cut { total result.0.now ≤ length result.1.now }
        ensures few { length result.1.now ≤ 4096 }
        ensures count { length result.0.now ≡ length (get_or self.now.lists i []) }
        ensures odts { get_or self.now.lists i [] ≡ parts result.0.now result.1.now }
        ensures rest { (from : ℕ) × (result.1.now ≡ drop from (joined (joined self.now.lists))) }
    {
        let first = self.first_pid(i);
        let n = self.odts_of(i);
        let from = sum_before(&self.entry_counts, first);
        (cut(&self.entry_counts, first, n), rest(&self.entries, from))
    }

    /// The size of the first ODT of a list, 0 where it has none.
    pub(crate) fn first_size(&self, i: usize) -> u32
        requires { i < length self.now.lists }
        ensures value { result ≡ first_size (get_or self.now.lists i []) }
        ensures bound { result ≤ 1_044_480 }
    {
        let (counts, entries) = self.list(i);
        first_size(counts, entries)
    }

    /// Whether an ODT of a list has more bytes.
    pub(crate) fn has_large(&self, i: usize, greatest: u8) -> bool
        requires { i < length self.now.lists }
        ensures { result ≡ any_large greatest (get_or self.now.lists i []) }
    {
        let (counts, entries) = self.list(i);
        any_large(counts, entries, greatest)
    }
}

/// Whether one of the ODTs with so many entries each has more bytes.
fn any_large(counts: &[u16], entries: &[Option<Element>], greatest: u8) -> bool
    requires cut { total counts.now ≤ length entries.now }
    requires few { length entries.now ≤ 4096 }
    ensures { result ≡ any_large greatest (parts counts.now entries.now) }
{
    let mut at = 0;
    for count in counts {
        let n = *count as usize;
        if size_of_odt(cut(entries, at, n)) > u32::from(greatest) {
            return true;
        }
        at += n;
    }
    false
}

/// The size of the first of the ODTs with so many entries each.
fn first_size(counts: &[u16], entries: &[Option<Element>]) -> u32
    requires cut { total counts.now ≤ length entries.now }
    requires few { length entries.now ≤ 4096 }
    ensures value { result ≡ first_size (parts counts.now entries.now) }
    ensures bound { result ≤ 1_044_480 }
{
    match counts.first() {
        Some(count) => size_of_odt(cut(entries, 0, *count as usize)),
        None => 0,
    }
}

/// The size of an ODT.
fn size_of_odt(entries: &[Option<Element>]) -> u32
    requires { length entries.now ≤ 4096 }
    ensures value { result ≡ odt_size entries.now }
    ensures bound { result ≤ 1_044_480 }
{
    let mut size = 0;
    for entry in entries {
        if let Some(element) = entry {
            size += u32::from(element.size);
        }
    }
    size
}
