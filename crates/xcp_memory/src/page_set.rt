//! The pages of one segment.
ghost use Rattle.std.specs.Prelude.{◌≡◌, ◌≢◌, MatchBool, ◌≤◌, ◌<◌, ◌+◌, length, [], IfOk, false, replicate, take, drop, slice_index_or as get_or};
ghost use Rattle.xcp_memory.specs.Pages.{xcp_page};
ghost use Rattle.xcp_memory.specs.PageCopy.{with_content};
ghost use Rattle.xcp_memory.specs.Freeze.{segment_frozen};
ghost use Rattle.xcp_memory.specs.PageSwitch.{segment_switched};
ghost use Rattle.xcp_memory.specs.ComputedAccess.{overwritten, segment_written};

use crate::switch_mode::SwitchMode;
use bitflags::Flags;
use std::alloc::{AllocError, Global};
use std::marker::Model;

/// Who has a page: the controller (ECU) or the tool (XCP).
#[derive(Clone, Copy, Debug, PartialEq, Eq)]
pub(crate) enum Side {
    Ecu,
    Xcp,
}

/// The pages of a segment, from page 0 on, which of them each side has, and whether the segment is
/// in FREEZE mode.
#[derive(Drop)]
pub(crate) struct PageSet {
    // The pages one after another, `count` of them with `size` bytes each.
    bytes: Vec<u8>,
    size: usize,
    count: u8,
    ecu: u8,
    xcp: u8,
    freeze: bool,
}

impl Model for PageSet {
    ghost use Rattle.std.specs.Prelude.{◌≡◌, ◌*◌, length};
    ghost use Rattle.xcp_memory.specs.Pages.{SegmentPages};
    ghost use Rattle.xcp_memory.specs.private.PageStore.{pages_in};

    ghost Value = { SegmentPages };

    ghost view = { λ s. record { pages = pages_in s.count s.size s.bytes.items; ecu = s.ecu; xcp = s.xcp; freeze = s.freeze } };

    ghost invariant = { λ s. length s.bytes.items ≡ s.count * s.size };
}

impl PageSet {
    ghost use Rattle.xcp_memory.specs.private.PagesBySide.{page_by_side, page_by};

    /// So many pages with these bytes; both sides have page 0, and FREEZE is off.
    pub(crate) fn new(alloc: Global, page: &[u8], count: u8) -> Result<PageSet, AllocError>
        ensures { IfOk result (λ s. s ≡ record { pages = replicate count page.now; ecu = 0; xcp = 0; freeze = false }) }
    {
        let bytes = page.repeat(alloc, count as usize)?;
        Ok(PageSet {
            bytes,
            size: page.len(),
            count,
            ecu: 0,
            xcp: 0,
            freeze: false,
        })
    }

    /// Equal pages, of the same numbers and the same mode.
    pub(crate) fn copy_all(&self) -> Result<PageSet, AllocError>
        ensures { IfOk result (λ s. s ≡ self.now) }
    {
        let bytes = self.bytes.clone()?;
        Ok(PageSet {
            bytes,
            size: self.size,
            count: self.count,
            ecu: self.ecu,
            xcp: self.xcp,
            freeze: self.freeze,
        })
    }

    /// Whether both have equal pages, the same numbers and the same mode.
    pub(crate) fn same(&self, other: &PageSet) -> bool
        ensures { MatchBool result (self.now ≡ other.now) (self.now ≢ other.now) }
    {
        self.ecu == other.ecu
            && self.xcp == other.xcp
            && self.freeze == other.freeze
            && self.same_pages(other)
    }

    /// Whether both have equal pages.
    fn same_pages(&self, other: &PageSet) -> bool
        ensures { MatchBool result (self.now.pages ≡ other.now.pages) (self.now.pages ≢ other.now.pages) }
    {
        if self.count != other.count {
            return false;
        }
        same_bytes(&self.bytes, &other.bytes)
    }

    /// How many pages there are.
    pub(crate) fn count(&self) -> u8
        ensures { result ≡ length self.now.pages }
    {
        self.count
    }

    /// The number of the page that a side has.
    pub(crate) fn number(&self, side: Side) -> u8
        ensures { result ≡ page_by_side side self.now }
    {
        match side {
            Side::Ecu => self.ecu,
            Side::Xcp => self.xcp,
        }
    }

    /// The bytes of the page that a side has.
    pub(crate) fn page(&self, side: Side) -> &[u8]
        requires { page_by_side side self.now < length self.now.pages }
        ensures { result.now ≡ page_by side self.now }
    {
        self.at(self.number(side) as usize)
    }

    /// The bytes of a page.
    pub(crate) fn at(&self, page: usize) -> &[u8]
        requires { page < length self.now.pages }
        ensures { result.now ≡ get_or self.now.pages page [] }
    {
        cut(&self.bytes, page * self.size, self.size)
    }

    /// Writes bytes over the tool's page, from a place on.
    pub(crate) fn write(&mut self, place: usize, bytes: &[u8])
        requires page { self.old.xcp < length self.old.pages }
        requires room { place + length bytes.now ≤ length (xcp_page self.old) }
        ensures { self.new ≡ segment_written self.old place bytes.now }
    {
        self.put(self.xcp as usize, place, bytes);
    }

    /// Replaces the whole content of a page.
    pub(crate) fn fill(&mut self, page: usize, bytes: &[u8])
        requires page { page < length self.old.pages }
        requires size { length bytes.now ≡ length (get_or self.old.pages page []) }
        ensures { self.new ≡ with_content self.old page bytes.now }
    {
        self.put(page, 0, bytes);
    }

    /// Writes bytes over those of a page, from a place on.
    fn put(&mut self, page: usize, place: usize, bytes: &[u8])
        requires page { page < length self.old.pages }
        requires room { place + length bytes.now ≤ length (get_or self.old.pages page []) }
        ensures { self.new ≡ with_content self.old page (overwritten (get_or self.old.pages page []) place bytes.now) }
    {
        overwrite(&mut self.bytes, page * self.size + place, bytes);
    }

    /// Replaces the whole content of a page by that of another.
    pub(crate) fn copy_page(&mut self, source: usize, target: usize)
        requires source { source < length self.old.pages }
        requires target { target < length self.old.pages }
        ensures { self.new ≡ with_content self.old target (get_or self.old.pages source []) }
    {
        let start = source * self.size;
        self.bytes
            .copy_within(start..start + self.size, target * self.size);
    }

    /// Whether the segment is in FREEZE mode.
    pub(crate) fn is_frozen(&self) -> bool
        ensures { result ≡ self.now.freeze }
    {
        self.freeze
    }

    /// Sets or clears FREEZE mode.
    pub(crate) fn set_freeze(&mut self, freeze: bool)
        ensures { self.new ≡ record self.old { freeze = freeze } }
    {
        self.freeze = freeze;
    }

    /// In FREEZE mode: page 0 gets the content of the page that the tool has.
    pub(crate) fn store(&mut self)
        requires page { self.old.xcp < length self.old.pages }
        ensures { self.new ≡ segment_frozen self.old }
    {
        if self.freeze {
            self.copy_page(self.xcp as usize, 0);
        }
    }

    /// Gives the sides that the mode of SET_CAL_PAGE names a page.
    pub(crate) fn give(&mut self, mode: u8, page: u8)
        ensures { self.new ≡ segment_switched mode page self.old }
    {
        let bits = SwitchMode::from_bits_retain(mode);
        if bits.contains(SwitchMode::ECU) {
            self.ecu = page;
        }
        if bits.contains(SwitchMode::XCP) {
            self.xcp = page;
        }
    }
}

/// Whether both have the same bytes.
fn same_bytes(ours: &[u8], others: &[u8]) -> bool
    ensures { MatchBool result (ours.now ≡ others.now) (ours.now ≢ others.now) }
{
    ours == others
}

/// The n bytes from a place on.
pub(crate) fn cut(bytes: &[u8], place: usize, n: usize) -> &[u8]
    requires { place + n ≤ length bytes.now }
    ensures value { result.now ≡ take n (drop place bytes.now) }
    ensures long { length result.now ≡ n }
{
    &bytes[place..place + n]
}

/// Writes bytes over those from a place on.
pub(crate) fn overwrite(xs: &mut [u8], place: usize, bytes: &[u8])
    requires { place + length bytes.now ≤ length xs.old }
    ensures { xs.new ≡ overwritten xs.old place bytes.now }
{
    xs[place..place + bytes.len()].copy_from_slice(bytes);
}
