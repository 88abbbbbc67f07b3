//! The pages of all segments.
ghost use Rattle.std.specs.Prelude.{◌≡◌, ◌≢◌, ◌+◌, ◌<◌, ◌≤◌, length, IfOk, MatchBool};
ghost use Rattle.xcp_memory.specs.ComputedAccess.{overwritten};
ghost use Rattle.xcp_memory.specs.Layout.{IsLayout};
ghost use Rattle.xcp_memory.specs.Pages.{opening_pages, IsPages};

mod access;
mod copying;
mod freezing;
mod imaging;
mod referring;
mod summing;
mod switching;

use crate::Layout;
use crate::page_set::{PageSet, overwrite};
use std::alloc::{AllocError, Global};
use std::marker::Model;

/// The pages of a slave's segments, and the bytes of its signals area.
#[derive(Drop)]
pub struct Pages {
    layout: Layout,
    segments: Vec<PageSet>,
    signals: Vec<u8>,
}

impl Model for Pages {
    ghost use Rattle.xcp_memory.specs.Pages.{PagesValue, IsPages};

    ghost Value = { PagesValue };

    ghost view = { λ p. record { layout = p.layout; segments = p.segments.items; signals = p.signals.items } };

    ghost invariant = { λ p. IsPages (record { layout = p.layout; segments = p.segments.items; signals = p.signals.items }) };
}

impl Pages {
    /// The pages of a new slave.
    pub fn new(alloc: Global, layout: Layout) -> Result<Pages, AllocError>
        ensures { IfOk result (λ p. p ≡ opening_pages layout) }
    {
        layout.known();
        let mut segments = Vec::with_capacity(alloc, layout.segment_count())?;
        for i in 0..layout.segment_count() {
            let pages = PageSet::new(alloc, layout.segment_bytes(i), layout.segment_pages(i))?;
            segments.push(pages)?;
        }
        let signals = vec![in alloc; 0; layout.signals_length()]?;
        Ok(Pages {
            layout,
            segments,
            signals,
        })
    }

    /// Equal pages, with the layout, the numbers, the modes and the signals.
    pub fn copy_all(&self, alloc: Global) -> Result<Pages, AllocError>
        ensures { IfOk result (λ p. p ≡ self.now) }
    {
        let layout = self.layout.copy(alloc)?;
        let segments = copy_sets(alloc, &self.segments)?;
        let signals = self.signals.clone()?;
        Ok(Pages {
            layout,
            segments,
            signals,
        })
    }

    /// Whether both are equal: layout, pages, numbers, modes and signals. It takes no memory.
    pub fn same(&self, other: &Pages) -> bool
        ensures { MatchBool result (self.now ≡ other.now) (self.now ≢ other.now) }
    {
        self.signals == other.signals
            && same_sets(&self.segments, &other.segments)
            && self.layout.same(&other.layout)
    }

    /// The layout.
    pub fn layout(&self) -> &Layout
        ensures { result.now ≡ self.now.layout }
    {
        &self.layout
    }

    /// Makes these bytes the content of the signals area from a place on.
    pub fn set_signals(&mut self, place: usize, bytes: &[u8])
        requires { place + length bytes.now ≤ self.old.layout.signals_length }
        ensures { self.new ≡ record self.old { signals = overwritten self.old.signals place bytes.now } }
    {
        overwrite(&mut self.signals, place, bytes);
    }

    /// Tells a caller's proof what is true of all pages.
    pub fn known(&self)
        ensures layout { IsLayout self.now.layout }
        ensures pages { IsPages self.now }
    {
        self.layout.known();
    }
}

/// Equal pages of each segment.
fn copy_sets(alloc: Global, sets: &[PageSet]) -> Result<Vec<PageSet>, AllocError>
    ensures { IfOk result (λ s. s.items ≡ sets.now) }
{
    let mut copies = Vec::with_capacity(alloc, sets.len())?;
    for set in sets {
        copies.push(set.copy_all()?)?;
    }
    Ok(copies)
}

/// Whether the pages of each segment are equal.
fn same_sets(ours: &[PageSet], others: &[PageSet]) -> bool
    ensures { MatchBool result (ours.now ≡ others.now) (ours.now ≢ others.now) }
{
    if ours.len() != others.len() {
        return false;
    }
    for i in 0..ours.len() {
        if !ours[i].same(&others[i]) {
            return false;
        }
    }
    true
}
