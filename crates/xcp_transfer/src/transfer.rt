//! The tool's transfers: its memory transfer address, and the block under way.
ghost use Rattle.std.specs.Prelude.{◌≡◌, ◌≢◌, ◌+◌, ◌≤◌, length, None, OnOk, IfErr, IfOk, MatchBool};
ghost use Rattle.xcp_memory.specs.ComputedAccess.{overwritten};
ghost use Rattle.xcp_memory.specs.PageCopy.{copy_refusal, pages_copied};
ghost use Rattle.xcp_memory.specs.Freeze.{set_freeze_refusal, pages_with_mode, pages_frozen, frozen_count};
ghost use Rattle.xcp_memory.specs.PageSwitch.{switch_refusal, pages_switched};
ghost use Rattle.xcp_transfer.specs.Laws.{IsLawful};
ghost use Rattle.xcp_transfer.specs.TransferValue.{opening_transfer, without_block, IsMta};

mod bits;
mod downloads;
mod uploads;

use crate::Mta;
use crate::block::Block;
use std::alloc::{AllocError, Global};
use std::marker::Model;
use xcp_memory::Pages;
use xcp_packet::{Code, Order};

/// The pages that a tool reads and writes, its memory transfer address (MTA), and the block that
/// a DOWNLOAD began.
///
/// A block under way lies in a range that may be written, so that its last packet is never refused
/// by error 23 or 24. No call here takes memory.
#[derive(Drop)]
pub struct Transfer {
    pages: Pages,
    mta: Mta,
    block: Option<Block>,
}

impl Model for Transfer {
    ghost use Rattle.xcp_transfer.specs.TransferValue.{TransferValue, IsTransfer};

    ghost Value = { TransferValue };

    ghost view = { λ t. record { pages = t.pages; mta = t.mta; block = t.block } };

    ghost invariant = { λ t. IsTransfer (record { pages = t.pages; mta = t.mta; block = t.block }) };
}

impl Transfer {
    /// Transfers over these pages: no address is set, no block is under way.
    pub fn new(pages: Pages) -> Transfer
        ensures { result ≡ opening_transfer pages }
    {
        Transfer {
            pages,
            mta: Mta::Nowhere,
            block: None,
        }
    }

    /// Equal transfers over equal pages.
    pub fn copy_all(&self, alloc: Global) -> Result<Transfer, AllocError>
        ensures { IfOk result (λ t. t ≡ self.now) }
    {
        let pages = self.pages.copy_all(alloc)?;
        let block = copy_block(&self.block);
        Ok(Transfer {
            pages,
            mta: self.mta,
            block,
        })
    }

    /// Whether both are equal: pages, address and block. It takes no memory.
    pub fn same(&self, other: &Transfer) -> bool
        ensures { MatchBool result (self.now ≡ other.now) (self.now ≢ other.now) }
    {
        self.mta == other.mta
            && same_block(&self.block, &other.block)
            && self.pages.same(&other.pages)
    }

    /// Tells a caller's proof what is true of all transfers. It does nothing.
    pub fn known(&self)
        ensures { IsLawful self.now }
    {
        self.pages.known();
    }

    /// The pages.
    pub fn pages(&self) -> &Pages
        ensures { result.now ≡ self.now.pages }
    {
        &self.pages
    }

    /// The memory transfer address.
    pub fn mta(&self) -> Mta
        ensures { result ≡ self.now.mta }
    {
        self.mta
    }

    fn order(&self) -> Order
        ensures { result ≡ self.now.pages.layout.order }
    {
        self.pages.layout().order()
    }

    /// Sets the memory transfer address: any address, or a text that there is, and a place in it.
    /// A block under way goes on.
    pub fn set_mta(&mut self, mta: Mta)
        requires { IsMta self.old.pages.layout mta }
        ensures { self.new ≡ record self.old { mta = mta } }
    {
        self.mta = mta;
    }

    /// Gives up the block under way, if there is one: nothing of it is written.
    pub fn give_up_block(&mut self)
        ensures { self.new ≡ without_block self.old }
    {
        // Most commands find no block under way, and writing None over None would clear its whole room.
        if self.block.is_some() {
            self.block = None;
        }
    }

    /// Switches pages, as `Pages::switch` says. No block may be under way, since it lies on the
    /// tool's pages.
    ///
    /// ASAM MCD-1 XCP, protocol layer, description of commands: SET_CAL_PAGE.
    pub fn switch(&mut self, mode: u8, segment: u8, page: u8) -> Result<(), Code>
        requires { self.old.block ≡ None }
        ensures ok { OnOk result ((switch_refusal mode segment page self.old.pages ≡ None) × (self.new ≡ record self.old { pages = pages_switched mode segment page self.old.pages })) }
        ensures refused { IfErr result (λ code. (switch_refusal mode segment page self.old.pages ≡ Some code) × (self.new ≡ self.old)) }
    {
        self.pages.switch(mode, segment, page)
    }

    /// Copies a page over another, as `Pages::copy_page` says. No block may be under way.
    ///
    /// ASAM MCD-1 XCP, protocol layer, description of commands: COPY_CAL_PAGE.
    pub fn copy_page(
        &mut self,
        source: u8,
        source_page: u8,
        target: u8,
        target_page: u8,
    ) -> Result<(), Code>
        requires { self.old.block ≡ None }
        ensures ok { OnOk result ((copy_refusal source source_page target target_page self.old.pages ≡ None) × (self.new ≡ record self.old { pages = pages_copied source source_page target target_page self.old.pages })) }
        ensures refused { IfErr result (λ code. (copy_refusal source source_page target target_page self.old.pages ≡ Some code) × (self.new ≡ self.old)) }
    {
        self.pages
            .copy_page(source, source_page, target, target_page)
    }

    /// Sets or clears FREEZE mode of a segment, as `Pages::set_freeze` says. No block may be under
    /// way.
    ///
    /// ASAM MCD-1 XCP, protocol layer, description of commands: SET_SEGMENT_MODE.
    pub fn set_freeze(&mut self, mode: u8, segment: u8) -> Result<(), Code>
        requires { self.old.block ≡ None }
        ensures ok { OnOk result ((set_freeze_refusal mode segment self.old.pages ≡ None) × (self.new ≡ record self.old { pages = pages_with_mode mode segment self.old.pages })) }
        ensures refused { IfErr result (λ code. (set_freeze_refusal mode segment self.old.pages ≡ Some code) × (self.new ≡ self.old)) }
    {
        self.pages.set_freeze(mode, segment)
    }

    /// Stores the segments that are in FREEZE mode, as `Pages::freeze` says, and answers how many
    /// there are. A block under way goes on.
    pub fn freeze(&mut self) -> u8
        ensures count { result ≡ frozen_count self.old.pages }
        ensures stored { self.new ≡ record self.old { pages = pages_frozen self.old.pages } }
    {
        self.pages.freeze()
    }

    /// Makes these bytes the content of the signals area from a place on. A block under way goes on.
    pub fn set_signals(&mut self, place: usize, bytes: &[u8])
        requires { place + length bytes.now ≤ self.old.pages.layout.signals_length }
        ensures { self.new ≡ record self.old { pages = record self.old.pages { signals = overwritten self.old.pages.signals place bytes.now } } }
    {
        self.pages.set_signals(place, bytes);
    }
}

/// An equal block, if there is one.
fn copy_block(block: &Option<Block>) -> Option<Block>
    ensures { result ≡ block.now }
{
    match block {
        Some(block) => Some(block.copy()),
        None => None,
    }
}

/// Whether both are equal blocks, or neither is there.
fn same_block(ours: &Option<Block>, theirs: &Option<Block>) -> bool
    ensures { MatchBool result (ours.now ≡ theirs.now) (ours.now ≢ theirs.now) }
{
    match (ours, theirs) {
        (Some(a), Some(b)) => a.same(b),
        (None, None) => true,
        _ => false,
    }
}
