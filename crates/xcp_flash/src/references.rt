//! The reference pages of all segments.
ghost use Rattle.std.specs.Prelude.{◌≡◌, ◌≢◌, ◌≤◌, ◌<◌, ◌+◌, ◌++◌, MatchBool, IfOk, OnOk, OnErr, length, map, vec_capacity, vec_len};
ghost use Rattle.std.specs.List.{flat_map};
ghost use Rattle.xcp_memory.specs.Pages.{IsPages};
ghost use Rattle.xcp_slave.specs.SlaveValue.{layout_of};
ghost use Rattle.xcp_flash.specs.FlashFile.{file_of, file_size, page_in, pages_size};
ghost use Rattle.xcp_flash.specs.References.{AreReferences, kept_pages, laid_out};

use crate::fitting::fit_each;
use crate::head::{MAGIC, digest_of};
use crate::page::Page;
use std::alloc::{AllocError, Global};
use std::marker::Model;
use xcp_memory::Layout;
use xcp_slave::Slave;

/// The reference pages of a layout's segments, in order, apart from the slave that has them.
#[derive(Drop)]
pub struct References {
    pages: Vec<Page>,
}

impl Model for References {
    ghost use Rattle.std.specs.Prelude.{ℕ, List};

    ghost Value = { List (List ℕ) };

    ghost view = { λ r. r.pages.items };
}

impl References {
    /// The reference pages of a layout. All the memory that they ever take.
    pub fn of(alloc: Global, layout: &Layout) -> Result<References, AllocError>
        ensures value { IfOk result (λ r. r ≡ laid_out layout.now) }
        ensures sized { IfOk result (λ r. AreReferences r layout.now) }
    {
        let mut pages = Vec::new(alloc);
        for segment in 0..layout.segment_count() {
            pages.push(Page::new(alloc, layout.segment_bytes(segment))?)?;
        }
        Ok(References { pages })
    }

    /// Whether they are as many as a layout has segments, each of its segment's size.
    pub fn fit(&self, layout: &Layout) -> bool
        ensures { MatchBool result (AreReferences self.now layout.now) (¬ (AreReferences self.now layout.now)) }
    {
        fit_each(&self.pages, layout)
    }

    /// Takes the reference pages that a slave will have once what a tool asked for is stored, and answers whether they are others than
    /// before. It takes no memory.
    pub fn update(&mut self, slave: &Slave) -> bool
        requires { AreReferences self.old (layout_of slave.now) }
        ensures new { self.new ≡ kept_pages slave.now }
        ensures changed { MatchBool result (self.old ≢ kept_pages slave.now) (self.old ≡ kept_pages slave.now) }
        ensures kept { AreReferences self.new (layout_of slave.now) }
    {
        slave.known();
        update_each(&mut self.pages, slave)
    }

    /// The file of these pages, in place of the bytes, where the layout's file has this SHA-256. It takes memory only where these have
    /// less room than the file needs.
    pub fn file(&self, layout_digest: &[u8; 32], out: &mut Vec<u8>) -> Result<(), AllocError>
        ensures whole { OnOk result (out.new.items ≡ file_of layout_digest.now self.now) }
        ensures size { OnOk result (vec_len out.new ≡ file_size (map (λ page. length page) self.now)) }
        ensures full { OnErr result (vec_capacity out.old < file_size (map (λ page. length page) self.now)) }
        ensures capacity { vec_capacity out.old ≤ vec_capacity out.new }
    {
        out.clear();
        out.extend_from_slice(&MAGIC)?;
        out.extend_from_slice(layout_digest)?;
        append_each(&self.pages, out)?;
        let digest = digest_of(out);
        out.extend_from_slice(&digest)?;
        Ok(())
    }
}

/// Takes the page that is kept of each segment, and answers whether one is another than before.
fn update_each(pages: &mut [Page], slave: &Slave) -> bool
    requires sized { AreReferences pages.old (layout_of slave.now) }
    requires lawful { IsPages slave.now.transfer.pages }
    ensures new { pages.new ≡ kept_pages slave.now }
    ensures changed { MatchBool result (pages.old ≢ kept_pages slave.now) (pages.old ≡ kept_pages slave.now) }
{
    let mut changed = false;
    for segment in 0..pages.len() {
        if pages[segment].update(slave.kept(segment)) {
            changed = true;
        }
    }
    changed
}

/// Puts each page behind the bytes, with its length before it.
fn append_each(pages: &[Page], out: &mut Vec<u8>) -> Result<(), AllocError>
    ensures bytes { OnOk result (out.new.items ≡ out.old.items ++ flat_map page_in pages.now) }
    ensures size { OnOk result (vec_len out.new ≡ vec_len out.old + pages_size (map (λ page. length page) pages.now)) }
    ensures full { OnErr result (vec_capacity out.old < vec_len out.old + pages_size (map (λ page. length page) pages.now)) }
    ensures capacity { vec_capacity out.old ≤ vec_capacity out.new }
{
    for page in pages {
        page.append_to(out)?;
    }
    Ok(())
}
