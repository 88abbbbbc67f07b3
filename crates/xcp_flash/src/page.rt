//! One reference page.
ghost use Rattle.std.specs.Prelude.{◌≡◌, ◌≢◌, ◌≤◌, ◌<◌, ◌+◌, ◌++◌, MatchBool, IfOk, OnOk, OnErr, length, vec_capacity, vec_len};
ghost use Rattle.xcp_flash.specs.FlashFile.{page_in};

use crate::head::same;
use std::alloc::{AllocError, Global};
use std::marker::Model;

/// The bytes of a segment's reference page.
#[derive(Drop)]
pub(crate) struct Page {
    bytes: Vec<u8>,
}

impl Model for Page {
    ghost use Rattle.std.specs.Prelude.{◌≤◌, ℕ, List, length};

    ghost Value = { List ℕ };

    ghost view = { λ p. p.bytes.items };

    ghost invariant = { λ p. length p.bytes.items ≤ 1048576 };
}

impl Page {
    /// A page of these bytes.
    pub(crate) fn new(alloc: Global, bytes: &[u8]) -> Result<Page, AllocError>
        requires { length bytes.now ≤ 1048576 }
        ensures { IfOk result (λ p. p ≡ bytes.now) }
    {
        let bytes = bytes.to_vec(alloc)?;
        Ok(Page { bytes })
    }

    /// How many bytes it has.
    pub(crate) fn len(&self) -> usize
        ensures { result ≡ length self.now }
    {
        self.bytes.len()
    }

    /// Makes these the bytes of the page, and answers whether they are others than before.
    pub(crate) fn update(&mut self, bytes: &[u8]) -> bool
        requires { length bytes.now ≡ length self.old }
        ensures new { self.new ≡ bytes.now }
        ensures changed { MatchBool result (self.old ≢ bytes.now) (self.old ≡ bytes.now) }
    {
        if same(&self.bytes, bytes) {
            return false;
        }
        self.bytes.copy_from_slice(bytes);
        true
    }

    /// Puts the page behind the bytes, with its length before it.
    #[tactic(auto, unfolding(crate::specs::FlashFile::page_in))]
    pub(crate) fn append_to(&self, out: &mut Vec<u8>) -> Result<(), AllocError>
        ensures bytes { OnOk result (out.new.items ≡ out.old.items ++ page_in self.now) }
        ensures size { OnOk result (vec_len out.new ≡ vec_len out.old + (4 + length self.now)) }
        ensures full { OnErr result (vec_capacity out.old < vec_len out.old + (4 + length self.now)) }
        ensures capacity { vec_capacity out.old ≤ vec_capacity out.new }
    {
        let length = (self.bytes.len() as u32).to_le_bytes();
        out.extend_from_slice(&length)?;
        out.extend_from_slice(&self.bytes)?;
        Ok(())
    }
}
