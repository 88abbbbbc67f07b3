//! A scribe that keeps the file of stored pages.
ghost use Rattle.std.specs.Prelude.{◌≡◌, ◌≢◌, ◌⊎◌, ◌≤◌, ◌++◌, [], ◌∷◌, List, ℕ, IfOk, MatchBool, true, false, length, map, vec_capacity, nat_lt};
ghost use Rattle.xcp_flash.specs.FlashFile.{file_of, file_size};
ghost use Rattle.xcp_flash.specs.References.{laid_out};
ghost use Rattle.xcp_scribe.specs.Flashing.{HasKept};
ghost use Rattle.xcp_scribe.specs.ShelfCalls.{Asked, failures};

use crate::scribe::Scribe;
use crate::shelf::Shelf;
use crate::standing::{Flashing, Standing};
use crate::watched_shelf::WatchedShelf;
use std::alloc::{AllocError, Global};
use std::snapshot::Snapshot;
use xcp_flash::References;
use xcp_memory::Layout;
use xcp_slave::Slave;
use xcp_trace::Entries;

impl<F: Shelf> Flashing<F> {
    /// Keeps the file of a slave of this layout at its opening, where the layout's file has this SHA-256. Nothing is written yet.
    pub fn new(
        alloc: Global,
        shelf: F,
        layout: &Layout,
        digest: [u8; 32],
    ) -> Result<Flashing<F>, AllocError>
        ensures kept { IfOk result (λ f. HasKept F.holds f []) }
        ensures layout { IfOk result (λ f. f.layout ≡ digest) }
        ensures start { IfOk result (λ f. f.start.value ≡ laid_out layout.now) }
        ensures shelf { IfOk result (λ f. f.shelf ≡ record { inner = shelf; asked = [] }) }
    {
        let pages = References::of(alloc, layout)?;
        let start = Snapshot::of(&pages);
        let mut file = Vec::new(alloc);
        pages.file(&digest, &mut file)?;
        Ok(Flashing {
            shelf: WatchedShelf::new(shelf),
            layout: digest,
            pages,
            start,
            file,
            standing: Standing::Untouched,
            failed: false,
        })
    }

    /// Whether a write failed, at any time. Where that was the last one, the file lacks what was stored last.
    pub fn has_failed(&self) -> bool
        ensures kept { result ≡ self.now.failed }
        ensures told { result ≡ nat_lt 0 (failures self.now.shelf.asked) }
    {
        self.failed
    }

    /// What keeps the file.
    pub fn into_shelf(self) -> F
        ensures { result ≡ self.shelf.inner }
    {
        self.shelf.into_inner()
    }
}

/// Whether the file has to be replaced at the end of a chapter: its pages have changed, or the last write failed.
fn is_due(changed: bool, standing: Standing) -> bool
    ensures { MatchBool result ((changed ≡ true) ⊎ (standing ≡ Standing.Behind)) ((changed ≡ false) × (standing ≢ Standing.Behind)) }
{
    changed || standing == Standing::Behind
}

/// Replaces the file by that of these pages, for which the bytes have room, and answers whether it could.
fn put<F: Shelf>(
    shelf: &mut WatchedShelf<F>,
    pages: &References,
    layout: &[u8; 32],
    file: &mut Vec<u8>,
) -> bool
    requires { file_size (map (λ page. length page) pages.now) ≤ vec_capacity file.old }
    ensures put { result ≡ true → F.holds shelf.new.inner (file_of layout.now pages.now) }
    ensures kept { result ≡ false → (bytes : List ℕ) → F.holds shelf.old.inner bytes → F.holds shelf.new.inner bytes }
    ensures asked { shelf.new.asked ≡ shelf.old.asked ++ record { file = file_of layout.now pages.now; put = result } ∷ [] }
    ensures room { vec_capacity file.old ≤ vec_capacity file.new }
{
    let Ok(()) = pages.file(layout, file) else {
        unreachable!()
    };
    shelf.replace(file)
}

impl<F: Shelf> Scribe for Flashing<F> {
    ghost use Rattle.xcp_scribe.specs.Flashing.{HasKept, IsShelved};

    ghost wrote = { HasKept F.holds };

    ghost shelved = { IsShelved F.holds };

    fn write(&mut self, _calls: Entries<'_>, last: &Slave) {
        if !self.pages.fit(last.layout()) {
            return;
        }
        let changed = self.pages.update(last);
        if !is_due(changed, self.standing) {
            return;
        }
        if put(&mut self.shelf, &self.pages, &self.layout, &mut self.file) {
            self.standing = Standing::Current;
        } else {
            self.standing = Standing::Behind;
            self.failed = true;
        }
    }

    /// Whether the last write was none that failed.
    fn is_shelved(&self) -> bool {
        match self.standing {
            Standing::Untouched | Standing::Current => true,
            Standing::Behind => false,
        }
    }
}
