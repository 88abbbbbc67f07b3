//! Pages at the front of bytes.
ghost use Rattle.std.specs.Prelude.{◌≡◌, ◌<◌, ◌^◌, ℕ, List, IfNone, IfSome};
ghost use Rattle.xcp_memory.specs.ReferencePage.{with_reference};
ghost use Rattle.xcp_flash.specs.References.{with_references};
ghost use Rattle.xcp_flash.specs.private.Reading.{BeginsWithPage, BeginsWithPages};

use crate::head::same;
use xcp_memory::Layout;

/// The page of this size with which the bytes begin, and the bytes behind it.
#[tactic(auto, unfolding(crate::specs::FlashFile::page_in))]
pub(crate) fn first_page(bytes: &[u8], size: usize) -> Option<(&[u8], &[u8])>
    requires { size < 2 ^ 32 }
    ensures some { IfSome result (λ found. BeginsWithPage size bytes.now found.0.now found.1.now) }
    ensures none { IfNone result ((page more : List ℕ) → BeginsWithPage size bytes.now page more → ⊥) }
{
    if bytes.len() < size + 4 {
        return None;
    }
    let (told, rest) = bytes.split_at(4);
    if !same(told, &(size as u32).to_le_bytes()) {
        return None;
    }
    Some(rest.split_at(size))
}

/// The bytes behind the pages of a layout's segments, if the bytes begin with such pages.
pub(crate) fn behind_pages<'a>(layout: &Layout, bytes: &'a [u8]) -> Option<&'a [u8]>
    ensures some { IfSome result (λ more. (pages : List (List ℕ)) × BeginsWithPages layout.now bytes.now pages more.now) }
    ensures none { IfNone result ((pages : List (List ℕ)) (more : List ℕ) → BeginsWithPages layout.now bytes.now pages more → ⊥) }
{
    let mut rest = bytes;
    for segment in 0..layout.segment_count() {
        let Some((_, more)) = first_page(rest, layout.segment_size(segment)) else {
            return None;
        };
        rest = more;
    }
    Some(rest)
}

/// Makes the pages with which the bytes begin the reference pages of a layout.
pub(crate) fn set_pages(layout: &mut Layout, bytes: &[u8])
    requires { (pages : List (List ℕ)) × (more : List ℕ) × BeginsWithPages layout.old bytes.now pages more }
    ensures { (pages : List (List ℕ)) (more : List ℕ) → BeginsWithPages layout.old bytes.now pages more
        → layout.new ≡ with_references pages layout.old }
{
    let count = layout.segment_count();
    let mut rest = bytes;
    for segment in 0..count {
        let Some((page, more)) = first_page(rest, layout.segment_size(segment)) else {
            unreachable!()
        };
        layout.set_reference(segment, page);
        rest = more;
    }
}
