//! Which stored pages are a layout's.
ghost use Rattle.std.specs.Prelude.{◌≡◌};
ghost use Rattle.sha2.specs.Sha256.{sha256};
ghost use Rattle.xcp_flash.specs.Decided.{pages_decided};

use sha2::{Digest, Sha256};
use xcp_memory::Layout;

/// The SHA-256 of what decides which stored pages are a layout's: the first address, the size and the reference bytes of each segment,
/// in order. It is the same for each layout file that describes these segments, whatever else stands in it.
#[tactic(auto, unfolding(crate::specs::Decided::segment_decided))]
pub fn pages_digest(layout: &Layout) -> [u8; 32]
    ensures { result ≡ sha256 (pages_decided layout.now) }
{
    let mut hasher = Sha256::new();
    for segment in 0..layout.segment_count() {
        hasher.update(&layout.segment_address(segment).to_le_bytes());
        hasher.update(&(layout.segment_size(segment) as u32).to_le_bytes());
        hasher.update(layout.segment_bytes(segment));
    }
    hasher.finalize()
}
