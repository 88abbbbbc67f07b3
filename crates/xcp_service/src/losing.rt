//! Events that were lost.
ghost use Rattle.std.specs.Prelude.{◌≡◌, ◌-◌, ◌^◌, min};
ghost use Rattle.xcp_service.specs.Losing.{lost_among};

use xcp_locked::{Chapter, Name};

/// How many calls of a chapter were events that found no room for their packets, 2^64 - 1 at most.
pub(crate) fn count_lost<N: Name>(chapter: &Chapter<N>) -> u64
    ensures { result ≡ min (lost_among chapter.now.entries) (2 ^ 64 - 1) }
{
    let mut lost: u64 = 0;
    let mut entries = chapter.entries();
    while let Some(entry) = entries.next_lent() {
        if entry.is_overrun() {
            lost = lost.saturating_add(1);
        }
    }
    lost
}
