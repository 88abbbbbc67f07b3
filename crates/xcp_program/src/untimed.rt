//! A server that tells no time.
ghost use Rattle.std.specs.Prelude.{◌≡◌, MatchResult, false, nat_lt, true};
ghost use Rattle.xcp_packet.specs.TimeStamps.{stamp_size};

use crate::fault::Fault;
use xcp_memory::Layout;

/// A server that tells its slave no time serves no layout with a clock: all time stamps would be 0.
pub fn refuse_clock(layout: &Layout) -> Result<(), Fault>
    ensures { MatchResult result (λ _. nat_lt 0 (stamp_size layout.now.clock.stamp) ≡ false)
        (λ e. (nat_lt 0 (stamp_size layout.now.clock.stamp) ≡ true) × (e ≡ Fault.Clock)) }
{
    if layout.clock().stamp.size() > 0 {
        return Err(Fault::Clock);
    }
    Ok(())
}
