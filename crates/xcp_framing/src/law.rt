//! Laws of the definitions.
ghost use Rattle.std.specs.Prelude.{ℕ, List};
ghost use Rattle.xcp_slave.specs.declared.Exchange.{Exchange};
ghost use Rattle.xcp_slave.specs.declared.Request.{Request};
ghost use Rattle.xcp_framing.specs.CountedCalls.{StreamPlace};
ghost use Rattle.xcp_framing.specs.Desk.{DeskValue};
ghost use Rattle.xcp_framing.specs.ServeRefusal.{ReadsNext, StationRefused};

use crate::{Desk, Station, StationError};

/// Does nothing: its contract says that a desk refuses nothing with `JournalFull`, and so that no
/// call of `serve` over a desk ends with it.
pub fn a_desk_is_never_full()
    ensures refuses { (desk : DeskValue) (request : Request)
        → ¬ (⟦<Desk as Station>⟧.refuses desk request StationError.JournalFull) }
    ensures serve { (max_cto : ℕ) (from to : StreamPlace) (old : List Exchange) (now : DeskValue)
        → ¬ (StationRefused ⟦<Desk as Station>⟧.exchanges ⟦<Desk as Station>⟧.refuses
        StationError.JournalFull (ReadsNext max_cto from to) old now) }
{}
