//! A caller of a slave whose lock is held, as a station.
ghost use Rattle.std.specs.Prelude.{◌≡◌};

use crate::{Caller, Locked, LockedError, Name};
use xcp_framing::{Station, StationError};
use xcp_packet::Packet;
use xcp_slave::{Asked, Told};

/// A slave, lent from under its lock, and one of its callers. Nobody else calls the slave meanwhile.
#[derive(Drop)]
pub(crate) struct UnderLock<'a, N: Name> {
    pub(crate) locked: &'a mut Locked<N>,
    pub(crate) caller: &'a mut Caller<N>,
}

impl<'a, N: Name> Station for UnderLock<'a, N> {
    ghost use Rattle.xcp_locked.specs.Receipts.{exchanges_of};
    ghost use Rattle.std.proofs.Common.{refl, ◌∙◌};
    ghost use Rattle.xcp_locked.specs.CallRefusal.{MayRefuse};
    ghost use Rattle.xcp_locked.specs.Tasks.{Same};

    ghost exchanges = { λ h. exchanges_of h.caller.now.receipts };

    ghost same = { λ old new. Same old.caller.now new.caller.now × (new.caller.ghost_name ≡ old.caller.ghost_name) };

    ghost same_refl = { λ h. (record { number = refl; events = refl; signals = refl }, refl) };

    ghost same_trans = { λ x y z p q. (record { number = q.0.number ∙ p.0.number; events = q.0.events ∙ p.0.events; signals = q.0.signals ∙ p.0.signals }, q.1 ∙ p.1) };

    ghost refuses = { λ h request e. MayRefuse e };

    fn submit_into(&mut self, asked: Asked<'_>, packet: &mut Packet) -> Result<Told, StationError> {
        match self.locked.submit_into(self.caller, asked, packet) {
            Ok(told) => Ok(told),
            Err(LockedError::Memory) => Err(StationError::Memory),
            Err(_) => Err(StationError::JournalFull),
        }
    }

    /// How many packets wait in the slave's outbox.
    fn pending(&mut self) -> u16 {
        self.locked.pending()
    }
}
