//! The session status byte.
ghost use Rattle.std.specs.Prelude.{⊤, ◌≡◌, ◌+◌, if◌then◌else◌, [], ◌∷◌, codes};

use bitflags::{Flag, Flags, bitflag_items};

/// The session status of GET_STATUS, a set of bits.
#[derive(Clone, Copy, Debug, PartialEq, Eq)]
pub struct SessionStatus(u8);

bitflag_items! {
    impl SessionStatus: u8 {
        /// A store of the working pages is requested.
        const STORE_CAL_REQUEST = 0x01;
        /// A DAQ list runs.
        const DAQ_RUNNING = 0x40;
    }
}

impl Flags for SessionStatus {
    type Bits = u8;

    ghost exact = { ⊤ };

    ghost table = { (codes "STORE_CAL_REQUEST", 0x01) ∷ (codes "DAQ_RUNNING", 0x40) ∷ [] };

    ghost set_of = { λ s. s.0 };

    fn flags<'a>() -> &'a [Flag<SessionStatus>] {
        SessionStatus::FLAGS
    }

    fn bits(&self) -> u8 {
        self.0
    }

    fn from_bits_retain(bits: u8) -> SessionStatus {
        SessionStatus(bits)
    }
}

impl SessionStatus {
    /// The status byte of a session.
    pub(crate) fn bits_of(store: bool, running: bool) -> u8
        ensures { result ≡ (if store then 0x01 else 0) + (if running then 0x40 else 0) }
    {
        let mut status = SessionStatus(0);
        if store {
            status.insert(SessionStatus::STORE_CAL_REQUEST);
        }
        if running {
            status.insert(SessionStatus::DAQ_RUNNING);
        }
        status.0
    }
}
