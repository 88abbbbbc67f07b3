//! What takes requests one by one.
ghost use Rattle.std.specs.Prelude.{◌≡◌, ◌≤◌, ◌*◌, [], ◌∷◌, ◌++◌, List, IfOk, OnErr, IfErr};
ghost use Rattle.xcp_slave.specs.declared.Exchange.{Exchange};
ghost use Rattle.xcp_slave.specs.declared.Request.{Request};
ghost use Rattle.xcp_slave.specs.AnswerInBytes.{answer_in};
ghost use Rattle.xcp_slave.specs.AskedRequest.{IsShort, request_asked};
ghost use Rattle.xcp_framing.specs.declared.station.StationError.{StationError};
ghost use Rattle.xcp_framing.specs.Pump.{DrainAgain, DrainsInto};
ghost use Rattle.xcp_framing.specs.Serve.{most_train};
ghost use Rattle.xcp_framing.specs.ServeParts.{IsInterruption};
ghost use Rattle.xcp_framing.specs.ServeRefusal.{OnRefusal, StationRefused};

use crate::gathering::gather_told;
use crate::{Batch, ServeError};
use std::alloc::Global;
use std::sync::atomic::AtomicBool;
use thiserror::Error;
use xcp_packet::Packet;
use xcp_slave::{Answer, Asked, Request, Told};

/// Why a station did not take a request. Nothing was executed, and nothing changed.
#[derive(Clone, Copy, Debug, Error, PartialEq, Eq, Drop)]
pub enum StationError {
    /// There was no memory to store the exchange.
    #[error("no memory is left for an exchange")]
    Memory,
    /// The station's journal takes no more exchanges.
    #[error("the journal is full")]
    JournalFull,
}

impl StationError {
    ghost use Rattle.xcp_framing.specs.ServeRefusal.{refusal_number};

    /// The error's number: 1 Memory, 2 JournalFull.
    pub fn number(&self) -> u8
        ensures { result ≡ refusal_number self.now }
    {
        match self {
            StationError::Memory => 1,
            StationError::JournalFull => 2,
        }
    }
}

/// What takes requests one by one, as a slave that stores its exchanges does.
pub trait Station {
    /// The exchanges that it has had, in order.
    ghost exchanges: { Self → List Exchange };

    /// They are two states of one and the same station.
    ghost same: { Self → Self → Type 0 };

    /// What a refusal may mean: in this state it may refuse this request with this error.
    ghost refuses: { Self → Request → StationError → Type 0 };

    /// Answers a request whose bytes are lent, and has this exchange from then on. The answer's packet, or
    /// the data bytes of its block, stand in the lent packet, which has any bytes otherwise. After an
    /// `Err` the station is as it was.
    fn submit_into(&mut self, asked: Asked<'_>, packet: &mut Packet) -> Result<Told, StationError>
        requires { IsShort asked }
        ensures ok { IfOk result (λ told. exchanges self.new ≡ exchanges self.old
            ++ record { request = request_asked asked.entry; answer = answer_in told packet.new } ∷ []) }
        ensures err { OnErr result (self.new ≡ self.old) }
        ensures refused { IfErr result (λ e. refuses self.new (request_asked asked.entry) e) }
        ensures stays { same self.old self.new };

    /// How many packets wait for a `Drain`, where the station can tell. It is no exchange, and
    /// promises nothing of the next one.
    fn pending(&mut self) -> u16
        ensures same { exchanges self.new ≡ exchanges self.old }
        ensures stays { same self.old self.new };

    /// Waits until packets wait for a `Drain`, or `stop` is set, where others share the station. It is
    /// no exchange, and promises nothing of the next one; that it ends, no clause says. A station of
    /// one's own has nobody to wait for, and comes back at once.
    fn wait(&mut self, _stop: &AtomicBool)
        ensures same { exchanges self.new ≡ exchanges self.old }
        ensures stays { same self.old self.new }
    {}

    /// Submits a `Drain` for each packet that waits, at most `most` of them, until the batch has no room
    /// for the packets of one more, and gathers those of the answers there. Where others share the
    /// station it is one hold: they wait meanwhile. `Ok` is how many packets these were. Where there is no
    /// memory for one, which is `NoRoom`, all that the batch has is given up.
    fn drain_into(&mut self, batch: &mut Batch, alloc: Global, most: u8) -> Result<u64, ServeError>
        ensures drains { DrainsInto most result (exchanges self.old) (exchanges self.new) batch.old batch.new }
        ensures most { IfOk result (λ n. n ≤ most_train * most) }
        ensures stops { IfErr result IsInterruption }
        ensures refused { OnRefusal result (λ e. StationRefused exchanges refuses e DrainAgain (exchanges self.old) self.new) }
        ensures stays { same self.old self.new }
    {
        let mut count = 0;
        let mut packet = Packet::new();
        for _drain in 0..most {
            if self.pending() == 0 {
                break;
            }
            let told = self.submit_into(Asked::Drain, &mut packet)?;
            let gathered = gather_told(batch, alloc, told, &packet)?;
            count += gathered;
            if gathered == 0 || !batch.has_room() {
                break;
            }
        }
        Ok(count)
    }

    /// Answers a request, and has this exchange from then on. After an `Err` it is as it was.
    fn submit(&mut self, request: Request) -> Result<Answer, StationError>
        ensures ok { IfOk result (λ answer. exchanges self.new
            ≡ exchanges self.old ++ record { request = request; answer = answer } ∷ []) }
        ensures err { OnErr result (self.new ≡ self.old) }
        ensures refused { IfErr result (λ e. refuses self.new request e) }
        ensures stays { same self.old self.new }
    {
        let mut packet = Packet::new();
        let told = self.submit_into(request.lent(), &mut packet)?;
        Ok(told.with(packet))
    }

    ghost same_refl: { (x : Self) → same x x };

    ghost same_trans: { (x y z : Self) → same x y → same y z → same x z };
}
