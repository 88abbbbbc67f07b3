//! The exchanges that a slave has had.
ghost use Rattle.std.specs.Prelude.{◌≡◌, ◌≤◌, ◌++◌, ◌∷◌, [], length, OnOk, OnErr, MatchOption, slice_get};
ghost use Rattle.xcp_slave.specs.AnswerInBytes.{answer_in};
ghost use Rattle.xcp_slave.specs.AskedRequest.{IsShort, request_asked};
ghost use Rattle.xcp_trace.specs.ExchangeSpelling.{room_for_any};

use crate::spelling::{EXCHANGE_BYTES, TIME_BYTES, read_exchange, spell};
use crate::{LentExchange, Strings, Tape};
use std::alloc::{AllocError, Global};
use std::marker::Model;
use xcp_packet::Packet;
use xcp_slave::{Asked, Exchange, Told};

/// Exchanges, in the order in which they were had.
#[derive(Drop)]
pub struct Trace {
    tape: Tape,
}

impl Model for Trace {
    ghost use Rattle.std.specs.Prelude.{map};
    ghost use Rattle.std.specs.List.{AllByRecursion};
    ghost use Rattle.xcp_trace.specs.ExchangeSpelling.{IsExchangeString, TraceValue, exchange_in};

    ghost Value = { TraceValue };

    ghost view = { λ t. record { exchanges = map exchange_in t.tape.strings; room = t.tape.room } };

    ghost invariant = { λ t. AllByRecursion IsExchangeString t.tape.strings };
}

impl Trace {
    /// A trace with no exchange. It takes no memory yet.
    pub fn new(alloc: Global) -> Trace
        ensures { result.exchanges ≡ [] }
    {
        Trace {
            tape: Tape::new(alloc),
        }
    }

    /// How many exchanges there are.
    pub fn len(&self) -> usize
        ensures { result ≡ length self.now.exchanges }
    {
        self.tape.len()
    }

    /// Makes room for one more exchange, whichever it is.
    pub fn reserve(&mut self) -> Result<(), AllocError>
        ensures exchanges { self.new.exchanges ≡ self.old.exchanges }
        ensures ok { OnOk result (room_for_any ≤ self.new.room) }
        ensures err { OnErr result (self.new ≡ self.old) }
    {
        self.tape.reserve(EXCHANGE_BYTES)
    }

    /// Puts an exchange behind the others, for which room was made. It takes no memory. The request's bytes
    /// are lent, and the answer's packet, or the data bytes of its block, stand in the lent one.
    pub fn push(&mut self, asked: Asked<'_>, told: &Told, packet: &Packet)
        requires room { room_for_any ≤ self.old.room }
        requires short { IsShort asked }
        ensures { self.new.exchanges ≡ self.old.exchanges
            ++ record { request = request_asked asked.entry; answer = answer_in told.now packet.now } ∷ [] }
    {
        let mut clock = [0; TIME_BYTES];
        let spelled = spell(asked, told, packet, &mut clock);
        self.tape
            .push_headed(&spelled.head, spelled.asked, spelled.told);
    }

    /// The exchange at an index from 0 on, if there is one. It passes over those before it.
    pub fn get(&self, index: usize) -> Option<Exchange>
        ensures { result ≡ slice_get self.now.exchanges index }
    {
        let string = self.tape.get(index)?;
        Some(read_exchange(string))
    }

    /// The exchanges, from the first one on.
    pub fn exchanges(&self) -> Exchanges<'_>
        ensures { result ≡ self.now.exchanges }
    {
        Exchanges {
            strings: self.tape.strings(),
        }
    }
}

/// The exchanges of a trace that are still to be read.
#[derive(Drop)]
pub struct Exchanges<'a> {
    strings: Strings<'a>,
}

impl<'a> Model for Exchanges<'a> {
    ghost use Rattle.std.specs.Prelude.{List, map};
    ghost use Rattle.std.specs.List.{AllByRecursion};
    ghost use Rattle.xcp_slave.specs.declared.Exchange.{Exchange};
    ghost use Rattle.xcp_trace.specs.ExchangeSpelling.{IsExchangeString, exchange_in};

    ghost Value = { List Exchange };

    ghost view = { λ e. map exchange_in e.strings };

    ghost invariant = { λ e. AllByRecursion IsExchangeString e.strings };
}

impl<'a> Exchanges<'a> {
    /// The next exchange, if there is one.
    pub fn next(&mut self) -> Option<Exchange>
        ensures { MatchOption result ((self.old ≡ []) × (self.new ≡ []))
            (λ exchange. self.old ≡ exchange ∷ self.new) }
    {
        let string = self.strings.next()?;
        Some(read_exchange(string))
    }

    /// The next exchange, if there is one, where it stands.
    pub fn next_lent(&mut self) -> Option<LentExchange<'a>>
        ensures { MatchOption result ((self.old ≡ []) × (self.new ≡ []))
            (λ exchange. self.old ≡ exchange ∷ self.new) }
    {
        let string = self.strings.next()?;
        Some(LentExchange::new(string))
    }
}
