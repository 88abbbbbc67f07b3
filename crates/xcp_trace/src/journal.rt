//! Exchanges with the callers that asked.
ghost use Rattle.std.specs.Prelude.{◌≡◌, ◌≤◌, ◌++◌, ◌∷◌, [], length, IfOk, OnOk, OnErr, MatchOption, slice_get};
ghost use Rattle.xcp_slave.specs.AnswerInBytes.{answer_in};
ghost use Rattle.xcp_slave.specs.AskedRequest.{IsShort, request_asked};
ghost use Rattle.xcp_trace.specs.EntryBytes.{SpellEntries};
ghost use Rattle.xcp_trace.specs.EntrySpelling.{IsEntryString, entry_in, room_for_any_entry};

use crate::spelling::{EXCHANGE_BYTES, TIME_BYTES, read_exchange, spell};
use crate::{LentEntry, Strings, Tape};
use std::alloc::{AllocError, Global};
use std::marker::Model;
use xcp_packet::Packet;
use xcp_slave::{Asked, Exchange, Told};

/// The bytes before an exchange's string: the caller's number.
pub(crate) const CALLER_BYTES: usize = 1;

/// An exchange, and the number of the caller that asked.
#[derive(Debug, PartialEq, Eq, Drop)]
pub struct Entry {
    pub caller: u8,
    pub exchange: Exchange,
}

/// Entries, in the order in which the exchanges were had.
#[derive(Drop)]
pub struct Journal {
    tape: Tape,
}

impl Model for Journal {
    ghost use Rattle.std.specs.Prelude.{map};
    ghost use Rattle.std.specs.List.{AllByRecursion};
    ghost use Rattle.xcp_trace.specs.EntrySpelling.{IsEntryString, JournalValue, entry_in};

    ghost Value = { JournalValue };

    ghost view = { λ j. record { entries = map entry_in j.tape.strings; room = j.tape.room } };

    ghost invariant = { λ j. AllByRecursion IsEntryString j.tape.strings };
}

impl Journal {
    /// A journal with no entry. It takes no memory yet.
    pub fn new(alloc: Global) -> Journal
        ensures { result.entries ≡ [] }
    {
        Journal {
            tape: Tape::new(alloc),
        }
    }

    /// A journal with no entry, and with as much room as the other one has in all.
    pub fn with_room_of(alloc: Global, other: &Journal) -> Result<Journal, AllocError>
        ensures { IfOk result (λ j. (j.entries ≡ []) × (other.now.room ≤ j.room)) }
    {
        let tape = Tape::with_room_of(alloc, &other.tape)?;
        Ok(Journal { tape })
    }

    /// How many entries there are.
    pub fn len(&self) -> usize
        ensures { result ≡ length self.now.entries }
    {
        self.tape.len()
    }

    /// Makes room for one more entry, whichever it is.
    pub fn reserve(&mut self) -> Result<(), AllocError>
        ensures entries { self.new.entries ≡ self.old.entries }
        ensures ok { OnOk result (room_for_any_entry ≤ self.new.room) }
        ensures err { OnErr result (self.new ≡ self.old) }
    {
        self.tape.reserve(CALLER_BYTES + EXCHANGE_BYTES)
    }

    /// Puts an entry behind the others, for which room was made. It takes no memory. The request's bytes
    /// are lent, and the answer's packet, or the data bytes of its block, stand in the lent one.
    pub fn push(&mut self, caller: u8, asked: Asked<'_>, told: &Told, packet: &Packet)
        requires room { room_for_any_entry ≤ self.old.room }
        requires short { IsShort asked }
        ensures { self.new.entries ≡ self.old.entries ++ record {
          caller = caller;
          exchange = record { request = request_asked asked.entry; answer = answer_in told.now packet.now };
        } ∷ [] }
    {
        let mut clock = [0; TIME_BYTES];
        let parts = spell(asked, told, packet, &mut clock);
        self.tape
            .push_called(caller, &parts.head, parts.asked, parts.told);
    }

    /// The entry at an index from 0 on, if there is one. It passes over those before it.
    pub fn get(&self, index: usize) -> Option<Entry>
        ensures { result ≡ slice_get self.now.entries index }
    {
        let string = self.tape.get(index)?;
        Some(read_entry(string))
    }

    /// The entries, from the first one on.
    pub fn entries(&self) -> Entries<'_>
        ensures { result ≡ self.now.entries }
    {
        Entries {
            strings: self.tape.strings(),
        }
    }
}

/// The entries of a journal that are still to be read.
#[derive(Drop)]
pub struct Entries<'a> {
    strings: Strings<'a>,
}

impl<'a> Model for Entries<'a> {
    ghost use Rattle.std.specs.Prelude.{List, map};
    ghost use Rattle.std.specs.List.{AllByRecursion};
    ghost use Rattle.xcp_trace.specs.declared.journal.Entry.{Entry};
    ghost use Rattle.xcp_trace.specs.EntrySpelling.{IsEntryString, entry_in};

    ghost Value = { List Entry };

    ghost view = { λ e. map entry_in e.strings };

    ghost invariant = { λ e. AllByRecursion IsEntryString e.strings };
}

impl<'a> Entries<'a> {
    /// How many entries there are.
    pub fn len(&self) -> usize
        ensures { result ≡ length self.now }
    {
        self.strings.len()
    }

    /// The bytes that spell the entries, as they stand on the tape.
    pub fn bytes(&self) -> &'a [u8]
        ensures { SpellEntries result.now self.now }
    {
        self.strings.bytes()
    }

    /// The next entry, if there is one.
    pub fn next(&mut self) -> Option<Entry>
        ensures { MatchOption result ((self.old ≡ []) × (self.new ≡ []))
            (λ entry. self.old ≡ entry ∷ self.new) }
    {
        let string = self.strings.next()?;
        Some(read_entry(string))
    }

    /// The same entries, to be read once more.
    pub fn again(&self) -> Entries<'a>
        ensures { result ≡ self.now }
    {
        Entries {
            strings: self.strings.again(),
        }
    }

    /// The next entry, if there is one, where it stands.
    pub fn next_lent(&mut self) -> Option<LentEntry<'a>>
        ensures { MatchOption result ((self.old ≡ []) × (self.new ≡ []))
            (λ entry. self.old ≡ entry ∷ self.new) }
    {
        let string = self.strings.next()?;
        Some(LentEntry::new(string))
    }
}

/// The entry that a string spells.
fn read_entry(string: &[u8]) -> Entry
    requires { IsEntryString string.now }
    ensures { result ≡ entry_in string.now }
{
    let (caller, exchange) = string.split_at(CALLER_BYTES);
    Entry {
        caller: caller[0],
        exchange: read_exchange(exchange),
    }
}
