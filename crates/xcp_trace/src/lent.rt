//! Entries and exchanges where they stand, on their tape or in other bytes.
ghost use Rattle.std.specs.Prelude.{◌≡◌, ◌≢◌, ℕ, List, IfSome, IfNone, MatchBool, true};
ghost use Rattle.xcp_trace.specs.EntryBytes.{BeginWithEntry};
ghost use Rattle.xcp_trace.specs.EntrySpelling.{IsEntryString};
ghost use Rattle.xcp_trace.specs.ExchangeSpelling.{IsExchangeString, exchange_in};
ghost use Rattle.xcp_trace.specs.Lost.{is_overrun};

use crate::checking::first_string;
use crate::spelling::{OVERRUN, read_exchange};
use std::marker::Model;
use xcp_slave::{Exchange, Request};

/// An entry of a journal where it stands: it takes no memory, and what isn't asked for isn't read.
#[derive(Drop)]
pub struct LentEntry<'a> {
    string: &'a [u8],
}

impl<'a> Model for LentEntry<'a> {
    ghost use Rattle.xcp_trace.specs.declared.journal.Entry.{Entry};
    ghost use Rattle.xcp_trace.specs.EntrySpelling.{IsEntryString, entry_in};

    ghost Value = { Entry };

    ghost view = { λ e. entry_in e.string.now };

    ghost invariant = { λ e. IsEntryString e.string.now };
}

impl<'a> LentEntry<'a> {
    ghost use Rattle.xcp_trace.specs.declared.journal.Entry.{Entry};
    ghost use Rattle.xcp_trace.specs.EntrySpelling.{entry_in};

    /// The entry with which bytes begin, wherever they come from, and the bytes behind it; none where they
    /// don't begin with a string that spells one.
    pub fn first(bytes: &'a [u8]) -> Option<(LentEntry<'a>, &'a [u8])>
        ensures some { IfSome result (λ r. BeginWithEntry bytes.now r.0 r.1.now) }
        ensures none { IfNone result ((entry : Entry) (others : List ℕ)
            → BeginWithEntry bytes.now entry others → ⊥) }
    {
        let (string, others) = first_string(bytes)?;
        Some((LentEntry::new(string), others))
    }

    /// The entry that a string spells.
    pub(crate) fn new(string: &'a [u8]) -> LentEntry<'a>
        requires { IsEntryString string.now }
        ensures { result ≡ entry_in string.now }
    {
        LentEntry { string }
    }

    /// The number of the caller that asked.
    pub fn caller(&self) -> u8
        ensures { result ≡ self.now.caller }
    {
        self.string[0]
    }

    /// The exchange.
    pub fn exchange(&self) -> Exchange
        ensures { result ≡ self.now.exchange }
    {
        read_exchange(&self.string[1..])
    }

    /// Whether it is an event whose packets found no room. Nothing else of the entry is read.
    pub fn is_overrun(&self) -> bool
        ensures { result ≡ is_overrun self.now.exchange.answer }
    {
        self.string[4] == OVERRUN
    }
}

/// An exchange of a trace where it stands: it takes no memory, and what isn't asked for isn't read.
#[derive(Drop)]
pub struct LentExchange<'a> {
    string: &'a [u8],
}

impl<'a> Model for LentExchange<'a> {
    ghost use Rattle.xcp_slave.specs.declared.Exchange.{Exchange};
    ghost use Rattle.xcp_trace.specs.ExchangeSpelling.{IsExchangeString, exchange_in};

    ghost Value = { Exchange };

    ghost view = { λ e. exchange_in e.string.now };

    ghost invariant = { λ e. IsExchangeString e.string.now };
}

impl<'a> LentExchange<'a> {
    /// The exchange that a string spells.
    pub(crate) fn new(string: &'a [u8]) -> LentExchange<'a>
        requires { IsExchangeString string.now }
        ensures { result ≡ exchange_in string.now }
    {
        LentExchange { string }
    }

    /// The exchange.
    pub fn read(&self) -> Exchange
        ensures { result ≡ self.now }
    {
        read_exchange(self.string)
    }

    /// Whether it is the exchange of an entry.
    pub fn is_of(&self, entry: &LentEntry<'_>) -> bool
        ensures { MatchBool result (self.now ≡ entry.now.exchange) (self.now ≢ entry.now.exchange) }
    {
        // The same exchange is as a rule spelled alike: then no owned one is made of either string.
        if same_bytes(self.string, &entry.string[1..]) {
            return true;
        }
        same_exchange(&self.read(), &entry.exchange())
    }
}

fn same_bytes(ours: &[u8], theirs: &[u8]) -> bool
    ensures { result ≡ true → ours.now ≡ theirs.now }
{
    ours == theirs
}

fn same_exchange(ours: &Exchange, theirs: &Exchange) -> bool
    ensures { MatchBool result (ours.now ≡ theirs.now) (ours.now ≢ theirs.now) }
{
    same_request(&ours.request, &theirs.request) && ours.answer.same(&theirs.answer)
}

fn same_request(a: &Request, b: &Request) -> bool
    ensures { MatchBool result (a.now ≡ b.now) (a.now ≢ b.now) }
{
    a == b
}
