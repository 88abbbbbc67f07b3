//! A caller's receipts, on a tape.
ghost use Rattle.std.specs.Prelude.{◌≡◌, ◌≢◌, ◌≤◌, ◌<◌, ◌++◌, [], ◌∷◌, length, OnOk, OnErr, MatchBool, MatchOption, slice_get};
ghost use Rattle.xcp_slave.specs.AnswerInBytes.{answer_in};
ghost use Rattle.xcp_slave.specs.AskedRequest.{IsShort, request_asked};
ghost use Rattle.xcp_trace.specs.ExchangeSpelling.{room_for_any};
ghost use Rattle.xcp_locked.specs.Receipts.{receipt, receipt_of};

use crate::Receipt;
use std::alloc::{AllocError, Global};
use std::marker::Model;
use xcp_packet::Packet;
use xcp_slave::{Asked, Told};
use xcp_trace::{Exchanges, LentEntry, LentExchange, Trace};

/// Where a call stands: its chapter and its place there, both counted from 0.
#[derive(Clone, Copy)]
pub(crate) struct Place {
    pub(crate) chapter: u64,
    pub(crate) at: u64,
}

/// Receipts, in the order of the calls, as bytes: each takes 16 bytes and its exchange's string.
#[derive(Drop)]
pub struct Receipts {
    places: Vec<Place>,
    exchanges: Trace,
}

impl Model for Receipts {
    ghost use Rattle.std.specs.Prelude.{◌≡◌, ◌-◌, length, vec_len, vec_capacity};
    ghost use Rattle.xcp_locked.specs.Receipts.{ReceiptsValue};
    ghost use Rattle.xcp_locked.specs.private.PlacedExchanges.{receipts_at};

    ghost Value = { ReceiptsValue };

    ghost view = { λ r. record { list = receipts_at r.places.items r.exchanges.exchanges; places = vec_capacity r.places - vec_len r.places; bytes = r.exchanges.room } };

    ghost invariant = { λ r. length r.places.items ≡ length r.exchanges.exchanges };
}

impl Receipts {
    /// No receipt. It takes no memory yet.
    pub fn new(alloc: Global) -> Receipts
        ensures { result.list ≡ [] }
    {
        Receipts {
            places: Vec::new(alloc),
            exchanges: Trace::new(alloc),
        }
    }

    /// How many receipts there are.
    pub fn len(&self) -> usize
        ensures { result ≡ length self.now.list }
    {
        self.places.len()
    }

    /// Makes room for one more receipt, whichever it is.
    pub fn reserve(&mut self) -> Result<(), AllocError>
        ensures list { self.new.list ≡ self.old.list }
        ensures place { OnOk result (0 < self.new.places) }
        ensures bytes { OnOk result (room_for_any ≤ self.new.bytes) }
    {
        self.places.reserve(1)?;
        self.exchanges.reserve()
    }

    /// Puts a receipt behind the others.
    pub fn push(&mut self, receipt: &Receipt) -> Result<(), AllocError>
        ensures ok { OnOk result (self.new.list ≡ self.old.list ++ receipt.now ∷ []) }
        ensures err { OnErr result (self.new.list ≡ self.old.list) }
    {
        self.reserve()?;
        self.places.push_reserved(Place {
            chapter: receipt.chapter,
            at: receipt.at,
        });
        let mut packet = Packet::new();
        let told = receipt.answer.lay(&mut packet);
        self.exchanges.push(receipt.request.lent(), &told, &packet);
        Ok(())
    }

    /// Puts the receipt of a call behind the others, for which room was made. The request's bytes are lent,
    /// and the answer's packet, or the data bytes of its block, stand in the lent one. It takes no memory.
    pub(crate) fn push_told(&mut self, place: Place, asked: Asked<'_>, told: &Told, packet: &Packet)
        requires short { IsShort asked }
        requires place { 0 < self.old.places }
        requires bytes { room_for_any ≤ self.old.bytes }
        ensures { self.new.list ≡ self.old.list ++ receipt place.chapter place.at (request_asked asked.entry)
            (answer_in told.now packet.now) ∷ [] }
    {
        self.places.push_reserved(place);
        self.exchanges.push(asked, told, packet);
    }

    /// The receipt at an index from 0 on, if there is one. It passes over those before it.
    pub fn get(&self, index: usize) -> Option<Receipt>
        ensures { result ≡ slice_get self.now.list index }
    {
        let place = *self.places.get(index)?;
        let exchange = self.exchanges.get(index)?;
        Some(Receipt {
            chapter: place.chapter,
            at: place.at,
            request: exchange.request,
            answer: exchange.answer,
        })
    }

    /// The receipts, from the first one on.
    pub fn iter(&self) -> ReceiptsLeft<'_>
        ensures { result ≡ self.now.list }
    {
        ReceiptsLeft {
            places: &self.places,
            exchanges: self.exchanges.exchanges(),
        }
    }
}

/// The receipts of a caller that are still to be read.
#[derive(Drop)]
pub struct ReceiptsLeft<'a> {
    places: &'a [Place],
    exchanges: Exchanges<'a>,
}

impl<'a> Model for ReceiptsLeft<'a> {
    ghost use Rattle.std.specs.Prelude.{◌≡◌, List, length};
    ghost use Rattle.xcp_locked.specs.declared.receipt.Receipt.{Receipt};
    ghost use Rattle.xcp_locked.specs.private.PlacedExchanges.{receipts_at};

    ghost Value = { List Receipt };

    ghost view = { λ r. receipts_at r.places.now r.exchanges };

    ghost invariant = { λ r. length r.places.now ≡ length r.exchanges };
}

impl<'a> ReceiptsLeft<'a> {
    /// How many receipts are left.
    pub fn len(&self) -> usize
        ensures { result ≡ length self.now }
    {
        self.places.len()
    }

    /// The next receipt, if there is one.
    pub fn next(&mut self) -> Option<Receipt>
        ensures { MatchOption result ((self.old ≡ []) × (self.new ≡ []))
            (λ receipt. self.old ≡ receipt ∷ self.new) }
    {
        let lent = self.next_lent()?;
        Some(lent.read())
    }

    /// The next receipt, if there is one, where it stands.
    pub(crate) fn next_lent(&mut self) -> Option<LentReceipt<'a>>
        ensures { MatchOption result ((self.old ≡ []) × (self.new ≡ []))
            (λ receipt. self.old ≡ receipt ∷ self.new) }
    {
        let (place, behind) = self.places.split_first()?;
        let Some(exchange) = self.exchanges.next_lent() else {
            unreachable!()
        };
        self.places = behind;
        Some(LentReceipt {
            place: *place,
            exchange,
        })
    }
}

/// A receipt where it stands.
#[derive(Drop)]
pub(crate) struct LentReceipt<'a> {
    place: Place,
    exchange: LentExchange<'a>,
}

impl<'a> Model for LentReceipt<'a> {
    ghost use Rattle.xcp_locked.specs.declared.receipt.Receipt.{Receipt};
    ghost use Rattle.xcp_locked.specs.Receipts.{receipt};

    ghost Value = { Receipt };

    ghost view = { λ r. receipt r.place.chapter r.place.at r.exchange.request r.exchange.answer };
}

impl<'a> LentReceipt<'a> {
    /// The number of its chapter, from 0.
    pub(crate) fn chapter(&self) -> u64
        ensures { result ≡ self.now.chapter }
    {
        self.place.chapter
    }

    /// The receipt.
    pub(crate) fn read(&self) -> Receipt
        ensures { result ≡ self.now }
    {
        let exchange = self.exchange.read();
        Receipt {
            chapter: self.place.chapter,
            at: self.place.at,
            request: exchange.request,
            answer: exchange.answer,
        }
    }

    /// Whether it is the receipt of the entry at this place of a chapter.
    pub(crate) fn is_of(&self, chapter: u64, at: u64, entry: &LentEntry<'_>) -> bool
        ensures { MatchBool result (self.now ≡ receipt_of chapter at entry.now)
            (self.now ≢ receipt_of chapter at entry.now) }
    {
        self.place.chapter == chapter && self.place.at == at && self.exchange.is_of(entry)
    }
}
