//! Which chapter has to lie on the shelf before a store is finished.
ghost use Rattle.std.specs.Prelude.{◌≡◌, MatchBool};
ghost use Rattle.xcp_slave.specs.AnswerInBytes.{answer_in};
ghost use Rattle.xcp_slave.specs.AskedRequest.{request_asked};
ghost use Rattle.xcp_service.specs.Storing.{MayFinish, asked_in, asks_for_store, has_stored, unasked, wants_end};

use crate::sessions::{has_code, is_positive};
use std::marker::Model;
use xcp_packet::Packet;
use xcp_slave::{Asked, Told};

/// The code of SET_REQUEST.
const SET_REQUEST: u8 = 0xF9;

/// Whether stored pages are kept on a shelf, and in which chapter a store was asked for, or pages were stored, last.
#[derive(Drop)]
pub(crate) struct Stores {
    kept: bool,
    asked: Option<u64>,
}

impl Model for Stores {
    ghost use Rattle.xcp_service.specs.Storing.{StoresValue};

    ghost Value = { StoresValue };

    ghost view = { λ s. record { kept = s.kept; asked = s.asked } };
}

impl Stores {
    /// Nobody has asked for a store yet.
    pub(crate) fn new(kept: bool) -> Stores
        ensures { result ≡ unasked kept }
    {
        Stores { kept, asked: None }
    }

    /// Notes what came of a call in the chapter of this number.
    pub(crate) fn note(&mut self, chapter: u64, asked: Asked<'_>, told: &Told, packet: &Packet)
        ensures { self.new ≡ asked_in chapter (request_asked asked.entry) (answer_in told.now packet.now) self.old }
    {
        if asks_for_store(asked, told, packet) || has_stored(told, packet) {
            self.asked = Some(chapter);
        }
    }

    /// Whether the open chapter, which has this number, has to end, so that the shelf gets its pages.
    pub(crate) fn wants_end(&self, chapter: u64) -> bool
        ensures { result ≡ wants_end chapter self.now }
    {
        match self.asked {
            Some(number) => self.kept && number == chapter,
            None => false,
        }
    }

    /// Whether a store may be finished, where the first so many chapters lie on the shelf.
    pub(crate) fn may_finish(&self, shelved: u64) -> bool
        ensures { MatchBool result (MayFinish shelved self.now) (¬ (MayFinish shelved self.now)) }
    {
        match self.asked {
            Some(number) => !self.kept || number < shelved,
            None => true,
        }
    }
}

/// Whether a SET_REQUEST was accepted, by this call.
fn asks_for_store(asked: Asked<'_>, told: &Told, packet: &Packet) -> bool
    ensures { result ≡ asks_for_store (request_asked asked.entry) (answer_in told.now packet.now) }
{
    has_code(SET_REQUEST, asked) && is_positive(told, packet)
}

/// Whether pages of a segment were stored.
fn has_stored(told: &Told, packet: &Packet) -> bool
    ensures { result ≡ has_stored (answer_in told.now packet.now) }
{
    let _ = packet;
    match told {
        Told::Stored(segments) => *segments > 0,
        _ => false,
    }
}
