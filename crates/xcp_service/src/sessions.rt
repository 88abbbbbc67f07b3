//! Whose the session is.
ghost use Rattle.std.specs.Prelude.{◌≡◌, ℕ, List, [], ◌∷◌};
ghost use Rattle.xcp_slave.specs.AnswerInBytes.{answer_in};
ghost use Rattle.xcp_slave.specs.AskedRequest.{request_asked};
ghost use Rattle.xcp_service.specs.Happenings.{Happening, connected_last, is_seat, seats_after};
ghost use Rattle.xcp_service.specs.Sessions.{connects, ends, first_is, has_code, has_session, is_positive, noted, without};

use arrayvec::ArrayVec;
use std::marker::Model;
use xcp_packet::Packet;
use xcp_slave::{Asked, Cut, Outcome, Told};

/// The code of CONNECT.
const CONNECT: u8 = 0xFF;

/// The code of DISCONNECT.
const DISCONNECT: u8 = 0xFE;

/// What a positive response begins with.
const RES: u8 = 0xFF;

/// The seats that have connected and whose tools are still there, the one that connected last first: the session is its own. Seats
/// have 256 numbers at most, and none stands here twice.
#[derive(Drop)]
pub(crate) struct Sessions {
    seats: ArrayVec<u8, 256>,
}

impl Model for Sessions {
    ghost use Rattle.std.specs.Prelude.{ℕ, List};
    ghost use Rattle.xcp_service.specs.private.Seats.{AreSeats};

    ghost Value = { List ℕ };

    ghost view = { λ s. s.seats.items };

    ghost invariant = { λ s. AreSeats s.seats.items };
}

impl Sessions {
    /// Nobody has connected.
    pub(crate) fn new() -> Sessions
        ensures { result ≡ [] }
    {
        Sessions {
            seats: ArrayVec::new(),
        }
    }

    /// Whether the session is this seat's.
    pub(crate) fn has(&self, seat: u8) -> bool
        ensures { result ≡ has_session seat self.now }
    {
        first_is(seat, self.seats.as_slice())
    }

    /// Notes what came of a call of a seat, and tells whether the session may be another's then.
    pub(crate) fn note(&mut self, seat: u8, asked: Asked<'_>, told: &Told, packet: &Packet) -> bool
        ensures { self.new ≡ noted seat (request_asked asked.entry) (answer_in told.now packet.now) self.old }
    {
        if is_end(asked, told, packet) {
            self.seats.clear();
            return true;
        }
        if !is_connect(asked, told, packet) {
            return false;
        }
        self.connect(seat);
        true
    }

    /// This seat connects: it is the first one from now on.
    fn connect(&mut self, seat: u8)
        ensures { self.new ≡ seat ∷ without seat self.old }
    {
        self.depart(seat);
        self.seats.insert(0, seat);
    }

    /// This seat's tool has gone.
    pub(crate) fn depart(&mut self, seat: u8)
        ensures { self.new ≡ without seat self.old }
    {
        self.seats.retain(|other| *other != seat);
    }
}

/// Whether the session has ended, by this call.
fn is_end(asked: Asked<'_>, told: &Told, packet: &Packet) -> bool
    ensures { result ≡ ends (request_asked asked.entry) (answer_in told.now packet.now) }
{
    match asked {
        Asked::Hangup => true,
        _ => has_code(DISCONNECT, asked) && is_positive(told, packet),
    }
}

/// Whether a CONNECT was accepted, by this call.
fn is_connect(asked: Asked<'_>, told: &Told, packet: &Packet) -> bool
    ensures { result ≡ connects (request_asked asked.entry) (answer_in told.now packet.now) }
{
    has_code(CONNECT, asked) && is_positive(told, packet)
}

/// Whether a command packet with this code is asked.
pub(crate) fn has_code(code: u8, asked: Asked<'_>) -> bool
    ensures { result ≡ has_code code (request_asked asked.entry) }
{
    match asked {
        Asked::Command(bytes) => first_is(code, bytes),
        _ => false,
    }
}

/// Whether the answer is a positive response.
pub(crate) fn is_positive(told: &Told, packet: &Packet) -> bool
    ensures { result ≡ is_positive (answer_in told.now packet.now) }
{
    match told {
        Told::Packets(cut) => are_positive(*cut, packet),
        _ => false,
    }
}

/// Whether packets that are told so are positive responses. Those of a block are.
fn are_positive(cut: Cut, packet: &Packet) -> bool
    ensures { result ≡ is_positive (answer_in (Outcome.Packets cut) packet.now) }
{
    match cut {
        Cut::Whole => first_is(RES, packet.as_slice()),
        Cut::Block(_) => true,
    }
}

/// Whether the first of these is this one.
fn first_is(number: u8, list: &[u8]) -> bool
    ensures { result ≡ first_is number list.now }
{
    match list {
        [] => false,
        [first, ..] => *first == number,
    }
}

/// Whatever happened at the seats of a slave: the session is of the one that connected last, of those whose tools are still there; it is
/// nobody's where none of them has connected since the last session ended.
pub fn the_session_is_of_who_connected_last()
    ensures { (seat : ℕ) (happened : List Happening) →
        has_session seat (seats_after happened) ≡ is_seat seat (connected_last [] happened) }
{}
