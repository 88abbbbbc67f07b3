//! What the controller and the transport ask: events, packets that wait, and stores.
ghost use Rattle.std.specs.Prelude.{◌≡◌, ◌≤◌, ℕ, MatchBool, [], ◌∷◌, length};
ghost use Rattle.arrayvec.specs.ArrayVec.{ArrayVec};
ghost use Rattle.xcp_slave.specs.Step.{Drains, Fires, Hands, Samples, Stores, overload_event, store_event};
ghost use Rattle.xcp_slave.specs.AnswerInBytes.{answer_in};
ghost use Rattle.xcp_daq.specs.Sample.{sampled};

use super::Slave;
use crate::{Cut, Outcome, Told};
use xcp_packet::Packet;

/// The first byte of an event packet, and the event's code.
const EVENT: u8 = 0xFD;

const EV_STORE_CAL: u8 = 0x03;

const EV_DAQ_OVERLOAD: u8 = 0x06;

impl Slave {
    /// An event channel fires: its signals are taken over, and the lists that are due are sampled.
    pub(super) fn fire(&mut self, channel: u16, signals: &[u8]) -> Told
        ensures { (packet : ArrayVec ℕ) → Fires channel signals.now self.old (answer_in result packet) self.new }
    {
        let layout = self.transfer.pages().layout();
        if channel as usize >= layout.event_count() {
            return Told::NoChannel;
        }
        if !layout.takes_signals(signals.len()) {
            return Told::BadSignals;
        }
        self.transfer.set_signals(0, signals);
        self.sample(channel)
    }

    /// Signals are handed over by themselves.
    pub(super) fn hand_over(&mut self, place: u16, bytes: &[u8]) -> Told
        requires { length bytes.now ≤ 255 }
        ensures { (packet : ArrayVec ℕ) → Hands place bytes.now self.old (answer_in result packet) self.new }
    {
        let place = usize::from(place);
        if place + bytes.len() > self.transfer.pages().layout().signals_length() {
            return Told::BadSignals;
        }
        self.transfer.set_signals(place, bytes);
        Told::Silent
    }

    /// All packets of a sample wait, or none: without room for them the event is counted alone, and nothing is sampled. Before
    /// them the tool is told of a sample that was lost, if they leave room for that at all.
    fn sample(&mut self, channel: u16) -> Told
        ensures { (packet : ArrayVec ℕ) → Samples channel (sampled channel self.old.time self.old.transfer.pages self.old.daq) self.old (answer_in result packet) self.new }
    {
        let pages = self.transfer.pages();
        let own = self.daq.sample_len(channel, pages);
        let capacity = pages.layout().class().limits().packets;
        let tells = self.overloaded && own > 0 && own < capacity;
        let count = own + usize::from(tells);
        if count > self.outbox.room() {
            self.daq.count_event(channel);
            self.overloaded = pages.layout().extras().tells_overload();
            return Told::Overrun;
        }
        if tells {
            self.outbox.push(overload_packet());
            self.overloaded = false;
        }
        self.outbox.sample(&mut self.daq, channel, self.time, pages);
        Told::Sampled(count as u8)
    }

    /// The first packet that waits.
    pub(super) fn drain(&mut self, packet: &mut Packet) -> Told
        ensures { Drains self.old.outbox self.old (answer_in result packet.new) self.new }
    {
        if self.outbox.take_first(packet) {
            Told::Packets(Cut::Whole)
        } else {
            Told::Nothing
        }
    }

    /// Stores the segments that are in FREEZE mode, where it was asked for.
    pub(super) fn finish_store(&mut self) -> Told
        ensures { (packet : ArrayVec ℕ) → MatchBool self.old.store (Stores self.old (answer_in result packet) self.new) ((answer_in result packet ≡ Outcome.NoStore) × (self.new ≡ self.old)) }
    {
        if !self.store {
            return Told::NoStore;
        }
        if self.connected && self.outbox.room() == 0 {
            return Told::Later;
        }
        let count = self.transfer.freeze();
        self.store = false;
        if self.connected {
            self.outbox.push(stored_packet());
        }
        Told::Stored(count)
    }
}

/// The event packet that tells of a store.
fn stored_packet() -> Packet
    ensures { result ≡ store_event }
{
    event_packet(EV_STORE_CAL)
}

/// The event packet that tells of a lost sample.
fn overload_packet() -> Packet
    ensures { result ≡ overload_event }
{
    event_packet(EV_DAQ_OVERLOAD)
}

/// The event packet of this code, with nothing more.
fn event_packet(code: u8) -> Packet
    ensures { result ≡ record { items = 0xFD ∷ code ∷ [] } }
{
    let mut packet = Packet::new();
    packet.push(EVENT);
    packet.push(code);
    packet
}
