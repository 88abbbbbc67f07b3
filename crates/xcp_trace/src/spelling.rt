//! The string of an exchange, in its parts.
ghost use Rattle.std.specs.Prelude.{◌≡◌, ◌≢◌, ◌≤◌, ◌<◌, ◌++◌, length};
ghost use Rattle.xcp_slave.specs.Outcomes.{Answer};
ghost use Rattle.xcp_slave.specs.AnswerInBytes.{answer_in};
ghost use Rattle.xcp_slave.specs.AskedRequest.{IsShort, request_asked};
ghost use Rattle.xcp_trace.specs.ExchangeSpelling.{IsExchangeString, IsSpelt, time_bytes, time_in, answer_spelt, exchange_in, request_bytes, request_channel, request_of, request_tag};

use arrayvec::ArrayVec;
use xcp_packet::{Order, Packet, Train, Width};
use xcp_slave::{Answer, Asked, Cut, Exchange, Outcome, Request, Told};

/// The bytes of a head: the request's tag and its channel, the answer's tag and its number, and the
/// length of the request's bytes.
pub(crate) const HEAD_BYTES: usize = 6;

/// The most bytes of a command or a packet.
const PACKET_BYTES: usize = 255;

/// The most bytes of an exchange's string: its head, a command and a packet.
pub(crate) const EXCHANGE_BYTES: usize = HEAD_BYTES + PACKET_BYTES + PACKET_BYTES;

/// How many bytes a time has.
pub(crate) const TIME_BYTES: usize = 8;

/// The tag of an answer that says that an event's packets found no room.
pub(crate) const OVERRUN: u8 = 3;

/// The tag of an answer that is a block.
const BLOCK: u8 = 10;

/// The parts of an exchange's string.
#[derive(Drop)]
pub(crate) struct Spelled<'a> {
    pub(crate) head: [u8; HEAD_BYTES],
    pub(crate) asked: &'a [u8],
    pub(crate) told: &'a [u8],
}

/// The string of an exchange, from its request and from what was told beside a lent packet. The bytes of a time stand in
/// those that are lent for it.
pub(crate) fn spell<'a>(
    asked: Asked<'a>,
    told: &Told,
    packet: &'a Packet,
    clock: &'a mut [u8; TIME_BYTES],
) -> Spelled<'a>
    requires { IsShort asked }
    ensures string { exchange_in (result.head ++ result.asked.now ++ result.told.now)
        ≡ record { request = request_asked asked.entry; answer = answer_in told.now packet.now } }
    ensures fits { IsExchangeString (result.head ++ result.asked.now ++ result.told.now) }
    ensures asked { length result.asked.now ≤ PACKET_BYTES }
    ensures told { length result.told.now ≤ PACKET_BYTES }
{
    let (kind, count, bytes) = answer_parts(told, packet);
    spell_parts(asked, kind, count, bytes, clock)
}

/// The string of an exchange, from its request and the parts of its answer.
fn spell_parts<'a>(
    request: Asked<'a>,
    kind: u8,
    count: u8,
    told: &'a [u8],
    clock: &'a mut [u8; TIME_BYTES],
) -> Spelled<'a>
    requires asked { IsShort request }
    requires short { length told.now ≤ PACKET_BYTES }
    requires width { 9 < kind → (7 ≤ count) × (count ≤ 254) }
    ensures string { exchange_in (result.head ++ result.asked.now ++ result.told.now)
        ≡ record { request = request_asked request.entry; answer = answer_spelt kind count told.now } }
    ensures fits { IsExchangeString (result.head ++ result.asked.now ++ result.told.now) }
    ensures asked { length result.asked.now ≤ PACKET_BYTES }
    ensures told { length result.told.now ≤ PACKET_BYTES }
{
    let (tag, channel, asked) = request_parts(request, clock);
    let channel = channel.to_le_bytes();
    Spelled {
        head: [tag, channel[0], channel[1], kind, count, asked.len() as u8],
        asked,
        told,
    }
}

/// The exchange that a string spells.
pub(crate) fn read_exchange(string: &[u8]) -> Exchange
    requires { IsExchangeString string.now }
    ensures { result ≡ exchange_in string.now }
{
    let (head, bytes) = string.split_at(HEAD_BYTES);
    let (asked, told) = bytes.split_at(head[5] as usize);
    Exchange {
        request: request_of(head[0], u16::from_le_bytes([head[1], head[2]]), asked),
        answer: answer_of(head[3], head[4], told),
    }
}

/// The tag of a request, its channel and its bytes.
fn request_parts<'a>(request: Asked<'a>, clock: &'a mut [u8; TIME_BYTES]) -> (u8, u16, &'a [u8])
    requires { IsShort request }
    ensures tag { result.0 ≡ request_tag (request_asked request.entry) }
    ensures channel { result.1 ≡ request_channel (request_asked request.entry) }
    ensures word { result.1 < 65536 }
    ensures bytes { result.2.now ≡ request_bytes (request_asked request.entry) }
    ensures short { length result.2.now ≤ 255 }
    ensures signals { result.0 ≡ 1 → length result.2.now ≤ 64 }
    ensures time { 4 < result.0 → result.0 ≢ 6 → length result.2.now ≡ 8 }
    ensures spelt { IsSpelt (request_asked request.entry) }
{
    match request {
        Asked::Command(packet) => (0, 0, packet),
        Asked::Event(channel, signals) => (1, channel, signals),
        Asked::Drain => (2, 0, &[]),
        Asked::FinishStore => (3, 0, &[]),
        Asked::Hangup => (4, 0, &[]),
        Asked::Time(time) => {
            *clock = bytes_of_time(time);
            (5, 0, clock.as_slice())
        }
        Asked::Signals(place, bytes) => (6, place, bytes),
    }
}

/// The bytes of a time.
fn bytes_of_time(time: u64) -> [u8; TIME_BYTES]
    ensures { result ≡ time_bytes time }
{
    let low = Order::Intel.double_bytes((time % 0x1_0000_0000) as u32);
    let high = Order::Intel.double_bytes((time / 0x1_0000_0000) as u32);
    [
        low[0], low[1], low[2], low[3], high[0], high[1], high[2], high[3],
    ]
}

/// The time of these bytes.
fn time_of(bytes: &[u8]) -> u64
    requires { length bytes.now ≡ 8 }
    ensures { result ≡ time_in bytes.now }
{
    let low = Order::Intel.double_at(bytes, 0);
    let high = Order::Intel.double_at(bytes, 4);
    u64::from(low) + u64::from(high) * 0x1_0000_0000
}

/// The tag of an answer that was told beside a lent packet, its number and its bytes.
fn answer_parts<'a>(told: &Told, packet: &'a Packet) -> (u8, u8, &'a [u8])
    ensures answer { answer_spelt result.0 result.1 result.2.now ≡ answer_in told.now packet.now }
    ensures short { length result.2.now ≤ 255 }
    ensures width { 9 < result.0 → (7 ≤ result.1) × (result.1 ≤ 254) }
{
    match told {
        Told::Silent => (0, 0, &[]),
        Told::Packets(Cut::Whole) => (1, 0, packet.as_slice()),
        Told::Packets(Cut::Block(width)) => (BLOCK, width.size(), packet.as_slice()),
        Told::Sampled(count) => (2, *count, &[]),
        Told::Overrun => (OVERRUN, 0, &[]),
        Told::NoChannel => (4, 0, &[]),
        Told::BadSignals => (5, 0, &[]),
        Told::Nothing => (6, 0, &[]),
        Told::Stored(count) => (7, *count, &[]),
        Told::NoStore => (8, 0, &[]),
        Told::Later => (9, 0, &[]),
    }
}

/// The request of these parts.
fn request_of(tag: u8, channel: u16, bytes: &[u8]) -> Request
    requires short { length bytes.now ≤ 255 }
    requires signals { tag ≡ 1 → length bytes.now ≤ 64 }
    requires time { 4 < tag → tag ≢ 6 → length bytes.now ≡ 8 }
    ensures { result ≡ request_of tag channel bytes.now }
{
    match tag {
        0 => Request::Command(taken(bytes)),
        1 => Request::Event(channel, taken(bytes)),
        2 => Request::Drain,
        3 => Request::FinishStore,
        4 => Request::Hangup,
        6 => Request::Signals(channel, taken(bytes)),
        _ => Request::Time(time_of(bytes)),
    }
}

/// The answer of these parts.
fn answer_of(tag: u8, count: u8, bytes: &[u8]) -> Answer
    requires short { length bytes.now ≤ 255 }
    requires width { 9 < tag → (7 ≤ count) × (count ≤ 254) }
    ensures { result ≡ answer_spelt tag count bytes.now }
{
    match tag {
        0 => Answer::Silent,
        1 => Answer::Packets(Train::one(taken(bytes))),
        2 => Answer::Sampled(count),
        OVERRUN => Answer::Overrun,
        4 => Answer::NoChannel,
        5 => Answer::BadSignals,
        6 => Answer::Nothing,
        7 => Answer::Stored(count),
        8 => Answer::NoStore,
        9 => Answer::Later,
        _ => Answer::Packets(Train::cut(bytes, Width::new(count))),
    }
}

/// These bytes, in place.
fn taken<const N: usize>(bytes: &[u8]) -> ArrayVec<u8, N>
    requires { length bytes.now ≤ N }
    ensures { result ≡ record { items = bytes.now } }
{
    let mut taken = ArrayVec::new();
    let _ = taken.try_extend_from_slice(bytes);
    taken
}
