//! The text of an answer.
ghost use Rattle.std.specs.Prelude.{◌≡◌, ◌++◌, ◌∷◌, [], OnOk, decimal, length, ◌≤◌, ◌+◌, ◌*◌, vec_len, vec_capacity};
ghost use Rattle.hex.specs.Hex.{encode_upper};
ghost use Rattle.xcp_slave.specs.AnswerInBytes.{answer_in};
ghost use Rattle.xcp_script.specs.AnswerText.{packets_text, text_of};
ghost use Rattle.xcp_packet.specs.PacketTrains.{block_packets};

use crate::digits::{high_digit, low_digit};
use std::alloc::AllocError;
use std::mem;
use xcp_packet::{Packet, Width};
use xcp_slave::{Cut, Told};

/// Appends the line of an answer, whose packet, if it is one, stands in the lent one. After an
/// `Err` a front of it may have been appended.
// A replay does this for each line, in which the calls that are inlined here would take some twenty instructions each.
#[inline(always)]
#[tactic(auto, unfolding(crate::specs::AnswerText::text_of))]
pub fn push_text(texts: &mut Vec<u8>, told: Told, packet: &Packet) -> Result<(), AllocError>
    ensures { OnOk result (texts.new.items
        ≡ texts.old.items ++ text_of (answer_in told packet.now)) }
{
    match &told {
        Told::Packets(Cut::Whole) => push_packet(texts, packet.as_slice()),
        Told::Packets(Cut::Block(width)) => push_block(texts, packet.as_slice(), *width),
        Told::Sampled(count) => push_count(texts, b"sampled ", *count),
        Told::Stored(count) => push_count(texts, b"stored ", *count),
        Told::Silent => texts.extend_from_slice(b"-\n"),
        Told::Overrun => texts.extend_from_slice(b"overrun\n"),
        Told::NoChannel => texts.extend_from_slice(b"no channel\n"),
        Told::BadSignals => texts.extend_from_slice(b"bad signals\n"),
        Told::Nothing => texts.extend_from_slice(b"nothing\n"),
        Told::NoStore => texts.extend_from_slice(b"no store\n"),
        Told::Later => texts.extend_from_slice(b"later\n"),
    }
}

/// Appends a packet in upper-case hex, and a line feed.
#[inline(always)]
fn push_packet(texts: &mut Vec<u8>, packet: &[u8]) -> Result<(), AllocError>
    requires { length packet.now ≤ 255 }
    ensures { OnOk result (texts.new.items
        ≡ texts.old.items ++ encode_upper packet.now ++ 10 ∷ []) }
{
    push_ended(texts, packet, b'\n')
}

/// Appends the packets of a block, a space between them, and a line feed.
fn push_block(texts: &mut Vec<u8>, bytes: &[u8], width: Width) -> Result<(), AllocError>
    requires { length bytes.now ≤ 255 }
    ensures { OnOk result (texts.new.items
        ≡ texts.old.items ++ packets_text (block_packets width bytes.now) ++ 10 ∷ []) }
{
    let mut piece = Packet::new();
    let mut left = bytes;
    'pieces: loop {
        match width.cut(left, &mut piece) {
            None => return push_ended(texts, piece.as_slice(), b'\n'),
            Some(rest) => {
                push_ended(texts, piece.as_slice(), b' ')?;
                left = rest;
            }
        }
    }
}

/// Appends a packet in upper-case hex, and the character behind it.
#[inline(always)]
fn push_ended(texts: &mut Vec<u8>, packet: &[u8], end: u8) -> Result<(), AllocError>
    requires { length packet.now ≤ 255 }
    ensures { OnOk result (texts.new.items ≡ texts.old.items ++ encode_upper packet.now ++ end ∷ []) }
{
    texts.reserve(2 * packet.len() + 1)?;
    // Of a `Vec` that is a local of its own, the length stays in a register.
    let alloc = *texts.allocator();
    let mut local = mem::replace(texts, Vec::new(alloc));
    put_ended(&mut local, packet, end);
    *texts = local;
    Ok(())
}

/// Appends a packet in upper-case hex, and the character behind it, for which there is room.
#[inline(always)]
fn put_ended(texts: &mut Vec<u8>, packet: &[u8], end: u8)
    requires few { length packet.now ≤ 255 }
    requires room { vec_len texts.old + 2 * length packet.now + 1 ≤ vec_capacity texts.old }
    ensures { texts.new.items ≡ texts.old.items ++ encode_upper packet.now ++ end ∷ [] }
{
    for byte in packet {
        texts.push_reserved(high_digit(*byte));
        texts.push_reserved(low_digit(*byte));
    }
    texts.push_reserved(end);
}

/// Appends some words, a number in decimal, and a line feed.
fn push_count(texts: &mut Vec<u8>, words: &[u8], count: u8) -> Result<(), AllocError>
    ensures { OnOk result (texts.new.items
        ≡ texts.old.items ++ words.now ++ decimal count ++ 10 ∷ []) }
{
    texts.extend_from_slice(words)?;
    texts.reserve(4)?;
    push_decimal(texts, count);
    texts.push_reserved(b'\n');
    Ok(())
}

/// Appends a number in decimal.
fn push_decimal(texts: &mut Vec<u8>, number: u8)
    requires { vec_len texts.old + 3 ≤ vec_capacity texts.old }
    ensures items { texts.new.items ≡ texts.old.items ++ decimal number }
    ensures len { vec_len texts.new ≤ vec_len texts.old + 3 }
    ensures capacity { vec_capacity texts.new ≡ vec_capacity texts.old }
{
    if number < 10 {
        texts.push_reserved(b'0' + number);
        return;
    }
    if number >= 100 {
        texts.push_reserved(b'0' + number / 100);
    }
    texts.push_reserved(b'0' + number / 10 % 10);
    texts.push_reserved(b'0' + number % 10);
}
