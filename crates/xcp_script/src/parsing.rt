//! The lines of a script, read one by one.
ghost use Rattle.std.specs.Prelude.{◌≡◌, ◌≤◌, ⊤, ℕ, MatchBool, MatchOption, codes, drop, position, length, take, true, false, Some, None};
ghost use Rattle.xcp_script.specs.ScriptLine.{meaning, channel_of, command_of, command_with, event_of, event_with, handed_or_command, hex_bytes, is_skipped, is_space, is_word, signals_of, signals_with, time_of, time_with};
ghost use Rattle.xcp_script.specs.private.LineInSlot.{line_in};

use crate::Line;
use crate::digits::{GREATEST_BYTE, digit_value};
use crate::slot::{PART_BYTES, Parsed, SIGNAL_BYTES, Slot};
use arrayvec::ArrayVec;

/// The most bytes of a line, without its line feed and the carriage return before that.
pub const LINE_BYTES: usize = 1024;

/// What a line says, where packets have at most `max_cto` bytes (MAX_CTO).
///
/// A line of more than 1,024 bytes is faulty. An empty line and one that begins with `#` are
/// skipped. `drain`, `store`, `hangup`, `event C HEX` and `time T` are the requests of these names; any other
/// line is a command packet in hex.
pub fn parse_line(max_cto: u8, line: &[u8]) -> Line
    ensures { result ≡ meaning max_cto line.now }
{
    let mut slot = Slot::new();
    let parsed = parse_into(max_cto, line, &mut slot);
    slot.with(parsed)
}

/// What a line says, as `parse_line` has it. The bytes of a command or of an event stand in the slot then.
#[tactic(auto, unfolding(crate::specs::ScriptLine::meaning))]
pub(crate) fn parse_into(max_cto: u8, line: &[u8], slot: &mut Slot) -> Parsed
    ensures { line_in result slot.new.command slot.new.signals ≡ meaning max_cto line.now }
{
    if line.len() > LINE_BYTES {
        return Parsed::Faulty;
    }
    match line {
        [] => Parsed::Skip,
        [b'#', ..] => Parsed::Skip,
        _ => parse_request(max_cto, line, slot),
    }
}

/// What a line says that is no comment. Commands are read at one place, so that this is read there without a call.
fn parse_request(max_cto: u8, line: &[u8], slot: &mut Slot) -> Parsed
    requires some { is_skipped line.now ≡ false }
    requires short { length line.now ≤ 1024 }
    ensures { line_in result slot.new.command slot.new.signals ≡ meaning max_cto line.now }
{
    if may_begin_word(line) {
        if let Some(parsed) = parse_words(line, slot) {
            return parsed;
        }
    }
    parse_command(max_cto, line, slot)
}

/// Whether a line may begin with a word: a line that doesn't is compared with none. All words begin with a lower-case letter, and most
/// commands with a digit or an upper-case one.
fn may_begin_word(line: &[u8]) -> bool
    requires some { is_skipped line.now ≡ false }
    requires short { length line.now ≤ 1024 }
    ensures { MatchBool result ⊤ ((max_cto : ℕ) → meaning max_cto line.now ≡ command_of max_cto line.now) }
{
    match line {
        [] => false,
        [first, ..] => *first >= b'a',
    }
}

/// What a line says that is or begins with a word, if it does.
#[tactic(auto, unfolding(crate::specs::ScriptLine::meaning))]
fn parse_words(line: &[u8], slot: &mut Slot) -> Option<Parsed>
    requires some { is_skipped line.now ≡ false }
    requires short { length line.now ≤ 1024 }
    ensures { MatchOption result ((max_cto : ℕ) → meaning max_cto line.now ≡ command_of max_cto line.now)
        (λ parsed. (max_cto : ℕ) → line_in parsed slot.new.command slot.new.signals ≡ meaning max_cto line.now) }
{
    if line == b"drain".as_slice() {
        return Some(Parsed::Drain);
    }
    if line == b"store".as_slice() {
        return Some(Parsed::FinishStore);
    }
    if line == b"hangup".as_slice() {
        return Some(Parsed::Hangup);
    }
    if let Some(text) = event_text(line) {
        return Some(parse_event(text, slot));
    }
    match time_text(line) {
        Some(digits) => Some(parse_time(digits, slot)),
        None => parse_handed(line, slot),
    }
}

/// What a line says that begins with `signals `, if it does.
#[tactic(auto, unfolding(crate::specs::ScriptLine::handed_or_command))]
fn parse_handed(line: &[u8], slot: &mut Slot) -> Option<Parsed>
    ensures { MatchOption result ((max_cto : ℕ) → handed_or_command max_cto line.now ≡ command_of max_cto line.now)
        (λ parsed. (max_cto : ℕ) → line_in parsed slot.new.command slot.new.signals ≡ handed_or_command max_cto line.now) }
{
    match signals_text(line) {
        Some(text) => Some(parse_signals(text, slot)),
        None => None,
    }
}

/// What stands behind `signals ` in a line that begins with it.
fn signals_text(line: &[u8]) -> Option<&[u8]>
    ensures { MatchOption result (is_word (codes "signals ") (take 8 line.now) ≡ false)
        (λ text. (is_word (codes "signals ") (take 8 line.now) ≡ true) × (text.now ≡ drop 8 line.now)) }
{
    match line {
        [b's', ..] => line.strip_prefix(b"signals "),
        _ => None,
    }
}

/// What `signals PLACE HEX` says, from behind its first space.
fn parse_signals(text: &[u8], slot: &mut Slot) -> Parsed
    ensures { line_in result slot.new.command slot.new.signals ≡ signals_of text.now }
{
    let Some(space) = first_space(text) else {
        return Parsed::Faulty;
    };
    let Some(place) = parse_channel(&text[..space]) else {
        return Parsed::Faulty;
    };
    read_signals(place, &text[space + 1..], slot)
}

/// Reads signals that are handed over by themselves straight into the slot, where a command packet stands else.
fn read_signals(place: u16, digits: &[u8], slot: &mut Slot) -> Parsed
    ensures { line_in result slot.new.command slot.new.signals ≡ signals_with (Some place) (hex_bytes 255 digits.now) }
{
    if !read_hex(PART_BYTES, digits, &mut slot.command) {
        return Parsed::Faulty;
    }
    Parsed::Signals(place)
}

/// What stands behind `time ` in a line that begins with it.
fn time_text(line: &[u8]) -> Option<&[u8]>
    ensures { MatchOption result (is_word (codes "time ") (take 5 line.now) ≡ false)
        (λ text. (is_word (codes "time ") (take 5 line.now) ≡ true) × (text.now ≡ drop 5 line.now)) }
{
    match line {
        [b't', ..] => line.strip_prefix(b"time "),
        _ => None,
    }
}

/// What `time T` says, from behind its space.
fn parse_time(digits: &[u8], _slot: &Slot) -> Parsed
    ensures { line_in result _slot.now.command _slot.now.signals ≡ time_with (time_of digits.now) }
{
    match parse_ticks(digits) {
        Some(time) => Parsed::Time(time),
        None => Parsed::Faulty,
    }
}

/// The number of a time, if the digits write one.
#[tactic(auto, unfolding(crate::specs::ScriptLine::time_of))]
fn parse_ticks(digits: &[u8]) -> Option<u64>
    ensures { result ≡ time_of digits.now }
{
    if digits.is_empty() {
        return None;
    }
    let mut value: u128 = 0;
    for digit in digits {
        if !digit.is_ascii_digit() {
            return None;
        }
        value = value * 10 + u128::from(*digit - b'0');
        if value > u128::from(u64::MAX) {
            return None;
        }
    }
    Some(value as u64)
}

/// What stands behind `event ` in a line that begins with it. Commands seldom begin with an `e`: a line that doesn't isn't
/// compared with the whole word.
fn event_text(line: &[u8]) -> Option<&[u8]>
    ensures { MatchOption result (is_word (codes "event ") (take 6 line.now) ≡ false)
        (λ text. (is_word (codes "event ") (take 6 line.now) ≡ true) × (text.now ≡ drop 6 line.now)) }
{
    match line {
        [b'e', ..] => line.strip_prefix(b"event "),
        _ => None,
    }
}

/// What `event C HEX` says, from behind its first space.
fn parse_event(text: &[u8], slot: &mut Slot) -> Parsed
    ensures { line_in result slot.new.command slot.new.signals ≡ event_of text.now }
{
    let Some(space) = first_space(text) else {
        return Parsed::Faulty;
    };
    let Some(channel) = parse_channel(&text[..space]) else {
        return Parsed::Faulty;
    };
    read_event(channel, &text[space + 1..], slot)
}

fn first_space(text: &[u8]) -> Option<usize>
    ensures { result ≡ position is_space text.now }
{
    text.iter().position(|byte| *byte == b' ')
}

/// Reads an event's signals straight into the slot.
fn read_event(channel: u16, digits: &[u8], slot: &mut Slot) -> Parsed
    ensures { line_in result slot.new.command slot.new.signals ≡ event_with (Some channel) (hex_bytes 64 digits.now) }
{
    if !read_hex(SIGNAL_BYTES, digits, &mut slot.signals) {
        return Parsed::Faulty;
    }
    Parsed::Event(channel)
}

/// What a line says that is a command packet, if anything.
fn parse_command(max_cto: u8, line: &[u8], slot: &mut Slot) -> Parsed
    requires { length line.now ≤ 1024 }
    ensures { line_in result slot.new.command slot.new.signals ≡ command_of max_cto line.now }
{
    match read_command(max_cto, line, slot) {
        // a space is no digit, so a line that is read has none
        Parsed::Faulty => parse_faulty(max_cto, line, slot),
        parsed => parsed,
    }
}

/// What a line says whose bytes are no digits as they stand: spaces may stand between them.
fn parse_faulty(max_cto: u8, line: &[u8], slot: &mut Slot) -> Parsed
    requires faulty { command_with (hex_bytes max_cto line.now) ≡ Line.Faulty }
    requires short { length line.now ≤ 1024 }
    ensures { line_in result slot.new.command slot.new.signals ≡ command_of max_cto line.now }
{
    if line.contains(&b' ') {
        return parse_spaced(max_cto, line, slot);
    }
    Parsed::Faulty
}

/// The same of a line in which spaces stand: it is copied without them.
fn parse_spaced(max_cto: u8, line: &[u8], slot: &mut Slot) -> Parsed
    requires { length line.now ≤ 1024 }
    ensures { line_in result slot.new.command slot.new.signals ≡ command_of max_cto line.now }
{
    let mut digits: ArrayVec<u8, LINE_BYTES> = ArrayVec::new();
    for byte in line {
        if *byte != b' ' {
            digits.push(*byte);
        }
    }
    read_command(max_cto, digits.as_slice(), slot)
}

/// Reads a command packet straight into the slot.
fn read_command(max_cto: u8, digits: &[u8], slot: &mut Slot) -> Parsed
    ensures { line_in result slot.new.command slot.new.signals ≡ command_with (hex_bytes max_cto digits.now) }
{
    if !read_hex(max_cto as usize, digits, &mut slot.command) {
        return Parsed::Faulty;
    }
    Parsed::Command
}

/// Reads the bytes that hex digits write, if they are 1 to `most` bytes. If they are not, any may
/// stand there.
#[tactic(auto, unfolding(crate::specs::ScriptLine::hex_bytes))]
fn read_hex<const N: usize>(most: usize, digits: &[u8], read: &mut ArrayVec<u8, N>) -> bool
    requires bounded { most ≤ 255 }
    requires room { most ≤ N }
    ensures { MatchBool result (hex_bytes most digits.now ≡ Some read.new.items)
        (hex_bytes most digits.now ≡ None) }
{
    read.clear();
    if digits.is_empty() || digits.len() > 2 * most || digits.len() % 2 == 1 {
        return false;
    }
    for i in 0..digits.len() / 2 {
        let high = digit_value(digits[2 * i]);
        let low = digit_value(digits[2 * i + 1]);
        let byte = high * 16 + low;
        // one of the two is no digit
        if byte > GREATEST_BYTE {
            return false;
        }
        read.push(byte as u8);
    }
    true
}

/// The number of an event channel, if the digits write one.
#[tactic(auto, unfolding(crate::specs::ScriptLine::channel_of))]
fn parse_channel(digits: &[u8]) -> Option<u16>
    ensures { result ≡ channel_of digits.now }
{
    if digits.is_empty() {
        return None;
    }
    let mut value: u32 = 0;
    for digit in digits {
        if !digit.is_ascii_digit() {
            return None;
        }
        value = value * 10 + u32::from(*digit - b'0');
        if value > u32::from(u16::MAX) {
            return None;
        }
    }
    Some(value as u16)
}
