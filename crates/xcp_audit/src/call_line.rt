//! The line of a call, and the name of its caller.
ghost use Rattle.std.specs.Prelude.{◌≡◌, ◌++◌, IfOk, OnOk, Some, codes, decimal, string_bytes};
ghost use Rattle.hex.specs.Hex.{encode_upper};
ghost use Rattle.xcp_audit.specs.CallLine.{caller_name, line_of_call, words_asked};

use std::alloc::{AllocError, Global};
use xcp_packet::Packet;
use xcp_record::Roster;
use xcp_script::push_text;
use xcp_slave::Request;
use xcp_trace::Entry;

/// Appends the line of a call of a file with this roster or none. After an `Err` a front of it may have been appended.
pub(crate) fn push_line(
    text: &mut Vec<u8>,
    roster: Option<Roster>,
    call: &Entry,
) -> Result<(), AllocError>
    ensures { OnOk result (text.new.items ≡ text.old.items ++ line_of_call roster call.now) }
{
    push_caller(text, roster, call.caller)?;
    text.push(b'\t')?;
    push_request(text, &call.exchange.request)?;
    text.push(b'\t')?;
    let mut packet = Packet::new();
    let told = call.exchange.answer.lay(&mut packet);
    push_text(text, told, &packet)
}

/// Appends a caller's name.
fn push_caller(text: &mut Vec<u8>, roster: Option<Roster>, caller: u8) -> Result<(), AllocError>
    ensures { OnOk result (text.new.items ≡ text.old.items ++ caller_name roster caller) }
{
    let alloc = *text.allocator();
    let name = match roster {
        Some(roster) => name_by(alloc, &roster, caller)?,
        None => format!(in alloc; "{caller}")?,
    };
    text.extend_from_slice(name.as_bytes())
}

/// A caller's name by this roster.
fn name_by(alloc: Global, roster: &Roster, caller: u8) -> Result<String, AllocError>
    ensures { IfOk result (λ name. string_bytes name ≡ caller_name (Some roster.now) caller) }
{
    let mut number = caller;
    if number < roster.tools {
        return format!(in alloc; "tool {number}");
    }
    number -= roster.tools;
    if number < roster.tasks {
        return format!(in alloc; "task {number}");
    }
    number -= roster.tasks;
    if number < roster.pumps {
        return format!(in alloc; "pump {number}");
    }
    number -= roster.pumps;
    if number < roster.clocks {
        return format!(in alloc; "clock {number}");
    }
    format!(in alloc; "caller {caller}")
}

/// Appends the words of a request.
fn push_request(text: &mut Vec<u8>, request: &Request) -> Result<(), AllocError>
    ensures { OnOk result (text.new.items ≡ text.old.items ++ words_asked request.now) }
{
    match request {
        Request::Command(packet) => push_hex(text, packet.as_slice()),
        Request::Event(channel, signals) => push_event(text, *channel, signals.as_slice()),
        Request::Drain => text.extend_from_slice(b"drain"),
        Request::FinishStore => text.extend_from_slice(b"store"),
        Request::Hangup => text.extend_from_slice(b"hangup"),
        Request::Time(time) => push_time(text, *time),
        Request::Signals(place, bytes) => push_signals(text, *place, bytes.as_slice()),
    }
}

/// Appends the words of an event.
fn push_event(text: &mut Vec<u8>, channel: u16, signals: &[u8]) -> Result<(), AllocError>
    ensures { OnOk result (text.new.items
        ≡ text.old.items ++ codes "event " ++ decimal channel ++ codes " " ++ encode_upper signals.now) }
{
    let alloc = *text.allocator();
    let digits = hex::encode_upper(alloc, signals)?;
    let event = format!(in alloc; "event {channel} {digits}")?;
    text.extend_from_slice(event.as_bytes())
}

/// Appends the words of signals that are handed over by themselves.
fn push_signals(text: &mut Vec<u8>, place: u16, bytes: &[u8]) -> Result<(), AllocError>
    ensures { OnOk result (text.new.items
        ≡ text.old.items ++ codes "signals " ++ decimal place ++ codes " " ++ encode_upper bytes.now) }
{
    let alloc = *text.allocator();
    let digits = hex::encode_upper(alloc, bytes)?;
    let words = format!(in alloc; "signals {place} {digits}")?;
    text.extend_from_slice(words.as_bytes())
}

/// Appends the words of a time.
fn push_time(text: &mut Vec<u8>, time: u64) -> Result<(), AllocError>
    ensures { OnOk result (text.new.items ≡ text.old.items ++ codes "time " ++ decimal time) }
{
    let alloc = *text.allocator();
    let words = format!(in alloc; "time {time}")?;
    text.extend_from_slice(words.as_bytes())
}

/// Appends bytes in upper-case hex.
fn push_hex(text: &mut Vec<u8>, bytes: &[u8]) -> Result<(), AllocError>
    ensures { OnOk result (text.new.items ≡ text.old.items ++ encode_upper bytes.now) }
{
    let alloc = *text.allocator();
    let digits = hex::encode_upper(alloc, bytes)?;
    text.extend_from_slice(digits.as_bytes())
}
