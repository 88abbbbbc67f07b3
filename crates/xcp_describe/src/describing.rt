//! The whole description.
ghost use Rattle.std.specs.Prelude.{◌≡◌, ◌≢◌, ◌⊎◌, ◌↔◌, ◌+◌, ℕ, List, Some, None, true, OnOk, OnErr, IfOk, IfErr, string_bytes};
ghost use Rattle.std.specs.Char.{is_ascii};
ghost use Rattle.std.specs.Io.KnownBytes.{Appends};
ghost use Rattle.std.specs.List.{list_all};
ghost use Rattle.xcp_framing.specs.Prefix.{AppendsFront};
ghost use Rattle.xcp_memory.specs.Layout.{LayoutValue};
ghost use Rattle.xcp_config.specs.ConfigText.{HasLayoutWith};
ghost use Rattle.xcp_program.specs.ReplayOutcome.{IsFaultWith};
ghost use Rattle.xcp_describe.specs.A2lFiles.{IsFileOf};
ghost use Rattle.xcp_describe.specs.EntryFaults.{IsFirstRefusal, IsFirstRefusalIn};
ghost use Rattle.xcp_describe.specs.Files.{HasA2lForm, TellsEpk, epk_line, epk_of, marked};
ghost use Rattle.xcp_describe.specs.Findings.{IsEntryFault};
ghost use Rattle.xcp_describe.specs.Hosts.{IsHost};
ghost use Rattle.xcp_describe.specs.Transports.{TellsTransport};
ghost use Rattle.xcp_describe.specs.private.Refusals.{IsEntryOrMemory};
ghost use Rattle.xcp_describe.specs.private.TransportText.{HasInterface, KnowsTransport};

use crate::aml::{Needed, put_grammar};
use crate::asking::Asked;
use crate::clock::Clock;
use crate::commands::has_later_commands;
use crate::daq::Daq;
use crate::epk::epk_line;
use crate::groups::put_groups;
use crate::host::is_host;
use crate::memory::{Paging, greatest_sum};
use crate::naming::{has_events, put_tables};
use crate::protocol::Protocol;
use crate::reached::Reached;
use crate::refusal::DescribeError;
use crate::tables::Tables;
use crate::text::put_quoted;
use crate::transport::Transport;
use std::alloc::{AllocError, Global};
use std::io::Write;
use toml::Value;
use xcp_config::DataFile;
use xcp_framing::Watched;
use xcp_memory::Layout;
use xcp_packet::{Command, Packet};
use xcp_program::{Fault, layout_of_with};

/// Where the signals of a layout stand: no command tells it.
#[derive(Clone, Copy)]
struct Signals {
    address: u32,
    length: usize,
}

/// Writes the A2L description of the slave that the text of a layout file describes, for tools that reach it at this host and
/// port, by this transport layer. The whole text is made before any of it is written. `files` are the files that segments name, by the
/// segments' numbers.
///
/// Faults: `Host` first, where the host isn't 1 to 255 printable ASCII characters without a blank; then `Program` of
/// `Configuration`, 1 to 6, where the text describes no layout; then `Parameter` and `Measurement` of the first entry that has
/// one, the parameters first; `Program` of `Memory` where an allocation fails, of `Stream(2)` where a write failed.
pub fn describe<W: Write>(
    alloc: Global,
    config: &str,
    files: &[DataFile],
    host: &str,
    port: u16,
    transport: Transport,
    writer: &mut Watched<W>,
) -> Result<(), DescribeError>
    // What is written is one text, all of it or a front of it, and of a layout alone.
    ensures written { OnOk result ((text : List ℕ) × IsFileOf files.now config.now text × Appends (W.contents writer.old.inner) (W.contents writer.new.inner) text) }
    // It tells that tools reach the slave by this transport layer, at this host and port.
    ensures transport { OnOk result ((text : List ℕ) × TellsTransport transport host.now port text × Appends (W.contents writer.old.inner) (W.contents writer.new.inner) text) }
    ensures layout { OnOk result ((l : LayoutValue) × HasLayoutWith files.now config.now l) }
    ensures host { (result ≡ Err DescribeError.Host) ↔ (¬ (IsHost host.now)) }
    ensures configuration { (f : Fault) → result ≡ Err (DescribeError.Program f) → (f ≡ Fault.Memory) ⊎ (f ≡ Fault.Stream 2) ⊎ IsFaultWith files.now config.now f }
    // An entry is refused exactly if one has a fault, if memory doesn't run out first: the first that has one, with its first fault.
    ensures entries { OnOk result (IsFirstRefusal files.now config.now None) }
    ensures entry { IfErr result (λ e. IsEntryFault e → IsFirstRefusal files.now config.now (Some e)) }
    ensures entries_first { result ≡ Err (DescribeError.Program (Fault.Stream 2)) → IsFirstRefusal files.now config.now None }
    // A fault of the writer comes exactly where a write failed, and any other before anything is written.
    ensures write { result ≡ Err (DescribeError.Program (Fault.Stream 2)) → writer.new.failures ≡ writer.old.failures + 1 }
    ensures front { result ≡ Err (DescribeError.Program (Fault.Stream 2)) → (text : List ℕ) × AppendsFront (W.contents writer.old.inner) (W.contents writer.new.inner) text }
    ensures unfailed { result ≢ Err (DescribeError.Program (Fault.Stream 2)) → writer.new.failures ≡ writer.old.failures }
    ensures unwritten { OnErr result (result ≢ Err (DescribeError.Program (Fault.Stream 2)) → writer.new ≡ writer.old) }
{
    if !is_host(host) {
        return Err(DescribeError::Host);
    }
    let layout = layout_of_with(alloc, config, files)?;
    let reached = Reached {
        host,
        port,
        transport,
    };
    let text = described(alloc, config, layout, reached)?;
    match writer.write_all(text.as_bytes()) {
        Ok(()) => Ok(()),
        Err(_) => Err(DescribeError::Program(Fault::Stream(2))),
    }
}

/// The text of the description of a slave with this layout, with the entries that the text of a layout file has.
pub(crate) fn described(
    alloc: Global,
    config: &str,
    layout: Layout,
    reached: Reached<'_>,
) -> Result<String, DescribeError>
    ensures file { IfOk result (λ text. HasA2lForm (string_bytes text)) }
    ensures epk { layout.extras.uploads_a2l ≡ true → IfOk result (λ text. TellsEpk (epk_of config.now) (string_bytes text)) }
    ensures transport { IfOk result (λ text. TellsTransport reached.entry.transport reached.entry.host.now reached.entry.port (string_bytes text)) }
    ensures refused { IfErr result IsEntryOrMemory }
    ensures entries { IfOk result (λ _. IsFirstRefusalIn layout config.now None) }
    ensures entry { IfErr result (λ e. IsEntryFault e → IsFirstRefusalIn layout config.now (Some e)) }
{
    let Ok(table) = toml::table_from_str(alloc, config) else {
        return Err(DescribeError::Program(Fault::Memory));
    };
    let document = Value::Table(table);
    let tables = Tables::read(alloc, &document, &layout)?;
    match text_of(alloc, config, layout, &tables, reached) {
        Ok(text) => Ok(text),
        Err(_) => Err(DescribeError::Program(Fault::Memory)),
    }
}

/// The whole text. Where tools get the file from the slave, it tells the EPK.
fn text_of(
    alloc: Global,
    config: &str,
    layout: Layout,
    tables: &Tables<'_>,
    reached: Reached<'_>,
) -> Result<String, AllocError>
    ensures file { IfOk result (λ text. HasA2lForm (string_bytes text)) }
    ensures epk { layout.extras.uploads_a2l ≡ true → IfOk result (λ text. TellsEpk (epk_of config.now) (string_bytes text)) }
    ensures transport { IfOk result (λ text. TellsTransport reached.entry.transport reached.entry.host.now reached.entry.port (string_bytes text)) }
{
    let epk = epk_line(alloc, config, layout.extras().uploads_a2l())?;
    let signals = Signals {
        address: layout.signals_address(),
        length: layout.signals_length(),
    };
    let mut asked = Asked::new(alloc, layout)?;
    let protocol = Protocol::ask(&mut asked);
    let mut front = String::new(alloc);
    let has_events = has_events(tables.measurements.as_slice());
    put_front(
        alloc,
        &mut asked,
        &protocol,
        has_events,
        reached.transport,
        &mut front,
    )?;
    let mut rest = String::new(alloc);
    put_memory(&mut asked, signals, &mut rest)?;
    put_interface(alloc, &mut asked, &protocol, reached, &mut rest)?;
    let entries = entries_of(alloc, tables)?;
    rest.push_str(entries.as_str())?;
    whole(alloc, front.as_str(), epk.as_str(), rest.as_str())
}

/// The text with what stands before the block MOD_PAR, with the line of the EPK, and with what stands behind it: its first line, the
/// head of that block, and the ends of the blocks around all; and its byte order mark, if it needs one.
fn whole(alloc: Global, front: &str, epk: &str, rest: &str) -> Result<String, AllocError>
    ensures file { IfOk result (λ text. HasA2lForm (string_bytes text)) }
    ensures told { (digits : List ℕ) → epk.now ≡ epk_line digits → IfOk result (λ text. TellsEpk digits (string_bytes text)) }
    ensures transport { (t : Transport) → (host : List ℕ) → (port : ℕ) → KnowsTransport t front.now → HasInterface t host port rest.now
        → IfOk result (λ text. TellsTransport t host port (string_bytes text)) }
{
    let mut text = String::from_str(alloc, "ASAP2_VERSION 1 60\n/begin PROJECT xcpd ")?;
    text.push_str(front)?;
    text.push_str("    /begin MOD_PAR \"\"\n")?;
    text.push_str(epk)?;
    text.push_str(rest)?;
    text.push_str("  /end MODULE\n/end PROJECT\n")?;
    put_mark(&mut text)?;
    Ok(text)
}

/// Puts a byte order mark before a text that isn't of ASCII alone: by it tools know that the file is UTF-8.
fn put_mark(text: &mut String) -> Result<(), AllocError>
    ensures { OnOk result (string_bytes text.new ≡ marked (string_bytes text.old)) }
{
    if is_ascii(text.as_bytes()) {
        return Ok(());
    }
    text.insert_str(0, "\u{FEFF}")
}

/// Whether all characters are of ASCII.
fn is_ascii(text: &[u8]) -> bool
    ensures { result ≡ list_all is_ascii text.now }
{
    text.iter().all(|byte| byte.is_ascii())
}

/// Appends what stands behind the name of the block PROJECT, up to the block MOD_PAR.
fn put_front(
    alloc: Global,
    asked: &mut Asked,
    protocol: &Protocol,
    has_events: bool,
    transport: Transport,
    text: &mut String,
) -> Result<(), AllocError>
    ensures { OnOk result (KnowsTransport transport (string_bytes text.new)) }
{
    let id = identification(asked);
    put_quoted(text, id.as_slice(), id.len())?;
    text.push_str("\n  /begin MODULE slave ")?;
    put_quoted(text, id.as_slice(), id.len())?;
    let needed = Needed {
        later_commands: has_later_commands(asked),
        sum_sizes: greatest_sum(asked).is_some(),
        time_stamps: Clock::ask(asked).has_time_stamps(),
        events: has_events,
    };
    put_grammar(needed, transport, text)?;
    let common = common_of(alloc, protocol)?;
    text.push_str(common.as_str())
}

/// The identification: GET_ID points the MTA to it. It has fewer bytes than one UPLOAD reads.
fn identification(asked: &mut Asked) -> Packet {
    let id = asked.ask(&Command::GetId { kind: 0 });
    asked.upload(u8::try_from(id.double(4)).unwrap_or(u8::MAX))
}

/// The block MOD_COMMON. Numbers may stand at any address.
fn common_of(alloc: Global, protocol: &Protocol) -> Result<String, AllocError> {
    let mut text = String::new(alloc);
    writeln!(text, "    /begin MOD_COMMON \"\"")?;
    writeln!(text, "      BYTE_ORDER {}", protocol.byte_order())?;
    writeln!(text, "      ALIGNMENT_BYTE 1")?;
    writeln!(text, "      ALIGNMENT_WORD 1")?;
    writeln!(text, "      ALIGNMENT_LONG 1")?;
    writeln!(text, "      ALIGNMENT_FLOAT32_IEEE 1")?;
    writeln!(text, "      ALIGNMENT_FLOAT64_IEEE 1")?;
    writeln!(text, "    /end MOD_COMMON")?;
    Ok(text)
}

/// The blocks of the parameters, the measurements and their groups.
fn entries_of(alloc: Global, tables: &Tables<'_>) -> Result<String, AllocError> {
    let mut text = String::new(alloc);
    put_tables(tables, &mut text)?;
    put_groups(tables, &mut text)?;
    Ok(text)
}

/// Appends the areas of memory, and the end of the block MOD_PAR.
fn put_memory(asked: &mut Asked, signals: Signals, text: &mut String) -> Result<(), AllocError> {
    Paging::ask(asked).put_segments(asked, text)?;
    writeln!(text, "      /begin MEMORY_SEGMENT signals \"\"")?;
    writeln!(
        text,
        "        VARIABLES RAM INTERN 0x{:08X} 0x{:X} -1 -1 -1 -1 -1",
        signals.address, signals.length
    )?;
    writeln!(text, "      /end MEMORY_SEGMENT")?;
    writeln!(text, "    /end MOD_PAR")
}

/// Appends the block IF_DATA of the whole module: the block of the transport layer is the last one in it.
fn put_interface(
    alloc: Global,
    asked: &mut Asked,
    protocol: &Protocol,
    reached: Reached<'_>,
    text: &mut String,
) -> Result<(), AllocError>
    ensures { OnOk result (HasInterface reached.entry.transport reached.entry.host.now reached.entry.port (string_bytes text.new)) }
{
    let others = others_of(alloc, asked, protocol)?;
    let lines = reached.lines(alloc, protocol.transport)?;
    text.push_str("    /begin IF_DATA XCP\n")?;
    text.push_str(others.as_str())?;
    reached.transport.put_block(lines.as_str(), text)?;
    text.push_str("    /end IF_DATA\n")
}

/// The blocks of IF_DATA before that of the transport layer.
fn others_of(alloc: Global, asked: &mut Asked, protocol: &Protocol) -> Result<String, AllocError> {
    let mut text = String::new(alloc);
    protocol.put(asked, &mut text)?;
    Daq::ask(asked).put(asked, &mut text)?;
    Paging::ask(asked).put(&mut text)?;
    Ok(text)
}
