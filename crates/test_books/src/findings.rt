//! What the program says of a layout file: by a check, and where it reads the file for a slave, for a description, or for tasks.
use crate::output::text_of;
use crate::pieces::Pieces;
use crate::script::replayed;
use std::alloc::{AllocError, Global};
use std::fmt::Write;
use test_playing::{Row, Section, Trouble, or_refusal};
use xcp_describe::{Findings, Transport, check, describe};
use xcp_framing::Watched;
use xcp_program::{Fault, layout_of, periods_of, read_text};

/// What has to refuse a file, by a check's lines: the number of its first fault, or the line of an entry.
fn refused_by(lines: &str) -> &str {
    let (first, _) = lines.split_once('\n').unwrap_or((lines, ""));
    if first.starts_with("configuration ") {
        let (number, _) = first.split_once(':').unwrap_or((first, ""));
        return number;
    }
    let (_, last) = lines.rsplit_once('\n').unwrap_or(("", lines));
    if last.starts_with("parameter ") || last.starts_with("measurement ") {
        last
    } else {
        ""
    }
}

/// What a description writes, or the line of its fault, behind what was written before.
fn described(
    alloc: Global,
    file: &str,
    host: &str,
    port: u16,
    transport: Transport,
) -> Result<String, AllocError> {
    let mut writer = Watched::new(Vec::new(alloc));
    let ended = describe(alloc, file, &[], host, port, transport, &mut writer);
    text_of(alloc, writer.into_inner().as_slice(), ended)
}

/// What a section of kind `describes HOST PORT` is answered: what `xcpd describe` writes of the layout file, for tools that reach the
/// slave at this host and port; over UDP if `udp` stands behind the port.
pub fn description(alloc: Global, section: &Section<'_>) -> Result<String, Trouble> {
    let (host, port) = section.words.split_once(' ').unwrap_or(("", ""));
    let (port, transport) = match port.strip_suffix(" udp") {
        Some(port) => (port, Transport::Udp),
        None => (port, Transport::Tcp),
    };
    match port.parse::<u16>() {
        Ok(port) => Ok(described(alloc, section.layout()?, host, port, transport)?),
        Err(_) => Err(Trouble::at(section.line, "a host and a port are wanted")),
    }
}

/// What one that reads a layout file says of it, in the end.
fn read_by(alloc: Global, reader: &str, file: &[u8]) -> Result<String, Trouble> {
    let text = read_text(alloc, file)?;
    let script = Pieces {
        left: b"",
        first: 0,
        most: 0,
    };
    match reader {
        "a layout" => Ok(text_of(alloc, b"", layout_of(alloc, text.as_str()))?),
        "a replay" => replayed(alloc, text.as_str(), None, script),
        _ => Ok(described(alloc, text.as_str(), "127.0.0.1", 5555, Transport::Tcp)?),
    }
}

/// Adds a line where a reader of a file refuses it otherwise than is wanted.
fn put_other(
    alloc: Global,
    others: &mut String,
    reader: &str,
    wanted: &str,
    file: &[u8],
) -> Result<(), Trouble> {
    let said = or_refusal(alloc, read_by(alloc, reader, file))?;
    let (_, fault) = said.as_str().rsplit_once("xcpd: ").unwrap_or(("", ""));
    if fault != wanted {
        write!(others, "\n{reader} is refused: {fault}")?;
    }
    Ok(())
}

/// A line for each reader of a file that refuses it otherwise than a check's lines say.
fn others_than(alloc: Global, file: &[u8], lines: &str) -> Result<String, Trouble> {
    let refused = refused_by(lines);
    let number = if refused.starts_with("configuration ") {
        refused
    } else {
        ""
    };
    let mut others = String::new(alloc);
    put_other(alloc, &mut others, "a layout", number, file)?;
    put_other(alloc, &mut others, "a replay", number, file)?;
    put_other(alloc, &mut others, "a description", refused, file)?;
    Ok(others)
}

/// Whether a check counts otherwise than its lines tell: the keys that nothing reads, a fault, an entry, and that it found something.
fn is_otherwise(findings: &Findings, lines: &str) -> bool {
    let unread = lines
        .split('\n')
        .filter(|line| line.starts_with("unread: "));
    let refused = refused_by(lines);
    let has_fault = refused.starts_with("configuration ");
    let has_entry = !refused.is_empty() && !has_fault;
    findings.unread != unread.count()
        || findings.fault.is_some() != has_fault
        || findings.refused.is_some() != has_entry
        || findings.is_empty() != (findings.status() == 0)
}

/// What a check says of a file of these bytes: its status, a blank or a line feed, and its lines; and where a slave or a description
/// refuses the file otherwise than it says, how that does, in lines behind its own.
pub fn check_of(alloc: Global, file: &[u8], between: char) -> Result<String, Trouble> {
    let mut writer = Watched::new(Vec::new(alloc));
    let findings = check(alloc, file, &[], &mut writer)?;
    let status = findings.status();
    let ended = Ok::<(), Fault>(());
    let lines = text_of(alloc, writer.into_inner().as_slice(), ended)?;
    let mut others = others_than(alloc, file, lines.as_str())?;
    if is_otherwise(&findings, lines.as_str()) {
        others.push_str("\nit counts otherwise")?;
    }
    Ok(format!(in alloc; "{status}{between}{lines}{others}")?)
}

/// What a section of kind `periods P` is answered to `paced`, with a pace, or `unpaced`: the periods of tasks 0 to 5 in nanoseconds,
/// where it is P milliseconds of a task whose channel says none.
pub fn periods_told(
    alloc: Global,
    section: &Section<'_>,
    row: &Row<'_>,
) -> Result<String, Trouble> {
    if row.question != "paced" && row.question != "unpaced" {
        return Err(Trouble::at(row.line, "periods are paced or unpaced"));
    }
    let layout = layout_of(alloc, section.layout()?)?;
    let pace = row.question == "paced";
    let mut text = String::new(alloc);
    for period in periods_of(&layout, pace, u32::from(section.number()?)) {
        write!(text, "{period} ")?;
    }
    Ok(String::from_str(alloc, text.as_str().trim_end())?)
}
