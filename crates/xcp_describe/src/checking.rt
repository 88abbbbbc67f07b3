//! A check of a layout file.
ghost use Rattle.std.specs.Prelude.{◌≡◌, ◌≢◌, ◌⊎◌, ◌++◌, ◌+◌, ℕ, List, Some, None, Err, Ok, OnOk, IfOk, IfErr, IfSome, string_bytes};
ghost use Rattle.std.specs.List.{flat_map};
ghost use Rattle.std.specs.Io.KnownBytes.{Appends};
ghost use Rattle.toml.specs.View.{view};
ghost use Rattle.xcp_framing.specs.Prefix.{AppendsFront};
ghost use Rattle.xcp_memory.specs.Layout.{LayoutValue};
ghost use Rattle.xcp_config.specs.ConfigText.{HasLayoutWith};
ghost use Rattle.xcp_config.specs.TableChecks.{first_table_fault};
ghost use Rattle.xcp_describe.specs.EntryFaults.{first_refusal};
ghost use Rattle.xcp_describe.specs.Findings.{IsClean, IsEntryFault, IsFound, refused_entry, unreadable};
ghost use Rattle.xcp_describe.specs.FindingsText.{IsSyntaxLine, clean_text, fault_line, findings_text, line_if, no_utf8_text, refused_line, unread_line};
ghost use Rattle.xcp_describe.specs.private.Document.{IsDocument};
ghost use Rattle.xcp_describe.specs.private.TableKeys.{keys_of};

use crate::findings::Findings;
use crate::plain::put_lines;
use crate::refusal::DescribeError;
use crate::tables::Tables;
use crate::unread::{Unread, unread_in};
use crate::words_of_fault::InWords;
use std::alloc::{AllocError, Global};
use std::io::Write;
use toml::Value;
use toml::de::Error;
use xcp_config::{ConfigError, DataFile, read_layout_with};
use xcp_framing::Watched;
use xcp_memory::Layout;
use xcp_program::Fault;

/// Looks at the bytes of a layout file, and writes one line for each thing that it finds: the first fault of the layout, each
/// key that nothing reads, and the first entry that `describe` refuses; where there is none of these, one line that says so.
/// The whole text is made before any of it is written. `files` are the files that segments name, by the segments' numbers.
///
/// Faults: `Memory` where an allocation fails, `Stream(2)` where a write failed.
pub fn check<W: Write>(
    alloc: Global,
    file: &[u8],
    files: &[DataFile],
    writer: &mut Watched<W>,
) -> Result<Findings, Fault>
    // A file that is no document is told as that alone; else the fault and the keys are those of its document, neither more nor fewer,
    // and what is written is one text, all of it: their lines.
    ensures found { IfOk result (λ f. (text : List ℕ) × IsFound files.now file.now f text × Appends (W.contents writer.old.inner) (W.contents writer.new.inner) text) }
    ensures layout { IfOk result (λ f. f.fault ≡ None → (l : LayoutValue) × HasLayoutWith files.now file.now l) }
    ensures refused { IfErr result (λ e. (e ≡ Fault.Memory) ⊎ (e ≡ Fault.Stream 2)) }
    ensures clean { IfOk result (λ f. IsClean f → Appends (W.contents writer.old.inner) (W.contents writer.new.inner) clean_text) }
    // A fault of the writer comes exactly where a write failed, and want of memory before anything is written.
    ensures write { result ≡ Err (Fault.Stream 2) → writer.new.failures ≡ writer.old.failures + 1 }
    ensures front { result ≡ Err (Fault.Stream 2) → (text : List ℕ) × AppendsFront (W.contents writer.old.inner) (W.contents writer.new.inner) text }
    ensures unfailed { result ≢ Err (Fault.Stream 2) → writer.new.failures ≡ writer.old.failures }
    ensures unwritten { result ≡ Err Fault.Memory → writer.new ≡ writer.old }
{
    let (findings, text) = findings_in(alloc, file, files)?;
    match writer.write_all(text.as_bytes()) {
        Ok(()) => Ok(findings),
        Err(_) => Err(Fault::Stream(2)),
    }
}

/// What is found in a file, and the text that tells it.
fn findings_in(alloc: Global, file: &[u8], files: &[DataFile]) -> Result<(Findings, String), Fault>
    ensures found { IfOk result (λ r. IsFound files.now file.now r.0 (string_bytes r.1)) }
    ensures layout { IfOk result (λ r. r.0.fault ≡ None → (l : LayoutValue) × HasLayoutWith files.now file.now l) }
    ensures refused { IfErr result (λ e. e ≡ Fault.Memory) }
{
    let Ok(config) = str::from_utf8(file) else {
        return no_document(no_utf8(alloc));
    };
    match toml::table_from_str(alloc, config) {
        Ok(table) => findings_of(alloc, config, files, &Value::Table(table)),
        Err(e) if e.is_memory() => Err(Fault::Memory),
        Err(e) => no_document(syntax(alloc, &e)),
    }
}

/// The findings in a file that is no document, with their text, if there was memory for it.
fn no_document(text: Result<String, AllocError>) -> Result<(Findings, String), Fault>
    ensures found { IfOk result (λ r. r.0 ≡ unreadable) }
    ensures told { IfOk result (λ r. text ≡ Ok r.1) }
    ensures refused { IfErr result (λ e. e ≡ Fault.Memory) }
{
    match text {
        Ok(text) => Ok((Findings::no_document(), text)),
        Err(_) => Err(Fault::Memory),
    }
}

/// What is told of a file that isn't UTF-8.
fn no_utf8(alloc: Global) -> Result<String, AllocError>
    ensures { IfOk result (λ text. string_bytes text ≡ no_utf8_text) }
{
    String::from_str(alloc, "configuration 1: it is no UTF-8\n")
}

/// Where a text is no TOML, and why, in one line.
fn syntax(alloc: Global, error: &Error) -> Result<String, AllocError>
    ensures { IfOk result (λ text. IsSyntaxLine (string_bytes text)) }
{
    let told = format!(in alloc; "{error}")?;
    let mut text = String::from_str(alloc, "configuration 1")?;
    put_lines(told.as_str(), &mut text)?;
    text.push('\n')?;
    Ok(text)
}

/// What is found in a document, which this text is, and the text that tells it.
fn findings_of(
    alloc: Global,
    config: &str,
    files: &[DataFile],
    document: &Value,
) -> Result<(Findings, String), Fault>
    requires { IsDocument config.now (view document.now) }
    ensures found { IfOk result (λ r. IsFound files.now config.now r.0 (string_bytes r.1)) }
    ensures layout { IfOk result (λ r. r.0.fault ≡ None → (l : LayoutValue) × HasLayoutWith files.now config.now l) }
    ensures refused { IfErr result (λ e. e ≡ Fault.Memory) }
{
    let (fault, refused) = layout_findings(alloc, config, files, document)?;
    let Ok(unread) = unread_in(alloc, document) else {
        return Err(Fault::Memory);
    };
    let findings = Findings {
        fault,
        unread: unread.len(),
        refused,
    };
    match text_of(alloc, fault, unread.as_slice(), refused) {
        Ok(text) => Ok((findings, text)),
        Err(_) => Err(Fault::Memory),
    }
}

/// The first fault of the layout that a document describes, and where it has none, the first entry that `describe` refuses.
fn layout_findings(
    alloc: Global,
    config: &str,
    files: &[DataFile],
    document: &Value,
) -> Result<(Option<ConfigError>, Option<DescribeError>), Fault>
    requires { IsDocument config.now (view document.now) }
    ensures fault { IfOk result (λ r. r.0 ≡ first_table_fault files.now (view document.now)) }
    ensures layout { IfOk result (λ r. r.0 ≡ None → (l : LayoutValue) × HasLayoutWith files.now config.now l) }
    ensures entry { IfOk result (λ r. IfSome r.1 (λ e. IsEntryFault e × (r.0 ≡ None))) }
    ensures first { IfOk result (λ r. r.1 ≡ refused_entry files.now r.0 (view document.now)) }
    ensures refused { IfErr result (λ e. e ≡ Fault.Memory) }
{
    match read_layout_with(alloc, config, files) {
        Ok(layout) => Ok((None, refused_in(alloc, document, &layout)?)),
        Err(ConfigError::Memory) => Err(Fault::Memory),
        Err(fault) => Ok((Some(fault), None)),
    }
}

/// The first entry of a document that `describe` refuses, if there is one.
fn refused_in(
    alloc: Global,
    document: &Value,
    layout: &Layout,
) -> Result<Option<DescribeError>, Fault>
    ensures entry { IfOk result (λ r. IfSome r IsEntryFault) }
    ensures first { IfOk result (λ r. r ≡ first_refusal layout.now (view document.now)) }
    ensures refused { IfErr result (λ e. e ≡ Fault.Memory) }
{
    match Tables::read(alloc, document, layout) {
        Ok(_) => Ok(None),
        Err(DescribeError::Program(fault)) => Err(fault),
        Err(refusal) => Ok(Some(refusal)),
    }
}

/// A line for each thing that was found, or one that says that nothing was.
fn text_of(
    alloc: Global,
    fault: Option<ConfigError>,
    unread: &[Unread<'_>],
    refused: Option<DescribeError>,
) -> Result<String, AllocError>
    requires { IfSome refused IsEntryFault }
    ensures { IfOk result (λ text. string_bytes text ≡ findings_text fault (keys_of unread.now) refused) }
{
    let mut text = String::new(alloc);
    put_fault(fault, &mut text)?;
    put_unread(unread, &mut text)?;
    put_refused(refused, &mut text)?;
    if text.is_empty() {
        text.push_str("no fault, and every key is read\n")?;
    }
    Ok(text)
}

/// Appends the line of a fault, if there is one.
fn put_fault(fault: Option<ConfigError>, text: &mut String) -> Result<(), AllocError>
    ensures { OnOk result (string_bytes text.new ≡ string_bytes text.old ++ line_if fault_line fault) }
{
    match fault {
        Some(fault) => {
            let number = fault.number();
            let words = InWords(fault);
            writeln!(text, "configuration {number}: {words}")
        }
        None => Ok(()),
    }
}

/// Appends the line of each key.
fn put_unread(unread: &[Unread<'_>], text: &mut String) -> Result<(), AllocError>
    ensures { OnOk result (string_bytes text.new ≡ string_bytes text.old ++ flat_map unread_line (keys_of unread.now)) }
{
    for key in unread {
        key.put(text)?;
    }
    Ok(())
}

/// Appends the line of an entry that is refused, if there is one.
fn put_refused(refused: Option<DescribeError>, text: &mut String) -> Result<(), AllocError>
    requires { IfSome refused IsEntryFault }
    ensures { OnOk result (string_bytes text.new ≡ string_bytes text.old ++ line_if refused_line refused) }
{
    match refused {
        Some(refusal) => writeln!(text, "{refusal}"),
        None => Ok(()),
    }
}
