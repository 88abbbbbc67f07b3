//! An audit whose outcome is printed.
ghost use Rattle.std.specs.Prelude.{◌≡◌, ◌≢◌, ◌<◌, ◌⊎◌, ◌++◌, [], ℕ, List, Option, Err, IfOk, IfSome, if◌then◌else◌, codes, decimal, string_bytes, take};
ghost use Rattle.std.specs.Io.KnownBytes.{Consumes, IsAtEnd};
ghost use Rattle.xcp_memory.specs.Layout.{A2lFileValue};
ghost use Rattle.xcp_slave.specs.SlaveValue.{SlaveValue};
ghost use Rattle.xcp_trace.specs.declared.Entry.{Entry};
ghost use Rattle.xcp_config.specs.TableLayout.{File};
ghost use Rattle.xcp_program.specs.Beginning.{BeginsWith};
ghost use Rattle.xcp_record.specs.Audit.{Audits, Witnesses, HoldsRun, SaysSettled};
ghost use Rattle.xcp_record.specs.declared.FileEnding.{FileEnding};
ghost use Rattle.xcp_record.specs.declared.Roster.{Roster};
ghost use Rattle.xcp_audit.specs.CallLine.{lines_of_calls};
ghost use Rattle.xcp_audit.specs.Printing.{Prints, stand_of};
ghost use Rattle.xcp_audit.specs.PrintedAudit.{PrintsAudit, ReadsTo, answer_after, closing_lines, settled_in, verdict_of};

use crate::head::digest_for;
use crate::printer::{Printer, Trouble};
use std::alloc::{AllocError, Global};
use std::io::{Read, Write};
use xcp_framing::Watched;
use xcp_memory::Layout;
use xcp_program::Fault;
use xcp_record::{AuditFault, FileEnding, Settled, Silent, audit};
use xcp_slave::Slave;

/// Executes the calls of a journal's file again, on a new slave of this layout, which the text of the layout file describes,
/// with the stored pages of a file or with its own, and prints what came of it: `calls N`, `settled`, and `ended` or `open`, or `calls N`
/// where the file isn't whole behind so many good calls; before that each call as a line, where lines are wanted, which begins with the
/// caller's name by the roster of the file, or with its number in a file without a roster.
///
/// `head` are the first 38 bytes of the file, or all that it has: they say whether it names the layout by the SHA-256 of the text, or by that of
/// what decides the answers. The reader begins with them.
///
/// Faults: `Stream(2)` where a write failed; `Memory` at any place; `MismatchedCall`; `Journal`, 1 and 3 to 6.
pub fn print_audit<R: Read, W: Write>(
    alloc: Global,
    config: &str,
    layout: Layout,
    head: &[u8],
    reader: &mut Watched<R>,
    printer: &mut Printer<W>,
    lines: bool,
) -> Result<(), Fault>
    requires begins { (files : List File) × (a2l : Option A2lFileValue) × (flash : Option (List ℕ)) × BeginsWith files config.now a2l flash layout }
    requires head { IfSome (R.remaining reader.old.inner) (λ all. head.now ≡ take 38 all) }
    // Memory may be short before anything is read or printed.
    ensures ends { ((result ≡ Err Fault.Memory) × (reader.new ≡ reader.old) × (printer.new ≡ printer.old))
        ⊎ PrintsAudit config.now layout head.now
        (record { left = R.remaining reader.old.inner; failures = reader.old.failures })
        (record { left = R.remaining reader.new.inner; failures = reader.new.failures })
        lines (stand_of W.contents printer.old) (stand_of W.contents printer.new) result }
{
    let digest = digest_for(config, &layout, head);
    let Ok(slave) = Slave::new(alloc, layout) else {
        return Err(Fault::Memory);
    };
    let said = audited(alloc, slave, &digest, reader, printer, lines);
    print_end(alloc, &said, printer);
    match printer.trouble() {
        Some(Trouble::Write) => Err(Fault::Stream(2)),
        Some(Trouble::Memory) => Err(Fault::Memory),
        None => verdict_of(said),
    }
}

/// What an audit says, while the lines of its calls are printed, or none.
fn audited<R: Read, W: Write>(
    alloc: Global,
    slave: Slave,
    layout: &[u8; 32],
    reader: &mut Watched<R>,
    printer: &mut Printer<W>,
    lines: bool,
) -> Result<Settled, AuditFault>
    ensures audits { (read : List ℕ)
        × Consumes (R.remaining reader.old.inner) (R.remaining reader.new.inner) read
        × (roster : Option Roster) × Audits roster layout.now slave (IsAtEnd (R.remaining reader.new.inner)) read result
        × (calls : List Entry)
        × Prints (stand_of W.contents printer.old) (stand_of W.contents printer.new)
        (if lines then lines_of_calls roster calls else [])
        × Witnesses roster layout.now read result calls }
    ensures unfailed { result ≢ Err AuditFault.Read → reader.new.failures ≡ reader.old.failures }
    ensures failed { result ≡ Err AuditFault.Read → reader.old.failures < reader.new.failures }
    ensures settles { IfSome (R.remaining reader.old.inner) (λ all. (roster : Option Roster) (n : ℕ) (ending : FileEnding)
        → HoldsRun roster layout.now slave all n ending → SaysSettled n ending result) }
{
    if lines {
        audit(alloc, slave, layout, reader, printer)
    } else {
        audit(alloc, slave, layout, reader, &mut Silent)
    }
}

/// Prints the lines at the end.
fn print_end<W: Write>(alloc: Global, said: &Result<Settled, AuditFault>, printer: &mut Printer<W>)
    ensures { Prints (stand_of W.contents printer.old) (stand_of W.contents printer.new)
        (closing_lines said.now) }
{
    match end_of(alloc, said) {
        Ok(text) => printer.print(text.as_bytes()),
        Err(_) => printer.lose(),
    }
}

/// The lines at the end.
fn end_of(alloc: Global, said: &Result<Settled, AuditFault>) -> Result<String, AllocError>
    ensures { IfOk result (λ text. string_bytes text ≡ closing_lines said.now) }
{
    match said {
        Ok(settled) => settled_of(alloc, settled.calls, settled.ending),
        Err(AuditFault::Cut(calls)) => count_of(alloc, *calls),
        Err(AuditFault::Altered(calls)) => count_of(alloc, *calls),
        Err(AuditFault::TooLong(calls)) => count_of(alloc, *calls),
        Err(_) => Ok(String::new(alloc)),
    }
}

/// The lines that say how many calls are settled, and how the file ends.
fn settled_of(alloc: Global, calls: u64, ending: FileEnding) -> Result<String, AllocError>
    ensures { IfOk result (λ text. string_bytes text ≡ codes "calls " ++ decimal calls ++ settled_in ending) }
{
    match ending {
        FileEnding::Ended => format!(in alloc; "calls {calls}\nsettled\nended\n"),
        FileEnding::Open => format!(in alloc; "calls {calls}\nsettled\nopen\n"),
    }
}

/// The line that says how many calls are good.
fn count_of(alloc: Global, calls: u64) -> Result<String, AllocError>
    ensures { IfOk result (λ text. string_bytes text ≡ codes "calls " ++ decimal calls ++ codes "\n") }
{
    format!(in alloc; "calls {calls}\n")
}

/// What is answered, by what the audit says.
fn verdict_of(said: Result<Settled, AuditFault>) -> Result<(), Fault>
    ensures { result ≡ verdict_of said }
{
    match said {
        Ok(_) => Ok(()),
        Err(AuditFault::Read) => Err(Fault::Journal(1)),
        Err(AuditFault::Memory) => Err(Fault::Memory),
        Err(AuditFault::Mismatch(call)) => Err(Fault::MismatchedCall(call)),
        Err(AuditFault::Cut(_)) => Err(Fault::Journal(3)),
        Err(AuditFault::Altered(_)) => Err(Fault::Journal(4)),
        Err(AuditFault::OtherLayout) => Err(Fault::Journal(5)),
        Err(AuditFault::Foreign) | Err(AuditFault::TooLong(_)) => Err(Fault::Journal(6)),
    }
}
