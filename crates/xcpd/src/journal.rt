//! The file of a server's journal, by the program's words.
ghost use Rattle.std.specs.Prelude.{◌≡◌, ⊤, [], Bool, IfOk, MatchBool, MatchOption, None, is_none};
ghost use Rattle.sha2.specs.Sha256.{sha256};
ghost use Rattle.xcp_program.specs.Decided.{answers_decided};
ghost use Rattle.xcp_program.specs.EndFaults.{fault_of_journal};
ghost use Rattle.xcp_scribe.specs.Scribing.{AreEnded, HasBegun, HasWritten};
ghost use Rattle.xcpd.specs.Faults.{fault_of_head};

use crate::named::Named;
use crate::teller::Teller;
use std::fs::{self, File};
use std::io::{self, Write};
use std::os::unix::fs::MetadataExt;
use std::sync::Wait;
use xcp_program::{Fault, Recorded, fault_of_journal};
use xcp_record::{NotBegun, RecordFault, Roster};
use xcp_scribe::{Recording, Synced, end_recording};

/// What writes a server's journal down, if the words name a file.
pub type Written<'a, R> = Option<Recording<Telling<'a, R>>>;

/// A file, of which each write is on the disk once it returns. The first write that fails is told.
#[derive(Drop)]
pub struct Telling<'a, R> {
    file: Synced,
    teller: Teller<'a, R>,
}

impl<R: Wait> Write for Telling<'_, R> {
    fn write(&mut self, buf: &[u8]) -> io::Result<usize> {
        let written = self.file.write(buf);
        if written.is_err() {
            self.teller.report(Fault::Journal(2));
        }
        written
    }

    fn flush(&mut self) -> io::Result<()> {
        self.file.flush()
    }
}

/// Makes the file of a journal, if it is named, of the layout that these bytes name, and of these callers: it must not be there yet, and be
/// none of those of the stored pages.
pub fn journal_at<'a, R: Wait>(
    rt: &HostRuntime,
    named: &Named,
    path: &Option<String>,
    flash: &Option<String>,
    roster: Roster,
    teller: Teller<'a, R>,
) -> Result<Written<'a, R>, Fault>
    ensures begun { IfOk result HasBegun }
    ensures roster { IfOk result (λ w. MatchOption w ⊤ (λ r. r.roster ≡ roster)) }
    ensures layout { IfOk result (λ w. MatchOption w ⊤ (λ r. r.layout ≡ sha256 (answers_decided named.now.layout.value))) }
{
    let Some(path) = path else {
        return Ok(None);
    };
    let file = new_file(rt, path, flash)?;
    let stream = Telling {
        file: Synced::new(file),
        teller,
    };
    Ok(Some(begin_recording(rt, named, roster, stream)?))
}

/// A recording to this stream, of the layout that these bytes name, and of these callers.
pub fn begin_recording<W: Write + Drop>(
    rt: &HostRuntime,
    named: &Named,
    roster: Roster,
    stream: W,
) -> Result<Recording<W>, Fault>
    ensures begun { IfOk result (λ r. HasWritten W.contents r []) }
    ensures roster { IfOk result (λ r. r.roster ≡ roster) }
    ensures layout { IfOk result (λ r. r.layout ≡ sha256 (answers_decided named.now.layout.value)) }
{
    match Recording::new(rt.alloc(), stream, named.digest(), roster) {
        Ok(recording) => Ok(recording),
        Err(NotBegun { fault, .. }) => Err(fault_of_head(fault)),
    }
}

/// The fault that is told where the head of a journal couldn't be written.
fn fault_of_head(fault: RecordFault) -> Fault
    ensures { result ≡ fault_of_head fault }
{
    match fault {
        RecordFault::Memory => Fault::Memory,
        _ => Fault::Journal(1),
    }
}

/// A new file of this name, locked for as long as it is open.
pub fn new_file(rt: &HostRuntime, path: &str, flash: &Option<String>) -> Result<File, Fault> {
    let Ok(file) = File::create_new(rt, path) else {
        return Err(Fault::Journal(1));
    };
    if is_of_pages(rt, &file, flash) {
        let _ = fs::remove_file(rt, path);
        return Err(Fault::Journal(1));
    }
    // Where the system knows no locks, it is open alone.
    let _ = file.try_lock();
    Ok(file)
}

/// Whether this file is that of the stored pages, or the one that is written before it, by whatever name.
fn is_of_pages(rt: &HostRuntime, file: &File, flash: &Option<String>) -> bool {
    let Some(flash) = flash else {
        return false;
    };
    if is_file_at(rt, file, flash) {
        return true;
    }
    match format!(in rt.alloc(); "{flash}.new") {
        Ok(fresh) => is_file_at(rt, file, fresh.as_str()),
        Err(_) => false,
    }
}

/// Whether this file has that name, too.
fn is_file_at(rt: &HostRuntime, file: &File, path: &str) -> bool {
    let Ok(other) = File::open(rt, path) else {
        return false;
    };
    match (file.metadata(), other.metadata()) {
        (Ok(one), Ok(two)) => one.dev() == two.dev() && one.ino() == two.ino(),
        _ => false,
    }
}

/// Prints how many calls stand in the file of a journal, if there is one, which is ended before if all callers are settled. The fault is that
/// of calls, or of an end mark, that don't stand there.
pub fn print_recorded<R: Wait>(
    rt: &HostRuntime,
    written: &mut Written<'_, R>,
    settled: bool,
) -> Option<Fault>
    ensures ended { MatchBool settled (AreEnded (λ _. None) written.old written.new) (written.new ≡ written.old) }
    ensures fault { MatchOption written.new (result ≡ None) (λ r. (printed : Bool) × (result ≡ fault_of_journal (is_none r.fault) printed)) }
{
    if settled {
        end_recording(written);
    }
    print_calls(rt, written.as_ref()?)
}

/// Prints how many calls stand in the file of a recording. The fault is that of calls, or of an end mark, that don't stand there.
pub fn print_calls<W: Write>(rt: &HostRuntime, recording: &Recording<W>) -> Option<Fault>
    ensures { (printed : Bool) × (result ≡ fault_of_journal (is_none recording.now.fault) printed) }
{
    let printed = rt.print(Recorded {
        calls: recording.calls(),
    });
    fault_of_journal(recording.fault().is_none(), printed.is_ok())
}
