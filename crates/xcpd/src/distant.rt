//! The file of a journal that a thread of its own writes.
ghost use Rattle.std.specs.Prelude.{◌≡◌, ◌<◌, [], ⊤, None, IfOk, MatchOption};
ghost use Rattle.sha2.specs.Sha256.{sha256};
ghost use Rattle.xcp_program.specs.Decided.{answers_decided};
ghost use Rattle.xcp_scribe.specs.Scribing.{HasWritten};
ghost use Rattle.xcpd.specs.Distance.{calls_with, chapter_place};

use crate::flushed::Flushed;
use crate::journal::{begin_recording, new_file, print_calls};
use crate::lines::Lines;
use crate::named::Named;
use crate::teller::Alarm;
use std::io::{self, ErrorKind, Write};
use std::sync::{Arc, Wait};
use std::thread::{self, Threads};
use std::time::{Clock, Duration};
use xcp_behind::{Backlog, Behind, Opened, Progress, WriteEnd, open_backlog};
use xcp_program::{Fault, Recorded, fault_of_journal};
use xcp_record::Roster;
use xcp_scribe::{Recording, Scribe};
use xcp_slave::Slave;
use xcp_trace::Entries;

/// How long the program waits for the thread at its beginning and at its end, in milliseconds.
const LAST: u64 = 1000;

/// Of how many chapters at least it is known how many calls the file has with them: of more than can wait.
const KEPT: usize = 1024;

/// What has a server's journal written down, if the words name a file.
pub type Distant<'a, R> = Option<Counting<'a, R>>;

/// Hands on to a thread what is to be written. It is told where something finds no room there.
#[derive(Drop)]
pub struct HandingOn<'a, R> {
    behind: Behind,
    handle: &'a R,
    alarm: Arc<Alarm>,
}

impl<R: Wait> Write for HandingOn<'_, R> {
    fn write(&mut self, buf: &[u8]) -> io::Result<usize> {
        if self.behind.put(self.handle, buf) {
            return Ok(buf.len());
        }
        self.alarm.ring(self.handle);
        Err(ErrorKind::Other.into())
    }

    fn flush(&mut self) -> io::Result<()> {
        Ok(())
    }
}

/// A recording whose bytes a thread writes, and how many calls there are with each of its last chapters.
#[derive(Drop)]
pub struct Counting<'a, R> {
    recording: Recording<HandingOn<'a, R>>,
    chapters: u64,
    calls: Box<[u64; KEPT]>,
}

impl<R: Wait> Scribe for Counting<'_, R> {
    ghost use Rattle.std.specs.Prelude.{None, ⊤};
    ghost use Rattle.xcp_scribe.specs.Given.{calls_given};
    ghost use Rattle.xcp_scribe.specs.Scribing.{HasWritten};

    ghost wrote = { λ c given. HasWritten (λ _. None) c.recording (calls_given given) };

    // It keeps no pages.
    ghost shelved = { λ _ _. ⊤ };

    fn write(&mut self, calls: Entries<'_>, last: &Slave) {
        self.recording.write(calls, last);
        if self.recording.fault().is_none() {
            self.calls[place_of(self.chapters)] = self.recording.calls();
            self.chapters = self.chapters.saturating_add(1);
        }
    }

    fn is_shelved(&self) -> bool {
        true
    }
}

/// Where the number of calls with this chapter stands.
fn place_of(chapter: u64) -> usize
    ensures bound { result < KEPT }
    ensures place { result ≡ chapter_place chapter }
{
    (chapter % KEPT as u64) as usize
}

impl<R: Wait> Counting<'_, R> {
    /// How many calls stand in the file where the thread has written so many pieces: the head, and chapters behind it.
    fn calls_with(&self, pieces: u64) -> u64
        ensures { result ≡ calls_with self.now.calls.value pieces }
    {
        match pieces.checked_sub(2) {
            Some(chapter) => self.calls[place_of(chapter)],
            None => 0,
        }
    }
}

/// Makes the file of a journal, if it is named, as `journal_at` does, and the thread that writes it. Where the file's head can't be written
/// within a moment, it is being written when the server begins.
pub fn distant_at<'a, R: Threads + Wait + Clock + Copy + Send + 'static>(
    rt: &HostRuntime,
    handle: &'a R,
    named: &Named,
    path: &Option<String>,
    flash: &Option<String>,
    roster: Roster,
    lines: &Arc<Lines>,
) -> Result<(Distant<'a, R>, Option<Arc<Backlog>>), Fault>
    ensures begun { IfOk result (λ r. MatchOption r.0 ⊤ (λ c. HasWritten (λ _. None) c.recording [])) }
    ensures roster { IfOk result (λ r. MatchOption r.0 ⊤ (λ c. c.recording.roster ≡ roster)) }
    ensures layout { IfOk result (λ r. MatchOption r.0 ⊤ (λ c. c.recording.layout ≡ sha256 (answers_decided named.now.layout.value))) }
{
    let Some(path) = path else {
        return Ok((None, None));
    };
    let file = new_file(rt, path, flash)?;
    let Ok((stream, backlog, alarm)) = begin_writing(rt, handle, Flushed::new(file), lines) else {
        return Err(Fault::Memory);
    };
    let Ok(calls) = Box::new(rt.alloc(), [0; KEPT]) else {
        return Err(Fault::Memory);
    };
    let recording = begin_recording(rt, named, roster, stream)?;
    if backlog.wait(handle, Duration::from_millis(LAST)) == Progress::Stopped {
        return Err(Fault::Journal(1));
    }
    alarm.arm();
    let counting = Counting {
        recording,
        chapters: 0,
        calls,
    };
    Ok((Some(counting), Some(backlog)))
}

/// A thread that writes to this file what it is handed, for as long as the program runs, and what hands it on.
fn begin_writing<'a, R: Threads + Wait + Copy + Send + 'static>(
    rt: &HostRuntime,
    handle: &'a R,
    file: Flushed,
    lines: &Arc<Lines>,
) -> io::Result<(HandingOn<'a, R>, Arc<Backlog>, Arc<Alarm>)> {
    let alarm = Arc::new(rt.alloc(), Alarm::new(rt.alloc(), lines.clone()?))?;
    let Opened {
        behind,
        end,
        backlog,
    } = open_backlog(rt.alloc(), file)?;
    let stream = HandingOn {
        behind,
        handle,
        alarm: alarm.clone()?,
    };
    let (waits, told) = (*handle, alarm.clone()?);
    thread::spawn(handle, move || write_on(&waits, end, &told))?;
    Ok((stream, backlog, alarm))
}

/// Writes what comes. The first write that fails is told, and the last.
fn write_on<R: Wait>(handle: &R, end: WriteEnd<Flushed>, alarm: &Alarm) {
    if end.write_all(handle).has_failed() {
        alarm.ring(handle);
    }
}

/// Nothing more is handed on. Waits until the thread has written all, but not for long: whether it has.
pub fn finish_writing<R: Wait + Clock>(handle: &R, backlog: &Option<Arc<Backlog>>) -> bool {
    let Some(backlog) = backlog else {
        return true;
    };
    backlog.close(handle);
    backlog.wait(handle, Duration::from_millis(LAST)) == Progress::Written
}

/// Ends a journal, and prints how many calls stand in its file, if there is one. The fault is that of calls, or of an end mark, that don't
/// stand there.
pub fn print_distant<R: Wait + Clock>(
    rt: &HostRuntime,
    handle: &R,
    written: &mut Distant<'_, R>,
    backlog: &Option<Arc<Backlog>>,
) -> Option<Fault> {
    let (counting, shared) = (written.as_mut()?, backlog.as_ref()?);
    counting.recording.end();
    if finish_writing(handle, backlog) {
        return print_calls(rt, &counting.recording);
    }
    let calls = counting.calls_with(shared.written(handle));
    let printed = rt.print(Recorded { calls });
    fault_of_journal(false, printed.is_ok())
}
