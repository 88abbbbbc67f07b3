//! A scribe that writes the file of a journal.
ghost use Rattle.std.specs.Prelude.{◌≡◌, ◌≤◌, ◌++◌, [], ◌∷◌, List, IfOk, IfErr, Some, ◌⊎◌, length, true};
ghost use Rattle.xcp_framing.specs.Prefix.{AppendsFront};
ghost use Rattle.xcp_record.specs.FileFormat.{head, most_calls};
ghost use Rattle.xcp_trace.specs.declared.journal.Entry.{Entry};
ghost use Rattle.xcp_scribe.specs.Scribing.{AreEnded, HasEnded, HasWritten};

use crate::scribe::Scribe;
use std::alloc::Global;
use std::io::Write;
use std::snapshot::Snapshot;
use xcp_record::{NotBegun, RecordFault, Recorder, Roster};
use xcp_slave::Slave;
use xcp_trace::Entries;

/// Writes each chapter to the file of a journal, and an end mark behind them once it is ended. Its first fault ends the writing: what is
/// whole in the file then stays so, and nothing more is written.
#[derive(Drop)]
pub struct Recording<W> {
    recorder: Recorder<W>,
    layout: [u8; 32],
    roster: Roster,
    start: Snapshot<W>,
    fault: Option<RecordFault>,
}

impl<W: Write> Recording<W> {
    /// A recording that has written the head of a file to the stream, of the layout whose file has this SHA-256, and of these callers.
    pub fn new(
        alloc: Global,
        stream: W,
        layout: [u8; 32],
        roster: Roster,
    ) -> Result<Recording<W>, NotBegun<W>>
        ensures written { IfOk result (λ r. HasWritten W.contents r []) }
        ensures layout { IfOk result (λ r. r.layout ≡ layout) }
        ensures roster { IfOk result (λ r. r.roster ≡ roster) }
        ensures start { IfOk result (λ r. r.start.value ≡ stream) }
        ensures refused { IfErr result (λ e. (e.fault ≡ RecordFault.Write) ⊎ (e.fault ≡ RecordFault.Memory)) }
        // A fault of the stream comes exactly where a write failed, and want of memory before anything is written.
        ensures write { IfErr result (λ e. e.fault ≡ RecordFault.Write → e.writer.failures ≡ 1) }
        ensures front { IfErr result (λ e. AppendsFront (W.contents stream) (W.contents e.writer.inner) (head (Some roster) layout)) }
        ensures unwritten { IfErr result (λ e. e.fault ≡ RecordFault.Memory
            → e.writer ≡ record { inner = stream; calls = 0; failures = 0; read = []; asked = [] }) }
    {
        let start = Snapshot::of(&stream);
        match Recorder::new(alloc, stream, &layout, roster) {
            Ok(recorder) => Ok(Recording {
                recorder,
                layout,
                roster,
                start,
                fault: None,
            }),
            Err(unbegun) => Err(unbegun),
        }
    }

    /// How many calls stand in the file, in whole chapters.
    pub fn calls(&self) -> u64
        ensures { result ≡ self.now.recorder.calls }
    {
        self.recorder.calls()
    }

    /// Why it writes no more, if something was not written.
    pub fn fault(&self) -> Option<RecordFault>
        ensures { result ≡ self.now.fault }
    {
        self.fault
    }

    /// Appends a chapter with these calls.
    fn put(&mut self, calls: Entries<'_>)
        requires { length calls ≤ most_calls }
        ensures { (chapters : List (List Entry)) → HasWritten W.contents self.old chapters
            → HasWritten W.contents self.new (chapters ++ calls.entry ∷ []) }
    {
        let number = self.recorder.chapters();
        let appended = self.recorder.append(number, calls);
        if let Err(fault) = appended {
            if self.fault.is_none() {
                self.fault = Some(fault);
            }
        }
    }

    /// Writes the end mark behind all chapters, if nothing has failed. It is called once, when no more chapters will come: what is
    /// given afterwards isn't written, and has the fault `Stopped`.
    pub fn end(&mut self)
        ensures ends { (chapters : List (List Entry)) → HasWritten W.contents self.old chapters
            → HasEnded W.contents self.new chapters }
        ensures kept { (self.new.layout ≡ self.old.layout) × (self.new.roster ≡ self.old.roster)
            × (self.new.start ≡ self.old.start)
            × (self.new.recorder.calls ≡ self.old.recorder.calls) }
        // Where a chapter failed, or it was ended before, nothing changes.
        ensures again { self.old.recorder.stopped ≡ true → self.new ≡ self.old }
    {
        let ended = self.recorder.end();
        if let Err(failed) = ended {
            if failed != RecordFault::Stopped {
                self.fault = Some(failed);
            }
        }
    }

    /// The stream.
    pub fn into_stream(self) -> W
        ensures { result ≡ self.recorder.writer.inner }
    {
        self.recorder.into_stream()
    }
}

/// Ends a recording, if there is one.
pub fn end_recording<W: Write>(written: &mut Option<Recording<W>>)
    ensures { AreEnded W.contents written.old written.new }
{
    if let Some(recording) = written {
        recording.end();
    }
}

impl<W: Write + Drop> Scribe for Recording<W> {
    ghost use Rattle.xcp_scribe.specs.Given.{calls_given};
    ghost use Rattle.xcp_scribe.specs.Scribing.{HasWritten};
    ghost use Rattle.std.specs.Prelude.{⊤};

    ghost wrote = { λ r given. HasWritten W.contents r (calls_given given) };

    // It keeps no pages.
    ghost shelved = { λ _ _. ⊤ };

    fn write(&mut self, calls: Entries<'_>, _last: &Slave) {
        self.put(calls);
    }

    fn is_shelved(&self) -> bool {
        true
    }
}
