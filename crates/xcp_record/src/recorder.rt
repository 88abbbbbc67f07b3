//! What writes a journal's file.
ghost use Rattle.std.specs.Prelude.{◌≡◌, ◌≤◌, ◌<◌, ◌+◌, ◌≢◌, ◌⊎◌, ◌*◌, ◌++◌, ◌∷◌, [], ℕ, List, Option, Some, Err, OnOk, OnErr, IfOk, IfErr, length, true, false};
ghost use Rattle.std.specs.Io.KnownBytes.{Appends};
ghost use Rattle.sha2.specs.Hashers.{Holds256};
ghost use Rattle.xcp_framing.specs.Prefix.{AppendsFront};
ghost use Rattle.xcp_trace.specs.declared.journal.Entry.{Entry};
ghost use Rattle.xcp_record.specs.FileFormat.{head, last_chapter, most_call, most_calls};
ghost use Rattle.xcp_record.specs.Recording.{EndsInOrder, Records, StopsInMark, StopsInside};
ghost use Rattle.xcp_record.specs.declared.roster.Roster.{Roster};
ghost use Rattle.xcp_record.specs.private.Calls.{IsSealed};

use crate::fault::{NotBegun, RecordFault};
use crate::head::{END_MARK, MAGIC, chapter_head, digest_of};
use crate::roster::Roster;
use sha2::{Digest, Sha256};
use std::alloc::{AllocError, Global};
use std::io::Write;
use xcp_framing::Watched;
use xcp_trace::Entries;

/// The number of the last chapter that there can be.
const LAST_CHAPTER: u64 = 4_294_967_295;

/// Writes the file of a journal, chapter by chapter, and an end mark behind them. Once something could not be written, or the end mark
/// was, nothing more is.
#[derive(Drop)]
pub struct Recorder<W> {
    writer: Watched<W>,
    hasher: Sha256,
    chapters: u64,
    calls: u64,
    stopped: bool,
    chapter: Vec<u8>,
    ghost few: { calls ≤ chapters * 65536 },
    ghost last: { chapters ≤ 4294967296 },
}

impl<W: Write> Recorder<W> {
    /// A recorder that has written the head of a file to the stream, of the layout whose file has this SHA-256, and of these callers.
    pub fn new(
        alloc: Global,
        stream: W,
        layout: &[u8; 32],
        roster: Roster,
    ) -> Result<Recorder<W>, NotBegun<W>>
        ensures records { IfOk result (λ r. Records (Some roster) layout.now (W.contents stream)
            (W.contents r.writer.inner) r.hasher r.chapters r.calls []) }
        ensures begins { IfOk result (λ r. r.stopped ≡ false) }
        ensures unfailed { IfOk result (λ r. r.writer.failures ≡ 0) }
        ensures refused { IfErr result (λ e. (e.fault ≡ RecordFault.Write) ⊎ (e.fault ≡ RecordFault.Memory)) }
        // A fault of the stream comes exactly where a write failed, and want of memory before anything is written.
        ensures write { IfErr result (λ e. e.fault ≡ RecordFault.Write → e.writer.failures ≡ 1) }
        ensures front { IfErr result (λ e. AppendsFront (W.contents stream) (W.contents e.writer.inner) (head (Some roster) layout.now)) }
        ensures unwritten { IfErr result (λ e. e.fault ≡ RecordFault.Memory
            → e.writer ≡ record { inner = stream; calls = 0; failures = 0; read = []; asked = [] }) }
    {
        let mut writer = Watched::new(stream);
        let mut hasher = Sha256::new();
        let mut chapter = Vec::new(alloc);
        match begin(layout, roster, &mut writer, &mut hasher, &mut chapter) {
            Ok(()) => Ok(Recorder {
                writer,
                hasher,
                chapters: 0,
                calls: 0,
                stopped: false,
                chapter,
            }),
            Err(fault) => Err(NotBegun { fault, writer }),
        }
    }

    /// How many calls stand in the file, in whole chapters.
    pub fn calls(&self) -> u64
        ensures { result ≡ self.now.calls }
    {
        self.calls
    }

    /// How many chapters stand in the file.
    pub fn chapters(&self) -> u64
        ensures { result ≡ self.now.chapters }
    {
        self.chapters
    }

    /// The stream.
    pub fn into_stream(self) -> W
        ensures { result ≡ self.writer.inner }
    {
        self.writer.into_inner()
    }

    /// Writes the chapter of this number, which has to be the next one, in one piece.
    ///
    /// After an error nothing more is written: each further call is `Stopped`.
    pub fn append(&mut self, number: u64, entries: Entries<'_>) -> Result<(), RecordFault>
        requires { length entries ≤ most_calls }
        // A file with these chapters has this one behind them.
        ensures records { (roster : Option Roster) (layout : List ℕ) (start : Option (List ℕ)) (chapters : List (List Entry))
            → Records roster layout start (W.contents self.old.writer.inner) self.old.hasher
            self.old.chapters self.old.calls chapters
            → OnOk result (Records roster layout start (W.contents self.new.writer.inner) self.new.hasher
            self.new.chapters self.new.calls (chapters ++ entries.entry ∷ [])) }
        // Otherwise it has a front of it, or nothing.
        ensures front { (roster : Option Roster) (layout : List ℕ) (start : Option (List ℕ)) (chapters : List (List Entry))
            → Records roster layout start (W.contents self.old.writer.inner) self.old.hasher
            self.old.chapters self.old.calls chapters
            → OnErr result (StopsInside roster layout start (W.contents self.new.writer.inner) chapters) }
        ensures ok { OnOk result ((self.old.stopped ≡ false) × (self.new.stopped ≡ false)
            × (number ≡ self.old.chapters)) }
        ensures err { OnErr result ((self.new.stopped ≡ true) × (self.new.calls ≡ self.old.calls)
            × (self.new.chapters ≡ self.old.chapters)) }
        ensures stopped { self.old.stopped ≡ true
            → (result ≡ Err RecordFault.Stopped) × (self.new ≡ self.old) }
        ensures write { result ≡ Err RecordFault.Write
            → self.new.writer.failures ≡ self.old.writer.failures + 1 }
        ensures unfailed { result ≢ Err RecordFault.Write
            → self.new.writer.failures ≡ self.old.writer.failures }
        ensures unwritten { (result ≡ Err RecordFault.Memory) ⊎ (result ≡ Err RecordFault.Number)
            → self.new.writer ≡ self.old.writer }
        ensures number { result ≡ Err RecordFault.Number
            → (number ≢ self.old.chapters) ⊎ (last_chapter < number) }
        ensures misnumbered { self.old.stopped ≡ false
            → (number ≢ self.old.chapters) ⊎ (last_chapter < number) → result ≡ Err RecordFault.Number }
        ensures since { result ≡ Err RecordFault.Stopped → self.old.stopped ≡ true }
    {
        if self.stopped {
            return Err(RecordFault::Stopped);
        }
        self.stopped = true;
        if number != self.chapters {
            return Err(RecordFault::Number);
        }
        if number > LAST_CHAPTER {
            return Err(RecordFault::Number);
        }
        let count = entries.len();
        seal(
            &mut self.hasher,
            &mut self.chapter,
            number,
            count,
            entries.bytes(),
        )?;
        self.writer.write_all(&self.chapter)?;
        self.calls += count as u64;
        self.chapters += 1;
        self.stopped = false;
        Ok(())
    }

    /// Writes the end mark behind the last chapter, in one piece. Nothing more is written then, whether it was or not: each further call
    /// is `Stopped`.
    pub fn end(&mut self) -> Result<(), RecordFault>
        // A file with these chapters has the end mark behind them.
        ensures ends { (roster : Option Roster) (layout : List ℕ) (start : Option (List ℕ)) (chapters : List (List Entry))
            → Records roster layout start (W.contents self.old.writer.inner) self.old.hasher
            self.old.chapters self.old.calls chapters
            → OnOk result (EndsInOrder roster layout start (W.contents self.new.writer.inner) chapters) }
        // Otherwise it has a front of it, or nothing.
        ensures front { (roster : Option Roster) (layout : List ℕ) (start : Option (List ℕ)) (chapters : List (List Entry))
            → Records roster layout start (W.contents self.old.writer.inner) self.old.hasher
            self.old.chapters self.old.calls chapters
            → OnErr result (StopsInMark roster layout start (W.contents self.new.writer.inner) chapters) }
        ensures ok { OnOk result (self.old.stopped ≡ false) }
        ensures kept { (self.new.stopped ≡ true) × (self.new.calls ≡ self.old.calls)
            × (self.new.chapters ≡ self.old.chapters) }
        ensures stopped { self.old.stopped ≡ true
            → (result ≡ Err RecordFault.Stopped) × (self.new ≡ self.old) }
        ensures write { result ≡ Err RecordFault.Write
            → self.new.writer.failures ≡ self.old.writer.failures + 1 }
        ensures unfailed { result ≢ Err RecordFault.Write
            → self.new.writer.failures ≡ self.old.writer.failures }
        ensures unwritten { result ≡ Err RecordFault.Memory → self.new.writer ≡ self.old.writer }
        ensures unnumbered { result ≢ Err RecordFault.Number }
        ensures since { result ≡ Err RecordFault.Stopped → self.old.stopped ≡ true }
    {
        if !self.stopped {
            self.stopped = true;
            let calls = self.calls.to_le_bytes();
            seal(&mut self.hasher, &mut self.chapter, END_MARK, 0, &calls)?;
            return Ok(self.writer.write_all(&self.chapter)?);
        }
        Err(RecordFault::Stopped)
    }
}

/// Writes the head of a file of this layout and these callers. The hasher holds it then.
fn begin<W: Write>(
    layout: &[u8; 32],
    roster: Roster,
    writer: &mut Watched<W>,
    hasher: &mut Sha256,
    chapter: &mut Vec<u8>,
) -> Result<(), RecordFault>
    requires fresh { Holds256 hasher.old [] }
    requires empty { chapter.old.items ≡ [] }
    ensures written { OnOk result (Appends (W.contents writer.old.inner) (W.contents writer.new.inner) (head (Some roster) layout.now)) }
    ensures held { OnOk result (Holds256 hasher.new (head (Some roster) layout.now)) }
    ensures unfailed { OnOk result (writer.new.failures ≡ writer.old.failures) }
    ensures refused { IfErr result (λ e. (e ≡ RecordFault.Write) ⊎ (e ≡ RecordFault.Memory)) }
    ensures write { result ≡ Err RecordFault.Write → writer.new.failures ≡ writer.old.failures + 1 }
    ensures front { OnErr result (AppendsFront (W.contents writer.old.inner) (W.contents writer.new.inner) (head (Some roster) layout.now)) }
    ensures unwritten { result ≡ Err RecordFault.Memory → writer.new ≡ writer.old }
{
    chapter.extend_from_slice(&MAGIC)?;
    chapter.extend_from_slice(layout)?;
    chapter.extend_from_slice(&roster.bytes())?;
    hasher.update(&*chapter);
    writer.write_all(chapter)?;
    Ok(())
}

/// Puts a chapter, or the end mark, together behind what the hasher holds: its head, its calls and its digest. The hasher
/// holds it too then.
fn seal(
    hasher: &mut Sha256,
    chapter: &mut Vec<u8>,
    number: u64,
    count: usize,
    calls: &[u8],
) -> Result<(), AllocError>
    requires few { count ≤ most_calls }
    requires short { length calls.now ≤ most_call * most_calls }
    ensures { OnOk result ((before : List ℕ) → Holds256 hasher.old before
        → IsSealed number count before calls.now chapter.new.items hasher.new) }
{
    chapter.clear();
    chapter.extend_from_slice(&chapter_head(number, count, calls.len()))?;
    chapter.extend_from_slice(calls)?;
    hasher.update(&*chapter);
    let digest = digest_of(hasher)?;
    hasher.update(&digest);
    chapter.extend_from_slice(&digest)?;
    Ok(())
}
