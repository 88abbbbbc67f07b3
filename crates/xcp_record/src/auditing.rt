//! An audit of a journal's file.
ghost use Rattle.std.specs.Prelude.{◌≡◌, ◌≢◌, ◌<◌, ◌≤◌, ◌+◌, ◌^◌, ◌++◌, ℕ, suc, List, Option, [], Err, MatchBool, OnOk, IfErr, IfSome, drop, false, length, map, take, true};
ghost use Rattle.std.specs.Io.KnownBytes.{Consumes, IsAtEnd};
ghost use Rattle.sha2.specs.Hashers.{Holds256};
ghost use Rattle.xcp_slave.specs.SlaveValue.{SlaveValue};
ghost use Rattle.xcp_slave.specs.Step.{Answers};
ghost use Rattle.xcp_slave.specs.Run.{Run};
ghost use Rattle.xcp_record.specs.Audit.{Audits, Differs, Witnesses, HoldsRun, SaysSettled};
ghost use Rattle.xcp_trace.specs.declared.journal.Entry.{Entry};
ghost use Rattle.xcp_trace.specs.EntrySpelling.{entry_in};
ghost use Rattle.xcp_record.specs.FileFormat.{most_calls};
ghost use Rattle.xcp_record.specs.declared.ending.FileEnding.{FileEnding};
ghost use Rattle.xcp_record.specs.declared.roster.Roster.{Roster};
ghost use Rattle.xcp_record.specs.private.Calls.{SpellsCalls};
ghost use Rattle.xcp_record.specs.private.ReadChapter.{ReadsNextPart, fault_after};
ghost use Rattle.xcp_record.specs.private.ReadHead.{ReadsHead, ReadsRoster};
ghost use Rattle.xcp_record.specs.JournalFile.{exchanges};

use crate::chapter::{ChapterFault, Parts};
use crate::ending::{FileEnding, Settled};
use crate::fault::AuditFault;
use crate::filling::fill;
use crate::head::{FIRST_MAGIC, HEAD_BYTES, MAGIC, ROSTER_BYTES, same};
use crate::roster::Roster;
use crate::witness::Witness;
use sha2::{Digest, Sha256};
use std::alloc::Global;
use std::io::Read;
use xcp_framing::Watched;
use xcp_slave::{Slave, each_request_has_one_answer};
use xcp_trace::{Entry, LentEntry};

/// What stands behind the chapters that were read.
#[derive(Clone, Copy, Debug, PartialEq, Eq)]
enum Part {
    /// A chapter of so many calls.
    Chapter(u64),
    /// The end of the file.
    End(FileEnding),
}

/// The most chapters of a journal.
const MOST_CHAPTERS: u64 = 4_294_967_296;

/// Audits the file of a journal: reads it to its end, and executes each request on the slave, which has
/// to be at its opening. The file is of the layout whose file has this SHA-256. The witness is told each
/// call before it is executed, with the roster of the file's head, or none where that is of version 1.
///
/// `Ok` is the number of calls, where the file is whole and each call has the slave's answer, and whether the end mark ends it. A
/// chapter's digest is looked at before its calls. There is room for one chapter: at most 34,013,184 bytes.
pub fn audit<R: Read, T: Witness>(
    alloc: Global,
    slave: Slave,
    layout: &[u8; 32],
    reader: &mut Watched<R>,
    witness: &mut T,
) -> Result<Settled, AuditFault>
    ensures audits { (read : List ℕ)
        × Consumes (R.remaining reader.old.inner) (R.remaining reader.new.inner) read
        × (roster : Option Roster) × Audits roster layout.now slave (IsAtEnd (R.remaining reader.new.inner)) read result
        × (calls : List Entry)
        × T.hears witness.old roster calls witness.new × Witnesses roster layout.now read result calls }
    ensures unfailed { result ≢ Err AuditFault.Read → reader.new.failures ≡ reader.old.failures }
    ensures failed { result ≡ Err AuditFault.Read → reader.old.failures < reader.new.failures }
    // Of a file that holds a run of the slave it says nothing else.
    ensures settles { IfSome (R.remaining reader.old.inner) (λ all. (roster : Option Roster) (n : ℕ) (ending : FileEnding)
        → HoldsRun roster layout.now slave all n ending → SaysSettled n ending result) }
{
    each_request_has_one_answer();
    let mut slave = slave;
    let mut parts = Parts::new(alloc);
    audit_chapters(&mut slave, &mut parts, layout, reader, witness)
}

/// Audits the file of a journal, as `audit` does. Each chapter is read into the same parts.
fn audit_chapters<R: Read, T: Witness>(
    slave: &mut Slave,
    parts: &mut Parts,
    layout: &[u8; 32],
    reader: &mut Watched<R>,
    witness: &mut T,
) -> Result<Settled, AuditFault>
    ensures audits { (read : List ℕ)
        × Consumes (R.remaining reader.old.inner) (R.remaining reader.new.inner) read
        × (roster : Option Roster) × Audits roster layout.now slave.old (IsAtEnd (R.remaining reader.new.inner)) read result
        × (calls : List Entry)
        × T.hears witness.old roster calls witness.new × Witnesses roster layout.now read result calls }
    ensures unfailed { result ≢ Err AuditFault.Read → reader.new.failures ≡ reader.old.failures }
    ensures failed { result ≡ Err AuditFault.Read → reader.old.failures < reader.new.failures }
{
    let mut hasher = Sha256::new();
    let roster = match read_head(layout, reader, &mut hasher) {
        Ok(roster) => roster,
        Err(fault) => return Err(fault),
    };
    let mut calls = 0;
    for number in 0..MOST_CHAPTERS + 1 {
        match next_part(number, calls, reader, &mut hasher, parts) {
            Ok(Part::End(ending)) => return Ok(Settled { calls, ending }),
            Ok(Part::Chapter(count)) => {
                if let Err(place) = check_calls(slave, roster, &parts.calls, calls, witness) {
                    return Err(AuditFault::Mismatch(place));
                }
                calls += count;
            }
            Err(fault) => return Err(fault_after(calls, fault)),
        }
    }
    Err(AuditFault::TooLong(calls))
}

/// Why an audit ends after so many calls.
fn fault_after(calls: u64, fault: ChapterFault) -> AuditFault
    ensures { result ≡ fault_after calls fault }
{
    match fault {
        ChapterFault::Read => AuditFault::Read,
        ChapterFault::Memory => AuditFault::Memory,
        ChapterFault::Cut => AuditFault::Cut(calls),
        ChapterFault::Altered => AuditFault::Altered(calls),
    }
}

/// Reads the head of a file of this layout, and answers its roster, if it has one. The hasher holds the head then.
fn read_head<R: Read>(
    layout: &[u8; 32],
    reader: &mut Watched<R>,
    hasher: &mut Sha256,
) -> Result<Option<Roster>, AuditFault>
    ensures reads { Holds256 hasher.old [] → (read : List ℕ)
        × Consumes (R.remaining reader.old.inner) (R.remaining reader.new.inner) read
        × ReadsHead layout.now (IsAtEnd (R.remaining reader.new.inner)) read hasher.new result }
    ensures unfailed { result ≢ Err AuditFault.Read → reader.new.failures ≡ reader.old.failures }
    ensures failed { result ≡ Err AuditFault.Read → reader.old.failures < reader.new.failures }
{
    let mut head = [0; HEAD_BYTES];
    let Ok(got) = fill(reader, &mut head) else {
        return Err(AuditFault::Read);
    };
    if got < HEAD_BYTES {
        return Err(AuditFault::Foreign);
    }
    hasher.update(&head);
    let roster = match read_roster(&head, reader, hasher) {
        Ok(roster) => roster,
        Err(fault) => return Err(fault),
    };
    if !names(&head, layout) {
        return Err(AuditFault::OtherLayout);
    }
    Ok(roster)
}

/// Reads what a head has behind these bytes: nothing, or a roster. The hasher holds it too then.
fn read_roster<R: Read>(
    head: &[u8; HEAD_BYTES],
    reader: &mut Watched<R>,
    hasher: &mut Sha256,
) -> Result<Option<Roster>, AuditFault>
    ensures reads { (before : List ℕ) → Holds256 hasher.old before → (read : List ℕ)
        × Consumes (R.remaining reader.old.inner) (R.remaining reader.new.inner) read
        × ReadsRoster head.now (IsAtEnd (R.remaining reader.new.inner)) read result
        × OnOk result (Holds256 hasher.new (before ++ read)) }
    ensures unfailed { result ≢ Err AuditFault.Read → reader.new.failures ≡ reader.old.failures }
    ensures failed { result ≡ Err AuditFault.Read → reader.old.failures < reader.new.failures }
{
    if has_magic(head, &FIRST_MAGIC) {
        return Ok(None);
    }
    if !has_magic(head, &MAGIC) {
        return Err(AuditFault::Foreign);
    }
    let mut bytes = [0; ROSTER_BYTES];
    let Ok(got) = fill(reader, &mut bytes) else {
        return Err(AuditFault::Read);
    };
    if got < ROSTER_BYTES {
        return Err(AuditFault::Foreign);
    }
    hasher.update(&bytes);
    Ok(Some(Roster {
        tools: bytes[0],
        tasks: bytes[1],
        pumps: bytes[2],
        clocks: bytes[3],
    }))
}

/// Whether a file's head begins with this.
fn has_magic(bytes: &[u8; HEAD_BYTES], magic: &[u8; 6]) -> bool
    ensures { MatchBool result (take 6 bytes.now ≡ magic.now) (take 6 bytes.now ≢ magic.now) }
{
    same(&bytes[..6], magic)
}

/// Whether a file's head names this layout.
fn names(bytes: &[u8; HEAD_BYTES], layout: &[u8; 32]) -> bool
    ensures { MatchBool result (drop 6 bytes.now ≡ layout.now) (drop 6 bytes.now ≢ layout.now) }
{
    let (_, named) = bytes.split_at(MAGIC.len());
    same(named, layout)
}

/// The next part behind so many chapters and calls, which are all that the hasher holds.
fn next_part<R: Read>(
    number: u64,
    calls: u64,
    reader: &mut Watched<R>,
    hasher: &mut Sha256,
    parts: &mut Parts,
) -> Result<Part, ChapterFault>
    ensures reads { (before : List ℕ) → Holds256 hasher.old before → (read : List ℕ)
        × Consumes (R.remaining reader.old.inner) (R.remaining reader.new.inner) read
        × ReadsNextPart number calls before (IsAtEnd (R.remaining reader.new.inner)) read parts.new.calls.items hasher.new result }
    ensures unfailed { result ≢ Err ChapterFault.Read → reader.new.failures ≡ reader.old.failures }
    ensures failed { result ≡ Err ChapterFault.Read → reader.old.failures < reader.new.failures }
{
    let there = match parts.read(reader) {
        Ok(there) => there,
        Err(fault) => return Err(fault),
    };
    if !there {
        return Ok(Part::End(FileEnding::Open));
    }
    if parts.begin_a_mark() {
        return match parts.end_a_file(calls, reader, hasher) {
            Ok(()) => Ok(Part::End(FileEnding::Ended)),
            Err(fault) => Err(fault),
        };
    }
    match parts.check(number, hasher) {
        Ok(count) => Ok(Part::Chapter(count)),
        Err(fault) => Err(fault),
    }
}

/// Executes the requests of calls on the slave, and tells them, with the file's roster. The error is the first that the slave
/// answers otherwise, where so many calls stand before these.
fn check_calls<T: Witness>(
    slave: &mut Slave,
    roster: Option<Roster>,
    bytes: &[u8],
    before: u64,
    witness: &mut T,
) -> Result<(), u64>
    requires calls { (strings : List (List ℕ)) × SpellsCalls bytes.now strings × (length strings ≤ most_calls) }
    requires before { before < 2 ^ 62 }
    ensures ok { (strings : List (List ℕ)) → SpellsCalls bytes.now strings
        → OnOk result (Run slave.old (exchanges (map entry_in strings)) slave.new) }
    ensures err { (strings : List (List ℕ)) → SpellsCalls bytes.now strings
        → IfErr result (λ place. (i : ℕ) × (place ≡ before + i)
        × Differs slave.old (map entry_in strings) i) }
    ensures told { (strings : List (List ℕ)) → SpellsCalls bytes.now strings
        → OnOk result (T.hears witness.old roster (map entry_in strings) witness.new) }
    ensures told_some { (strings : List (List ℕ)) → SpellsCalls bytes.now strings
        → IfErr result (λ place. (i : ℕ) × (place ≡ before + i)
        × T.hears witness.old roster (take (suc i) (map entry_in strings)) witness.new) }
{
    let mut left = bytes;
    let mut place = before;
    while !left.is_empty() {
        let Some((lent, more)) = LentEntry::first(left) else {
            unreachable!()
        };
        let call = owned(&lent);
        witness.told(roster, &call);
        if !answers(slave, &call) {
            return Err(place);
        }
        left = more;
        place += 1;
    }
    Ok(())
}

/// The call that stands there.
fn owned(call: &LentEntry<'_>) -> Entry
    ensures { result ≡ call.now }
{
    Entry {
        caller: call.caller(),
        exchange: call.exchange(),
    }
}

/// Whether the slave answers the call's request as the call says. The request is executed.
fn answers(slave: &mut Slave, call: &Entry) -> bool
    ensures yes { result ≡ true → Answers slave.old call.now.exchange.request call.now.exchange.answer slave.new }
    ensures no { result ≡ false → (w : SlaveValue) → Answers slave.old call.now.exchange.request call.now.exchange.answer w → ⊥ }
{
    each_request_has_one_answer();
    let answer = slave.submit(&call.exchange.request);
    answer.same(&call.exchange.answer)
}
