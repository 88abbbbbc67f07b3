//! A script run through a desk.
ghost use Rattle.std.specs.Prelude.{◌≡◌, ◌≢◌, ◌<◌, ◌≤◌, ◌+◌, ◌^◌, ◌++◌, [], ℕ, List, Option, OnOk, OnErr, IfErr, ◌⊎◌};
ghost use Rattle.std.specs.Io.KnownBytes.{Appends, IsAtEnd};
ghost use Rattle.xcp_slave.specs.Run.{Run, requests_of};
ghost use Rattle.xcp_slave.specs.SlaveValue.{layout_of, opening};
ghost use mathlib.Core.List.{IsPrefix};
ghost use Rattle.xcp_framing.specs.CountedCalls.{EachRead};
ghost use Rattle.xcp_script.specs.private.LineReading.{OfRead};
ghost use Rattle.xcp_script.specs.Replay.{EndsShort, IsTurn, OfLines, Replayed, TellsAnswers, UsesStreams, asked};
ghost use Rattle.xcp_script.specs.AnswerText.{answers_text};

use crate::ReplayError;
use crate::script::{LineError, Pending};
use std::alloc::Global;
use std::io::{Read, Write};
use xcp_framing::{Desk, Watched};

/// The most bytes of one read.
const PIECE_BYTES: usize = 16384;

/// Writes the texts of the answers so far, and empties the list.
fn write_texts<W: Write>(writer: &mut Watched<W>, texts: &mut Vec<u8>) -> Result<(), ReplayError>
    ensures told { (start : Option (List ℕ)) (before whole : List ℕ)
        → Appends start (W.contents writer.old.inner) before → before ++ texts.old.items ≡ whole
        → TellsAnswers result start (W.contents writer.new.inner) whole }
    ensures unfailed { OnOk result (writer.new.failures ≡ writer.old.failures) }
    ensures write { OnErr result (writer.old.failures < writer.new.failures) }
    ensures only { IfErr result (λ e. e ≡ ReplayError.Write) }
    ensures empty { OnOk result (texts.new.items ≡ []) }
{
    let Ok(()) = writer.write_all(texts) else {
        return Err(ReplayError::Write);
    };
    texts.clear();
    Ok(())
}

/// Writes out the answers of some lines, by what became of these: at a faulty line, which is the
/// next after `count` lines, the answers before it; none where an allocation fails.
fn write_out<W: Write>(
    writer: &mut Watched<W>,
    texts: &mut Vec<u8>,
    outcome: Result<(), LineError>,
    count: u64,
) -> Result<(), ReplayError>
    requires { count + 1 < 2 ^ 64 }
    ensures ok { OnOk result (outcome ≡ Ok tt) }
    ensures line { (k : ℕ) → result ≡ Err (ReplayError.Line k)
        → (outcome ≡ Err LineError.Faulty) × (k ≡ count + 1) }
    ensures memory { result ≡ Err ReplayError.Memory → outcome ≡ Err LineError.Memory }
    ensures told { (start : Option (List ℕ)) (before whole : List ℕ)
        → Appends start (W.contents writer.old.inner) before
        → (outcome ≢ Err LineError.Memory → before ++ texts.old.items ≡ whole)
        → IsPrefix before whole
        → TellsAnswers result start (W.contents writer.new.inner) whole }
    ensures unfailed { result ≢ Err ReplayError.Write → writer.new.failures ≡ writer.old.failures }
    ensures write { result ≡ Err ReplayError.Write → writer.old.failures < writer.new.failures }
    ensures no_read { result ≢ Err ReplayError.Read }
    ensures empty { OnOk result (texts.new.items ≡ []) }
{
    match outcome {
        Ok(()) => write_texts(writer, texts),
        Err(LineError::Faulty) => {
            write_texts(writer, texts)?;
            Err(ReplayError::Line(count + 1))
        }
        Err(LineError::Memory) => Err(ReplayError::Memory),
    }
}

/// Answers a script of at most so many reads: `replay_on`, in the words of the lines as they are
/// read. No line has begun, and no text waits to be written.
fn run_script<R: Read, W: Write>(
    desk: &mut Desk,
    pending: &mut Pending,
    texts: &mut Vec<u8>,
    reader: &mut Watched<R>,
    writer: &mut Watched<W>,
    turns: u32,
) -> Result<u64, ReplayError>
    requires { (desk.old.exchanges ≡ []) × (pending.old.liner.held.items ≡ [])
        × (pending.old.count ≡ 0) × (texts.old.items ≡ []) }
    ensures replayed { OfRead (R.remaining reader.old.inner) (λ lines.
        Replayed (layout_of desk.old.slave).max_cto lines result (requests_of desk.new.exchanges)) }
    ensures told { TellsAnswers result
        (W.contents writer.old.inner) (W.contents writer.new.inner) (answers_text desk.new.exchanges) }
    ensures ended { OnOk result (IsAtEnd (R.remaining reader.new.inner)) }
    ensures streams { UsesStreams turns result reader.old reader.new writer.old writer.new }
    ensures sizes { EachRead IsTurn reader.old reader.new }
    ensures memory { result ≡ Err ReplayError.Memory
        → OfRead (R.remaining reader.old.inner) (λ lines.
        EndsShort (asked (layout_of desk.old.slave).max_cto lines) desk.new.exchanges
        (W.contents writer.old.inner) (W.contents writer.new.inner)) }
    ensures layout { layout_of desk.new.slave ≡ layout_of desk.old.slave }
{
    let max_cto = desk.max_cto();
    let mut buffer = [0; PIECE_BYTES];
    for _ in 0..turns {
        let Ok(length) = reader.read(&mut buffer) else {
            return Err(ReplayError::Read);
        };
        if length == 0 {
            let last = pending.finish(desk, max_cto, texts);
            write_out(writer, texts, last, pending.count)?;
            return Ok(desk.trace().len() as u64);
        }
        let fed = pending.feed(desk, max_cto, &buffer[..length], texts);
        write_out(writer, texts, fed, pending.count)?;
    }
    Err(ReplayError::Read)
}

/// Reads a script and answers it line by line: each request goes to the desk, and the line of its
/// answer to the writer. There is one read a turn, of at most 16,384 bytes; the answers of all
/// lines that it made whole are written before the next. What stands behind the last line feed is
/// a line too.
///
/// `Ok` is the number of requests, where the script ended and no line was faulty. Otherwise the
/// first that comes of: `Line`, of the first faulty line, when the answers of the lines before it
/// have been written; `Read`, also when the turns are spent and the script has not ended; `Write`;
/// `Memory`, where the answers of the last lines may not have been written.
pub fn replay_on<R: Read, W: Write>(
    alloc: Global,
    desk: &mut Desk,
    reader: &mut Watched<R>,
    writer: &mut Watched<W>,
    turns: u32,
) -> Result<u64, ReplayError>
    requires { desk.old.exchanges ≡ [] }
    // The requests are those of the lines before the first faulty one, and the desk answered them.
    ensures replayed { OfLines (R.remaining reader.old.inner) (λ lines.
        Replayed (layout_of desk.old.slave).max_cto lines result (requests_of desk.new.exchanges)) }
    ensures run { Run (opening (layout_of desk.old.slave)) desk.new.exchanges desk.new.slave }
    ensures told { TellsAnswers result
        (W.contents writer.old.inner) (W.contents writer.new.inner) (answers_text desk.new.exchanges) }
    ensures ended { OnOk result (IsAtEnd (R.remaining reader.new.inner)) }

    // A fault of a stream comes only where that stream failed, or the turns are spent.
    ensures streams { UsesStreams turns result reader.old reader.new writer.old writer.new }

    // Of how many bytes each read was.
    ensures sizes { EachRead IsTurn reader.old reader.new }

    // Memory comes only at a request of the script: the desk did not take it, or there is no text
    // of its answer.
    ensures memory { result ≡ Err ReplayError.Memory
        → OfLines (R.remaining reader.old.inner) (λ lines.
        EndsShort (asked (layout_of desk.old.slave).max_cto lines) desk.new.exchanges
        (W.contents writer.old.inner) (W.contents writer.new.inner)) }
{
    let mut pending = Pending::new();
    let mut texts = Vec::new(alloc);
    let result = run_script(desk, &mut pending, &mut texts, reader, writer, turns);
    desk.known();
    result
}
