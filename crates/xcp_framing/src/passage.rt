//! The packets of a stream, answered one after another, whatever answers them.
ghost use Rattle.std.specs.Prelude.{◌≡◌, ◌<◌, ◌≤◌, ◌+◌, ◌*◌, ◌^◌, ◌++◌, [], ◌∷◌, ℕ, List, Result, OnOk, IfOk, IfErr, length, Ok, Err};
ghost use Rattle.xcp_framing.specs.Frames.{frames, rest};
ghost use Rattle.xcp_framing.specs.CountedCalls.{Counted, EachRead, Gives, is_failed_read, stream_place};
ghost use Rattle.xcp_framing.specs.Serve.{EndsReader, IsReadOf, ReadsWithin};
ghost use Rattle.xcp_framing.specs.ServeParts.{IsInterruption};
ghost use Rattle.std.specs.Io.{ReadsAtMost};
ghost use Rattle.std.specs.Io.KnownBytes.{ReadConsumes};
ghost use Rattle.xcp_framing.specs.private.KnownPlace.{KnowsPlace};
ghost use Rattle.xcp_framing.specs.private.MostPackets.{most_packets};
ghost use Rattle.xcp_framing.specs.private.GrowingOutput.{EndsPiece};
ghost use Rattle.xcp_framing.specs.private.AnsweredStream.{JoinsHandingOn, JoinsPackets, AnswerStand, Streams, outcome};

use crate::{Brought, Framer, Passages, ServeError, Served, Watched};
use std::io::{self, Read};
use xcp_packet::Packet;

/// The most bytes that one read takes.
const MOST_READ: usize = 4096;

/// A way to answer packets with a station `S`. What it keeps from packet to packet is a `K`, and an
/// `O` takes the packets of the answers.
pub(crate) trait Answerer<S, K, O> {
    ghost use Rattle.xcp_framing.specs.declared.serving.ServeError.{ServeError};

    /// How many packets were sent.
    ghost sent_of: { K → ℕ };

    /// Nothing is held back.
    ghost rests: { K → Type 0 };

    /// What answering packets does, one behind another, and the interruption that ended it.
    ghost answers: { Result (Unit {0}) ServeError → List (List ℕ) → AnswerStand S K O → AnswerStand S K O → Type 0 };

    /// What handing on does.
    ghost hands: { Result (Unit {0}) ServeError → K → O → K → O → Type 0 };

    /// Answers a command packet that is lent. The packets of the answer may be held back.
    fn answer(
        command: &Packet,
        station: &mut S,
        state: &mut K,
        out: &mut O,
    ) -> Result<(), ServeError>
        requires { sent_of state.old + most_packets < 2 ^ 64 }
        ensures answers { answers result (command.now.items ∷ [])
            (record { station = station.old; state = state.old; out = out.old })
            (record { station = station.new; state = state.new; out = out.new }) }
        ensures stops { IfErr result IsInterruption }
        ensures bound { OnOk result (sent_of state.new ≤ sent_of state.old + most_packets) };

    /// Hands on what is held back.
    fn hand_on(state: &mut K, out: &mut O) -> Result<(), ServeError>
        ensures hands { hands result state.old out.old state.new out.new }
        ensures rests { rests state.new }
        ensures stops { IfErr result IsInterruption }
        ensures sent { sent_of state.new ≡ sent_of state.old };

    /// How many packets were sent.
    fn sent(state: &K) -> u64
        ensures { result ≡ sent_of state.now };
}

/// Answers the packets that are whole with the bytes of one read.
fn answer_piece<A: Answerer<S, K, O>, S, K, O>(
    framer: &mut Framer,
    piece: &[u8],
    command: &mut Packet,
    station: &mut S,
    state: &mut K,
    out: &mut O,
    count: &mut u64,
) -> Result<(), ServeError>
    requires sent { A.sent_of state.old + most_packets * length piece.now < 2 ^ 64 }
    requires count { count.old + length piece.now < 2 ^ 64 }
    requires packets { JoinsPackets A.answers }
    ensures answered { A.answers (outcome result)
        (frames framer.old.max_cto (framer.old.held ++ piece.now))
        (record { station = station.old; state = state.old; out = out.old })
        (record { station = station.new; state = state.new; out = out.new }) }
    ensures ends { EndsPiece framer.old.max_cto result framer.new.held
        (rest framer.old.max_cto (framer.old.held ++ piece.now)) }
    ensures counts { OnOk result (count.new
        ≡ count.old + length (frames framer.old.max_cto (framer.old.held ++ piece.now))) }
    ensures bound { OnOk result
        (A.sent_of state.new ≤ A.sent_of state.old + most_packets * length piece.now) }
    ensures few { OnOk result (count.new ≤ count.old + length piece.now) }
    ensures kept { framer.new.max_cto ≡ framer.old.max_cto }
{
    let mut used = 0;
    loop {
        let cut = framer.feed_into(&piece[used..], command);
        used += cut.used;
        match cut.brought {
            Brought::More => return Ok(()),
            Brought::BadLength(length) => return Err(ServeError::BadLength(length)),
            Brought::Packet => {
                *count += 1;
                A::answer(command, station, state, out)?;
            }
        }
    }
}

/// One read of a stream, by a reader that was told whether the read begins inside a frame: there, of what the framer holds, bytes are
/// still to come.
fn read_there<R: Read, P: Passages<R>>(
    reader: &mut Watched<R>,
    _framer: &Framer,
    buffer: &mut [u8],
) -> io::Result<usize>
    requires knows { KnowsPlace P.Passages.knows reader.old.inner _framer.now.held }
    ensures bound { ReadsAtMost result buffer.new }
    ensures bytes { ReadConsumes
        (R.remaining reader.old.inner) (R.remaining reader.new.inner) result buffer.new }
    ensures counted { Counted reader.old reader.new (is_failed_read result) }
    ensures gives { Gives result buffer.new reader.old reader.new }
    ensures asked { reader.new.asked ≡ reader.old.asked ++ length buffer.old ∷ [] }
{
    reader.read(buffer)
}

/// The next read of a stream, whose reader is told where that begins.
fn read_next<R: Read, P: Passages<R>>(
    reader: &mut Watched<R>,
    passages: &P,
    framer: &Framer,
    buffer: &mut [u8],
) -> io::Result<usize>
    ensures bound { ReadsAtMost result buffer.new }
    ensures bytes { ReadConsumes
        (R.remaining reader.old.inner) (R.remaining reader.new.inner) result buffer.new }
    ensures counted { Counted reader.old reader.new (is_failed_read result) }
    ensures gives { Gives result buffer.new reader.old reader.new }
    ensures asked { reader.new.asked ≡ reader.old.asked ++ length buffer.old ∷ [] }
{
    reader.stand(passages, framer.inside());
    read_there::<R, P>(reader, framer, buffer)
}

/// Answers a stream of frames, packet by packet, until the reader ends. Each turn is one read into
/// the buffer that is lent, of at most `turns` turns. What is held back is handed on before the next
/// read and before any return.
pub(crate) fn answer_stream<A: Answerer<S, K, O>, S, K, O, R: Read, P: Passages<R>>(
    reader: &mut Watched<R>,
    passages: &P,
    buffer: &mut [u8],
    station: &mut S,
    state: &mut K,
    out: &mut O,
    max_cto: u8,
    turns: u32,
) -> Result<Served, ServeError>
    requires some { 0 < length buffer.old }
    requires most { length buffer.old ≤ MOST_READ }
    requires sent { A.sent_of state.old ≡ 0 }
    requires rests { A.rests state.old }
    requires packets { JoinsPackets A.answers }
    requires handing_on { JoinsHandingOn A.answers A.hands }
    ensures streams { Streams A.answers max_cto result
        (stream_place R.remaining reader.old) (stream_place R.remaining reader.new)
        (record { station = station.old; state = state.old; out = out.old })
        (record { station = station.new; state = state.new; out = out.new }) }
    ensures rests { A.rests state.new }
    ensures sent { IfOk result (λ served. served.sent ≡ A.sent_of state.new) }
    ensures ends { EndsReader result (R.remaining reader.new.inner) }
    ensures reads { ReadsWithin turns result reader.old reader.new }
    ensures sizes { EachRead (IsReadOf (length buffer.old)) reader.old reader.new }
{
    let mut framer = Framer::new(max_cto);
    let mut command = Packet::new();
    let mut count = 0;
    for _turn in 0..turns {
        let Ok(length) = read_next(reader, passages, &framer, buffer) else {
            return Err(ServeError::Read);
        };
        if length == 0 {
            if framer.inside() {
                return Err(ServeError::Truncated);
            }
            return Ok(Served {
                frames: count,
                sent: A::sent(state),
            });
        }
        let answered = answer_piece::<A, S, K, O>(
            &mut framer,
            &buffer[..length],
            &mut command,
            station,
            state,
            out,
            &mut count,
        );
        A::hand_on(state, out)?;
        answered?;
    }
    Err(ServeError::TurnsSpent)
}
