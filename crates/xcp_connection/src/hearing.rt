//! The part of a connection that hears the tool.
ghost use Rattle.std.specs.Prelude.{◌≡◌, ◌≢◌, ◌⊎◌, ◌<◌, Err};
ghost use Rattle.xcp_framing.specs.CountedCalls.{stream_place};
ghost use Rattle.xcp_framing.specs.Serve.{EndsReader};
ghost use Rattle.xcp_connection.specs.Hearing.{Hears, Passage};

use std::alloc::Global;
use std::io::Read;
use std::marker::PhantomData;
use std::snapshot::Snapshot;
use std::sync::atomic::AtomicBool;
use std::sync::{Mutex, Wait};
use together::Work;
use xcp_framing::{Passages, ServeError, Served, Station, Watched, serve_by};
use xcp_locked::{HasSlave, Name};
use xcp_outlet::{Forward, Put, Replies, ReplyEnd, WaitingEnd};

/// The part of a connection that reads frames, submits their commands and puts the packets of the
/// answers, passage after passage. When it ends, it sets `stop` for the pump.
#[derive(Drop)]
pub struct Hearing<
    'a,
    N: Name,
    T: HasSlave<N>,
    S: Station + Drop,
    I: Read + Drop,
    P: Drop,
    F: Forward + Drop,
> {
    pub lock: &'a Mutex<T>,
    pub station: S,
    pub reader: Watched<I>,
    /// Who knows whether the stream goes on where it has ended, and tells the reader where it stands.
    pub passages: P,
    pub replies: ReplyEnd,
    /// By whom the packets of the answers are written.
    pub forward: F,
    pub stop: &'a AtomicBool,
    pub alloc: Global,
    pub max_cto: u8,
    /// The most reads of one passage.
    pub turns: u32,
    pub of: PhantomData<N>,
}

/// What comes of hearing a tool. The reader was dropped at its end, and contracts alone see how it
/// was then.
#[derive(Drop)]
pub struct Heard<S: Drop, I: Drop> {
    pub station: S,
    pub outcome: Result<Served, ServeError>,
    pub reader: Snapshot<Watched<I>>,
    pub put: Put,
}

impl<
    'a,
    N: Name + Send + Sync,
    T: HasSlave<N> + Send,
    S: Station + Send + Drop,
    I: Read + Send + Drop,
    P: Passages<I> + Send + Drop,
    F: Forward + Send + Drop,
> Work<Heard<S, I>> for Hearing<'a, N, T, S, I, P, F> {
    ghost use Rattle.xcp_connection.specs.Hearing.{HeardFor};

    ghost gives = { λ h d. HeardFor I.remaining S.exchanges S.same P.goes_on h.max_cto h.turns h.reader h.station h.replies d };

    fn run<R: Wait>(self, rt: &R) -> Heard<S, I> {
        let Hearing {
            lock,
            mut station,
            mut reader,
            passages,
            replies,
            forward,
            stop,
            alloc,
            max_cto,
            turns,
            ..
        } = self;
        let mut replies = WaitingEnd::new(rt, replies, forward);
        let outcome = hear(
            rt,
            alloc,
            &mut reader,
            &passages,
            &mut replies,
            &mut station,
            max_cto,
            turns,
        );
        lock.lock(rt).locked().stop(stop);
        let put = replies.into_end().finish(rt);
        Heard {
            station,
            outcome,
            reader: Snapshot::of(&reader),
            put,
        }
    }

    fn leave(self) -> Heard<S, I> {
        let Hearing {
            station,
            reader,
            replies,
            ..
        } = self;
        Heard {
            station,
            outcome: Err(ServeError::Memory),
            reader: Snapshot::of(&reader),
            put: replies.give_up(),
        }
    }
}

/// Answers frames, passage after passage, until the stream ends.
fn hear<S: Station, I: Read, P: Passages<I>, F: Forward + Drop, R: Wait>(
    rt: &R,
    alloc: Global,
    reader: &mut Watched<I>,
    passages: &P,
    replies: &mut WaitingEnd<'_, Replies, F, R>,
    station: &mut S,
    max_cto: u8,
    turns: u32,
) -> Result<Served, ServeError>
    ensures hears { Hears max_cto result
        (stream_place I.remaining reader.old) (stream_place I.remaining reader.new)
        (S.exchanges station.old) (S.exchanges station.new) replies.old.end.put replies.new.end.put }
    ensures ends { EndsReader result (I.remaining reader.new.inner) }
    ensures failed { result ≡ Err ServeError.Read → reader.old.failures < reader.new.failures }
    ensures fine { result ≢ Err ServeError.Read → reader.new.failures ≡ reader.old.failures }
    ensures single { P.goes_on ⊎ Passage I.remaining max_cto turns result reader.old reader.new
        (S.exchanges station.old) (S.exchanges station.new) replies.old.end.put replies.new.end.put }
    ensures stays { S.same station.old station.new }
    ensures outlet { replies.new.end.outlet ≡ replies.old.end.outlet }
    ensures side { replies.new.end.side ≡ replies.old.end.side }
{
    for _passage in rt.forever() {
        let outcome = hear_passage(alloc, reader, passages, replies, station, max_cto, turns);
        if outcome.is_err() {
            return outcome;
        }
        if !reader.begin_again(passages) {
            return outcome;
        }
    }
    unreachable!()
}

/// Answers the frames of one passage.
fn hear_passage<S: Station, I: Read, P: Passages<I>, F: Forward + Drop, R: Wait>(
    alloc: Global,
    reader: &mut Watched<I>,
    passages: &P,
    replies: &mut WaitingEnd<'_, Replies, F, R>,
    station: &mut S,
    max_cto: u8,
    turns: u32,
) -> Result<Served, ServeError>
    ensures passage { Passage I.remaining max_cto turns result reader.old reader.new
        (S.exchanges station.old) (S.exchanges station.new) replies.old.end.put replies.new.end.put }
    ensures ends { EndsReader result (I.remaining reader.new.inner) }
    ensures stays { S.same station.old station.new }
    ensures outlet { replies.new.end.outlet ≡ replies.old.end.outlet }
    ensures side { replies.new.end.side ≡ replies.old.end.side }
{
    serve_by(alloc, reader, passages, replies, station, max_cto, turns)
}
