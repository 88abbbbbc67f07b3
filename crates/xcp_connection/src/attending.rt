//! One reader and writer, served until the connection ends.
ghost use Rattle.std.specs.Prelude.{◌≡◌, ℕ, [], IfErr, IfOk, false, true};
ghost use Rattle.xcp_framing.specs.CountedCalls.{stream_place};
ghost use Rattle.xcp_connection.specs.Connections.{ServesConnection};

use crate::closing::{Closed, close};
use crate::connection::{Limits, connect};
use crate::sending::finish;
use std::alloc::Global;
use std::io::{Read, Write};
use std::marker::Brand;
use std::snapshot::Snapshot;
use std::sync::atomic::{AtomicBool, Ordering};
use std::sync::{Mutex, Wait};
use std::thread::Threads;
use together::run_beside;
use xcp_framing::{Passages, ServeError, Served, Station, Watched};
use xcp_locked::{HasSlave, Name};
use xcp_outlet::{DataEnd, Dispatch, LineName, ReplyEnd, SendEnd, outlet};

/// What comes of a connection: its stations, and how it ended, which is the fault of its reading, else of its pump, else Write where
/// its sender has one. Reader and writer were dropped, which closes the connection, and contracts alone see how they were then.
#[derive(Drop)]
pub struct Attended<S: Drop, I: Drop, O: Drop> {
    pub tool: S,
    pub pump: S,
    pub outcome: Result<Served, ServeError>,
    pub reader: Snapshot<Watched<I>>,
    pub writer: Snapshot<Watched<O>>,
}

/// Serves one reader and writer by frames, until the connection ends: the thread that calls hears the tool, and one more pumps. Each writes
/// what it has put, under a lock that both share, so that no third has to be woken for it. The frames that one write takes have at most
/// `write_size` bytes, where one alone doesn't have more.
/// The stations come back. Where there is no memory nothing was done, and where a thread is refused the outcome is `Memory`.
pub fn attend<
    N: Name + Send + Sync,
    T: HasSlave<N> + Send,
    S: Station + Send + Drop,
    I: Read + Send + Drop,
    P: Passages<I> + Send + Drop,
    O: Write + Send + Drop,
    R: Threads + Wait + Sync,
>(
    rt: &R,
    alloc: Global,
    lock: &Mutex<T>,
    stop: &AtomicBool,
    stream: (Watched<I>, Watched<O>),
    tool: S,
    pump: S,
    passages: P,
    limits: Limits,
    write_size: usize,
) -> Result<Attended<S, I, O>, (S, S)>
    ensures serves { IfOk result (λ d. ServesConnection limits.max_cto d.outcome
        (stream_place I.remaining stream.0) (stream_place I.remaining d.reader.value)
        (O.contents stream.1.inner) (O.contents d.writer.value.inner)
        (S.exchanges tool) (S.exchanges d.tool) (S.exchanges pump) (S.exchanges d.pump)) }
    ensures stays { IfOk result (λ d. S.same tool d.tool × S.same pump d.pump) }
    ensures err { IfErr result (λ e. e ≡ (tool, pump)) }
{
    stop.store(false, Ordering::SeqCst);
    let Ok(ends) = outlet(alloc) else {
        return Err((tool, pump));
    };
    Ok(attend_named::<N, Brand, T, S, I, P, O, R>(
        rt, alloc, lock, stop, stream, ends, tool, pump, passages, limits, write_size,
    ))
}

/// The same with the ends of a new outlet, whose dispatch has a name.
fn attend_named<
    N: Name + Send + Sync,
    L: LineName + Send + Sync,
    T: HasSlave<N> + Send,
    S: Station + Send + Drop,
    I: Read + Send + Drop,
    P: Passages<I> + Send + Drop,
    O: Write + Send + Drop,
    R: Threads + Wait + Sync,
>(
    rt: &R,
    alloc: Global,
    lock: &Mutex<T>,
    stop: &AtomicBool,
    stream: (Watched<I>, Watched<O>),
    ends: (ReplyEnd, DataEnd, SendEnd),
    tool: S,
    pump: S,
    passages: P,
    limits: Limits,
    write_size: usize,
) -> Attended<S, I, O>
    requires outlet { (place : ℕ) → L.outlet place ≡ ends.2.outlet }
    requires before { (place : ℕ) → L.before place ≡ O.contents stream.1.inner }
    requires failures { (place : ℕ) → L.failures place ≡ stream.1.failures }
    requires replies { ends.0 ≡ record { outlet = ends.2.outlet; side = false; put = [] } }
    requires samples { ends.1 ≡ record { outlet = ends.2.outlet; side = true; put = [] } }
    ensures serves { ServesConnection limits.max_cto result.outcome
        (stream_place I.remaining stream.0) (stream_place I.remaining result.reader.value)
        (O.contents stream.1.inner) (O.contents result.writer.value.inner)
        (S.exchanges tool) (S.exchanges result.tool) (S.exchanges pump) (S.exchanges result.pump) }
    ensures stays { S.same tool result.tool × S.same pump result.pump }
{
    let (reader, writer) = stream;
    let (replies, samples, end) = ends;
    let dispatch = Mutex::new(Dispatch::<L, O>::new(0, end, writer, write_size));
    let connection = connect::<N, L, T, S, I, P, O>(
        alloc,
        lock,
        stop,
        &dispatch,
        reader,
        (replies, samples),
        tool,
        pump,
        passages,
        limits,
    );
    let (heard, pumped) = run_beside(rt, connection);
    let wrote = finish(rt, dispatch.into_inner());
    let Closed {
        tool,
        pump,
        outcome,
        left,
        ..
    } = close((heard, pumped, wrote));
    Attended {
        tool,
        pump,
        outcome,
        reader: left.reader,
        writer: left.writer,
    }
}
