//! Connections and tasks of one slave, all at the same time.
ghost use Rattle.std.specs.Prelude.{◌≡◌, ◌<◌, ◌≤◌, ◌+◌, ℕ, [], IfOk, None, false, length, map, vec_len};
ghost use Rattle.std.specs.List.{AllByRecursion, AllZip};
ghost use Rattle.xcp_bank.specs.BankEnds.{six_readers};
ghost use Rattle.xcp_locked.specs.Caller.{callers_of};
ghost use Rattle.xcp_locked.specs.Publications.{image_of};
ghost use Rattle.xcp_locked.specs.TaskOutcome.{DoneAs};
ghost use Rattle.xcp_slave.specs.SlaveValue.{opening};
ghost use Rattle.xcp_server.specs.ServerOutcome.{Closes, CountTheirCommands};
ghost use Rattle.xcp_server.specs.ServerEnd.{LeavesAll};
ghost use Rattle.xcp_server.specs.private.ConnectionParts.{CameOfTools};
ghost use Rattle.xcp_locked.specs.Excerpts.{HandsNone};
ghost use Rattle.xcp_server.specs.private.Dispatching.{IsFreshDispatch, IsUnput, before_at, failures_at, outlet_at};
ghost use Rattle.xcp_server.specs.private.Performing.{Performs};
ghost use Rattle.xcp_server.specs.private.ReadyServer.{IsReady};
ghost use Rattle.xcp_server.specs.private.ServerRoom.{IsRoom};
ghost use Rattle.xcp_server.specs.private.WrittenChapters.{relay_of};
ghost use Rattle.xcp_locked.specs.UnnamedSlave.{IsNamed};

use crate::Closing;
use crate::closing::{Rooms, close_all, make_rooms};
use crate::connection::{Connection, Parted, close_each};
use crate::dealing::{Duties, deal};
use crate::dispatching::{Dispatched, Ends, finish_each, open_dispatches, open_outlets};
use crate::recording::Writing;
use std::alloc::{AllocError, Global};
use std::boxed::Box;
use std::io::{Read, Write};
use std::marker::Brand;
use std::sync::atomic::AtomicBool;
use std::sync::{Mutex, Wait};
use std::thread::Threads;
use std::vec::IntoIter;
use together::run_crews_and;
use xcp_connection::{Heard, Limits, Pumped};
use xcp_framing::Watched;
use xcp_locked::{Caller, Done, Gate, Handing, Locked, Name, Opening, Reader, Task, Tool, Unnamed};
use xcp_outlet::{DataEnd, Dispatch, LineName, ReplyEnd};
use xcp_scribe::Scribe;

/// Opens a slave, serves each reader and writer by frames, and runs so many tasks, all at the same
/// time; joins them all; and submits a last `Hangup` as the first caller. A task has a thread of its
/// own. A connection has two: one hears the tool and writes the answers, and a pump drains what the slave samples and
/// writes the data packets as they come. The first callers are those of the tools, the
/// next those of the tasks, which also have the first readers, and the next those of the pumps. Each
/// connection has at most `turns` reads, and is closed when it ends; its pump has `pump_turns`. Task 0
/// cuts the open chapter from `chapter` calls on, 1 to 65,536, and with `each_store` behind each store of pages too. The scribe is given
/// each chapter when it is cut, in the thread that calls; the open one it isn't given.
///
/// Where memory or a thread is refused the answer is `Err`, and nobody has begun.
pub fn run_server<
    N: Name + Send + Sync,
    G: Gate + Sync,
    I: Read + Send + Drop,
    O: Write + Send + Drop,
    S: Scribe,
    R: Threads + Wait + Sync,
>(
    rt: &R,
    alloc: Global,
    unnamed: Unnamed,
    streams: Vec<(Watched<I>, Watched<O>)>,
    tasks: u8,
    cycles: u32,
    chapter: u32,
    each_store: bool,
    turns: u32,
    pump_turns: u32,
    gate: &G,
    scribe: S,
) -> Result<(Closing<N, I, O>, S), AllocError>
    requires name { IsNamed unnamed N.name N.parts N.layout N.bank }
    requires some { 0 < vec_len streams }
    requires callers { vec_len streams + tasks + vec_len streams ≤ unnamed.callers }
    requires readers { tasks ≤ 6 }
    requires scribe { S.wrote scribe [] }
    ensures closes { IfOk result (λ r. Closes I.remaining O.contents unnamed.layout G.may_end
        unnamed.layout.max_cto turns cycles chapter each_store tasks
        (callers_of unnamed.layout unnamed.callers)
        (six_readers unnamed.bank (image_of (opening unnamed.layout))) streams.items r.0) }
    ensures frames { IfOk result (λ r. CountTheirCommands r.0.outcomes.items r.0.callers.items) }
    ensures leaves { IfOk result (λ r. LeavesAll unnamed.layout unnamed.callers (S.wrote r.1) r.0) }
{
    let limits = Limits {
        max_cto: unnamed.max_cto(),
        turns,
        pump_turns,
        goes_on: false,
    };
    let ready = prepare(alloc, unnamed, streams, tasks, each_store, scribe)?;
    Ok(run_ready(
        rt, alloc, ready, gate, tasks, cycles, chapter, each_store, limits,
    )?)
}

/// A slave that is open, and all that a server needs before anybody begins. The slave lies in a box, since each function through whose hands
/// it went would have room for it on the stack for as long as the server runs.
#[derive(Drop)]
pub struct Ready<N: Name, I: Read + Drop, O: Write + Drop, S: Scribe> {
    lock: Box<Mutex<Locked<N>>>,
    callers: Vec<Caller<N>>,
    readers: Vec<Reader<N>>,
    streams: Vec<(Watched<I>, Watched<O>)>,
    rooms: Rooms<N, I, O>,
    stops: Vec<AtomicBool>,
    handing: Option<Handing>,
    writing: Writing<S>,
}

/// A slave under its lock in a box, its callers and its readers, a stop for each connection, and room for what is given back.
type Opened<N, I, O> = (
    Box<Mutex<Locked<N>>>,
    Vec<Caller<N>>,
    Vec<Reader<N>>,
    Vec<AtomicBool>,
    Rooms<N, I, O>,
);

/// Opens the slave, and makes all that takes memory. It isn't inlined, so that its stack is free again while the server runs.
#[inline(never)]
fn prepare<N: Name, I: Read + Drop, O: Write + Drop, S: Scribe>(
    alloc: Global,
    unnamed: Unnamed,
    streams: Vec<(Watched<I>, Watched<O>)>,
    tasks: u8,
    each_store: bool,
    scribe: S,
) -> Result<Ready<N, I, O, S>, AllocError>
    requires name { IsNamed unnamed N.name N.parts N.layout N.bank }
    requires scribe { S.wrote scribe [] }
    ensures callers { IfOk result (λ r. r.callers.items ≡ callers_of unnamed.layout unnamed.callers) }
    ensures readers { IfOk result (λ r. r.readers.items ≡ six_readers N.bank (image_of (opening unnamed.layout))) }
    ensures streams { IfOk result (λ r. r.streams.items ≡ streams.items) }
    ensures ready { IfOk result (λ r. IsReady tasks each_store r) }
{
    let opening = Locked::<N>::new(alloc, unnamed)?;
    let opened = open(alloc, opening, streams.len(), tasks)?;
    let (handing, writing) = Writing::new(alloc, scribe, tasks, each_store)?;
    let (lock, callers, readers, stops, rooms) = opened;
    Ok(Ready {
        lock,
        callers,
        readers,
        streams,
        rooms,
        stops,
        handing,
        writing,
    })
}

/// The parts of an opening, its readers as a list, with stops and room for so many connections and tasks.
fn open<N: Name, I: Read + Drop, O: Write + Drop>(
    alloc: Global,
    opening: Opening<N>,
    streams: usize,
    tasks: u8,
) -> Result<Opened<N, I, O>, AllocError>
    ensures callers { IfOk result (λ r. r.1.items ≡ opening.callers.items) }
    ensures readers { IfOk result (λ r. r.2.items ≡ opening.readers) }
    ensures stops { IfOk result (λ r. vec_len r.3 ≡ streams) }
    ensures rooms { IfOk result (λ r. IsRoom (vec_len r.1) streams tasks (vec_len r.2) r.4) }
{
    let Opening {
        locked,
        callers,
        readers,
    } = opening;
    let lock = Box::new(alloc, Mutex::new(locked))?;
    let readers = Vec::from_array(alloc, readers)?;
    let (stops, rooms) = take_room(alloc, callers.len(), streams, tasks, readers.len())?;
    Ok((lock, callers, readers, stops, rooms))
}

/// A stop for each connection, and room for what is given back of so many callers, connections, tasks and readers.
fn take_room<N: Name, I: Read + Drop, O: Write + Drop>(
    alloc: Global,
    callers: usize,
    streams: usize,
    tasks: u8,
    readers: usize,
) -> Result<(Vec<AtomicBool>, Rooms<N, I, O>), AllocError>
    ensures stops { IfOk result (λ r. vec_len r.0 ≡ streams) }
    ensures rooms { IfOk result (λ r. IsRoom callers streams tasks readers r.1) }
{
    let stops = make_stops(alloc, streams)?;
    let rooms = make_rooms(alloc, callers, streams, tasks, readers)?;
    Ok((stops, rooms))
}

/// Deals out what is ready, runs all parts, and puts together what comes of them.
fn run_ready<
    N: Name + Send + Sync,
    G: Gate + Sync,
    I: Read + Send + Drop,
    O: Write + Send + Drop,
    S: Scribe,
    R: Threads + Wait + Sync,
>(
    rt: &R,
    alloc: Global,
    ready: Ready<N, I, O, S>,
    gate: &G,
    tasks: u8,
    cycles: u32,
    chapter: u32,
    each_store: bool,
    limits: Limits,
) -> Result<(Closing<N, I, O>, S), AllocError>
    requires some { 0 < vec_len ready.streams }
    requires enough { vec_len ready.streams + tasks + vec_len ready.streams ≤ vec_len ready.callers }
    requires few { (tasks ≤ 16) × (tasks ≤ vec_len ready.readers) }
    requires ready { IsReady tasks each_store ready }
    requires once { limits.goes_on ≡ false }
    ensures closes { IfOk result (λ r. Closes I.remaining O.contents N.layout G.may_end
        limits.max_cto limits.turns cycles chapter each_store tasks
        ready.callers.items ready.readers.items ready.streams.items r.0) }
    ensures leaves { IfOk result (λ r. LeavesAll N.layout (vec_len ready.callers) (S.wrote r.1) r.0) }
{
    let outlets = open_outlets(alloc, ready.streams.len())?;
    run_named::<N, Brand, G, I, O, S, R>(
        rt, alloc, ready, outlets, gate, tasks, cycles, chapter, each_store, limits,
    )
}

/// The same with an outlet for each connection, whose dispatches have a name.
fn run_named<
    N: Name + Send + Sync,
    L: LineName + Send + Sync,
    G: Gate + Sync,
    I: Read + Send + Drop,
    O: Write + Send + Drop,
    S: Scribe,
    R: Threads + Wait + Sync,
>(
    rt: &R,
    alloc: Global,
    ready: Ready<N, I, O, S>,
    outlets: Vec<Ends>,
    gate: &G,
    tasks: u8,
    cycles: u32,
    chapter: u32,
    each_store: bool,
    limits: Limits,
) -> Result<(Closing<N, I, O>, S), AllocError>
    requires some { 0 < vec_len ready.streams }
    requires enough { vec_len ready.streams + tasks + vec_len ready.streams ≤ vec_len ready.callers }
    requires few { (tasks ≤ 16) × (tasks ≤ vec_len ready.readers) }
    requires ready { IsReady tasks each_store ready }
    requires once { limits.goes_on ≡ false }
    requires all { vec_len outlets ≡ vec_len ready.streams }
    requires fresh { AllByRecursion IsFreshDispatch outlets.items }
    requires outlets { (place : ℕ) → L.outlet place ≡ outlet_at outlets.items place }
    requires before { (place : ℕ) → L.before place ≡ before_at O.contents ready.streams.items place }
    requires failures { (place : ℕ) → L.failures place ≡ failures_at ready.streams.items place }
    ensures closes { IfOk result (λ r. Closes I.remaining O.contents N.layout G.may_end
        limits.max_cto limits.turns cycles chapter each_store tasks
        ready.callers.items ready.readers.items ready.streams.items r.0) }
    ensures leaves { IfOk result (λ r. LeavesAll N.layout (vec_len ready.callers) (S.wrote r.1) r.0) }
{
    let Ready {
        lock,
        callers,
        readers,
        streams,
        rooms,
        stops,
        handing,
        writing,
    } = ready;
    let Dispatched {
        readers: heard,
        ends,
        dispatches,
    } = open_dispatches::<L, I, O>(alloc, streams, outlets)?;
    let Performed {
        parted,
        done,
        spare,
        unused,
        writing,
        room,
    } = perform(
        rt,
        alloc,
        lock.as_ref(),
        gate,
        &stops,
        &dispatches,
        callers,
        readers,
        heard,
        ends,
        tasks,
        cycles,
        chapter,
        limits,
        handing,
        writing,
    )?;
    let Some(parted) = finish_each(rt, parted, dispatches, room) else {
        return Err(AllocError);
    };
    let closed = close_each(parted, rooms.closed);
    let (closing, handing) = close_all(
        alloc,
        lock,
        closed,
        done,
        spare,
        unused,
        rooms.ended,
        rooms.workers,
        rooms.readers,
    );
    let scribe = writing.finish(rt, handing, &closing.chapters);
    Ok((closing, scribe))
}

/// What came of connections and of tasks, each at its place, the callers and readers that had nothing to do, who writes chapters down, and
/// room for the connections as they will be when all is written.
#[derive(Drop)]
pub struct Performed<'a, N: Name, R: Wait, I: Read + Drop, O: Write + Drop, S: Scribe> {
    pub parted: Vec<(Heard<Tool<'a, N, R>, I>, Pumped<Tool<'a, N, R>>)>,
    pub done: Vec<Done<N>>,
    pub spare: IntoIter<Caller<N>>,
    pub unused: IntoIter<Reader<N>>,
    pub writing: Writing<S>,
    pub room: Vec<Parted<Tool<'a, N, R>, I, O>>,
}

/// Deals the callers out to connections and tasks, and runs these.
fn perform<
    'a,
    'd,
    N: Name + Send + Sync,
    L: LineName + Send + Sync,
    G: Gate + Sync,
    I: Read + Send + Drop,
    O: Write + Send + Drop,
    S: Scribe,
    R: Threads + Wait + Sync,
>(
    rt: &'a R,
    alloc: Global,
    lock: &'a Mutex<Locked<N>>,
    gate: &'a G,
    stops: &'a [AtomicBool],
    dispatches: &'d [Mutex<Dispatch<L, O>>],
    callers: Vec<Caller<N>>,
    readers: Vec<Reader<N>>,
    streams: Vec<Watched<I>>,
    ends: Vec<(ReplyEnd, DataEnd)>,
    tasks: u8,
    cycles: u32,
    chapter: u32,
    limits: Limits,
    handing: Option<Handing>,
    writing: Writing<S>,
) -> Result<Performed<'a, N, R, I, O, S>, AllocError>
    requires enough { vec_len streams + tasks + vec_len streams ≤ vec_len callers }
    requires few { (tasks ≤ 16) × (tasks ≤ vec_len readers) }
    requires stops { length stops.now ≡ vec_len streams }
    requires dispatches { length dispatches.now ≡ vec_len streams }
    requires ends { vec_len ends ≡ vec_len streams }
    requires unput { AllByRecursion IsUnput ends.items }
    requires handing { HandsNone handing × (tasks ≡ 0 → handing ≡ None) }
    ensures { IfOk result (Performs G L I.remaining N.layout G.may_end limits cycles chapter tasks
        callers.items readers.items streams.items (map (λ e. e.0.outlet) ends.items) handing writing) }
{
    let room = Vec::with_capacity(alloc, streams.len())?;
    let Duties {
        connections,
        tasks,
        spare,
        unused,
    } = deal(
        rt, alloc, lock, gate, stops, dispatches, callers, readers, streams, ends, tasks, cycles,
        chapter, limits, handing,
    )?;
    let (parted, done, writing) = run_all(rt, alloc, connections, tasks, writing)?;
    Ok(Performed {
        parted,
        done,
        spare,
        unused,
        writing,
        room,
    })
}

/// A stop for each connection, which its reading sets when it ends.
fn make_stops(alloc: Global, count: usize) -> Result<Vec<AtomicBool>, AllocError>
    ensures { IfOk result (λ s. vec_len s ≡ count) }
{
    let mut stops = Vec::with_capacity(alloc, count)?;
    for _one in 0..count {
        stops.push_reserved(AtomicBool::new(false));
    }
    Ok(stops)
}

/// What comes of connections and of tasks, each at its place, and of a scribe.
type Results<'a, N, R, I, S> = Result<
    (
        Vec<(Heard<Tool<'a, N, R>, I>, Pumped<Tool<'a, N, R>>)>,
        Vec<Done<N>>,
        Writing<S>,
    ),
    AllocError,
>;

/// Runs connections and tasks, each part of a connection and each task in a thread of its own, and
/// writes chapters down meanwhile.
fn run_all<
    'a,
    'd,
    N: Name + Send + Sync,
    L: LineName + Send + Sync,
    G: Gate + Sync,
    I: Read + Send + Drop,
    O: Write + Send + Drop,
    S: Scribe,
    R: Threads + Wait + Sync,
>(
    rt: &R,
    alloc: Global,
    connections: Vec<Connection<'a, 'd, N, R, L, I, O>>,
    tasks: Vec<Task<'a, N, G>>,
    writing: Writing<S>,
) -> Results<'a, N, R, I, S>
    ensures parted { IfOk result (λ r.
        AllZip (CameOfTools I.remaining) connections.entry.items r.0.items) }
    ensures worked { IfOk result (λ r. AllZip (DoneAs N.layout G.may_end) tasks.entry.items r.1.items) }
    ensures writing { IfOk result (λ r. relay_of r.2 ≡ relay_of writing) }
{
    run_crews_and(rt, alloc, connections, tasks, writing)
}
