//! Callers are dealt to connections and tasks, and gathered again.
ghost use Rattle.std.specs.Prelude.{◌≡◌, ◌≤◌, ◌+◌, ◌++◌, [], All, IfOk, None, map, length, vec_len, vec_capacity};
ghost use Rattle.std.specs.Vec.Iter.{into_iter_items, into_iter_len};
ghost use Rattle.xcp_server.specs.private.DealtCallers.{Dealt};
ghost use Rattle.std.specs.List.{AllByRecursion, AllZip};
ghost use Rattle.xcp_server.specs.private.Dispatching.{IsUnput};
ghost use Rattle.xcp_locked.specs.TaskOutcome.{chapters_of};
ghost use Rattle.xcp_server.specs.private.ConnectionParts.{IsConnectionWithin};
ghost use Rattle.xcp_locked.specs.Excerpts.{HandsNone, way_of};
ghost use Rattle.xcp_server.specs.private.WrittenChapters.{first_way};

use crate::connection::Connection;
use std::alloc::{AllocError, Global};
use std::io::{Read, Write};
use std::sync::atomic::AtomicBool;
use std::sync::{Mutex, Wait};
use std::vec::IntoIter;
use xcp_connection::{Closed, Gone, Limits};
use xcp_framing::{ServeError, Served, Watched, Whole};
use xcp_locked::{
    Caller, Chapters, Gate, Handing, ImageBuffer, Locked, Name, Reader, Task, Tool, Worker,
    number_tasks,
};
use xcp_outlet::{DataEnd, Dispatch, LineName, ReplyEnd};

/// Connections and tasks that have not begun, and the callers and readers that have nothing to do.
#[derive(Drop)]
pub struct Duties<'a, 'd, N: Name, G: Gate, R: Wait, L: LineName, I: Read + Drop, O: Write + Drop> {
    pub connections: Vec<Connection<'a, 'd, N, R, L, I, O>>,
    pub tasks: Vec<Task<'a, N, G>>,
    pub spare: IntoIter<Caller<N>>,
    pub unused: IntoIter<Reader<N>>,
}

/// Deals the callers out: the first to the streams that are read, the next to so many tasks, the next
/// to the connections' pumps. The first readers go to the tasks, and the first task hands its chapters'
/// excerpts in, if they go anywhere. Each connection has a stop of its own, the two ends of an outlet, and a dispatch.
pub fn deal<'a, 'd, N: Name, G: Gate, R: Wait, L: LineName, I: Read + Drop, O: Write + Drop>(
    rt: &'a R,
    alloc: Global,
    lock: &'a Mutex<Locked<N>>,
    gate: &'a G,
    stops: &'a [AtomicBool],
    dispatches: &'d [Mutex<Dispatch<L, O>>],
    callers: Vec<Caller<N>>,
    readers: Vec<Reader<N>>,
    streams: Vec<Watched<I>>,
    ends: Vec<(ReplyEnd, DataEnd)>,
    tasks: u8,
    cycles: u32,
    chapter: u32,
    limits: Limits,
    handing: Option<Handing>,
) -> Result<Duties<'a, 'd, N, G, R, L, I, O>, AllocError>
    requires enough { vec_len streams + tasks + vec_len streams ≤ vec_len callers }
    requires few { (tasks ≤ 16) × (tasks ≤ vec_len readers) }
    requires stops { length stops.now ≡ vec_len streams }
    requires dispatches { length dispatches.now ≡ vec_len streams }
    requires ends { vec_len ends ≡ vec_len streams }
    requires unput { AllByRecursion IsUnput ends.items }
    requires handing { HandsNone handing × (tasks ≡ 0 → handing ≡ None) }
    ensures dealt { IfOk result (λ d. Dealt limits cycles chapter tasks callers.items readers.items streams.items
        (map (λ e. e.0.outlet) ends.items) d) }
    ensures way { IfOk result (λ d. first_way d.tasks.items ≡ way_of handing) }
{
    let mut spare = callers.into_iter();
    let mut unused = readers.into_iter();
    let tools = next_callers(alloc, &mut spare, streams.len())?;
    let workers = employ(alloc, &mut spare, &mut unused, tasks, handing)?;
    let connections = connect(
        rt, alloc, lock, stops, dispatches, streams, ends, tools, &mut spare, limits,
    )?;
    let tasks = number_tasks(alloc, lock, workers, cycles, chapter, gate)?;
    Ok(Duties {
        connections,
        tasks,
        spare,
        unused,
    })
}

/// So many of the next callers.
pub fn next_callers<N: Name>(
    alloc: Global,
    callers: &mut IntoIter<Caller<N>>,
    count: usize,
) -> Result<Vec<Caller<N>>, AllocError>
    requires { count ≤ length (into_iter_items callers.old) }
    ensures count { IfOk result (λ cs. vec_len cs ≡ count) }
    ensures dealt { IfOk result (λ cs. cs.items ++ into_iter_items callers.new ≡ into_iter_items callers.old) }
{
    let mut taken = Vec::with_capacity(alloc, count)?;
    for _one in 0..count {
        let Some(caller) = callers.next() else {
            unreachable!()
        };
        taken.push_reserved(caller);
    }
    Ok(taken)
}

/// A connection for each stream that is read, in order, each with the next of these tools' callers, with
/// the next of the other callers for its pump, with the next ends of an outlet, and with the next dispatch.
pub fn connect<'a, 'd, N: Name, R: Wait, L: LineName, I: Read + Drop, O: Write + Drop>(
    rt: &'a R,
    alloc: Global,
    lock: &'a Mutex<Locked<N>>,
    stops: &'a [AtomicBool],
    dispatches: &'d [Mutex<Dispatch<L, O>>],
    streams: Vec<Watched<I>>,
    ends: Vec<(ReplyEnd, DataEnd)>,
    tools: Vec<Caller<N>>,
    pumps: &mut IntoIter<Caller<N>>,
    limits: Limits,
) -> Result<Vec<Connection<'a, 'd, N, R, L, I, O>>, AllocError>
    requires tools { vec_len tools ≡ vec_len streams }
    requires pumps { vec_len streams ≤ length (into_iter_items pumps.old) }
    requires stops { length stops.now ≡ vec_len streams }
    requires dispatches { length dispatches.now ≡ vec_len streams }
    requires ends { vec_len ends ≡ vec_len streams }
    requires unput { AllByRecursion IsUnput ends.items }
    ensures each { IfOk result (λ cs. AllZip (IsConnectionWithin limits) streams.items cs.items) }
    ensures outlets { IfOk result (λ cs. map (λ c. c.0.replies.outlet) cs.items ≡ map (λ e. e.0.outlet) ends.items) }
    ensures tools { IfOk result (λ cs. map (λ c. c.0.station.caller) cs.items ≡ tools.items) }
    ensures dealt { IfOk result (λ cs.
        map (λ c. c.1.station.caller) cs.items ++ into_iter_items pumps.new ≡ into_iter_items pumps.old) }
{
    let mut connections = Vec::with_capacity(alloc, streams.len())?;
    let mut tools = tools.into_iter();
    let mut ends = ends.into_iter();
    let mut place = 0;
    for stream in streams {
        let Some(tool) = tools.next() else {
            unreachable!()
        };
        let Some(pump) = pumps.next() else {
            unreachable!()
        };
        let Some(two) = ends.next() else {
            unreachable!()
        };
        let stop = &stops[place];
        let dispatch = &dispatches[place];
        connections.push_reserved(connection(
            rt, alloc, lock, stop, dispatch, stream, two, tool, pump, limits,
        ));
        place += 1;
    }
    Ok(connections)
}

/// A connection whose stations submit for these callers.
fn connection<'a, 'd, N: Name, R: Wait, L: LineName, I: Read + Drop, O: Write + Drop>(
    rt: &'a R,
    alloc: Global,
    lock: &'a Mutex<Locked<N>>,
    stop: &'a AtomicBool,
    dispatch: &'d Mutex<Dispatch<L, O>>,
    stream: Watched<I>,
    ends: (ReplyEnd, DataEnd),
    tool: Caller<N>,
    pump: Caller<N>,
    limits: Limits,
) -> Connection<'a, 'd, N, R, L, I, O>
    requires { IsUnput ends }
    ensures is { IsConnectionWithin limits stream result }
    ensures outlet { result.0.replies.outlet ≡ ends.0.outlet }
    ensures tool { result.0.station.caller ≡ tool }
    ensures pump { result.1.station.caller ≡ pump }
{
    let tool = Tool::new(rt, lock, tool);
    let pump = Tool::new(rt, lock, pump);
    xcp_connection::connect(
        alloc, lock, stop, dispatch, stream, ends, tool, pump, Whole, limits,
    )
}

/// So many workers, with the next callers and the next readers. The first one's chapters are handed in here, if they are anywhere.
pub fn employ<N: Name>(
    alloc: Global,
    callers: &mut IntoIter<Caller<N>>,
    readers: &mut IntoIter<Reader<N>>,
    tasks: u8,
    handing: Option<Handing>,
) -> Result<Vec<Worker<N>>, AllocError>
    requires callers { tasks ≤ length (into_iter_items callers.old) }
    requires readers { tasks ≤ length (into_iter_items readers.old) }
    requires handing { HandsNone handing × (tasks ≡ 0 → handing ≡ None) }
    ensures count { IfOk result (λ ws. vec_len ws ≡ tasks) }
    ensures dealt { IfOk result (λ ws.
        map (λ w. w.caller) ws.items ++ into_iter_items callers.new ≡ into_iter_items callers.old) }
    ensures lent { IfOk result (λ ws.
        map (λ w. w.reader) ws.items ++ into_iter_items readers.new ≡ into_iter_items readers.old) }
    ensures fresh { IfOk result (λ ws. All (λ w. w.chapters.items ≡ []) ws.items) }
    ensures way { IfOk result (λ ws. (chapters_of ws.items).way ≡ way_of handing) }
{
    let mut handing = handing;
    let mut workers = Vec::with_capacity(alloc, tasks as usize)?;
    for _task in 0..tasks {
        let Some(caller) = callers.next() else {
            unreachable!()
        };
        let Some(reader) = readers.next() else {
            unreachable!()
        };
        let last = ImageBuffer::new(alloc, &reader)?;
        workers.push_reserved(Worker::handing_in(alloc, caller, reader, last, handing.take()));
    }
    Ok(workers)
}

/// What came of the connections, taken apart, for which there is room.
#[derive(Drop)]
pub struct Ended<N: Name, I: Read + Drop, O: Write + Drop> {
    pub callers: Vec<Caller<N>>,
    pub pumps: Vec<Caller<N>>,
    pub outcomes: Vec<Result<Served, ServeError>>,
    pub left: Vec<Gone<I, O>>,
}

/// Takes what came of the connections apart.
pub fn take_apart<N: Name, I: Read + Drop, O: Write + Drop>(
    closed: Vec<Closed<Caller<N>, I, O>>,
    room: Ended<N, I, O>,
) -> Ended<N, I, O>
    requires empty { (room.callers.items ≡ []) × (room.pumps.items ≡ [])
        × (room.outcomes.items ≡ []) × (room.left.items ≡ []) }
    requires room { (vec_len closed ≤ vec_capacity room.callers) × (vec_len closed ≤ vec_capacity room.pumps)
        × (vec_len closed ≤ vec_capacity room.outcomes) × (vec_len closed ≤ vec_capacity room.left) }
    ensures callers { result.callers.items ≡ map (λ d. d.tool) closed.items }
    ensures pumps { result.pumps.items ≡ map (λ d. d.pump) closed.items }
    ensures outcomes { result.outcomes.items ≡ map (λ d. d.outcome) closed.items }
    ensures left { result.left.items ≡ map (λ d. d.left) closed.items }
    ensures capacity { vec_capacity result.callers ≡ vec_capacity room.callers }
{
    let mut ended = room;
    for one in closed {
        ended.callers.push_reserved(one.tool);
        ended.pumps.push_reserved(one.pump);
        ended.outcomes.push_reserved(one.outcome);
        ended.left.push_reserved(one.left);
    }
    ended
}

/// Puts the workers' callers behind the others and their readers behind the others, for which there
/// is room, and hands on the chapters that the first worker has cut: only task 0 cuts.
pub fn dismiss<N: Name>(
    alloc: Global,
    workers: Vec<Worker<N>>,
    callers: Vec<Caller<N>>,
    readers: Vec<Reader<N>>,
) -> (Vec<Caller<N>>, Vec<Reader<N>>, Chapters<N>)
    requires callers { vec_len callers + vec_len workers ≤ vec_capacity callers }
    requires readers { vec_len readers + vec_len workers ≤ vec_capacity readers }
    ensures callers { result.0.items ≡ callers.items ++ map (λ w. w.caller) workers.items }
    ensures capacity { vec_capacity result.0 ≡ vec_capacity callers }
    ensures readers { result.1.items ≡ readers.items ++ map (λ w. w.reader) workers.items }
    ensures room { vec_capacity result.1 ≡ vec_capacity readers }
    ensures chapters { result.2 ≡ chapters_of workers.items }
{
    let mut callers = callers;
    let mut readers = readers;
    let mut chapters = None;
    for worker in workers {
        callers.push_reserved(worker.caller);
        readers.push_reserved(worker.reader);
        chapters = chapters.or(Some(worker.chapters));
    }
    (callers, readers, chapters.unwrap_or(Chapters::new(alloc)))
}

/// Puts the callers, or the readers, that had nothing to do behind the others, for which there is
/// room.
pub fn add_rest<T: Drop>(rest: IntoIter<T>, others: Vec<T>) -> Vec<T>
    requires { vec_len others + length (into_iter_items rest) ≤ vec_capacity others }
    ensures items { result.items ≡ others.items ++ into_iter_items rest }
    ensures capacity { vec_capacity result ≡ vec_capacity others }
{
    let mut all = others;
    for one in rest {
        all.push_reserved(one);
    }
    all
}
