//! What a server gives back.
ghost use Rattle.std.specs.Prelude.{◌≡◌, ◌<◌, ◌≤◌, ◌+◌, ◌++◌, [], IfErr, IfOk, length, map, sum_by, vec_capacity, vec_len};
ghost use Rattle.std.specs.Vec.Iter.{into_iter_items};
ghost use Rattle.xcp_locked.specs.Caller.{accepted_by};
ghost use Rattle.xcp_server.specs.private.GivenBack.{GivesBackAll, GivesChapters};
ghost use Rattle.xcp_server.specs.private.ServerRoom.{IsEndedRoom, IsRoom};
ghost use Rattle.xcp_server.specs.LastHangup.{HungUp};
ghost use Rattle.xcp_server.specs.ServerOutcome.{SameClosing};
ghost use Rattle.xcp_locked.specs.TaskOutcome.{chapters_of, first_task_fault};
ghost use Rattle.xcp_locked.specs.Chapters.{Disagree, IsWhole, entries_of};

use crate::dealing::{Ended, add_rest, dismiss, take_apart};
use std::alloc::{AllocError, Global};
use std::boxed::Box;
use std::io::{Read, Write};
use std::sync::Mutex;
use std::vec::IntoIter;
use xcp_connection::{Closed, Gone};
use xcp_framing::{ServeError, Served};
use xcp_locked::{
    Caller, Chapter, Discord, Done, Handing, Locked, Name, Ran, Reader, TaskError, Worker,
    collect_workers, settle_chapters,
};
use xcp_slave::Request;

/// What is left of a server: the slave, the chapters that were cut off, all callers (those of the
/// tools first, then those of the tasks, then those of the pumps, then those that had nothing to do),
/// the six readers (those of the tasks first), the end of each connection with what its streams were
/// then, and the fault of the tasks, else that of the last `Hangup`.
#[derive(Drop)]
pub struct Closing<N: Name, I: Read + Drop, O: Write + Drop> {
    pub locked: Locked<N>,
    /// The chapters that task 0 has cut, in order.
    pub chapters: Vec<Chapter<N>>,
    pub callers: Vec<Caller<N>>,
    pub readers: Vec<Reader<N>>,
    pub outcomes: Vec<Result<Served, ServeError>>,
    pub left: Vec<Gone<I, O>>,
    pub fault: Option<TaskError>,
}

/// Room for what a server gives back, made before anybody begins.
#[derive(Drop)]
pub struct Rooms<N: Name, I: Read + Drop, O: Write + Drop> {
    pub closed: Vec<Closed<Caller<N>, I, O>>,
    pub ended: Ended<N, I, O>,
    pub workers: Vec<Worker<N>>,
    pub readers: Vec<Reader<N>>,
}

/// Room for so many callers, for the outcomes of so many connections, for so many workers, and for so
/// many readers.
pub(crate) fn make_rooms<N: Name, I: Read + Drop, O: Write + Drop>(
    alloc: Global,
    callers: usize,
    outcomes: usize,
    tasks: u8,
    readers: usize,
) -> Result<Rooms<N, I, O>, AllocError>
    ensures { IfOk result (λ r. IsRoom callers outcomes tasks readers r) }
{
    let callers = Vec::with_capacity(alloc, callers)?;
    let closed = Vec::with_capacity(alloc, outcomes)?;
    let pumps = Vec::with_capacity(alloc, outcomes)?;
    let left = Vec::with_capacity(alloc, outcomes)?;
    let outcomes = Vec::with_capacity(alloc, outcomes)?;
    let workers = Vec::with_capacity(alloc, tasks as usize)?;
    let readers = Vec::with_capacity(alloc, readers)?;
    let ended = Ended {
        callers,
        pumps,
        outcomes,
        left,
    };
    Ok(Rooms {
        closed,
        ended,
        workers,
        readers,
    })
}

/// Puts together what came of connections and tasks, for which there is room, and submits the last
/// `Hangup`; and gives back who handed excerpts of the chapters in. It isn't inlined, so that its stack isn't there while the server runs.
#[inline(never)]
pub(crate) fn close_all<N: Name, I: Read + Drop, O: Write + Drop>(
    alloc: Global,
    lock: Box<Mutex<Locked<N>>>,
    closed: Vec<Closed<Caller<N>, I, O>>,
    done: Vec<Done<N>>,
    spare: IntoIter<Caller<N>>,
    unused: IntoIter<Reader<N>>,
    ended: Ended<N, I, O>,
    workers: Vec<Worker<N>>,
    readers: Vec<Reader<N>>,
) -> (Closing<N, I, O>, Option<Handing>)
    requires some { 0 < vec_len closed }
    requires ended { IsEndedRoom (vec_len closed + vec_len done + vec_len closed + length (into_iter_items spare))
        (vec_len closed) ended }
    requires workers { (workers.items ≡ []) × (vec_len done ≤ vec_capacity workers) }
    requires readers { (readers.items ≡ []) × (vec_len done + length (into_iter_items unused) ≤ vec_capacity readers) }
    ensures hung_up { HungUp (first_task_fault done.items) result.0.fault
        (map (λ d. d.tool) closed.items ++ map (λ d. d.worker.caller) done.items
        ++ map (λ d. d.pump) closed.items ++ into_iter_items spare) result.0.callers.items
        result.0.locked.chapter result.0.locked.journal }
    ensures back { GivesBackAll N.layout (map (λ d. d.outcome) closed.items) (map (λ d. d.left) closed.items)
        (map (λ d. d.worker.reader) done.items ++ into_iter_items unused) result.0 }
    ensures cut { GivesChapters (chapters_of (map (λ d. d.worker) done.items)) result.0.chapters.items result.1 }
{
    let ended = take_apart(closed, ended);
    let ran = collect_workers(done, workers);
    let locked = Box::into_inner(lock).into_inner();
    put_together(alloc, locked, ended, ran, spare, unused, readers)
}

/// Gathers all callers and all readers again, in order, for which there is room, and submits the last
/// `Hangup`.
fn put_together<N: Name, I: Read + Drop, O: Write + Drop>(
    alloc: Global,
    locked: Locked<N>,
    ended: Ended<N, I, O>,
    ran: Ran<N>,
    spare: IntoIter<Caller<N>>,
    unused: IntoIter<Reader<N>>,
    readers: Vec<Reader<N>>,
) -> (Closing<N, I, O>, Option<Handing>)
    requires some { 0 < vec_len ended.callers }
    requires room { vec_len ended.callers + vec_len ran.workers + vec_len ended.pumps
        + length (into_iter_items spare) ≤ vec_capacity ended.callers }
    requires readers { (readers.items ≡ []) × (vec_len ran.workers + length (into_iter_items unused)
        ≤ vec_capacity readers) }
    ensures hung_up { HungUp ran.fault result.0.fault
        (ended.callers.items ++ map (λ w. w.caller) ran.workers.items
        ++ ended.pumps.items ++ into_iter_items spare) result.0.callers.items result.0.locked.chapter result.0.locked.journal }
    ensures back { GivesBackAll N.layout ended.outcomes.items ended.left.items
        (map (λ w. w.reader) ran.workers.items ++ into_iter_items unused) result.0 }
    ensures cut { GivesChapters (chapters_of ran.workers.items) result.0.chapters.items result.1 }
{
    let mut locked = locked;
    let (callers, readers, chapters) = dismiss(alloc, ran.workers, ended.callers, readers);
    let callers = add_rest(ended.pumps.into_iter(), callers);
    let mut callers = add_rest(spare, callers);
    let readers = add_rest(unused, readers);
    let fault = hang_up(&mut locked, &mut callers, ran.fault);
    locked.known();
    let (chapters, handing) = chapters.into_parts();
    let closing = Closing {
        locked,
        chapters,
        callers,
        readers,
        outcomes: ended.outcomes,
        left: ended.left,
        fault,
    };
    (closing, handing)
}

/// The last `Hangup`, by the first caller.
fn hang_up<N: Name>(
    locked: &mut Locked<N>,
    callers: &mut [Caller<N>],
    fault: Option<TaskError>,
) -> Option<TaskError>
    requires { 0 < length callers.old }
    ensures { HungUp fault result callers.old callers.new locked.new.chapter locked.new.journal }
{
    match locked.submit(&mut callers[0], Request::Hangup) {
        Ok(_) => fault,
        Err(error) => match fault {
            None => Some(TaskError::from(error)),
            first => first,
        },
    }
}

/// Settles all callers for each chapter and for the open one, where these follow one another, and answers
/// how many calls there were. All of them are then one run of one slave from the opening to the slave as
/// it is, and with all callers of the slave together this is how many calls of theirs were accepted.
pub fn settle_all<N: Name, I: Read + Drop, O: Write + Drop>(
    closing: &mut Closing<N, I, O>,
) -> Result<u64, Discord>
    requires { (0 < vec_len closing.old.callers) × (vec_len closing.old.callers ≡ N.parts) }
    ensures whole { IfOk result (λ _. IsWhole N.layout closing.old.locked closing.old.chapters.items
        closing.old.callers.items) }
    ensures count { IfOk result (λ n. n ≡ length (entries_of closing.old.chapters.items
        ++ closing.old.locked.journal)) }
    ensures sum { IfOk result (λ n. n ≡ sum_by accepted_by closing.old.callers.items) }
    ensures first { IfErr result (Disagree N.layout closing.old.locked
        closing.old.chapters.items closing.old.callers.items) }
    ensures same { SameClosing closing.old closing.new }
{
    settle_chapters(&mut closing.locked, &closing.chapters, &mut closing.callers)
}
