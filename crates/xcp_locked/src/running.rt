//! Tasks, each in a thread of its own.
ghost use Rattle.std.specs.Prelude.{◌≡◌, ◌<◌, ◌≤◌, [], IfErr, IfOk, map, length, vec_len, vec_capacity};
ghost use Rattle.xcp_locked.specs.PairedLists.{EachFrom};
ghost use Rattle.xcp_locked.specs.TaskOutcome.{IsTaskOf, RanTasks, first_task_fault};

use crate::{Done, Gate, Locked, Name, Ran, Task, TaskError, Worker};
use std::alloc::{AllocError, Global};
use std::sync::{Mutex, Wait};
use std::thread::Threads;
use together::run_works;

/// Runs a task for each worker, at most 16 of them, all at the same time. They are numbered from 0.
/// In each of its cycles a task asks the gate, submits an event on the channel of its number (modulo
/// the number of channels) with all signals the cycle's number (modulo 256), takes the current image
/// and reads it, outside the lock, as task 0 also finishes a store, and asks the gate again.
///
/// At the end of its cycle task 0 cuts the open chapter where it has at least `chapter` calls, 1 to
/// 65,536; its worker has the chapters. Where there is no memory for one, it ends with `Memory`.
///
/// Where memory or a thread is refused, the answer is `Memory`, and no task has begun. Else all
/// workers come back, in order, with the fault of the least task number that has one.
pub fn run_tasks<N: Name + Send + Sync, G: Gate + Sync, R: Threads + Wait + Sync>(
    rt: &R,
    alloc: Global,
    lock: &Mutex<Locked<N>>,
    workers: Vec<Worker<N>>,
    cycles: u32,
    chapter: u32,
    gate: &G,
) -> Result<Ran<N>, TaskError>
    requires { vec_len workers ≤ 16 }
    ensures ran { IfOk result (λ r. RanTasks N.layout G.may_end cycles chapter workers.items r) }
    ensures err { IfErr result (λ e. e ≡ TaskError.Memory) }
{
    let back = Vec::with_capacity(alloc, workers.len())?;
    let tasks = number_tasks(alloc, lock, workers, cycles, chapter, gate)?;
    let done = run_works(rt, alloc, tasks)?;
    Ok(collect_workers(done, back))
}

/// A task for each worker, at most 16 of them, in order and numbered from 0, with so many cycles each; from `chapter`
/// calls on, 1 to 65,536, task 0 cuts the open chapter.
pub fn number_tasks<'a, N: Name, G: Gate>(
    alloc: Global,
    lock: &'a Mutex<Locked<N>>,
    workers: Vec<Worker<N>>,
    cycles: u32,
    chapter: u32,
    gate: &'a G,
) -> Result<Vec<Task<'a, N, G>>, AllocError>
    requires { vec_len workers ≤ 16 }
    ensures { IfOk result (λ tasks. EachFrom (IsTaskOf cycles chapter) 0 workers.items tasks.items) }
{
    let mut tasks = Vec::with_capacity(alloc, workers.len())?;
    let mut task = 0;
    for worker in workers {
        tasks.push_reserved(Task {
            task,
            worker,
            cycles,
            chapter,
            gate,
            lock,
            alloc,
        });
        task += 1;
    }
    Ok(tasks)
}

/// The workers of the tasks that are done, in order, for which there is room, and the fault of the least task number
/// that has one.
pub fn collect_workers<N: Name>(done: Vec<Done<N>>, room: Vec<Worker<N>>) -> Ran<N>
    requires { (room.items ≡ []) × (vec_len done ≤ vec_capacity room) }
    ensures workers { result.workers.items ≡ map (λ d. d.worker) done.items }
    ensures fault { result.fault ≡ first_task_fault done.items }
{
    let mut workers = room;
    let mut fault = None;
    for one in done {
        workers.push_reserved(one.worker);
        fault = match fault {
            None => one.fault,
            first => first,
        };
    }
    Ran { workers, fault }
}
