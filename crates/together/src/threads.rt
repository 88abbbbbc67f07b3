//! A thread for each work of one kind.
ghost use Rattle.std.specs.Prelude.{◌≡◌, ◌≤◌, IfSome, true, vec_len, vec_capacity};
ghost use Rattle.std.specs.PromisedHandle.{KeepsEach};
ghost use Rattle.together.specs.private.StandingWorks.{AllWorksStand};

use crate::work::{Given, Work};
use std::snapshot::Snapshot;
use std::sync::{Mutex, Wait};
use std::thread::{Promise, PromisedHandle, Scope, Threads};

/// Makes a thread for each work, and tells whether all stand. Each thread waits for the start
/// signal, which the caller holds meanwhile.
pub fn start_all<'s, E, T: Send + Drop + 's, W: Work<T> + 's, R: Threads + Wait + Sync + 's>(
    scope: &'s Scope<'s, E>,
    rt: &'s R,
    start: &'s Mutex<bool>,
    works: Vec<W>,
    handles: Vec<PromisedHandle<T, Given<W>>>,
) -> (Vec<PromisedHandle<T, Given<W>>>, bool)
    requires { (vec_len handles ≡ 0) × (vec_len works ≤ vec_capacity handles) }
    ensures few { vec_len result.0 ≤ vec_len works }
    ensures all { result.1 ≡ true → AllWorksStand works.items result.0.items }
{
    let mut handles = handles;
    for work in works {
        match start_one(scope, rt, start, work) {
            Some(handle) => {
                let Ok(()) = handles.push(handle) else {
                    unreachable!()
                };
            }
            None => return (handles, false),
        }
    }
    (handles, true)
}

/// Makes the thread of a work, which waits for the start signal.
pub fn start_one<'s, E, T: Send + Drop + 's, W: Work<T> + 's, R: Threads + Wait + Sync + 's>(
    scope: &'s Scope<'s, E>,
    rt: &'s R,
    start: &'s Mutex<bool>,
    work: W,
) -> Option<PromisedHandle<T, Given<W>>>
    ensures { IfSome result (λ h. h.promise.0.value ≡ work) }
{
    let promise = Given(Snapshot::of(&work));
    scope
        .spawn_with(promise, move || once_started(rt, start, work))
        .ok()
}

/// What a thread does: it waits until the signal can be read, and then begins or leaves.
pub(crate) fn once_started<T, W: Work<T>, R: Wait>(rt: &R, start: &Mutex<bool>, work: W) -> T
    ensures { W.gives work result }
{
    let go = *start.lock(rt);
    if go { work.run(rt) } else { work.leave() }
}

/// Joins each thread, and puts its result behind the others. There is room for all.
pub fn join_all<R: Threads, T: Drop, P: Promise<T>>(
    rt: &R,
    handles: Vec<PromisedHandle<T, P>>,
    results: Vec<T>,
) -> Vec<T>
    requires { (vec_len results ≡ 0) × (vec_len handles ≤ vec_capacity results) }
    ensures len { vec_len result ≡ vec_len handles }
    ensures each { KeepsEach P.Promise (vec_len handles) handles.items result.items }
{
    let mut results = results;
    for handle in handles {
        let Ok(()) = results.push(handle.join(rt)) else {
            unreachable!()
        };
    }
    results
}
