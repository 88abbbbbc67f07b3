//! Two works at the same time, of which the thread that calls does the first.
ghost use Rattle.together.specs.Crews.{GivesCrew};

use crate::threads::once_started;
use crate::work::{Given, Work};
use std::snapshot::Snapshot;
use std::sync::{Mutex, Wait};
use std::thread;
use std::thread::{Scope, Threads};

/// Does two works at the same time, the first one in the thread that calls, the other in a thread of its own: it doesn't begin
/// before that thread stands, and both have ended when it comes back.
///
/// Where the thread is refused neither begins, and each of them leaves. It takes no memory of its own, and so no work is ever lost.
pub fn run_beside<X: Send + Drop, A: Work<X>, Y: Send + Drop, B: Work<Y>, R: Threads + Wait + Sync>(
    rt: &R,
    crew: (A, B),
) -> (X, Y)
    ensures { GivesCrew A.Work B.Work crew result }
{
    let start = Mutex::new(false);
    let signal = &start;
    thread::scope(
        thread::scope_env(),
        rt,
        move |scope| -> (X, Y)
            ensures { GivesCrew A.Work B.Work crew result }
        { in_scope(scope, rt, signal, crew) },
    )
}

/// Makes a thread while it holds the start signal, lets it go, does the first work, and joins the thread.
fn in_scope<
    's,
    E,
    X: Send + Drop,
    A: Work<X>,
    Y: Send + Drop + 's,
    B: Work<Y> + 's,
    R: Threads + Wait + Sync + 's,
>(scope: &'s Scope<'s, E>, rt: &'s R, start: &'s Mutex<bool>, crew: (A, B)) -> (X, Y)
    ensures { GivesCrew A.Work B.Work crew result }
{
    let (first, second) = crew;
    let mut go = start.lock(rt);
    let promise = Given(Snapshot::of(&second));
    let begun = match scope.spawn_with(promise, move || once_started(rt, start, second)) {
        Ok(begun) => begun,
        Err(refused) => {
            drop(go);
            let second = (refused.value)();
            return (first.leave(), second);
        }
    };
    *go = true;
    drop(go);
    let did = first.run(rt);
    (did, begun.join(rt))
}
