//! Threads for crews of two works.
ghost use Rattle.std.specs.Prelude.{◌≡◌, ◌≤◌, IfSome, true, vec_len, vec_capacity};
ghost use Rattle.together.specs.private.StandingCrews.{CrewKeeps, CrewStands, CrewsKeep, CrewsStand};

use crate::threads::start_one;
use crate::work::{Given, Work};
use std::sync::{Mutex, Wait};
use std::thread::{Promise, PromisedHandle, Scope, Threads};

/// The handles of a crew's threads.
pub type CrewHandles<X, A, Y, B> = (PromisedHandle<X, Given<A>>, PromisedHandle<Y, Given<B>>);

/// Makes two threads for each crew, and tells whether all stand. Each thread waits for the start
/// signal, which the caller holds meanwhile.
pub fn start_crews<
    's,
    E,
    X: Send + Drop + 's,
    A: Work<X> + 's,
    Y: Send + Drop + 's,
    B: Work<Y> + 's,
    R: Threads + Wait + Sync + 's,
>(
    scope: &'s Scope<'s, E>,
    rt: &'s R,
    start: &'s Mutex<bool>,
    crews: Vec<(A, B)>,
    handles: Vec<CrewHandles<X, A, Y, B>>,
) -> (Vec<CrewHandles<X, A, Y, B>>, bool)
    requires { (vec_len handles ≡ 0) × (vec_len crews ≤ vec_capacity handles) }
    ensures few { vec_len result.0 ≤ vec_len crews }
    ensures all { result.1 ≡ true → CrewsStand crews.items result.0.items }
{
    let mut handles = handles;
    for crew in crews {
        match start_crew(scope, rt, start, crew) {
            Some(two) => {
                let Ok(()) = handles.push(two) else {
                    unreachable!()
                };
            }
            None => return (handles, false),
        }
    }
    (handles, true)
}

/// The two threads of a crew. Those that stand where one can't be made end with the scope.
fn start_crew<
    's,
    E,
    X: Send + Drop + 's,
    A: Work<X> + 's,
    Y: Send + Drop + 's,
    B: Work<Y> + 's,
    R: Threads + Wait + Sync + 's,
>(
    scope: &'s Scope<'s, E>,
    rt: &'s R,
    start: &'s Mutex<bool>,
    crew: (A, B),
) -> Option<CrewHandles<X, A, Y, B>>
    ensures { IfSome result (λ h. CrewStands crew h) }
{
    let (first, second) = crew;
    Some((
        start_one(scope, rt, start, first)?,
        start_one(scope, rt, start, second)?,
    ))
}

/// Joins the threads of each crew, and puts what comes of it behind the others. There is room for all.
pub fn join_crews<R: Threads, X: Drop, P: Promise<X>, Y: Drop, Q: Promise<Y>>(
    rt: &R,
    handles: Vec<(PromisedHandle<X, P>, PromisedHandle<Y, Q>)>,
    results: Vec<(X, Y)>,
) -> Vec<(X, Y)>
    requires { (vec_len results ≡ 0) × (vec_len handles ≤ vec_capacity results) }
    ensures len { vec_len result ≡ vec_len handles }
    ensures each { CrewsKeep P.Promise Q.Promise handles.items result.items }
{
    let mut results = results;
    for handle in handles {
        let Ok(()) = results.push(join_crew(rt, handle)) else {
            unreachable!()
        };
    }
    results
}

/// Joins the two threads of a crew.
fn join_crew<R: Threads, X: Drop, P: Promise<X>, Y: Drop, Q: Promise<Y>>(
    rt: &R,
    handles: (PromisedHandle<X, P>, PromisedHandle<Y, Q>),
) -> (X, Y)
    ensures { CrewKeeps P.Promise Q.Promise handles result }
{
    let (first, second) = handles;
    (first.join(rt), second.join(rt))
}
