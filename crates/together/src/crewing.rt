//! Crews of two works and single works, all at the same time.
ghost use Rattle.std.specs.Prelude.{IfOk};
ghost use Rattle.together.specs.Crews.{GivesEachCrew};
ghost use Rattle.together.specs.Works.{GivesEach};

use crate::crews::{join_crews, start_crews};
use crate::meanwhile::{Meanwhile, Nothing};
use crate::room::rooms_for;
use crate::threads::{join_all, start_all};
use crate::work::Work;
use std::alloc::{AllocError, Global};
use std::sync::{Mutex, Wait};
use std::thread;
use std::thread::{Scope, Threads};

/// What comes of crews and of single works, each at its place.
type Results<X, Y, T> = Result<(Vec<(X, Y)>, Vec<T>), AllocError>;

/// The same, and what comes of what is done meanwhile.
type Outcomes<X, Y, T, U> = Result<(Vec<(X, Y)>, Vec<T>, U), AllocError>;

/// Does each work in a thread of its own, all of them at the same time: none begins before all
/// threads stand, and all are joined.
///
/// Where memory or a thread is refused the answer is `Err`, none of the works has begun, and
/// nothing hangs; the works are gone then.
pub fn run_works<T: Send + Drop, W: Work<T>, R: Threads + Wait + Sync>(
    rt: &R,
    alloc: Global,
    works: Vec<W>,
) -> Result<Vec<T>, AllocError>
    ensures { IfOk result (λ r. GivesEach W.Work works.items r.items) }
{
    let none: Vec<(W, W)> = Vec::new(alloc);
    let (_none, results) = run_crews(rt, alloc, none, works)?;
    Ok(results)
}

/// Does each work in a thread of its own, as `run_works` does. Crews of two works are taken, which
/// have something to do with each other, and single works.
///
/// Where memory or a thread is refused the answer is `Err`, none of the works has begun, and
/// nothing hangs; the works are gone then.
pub fn run_crews<
    X: Send + Drop,
    A: Work<X>,
    Y: Send + Drop,
    B: Work<Y>,
    T: Send + Drop,
    W: Work<T>,
    R: Threads + Wait + Sync,
>(rt: &R, alloc: Global, crews: Vec<(A, B)>, works: Vec<W>) -> Results<X, Y, T>
    ensures crews { IfOk result (λ r. GivesEachCrew A.Work B.Work crews.items r.0.items) }
    ensures works { IfOk result (λ r. GivesEach W.Work works.items r.1.items) }
{
    let (crews, works, ()) = run_crews_and(rt, alloc, crews, works, Nothing)?;
    Ok((crews, works))
}

/// Does each work in a thread of its own, as `run_crews` does, and something else meanwhile, in the
/// thread that calls, once all of them have begun; the works are joined when that is done.
///
/// Where memory or a thread is refused the answer is `Err`, and nothing of it has begun; all of it is
/// gone then.
pub fn run_crews_and<
    X: Send + Drop,
    A: Work<X>,
    Y: Send + Drop,
    B: Work<Y>,
    T: Send + Drop,
    W: Work<T>,
    U: Drop,
    M: Meanwhile<U>,
    R: Threads + Wait + Sync,
>(rt: &R, alloc: Global, crews: Vec<(A, B)>, works: Vec<W>, meanwhile: M) -> Outcomes<X, Y, T, U>
    ensures crews { IfOk result (λ r. GivesEachCrew A.Work B.Work crews.items r.0.items) }
    ensures works { IfOk result (λ r. GivesEach W.Work works.items r.1.items) }
    ensures meanwhile { IfOk result (λ r. M.gives meanwhile r.2) }
{
    let start = Mutex::new(false);
    let signal = &start;
    thread::scope(
        thread::scope_env(),
        rt,
        move |scope| -> Outcomes<X, Y, T, U>
            ensures { IfOk result (λ r. GivesEachCrew A.Work B.Work crews.items r.0.items
                × GivesEach W.Work works.items r.1.items × M.gives meanwhile r.2) }
        { in_scope(scope, rt, signal, alloc, crews, works, meanwhile) },
    )
}

/// Takes room for all threads, makes them while it holds the start signal, lets them go, does
/// something else, and joins them.
fn in_scope<
    's,
    E,
    X: Send + Drop + 's,
    A: Work<X> + 's,
    Y: Send + Drop + 's,
    B: Work<Y> + 's,
    T: Send + Drop + 's,
    W: Work<T> + 's,
    U: Drop,
    M: Meanwhile<U>,
    R: Threads + Wait + Sync + 's,
>(
    scope: &'s Scope<'s, E>,
    rt: &'s R,
    start: &'s Mutex<bool>,
    alloc: Global,
    crews: Vec<(A, B)>,
    works: Vec<W>,
    meanwhile: M,
) -> Outcomes<X, Y, T, U>
    ensures crews { IfOk result (λ r. GivesEachCrew A.Work B.Work crews.items r.0.items) }
    ensures works { IfOk result (λ r. GivesEach W.Work works.items r.1.items) }
    ensures meanwhile { IfOk result (λ r. M.gives meanwhile r.2) }
{
    let (first, second) = rooms_for(alloc, crews.len(), works.len())?;
    let mut go = start.lock(rt);
    let (crewed, all) = start_crews(scope, rt, start, crews, first.handles);
    let (handles, both) = start_all(scope, rt, start, works, second.handles);
    *go = all && both;
    drop(go);
    if all && both {
        let did = meanwhile.run(rt);
        let done = join_crews(rt, crewed, first.results);
        let rest = join_all(rt, handles, second.results);
        Ok((done, rest, did))
    } else {
        let _none = join_crews(rt, crewed, first.results);
        let _begun = join_all(rt, handles, second.results);
        Err(AllocError)
    }
}
