//! All that a server does at the same time.
ghost use Rattle.std.specs.Prelude.{◌≡◌, ◌≤◌, IfOk, length, map, true, vec_capacity, vec_len};
ghost use Rattle.std.specs.List.{AllZip};
ghost use Rattle.xcp_seats.specs.Seating.{pair};
ghost use Rattle.xcp_stay.specs.Team.{SeatsServed, TasksServed};

use crate::dealing::{Common, Crew, make_seats, make_tickers};
use crate::staying::Plan;
use crate::unstayed::Unstayed;
use std::alloc::{AllocError, Global};
use std::sync::{Mutex, Wait};
use std::thread;
use std::thread::{Promise, PromisedHandle, Scope, Threads};
use std::time::Clock;
use together::{Work, run_crews_and};
use xcp_locked::{Name, Reader};
use xcp_scribe::Scribe;
use xcp_seats::{
    Access, Door, Entrance, Hall, Halt, Inlet, Keeping, Lobby, Losses, Pace, Rested, Seat,
    SeatMembers, Sits, Ward, Watcher, start_entrance, start_seat, start_ward,
};
use xcp_service::{Collector, Halted, Member, Route, Shared};

/// What comes of a team, once all have ended.
#[derive(Drop)]
pub(crate) struct Ended<N: Name, M: Route, S: Scribe> {
    pub left: Vec<SeatMembers<N, M>>,
    pub rested: Vec<Rested<N, M>>,
    pub kept: Result<Collector<N, M, S>, Halted<N, M>>,
}

/// The threads of seats.
type Handles<'s, N, M, W, R> = Vec<PromisedHandle<SeatMembers<N, M>, Sits<'s, N, M, W, R>>>;

/// Runs a seat behind each door and so many tasks, each in a thread of its own, an entrance in one, and a ward in one; the keeper has the
/// thread that calls.
/// No seat begins before the threads of all stand. Where memory or a thread is refused, nobody stays.
pub(crate) fn run<
    N: Name + Send + Sync,
    M: Route + Send + Sync,
    S: Scribe,
    W: Watcher + Sync,
    R: Threads + Wait + Clock + Sync,
>(
    rt: &R,
    alloc: Global,
    access: &Access,
    lobby: &Lobby,
    losses: &Losses,
    shared: &Shared<N, M>,
    doors: &[Door],
    hall: &Hall,
    halt: &Halt,
    watcher: &W,
    crew: Crew<N, M, S>,
    max_cto: u8,
    plan: Plan,
) -> Result<Ended<N, M, S>, Unstayed<N>>
    requires doors { length doors.now ≡ plan.tools }
    requires tools { vec_len crew.tools ≡ plan.tools }
    requires hired { vec_len crew.hired ≡ plan.tasks }
    requires pumps { vec_len crew.pumps ≡ plan.tools }
    requires readers { plan.tasks ≤ vec_len crew.readers }
    ensures seats { IfOk result (λ e. SeatsServed max_cto crew.tools.items crew.pumps.items
        (map (λ l. pair l.tool l.pump) e.left.items)) }
    ensures tasks { IfOk result (λ e. TasksServed N.layout crew.hired.items (map (λ d. d.member) e.rested.items)) }
{
    let start = Mutex::new(false);
    let signal = &start;
    thread::scope(
        thread::scope_env(),
        rt,
        move |scope| -> Result<Ended<N, M, S>, Unstayed<N>>
            requires { (length doors.now ≡ plan.tools) × (vec_len crew.tools ≡ plan.tools)
                × (vec_len crew.hired ≡ plan.tasks) × (vec_len crew.pumps ≡ plan.tools)
                × (plan.tasks ≤ vec_len crew.readers) }
            ensures { IfOk result (λ e. SeatsServed max_cto crew.tools.items crew.pumps.items
                (map (λ l. pair l.tool l.pump) e.left.items)
                × TasksServed N.layout crew.hired.items (map (λ d. d.member) e.rested.items)) }
        {
            in_scope(
                scope, rt, signal, alloc, access, lobby, losses, shared, doors, hall, halt,
                watcher, crew, max_cto, plan,
            )
        },
    )
}

/// Makes the threads of the seats, of the entrance and of the ward while it holds the start signal, lets them go, makes those of the tasks, and joins all.
fn in_scope<
    's,
    E,
    N: Name + Send + Sync + 's,
    M: Route + Send + Sync + 's,
    S: Scribe,
    W: Watcher + Sync + 's,
    R: Threads + Wait + Clock + Sync + 's,
>(
    scope: &'s Scope<'s, E>,
    rt: &'s R,
    start: &'s Mutex<bool>,
    alloc: Global,
    access: &'s Access,
    lobby: &'s Lobby,
    losses: &'s Losses,
    shared: &'s Shared<N, M>,
    doors: &'s [Door],
    hall: &'s Hall,
    halt: &'s Halt,
    watcher: &'s W,
    crew: Crew<N, M, S>,
    max_cto: u8,
    plan: Plan,
) -> Result<Ended<N, M, S>, Unstayed<N>>
    requires doors { length doors.now ≡ plan.tools }
    requires tools { vec_len crew.tools ≡ plan.tools }
    requires hired { vec_len crew.hired ≡ plan.tasks }
    requires pumps { vec_len crew.pumps ≡ plan.tools }
    requires readers { plan.tasks ≤ vec_len crew.readers }
    ensures seats { IfOk result (λ e. SeatsServed max_cto crew.tools.items crew.pumps.items
        (map (λ l. pair l.tool l.pump) e.left.items)) }
    ensures tasks { IfOk result (λ e. TasksServed N.layout crew.hired.items (map (λ d. d.member) e.rested.items)) }
{
    let Crew {
        tools,
        hired,
        pumps,
        readers,
        collector,
    } = crew;
    let common = Common {
        rt,
        shared,
        access,
        lobby,
        doors,
        hall,
        halt,
        watcher,
    };
    let Ok(gate) = Inlet::new(access) else {
        return Err(Unstayed::Listener);
    };
    let seats = make_seats(alloc, &common, tools, pumps, max_cto, plan)?;
    let room = Vec::with_capacity(alloc, seats.len())?;
    let handles = Vec::with_capacity(alloc, seats.len())?;
    let ward = Ward {
        alloc,
        shared,
        gate,
        lobby,
        doors,
        halt,
        losses,
        watcher,
        cut_every: plan.cut_every,
        has_tasks: plan.tasks > 0,
    };
    let entrance = Entrance {
        access,
        lobby,
        halt,
        watcher,
    };
    let mut go = start.lock(rt);
    let (handles, seated) = start_seats(scope, rt, start, seats, handles);
    let all = seated && start_ends(scope, rt, start, entrance, ward);
    *go = all;
    drop(go);
    let performed = if all {
        run_tasks(
            rt, alloc, shared, losses, halt, hired, readers, collector, plan,
        )
    } else {
        Err(AllocError)
    };
    if performed.is_err() {
        halt.ask(rt);
    }
    let left = join_all(rt, handles, room);
    let (rested, kept) = performed?;
    Ok(Ended { left, rested, kept })
}

/// Makes the threads of an entrance and of a ward, and tells whether both stand.
fn start_ends<
    's,
    E,
    N: Name + Send + Sync + 's,
    M: Route + Send + Sync + 's,
    W: Watcher + Sync + 's,
    R: Threads + Wait + Clock + Sync + 's,
>(
    scope: &'s Scope<'s, E>,
    rt: &'s R,
    start: &'s Mutex<bool>,
    entrance: Entrance<'s, W>,
    ward: Ward<'s, N, M, W>,
) -> bool {
    start_entrance(scope, rt, start, entrance) && start_ward(scope, rt, start, ward)
}

/// What comes of tasks, and of their keeper.
type Performed<N, M, S> = (Vec<Rested<N, M>>, Result<Collector<N, M, S>, Halted<N, M>>);

/// Runs so many tasks, each in a thread of its own, and the keeper in the thread that calls.
fn run_tasks<
    N: Name + Send + Sync,
    M: Route + Send + Sync,
    S: Scribe,
    R: Threads + Wait + Clock + Sync,
>(
    rt: &R,
    alloc: Global,
    shared: &Shared<N, M>,
    losses: &Losses,
    halt: &Halt,
    members: Vec<Member<N, M>>,
    readers: Vec<Reader<N>>,
    collector: Collector<N, M, S>,
    plan: Plan,
) -> Result<Performed<N, M, S>, AllocError>
    requires members { vec_len members ≡ plan.tasks }
    requires readers { plan.tasks ≤ vec_len readers }
    ensures served { IfOk result (λ r. TasksServed N.layout members.items (map (λ d. d.member) r.0.items)) }
{
    let pace = Pace::new(rt, plan.periods);
    let tickers = make_tickers(
        alloc, shared, losses, halt, &pace, members, readers, plan.tasks,
    )?;
    let keeping = Keeping {
        collector,
        post: &shared.post,
        halt,
    };
    let none: Vec<(Idle, Idle)> = Vec::new(alloc);
    let (_none, rested, kept) = run_crews_and(rt, alloc, none, tickers, keeping)?;
    Ok((rested, kept))
}

/// Nothing to do: there are no works that belong together.
#[derive(Drop)]
struct Idle;

impl Work<()> for Idle {
    ghost use Rattle.std.specs.Prelude.{⊤};

    ghost gives = { λ idle unit. ⊤ };

    fn run<R: Wait>(self, _rt: &R) {}

    fn leave(self) {}
}

/// Makes the thread of each seat, and tells whether all stand.
fn start_seats<
    's,
    E,
    N: Name + Send + Sync + 's,
    M: Route + Send + Sync + 's,
    W: Watcher + Sync + 's,
    R: Threads + Wait + Clock + Sync + 's,
>(
    scope: &'s Scope<'s, E>,
    rt: &'s R,
    start: &'s Mutex<bool>,
    seats: Vec<Seat<'s, N, M, W, R>>,
    handles: Handles<'s, N, M, W, R>,
) -> (Handles<'s, N, M, W, R>, bool)
    requires { (vec_len handles ≡ 0) × (vec_len seats ≤ vec_capacity handles) }
    ensures few { vec_len result.0 ≤ vec_len seats.entry }
    ensures seated { result.1 ≡ true → map (λ h. h.promise.0.value) result.0.items ≡ seats.entry.items }
{
    let mut handles = handles;
    for seat in seats {
        match start_seat(scope, rt, start, seat) {
            Some(handle) => handles.push_reserved(handle),
            None => return (handles, false),
        }
    }
    (handles, true)
}

/// Joins each thread, and puts what comes of it behind the others, for which there is room.
fn join_all<R: Threads, T: Drop, P: Promise<T>>(
    rt: &R,
    handles: Vec<PromisedHandle<T, P>>,
    results: Vec<T>,
) -> Vec<T>
    requires { (vec_len results ≡ 0) × (vec_len handles ≤ vec_capacity results) }
    ensures { AllZip (λ h t. P.kept_by h.promise t) handles.items result.items }
{
    let mut results = results;
    for handle in handles {
        results.push_reserved(handle.join(rt));
    }
    results
}
