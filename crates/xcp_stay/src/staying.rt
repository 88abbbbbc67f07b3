//! A server that stays.
ghost use Rattle.std.specs.Prelude.{◌≡◌, ◌≤◌, ◌+◌, ◌-◌, ◌^◌, min, [], IfErr, IfOk, IfSome, is_some, length, nat_lt, true};
ghost use Rattle.std.specs.List.{AllByRecursion};
ghost use Rattle.xcp_locked.specs.Caller.{callers_of};
ghost use Rattle.xcp_service.specs.Losing.{lost_in};
ghost use Rattle.xcp_service.specs.Residents.{IsUncut};
ghost use Rattle.xcp_service.specs.Telling.{has_clock};
ghost use Rattle.xcp_stay.specs.Stay.{IsKept, IsKeeperMismatch, LeavesKept};
ghost use Rattle.xcp_stay.specs.Team.{HaveAllServed, ToldTimes, timekeepers};
ghost use Rattle.xcp_locked.specs.UnnamedSlave.{IsNamed};

use crate::boxed::Boxed;
use crate::dealing::{Dealt, deal, make_doors};
use crate::ending::{Stayed, conclude};
use crate::running::run;
use crate::unstayed::{StayError, Unstayed};
use std::alloc::{AllocError, Global};
use std::boxed::Box;
use std::marker::Brand;
use std::sync::{Mutex, Wait};
use std::thread::Threads;
use std::time;
use xcp_locked::{Locked, Name, Opening, Reader, Unnamed};
use xcp_memory::{Clock, Layout};
use xcp_scribe::Scribe;
use xcp_seats::{Access, Hall, Halt, Lobby, Losses, Times, Watcher};
use xcp_service::{
    Collector, Member, Post, Posting, Resident, Route, Shared, Timekeeper, Unrouted,
};

/// How a server stays.
#[derive(Clone, Copy, Debug)]
pub struct Plan {
    /// How many tools may be connected at the same time.
    pub tools: u8,
    /// How many tasks run, 0 to 6.
    pub tasks: u8,
    /// The nanoseconds from one cycle of each task to its next. With 0 the next one begins at once.
    pub periods: [u64; 6],
    /// How long a connection waits for its tool before it is closed.
    pub times: Times,
    /// How many tools may wait while no seat is free.
    pub queue: u8,
    /// After how many seconds the journal's open chapter is cut off, where it has a call, if it is for the time alone.
    pub cut_every: Option<u32>,
    /// Whether the scribe keeps stored pages: a request to store ends its chapter then, and the store is finished once they lie on the shelf.
    pub keeps_pages: bool,
}

/// What is told of a server that stayed.
#[derive(Clone, Copy, Debug, PartialEq, Eq)]
pub struct StayReport {
    /// How many chapters the journal had, the last one included.
    pub chapters: u64,
    /// How many calls were accepted, all of them in these chapters.
    pub calls: u64,
    /// How many of them were events of tasks that found no room for their packets, 2^64 - 1 at most.
    pub lost: u64,
    /// How many cycles tasks didn't have, since they were late by a period or more.
    pub late: u64,
}

/// How many callers tell the time of a slave of this layout: one where it has a clock, and else none.
pub fn timekeepers(layout: &Layout) -> u8
    ensures value { result ≡ timekeepers layout.now }
    ensures most { result ≤ 1 }
{
    u8::from(layout.clock().stamp.size() > 0)
}

/// A slave and a post that are open, with MAX_CTO and the clock of the slave. The slave lies in a box, since each function through whose
/// hands it went would have room for it on the stack for as long as the server runs.
#[derive(Drop)]
struct Ready<N: Name> {
    opening: Box<Opening<N>>,
    unrouted: Unrouted<N>,
    max_cto: u8,
    clock: Clock,
}

/// Opens a slave, and serves tools that come by this access, so many at a time, one behind another, and runs so many tasks meanwhile,
/// until somebody asks it to end; each chapter of its journal is settled and dropped when its callers have handed their receipts
/// over. A tool that finds no seat and no place in the queue is turned away. It closes the connections then, lets the tasks end their cycle, settles what is left, and tells how many chapters and calls
/// there were. The first callers are those of the seats' tools, the next those of the tasks, which also have the first readers, and the
/// next those of the seats' pumps. Where the layout has a clock, one caller more, the last, tells the time from the opening on, before each
/// event of a task and each GET_DAQ_CLOCK, under the same hold.
///
/// Where a chapter or a caller's receipts aren't as they must be it ends at once, with `Discord`. `Memory` and `Listener` come before
/// anybody has begun; `Memory` comes also where the keeper has none, or a caller that hands over what it has at last.
pub fn stay<S: Scribe + Send, W: Watcher + Sync, R: Threads + Wait + time::Clock + Sync>(
    rt: &R,
    alloc: Global,
    unnamed: Unnamed,
    access: &Access,
    plan: Plan,
    scribe: S,
    halt: &Halt,
    watcher: &W,
) -> Result<(StayReport, S), StayError>
    requires callers { plan.tools + plan.tools + plan.tasks ≤ unnamed.callers }
    requires clock { has_clock unnamed.layout ≡ true → plan.tools + plan.tools + plan.tasks + 1 ≡ unnamed.callers }
    requires readers { plan.tasks ≤ 6 }
    requires scribe { S.wrote scribe [] }
    ensures kept { IfOk result (λ r. IsKept unnamed.layout unnamed.callers plan.tools plan.tasks
        (S.wrote r.1) r.0) }
    ensures mismatch { IfErr result (IsKeeperMismatch unnamed.layout unnamed.callers) }
{
    stay_and_tell::<Brand, S, W, R>(rt, alloc, unnamed, access, plan, scribe, halt, watcher)
}

/// The same, for a slave that has a name.
fn stay_and_tell<
    N: Name + Send + Sync,
    S: Scribe + Send,
    W: Watcher + Sync,
    R: Threads + Wait + time::Clock + Sync,
>(
    rt: &R,
    alloc: Global,
    unnamed: Unnamed,
    access: &Access,
    plan: Plan,
    scribe: S,
    halt: &Halt,
    watcher: &W,
) -> Result<(StayReport, S), StayError>
    requires name { IsNamed unnamed N.name N.parts N.layout N.bank }
    requires callers { plan.tools + plan.tools + plan.tasks ≤ unnamed.callers }
    requires clock { has_clock unnamed.layout ≡ true → plan.tools + plan.tools + plan.tasks + 1 ≡ unnamed.callers }
    requires readers { plan.tasks ≤ 6 }
    requires scribe { S.wrote scribe [] }
    ensures kept { IfOk result (λ r. IsKept unnamed.layout unnamed.callers plan.tools plan.tasks
        (S.wrote r.1) r.0) }
    ensures mismatch { IfErr result (IsKeeperMismatch unnamed.layout unnamed.callers) }
{
    let stayed = stay_named::<N, S, W, R>(rt, alloc, unnamed, access, plan, scribe, halt, watcher);
    match stayed {
        Ok(stayed) => {
            let told = report_of(&stayed);
            Ok((told, stayed.scribe))
        }
        Err(unstayed) => Err(unstayed.told()),
    }
}

/// What is told of a server that left this.
fn report_of<N: Name, S: Scribe>(stayed: &Stayed<N, S>) -> StayReport
    ensures chapters { result.chapters ≡ stayed.now.locked.chapter }
    ensures calls { result.calls ≡ stayed.now.locked.before }
    ensures lost { result.lost ≡ min (lost_in stayed.now.keeper.chapters) (2 ^ 64 - 1) }
{
    StayReport {
        chapters: stayed.locked.chapter(),
        calls: stayed.locked.before(),
        lost: stayed.keeper.lost(),
        late: stayed.late,
    }
}

/// Stays as `stay` does, on a slave that has a name, and gives back what is left then. All chapters that its keeper took are one run from
/// the opening to the slave as it is left, and each of them is settled by all callers; what it took of each member is all that this one ever
/// had. The members are those callers, as they are left, with which the seats did all their visits and the tasks all their cycles.
pub fn stay_named<
    N: Name + Send + Sync,
    S: Scribe + Send,
    W: Watcher + Sync,
    R: Threads + Wait + time::Clock + Sync,
>(
    rt: &R,
    alloc: Global,
    unnamed: Unnamed,
    access: &Access,
    plan: Plan,
    scribe: S,
    halt: &Halt,
    watcher: &W,
) -> Result<Stayed<N, S>, Unstayed<N>>
    requires name { IsNamed unnamed N.name N.parts N.layout N.bank }
    requires callers { plan.tools + plan.tools + plan.tasks ≤ unnamed.callers }
    requires clock { has_clock unnamed.layout ≡ true → plan.tools + plan.tools + plan.tasks + 1 ≡ unnamed.callers }
    requires readers { plan.tasks ≤ 6 }
    requires scribe { S.wrote scribe [] }
    ensures leaves { IfOk result (λ s. LeavesKept unnamed.layout (plan.tools + plan.tools + plan.tasks + timekeepers unnamed.layout)
        (S.wrote s.scribe) s.keeper s.locked s.members.items) }
    ensures served { IfOk result (λ s. HaveAllServed unnamed.layout unnamed.callers plan.tools plan.tasks s.members.items) }
{
    let Ok(scribe) = Box::new(alloc, scribe) else {
        return Err(Unstayed::Memory);
    };
    let boxed = Boxed { scribe };
    let ready = make_ready::<N>(alloc, unnamed)?;
    let stayed = stay_by_post::<N, Brand, S, W, R>(
        rt, alloc, ready, access, plan, boxed, halt, watcher,
    )?;
    Ok(unboxed(stayed))
}

/// Opens a slave and a post. It isn't inlined, so that its stack is free again while the server runs.
#[inline(never)]
fn make_ready<N: Name>(alloc: Global, unnamed: Unnamed) -> Result<Ready<N>, AllocError>
    requires name { IsNamed unnamed N.name N.parts N.layout N.bank }
    ensures first { IfOk result (λ r. IsUncut N.layout r.opening.value.locked) }
    ensures callers { IfOk result (λ r. r.opening.value.callers.items ≡ callers_of unnamed.layout unnamed.callers) }
    ensures limit { IfOk result (λ r. r.max_cto ≡ unnamed.layout.max_cto) }
    ensures clock { IfOk result (λ r. (r.clock ≡ unnamed.layout.clock) × (r.clock.unit ≤ 12)) }
{
    let max_cto = unnamed.max_cto();
    let clock = unnamed.clock();
    let unrouted = Unrouted::new(alloc)?;
    let opening = Locked::<N>::new(alloc, unnamed)?;
    let boxed = Box::new(alloc, opening)?;
    Ok(Ready {
        opening: boxed,
        unrouted,
        max_cto,
        clock,
    })
}

/// What is left, with the scribe out of its box.
fn unboxed<N: Name, S: Scribe>(stayed: Stayed<N, Boxed<S>>) -> Stayed<N, S>
    ensures { (result.keeper ≡ stayed.keeper) × (result.locked ≡ stayed.locked)
        × (result.members ≡ stayed.members) × (result.scribe ≡ stayed.scribe.scribe.value) }
{
    let Stayed {
        keeper,
        scribe,
        locked,
        members,
        late,
    } = stayed;
    Stayed {
        keeper,
        scribe: Box::into_inner(scribe.scribe),
        locked,
        members,
        late,
    }
}

/// The same, with a post that has a name.
fn stay_by_post<
    N: Name + Send + Sync,
    M: Route + Send + Sync,
    S: Scribe + Send,
    W: Watcher + Sync,
    R: Threads + Wait + time::Clock + Sync,
>(
    rt: &R,
    alloc: Global,
    ready: Ready<N>,
    access: &Access,
    plan: Plan,
    scribe: Boxed<S>,
    halt: &Halt,
    watcher: &W,
) -> Result<Stayed<N, Boxed<S>>, Unstayed<N>>
    requires relay { ready.unrouted ≡ M.relay }
    requires first { IsUncut N.layout ready.opening.value.locked }
    requires opened { ready.opening.value.callers.items ≡ callers_of N.layout N.parts }
    requires limit { ready.max_cto ≡ N.layout.max_cto }
    requires ticks { (ready.clock ≡ N.layout.clock) × (ready.clock.unit ≤ 12) }
    requires callers { plan.tools + plan.tools + plan.tasks ≤ length ready.opening.value.callers.items }
    requires clock { has_clock N.layout ≡ true → plan.tools + plan.tools + plan.tasks + 1 ≡ N.parts }
    requires readers { plan.tasks ≤ 6 }
    requires scribe { S.wrote scribe.scribe.value [] }
    ensures leaves { IfOk result (λ s. LeavesKept N.layout (plan.tools + plan.tools + plan.tasks + timekeepers N.layout)
        (S.wrote s.scribe.scribe.value) s.keeper s.locked s.members.items) }
    ensures served { IfOk result (λ s. HaveAllServed N.layout N.parts plan.tools plan.tasks s.members.items) }
{
    let Ready {
        opening,
        unrouted,
        max_cto,
        clock,
    } = ready;
    let doors = make_doors(alloc, plan.tools)?;
    let Posted {
        post,
        lock,
        members,
        readers,
        collector,
    } = open_post::<N, M, S>(alloc, unrouted, opening, scribe, plan.keeps_pages)?;
    let hall = Hall::new();
    let lobby = Lobby::new(alloc, plan.tools, plan.queue);
    let losses = Losses::new();
    let has_clock = clock.stamp.size() > 0;
    let dealt = deal(alloc, members, readers, collector, plan, has_clock)?;
    let Dealt { crew, timekeepers } = dealt;
    let shared = Shared {
        lock,
        post,
        timekeeper: hire(rt, clock, timekeepers),
    };
    let ended = run(
        rt,
        alloc,
        access,
        &lobby,
        &losses,
        &shared,
        doors.as_slice(),
        &hall,
        halt,
        watcher,
        crew,
        max_cto,
        plan,
    )?;
    let Shared {
        lock,
        post,
        timekeeper,
    } = shared;
    conclude(rt, alloc, lock, &post, dismiss(timekeeper), ended)
}

/// A post that is open, with its members, and the slave whose chapters go by it, under its lock, with its readers.
#[derive(Drop)]
struct Posted<N: Name, M: Route, S: Scribe> {
    post: Post<N, M>,
    lock: Box<Mutex<Resident<N, M>>>,
    members: Vec<Member<N, M>>,
    readers: [Reader<N>; 6],
    collector: Collector<N, M, Boxed<S>>,
}

/// Opens the post, and puts the slave into a box. It isn't inlined, so that its stack is free again while the server runs.
#[inline(never)]
fn open_post<N: Name, M: Route, S: Scribe>(
    alloc: Global,
    unrouted: Unrouted<N>,
    opening: Box<Opening<N>>,
    scribe: Boxed<S>,
    keeps_pages: bool,
) -> Result<Posted<N, M, S>, AllocError>
    requires relay { unrouted ≡ M.relay }
    requires first { IsUncut N.layout opening.value.locked }
    requires callers { opening.value.callers.items ≡ callers_of N.layout N.parts }
    requires scribe { S.wrote scribe.scribe.value [] }
    ensures members { IfOk result (λ p. p.members.items ≡ opening.value.callers.items) }
{
    let Opening {
        locked,
        callers,
        readers,
    } = Box::into_inner(opening);
    let Posting {
        post,
        resident,
        members,
        collector,
    } = unrouted.open::<M, Boxed<S>>(alloc, locked, callers, scribe, keeps_pages)?;
    let lock = Box::new(alloc, Mutex::new(resident))?;
    Ok(Posted {
        post,
        lock,
        members,
        readers,
        collector,
    })
}

/// The first of these members tells the time from now on, under a lock of its own.
fn hire<N: Name, M: Route>(
    rt: &impl time::Clock,
    clock: Clock,
    members: Vec<Member<N, M>>,
) -> Option<Mutex<Timekeeper<N, M>>>
    requires clock { (clock ≡ N.layout.clock) × (clock.unit ≤ 12) }
    requires last { AllByRecursion (λ c. c.number + 1 ≡ N.parts) members.items }
    requires fresh { AllByRecursion (λ c. c.receipts ≡ []) members.items }
    ensures { is_some result ≡ nat_lt 0 (length members.items) }
{
    let member = members.into_iter().next()?;
    Some(Mutex::new(Timekeeper::new(rt, clock, member)))
}

/// Who told the time, if one did, with all receipts that it ever had.
fn dismiss<N: Name, M: Route>(
    timekeeper: Option<Mutex<Timekeeper<N, M>>>,
) -> Option<Timekeeper<N, M>>
    ensures same { is_some result ≡ is_some timekeeper }
    ensures told { IfSome result (ToldTimes N.parts) }
{
    let timekeeper = timekeeper?.into_inner();
    timekeeper.known();
    Some(timekeeper)
}
