//! How a server that stays ends.
ghost use Rattle.std.specs.Prelude.{◌≡◌, ◌++◌, IfOk, length, map, option_to_list, true};
ghost use Rattle.xcp_slave.specs.SlaveValue.{opening};
ghost use Rattle.xcp_locked.specs.Chapters.{entries_of};
ghost use Rattle.xcp_locked.specs.Journal.{exchanges};
ghost use Rattle.xcp_locked.specs.PublishingCalls.{AreImages};
ghost use Rattle.xcp_service.specs.Parcels.{AreNumbered};
ghost use Rattle.xcp_stay.specs.Stay.{IsClosed, LeavesKept};

use crate::running::Ended;
use crate::unmet::Unmet;
use crate::unstayed::Unstayed;
use std::alloc::{AllocError, Global};
use std::boxed::Box;
use std::sync::{Mutex, Wait};
use xcp_locked::{Locked, Name};
use xcp_scribe::Scribe;
use xcp_seats::{Rested, SeatMembers};
use xcp_service::{
    Collector, Former, Keeper, Member, Post, Resident, Resigned, Route, Timekeeper, Unkept,
    resign_all,
};

/// What is left of a server that stayed: its keeper, which took all chapters, the scribe that wrote them down, the slave, and its callers.
/// Nobody calls it any more.
#[derive(Drop)]
pub struct Stayed<N: Name, S: Scribe> {
    pub keeper: Keeper<N>,
    pub scribe: S,
    pub locked: Locked<N>,
    /// The callers of seats and tasks, in the order of their numbers: those of the seats' tools, then those of the tasks, then those of
    /// the seats' pumps. The one that told the time stands behind them, where the layout has a clock.
    pub members: Vec<Former<N>>,
    /// How many cycles tasks didn't have, since they were late by a period or more.
    pub late: u64,
}

/// How many cycles these tasks didn't have.
fn late_among<N: Name, M: Route>(rested: &[Rested<N, M>]) -> u64 {
    let mut late: u64 = 0;
    for task in rested {
        late = late.saturating_add(task.late);
    }
    late
}

/// The members of a team: those of the seats' tools, then those of the tasks, then those of the seats' pumps.
fn gather_team<N: Name, M: Route>(
    alloc: Global,
    left: Vec<SeatMembers<N, M>>,
    rested: Vec<Rested<N, M>>,
) -> Result<Vec<Member<N, M>>, AllocError>
    ensures { IfOk result (λ ms. ms.items ≡ map (λ l. l.tool) left.items
        ++ (map (λ r. r.member) rested.items ++ map (λ l. l.pump) left.items)) }
{
    let mut members = Vec::new(alloc);
    let mut pumps = Vec::new(alloc);
    for SeatMembers { tool, pump } in left {
        members.push(tool)?;
        pumps.push(pump)?;
    }
    for Rested { member, .. } in rested {
        members.push(member)?;
    }
    for pump in pumps {
        members.push(pump)?;
    }
    Ok(members)
}

/// The members of a team, and behind them the caller that tells the time, if one does.
fn gather<N: Name, M: Route>(
    alloc: Global,
    left: Vec<SeatMembers<N, M>>,
    rested: Vec<Rested<N, M>>,
    timekeeper: Option<Timekeeper<N, M>>,
) -> Result<Vec<Member<N, M>>, AllocError>
    ensures { IfOk result (λ ms. ms.items ≡ (map (λ l. l.tool) left.items
        ++ (map (λ r. r.member) rested.items ++ map (λ l. l.pump) left.items)) ++ option_to_list timekeeper) }
{
    let mut members = gather_team(alloc, left, rested)?;
    if let Some(timekeeper) = timekeeper {
        members.push(timekeeper.into_member())?;
    }
    Ok(members)
}

/// All members hand over what they have at hand.
fn hand_all_over<N: Name, M: Route, R: Wait>(
    rt: &R,
    alloc: Global,
    resident: &mut Resident<N, M>,
    post: &Post<N, M>,
    members: &mut [Member<N, M>],
)
    ensures resident { resident.new ≡ resident.old }
    ensures members { members.new ≡ members.old }
{
    for member in members.iter_mut() {
        member.hand_rest_over(rt, alloc, resident, post);
    }
}

/// Cuts the open chapter off, and has all members hand over what they have at hand. `false` where there is no memory.
fn close<N: Name, M: Route, R: Wait>(
    rt: &R,
    alloc: Global,
    resident: &mut Resident<N, M>,
    post: &Post<N, M>,
    members: &mut [Member<N, M>],
) -> bool
    ensures closed { result ≡ true → IsClosed resident.new.locked }
    ensures members { members.new ≡ members.old }
{
    if !resident.cut_chapter(rt, alloc, post) {
        return false;
    }
    if !resident.clear(rt, post) {
        return false;
    }
    hand_all_over(rt, alloc, resident, post, members);
    true
}

/// Ends what the members did, which are numbered in order: the open chapter is cut off, all hand over what they have at hand, the keeper takes what is left, and
/// each member resigns. The error is the keeper's, or what it finds at last.
pub(crate) fn conclude<N: Name, M: Route, S: Scribe, R: Wait>(
    rt: &R,
    alloc: Global,
    lock: Box<Mutex<Resident<N, M>>>,
    post: &Post<N, M>,
    timekeeper: Option<Timekeeper<N, M>>,
    ended: Ended<N, M, S>,
) -> Result<Stayed<N, S>, Unstayed<N>>
    requires numbered { AreNumbered 0 ((map (λ l. l.tool) ended.left.items
        ++ (map (λ d. d.member) ended.rested.items ++ map (λ l. l.pump) ended.left.items)) ++ option_to_list timekeeper) }
    ensures { IfOk result (λ s. LeavesKept N.layout (length s.members.items) (S.wrote s.scribe)
        s.keeper s.locked s.members.items
        × (s.members.items ≡ (map (λ l. l.tool) ended.left.items
        ++ (map (λ d. d.member) ended.rested.items ++ map (λ l. l.pump) ended.left.items)) ++ option_to_list timekeeper)) }
{
    let Ended { left, rested, kept } = ended;
    let collector = kept?;
    let late = late_among(&rested);
    let mut members = gather(alloc, left, rested, timekeeper)?;
    let (locked, collector) = take_rest(rt, alloc, lock, post, collector, &mut members)?;
    settle(alloc, locked, post, collector, members, late)
}

/// The open chapter is cut off, all members hand over what they have at hand, and the keeper takes what is left. The slave makes no more
/// calls. It isn't inlined, nor are `resign` and `settle`, so that each has its stack only for as long as it runs.
#[inline(never)]
fn take_rest<N: Name, M: Route, S: Scribe, R: Wait>(
    rt: &R,
    alloc: Global,
    lock: Box<Mutex<Resident<N, M>>>,
    post: &Post<N, M>,
    collector: Collector<N, M, S>,
    members: &mut [Member<N, M>],
) -> Result<(Locked<N>, Collector<N, M, S>), Unstayed<N>>
    ensures closed { IfOk result (λ r. IsClosed r.0) }
    ensures images { IfOk result (λ r. AreImages (opening N.layout) (exchanges (entries_of r.1.chapters)) r.0.writer.publications) }
    ensures members { members.new ≡ members.old }
{
    let mut resident = Box::into_inner(lock).into_inner();
    if close(rt, alloc, &mut resident, post, members) {
        collect_rest(rt, resident, post, collector)
    } else {
        Err(Unstayed::Memory)
    }
}

/// The keeper takes what is left, and the slave is given back.
fn collect_rest<N: Name, M: Route, S: Scribe, R: Wait>(
    rt: &R,
    resident: Resident<N, M>,
    post: &Post<N, M>,
    collector: Collector<N, M, S>,
) -> Result<(Locked<N>, Collector<N, M, S>), Unstayed<N>>
    requires { IsClosed resident.locked }
    ensures closed { IfOk result (λ r. IsClosed r.0) }
    ensures images { IfOk result (λ r. AreImages (opening N.layout) (exchanges (entries_of r.1.chapters)) r.0.writer.publications) }
{
    match collector.collect(rt, post) {
        Ok(collector) => resign(resident, post, collector),
        Err(halted) => Err(Unstayed::from(halted)),
    }
}

/// The slave is given back, where the keeper took all chapters that were ever cut off it.
#[inline(never)]
fn resign<N: Name, M: Route, S: Scribe>(
    resident: Resident<N, M>,
    post: &Post<N, M>,
    collector: Collector<N, M, S>,
) -> Result<(Locked<N>, Collector<N, M, S>), Unstayed<N>>
    requires { IsClosed resident.locked }
    ensures closed { IfOk result (λ r. IsClosed r.0) }
    ensures images { IfOk result (λ r. AreImages (opening N.layout) (exchanges (entries_of r.1.chapters)) r.0.writer.publications) }
{
    resident.known();
    let mut collector = collector;
    match resident.resign(post, &mut collector) {
        Some(locked) => Ok((locked, collector)),
        None => Err(Unstayed::Memory),
    }
}

/// All members resign, and the keeper meets the slave, which has no open call.
#[inline(never)]
fn settle<N: Name, M: Route, S: Scribe>(
    alloc: Global,
    locked: Locked<N>,
    post: &Post<N, M>,
    collector: Collector<N, M, S>,
    members: Vec<Member<N, M>>,
    late: u64,
) -> Result<Stayed<N, S>, Unstayed<N>>
    requires closed { IsClosed locked }
    requires images { AreImages (opening N.layout) (exchanges (entries_of collector.chapters)) locked.writer.publications }
    requires numbered { AreNumbered 0 members.items }
    ensures { IfOk result (λ s. LeavesKept N.layout (length s.members.items) (S.wrote s.scribe)
        s.keeper s.locked s.members.items × (s.members.items ≡ members.items)) }
{
    let resigned = match resign_all(alloc, post, collector, members) {
        Ok(resigned) => resigned,
        Err(Unkept::Memory) => return Err(Unstayed::Memory),
        Err(Unkept::Discord(_)) => unreachable!(),
    };
    let Resigned {
        keeper,
        scribe,
        members,
    } = resigned;
    if !keeper.meets(&locked) {
        return Err(Unstayed::Unmet(Unmet::new(&keeper, &locked)));
    }
    Ok(Stayed {
        keeper,
        scribe,
        locked,
        members,
        late,
    })
}
