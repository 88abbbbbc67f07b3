//! Members and readers are dealt to seats and tasks.
ghost use Rattle.std.specs.Prelude.{◌≡◌, ◌≤◌, ◌+◌, ◌++◌, All, IfOk, List, if◌then◌else◌, length, map, true, vec_len};
ghost use Rattle.std.specs.Vec.Iter.{into_iter_items};
ghost use Rattle.xcp_stay.specs.Team.{SeatsFrom, TasksFrom};

use crate::staying::Plan;
use std::alloc::{AllocError, Global};
use std::vec::IntoIter;
use xcp_locked::{ImageBuffer, Name, Reader};
use xcp_scribe::Scribe;
use xcp_seats::{Access, Door, Hall, Halt, Lobby, Losses, Pace, Seat, SeatPlace, Ticker};
use xcp_service::{Collector, Member, Route, Shared};

/// What the seats of a server share.
#[derive(Drop)]
pub(crate) struct Common<'a, N: Name, M: Route, W, R> {
    pub rt: &'a R,
    pub shared: &'a Shared<N, M>,
    pub access: &'a Access,
    pub lobby: &'a Lobby,
    pub doors: &'a [Door],
    pub hall: &'a Hall,
    pub halt: &'a Halt,
    pub watcher: &'a W,
}

/// Who serves: the members of the seats, for their tools and for their pumps, those of the tasks, with all readers, and a keeper.
#[derive(Drop)]
pub(crate) struct Crew<N: Name, M: Route, S: Scribe> {
    pub tools: Vec<Member<N, M>>,
    pub hired: Vec<Member<N, M>>,
    pub pumps: Vec<Member<N, M>>,
    pub readers: Vec<Reader<N>>,
    pub collector: Collector<N, M, S>,
}

/// Members that were dealt out, and behind those of the crew the one that tells the time, if one does.
#[derive(Drop)]
pub(crate) struct Dealt<N: Name, M: Route, S: Scribe> {
    pub crew: Crew<N, M, S>,
    pub timekeepers: Vec<Member<N, M>>,
}

/// A door for each seat.
pub(crate) fn make_doors(alloc: Global, count: u8) -> Result<Vec<Door>, AllocError>
    ensures { IfOk result (λ ds. vec_len ds ≡ count) }
{
    let mut doors = Vec::with_capacity(alloc, count as usize)?;
    for _one in 0..count {
        doors.push_reserved(Door::new());
    }
    Ok(doors)
}

/// Deals members out: the first to the seats, for their tools, the next to so many tasks, and the next to the seats, for their pumps. The
/// one behind them tells the time, if one does.
pub(crate) fn deal<N: Name, M: Route, S: Scribe>(
    alloc: Global,
    members: Vec<Member<N, M>>,
    readers: [Reader<N>; 6],
    collector: Collector<N, M, S>,
    plan: Plan,
    has_clock: bool,
) -> Result<Dealt<N, M, S>, AllocError>
    requires callers { plan.tools + plan.tools + plan.tasks ≤ length members.items }
    requires clock { has_clock ≡ true → plan.tools + plan.tools + plan.tasks + 1 ≡ length members.items }
    ensures tools { IfOk result (λ d. vec_len d.crew.tools ≡ plan.tools) }
    ensures hired { IfOk result (λ d. vec_len d.crew.hired ≡ plan.tasks) }
    ensures pumps { IfOk result (λ d. vec_len d.crew.pumps ≡ plan.tools) }
    ensures timekeepers { IfOk result (λ d. vec_len d.timekeepers ≡ (if has_clock then 1 else 0)) }
    ensures readers { IfOk result (λ d. vec_len d.crew.readers ≡ 6) }
    ensures members { IfOk result (λ d. (spare : List _)
        × (members.items ≡ d.crew.tools.items ++ (d.crew.hired.items ++ (d.crew.pumps.items ++ (d.timekeepers.items ++ spare))))) }
    ensures all_readers { IfOk result (λ d. d.crew.readers.items ≡ readers) }
{
    let Ok(readers) = Vec::from_array(alloc, readers) else {
        return Err(AllocError);
    };
    let mut members = members.into_iter();
    let tools = next_members(alloc, &mut members, plan.tools as usize)?;
    let hired = next_members(alloc, &mut members, plan.tasks as usize)?;
    let pumps = next_members(alloc, &mut members, plan.tools as usize)?;
    let timekeepers = next_members(alloc, &mut members, usize::from(has_clock))?;
    let crew = Crew {
        tools,
        hired,
        pumps,
        readers,
        collector,
    };
    Ok(Dealt { crew, timekeepers })
}

/// So many of the next members.
fn next_members<N: Name, M: Route>(
    alloc: Global,
    members: &mut IntoIter<Member<N, M>>,
    count: usize,
) -> Result<Vec<Member<N, M>>, AllocError>
    requires { count ≤ length (into_iter_items members.old) }
    ensures count { IfOk result (λ ms. vec_len ms ≡ count) }
    ensures dealt { IfOk result (λ ms. ms.items ++ into_iter_items members.new ≡ into_iter_items members.old) }
{
    let mut taken = Vec::with_capacity(alloc, count)?;
    for _one in 0..count {
        let Some(member) = members.next() else {
            unreachable!()
        };
        taken.push_reserved(member);
    }
    Ok(taken)
}

/// A seat behind each door, with a number of its own, a member for its tools and one for their pumps.
pub(crate) fn make_seats<'a, N: Name, M: Route, W, R>(
    alloc: Global,
    common: &Common<'a, N, M, W, R>,
    tools: Vec<Member<N, M>>,
    pumps: Vec<Member<N, M>>,
    max_cto: u8,
    plan: Plan,
) -> Result<Vec<Seat<'a, N, M, W, R>>, AllocError>
    requires doors { length common.now.doors.now ≡ plan.tools }
    requires tools { vec_len tools ≡ plan.tools }
    requires pumps { vec_len pumps ≡ plan.tools }
    ensures tools { IfOk result (λ ss. map (λ s. s.tool) ss.items ≡ tools.items) }
    ensures pumps { IfOk result (λ ss. map (λ s. s.pump) ss.items ≡ pumps.items) }
    ensures limit { IfOk result (λ ss. All (λ s. s.max_cto ≡ max_cto) ss.items) }
    ensures numbered { IfOk result (λ ss. SeatsFrom 0 ss.items) }
{
    let mut seats = Vec::with_capacity(alloc, plan.tools as usize)?;
    let mut tools = tools.into_iter();
    let mut pumps = pumps.into_iter();
    for number in 0..plan.tools {
        let Some(tool) = tools.next() else {
            unreachable!()
        };
        let Some(pump) = pumps.next() else {
            unreachable!()
        };
        let place = SeatPlace {
            number,
            max_cto,
            times: plan.times,
            access: common.access,
            lobby: common.lobby,
            door: &common.doors[number as usize],
            halt: common.halt,
            hall: common.hall,
            watcher: common.watcher,
        };
        seats.push_reserved(Seat {
            rt: common.rt,
            shared: common.shared,
            alloc,
            tool,
            pump,
            place,
        });
    }
    Ok(seats)
}

/// So many tasks, numbered from 0, with these members and the first of these readers.
pub(crate) fn make_tickers<'a, N: Name, M: Route, R>(
    alloc: Global,
    shared: &'a Shared<N, M>,
    losses: &'a Losses,
    halt: &'a Halt,
    pace: &'a Pace<'a, R>,
    members: Vec<Member<N, M>>,
    readers: Vec<Reader<N>>,
    tasks: u8,
) -> Result<Vec<Ticker<'a, N, M, R>>, AllocError>
    requires members { vec_len members ≡ tasks }
    requires readers { tasks ≤ vec_len readers }
    ensures members { IfOk result (λ ts. map (λ t. t.caller) ts.items ≡ members.items) }
    ensures readers { IfOk result (λ ts. (unused : List _) × (map (λ t. t.reader) ts.items ++ unused ≡ readers.items)) }
    ensures numbered { IfOk result (λ ts. TasksFrom 0 ts.items) }
{
    let mut tickers = Vec::with_capacity(alloc, tasks as usize)?;
    let mut members = members.into_iter();
    let mut readers = readers.into_iter();
    for task in 0..tasks {
        let Some(member) = members.next() else {
            unreachable!()
        };
        let Some(reader) = readers.next() else {
            unreachable!()
        };
        let image = ImageBuffer::new(alloc, &reader)?;
        tickers.push_reserved(Ticker {
            shared,
            alloc,
            task,
            member,
            reader,
            image,
            pace,
            losses,
            halt,
        });
    }
    Ok(tickers)
}
