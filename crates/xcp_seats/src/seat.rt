//! A seat for one tool after another.
ghost use Rattle.std.specs.Prelude.{◌≡◌, ◌⊎◌};
ghost use Rattle.xcp_seats.specs.Seating.{Attends, Sat, Visits, pair, told_visit};

use crate::access::{Access, Line};
use crate::closing::ClosingSocket;
use crate::door::Door;
use crate::hall::{Departure, Hall};
use crate::halt::Halt;
use crate::lobby::Lobby;
use crate::mail::{Mail, Outgoing};
use crate::patient::{Patient, Patiently, Times};
use crate::port::Visit;
use crate::watcher::Watcher;
use std::alloc::Global;
use std::marker::Model;
use std::net::SocketAddr;
use std::sync::Wait;
use std::sync::atomic::{AtomicBool, Ordering};
use std::thread::Threads;
use std::time::Clock;
use xcp_connection::{Attended, Limits, attend};
use xcp_framing::{Noting, ServeError, Served, Watched};
use xcp_locked::Name;
use xcp_service::{Member, Resident, Route, Seated, Shared};

/// The most reads of one passage; a connection has as many passages as it needs.
const TURNS: u32 = 4_294_967_295;

/// The most turns of one call of `pump`. Behind it the next call goes on.
const PUMP_TURNS: u32 = 1_000_000_000;

/// Where a seat is.
#[derive(Drop)]
pub struct SeatPlace<'a, W> {
    pub number: u8,
    pub max_cto: u8,
    pub times: Times,
    pub access: &'a Access,
    pub lobby: &'a Lobby,
    pub door: &'a Door,
    pub halt: &'a Halt,
    pub hall: &'a Hall,
    pub watcher: &'a W,
}

/// A seat: a member for its tools, and one for their pumps. It takes one tool after another out of the lobby, and serves each by two parts, of which it is
/// the first; the other, the pump, has a thread of its own as long as the tool is there.
#[derive(Drop)]
pub struct Seat<'a, N: Name, M: Route, W, T> {
    pub rt: &'a T,
    pub shared: &'a Shared<N, M>,
    pub alloc: Global,
    pub tool: Member<N, M>,
    pub pump: Member<N, M>,
    pub place: SeatPlace<'a, W>,
}

// Clauses see its number, its members and MAX_CTO alone, which keeps proofs about its thread small.
impl<'a, N: Name, M: Route, W, T> Model for Seat<'a, N, M, W, T> {
    ghost use Rattle.xcp_seats.specs.Seating.{SeatValue};

    ghost Value = { SeatValue };

    ghost view = { λ s. record { number = s.place.number; tool = s.tool; pump = s.pump; max_cto = s.place.max_cto } };
}

/// The members of a seat, once nobody is served any more.
#[derive(Drop)]
pub struct SeatMembers<N: Name, M: Route> {
    pub tool: Member<N, M>,
    pub pump: Member<N, M>,
}

/// What a seat does: it takes one tool after another, and serves each, until the server is asked to end.
pub fn sit<
    'a,
    N: Name + Send + Sync,
    M: Route + Send + Sync,
    W: Watcher + Sync,
    T: Threads + Wait + Clock + Sync,
>(seat: Seat<'a, N, M, W, T>) -> SeatMembers<N, M>
    ensures { Sat seat.entry.max_cto (pair seat.entry.tool seat.entry.pump) (pair result.tool result.pump) }
{
    let Seat {
        rt,
        shared,
        alloc,
        tool,
        pump,
        place,
    } = seat;
    let mut left = SeatMembers { tool, pump };
    for _visit in rt.forever() {
        let Some((line, address)) = next_tool(rt, &place) else {
            break;
        };
        left = visit(rt, alloc, shared, &place, line, address, left);
        place.lobby.free(rt);
    }
    left
}

/// The next tool, by what it is served, and its address. `None` where there is none any more. At a port the first seat alone has tools.
fn next_tool<'a, W: Watcher, T: Wait + Clock>(
    rt: &T,
    place: &SeatPlace<'a, W>,
) -> Option<(Line<'a>, SocketAddr)> {
    match place.access {
        Access::Streams(_) => {
            let (stream, address) = place.lobby.next(rt)?;
            Some((Line::Stream(stream), address))
        }
        Access::Datagrams(_) if place.number > 0 => {
            place.halt.wait(rt);
            None
        }
        Access::Datagrams(port) => {
            let address = port.next(rt, place.max_cto, place.halt, place.watcher)?;
            Some((Line::Datagrams(port), address))
        }
    }
}

impl<'a, N: Name, M: Route, W, T> Seat<'a, N, M, W, T> {
    /// The members of a seat that didn't begin.
    pub fn into_members(self) -> SeatMembers<N, M>
        ensures { Sat self.entry.max_cto (pair self.entry.tool self.entry.pump) (pair result.tool result.pump) }
    {
        let Seat { tool, pump, .. } = self;
        SeatMembers { tool, pump }
    }
}

/// One visit of a tool: it is served until its connection is closed. The last one that goes ends the session.
fn visit<
    N: Name + Send + Sync,
    M: Route + Send + Sync,
    W: Watcher + Sync,
    T: Threads + Wait + Clock + Sync,
>(
    rt: &T,
    alloc: Global,
    shared: &Shared<N, M>,
    place: &SeatPlace<'_, W>,
    line: Line<'_>,
    address: SocketAddr,
    left: SeatMembers<N, M>,
) -> SeatMembers<N, M>
    ensures { Visits place.now.max_cto (pair left.tool left.pump) (pair result.tool result.pump) }
{
    place.watcher.came(place.number, address);
    place.hall.enter(rt);
    let SeatMembers { tool, pump } = left;
    let tool = Seated::new(rt, alloc, shared, tool, place.number);
    let pump = Seated::new(rt, alloc, shared, pump, place.number);
    let was_idle = AtomicBool::new(false);
    let (mut tool, pump, end) = serve_tool(
        rt, alloc, shared, place, line, address, &was_idle, tool, pump,
    );
    let departure = place.hall.depart(rt, &mut tool);
    if was_idle.load(Ordering::SeqCst) {
        place.watcher.idle(place.number, address);
    }
    place
        .watcher
        .gone(place.number, address, told_end(end, departure));
    SeatMembers {
        tool: tool.into_member(),
        pump: pump.into_member(),
    }
}

/// How a visit ended, as it is told: a Hangup that was refused is a fault where the connection had none.
fn told_end(end: Result<Served, ServeError>, departure: Departure) -> Result<Served, ServeError>
    ensures { result ≡ told_visit end departure }
{
    let served = end?;
    if let Departure::Last(Err(refused)) = departure {
        return Err(ServeError::from(refused));
    }
    Ok(served)
}

/// The two stations of a seat, and how a connection ended.
type Seats<'r, N, M, T> = (
    Seated<'r, N, M, T>,
    Seated<'r, N, M, T>,
    Result<Served, ServeError>,
);

/// Serves a tool, from its first frame until its connection is closed, and answers how it ended. `Memory` comes also where the connection
/// can't begin.
fn serve_tool<
    'r,
    N: Name + Send + Sync,
    M: Route + Send + Sync,
    W,
    T: Threads + Wait + Clock + Sync,
>(
    rt: &'r T,
    alloc: Global,
    shared: &'r Shared<N, M>,
    place: &SeatPlace<'_, W>,
    line: Line<'_>,
    address: SocketAddr,
    was_idle: &AtomicBool,
    tool: Seated<'r, N, M, T>,
    pump: Seated<'r, N, M, T>,
) -> Seats<'r, N, M, T>
    ensures { (pair result.0.member result.1.member ≡ pair tool.entry.member pump.entry.member)
        ⊎ Attends place.now.max_cto result.2 (pair tool.entry.member pump.entry.member) (pair result.0.member result.1.member) }
{
    let write_size = line.write_size();
    let Some((reader, writer)) = ends_of(rt, place, line, address, was_idle) else {
        return (tool, pump, Err(ServeError::Memory));
    };
    let stream = (Watched::new(reader), Watched::new(Noting::new(writer)));
    let attended = attend::<N, Resident<N, M>, _, _, _, _, _>(
        rt,
        alloc,
        shared.lock.as_ref(),
        &place.door.stop,
        stream,
        tool,
        pump,
        Patiently,
        Limits {
            max_cto: place.max_cto,
            turns: TURNS,
            pump_turns: PUMP_TURNS,
            goes_on: true,
        },
        write_size,
    );
    place.door.forget(rt);
    match attended {
        Ok(
            Attended {
                tool,
                pump,
                outcome,
                ..
            },
        ) => (tool, pump, outcome),
        Err((tool, pump)) => (tool, pump, Err(ServeError::Memory)),
    }
}

/// What is read of a tool, and where what is written for it goes. Who closes its connection can do so from now on.
fn ends_of<'a, W, T: Wait + Clock>(
    rt: &'a T,
    place: &SeatPlace<'a, W>,
    line: Line<'a>,
    address: SocketAddr,
    was_idle: &'a AtomicBool,
) -> Option<(Patient<'a, T>, Outgoing<'a>)> {
    let stream = match line {
        Line::Stream(stream) => stream,
        Line::Datagrams(port) => {
            let visit = Visit {
                rt,
                port,
                tool: address,
                max_cto: place.max_cto,
                halt: place.halt,
            };
            let mail = Mail { port, to: address };
            return Some((
                Patient::visiting(visit, place.times, was_idle),
                Outgoing::Datagrams(mail),
            ));
        }
    };
    // Where it can't be set, as with a tool that has gone again, answers are late at most.
    let _ = stream.set_nodelay(true);
    let (Ok(writer), Ok(handle)) = (stream.try_clone(), stream.try_clone()) else {
        return None;
    };
    place.door.open(rt, handle);
    if place.halt.is_asked() {
        place.door.shut(rt);
    }
    Some((
        Patient::new(stream, place.times, was_idle),
        Outgoing::Stream(ClosingSocket::new(writer)),
    ))
}
