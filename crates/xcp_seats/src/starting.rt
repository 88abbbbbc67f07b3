//! Threads for seats, for who lets tools in, and for who makes them end.
ghost use Rattle.std.specs.Prelude.{◌≡◌, IfSome};
ghost use Rattle.xcp_seats.specs.Seating.{Sat, pair};

use crate::duty::Ward;
use crate::entrance::Entrance;
use crate::seat::{Seat, SeatMembers, sit};
use crate::watcher::Watcher;
use std::snapshot::Snapshot;
use std::sync::{Mutex, Wait};
use std::thread::{Promise, PromisedHandle, Scope, Threads};
use std::time::Clock;
use xcp_locked::Name;
use xcp_service::Route;

/// A seat's promise: all that it did was visit behind visit. It takes no memory.
#[derive(Drop)]
pub struct Sits<'a, N: Name, M: Route, W, T>(pub Snapshot<Seat<'a, N, M, W, T>>);

impl<'a, N: Name, M: Route, W, T> Promise<SeatMembers<N, M>> for Sits<'a, N, M, W, T> {
    ghost use Rattle.xcp_seats.specs.Seating.{Sat, pair};

    ghost kept_by = { λ p l. Sat p.0.value.max_cto (pair p.0.value.tool p.0.value.pump) (pair l.tool l.pump) };
}

/// Makes the thread of a seat, which waits for the start signal.
pub fn start_seat<
    's,
    E,
    N: Name + Send + Sync + 's,
    M: Route + Send + Sync + 's,
    W: Watcher + Sync + 's,
    T: Threads + Wait + Clock + Sync + 's,
>(
    scope: &'s Scope<'s, E>,
    rt: &'s T,
    start: &'s Mutex<bool>,
    seat: Seat<'s, N, M, W, T>,
) -> Option<PromisedHandle<SeatMembers<N, M>, Sits<'s, N, M, W, T>>>
    ensures { IfSome result (λ h. h.promise.0.value ≡ seat.entry) }
{
    let promise = Sits(Snapshot::of(&seat));
    scope
        .spawn_with(promise, move || once_started(rt, start, seat))
        .ok()
}

/// What a thread does: it waits until the signal can be read, and then begins or leaves.
fn once_started<
    'a,
    N: Name + Send + Sync,
    M: Route + Send + Sync,
    W: Watcher + Sync,
    T: Threads + Wait + Clock + Sync,
>(rt: &T, start: &Mutex<bool>, seat: Seat<'a, N, M, W, T>) -> SeatMembers<N, M>
    ensures { Sat seat.entry.max_cto (pair seat.entry.tool seat.entry.pump) (pair result.tool result.pump) }
{
    let go = *start.lock(rt);
    if go { sit(seat) } else { seat.into_members() }
}

/// Makes the thread of a ward, which waits for the start signal, and tells whether it stands. It ends with the scope.
pub fn start_ward<
    's,
    E,
    N: Name + Send + Sync + 's,
    M: Route + Send + Sync + 's,
    W: Watcher + Sync + 's,
    T: Threads + Wait + Clock + Sync + 's,
>(scope: &'s Scope<'s, E>, rt: &'s T, start: &'s Mutex<bool>, ward: Ward<'s, N, M, W>) -> bool {
    scope
        .spawn(move || {
            if *start.lock(rt) {
                ward.watch(rt);
            }
        })
        .is_ok()
}

/// Makes the thread of an entrance, which waits for the start signal, and tells whether it stands. It ends with the scope.
pub fn start_entrance<'s, E, W: Watcher + Sync + 's, T: Threads + Wait + Clock + Sync + 's>(
    scope: &'s Scope<'s, E>,
    rt: &'s T,
    start: &'s Mutex<bool>,
    entrance: Entrance<'s, W>,
) -> bool {
    scope
        .spawn(move || {
            if *start.lock(rt) {
                entrance.accept_tools(rt);
            }
        })
        .is_ok()
}
