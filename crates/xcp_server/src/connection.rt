//! Connections to a slave under a lock, whose stations submit for callers.
ghost use Rattle.std.specs.Prelude.{◌≡◌, ◌≤◌, [], vec_len, vec_capacity};
ghost use Rattle.std.specs.List.{AllByRecursion, AllZip};
ghost use Rattle.xcp_connection.specs.Closing.{AreOfOneOutlet};
ghost use Rattle.xcp_server.specs.private.ConnectionParts.{IsEndOf, with_callers};

use std::io::{Read, Write};
use std::sync::Wait;
use xcp_connection::{Closed, Heard, Pumped, Wrote, close};
use xcp_framing::Whole;
use xcp_locked::{Caller, Locked, Name, Tool};

/// The two parts of a connection, which have one outlet between them.
pub type Connection<'a, 'd, N, R, L, I, O> = xcp_connection::Connection<
    'a,
    'd,
    N,
    L,
    Locked<N>,
    Tool<'a, N, R>,
    I,
    Whole,
    O,
>;

/// What comes of the two parts of a connection, with its stations or with their callers, and of what was written for it.
pub type Parted<S, I, O> = (Heard<S, I>, Pumped<S>, Wrote<O>);

/// Puts together what came of the parts of each connection, for which there is room.
pub(crate) fn close_each<N: Name, R: Wait, I: Read + Drop, O: Write + Drop>(
    parted: Vec<Parted<Tool<'_, N, R>, I, O>>,
    room: Vec<Closed<Caller<N>, I, O>>,
) -> Vec<Closed<Caller<N>, I, O>>
    requires room { (room.items ≡ []) × (vec_len parted ≤ vec_capacity room) }
    requires one { AllByRecursion AreOfOneOutlet parted.items }
    ensures { AllZip IsEndOf parted.entry.items result.items }
{
    let mut closed = room;
    for one in parted {
        closed.push_reserved(close(with_callers(one)));
    }
    closed
}

/// What came of a connection, with the callers of its stations in place of these.
fn with_callers<N: Name, R: Wait, I: Read + Drop, O: Write + Drop>(
    parted: Parted<Tool<'_, N, R>, I, O>,
) -> Parted<Caller<N>, I, O>
    ensures { result ≡ with_callers parted.entry }
{
    let (heard, pumped, wrote) = parted;
    let heard = Heard {
        station: heard.station.into_caller(),
        outcome: heard.outcome,
        reader: heard.reader,
        put: heard.put,
    };
    let pumped = Pumped {
        station: pumped.station.into_caller(),
        outcome: pumped.outcome,
        put: pumped.put,
    };
    (heard, pumped, wrote)
}
