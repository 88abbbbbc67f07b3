//! A connection before it begins.
ghost use Rattle.std.specs.Prelude.{◌≡◌, [], false, true};
ghost use Rattle.xcp_connection.specs.Parts.{IsConnectionOf};

use crate::hearing::Hearing;
use crate::pumping::Pumping;
use std::alloc::Global;
use std::io::{Read, Write};
use std::marker::PhantomData;
use std::sync::Mutex;
use std::sync::atomic::AtomicBool;
use xcp_framing::{Station, Watched};
use xcp_locked::{HasSlave, Name};
use xcp_outlet::{DataEnd, Dispatch, LineName, ReplyEnd};

/// The two parts of a connection, which have one outlet between them: each writes what it has put.
pub type Connection<'a, 'd, N, L, T, S, I, P, O> = (
    Hearing<'a, N, T, S, I, P, &'d Mutex<Dispatch<L, O>>>,
    Pumping<'a, S, &'d Mutex<Dispatch<L, O>>>,
);

/// How long connections may go on: the largest packet, how many turns the reads of a passage and a call of the
/// pump have, and whether the pump goes on behind these.
#[derive(Clone, Copy, Debug)]
pub struct Limits {
    pub max_cto: u8,
    pub turns: u32,
    pub pump_turns: u32,
    pub goes_on: bool,
}

/// A connection of a reader, of a station for its tool and one for its pump, and of the two ends of an outlet, which have put nothing: what
/// they put is written by this dispatch.
pub fn connect<
    'a,
    'd,
    N: Name,
    L: LineName,
    T: HasSlave<N>,
    S: Station + Drop,
    I: Read + Drop,
    P: Drop,
    O: Write + Drop,
>(
    alloc: Global,
    lock: &'a Mutex<T>,
    stop: &'a AtomicBool,
    dispatch: &'d Mutex<Dispatch<L, O>>,
    reader: Watched<I>,
    ends: (ReplyEnd, DataEnd),
    tool: S,
    pump: S,
    passages: P,
    limits: Limits,
) -> Connection<'a, 'd, N, L, T, S, I, P, O>
    requires replies { ends.0 ≡ record { outlet = ends.0.outlet; side = false; put = [] } }
    requires samples { ends.1 ≡ record { outlet = ends.0.outlet; side = true; put = [] } }
    ensures { IsConnectionOf limits reader ends.0.outlet tool pump result }
{
    let (replies, samples) = ends;
    let hearing = Hearing {
        lock,
        station: tool,
        reader,
        passages,
        replies,
        forward: dispatch,
        stop,
        alloc,
        max_cto: limits.max_cto,
        turns: limits.turns,
        of: PhantomData,
    };
    let pumping = Pumping {
        station: pump,
        samples,
        forward: dispatch,
        stop,
        turns: limits.pump_turns,
        goes_on: limits.goes_on,
    };
    (hearing, pumping)
}
