//! Who writes for each connection.
ghost use Rattle.std.specs.Prelude.{◌≡◌, ◌≤◌, ℕ, [], IfOk, IfSome, map, vec_capacity, vec_len};
ghost use Rattle.std.specs.List.{AllByRecursion};
ghost use Rattle.xcp_locked.specs.PairedLists.{EachFrom};
ghost use Rattle.xcp_server.specs.private.Dispatching.{IsFreshDispatch, IsPartedAt, before_at, failures_at, outlet_at};

use crate::connection::Parted;
use std::alloc::{AllocError, Global};
use std::io::{Read, Write};
use std::sync::{Mutex, Wait};
use xcp_connection::{Heard, Pumped, finish};
use xcp_framing::{Station, Watched};
use xcp_outlet::{DataEnd, Dispatch, LineName, ReplyEnd, SendEnd, outlet};

/// The most bytes of frames that one write takes.
const WRITE_SIZE: usize = 4_096;

/// The three ends of an outlet.
pub(crate) type Ends = (ReplyEnd, DataEnd, SendEnd);

/// An outlet for each of so many connections.
pub(crate) fn open_outlets(alloc: Global, count: usize) -> Result<Vec<Ends>, AllocError>
    ensures count { IfOk result (λ r. vec_len r ≡ count) }
    ensures fresh { IfOk result (λ r. AllByRecursion IsFreshDispatch r.items) }
{
    let mut outlets = Vec::with_capacity(alloc, count)?;
    for _one in 0..count {
        outlets.push_reserved(outlet(alloc)?);
    }
    Ok(outlets)
}

/// The readers of connections, the ends of their outlets that put, and who writes what these put.
#[derive(Drop)]
pub(crate) struct Dispatched<L: LineName, I: Read + Drop, O: Write + Drop> {
    pub readers: Vec<Watched<I>>,
    pub ends: Vec<(ReplyEnd, DataEnd)>,
    pub dispatches: Vec<Mutex<Dispatch<L, O>>>,
}

/// A dispatch for each connection, with its writer and its outlet, at its place.
pub(crate) fn open_dispatches<L: LineName, I: Read + Drop, O: Write + Drop>(
    alloc: Global,
    streams: Vec<(Watched<I>, Watched<O>)>,
    outlets: Vec<Ends>,
) -> Result<Dispatched<L, I, O>, AllocError>
    requires all { vec_len outlets ≡ vec_len streams }
    requires outlets { (place : ℕ) → L.outlet place ≡ outlet_at outlets.items place }
    requires before { (place : ℕ) → L.before place ≡ before_at O.contents streams.items place }
    requires failures { (place : ℕ) → L.failures place ≡ failures_at streams.items place }
    ensures readers { IfOk result (λ o. o.readers.items ≡ map (λ s. s.0) streams.items) }
    ensures ends { IfOk result (λ o. o.ends.items ≡ map (λ e. (e.0, e.1)) outlets.items) }
    ensures dispatches { IfOk result (λ o. vec_len o.dispatches ≡ vec_len streams) }
{
    let mut readers = Vec::with_capacity(alloc, streams.len())?;
    let mut ends = Vec::with_capacity(alloc, streams.len())?;
    let mut dispatches = Vec::with_capacity(alloc, streams.len())?;
    let mut outlets = outlets.into_iter();
    let mut place = 0;
    for (reader, writer) in streams {
        let Some((replies, samples, end)) = outlets.next() else {
            unreachable!()
        };
        readers.push_reserved(reader);
        ends.push_reserved((replies, samples));
        dispatches.push_reserved(Mutex::new(Dispatch::new(place, end, writer, WRITE_SIZE)));
        place += 1;
    }
    Ok(Dispatched {
        readers,
        ends,
        dispatches,
    })
}

/// What came of each connection, once what is left of it is written. A dispatch lies at its own place, since nobody moves one; but of what
/// lies under a lock no clause can say so: it is looked at, and where one lay elsewhere nothing would be told of any (`None`).
pub(crate) fn finish_each<L: LineName, S: Station + Drop, I: Read + Drop, O: Write + Drop, R: Wait>(
    rt: &R,
    parted: Vec<(Heard<S, I>, Pumped<S>)>,
    dispatches: Vec<Mutex<Dispatch<L, O>>>,
    room: Vec<Parted<S, I, O>>,
) -> Option<Vec<Parted<S, I, O>>>
    requires all { vec_len dispatches ≡ vec_len parted }
    requires room { (room.items ≡ []) × (vec_len parted ≤ vec_capacity room) }
    ensures { IfSome result (λ ds. EachFrom (IsPartedAt O.contents L.outlet L.before L.failures) 0 parted.items ds.items) }
{
    let mut finished = room;
    let mut dispatches = dispatches.into_iter();
    let mut place = 0;
    for (heard, pumped) in parted {
        let Some(dispatch) = dispatches.next() else {
            unreachable!()
        };
        let dispatch = dispatch.into_inner();
        if dispatch.place() != place {
            return None;
        }
        finished.push_reserved((heard, pumped, finish(rt, dispatch)));
        place += 1;
    }
    Some(finished)
}
