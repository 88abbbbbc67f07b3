//! Connections and tasks, up to what is told of them.
ghost use Rattle.std.specs.Prelude.{◌≡◌, ◌<◌, ◌≤◌, ◌+◌, [], MatchResult, vec_len};
ghost use Rattle.xcp_server.specs.Report.{IsServed};
ghost use Rattle.xcp_locked.specs.UnnamedSlave.{IsNamed};

use crate::recording::write_open;
use crate::report::{Ending, conclude};
use crate::server::run_server;
use crate::timetable::Timetable;
use std::alloc::Global;
use std::io::{Read, Write};
use std::marker::Brand;
use std::sync::Wait;
use std::thread::Threads;
use std::time::Clock;
use xcp_framing::Watched;
use xcp_locked::{Name, Unnamed};
use xcp_program::Fault;
use xcp_scribe::Scribe;

/// The most reads of one connection.
const TURNS: u32 = 1_000_000;

/// The most turns of one connection's pump, each a Drain or a wait that ended.
const PUMP_TURNS: u32 = 4_000_000_000;

/// Serves each reader and writer by frames on this slave, and runs so many tasks of so many cycles,
/// all at the same time, of which task 0 cuts the open chapter from `chapter` calls on, 1 to 65,536;
/// joins them, ends the session, settles all callers for each chapter and tells how many chapters and
/// calls there were, or which chapter doesn't follow the one before it, or which caller's receipts
/// aren't the journal's. A task begins its cycle n once n of its periods, in nanoseconds, have passed
/// since the call. With `each_store` a store of pages ends a chapter too. The scribe is given each chapter when it is cut, in order, and the
/// open one at the end. `Memory`, and no other fault, is the call's own: it comes where memory or a thread is refused, before anybody has
/// begun.
pub fn serve_ends<
    I: Read + Send + Drop,
    O: Write + Send + Drop,
    S: Scribe,
    R: Threads + Wait + Clock + Sync,
>(
    rt: &R,
    alloc: Global,
    unnamed: Unnamed,
    streams: Vec<(Watched<I>, Watched<O>)>,
    tasks: u8,
    cycles: u32,
    chapter: u32,
    each_store: bool,
    periods: [u64; 6],
    scribe: S,
) -> Result<Ending<I, O, S>, Fault>
    requires some { 0 < vec_len streams }
    requires callers { vec_len streams + tasks + vec_len streams ≤ unnamed.callers }
    requires readers { tasks ≤ 6 }
    requires scribe { S.wrote scribe [] }
    ensures served { MatchResult result (IsServed Brand I.remaining O.contents S.wrote unnamed.layout 1000000
        cycles chapter each_store tasks unnamed.callers unnamed.bank streams.items) (λ f. f ≡ Fault.Memory) }
{
    serve_named::<Brand, I, O, S, R>(
        rt, alloc, unnamed, streams, tasks, cycles, chapter, each_store, periods, scribe,
    )
}

/// The same, for a slave that has a name.
fn serve_named<
    N: Name + Send + Sync,
    I: Read + Send + Drop,
    O: Write + Send + Drop,
    S: Scribe,
    R: Threads + Wait + Clock + Sync,
>(
    rt: &R,
    alloc: Global,
    unnamed: Unnamed,
    streams: Vec<(Watched<I>, Watched<O>)>,
    tasks: u8,
    cycles: u32,
    chapter: u32,
    each_store: bool,
    periods: [u64; 6],
    scribe: S,
) -> Result<Ending<I, O, S>, Fault>
    requires name { IsNamed unnamed N.name N.parts N.layout N.bank }
    requires some { 0 < vec_len streams }
    requires callers { vec_len streams + tasks + vec_len streams ≤ unnamed.callers }
    requires readers { tasks ≤ 6 }
    requires scribe { S.wrote scribe [] }
    ensures served { MatchResult result (IsServed N I.remaining O.contents S.wrote unnamed.layout 1000000
        cycles chapter each_store tasks unnamed.callers unnamed.bank streams.items) (λ f. f ≡ Fault.Memory) }
{
    let gate = Timetable::new(rt, periods);
    let Ok((mut closing, scribe)) = run_server::<N, _, _, _, S, _>(
        rt, alloc, unnamed, streams, tasks, cycles, chapter, each_store, TURNS, PUMP_TURNS, &gate,
        scribe,
    ) else {
        return Err(Fault::Memory);
    };
    let told = conclude(&mut closing);
    let scribe = write_open(scribe, &closing.locked);
    let journal = closing.locked.into_journal();
    let left = closing.left;
    Ok(Ending {
        told,
        journal,
        left,
        scribe,
    })
}
