//! The packets that wait in a station, put at an end that has them sent.
ghost use Rattle.std.specs.Prelude.{◌≡◌, IfErr};
ghost use Rattle.xcp_framing.specs.Pump.{DrainAgain, Pumps};
ghost use Rattle.xcp_framing.specs.ServeRefusal.{OnRefusal, StationRefused};
ghost use Rattle.xcp_framing.specs.ServeParts.{IsInterruption};
ghost use Rattle.xcp_framing.specs.private.HeldPump.{PumpsHeld};

use crate::gathering::{hand_on, make_room};
use crate::{Batch, End, ServeError, Station};
use std::sync::atomic::{AtomicBool, Ordering};

/// The most Drains under one hold of a station.
const DRAINS: u8 = 64;

/// Drains what waits, in turns, until it sees `stop` or its turns are spent, and gathers the packets
/// in a batch, which is put where it has no room for those of one more `Drain`. Where nothing waits it
/// puts the batch, and waits.
fn pump_turns<S: Station, E: End>(
    station: &mut S,
    end: &mut E,
    batch: &mut Batch,
    stop: &AtomicBool,
    turns: u32,
) -> Result<u64, ServeError>
    ensures pumps { PumpsHeld result (S.exchanges station.old) (S.exchanges station.new)
        (E.put_so_far end.old) batch.old (E.put_so_far end.new) batch.new }
    ensures kept { E.same end.old end.new }
    ensures stays { S.same station.old station.new }
    ensures stops { IfErr result IsInterruption }
    ensures refused { OnRefusal result (λ e. StationRefused S.exchanges S.refuses e DrainAgain
        (S.exchanges station.old) station.new) }
{
    let mut count = 0;
    for _turn in 0..turns {
        if stop.load(Ordering::SeqCst) {
            return Ok(count);
        }
        make_room(batch, end)?;
        let drained = station.drain_into(batch, end.alloc(), DRAINS)?;
        count += drained;
        if drained == 0 {
            hand_on(batch, end, false)?;
            station.wait(stop);
        }
    }
    Ok(count)
}

/// Submits `Drain` where a packet waits, and puts the packets, until it sees `stop` or its turns
/// are spent. A turn drains what waits, at most 64 packets, under one hold of the station
/// (`Station::drain_into`); where nothing waits, it is a wait at the station for a packet, or for
/// `stop`. `Ok` is the number of packets put. They are gathered in a batch, which is put before each
/// wait, before any return, and where it has no room for those of one more `Drain`. `Write` comes where
/// a batch is handed back, `NoRoom` where one wants memory.
pub fn pump<S: Station, E: End>(
    station: &mut S,
    end: &mut E,
    stop: &AtomicBool,
    turns: u32,
) -> Result<u64, ServeError>
    // The exchanges are Drains, and the packets of their answers were put, in order.
    ensures pumps { Pumps result (S.exchanges station.old) (S.exchanges station.new)
        (E.put_so_far end.old) (E.put_so_far end.new) }
    ensures kept { E.same end.old end.new }
    ensures stays { S.same station.old station.new }
    ensures stops { IfErr result IsInterruption }
    ensures refused { OnRefusal result (λ e. StationRefused S.exchanges S.refuses e DrainAgain
        (S.exchanges station.old) station.new) }
{
    let mut batch = Batch::new(end.alloc());
    let pumped = pump_turns(station, end, &mut batch, stop, turns);
    hand_on(&mut batch, end, false)?;
    pumped
}
