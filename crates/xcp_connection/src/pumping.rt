//! The part of a connection that puts what the slave samples.
ghost use Rattle.std.specs.Prelude.{◌≡◌, ◌⊎◌, IfErr, true};
ghost use Rattle.xcp_framing.specs.Pump.{Pumps};
ghost use Rattle.xcp_framing.specs.ServeParts.{IsInterruption};
ghost use Rattle.xcp_connection.specs.Pumping.{PumpDrains};

use std::sync::Wait;
use std::sync::atomic::{AtomicBool, Ordering};
use together::Work;
use xcp_framing::{ServeError, Station, pump};
use xcp_outlet::{DataEnd, DataSide, Forward, Put, WaitingEnd};

/// The part of a connection that drains the packets which wait, and waits where none do, until it sees
/// `stop`, or its turns are spent and it doesn't go on.
#[derive(Drop)]
pub struct Pumping<'a, S: Station + Drop, F: Forward + Drop> {
    pub station: S,
    pub samples: DataEnd,
    /// By whom the data packets are written.
    pub forward: F,
    pub stop: &'a AtomicBool,
    /// The most turns of one call of `pump`.
    pub turns: u32,
    /// Whether another call follows behind the one whose turns are spent.
    pub goes_on: bool,
}

/// What comes of a pump: `Ok` is how many packets its last call has put.
#[derive(Drop)]
pub struct Pumped<S: Drop> {
    pub station: S,
    pub outcome: Result<u64, ServeError>,
    pub put: Put,
}

impl<'a, S: Station + Send + Drop, F: Forward + Send + Drop> Work<Pumped<S>> for Pumping<'a, S, F> {
    ghost use Rattle.xcp_connection.specs.Pumping.{PumpedFor};

    ghost gives = { λ p d. PumpedFor S.exchanges S.same p.goes_on p.station p.samples d };

    fn run<R: Wait>(self, rt: &R) -> Pumped<S> {
        let Pumping {
            mut station,
            samples,
            forward,
            stop,
            turns,
            goes_on,
        } = self;
        let mut samples = WaitingEnd::new(rt, samples, forward);
        let outcome = drain(rt, &mut station, &mut samples, stop, turns, goes_on);
        let put = samples.into_end().finish(rt);
        Pumped {
            station,
            outcome,
            put,
        }
    }

    fn leave(self) -> Pumped<S> {
        let Pumping {
            station,
            samples,
            ..
        } = self;
        Pumped {
            station,
            outcome: Ok(0),
            put: samples.give_up(),
        }
    }
}

/// Puts what waits until the stop is set, or a packet is handed back; by one call of `pump` where it doesn't go on.
fn drain<S: Station, F: Forward + Drop, R: Wait>(
    rt: &R,
    station: &mut S,
    samples: &mut WaitingEnd<'_, DataSide, F, R>,
    stop: &AtomicBool,
    turns: u32,
    goes_on: bool,
) -> Result<u64, ServeError>
    ensures drains { PumpDrains result (S.exchanges station.old) (S.exchanges station.new)
        samples.old.end.put samples.new.end.put }
    ensures single { (goes_on ≡ true) ⊎ Pumps result (S.exchanges station.old) (S.exchanges station.new)
        samples.old.end.put samples.new.end.put }
    ensures stops { IfErr result IsInterruption }
    ensures stays { S.same station.old station.new }
    ensures outlet { samples.new.end.outlet ≡ samples.old.end.outlet }
    ensures side { samples.new.end.side ≡ samples.old.end.side }
{
    for _call in rt.forever() {
        let outcome = pump(station, samples, stop, turns);
        if outcome.is_err() || !goes_on || stop.load(Ordering::SeqCst) {
            return outcome;
        }
    }
    unreachable!()
}
