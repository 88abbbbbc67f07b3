//! How many tools are connected.
ghost use Rattle.std.specs.Prelude.{◌≡◌};
ghost use Rattle.xcp_seats.specs.Seating.{Departs, HangsUp};

use std::sync::{Mutex, Wait};
use std::time::Clock;
use xcp_framing::{Station, StationError};
use xcp_locked::Name;
use xcp_packet::Packet;
use xcp_service::{Route, Seated};
use xcp_slave::Asked;

/// How many tools are connected. The last one that goes ends the session.
#[derive(Drop)]
pub struct Hall {
    present: Mutex<u32>,
}

/// Who is there when a tool goes.
#[derive(Clone, Copy, Debug, PartialEq, Eq)]
pub enum Departure {
    /// So many other tools.
    Others(u32),
    /// Nobody: a `Hangup` was submitted, or refused so.
    Last(Result<(), StationError>),
}

impl Hall {
    /// Nobody is here.
    pub fn new() -> Hall {
        Hall {
            present: Mutex::new(0),
        }
    }

    /// One more tool is here.
    pub fn enter(&self, rt: &impl Wait) {
        let mut present = self.present.lock(rt);
        *present = present.saturating_add(1);
    }

    /// One tool is gone: the session isn't its seat's any more. Where it was the last one, a `Hangup` is submitted before another can be
    /// here. Where it is refused, for want of memory, the slave's session stands until the next tool goes.
    pub fn depart<N: Name, M: Route, R: Wait + Clock>(
        &self,
        rt: &R,
        station: &mut Seated<'_, N, M, R>,
    ) -> Departure
        ensures { Departs result station.old.member station.new.member }
    {
        let mut present = self.present.lock(rt);
        *present = present.saturating_sub(1);
        station.leave_session();
        match *present {
            0 => Departure::Last(hang_up(station)),
            others => Departure::Others(others),
        }
    }
}

/// Ends the session of the tools that are gone.
fn hang_up<N: Name, M: Route, R: Wait + Clock>(
    station: &mut Seated<'_, N, M, R>,
) -> Result<(), StationError>
    ensures { HangsUp result station.old.member station.new.member }
{
    let mut packet = Packet::new();
    station.submit_into(Asked::Hangup, &mut packet)?;
    Ok(())
}
