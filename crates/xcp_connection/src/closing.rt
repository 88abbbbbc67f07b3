//! A connection when it has ended.
ghost use Rattle.std.specs.Prelude.{◌≡◌};
ghost use Rattle.xcp_connection.specs.Closing.{AreOfOneOutlet, IsClosingOf};
ghost use Rattle.xcp_connection.specs.Connections.{outcome_of};

use crate::hearing::Heard;
use crate::pumping::Pumped;
use crate::sending::Wrote;
use std::io::Write;
use std::snapshot::Snapshot;
use xcp_framing::{ServeError, Served, Watched};
use xcp_outlet::{Put, SendError, SentPackets, Took};

/// What there was of a connection at its end. Contracts alone see it: reader and writer were dropped
/// there, which closes the connection, and this takes no memory.
#[derive(Drop)]
pub struct Gone<I: Drop, O: Drop> {
    pub reader: Snapshot<Watched<I>>,
    pub writer: Snapshot<Watched<O>>,
    /// What was put of answers.
    pub replies: Snapshot<Put>,
    /// What was put of data packets.
    pub samples: Snapshot<Put>,
    /// What the sender took.
    pub took: Snapshot<Took>,
}

/// What comes of a connection: its stations, and how it ended, which is the fault of its reading, else of its pump, else
/// Write where its sender has one.
#[derive(Drop)]
pub struct Closed<S: Drop, I: Drop, O: Drop> {
    pub tool: S,
    pub pump: S,
    pub outcome: Result<Served, ServeError>,
    pub heard: Result<Served, ServeError>,
    pub pumped: Result<u64, ServeError>,
    pub sent: Result<u64, SendError>,
    pub left: Gone<I, O>,
}

/// Puts together what came of the parts of a connection: what was taken meets what was put.
pub fn close<S: Drop, I: Drop, O: Write + Drop>(
    parted: (Heard<S, I>, Pumped<S>, Wrote<O>),
) -> Closed<S, I, O>
    requires { AreOfOneOutlet parted }
    ensures { IsClosingOf parted result }
{
    let (heard, pumped, wrote) = parted;
    let Heard {
        station: tool,
        outcome: heard,
        reader,
        put: answers,
    } = heard;
    let Pumped {
        station: pump,
        outcome: pumped,
        put: data,
    } = pumped;
    let Wrote { sent, writer } = wrote;
    let SentPackets { count, mut took } = sent;
    let left = Gone {
        reader,
        writer,
        replies: Snapshot::of(&answers),
        samples: Snapshot::of(&data),
        took: Snapshot::of(&took),
    };
    took.meet(answers);
    took.meet(data);
    Closed {
        tool,
        pump,
        outcome: how_it_ended(heard, pumped, count),
        heard,
        pumped,
        sent: count,
        left,
    }
}

/// How a connection ended.
fn how_it_ended(
    heard: Result<Served, ServeError>,
    pumped: Result<u64, ServeError>,
    sent: Result<u64, SendError>,
) -> Result<Served, ServeError>
    ensures { result ≡ outcome_of heard pumped sent }
{
    let served = heard?;
    if let Err(error) = pumped {
        return Err(error);
    }
    if sent.is_err() {
        return Err(ServeError::Write);
    }
    Ok(served)
}
