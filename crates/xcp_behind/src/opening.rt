//! How a backlog begins.
ghost use Rattle.std.specs.Prelude.{◌≡◌, [], IfOk, false};

use crate::backlog::Backlog;
use crate::behind::Behind;
use crate::write_end::WriteEnd;
use relay::Relay;
use std::alloc::{AllocError, Global};
use std::io::Write;
use std::sync::Arc;

/// The two ends of a backlog, and the backlog itself, for whoever waits for what is written.
#[derive(Drop)]
pub struct Opened<W: Write> {
    pub behind: Behind,
    pub end: WriteEnd<W>,
    pub backlog: Arc<Backlog>,
}

/// A backlog in which nothing waits, of what is written to this stream.
pub fn open_backlog<W: Write + Drop>(alloc: Global, stream: W) -> Result<Opened<W>, AllocError>
    ensures given { IfOk result (λ o. o.behind.giver.given ≡ []) }
    ensures end { IfOk result (λ o. o.end ≡ record { relay = o.behind.giver.relay; taken = []; failed = false; before = W.contents stream; after = W.contents stream }) }
{
    let (relay, mut taker) = Relay::new(alloc)?;
    let Some(giver) = relay.hire(&mut taker) else {
        return Err(AllocError);
    };
    let backlog = Arc::new(alloc, Backlog::new(relay))?;
    let behind = Behind {
        alloc,
        backlog: backlog.clone()?,
        giver,
    };
    let end = WriteEnd::new(backlog.clone()?, taker, stream);
    Ok(Opened {
        behind,
        end,
        backlog,
    })
}
