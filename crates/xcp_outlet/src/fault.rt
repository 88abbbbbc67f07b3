//! Why not all that was put is sent.
ghost use Rattle.std.specs.Prelude.{◌≡◌};
ghost use Rattle.xcp_outlet.specs.FaultNumbers.{number_of};

use thiserror::Error;

/// Why not all that both ends put was sent. A write that failed is told before a missing end mark.
#[derive(Clone, Copy, Debug, Error, PartialEq, Eq, Drop)]
pub enum SendError {
    /// 1: a write failed. So many packets, modulo 2^64, were written before: those behind them were
    /// to be written together, and a front of their frames may have been.
    #[error("a write failed behind {0} packets")]
    Write(u64),
    /// 2: the channel gave no more before both end marks. So many packets, modulo 2^64, came, and
    /// were sent.
    #[error("the packets ended behind {0}, before both end marks")]
    Cut(u64),
}

impl SendError {
    /// The error's number: 1 Write, 2 Cut.
    pub fn number(&self) -> u8
        ensures { result ≡ number_of self.now }
    {
        match self {
            SendError::Write(_) => 1,
            SendError::Cut(_) => 2,
        }
    }
}
