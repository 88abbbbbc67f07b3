//! What a thread is made for.

use std::snapshot::Snapshot;
use std::sync::Wait;
use std::thread::Promise;

/// What a thread is made for. Its result is `T`.
pub trait Work<T>: Send + Drop {
    /// What comes of it, also where it never began.
    ghost gives: { Self → T → Type 0 };

    /// Does it. It may wait for other works that run beside it.
    fn run<R: Wait>(self, rt: &R) -> T
        ensures { gives self result };

    /// Comes back without having begun, as a thread for another work was refused.
    fn leave(self) -> T
        ensures { gives self result };
}

/// A thread's promise: what it hands over is what comes of this work. It takes no memory.
#[derive(Drop)]
pub struct Given<W: Drop>(pub(crate) Snapshot<W>);

impl<T, W: Work<T>> Promise<T> for Given<W> {
    ghost kept_by = { λ promise result. W.gives promise.0.value result };
}
