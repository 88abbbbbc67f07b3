//! An end that puts, beside the runtime by which it waits, and by whom its packets go out.
ghost use Rattle.std.specs.Prelude.{◌≡◌};

use crate::end::PutEnd;
use crate::forward::Forward;
use crate::side::Side;
use std::alloc::Global;
use std::sync::Wait;
use xcp_framing::{Batch, End};

/// An end that puts, as one that takes batch behind batch.
#[derive(Drop)]
pub struct WaitingEnd<'a, S: Side, F: Forward + Drop, R: Wait> {
    rt: &'a R,
    end: PutEnd<S>,
    forward: F,
}

impl<'a, S: Side, F: Forward + Drop, R: Wait> WaitingEnd<'a, S, F, R> {
    /// This end, with the runtime by which it waits, and by whom its packets go out.
    pub fn new(rt: &'a R, end: PutEnd<S>, forward: F) -> WaitingEnd<'a, S, F, R>
        ensures { result.end ≡ end }
    {
        WaitingEnd { rt, end, forward }
    }

    /// The end, with all that it has put.
    pub fn into_end(self) -> PutEnd<S>
        ensures { result ≡ self.entry.end }
    {
        self.end
    }
}

impl<'a, S: Side, F: Forward + Drop, R: Wait> End for WaitingEnd<'a, S, F, R> {
    ghost use Rattle.std.specs.Prelude.{◌≡◌};
    ghost use Rattle.std.proofs.Common.{refl, ◌∙◌};

    ghost put_so_far = { λ e. e.end.put };

    ghost same = { λ e f. (f.end.outlet ≡ e.end.outlet) × (f.end.side ≡ e.end.side) };

    ghost same_refl = { λ x. (refl, refl) };

    ghost same_trans = { λ x y z p q. (q.0 ∙ p.0, q.1 ∙ p.1) };

    fn put(&mut self, batch: Batch, more: bool) -> Result<(), Batch> {
        self.forward.put(self.rt, &mut self.end, batch, more)
    }

    fn flush(&mut self) {
        self.forward.flush(self.rt);
    }

    fn alloc(&self) -> Global {
        self.end.alloc()
    }
}
