//! What takes packets, batch behind batch, and has them sent.
ghost use Rattle.std.specs.Prelude.{◌≡◌, ℕ, List, ◌++◌, OnOk, IfErr};

use crate::Batch;
use std::alloc::Global;

/// What takes packets, batch behind batch.
pub trait End {
    /// The packets that were put, in order.
    ghost put_so_far: { Self → List (List ℕ) };

    /// They are two states of one and the same end.
    ghost same: { Self → Self → Type 0 };

    /// Puts the packets of a batch, in order, or hands them all back. Of a batch that is handed back
    /// no packet was put. Where `more` says that others follow at once, some that were put may be held,
    /// so that they go out with those.
    fn put(&mut self, batch: Batch, more: bool) -> Result<(), Batch>
        ensures ok { OnOk result (put_so_far self.new ≡ put_so_far self.old ++ batch) }
        ensures back { IfErr result (λ back. (back ≡ batch)
            × (put_so_far self.new ≡ put_so_far self.old)) }
        ensures same { same self.old self.new };

    /// Lets go out what was put and is held. It puts nothing.
    fn flush(&mut self)
        ensures none { put_so_far self.new ≡ put_so_far self.old }
        ensures same { same self.old self.new };

    /// What gives memory for batches.
    fn alloc(&self) -> Global;

    ghost same_refl: { (x : Self) → same x x };

    ghost same_trans: { (x y z : Self) → same x y → same y z → same x z };
}
