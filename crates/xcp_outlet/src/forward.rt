//! By whom what is put is written.
ghost use Rattle.std.specs.Prelude.{◌≡◌, ◌++◌, MatchResult};

use crate::end::PutEnd;
use crate::side::Side;
use std::sync::Wait;
use xcp_framing::Batch;

/// By whom what an end puts is taken and written.
pub trait Forward {
    /// Puts the packets of a batch at an end, behind those that were put before, or hands them all back. Where `more` says that others
    /// follow at once, some may be held until then.
    fn put<S: Side, R: Wait>(
        &self,
        rt: &R,
        end: &mut PutEnd<S>,
        batch: Batch,
        more: bool,
    ) -> Result<(), Batch>
        ensures same { (end.new.outlet ≡ end.old.outlet) × (end.new.side ≡ end.old.side) }
        ensures put { MatchResult result
            (λ _. end.new.put ≡ end.old.put ++ batch)
            (λ back. (back ≡ batch) × (end.new.put ≡ end.old.put)) };

    /// Lets go out what is held.
    fn flush<R: Wait>(&self, rt: &R);
}

/// Another thread takes what is put, and writes it (`SendEnd::run_sender`).
#[derive(Clone, Copy, Debug, Drop)]
pub struct ByAnother;

impl Forward for ByAnother {
    fn put<S: Side, R: Wait>(
        &self,
        rt: &R,
        end: &mut PutEnd<S>,
        batch: Batch,
        _more: bool,
    ) -> Result<(), Batch> {
        end.put(rt, batch)
    }

    fn flush<R: Wait>(&self, _rt: &R) {}
}
