// The events of a reader.
ghost use Rattle.std.specs.Prelude.{◌≡◌, ◌≢◌, ℕ, ◌<◌, IfOk, IfErr, IfSome, IfNone};
ghost use Rattle.pin_core.specs.declared.events.Event.TheVariants.{Look, Unpin, Pin, Read};
ghost use Rattle.pin_core.specs.State.{reader, width};
ghost use Rattle.pin_core.specs.Steps.{Steps, RefusesEvent};

use crate::READERS;
use crate::events::{Seen, StepError};
use crate::pins::Core;

impl Core {
    pub(super) fn look(&mut self, r: u8) -> Result<Seen, StepError>
        ensures done { IfOk result
            (λ seen. Steps (width self.old) self.old (Look r) seen self.new) }
        ensures refused { IfErr result
            (λ error. RefusesEvent (width self.old) self.old (Look r) error × (self.new ≡ self.old)) }
    {
        let at = usize::from(r);
        if at >= READERS || self.readers[at].is_gone() {
            return Err(StepError::NotEnabled);
        }
        let published = self.writer.publications.len();
        self.readers[at] = self.readers[at].looking(self.index, published);
        Ok(Seen::Index(self.index))
    }

    pub(super) fn pin(&mut self, r: u8) -> Result<Seen, StepError>
        ensures done { IfOk result (λ seen. Steps (width self.old) self.old (Pin r) seen self.new) }
        ensures refused { IfErr result
            (λ error. RefusesEvent (width self.old) self.old (Pin r) error × (self.new ≡ self.old)) }
    {
        let at = usize::from(r);
        if at >= READERS || self.readers[at].is_gone() || self.readers[at].held().is_some() {
            return Err(StepError::NotEnabled);
        }
        let published = self.writer.publications.len();
        self.count += 1;
        self.readers[at] = self.readers[at].pinning(self.index, published);
        Ok(Seen::Index(self.index))
    }

    pub(super) fn unpin(&mut self, r: u8, last: bool) -> Result<Seen, StepError>
        ensures done { IfOk result
            (λ seen. Steps (width self.old) self.old (Unpin r last) seen self.new) }
        ensures refused { IfErr result
            (λ error. RefusesEvent (width self.old) self.old (Unpin r last) error × (self.new ≡ self.old)) }
    {
        let Some(b) = self.held_by(r) else {
            return Err(StepError::NotEnabled);
        };
        let at = usize::from(r);
        if !self.readers[at].can_leave(b, last) {
            return Err(StepError::NotEnabled);
        }
        self.leavings[usize::from(b)] += 1;
        self.readers[at] = self.readers[at].leaving(last);
        Ok(Seen::Done)
    }

    pub(super) fn read(&self, r: u8, k: usize) -> Result<Seen, StepError>
        ensures done { IfOk result
            (λ seen. Steps (width self.now) self.now (Read r k) seen self.now) }
        ensures refused { IfErr result
            (λ error. RefusesEvent (width self.now) self.now (Read r k) error) }
    {
        let Some(b) = self.held_by(r) else {
            return Err(StepError::NotEnabled);
        };
        let buffer = &self.buffers[usize::from(b)];
        if k >= buffer.len() {
            return Err(StepError::NotEnabled);
        }
        Ok(Seen::Word(buffer.get(k)))
    }

    // The buffer that reader r holds.
    fn held_by(&self, r: u8) -> Option<u8>
        ensures held { IfSome result
            (λ b. (p : ℕ) × (r < 6) × ((reader self.now r).held ≡ Some (b, p))) }
        ensures buffer { IfSome result (λ b. b < 8) }
        ensures none { IfNone result ((b p : ℕ) → r < 6 → (reader self.now r).held ≢ Some (b, p)) }
    {
        let at = usize::from(r);
        if at >= READERS {
            return None;
        }
        match self.readers[at].held() {
            Some((b, _)) => Some(b),
            None => None,
        }
    }
}
