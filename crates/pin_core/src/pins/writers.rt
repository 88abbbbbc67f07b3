// The events of the writer.
ghost use Rattle.std.specs.Prelude.{◌≡◌, IfOk, IfErr};
ghost use Rattle.pin_core.specs.declared.events.Event.TheVariants.{Scan, Reset, Write, Publish};
ghost use Rattle.pin_core.specs.State.{width};
ghost use Rattle.pin_core.specs.Steps.{Steps, RefusesEvent};

use crate::BUFFERS;
use crate::events::{Seen, StepError};
use crate::pins::Core;
use crate::words::Words;

impl Core {
    pub(super) fn scan(&mut self, b: u8) -> Result<Seen, StepError>
        ensures done { IfOk result
            (λ seen. Steps (width self.old) self.old (Scan b) seen self.new) }
        ensures refused { IfErr result
            (λ error. RefusesEvent (width self.old) self.old (Scan b) error × (self.new ≡ self.old)) }
    {
        let at = usize::from(b);
        if at >= BUFFERS || b == self.index || self.writer.building.is_some() {
            return Err(StepError::NotEnabled);
        }
        let left = self.leavings[at];
        self.writer.quiet = (self.writer.started[at] == left).then_some(b);
        Ok(Seen::Leavings(left))
    }

    pub(super) fn reset(&mut self, b: u8) -> Result<Seen, StepError>
        ensures done { IfOk result
            (λ seen. Steps (width self.old) self.old (Reset b) seen self.new) }
        ensures refused { IfErr result
            (λ error. RefusesEvent (width self.old) self.old (Reset b) error × (self.new ≡ self.old)) }
    {
        if self.writer.quiet != Some(b) {
            return Err(StepError::NotEnabled);
        }
        let at = usize::from(b);
        self.leavings[at] = 0;
        self.writer.started[at] = 0;
        self.writer.building = Some(b);
        self.writer.written = 0;
        Ok(Seen::Done)
    }

    pub(super) fn write(&mut self, k: usize, word: u64) -> Result<Seen, StepError>
        ensures done { IfOk result
            (λ seen. Steps (width self.old) self.old (Write k word) seen self.new) }
        ensures refused { IfErr result
            (λ error. RefusesEvent (width self.old) self.old (Write k word) error × (self.new ≡ self.old)) }
    {
        let Some(b) = self.writer.building else {
            return Err(StepError::NotEnabled);
        };
        let buffer = &mut self.buffers[usize::from(b)];
        if k != self.writer.written || k >= buffer.len() {
            return Err(StepError::NotEnabled);
        }
        buffer.set(k, word);
        self.writer.written += 1;
        Ok(Seen::Done)
    }

    pub(super) fn publish(&mut self) -> Result<Seen, StepError>
        ensures done { IfOk result (λ seen. Steps (width self.old) self.old Publish seen self.new) }
        ensures refused { IfErr result
            (λ error. RefusesEvent (width self.old) self.old Publish error × (self.new ≡ self.old)) }
    {
        let Some(b) = self.writer.building else {
            return Err(StepError::NotEnabled);
        };
        let built = &self.buffers[usize::from(b)];
        if self.writer.written != built.len() {
            return Err(StepError::NotEnabled);
        }
        let Ok(image) = Words::copy_of(self.alloc, built.as_slice()) else {
            return Err(StepError::Memory);
        };
        if self.writer.publications.push(image).is_err() {
            return Err(StepError::Memory);
        }
        self.writer.started[usize::from(self.index)] = self.count;
        self.writer.quiet = None;
        self.writer.building = None;
        self.writer.written = 0;
        self.index = b;
        self.count = 0;
        Ok(Seen::Done)
    }
}
