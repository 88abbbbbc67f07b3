// One event of anybody.
ghost use Rattle.std.specs.Prelude.{◌≡◌, ◌↔◌, IfOk, IfErr, OnErr, IsErrOf};
ghost use Rattle.pin_core.specs.State.{width};
ghost use Rattle.pin_core.specs.Steps.{IsEnabled, Steps, RefusesEvent};
ghost use Rattle.pin_core.specs.declared.events.StepError.TheVariants.{NotEnabled};

use crate::events::{Event, Seen, StepError};
use crate::pins::Core;

impl Core {
    /// Does one event, if it can happen now, and answers it.
    ///
    /// Any event may be asked for: one that can't happen is `NotEnabled`. `Memory` comes from `Publish`
    /// alone, which copies the image into the list of publications. Both leave the core as it was.
    pub fn step(&mut self, event: Event) -> Result<Seen, StepError>
        ensures done { IfOk result (λ seen. Steps (width self.old) self.old event seen self.new) }
        ensures refused { IfErr result (λ error. RefusesEvent (width self.old) self.old event error) }
        ensures not_enabled { IsErrOf result NotEnabled ↔ (¬ IsEnabled (width self.old) self.old event) }
        ensures unchanged { OnErr result (self.new ≡ self.old) }
        ensures same_width { width self.new ≡ width self.old }
    {
        match event {
            Event::Look(r) => self.look(r),
            Event::Unpin(r, last) => self.unpin(r, last),
            Event::Pin(r) => self.pin(r),
            Event::Read(r, k) => self.read(r, k),
            Event::Scan(b) => self.scan(b),
            Event::Reset(b) => self.reset(b),
            Event::Write(k, word) => self.write(k, word),
            Event::Publish => self.publish(),
        }
    }
}
