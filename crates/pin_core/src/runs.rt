// A list of events, one after another.
ghost use Rattle.std.specs.Prelude.{◌≡◌, length, IfOk, IfErr, IsOk};
ghost use Rattle.pin_core.specs.State.{width};
ghost use Rattle.pin_core.specs.Steps.{Runs, Stops};

use crate::events::{Event, RunError, Seen};
use crate::pins::Core;
use std::alloc::Global;

/// Does these events in order, and gives their answers.
///
/// It stops at the first event that is refused, and says its index; the events before it have happened.
/// The room for the answers is made first: where it is refused, nothing has happened.
pub fn run(alloc: Global, core: &mut Core, events: &[Event]) -> Result<Vec<Seen>, RunError>
    ensures done { IfOk result
        (λ answers. Runs (width core.old) core.old events.now answers.items core.new) }
    ensures stopped { IfErr result
        (λ error. Stops (width core.old) core.old events.now error core.new) }
    ensures no_events { length events.now ≡ 0 → IsOk result }
    ensures same_width { width core.new ≡ width core.old }
{
    let Ok(mut answers) = Vec::with_capacity(alloc, events.len()) else {
        return Err(RunError::Memory);
    };
    for (index, event) in events.iter().enumerate() {
        match core.step(*event) {
            Ok(seen) => {
                // (There is room for all answers.)
                let _ = answers.push(seen);
            }
            Err(error) => return Err(RunError::Refused { index, error }),
        }
    }
    Ok(answers)
}
