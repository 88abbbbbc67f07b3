//! Where a request may have changed the controller's image.
ghost use Rattle.std.specs.Prelude.{◌≡◌, ◌≢◌, ◌≤◌, ◌+◌, ℕ, List, slice_index};
ghost use Rattle.arrayvec.specs.ArrayVec.{ArrayVec};
ghost use Rattle.xcp_transfer.specs.Laws.{IsLawful};
ghost use Rattle.xcp_slave.specs.AnswerInBytes.{answer_in};
ghost use Rattle.xcp_slave.specs.AskedRequest.{request_asked};
ghost use Rattle.xcp_slave.specs.MemoryEffects.{IsSteady};
ghost use Rattle.xcp_slave.specs.Outcomes.{Answer};
ghost use Rattle.xcp_slave.specs.declared.outcome.Outcome.{Outcome};
ghost use Rattle.xcp_memory.specs.EcuImage.{image_size};
ghost use Rattle.xcp_slave.specs.SlaveValue.{SlaveValue, layout_of};
ghost use Rattle.xcp_slave.specs.Step.{Answers, AnswersPacket};
ghost use Rattle.xcp_controller.specs.ControllerValue.{image_of};
ghost use Rattle.xcp_controller.specs.ImageRanges.{SameOutside};

use crate::keeping::{COPY_CAL_PAGE, SET_CAL_PAGE, is_reading};
use crate::ranges::{places_from, places_up_to};
use xcp_slave::{Asked, Outcome, Slave, Told};
use xcp_transfer::Mta;

/// The code of MODIFY_BITS, the one command that writes and leaves the memory transfer address in front of its bytes.
const MODIFY_BITS: u8 = 0xEC;

/// Which bytes of the controller's image a request may have changed, from the first one up to, and without, that behind the last:
/// this slave executed it, and told this. If nothing can have changed, both are the same.
///
/// A write leaves the memory transfer address behind its bytes, or in front of them (MODIFY_BITS), so that they are among the 255 in
/// front of it, or the four behind it. A switch, a copy and a store may change all.
pub fn changed_within(asked: Asked<'_>, told: &Told, slave: &Slave) -> (usize, usize)
    ensures order { result.0 ≤ result.1 }
    ensures inside { result.1 ≤ image_size (layout_of slave.now) }
    ensures few { IsSteady (request_asked asked.entry) → result.1 ≤ result.0 + 255 }
    ensures silent { told.now ≡ Outcome.Silent → result.0 ≡ result.1 }
    ensures outside { (before : SlaveValue) (packet : ArrayVec ℕ) → IsLawful before.transfer
        → Answers before (request_asked asked.entry) (answer_in told.now packet) slave.now
        → SameOutside result.0 result.1 (image_of before) (image_of slave.now) }
{
    match asked {
        Asked::Command(packet) => match told {
            Outcome::Silent => (0, 0),
            _ => changed_by(packet, slave),
        },
        Asked::FinishStore => match told {
            Outcome::Stored(_) => whole(slave),
            _ => (0, 0),
        },
        Asked::Event(_, _) | Asked::Drain | Asked::Hangup | Asked::Time(_) | Asked::Signals(_, _) =>
            (0, 0),
    }
}

/// The same of a command packet that this slave executed.
fn changed_by(packet: &[u8], slave: &Slave) -> (usize, usize)
    ensures order { result.0 ≤ result.1 }
    ensures inside { result.1 ≤ image_size (layout_of slave.now) }
    ensures few { slice_index packet.now 0 ≢ 0xEB → slice_index packet.now 0 ≢ 0xE4 → result.1 ≤ result.0 + 255 }
    ensures outside { (before : SlaveValue) (answer : Answer) → IsLawful before.transfer
        → AnswersPacket before packet.now answer slave.now
        → SameOutside result.0 result.1 (image_of before) (image_of slave.now) }
{
    let [code, ..] = packet else {
        return (0, 0);
    };
    if is_reading(packet) {
        return (0, 0);
    }
    if *code == SET_CAL_PAGE || *code == COPY_CAL_PAGE {
        return whole(slave);
    }
    let Mta::Memory(address) = slave.transfer().mta() else {
        return (0, 0);
    };
    if *code == MODIFY_BITS {
        places_from(slave.layout(), address)
    } else {
        places_up_to(slave.layout(), address)
    }
}

/// All bytes of the image.
fn whole(slave: &Slave) -> (usize, usize)
    ensures order { result.0 ≤ result.1 }
    ensures inside { result.1 ≤ image_size (layout_of slave.now) }
    ensures outside { (before : List ℕ) → SameOutside result.0 result.1 before (image_of slave.now) }
{
    slave.known();
    (0, slave.layout().image_size())
}
