//! What is published of the controller's images.
ghost use Rattle.std.specs.Prelude.{◌≡◌, ◌≢◌, [], ◌∷◌, ◌++◌, MatchBool, ℕ};
ghost use Rattle.arrayvec.specs.ArrayVec.{ArrayVec};
ghost use Rattle.xcp_bank.specs.BankId.{image_bytes};
ghost use Rattle.xcp_bank.specs.BankEnds.{newest};
ghost use Rattle.xcp_transfer.specs.Laws.{IsLawful};
ghost use Rattle.xcp_slave.specs.AnswerInBytes.{answer_in};
ghost use Rattle.xcp_slave.specs.AskedRequest.{request_asked};
ghost use Rattle.xcp_memory.specs.EcuImage.{image_size};
ghost use Rattle.xcp_slave.specs.SlaveValue.{SlaveValue, layout_of};
ghost use Rattle.xcp_slave.specs.Step.{Answers};
ghost use Rattle.xcp_controller.specs.ControllerValue.{image_of};

use crate::changing::changed_within;
use xcp_bank::Writer;
use xcp_slave::{Asked, Slave, Told};

/// Publishes the image of a slave that has executed a request and told this, if it isn't the one published last, and says whether it is
/// another one. `last` has the bytes of the image published last, and then those of the slave's.
///
/// A request that can't have changed the image costs nothing, and a write what its bytes cost.
pub fn publish_changed(
    writer: &mut Writer,
    last: &mut [u8],
    slave: &Slave,
    asked: Asked<'_>,
    told: &Told,
) -> bool
    requires size { image_bytes writer.old.bank ≡ image_size (layout_of slave.now) }
    requires newest { newest writer.old ≡ last.old }
    requires step { (before : SlaveValue) × (packet : ArrayVec ℕ) × IsLawful before.transfer
        × Answers before (request_asked asked) (answer_in told.now packet) slave.now × (last.old ≡ image_of before) }
    ensures bank { writer.new.bank ≡ writer.old.bank }
    ensures last { last.new ≡ image_of slave.now }
    ensures newest { newest writer.new ≡ last.new }
    ensures outcome { MatchBool result
        ((image_of slave.now ≢ last.old) × (writer.new.publications ≡ writer.old.publications ++ image_of slave.now ∷ []))
        ((image_of slave.now ≡ last.old) × (writer.new.publications ≡ writer.old.publications)) }
{
    let (from, to) = changed_within(asked, told, slave);
    slave.known();
    if from == to {
        return false;
    }
    if !slave.image_part(from, &mut last[from..to]) {
        return false;
    }
    writer.publish_within(last, from, to);
    true
}
