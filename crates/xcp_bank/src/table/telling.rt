//! A reader is told what was published.
ghost use Rattle.std.specs.Prelude.{◌≡◌, ℕ, false};
ghost use Rattle.xcp_bank.specs.SeatKnowledge.{Reading, Writing};
ghost use Rattle.xcp_bank.specs.private.SeatSplits.{when_joined, when_parted};
ghost use Rattle.xcp_bank.specs.private.SeatSteps.{IsReaderSeat, IsWriterSeat};

use super::rule::{Store, View};
use atomic_table::{Join, Seat, Split};

struct Telling;

impl Join<View> for Telling {
    ghost use Rattle.xcp_bank.specs.SeatKnowledge.{nobody};
    ghost use Rattle.xcp_bank.specs.private.SeatSplits.{together};

    ghost both = { together };

    ghost spent = { nobody };
}

impl Split<View> for Telling {
    ghost use Rattle.xcp_bank.specs.private.SeatSplits.{writer_alone, readers_apart};

    ghost left = { writer_alone };

    ghost right = { readers_apart };
}

/// Joins the reader's seat with the writer's, and cuts it off again: both are Looks of the reader.
pub(super) fn tell_at(
    store: &Store,
    writer: &mut Seat<(), View>,
    reader: Seat<(), View>,
) -> Seat<(), View>
    requires writer { (w : Writing) × IsWriterSeat writer.old store.now.table_id w }
    requires reader { (r : ℕ) × (x : Reading) × IsReaderSeat reader store.now.table_id r x × (x.pins.gone ≡ false) }
    ensures { (w : Writing) (r : ℕ) (x : Reading) → IsWriterSeat writer.old store.now.table_id w → IsReaderSeat reader store.now.table_id r x → IsWriterSeat writer.new store.now.table_id w × IsReaderSeat result store.now.table_id r (when_parted w r (when_joined w r x)) }
{
    store.join_seat::<Telling>(writer, reader);
    store.split_seat::<Telling>(writer)
}
