//! Cutting the readers' seats off the first one.
ghost use Rattle.std.specs.Prelude.{ℕ, suc, List};
ghost use Rattle.xcp_bank.specs.SeatKnowledge.{starting};
ghost use Rattle.xcp_bank.specs.private.SeatSteps.{IsReaderSeat, IsFirstSeat};

use super::rule::{Store, View};
use atomic_table::{Seat, Split};

struct CutFirst;

impl Split<View> for CutFirst {
    ghost use Rattle.xcp_bank.specs.private.SeatSplits.{without_first, only_first};

    ghost left = { without_first };

    ghost right = { only_first };
}

/// Cuts off the seat of the last reader that the first seat stands for.
pub(super) fn cut(store: &Store, seat: &mut Seat<(), View>) -> Seat<(), View>
    requires { (n : ℕ) × (words : List ℕ) × IsFirstSeat seat.old store.now.table_id (suc n) words }
    ensures { (n : ℕ) (words : List ℕ) → IsFirstSeat seat.old store.now.table_id (suc n) words → IsFirstSeat seat.new store.now.table_id n words × IsReaderSeat result store.now.table_id n (starting words) }
{
    store.split_seat::<CutFirst>(seat)
}
