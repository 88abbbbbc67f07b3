//! A reader takes the current image.
ghost use Rattle.std.specs.Prelude.{◌≡◌, ℕ, ◌<◌, Some, false};
ghost use Rattle.xcp_bank.specs.SeatKnowledge.{Reading};
ghost use Rattle.xcp_bank.specs.private.SeatSteps.{IsReaderSeat, ReaderMoves, SeatAcquired, buffer_held};

use crate::table::{Board, Token, look, pin, unpin};
use crate::taken::Taken;

/// Takes the current image, where the buffer held isn't current any more, and says which buffer is held then.
pub(crate) fn acquire_at(board: &Board, token: &mut Token, held: Option<usize>) -> (Taken, usize)
    requires { (r : ℕ) × (x : Reading) × IsReaderSeat token.old board.now r x × (x.pins.gone ≡ false) × (held ≡ buffer_held x) × ((b : ℕ) → held ≡ Some b → b < 8) }
    ensures { ReaderMoves (SeatAcquired result.0 result.1) token.old token.new board.now }
{
    let Some(buffer) = held else {
        return (Taken::Newer, pin(board, token));
    };
    if look(board, token) == buffer {
        return (Taken::Same, buffer);
    }
    unpin(board, token, buffer);
    (Taken::Newer, pin(board, token))
}
