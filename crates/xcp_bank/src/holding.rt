//! The writer counts the buffers that are held.
ghost use Rattle.xcp_bank.specs.SeatKnowledge.{Writing};
ghost use Rattle.xcp_bank.specs.private.SeatSteps.{HeldCounted, IsWriterSeat, Rests, WriterMoves};

use crate::table::{Board, Token, scan};
use pin_core::BUFFERS;

/// Scans all buffers but the current one, and answers how many weren't quiet.
pub(crate) fn count_held(
    board: &Board,
    token: &mut Token,
    current: usize,
    started: &[u64; BUFFERS],
) -> u8
    requires { (w : Writing) × IsWriterSeat token.old board.now w × Rests current started.now w }
    ensures { WriterMoves (HeldCounted 8 result) token.old token.new board.now }
{
    let mut held = 0u8;
    for buffer in 0..BUFFERS {
        if buffer == current {
            continue;
        }
        if scan(board, token, buffer) == started[buffer] {
            continue;
        }
        held += 1;
    }
    held
}
