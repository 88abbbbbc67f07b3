//! What is left of a reader.
ghost use Rattle.std.specs.Prelude.{◌≡◌, Some};
ghost use Rattle.std.specs.Arc.{arc_value};
ghost use Rattle.xcp_bank.specs.EndFields.{shown_reader};

use crate::table::{Board, Token};
use std::marker::Model;
use std::sync::Arc;

/// A reader that has left: it can do nothing, and contracts see that it holds nothing.
#[derive(Drop)]
pub struct Left {
    board: Arc<Board>,
    seat: Token,
}

impl Model for Left {
    ghost use Rattle.std.specs.Prelude.{Some};
    ghost use Rattle.std.specs.Arc.{arc_value};
    ghost use Rattle.xcp_bank.specs.BankEnds.{ReaderEnd};
    ghost use Rattle.xcp_bank.specs.EndFields.{shown_reader};

    ghost Value = { ReaderEnd };

    ghost view = { λ l. shown_reader (arc_value l.board) (Some l.seat) };
}

impl Left {
    pub(crate) fn new(board: Arc<Board>, seat: Token) -> Left
        ensures { result ≡ shown_reader (arc_value board) (Some seat) }
    {
        Left { board, seat }
    }
}
