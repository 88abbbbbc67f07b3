//! Pieces of bytes that contracts alone see: the bytes, and how many each piece has. They have no limit, and take no memory and no time.
//!
//! Nothing ties such pieces to what the program does, so the module is private: they are added in `Watched` and `Noting` alone, beside
//! the call that they tell of.
ghost use Rattle.std.specs.Prelude.{◌≡◌, ◌++◌, ◌∷◌, ℕ, List, [], length};
ghost use Rattle.std.specs.Borrow.{ftrue};

use std::marker::Model;

#[derive(Drop)]
pub(crate) struct Record {
    pub ghost bytes: { List ℕ },
    pub ghost sizes: { List ℕ },
}

/// Bytes that one read gave, or one write took, or the buffer of a read.
#[derive(Clone, Copy, Drop)]
pub(crate) struct Piece<'a> {
    pub(crate) bytes: &'a [u8],
}

impl Model for Record {
    ghost also_owns = { λ _. ftrue };
}

impl Record {
    pub(crate) fn new() -> Record
        ensures { (result.bytes ≡ []) × (result.sizes ≡ []) }
    {
        Record {}
    }

    /// A piece more than before.
    pub(crate) fn more(_before: &Record, _piece: &Piece<'_>) -> Record
        ensures { (result.bytes ≡ _before.now.bytes ++ _piece.now.bytes.now)
            × (result.sizes ≡ _before.now.sizes ++ length _piece.now.bytes.now ∷ []) }
    {
        Record {}
    }
}
