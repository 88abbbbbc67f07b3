//! A list of calls that contracts alone see. It has no limit, and takes no memory and no time.
//!
//! Nothing ties such a list to what the program does, so the module is private: it grows in `WatchedShelf` alone, beside the call.
ghost use Rattle.std.specs.Prelude.{◌≡◌, ◌++◌, [], ◌∷◌, List};
ghost use Rattle.std.specs.Borrow.{ftrue};
ghost use Rattle.std.specs.Coded.{coded_list};
ghost use Rattle.xcp_scribe.specs.ShelfCalls.{Asked, asked_code};

use std::marker::Model;

#[derive(Drop)]
pub(crate) struct Asking {
    pub ghost asked: { List Asked } by { coded_list asked_code },
}

/// A call, and what it answered.
#[derive(Clone, Copy, Drop)]
pub(crate) struct Call<'a> {
    pub(crate) file: &'a [u8],
    pub(crate) put: bool,
}

impl Model for Asking {
    ghost also_owns = { λ _. ftrue };
}

impl Asking {
    pub(crate) fn new() -> Asking
        ensures { result.asked ≡ [] }
    {
        Asking {}
    }

    /// This call more than before.
    pub(crate) fn more(_before: &Asking, _call: &Call<'_>) -> Asking
        ensures { result.asked
            ≡ _before.now.asked ++ record { file = _call.now.file.now; put = _call.now.put } ∷ [] }
    {
        Asking {}
    }
}
