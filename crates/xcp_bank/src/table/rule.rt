//! The table that all share, and its rule.
use atomic_table::{Shared, Table, TableRule};
use std::alloc::Global;
use std::marker::Model;

/// The words of a table before its buffers: the current buffer with its pins, and the leavings of eight
/// buffers.
pub(crate) const FRONT_WORDS: usize = 9;

/// What a seat knows. No value of it is made: contracts alone see one.
pub struct View {
    nothing: (),
}

impl Model for View {
    ghost use Rattle.xcp_bank.specs.SeatKnowledge.{Known, nobody};

    ghost Value = { Known };

    ghost view = { λ _. nobody };
}

/// The rule, for buffers of as many words as the table has slots. The first seat stands for all.
pub struct Pins;

impl TableRule<(), View, Vec<u64>> for Pins {
    ghost use Rattle.xcp_bank.specs.private.Everybody.{everybody};
    ghost use Rattle.xcp_bank.specs.TableRule.{IsBank};

    ghost holds = { λ _ t. IsBank t };

    ghost first = { λ words. everybody 6 words.items };
}

pub(super) type Store = Shared<(), View, Vec<u64>, Pins>;

pub(super) type PinTable = Table<(), View, Vec<u64>, Pins, Global>;
