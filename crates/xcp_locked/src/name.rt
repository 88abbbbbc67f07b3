//! What an opening is known by.
ghost use Rattle.xcp_bank.specs.BankId.{BankId};
ghost use Rattle.xcp_memory.specs.Layout.{LayoutValue};

use std::marker::Brand;
use std::sync::ledger::Ledger;

/// A name for one opening of a slave: it names the ledger of its accepted calls and the bank of its
/// images, and tells the slave's layout. Callers and readers carry the name of the opening that gave
/// them out, so that one of another opening doesn't compile.
pub trait Name: Ledger {
    /// The layout of the slave that was opened.
    ghost layout: { LayoutValue };

    /// The bank that the slave's images are published in.
    ghost bank: { BankId };
}

impl Name for Brand {
    ghost use Rattle.xcp_bank.specs.BankId.{no_bank};
    ghost use Rattle.xcp_locked.specs.private.NoLayout.{no_layout};

    ghost layout = { no_layout };

    ghost bank = { no_bank };
}
