//! What dispatches are known by.
ghost use Rattle.std.specs.Prelude.{ℕ, List, Option};
ghost use Rattle.xcp_outlet.specs.OutletEnds.{Outlet};

use std::marker::Brand;

/// A name for dispatches, each of which has a place, from 0: it names the outlets whose packets are sent, and tells how the writers were
/// when they began. What lies under a lock is known by its type alone, so the type of a dispatch carries this name.
pub trait LineName {
    /// The outlet whose messages are taken at a place.
    ghost outlet: { ℕ → Outlet };

    /// What the writer there contained, where a contract can know that.
    ghost before: { ℕ → Option (List ℕ) };

    /// How many of the writer's calls had failed.
    ghost failures: { ℕ → ℕ };
}

impl LineName for Brand {
    ghost use Rattle.std.specs.Prelude.{None};
    ghost use Rattle.xcp_outlet.specs.OutletEnds.{no_outlet};

    ghost outlet = { λ place. no_outlet };

    ghost before = { λ place. None };

    ghost failures = { λ place. 0 };
}
