//! The allocating commands.
ghost use Rattle.std.specs.Prelude.{◌≡◌};
ghost use Rattle.xcp_daq.specs.AllocationSequence.{may_follow};

/// An allocating command.
///
/// ASAM MCD-1 XCP, protocol layer: dynamic DAQ configuration.
#[derive(Clone, Copy, Debug, PartialEq, Eq)]
pub enum Allocation {
    /// FREE_DAQ.
    FreeDaq,
    /// ALLOC_DAQ.
    AllocDaq,
    /// ALLOC_ODT.
    AllocOdt,
    /// ALLOC_ODT_ENTRY.
    AllocOdtEntry,
}

/// Whether an allocating command may follow the last one of the session.
pub(crate) fn may_follow(last: Option<Allocation>, next: Allocation) -> bool
    ensures { result ≡ may_follow last next }
{
    match next {
        Allocation::FreeDaq => true,
        Allocation::AllocDaq => { matches!(last, Some(Allocation::FreeDaq | Allocation::AllocDaq)) }
        Allocation::AllocOdt => {
            matches!(last, Some(Allocation::AllocDaq | Allocation::AllocOdt))
        }
        Allocation::AllocOdtEntry => {
            matches!(last, Some(Allocation::AllocOdt | Allocation::AllocOdtEntry))
        }
    }
}
