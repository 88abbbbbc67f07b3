//! Laws of layouts: each holds of the definitions, and its function does nothing.
ghost use Rattle.xcp_memory.specs.LayoutLaws.{AreasShareNoAddress, KeptLimitsMakeALayout, RangesAreDecided};

/// An address lies in one area at most.
pub fn areas_share_no_address()
    ensures { AreasShareNoAddress }
{}

/// Parts break no limit exactly where the layout that they make is within all limits, and none of their
/// numbers is one that no layout has.
pub fn kept_limits_make_a_layout()
    ensures { KeptLimitsMakeALayout }
{}

/// Whether a range lies in one area is decided by looking at each area.
pub fn ranges_are_decided()
    ensures { RangesAreDecided }
{}
