//! The areas of a layout, by name.
ghost use Rattle.std.specs.Prelude.{◌≡◌, ◌≤◌, ◌∷◌, ◌++◌, [], length, map, true, false, Some, None, IfOk, IfErr};
ghost use Rattle.std.specs.List.{enumerate_from};
ghost use Rattle.xcp_memory.specs.LayoutParts.{Placed as PlacedValue, placed_segment};
ghost use Rattle.xcp_packet.specs.Rows.{first_holding};
ghost use Rattle.xcp_memory.specs.Limits.{apart_limit, apart_limits};

use crate::extent::Extent;
use crate::limits::{MAX_AREAS, MAX_SEGMENTS};
use crate::segment::Segment;
use crate::{Area, LayoutFault};
use arrayvec::ArrayVec;
use std::alloc::Global;
use std::marker::Model;

/// An area by its name, and where it lies.
#[derive(Clone, Copy)]
pub(crate) struct Placed {
    area: Area,
    extent: Extent,
}

impl Model for Placed {
    ghost use Rattle.xcp_memory.specs.LayoutParts.{Placed as PlacedValue};

    ghost Value = { PlacedValue };

    ghost view = { λ p. record { area = p.area; extent = p.extent } };

    ghost inverse = { λ p. record { area = p.area; extent = p.extent } };
}

impl Default for Placed {
    fn default() -> Placed {
        Placed {
            area: Area::Signals,
            extent: Extent::new(0, 0),
        }
    }
}

/// The areas in order: the segments, and then the signals.
pub(crate) fn areas_of(segments: &[Segment], signals: Extent) -> ArrayVec<Placed, MAX_AREAS>
    requires { length segments.now ≤ 16 }
    ensures { result.items ≡ map placed_segment (enumerate_from 0 segments.now) ++ record { area = Area.Signals; extent = signals } ∷ [] }
{
    let mut areas = ArrayVec::new();
    for (i, segment) in segments.iter().enumerate() {
        areas.push(Placed {
            area: Area::Segment(i as u8),
            extent: segment.extent(),
        });
    }
    areas.push(Placed {
        area: Area::Signals,
        extent: signals,
    });
    areas
}

/// Checks that two areas share no address.
fn check_pair(first: &Placed, other: &Placed) -> Result<(), LayoutFault>
    ensures ok { IfOk result (λ _. (apart_limit first.now other.now).0 ≡ false) }
    ensures refused { IfErr result (λ e. ((apart_limit first.now other.now).0 ≡ true) × (e ≡ (apart_limit first.now other.now).1)) }
{
    if first.extent.is_apart(&other.extent) {
        Ok(())
    } else {
        Err(LayoutFault::Overlap(first.area, other.area))
    }
}

/// Checks that an area shares no address with these.
fn check_against(first: &Placed, others: &[Placed]) -> Result<(), LayoutFault>
    ensures ok { IfOk result (λ _. first_holding (map (apart_limit first.now) others.now) ≡ None) }
    ensures refused { IfErr result (λ e. first_holding (map (apart_limit first.now) others.now) ≡ Some e) }
{
    for other in others {
        check_pair(first, other)?;
    }
    Ok(())
}

/// Checks that no two areas share an address.
pub(crate) fn check_apart(areas: &[Placed]) -> Result<(), LayoutFault>
    ensures ok { IfOk result (λ _. first_holding (apart_limits areas.now) ≡ None) }
    ensures refused { IfErr result (λ e. first_holding (apart_limits areas.now) ≡ Some e) }
{
    for (i, first) in areas.iter().enumerate() {
        check_against(first, &areas[i + 1..])?;
    }
    Ok(())
}
