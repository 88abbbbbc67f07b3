//! The memory that a controller shows to a calibration tool.
//!
//! ASAM MCD-1 XCP, protocol layer: calibration data segments and pages. The definitions that the
//! contracts cite are in `specs/`.
#![tactic(auto)]

mod access_laws;
mod areas;
mod checks;
mod checksum_kind;
mod class;
mod clock;
mod event_channel;
mod extent;
mod extras;
mod key;
mod layout;
mod layout_laws;
pub mod limits;
mod page_set;
mod pages;
mod parts;
mod segment;
mod segment_mode;
mod switch_mode;

pub use access_laws::{
    a_checksum_is_a_sum, controller_is_read, tool_is_read, tool_is_written, writes_are_refused,
};
pub use checks::is_text;
pub use checksum_kind::ChecksumKind;
pub use class::{Class, ClassLimits};
pub use clock::{Clock, ClockPart, NO_CLOCK};
pub use extras::{A2lFile, Extras, ExtrasPart};
pub use key::{Area, Key, LayoutFault};
pub use layout::Layout;
pub use layout_laws::{areas_share_no_address, kept_limits_make_a_layout, ranges_are_decided};
pub use pages::Pages;
pub use parts::{EventPart, Parts, SegmentPart};
