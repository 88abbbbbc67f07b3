//! A server that stays: tools come and go, tasks have no end, and each chapter of the journal is settled and dropped, until it is
//! asked to end.
//!
//! `specs/Stay.antt` has what is true of all calls that it accepted.
#![tactic(auto)]

mod boxed;
mod dealing;
mod ending;
mod running;
mod staying;
mod stop_line;
mod unmet;
mod unstayed;

pub use ending::Stayed;
pub use staying::{Plan, StayReport, stay, stay_named, timekeepers};
pub use stop_line::wait_for_stop;
pub use unmet::Unmet;
pub use unstayed::{StayError, Unstayed};
