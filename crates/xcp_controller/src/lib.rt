//! A slave whose images are published, for a controller that has a lock of its own.
//!
//! A [`Controller`] executes requests one by one, and publishes the controller's image in a bank where
//! a request has changed it; six readers take images without a lock. It stores no request and no
//! answer: who wants a journal and its theorem takes `xcp_locked`.
//!
//! `specs/ControllerValue.antt` has what contracts see of it, `specs/KeptImages.antt` which requests
//! leave each slave's image as it is.
#![tactic(auto)]

mod changing;
mod controller;
mod keeping;
mod publishing;
mod ranges;
mod readers;

pub use changing::changed_within;
pub use controller::Controller;
pub use keeping::{is_reading, keeps_image};
pub use publishing::publish_changed;
