//! The configuration file of a slave: a TOML document that describes a layout.
//!
//! The definitions that the contracts cite are in `specs/`; `specs/TableChecks.antt` has the checks in their order.
#![tactic(auto)]

mod class;
mod clock;
mod config_error;
mod data_file;
mod data_names;
mod events;
mod extras;
mod law;
mod own;
mod reading;
mod segments;
mod signals;
mod values;

pub use config_error::ConfigError;
pub use data_file::DataFile;
pub use data_names::data_files;
pub use law::files_are_of_those_that_name_them;
pub use reading::{read_layout, read_layout_with};
