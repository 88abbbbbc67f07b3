//! The acquisition lists of an XCP slave: dynamic DAQ.
//!
//! ASAM MCD-1 XCP, protocol layer: DAQ lists, ODTs and ODT entries, event channels. The definitions
//! that the contracts cite are in `specs/`.
#![tactic(auto)]

mod allocation;
mod daq;
mod daq_element;
mod element;
mod list_flags;
mod mode;
mod odts;
mod pointer;
mod pools;
mod reports;
mod sample_laws;

pub use allocation::Allocation;
pub use daq::Daq;
pub use daq_element::DaqElement;
pub use element::Element;
pub use pointer::Pointer;
pub use reports::{EventInfo, ListMode, ProcessorInfo, ResolutionInfo};
pub use sample_laws::samples_are_bounded;
