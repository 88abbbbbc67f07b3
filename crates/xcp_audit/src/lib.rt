//! An audit of a journal's file, printed.
//!
//! [`print_audit`] executes the calls of the file again, on a new slave of the layout that a layout file describes, with stored
//! pages or without, and prints what came of it, and each call as a line if that is asked. What prints is a [`Printer`]. By what a file names
//! its layout stands in its head, which [`read_head`] reads before.
//! `specs/CallLine.antt` has the line of a call and the names of callers, `specs/Naming.antt` how a file names its layout, `specs/Printing.antt`
//! what a printer does, `specs/PrintedAudit.antt` what is printed and answered.
#![tactic(auto)]

mod call_line;
mod head;
mod law;
mod printer;
mod printing;

pub use head::{HEAD_BYTES, from_head, head_of, read_head};
pub use law::a_name_is_of_one_caller;
pub use printer::{Printer, Trouble};
pub use printing::print_audit;
