//! Works at the same time: each in a thread of its own, or none.
//!
//! A [`Work`] says what a thread does. [`run_works`] makes a thread for each work, lets them begin
//! together, and joins them all; [`run_crews`] does so for crews of two works, which have something
//! to do with each other, and for single works, and [`run_crews_and`] does something else [`Meanwhile`].
//! [`run_beside`] does the first of a crew's works in the thread that calls.
//! That threads run beside one another, and that none begins before all stand, no clause can say; tests
//! show it.
#![tactic(auto)]

mod beside;
mod crewing;
mod crews;
mod meanwhile;
mod room;
mod threads;
mod work;

pub use beside::run_beside;
pub use crewing::{run_crews, run_crews_and, run_works};
pub use meanwhile::Meanwhile;
pub use work::{Given, Work};
