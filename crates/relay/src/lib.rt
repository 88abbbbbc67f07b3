//! What many hand in, and one takes, in threads.
//!
//! Each [`Giver`] of a [`Relay`] has a tag of its own, under which it hands items in; the one [`Taker`] takes them, each with its
//! tag, and waits where there are none. Contracts see what each giver has handed in and what was taken. They compare them by
//! [`Relay::meets`]: what was taken of a giver's tag is then, in order, all that this giver handed in. A [`Tray`] is a giver that has
//! room for an item before it is made.
//!
//! Each call asks that its ends are of this relay. What comes out of a lock or a thread is known by its type alone: there a type
//! has to name the relay.
//!
//! `specs/Ends.antt` has what contracts see, `specs/Rule.antt` what a relay keeps.
#![tactic(auto)]

mod bell;
mod comparing;
mod ends;
mod laws;
mod note;
mod opening;
mod relay;
mod rule;
mod tray;

pub use ends::{Giver, Taker};
pub use laws::items_are_of_their_tag;
pub use relay::Relay;
pub use tray::Tray;
