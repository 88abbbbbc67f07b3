//! An outlet: two ends that put packets, and one that takes them and sends them in frames.
//!
//! Each end can stand in a thread of its own. A [`ReplyEnd`] puts what a slave answers, a
//! [`DataEnd`] puts what it samples. What both have put is written in frames with one rising CTR, by a third thread
//! ([`SendEnd::run_sender`]), or under a lock by whoever has just put something ([`Dispatch`]): a [`Forward`] says which. Where all are
//! done, [`Took::meet`] joins what one end has
//! put with what was taken of it. Both are a [`PutEnd`] of their [`Side`], and a [`WaitingEnd`] lends either to a loop that
//! knows no runtime.
//!
//! `specs/PassKnowledge.antt` has what each end knows, `specs/ChannelRule.antt` the rule of the channel between
//! them, `specs/OutletEnds.antt` what contracts see of the ends, `specs/Sending.antt` what a sender
//! promises.
#![tactic(auto)]

mod dispatch;
mod end;
mod fault;
mod forward;
mod intake;
mod line;
mod line_name;
mod message;
mod opening;
mod put;
mod putting;
mod rule;
mod sending;
mod side;
mod took;
mod view;

pub use dispatch::Dispatch;
pub use end::{DataEnd, PutEnd, ReplyEnd};
pub use fault::SendError;
pub use forward::{ByAnother, Forward};
pub use intake::SendEnd;
pub use line_name::LineName;
pub use opening::outlet;
pub use put::Put;
pub use putting::WaitingEnd;
pub use sending::SentPackets;
pub use side::{DataSide, Replies, Side};
pub use took::Took;
