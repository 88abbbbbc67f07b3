//! What a server that stays is made of: callers that hand their receipts over, calls that cut the chapters of the journal off, and a
//! keeper that settles each chapter and drops it, while tools come and go and tasks have no end.
//!
//! A [`Member`] is a caller with all receipts that it ever had; [`Seated`] is a member as a station. What members hand over, and what
//! calls cut off, goes by the [`Post`] to a [`Collector`], whose [`Keeper`] takes it. At the end each member resigns: the keeper then has all
//! receipts that this caller ever had.
//!
//! The tools of several seats share the slave's one session: it is of the seat that connected last, of those whose tools are still there
//! (`specs/Sessions.antt`, `specs/Happenings.antt`), and its packets are that seat's.
//!
//! Where stored pages are kept on a shelf, a store is finished only once the chapter in which it was asked for lies there
//! (`specs/Storing.antt`): [`finish_store`] submits it then.
//!
//! Where the layout has a clock, a [`Timekeeper`] tells the slave the time under the same hold as an event and as a GET_DAQ_CLOCK.
//!
//! `specs/Residents.antt` has a slave that stays, `specs/Keeping.antt` what a keeper has settled, `specs/Parcels.antt` what goes by the post, `specs/Refusals.antt` what a
//! keeper refuses, `specs/Sheaves.antt` receipts that were
//! handed over, `specs/Calls.antt` a call that may cut chapters off, `specs/Telling.antt` the time that is told.
#![tactic(auto)]

mod calling;
mod collector;
mod former;
mod keeper;
mod lag;
mod losing;
mod member;
mod noted;
mod opening;
mod parcel;
mod post;
mod pumps;
mod refusal;
mod resident;
mod route;
mod seated;
mod sessions;
mod shelved;
mod stores;
mod timekeeper;
mod under_lock;
mod waiting;

pub use calling::{CHAPTER, call, call_for, cut_in_time, finish_store};
pub use collector::{Collector, Halted};
pub use former::{Former, Resigned, resign_all};
pub use keeper::{Keeper, Unkept};
pub use member::Member;
pub use opening::{Posting, Unrouted};
pub use post::Post;
pub use refusal::Refusal;
pub use resident::Resident;
pub use route::Route;
pub use seated::{Seated, Shared};
pub use sessions::the_session_is_of_who_connected_last;
pub use timekeeper::Timekeeper;
