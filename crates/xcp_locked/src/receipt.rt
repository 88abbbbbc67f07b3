//! A caller's receipt for an entry of the journal.
use xcp_slave::{Answer, Request};

/// What a caller has of a call: its chapter and its place there, both counted from 0, the request and
/// the answer.
#[derive(Debug, PartialEq, Eq, Drop)]
pub struct Receipt {
    pub chapter: u64,
    pub at: u64,
    pub request: Request,
    pub answer: Answer,
}
