//! A request and its answer.

use crate::{Answer, Request};

/// A request with the answer that it got.
#[derive(Debug, PartialEq, Eq, Drop)]
pub struct Exchange {
    pub request: Request,
    pub answer: Answer,
}
