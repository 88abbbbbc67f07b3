//! What the player of books over images begins with, and tests and endurance runs too: bytes as texts, and receipts that are altered.
#![tactic(auto)]

mod bytes;
mod receipts;

pub use bytes::bytes_of;
pub use receipts::{lose_last, put_answer, put_chapter};
