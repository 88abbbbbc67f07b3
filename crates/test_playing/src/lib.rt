//! Books are played: texts of parts, each of which has rows of questions with their answers. A program that plays some has a
//! [`Player`], which asks what stands in the rows of its kinds of sections; all else is here: how a book is read, what came is
//! compared, answers are altered, and what is told of it.
//!
//! `crates/test_books/README.md` says what a book is.
#![tactic(auto)]

mod answer;
mod asked;
mod book;
mod escapes;
mod playing;
mod report;
mod rows;
mod running;
mod section;
mod self_test;
mod trouble;

pub use asked::request_text;
pub use escapes::{bytes_of, unescaped};
pub use playing::Player;
pub use rows::Row;
pub use running::play_books;
pub use section::Section;
pub use trouble::{Trouble, or_refusal};
