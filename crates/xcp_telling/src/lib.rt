//! What is told of a fault behind its number: the words on it.
//!
//! [`words_of`] has those of each kind and number of fault. Where a file is at fault, it is looked at once more:
//! [`words_of_layout`] has what a check of the layout file says, with the line of the table and the name of the entry;
//! [`words_of_pages`] which fault a file of stored pages has; [`words_of_listening`] why nobody could listen. [`take_plain`]
//! tells whether words are to be left out. [`check_located`] writes all that a check says, with these lines and names;
//! [`located_words`] puts them into words.
#![tactic(auto)]

mod checking;
mod entries;
mod layouts;
mod lines;
mod listening;
mod located;
mod numbers;
mod pages;
mod plain;

pub use checking::check_located;
pub use entries::located as located_words;
pub use layouts::words_of_layout;
pub use listening::words_of_listening;
pub use numbers::words_of;
pub use pages::words_of_pages;
pub use plain::take_plain;
