//! What each end of a relay knows.

use std::collections::LinkedList;

/// What an end may do, and what it did. No value of it is made: contracts see lists.
pub struct Note<T> {
    pub takes: bool,
    /// How many tags were given out.
    pub tags: u16,
    pub taken: LinkedList<(u16, T)>,
    pub gives: bool,
    pub tag: u16,
    pub given: LinkedList<T>,
}
