//! Plays books of what readers of images see: lists of events over the core of pins, and of calls over the bank and its readers,
//! over a slave behind its lock, and over a controller with a lock of its own. What it prints is what `test_books` does.
//!
//! The head of each book says what its rows ask, and `crates/test_books/README.md` what a book is.
#![tactic(auto)]

mod calls;
mod chapters;
mod controllers;
mod cores;
mod ends;
mod events;
mod locked;
mod playing;
mod receipts;
mod texts;

use playing::Images;
use std::io;
use std::process::ExitCode;
use test_playing::play_books;

fn main(rt: HostRuntime) -> io::Result<ExitCode> {
    play_books(&rt, &Images)
}
