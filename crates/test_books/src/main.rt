//! Plays books of what the program answers: scripts, layout files, words, streams, and the files of journals and of stored pages. It
//! prints for each book how many parts and answers it has, and each part's first answer that is wrong. Each line of an answer of the
//! books behind the word `--self-test` is altered too, and has to be noticed.
//!
//! `README.md` beside this folder says what a book is, and where its answers come from.
#![tactic(auto)]

mod asked;
mod changes;
mod files;
mod findings;
mod frames;
mod left_out;
mod output;
mod pieces;
mod playing;
mod script;
mod script_lines;
mod serves;
mod words;

use playing::Program;
use std::io;
use std::process::ExitCode;
use test_playing::play_books;

fn main(rt: HostRuntime) -> io::Result<ExitCode> {
    play_books(&rt, &Program)
}
