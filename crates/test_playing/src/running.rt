//! The program that plays the books that its words name.
use crate::playing::Player;
use crate::report::Report;
use crate::trouble::Trouble;
use std::process::ExitCode;
use std::rt::{Env, Files};
use std::{fs, io};
use xcp_program::read_words;

/// The word that asks for altered answers of the books behind it.
const SELF_TEST: &str = "--self-test";

/// A line feed and the text of the book that a word names; nothing where the word is none of a book.
fn read_book<R: Files + AllocGlobal>(rt: &R, word: &str) -> io::Result<String> {
    let mut book = String::new(rt.alloc());
    if word != SELF_TEST {
        book.push('\n')?;
        book.push_str(fs::read_to_string(rt, word)?.as_str())?;
    }
    Ok(book)
}

/// The books of the words behind the first, in order.
fn read_books<R: Files + AllocGlobal>(rt: &R, words: &[String]) -> io::Result<Vec<String>> {
    let mut books = Vec::new(rt.alloc());
    for word in words.iter().skip(1) {
        books.push(read_book(rt, word.as_str())?)?;
    }
    Ok(books)
}

/// Prints what was told of a book, and why it is none, and tells whether it is one.
fn print_book<R: Print>(
    rt: &R,
    name: &str,
    text: &str,
    played: &Result<(), Trouble>,
) -> io::Result<bool> {
    print!(rt; "{text}")?;
    match played {
        Ok(()) => return Ok(true),
        Err(Trouble::Memory) => println!(rt; "{name}: memory")?,
        Err(Trouble::NoBook { line, why }) => println!(rt; "{name}:{line}: {why}")?,
        Err(Trouble::Refused(fault)) => println!(rt; "{name}: {fault}")?,
    }
    Ok(false)
}

/// Plays the books of the words behind the first, in order, up to the first that is none, and tells whether there is no such. From
/// the word that asks for it on, answers are altered too.
fn play_each<'a, R: Print, P: Player>(
    rt: &R,
    player: &P,
    words: &[String],
    books: &'a [String],
    report: &mut Report<'a>,
) -> io::Result<bool> {
    for (word, book) in words.iter().skip(1).zip(books.iter()) {
        if book.is_empty() {
            report.alters = true;
        } else {
            report.text.clear();
            let played = report.play_book(player, word.as_str(), book.as_str());
            if !print_book(rt, word.as_str(), report.text.as_str(), &played)? {
                return Ok(false);
            }
        }
    }
    Ok(true)
}

/// Prints what came of altered answers, and gives the status: 1 where an answer is wrong.
fn print_end<R: Print>(rt: &R, report: &Report<'_>) -> io::Result<u8> {
    if report.wrong > 0 {
        return Ok(1);
    }
    if report.alters {
        let altered = report.altered;
        println!(rt; "self-test: {altered} altered answers, each was noticed")?;
    }
    Ok(0)
}

/// Plays the books that the program's words name, prints what is told of each, and gives the status: 0 where all is as they say, 1
/// where an answer is another one, or was altered and not noticed, and 2 where a text is no book.
pub fn play_books<R: Files + AllocGlobal + Env + Print, P: Player>(
    rt: &R,
    player: &P,
) -> io::Result<ExitCode> {
    let words = read_words(rt)?;
    let books = read_books(rt, words.as_slice())?;
    let mut report = Report::new(rt.alloc());
    if !play_each(rt, player, words.as_slice(), books.as_slice(), &mut report)? {
        return Ok(ExitCode::from(2));
    }
    Ok(ExitCode::from(print_end(rt, &report)?))
}
