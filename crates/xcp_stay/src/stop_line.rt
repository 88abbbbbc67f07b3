//! The line that ends a server that stays.

use std::io::Read;
use std::sync::Wait;
use xcp_seats::Halt;

/// What the line says; a carriage return may stand before its end.
const STOP: &[u8] = b"stop\r";

/// How many bytes of it the line must have.
const LEAST: usize = 4;

/// How far a line agrees with `stop`: so many of its bytes came, or it is another line.
#[derive(Clone, Copy)]
enum Line {
    Agrees(usize),
    Differs,
}

/// Reads lines until one says `stop`, and asks the server to end then. At the end of the stream, or where it can't be read, nobody is asked
/// any more.
pub fn wait_for_stop<I: Read>(rt: &impl Wait, reader: &mut I, halt: &Halt) {
    let mut line = Line::Agrees(0);
    let mut bytes = [0; 256];
    for _read in rt.forever() {
        let Ok(count) = reader.read(&mut bytes) else {
            return;
        };
        if count == 0 {
            return;
        }
        for byte in &bytes[..count] {
            if *byte == b'\n' && says_stop(line) {
                halt.ask(rt);
                return;
            }
            line = next(line, *byte);
        }
    }
}

/// Whether this is the whole of the line.
fn says_stop(line: Line) -> bool {
    match line {
        Line::Agrees(count) => count >= LEAST,
        Line::Differs => false,
    }
}

/// The line with one more byte. Behind its end another one begins.
fn next(line: Line, byte: u8) -> Line {
    match (line, byte) {
        (_, b'\n') => Line::Agrees(0),
        (Line::Agrees(count), _) if STOP.get(count) == Some(&byte) => Line::Agrees(count + 1),
        _ => Line::Differs,
    }
}
