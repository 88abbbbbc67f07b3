//! Whether the program runs in the background of its terminal.

use std::fs::File;
use std::io::{Input, IsTerminal, Read};

/// How many bytes the system's line on a process has at most.
const LINE: usize = 1024;

/// Whether a read of standard input would stop the program: it is a terminal, in whose foreground another program is.
pub fn is_in_background(rt: &HostRuntime) -> bool {
    if !rt.reader().is_terminal() {
        return false;
    }
    let Ok(mut file) = File::open(rt, "/proc/self/stat") else {
        return false;
    };
    let mut line = [0; LINE];
    let Ok(count) = file.read(&mut line) else {
        return false;
    };
    match str::from_utf8(&line[..count]) {
        Ok(line) => is_behind(line),
        Err(_) => false,
    }
}

/// Whether the line on a process says that another group of processes is in its terminal's foreground. Behind the name in parentheses
/// stand its state, its parent, its group, its session, its terminal and the group in that one's foreground, if there is one.
fn is_behind(line: &str) -> bool {
    let Some((_, fields)) = line.rsplit_once(") ") else {
        return false;
    };
    let group = field(fields, 2);
    let foreground = field(fields, 5);
    foreground > 0 && group != foreground
}

/// The number that stands in this field, or 0.
fn field(fields: &str, at: usize) -> i64 {
    match fields.split(' ').nth(at) {
        Some(word) => word.parse().unwrap_or(0),
        None => 0,
    }
}
