//! Lines for standard error that nobody waits for.
ghost use Rattle.std.specs.Prelude.{◌≡◌, ◌≤◌, ◌+◌, ◌-◌, ◌^◌, ◌⊎◌, ◌++◌, ◌∷◌, [], min, vec_len};

use crate::telling::line_of;
use std::alloc::{AllocError, Global};
use std::io;
use std::mem::replace;
use std::sync::{Arc, Condvar, CondvarTimeouts, Mutex, Wait};
use std::thread::{self, Threads};
use std::time::{Clock, Duration};
use xcp_program::Fault;

/// The most lines that wait to be written. Further ones are dropped, and counted.
const MOST: usize = 1000;

/// How long the program's end waits for the last lines, in milliseconds.
const LAST: u64 = 1000;

/// What waits to be written.
#[derive(Drop)]
struct Waiting {
    lines: Vec<String>,
    dropped: u64,
    /// No more lines come.
    is_closed: bool,
    /// All that came is written.
    is_written: bool,
}

/// Lines for standard error, in order. A thread of its own writes them: whoever tells one goes on, also where nobody reads them.
#[derive(Drop)]
pub struct Lines {
    waiting: Mutex<Waiting>,
    changed: Condvar,
    /// Faults are told without words.
    plain: bool,
}

impl Waiting {
    /// One more line, if there is room for it.
    fn take_in(&mut self, line: String)
        ensures taken { ((self.new.lines.items ≡ self.old.lines.items ++ line ∷ []) × (self.new.dropped ≡ self.old.dropped))
            ⊎ ((self.new.lines.items ≡ self.old.lines.items) × (self.new.dropped ≡ min (self.old.dropped + 1) (2 ^ 64 - 1))) }
        ensures most { vec_len self.old.lines ≤ MOST → vec_len self.new.lines ≤ MOST }
        ensures kept { (self.new.is_closed ≡ self.old.is_closed) × (self.new.is_written ≡ self.old.is_written) }
    {
        if self.lines.len() >= MOST || self.lines.push(line).is_err() {
            self.dropped = self.dropped.saturating_add(1);
        }
    }
}

impl Lines {
    /// One more line.
    pub fn add(&self, rt: &impl Wait, line: String) {
        self.waiting.lock(rt).take_in(line);
        self.changed.notify_all();
    }

    /// The line of a fault, by its number, where there is memory for it.
    pub fn tell_fault(&self, rt: &impl Wait, alloc: Global, fault: Fault) {
        if let Ok(line) = self.fault_line(alloc, fault) {
            self.add(rt, line);
        }
    }

    /// What these lines have of a fault: its number, and the words on it unless they are left out.
    pub fn fault_line(&self, alloc: Global, fault: Fault) -> Result<String, AllocError> {
        line_of(alloc, fault, self.plain)
    }

    /// No more lines come. Waits until all are written, but not for long.
    pub fn end<R: Wait + Clock>(&self, rt: &R) {
        let mut waiting = self.waiting.lock(rt);
        waiting.is_closed = true;
        self.changed.notify_all();
        let last = Duration::from_millis(LAST);
        let _waiting = self
            .changed
            .wait_timeout_while(rt, waiting, last, |waiting| !waiting.is_written);
    }

    /// Waits for lines, and takes all that came, and how many were dropped. `None` where no more come.
    fn take(&self, rt: &impl Wait, alloc: Global) -> Option<(Vec<String>, u64)> {
        let mut waiting = self
            .changed
            .wait_while(rt, self.waiting.lock(rt), |waiting| {
                waiting.lines.is_empty() && waiting.dropped == 0 && !waiting.is_closed
            });
        if waiting.lines.is_empty() && waiting.dropped == 0 {
            waiting.is_written = true;
            self.changed.notify_all();
            return None;
        }
        let lines = replace(&mut waiting.lines, Vec::new(alloc));
        Some((lines, replace(&mut waiting.dropped, 0)))
    }

    /// Writes lines until no more come.
    fn write_all<R: Wait>(&self, rt: &HostRuntime, handle: &R) {
        for _turn in handle.forever() {
            let Some((lines, dropped)) = self.take(handle, rt.alloc()) else {
                return;
            };
            for line in lines {
                let _ = eprintln!(rt; "xcpd: {line}");
            }
            if dropped > 0 {
                let _ = eprintln!(rt; "xcpd: {dropped} lines were dropped");
            }
        }
    }
}

/// Lines that a thread writes from now on, for as long as the program runs, with the words on faults or without.
pub fn begin_lines<R: Threads + Wait + Copy + Send + 'static>(
    rt: &HostRuntime,
    handle: &R,
    plain: bool,
) -> io::Result<Arc<Lines>> {
    let lines = Arc::new(
        rt.alloc(),
        Lines {
            waiting: Mutex::new(Waiting {
                lines: Vec::new(rt.alloc()),
                dropped: 0,
                is_closed: false,
                is_written: false,
            }),
            changed: Condvar::new(),
            plain,
        },
    )?;
    let written = lines.clone()?;
    let (host, waits) = (*rt, *handle);
    thread::spawn(handle, move || written.write_all(&host, &waits))?;
    Ok(lines)
}
