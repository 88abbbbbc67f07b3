//! Faults that are told when they happen.

use crate::lines::Lines;
use crate::telling::line_of;
use std::alloc::Global;
use std::sync::atomic::{AtomicBool, Ordering};
use std::sync::{Arc, Wait};
use xcp_program::Fault;

/// Tells faults on standard error as they happen: by lines that nobody waits for, if there are such, or else at once.
#[derive(Drop)]
pub struct Teller<'a, R> {
    rt: &'a HostRuntime,
    handle: &'a R,
    lines: Option<&'a Lines>,
    /// Where there are no such lines: faults are told without words.
    plain: bool,
    is_told: bool,
}

impl<'a, R: Wait> Teller<'a, R> {
    /// Nothing was told yet.
    pub fn new(
        rt: &'a HostRuntime,
        handle: &'a R,
        lines: Option<&'a Lines>,
        plain: bool,
    ) -> Teller<'a, R> {
        Teller {
            rt,
            handle,
            lines,
            plain,
            is_told: false,
        }
    }

    /// Tells the first fault, and none behind it.
    pub fn report(&mut self, fault: Fault) {
        if self.is_told {
            return;
        }
        self.is_told = true;
        match self.lines {
            Some(lines) => lines.tell_fault(self.handle, self.rt.alloc(), fault),
            None => {
                if let Ok(line) = line_of(self.rt.alloc(), fault, self.plain) {
                    let _ = eprintln!(self.rt; "xcpd: {line}");
                }
            }
        }
    }
}

/// Tells that the journal's file lacks something, once, whoever finds it first: the thread that writes it, or who hands chapters on to that.
#[derive(Drop)]
pub struct Alarm {
    alloc: Global,
    lines: Arc<Lines>,
    is_silent: AtomicBool,
}

impl Alarm {
    /// It tells nothing yet.
    pub fn new(alloc: Global, lines: Arc<Lines>) -> Alarm {
        Alarm {
            alloc,
            lines,
            is_silent: AtomicBool::new(true),
        }
    }

    /// From now on it tells.
    pub fn arm(&self) {
        self.is_silent.store(false, Ordering::SeqCst);
    }

    /// Tells it, and nothing afterwards.
    pub fn ring(&self, handle: &impl Wait) {
        if self.is_silent.swap(true, Ordering::SeqCst) {
            return;
        }
        self.lines.tell_fault(handle, self.alloc, Fault::Journal(2));
    }
}
