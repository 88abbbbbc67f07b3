//! What prints texts until it comes to trouble.
ghost use Rattle.std.specs.Prelude.{◌≡◌, ℕ, List, [], None};
ghost use Rattle.xcp_audit.specs.Printing.{Prints, stand_of};

use crate::call_line::push_line;
use std::alloc::Global;
use std::io::Write;
use thiserror::Error;
use xcp_framing::Watched;
use xcp_record::{Roster, Witness};
use xcp_trace::Entry;

/// Why a printer prints nothing more.
#[derive(Clone, Copy, Debug, Error, PartialEq, Eq)]
pub enum Trouble {
    /// A write failed, or took no byte.
    #[error("a write failed")]
    Write,
    /// There was no memory for a text.
    #[error("no memory is left")]
    Memory,
}

/// Prints texts to a stream, one behind another, each at once. After its first trouble it prints nothing more.
#[derive(Drop)]
pub struct Printer<W> {
    writer: Watched<W>,
    trouble: Option<Trouble>,
    alloc: Global,
}

impl<W: Write> Printer<W> {
    /// A printer that has printed nothing.
    pub fn new(alloc: Global, stream: W) -> Printer<W>
        ensures stream { result.writer ≡ record { inner = stream; calls = 0; failures = 0; read = []; asked = [] } }
        ensures fine { result.trouble ≡ None }
    {
        Printer {
            writer: Watched::new(stream),
            trouble: None,
            alloc,
        }
    }

    /// The stream.
    pub fn into_stream(self) -> W
        ensures { result ≡ self.writer.inner }
    {
        self.writer.into_inner()
    }

    /// Its trouble, if it has had some.
    pub fn trouble(&self) -> Option<Trouble>
        ensures { result ≡ self.now.trouble }
    {
        self.trouble
    }

    /// Prints a text.
    pub(crate) fn print(&mut self, text: &[u8])
        ensures { Prints (stand_of W.contents self.old) (stand_of W.contents self.new) text.now }
    {
        if self.trouble.is_some() {
            return;
        }
        if self.writer.write_all(text).is_err() {
            self.trouble = Some(Trouble::Write);
        }
    }

    /// Prints nothing of a text, for which there was no memory.
    pub(crate) fn lose(&mut self)
        ensures { (text : List ℕ)
            → Prints (stand_of W.contents self.old) (stand_of W.contents self.new) text }
    {
        if self.trouble.is_none() {
            self.trouble = Some(Trouble::Memory);
        }
    }
}

/// Prints the line of each call.
impl<W: Write> Witness for Printer<W> {
    ghost use Rattle.xcp_audit.specs.CallLine.{lines_of_calls};
    ghost use Rattle.xcp_audit.specs.Printing.{Prints, stand_of};
    ghost use Rattle.xcp_audit.specs.private.PrintingLaws.{lines_more, prints_none};

    ghost hears = { λ x roster calls y. Prints (stand_of W.contents x) (stand_of W.contents y) (lines_of_calls roster calls) };

    fn told(&mut self, roster: Option<Roster>, call: &Entry) {
        let mut line = Vec::new(self.alloc);
        match push_line(&mut line, roster, call) {
            Ok(()) => self.print(&line),
            Err(_) => self.lose(),
        }
    }

    ghost hears_none = { λ x r. prints_none (stand_of W.contents x) };

    ghost hears_more = { λ x y z r a b p q.
        lines_more (stand_of W.contents x) (stand_of W.contents y) (stand_of W.contents z) r a b p q };
}
