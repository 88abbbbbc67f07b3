//! A reader or a writer whose calls contracts count, and whose reads they see: of how many bytes each was, and the bytes that came.
ghost use Rattle.std.specs.Prelude.{◌≡◌, ◌+◌, ◌++◌, ◌∷◌, [], length, true, false, OnOk, OnErr};
ghost use Rattle.std.specs.Io.{ReadsAtMost, WritesAtMost};
ghost use Rattle.std.specs.Io.KnownBytes.{Appends, ReadConsumes, WriteAppends};
ghost use Rattle.xcp_framing.specs.Prefix.{AppendsFront};
ghost use Rattle.xcp_framing.specs.CountedCalls.{Counted, Gives, is_failed_read, is_failed_write, stream_place};

use crate::passages::Passages;
use crate::record::{Piece, Record};
use crate::tally::Tally;
use std::io::{self, Read, Write};
use std::marker::Model;
use thiserror::Error;

/// Passes calls on to a reader or a writer. Contracts alone see how many calls there were, how many
/// of them failed, of how many bytes each read was, and the bytes that its reads gave, whatever the
/// reader is: at run time a `Watched<T>` is its `T`.
#[derive(Drop)]
pub struct Watched<T> {
    inner: T,
    calls: Tally,
    failures: Tally,
    read: Record,
    asked: Record,
}

impl<T> Model for Watched<T> {
    ghost use Rattle.xcp_framing.specs.CountedCalls.{Watched as Watching, watched_code};

    ghost Value = { Watching T };

    ghost coded = { watched_code T.code };

    ghost view = { λ w. record { inner = w.inner; calls = w.calls.count; failures = w.failures.count; read = w.read.bytes; asked = w.asked.sizes } };
}

impl<T> Watched<T> {
    /// Watches `inner` from now on.
    pub fn new(inner: T) -> Self
        ensures { result ≡ record { inner = inner; calls = 0; failures = 0; read = []; asked = [] } }
    {
        Watched {
            inner,
            calls: Tally::new(),
            failures: Tally::new(),
            read: Record::new(),
            asked: Record::new(),
        }
    }

    /// The reader or the writer itself, watched no more.
    pub fn into_inner(self) -> T
        ensures { result ≡ self.inner }
    {
        let Watched {
            inner,
            calls: _,
            failures: _,
            read: _,
            asked: _,
        } = self;
        inner
    }
}

impl<R: Read> Watched<R> {
    /// Tells the inner reader whether its next read begins inside a frame. That is no read.
    pub fn stand<P: Passages<R>>(&mut self, passages: &P, inside: bool)
        ensures place { stream_place R.remaining self.new ≡ stream_place R.remaining self.old }
        ensures calls { (self.new.calls ≡ self.old.calls) × (self.new.failures ≡ self.old.failures) }
        ensures asked { self.new.asked ≡ self.old.asked }
        ensures knows { P.Passages.knows self.new.inner inside }
    {
        passages.stand(&mut self.inner, inside);
    }

    /// Whether another passage of its stream begins behind the end that was just read. That is no read.
    pub fn begin_again<P: Passages<R>>(&mut self, passages: &P) -> bool
        ensures place { stream_place R.remaining self.new ≡ stream_place R.remaining self.old }
        ensures calls { (self.new.calls ≡ self.old.calls) × (self.new.failures ≡ self.old.failures) }
        ensures asked { self.new.asked ≡ self.old.asked }
        ensures more { result ≡ true → P.Passages.goes_on }
        ensures none { result ≡ false → self.new ≡ self.old }
    {
        passages.begin_again(&mut self.inner)
    }

    /// One read of the inner reader. A read fails with an `Err`.
    pub fn read(&mut self, buf: &mut [u8]) -> io::Result<usize>
        ensures bound { ReadsAtMost result buf.new }
        ensures bytes { ReadConsumes
            (R.remaining self.old.inner) (R.remaining self.new.inner) result buf.new }
        ensures counted { Counted self.old self.new (is_failed_read result) }
        ensures gives { Gives result buf.new self.old self.new }
        ensures asked { self.new.asked ≡ self.old.asked ++ length buf.old ∷ [] }
    {
        let result = self.inner.read(buf);
        self.calls = Tally::more(&self.calls);
        let buffer = Piece { bytes: buf };
        self.asked = Record::more(&self.asked, &buffer);
        match &result {
            Ok(count) => {
                let piece = Piece {
                    bytes: &buf[..*count],
                };
                self.read = Record::more(&self.read, &piece);
            }
            Err(_) => self.failures = Tally::more(&self.failures),
        }
        result
    }
}

impl<W: Write> Watched<W> {
    /// One write of the inner writer. A write fails with an `Err`, or if it takes no byte of some.
    pub fn write(&mut self, buf: &[u8]) -> io::Result<usize>
        ensures bound { WritesAtMost result buf.now }
        ensures bytes { WriteAppends
            (W.contents self.old.inner) (W.contents self.new.inner) result buf.now }
        ensures counted { Counted self.old self.new (is_failed_write result buf.now) }
        ensures read { self.new.read ≡ self.old.read }
        ensures asked { self.new.asked ≡ self.old.asked }
    {
        let result = self.inner.write(buf);
        self.calls = Tally::more(&self.calls);
        let failed = match &result {
            Ok(0) => !buf.is_empty(),
            Ok(_) => false,
            Err(_) => true,
        };
        if failed {
            self.failures = Tally::more(&self.failures);
        }
        result
    }

    /// Writes all of a text, in as many writes as it takes. It ends at the first write that fails;
    /// what was written by then is a front of the text.
    pub fn write_all(&mut self, text: &[u8]) -> Result<(), WriteFailed>
        ensures ok { OnOk result (Appends
            (W.contents self.old.inner) (W.contents self.new.inner) text.now) }
        ensures fine { OnOk result (self.new.failures ≡ self.old.failures) }
        ensures front { OnErr result (AppendsFront
            (W.contents self.old.inner) (W.contents self.new.inner) text.now) }
        ensures failed { OnErr result (self.new.failures ≡ self.old.failures + 1) }
    {
        let mut written = 0;
        while written < text.len() {
            let Ok(count) = self.write(&text[written..]) else {
                return Err(WriteFailed);
            };
            if count == 0 {
                return Err(WriteFailed);
            }
            written += count;
        }
        Ok(())
    }
}

/// A write failed: it gave an error, or took no byte of some.
#[derive(Clone, Copy, Debug, Error, PartialEq, Eq)]
#[error("a write failed")]
pub struct WriteFailed;
