//! A writer whose bytes contracts see.
ghost use Rattle.std.specs.Prelude.{◌≡◌, [], Some};

use crate::record::{Piece, Record};
use std::io::{self, Write};

/// Passes calls on to a writer, whatever it is. Contracts alone see the bytes that it took, in order, also where it is a socket: at run
/// time a `Noting<W>` is its `W`.
#[derive(Drop)]
pub struct Noting<W> {
    inner: W,
    taken: Record,
}

impl<W: Write> Noting<W> {
    /// A writer that has taken nothing yet.
    pub fn new(inner: W) -> Noting<W>
        ensures { ⟦<Noting<W> as Write>⟧.contents result ≡ Some [] }
    {
        Noting {
            inner,
            taken: Record::new(),
        }
    }
}

impl<W: Write> Write for Noting<W> {
    ghost use Rattle.std.specs.Prelude.{Some};

    ghost contents = { λ n. Some n.taken.bytes };

    fn write(&mut self, buf: &[u8]) -> io::Result<usize> {
        let result = self.inner.write(buf);
        if let Ok(count) = &result {
            let piece = Piece {
                bytes: &buf[..*count],
            };
            self.taken = Record::more(&self.taken, &piece);
        }
        result
    }

    fn flush(&mut self) -> io::Result<()> {
        self.inner.flush()
    }
}
