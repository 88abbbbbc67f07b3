//! A file that is on the disk.
ghost use Rattle.std.specs.Io.{WritesAtMost};

use std::fs::File;
use std::io::{self, Write};

/// A file, of which each write is on the disk once it returns.
#[derive(Drop)]
pub struct Synced {
    file: File,
}

impl Synced {
    /// Nothing was written yet.
    pub fn new(file: File) -> Synced {
        Synced { file }
    }

    /// One write that is on the disk then.
    fn write_through(&mut self, buf: &[u8]) -> io::Result<usize>
        ensures { WritesAtMost result buf.now }
    {
        let count = self.file.write(buf)?;
        self.file.sync_data()?;
        Ok(count)
    }
}

impl Write for Synced {
    fn write(&mut self, buf: &[u8]) -> io::Result<usize> {
        self.write_through(buf)
    }

    fn flush(&mut self) -> io::Result<()> {
        self.file.flush()
    }
}
