//! A file that is on the disk once it is flushed.

use std::fs::File;
use std::io::{self, Write};

/// A file, of which all that was written is on the disk once a flush returns.
#[derive(Drop)]
pub struct Flushed {
    file: File,
}

impl Flushed {
    /// Nothing was written yet.
    pub fn new(file: File) -> Flushed {
        Flushed { file }
    }
}

impl Write for Flushed {
    fn write(&mut self, buf: &[u8]) -> io::Result<usize> {
        self.file.write(buf)
    }

    fn flush(&mut self) -> io::Result<()> {
        self.file.flush()?;
        self.file.sync_data()
    }
}
