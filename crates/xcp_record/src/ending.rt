//! How a journal's file ends.

/// What stands behind the last chapter of a whole file.
#[derive(Clone, Copy, Debug, PartialEq, Eq)]
pub enum FileEnding {
    /// The end mark, and nothing behind it: who wrote the file has ended in order.
    Ended,
    /// Nothing: who writes the file still runs, or didn't end in order.
    Open,
}

/// What an audit says of a whole file: how many calls it has, each with the slave's answer, and how it ends.
#[derive(Clone, Copy, Debug, PartialEq, Eq)]
pub struct Settled {
    pub calls: u64,
    pub ending: FileEnding,
}
