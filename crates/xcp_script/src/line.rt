//! What a line of a script says.
use xcp_slave::Request;

/// What a line of a script says.
#[derive(Debug, PartialEq, Eq, Drop)]
pub enum Line {
    /// Nothing: the line is empty, or a comment.
    Skip,
    /// A request for the slave.
    Ask(Request),
    /// No request: the line is too long, or says nothing that a slave can be asked.
    Faulty,
}
