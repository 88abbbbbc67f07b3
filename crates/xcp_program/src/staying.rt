//! How a server is asked to stay.
ghost use Rattle.std.specs.Prelude.{◌≡◌};
ghost use Rattle.xcp_program.specs.Stays.{asked_count, staying_of};

use crate::purpose::Options;

/// How a server is asked to stay, but for its layout file and its address.
#[derive(Clone, Copy, Debug, PartialEq, Eq)]
pub struct Staying {
    /// How many tools may have a seat at a time.
    pub tools: u8,
    /// How many tasks run.
    pub tasks: u8,
    /// The milliseconds from one cycle of a task to its next.
    pub period: u32,
    /// Whether each task goes by its channel's own cycle and unit where these say a time.
    pub pace: bool,
    /// The seconds that a tool may stop inside a frame, or read nothing of what is sent to it.
    pub patience: u32,
    /// How many tools may wait for a seat while all are taken.
    pub queue: u8,
    /// The seconds after which a connection is closed that has sent nothing for so long, if one is.
    pub idle: Option<u32>,
    /// The seconds from one cut of the journal's open chapter to the next, if there are any: where the journal is written to a file.
    pub cut_every: Option<u32>,
    /// Whether a file keeps the stored pages: a store is finished once it has them.
    pub keeps_pages: bool,
    /// Whether standard input is read.
    pub reads_input: bool,
    /// Whether tools reach the slave over UDP, and not over TCP.
    pub udp: bool,
}

impl Options {
    /// How a server is asked to stay, if that is what is asked for.
    pub fn staying(&self) -> Option<Staying>
        ensures { result ≡ staying_of self.now }
    {
        let Options::Stay {
            tools,
            tasks,
            period,
            patience,
            queue,
            idle,
            cut_every,
            no_stdin,
            journal,
            flash,
            pace,
            udp,
            ..
        } = self
        else {
            return None;
        };
        Some(Staying {
            tools: *tools,
            tasks: *tasks,
            period: *period,
            pace: *pace,
            patience: *patience,
            queue: *queue,
            idle: where_true(*idle > 0, *idle),
            cut_every: where_true(journal.is_some(), *cut_every),
            keeps_pages: flash.is_some(),
            reads_input: !*no_stdin,
            udp: *udp,
        })
    }
}

/// So many, where that is asked for.
fn where_true(asked: bool, count: u32) -> Option<u32>
    ensures { result ≡ asked_count asked count }
{
    if asked { Some(count) } else { None }
}
