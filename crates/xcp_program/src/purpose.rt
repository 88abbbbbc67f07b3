//! What the program is asked to do, or why it is asked nothing.
ghost use Rattle.std.specs.Prelude.{◌≡◌};

use clap::Error;
use std::alloc::AllocError;

/// What the program is asked to do.
#[derive(Debug, PartialEq, Drop)]
pub enum Options {
    /// To answer the lines of standard input, on the slave that this file describes.
    Replay {
        /// The name of the configuration file.
        config: String,
        /// The name of the file that keeps the stored pages, if one does.
        flash: Option<String>,
    },
    /// To answer tools over TCP on the slave that this file describes, while tasks raise events, until all have ended.
    Serve {
        /// The name of the configuration file.
        config: String,
        /// The address of this machine to listen on.
        host: String,
        /// The port to listen on, 1,024 to 65,535.
        port: u16,
        /// How many connections are accepted, 1 or 2.
        tools: u8,
        /// How many tasks run, 0 to 6.
        tasks: u8,
        /// How many cycles each task runs, 1 to 1,000.
        cycles: u32,
        /// From how many calls on a chapter of the journal is cut off, 1 to 65,536.
        chapter: u32,
        /// The milliseconds from one cycle of a task to its next, 0 to 1,000.
        period: u32,
        /// The name of the file that the journal is written to, if it is.
        journal: Option<String>,
        /// The name of the file that keeps the stored pages, if one does.
        flash: Option<String>,
        /// Whether each task goes by its channel's own cycle and unit where these say a time.
        pace: bool,
    },
    /// The same, over TCP or UDP, while tools come and go.
    Stay {
        /// The name of the configuration file.
        config: String,
        /// The address of this machine to listen on.
        host: String,
        /// The port to listen on, 1,024 to 65,535.
        port: u16,
        /// How many tools may be connected at a time, 1 to 4; over UDP 1.
        tools: u8,
        /// How many tasks run, 0 to 6.
        tasks: u8,
        /// The milliseconds from one cycle of a task to its next, 0 to 1,000.
        period: u32,
        /// The seconds that a tool may stop inside a frame, or read nothing of what is sent to it, 1 to 3,600.
        patience: u32,
        /// How many tools may wait for a seat while all are taken, 0 to 64.
        queue: u8,
        /// The seconds after which a connection is closed that has sent nothing for so long, up to 86,400; 0 where none is for that.
        idle: u32,
        /// The seconds within which the journal's open chapter is cut off where it isn't empty, 1 to 3,600, if the journal is written to
        /// a file.
        cut_every: u32,
        /// Whether standard input isn't read.
        no_stdin: bool,
        /// The name of the file that the journal is written to, if it is.
        journal: Option<String>,
        /// The name of the file that keeps the stored pages, if one does.
        flash: Option<String>,
        /// Whether each task goes by its channel's own cycle and unit where these say a time.
        pace: bool,
        /// Whether tools reach the slave over UDP, one at a time, and not over TCP.
        udp: bool,
    },
    /// To describe, for tools, the slave that this file describes.
    Describe {
        /// The name of the configuration file.
        config: String,
        /// The host at which tools reach the slave.
        host: String,
        /// The port at which they do, 1,024 to 65,535.
        port: u16,
        /// Whether the file is only checked, and nothing described.
        check: bool,
        /// Whether tools reach the slave over UDP, and not over TCP.
        udp: bool,
    },
    /// To execute the calls of a journal's file again, on a new slave that this file describes, and compare their answers.
    Audit {
        /// The name of the configuration file.
        config: String,
        /// The name of the journal's file.
        file: String,
        /// The name of the file that keeps the stored pages, if one does.
        flash: Option<String>,
        /// Whether each call is printed as a line.
        lines: bool,
    },
}

/// Why the words ask for nothing that the program does.
#[derive(Debug, Drop)]
pub enum OptionsFault {
    /// An allocation failed.
    Memory,
    /// The words are wrong, or ask for help; the text says more.
    Words(Error),
    /// The words ask for more than 2 tools, and not that the server stays, or for more than one over UDP.
    TooManyTools,
    /// The words ask that the server stays, and give an option that only a server that ends has: `--cycles` or `--chapter`.
    NotForStay,
    /// The words don't ask that the server stays, and give an option that only such a server has: `--patience`, `--queue`, `--idle`,
    /// `--cut-every`, `--no-stdin` or `--udp`.
    OnlyForStay,
    /// The words ask that the server stays, and give `--cut-every`, but no file for the journal.
    OnlyForJournal,
    /// The words name one file twice: the journal's file is that of the stored pages, or one that is written beside it, whose name has
    /// `.new` or `.lock` behind it.
    OneFile,
}

impl OptionsFault {
    ghost use Rattle.xcp_program.specs.CommandLine.{number_of};

    /// The fault's number: 1 Memory, 2 Words, 3 TooManyTools, 4 NotForStay, 5 OnlyForStay, 6 OnlyForJournal, 7 OneFile.
    pub fn number(&self) -> u8
        ensures { result ≡ number_of self.now }
    {
        match self {
            OptionsFault::Memory => 1,
            OptionsFault::Words(_) => 2,
            OptionsFault::TooManyTools => 3,
            OptionsFault::NotForStay => 4,
            OptionsFault::OnlyForStay => 5,
            OptionsFault::OnlyForJournal => 6,
            OptionsFault::OneFile => 7,
        }
    }
}

impl From<AllocError> for OptionsFault {
    ghost use Rattle.xcp_program.specs.declared.purpose.OptionsFault.TheVariants.{Memory};

    ghost from_gives = { λ _ e. e ≡ Memory };

    fn from(_: AllocError) -> OptionsFault {
        OptionsFault::Memory
    }
}
