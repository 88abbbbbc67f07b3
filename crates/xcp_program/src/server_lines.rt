//! The lines that a server prints.

use std::fmt;

/// Says that a server listens.
#[derive(Clone, Copy, Debug, PartialEq, Eq)]
pub struct Listening {
    /// The port.
    pub port: u16,
}

/// Says that a server listens for datagrams.
#[derive(Clone, Copy, Debug, PartialEq, Eq)]
pub struct ListeningUdp {
    /// The port.
    pub port: u16,
}

/// Says what there was of a server whose callers are settled. Lost events have a line if there are any, and so have cycles that tasks
/// were too late for.
#[derive(Clone, Copy, Debug, PartialEq, Eq)]
pub struct Counts {
    /// How many chapters the journal had, the open one included.
    pub chapters: u64,
    /// How many calls these have.
    pub calls: u64,
    /// How many events found no room for their packets.
    pub lost: u64,
    /// How many cycles tasks didn't have.
    pub late: u64,
}

/// Says what the network did, over which tools reach a slave by datagrams.
#[derive(Clone, Copy, Debug, PartialEq, Eq)]
pub struct Network {
    /// How many datagrams were received, those of the other numbers included.
    pub came: u64,
    /// How many of these have no byte, are longer than 1,472 bytes, or end with a frame that isn't whole or whose LEN is above MAX_CTO.
    pub faulty: u64,
    /// How many came from an address that doesn't have the slave, and weren't answered.
    pub foreign: u64,
    /// How many frames of the tool never came, by their CTR.
    pub lost: u64,
    /// How many came again, by their CTR.
    pub doubled: u64,
    /// How many came behind a later one, by their CTR.
    pub overtaken: u64,
    /// How many datagrams couldn't be sent.
    pub unsent: u64,
}

/// Says how much of a journal is in its file.
#[derive(Clone, Copy, Debug, PartialEq, Eq)]
pub struct Recorded {
    /// How many calls stand there, in whole chapters.
    pub calls: u64,
}

impl fmt::Display for Listening {
    ghost use Rattle.std.specs.Prelude.{Some};
    ghost use Rattle.xcp_program.specs.ServerLines.{listening_text};

    ghost output = { λ l. Some (listening_text l) };

    fn fmt<W: fmt::Write>(&self, f: &mut fmt::Formatter<W>) -> fmt::Result {
        let port = self.port;
        write!(f, "listening {port}\n")
    }
}

impl fmt::Display for ListeningUdp {
    ghost use Rattle.std.specs.Prelude.{Some};
    ghost use Rattle.xcp_program.specs.ServerLines.{listening_udp_text};

    ghost output = { λ l. Some (listening_udp_text l) };

    fn fmt<W: fmt::Write>(&self, f: &mut fmt::Formatter<W>) -> fmt::Result {
        let port = self.port;
        write!(f, "listening {port} udp\n")
    }
}

impl fmt::Display for Network {
    ghost use Rattle.std.specs.Prelude.{Some};
    ghost use Rattle.xcp_program.specs.ServerLines.{network_text};

    ghost output = { λ n. Some (network_text n) };

    fn fmt<W: fmt::Write>(&self, f: &mut fmt::Formatter<W>) -> fmt::Result {
        let received = Received {
            came: self.came,
            faulty: self.faulty,
            foreign: self.foreign,
        };
        let missed = Missed {
            lost: self.lost,
            doubled: self.doubled,
            overtaken: self.overtaken,
        };
        let unsent = self.unsent;
        write!(f, "datagrams: {received}, {missed}, {unsent} unsent\n")
    }
}

/// What there was of datagrams.
#[derive(Clone, Copy, Debug)]
struct Received {
    came: u64,
    faulty: u64,
    foreign: u64,
}

impl fmt::Display for Received {
    ghost use Rattle.std.specs.Prelude.{Some};
    ghost use Rattle.xcp_program.specs.ServerLines.{received_text};

    ghost output = { λ r. Some (received_text r.came r.faulty r.foreign) };

    fn fmt<W: fmt::Write>(&self, f: &mut fmt::Formatter<W>) -> fmt::Result {
        let (came, faulty, foreign) = (self.came, self.faulty, self.foreign);
        write!(f, "{came} came, {faulty} faulty, {foreign} foreign")
    }
}

/// What there was of frames, by their CTR.
#[derive(Clone, Copy, Debug)]
struct Missed {
    lost: u64,
    doubled: u64,
    overtaken: u64,
}

impl fmt::Display for Missed {
    ghost use Rattle.std.specs.Prelude.{Some};
    ghost use Rattle.xcp_program.specs.ServerLines.{missed_text};

    ghost output = { λ m. Some (missed_text m.lost m.doubled m.overtaken) };

    fn fmt<W: fmt::Write>(&self, f: &mut fmt::Formatter<W>) -> fmt::Result {
        let (lost, doubled, overtaken) = (self.lost, self.doubled, self.overtaken);
        write!(f, "{lost} lost, {doubled} doubled, {overtaken} overtaken")
    }
}

impl fmt::Display for Counts {
    ghost use Rattle.std.specs.Prelude.{Some};
    ghost use Rattle.xcp_program.specs.ServerLines.{counts_text};

    ghost output = { λ c. Some (counts_text c) };

    fn fmt<W: fmt::Write>(&self, f: &mut fmt::Formatter<W>) -> fmt::Result {
        let (chapters, calls) = (self.chapters, self.calls);
        let (lost, late) = (
            Counted {
                word: "lost",
                count: self.lost,
            },
            Counted {
                word: "late",
                count: self.late,
            },
        );
        write!(
            f,
            "chapters {chapters}\ncalls {calls}\n{lost}{late}settled\n"
        )
    }
}

/// A line of a word and a number, where the number isn't 0.
#[derive(Clone, Copy, Debug)]
struct Counted {
    word: &'static str,
    count: u64,
}

impl fmt::Display for Counted {
    ghost use Rattle.std.specs.Prelude.{Some, ◌++◌, codes};
    ghost use Rattle.xcp_program.specs.ServerLines.{line_where};

    ghost output = { λ c. Some (line_where (c.word.now ++ codes " ") c.count) };

    fn fmt<W: fmt::Write>(&self, f: &mut fmt::Formatter<W>) -> fmt::Result {
        if self.count == 0 {
            return Ok(());
        }
        let (word, count) = (self.word, self.count);
        write!(f, "{word} {count}\n")
    }
}

impl fmt::Display for Recorded {
    ghost use Rattle.std.specs.Prelude.{Some};
    ghost use Rattle.xcp_program.specs.ServerLines.{recorded_text};

    ghost output = { λ r. Some (recorded_text r) };

    fn fmt<W: fmt::Write>(&self, f: &mut fmt::Formatter<W>) -> fmt::Result {
        let calls = self.calls;
        write!(f, "recorded {calls}\n")
    }
}
