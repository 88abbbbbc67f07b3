//! A tool that stops inside a frame, one that says nothing, and one that has no end.
ghost use Rattle.std.specs.Prelude.{◌≡◌, Ok, IfSome};
ghost use Rattle.std.specs.Io.{ReadsAtMost};

use crate::port::Visit;
use std::io::{self, ErrorKind, Read};
use std::net::TcpStream;
use std::sync::Wait;
use std::sync::atomic::{AtomicBool, Ordering};
use std::time::{Clock, Duration};
use xcp_framing::Passages;

/// How many reads a passage has at least, where the connection doesn't end before.
const PASSAGE: u32 = 1_073_741_824;

/// How often a read may wait for a tool that says nothing between two frames.
const WAITS: u32 = 4_294_967_295;

/// How long a connection waits for its tool.
#[derive(Clone, Copy, Debug)]
pub struct Times {
    /// For more of a frame that has begun, and for a tool that reads nothing.
    pub patience: Duration,
    /// For another frame, if it has an end.
    pub idle: Option<Duration>,
}

/// What is read of a tool: the bytes of its connection, or the frames of its datagrams.
#[derive(Drop)]
enum Source<'a, R> {
    Stream(TcpStream),
    Datagrams(Visit<'a, R>),
}

/// A connection whose reads wait for the next frame for as long as a tool may be idle, and inside a frame for as long as the server is
/// patient. Behind the first the connection ends, as if the tool had closed it, and who watches is told so; behind the other the read
/// fails. After very many reads it ends a passage, between two frames, as if the connection had ended: so whoever counts reads can begin
/// again.
///
/// Where a tool sends datagrams, it is its visit, which ends with a DISCONNECT, or where another tool takes its place.
#[derive(Drop)]
pub struct Patient<'a, R> {
    source: Source<'a, R>,
    /// Whether the next read begins inside a frame.
    is_inside: bool,
    times: Times,
    /// Whether the socket has the time for the next frame set, and not that inside a frame.
    is_resting: bool,
    /// How many reads this passage had.
    reads: u32,
    /// The last read ended a passage.
    is_passed: bool,
    /// Whether the tool was idle for too long.
    was_idle: &'a AtomicBool,
}

impl<'a, R: Wait + Clock> Patient<'a, R> {
    /// A connection, before its first frame.
    pub fn new(stream: TcpStream, times: Times, was_idle: &'a AtomicBool) -> Patient<'a, R> {
        // Where these can't be set, as with a tool that has gone again, answers are late at most.
        let _ = stream.set_write_timeout(Some(times.patience));
        let _ = stream.set_read_timeout(Some(times.patience));
        Patient::before(Source::Stream(stream), times, was_idle)
    }

    /// A visit of a tool that sends datagrams.
    pub(crate) fn visiting(
        visit: Visit<'a, R>,
        times: Times,
        was_idle: &'a AtomicBool,
    ) -> Patient<'a, R> {
        // Where it can't be set, it is waited for longer.
        let _ = visit.port.socket().set_read_timeout(times.idle);
        Patient::before(Source::Datagrams(visit), times, was_idle)
    }

    /// Before the first frame of a source.
    fn before(source: Source<'a, R>, times: Times, was_idle: &'a AtomicBool) -> Patient<'a, R> {
        Patient {
            source,
            is_inside: false,
            times,
            is_resting: false,
            reads: 0,
            is_passed: false,
            was_idle,
        }
    }

    /// One read: `None` where a tool that may be silent was, or a signal broke the read off.
    fn read_once(&mut self, buf: &mut [u8]) -> Option<io::Result<usize>>
        ensures { IfSome result (λ read. ReadsAtMost read buf.new) }
    {
        let read = match &mut self.source {
            Source::Datagrams(visit) => return visit.read_once(buf, self.times, self.was_idle),
            Source::Stream(stream) => {
                let rests = !self.is_inside;
                if rests != self.is_resting {
                    self.is_resting = rests;
                    set_time(stream, self.times, rests);
                }
                stream.read(buf)
            }
        };
        match read {
            Ok(count) => Some(Ok(count)),
            Err(e) if is_interrupted(&e) => None,
            Err(e) if is_late(&e) && !self.is_inside => self.rest(),
            Err(e) => Some(Err(e)),
        }
    }

    /// A tool has sent nothing since its last frame: the connection ends where it may not.
    fn rest(&self) -> Option<io::Result<usize>>
        ensures { IfSome result (λ read. read ≡ Ok 0) }
    {
        self.times.idle?;
        self.was_idle.store(true, Ordering::SeqCst);
        Some(Ok(0))
    }
}

/// Sets the time that the reads of a connection may take from now on, which rests between two frames, or is inside one.
fn set_time(stream: &TcpStream, times: Times, rests: bool) {
    let Some(idle) = times.idle else {
        return;
    };
    let time = if rests { idle } else { times.patience };
    let _ = stream.set_read_timeout(Some(time));
}

/// Tells a patient reader where its stream stands, and looks whether its last read ended a passage, and not the connection. Another passage
/// begins then.
#[derive(Clone, Copy, Debug, Drop)]
pub(crate) struct Patiently;

impl<'a, R: Wait + Clock> Passages<Patient<'a, R>> for Patiently {
    ghost use Rattle.std.specs.Prelude.{◌≡◌, ⊤};

    ghost goes_on = { ⊤ };

    ghost knows = { λ reader inside. reader.is_inside ≡ inside };

    fn stand(&self, reader: &mut Patient<'a, R>, inside: bool) {
        reader.is_inside = inside;
    }

    fn begin_again(&self, reader: &mut Patient<'a, R>) -> bool {
        if !reader.is_passed {
            return false;
        }
        reader.reads = 0;
        reader.is_passed = false;
        true
    }
}

impl<R: Wait + Clock> Read for Patient<'_, R> {
    fn read(&mut self, buf: &mut [u8]) -> io::Result<usize> {
        if self.reads >= PASSAGE && !self.is_inside {
            self.is_passed = true;
            return Ok(0);
        }
        self.reads = self.reads.saturating_add(1);
        for _wait in 0..WAITS {
            if let Some(read) = self.read_once(buf) {
                return read;
            }
        }
        Err(ErrorKind::TimedOut.into())
    }
}

/// Whether a call was broken off by a signal, as where the program was stopped and goes on. It is made again.
pub(crate) fn is_interrupted(e: &io::Error) -> bool {
    e.kind() == ErrorKind::Interrupted
}

/// Whether a read failed since nothing came in time.
pub(crate) fn is_late(e: &io::Error) -> bool {
    matches!(e.kind(), ErrorKind::WouldBlock | ErrorKind::TimedOut)
}
