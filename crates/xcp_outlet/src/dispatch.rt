//! A line that both ends of an outlet share: whoever puts also writes.
ghost use Rattle.std.specs.Prelude.{◌≡◌, [], false};
ghost use Rattle.xcp_outlet.specs.Sending.{SendsMessages};
ghost use Rattle.xcp_outlet.specs.private.SendingProgress.{NoneInHand};

use crate::end::PutEnd;
use crate::forward::Forward;
use crate::intake::{Intake, SendEnd};
use crate::line::Line;
use crate::line_name::LineName;
use crate::sending::SentPackets;
use crate::side::Side;
use std::io::Write;
use std::marker::{Model, PhantomData};
use std::sync::{Mutex, Wait};
use xcp_framing::{Batch, Watched};

/// The end that takes, with the writer on which it sends. It lies under a lock: who puts a batch takes what lies in the channel and writes
/// it, so that no other thread has to be woken for it.
#[derive(Drop)]
pub struct Dispatch<L: LineName, W: Write + Drop> {
    place: usize,
    intake: Intake,
    line: Line,
    writer: Watched<W>,
    of: PhantomData<L>,
}

impl<L: LineName, W: Write + Drop> Model for Dispatch<L, W> {
    ghost use Rattle.std.specs.Prelude.{◌≡◌};
    ghost use Rattle.xcp_outlet.specs.private.SendingProgress.{Progress, DispatchValue};

    ghost Value = { DispatchValue W };

    ghost view = { λ s. record { place = s.place; intake = s.intake; line = s.line; writer = s.writer } };

    // what was taken of the outlet is sent by this writer, or held
    ghost invariant = { λ s. (s.intake.outlet ≡ L.outlet s.place)
        × Progress s.line s.intake.taken (L.before s.place) (W.contents s.writer.inner) (L.failures s.place) s.writer.failures };
}

impl<L: LineName, W: Write + Drop> Dispatch<L, W> {
    /// The dispatch of this place, which has sent nothing yet. The frames that one write takes have at most so many bytes, where one alone
    /// doesn't have more.
    pub fn new(place: usize, end: SendEnd, writer: Watched<W>, most: usize) -> Dispatch<L, W>
        requires outlet { end.outlet ≡ L.outlet place }
        requires before { W.contents writer.inner ≡ L.before place }
        requires failures { writer.failures ≡ L.failures place }
        ensures { result.place ≡ place }
    {
        let (intake, frames) = end.open();
        let line = Line::new(frames, most);
        Dispatch {
            place,
            intake,
            line,
            writer,
            of: PhantomData,
        }
    }

    /// Its place.
    pub fn place(&self) -> usize
        ensures { result ≡ self.now.place }
    {
        self.place
    }

    /// Sends what both ends have put and nobody has sent yet, and takes no more. The writer comes back.
    pub fn finish<R: Wait>(self, rt: &R) -> (SentPackets, Watched<W>)
        ensures same { result.0.took.outlet ≡ L.outlet self.place }
        ensures sends { SendsMessages result.0.count result.0.took.taken
            (L.before self.place) (W.contents result.1.inner) (L.failures self.place) result.1.failures }
    {
        let mut dispatch = self;
        dispatch.send(rt, false);
        let Dispatch {
            intake,
            line,
            writer,
            ..
        } = dispatch;
        let count = line.counted();
        let sent = SentPackets {
            count,
            took: intake.close(),
        };
        (sent, writer)
    }

    /// Whether a write has failed, behind which nothing more is written.
    fn is_broken(&self) -> bool {
        self.line.broken
    }

    /// Takes all that was put, and writes it, unless more follows at once: then some frames may be held.
    fn send<R: Wait>(&mut self, rt: &R, more: bool)
        ensures written { more ≡ false → NoneInHand self.new.line self.new.intake.taken }
        ensures place { self.new.place ≡ self.old.place }
    {
        self.take_all(rt);
        if !more {
            self.flush();
        }
    }

    /// Takes all that was put. Its frames are written, or held.
    fn take_all<R: Wait>(&mut self, rt: &R)
        ensures { self.new.place ≡ self.old.place }
    {
        let Dispatch {
            intake,
            line,
            writer,
            ..
        } = self;
        for _ in rt.forever() {
            let Some(message) = intake.take_now(rt) else {
                return;
            };
            line.add(message, writer);
        }
    }

    /// Writes the frames that are held.
    fn flush(&mut self)
        ensures written { NoneInHand self.new.line self.new.intake.taken }
        ensures place { self.new.place ≡ self.old.place }
    {
        let Dispatch { line, writer, .. } = self;
        line.flush(writer);
    }
}

impl<'a, L: LineName, W: Write + Drop> Forward for &'a Mutex<Dispatch<L, W>> {
    /// Puts a batch, and writes it with what else lies in the channel. Behind a write that has failed it hands the batch back.
    fn put<S: Side, R: Wait>(
        &self,
        rt: &R,
        end: &mut PutEnd<S>,
        batch: Batch,
        more: bool,
    ) -> Result<(), Batch> {
        let mut dispatch = self.lock(rt);
        if dispatch.is_broken() {
            return Err(batch);
        }
        end.put(rt, batch)?;
        dispatch.send(rt, more);
        Ok(())
    }

    fn flush<R: Wait>(&self, rt: &R) {
        self.lock(rt).send(rt, false);
    }
}
