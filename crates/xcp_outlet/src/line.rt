//! Frames of packets that were taken, from their making to their writing.
ghost use Rattle.std.specs.Prelude.{◌≡◌, ◌≤◌, ℕ, Bool, List, Option, Some, [], ◌∷◌, ◌++◌, false, length};
ghost use Rattle.xcp_framing.specs.FrameOutput.{FindsRoom};
ghost use Rattle.xcp_outlet.specs.declared.message.Message.{Message};
ghost use Rattle.xcp_outlet.specs.Sending.{SendsMessages};
ghost use Rattle.xcp_outlet.specs.private.KnownHalves.{message};
ghost use Rattle.xcp_outlet.specs.private.SendingProgress.{NoneInHand, Progress};

use crate::fault::SendError;
use crate::message::Message;
use std::io::Write;
use xcp_framing::{Batch, FrameWriter, Watched};

/// How far the sending is.
#[derive(Drop)]
pub(crate) struct Line {
    /// The packets whose frames were made, and the frames that were made and not written.
    pub(crate) frames: FrameWriter,
    /// The most bytes of frames that are written together, where a frame alone doesn't have more.
    pub(crate) most: usize,
    /// Those of the packets whose frames were written.
    pub(crate) flushed: u64,
    /// A write failed.
    pub(crate) broken: bool,
    pub(crate) replies_ended: bool,
    pub(crate) data_ended: bool,
}

impl Line {
    /// Nothing was sent yet.
    pub(crate) fn new(frames: FrameWriter, most: usize) -> Line
        requires { frames ≡ record { sent = 0; held = [] } }
        ensures { (before : Option (List ℕ)) (failures : ℕ)
            → Progress result [] before before failures failures }
    {
        Line {
            frames,
            most,
            flushed: 0,
            broken: false,
            replies_ended: false,
            data_ended: false,
        }
    }

    /// Writes what is held. After a failed write it writes no more.
    pub(crate) fn flush<W: Write>(&mut self, writer: &mut Watched<W>)
        ensures goes_on { (before : Option (List ℕ)) (failures : ℕ) (taken : List Message)
            → Progress self.old taken
            before (W.contents writer.old.inner) failures writer.old.failures
            → Progress self.new taken
            before (W.contents writer.new.inner) failures writer.new.failures }
        ensures empty { self.new.broken ≡ false → self.new.frames.held ≡ [] }
        ensures written { (before : Option (List ℕ)) (failures : ℕ) (taken : List Message)
            → Progress self.old taken
            before (W.contents writer.old.inner) failures writer.old.failures
            → NoneInHand self.new taken }
    {
        if self.broken {
            return;
        }
        match self.frames.flush(writer) {
            Ok(()) => self.flushed = self.frames.sent(),
            Err(_) => self.broken = true,
        }
    }

    /// Writes what is held where it leaves no room for the packet's frame.
    fn make_room<W: Write>(&mut self, packet: &[u8], writer: &mut Watched<W>)
        requires { length packet.now ≤ 255 }
        ensures goes_on { (before : Option (List ℕ)) (failures : ℕ) (taken : List Message)
            → Progress self.old taken
            before (W.contents writer.old.inner) failures writer.old.failures
            → Progress self.new taken
            before (W.contents writer.new.inner) failures writer.new.failures }
        ensures room { self.new.broken ≡ false → FindsRoom self.new.frames packet.now }
    {
        if !self.frames.has_room_within(packet, self.most) {
            self.flush(writer);
        }
    }

    /// Makes the frame of a packet that was taken, whose number is that of the packets before, of both
    /// ends. After a failed write it makes no frame.
    fn add_packet<W: Write>(&mut self, packet: &[u8], writer: &mut Watched<W>)
        requires { length packet.now ≤ 255 }
        ensures { (before : Option (List ℕ)) (failures : ℕ) (taken : List Message) (from : Bool)
            (done : List (List ℕ))
            → Progress self.old (taken ++ message from (Some done) ∷ [])
            before (W.contents writer.old.inner) failures writer.old.failures
            → Progress self.new (taken ++ message from (Some (done ++ packet.now ∷ [])) ∷ [])
            before (W.contents writer.new.inner) failures writer.new.failures }
    {
        self.make_room(packet, writer);
        if self.broken {
            return;
        }
        self.frames.push(packet);
    }

    /// Makes the frames of the packets of a batch that was taken, in order.
    fn add_batch<W: Write>(&mut self, batch: &Batch, writer: &mut Watched<W>)
        ensures { (before : Option (List ℕ)) (failures : ℕ) (taken : List Message) (from : Bool)
            → Progress self.old taken
            before (W.contents writer.old.inner) failures writer.old.failures
            → Progress self.new (taken ++ message from (Some batch.now) ∷ [])
            before (W.contents writer.new.inner) failures writer.new.failures }
    {
        let mut packets = batch.packets();
        'packets: loop {
            let Some(packet) = packets.next() else {
                return;
            };
            self.add_packet(packet, writer);
        }
    }

    /// Makes the frames of the packets that were taken with a message, or notes an end mark.
    pub(crate) fn add<W: Write>(&mut self, message: Message, writer: &mut Watched<W>)
        ensures { (before : Option (List ℕ)) (failures : ℕ) (taken : List Message)
            → Progress self.old taken
            before (W.contents writer.old.inner) failures writer.old.failures
            → Progress self.new (taken ++ message ∷ [])
            before (W.contents writer.new.inner) failures writer.new.failures }
    {
        let Some(batch) = message.batch else {
            if message.from_data {
                self.data_ended = true;
                return;
            }
            self.replies_ended = true;
            return;
        };
        self.add_batch(&batch, writer);
    }

    /// What the sender tells at its end, where it holds no frame.
    pub(crate) fn counted(&self) -> Result<u64, SendError>
        requires { self.now.broken ≡ false → self.now.frames.held ≡ [] }
        ensures { (before after : Option (List ℕ)) (old new : ℕ) (taken : List Message)
            → Progress self.now taken before after old new
            → SendsMessages result taken before after old new }
    {
        if self.broken {
            return Err(SendError::Write(self.flushed));
        }
        if !self.replies_ended {
            return Err(SendError::Cut(self.frames.sent()));
        }
        if !self.data_ended {
            return Err(SendError::Cut(self.frames.sent()));
        }
        Ok(self.frames.sent())
    }
}
