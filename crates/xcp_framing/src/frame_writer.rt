//! Frames that are gathered, so that one write takes many of them.
ghost use Rattle.std.specs.Prelude.{◌≡◌, ◌<◌, ◌≤◌, ◌+◌, ◌%◌, ◌^◌, ◌⊎◌, [], ◌∷◌, ◌++◌, OnOk, OnErr, IfOk, IfErr, false, length, true};
ghost use Rattle.xcp_framing.specs.FrameOutput.{FindsRoom, Sends, output};
ghost use Rattle.xcp_framing.specs.Serve.{WritesText};
ghost use Rattle.xcp_framing.specs.Wire.{frame_bytes, wire_from};

use crate::wire::{HEADER_SIZE, header};
use crate::{ServeError, Watched};
use std::alloc::{AllocError, Global};
use std::io::Write;
use std::marker::Model;
use xcp_packet::Packet;

/// The most bytes that are gathered before they are written.
const GATHERED_BYTES: usize = 4096;

/// Puts packets into frames, numbers them, and gathers the frames until they are written. What
/// can't be written is given up.
#[derive(Drop)]
pub struct FrameWriter {
    sent: u64,
    held: Vec<u8>,
}

impl Model for FrameWriter {
    ghost use Rattle.std.specs.Prelude.{◌≤◌, vec_capacity, vec_len};
    ghost use Rattle.xcp_framing.specs.FrameOutput.{FrameWriterValue};

    ghost Value = { FrameWriterValue };

    ghost view = { λ f. record { sent = f.sent; held = f.held.items } };

    // the buffer never grows
    ghost invariant = { λ f. (vec_len f.held ≤ 4096) × (4096 ≤ vec_capacity f.held) };
}

impl FrameWriter {
    /// A writer that has sent nothing. It takes all its memory at once.
    pub fn new(alloc: Global) -> Result<FrameWriter, AllocError>
        ensures { IfOk result (λ frames. frames ≡ record { sent = 0; held = [] }) }
    {
        Ok(FrameWriter {
            sent: 0,
            held: Vec::with_capacity(alloc, GATHERED_BYTES)?,
        })
    }

    /// How many bytes of frames are held.
    pub fn held(&self) -> usize
        ensures { result ≡ length self.now.held }
    {
        self.held.len()
    }

    /// How many packets were sent, modulo 2^64.
    pub fn sent(&self) -> u64
        ensures { result ≡ self.now.sent }
    {
        self.sent
    }

    /// Whether the packet's frame finds room beside those that are held. Where none is held, each does.
    pub fn has_room(&self, packet: &[u8]) -> bool
        requires { length packet.now ≤ 255 }
        ensures some { result ≡ true → FindsRoom self.now packet.now }
        ensures none { result ≡ false → ¬ FindsRoom self.now packet.now }
        ensures each { 4 + length packet.now ≤ 4096 }
    {
        self.has_room_within(packet, GATHERED_BYTES)
    }

    /// Whether the packet's frame finds room beside those that are held, and all of them have at most so many bytes.
    pub fn has_room_within(&self, packet: &[u8], most: usize) -> bool
        requires { length packet.now ≤ 255 }
        ensures some { result ≡ true → FindsRoom self.now packet.now
            × (length self.now.held + (4 + length packet.now) ≤ most) }
        ensures none { result ≡ false → (¬ FindsRoom self.now packet.now)
            ⊎ (most < length self.now.held + (4 + length packet.now)) }
        ensures each { 4 + length packet.now ≤ 4096 }
    {
        let bytes = self.held.len() + (HEADER_SIZE + packet.len());
        bytes <= GATHERED_BYTES && bytes <= most
    }

    /// Makes the packet's frame, and holds it behind the others. CTR is the number of packets sent
    /// before, modulo 65,536.
    #[inline(always)]
    pub fn push(&mut self, packet: &[u8])
        requires short { length packet.now ≤ 255 }
        requires room { FindsRoom self.old packet.now }
        ensures held { self.new.held ≡ self.old.held ++ frame_bytes self.old.sent packet.now }
        ensures counts { self.new.sent ≡ (self.old.sent + 1) % 2 ^ 64 }
    {
        let header = header(packet.len() as u16, (self.sent % 65_536) as u16);
        let _ = self.held.extend_from_slice(&header);
        let _ = self.held.extend_from_slice(packet);
        self.sent = self.sent.wrapping_add(1);
    }

    /// Sends one packet: its frame is held, behind a write of those before it where it finds no room.
    #[inline(always)]
    pub(crate) fn send<W: Write>(
        &mut self,
        writer: &mut Watched<W>,
        packet: &Packet,
    ) -> Result<(), ServeError>
        requires { self.old.sent + 1 < 2 ^ 64 }
        ensures sends { Sends result
            (output (W.contents writer.old.inner) self.old)
            (output (W.contents writer.new.inner) self.new)
            (wire_from self.old.sent (packet.now.items ∷ [])) }
        ensures counts { OnOk result (self.new.sent ≡ self.old.sent + 1) }
        ensures fine { OnOk result (writer.new.failures ≡ writer.old.failures) }
        ensures dropped { OnErr result (self.new.held ≡ []) }
        ensures err { IfErr result (λ e.
            (e ≡ ServeError.Write) × (writer.old.failures < writer.new.failures)) }
    {
        self.make_room(writer, packet)?;
        self.push(packet);
        Ok(())
    }

    /// Writes what is held where it leaves no room for the packet's frame.
    fn make_room<W: Write>(
        &mut self,
        writer: &mut Watched<W>,
        packet: &Packet,
    ) -> Result<(), ServeError>
        ensures sends { Sends result
            (output (W.contents writer.old.inner) self.old)
            (output (W.contents writer.new.inner) self.new) [] }
        ensures room { OnOk result (FindsRoom self.new packet.now.items) }
        ensures sent { self.new.sent ≡ self.old.sent }
        ensures fine { OnOk result (writer.new.failures ≡ writer.old.failures) }
        ensures dropped { OnErr result (self.new.held ≡ []) }
        ensures err { IfErr result (λ e.
            (e ≡ ServeError.Write) × (writer.old.failures < writer.new.failures)) }
    {
        if self.has_room(packet) {
            return Ok(());
        }
        self.flush(writer)
    }

    /// Writes what is held. Nothing is held then, also where the write failed.
    pub fn flush<W: Write>(&mut self, writer: &mut Watched<W>) -> Result<(), ServeError>
        ensures writes { WritesText result (W.contents writer.old.inner) (W.contents writer.new.inner)
            self.old.held }
        ensures held { self.new.held ≡ [] }
        ensures sent { self.new.sent ≡ self.old.sent }
        ensures fine { OnOk result (writer.new.failures ≡ writer.old.failures) }
        ensures err { IfErr result (λ e.
            (e ≡ ServeError.Write) × (writer.new.failures ≡ writer.old.failures + 1)) }
    {
        let written = writer.write_all(&self.held);
        self.held.clear();
        if written.is_err() {
            return Err(ServeError::Write);
        }
        Ok(())
    }
}
