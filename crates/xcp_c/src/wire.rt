//! The frames of the wire, for a C program that serves a stream of its own.
ghost use Rattle.std.specs.Prelude.{◌≡◌, ◌<◌, ◌⊎◌, IsTrue, None, false, length, take};
ghost use Rattle.xcp_framing.specs.FramerInput.{got_in, packets_given};
ghost use Rattle.xcp_framing.specs.Wire.{frame_bytes};
ghost use Rattle.xcp_c.specs.Wire.{Fed, OpensFramer, packets_fed};

use crate::framer_handle::FramerHandle;
use crate::opening::{MEMORY, OPEN};
use std::alloc::Global;
use std::mem;
use xcp_framing::{Brought, FRAME_SIZE, Framer, frame};
use xcp_packet::Packet;

/// A frame: LEN, CTR and a packet.
#[repr(C)]
#[derive(Drop)]
pub struct XcpFrame {
    pub length: u16,
    pub bytes: [u8; FRAME_SIZE],
}

/// How many bytes of a piece were used, and what came of them: nothing yet (0), a packet (1), or a LEN
/// above MAX_CTO (2).
#[repr(C)]
#[derive(Drop)]
pub struct XcpFed {
    pub used: usize,
    pub len: u16,
    pub got: u8,
    pub length: u8,
    pub bytes: [u8; 255],
}

/// The frame of a packet, with this CTR. False where the packet has more than 255 bytes: then nothing
/// is written.
#[unsafe(no_mangle)]
pub extern "C" fn xcp_frame(ctr: u16, bytes: &[u8], out: &mut XcpFrame) -> bool
    ensures frame { IsTrue result → take out.new.length out.new.bytes ≡ frame_bytes ctr bytes.now }
    ensures long { result ≡ false → (255 < length bytes.now) × (out.new ≡ out.old) }
{
    let mut packet = Packet::new();
    if packet.try_extend_from_slice(bytes).is_err() {
        return false;
    }
    let framed = frame(ctr, &packet);
    out.length = framed.len() as u16;
    out.bytes[..framed.len()].copy_from_slice(&framed);
    true
}

/// Opens a framer at the start of a stream whose packets have at most MAX_CTO bytes: 0, or 7 where no
/// memory is left, or 10 where the handle owns a framer already.
#[unsafe(no_mangle)]
pub extern "C" fn xcp_framer_open(alloc: Global, max_cto: u8, framer: &mut FramerHandle) -> u8
    ensures { OpensFramer max_cto result framer.old.value framer.new.value }
{
    if framer.is_open() {
        return OPEN;
    }
    match Box::new(alloc, Framer::new(max_cto)) {
        Ok(opened) => {
            *framer = FramerHandle::of(opened);
            0
        }
        Err(_) => MEMORY,
    }
}

/// Takes a piece of the stream: a front of it is used, up to the end of the first frame that holds a
/// packet, or to a LEN above MAX_CTO, or all of it. From a LEN above MAX_CTO on nothing is used. False
/// where the handle owns no framer.
#[unsafe(no_mangle)]
pub extern "C" fn xcp_feed(
    alloc: Global,
    framer: &mut FramerHandle,
    piece: &[u8],
    fed: &mut XcpFed,
) -> bool
    ensures fed { IsTrue result → Fed piece.now framer.old.value fed.new framer.new.value }
    ensures closed { result ≡ false → (framer.old.value ≡ None) × (framer.new.value ≡ None)
        × (fed.new ≡ fed.old) }
{
    if !framer.is_open() {
        return false;
    }
    let mut opened = mem::replace(framer, FramerHandle::closed(alloc)).into_box();
    let mut packet = Packet::new();
    let cut = opened.feed_into(piece, &mut packet);
    *framer = FramerHandle::of(opened);
    fed.used = cut.used;
    fed.put_brought(cut.brought, &packet);
    true
}

/// Frees what a framer's handle owns.
#[unsafe(no_mangle)]
pub extern "C" fn xcp_framer_close(alloc: Global, framer: &mut FramerHandle)
    ensures { framer.new.value ≡ None }
{
    if framer.is_open() {
        drop(mem::replace(framer, FramerHandle::closed(alloc)).into_box());
    }
}

impl XcpFed {
    fn put_brought(&mut self, brought: Brought, packet: &Packet)
        ensures used { self.new.used ≡ self.old.used }
        ensures packets { packets_fed self.new ≡ packets_given (got_in brought packet.now) }
        ensures more { self.new.got ≡ 0 → brought ≡ Brought.More }
        ensures moves { self.new.got ≡ 1 → brought ≡ Brought.Packet }
        ensures bad { self.new.got ≡ 2 → brought ≡ Brought.BadLength self.new.len }
        ensures got { (self.new.got ≡ 0) ⊎ (self.new.got ≡ 1) ⊎ (self.new.got ≡ 2) }
    {
        self.length = 0;
        self.len = 0;
        match brought {
            Brought::More => self.got = 0,
            Brought::Packet => {
                self.got = 1;
                self.length = packet.len() as u8;
                self.bytes[..packet.len()].copy_from_slice(packet.as_slice());
            }
            Brought::BadLength(len) => {
                self.got = 2;
                self.len = len;
            }
        }
    }
}
