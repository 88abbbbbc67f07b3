//! A station behind a stream: commands in frames from a reader, answers in frames to a writer.
ghost use Rattle.std.specs.Prelude.{◌≡◌, ◌≢◌, ◌<◌, ◌≤◌, ◌+◌, ◌*◌, ◌^◌, [], ◌∷◌, ◌++◌, ◌⊎◌, ℕ, OnErr, OnOk, IfErr, false, length, true};
ghost use Rattle.arrayvec.specs.ArrayVec.{ArrayVec};
ghost use Rattle.xcp_packet.specs.PacketTrains.{block_packets};
ghost use Rattle.xcp_slave.specs.AnswerInBytes.{answer_in};
ghost use Rattle.xcp_framing.specs.CountedCalls.{EachRead, stream_place};
ghost use Rattle.xcp_framing.specs.FrameOutput.{Sends, output};
ghost use Rattle.xcp_framing.specs.Serve.{AnswersSoFar, EndsReader, IsStreamRead, ReadsWithin, Serves, most_drains, most_train, number_of, packets_in_answer};
ghost use Rattle.xcp_framing.specs.private.MostPackets.{most_packets};
ghost use Rattle.xcp_framing.specs.Wire.{wire_from};
ghost use Rattle.xcp_framing.specs.ServeRefusal.{AsksNext, DrainsNext, OnRefusal, ReadsNext, StationRefused};
ghost use Rattle.xcp_framing.specs.ServeParts.{IsInterruption};
ghost use Rattle.xcp_framing.specs.private.GrowingOutput.{OutputGrows, DrainsSoFar};

use crate::frame_writer::FrameWriter;
use crate::passage::{Answerer, answer_stream};
use crate::{Station, StationError, Watched, Whole};
use std::alloc::Global;
use std::io::{Read, Write};
use thiserror::Error;
use xcp_packet::{Packet, Width};
use xcp_slave::{Asked, Cut, Told};

/// The most Drains behind a command.
const DRAINS: u8 = 64;

/// The most bytes that one read takes.
const READ_SIZE: usize = 512;

/// What a stream brought.
#[derive(Clone, Copy, Debug, PartialEq, Eq)]
pub struct Served {
    /// How many packets came, each of them submitted as a command. Frames of LEN 0 don't count.
    pub frames: u64,
    /// How many packets were sent.
    pub sent: u64,
}

/// Why a stream ended before its reader did.
#[derive(Clone, Copy, Debug, Error, PartialEq, Eq, Drop)]
pub enum ServeError {
    /// A read failed.
    #[error("a read failed")]
    Read,
    /// A write failed, or took no byte.
    #[error("a write failed")]
    Write,
    /// A LEN above MAX_CTO.
    #[error("a frame's LEN is {0}, above MAX_CTO")]
    BadLength(u16),
    /// The reader ended inside a frame.
    #[error("the stream ended inside a frame")]
    Truncated,
    /// There was no memory for the read buffer, or for the station.
    #[error("no memory is left")]
    Memory,
    /// All reads that were allowed have been made.
    #[error("all reads that were allowed have been made")]
    TurnsSpent,
    /// The station takes no more exchanges.
    #[error("the journal is full")]
    JournalFull,
    /// There was no memory for the packets of answers: they aren't put.
    #[error("no memory is left for packets")]
    NoRoom,
}

impl ServeError {
    /// The error's number: 1 Read, 2 Write, 3 BadLength, 4 Truncated, 5 Memory and NoRoom, which are
    /// both want of memory, 6 TurnsSpent, 7 JournalFull.
    pub fn number(&self) -> u8
        ensures { result ≡ number_of self.now }
    {
        match self {
            ServeError::Read => 1,
            ServeError::Write => 2,
            ServeError::BadLength(_) => 3,
            ServeError::Truncated => 4,
            ServeError::Memory | ServeError::NoRoom => 5,
            ServeError::TurnsSpent => 6,
            ServeError::JournalFull => 7,
        }
    }
}

impl From<StationError> for ServeError {
    ghost use Rattle.xcp_framing.specs.Serve.{refused_with};

    ghost from_gives = { λ e r. r ≡ refused_with e };

    fn from(error: StationError) -> ServeError {
        match error {
            StationError::Memory => ServeError::Memory,
            StationError::JournalFull => ServeError::JournalFull,
        }
    }
}

/// Whether an answer has packets.
fn has_packets(told: &Told) -> bool
    ensures some { (packet : ArrayVec ℕ) → result ≡ true → packets_in_answer (answer_in told.now packet) ≢ [] }
    ensures none { (packet : ArrayVec ℕ) → result ≡ false → packets_in_answer (answer_in told.now packet) ≡ [] }
{
    match told {
        Told::Packets(_) => true,
        _ => false,
    }
}

/// Sends the packets of an answer, each in a frame of its own.
#[inline(always)]
fn send_told<W: Write>(
    told: &Told,
    packet: &Packet,
    writer: &mut Watched<W>,
    sender: &mut FrameWriter,
) -> Result<(), ServeError>
    requires { sender.old.sent + most_train < 2 ^ 64 }
    ensures sends { Sends result
        (output (W.contents writer.old.inner) sender.old)
        (output (W.contents writer.new.inner) sender.new)
        (wire_from sender.old.sent (packets_in_answer (answer_in told.now packet.now))) }
    ensures counts { OnOk result (sender.new.sent
        ≡ sender.old.sent + length (packets_in_answer (answer_in told.now packet.now))) }
    ensures most { OnOk result (sender.new.sent ≤ sender.old.sent + most_train) }
    ensures fine { OnOk result (writer.new.failures ≡ writer.old.failures) }
    ensures dropped { OnErr result (sender.new.held ≡ []) }
    ensures err { IfErr result (λ e.
        (e ≡ ServeError.Write) × (writer.old.failures < writer.new.failures)) }
{
    match told {
        Told::Packets(Cut::Whole) => sender.send(writer, packet),
        Told::Packets(Cut::Block(width)) => send_block(packet.as_slice(), *width, writer, sender),
        _ => Ok(()),
    }
}

/// Sends the packets of a block.
fn send_block<W: Write>(
    bytes: &[u8],
    width: Width,
    writer: &mut Watched<W>,
    sender: &mut FrameWriter,
) -> Result<(), ServeError>
    requires room { sender.old.sent + most_train < 2 ^ 64 }
    requires short { length bytes.now ≤ 255 }
    ensures sends { Sends result
        (output (W.contents writer.old.inner) sender.old)
        (output (W.contents writer.new.inner) sender.new)
        (wire_from sender.old.sent (block_packets width bytes.now)) }
    ensures counts { OnOk result (sender.new.sent
        ≡ sender.old.sent + length (block_packets width bytes.now)) }
    ensures most { OnOk result (sender.new.sent ≤ sender.old.sent + most_train) }
    ensures fine { OnOk result (writer.new.failures ≡ writer.old.failures) }
    ensures dropped { OnErr result (sender.new.held ≡ []) }
    ensures err { IfErr result (λ e.
        (e ≡ ServeError.Write) × (writer.old.failures < writer.new.failures)) }
{
    let _least = width.size();
    let mut piece = Packet::new();
    let mut left = bytes;
    'pieces: loop {
        match width.cut(left, &mut piece) {
            None => return sender.send(writer, &piece),
            Some(rest) => {
                sender.send(writer, &piece)?;
                left = rest;
            }
        }
    }
}

/// Drains the station until an answer has no packet, at most 64 times, and sends the packets.
fn drain<W: Write, S: Station>(
    station: &mut S,
    writer: &mut Watched<W>,
    sender: &mut FrameWriter,
    packet: &mut Packet,
) -> Result<(), ServeError>
    requires { sender.old.sent + most_train * most_drains < 2 ^ 64 }
    ensures drains { OutputGrows result (DrainsSoFar result)
        (S.exchanges station.old) (S.exchanges station.new)
        (output (W.contents writer.old.inner) sender.old)
        (output (W.contents writer.new.inner) sender.new)
        sender.old.sent sender.new.sent }
    ensures bound { OnOk result (sender.new.sent ≤ sender.old.sent + most_train * most_drains) }
    ensures unfailed { result ≢ Err ServeError.Write → writer.new.failures ≡ writer.old.failures }
    ensures stops { IfErr result IsInterruption }
    ensures write { result ≡ Err ServeError.Write → writer.old.failures < writer.new.failures }
    ensures dropped { result ≡ Err ServeError.Write → sender.new.held ≡ [] }
    ensures no_room { result ≢ Err ServeError.NoRoom }
    ensures refused { OnRefusal result (λ e. StationRefused S.exchanges S.refuses e DrainsNext
        (S.exchanges station.old) station.new) }
{
    for _drain in 0..DRAINS {
        let told = station.submit_into(Asked::Drain, packet)?;
        if !has_packets(&told) {
            return Ok(());
        }
        send_told(&told, packet, writer, sender)?;
    }
    Ok(())
}

/// Submits the command that is lent, sends the packets of the answer, and drains the station.
fn exchange<W: Write, S: Station>(
    command: &Packet,
    station: &mut S,
    writer: &mut Watched<W>,
    sender: &mut FrameWriter,
    packet: &mut Packet,
) -> Result<(), ServeError>
    requires { sender.old.sent + most_packets < 2 ^ 64 }
    ensures answers { OutputGrows result (AnswersSoFar result (command.now.items ∷ []))
        (S.exchanges station.old) (S.exchanges station.new)
        (output (W.contents writer.old.inner) sender.old)
        (output (W.contents writer.new.inner) sender.new)
        sender.old.sent sender.new.sent }
    ensures bound { OnOk result (sender.new.sent ≤ sender.old.sent + most_packets) }
    ensures unfailed { result ≢ Err ServeError.Write → writer.new.failures ≡ writer.old.failures }
    ensures stops { IfErr result IsInterruption }
    ensures write { result ≡ Err ServeError.Write → writer.old.failures < writer.new.failures }
    ensures dropped { result ≡ Err ServeError.Write → sender.new.held ≡ [] }
    ensures no_room { result ≢ Err ServeError.NoRoom }
    ensures refused { OnRefusal result (λ e.
        StationRefused S.exchanges S.refuses e (AsksNext (command.now.items ∷ []))
        (S.exchanges station.old) station.new) }
{
    let told = station.submit_into(Asked::Command(command.as_slice()), packet)?;
    send_told(&told, packet, writer, sender)?;
    drain(station, writer, sender, packet)
}

/// What is kept from packet to packet where the answers go into frames: the frames, and a packet to lend.
#[derive(Drop)]
struct Sending {
    frames: FrameWriter,
    packet: Packet,
}

/// A packet is answered by its command and the Drains behind it, in frames that are gathered.
struct InFrames;

impl<S: Station, W: Write> Answerer<S, Sending, Watched<W>> for InFrames {
    ghost use Rattle.xcp_framing.specs.private.FramesAnswered.{AnswersInFrames, HandsFramesOn};

    ghost sent_of = { λ k. k.frames.sent };

    ghost rests = { λ k. k.frames.held ≡ [] };

    ghost answers = { AnswersInFrames S.exchanges S.refuses (λ k. k.frames) (λ o. W.contents o.inner) (λ o. o.failures) };

    ghost hands = { HandsFramesOn (λ k. k.frames) (λ o. W.contents o.inner) (λ o. o.failures) };

    fn answer(
        command: &Packet,
        station: &mut S,
        state: &mut Sending,
        writer: &mut Watched<W>,
    ) -> Result<(), ServeError> {
        exchange(
            command,
            station,
            writer,
            &mut state.frames,
            &mut state.packet,
        )
    }

    fn hand_on(state: &mut Sending, writer: &mut Watched<W>) -> Result<(), ServeError> {
        state.frames.flush(writer)
    }

    fn sent(state: &Sending) -> u64 {
        state.frames.sent()
    }
}

/// Answers a stream of frames (XCP on Ethernet, TCP), packet by packet, until the reader ends.
///
/// Each turn is one read of up to 512 bytes, of at most `turns` turns. Each packet that is whole is
/// submitted as a command, and behind it `Drain` until an answer has no packet, at most 64 times.
/// Each packet of an answer is sent in a frame of its own; CTR counts them from 0. The frames are
/// gathered, and written before the next read, before any return, and where the next one finds no
/// room. A frame of LEN 0 is skipped, and the CTR of what is read is not looked at.
///
/// Packets have at most `max_cto` bytes, a frame's LEN above it is `BadLength`. All whole frames
/// before a fault of the stream have been answered, and nothing is written of the fault.
///
/// A refusal of the station ends the call with `Memory` or `JournalFull`.
pub fn serve<R: Read, W: Write, S: Station>(
    alloc: Global,
    reader: &mut Watched<R>,
    writer: &mut Watched<W>,
    station: &mut S,
    max_cto: u8,
    turns: u32,
) -> Result<Served, ServeError>
    // The packets of the stream, their exchanges, the text, and how it ended.
    ensures serves { Serves max_cto result
        (stream_place R.remaining reader.old) (stream_place R.remaining reader.new)
        (S.exchanges station.old) (S.exchanges station.new)
        (W.contents writer.old.inner) (W.contents writer.new.inner) }
    // Ok and Truncated come at the reader's end.
    ensures ends { EndsReader result (R.remaining reader.new.inner) }
    // When the others come. A stream fails only where the call ends with it.
    ensures reads { ReadsWithin turns result reader.old reader.new }
    // Of how many bytes each read was.
    ensures sizes { EachRead IsStreamRead reader.old reader.new }
    ensures write { result ≡ Err ServeError.Write → writer.old.failures < writer.new.failures }
    ensures write_unfailed { result ≢ Err ServeError.Write
        → writer.new.failures ≡ writer.old.failures }
    // Frames are written, and no packet is put.
    ensures no_room { result ≢ Err ServeError.NoRoom }
    // Memory and JournalFull come where the station refused the request that comes next. Memory
    // also comes where there was no buffer, before anything was done.
    ensures refused { OnRefusal result (λ e.
        ((e ≡ StationError.Memory) × (reader.new ≡ reader.old) × (writer.new ≡ writer.old)
        × (station.new ≡ station.old))
        ⊎ StationRefused S.exchanges S.refuses e
        (ReadsNext max_cto (stream_place R.remaining reader.old) (stream_place R.remaining reader.new))
        (S.exchanges station.old) station.new) }
{
    let Ok(mut buffer) = vec![in alloc; 0; READ_SIZE] else {
        return Err(ServeError::Memory);
    };
    let Ok(frames) = FrameWriter::new(alloc) else {
        return Err(ServeError::Memory);
    };
    let mut state = Sending {
        frames,
        packet: Packet::new(),
    };
    answer_stream::<InFrames, S, Sending, Watched<W>, R, Whole>(
        reader,
        &Whole,
        &mut buffer,
        station,
        &mut state,
        writer,
        max_cto,
        turns,
    )
}
