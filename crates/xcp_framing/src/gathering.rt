//! Packets that are gathered in a batch, so that one put takes many of them.
ghost use Rattle.std.specs.Prelude.{◌≡◌, ◌≢◌, ◌≤◌, [], ◌++◌, OnErr, OnOk, IfErr, IfOk, length};
ghost use Rattle.xcp_packet.specs.PacketTrains.{block_packets};
ghost use Rattle.xcp_slave.specs.AnswerInBytes.{answer_in};
ghost use Rattle.xcp_framing.specs.Serve.{most_train, packets_in_answer};
ghost use Rattle.xcp_framing.specs.private.PutOutput.{IsLeftUnput, MovesSoFar};

use crate::{Batch, End, ServeError};
use std::alloc::{AllocError, Global};
use std::mem;
use xcp_packet::{Packet, Width};
use xcp_slave::{Cut, Told};

/// Puts the packets of a batch, if it has some, and unless `more` says that others follow at once, all
/// that was put goes out. The batch has none then, also where they are handed back, which is `Write`, and
/// room for those of the next answers. Where there is no memory for this room they aren't put, which is
/// `NoRoom`.
pub(crate) fn hand_on<E: End>(batch: &mut Batch, end: &mut E, more: bool) -> Result<(), ServeError>
    ensures ok { OnOk result (E.put_so_far end.new ≡ E.put_so_far end.old ++ batch.old) }
    ensures back { OnErr result ((E.put_so_far end.new ≡ E.put_so_far end.old) × (batch.old ≢ [])) }
    ensures held { batch.new ≡ [] }
    ensures err { IfErr result IsLeftUnput }
    ensures same { E.same end.old end.new }
{
    if batch.is_empty() {
        end.flush();
        return Ok(());
    }
    let full = mem::replace(batch, Batch::new(end.alloc()));
    take_room(batch)?;
    put_batch(full, end, more)
}

/// Takes the memory of a batch. `NoRoom` comes only where there is none.
fn take_room(batch: &mut Batch) -> Result<(), ServeError>
    ensures same { batch.new ≡ batch.old }
    ensures err { IfErr result (λ e. e ≡ ServeError.NoRoom) }
{
    if batch.take_room().is_err() {
        return Err(ServeError::NoRoom);
    }
    Ok(())
}

/// Puts a batch. `Write` comes only where it is handed back.
fn put_batch<E: End>(batch: Batch, end: &mut E, more: bool) -> Result<(), ServeError>
    ensures ok { OnOk result (E.put_so_far end.new ≡ E.put_so_far end.old ++ batch) }
    ensures back { OnErr result (E.put_so_far end.new ≡ E.put_so_far end.old) }
    ensures err { IfErr result (λ e. e ≡ ServeError.Write) }
    ensures same { E.same end.old end.new }
{
    if end.put(batch, more).is_err() {
        return Err(ServeError::Write);
    }
    Ok(())
}

/// Hands a batch on that has no room for the packets of one more answer, and takes room where the
/// batch never had some. Where there is no memory for it, the next packet finds that.
pub(crate) fn make_room<E: End>(batch: &mut Batch, end: &mut E) -> Result<(), ServeError>
    ensures moves { MovesSoFar result (E.put_so_far end.old) batch.old
        (E.put_so_far end.new) batch.new [] }
    ensures err { IfErr result IsLeftUnput }
    ensures same { E.same end.old end.new }
{
    if batch.has_room() {
        return Ok(());
    }
    hand_on(batch, end, true)?;
    let _ = batch.take_room();
    Ok(())
}

/// Puts the packets of an answer into a batch, and answers how many they are. Where there is no
/// memory for one, which is `NoRoom`, all that the batch has is given up.
pub(crate) fn gather_told(
    batch: &mut Batch,
    alloc: Global,
    told: Told,
    packet: &Packet,
) -> Result<u64, ServeError>
    ensures ok { IfOk result (λ n.
        (batch.new ≡ batch.old ++ packets_in_answer (answer_in told packet.now))
        × (n ≡ length (packets_in_answer (answer_in told packet.now)))) }
    ensures most { IfOk result (λ n. n ≤ most_train) }
    ensures back { OnErr result ((batch.new ≡ [])
        × (packets_in_answer (answer_in told packet.now) ≢ [])) }
    ensures err { IfErr result (λ e. e ≡ ServeError.NoRoom) }
{
    match push_told(batch, told, packet) {
        Ok(count) => Ok(count),
        Err(AllocError) => {
            *batch = Batch::new(alloc);
            Err(ServeError::NoRoom)
        }
    }
}

/// Puts the packets of an answer into a batch.
fn push_told(batch: &mut Batch, told: Told, packet: &Packet) -> Result<u64, AllocError>
    ensures ok { IfOk result (λ n.
        (batch.new ≡ batch.old ++ packets_in_answer (answer_in told packet.now))
        × (n ≡ length (packets_in_answer (answer_in told packet.now)))) }
    ensures most { IfOk result (λ n. n ≤ most_train) }
    ensures some { OnErr result (packets_in_answer (answer_in told packet.now) ≢ []) }
{
    match &told {
        Told::Packets(Cut::Whole) => {
            batch.push(packet)?;
            Ok(1)
        }
        Told::Packets(Cut::Block(width)) => push_block(batch, packet, *width),
        _ => Ok(0),
    }
}

/// Puts the packets of a block into a batch.
fn push_block(batch: &mut Batch, bytes: &[u8], width: Width) -> Result<u64, AllocError>
    requires { length bytes.now ≤ 255 }
    ensures ok { IfOk result (λ n. (batch.new ≡ batch.old ++ block_packets width bytes.now)
        × (n ≡ length (block_packets width bytes.now))) }
    ensures most { IfOk result (λ n. n ≤ most_train) }
    ensures some { OnErr result (block_packets width bytes.now ≢ []) }
{
    let _least = width.size();
    let mut count = 0;
    let mut left = bytes;
    let mut piece = Packet::new();
    'pieces: loop {
        match width.cut(left, &mut piece) {
            None => {
                batch.push(&piece)?;
                return Ok(count + 1);
            }
            Some(rest) => {
                batch.push(&piece)?;
                count += 1;
                left = rest;
            }
        }
    }
}
