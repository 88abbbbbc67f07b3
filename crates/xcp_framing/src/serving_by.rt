//! A station behind a stream, whose answers' packets are put at an end that has them sent.
ghost use Rattle.std.specs.Prelude.{◌≡◌, ◌≢◌, ◌<◌, ◌≤◌, ◌+◌, ◌⊎◌, Err};
ghost use Rattle.xcp_framing.specs.CountedCalls.{EachRead, stream_place};
ghost use Rattle.xcp_framing.specs.Serve.{EndsReader, ReadsWithin};
ghost use Rattle.xcp_framing.specs.ServeRefusal.{OnRefusal, StationRefused};
ghost use Rattle.xcp_framing.specs.ServeBy.{CommandNext, IsHearingRead, ServesBy};

use crate::gathering::{gather_told, hand_on, make_room};
use crate::passage::{Answerer, answer_stream};
use crate::{Batch, End, Passages, ServeError, Served, Station, StationError, Watched};
use std::alloc::Global;
use std::io::Read;
use xcp_packet::Packet;
use xcp_slave::Asked;

/// The most bytes that one read takes.
const READ_SIZE: usize = 4096;

/// How many packets the answers had, and those of them that aren't put yet.
#[derive(Drop)]
struct Putting {
    sent: u64,
    batch: Batch,
}

/// A packet is answered by its command alone, and the packets of the answer are put in a batch, with
/// those of the answers before and behind it.
struct ByCommand;

impl<S: Station, E: End> Answerer<S, Putting, E> for ByCommand {
    ghost use Rattle.std.specs.Prelude.{◌≡◌, []};
    ghost use Rattle.xcp_framing.specs.private.AnsweredByPut.{AnswersByPut, HandsBatchOn};

    ghost sent_of = { λ k. k.sent };

    ghost rests = { λ k. k.batch ≡ [] };

    ghost answers = { AnswersByPut S.exchanges S.refuses S.same E.put_so_far E.same (λ k. k.sent) (λ k. k.batch) };

    ghost hands = { HandsBatchOn E.put_so_far E.same (λ k. k.sent) (λ k. k.batch) };

    fn answer(
        command: &Packet,
        station: &mut S,
        state: &mut Putting,
        end: &mut E,
    ) -> Result<(), ServeError> {
        make_room(&mut state.batch, end)?;
        let mut reply = Packet::new();
        let told = station.submit_into(Asked::Command(command.as_slice()), &mut reply)?;
        state.sent += gather_told(&mut state.batch, end.alloc(), told, &reply)?;
        Ok(())
    }

    fn hand_on(state: &mut Putting, end: &mut E) -> Result<(), ServeError> {
        hand_on(&mut state.batch, end, false)
    }

    fn sent(state: &Putting) -> u64 {
        state.sent
    }
}

/// Answers a stream of frames as `serve` does, but without `Drain`: the packets of the answers are
/// put at an end, which sends them. They are gathered in a batch, which is put before the
/// next read, before any return, and where it has no room for the packets of one more answer, as one
/// that others follow. Its memory is taken before anything is done, and that of the next one before a
/// batch is put. A read is of 4,096 bytes, and before each the reader is told whether it begins inside a frame.
///
/// `sent` counts the packets put. A batch that is handed back ends the call with `Write`. One that
/// wants memory for its packets, or for its successor, ends it with `NoRoom`. Its packets weren't put,
/// and none behind them.
pub fn serve_by<R: Read, P: Passages<R>, S: Station, E: End>(
    alloc: Global,
    reader: &mut Watched<R>,
    passages: &P,
    end: &mut E,
    station: &mut S,
    max_cto: u8,
    turns: u32,
) -> Result<Served, ServeError>
    // The packets of the stream, their exchanges, the packets put, and how it ended.
    ensures serves { ServesBy max_cto result
        (stream_place R.remaining reader.old) (stream_place R.remaining reader.new)
        (S.exchanges station.old) (S.exchanges station.new) (E.put_so_far end.old) (E.put_so_far end.new) }
    ensures kept { E.same end.old end.new }
    ensures stays { S.same station.old station.new }
    ensures ends { EndsReader result (R.remaining reader.new.inner) }
    ensures reads { ReadsWithin turns result reader.old reader.new }
    ensures sizes { EachRead IsHearingRead reader.old reader.new }
    ensures refused { OnRefusal result (λ e.
        ((e ≡ StationError.Memory) × (reader.new ≡ reader.old)
        × (station.new ≡ station.old) × (end.new ≡ end.old))
        ⊎ StationRefused S.exchanges S.refuses e
        (CommandNext max_cto (stream_place R.remaining reader.old) (stream_place R.remaining reader.new))
        (S.exchanges station.old) station.new) }
{
    let Ok(mut buffer) = vec![in alloc; 0; READ_SIZE] else {
        return Err(ServeError::Memory);
    };
    let mut batch = Batch::new(alloc);
    if batch.take_room().is_err() {
        return Err(ServeError::Memory);
    }
    let mut state = Putting { sent: 0, batch };
    answer_stream::<ByCommand, S, Putting, E, R, P>(
        reader,
        passages,
        &mut buffer,
        station,
        &mut state,
        end,
        max_cto,
        turns,
    )
}
