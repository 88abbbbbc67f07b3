//! The end that writes.
ghost use Rattle.std.specs.Prelude.{◌≡◌, [], true, false};
ghost use Rattle.std.specs.Arc.{arc_value};
ghost use Rattle.std.specs.Io.KnownBytes.{Appends};
ghost use Rattle.xcp_framing.specs.Prefix.{AppendsFront};
ghost use Rattle.xcp_behind.specs.Writing.{HoldsPieces};

use crate::backlog::Backlog;
use crate::piece::Piece;
use relay::{Giver, Taker};
use std::io::Write;
use std::marker::Model;
use std::snapshot::Snapshot;
use std::sync::{Arc, Wait};
use xcp_framing::Watched;

/// The most pieces that are flushed together: fewer than wait, so that some find room meanwhile.
const MOST_TOGETHER: usize = 256;

/// Writes pieces to a stream, in the order in which they were taken in. What it took stands in the stream, each piece once and whole; where
/// a write or a flush failed, all pieces but the last that it took do, and of that one the first bytes.
#[derive(Drop)]
pub struct WriteEnd<W: Write> {
    backlog: Arc<Backlog>,
    taker: Taker<Piece>,
    stream: W,
    start: Snapshot<W>,
    failed: bool,
}

impl<W: Write> Model for WriteEnd<W> {
    ghost use Rattle.std.specs.Prelude.{◌≡◌};
    ghost use Rattle.std.specs.Arc.{arc_value};
    ghost use Rattle.relay.specs.Ends.{items_of};
    ghost use Rattle.xcp_behind.specs.Writing.{HoldsPieces, WriteEndValue};

    ghost Value = { WriteEndValue };

    ghost view = { λ e. record { relay = e.taker.relay; taken = items_of 0 e.taker.taken; failed = e.failed; before = W.contents e.start.value; after = W.contents e.stream } };

    ghost invariant = { λ e. (e.taker.relay ≡ (arc_value e.backlog).relay) × (e.taker.givers ≡ 1) × HoldsPieces e.failed (W.contents e.start.value) (W.contents e.stream) (items_of 0 e.taker.taken) };
}

impl<W: Write> WriteEnd<W> {
    /// An end that has taken nothing yet, and writes to this stream.
    pub(crate) fn new(backlog: Arc<Backlog>, taker: Taker<Piece>, stream: W) -> WriteEnd<W>
        requires taker { (taker.relay ≡ (arc_value backlog).relay) × (taker.givers ≡ 1) × (taker.taken ≡ []) }
        ensures { result ≡ record { relay = taker.relay; taken = []; failed = false; before = W.contents stream; after = W.contents stream } }
    {
        let start = Snapshot::of(&stream);
        WriteEnd {
            backlog,
            taker,
            stream,
            start,
            failed: false,
        }
    }

    /// Writes what is taken in, piece by piece, and waits for it, until no more comes or a write or a flush fails. After that nothing more
    /// is written. Where more pieces lie there, they are flushed together, [`MOST_TOGETHER`] at most: what waits behind a slow flush costs
    /// one more.
    pub fn write_all(self, rt: &impl Wait) -> WriteEnd<W>
        ensures stands { HoldsPieces result.failed result.before result.after result.taken }
        ensures same { (result.relay ≡ self.relay) × (result.before ≡ self.before) }
    {
        if self.failed {
            return self;
        }
        let WriteEnd {
            backlog,
            mut taker,
            mut stream,
            start,
            failed,
        } = self;
        let (mut pieces, mut bytes) = (0, 0);
        for _turn in rt.forever() {
            let Some((_tag, piece)) = backlog.take(rt, &mut taker) else {
                let is_flushed = pieces == 0 || stream.flush().is_ok();
                backlog.note_end(rt, is_flushed, pieces, bytes);
                return WriteEnd {
                    backlog,
                    taker,
                    stream,
                    start,
                    failed,
                };
            };
            pieces = pieces.saturating_add(1);
            bytes = bytes.saturating_add(piece.len());
            let is_last = pieces >= MOST_TOGETHER || !backlog.has_more(rt, pieces);
            let (written, is_written) = write_whole(stream, &piece, is_last);
            stream = written;
            if !is_written {
                backlog.stop(rt);
                return WriteEnd {
                    backlog,
                    taker,
                    stream,
                    start,
                    failed: true,
                };
            }
            if is_last {
                backlog.note_written(rt, pieces, bytes);
                (pieces, bytes) = (0, 0);
            }
        }
        unreachable!()
    }

    /// Whether a write or a flush failed.
    pub fn has_failed(&self) -> bool
        ensures { result ≡ self.now.failed }
    {
        self.failed
    }

    /// Whether nothing lay in the backlog at one moment of the call. Then all that the giver handed in was taken.
    pub(crate) fn meets(&mut self, backlog: &Backlog, giver: &mut Giver<Piece>) -> bool
        requires relay { (giver.old.relay ≡ backlog.now.relay) × (giver.old.relay ≡ self.old.relay) }
        requires tag { giver.old.tag ≡ 0 }
        ensures taken { result ≡ true → self.new.taken ≡ giver.new.given }
        ensures stands { HoldsPieces self.new.failed self.new.before self.new.after self.new.taken }
        ensures same { (giver.new ≡ giver.old) × (self.new ≡ self.old) }
    {
        backlog.meets(giver, &mut self.taker)
    }

    /// The stream.
    pub fn into_stream(self) -> W
        ensures { W.contents result ≡ self.after }
    {
        let WriteEnd { stream, .. } = self;
        stream
    }
}

/// Writes a piece, and flushes it where it is the last of those that are flushed together. The stream comes back, and whether all of this
/// could be done.
fn write_whole<W: Write>(stream: W, piece: &Piece, is_last: bool) -> (W, bool)
    ensures whole { result.1 ≡ true → Appends (W.contents stream) (W.contents result.0) piece.now }
    ensures front { result.1 ≡ false → AppendsFront (W.contents stream) (W.contents result.0) piece.now }
{
    let mut writer = Watched::new(stream);
    let is_written = writer.write_all(piece.bytes()).is_ok();
    let mut stream = writer.into_inner();
    if is_written && is_last {
        let is_flushed = stream.flush().is_ok();
        return (stream, is_flushed);
    }
    (stream, is_written)
}
