//! What waits to be written.
ghost use Rattle.std.specs.Prelude.{◌≡◌, ◌<◌, ◌++◌, [], ◌∷◌, IfSome, MatchBool, MatchOption, true};
ghost use Rattle.relay.specs.Ends.{IsAllTaken};

use crate::piece::Piece;
use crate::room::{Progress, WaitingRoom};
use relay::{Giver, Relay, Taker};
use std::sync::{Condvar, CondvarTimeouts, Mutex, Wait};
use std::time::{Clock, Duration};

/// The pieces that wait to be written, and how much they are.
#[derive(Drop)]
pub struct Backlog {
    relay: Relay<Piece>,
    room: Mutex<WaitingRoom>,
    changed: Condvar,
}

impl Backlog {
    /// Nothing waits yet in this relay.
    pub(crate) fn new(relay: Relay<Piece>) -> Backlog
        ensures { result.relay ≡ relay }
    {
        Backlog {
            relay,
            room: Mutex::new(WaitingRoom::new()),
            changed: Condvar::new(),
        }
    }

    /// Whether a piece of so many bytes is taken in.
    pub(crate) fn take_in(&self, rt: &impl Wait, size: usize) -> bool {
        self.room.lock(rt).take_in(size)
    }

    /// A piece was taken in that never comes: nothing more is taken in.
    pub(crate) fn give_up(&self, rt: &impl Wait) {
        self.room.lock(rt).give_up();
    }

    /// Hands a piece on that was taken in. Where there is no memory for it, nothing more is taken in.
    pub(crate) fn give(&self, rt: &impl Wait, giver: &mut Giver<Piece>, piece: Piece) -> bool
        requires relay { giver.old.relay ≡ self.now.relay }
        ensures { MatchBool result
            (giver.new ≡ record giver.old { given = giver.old.given ++ piece ∷ [] })
            (giver.new ≡ giver.old) }
    {
        match self.relay.give(rt, giver, piece) {
            Ok(()) => true,
            Err(_back) => {
                self.give_up(rt);
                false
            }
        }
    }

    /// Waits for the next piece, and takes it. `None` where the backlog is closed, and nothing lay there at one moment since.
    pub(crate) fn take(&self, rt: &impl Wait, taker: &mut Taker<Piece>) -> Option<(u16, Piece)>
        requires relay { taker.old.relay ≡ self.now.relay }
        ensures taken { MatchOption result
            (taker.new ≡ taker.old)
            (λ x. taker.new ≡ record taker.old { taken = taker.old.taken ++ x ∷ [] }) }
        ensures tag { IfSome result (λ x. x.0 < taker.old.givers) }
    {
        self.relay.wait_and_take(rt, taker)
    }

    /// Whether more pieces than so many were taken in that aren't told to be written, and none was refused: they lie here, or are about to.
    pub(crate) fn has_more(&self, rt: &impl Wait, pieces: usize) -> bool {
        self.room.lock(rt).has_more(pieces)
    }

    /// So many pieces, of so many bytes, are written and flushed.
    pub(crate) fn note_written(&self, rt: &impl Wait, pieces: usize, bytes: usize) {
        self.room.lock(rt).note_written(pieces, bytes);
        self.changed.notify_all();
    }

    /// No more pieces come. The last so many are written, and flushed if this could be done.
    pub(crate) fn note_end(&self, rt: &impl Wait, is_flushed: bool, pieces: usize, bytes: usize) {
        if is_flushed {
            self.note_written(rt, pieces, bytes);
        } else {
            self.stop(rt);
        }
    }

    /// A write or a flush failed: nothing more is written, or taken in.
    pub(crate) fn stop(&self, rt: &impl Wait) {
        self.room.lock(rt).stop();
        self.changed.notify_all();
    }

    /// Whether nothing lay here at one moment of the call. Then all that the giver handed in was taken.
    pub(crate) fn meets(&self, giver: &mut Giver<Piece>, taker: &mut Taker<Piece>) -> bool
        requires relay { (giver.old.relay ≡ self.now.relay) × (taker.old.relay ≡ self.now.relay) }
        ensures meets { result ≡ true → IsAllTaken giver.new taker.new }
        ensures same { (giver.new ≡ giver.old) × (taker.new ≡ taker.old) }
    {
        self.relay.meets(giver, taker)
    }

    /// No more pieces come: whoever writes them ends once all are written.
    pub fn close(&self, rt: &impl Wait) {
        self.relay.close(rt);
    }

    /// How many pieces were written by now.
    pub fn written(&self, rt: &impl Wait) -> u64 {
        self.room.lock(rt).written()
    }

    /// Waits until all that was taken in is written, or nothing more will be, but no longer than this: how far the writing is then.
    pub fn wait<R: Wait + Clock>(&self, rt: &R, most: Duration) -> Progress {
        let room = self.room.lock(rt);
        let (room, _) = self.changed.wait_timeout_while(rt, room, most, |room| {
            room.progress() == Progress::Pending
        });
        room.progress()
    }
}
