//! The steps of the writer, each on one word of the table.
ghost use Rattle.std.specs.Prelude.{◌≡◌, ◌≢◌, ℕ, ◌+◌, ◌-◌, ◌*◌, ◌%◌, ◌<◌, ◌≤◌, [], length, slice_index, slice_index_or, Some, None};
ghost use Rattle.xcp_bank.specs.SeatKnowledge.{Writing};
ghost use Rattle.xcp_bank.specs.private.WriterSteps.{Scanned, WasReset, Written, WrittenAgain, SeatPublished};
ghost use Rattle.xcp_bank.specs.private.SeatSteps.{IsWriterSeat, WriterMoves};

use super::rule::{Store, View};
use atomic_table::{Play, Seat};
use pin_core::{BUFFERS, head, parts};

struct ScanPlay;

impl Play<(), View> for ScanPlay {
    ghost use Rattle.std.specs.Prelude.{◌-◌};
    ghost use Rattle.xcp_bank.specs.private.WriterSteps.{Scanned, writer_plays};

    ghost then = { λ st. writer_plays (Scanned st.slots (st.word - 1)) st };
}

struct ResetPlay;

impl Play<(), View> for ResetPlay {
    ghost use Rattle.std.specs.Prelude.{◌-◌};
    ghost use Rattle.xcp_bank.specs.private.WriterSteps.{WasReset, writer_plays};

    ghost then = { λ st m n. writer_plays (WasReset (st.word - 1)) st m 0 };
}

struct WritePlay;

impl Play<(), View> for WritePlay {
    ghost use Rattle.xcp_bank.specs.private.WriterSteps.{Written, writer_plays};

    ghost then = { λ st m n. writer_plays (Written st.first) st m st.first };
}

struct PeekPlay;

impl Play<(), View> for PeekPlay {
    ghost use Rattle.xcp_bank.specs.private.WriterSteps.{Peeked, writer_plays};

    ghost then = { λ st. writer_plays (Peeked st.slots st.word) st };
}

struct KeepPlay;

impl Play<(), View> for KeepPlay {
    ghost use Rattle.xcp_bank.specs.private.WriterSteps.{KeptUpTo, writer_plays};

    ghost then = { λ st. writer_plays (KeptUpTo st.slots st.word) st };
}

struct PublishPlay;

impl Play<(), View> for PublishPlay {
    ghost use Rattle.std.specs.Prelude.{◌/◌};
    ghost use Rattle.xcp_bank.specs.private.WriterSteps.{SeatPublished, writer_plays};

    ghost then = { λ st. writer_plays (SeatPublished st.slots (st.first / 4294967296)) st };
}

/// Scan: how many pins of a buffer were given back.
pub(super) fn scan(store: &Store, seat: &mut Seat<(), View>, buffer: usize) -> u64
    requires buffer { buffer < BUFFERS }
    requires seat { (w : Writing) × IsWriterSeat seat.old store.now.table_id w × (w.pins.building ≡ None) × (buffer ≢ w.current) }
    ensures { WriterMoves (λ W w u. Scanned W buffer w result u) seat.old seat.new store.now.table_id }
{
    store.load::<ScanPlay>(seat, 1 + buffer)
}

/// Reset: the quiet buffer is built from now on.
pub(super) fn reset(store: &Store, seat: &mut Seat<(), View>, buffer: usize)
    requires buffer { buffer < BUFFERS }
    requires seat { (w : Writing) × IsWriterSeat seat.old store.now.table_id w × (w.pins.quiet ≡ Some buffer) }
    ensures { WriterMoves (λ _ w u. WasReset buffer w 0 u) seat.old seat.new store.now.table_id }
{
    store.store::<ResetPlay>(seat, 1 + buffer, 0);
}

/// Write: the next word of the buffer that is built, whose words begin at `base`.
pub(super) fn put_word(
    store: &Store,
    seat: &mut Seat<(), View>,
    buffer: usize,
    base: usize,
    k: usize,
    word: u64,
)
    requires buffer { buffer < BUFFERS }
    requires base { base ≡ 9 + buffer * store.now.table_id.slots }
    requires word { k < store.now.table_id.slots }
    requires seat { (w : Writing) × IsWriterSeat seat.old store.now.table_id w × (w.pins.building ≡ Some buffer) × (length w.pins.written ≡ k) }
    ensures { WriterMoves (λ _ w u. Written word w word u) seat.old seat.new store.now.table_id }
{
    store.store::<WritePlay>(seat, base + k, word);
}

/// The word k that stands in a buffer, whose words begin at `base`: a load that is no event.
pub(super) fn peek_word(
    store: &Store,
    seat: &mut Seat<(), View>,
    buffer: usize,
    base: usize,
    k: usize,
) -> u64
    requires buffer { buffer < BUFFERS }
    requires base { base ≡ 9 + buffer * store.now.table_id.slots }
    requires word { k < store.now.table_id.slots }
    requires seat { (w : Writing) × IsWriterSeat seat.old store.now.table_id w }
    ensures { WriterMoves (λ _ w u. (u ≡ w) × (result ≡ slice_index (slice_index_or w.words buffer []) k)) seat.old seat.new store.now.table_id }
{
    store.load::<PeekPlay>(seat, base + k)
}

/// Writes of the next words, before word `to` of the buffer that is built, each of the word that stands there
/// already. No word changes, so one load notes them all.
pub(super) fn keep_words(
    store: &Store,
    seat: &mut Seat<(), View>,
    buffer: usize,
    base: usize,
    to: usize,
)
    requires buffer { buffer < BUFFERS }
    requires base { base ≡ 9 + buffer * store.now.table_id.slots }
    requires word { to < store.now.table_id.slots }
    requires seat { (w : Writing) × IsWriterSeat seat.old store.now.table_id w × (w.pins.building ≡ Some buffer) × (length w.pins.written ≤ to) }
    ensures { WriterMoves (λ _ w u. WrittenAgain (to - length w.pins.written) w u) seat.old seat.new store.now.table_id }
{
    store.load::<KeepPlay>(seat, base + to);
}

/// Publish: the buffer that was built is current from now on. Answers how many pins the old current one got.
pub(super) fn swap_in(store: &Store, seat: &mut Seat<(), View>, buffer: usize) -> u64
    requires buffer { buffer < BUFFERS }
    requires seat { (w : Writing) × IsWriterSeat seat.old store.now.table_id w × (w.pins.building ≡ Some buffer) × (length w.pins.written ≡ store.now.table_id.slots) × (slice_index w.pins.written (store.now.table_id.slots - 1) ≡ length w.pins.publications % 18446744073709551616) × (w.current < BUFFERS) }
    ensures { WriterMoves (λ W w u. (n : ℕ) × (p : SeatPublished W buffer w n u) × (result ≡ p.count)) seat.old seat.new store.now.table_id }
{
    let found = store.swap::<PublishPlay>(seat, 0, head(buffer as u8, 0));
    let (_old, pins) = parts(found);
    u64::from(pins)
}
