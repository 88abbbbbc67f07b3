//! The steps of a reader, each on one word of the table.
ghost use Rattle.std.specs.Prelude.{◌≡◌, ◌≢◌, ℕ, ◌+◌, ◌*◌, ◌<◌, Some, None, true, false};
ghost use Rattle.pin_core.specs.CurrentWord.{head_of};
ghost use Rattle.xcp_bank.specs.SeatKnowledge.{Reading};
ghost use Rattle.xcp_bank.specs.private.ReaderSteps.{GivesUp};
ghost use Rattle.xcp_bank.specs.private.SeatSteps.{IsReaderSeat, ReaderMoves, PinnedAt, LookedAt, WordReadAt};

use super::rule::{Store, View};
use atomic_table::{Play, Seat};
use pin_core::{BUFFERS, parts};

struct LookPlay;

impl Play<(), View> for LookPlay {
    ghost use Rattle.xcp_bank.specs.private.ReaderSteps.{Looked, reader_plays};

    ghost then = { λ st. reader_plays (Looked st.slots) st };
}

struct PinPlay;

impl Play<(), View> for PinPlay {
    ghost use Rattle.xcp_bank.specs.private.ReaderSteps.{Pinned, reader_plays};

    ghost then = { λ st. reader_plays (Pinned st.slots) st };
}

struct UnpinPlay;

impl Play<(), View> for UnpinPlay {
    ghost use Rattle.std.specs.Prelude.{false};
    ghost use Rattle.xcp_bank.specs.private.ReaderSteps.{Unpinned, reader_plays};

    ghost then = { λ st. reader_plays (Unpinned st.slots false) st };
}

struct LeavePlay;

impl Play<(), View> for LeavePlay {
    ghost use Rattle.std.specs.Prelude.{true};
    ghost use Rattle.xcp_bank.specs.private.ReaderSteps.{Unpinned, reader_plays};

    ghost then = { λ st. reader_plays (Unpinned st.slots true) st };
}

struct ReadPlay;

impl Play<(), View> for ReadPlay {
    ghost use Rattle.xcp_bank.specs.private.ReaderSteps.{ReadAt, reader_plays};

    ghost then = { λ st. reader_plays (ReadAt st.slots st.word) st };
}

/// Look: the current buffer.
pub(super) fn look(store: &Store, seat: &mut Seat<(), View>) -> usize
    requires { (r : ℕ) × (x : Reading) × IsReaderSeat seat.old store.now.table_id r x × (x.pins.gone ≡ false) }
    ensures { ReaderMoves (LookedAt result) seat.old seat.new store.now.table_id }
{
    index_of(store.load::<LookPlay>(seat, 0))
}

/// Pin: the current buffer, which the reader holds from then on.
pub(super) fn pin(store: &Store, seat: &mut Seat<(), View>) -> usize
    requires { (r : ℕ) × (x : Reading) × IsReaderSeat seat.old store.now.table_id r x × (x.pins.gone ≡ false) × (x.pins.held ≡ None) }
    ensures { ReaderMoves (PinnedAt result) seat.old seat.new store.now.table_id }
{
    index_of(store.fetch_add::<PinPlay>(seat, 0, 1))
}

/// Unpin: the reader gives back what it holds, once it has seen that another buffer is current.
pub(super) fn unpin(store: &Store, seat: &mut Seat<(), View>, buffer: usize)
    requires buffer { buffer < BUFFERS }
    requires seat { (r : ℕ) × (x : Reading) × IsReaderSeat seat.old store.now.table_id r x × (p : ℕ) × (x.pins.held ≡ Some (buffer, p)) × (x.pins.looked ≢ buffer) }
    ensures { ReaderMoves (λ W. GivesUp W false) seat.old seat.new store.now.table_id }
{
    store.fetch_add::<UnpinPlay>(seat, 1 + buffer, 1);
}

/// The last Unpin: the reader gives back what it holds for good.
pub(super) fn unpin_for_good(store: &Store, seat: &mut Seat<(), View>, buffer: usize)
    requires buffer { buffer < BUFFERS }
    requires seat { (r : ℕ) × (x : Reading) × IsReaderSeat seat.old store.now.table_id r x × (p : ℕ) × (x.pins.held ≡ Some (buffer, p)) }
    ensures { ReaderMoves (λ W. GivesUp W true) seat.old seat.new store.now.table_id }
{
    store.fetch_add::<LeavePlay>(seat, 1 + buffer, 1);
}

/// Read: word k of what the reader holds, whose words begin at `base`.
pub(super) fn read_word(
    store: &Store,
    seat: &mut Seat<(), View>,
    buffer: usize,
    base: usize,
    k: usize,
) -> u64
    requires buffer { buffer < BUFFERS }
    requires base { base ≡ 9 + buffer * store.now.table_id.slots }
    requires word { k < store.now.table_id.slots }
    requires seat { (r : ℕ) × (x : Reading) × IsReaderSeat seat.old store.now.table_id r x × (p : ℕ) × (x.pins.held ≡ Some (buffer, p)) }
    ensures { ReaderMoves (WordReadAt buffer k result) seat.old seat.new store.now.table_id }
{
    store.load::<ReadPlay>(seat, base + k)
}

// The buffer that word 0 tells.
fn index_of(word: u64) -> usize
    requires { word < head_of BUFFERS 0 }
    ensures { (index count : ℕ) → count < 4294967296 → word ≡ head_of index count → result ≡ index }
{
    let (index, _pins) = parts(word);
    usize::from(index)
}
