// The end: the spare rows are copied over to the book.
ghost use Rattle.std.specs.Prelude.{◌≡◌, ◌++◌, ◌≤◌, length, take, drop};
ghost use Rattle.key_book.specs.Lent.{book_in, room_in, SameRoom};
ghost use Rattle.book_card.specs.Reading.{rows_given};
ghost use Rattle.card_pieces.specs.Pieces.{has_ended, finish_of, finish_book};

use crate::pieces::is_within;
use crate::{Phase, Reader};
use key_book::{LentBook, LentRoom, SLOT_SIZE};
use refusal::Refusal;

// Copies the first elements of one list over those of another.
fn copy_first<T: Copy>(from: &[T], count: usize, to: &mut [T])
    requires from_in_bounds { count ≤ length from.now }
    requires to_in_bounds { count ≤ length to.old }
    ensures { to.new ≡ take count from.now ++ drop count to.old }
{
    to[..count].copy_from_slice(&from[..count]);
}

// Whether reading has ended: the close was read, and no bytes are kept.
#[tactic(auto, unfolding(crate::specs::Pieces::has_ended))]
fn has_ended(phase: Phase, kept: usize) -> bool
    ensures { result ≡ has_ended kept phase }
{
    phase == Phase::Closed && kept == 0
}

// The end: copies the spare rows over to the book and answers how many there are. Nothing more is read. The spare rows are not written; the state says how many
// of them are in use. A refusal leaves the book as it was: UnsoundBook where sizes disagree or a count of the state is past its limit, then MalformedCard, then
// NoRoomForRows.
pub fn finish(state: Reader, spare: LentBook, room: &mut LentRoom) -> Result<usize, Refusal>
    ensures same { SameRoom room.old room.new }
    ensures answer { result ≡ finish_of (book_in spare.entry) state (room_in room.old 0) }
    ensures after { room_in room.new (rows_given result) ≡ finish_book (book_in spare.entry) state (room_in room.old 0) }
{
    if !spare.sizes_agree() {
        return Err(Refusal::UnsoundBook);
    }
    if !room.sizes_agree() {
        return Err(Refusal::UnsoundBook);
    }
    if spare.ids.len() != room.ids.len() {
        return Err(Refusal::UnsoundBook);
    }
    if !is_within(state.kept, state.rows) {
        return Err(Refusal::UnsoundBook);
    }
    let phase = state.phase;
    if !has_ended(phase, state.kept) {
        return Err(Refusal::MalformedCard);
    }
    let rows = state.rows;
    if room.ids.len() < rows {
        return Err(Refusal::NoRoomForRows);
    }
    copy_first(spare.ids, rows, room.ids);
    copy_first(spare.lengths, rows, room.lengths);
    copy_first(spare.store, SLOT_SIZE * rows, room.store);
    copy_first(spare.marks, rows, room.marks);
    copy_first(spare.received, rows, room.received);
    copy_first(spare.sent, rows, room.sent);
    Ok(rows)
}
