// The records of a card, written at a place of a room: a row's in either form, and the close.
ghost use Rattle.std.specs.Prelude.{◌≡◌, ◌+◌, ◌≤◌, length};
ghost use Rattle.octets.specs.Bytes.{written};
ghost use Rattle.key_book.specs.Limits.{slot_size};
ghost use Rattle.book_card.specs.Layout.{key_at, close_size};
ghost use Rattle.book_card.specs.Card.{row_record, close};
ghost use Rattle.book_card.specs.Lent.{row_lent};
ghost use Rattle.book_card.specs.Writing.{record_put, close_put};

use crate::layout::{
    BODY_AT, CLOSE_KIND, CLOSE_SIZE, COUNT_SIZE, COUNTER_SIZE, ID_SIZE, KIND_AT, KIND_SIZE,
    LENGTH_SIZE, MARK_AT, key_at, mark_size, received_at, row_kind, sent_at,
};
use crate::{CardForm, LentRow};
use key_book::SLOT_SIZE;

// Writes a row's record, and returns its size. In the old form the mark takes no byte.
pub(crate) fn put_record(form: CardForm, row: LentRow, room: &mut [u8], at: usize) -> usize
    requires key_len_bound { length row.key.now ≤ slot_size }
    requires key_in_bounds { at + (key_at form + length row.key.now) ≤ length room.old }
    ensures { (result ≡ key_at form + length row.entry.key.now)
        × (room.new ≡ written at (row_record form (row_lent row.entry)) room.old) }
{
    let head = key_at(form);
    let record = head + row.key.len();
    octets::put_little(room, at, LENGTH_SIZE, (record - LENGTH_SIZE) as u64);
    octets::put_little(room, at + KIND_AT, KIND_SIZE, row_kind(form));
    octets::put_little(room, at + BODY_AT, ID_SIZE, row.id as u64);
    octets::put_little(room, at + MARK_AT, mark_size(form), row.mark as u64);
    octets::put_little(room, at + received_at(form), COUNTER_SIZE, row.received);
    octets::put_little(room, at + sent_at(form), COUNTER_SIZE, row.sent);
    octets::copy(row.key, room, at + head);
    record
}

// Writes the close, for so many rows.
pub(crate) fn put_close(rows: usize, room: &mut [u8], at: usize)
    requires { at + close_size ≤ length room.old }
    ensures { room.new ≡ written at (close rows) room.old }
{
    octets::put_little(room, at, LENGTH_SIZE, (CLOSE_SIZE - LENGTH_SIZE) as u64);
    octets::put_little(room, at + KIND_AT, KIND_SIZE, CLOSE_KIND);
    octets::put_little(room, at + BODY_AT, COUNT_SIZE, rows as u64);
}

// Writes a row's record where it has its place: nothing is changed where the key is longer than a slot, or the room too short.
pub fn add_record(form: CardForm, row: LentRow, room: &mut [u8], at: usize)
    ensures { room.new ≡ record_put form (row_lent row.entry) at room.old }
{
    if SLOT_SIZE < row.key.len() {
        return;
    }
    if room.len() < at {
        return;
    }
    if room.len() - at < key_at(form) + row.key.len() {
        return;
    }
    put_record(form, row, room, at);
}

// Writes the close, for so many rows, where it has its place.
pub fn add_close(rows: usize, room: &mut [u8], at: usize)
    ensures { room.new ≡ close_put rows at room.old }
{
    if room.len() < at {
        return;
    }
    if room.len() - at < CLOSE_SIZE {
        return;
    }
    put_close(rows, room, at);
}
