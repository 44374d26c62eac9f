// Writing a book's card, in the new form, to the front of a lent room.
ghost use Rattle.std.specs.Prelude.{◌≡◌, ◌≤◌, length};
ghost use Rattle.octets.specs.Bytes.{written};
ghost use Rattle.key_book.specs.Limits.{rows_most};
ghost use Rattle.key_book.specs.Book.{Sound};
ghost use Rattle.key_book.specs.Lent.{book_in};
ghost use Rattle.book_card.specs.declared.CardForm.TheVariants.{New};
ghost use Rattle.book_card.specs.Card.{card_of};
ghost use Rattle.book_card.specs.Writing.{rows_of, size_to, write_of, room_after};

use crate::layout::{CLOSE_SIZE, key_at};
use crate::records::{put_close, put_record};
use crate::{CardForm, LentRow};
use key_book::LentBook;
use refusal::Refusal;

// The size of the card of a book with these key lengths.
fn card_size(lengths: &[u8], rows: usize) -> usize
    requires rows_in_bounds { rows ≤ length lengths.now }
    requires rows_le_rows_most { rows ≤ rows_most }
    ensures { result ≡ size_to lengths.now rows }
{
    let head = key_at(CardForm::New);
    let mut size = CLOSE_SIZE;
    for &length in &lengths[..rows] {
        size += head + length as usize;
    }
    size
}

// Writes the whole card of a sound book to the front of a room that it fits.
fn put_card(book: LentBook, card: &mut [u8])
    requires sound { Sound (book_in book) }
    requires b_in_bounds { length (card_of New (rows_of (book_in book))) ≤ length card.old }
    ensures { card.new ≡ written 0 (card_of New (rows_of (book_in book.entry))) card.old }
{
    let mut at: usize = 0;
    for row in 0..book.rows {
        let row = LentRow {
            id: book.ids[row],
            mark: book.marks[row],
            received: book.received[row],
            sent: book.sent[row],
            key: key_book::key_of(book.store, book.lengths, row),
        };
        at += put_record(CardForm::New, row, card, at);
    }
    put_close(book.rows, card, at);
}

// Writes the card of a book to the front of a lent room and answers its size. Later bytes of the room stay as they were. UnsoundBook, NoRoomForCard; then
// the room is not changed.
pub fn card_write(book: LentBook, card: &mut [u8]) -> Result<usize, Refusal>
    ensures answer { result ≡ write_of (book_in book.entry) (length card.old) }
    ensures after { card.new ≡ room_after (book_in book.entry) card.old }
{
    if !book.is_sound() {
        return Err(Refusal::UnsoundBook);
    }
    let size = card_size(book.lengths, book.rows);
    if card.len() < size {
        return Err(Refusal::NoRoomForCard);
    }
    put_card(book, card);
    Ok(size)
}
