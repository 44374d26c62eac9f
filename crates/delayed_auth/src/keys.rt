// The key of a message: 1 to 10, and the part of the key store that holds the key of the named secret. docs/RULES.md, 'Key of a message'.
ghost use Rattle.std.specs.Prelude.{◌≡◌};
ghost use Rattle.refusal.specs.Number.{result_number};
ghost use Rattle.key_book.specs.Lent.{book_in};
ghost use Rattle.key_book.specs.Book.{book_of, moved_on};
ghost use Rattle.delayed_auth.specs.Key.{keyed_of, key_bytes, key_offset};

use crate::{admitted, row_of};
use key_book::LentBook;
use refusal::Refusal;

// The row of the secret that a message names.
pub fn named_row(book: LentBook, message: &[u8]) -> Result<usize, Refusal>
    ensures { result ≡ keyed_of (book_in book.entry) message.now }
{
    let auth = admitted(book, message)?;
    row_of(book.ids, book.rows, auth.id).ok_or(Refusal::UnknownSecret)
}

// The key of the secret that a message names, as the part of the key store itself; refused, the empty part at the store's start, and `key_number` has the
// number: no `Result`, since the client named this form (docs/RULES.md, 'Key of a message'). The lists come one by one: of them only the store has the
// lifetime of the key.
pub fn key_of_message<'k, 'l>(
    ids: &'l [u32],
    lengths: &'l [u8],
    store: &'k [u8],
    marks: &'l [u8],
    received: &'l [u64],
    sent: &'l [u64],
    rows: usize,
    message: &'l [u8],
) -> &'k [u8]
    ensures content { let b = book_of ids.now lengths.now store.now marks.now received.now sent.now rows in
        result.now ≡ key_bytes b (keyed_of b message.now) }
    ensures place { let b = book_of ids.now lengths.now store.now marks.now received.now sent.now rows in
        result.ref_ptr ≡ moved_on store.entry.ref_ptr (key_offset (keyed_of b message.now)) }
{
    let book = LentBook {
        ids,
        lengths,
        store,
        marks,
        received,
        sent,
        rows,
    };
    match named_row(book, message) {
        Ok(row) => key_book::key_of(store, lengths, row),
        Err(_) => &store[..0],
    }
}

// The number that goes with `key_of_message` on the same inputs.
pub fn key_number(book: LentBook, message: &[u8]) -> u8
    ensures { result ≡ result_number (keyed_of (book_in book.entry) message.now) }
{
    // By cases and no `result_number`: the number of a refusal is a place of its own, which an edit of must-fail/ changes.
    match named_row(book, message) {
        Ok(_) => 0,
        Err(refusal) => refusal::number(refusal),
    }
}
