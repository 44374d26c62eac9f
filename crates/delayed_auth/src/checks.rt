// Check: judges a message by 1 to 12, and stores the counter of an accepted one and that its row is heard. docs/RULES.md, 'Check'; RFC 3118, section 5.3.
ghost use Rattle.std.specs.Prelude.{◌≡◌, Ok};
ghost use Rattle.key_book.specs.Lent.{book_in};
ghost use Rattle.key_book.specs.Book.{book_of};
ghost use Rattle.delayed_auth.specs.Admit.{admitted_form};
ghost use Rattle.delayed_auth.specs.Check.{check_of, marks_after, received_after};

use crate::{Accepted, admitted, mac_of, row_of};
use dhcp_message::Auth;
use key_book::LentBook;
use refusal::Refusal;

// 10 to 12, of a message that passes 1 to 9. The counter is looked at before the MAC is computed (RFC 3118, section 5.3). On a heard row it must be
// above the stored one: with replay method 0 the counter rises with every message (RFC 3118, section 2), so nothing new comes with the counter that
// was accepted last, and what comes with it was seen before. On a row that is not heard any counter is new.
fn judged_full(book: LentBook, message: &[u8], auth: Auth) -> Result<Accepted, Refusal>
    requires { Ok auth ≡ admitted_form (book_in book) message.now }
    ensures { result ≡ check_of (book_in book.entry) message.now }
{
    let row = row_of(book.ids, book.rows, auth.id).ok_or(Refusal::UnknownSecret)?;
    let heard = book.marks[row] == key_book::HEARD;
    if !dhcp_message::is_new(heard, book.received[row], auth.counter) {
        return Err(Refusal::Replay);
    }
    let mac = mac_of(
        key_book::key_of(book.store, book.lengths, row),
        message,
        auth,
    );
    let from = auth.at + dhcp_message::MAC_AT;
    let to = auth.at + dhcp_message::FULL_SIZE;
    if !octets::same(&message[from..to], &mac) {
        return Err(Refusal::WrongMac);
    }
    Ok(Accepted {
        row,
        counter: auth.counter,
    })
}

// 1 to 12, nothing stored.
fn judged(book: LentBook, message: &[u8]) -> Result<Accepted, Refusal>
    ensures { result ≡ check_of (book_in book.entry) message.now }
{
    let auth = admitted(book, message)?;
    judged_full(book, message, auth)
}

// Judges a message, and where it is accepted stores its counter as received and marks its row heard. The lists come one by one, as in `seal`: the form that
// the client named (docs/ARCHITECTURE.md, 'Where each form stands').
pub fn check(
    ids: &[u32],
    lengths: &[u8],
    store: &[u8],
    marks: &mut [u8],
    received: &mut [u64],
    sent: &[u64],
    rows: usize,
    message: &[u8],
) -> Result<Accepted, Refusal>
    ensures answer { let b = book_of ids.now lengths.now store.now marks.old received.old sent.now rows in
        result ≡ check_of b message.now }
    ensures marked { let b = book_of ids.now lengths.now store.now marks.old received.old sent.now rows in
        marks.new ≡ marks_after (check_of b message.now) marks.old }
    ensures stored { let b = book_of ids.now lengths.now store.now marks.old received.old sent.now rows in
        received.new ≡ received_after (check_of b message.now) received.old }
{
    let book = LentBook {
        ids,
        lengths,
        store,
        marks: &*marks,
        received: &*received,
        sent,
        rows,
    };
    let accepted = judged(book, message)?;
    marks[accepted.row] = key_book::HEARD;
    received[accepted.row] = accepted.counter;
    Ok(accepted)
}
