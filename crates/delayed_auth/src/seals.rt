// Seal: 1 to 9, then 10 for the given id, then 13; else counter, id and MAC are written and the counter stored as sent. docs/RULES.md, 'Seal'.
ghost use Rattle.std.specs.Prelude.{◌≡◌, ◌≤◌, Ok, length};
ghost use Rattle.hmac_md5.specs.Hmac.{key_most};
ghost use Rattle.dhcp_message.specs.Said.{form_of};
ghost use Rattle.key_book.specs.Lent.{book_in};
ghost use Rattle.key_book.specs.Book.{book_of};
ghost use Rattle.delayed_auth.specs.Seal.{plan_of, sealed_message, seal_of, sealing_of, message_after, sent_after};

use crate::{Plan, admitted, mac_of, row_of};
use dhcp_message::Auth;
use key_book::LentBook;
use refusal::Refusal;

// 1 to 9, then 10 for the given id, then 13.
fn planned(book: LentBook, id: u32, message: &[u8]) -> Result<Plan, Refusal>
    ensures { result ≡ plan_of (book_in book.entry) id message.now }
{
    let auth = admitted(book, message)?;
    let row = row_of(book.ids, book.rows, id).ok_or(Refusal::UnknownSecret)?;
    if book.sent[row] == u64::MAX {
        return Err(Refusal::CounterSpent);
    }
    Ok(Plan { auth, row })
}

// Writes counter, id and MAC into a message in full form. The MAC is over the image that already holds counter and id, so the 28 bytes are
// lent on twice.
fn write_seal(key: &[u8], auth: Auth, counter: u64, id: u32, message: &mut [u8])
    requires { (form_of message.old ≡ Ok auth) × (length key.now ≤ key_most) }
    ensures { message.new ≡ sealed_message key.now message.old auth counter id }
{
    let from = auth.at + dhcp_message::COUNTER_AT;
    let to = auth.at + dhcp_message::FULL_SIZE;
    dhcp_message::put_fields(&mut message[from..to], counter, id);
    let renewed = Auth {
        counter,
        id,
        ..auth
    };
    let mac = mac_of(key, message, renewed);
    dhcp_message::put_mac(&mut message[from..to], mac);
}

// Seals a message under the given id with the next counter, and stores that counter as sent.
pub fn seal(
    ids: &[u32],
    lengths: &[u8],
    store: &[u8],
    marks: &[u8],
    received: &[u64],
    sent: &mut [u64],
    rows: usize,
    id: u32,
    message: &mut [u8],
) -> Result<u64, Refusal>
    ensures answer { let b = book_of ids.now lengths.now store.now marks.now received.now sent.old rows in
        result ≡ sealing_of (seal_of b id message.old) }
    ensures sealed { let b = book_of ids.now lengths.now store.now marks.now received.now sent.old rows in
        message.new ≡ message_after (seal_of b id message.old) message.old }
    ensures stored { let b = book_of ids.now lengths.now store.now marks.now received.now sent.old rows in
        sent.new ≡ sent_after (seal_of b id message.old) sent.old }
{
    let book = LentBook {
        ids,
        lengths,
        store,
        marks,
        received,
        sent: &*sent,
        rows,
    };
    let plan = planned(book, id, message)?;
    let counter = sent[plan.row] + 1;
    write_seal(
        key_book::key_of(store, lengths, plan.row),
        plan.auth,
        counter,
        id,
        message,
    );
    sent[plan.row] = counter;
    Ok(counter)
}
