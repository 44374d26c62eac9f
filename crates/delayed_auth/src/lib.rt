// RFC 3118's delayed authentication: check (docs/RULES.md, 'Check'), the key of a message ('Key of a message') and seal ('Seal').
// Here are the answers and what the entries share; each entry has its file.
// Not here: reading a message (dhcp_message), the MAC function (hmac_md5) and the book (key_book).
//
// `check`, `seal` and `key_of_message` take the lent book list by list, as ids, key lengths, key store, marks, received counters, sent counters and row count,
// in this order; what only reads it takes a `LentBook`.
#![tactic(auto)]

mod checks;
mod keys;
mod seals;

ghost use Rattle.std.specs.Prelude.{◌≡◌, ◌≤◌, Ok, length};
ghost use Rattle.hmac_md5.specs.Hmac.{hmac, key_most};
ghost use Rattle.dhcp_message.specs.Said.{form_of};
ghost use Rattle.dhcp_message.specs.Image.{image_of};
ghost use Rattle.key_book.specs.Book.{row_in};
ghost use Rattle.key_book.specs.Lent.{book_in};
ghost use Rattle.key_book.specs.Halving.{Taken};
ghost use Rattle.key_book.specs.Known.{Ascends};
ghost use Rattle.delayed_auth.specs.Admit.{admitted_form};

pub use checks::check;
use dhcp_message::Auth;
use key_book::{LentBook, Sought};
pub use keys::{key_number, key_of_message, named_row};
use refusal::Refusal;
pub use seals::seal;

// What a check accepts: the secret's row, and the message's counter, which is stored there.
#[derive(Clone, Copy, Debug, PartialEq, Eq)]
pub struct Accepted {
    pub row: usize,
    pub counter: u64,
}

// What a seal goes by: option 90 as it was found, and the row of the given id.
#[derive(Clone, Copy)]
pub(crate) struct Plan {
    pub auth: Auth,
    pub row: usize,
}

// 1 to 9: the form of a message, once the book is sound.
pub(crate) fn admitted(book: LentBook, message: &[u8]) -> Result<Auth, Refusal>
    ensures { result ≡ admitted_form (book_in book.entry) message.now }
{
    if !book.is_sound() {
        return Err(Refusal::UnsoundBook);
    }
    dhcp_message::form_of(message)
}

// The row of an id, where ids and row count are a sound book's: they ascend, so halving finds what a search over all rows would. No method of `Sought`: the
// looks fall away only here.
pub(crate) fn row_of(ids: &[u32], rows: usize, id: u32) -> Option<usize>
    requires { Taken ids.now rows × Ascends ids.now rows }
    ensures { result ≡ row_in ids.now rows id }
{
    let sought = key_book::known(ids, rows, id);
    match sought {
        Sought::Stands(row, _) => Some(row),
        Sought::Missing(_) => None,
        Sought::Unsized => None,
    }
}

// The MAC of a message in full form under a key, over its covered image. The image has a room of its own, of a fixed size: nothing is allocated. Message and
// option 90 come apart, here and in `write_seal`, since the one writes into the message that the other reads.
pub(crate) fn mac_of(key: &[u8], message: &[u8], auth: Auth) -> [u8; dhcp_message::MAC_SIZE]
    requires { (form_of message.now ≡ Ok auth) × (length key.now ≤ key_most) }
    ensures { result ≡ hmac key.now (image_of message.now) }
{
    let mut image = [0u8; dhcp_message::MESSAGE_MOST];
    let size = dhcp_message::cover(message, auth, &mut image).unwrap();
    hmac_md5::hmac(key, &image[..size]).unwrap()
}
