// FORCERENEW by nonce (RFC 6704 over RFC 3203; docs/RULES.md, 'FORCERENEW by nonce'): a server may order a node to renew at once, and the order is believed
// only under the nonce that this server gave in its ACK, and only once.
// Not here: delayed authentication and its key book (delayed_auth), reading a message (dhcp_message), the MAC function (hmac_md5), and who sent an ACK,
// which nothing in it shows.
//
// Server rows are lent as nonces, counters and marks, in this order: for n rows 16 * n bytes, n numbers and n bytes. Their marks are not a book's.
#![tactic(auto)]

ghost use Rattle.std.specs.Prelude.{◌≡◌, length};
ghost use Rattle.forcerenew.specs.Layout.{value_size};

pub use judging::judge;
pub use layout::{GIVES_NONCE, NONCE_SIZE, ORDERS_RENEWAL};
pub use rows::{HEARD, NONE_YET, NOT_HEARD};

mod judging;
mod layout;
mod rows;
mod shown;

// What a judgement accepts: option 90's type, as the byte that it is in the message (demand 2 speaks of any byte), and the message's counter.
#[derive(Clone, Copy, Debug, PartialEq, Eq)]
pub struct Heeded {
    pub kind: u8,
    pub counter: u64,
}

// The bytes of a nonce, where they stand. It is declared here since a struct with a ghost field depends on every
// definition that its file imports, and this file imports two.
#[derive(Clone, Copy)]
pub(crate) struct Nonce<'s> {
    pub bytes: &'s [u8],
    ghost sized: { length bytes.now ≡ value_size },
}

// What a message shows whose options can be read: that it gives a nonce, or orders a renewal under a MAC, with its counter.
#[derive(Clone, Copy)]
pub(crate) enum Shows<'m> {
    Gives { counter: u64, nonce: Nonce<'m> },
    Orders { counter: u64, mac: &'m [u8] },
}

// What is to be done: take the nonce of an ACK; nothing, since the row has that nonce; store the counter of an order.
#[derive(Clone, Copy)]
pub(crate) enum Plan<'m> {
    Takes { counter: u64, nonce: Nonce<'m> },
    Knows { counter: u64 },
    Renews { counter: u64 },
}
