// Option 90 by a nonce (RFC 6704, section 3.1.2), by offset from its code:
//   code 0, length 1, protocol 2, algorithm 3, replay method 4, counter 5..13, type 13, nonce or MAC 14..30
// The numbers of specs/Layout.antt, for the code.
pub(crate) const TYPE_AT: usize = 13;

pub(crate) const VALUE_AT: usize = 14;

// The bytes of a nonce, and of the MAC that stands in its place.
pub const NONCE_SIZE: usize = 16;

// Option 90's length byte.
pub(crate) const NONCE_LENGTH: u8 = 28;

// Protocol 3 (reconfigure key), algorithm 1 (HMAC-MD5), replay method 0 (a counter).
pub(crate) const PROTOCOL: u8 = 3;

pub(crate) const ALGORITHM: u8 = 1;

pub(crate) const REPLAY_METHOD: u8 = 0;

// The types of value: a nonce, given in an ACK; the MAC of a FORCERENEW.
pub const GIVES_NONCE: u8 = 1;

pub const ORDERS_RENEWAL: u8 = 2;

// The message types that go with them (RFC 2132, section 9.6; RFC 3203).
pub(crate) const ACK: u8 = 5;

pub(crate) const FORCERENEW: u8 = 9;
