// Where things stand in a message, and how large they are: the numbers of specs/Layout.antt, for the code.

// The sizes that a message may have.
pub(crate) const MESSAGE_LEAST: usize = 241;

pub const MESSAGE_MOST: usize = 1472;

// The fixed part (RFC 2131, section 2): hops, giaddr and the magic cookie by offset; the options start behind it.
pub const HOPS_AT: usize = 3;

pub const HOPS_SIZE: usize = 1;

pub const GIADDR_AT: usize = 24;

pub const GIADDR_SIZE: usize = 4;

pub(crate) const COOKIE_AT: usize = 236;

pub(crate) const COOKIE: [u8; 4] = [99, 130, 83, 99];

pub const HEADER_SIZE: usize = 240;

// Option codes (RFC 2132, sections 3 and 9.6; RFC 3046; RFC 3118), and what an option takes besides its body: code and length. A pad is its code alone.
pub const PAD: u8 = 0;

pub(crate) const TYPE: u8 = 53;

pub(crate) const RELAY: u8 = 82;

pub(crate) const AUTHENTICATION: u8 = 90;

pub(crate) const END: u8 = 255;

pub const PAD_SIZE: usize = 1;

pub const OPTION_HEAD: usize = 2;

// An option 53 that states a type takes this many bytes.
pub(crate) const TYPE_OPTION: usize = OPTION_HEAD + 1;

// Option 90 in full form (RFC 3118, section 5.2), by offset from its code:
//   code 0, length 1, protocol 2, algorithm 3, replay method 4, counter 5..13, secret id 13..17, MAC 17..33
pub const LENGTH_AT: usize = 1;

pub(crate) const PROTOCOL_AT: usize = 2;

pub(crate) const ALGORITHM_AT: usize = 3;

pub(crate) const REPLAY_METHOD_AT: usize = 4;

pub const COUNTER_AT: usize = 5;

pub const COUNTER_SIZE: usize = 8;

pub(crate) const SECRET_ID_AT: usize = 13;

pub(crate) const SECRET_ID_SIZE: usize = 4;

pub const MAC_AT: usize = 17;

pub const MAC_SIZE: usize = 16;

pub const FULL_SIZE: usize = 33;

// The length byte of the full form and of the request form.
pub(crate) const FULL_LENGTH: u8 = 31;

pub(crate) const REQUEST_LENGTH: u8 = 11;

// Delayed authentication: protocol 1, algorithm 1 (HMAC-MD5), replay method 0 (a counter).
pub(crate) const PROTOCOL: u8 = 1;

pub(crate) const ALGORITHM: u8 = 1;

pub(crate) const REPLAY_METHOD: u8 = 0;

// The part of option 90 that a seal writes, counter, secret id and MAC; and of it counter and secret id.
pub(crate) const SEAL_SIZE: usize = 28;

pub(crate) const FIELDS_SIZE: usize = 12;
