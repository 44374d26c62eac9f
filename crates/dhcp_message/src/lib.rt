// A DHCPv4 message as authentication sees it: checks 2 to 9 (docs/RULES.md, 'Numbers'), what its option 90 says to RFC 3118's delayed
// authentication, the bytes that its MAC covers, the writers of counter, secret id and MAC, the message type, what stands at an offset
// of the options, the options one after another (`Options`), and whether a counter is new.
// Not here: the key, the MAC itself, where counters are stored, and what option 90 says by a nonce (forcerenew).
#![tactic(auto)]

pub use image::cover;
pub use layout::{
    COUNTER_AT, COUNTER_SIZE, FULL_SIZE, GIADDR_AT, GIADDR_SIZE, HEADER_SIZE, HOPS_AT, HOPS_SIZE,
    LENGTH_AT, MAC_AT, MAC_SIZE, MESSAGE_MOST, OPTION_HEAD, PAD, PAD_SIZE,
};
pub use replay::is_new;
pub use said::{form_of, has_method};
pub use scan::shape_of;
pub use seal::{put_fields, put_mac};
pub use standing::here_at;
pub use types::message_type;

mod image;
mod layout;
mod replay;
mod said;
mod scan;
mod seal;
mod standing;
mod types;

// What stands at an offset of the options. An option is told by its code and the bytes that it takes.
#[derive(Clone, Copy, Debug, PartialEq, Eq)]
pub enum Here {
    // Nothing whole.
    Broken,
    End,
    Pad,
    Opt { code: u8, size: usize },
}

// The options of a message from an offset on, one after another: what stands there, pads too, with its offset. The first End is the last, since it
// ends what is to be read (RFC 2132, section 3.2). Where an option passes the message's end, or End is missing, they end without one; none is `Broken`.
#[derive(Drop)]
pub struct Options<'m> {
    pub(crate) message: &'m [u8],
    pub(crate) at: usize,
}

// Where things stand in a message that passes 2 to 7, as in `Auth`.
#[derive(Clone, Copy, Debug, PartialEq, Eq)]
pub struct Places {
    pub at: usize,
    pub cut: usize,
    pub gap: usize,
}

// What option 90 in full form says, and where in the message: `at` is the offset of its code; option 82, before it or behind it, takes `gap` bytes
// from `cut` on, none of them where the message has no option 82. Flat, with no `Places` in it: definitions and statements name the five so.
#[derive(Clone, Copy, Debug, PartialEq, Eq)]
pub struct Auth {
    pub at: usize,
    pub counter: u64,
    pub id: u32,
    pub cut: usize,
    pub gap: usize,
}
