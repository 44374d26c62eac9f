// The message type (RFC 2132, section 9.6): what the one option 53 of a message states. A pass of its own over the options, for the entry that asks:
// a check of delayed authentication goes by no message type.
ghost use Rattle.std.specs.Prelude.{◌≡◌, ◌+◌, ◌-◌, ◌≤◌, length, take, drop};
ghost use Rattle.dhcp_message.specs.Layout.{option_head};
ghost use Rattle.dhcp_message.specs.Scan.{typed_of, type_found};
ghost use Rattle.dhcp_message.specs.Types.{message_type_of};

use crate::layout::{OPTION_HEAD, TYPE, TYPE_OPTION};
use crate::{Here, Options};

// What a pass has found of option 53: none, one that states a type, or what states none whatever follows.
#[derive(Clone, Copy)]
pub(crate) enum Typing {
    NotYet,
    As(u8),
    Spoiled,
}

// What is found after one option more.
#[tactic(auto, unfolding(crate::specs::Scan::typed_of))]
fn typed(t: Typing, message: &[u8], code: u8, at: usize, size: usize) -> Typing
    requires option_head_le_size { option_head ≤ size }
    requires size_in_bounds { at + size ≤ length message.now }
    ensures { result ≡ typed_of t code (take (size - option_head) (drop (at + option_head) message.now)) }
{
    if code != TYPE {
        return t;
    }
    match t {
        Typing::NotYet if size == TYPE_OPTION => Typing::As(message[at + OPTION_HEAD]),
        _ => Typing::Spoiled,
    }
}

// What is stated where that was found of all options.
#[tactic(auto, unfolding(crate::specs::Scan::type_found))]
fn type_found(t: Typing) -> Option<u8>
    ensures { result ≡ type_found t }
{
    match t {
        Typing::As(stated) => Some(stated),
        Typing::NotYet | Typing::Spoiled => None,
    }
}

// The message type of a message. Where its options can't be read, none.
pub fn message_type(message: &[u8]) -> Option<u8>
    ensures { result ≡ message_type_of message.now }
{
    let mut typing = Typing::NotYet;
    for (at, here) in Options::new(message) {
        match here {
            Here::End => return type_found(typing),
            Here::Opt { code, size } => typing = typed(typing, message, code, at, size),
            // No Broken is given.
            Here::Pad | Here::Broken => {}
        }
    }
    None
}
