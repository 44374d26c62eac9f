// What option 90 says: checks 8 and 9, and with those before them 2 to 9 (docs/RULES.md, 'The message' and 'Numbers'; RFC 3118, section 5).
ghost use Rattle.std.specs.Prelude.{◌≡◌, [], ◌∷◌, ◌+◌, ◌≤◌, length, get_or, drop};
ghost use Rattle.octets.specs.Bytes.{starts};
ghost use Rattle.dhcp_message.specs.Layout.{option_head, length_at, method_at};
ghost use Rattle.dhcp_message.specs.Said.{said_by, form_said, form_of};

use crate::layout::{
    ALGORITHM, ALGORITHM_AT, COUNTER_AT, COUNTER_SIZE, FULL_LENGTH, LENGTH_AT, PROTOCOL,
    PROTOCOL_AT, REPLAY_METHOD, REPLAY_METHOD_AT, REQUEST_LENGTH, SECRET_ID_AT, SECRET_ID_SIZE,
};
use crate::scan::shape_of;
use crate::{Auth, Places};
use refusal::Refusal;

// Whether an option 90 has this protocol, this algorithm and this replay method.
#[tactic(auto, using(crate::proofs::Forms::method_past))]
pub fn has_method(message: &[u8], at: usize, protocol: u8, algorithm: u8, replay: u8) -> bool
    ensures { result ≡ starts (protocol ∷ algorithm ∷ replay ∷ []) (drop (at + method_at) message.now) }
{
    if message.len() < COUNTER_AT || message.len() - COUNTER_AT < at {
        return false;
    }
    message[at + PROTOCOL_AT] == protocol
        && message[at + ALGORITHM_AT] == algorithm
        && message[at + REPLAY_METHOD_AT] == replay
}

// Checks 8 and 9, of an option 90 that is whole.
fn form_at(message: &[u8], p: Places) -> Result<Auth, Refusal>
    requires { p.at + option_head + get_or message.now (p.at + length_at) 0 ≤ length message.now }
    ensures { result ≡ form_said p (said_by (drop p.at message.now)) }
{
    let Places { at, cut, gap } = p;
    if !has_method(message, at, PROTOCOL, ALGORITHM, REPLAY_METHOD) {
        return Err(Refusal::OtherAuthentication);
    }
    match message[at + LENGTH_AT] {
        FULL_LENGTH => Ok(Auth {
            at,
            counter: octets::big(message, at + COUNTER_AT, COUNTER_SIZE),
            id: octets::big(message, at + SECRET_ID_AT, SECRET_ID_SIZE) as u32,
            cut,
            gap,
        }),
        REQUEST_LENGTH => Err(Refusal::RequestForm),
        _ => Err(Refusal::OtherAuthentication),
    }
}

// Checks 2 to 9: the lowest that applies, or what option 90 says.
pub fn form_of(message: &[u8]) -> Result<Auth, Refusal>
    ensures { result ≡ form_of message.now }
{
    let places = shape_of(message)?;
    form_at(message, places)
}
