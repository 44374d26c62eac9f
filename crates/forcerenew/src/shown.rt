// What an option 90 shows by a nonce: 19, 20, and which of the two it is. RFC 6704, section 3.1.2.
ghost use Rattle.std.specs.Prelude.{◌≡◌, ◌+◌, ◌≤◌, length, get_or, IfOk};
ghost use Rattle.dhcp_message.specs.Layout.{option_head, length_at};
ghost use Rattle.forcerenew.specs.Layout.{nonce_option};
ghost use Rattle.forcerenew.specs.Shown.{goes_with, shown_at};
ghost use Rattle.forcerenew.specs.Plans.{shown_as};

use crate::layout::{
    ACK, ALGORITHM, FORCERENEW, GIVES_NONCE, NONCE_LENGTH, NONCE_SIZE, ORDERS_RENEWAL, PROTOCOL,
    REPLAY_METHOD, TYPE_AT, VALUE_AT,
};
use crate::{Nonce, Shows};
use refusal::Refusal;

// Whether a type of option 90 goes with a message type: a nonce with an ACK, a MAC with a FORCERENEW.
#[tactic(auto, unfolding(crate::specs::Shown::goes_with))]
fn goes_with(kind: u8, stated: Option<u8>) -> bool
    ensures { result ≡ goes_with kind stated }
{
    matches!(
        (kind, stated),
        (GIVES_NONCE, Some(ACK)) | (ORDERS_RENEWAL, Some(FORCERENEW))
    )
}

// 19 and 20, of an option 90 that is whole; else what it shows.
#[tactic(auto, unfolding(crate::specs::Shown::shown_at))]
pub(crate) fn shown_at(message: &[u8], at: usize) -> Result<Shows<'_>, Refusal>
    requires { at + option_head + get_or message.now (at + length_at) 0 ≤ length message.now }
    ensures shown { shown_as message.now at result ≡ shown_at message.now at }
    ensures whole { IfOk result (λ shows. at + nonce_option ≤ length message.now) }
{
    if message[at + dhcp_message::LENGTH_AT] != NONCE_LENGTH
        || !dhcp_message::has_method(message, at, PROTOCOL, ALGORITHM, REPLAY_METHOD)
    {
        return Err(Refusal::NotByNonce);
    }
    let kind = message[at + TYPE_AT];
    if !goes_with(kind, dhcp_message::message_type(message)) {
        return Err(Refusal::WrongType);
    }
    let counter = octets::big(
        message,
        at + dhcp_message::COUNTER_AT,
        dhcp_message::COUNTER_SIZE,
    );
    let from = at + VALUE_AT;
    let value = &message[from..from + NONCE_SIZE];
    if kind == GIVES_NONCE {
        return Ok(Shows::Gives {
            counter,
            nonce: Nonce { bytes: value },
        });
    }
    Ok(Shows::Orders {
        counter,
        mac: value,
    })
}
