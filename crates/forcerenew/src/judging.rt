// The judgement: 1, 2 to 7, 10, 19, 20, 21, 11, 12, and what is then stored. docs/RULES.md, 'FORCERENEW by nonce'; RFC 6704, section 3.1.
ghost use Rattle.std.specs.Prelude.{◌≡◌, ◌+◌, ◌≤◌, ◌<◌, IfOk, length, get_or};
ghost use Rattle.hmac_md5.specs.Hmac.{hmac};
ghost use Rattle.dhcp_message.specs.Layout.{message_most, option_head, length_at};
ghost use Rattle.forcerenew.specs.Layout.{nonce_option};
ghost use Rattle.forcerenew.specs.Rows.{servers_of, SoundRows};
ghost use Rattle.forcerenew.specs.Lent.{servers_in, server_in};
ghost use Rattle.forcerenew.specs.Shown.{image_at, shown_at, orders};
ghost use Rattle.forcerenew.specs.Judging.{given, known_to, judged_row, judge_of, judged_of, nonces_after, counters_after, row_marks_after};
ghost use Rattle.forcerenew.specs.Plans.{planned_as};

use crate::layout::{GIVES_NONCE, NONCE_SIZE, ORDERS_RENEWAL, VALUE_AT};
use crate::rows::{HEARD, LentServer, LentServers, NONE_YET, NOT_HEARD};
use crate::shown::shown_at;
use crate::{Heeded, Nonce, Plan, Shows};
use refusal::Refusal;

// The MAC of a FORCERENEW under a nonce: over the message with the MAC zero and nothing else altered. Hops and giaddr are covered as they stand, and so is
// an option 82, unlike delayed authentication's image. The copy has a room of its own, of a fixed size: nothing is allocated.
// That the message is no longer than the room stands in three contracts: a type for it would be made in `planned` and read here alone.
#[tactic(auto, using(crate::proofs::Leaves::mac_taken))]
fn mac_of(nonce: Nonce, message: &[u8], at: usize) -> [u8; NONCE_SIZE]
    requires { (length message.now ≤ message_most) × (at + nonce_option ≤ length message.now) }
    ensures { result ≡ hmac nonce.entry.bytes.now (image_at message.now at) }
{
    let mut room = [0u8; dhcp_message::MESSAGE_MOST];
    let image = &mut room[..message.len()];
    image.copy_from_slice(message);
    octets::clear(image, at + VALUE_AT, NONCE_SIZE);
    hmac_md5::hmac(nonce.bytes, image).unwrap()
}

// A nonce that is given: whether the row has it already. The row's counter is not looked at.
fn given_nonce<'m>(server: LentServer, counter: u64, nonce: Nonce<'m>) -> Result<Plan<'m>, Refusal>
    ensures { planned_as result ≡ given counter nonce.entry.bytes.now (known_to (server_in server.entry) nonce.entry.bytes.now) }
{
    if server.mark != NONE_YET && octets::same(nonce.bytes, server.nonce.bytes) {
        return Ok(Plan::Knows { counter });
    }
    Ok(Plan::Takes { counter, nonce })
}

// An order to renew: 21, 11, 12. The counter is looked at before the MAC is computed, as in a check.
fn ordered_renewal<'m>(
    server: LentServer,
    counter: u64,
    mac: &[u8],
    message: &'m [u8],
    at: usize,
) -> Result<Plan<'m>, Refusal>
    requires { (length message.now ≤ message_most) × (at + nonce_option ≤ length message.now) }
    ensures { planned_as result ≡ judged_row (server_in server.entry) (orders counter mac.now (image_at message.now at)) }
{
    if server.mark == NONE_YET {
        return Err(Refusal::NoNonce);
    }
    if !dhcp_message::is_new(server.mark == HEARD, server.counter, counter) {
        return Err(Refusal::Replay);
    }
    if !octets::same(mac, &mac_of(server.nonce, message, at)) {
        return Err(Refusal::WrongMac);
    }
    Ok(Plan::Renews { counter })
}

// From 19 on in the order, for a row that is there and an option 90 that is whole.
fn planned_at<'m>(server: LentServer, message: &'m [u8], at: usize) -> Result<Plan<'m>, Refusal>
    requires { (length message.now ≤ message_most) × (at + option_head + get_or message.now (at + length_at) 0 ≤ length message.now) }
    ensures { planned_as result ≡ judged_row (server_in server.entry) (shown_at message.now at) }
{
    match shown_at(message, at)? {
        Shows::Gives { counter, nonce } => given_nonce(server, counter, nonce),
        Shows::Orders { counter, mac } => ordered_renewal(server, counter, mac, message, at),
    }
}

// The whole order, nothing stored.
#[tactic(auto, using(crate::proofs::Cases::planned_laws), unfolding(crate::specs::Judging::judge_of, crate::specs::Shown::shown_of))]
fn planned<'m>(servers: LentServers, row: usize, message: &'m [u8]) -> Result<Plan<'m>, Refusal>
    ensures planned { planned_as result ≡ judge_of (servers_in servers.entry) row message.now }
    ensures room { IfOk result (λ plan. SoundRows (servers_in servers.entry) × (row < length servers.entry.marks.now)) }
{
    if !servers.is_sound() {
        return Err(Refusal::UnsoundBook);
    }
    let places = dhcp_message::shape_of(message)?;
    if servers.marks.len() <= row {
        return Err(Refusal::UnknownSecret);
    }
    planned_at(servers.row(row), message, places.at)
}

// Judges a message from the server of a row, and where it is accepted stores its nonce, or its counter, and the row's mark.
pub fn judge(
    nonces: &mut [u8],
    counters: &mut [u64],
    marks: &mut [u8],
    row: usize,
    message: &[u8],
) -> Result<Heeded, Refusal>
    ensures answer { let s = servers_of nonces.old counters.old marks.old in
        result ≡ judged_of (judge_of s row message.now) }
    ensures nonces { let s = servers_of nonces.old counters.old marks.old in
        nonces.new ≡ nonces_after row (judge_of s row message.now) nonces.old }
    ensures counters { let s = servers_of nonces.old counters.old marks.old in
        counters.new ≡ counters_after row (judge_of s row message.now) counters.old }
    ensures marks { let s = servers_of nonces.old counters.old marks.old in
        marks.new ≡ row_marks_after row (judge_of s row message.now) marks.old }
{
    let servers = LentServers {
        nonces: &*nonces,
        counters: &*counters,
        marks: &*marks,
    };
    let plan = planned(servers, row, message)?;
    match plan {
        Plan::Takes { counter, nonce } => {
            octets::copy(nonce.bytes, nonces, NONCE_SIZE * row);
            counters[row] = 0;
            marks[row] = NOT_HEARD;
            Ok(Heeded {
                kind: GIVES_NONCE,
                counter,
            })
        }
        Plan::Knows { counter } => Ok(Heeded {
            kind: GIVES_NONCE,
            counter,
        }),
        Plan::Renews { counter } => {
            counters[row] = counter;
            marks[row] = HEARD;
            Ok(Heeded {
                kind: ORDERS_RENEWAL,
                counter,
            })
        }
    }
}
