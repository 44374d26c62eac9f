// What a relay may change taken out of both messages, and the last line: whether anything else differs.
ghost use Rattle.std.specs.Prelude.{◌≡◌, ◌+◌, ◌≤◌, length};
ghost use Rattle.verdict_line.specs.Line.{PutAt};
ghost use Rattle.comparison.specs.Difference.{parts_of, stripped, relay_only, last_line};

use crate::Message;
use dhcp_message::{GIADDR_AT, GIADDR_SIZE, HOPS_AT, HOPS_SIZE, MESSAGE_MOST};

// Puts a message with hops and giaddr zero and option 82 taken out at the front of a room that is no shorter than the message, and returns its size.
fn strip(out: &mut [u8], message: Message) -> usize
    requires { length message.bytes.now ≤ length out.old }
    ensures { PutAt out.old 0 (stripped (parts_of message.entry.bytes.now)) out.new result × (result ≤ length out.old) }
{
    let bytes = message.bytes;
    let cut = message.places.cut;
    let gap = message.places.gap;
    octets::copy(&bytes[..cut], out, 0);
    octets::copy(&bytes[cut + gap..], out, cut);
    octets::clear(out, HOPS_AT, HOPS_SIZE);
    octets::clear(out, GIADDR_AT, GIADDR_SIZE);
    bytes.len() - gap
}

// Whether two messages differ in nothing but what a relay may change.
fn relay_only(first: Message, second: Message) -> bool
    ensures { result ≡ relay_only (parts_of first.entry.bytes.now) (parts_of second.entry.bytes.now) }
{
    let mut one = [0u8; MESSAGE_MOST];
    let mut other = [0u8; MESSAGE_MOST];
    let size = strip(&mut one, first);
    let other_size = strip(&mut other, second);
    octets::same(&one[..size], &other[..other_size])
}

// Puts the last line at a place, and returns the place after it.
pub(crate) fn put_last(out: &mut [u8], at: usize, first: Message, second: Message) -> usize
    requires { at + length (last_line (relay_only (parts_of first.bytes.now) (parts_of second.bytes.now))) ≤ length out.old }
    ensures { PutAt out.old at (last_line (relay_only (parts_of first.entry.bytes.now) (parts_of second.entry.bytes.now))) out.new result }
{
    if relay_only(first, second) {
        return verdict_line::add_bytes(out, at, b"relay only\n");
    }
    verdict_line::add_bytes(out, at, b"covered bytes differ\n")
}
