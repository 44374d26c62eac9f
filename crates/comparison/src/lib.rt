// Two messages side by side: what differs between them, line by line, and whether it is only what a relay may change. docs/RULES.md, 'Two messages side by
// side'.
// Not here: reading the messages from files (compare_messages), and how a word and a number are written (verdict_line).
#![tactic(auto)]

ghost use Rattle.std.specs.Prelude.{◌≡◌, ◌≤◌, Ok, length};
ghost use Rattle.verdict_line.specs.Line.{PutAt};
ghost use Rattle.dhcp_message.specs.Shape.{shape_of};
ghost use Rattle.comparison.specs.Entry.{text_for, compare_of, room_compared};

use dhcp_message::Places;
use refusal::Refusal;

mod fields;
mod layout;
mod options;
mod relay;

// Any two messages' lines fit so many bytes.
pub const COMPARISON_MOST: usize = 18573;

// A message that passes 2 to 7, and where things stand in it.
#[derive(Clone, Copy)]
pub(crate) struct Message<'a> {
    pub bytes: &'a [u8],
    pub places: Places,
    ghost passes: { shape_of bytes.now ≡ Ok places },
}

// Whose options are gone through, in their order.
#[derive(Clone, Copy, Debug, PartialEq, Eq)]
pub(crate) enum Side {
    First,
    Second,
}

// Puts all lines of two messages at the front of a room that they fit, and returns their size.
fn put_lines(out: &mut [u8], first: Message, second: Message) -> usize
    requires { length (text_for first.bytes.now second.bytes.now) ≤ length out.old }
    ensures { PutAt out.old 0 (text_for first.entry.bytes.now second.entry.bytes.now) out.new result }
{
    let options_at = fields::put_fields(out, first, second);
    let added_at = options::put_options(out, options_at, Side::First, first, second);
    let layout_at = options::put_options(out, added_at, Side::Second, second, first);
    let last_at = layout::put_layout(out, layout_at, first, second);
    relay::put_last(out, last_at, first, second)
}

// Compares two messages, and writes the lines to the front of the lent room; later bytes stay as they were.
// Refused: with the first message's number of 2 to 7, else the second's, else where the lines are longer than the room. Then nothing is written.
// The lines are made in a room of their own and copied where they fit.
pub fn compare(first: &[u8], second: &[u8], out: &mut [u8]) -> Result<usize, Refusal>
    ensures answer { result ≡ compare_of first.now second.now (length out.old) }
    ensures content { out.new ≡ room_compared first.now second.now out.old }
{
    let one = Message {
        bytes: first,
        places: dhcp_message::shape_of(first)?,
    };
    let other = Message {
        bytes: second,
        places: dhcp_message::shape_of(second)?,
    };
    let mut made = [0u8; COMPARISON_MOST];
    let size = put_lines(&mut made, one, other);
    if out.len() < size {
        return Err(Refusal::NoRoomForReport);
    }
    octets::copy(&made[..size], out, 0);
    Ok(size)
}
