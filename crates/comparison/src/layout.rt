// The layout: the codes of a message in their order, those of pads and End among them, and the bytes after End.
ghost use Rattle.std.specs.Prelude.{◌≡◌, ◌+◌, ◌≤◌, length};
ghost use Rattle.verdict_line.specs.Line.{PutAt};
ghost use Rattle.comparison.specs.Difference.{parts_of, same_layout, layout_differing, lines_of};
ghost use Rattle.comparison.specs.Walk.{layout_bytes};

use crate::Message;
use dhcp_message::{Here, MESSAGE_MOST, Options, PAD};

// Puts a message's layout at the front of a room that is no shorter than the message, and returns its size.
fn layout_of(out: &mut [u8], message: Message) -> usize
    requires { length message.bytes.now ≤ length out.old }
    ensures { PutAt out.old 0 (layout_bytes (parts_of message.entry.bytes.now)) out.new result × (result ≤ length out.old) }
{
    let bytes = message.bytes;
    let mut at: usize = 0;
    for (from, here) in Options::new(bytes) {
        match here {
            Here::Opt { code, size: _ } => {
                out[at] = code;
                at += 1;
            }
            Here::Pad => {
                out[at] = PAD;
                at += 1;
            }
            Here::End => {
                octets::copy(&bytes[from..], out, at);
                return at + (bytes.len() - from);
            }
            // None is given.
            Here::Broken => {}
        }
    }
    at
}

// Whether two messages have the same layout. One function over the writer, for this and relay::relay_only, would be no plainer: its clause would have to
// repeat what either writer promises.
fn same_layout(first: Message, second: Message) -> bool
    ensures { result ≡ same_layout (parts_of first.entry.bytes.now) (parts_of second.entry.bytes.now) }
{
    let mut one = [0u8; MESSAGE_MOST];
    let mut other = [0u8; MESSAGE_MOST];
    let size = layout_of(&mut one, first);
    let other_size = layout_of(&mut other, second);
    octets::same(&one[..size], &other[..other_size])
}

// Puts the line of a layout that differs at a place, and returns the place after it.
pub(crate) fn put_layout(out: &mut [u8], at: usize, first: Message, second: Message) -> usize
    requires { at + length (lines_of (layout_differing (parts_of first.bytes.now) (parts_of second.bytes.now))) ≤ length out.old }
    ensures { PutAt
        out.old
        at
        (lines_of (layout_differing (parts_of first.entry.bytes.now) (parts_of second.entry.bytes.now)))
        out.new
        result }
{
    if same_layout(first, second) {
        return at;
    }
    verdict_line::add_bytes(out, at, b"layout\n")
}
