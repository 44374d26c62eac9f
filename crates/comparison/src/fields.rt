// The fields of the header (RFC 2131, section 2): the names of those that differ.
ghost use Rattle.std.specs.Prelude.{◌≤◌, length, take};
ghost use Rattle.verdict_line.specs.Line.{PutAt};
ghost use Rattle.dhcp_message.specs.Layout.{header_size};
ghost use Rattle.comparison.specs.Fields.{fields};
ghost use Rattle.comparison.specs.Difference.{fields_differing, lines_of};

use crate::Message;
use dhcp_message::{GIADDR_AT, GIADDR_SIZE, HOPS_AT, HOPS_SIZE};

// Each field: its first byte, how many it has, and its line.
const FIELDS: [(usize, usize, &[u8]); 14] = [
    (0, 1, b"op\n"),
    (1, 1, b"htype\n"),
    (2, 1, b"hlen\n"),
    (HOPS_AT, HOPS_SIZE, b"hops\n"),
    (4, 4, b"xid\n"),
    (8, 2, b"secs\n"),
    (10, 2, b"flags\n"),
    (12, 4, b"ciaddr\n"),
    (16, 4, b"yiaddr\n"),
    (20, 4, b"siaddr\n"),
    (GIADDR_AT, GIADDR_SIZE, b"giaddr\n"),
    (28, 16, b"chaddr\n"),
    (44, 64, b"sname\n"),
    (108, 128, b"file\n"),
];

// Puts the line of each field that differs at the room's front, and returns the place after them.
pub(crate) fn put_fields(out: &mut [u8], first: Message, second: Message) -> usize
    requires { length (lines_of (fields_differing fields (take header_size first.bytes.now) (take header_size second.bytes.now))) ≤ length out.old }
    ensures { PutAt
        out.old
        0
        (lines_of (fields_differing fields (take header_size first.entry.bytes.now) (take header_size second.entry.bytes.now)))
        out.new
        result }
{
    let mut at: usize = 0;
    for &(from, size, line) in &FIELDS {
        let to = from + size;
        if !octets::same(&first.bytes[from..to], &second.bytes[from..to]) {
            at = verdict_line::add_bytes(out, at, line);
        }
    }
    at
}
