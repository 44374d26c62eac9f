// The options, in the order of one message's, by the other's: each is found again by its code and its occurrence.
ghost use Rattle.std.specs.Prelude.{◌≡◌, [], ◌+◌, ◌≤◌, ◌<◌, ◌^◌, suc, length};
ghost use Rattle.std.specs.Option.{option_copied};
ghost use Rattle.verdict_line.specs.Line.{PutAt};
ghost use Rattle.comparison.specs.Difference.{parts_of, body_at, said_of, options_differing, option_line, lines_of};

use crate::{Message, Side};
use dhcp_message::{Here, OPTION_HEAD, Options};

// How many codes a byte can be. A count for each stands in an array and no map: nothing is allocated.
const CODES: usize = 256;

// The body of the option of a code before which so many of that code stand, if there is one.
fn find<'a>(message: Message<'a>, code: u8, before: u64) -> Option<&'a [u8]>
    ensures { option_copied result ≡ body_at code before (parts_of message.entry.bytes.now).tokens }
{
    let mut left = before;
    for (at, here) in Options::new(message.bytes) {
        if let Here::Opt { code: other, size } = here {
            if other == code {
                if left == 0 {
                    return Some(&message.bytes[at + OPTION_HEAD..at + size]);
                }
                left -= 1;
            }
        }
    }
    None
}

// Puts the line of a word, a code and an occurrence at a place, and returns the place after it. No `Display`, here and for the other lines: its
// `output` would go by std's `decimal`, where the definitions go by verdict_line's.
fn put_option_line(out: &mut [u8], at: usize, word: &[u8], code: u8, occurrence: u64) -> usize
    requires { at + length (option_line word.now code occurrence) ≤ length out.old }
    ensures { PutAt out.old at (option_line word.now code occurrence) out.new result }
{
    let code_at = verdict_line::add_bytes(out, at, word);
    let space_at = verdict_line::add_decimal(out, code_at, code as u64);
    let occurrence_at = verdict_line::add_bytes(out, space_at, b" ");
    let end = verdict_line::add_decimal(out, occurrence_at, occurrence);
    verdict_line::add_bytes(out, end, b"\n")
}

// Puts what is said of an option of one side, whose body is given, by the body that was found in the other message. Which line it is goes by the side and by
// what was found at once, so it is a match and no writer that is handed in.
fn put_said(
    out: &mut [u8],
    at: usize,
    side: Side,
    code: u8,
    before: u64,
    body: &[u8],
    found: Option<&[u8]>,
) -> usize
    requires before_bound { before < 2 ^ 63 }
    requires found_in_bounds { at + length (lines_of (said_of side code (suc before) body.now (option_copied found))) ≤ length out.old }
    ensures { PutAt out.old at (lines_of (said_of side code (suc before) body.now (option_copied found.entry))) out.new result }
{
    match (side, found) {
        (Side::First, None) => put_option_line(out, at, b"missing ", code, before + 1),
        (Side::Second, None) => put_option_line(out, at, b"added ", code, before + 1),
        (Side::First, Some(other)) => {
            if octets::same(body, other) {
                return at;
            }
            put_option_line(out, at, b"altered ", code, before + 1)
        }
        (Side::Second, Some(_)) => at,
    }
}

// Puts what is said of the options of one side, in their order, by those of the other message.
pub(crate) fn put_options(
    out: &mut [u8],
    start: usize,
    side: Side,
    message: Message,
    other: Message,
) -> usize
    requires { start
        + length (lines_of (options_differing side [] (parts_of message.bytes.now).tokens (parts_of other.bytes.now).tokens))
        ≤ length out.old }
    ensures { PutAt
        out.old
        start
        (lines_of (options_differing side [] (parts_of message.entry.bytes.now).tokens (parts_of other.entry.bytes.now).tokens))
        out.new
        result }
{
    let mut counts = [0u64; CODES];
    let mut at = start;
    for (from, here) in Options::new(message.bytes) {
        if let Here::Opt { code, size } = here {
            let before = counts[code as usize];
            let found = find(other, code, before);
            let body = &message.bytes[from + OPTION_HEAD..from + size];
            at = put_said(out, at, side, code, before, body, found);
            counts[code as usize] = before + 1;
        }
    }
    at
}
