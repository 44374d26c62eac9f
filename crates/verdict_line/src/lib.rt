// The lines that the programs write, newline included: docs/RULES.md, 'The program', 'A known id', 'A recording' and 'Two files side by side'.
//   accepted row R counter C
//   refused N
//   unreadable
//   skipped
//   cut
//   known row R
//   unknown
// Those of a recording's records have the record's number and a space in front. Numbers are decimal, without leading zeros.
// The writers of bytes and digits (`add_bytes`, `add_decimal`) are also for other crates' lines: comparison makes its own with them.
// Not here: reading the files and judging what they hold.
#![tactic(auto)]

ghost use Rattle.std.specs.Prelude.{◌≡◌, ◌+◌, ◌≤◌, length};
ghost use Rattle.verdict_line.specs.Decimal.{decimal};
ghost use Rattle.verdict_line.specs.Line.{line_most, numbered_most, word_most, accepted_line, worded_line, line_of, numbered_line};
ghost use Rattle.verdict_line.specs.Line.{PutAt, Made, place_with, out_with, size_in, out_after};

use refusal::Refusal;

// The bytes of the longest line, with a row and a counter of twenty digits each.
pub const LINE_MOST: usize = 63;

// The same with a number of twenty digits and a space in front.
pub const NUMBERED_MOST: usize = 84;

// The most digits that a number of 64 bits has.
const DIGITS_MOST: usize = 20;

// The character 0; the other digits follow it.
pub const DIGIT_ZERO: u8 = b'0';

// What a line says.
#[derive(Clone, Copy, Debug, PartialEq, Eq)]
pub enum Line {
    // The message is accepted: its row and its counter.
    Accepted(usize, u64),
    // The card or the message is refused.
    Refused(Refusal),
    // A file is missing, can't be read or is too large, a recording is no capture that is judged, or an argument is no id.
    Unreadable,
    // A recording's record carries nothing to judge.
    Skipped,
    // A recording ends inside a record, a record is too large, or a read failed.
    Cut,
    // The card has the id that was asked for: its row.
    Known(usize),
    // It has no such row.
    Unknown,
}

// Copies bytes to a place, and returns the place after them. Here and below the place goes from call to call as a number: a writer that holds room and place
// would have to say in the clause of each of its methods what it leaves of the lent room.
fn put(out: &mut [u8], at: usize, bytes: &[u8]) -> usize
    requires { at + length bytes.now ≤ length out.old }
    ensures { PutAt out.old at bytes.now out.new result }
{
    octets::copy(bytes, out, at);
    at + bytes.len()
}

// Writes a number's digits at a place, and returns the place after them. By hand: the crate `itoa` goes by std's `decimal`,
// and a law more would have to say that it is that of specs/Decimal; and the must-fail edit digits_reversed is of this text.
fn put_decimal(out: &mut [u8], at: usize, x: u64) -> usize
    requires { at + length (decimal x) ≤ length out.old }
    ensures { PutAt out.old at (decimal x) out.new result }
{
    if x < 10 {
        out[at] = DIGIT_ZERO + x as u8;
        return at + 1;
    }
    let last = put_decimal(out, at, x / 10);
    out[last] = DIGIT_ZERO + (x % 10) as u8;
    last + 1
}

// Writes bytes at a place of the lent room and returns the place after them. Where they don't fit behind that place it writes nothing and returns the place as
// it was.
pub fn add_bytes(out: &mut [u8], at: usize, bytes: &[u8]) -> usize
    ensures place { result ≡ place_with at bytes.now (length out.old) }
    ensures content { out.new ≡ out_with at bytes.now out.old }
{
    if out.len() < at || out.len() - at < bytes.len() {
        return at;
    }
    put(out, at, bytes)
}

// The same for a number's digits, made in a room of their own: nothing is allocated.
pub fn add_decimal(out: &mut [u8], at: usize, x: u64) -> usize
    ensures place { result ≡ place_with at (decimal x) (length out.old) }
    ensures content { out.new ≡ out_with at (decimal x) out.old }
{
    let mut digits = [0u8; DIGITS_MOST];
    let size = put_decimal(&mut digits, 0, x);
    add_bytes(out, at, &digits[..size])
}

// Puts the line of an accepted message at a place behind which there is room for any line, and returns the place after it.
fn put_accepted(out: &mut [u8], at: usize, row: u64, counter: u64) -> usize
    requires { at + line_most ≤ length out.old }
    ensures { Made out.old at (accepted_line row counter) out.new result }
{
    let row_at = put(out, at, b"accepted row ");
    let word_at = put_decimal(out, row_at, row);
    let counter_at = put(out, word_at, b" counter ");
    let end = put_decimal(out, counter_at, counter);
    put(out, end, b"\n")
}

// The same for a word and a number.
fn put_worded(out: &mut [u8], at: usize, word: &[u8], number: u64) -> usize
    requires line_most_in_bounds { at + line_most ≤ length out.old }
    requires word_len_bound { length word.now ≤ word_most }
    ensures { Made out.old at (worded_line word.now number) out.new result }
{
    let number_at = put(out, at, word);
    let end = put_decimal(out, number_at, number);
    put(out, end, b"\n")
}

// The same for any line.
fn put_line(out: &mut [u8], at: usize, line: Line) -> usize
    requires { at + line_most ≤ length out.old }
    ensures { Made out.old at (line_of line) out.new result }
{
    match line {
        Line::Accepted(row, counter) => put_accepted(out, at, row as u64, counter),
        Line::Refused(refusal) => put_worded(out, at, b"refused ", refusal::number(refusal) as u64),
        Line::Unreadable => put(out, at, b"unreadable\n"),
        Line::Skipped => put(out, at, b"skipped\n"),
        Line::Cut => put(out, at, b"cut\n"),
        Line::Known(row) => put_worded(out, at, b"known row ", row as u64),
        Line::Unknown => put(out, at, b"unknown\n"),
    }
}

// Puts a line with a number and a space in front of it at the front of a room that any such line fits, and returns its size.
fn put_numbered(out: &mut [u8], number: u64, line: Line) -> usize
    requires { numbered_most ≤ length out.old }
    ensures { PutAt out.old 0 (numbered_line number line) out.new result × (result ≤ numbered_most) }
{
    let end = put_decimal(out, 0, number);
    let at = put(out, end, b" ");
    put_line(out, at, line)
}

// Copies a made line to the front of the lent room where it fits, and returns how many bytes it wrote: its size, or 0.
fn put_made(out: &mut [u8], made: &[u8]) -> usize
    ensures size { result ≡ size_in made.now (length out.old) }
    ensures content { out.new ≡ out_after made.now out.old }
{
    if out.len() < made.len() {
        return 0;
    }
    put(out, 0, made)
}

// Writes a line to the front of the lent room and returns how many bytes it wrote: the line's size. Later bytes stay as they were.
// Where the room is too small it writes nothing, so that is 0; LINE_MOST bytes are enough for every line. No `Display`: its `output` would go by std's
// `decimal`, as `put_decimal` says, and the must-fail edits known_without_row and skipped_misspelt are of `put_line`.
pub fn write_line(out: &mut [u8], line: Line) -> usize
    ensures size { result ≡ size_in (line_of line) (length out.old) }
    ensures content { out.new ≡ out_after (line_of line) out.old }
    ensures whole { line_most ≤ length out.old → result ≡ length (line_of line) }
{
    let mut made = [0u8; LINE_MOST];
    let size = put_line(&mut made, 0, line);
    put_made(out, &made[..size])
}

// The same for a line with a number and a space in front; NUMBERED_MOST bytes are enough for every number and line. One function over the writer, for both,
// would have to repeat in its clause what either writer promises.
pub fn write_numbered(out: &mut [u8], number: u64, line: Line) -> usize
    ensures size { result ≡ size_in (numbered_line number line) (length out.old) }
    ensures content { out.new ≡ out_after (numbered_line number line) out.old }
    ensures whole { numbered_most ≤ length out.old → result ≡ length (numbered_line number line) }
{
    let mut made = [0u8; NUMBERED_MOST];
    let size = put_numbered(&mut made, number, line);
    put_made(out, &made[..size])
}
