// From the argument and the bytes of `book.card` to the line that the program `known` writes: docs/RULES.md, 'A known id'.
// The argument is judged first (`read_argument`); the card is file_verdict's (`load_card`), and in the rows that it gives the id is sought (`known_line`).
// Not here: taking the argument and reading the file (known, program_files), and the line's bytes (verdict_line).
#![tactic(auto)]

ghost use Rattle.std.specs.Prelude.{◌≡◌};
ghost use Rattle.known_verdict.specs.Argument.{id_in, argument_in, argument_of};
ghost use Rattle.known_verdict.specs.Asked.{sought_line, id_line};

use key_book::Sought;
use refusal::Refusal;
use verdict_line::{DIGIT_ZERO, Line};

// The last of the digits, the character 9.
const DIGIT_NINE: u8 = b'9';

// How many words a program is started with that has one argument: its own name is the first.
const WORDS_WANTED: usize = 2;

// Every id is below this.
const IDS_LIMIT: u64 = 4294967296;

// Reads an id in decimal: one or more digits, zeros in front among them, and nothing else. It ends where the limit is reached, so that nothing wraps,
// however long the text is. No `parse`: it is of a `str`, so the whole text would be read before any of it is judged; its digits and its limit stand in no
// constant here; and it takes a plus sign in front.
#[tactic(auto, using(crate::proofs::Scanning::turns))]
fn read_id(text: &[u8]) -> Option<u32>
    ensures { result ≡ id_in text.now }
{
    if text.is_empty() {
        return None;
    }
    let mut id: u64 = 0;
    for &c in text {
        if c < DIGIT_ZERO || DIGIT_NINE < c {
            return None;
        }
        id = id * 10 + (c - DIGIT_ZERO) as u64;
        if IDS_LIMIT <= id {
            return None;
        }
    }
    Some(id as u32)
}

// What the only argument asks for, where the program was started with so many words and so many bytes of the argument stand at the room's front. A size and a
// room, and no slice: a size past the room's end is answered too.
pub fn read_argument(words: usize, size: usize, room: &[u8]) -> Option<u32>
    ensures { result ≡ argument_of (argument_in words size room.now) }
{
    if words != WORDS_WANTED {
        return None;
    }
    read_id(room.get(..size)?)
}

// The line for what the search comes to. No `From`: both types are of other crates.
fn sought_line(sought: Sought) -> Line
    ensures { result ≡ sought_line sought }
{
    match sought {
        Sought::Stands(row, _) => Line::Known(row),
        Sought::Missing(_) => Line::Unknown,
        Sought::Unsized => Line::Refused(Refusal::UnsoundBook),
    }
}

// The line for an id, from what the card gave and the ids that were loaded from it: where the card stopped, its line; else whether one of its rows has the
// id, which is sought by halving.
pub fn known_line(loaded: Result<usize, Line>, ids: &[u32], id: u32) -> Line
    ensures { result ≡ id_line id ids.now loaded }
{
    match loaded {
        Err(line) => line,
        Ok(rows) => sought_line(key_book::known(ids, rows, id)),
    }
}
