// Says whether the id that it is started with has a row on the card in the file `book.card` of the current folder, and writes one line (verdict_line):
// docs/RULES.md, 'A known id'.
// The argument is judged before the card is looked at. The card is not changed.
// Here is what is done in which order; the card is read by program_files, and what the argument and the card mean is decided in known_verdict.
#![tactic(auto)]

ghost use Rattle.known.specs.Program.{SomeCard};

use key_book::{LentRoom, ROWS_MOST, SLOT_SIZE};
use program_files::FILE_ROOM;
use std::env::{Env, FillError};
use std::io;
use std::rt::Files;
use verdict_line::{LINE_MOST, Line};

// How many words the program was started with, its own name among them.
fn count_words(rt: &impl Env) -> usize {
    for i in 0..usize::MAX {
        let word = rt.arg(i, &mut []);
        if let Err(FillError::NotPresent) = word {
            return i;
        }
    }
    usize::MAX
}

// What the argument asks for. One that is missing, or longer than the room, is no id.
fn asked(rt: &impl Env) -> Option<u32> {
    let mut room = [0u8; FILE_ROOM];
    let size = rt.arg(1, &mut room).ok()?;
    known_verdict::read_argument(count_words(rt), size, &room)
}

// The line for what is asked for. The card is looked at only where that is an id.
fn asked_line<R: Files>(rt: &R, asked: Option<u32>) -> Line
    ensures { SomeCard asked result }
{
    let Some(id) = asked else {
        return Line::Unreadable;
    };
    // Arrays of a fixed size, since nothing is allocated; a `LentRoom` of them is given by no function (tools/promises.py).
    let mut ids = [0u32; ROWS_MOST];
    let mut lengths = [0u8; ROWS_MOST];
    let mut store = [0u8; ROWS_MOST * SLOT_SIZE];
    let mut marks = [0u8; ROWS_MOST];
    let mut received = [0u64; ROWS_MOST];
    let mut sent = [0u64; ROWS_MOST];
    let loaded = program_files::load_book(
        rt,
        &mut LentRoom {
            ids: &mut ids,
            lengths: &mut lengths,
            store: &mut store,
            marks: &mut marks,
            received: &mut received,
            sent: &mut sent,
        },
    );
    known_verdict::known_line(loaded, &ids, id)
}

fn main(rt: HostRuntime) -> io::Result<()> {
    let line = asked_line(&rt, asked(&rt));
    let mut out = [0u8; LINE_MOST];
    let size = verdict_line::write_line(&mut out, line);
    rt.write_all(&out[..size])
}
