// Judges the message in the file `message.bin` by the key book on the card in the file `book.card`, both in the current folder, and writes one line
// (verdict_line): docs/RULES.md, 'The program'.
// The card is judged before the message file is looked at. Neither file is changed: what an accepted message stores is not written back.
// Here is what is done in which order; the reads are program_files', and what the files' bytes mean is decided in file_verdict.
#![tactic(auto)]

ghost use Rattle.key_book.specs.Book.{book_of};
ghost use Rattle.file_verdict.specs.Files.{rows_loaded};
ghost use Rattle.judge.specs.Program.{CardLine};

use key_book::{LentRoom, ROWS_MOST, SLOT_SIZE};
use program_files::FILE_ROOM;
use std::io;
use std::rt::Files;
use verdict_line::{LINE_MOST, Line};

// The line, from what the card gave and the book that was loaded from it. The message file is looked at only where there are rows. The lists come one by one,
// as a check takes them.
fn loaded_line<R: Files>(
    rt: &R,
    loaded: Result<usize, Line>,
    ids: &[u32],
    lengths: &[u8],
    store: &[u8],
    marks: &mut [u8],
    received: &mut [u64],
    sent: &[u64],
) -> Line
    ensures { let b =
        book_of ids.now lengths.now store.now marks.old received.old sent.now
        (rows_loaded loaded) in
        CardLine loaded b result }
{
    match loaded {
        Err(line) => line,
        Ok(rows) => {
            let mut room = [0u8; FILE_ROOM];
            let message = program_files::read_file(rt, b"message.bin", &mut room);
            file_verdict::message_line(
                message, &room, ids, lengths, store, marks, received, sent, rows,
            )
        }
    }
}

fn main(rt: HostRuntime) -> io::Result<()> {
    // Arrays of a fixed size, since nothing is allocated; a `LentRoom` of them is given by no function (tools/promises.py).
    let mut ids = [0u32; ROWS_MOST];
    let mut lengths = [0u8; ROWS_MOST];
    let mut store = [0u8; ROWS_MOST * SLOT_SIZE];
    let mut marks = [0u8; ROWS_MOST];
    let mut received = [0u64; ROWS_MOST];
    let mut sent = [0u64; ROWS_MOST];
    let loaded = program_files::load_book(
        &rt,
        &mut LentRoom {
            ids: &mut ids,
            lengths: &mut lengths,
            store: &mut store,
            marks: &mut marks,
            received: &mut received,
            sent: &mut sent,
        },
    );
    let line = loaded_line(
        &rt,
        loaded,
        &ids,
        &lengths,
        &store,
        &mut marks,
        &mut received,
        &sent,
    );
    let mut out = [0u8; LINE_MOST];
    let size = verdict_line::write_line(&mut out, line);
    rt.write_all(&out[..size])
}
