// From the bytes of `book.card` and `message.bin` to the line that the program `judge` writes: docs/RULES.md, 'The program'.
// The card is judged first (`load_card`), and only where it gives rows is there a message to judge (`message_line`). The card, and the line for what a
// check said (`line_of`), are those of the program `judge_capture` too; which files may be judged (`within_limit`) is the same for the
// messages of `compare_messages`.
// Not here: opening and reading the files (program_files), and the line's bytes (verdict_line).
#![tactic(auto)]

ghost use Rattle.std.specs.Prelude.{◌≡◌};
ghost use Rattle.key_book.specs.Book.{book_of};
ghost use Rattle.key_book.specs.Lent.{room_in, SameRoom};
ghost use Rattle.file_verdict.specs.Files.{file_in, readable, content_of, loaded_of, rows_loaded, book_loaded, verdict_line, message_line};
ghost use Rattle.file_verdict.specs.Files.{marks_left, received_left, after_read};

use delayed_auth::Accepted;
use key_book::LentRoom;
use refusal::Refusal;
use verdict_line::Line;

// The most bytes that a file may have.
pub const FILE_MOST: usize = 65535;

// How far the reading of a file is.
#[derive(Clone, Copy, Debug, PartialEq, Eq)]
pub enum Progress {
    // It has ended, and the file holds so many bytes, which are at the front of the room that was lent for them; or nothing that can be judged, since it is
    // missing, can't be read or is too large.
    Ended(Option<usize>),
    // So many bytes have been read, and there may be more.
    More(usize),
}

// What one read means, where `have` bytes had been read before into a room of so many: it gave so many bytes, or it failed.
// A read that failed, or that answers more than it had room for, leaves the file unreadable; 0 is the file's end.
#[tactic(auto, unfolding(crate::specs::Files::after_read))]
pub fn after_read(got: Option<usize>, have: usize, room: usize) -> Progress
    ensures { result ≡ after_read have room got }
{
    match got {
        None => Progress::Ended(None),
        Some(0) => Progress::Ended(Some(have)),
        Some(more) if more <= room.saturating_sub(have) => Progress::More(have + more),
        Some(_) => Progress::Ended(None),
    }
}

// What a file holds, where the room can hold it and it is not above the limit: so many bytes at the front of the room may be judged. A size beside the room,
// here and below, and no slice: a size past the room's end is answered too.
// A match and no `filter`: the check finds no proof of a closure that makes two tests.
#[tactic(auto, unfolding(crate::specs::Files::readable, crate::specs::Files::file_in))]
pub fn within_limit(content: Option<usize>, room: &[u8]) -> Option<usize>
    ensures { result ≡ content_of (readable (file_in room.now content)) }
{
    match content {
        Some(size) if size <= room.len() && size <= FILE_MOST => Some(size),
        _ => None,
    }
}

// Judges the card, and reads it into the lent book where it is one. A card that can't be read or is refused changes nothing lent.
pub fn load_card(content: Option<usize>, room: &[u8], book: &mut LentRoom) -> Result<usize, Line>
    ensures same { SameRoom book.old book.new }
    ensures answer { result ≡ loaded_of (room_in book.old 0) (file_in room.now content) }
    ensures after { room_in book.new (rows_loaded result) ≡ book_loaded (room_in book.old 0) (file_in room.now content) }
{
    let size = within_limit(content, room).ok_or(Line::Unreadable)?;
    // By cases and no `map_err`: each is a line that an edit of must-fail/ changes by itself.
    match book_card::card_read(&room[..size], book) {
        Ok(rows) => Ok(rows),
        Err(refusal) => Err(Line::Refused(refusal)),
    }
}

// The line for what a check said. No `From`: both types are of other crates.
pub fn line_of(verdict: Result<Accepted, Refusal>) -> Line
    ensures { result ≡ verdict_line verdict }
{
    match verdict {
        Ok(Accepted { row, counter }) => Line::Accepted(row, counter),
        Err(refusal) => Line::Refused(refusal),
    }
}

// The line for a message, which is checked by the lent book: its lists come one by one, as `check` takes them, which it lends them on to.
pub fn message_line(
    content: Option<usize>,
    room: &[u8],
    ids: &[u32],
    lengths: &[u8],
    store: &[u8],
    marks: &mut [u8],
    received: &mut [u64],
    sent: &[u64],
    rows: usize,
) -> Line
    ensures answer { let b = book_of ids.now lengths.now store.now marks.old received.old sent.now rows in
        result ≡ message_line b (file_in room.now content) }
    ensures marked { let b = book_of ids.now lengths.now store.now marks.old received.old sent.now rows in
        marks.new ≡ marks_left b (file_in room.now content) }
    ensures stored { let b = book_of ids.now lengths.now store.now marks.old received.old sent.now rows in
        received.new ≡ received_left b (file_in room.now content) }
{
    let Some(size) = within_limit(content, room) else {
        return Line::Unreadable;
    };
    let verdict = delayed_auth::check(
        ids,
        lengths,
        store,
        marks,
        received,
        sent,
        rows,
        &room[..size],
    );
    line_of(verdict)
}
