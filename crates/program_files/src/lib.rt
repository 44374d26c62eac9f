// What the programs read: a file of the current folder, read into a lent room, and the key book from its card, the file `book.card`.
// What a read gives no contract can say. So these functions promise how their answer lies in the room, that a room keeps its length and what was read
// before, and that the book is the one of some card.
// Not here: what the bytes mean (file_verdict), and what the programs write.
#![tactic(auto)]

ghost use Rattle.std.specs.Prelude.{◌≡◌, length, take};
ghost use Rattle.key_book.specs.Lent.{room_in, SameRoom};
ghost use Rattle.file_verdict.specs.Files.{EndSeen, rows_loaded};
ghost use Rattle.program_files.specs.Reads.{ReadMeans, CardLoaded};

use file_verdict::{FILE_MOST, Progress};
use key_book::LentRoom;
use std::fs::File;
use std::io::Read;
use std::rt::Files;
use std::str;
use verdict_line::Line;

// The room for a file: a byte more than a file may have, so that one byte too many is seen.
pub const FILE_ROOM: usize = FILE_MOST + 1;

// Reads once, behind the bytes that the room has already, which stay as they are. A room that is full gets no more.
#[tactic(auto, using(crate::proofs::Turns::room_full))]
pub fn read_more<F: Read>(file: &mut F, room: &mut [u8], have: usize) -> Progress
    ensures kept { take have room.new ≡ take have room.old }
    ensures long { length room.new ≡ length room.old }
    ensures meant { ReadMeans have (length room.old) result }
{
    if room.len() <= have {
        return Progress::Ended(None);
    }
    let got = file.read(&mut room[have..]).ok();
    file_verdict::after_read(got, have, room.len())
}

// Reads to the end of an open file. A room that is full when the end has not been seen is too small. judge_capture's `fill` stands apart: it stops where it has
// enough, and what it answers says which of both it was.
fn read_open<F: Read>(file: &mut F, room: &mut [u8]) -> Option<usize>
    ensures seen { EndSeen (length room.old) result }
    ensures long { length room.new ≡ length room.old }
{
    // No `for`: each read says how far it goes on.
    let mut have: usize = 0;
    while have < room.len() {
        match read_more(file, room, have) {
            Progress::Ended(content) => return content,
            Progress::More(size) => have = size,
        }
    }
    None
}

// Opens a file of the current folder. A name that isn't UTF-8 names none that can be opened; a `&str` would ask more of who names it.
fn open_file<R: Files>(rt: &R, name: &[u8]) -> Option<R::File> {
    let name = str::from_utf8(name).ok()?;
    File::open(rt, name).ok()
}

// Reads a file of the current folder to the front of the room. It answers a size and no slice, as `within_limit` of file_verdict takes it beside the room.
pub fn read_file<R: Files>(rt: &R, name: &[u8], room: &mut [u8]) -> Option<usize>
    ensures seen { EndSeen (length room.old) result }
    ensures long { length room.new ≡ length room.old }
{
    let mut file = open_file(rt, name)?;
    read_open(&mut file, room)
}

// Reads the card and loads the lent book from it. A card that can't be read or is refused changes nothing lent.
pub fn load_book<R: Files>(rt: &R, room: &mut LentRoom) -> Result<usize, Line>
    ensures same { SameRoom room.old room.new }
    ensures loaded { CardLoaded (room_in room.old 0) (room_in room.new (rows_loaded result)) result }
{
    let mut card = [0u8; FILE_ROOM];
    let content = read_file(rt, b"book.card", &mut card);
    file_verdict::load_card(content, &card, room)
}
