// Reading a card into a lent book: the whole card is judged first (`reader`), then the rows are set one by one.
ghost use Rattle.std.specs.Prelude.{◌≡◌, ◌≤◌, length};
ghost use Rattle.key_book.specs.Limits.{slot_size};
ghost use Rattle.key_book.specs.Book.{Sized};
ghost use Rattle.key_book.specs.Lent.{room_in, SameRoom};
ghost use Rattle.key_book.specs.Laws.{Within};
ghost use Rattle.book_card.specs.Lent.{row_lent};
ghost use Rattle.book_card.specs.Reading.{read_of, read_book, rows_in, set_row, put_row, loaded, rows_given};

use crate::reader::{count_rows, form_in};
use crate::{GoodCard, LentRow, Rows};
use key_book::{LentRoom, SLOT_SIZE};
use refusal::Refusal;

// Sets a row of a book. The slot is filled with zeros after the key.
fn set_row(row: LentRow, place: usize, room: &mut LentRoom)
    requires within { Within (room_in room.old 0) place }
    requires key_len_bound { length row.key.now ≤ slot_size }
    ensures same { SameRoom room.old room.new }
    ensures rows { room_in room.new 0 ≡ set_row (room_in room.old 0) place (row_lent row.entry) }
{
    room.ids[place] = row.id;
    room.lengths[place] = row.key.len() as u8;
    room.marks[place] = row.mark;
    room.received[place] = row.received;
    room.sent[place] = row.sent;
    let slot = SLOT_SIZE * place;
    octets::copy(row.key, room.store, slot);
    octets::clear(room.store, slot + row.key.len(), SLOT_SIZE - row.key.len());
}

// Sets a row of a book where it has its place: nothing is changed where the sizes disagree, there is no room for the row, or the key is longer than a slot.
pub fn put_row(row: LentRow, place: usize, room: &mut LentRoom)
    ensures same { SameRoom room.old room.new }
    ensures rows { room_in room.new 0 ≡ put_row (room_in room.old 0) place (row_lent row.entry) }
{
    if !room.sizes_agree() {
        return;
    }
    if room.ids.len() <= place {
        return;
    }
    if SLOT_SIZE < row.key.len() {
        return;
    }
    set_row(row, place, room);
}

// The second pass: sets the rows of a card.
fn fill(card: GoodCard, room: &mut LentRoom)
    requires sized { Sized (room_in room.old 0) }
    requires rows_in_bounds { card.rows ≤ length room.old.ids.now }
    ensures same { SameRoom room.old room.new }
    ensures rows { room_in room.new card.entry.rows ≡ loaded (room_in room.old 0) (rows_in card.entry.bytes.now) }
{
    for (place, row) in Rows::new(card.bytes, card.form).enumerate() {
        set_row(row, place, room);
    }
}

// Reads a card into a lent book and answers how many rows it then has. Further rows stay as they were. UnsoundBook where the lent sizes disagree or there is
// room for too many rows, MalformedCard, NoRoomForRows; then nothing lent is changed.
// The whole card is judged before anything is written.
pub fn card_read(card: &[u8], room: &mut LentRoom) -> Result<usize, Refusal>
    ensures same { SameRoom room.old room.new }
    ensures answer { result ≡ read_of (room_in room.old 0) card.now }
    ensures after { room_in room.new (rows_given result) ≡ read_book (room_in room.old 0) card.now }
{
    if !room.sizes_agree() {
        return Err(Refusal::UnsoundBook);
    }
    let form = form_in(card);
    let rows = count_rows(card, form).ok_or(Refusal::MalformedCard)?;
    if room.ids.len() < rows {
        return Err(Refusal::NoRoomForRows);
    }
    let good = GoodCard {
        bytes: card,
        form,
        rows,
    };
    fill(good, room);
    Ok(rows)
}
