// The card on which a key book is stored: reading it into a lent book (`reading`, over `reader`), writing a book's card (`writing`), and moving a card
// to a form (`moving`); a record is written in one place (`records`), and what is wrong with one is told in another (`faults`). docs/RULES.md, 'The card'.
// Not here: opening and reading files, and what a loaded book then accepts (delayed_auth).
#![tactic(auto)]

ghost use Rattle.std.specs.Prelude.{◌≡◌, ℕ, ◌<◌, Some, get_or};
ghost use Rattle.book_card.specs.Reader.{form_in, read_card, counted_from};

mod faults;
mod layout;
mod moving;
mod reader;
mod reading;
mod records;
mod writing;

pub use faults::record_at;
pub use layout::{CLOSE_KIND, CLOSE_SIZE, RECORD_MOST, key_at};
pub use moving::card_move;
pub use reader::{form_in, front_at, wants_more};
pub use reading::{card_read, put_row};
pub use records::{add_close, add_record};
pub use writing::card_write;

// The form of a card's rows, and the kind of its rows' records.
#[derive(Clone, Copy, Debug, PartialEq, Eq)]
pub enum CardForm {
    // Without marks: every row is heard.
    Old = 1,
    // With marks.
    New = 3,
}

// A row of a book: its fields, and its key where it stands.
#[derive(Clone, Copy)]
pub struct LentRow<'k> {
    pub id: u32,
    pub mark: u8,
    pub received: u64,
    pub sent: u64,
    pub key: &'k [u8],
}

// A card that was found good: the form of its rows, and how many they are. `plain` says that its elements are bytes, which the laws about cards ask for.
#[derive(Clone, Copy)]
pub(crate) struct GoodCard<'c> {
    pub bytes: &'c [u8],
    pub form: CardForm,
    pub rows: usize,
    ghost plain: { (k : ℕ) → get_or bytes.now k 0 < 256 },
    ghost formed: { form ≡ form_in bytes.now },
    ghost counted: { Some rows ≡ counted_from 0 (read_card bytes.now) },
}

// The rows of a form in front of a card, one after another. They end at the first place, then `at`, where none stands, be it the close or broken.
#[derive(Drop)]
pub(crate) struct Rows<'c> {
    pub card: &'c [u8],
    pub form: CardForm,
    pub at: usize,
}

// The record at a place of a card whose rows have a form. A row's fields stand in the case, as in `Record` and in card_pieces: the definitions, `front_of` and
// its statements, name them one by one.
#[derive(Clone, Copy, Debug, PartialEq, Eq)]
pub enum Front {
    // No whole record, no row of the form and no close, a length that is not of its kind, or a mark that does not go with its counter.
    Broken,
    // A row: its fields, and the size of its key.
    Row {
        id: u32,
        mark: u8,
        received: u64,
        sent: u64,
        size: usize,
    },
    // The close: the number of rows that it says.
    Close(usize),
}

// The record at a place of a card, whatever form the other rows have.
#[derive(Clone, Copy, Debug, PartialEq, Eq)]
pub enum Record {
    // No whole record: its length field is cut, counts less than a kind takes, or passes the end.
    Lost,
    // A whole record that is neither a row nor a close: why, its kind, and its size with the length field.
    Faulty {
        fault: Fault,
        kind: u64,
        size: usize,
    },
    // A row: its form, its fields, and the size of its key.
    Row {
        form: CardForm,
        id: u32,
        mark: u8,
        received: u64,
        sent: u64,
        size: usize,
    },
    // The close: the number of rows that it says.
    Close(usize),
}

// Why a whole record is neither a row nor a close: the first that applies.
#[derive(Clone, Copy, Debug, PartialEq, Eq)]
pub enum Fault {
    // The kind is neither a row's nor the close's.
    UnknownKind,
    // The length is none of the kind's.
    WrongLength,
    // A row's mark is neither of the two.
    WrongMark,
    // A row is not heard and has a received counter other than 0.
    NotHeardCounter,
}
