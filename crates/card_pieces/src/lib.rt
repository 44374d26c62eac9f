// Reading a card in pieces, as it arrives (docs/RULES.md, 'The card in pieces'): a fresh state (`begin`), a piece (`feed`, in `pieces`) and the end
// (`finish`, in `ending`). Pieces fill spare rows, lent beside the book; the end copies them over to it.
// Not here: what a record is, and how a row is set (book_card).
#![tactic(auto)]

mod ending;
mod numbers;
mod pieces;
mod records;

use book_card::{CardForm, RECORD_MOST};
pub use ending::finish;
pub use numbers::{are_numbers, form_number, form_numbered, phase_number, phase_numbered};
pub use pieces::{begin, feed};

// The most bytes of a cut record: one less than the largest record of either form.
pub const TAIL_MOST: usize = RECORD_MOST - 1;

// Where reading stands, and its number.
#[derive(Clone, Copy, Debug, PartialEq, Eq)]
pub enum Phase {
    // Records may follow.
    Reading = 0,
    // The close was read, and nothing may follow.
    Closed = 1,
    // There was a fault.
    Fault = 2,
}

// The reader's state. Any value of it may be handed in: of the tail the first `kept` bytes count. An array and a count: C has the state in parts, in fixed
// memory.
#[derive(Clone, Copy, Debug, PartialEq, Eq)]
pub struct Reader {
    // What is left of a cut record.
    pub tail: [u8; TAIL_MOST],
    pub kept: usize,
    // The rows read so far.
    pub rows: usize,
    // The least id that may follow; from 2^32 on none may.
    pub low: u64,
    // The form of the rows read, where any was.
    pub form: Option<CardForm>,
    pub phase: Phase,
}

// What comes next among the bytes of a card.
#[derive(Clone, Copy)]
enum Next {
    // A record that wants more bytes.
    Cut,
    // The close, numbering the rows before it, and nothing behind it.
    Close,
    // Anything that is no part of a card here.
    Fault,
    // A row that may follow: its fields, and the size of its key.
    Row {
        id: u32,
        mark: u8,
        received: u64,
        sent: u64,
        size: usize,
    },
}

// How far reading came among some bytes: up to `at`, with so many rows and this least id; while it goes on, the phase is Reading.
#[derive(Clone, Copy)]
struct Pass {
    at: usize,
    rows: usize,
    low: u64,
    phase: Phase,
}
