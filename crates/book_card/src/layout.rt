// The records of a card: how many bytes their fields have, and where they stand. docs/RULES.md, 'The card'; by the same names in specs/Layout.antt.
//
// A card is records without gap, all numbers with the lowest byte first. By offset in a record:
//   length 0..2, which counts all that follows it; kind 2..4; body from 4
//   kind 1, a row of the old form: id 4..8, received 8..16, sent 16..24, key from 24, of 1 to SLOT_SIZE bytes
//   kind 3, a row of the new form: id 4..8, mark 8..9, received 9..17, sent 17..25, key from 25
//   kind 2, the close: number of rows 4..6; it is the last record and nothing follows
// All rows are of one form. There are at most ROWS_MOST, their ids ascend strictly, and the close's number is theirs.
ghost use Rattle.std.specs.Prelude.{◌≡◌};
ghost use Rattle.book_card.specs.Layout.{mark_size, received_at, sent_at, key_at, row_kind};

use crate::CardForm;
use key_book::SLOT_SIZE;

// The sizes of the fields.
pub(crate) const LENGTH_SIZE: usize = 2;

pub(crate) const KIND_SIZE: usize = 2;

pub(crate) const ID_SIZE: usize = 4;

pub(crate) const MARK_SIZE: usize = 1;

pub(crate) const COUNTER_SIZE: usize = 8;

pub(crate) const COUNT_SIZE: usize = 2;

// Their offsets in a record, as far as they are those of both forms, and the size of the whole close.
pub(crate) const KIND_AT: usize = LENGTH_SIZE;

pub(crate) const BODY_AT: usize = KIND_AT + KIND_SIZE;

pub(crate) const MARK_AT: usize = BODY_AT + ID_SIZE;

pub const CLOSE_SIZE: usize = BODY_AT + COUNT_SIZE;

// The size of the largest record of either form: a row of the new one with the longest key.
pub const RECORD_MOST: usize = MARK_AT + MARK_SIZE + COUNTER_SIZE + COUNTER_SIZE + SLOT_SIZE;

// The kind of the close; those of the rows are the forms' numbers.
pub const CLOSE_KIND: u64 = 2;

// The kind of a form's rows.
#[tactic(auto, unfolding(crate::specs::Layout::row_kind))]
pub(crate) fn row_kind(form: CardForm) -> u64
    ensures { result ≡ row_kind form }
{
    form as u64
}

// How many bytes a form has for the mark: the old one none.
#[tactic(auto, unfolding(crate::specs::Layout::mark_size))]
pub(crate) fn mark_size(form: CardForm) -> usize
    ensures { result ≡ mark_size form }
{
    match form {
        CardForm::Old => 0,
        CardForm::New => MARK_SIZE,
    }
}

// The offsets of what stands behind the mark in a form's rows.
#[tactic(auto, using(crate::proofs::Forms::mark_small))]
pub(crate) fn received_at(form: CardForm) -> usize
    ensures { result ≡ received_at form }
{
    MARK_AT + mark_size(form)
}

#[tactic(auto, using(crate::proofs::Forms::mark_small))]
pub(crate) fn sent_at(form: CardForm) -> usize
    ensures { result ≡ sent_at form }
{
    received_at(form) + COUNTER_SIZE
}

#[tactic(auto, using(crate::proofs::Forms::mark_small))]
pub fn key_at(form: CardForm) -> usize
    ensures { result ≡ key_at form }
{
    sent_at(form) + COUNTER_SIZE
}
