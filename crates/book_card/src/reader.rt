// What stands on a card: the form of its rows, the record at a place of it, and the first pass over all of it.
ghost use Rattle.std.specs.Prelude.{◌≡◌, ◌+◌, ◌≤◌, length, drop};
ghost use Rattle.book_card.specs.Layout.{length_size, mark_at, mark_size};
ghost use Rattle.book_card.specs.Reader.{form_in, mark_in, row_by, front_of, record_length, wants, rows_in_front, card_in, counted_from};
ghost use Rattle.book_card.specs.Walk.{all_rows, GivesRow, bytes_left};

use crate::layout::{
    BODY_AT, CLOSE_KIND, CLOSE_SIZE, COUNT_SIZE, COUNTER_SIZE, ID_SIZE, KIND_AT, KIND_SIZE,
    LENGTH_SIZE, MARK_AT, MARK_SIZE, RECORD_MOST, key_at, received_at, row_kind, sent_at,
};
use crate::{CardForm, Front, LentRow, Rows};
use key_book::{ROWS_MOST, SLOT_SIZE};

// The form of a card's rows, by the kind of its first record.
#[tactic(auto, unfolding(crate::specs::Reader::form_in))]
pub fn form_in(card: &[u8]) -> CardForm
    ensures { result ≡ form_in card.now }
{
    if card.len() < BODY_AT {
        return CardForm::Old;
    }
    if octets::little(card, KIND_AT, KIND_SIZE) == row_kind(CardForm::New) {
        return CardForm::New;
    }
    CardForm::Old
}

// The mark of the row at a place of a card.
#[tactic(auto, using(crate::proofs::Forms::mark_new), unfolding(crate::specs::Reader::mark_in, crate::specs::Layout::mark_size))]
pub(crate) fn mark_in(card: &[u8], at: usize, form: CardForm) -> u8
    requires { at + (mark_at + mark_size form) ≤ length card.now }
    ensures { result ≡ mark_in form (drop at card.now) }
{
    match form {
        CardForm::Old => key_book::HEARD,
        CardForm::New => octets::little(card, at + MARK_AT, MARK_SIZE) as u8,
    }
}

// The row at a place of a card, whose length field says so much.
fn row_at(card: &[u8], at: usize, form: CardForm, size: usize) -> Front
    requires { at + (length_size + size) ≤ length card.now }
    ensures { result ≡ row_by form (drop at card.now) size }
{
    let before_key = key_at(form) - LENGTH_SIZE;
    if size < before_key + 1 {
        return Front::Broken;
    }
    if before_key + SLOT_SIZE < size {
        return Front::Broken;
    }
    let mark = mark_in(card, at, form);
    let received = octets::little(card, at + received_at(form), COUNTER_SIZE);
    if !key_book::mark_fits(mark, received) {
        return Front::Broken;
    }
    Front::Row {
        id: octets::little(card, at + BODY_AT, ID_SIZE) as u32,
        mark,
        received,
        sent: octets::little(card, at + sent_at(form), COUNTER_SIZE),
        size: size - before_key,
    }
}

// The record at a place of a card whose rows have this form.
pub fn front_at(card: &[u8], at: usize, form: CardForm) -> Front
    ensures { result ≡ front_of form (drop at card.now) }
{
    if card.len() < at {
        return Front::Broken;
    }
    let left = card.len() - at;
    if left < BODY_AT {
        return Front::Broken;
    }
    let size = octets::little(card, at, LENGTH_SIZE) as usize;
    if left - LENGTH_SIZE < size {
        return Front::Broken;
    }
    let kind = octets::little(card, at + KIND_AT, KIND_SIZE);
    if kind == CLOSE_KIND {
        if size != CLOSE_SIZE - LENGTH_SIZE {
            return Front::Broken;
        }
        return Front::Close(octets::little(card, at + BODY_AT, COUNT_SIZE) as usize);
    }
    if kind != row_kind(form) {
        return Front::Broken;
    }
    row_at(card, at, form, size)
}

// Whether some record has this number in its length field.
fn is_length(size: usize) -> bool
    ensures { result ≡ record_length size }
{
    if size == CLOSE_SIZE - LENGTH_SIZE {
        return true;
    }
    if size < key_at(CardForm::Old) - LENGTH_SIZE + 1 {
        return false;
    }
    size <= RECORD_MOST - LENGTH_SIZE
}

// Whether the record at a place of a card wants more bytes than there are. One whose length no record has wants none, be it there or not.
pub fn wants_more(card: &[u8], at: usize) -> bool
    ensures { result ≡ wants (drop at card.now) }
{
    if card.len() < at {
        return true;
    }
    let left = card.len() - at;
    if left < LENGTH_SIZE {
        return true;
    }
    let size = octets::little(card, at, LENGTH_SIZE) as usize;
    if size <= left - LENGTH_SIZE {
        return false;
    }
    is_length(size)
}

impl<'c> Rows<'c> {
    // All rows in front of a card.
    pub fn new(card: &'c [u8], form: CardForm) -> Rows<'c>
        ensures { result ≡ all_rows card.entry form }
    {
        Rows { card, form, at: 0 }
    }
}

impl<'c> Iterator for Rows<'c> {
    type Item = LentRow<'c>;

    ghost next_gives = { GivesRow };

    ghost remaining = { bytes_left };

    fn next(&mut self) -> Option<LentRow<'c>> {
        let Front::Row {
            id,
            mark,
            received,
            sent,
            size,
        } = front_at(self.card, self.at, self.form)
        else {
            return None;
        };
        let key_from = self.at + key_at(self.form);
        let next = key_from + size;
        self.at = next;
        Some(LentRow {
            id,
            mark,
            received,
            sent,
            key: &self.card[key_from..next],
        })
    }
}

// The first pass: whether the bytes are a card with rows of this form, and of how many. Nothing is written before it is known.
pub(crate) fn count_rows(card: &[u8], form: CardForm) -> Option<usize>
    ensures { result ≡ counted_from 0 (card_in (rows_in_front form card.now)) }
{
    let mut left = Rows::new(card, form);
    let mut rows: usize = 0;
    // The least id that may follow.
    let mut low: u64 = 0;
    // No `for`: behind one over `left.by_ref()` nothing is known of `left`, which says where the rows end.
    while let Some(row) = left.next() {
        if rows == ROWS_MOST {
            return None;
        }
        if (row.id as u64) < low {
            return None;
        }
        low = row.id as u64 + 1;
        rows += 1;
    }
    // Behind its rows a card has the close, which numbers them, and no more.
    let Front::Close(count) = front_at(card, left.at, form) else {
        return None;
    };
    if card.len() - left.at != CLOSE_SIZE {
        return None;
    }
    if count != rows {
        return None;
    }
    Some(rows)
}
