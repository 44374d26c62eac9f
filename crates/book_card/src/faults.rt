// The record at a place of a card, whatever form the other rows have, and what is wrong with one that is neither a row nor a close. Rows and closes are
// read by `reader`; here is only why there is none. docs/RULES.md, 'The card' and 'A damaged card'.
ghost use Rattle.std.specs.Prelude.{◌≡◌, ◌+◌, ◌≤◌, length, drop};
ghost use Rattle.book_card.specs.Layout.{length_size};
ghost use Rattle.book_card.specs.Faults.{fault_by, record_in};

use crate::layout::{BODY_AT, CLOSE_KIND, KIND_AT, KIND_SIZE, LENGTH_SIZE, key_at, row_kind};
use crate::reader::{form_in, front_at, mark_in};
use crate::{CardForm, Fault, Front, Record};
use key_book::SLOT_SIZE;

// Why the whole record at a place, which is neither a row nor a close, is none: by its kind, the form that rows of that kind have, and its length field.
fn fault_at(card: &[u8], at: usize, form: CardForm, size: usize, kind: u64) -> Fault
    requires { at + (length_size + size) ≤ length card.now }
    ensures { result ≡ fault_by form (drop at card.now) size kind }
{
    if kind == CLOSE_KIND {
        return Fault::WrongLength;
    }
    if kind != row_kind(form) {
        return Fault::UnknownKind;
    }
    let before_key = key_at(form) - LENGTH_SIZE;
    if size < before_key + 1 {
        return Fault::WrongLength;
    }
    if before_key + SLOT_SIZE < size {
        return Fault::WrongLength;
    }
    if mark_in(card, at, form) == key_book::NOT_HEARD {
        return Fault::NotHeardCounter;
    }
    Fault::WrongMark
}

// The record at a place of a card, whatever form the other rows have.
pub fn record_at(card: &[u8], at: usize) -> Record
    ensures { result ≡ record_in (drop at card.now) }
{
    if card.len() < at {
        return Record::Lost;
    }
    let left = card.len() - at;
    if left < BODY_AT {
        return Record::Lost;
    }
    let size = octets::little(card, at, LENGTH_SIZE) as usize;
    if size < KIND_SIZE {
        return Record::Lost;
    }
    if left - LENGTH_SIZE < size {
        return Record::Lost;
    }
    let form = form_in(&card[at..]);
    match front_at(card, at, form) {
        Front::Broken => {
            let kind = octets::little(card, at + KIND_AT, KIND_SIZE);
            Record::Faulty {
                fault: fault_at(card, at, form, size, kind),
                kind,
                size: LENGTH_SIZE + size,
            }
        }
        Front::Row {
            id,
            mark,
            received,
            sent,
            size,
        } => Record::Row {
            form,
            id,
            mark,
            received,
            sent,
            size,
        },
        Front::Close(count) => Record::Close(count),
    }
}
