// Moving a card to a form: its rows, written as a card of that form to the front of a lent room.
ghost use Rattle.std.specs.Prelude.{◌≡◌, ◌*◌, ◌≤◌, length};
ghost use Rattle.octets.specs.Bytes.{written};
ghost use Rattle.book_card.specs.Layout.{mark_size};
ghost use Rattle.book_card.specs.Card.{card_of};
ghost use Rattle.book_card.specs.Reading.{rows_in};
ghost use Rattle.book_card.specs.Moving.{all_heard, holds, move_of, room_moved};

use crate::layout::mark_size;
use crate::reader::{count_rows, form_in};
use crate::records::{put_close, put_record};
use crate::{CardForm, GoodCard, Rows};
use refusal::Refusal;

// How many bytes the marks of so many rows take.
#[tactic(auto, using(crate::proofs::Forms::marks_few))]
fn marks_size(form: CardForm, rows: usize) -> usize
    ensures { result ≡ mark_size form * rows }
{
    mark_size(form) * rows
}

// Whether every row of a card is heard.
fn all_heard(card: GoodCard) -> bool
    ensures { result ≡ all_heard (rows_in card.entry.bytes.now) }
{
    for row in Rows::new(card.bytes, card.form) {
        if row.mark != key_book::HEARD {
            return false;
        }
    }
    true
}

// Whether a form holds the rows of a card: the old one holds heard rows alone.
#[tactic(auto, unfolding(crate::specs::Moving::holds))]
fn form_holds(wanted: CardForm, card: GoodCard) -> bool
    ensures { result ≡ holds wanted (rows_in card.entry.bytes.now) }
{
    match wanted {
        CardForm::Old => all_heard(card),
        CardForm::New => true,
    }
}

// Writes the rows of a card to the front of a room, as a card of the wanted form, which fits it.
fn put_moved(wanted: CardForm, card: GoodCard, room: &mut [u8])
    requires { length (card_of wanted (rows_in card.bytes.now)) ≤ length room.old }
    ensures { room.new ≡ written 0 (card_of wanted (rows_in card.entry.bytes.now)) room.old }
{
    let mut to: usize = 0;
    for row in Rows::new(card.bytes, card.form) {
        to += put_record(wanted, row, room, to);
    }
    put_close(card.rows, room, to);
}

// Moves a card to a form: writes its rows as a card of the wanted form to the front of a lent room, and answers its size. Later bytes of the room stay
// as they were. A row's mark is all that the forms differ in, so the size is known before anything is written. MalformedCard, NoRoomForCard, RowNotHeard;
// then the room is not changed.
pub fn card_move(wanted: CardForm, card: &[u8], room: &mut [u8]) -> Result<usize, Refusal>
    ensures answer { result ≡ move_of wanted card.now (length room.old) }
    ensures after { room.new ≡ room_moved wanted card.now room.old }
{
    let form = form_in(card);
    let rows = count_rows(card, form).ok_or(Refusal::MalformedCard)?;
    let size = card.len() - marks_size(form, rows) + marks_size(wanted, rows);
    if room.len() < size {
        return Err(Refusal::NoRoomForCard);
    }
    let good = GoodCard {
        bytes: card,
        form,
        rows,
    };
    if !form_holds(wanted, good) {
        return Err(Refusal::RowNotHeard);
    }
    put_moved(wanted, good, room);
    Ok(size)
}
