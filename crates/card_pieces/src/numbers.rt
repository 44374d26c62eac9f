// A state's form and phase as numbers, for a caller that has it in parts: the form by the kind of its rows, 0 where none was read yet; the phases from 0.
// Functions, and no `From` or `TryFrom`: a number that is none stands for a form or a phase too, and `NumbersBack` speaks of all of them.
ghost use Rattle.std.specs.Prelude.{◌≡◌};
ghost use Rattle.card_pieces.specs.Numbers.{form_number, form_numbered, phase_number, phase_numbered, are_numbers};

use crate::Phase;
use book_card::CardForm;

// The number of a form where no row was read.
const NO_ROWS: u8 = 0;

// The number of a form.
#[tactic(auto, unfolding(crate::specs::Numbers::form_number, book_card::specs::Layout::row_kind))]
pub fn form_number(form: Option<CardForm>) -> u8
    ensures { result ≡ form_number form }
{
    form.map_or(NO_ROWS, |rows| rows as u8)
}

// The form of a number; of one that is no form's none.
#[tactic(auto, unfolding(crate::specs::Numbers::form_numbered, book_card::specs::Layout::row_kind))]
pub fn form_numbered(number: u8) -> Option<CardForm>
    ensures { result ≡ form_numbered number }
{
    if number == CardForm::Old as u8 {
        return Some(CardForm::Old);
    }
    if number == CardForm::New as u8 {
        return Some(CardForm::New);
    }
    None
}

// The number of a phase.
#[tactic(auto, unfolding(crate::specs::Numbers::phase_number))]
pub fn phase_number(phase: Phase) -> u8
    ensures { result ≡ phase_number phase }
{
    phase as u8
}

// The phase of a number; of one that is no phase's the fault.
#[tactic(auto, unfolding(crate::specs::Numbers::phase_numbered, crate::specs::Numbers::phase_number))]
pub fn phase_numbered(number: u8) -> Phase
    ensures { result ≡ phase_numbered number }
{
    if number == Phase::Reading as u8 {
        return Phase::Reading;
    }
    if number == Phase::Closed as u8 {
        return Phase::Closed;
    }
    Phase::Fault
}

// Whether these are the numbers of a form and of a phase.
#[tactic(auto, unfolding(crate::specs::Numbers::are_numbers))]
pub fn are_numbers(form: u8, phase: u8) -> bool
    ensures { result ≡ are_numbers form phase }
{
    form_number(form_numbered(form)) == form && phase_number(phase_numbered(phase)) == phase
}
