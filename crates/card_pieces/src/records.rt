// Reading the records that begin before a place of some bytes into spare rows.
ghost use Rattle.std.specs.Prelude.{◌≡◌, true, ◌≤◌, ◌<◌, length, drop};
ghost use Rattle.key_book.specs.Limits.{rows_most};
ghost use Rattle.key_book.specs.Book.{Sized};
ghost use Rattle.key_book.specs.Lent.{room_in, SameRoom};
ghost use Rattle.book_card.specs.Reader.{wants};
ghost use Rattle.card_pieces.specs.declared.Phase.TheVariants.{Reading};
ghost use Rattle.card_pieces.specs.Runs.{next_of, pass_to, stop_by, run, onward, outcome};

use crate::{Next, Pass, Phase};
use book_card::{CLOSE_SIZE, CardForm, Front, LentRow};
use key_book::{LentRoom, ROWS_MOST};

// What comes next at a place, behind so many rows of this form, with this least id.
fn next_at(s: &[u8], at: usize, form: CardForm, rows: usize, low: u64) -> Next
    requires { at ≤ length s.now }
    ensures { result ≡ next_of form low rows (drop at s.now) }
{
    if book_card::wants_more(s, at) {
        return Next::Cut;
    }
    match book_card::front_at(s, at, form) {
        Front::Broken => Next::Fault,
        Front::Close(count) => {
            if s.len() - at != CLOSE_SIZE {
                return Next::Fault;
            }
            if count != rows {
                return Next::Fault;
            }
            Next::Close
        }
        Front::Row {
            id,
            mark,
            received,
            sent,
            size,
        } => {
            if ROWS_MOST <= rows {
                return Next::Fault;
            }
            if (id as u64) < low {
                return Next::Fault;
            }
            Next::Row {
                id,
                mark,
                received,
                sent,
                size,
            }
        }
    }
}

// How far reading came, and how it stands.
fn pass_to(at: usize, rows: usize, low: u64, phase: Phase) -> Pass
    ensures { result ≡ pass_to at rows low phase }
{
    Pass {
        at,
        rows,
        low,
        phase,
    }
}

// Where a pass over so many bytes stops at a place where no row comes next.
fn stop_by(next: Next, at: usize, size: usize, rows: usize, low: u64) -> Pass
    ensures { result ≡ stop_by at size rows low next }
{
    match next {
        Next::Cut => pass_to(at, rows, low, Phase::Reading),
        Next::Close => pass_to(size, rows, low, Phase::Closed),
        Next::Fault => pass_to(size, rows, low, Phase::Fault),
        Next::Row { .. } => pass_to(at, rows, low, Phase::Reading),
    }
}

// Reads the records that begin before `until` into the spare rows, behind so many rows, with this least id. It stops early at a record that wants more
// bytes, at the close, and at a fault; behind these two nothing is left.
pub(crate) fn read_rows(
    s: &[u8],
    until: usize,
    form: CardForm,
    before: usize,
    least: u64,
    room: &mut LentRoom,
) -> Pass
    requires until_in_bounds { until ≤ length s.now }
    requires before_le_rows_most { before ≤ rows_most }
    requires sized { Sized (room_in room.old 0) }
    ensures same { SameRoom room.old room.new }
    ensures inside { result.at ≤ length s.now }
    ensures counted { (before ≤ result.rows) × (result.rows ≤ rows_most) }
    ensures stops { result.phase ≡ Reading → result.at < until → wants (drop result.at s.now) ≡ true }
    ensures sizes { Sized (room_in room.new 0) }
    ensures goes { outcome (room_in room.new 0) result.rows (onward form result s.now) ≡ outcome (room_in room.old 0) before (run form least before s.now) }
{
    let head = book_card::key_at(form);
    let mut at: usize = 0;
    let mut rows = before;
    let mut low = least;
    // By place, not over a card's rows: it stops at `until`, and tells a record that is cut from one that is wrong.
    while at < until {
        let next = next_at(s, at, form, rows, low);
        let Next::Row {
            id,
            mark,
            received,
            sent,
            size,
        } = next
        else {
            return stop_by(next, at, s.len(), rows, low);
        };
        let key_from = at + head;
        let end = key_from + size;
        let row = LentRow {
            id,
            mark,
            received,
            sent,
            key: &s[key_from..end],
        };
        book_card::put_row(row, rows, room);
        low = id as u64 + 1;
        at = end;
        rows += 1;
    }
    pass_to(at, rows, low, Phase::Reading)
}
