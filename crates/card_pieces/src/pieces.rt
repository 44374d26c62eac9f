// A fresh state, and a piece: what it makes of the state and of the spare rows.
//
// A record that lies whole in a piece is read from the piece. The bytes of a cut one are kept in the state's tail; with the next piece they stand in a
// window with the piece's first bytes behind them, the records that begin in the tail are read there, and the piece is read on behind these.
ghost use Rattle.std.specs.Prelude.{◌≡◌, [], ◌++◌, ◌≤◌, length};
ghost use Rattle.octets.specs.Bytes.{filled};
ghost use Rattle.key_book.specs.Limits.{rows_most};
ghost use Rattle.key_book.specs.Book.{Sized};
ghost use Rattle.key_book.specs.Lent.{room_in, SameRoom};
ghost use Rattle.book_card.specs.Layout.{record_most};
ghost use Rattle.card_pieces.specs.declared.Phase.TheVariants.{Reading};
ghost use Rattle.card_pieces.specs.Runs.{run, outcome, is_reading, behind_by};
ghost use Rattle.card_pieces.specs.Pieces.{tail_most, window_size, window_of, fresh, within, form_by, form_after, state_with, settled, state_fed, spare_fed};
ghost use Rattle.card_pieces.specs.Pieces.{feed_of, feed_spare};
ghost use Rattle.card_pieces.specs.Laws.{Within};

use crate::records::read_rows;
use crate::{Phase, Reader, TAIL_MOST};
use book_card::{CardForm, RECORD_MOST};
use key_book::{LentRoom, ROWS_MOST};
use refusal::Refusal;

// The bytes of the window: a tail, and the largest record behind it.
const WINDOW: usize = TAIL_MOST + RECORD_MOST;

// A fresh state.
#[tactic(auto, unfolding(crate::specs::Pieces::fresh))]
pub fn begin() -> Reader
    ensures { result ≡ fresh }
{
    Reader {
        tail: [0u8; TAIL_MOST],
        kept: 0,
        rows: 0,
        low: 0,
        form: None,
        phase: Phase::Reading,
    }
}

// Whether no count of a state is past its limit.
#[tactic(auto, unfolding(crate::specs::Pieces::within))]
pub(crate) fn is_within(kept: usize, rows: usize) -> bool
    ensures { result ≡ within kept rows }
{
    kept <= TAIL_MOST && rows <= ROWS_MOST
}

// The form of the rows that follow: the one known, else that of the first record.
#[tactic(auto, unfolding(crate::specs::Pieces::form_by))]
fn form_by(known: Option<CardForm>, s: &[u8]) -> CardForm
    ensures { result ≡ form_by s.now known }
{
    known.unwrap_or_else(|| book_card::form_in(s))
}

// What is known of the form after reading, with so many rows before and after.
#[tactic(auto, unfolding(crate::specs::Pieces::form_after))]
fn form_after(
    known: Option<CardForm>,
    form: CardForm,
    before: usize,
    after: usize,
) -> Option<CardForm>
    ensures { result ≡ form_after known form before after }
{
    if before == after {
        return known;
    }
    Some(form)
}

// A state that keeps these bytes. Its parts come one by one, here, in `stopped_in` and in the passes: they are a `Pass`'s, a state's and
// a call's own in turn, and no one struct has what they take.
fn state_with(rest: &[u8], rows: usize, low: u64, form: Option<CardForm>, phase: Phase) -> Reader
    requires { length rest.now ≤ tail_most }
    ensures { result ≡ state_with rest.now rows low form phase }
{
    let mut tail = [0u8; TAIL_MOST];
    octets::copy(rest, &mut tail, 0);
    Reader {
        tail,
        kept: rest.len(),
        rows,
        low,
        form,
        phase,
    }
}

// Whether records may follow.
fn is_reading(phase: Phase) -> bool
    ensures { result ≡ is_reading phase }
{
    phase == Phase::Reading
}

// How reading stands behind the close or a fault, by whether there are more bytes.
fn behind(phase: Phase, more: bool) -> Phase
    ensures { result ≡ behind_by more phase }
{
    if phase == Phase::Closed && !more {
        return Phase::Closed;
    }
    Phase::Fault
}

// The state there: nothing is kept.
fn stopped_in(phase: Phase, more: bool, rows: usize, low: u64, form: Option<CardForm>) -> Reader
    ensures { result ≡ state_with [] rows low form (behind_by more phase) }
{
    state_with(&[], rows, low, form, behind(phase, more))
}

// How many bytes of a piece stand in the window: as many as the largest record has.
#[tactic(auto, unfolding(crate::specs::Pieces::window_of))]
fn windowed(size: usize) -> usize
    ensures { result ≡ window_of size }
{
    size.min(RECORD_MOST)
}

// The window: the bytes kept, and others behind them.
fn window_of(kept: &[u8], s: &[u8]) -> [u8; WINDOW]
    requires kept_len_bound { length kept.now ≤ tail_most }
    requires s_len_bound { length s.now ≤ record_most }
    ensures { result ≡ filled window_size (kept.now ++ s.now) }
{
    let mut window = [0u8; WINDOW];
    octets::copy(kept, &mut window, 0);
    octets::copy(s, &mut window, kept.len());
    window
}

// The state after a piece where no bytes are kept: records are read from the piece itself.
fn read_piece(
    known: Option<CardForm>,
    form: CardForm,
    rows: usize,
    low: u64,
    piece: &[u8],
    room: &mut LentRoom,
) -> Reader
    requires rows_le_rows_most { rows ≤ rows_most }
    requires sized { Sized (room_in room.old 0) }
    ensures same { SameRoom room.old room.new }
    ensures state { result ≡ settled known form rows (outcome (room_in room.old 0) rows (run form low rows piece.now)) }
    ensures spare { room_in room.new 0 ≡ (outcome (room_in room.old 0) rows (run form low rows piece.now)).spare }
{
    let pass = read_rows(piece, piece.len(), form, rows, low, room);
    let at = pass.at;
    let phase = pass.phase;
    let formed = form_after(known, form, rows, pass.rows);
    state_with(&piece[at..], pass.rows, pass.low, formed, phase)
}

// The state after a piece where records may follow and some bytes are kept: the records that begin among these are read in the window, the others from
// the piece. The window is an array of a fixed size: nothing is allocated.
fn read_cut(state: Reader, piece: &[u8], room: &mut LentRoom) -> Reader
    requires within { Within state }
    requires reading { state.phase ≡ Reading }
    requires sized { Sized (room_in room.old 0) }
    ensures same { SameRoom room.old room.new }
    ensures state { result ≡ state_fed (room_in room.old 0) state piece.now }
    ensures spare { room_in room.new 0 ≡ spare_fed (room_in room.old 0) state piece.now }
{
    let taken = windowed(piece.len());
    let kept = state.kept;
    let window = window_of(&state.tail[..kept], &piece[..taken]);
    let end = kept + taken;
    let form = form_by(state.form, &window[..end]);
    let pass = read_rows(&window[..end], kept, form, state.rows, state.low, room);
    let formed = form_after(state.form, form, state.rows, pass.rows);
    let at = pass.at;
    let phase = pass.phase;
    if !is_reading(phase) {
        return stopped_in(phase, taken < piece.len(), pass.rows, pass.low, formed);
    }
    if at < kept {
        return state_with(&window[at..end], pass.rows, pass.low, formed, phase);
    }
    read_piece(formed, form, pass.rows, pass.low, &piece[at - kept..], room)
}

// The state after a piece, from any state whose counts are within their limits.
fn read_on(state: Reader, piece: &[u8], room: &mut LentRoom) -> Reader
    requires within { Within state }
    requires sized { Sized (room_in room.old 0) }
    ensures same { SameRoom room.old room.new }
    ensures state { result ≡ state_fed (room_in room.old 0) state piece.now }
    ensures spare { room_in room.new 0 ≡ spare_fed (room_in room.old 0) state piece.now }
{
    if !is_reading(state.phase) {
        let more = state.kept + piece.len() != 0;
        return stopped_in(state.phase, more, state.rows, state.low, state.form);
    }
    if state.kept == 0 {
        let form = form_by(state.form, piece);
        return read_piece(state.form, form, state.rows, state.low, piece, room);
    }
    read_cut(state, piece, room)
}

// Reads a piece, which may be empty, into the spare rows, and answers the state then. UnsoundBook where their sizes disagree or a count of the state is past
// its limit; then nothing is changed. Every other refusal comes at the end.
pub fn feed(state: Reader, piece: &[u8], room: &mut LentRoom) -> Result<Reader, Refusal>
    ensures same { SameRoom room.old room.new }
    ensures answer { result ≡ feed_of (room_in room.old 0) state piece.now }
    ensures spare { room_in room.new 0 ≡ feed_spare (room_in room.old 0) state piece.now }
{
    if !room.sizes_agree() {
        return Err(Refusal::UnsoundBook);
    }
    if !is_within(state.kept, state.rows) {
        return Err(Refusal::UnsoundBook);
    }
    Ok(read_on(state, piece, room))
}
