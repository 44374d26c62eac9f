// The library as C calls it: every entry as an exported function, with its number (docs/RULES.md, 'Numbers') as its result. Names are those of
// include/rimemagpie.h, for parameters too.
// Each takes an entry's answer apart and decides nothing. The book is lent as in delayed_auth, server rows as in forcerenew; a further result goes to
// a lent place, which a refusal leaves as it was, but that a digest or MAC refused with 14 is 16 zero bytes there, and that the number of looks is
// written with 10 too.
//
// No function of the library allocates: every room is lent, or of a fixed size.
//
// A slice is a pointer and a length to C. That these are right, and that what is lent doesn't overlap, is up to the caller.
#![tactic(auto)]

ghost use Rattle.std.specs.Prelude.{◌≡◌, length};
ghost use Rattle.refusal.specs.Number.{result_number, given_or};
ghost use Rattle.md5_digest.specs.Entries.{md5_of, no_digest};
ghost use Rattle.hmac_md5.specs.Hmac.{hmac_of};
ghost use Rattle.key_book.specs.Book.{book_of};
ghost use Rattle.key_book.specs.Halving.{known_of, sought_number};
ghost use Rattle.delayed_auth.specs.Check.{check_of, marks_after, received_after};
ghost use Rattle.delayed_auth.specs.Key.{keyed_of};
ghost use Rattle.delayed_auth.specs.Seal.{seal_of, sealing_of, message_after, sent_after, outcome_number};
ghost use Rattle.forcerenew.specs.Rows.{servers_of};
ghost use Rattle.forcerenew.specs.Judging.{judge_of, judged_of, nonces_after, counters_after, row_marks_after};
ghost use Rattle.book_card.specs.declared.CardForm.TheVariants.{Old, New};
ghost use Rattle.book_card.specs.Reading.{read_of, read_book, rows_given};
ghost use Rattle.book_card.specs.Writing.{write_of, room_after};
ghost use Rattle.book_card.specs.Moving.{move_of, room_moved};
ghost use Rattle.comparison.specs.Entry.{compare_of, room_compared};
ghost use Rattle.card_pieces.specs.Pieces.{fresh};
ghost use Rattle.card_pieces.specs.Numbers.{form_number, phase_number};
ghost use Rattle.rimemagpie.specs.Places.{row_place, counter_place, offset_place, size_place, sealed_place, number_place};
ghost use Rattle.rimemagpie.specs.Places.{sought_place, looks_place, kind_place, judged_place};
ghost use Rattle.rimemagpie.specs.States.{state_of, fed_number, fed_spare, tail_place, kept_place, read_place, low_place, form_place, phase_place};
ghost use Rattle.rimemagpie.specs.States.{ended_answer, ended_book};

use book_card::CardForm;
use card_pieces::{Reader, TAIL_MOST};
use key_book::{LentBook, LentRoom, Sought};
use md5_digest::DIGEST_SIZE;
use refusal::Refusal;

// Writes what an answer gives, a number of rows or of bytes, to its place, and returns the answer's number.
fn put_number(answer: Result<usize, Refusal>, place: &mut u64) -> u8
    ensures number { result ≡ result_number answer }
    ensures place { place.new ≡ number_place place.old answer }
{
    match answer {
        Ok(given) => {
            *place = given as u64;
            0
        }
        Err(refusal) => refusal::number(refusal),
    }
}

// The digest of a message.
#[unsafe(no_mangle)]
pub extern "C" fn rimemagpie_digest(message: &[u8], digest: &mut [u8; DIGEST_SIZE]) -> u8
    ensures number { result ≡ result_number (md5_of message.now) }
    ensures bytes { digest.new ≡ given_or no_digest (md5_of message.now) }
{
    let digested = md5_digest::md5(message);
    *digest = md5_digest::handed(digested);
    refusal::result_number(digested)
}

// The MAC of a message under a key.
#[unsafe(no_mangle)]
pub extern "C" fn rimemagpie_hmac(key: &[u8], message: &[u8], mac: &mut [u8; DIGEST_SIZE]) -> u8
    ensures number { result ≡ result_number (hmac_of key.now message.now) }
    ensures bytes { mac.new ≡ given_or no_digest (hmac_of key.now message.now) }
{
    let answer = hmac_md5::hmac(key, message);
    *mac = md5_digest::handed(answer);
    refusal::result_number(answer)
}

// Judges a message, and where it is accepted stores its counter as received and marks its row heard.
#[unsafe(no_mangle)]
pub extern "C" fn rimemagpie_check(
    ids: &[u32],
    lengths: &[u8],
    store: &[u8],
    marks: &mut [u8],
    received: &mut [u64],
    sent: &[u64],
    rows: usize,
    message: &[u8],
    row: &mut u64,
    counter: &mut u64,
) -> u8
    ensures number { let b = book_of ids.now lengths.now store.now marks.old received.old sent.now rows in
        result ≡ result_number (check_of b message.now) }
    ensures marked { let b = book_of ids.now lengths.now store.now marks.old received.old sent.now rows in
        marks.new ≡ marks_after (check_of b message.now) marks.old }
    ensures stored { let b = book_of ids.now lengths.now store.now marks.old received.old sent.now rows in
        received.new ≡ received_after (check_of b message.now) received.old }
    ensures row { let b = book_of ids.now lengths.now store.now marks.old received.old sent.now rows in
        row.new ≡ row_place row.old (check_of b message.now) }
    ensures counter { let b = book_of ids.now lengths.now store.now marks.old received.old sent.now rows in
        counter.new ≡ counter_place counter.old (check_of b message.now) }
{
    match delayed_auth::check(ids, lengths, store, marks, received, sent, rows, message) {
        Ok(accepted) => {
            *row = accepted.row as u64;
            *counter = accepted.counter;
            0
        }
        Err(refusal) => refusal::number(refusal),
    }
}

// Where the key of the secret that a message names stands in the key store, and how many bytes it has.
#[unsafe(no_mangle)]
pub extern "C" fn rimemagpie_key(
    ids: &[u32],
    lengths: &[u8],
    store: &[u8],
    marks: &[u8],
    received: &[u64],
    sent: &[u64],
    rows: usize,
    message: &[u8],
    offset: &mut u64,
    size: &mut u64,
) -> u8
    ensures number { let b = book_of ids.now lengths.now store.now marks.now received.now sent.now rows in
        result ≡ result_number (keyed_of b message.now) }
    ensures offset { let b = book_of ids.now lengths.now store.now marks.now received.now sent.now rows in
        offset.new ≡ offset_place offset.old (keyed_of b message.now) }
    ensures size { let b = book_of ids.now lengths.now store.now marks.now received.now sent.now rows in
        size.new ≡ size_place b size.old (keyed_of b message.now) }
{
    let book = LentBook {
        ids,
        lengths,
        store,
        marks,
        received,
        sent,
        rows,
    };
    match delayed_auth::named_row(book, message) {
        Ok(row) => {
            let key = key_book::key_of(store, lengths, row);
            *offset = (key_book::SLOT_SIZE * row) as u64;
            *size = key.len() as u64;
            0
        }
        Err(refusal) => refusal::number(refusal),
    }
}

// Seals a message under the given id with the next counter, and stores that counter as sent.
#[unsafe(no_mangle)]
pub extern "C" fn rimemagpie_seal(
    ids: &[u32],
    lengths: &[u8],
    store: &[u8],
    marks: &[u8],
    received: &[u64],
    sent: &mut [u64],
    rows: usize,
    id: u32,
    message: &mut [u8],
    counter: &mut u64,
) -> u8
    ensures number { let b = book_of ids.now lengths.now store.now marks.now received.now sent.old rows in
        result ≡ outcome_number (seal_of b id message.old) }
    ensures sealed { let b = book_of ids.now lengths.now store.now marks.now received.now sent.old rows in
        message.new ≡ message_after (seal_of b id message.old) message.old }
    ensures stored { let b = book_of ids.now lengths.now store.now marks.now received.now sent.old rows in
        sent.new ≡ sent_after (seal_of b id message.old) sent.old }
    ensures counter { let b = book_of ids.now lengths.now store.now marks.now received.now sent.old rows in
        counter.new ≡ sealed_place counter.old (sealing_of (seal_of b id message.old)) }
{
    match delayed_auth::seal(
        ids, lengths, store, marks, received, sent, rows, id, message,
    ) {
        Ok(next) => {
            *counter = next;
            0
        }
        Err(refusal) => refusal::number(refusal),
    }
}

// Reads a card of either form into a lent book. Further rows stay as they were.
#[unsafe(no_mangle)]
pub extern "C" fn rimemagpie_card_read(
    card: &[u8],
    ids: &mut [u32],
    lengths: &mut [u8],
    store: &mut [u8],
    marks: &mut [u8],
    received: &mut [u64],
    sent: &mut [u64],
    rows: &mut u64,
) -> u8
    ensures number { let b = book_of ids.old lengths.old store.old marks.old received.old sent.old 0 in
        result ≡ result_number (read_of b card.now) }
    ensures book { let b = book_of ids.old lengths.old store.old marks.old received.old sent.old 0 in
        book_of ids.new lengths.new store.new marks.new received.new sent.new
        (rows_given (read_of b card.now)) ≡ read_book b card.now }
    ensures rows { let b = book_of ids.old lengths.old store.old marks.old received.old sent.old 0 in
        rows.new ≡ number_place rows.old (read_of b card.now) }
{
    let mut room = LentRoom {
        ids,
        lengths,
        store,
        marks,
        received,
        sent,
    };
    put_number(book_card::card_read(card, &mut room), rows)
}

// Writes the card of a book, in the new form, to the front of a lent room. Later bytes of the room stay as they were.
#[unsafe(no_mangle)]
pub extern "C" fn rimemagpie_card_write(
    ids: &[u32],
    lengths: &[u8],
    store: &[u8],
    marks: &[u8],
    received: &[u64],
    sent: &[u64],
    rows: usize,
    card: &mut [u8],
    size: &mut u64,
) -> u8
    ensures number { let b = book_of ids.now lengths.now store.now marks.now received.now sent.now rows in
        result ≡ result_number (write_of b (length card.old)) }
    ensures room { let b = book_of ids.now lengths.now store.now marks.now received.now sent.now rows in
        card.new ≡ room_after b card.old }
    ensures size { let b = book_of ids.now lengths.now store.now marks.now received.now sent.now rows in
        size.new ≡ number_place size.old (write_of b (length card.old)) }
{
    let book = LentBook {
        ids,
        lengths,
        store,
        marks,
        received,
        sent,
        rows,
    };
    put_number(book_card::card_write(book, card), size)
}

// Writes a card's rows as a card of a form to the front of a lent room. Later bytes of the room stay as they were. C has an entry for each form.
fn move_card(wanted: CardForm, card: &[u8], room: &mut [u8], size: &mut u64) -> u8
    ensures number { result ≡ result_number (move_of wanted card.now (length room.old)) }
    ensures room { room.new ≡ room_moved wanted card.now room.old }
    ensures size { size.new ≡ number_place size.old (move_of wanted card.now (length room.old)) }
{
    put_number(book_card::card_move(wanted, card, room), size)
}

// The same in the old form.
#[unsafe(no_mangle)]
pub extern "C" fn rimemagpie_card_to_old(card: &[u8], room: &mut [u8], size: &mut u64) -> u8
    ensures number { result ≡ result_number (move_of Old card.now (length room.old)) }
    ensures room { room.new ≡ room_moved Old card.now room.old }
    ensures size { size.new ≡ number_place size.old (move_of Old card.now (length room.old)) }
{
    move_card(CardForm::Old, card, room, size)
}

// The same in the new form.
#[unsafe(no_mangle)]
pub extern "C" fn rimemagpie_card_to_new(card: &[u8], room: &mut [u8], size: &mut u64) -> u8
    ensures number { result ≡ result_number (move_of New card.now (length room.old)) }
    ensures room { room.new ≡ room_moved New card.now room.old }
    ensures size { size.new ≡ number_place size.old (move_of New card.now (length room.old)) }
{
    move_card(CardForm::New, card, room, size)
}

// Whether an id stands in the first `count` of a list of ids, by halving, and how many were looked at.
#[unsafe(no_mangle)]
pub extern "C" fn rimemagpie_known(
    ids: &[u32],
    count: usize,
    id: u32,
    row: &mut u64,
    looks: &mut u64,
) -> u8
    ensures number { result ≡ sought_number (known_of ids.now count id) }
    ensures row { row.new ≡ sought_place row.old (known_of ids.now count id) }
    ensures looks { looks.new ≡ looks_place looks.old (known_of ids.now count id) }
{
    let sought = key_book::known(ids, count, id);
    match sought {
        Sought::Stands(at, looked) => {
            *row = at as u64;
            *looks = looked as u64;
            0
        }
        Sought::Missing(seen) => {
            *looks = seen as u64;
            refusal::number(Refusal::UnknownSecret)
        }
        Sought::Unsized => refusal::number(Refusal::UnsoundBook),
    }
}

// Judges a message from the server of a row, and where it is accepted stores its nonce, or its counter, and the row's mark.
#[unsafe(no_mangle)]
pub extern "C" fn rimemagpie_forcerenew(
    nonces: &mut [u8],
    counters: &mut [u64],
    marks: &mut [u8],
    row: usize,
    message: &[u8],
    kind: &mut u8,
    counter: &mut u64,
) -> u8
    ensures number { let s = servers_of nonces.old counters.old marks.old in
        result ≡ result_number (judged_of (judge_of s row message.now)) }
    ensures nonces { let s = servers_of nonces.old counters.old marks.old in
        nonces.new ≡ nonces_after row (judge_of s row message.now) nonces.old }
    ensures counters { let s = servers_of nonces.old counters.old marks.old in
        counters.new ≡ counters_after row (judge_of s row message.now) counters.old }
    ensures marks { let s = servers_of nonces.old counters.old marks.old in
        marks.new ≡ row_marks_after row (judge_of s row message.now) marks.old }
    ensures kind { let s = servers_of nonces.old counters.old marks.old in
        kind.new ≡ kind_place kind.old (judged_of (judge_of s row message.now)) }
    ensures counter { let s = servers_of nonces.old counters.old marks.old in
        counter.new ≡ judged_place counter.old (judged_of (judge_of s row message.now)) }
{
    match forcerenew::judge(nonces, counters, marks, row, message) {
        Ok(heeded) => {
            *kind = heeded.kind;
            *counter = heeded.counter;
            0
        }
        Err(refusal) => refusal::number(refusal),
    }
}

// The state of a card read in pieces, of its parts. None where no form or no phase has such a number.
fn state_of(
    tail: &[u8; TAIL_MOST],
    kept: u64,
    read: u64,
    low: u64,
    form: u8,
    phase: u8,
) -> Option<Reader>
    ensures { result ≡ state_of tail.now kept read low form phase }
{
    if !card_pieces::are_numbers(form, phase) {
        return None;
    }
    Some(Reader {
        tail: *tail,
        kept: kept as usize,
        rows: read as usize,
        low,
        form: card_pieces::form_numbered(form),
        phase: card_pieces::phase_numbered(phase),
    })
}

// Hands a state over to the parts that are lent.
fn hand_over(
    state: Reader,
    tail: &mut [u8; TAIL_MOST],
    kept: &mut u64,
    read: &mut u64,
    low: &mut u64,
    form: &mut u8,
    phase: &mut u8,
)
    ensures tail { tail.new ≡ state.tail }
    ensures kept { kept.new ≡ state.kept }
    ensures read { read.new ≡ state.rows }
    ensures low { low.new ≡ state.low }
    ensures form { form.new ≡ form_number state.form }
    ensures phase { phase.new ≡ phase_number state.phase }
{
    // By way of a name: Rattle has no proof yet of a field's array that is stored straight.
    let bytes = state.tail;
    *tail = bytes;
    *kept = state.kept as u64;
    *read = state.rows as u64;
    *low = state.low;
    *form = card_pieces::form_number(state.form);
    *phase = card_pieces::phase_number(state.phase);
}

// A fresh state for reading a card in pieces.
#[unsafe(no_mangle)]
pub extern "C" fn rimemagpie_card_begin(
    tail: &mut [u8; TAIL_MOST],
    kept: &mut u64,
    read: &mut u64,
    low: &mut u64,
    form: &mut u8,
    phase: &mut u8,
)
    ensures tail { tail.new ≡ fresh.tail }
    ensures kept { kept.new ≡ fresh.kept }
    ensures read { read.new ≡ fresh.rows }
    ensures low { low.new ≡ fresh.low }
    ensures form { form.new ≡ form_number fresh.form }
    ensures phase { phase.new ≡ phase_number fresh.phase }
{
    hand_over(card_pieces::begin(), tail, kept, read, low, form, phase);
}

// Reads a piece of a card into spare rows, and changes the state.
#[unsafe(no_mangle)]
pub extern "C" fn rimemagpie_card_feed(
    tail: &mut [u8; TAIL_MOST],
    kept: &mut u64,
    read: &mut u64,
    low: &mut u64,
    form: &mut u8,
    phase: &mut u8,
    piece: &[u8],
    ids: &mut [u32],
    lengths: &mut [u8],
    store: &mut [u8],
    marks: &mut [u8],
    received: &mut [u64],
    sent: &mut [u64],
) -> u8
    ensures number { let b = book_of ids.old lengths.old store.old marks.old received.old sent.old 0 in
        let st = state_of tail.old kept.old read.old low.old form.old phase.old in
        result ≡ fed_number b st piece.now }
    ensures spare { let b = book_of ids.old lengths.old store.old marks.old received.old sent.old 0 in
        let st = state_of tail.old kept.old read.old low.old form.old phase.old in
        book_of ids.new lengths.new store.new marks.new received.new sent.new 0
        ≡ fed_spare b st piece.now }
    ensures tail { let b = book_of ids.old lengths.old store.old marks.old received.old sent.old 0 in
        let st = state_of tail.old kept.old read.old low.old form.old phase.old in
        tail.new ≡ tail_place b st piece.now tail.old }
    ensures kept { let b = book_of ids.old lengths.old store.old marks.old received.old sent.old 0 in
        let st = state_of tail.old kept.old read.old low.old form.old phase.old in
        kept.new ≡ kept_place b st piece.now kept.old }
    ensures read { let b = book_of ids.old lengths.old store.old marks.old received.old sent.old 0 in
        let st = state_of tail.old kept.old read.old low.old form.old phase.old in
        read.new ≡ read_place b st piece.now read.old }
    ensures low { let b = book_of ids.old lengths.old store.old marks.old received.old sent.old 0 in
        let st = state_of tail.old kept.old read.old low.old form.old phase.old in
        low.new ≡ low_place b st piece.now low.old }
    ensures form { let b = book_of ids.old lengths.old store.old marks.old received.old sent.old 0 in
        let st = state_of tail.old kept.old read.old low.old form.old phase.old in
        form.new ≡ form_place b st piece.now form.old }
    ensures phase { let b = book_of ids.old lengths.old store.old marks.old received.old sent.old 0 in
        let st = state_of tail.old kept.old read.old low.old form.old phase.old in
        phase.new ≡ phase_place b st piece.now phase.old }
{
    let Some(state) = state_of(tail, *kept, *read, *low, *form, *phase) else {
        return refusal::number(Refusal::UnsoundBook);
    };
    let mut room = LentRoom {
        ids,
        lengths,
        store,
        marks,
        received,
        sent,
    };
    match card_pieces::feed(state, piece, &mut room) {
        Ok(after) => {
            hand_over(after, tail, kept, read, low, form, phase);
            0
        }
        Err(refusal) => refusal::number(refusal),
    }
}

// The end of a card read in pieces: copies the spare rows over to the book.
#[unsafe(no_mangle)]
pub extern "C" fn rimemagpie_card_finish(
    tail: &[u8; TAIL_MOST],
    kept: u64,
    read: u64,
    low: u64,
    form: u8,
    phase: u8,
    spare_ids: &[u32],
    spare_lengths: &[u8],
    spare_store: &[u8],
    spare_marks: &[u8],
    spare_received: &[u64],
    spare_sent: &[u64],
    ids: &mut [u32],
    lengths: &mut [u8],
    store: &mut [u8],
    marks: &mut [u8],
    received: &mut [u64],
    sent: &mut [u64],
    rows: &mut u64,
) -> u8
    ensures number { let b = book_of spare_ids.now spare_lengths.now spare_store.now spare_marks.now
        spare_received.now spare_sent.now 0 in
        let c = book_of ids.old lengths.old store.old marks.old received.old sent.old 0 in
        let st = state_of tail.now kept read low form phase in
        result ≡ result_number (ended_answer b st c) }
    ensures book { let b = book_of spare_ids.now spare_lengths.now spare_store.now spare_marks.now
        spare_received.now spare_sent.now 0 in
        let c = book_of ids.old lengths.old store.old marks.old received.old sent.old 0 in
        let st = state_of tail.now kept read low form phase in
        book_of ids.new lengths.new store.new marks.new received.new sent.new
        (rows_given (ended_answer b st c)) ≡ ended_book b st c }
    ensures rows { let b = book_of spare_ids.now spare_lengths.now spare_store.now spare_marks.now
        spare_received.now spare_sent.now 0 in
        let c = book_of ids.old lengths.old store.old marks.old received.old sent.old 0 in
        let st = state_of tail.now kept read low form phase in
        rows.new ≡ number_place rows.old (ended_answer b st c) }
{
    let Some(state) = state_of(tail, kept, read, low, form, phase) else {
        return refusal::number(Refusal::UnsoundBook);
    };
    let spare = LentBook {
        ids: spare_ids,
        lengths: spare_lengths,
        store: spare_store,
        marks: spare_marks,
        received: spare_received,
        sent: spare_sent,
        rows: 0,
    };
    let mut room = LentRoom {
        ids,
        lengths,
        store,
        marks,
        received,
        sent,
    };
    put_number(card_pieces::finish(state, spare, &mut room), rows)
}

// Compares two messages, and writes what differs, line by line, to the front of a lent room. Later bytes of the room stay as they were.
#[unsafe(no_mangle)]
pub extern "C" fn rimemagpie_compare(
    first: &[u8],
    second: &[u8],
    room: &mut [u8],
    size: &mut u64,
) -> u8
    ensures number { result ≡ result_number (compare_of first.now second.now (length room.old)) }
    ensures room { room.new ≡ room_compared first.now second.now room.old }
    ensures size { size.new ≡ number_place size.old (compare_of first.now second.now (length room.old)) }
{
    put_number(comparison::compare(first, second, room), size)
}
