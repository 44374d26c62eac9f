// What is said of a record of a capture: that it is skipped, or what a check of its payload by the lent book says. docs/RULES.md, 'A recording'.
// Not here: the capture's format (capture), reading it (the program judge_capture) and the bytes of a line (verdict_line).
//
// The book is lent as ids, key lengths, key store, marks, received counters, sent counters and row count, in this order and one by one, as a check takes it.
#![tactic(auto)]

ghost use Rattle.std.specs.Prelude.{◌≡◌};
ghost use Rattle.key_book.specs.Book.{book_of};
ghost use Rattle.capture_verdict.specs.Lines.{record_line, marks_by, received_by};

use capture::Payload;
use verdict_line::Line;

// The line for a record without its number, from the captured bytes of its frame and the length that the frame had. The lent book takes the counter of
// an accepted message and marks its row heard, so that both count for the records behind.
pub fn record_line(
    frame: &[u8],
    original: usize,
    ids: &[u32],
    lengths: &[u8],
    store: &[u8],
    marks: &mut [u8],
    received: &mut [u64],
    sent: &[u64],
    rows: usize,
) -> Line
    ensures answer { let b = book_of ids.now lengths.now store.now marks.old received.old sent.now rows in
        result ≡ record_line b frame.now original }
    ensures marked { let b = book_of ids.now lengths.now store.now marks.old received.old sent.now rows in
        marks.new ≡ marks_by b frame.now original }
    ensures stored { let b = book_of ids.now lengths.now store.now marks.old received.old sent.now rows in
        received.new ≡ received_by b frame.now original }
{
    let Some(Payload { at, size }) = capture::payload_place(frame, original) else {
        return Line::Skipped;
    };
    let end = at + size;
    let verdict = delayed_auth::check(
        ids,
        lengths,
        store,
        marks,
        received,
        sent,
        rows,
        &frame[at..end],
    );
    file_verdict::line_of(verdict)
}
