// Judges the recording in the file `church.pcap`, a classic capture of any size, by the key book on the card in the file `book.card`, both in the
// current folder, and writes a line for each record (verdict_line): docs/RULES.md, 'A recording'.
// The card is judged before the recording is looked at. Neither file is changed.
// Here are the reads and writes: of the file only a window is in the room, and the lines wait in a room of their own until it is nearly full. What the
// bytes mean is decided in capture and capture_verdict.
#![tactic(auto)]

ghost use Rattle.std.specs.Prelude.{◌≡◌, ◌+◌, ◌-◌, ◌≤◌, length, take};
ghost use Rattle.key_book.specs.Book.{book_of};
ghost use Rattle.verdict_line.specs.Line.{numbered_most, numbered_line, PutAt};
ghost use Rattle.capture.specs.Layout.{file_header_size, frame_most};
ghost use Rattle.capture_verdict.specs.Lines.{record_line, marks_by, received_by};
ghost use Rattle.judge_capture.specs.Window.{in_window, Gathers, AtFront, FrameGathers, NextIs, is_cut, end_line};
ghost use Rattle.judge_capture.specs.Window.{RoomMade, RoomFor, WaitsWithin, OpensAs};
ghost use Rattle.judge_capture.specs.Judging.{Judged, LinesWait, RecordingJudged};

use capture::{FILE_HEADER_SIZE, FRAME_MOST, Order, RECORD_HEADER_SIZE, RecordHeader};
use file_verdict::Progress;
use key_book::{LentRoom, ROWS_MOST, SLOT_SIZE};
use std::fs::File;
use std::io;
use std::io::Read;
use std::rt::Files;
use verdict_line::{LINE_MOST, Line, NUMBERED_MOST};

// The room for the window of the file, which the largest frame fits, and the room for the lines.
const ROOM: usize = FRAME_MOST + 1;

// The part of a room that holds bytes of the file: from one offset to another. Its two facts stand in contracts, as `Gathers` and `NextIs` give them: one of
// them is of the room too.
#[derive(Clone, Copy, Debug, PartialEq, Eq)]
struct Window {
    from: usize,
    end: usize,
}

// What was gathered of the file. The recording and the lines stand in arrays of a fixed size, with offsets: nothing is allocated.
#[derive(Clone, Copy, Debug, PartialEq, Eq)]
enum Gathered {
    // At least as many bytes as were wanted: they stand here.
    Enough(Window),
    // The file ended before; so many bytes of it are left.
    Ended(usize),
    // A read failed.
    Failed,
}

// The file's next record.
#[derive(Clone, Copy, Debug, PartialEq, Eq)]
enum Next {
    // Its frame, how many bytes the frame had, and where the window behind the frame ends.
    Record {
        frame: Window,
        original: usize,
        until: usize,
    },
    // There is none.
    AtEnd,
    // The file ends inside it, or its captured length is too large.
    Cut,
    // A read failed.
    Failed,
}

// A capture that is open: the byte order of its numbers, and the window behind its header.
#[derive(Clone, Copy, Debug, PartialEq, Eq)]
struct Opening {
    order: Order,
    window: Window,
}

// Moves the window to the room's front, and returns its size.
fn move_front(room: &mut [u8], window: Window) -> usize
    requires ordered { window.from ≤ window.end }
    requires within { window.end ≤ length room.old }
    ensures { (result ≡ window.end - window.from) × (take result room.new ≡ in_window room.old window) }
{
    room.copy_within(window.from..window.end, 0);
    window.end - window.from
}

// Reads until the window, which is at the room's front, has as many bytes as are wanted.
fn fill<F: Read>(file: &mut F, room: &mut [u8], have: usize, want: usize) -> Gathered
    requires have_in_bounds { have ≤ length room.old }
    requires want_in_bounds { want ≤ length room.old }
    ensures gathered { Gathers (take have room.old) want room.new result }
    ensures front { AtFront result }
{
    // No `for`: each read says how far it goes on.
    let mut size = have;
    while size < want {
        match program_files::read_more(file, room, size) {
            Progress::More(more) => size = more,
            Progress::Ended(Some(left)) => return Gathered::Ended(left),
            Progress::Ended(None) => return Gathered::Failed,
        }
    }
    Gathered::Enough(Window { from: 0, end: size })
}

// Sees to it that the window has as many bytes as are wanted.
fn gather<F: Read>(file: &mut F, room: &mut [u8], window: Window, want: usize) -> Gathered
    requires ordered { window.from ≤ window.end }
    requires within { window.end ≤ length room.old }
    requires want_in_bounds { want ≤ length room.old }
    ensures { Gathers (in_window room.old window) want room.new result }
{
    if want <= window.end - window.from {
        return Gathered::Enough(window);
    }
    let size = move_front(room, window);
    fill(file, room, size, want)
}

// Gathers a frame, behind its header.
fn gather_frame<F: Read>(
    file: &mut F,
    room: &mut [u8],
    window: Window,
    header: RecordHeader,
) -> Next
    requires ordered { window.from ≤ window.end }
    requires within { window.end ≤ length room.old }
    requires captured_in_bounds { header.captured ≤ length room.old }
    ensures { FrameGathers (in_window room.old window) room.new header.captured header.original result }
{
    match gather(file, room, window, header.captured) {
        Gathered::Failed => Next::Failed,
        Gathered::Ended(..) => Next::Cut,
        Gathered::Enough(Window { from, end: until }) => Next::Record {
            frame: Window {
                from,
                end: from + header.captured,
            },
            original: header.original,
            until,
        },
    }
}

// Takes the header of the next record, and then gathers its frame: so the largest frame fits the room.
fn next_record<F: Read>(file: &mut F, order: Order, room: &mut [u8], window: Window) -> Next
    requires ordered { window.from ≤ window.end }
    requires within { window.end ≤ length room.old }
    requires frame_most_in_bounds { frame_most ≤ length room.old }
    ensures { NextIs order (in_window room.old window) room.new result }
{
    match gather(file, room, window, RECORD_HEADER_SIZE) {
        Gathered::Failed => Next::Failed,
        Gathered::Ended(0) => Next::AtEnd,
        Gathered::Ended(_) => Next::Cut,
        Gathered::Enough(Window { from: at, end }) => {
            let from = at + RECORD_HEADER_SIZE;
            let Some(header) = capture::record_header(order, &room[at..from]) else {
                return Next::Cut;
            };
            let behind = Window { from, end };
            gather_frame(file, room, behind, header)
        }
    }
}

// Adds a record's line behind those that wait, and returns where it ends. Room and end go from call to call as in verdict_line: a struct of both
// would be one that holds a `&mut`, and such a one holds nothing else (tools/promises.py).
fn add_line(out: &mut [u8], size: usize, number: u64, line: Line) -> usize
    requires { size + numbered_most ≤ length out.old }
    ensures put_at { PutAt out.old size (numbered_line number line) out.new result }
    ensures upper_bound { result ≤ length out.new }
{
    size + verdict_line::write_numbered(&mut out[size..], number, line)
}

// Judges a frame that had `original` bytes, and adds the line with this number behind those that wait. It returns where the line ends. Here and below the
// book's lists come one by one, as a check takes them: two are lent to be written and the others to be read, and a struct that holds a `&mut` holds nothing
// else (tools/promises.py); a `LentRoom` would ask for leave to write them all.
fn judge_frame(
    frame: &[u8],
    original: usize,
    number: u64,
    out: &mut [u8],
    size: usize,
    ids: &[u32],
    lengths: &[u8],
    store: &[u8],
    marks: &mut [u8],
    received: &mut [u64],
    sent: &[u64],
    rows: usize,
) -> usize
    requires { size + numbered_most ≤ length out.old }
    ensures line { let b = book_of ids.now lengths.now store.now marks.old received.old sent.now rows in
        PutAt out.old size (numbered_line number (record_line b frame.now original)) out.new result }
    ensures within { result ≤ length out.new }
    ensures marked { let b = book_of ids.now lengths.now store.now marks.old received.old sent.now rows in
        marks.new ≡ marks_by b frame.now original }
    ensures stored { let b = book_of ids.now lengths.now store.now marks.old received.old sent.now rows in
        received.new ≡ received_by b frame.now original }
{
    let line = capture_verdict::record_line(
        frame, original, ids, lengths, store, marks, received, sent, rows,
    );
    add_line(out, size, number, line)
}

// Writes the lines that wait if there may be no room for one more.
fn make_room<P: Print>(rt: &P, out: &[u8], size: usize) -> io::Result<usize>
    requires numbered_most_in_bounds { numbered_most ≤ length out.now }
    requires size_in_bounds { size ≤ length out.now }
    ensures left { RoomMade size (length out.now) result }
    ensures fits { RoomFor (length out.now) result }
{
    if size <= out.len() - NUMBERED_MOST {
        return Ok(size);
    }
    rt.write_all(&out[..size])?;
    Ok(0)
}

// Whether the line `cut` is written where this comes next.
fn is_cut(next: Next) -> bool
    ensures { result ≡ is_cut next }
{
    matches!(next, Next::Cut | Next::Failed)
}

// Adds the line `cut` behind those that wait, where this comes next and wants it, and returns where they end.
fn add_end(out: &mut [u8], size: usize, next: Next) -> usize
    requires { size + numbered_most ≤ length out.old }
    ensures put_at { PutAt out.old size (end_line next) out.new result }
    ensures upper_bound { result ≤ length out.new }
{
    if is_cut(next) {
        return size + verdict_line::write_line(&mut out[size..], Line::Cut);
    }
    size
}

// Judges the records of a capture, of which the room holds the window behind the file's header. The lines that it returns wait to be written. A write
// that fails ends it, and so would record number 2^64 - 1, which no file has.
fn judge_records<F: Read, P: Print>(
    file: &mut F,
    rt: &P,
    order: Order,
    room: &mut [u8],
    start: Window,
    out: &mut [u8],
    ids: &[u32],
    lengths: &[u8],
    store: &[u8],
    marks: &mut [u8],
    received: &mut [u64],
    sent: &[u64],
    rows: usize,
) -> io::Result<usize>
    requires start_ordered { start.from ≤ start.end }
    requires start_within { start.end ≤ length room.old }
    requires frame_most_in_bounds { frame_most ≤ length room.old }
    requires numbered_most_in_bounds { numbered_most ≤ length out.old }
    ensures judged { let b = book_of ids.now lengths.now store.now marks.old received.old sent.now rows in
        Judged order b (in_window room.old start) marks.new received.new }
    ensures within { WaitsWithin (length out.new) result }
    ensures lines { let b = book_of ids.now lengths.now store.now marks.old received.old sent.now rows in
        LinesWait order b (in_window room.old start) marks.new received.new out.new result }
{
    let mut size: usize = 0;
    let mut window = start;
    for number in 1..=u64::MAX {
        let next = next_record(file, order, room, window);
        let Next::Record {
            frame,
            original,
            until,
        } = next
        else {
            return Ok(add_end(out, size, next));
        };
        let added = judge_frame(
            &room[frame.from..frame.end],
            original,
            number,
            out,
            size,
            ids,
            lengths,
            store,
            marks,
            received,
            sent,
            rows,
        );
        size = make_room(rt, out, added)?;
        window = Window {
            from: frame.end,
            end: until,
        };
    }
    Ok(size)
}

// Looks at the header of an open file; None where it is no capture.
fn open_capture<F: Read>(file: &mut F, room: &mut [u8]) -> Option<Opening>
    requires { file_header_size ≤ length room.old }
    ensures { OpensAs room.new result }
{
    let Gathered::Enough(Window { from: at, end }) = fill(file, room, 0, FILE_HEADER_SIZE) else {
        return None;
    };
    let from = at + FILE_HEADER_SIZE;
    let order = capture::file_header(&room[at..from])?;
    let window = Window { from, end };
    Some(Opening { order, window })
}

fn write_unreadable<P: Print>(rt: &P) -> io::Result<()> {
    let mut out = [0u8; LINE_MOST];
    let size = verdict_line::write_line(&mut out, Line::Unreadable);
    rt.write_all(&out[..size])
}

// Judges the recording by the lent book, if there is one.
fn judge_recording<R: Files + Print>(
    rt: &R,
    ids: &[u32],
    lengths: &[u8],
    store: &[u8],
    marks: &mut [u8],
    received: &mut [u64],
    sent: &[u64],
    rows: usize,
) -> io::Result<()>
    ensures { let b = book_of ids.now lengths.now store.now marks.old received.old sent.now rows in
        RecordingJudged b marks.new received.new }
{
    let Ok(mut file) = File::open(rt, "church.pcap") else {
        return write_unreadable(rt);
    };
    let mut room = [0u8; ROOM];
    let Some(capture) = open_capture(&mut file, &mut room) else {
        return write_unreadable(rt);
    };
    let mut out = [0u8; ROOM];
    let size = judge_records(
        &mut file,
        rt,
        capture.order,
        &mut room,
        capture.window,
        &mut out,
        ids,
        lengths,
        store,
        marks,
        received,
        sent,
        rows,
    )?;
    rt.write_all(&out[..size])
}

fn main(rt: HostRuntime) -> io::Result<()> {
    // Arrays of a fixed size, since nothing is allocated; a `LentRoom` of them is given by no function (tools/promises.py).
    let mut ids = [0u32; ROWS_MOST];
    let mut lengths = [0u8; ROWS_MOST];
    let mut store = [0u8; ROWS_MOST * SLOT_SIZE];
    let mut marks = [0u8; ROWS_MOST];
    let mut received = [0u64; ROWS_MOST];
    let mut sent = [0u64; ROWS_MOST];
    let loaded = program_files::load_book(
        &rt,
        &mut LentRoom {
            ids: &mut ids,
            lengths: &mut lengths,
            store: &mut store,
            marks: &mut marks,
            received: &mut received,
            sent: &mut sent,
        },
    );
    match loaded {
        Err(_) => write_unreadable(&rt),
        Ok(rows) => judge_recording(
            &rt,
            &ids,
            &lengths,
            &store,
            &mut marks,
            &mut received,
            &sent,
            rows,
        ),
    }
}
