// The key book as the host lends it: whether it is sound, the key of a row (docs/RULES.md, 'The key book'); and whether an id is known ('Is an id known?').
// Not here: what a mark and the counters decide (delayed_auth) and the card on which a book is stored (book_card).
//
// A book has room for n rows: ids, key lengths, marks and two rows of counters have n elements, and the key store a slot of SLOT_SIZE bytes per row.
// Only the first `rows` of them are in use. Slot bytes past a key, and rows from `rows` on, affect no answer.
#![tactic(auto)]

ghost use Rattle.std.specs.Prelude.{◌≡◌, ◌≤◌, length};
ghost use Rattle.key_book.specs.Book.{sized, ascending, key_sizes, mark_fits, marks_heard, marks_fit, sound};
ghost use Rattle.key_book.specs.Book.{key_in, key_start, moved_on};
ghost use Rattle.key_book.specs.Halving.{known_of};
ghost use Rattle.key_book.specs.Lent.{book_in, room_in};

// The most rows in use.
pub const ROWS_MOST: usize = 256;
// The bytes of a row's slot in the key store, and so of the longest key.
pub const SLOT_SIZE: usize = 64;
// The most rows that there may be room for.
pub const ROOM_MOST: usize = 1024;

// Marks are bytes and no enum: the host lends them as a list (C), and a byte that is neither makes the book unsound.
// The mark of a row that is not heard: nothing was accepted under it yet, its received counter is 0, and any counter is new.
pub const NOT_HEARD: u8 = 0;
// The mark of one that is heard: a counter above the received one is new.
pub const HEARD: u8 = 1;

// A book that is lent to be read. Lists and no list of rows: C lends them so.
#[derive(Clone, Copy)]
pub struct LentBook<'b> {
    pub ids: &'b [u32],
    pub lengths: &'b [u8],
    pub store: &'b [u8],
    pub marks: &'b [u8],
    pub received: &'b [u64],
    pub sent: &'b [u64],
    pub rows: usize,
}

// The lists of a book, lent to be written: its rows are read from a card. Whoever reads the card says how many of them are in use.
// That the sizes agree stands in the contracts that need it: any lists may be lent, and no type holds a room (tools/promises.py).
#[derive(Drop)]
pub struct LentRoom<'b> {
    pub ids: &'b mut [u32],
    pub lengths: &'b mut [u8],
    pub store: &'b mut [u8],
    pub marks: &'b mut [u8],
    pub received: &'b mut [u64],
    pub sent: &'b mut [u64],
}

// What a search by halving comes to.
#[derive(Clone, Copy, Debug, PartialEq, Eq)]
pub enum Sought {
    // The id stands in this row, and so many ids were looked at.
    Stands(usize, usize),
    // It was not met, and so many ids were looked at.
    Missing(usize),
    // The list is longer than ROOM_MOST or the count is above it: nothing was looked at.
    Unsized,
}

// Whether each of the first ids is below the next of them. The loop has no way out: the compiler then compares several rows at a time.
// By index: over `windows(2)` a turn of it is 18 instructions, and so 15 (LLVM, x86-64-v2).
#[tactic(auto, using(crate::proofs::Below::below_none, crate::proofs::Steps::rises_more, crate::proofs::Steps::rises_end))]
fn ids_ascend(ids: &[u32], rows: usize) -> bool
    requires { rows ≤ length ids.now }
    ensures { result ≡ ascending ids.now rows }
{
    let mut ascend = true;
    for k in 1..rows {
        ascend &= ids[k - 1] < ids[k];
    }
    ascend
}

// Whether each of the first key lengths is 1 to SLOT_SIZE. The loop has no way out, as in `ids_ascend`.
#[tactic(auto, using(crate::proofs::Below::below_none, crate::proofs::Below::below_more, crate::proofs::Steps::keyed_end))]
fn keys_sized(lengths: &[u8], rows: usize) -> bool
    requires { rows ≤ length lengths.now }
    ensures { result ≡ key_sizes lengths.now rows }
{
    let mut sized = true;
    for &length in &lengths[..rows] {
        sized &= (1 <= length) & (length as usize <= SLOT_SIZE);
    }
    sized
}

// Whether a row's mark is one of the two, and its received counter 0 where it is not heard. By cases: with `||` and `&&` the loop in `marks_fit` loads
// the eight bytes of a heard row's counter too.
#[tactic(auto, unfolding(crate::specs::Book::mark_fits))]
pub fn mark_fits(mark: u8, received: u64) -> bool
    ensures { result ≡ mark_fits mark received }
{
    match mark {
        HEARD => true,
        NOT_HEARD => received == 0,
        _ => false,
    }
}

// Whether each of the first rows is heard. The loop has no way out, as in `ids_ascend`.
#[tactic(auto, using(crate::proofs::Below::below_none, crate::proofs::Below::below_more, crate::proofs::Steps::heard_end))]
fn marks_heard(marks: &[u8], rows: usize) -> bool
    requires { rows ≤ length marks.now }
    ensures { result ≡ marks_heard marks.now rows }
{
    let mut heard = true;
    for &mark in &marks[..rows] {
        heard &= mark == HEARD;
    }
    heard
}

// Whether the mark of each of the first rows fits its received counter. The marks alone come first: where all rows are heard any counters fit, so
// these, at eight bytes a row, are looked at only where a row is not heard.
#[tactic(auto, using(crate::proofs::Steps::heard_fit, crate::proofs::Steps::fitting_all))]
fn marks_fit(marks: &[u8], received: &[u64], rows: usize) -> bool
    requires rows_in_bounds { rows ≤ length marks.now }
    requires rows_in_bounds_2 { rows ≤ length received.now }
    ensures { result ≡ marks_fit marks.now received.now rows }
{
    if marks_heard(marks, rows) {
        return true;
    }
    marks[..rows]
        .iter()
        .zip(&received[..rows])
        .all(|(&mark, &counter)| mark_fits(mark, counter))
}

impl LentBook<'_> {
    // Whether all lists have room for the same number of rows, and for no more than ROOM_MOST.
    #[tactic(auto, unfolding(crate::specs::Book::sized))]
    pub fn sizes_agree(self) -> bool
        ensures { result ≡ sized (book_in self.entry) }
    {
        let room = self.ids.len();
        room <= ROOM_MOST
            && self.lengths.len() == room
            && self.store.len() == SLOT_SIZE * room
            && self.marks.len() == room
            && self.received.len() == room
            && self.sent.len() == room
    }

    // Whether the book is sound. It reads the sizes, the row count, and of the rows in use the ids, the key lengths, the marks, and the received counters of
    // those that are not heard.
    #[tactic(auto, unfolding(crate::specs::Book::sound))]
    pub fn is_sound(self) -> bool
        ensures { result ≡ sound (book_in self.entry) }
    {
        if !self.sizes_agree() {
            return false;
        }
        self.rows <= self.ids.len()
            && self.rows <= ROWS_MOST
            && ids_ascend(self.ids, self.rows)
            && keys_sized(self.lengths, self.rows)
            && marks_fit(self.marks, self.received, self.rows)
    }
}

impl LentRoom<'_> {
    // The same of lists that are lent to be written.
    pub fn sizes_agree(&self) -> bool
        ensures { result ≡ sized (room_in self.now 0) }
    {
        let book = LentBook {
            ids: self.ids,
            lengths: self.lengths,
            store: self.store,
            marks: self.marks,
            received: self.received,
            sent: self.sent,
            rows: 0,
        };
        book.sizes_agree()
    }
}

// Whether an id stands in the first `count` rows, by halving (docs/RULES.md, 'Is an id known?'). Nothing is asked of the list: on ids that don't ascend the
// answer is what these steps give.
pub fn known(ids: &[u32], count: usize, id: u32) -> Sought
    ensures { result ≡ known_of ids.now count id }
{
    if ROOM_MOST < ids.len() || ids.len() < count {
        return Sought::Unsized;
    }
    // By hand: the library's `binary_search` says nothing of how many ids it looks at, and that number is promised.
    let mut low = 0;
    let mut high = count;
    let mut looks = 0;
    while low < high {
        let middle = (low + high) / 2;
        let there = ids[middle];
        looks += 1;
        if there == id {
            return Sought::Stands(middle, looks);
        } else if id < there {
            high = middle;
        } else {
            low = middle + 1;
        }
    }
    Sought::Missing(looks)
}

// The key of a row, as the part of the store itself. Where it does not fit (no sound book has such a row in use), the empty part at the store's start: no
// `Option`, as in `key_of_message`, which hands it on.
pub fn key_of<'k, 'l>(store: &'k [u8], lengths: &'l [u8], row: usize) -> &'k [u8]
    ensures content { result.now ≡ key_in store.now lengths.now row }
    ensures place { result.ref_ptr ≡ moved_on store.entry.ref_ptr (key_start store.now lengths.now row) }
{
    if lengths.len() <= row {
        return &store[..0];
    }
    if store.len() / SLOT_SIZE < row {
        return &store[..0];
    }
    let start = SLOT_SIZE * row;
    let size = lengths[row] as usize;
    if store.len() - start < size {
        return &store[..0];
    }
    &store[start..start + size]
}
