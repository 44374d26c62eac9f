// Server rows as they are lent: their marks, and whether sizes and marks are sound.
ghost use Rattle.std.specs.Prelude.{◌≡◌, ◌<◌, length};
ghost use Rattle.forcerenew.specs.Rows.{SoundRows, marks_known, sound_rows, row_at};
ghost use Rattle.forcerenew.specs.Lent.{servers_in, server_in};

use crate::Nonce;
use crate::layout::NONCE_SIZE;

// Marks are bytes and no enum: the host lends them as a list (C), and a byte above these makes the rows unsound.
// The mark of a row without a nonce: its nonce bytes and its counter say nothing.
pub const NONE_YET: u8 = 0;
// The mark of one with a nonce under which nothing was heard: any counter is new, and its counter says nothing.
pub const NOT_HEARD: u8 = 1;
// The mark of one that is heard: a counter above its own is new.
pub const HEARD: u8 = 2;

// The lent rows, for reading. Lists and no list of rows: C lends them so.
#[derive(Clone, Copy)]
pub(crate) struct LentServers<'s> {
    pub nonces: &'s [u8],
    pub counters: &'s [u64],
    pub marks: &'s [u8],
}

// One row.
#[derive(Clone, Copy)]
pub(crate) struct LentServer<'s> {
    pub nonce: Nonce<'s>,
    pub counter: u64,
    pub mark: u8,
}

// Whether every mark is one of the three. The loop has no way out: the compiler then compares several rows at a time.
#[tactic(auto, using(crate::proofs::Soundness::known_more), unfolding(crate::specs::Rows::marks_known))]
fn marks_known(marks: &[u8]) -> bool
    ensures { result ≡ marks_known marks.now }
{
    let mut known = true;
    for &mark in marks {
        known &= mark <= HEARD;
    }
    known
}

impl<'s> LentServers<'s> {
    // Whether the sizes are those of the same number of rows, and every mark is one of the three. The nonces' size is divided: 16 times the rows may be
    // more than a size can be.
    #[tactic(auto, using(crate::proofs::Soundness::nonces_rows), unfolding(crate::specs::Rows::sound_rows))]
    pub(crate) fn is_sound(self) -> bool
        ensures { result ≡ sound_rows (servers_in self.entry) }
    {
        self.nonces.len() % NONCE_SIZE == 0
            && self.nonces.len() / NONCE_SIZE == self.marks.len()
            && self.counters.len() == self.marks.len()
            && marks_known(self.marks)
    }

    // The row at an index, of sound rows.
    pub(crate) fn row(self, row: usize) -> LentServer<'s>
        requires sound { SoundRows (servers_in self) }
        requires there { row < length self.marks.now }
        ensures { server_in result ≡ row_at (servers_in self.entry) row }
    {
        let from = NONCE_SIZE * row;
        LentServer {
            nonce: Nonce {
                bytes: &self.nonces[from..from + NONCE_SIZE],
            },
            counter: self.counters[row],
            mark: self.marks[row],
        }
    }
}
