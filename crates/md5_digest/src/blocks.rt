// The blocks of a list of bytes: the words of each, all of them one after the other, and the last ones with the padding.
// Not here: the work on one block (md5_block).
ghost use Rattle.std.specs.Prelude.{◌≡◌, ◌++◌, ◌+◌, ◌%◌, ◌≤◌, length, take, drop};
ghost use Rattle.octets.specs.Numbers.{little_at};
ghost use Rattle.md5_digest.specs.Block.{block_size, load, whole};
ghost use Rattle.md5_digest.specs.Message.{padding};
ghost use Rattle.md5_digest.specs.Entries.{digest_most};

use crate::BLOCK_SIZE;
use md5_block::{BLOCK_WORDS, Words, block};

// The bytes in which the number of a message's bits ends the padding.
const COUNT_SIZE: usize = 8;

// The word at byte `at`, the lowest byte first. A function of its own, so that the compiler sees it as one load before it looks at the loop of
// `words_of`.
fn word(s: &[u8], at: usize) -> u32
    requires { at + 4 ≤ length s.now }
    ensures { result ≡ little_at s.now at 4 }
{
    octets::little(s, at, 4) as u32
}

// The sixteen words of the block at byte `at`.
pub(crate) fn words_of(s: &[u8], at: usize) -> [u32; BLOCK_WORDS]
    requires { at + block_size ≤ length s.now }
    ensures { result ≡ load (take block_size (drop at s.now)) }
{
    let mut x = [0u32; BLOCK_WORDS];
    for i in 0..BLOCK_WORDS {
        x[i] = word(s, at + 4 * i);
    }
    x
}

// The words after every whole block of s.
#[tactic(auto, using(crate::proofs::Whole::blocks_few, crate::proofs::Whole::whole_turn))]
pub(crate) fn whole_blocks(w: Words, s: &[u8]) -> Words
    ensures { result ≡ whole s.now w }
{
    let mut v = w;
    for bytes in s.chunks_exact(BLOCK_SIZE) {
        v = block(v, words_of(bytes, 0));
    }
    v
}

// The words after what is left of a message of `total` bytes behind its whole blocks, and after its padding (RFC 1321, sections 3.1 and 3.2): one
// block more, or two.
pub(crate) fn ended(w: Words, rest: &[u8], total: usize) -> Words
    requires { (length rest.now ≡ total % block_size) × (total ≤ digest_most) }
    ensures { result ≡ whole (rest.now ++ padding total) w }
{
    let used = rest.len();
    let size = BLOCK_SIZE * (1 + (used + COUNT_SIZE) / BLOCK_SIZE);
    let mut room = [0u8; 2 * BLOCK_SIZE];
    octets::copy(rest, &mut room, 0);
    room[used] = 0x80;
    octets::put_little(&mut room, size - COUNT_SIZE, COUNT_SIZE, total as u64 * 8);
    whole_blocks(w, &room[..size])
}

// The words after all of s, which ends a message of `total` bytes, and after its padding.
#[tactic(auto, using(crate::proofs::Whole::part_rest, crate::proofs::Whole::whole_append))]
pub(crate) fn all_blocks(w: Words, s: &[u8], total: usize) -> Words
    requires { (length s.now % block_size ≡ total % block_size) × (total ≤ digest_most) }
    ensures { result ≡ whole (s.now ++ padding total) w }
{
    let words = whole_blocks(w, s);
    let from = s.len() - s.len() % BLOCK_SIZE;
    ended(words, &s[from..], total)
}
