// MD5's work on one block (RFC 1321, section 3.4) by tables: additive constants and rotations are read by the step's number.
// It is here to be timed beside md5_block's, which is written out, and to be compared with it. Nothing else calls it.
ghost use Rattle.std.specs.Prelude.{◌≡◌, ◌%◌, ◌<◌};
ghost use Rattle.md5_block.specs.Word.{block_words, auxiliary, word_no};
ghost use Rattle.md5_block.specs.Block.{step_with, round, compress};

use md5_block::{BLOCK_WORDS, Words, rotate};

// The 64 additive constants by the number of the step, T[i] the whole part of 2^32 * abs(sin(i + 1)).
const ADDITIVE: [u32; 64] = [
    0xd76aa478, 0xe8c7b756, 0x242070db, 0xc1bdceee, 0xf57c0faf, 0x4787c62a, 0xa8304613, 0xfd469501,
    0x698098d8, 0x8b44f7af, 0xffff5bb1, 0x895cd7be, 0x6b901122, 0xfd987193, 0xa679438e, 0x49b40821,
    0xf61e2562, 0xc040b340, 0x265e5a51, 0xe9b6c7aa, 0xd62f105d, 0x02441453, 0xd8a1e681, 0xe7d3fbc8,
    0x21e1cde6, 0xc33707d6, 0xf4d50d87, 0x455a14ed, 0xa9e3e905, 0xfcefa3f8, 0x676f02d9, 0x8d2a4c8a,
    0xfffa3942, 0x8771f681, 0x6d9d6122, 0xfde5380c, 0xa4beea44, 0x4bdecfa9, 0xf6bb4b60, 0xbebfbc70,
    0x289b7ec6, 0xeaa127fa, 0xd4ef3085, 0x04881d05, 0xd9d4d039, 0xe6db99e5, 0x1fa27cf8, 0xc4ac5665,
    0xf4292244, 0x432aff97, 0xab9423a7, 0xfc93a039, 0x655b59c3, 0x8f0ccc92, 0xffeff47d, 0x85845dd1,
    0x6fa87e4f, 0xfe2ce6e0, 0xa3014314, 0x4e0811a1, 0xf7537e82, 0xbd3af235, 0x2ad7d2bb, 0xeb86d391,
];

// The sixteen rotations, four to a round.
const ROTATIONS: [u32; 16] = [7, 12, 17, 22, 5, 9, 14, 20, 4, 11, 16, 23, 6, 10, 15, 21];

// The auxiliary functions F, G, H and I, by the round's number, as the tables are read by the step's (docs/ARCHITECTURE.md, 'Where each form stands').
#[tactic(auto, unfolding(md5_block::specs::Word::auxiliary))]
fn auxiliary_of(r: usize, x: u32, y: u32, z: u32) -> u32
    ensures { result ≡ auxiliary r x y z }
{
    match r {
        0 => (x & y) | (!x & z),
        1 => (x & z) | (y & !z),
        2 => x ^ y ^ z,
        _ => y ^ (x | !z),
    }
}

// The word of the block that step i of round r takes.
#[tactic(auto, unfolding(md5_block::specs::Word::word_no))]
fn word_no(r: usize, i: usize) -> usize
    requires { i < block_words }
    ensures { (result ≡ word_no r i) × (result < block_words) }
{
    match r {
        0 => i,
        1 => (1 + 5 * i) % BLOCK_WORDS,
        2 => (5 + 3 * i) % BLOCK_WORDS,
        _ => 7 * i % BLOCK_WORDS,
    }
}

// One step of round r, with the four words turned by one place.
fn step(w: Words, r: usize, word: u32, constant: u32, s: u32) -> Words
    ensures { result ≡ step_with r word constant (s % 32) w }
{
    let f = auxiliary_of(r, w.b, w.c, w.d);
    let sum = w
        .a
        .wrapping_add(f)
        .wrapping_add(word)
        .wrapping_add(constant);
    Words {
        a: w.d,
        b: w.b.wrapping_add(rotate(sum, s)),
        c: w.b,
        d: w.c,
    }
}

// The sixteen steps of round r, the tables read by the step's number. They are bound first: an index into a constant copies the whole table.
fn one_round(w: Words, x: [u32; BLOCK_WORDS], r: usize) -> Words
    requires { r < 4 }
    ensures { result ≡ round x r w }
{
    let additive = ADDITIVE;
    let rotations = ROTATIONS;
    let mut v = w;
    for i in 0..BLOCK_WORDS {
        let k = word_no(r, i);
        v = step(
            v,
            r,
            x[k],
            additive[BLOCK_WORDS * r + i],
            rotations[4 * r + i % 4],
        );
    }
    v
}

// One block through the four rounds, added to the words before it. The sums stand here again: what is compared shares no step with md5_block's block.
pub(crate) fn by_table(w: Words, x: [u32; BLOCK_WORDS]) -> Words
    ensures { result ≡ compress w x }
{
    let w0 = one_round(w, x, 0);
    let w1 = one_round(w0, x, 1);
    let w2 = one_round(w1, x, 2);
    let w3 = one_round(w2, x, 3);
    Words {
        a: w.a.wrapping_add(w3.a),
        b: w.b.wrapping_add(w3.b),
        c: w.c.wrapping_add(w3.c),
        d: w.d.wrapping_add(w3.d),
    }
}
