// RFC 1321, section 3.4: a block of sixteen words through the four rounds, written out: every step has its word, its constant and its rotation in
// it, and nothing is looked up by the step's number. One step or round for all four, by tables, takes almost twice the time
// (timed_blocks; docs/ARCHITECTURE.md, 'Speed'); what the four steps share is `sum_of` and `turned`, and they differ in where b comes in.
//
// A step needs the word b that the step before it made, and the machine waits for nothing else: what does not hang on b is summed up first, F takes
// b once, and G, whose two parts share no bit, is added in these parts. proofs/Forms.antt has the laws about bits that make this RFC 1321's step.
ghost use Rattle.std.specs.Prelude.{◌≡◌, ◌%◌};
ghost use Rattle.md5_block.specs.Word.{add32, rotl};
ghost use Rattle.md5_block.specs.Block.{step_with, round, compress};

use crate::word::{rotate, sum_of};
use crate::{BLOCK_WORDS, Words};

// The words turned by one place, with the sum that a step has made, turned left by s bits, added to b.
fn turned(w: Words, sum: u32, s: u32) -> Words
    ensures { result ≡ record { a = w.d; b = add32 w.b (rotl sum (s % 32)); c = w.b; d = w.c } }
{
    Words {
        a: w.d,
        b: w.b.wrapping_add(rotate(sum, s)),
        c: w.b,
        d: w.c,
    }
}

// A step of the first round: F takes c's bit where b has a 1, and else d's.
fn first_step(w: Words, word: u32, constant: u32, s: u32) -> Words
    ensures { result ≡ step_with 0 word constant (s % 32) w }
{
    let sum = sum_of(w.a, word, constant);
    turned(w, sum.wrapping_add(w.d ^ (w.b & (w.c ^ w.d))), s)
}

// A step of the second round: G takes b's bit where d has a 1, and else c's. The part without b comes first.
fn second_step(w: Words, word: u32, constant: u32, s: u32) -> Words
    ensures { result ≡ step_with 1 word constant (s % 32) w }
{
    let sum = sum_of(w.a, word, constant);
    let part = sum.wrapping_add(w.c & !w.d);
    turned(w, part.wrapping_add(w.b & w.d), s)
}

// A step of the third round, with H.
#[tactic(auto, using(crate::proofs::Steps::step_made, crate::proofs::Forms::in_order_lem), unfolding(crate::specs::Word::auxiliary))]
fn third_step(w: Words, word: u32, constant: u32, s: u32) -> Words
    ensures { result ≡ step_with 2 word constant (s % 32) w }
{
    let sum = sum_of(w.a, word, constant);
    turned(w, sum.wrapping_add(w.b ^ w.c ^ w.d), s)
}

// A step of the fourth round, with I.
#[tactic(auto, using(crate::proofs::Steps::step_made, crate::proofs::Forms::in_order_lem), unfolding(crate::specs::Word::auxiliary))]
fn fourth_step(w: Words, word: u32, constant: u32, s: u32) -> Words
    ensures { result ≡ step_with 3 word constant (s % 32) w }
{
    let sum = sum_of(w.a, word, constant);
    turned(w, sum.wrapping_add(w.c ^ (w.b | !w.d)), s)
}

fn first_round(w: Words, x: [u32; BLOCK_WORDS]) -> Words
    ensures { result ≡ round x 0 w }
{
    let w1 = first_step(w, x[0], 0xd76aa478, 7);
    let w2 = first_step(w1, x[1], 0xe8c7b756, 12);
    let w3 = first_step(w2, x[2], 0x242070db, 17);
    let w4 = first_step(w3, x[3], 0xc1bdceee, 22);
    let w5 = first_step(w4, x[4], 0xf57c0faf, 7);
    let w6 = first_step(w5, x[5], 0x4787c62a, 12);
    let w7 = first_step(w6, x[6], 0xa8304613, 17);
    let w8 = first_step(w7, x[7], 0xfd469501, 22);
    let w9 = first_step(w8, x[8], 0x698098d8, 7);
    let w10 = first_step(w9, x[9], 0x8b44f7af, 12);
    let w11 = first_step(w10, x[10], 0xffff5bb1, 17);
    let w12 = first_step(w11, x[11], 0x895cd7be, 22);
    let w13 = first_step(w12, x[12], 0x6b901122, 7);
    let w14 = first_step(w13, x[13], 0xfd987193, 12);
    let w15 = first_step(w14, x[14], 0xa679438e, 17);
    first_step(w15, x[15], 0x49b40821, 22)
}

fn second_round(w: Words, x: [u32; BLOCK_WORDS]) -> Words
    ensures { result ≡ round x 1 w }
{
    let w1 = second_step(w, x[1], 0xf61e2562, 5);
    let w2 = second_step(w1, x[6], 0xc040b340, 9);
    let w3 = second_step(w2, x[11], 0x265e5a51, 14);
    let w4 = second_step(w3, x[0], 0xe9b6c7aa, 20);
    let w5 = second_step(w4, x[5], 0xd62f105d, 5);
    let w6 = second_step(w5, x[10], 0x02441453, 9);
    let w7 = second_step(w6, x[15], 0xd8a1e681, 14);
    let w8 = second_step(w7, x[4], 0xe7d3fbc8, 20);
    let w9 = second_step(w8, x[9], 0x21e1cde6, 5);
    let w10 = second_step(w9, x[14], 0xc33707d6, 9);
    let w11 = second_step(w10, x[3], 0xf4d50d87, 14);
    let w12 = second_step(w11, x[8], 0x455a14ed, 20);
    let w13 = second_step(w12, x[13], 0xa9e3e905, 5);
    let w14 = second_step(w13, x[2], 0xfcefa3f8, 9);
    let w15 = second_step(w14, x[7], 0x676f02d9, 14);
    second_step(w15, x[12], 0x8d2a4c8a, 20)
}

fn third_round(w: Words, x: [u32; BLOCK_WORDS]) -> Words
    ensures { result ≡ round x 2 w }
{
    let w1 = third_step(w, x[5], 0xfffa3942, 4);
    let w2 = third_step(w1, x[8], 0x8771f681, 11);
    let w3 = third_step(w2, x[11], 0x6d9d6122, 16);
    let w4 = third_step(w3, x[14], 0xfde5380c, 23);
    let w5 = third_step(w4, x[1], 0xa4beea44, 4);
    let w6 = third_step(w5, x[4], 0x4bdecfa9, 11);
    let w7 = third_step(w6, x[7], 0xf6bb4b60, 16);
    let w8 = third_step(w7, x[10], 0xbebfbc70, 23);
    let w9 = third_step(w8, x[13], 0x289b7ec6, 4);
    let w10 = third_step(w9, x[0], 0xeaa127fa, 11);
    let w11 = third_step(w10, x[3], 0xd4ef3085, 16);
    let w12 = third_step(w11, x[6], 0x04881d05, 23);
    let w13 = third_step(w12, x[9], 0xd9d4d039, 4);
    let w14 = third_step(w13, x[12], 0xe6db99e5, 11);
    let w15 = third_step(w14, x[15], 0x1fa27cf8, 16);
    third_step(w15, x[2], 0xc4ac5665, 23)
}

fn fourth_round(w: Words, x: [u32; BLOCK_WORDS]) -> Words
    ensures { result ≡ round x 3 w }
{
    let w1 = fourth_step(w, x[0], 0xf4292244, 6);
    let w2 = fourth_step(w1, x[7], 0x432aff97, 10);
    let w3 = fourth_step(w2, x[14], 0xab9423a7, 15);
    let w4 = fourth_step(w3, x[5], 0xfc93a039, 21);
    let w5 = fourth_step(w4, x[12], 0x655b59c3, 6);
    let w6 = fourth_step(w5, x[3], 0x8f0ccc92, 10);
    let w7 = fourth_step(w6, x[10], 0xffeff47d, 15);
    let w8 = fourth_step(w7, x[1], 0x85845dd1, 21);
    let w9 = fourth_step(w8, x[8], 0x6fa87e4f, 6);
    let w10 = fourth_step(w9, x[15], 0xfe2ce6e0, 10);
    let w11 = fourth_step(w10, x[6], 0xa3014314, 15);
    let w12 = fourth_step(w11, x[13], 0x4e0811a1, 21);
    let w13 = fourth_step(w12, x[4], 0xf7537e82, 6);
    let w14 = fourth_step(w13, x[11], 0xbd3af235, 10);
    let w15 = fourth_step(w14, x[2], 0x2ad7d2bb, 15);
    fourth_step(w15, x[9], 0xeb86d391, 21)
}

// One block through the four rounds, added to the words before it.
#[tactic(auto, unfolding(crate::specs::Block::compress))]
pub fn block(w: Words, x: [u32; BLOCK_WORDS]) -> Words
    ensures { result ≡ compress w x }
{
    let w1 = first_round(w, x);
    let w2 = second_round(w1, x);
    let w3 = third_round(w2, x);
    let w4 = fourth_round(w3, x);
    Words {
        a: w.a.wrapping_add(w4.a),
        b: w.b.wrapping_add(w4.b),
        c: w.c.wrapping_add(w4.c),
        d: w.d.wrapping_add(w4.d),
    }
}
