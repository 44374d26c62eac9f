// How a digest in progress takes a piece, and the bytes of the digest.
// Not here: the limit on the total, which the entries keep (lib.rt).
ghost use Rattle.std.specs.Prelude.{◌≡◌, ◌+◌, ◌*◌, ◌≤◌, length};
ghost use Rattle.md5_digest.specs.Message.{output};
ghost use Rattle.md5_digest.specs.Entries.{digest_most, settle, absorb};

use crate::blocks::{whole_blocks, words_of};
use crate::{BLOCK_SIZE, DIGEST_SIZE, Digest};
use md5_block::{Words, block};

// The state after the words w and the bytes of s: whole blocks go through the block function, and what is left stays in the tail.
#[tactic(auto, using(crate::proofs::Absorb::settled_lem))]
fn settled(w: Words, s: &[u8], total: usize) -> Digest
    ensures { result ≡ settle s.now w total }
{
    let words = whole_blocks(w, s);
    let from = s.len() - s.len() % BLOCK_SIZE;
    let mut tail = [0u8; BLOCK_SIZE];
    octets::copy(&s[from..], &mut tail, 0);
    Digest { words, tail, total }
}

// The state with a piece more: the first bytes fill the tail, the others are taken straight from the piece. The bound is far above what the
// entries ask for, and keeps every sum from wrapping.
#[tactic(auto, using(crate::proofs::Absorb::absorb_short, crate::proofs::Absorb::tail_short))]
pub(crate) fn absorbed(d: Digest, piece: &[u8]) -> Digest
    requires { d.total + length piece.now ≤ 2 * digest_most }
    ensures { result ≡ absorb d piece.now }
{
    let words = d.words;
    let mut tail = d.tail;
    let total = d.total + piece.len();
    let used = d.total % BLOCK_SIZE;
    let gap = BLOCK_SIZE - used;
    if piece.len() < gap {
        octets::copy(piece, &mut tail, used);
        octets::clear(&mut tail, used + piece.len(), gap - piece.len());
        return Digest { words, tail, total };
    }
    octets::copy(&piece[..gap], &mut tail, used);
    let first = block(words, words_of(&tail, 0));
    settled(first, &piece[gap..], total)
}

// RFC 1321, section 3.5: the four words' bytes, lowest first. By `put_little`, whose law the digest's definition is written in, and not by `to_le_bytes`.
pub fn bytes_of(w: Words) -> [u8; DIGEST_SIZE]
    ensures { result ≡ output w }
{
    let mut bytes = [0u8; DIGEST_SIZE];
    octets::put_little(&mut bytes, 0, 4, w.a as u64);
    octets::put_little(&mut bytes, 4, 4, w.b as u64);
    octets::put_little(&mut bytes, 8, 4, w.c as u64);
    octets::put_little(&mut bytes, 12, 4, w.d as u64);
    bytes
}
