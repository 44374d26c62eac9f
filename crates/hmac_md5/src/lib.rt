// HMAC-MD5 (RFC 2104) for keys up to a block (docs/RULES.md, 'Digests').
// Not here: longer keys, which RFC 2104 digests first (the definition has them); they are refused.
#![tactic(auto)]

ghost use Rattle.std.specs.Prelude.{◌≡◌, ◌++◌, map, ◌+◌, ◌≤◌, length, bit_xor};
ghost use Rattle.octets.specs.Bytes.{filled};
ghost use Rattle.md5_digest.specs.Block.{block_size, load};
ghost use Rattle.md5_digest.specs.Message.{padding, output};
ghost use Rattle.md5_digest.specs.Entries.{digest_size};
ghost use Rattle.hmac_md5.specs.Hmac.{hmac_of};

use md5_block::{BLOCK_WORDS, Words};
use md5_digest::{BLOCK_SIZE, DIGEST_SIZE};
use refusal::Refusal;

// The longest key that is taken.
const KEY_MOST: usize = 64;

// The longest text, as RFC 2104 calls the message: what a digest takes, less the block that the key fills.
const TEXT_MOST: usize = md5_digest::DIGEST_MOST - BLOCK_SIZE;

// RFC 2104, section 2: the bytes of ipad and opad.
const INNER: u8 = 0x36;

const OUTER: u8 = 0x5c;

// The bits of the outer message: the key's block, and the inner digest.
const OUTER_BITS: u32 = 640;

// The key with zeros after it up to a block.
fn padded_key(key: &[u8]) -> [u8; BLOCK_SIZE]
    requires { length key.now ≤ block_size }
    ensures { result ≡ filled block_size key.now }
{
    let mut block = [0u8; BLOCK_SIZE];
    octets::copy(key, &mut block, 0);
    block
}

// A block, each byte by exclusive or with a mask.
#[tactic(auto, using(std::proofs::lemmas::List::take_all, std::proofs::lemmas::List::drop_all))]
fn masked_block(block: [u8; BLOCK_SIZE], mask: u8) -> [u8; BLOCK_SIZE]
    ensures { result ≡ map (λ b. bit_xor b mask) block }
{
    // By place, so that the limit is a number of its own, which an edit of must-fail/ moves.
    let mut masked = block;
    for i in 0..BLOCK_SIZE {
        masked[i] ^= mask;
    }
    masked
}

// The words of the outer message's second and last block: the inner digest, whose bytes are those of its words, and the padding.
fn last_block(inner: Words) -> [u32; BLOCK_WORDS]
    ensures { result ≡ load (output inner ++ padding (block_size + digest_size)) }
{
    [
        inner.a, inner.b, inner.c, inner.d, 0x80, 0, 0, 0, 0, 0, 0, 0, 0, 0, OUTER_BITS, 0,
    ]
}

// The MAC of a message under a key; refused where the key is longer than a block or the inner digest would pass its limit. Both blocks that the key
// makes come first, and the inner digest goes on as words: nothing is written out as bytes in between.
#[tactic(auto, using(crate::proofs::Masks::hmac_key_refused, crate::proofs::Masks::hmac_text_refused))]
pub fn hmac(key: &[u8], message: &[u8]) -> Result<[u8; DIGEST_SIZE], Refusal>
    ensures { result ≡ hmac_of key.now message.now }
{
    if KEY_MOST < key.len() {
        return Err(Refusal::TooLong);
    }
    if TEXT_MOST < message.len() {
        return Err(Refusal::TooLong);
    }
    let padded = padded_key(key);
    let inner = md5_digest::words_after_first(masked_block(padded, INNER));
    let outer = md5_digest::words_after_first(masked_block(padded, OUTER));
    let last = last_block(md5_digest::words_after_rest(inner, message));
    Ok(md5_digest::bytes_of(md5_block::block(outer, last)))
}
