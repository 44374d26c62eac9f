// MD5 (RFC 1321) over bytes that come in pieces, with a limit on their total (docs/RULES.md, 'Digests'); and its parts, for HMAC, which begins two
// messages with a block that the key makes.
// Not here: the work on one block (md5_block), and a digest that the caller lends.
#![tactic(auto)]

mod blocks;
mod pieces;

ghost use Rattle.std.specs.Prelude.{◌≡◌};
ghost use Rattle.md5_block.specs.Block.{compress};
ghost use Rattle.md5_digest.specs.Block.{load};
ghost use Rattle.md5_digest.specs.Message.{start};
ghost use Rattle.refusal.specs.Number.{given_or};
ghost use Rattle.md5_digest.specs.Entries.{no_digest, fresh, feed_of, finish_of, md5_of, after_rest};

use crate::blocks::{all_blocks, ended, words_of};
use crate::pieces::absorbed;
use md5_block::{Words, block};
pub use pieces::bytes_of;
use refusal::Refusal;

// The most bytes that one digest takes.
pub const DIGEST_MOST: usize = 65535;

// The bytes of a block, and of a digest.
pub const BLOCK_SIZE: usize = 64;

pub const DIGEST_SIZE: usize = 16;

// A digest in progress. Of the tail the first total % BLOCK_SIZE bytes count; the rest are 0 after each piece taken. An array and no `Vec`: the state goes by
// value in fixed memory, as the client named it (docs/ARCHITECTURE.md, 'Where each form stands').
#[derive(Clone, Copy, Debug, PartialEq, Eq)]
pub struct Digest {
    pub words: Words,
    pub tail: [u8; BLOCK_SIZE],
    pub total: usize,
}

// RFC 1321, section 3.3: the words before the first block.
fn start_words() -> Words
    ensures { result ≡ start }
{
    Words {
        a: 0x67452301,
        b: 0xefcdab89,
        c: 0x98badcfe,
        d: 0x10325476,
    }
}

impl Digest {
    // A fresh state.
    #[tactic(auto, unfolding(crate::specs::Entries::fresh))]
    pub fn begin() -> Digest
        ensures { result ≡ fresh }
    {
        Digest {
            words: start_words(),
            tail: [0u8; BLOCK_SIZE],
            total: 0,
        }
    }

    // The state with a piece more, which may be empty; refused where the total would pass its limit.
    #[tactic(auto, using(crate::proofs::Answers::feed_taken, crate::proofs::Answers::feed_refused))]
    pub fn feed(self, piece: &[u8]) -> Result<Digest, Refusal>
        ensures { result ≡ feed_of self piece.now }
    {
        let total = self.total;
        if DIGEST_MOST < total {
            return Err(Refusal::TooLong);
        }
        if DIGEST_MOST - total < piece.len() {
            return Err(Refusal::TooLong);
        }
        Ok(absorbed(self, piece))
    }

    // The digest of what the state has taken; refused where its total is past the limit.
    #[tactic(auto, using(crate::proofs::Answers::finish_all, crate::proofs::Answers::finish_refused))]
    pub fn finish(self) -> Result<[u8; DIGEST_SIZE], Refusal>
        ensures { result ≡ finish_of self }
    {
        let total = self.total;
        if DIGEST_MOST < total {
            return Err(Refusal::TooLong);
        }
        let tail = self.tail;
        let used = total % BLOCK_SIZE;
        let last = ended(self.words, &tail[..used], total);
        Ok(bytes_of(last))
    }
}

// The words after a message's first block.
#[tactic(auto, using(crate::proofs::Whole::load_block))]
pub fn words_after_first(first: [u8; BLOCK_SIZE]) -> Words
    ensures { result ≡ compress start (load first) }
{
    block(start_words(), words_of(&first, 0))
}

// The words after the rest of a message whose first block led to w, and after its padding. Past the limit, w as it is given.
#[tactic(auto, using(crate::proofs::Answers::after_rest_lem, crate::proofs::Answers::after_none))]
pub fn words_after_rest(w: Words, rest: &[u8]) -> Words
    ensures { result ≡ after_rest w rest.now }
{
    if DIGEST_MOST - BLOCK_SIZE < rest.len() {
        return w;
    }
    all_blocks(w, rest, BLOCK_SIZE + rest.len())
}

// The digest of a whole message; refused where it is longer than the limit.
#[tactic(auto, using(crate::proofs::Answers::md5_all, crate::proofs::Answers::md5_refused))]
pub fn md5(message: &[u8]) -> Result<[u8; DIGEST_SIZE], Refusal>
    ensures { result ≡ md5_of message.now }
{
    if DIGEST_MOST < message.len() {
        return Err(Refusal::TooLong);
    }
    let last = all_blocks(start_words(), message, message.len());
    Ok(bytes_of(last))
}

// The bytes that an answer hands over where a digest or a MAC has its place: those of the digest, and 16 zero bytes for a refusal (docs/RULES.md, 'Numbers').
pub fn handed(answer: Result<[u8; DIGEST_SIZE], Refusal>) -> [u8; DIGEST_SIZE]
    ensures { result ≡ given_or no_digest answer }
{
    answer.unwrap_or([0u8; DIGEST_SIZE])
}
