// The digest in progress as C calls it, for the tests alone (tests/compare/tests/digests.rs): each entry puts the state together from what
// is lent, calls md5_digest's entry, and takes the state apart again. The library's own interface is the crate rimemagpie.
#![tactic(auto)]

ghost use Rattle.std.specs.Prelude.{◌≡◌};
ghost use Rattle.refusal.specs.Number.{result_number, given_or};
ghost use Rattle.md5_digest.specs.Entries.{fresh, feed_of, finish_of, no_digest};
ghost use Rattle.digest_steps.specs.State.{state_of, four_words};

use md5_block::Words;
use md5_digest::{BLOCK_SIZE, DIGEST_SIZE, Digest};

// The state of four words, a tail and a total.
#[tactic(auto, unfolding(crate::specs::State::state_of, md5_block::specs::Lent::words_of))]
fn state_of(words: &[u32; 4], tail: &[u8; BLOCK_SIZE], total: u64) -> Digest
    ensures { result ≡ state_of words.now tail.now total }
{
    Digest {
        words: Words::from(*words),
        tail: *tail,
        total: total as usize,
    }
}

// Hands a state over to what is lent.
#[tactic(auto, unfolding(crate::specs::State::four_words, md5_block::specs::Lent::four_of))]
fn hand_over(state: Digest, words: &mut [u32; 4], tail: &mut [u8; BLOCK_SIZE], total: &mut u64)
    ensures words { words.new ≡ four_words state }
    ensures tail { tail.new ≡ state.tail }
    ensures total { total.new ≡ state.total }
{
    // By way of a name: Rattle has no proof yet of a field's array that is stored straight.
    let bytes = state.tail;
    *words = <[u32; 4]>::from(state.words);
    *tail = bytes;
    *total = state.total as u64;
}

// A fresh state.
#[unsafe(no_mangle)]
pub extern "C" fn digest_begin(words: &mut [u32; 4], tail: &mut [u8; BLOCK_SIZE], total: &mut u64)
    ensures words { words.new ≡ four_words fresh }
    ensures tail { tail.new ≡ fresh.tail }
    ensures total { total.new ≡ fresh.total }
{
    hand_over(Digest::begin(), words, tail, total);
}

// The state with a piece more; of a piece that is refused, the state as it is lent.
#[unsafe(no_mangle)]
pub extern "C" fn digest_feed(
    words: &mut [u32; 4],
    tail: &mut [u8; BLOCK_SIZE],
    total: &mut u64,
    piece: &[u8],
) -> u8
    ensures number { let d = state_of words.old tail.old total.old in
        result ≡ result_number (feed_of d piece.now) }
    ensures words { let d = state_of words.old tail.old total.old in
        words.new ≡ four_words (given_or d (feed_of d piece.now)) }
    ensures tail { let d = state_of words.old tail.old total.old in
        tail.new ≡ (given_or d (feed_of d piece.now)).tail }
    ensures total { let d = state_of words.old tail.old total.old in
        total.new ≡ (given_or d (feed_of d piece.now)).total }
{
    match state_of(words, tail, *total).feed(piece) {
        Ok(state) => {
            hand_over(state, words, tail, total);
            0
        }
        Err(refusal) => refusal::number(refusal),
    }
}

// The digest of what the state has taken; of a total past the limit, zeros.
#[unsafe(no_mangle)]
pub extern "C" fn digest_finish(
    words: &[u32; 4],
    tail: &[u8; BLOCK_SIZE],
    total: u64,
    digest: &mut [u8; DIGEST_SIZE],
) -> u8
    ensures number { result ≡ result_number (finish_of (state_of words.now tail.now total)) }
    ensures bytes { digest.new ≡ given_or no_digest (finish_of (state_of words.now tail.now total)) }
{
    let answer = state_of(words, tail, total).finish();
    *digest = md5_digest::handed(answer);
    refusal::result_number(answer)
}
