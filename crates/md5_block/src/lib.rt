// MD5's work on one block (RFC 1321, section 3.4).
// Not here: a block's bytes, padding and whole messages (md5_digest), and the same work by tables (timed_blocks).
#![tactic(auto)]

ghost use Rattle.std.specs.Prelude.{◌≡◌};
ghost use Rattle.md5_block.specs.Lent.{words_of, four_of};

mod rounds;
mod word;

pub use rounds::block;
pub use word::rotate;

// The words of a block.
pub const BLOCK_WORDS: usize = 16;

// RFC 1321, section 3.3: the four words A, B, C and D.
#[derive(Clone, Copy, Debug, PartialEq, Eq)]
pub struct Words {
    pub a: u32,
    pub b: u32,
    pub c: u32,
    pub d: u32,
}

// The words as an array has them, A first.
impl From<[u32; 4]> for Words {
    #[tactic(auto, unfolding(crate::specs::Lent::words_of))]
    fn from(words: [u32; 4]) -> Words
        ensures { result ≡ words_of words }
    {
        let [a, b, c, d] = words;
        Words { a, b, c, d }
    }
}

impl From<Words> for [u32; 4] {
    #[tactic(auto, unfolding(crate::specs::Lent::four_of))]
    fn from(w: Words) -> [u32; 4]
        ensures { result ≡ four_of w }
    {
        [w.a, w.b, w.c, w.d]
    }
}
