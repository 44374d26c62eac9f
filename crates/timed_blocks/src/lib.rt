// Both ways to do MD5's work on one block (RFC 1321, section 3.4), as C calls them, for the bench (bench/bench.c) and the comparison
// (tests/compare/tests/blocks.rs) alone: md5_block's, which is written out by round, and the one that reads tables (table.rt). Both have the same
// equation, so they give the same words for every state and every block. The library's own interface is the crate rimemagpie.
#![tactic(auto)]

mod table;

ghost use Rattle.std.specs.Prelude.{◌≡◌};
ghost use Rattle.md5_block.specs.Block.{compress};
ghost use Rattle.md5_block.specs.Lent.{words_of, four_of};

use crate::table::by_table;
use md5_block::{BLOCK_WORDS, Words};

// The words after a block, by md5_block's block. C has an entry for each of the two works that are compared.
#[unsafe(no_mangle)]
pub extern "C" fn block_written_out(words: &mut [u32; 4], block: &[u32; BLOCK_WORDS])
    ensures { words.new ≡ four_of (compress (words_of words.old) block.now) }
{
    let w = md5_block::block(Words::from(*words), *block);
    *words = <[u32; 4]>::from(w);
}

// The words after a block, by the tables.
#[unsafe(no_mangle)]
pub extern "C" fn block_by_table(words: &mut [u32; 4], block: &[u32; BLOCK_WORDS])
    ensures { words.new ≡ four_of (compress (words_of words.old) block.now) }
{
    let w = by_table(Words::from(*words), *block);
    *words = <[u32; 4]>::from(w);
}
