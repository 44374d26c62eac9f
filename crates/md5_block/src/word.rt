// What a step does with words of 32 bits: it sums them up and turns the sum.
ghost use Rattle.std.specs.Prelude.{◌≡◌, ◌%◌};
ghost use Rattle.md5_block.specs.Word.{add32, rotl};

// x turned left by s bits; 32 bits are a whole turn.
pub fn rotate(x: u32, s: u32) -> u32
    ensures { result ≡ rotl x (s % 32) }
{
    x.rotate_left(s)
}

// The sum of a, a word and a step's constant. Word and constant are added by their bits, those that differ and twice those that both have: a constant
// that is simply added is moved to the end of the whole sum by the compiler, where the next step waits for it.
#[tactic(auto, using(crate::proofs::Forms::sum_by_bits))]
pub(crate) fn sum_of(a: u32, word: u32, constant: u32) -> u32
    ensures { result ≡ add32 a (add32 word constant) }
{
    let both = (word ^ constant).wrapping_add((word & constant) << 1);
    a.wrapping_add(both)
}
