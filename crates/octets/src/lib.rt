// Bytes, and numbers in so many of them: copied, cleared, compared, read and written at an offset. These functions serve the other crates, whose proofs show
// that what they ask for fits; no entry of the library is here. They take a list and an offset, and no slice: the definitions (`written`, `little_at`,
// `big_at`) are of the whole list, so what stays is said too.
// Not here: what the bytes of a message, a card or a line mean.
#![tactic(auto)]

ghost use Rattle.std.specs.Prelude.{◌≡◌, ◌+◌, ◌≤◌, ◌<◌, ◌^◌, length};
ghost use Rattle.octets.specs.Bytes.{written, zeros, same_bytes};
ghost use Rattle.octets.specs.Numbers.{le, little_at, be, big_at};

// Copies all of `from` to an offset of `to`.
#[tactic(auto, unfolding(crate::specs::Bytes::written))]
pub fn copy(from: &[u8], to: &mut [u8], at: usize)
    requires { at + length from.now ≤ length to.old }
    ensures { to.new ≡ written at from.now to.old }
{
    to[at..at + from.len()].copy_from_slice(from);
}

// Sets count bytes, from an offset on, to 0.
#[tactic(auto, unfolding(crate::specs::Bytes::written))]
pub fn clear(to: &mut [u8], at: usize, count: usize)
    requires { at + count ≤ length to.old }
    ensures { to.new ≡ written at (zeros count) to.old }
{
    to[at..at + count].fill(0);
}

// Whether two byte strings are the same. Of two that are as long every byte is looked at, so that the time says nothing about where they differ.
#[tactic(auto, using(crate::proofs::Comparing::lengths_differ))]
pub fn same(a: &[u8], b: &[u8]) -> bool
    ensures { result ≡ same_bytes a.now b.now }
{
    if a.len() != b.len() {
        return false;
    }
    let mut agree = true;
    for (x, y) in a.iter().zip(b) {
        agree &= *x == *y;
    }
    agree
}

// The number at an offset, in so many bytes, the lowest first. The library's `from_le_bytes` takes an array, of one width; here the width is an argument.
#[tactic(auto, using(crate::proofs::Loops::low_read))]
pub fn little(s: &[u8], at: usize, width: usize) -> u64
    requires width_bound { width ≤ 8 }
    requires width_in_bounds { at + width ≤ length s.now }
    ensures { (result ≡ little_at s.now at width) × (result < 256 ^ width) }
{
    let mut x: u64 = 0;
    for byte in s[at..at + width].iter().rev() {
        x = *byte as u64 + 256 * x;
    }
    x
}

// The number at an offset, in so many bytes, the highest first. Its loop stands beside that of `little`: one loop for both would take the bytes as an
// iterator, and its contract on what that yields would be longer than the loop.
#[tactic(auto, using(crate::proofs::Loops::high_read))]
pub fn big(s: &[u8], at: usize, width: usize) -> u64
    requires width_bound { width ≤ 8 }
    requires width_in_bounds { at + width ≤ length s.now }
    ensures { (result ≡ big_at s.now at width) × (result < 256 ^ width) }
{
    let mut x: u64 = 0;
    for byte in &s[at..at + width] {
        x = 256 * x + *byte as u64;
    }
    x
}

// Writes a number at an offset, in so many bytes, the lowest first; of a larger number its lowest bytes. Beside `put_big`, as `little` beside `big`.
#[tactic(auto, using(crate::proofs::Loops::low_put))]
pub fn put_little(to: &mut [u8], at: usize, width: usize, x: u64)
    requires { at + width ≤ length to.old }
    ensures { to.new ≡ written at (le width x) to.old }
{
    let mut rest = x;
    for byte in &mut to[at..at + width] {
        *byte = (rest % 256) as u8;
        rest /= 256;
    }
}

// The same, the highest byte first. By index: what `iter_mut().rev()` lends comes back name by name, and no law of the library makes a list of it.
#[tactic(auto, using(crate::proofs::Loops::putting_high_end))]
pub fn put_big(to: &mut [u8], at: usize, width: usize, x: u64)
    requires { at + width ≤ length to.old }
    ensures { to.new ≡ written at (be width x) to.old }
{
    let mut rest = x;
    for i in (0..width).rev() {
        to[at + i] = (rest % 256) as u8;
        rest /= 256;
    }
}
