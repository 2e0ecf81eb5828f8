//! Products modulo an odd number of any length, as Montgomery has them: word by word, with no division.

ghost use Rattle.std.specs.Prelude.{◌≡◌, ◌<◌, ◌+◌, ◌*◌, ◌%◌, ◌^◌, length, slice_index};
ghost use Rattle.sshsuite.specs.LongNumbers.{number_of, weight};

use crate::long_numbers::{add_product, high, is_below, low, shift_down, subtract_where};

/// The number with the word above it, and so many times the other, and the modulus so often that the lowest word is zero: one
/// word down. It gives the word above.
fn step(sum: &mut [u64], top: u64, times: u64, number: &[u64], modulus: &[u64], inverse: u64) -> u64
    requires some { 0 < length modulus.now }
    requires sum_long { length sum.old ≡ length modulus.now }
    requires number_long { length number.now ≡ length modulus.now }
    requires inverse { (slice_index modulus.now 0 * inverse + 1) % 2 ^ 64 ≡ 0 }
    requires sum { number_of sum.old + weight (length modulus.now) * top < 2 * number_of modulus.now }
    requires number { number_of number.now < number_of modulus.now }
    ensures remainder { 2 ^ 64 * (number_of sum.new + weight (length modulus.now) * result) % number_of modulus.now
        ≡ (number_of sum.old + weight (length modulus.now) * top + times * number_of number.now) % number_of modulus.now }
    ensures below { number_of sum.new + weight (length modulus.now) * result < 2 * number_of modulus.now }
{
    let first = add_product(sum, times, number);
    let multiple = sum[0].wrapping_mul(inverse);
    let second = add_product(sum, multiple, modulus);
    let above = u128::from(top) + u128::from(first) + u128::from(second);
    shift_down(sum, low(above));
    high(above)
}

/// Subtracts the modulus from a number below twice the modulus, with the word above it, where it isn't below the modulus.
fn reduce(sum: &mut [u64], top: u64, modulus: &[u64])
    requires long { length sum.old ≡ length modulus.now }
    requires sum { number_of sum.old + weight (length modulus.now) * top < 2 * number_of modulus.now }
    ensures { number_of sum.new ≡ (number_of sum.old + weight (length modulus.now) * top) % number_of modulus.now }
{
    let bit = top + 1 - is_below(sum, modulus);
    let _borrow = subtract_where(sum, modulus, bit);
}

/// The product of two numbers and of one through 2^64 for each word, modulo the modulus.
pub(crate) fn product(out: &mut [u64], a: &[u64], b: &[u64], modulus: &[u64], inverse: u64)
    requires some { 0 < length modulus.now }
    requires out_long { length out.old ≡ length modulus.now }
    requires a_long { length a.now ≡ length modulus.now }
    requires b_long { length b.now ≡ length modulus.now }
    requires inverse { (slice_index modulus.now 0 * inverse + 1) % 2 ^ 64 ≡ 0 }
    requires b { number_of b.now < number_of modulus.now }
    ensures remainder { weight (length modulus.now) * number_of out.new % number_of modulus.now ≡ number_of a.now * number_of b.now % number_of modulus.now }
    ensures below { number_of out.new < number_of modulus.now }
{
    out.fill(0);
    let mut top = 0;
    for i in 0..a.len() {
        top = step(out, top, a[i], b, modulus, inverse);
    }
    reduce(out, top, modulus);
}
