//! Powers modulo odd numbers of at most 8192 bits, where all numbers are public: how long they take tells of each.

ghost use Rattle.std.specs.Prelude.{◌≡◌, ◌<◌, ◌≤◌, ◌+◌, ◌-◌, ◌*◌, ◌%◌, ◌^◌, ◌==◌, ℕ, length, slice_index, take};
ghost use Rattle.sshsuite.specs.Group14.{number_high};
ghost use Rattle.sshsuite.specs.LongNumbers.{number_of, weight};

use crate::long_numbers::{is_below, read_words};
use crate::montgomery::product;

/// A number below 2^8192.
pub(crate) type Number = [u64; 128];

/// The number 1.
fn one() -> Number
    ensures { number_of result ≡ 1 }
{
    let mut number = [0; 128];
    number[0] = 1;
    number
}

/// The number of 1024 bytes, the highest first.
pub(crate) fn number_of_bytes(bytes: &[u8; 1024]) -> Number
    ensures { number_of result ≡ number_high bytes.now }
{
    let mut number = [0; 128];
    read_words(&mut number, bytes);
    number
}

/// A number of which twice as many bits are right: the odd number times it, and 1, is the square of what that was.
fn refined(odd: u64, inverse: u64) -> u64
    ensures { (odd * result + 1) % 2 ^ 64 ≡ (odd * inverse + 1) * (odd * inverse + 1) % 2 ^ 64 }
{
    inverse.wrapping_mul(odd.wrapping_mul(inverse).wrapping_add(2))
}

/// The number that an odd one times it, and 1, is a multiple of 2^64.
fn inverse_of(odd: u64) -> u64
    requires { odd % 2 ≡ 1 }
    ensures { (odd * result + 1) % 2 ^ 64 ≡ 0 }
{
    let two = refined(odd, 1);
    let four = refined(odd, two);
    let eight = refined(odd, four);
    let sixteen = refined(odd, eight);
    let half = refined(odd, sixteen);
    refined(odd, half)
}

/// How many words there are up to the last that isn't zero.
fn used_words(number: &Number) -> usize
    ensures within { result ≤ 128 }
    ensures holds { number_of number.now < weight result }
{
    let mut used = 0;
    for i in 0..number.len() {
        if number[i] != 0 {
            used = i + 1;
        }
    }
    used
}

/// The first words of a number, which has no others.
fn front(number: &Number, words: usize) -> &[u64]
    requires within { words ≤ 128 }
    requires holds { number_of number.now < weight words }
    ensures taken { result.now ≡ take words number.now }
    ensures long { length result.now ≡ words }
    ensures same { number_of result.now ≡ number_of number.now }
{
    &number[..words]
}

/// The product of two numbers and of one through 2^64 for each word of the modulus, modulo that.
fn times(a: &Number, b: &Number, modulus: &Number, words: usize, inverse: u64) -> Number
    requires some { 0 < words }
    requires within { words ≤ 128 }
    requires inverse { (slice_index modulus.now 0 * inverse + 1) % 2 ^ 64 ≡ 0 }
    requires modulus { number_of modulus.now < weight words }
    requires a { number_of a.now < weight words }
    requires b { number_of b.now < number_of modulus.now }
    ensures remainder { weight words * number_of result % number_of modulus.now ≡ number_of a.now * number_of b.now % number_of modulus.now }
    ensures below { number_of result < number_of modulus.now }
{
    let a = front(a, words);
    let b = front(b, words);
    let modulus = front(modulus, words);
    let mut out = [0; 128];
    let (low, _) = out.split_at_mut(words);
    product(low, a, b, modulus, inverse);
    out
}

/// The square, and where the exponent is odd times the base.
fn power_step(
    power: &Number,
    base: &Number,
    exponent: u64,
    modulus: &Number,
    words: usize,
    inverse: u64,
) -> Number
    requires some { 0 < words }
    requires within { words ≤ 128 }
    requires modulus { number_of modulus.now < weight words }
    requires inverse { (slice_index modulus.now 0 * inverse + 1) % 2 ^ 64 ≡ 0 }
    requires power { number_of power.now < number_of modulus.now }
    requires base { number_of base.now < number_of modulus.now }
    ensures powers { (n : ℕ) → weight words ^ n * number_of power.now % number_of modulus.now ≡ number_of base.now ^ (n + 1) % number_of modulus.now
        → weight words ^ (2 * n + 1 + exponent % 2) * number_of result % number_of modulus.now ≡ number_of base.now ^ (2 * n + 1 + exponent % 2 + 1) % number_of modulus.now }
    ensures below { number_of result < number_of modulus.now }
{
    let square = times(power, power, modulus, words, inverse);
    if exponent % 2 == 1 {
        times(&square, base, modulus, words, inverse)
    } else {
        square
    }
}

/// The power, which 2^64 for each word of the modulus divides once less than the exponent tells: so the base begins as it is.
fn scaled_power(
    base: &Number,
    exponent: u64,
    modulus: &Number,
    words: usize,
    inverse: u64,
) -> Number
    requires words { 0 < words }
    requires within { words ≤ 128 }
    requires modulus { number_of modulus.now < weight words }
    requires inverse { (slice_index modulus.now 0 * inverse + 1) % 2 ^ 64 ≡ 0 }
    requires base { number_of base.now < number_of modulus.now }
    requires some { 0 < exponent }
    requires exponent { exponent < 2 ^ 32 }
    ensures power { weight words ^ (exponent - 1) * number_of result % number_of modulus.now ≡ number_of base.now ^ exponent % number_of modulus.now }
    ensures below { number_of result < number_of modulus.now }
{
    let mut power = *base;
    for i in 0u64..32 {
        let bits = exponent >> (31 - i);
        if bits > 1 {
            power = power_step(&power, base, bits, modulus, words, inverse);
        }
    }
    power
}

/// Whether two numbers are the same.
fn is_same(a: &Number, b: &Number) -> bool
    ensures { result ≡ (number_of a.now == number_of b.now) }
{
    is_below(a, b) == 0 && is_below(b, a) == 0
}

/// Whether a number to an exponent is another one, modulo an odd number. Both sides are divided, as often as the exponent tells, by 2^64
/// for each word of that.
pub(crate) fn is_power(base: &Number, exponent: u64, found: &Number, modulus: &Number) -> bool
    requires odd { number_of modulus.now % 2 ≡ 1 }
    requires one { 1 < number_of modulus.now }
    requires base { number_of base.now < number_of modulus.now }
    requires some { 0 < exponent }
    requires exponent { exponent < 2 ^ 32 }
    ensures { result ≡ (number_of base.now ^ exponent % number_of modulus.now == number_of found.now) }
{
    if is_below(found, modulus) == 0 {
        return false;
    }
    let words = used_words(modulus);
    let inverse = inverse_of(modulus[0]);
    let power = scaled_power(base, exponent, modulus, words, inverse);
    let scale = scaled_power(&one(), exponent, modulus, words, inverse);
    let own = times(&power, &one(), modulus, words, inverse);
    let other = times(&scale, found, modulus, words, inverse);
    is_same(&own, &other)
}
