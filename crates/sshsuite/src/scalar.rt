//! Numbers modulo the order L of the group of edwards25519 (RFC 8032 section 5.1).

ghost use Rattle.std.specs.Prelude.{◌≡◌, ◌<◌, ◌≤◌, ◌+◌, ◌*◌, ◌-◌, ◌%◌, ◌^◌, ◌==◌, if◌then◌else◌, nat_lt, length};
ghost use Rattle.sshcurve.specs.Bits.{number_of_32};
ghost use Rattle.sshcurve.specs.Scalar.{bytes_of_halves, encode_scalar, number_in, order};
ghost use Rattle.sshsuite.specs.Scalar.{number};

use crate::bits::{bit_at, word_at};
use crate::constant_time::select_compared;

/// A number below 2^256, in two halves.
#[derive(Clone, Copy)]
pub(crate) struct Scalar {
    high: u128,
    low: u128,
}

/// The upper half of L.
const ORDER_HIGH: u128 = 0x10000000000000000000000000000000;

/// The lower half of L.
const ORDER_LOW: u128 = 0x14def9dea2f79cd65812631a5cf5d3ed;

/// 2^127.
const HIGHEST_BIT: u128 = 0x80000000000000000000000000000000;

/// 1 where the first is less than the second, else 0.
#[inline(always)]
fn is_less(a: u128, b: u128) -> u128
    ensures { result ≡ (if nat_lt a b then 1 else 0) }
{
    u128::from(a < b)
}

/// 1 where the number is below L, else 0.
fn is_below_order(a: Scalar) -> u128
    ensures { result ≡ (if nat_lt (number a) order then 1 else 0) }
{
    is_less(a.high, ORDER_HIGH + is_less(a.low, ORDER_LOW))
}

/// The number less L, where it isn't below it.
fn less_order(a: Scalar) -> Scalar
    ensures { order ≤ number a → number result + order ≡ number a }
{
    Scalar {
        high: a
            .high
            .wrapping_sub(ORDER_HIGH)
            .wrapping_sub(is_less(a.low, ORDER_LOW)),
        low: a.low.wrapping_sub(ORDER_LOW),
    }
}

/// The second number where the bit is 1, else the first.
fn select_scalar(a: Scalar, b: Scalar, bit: u128) -> Scalar
    requires { bit < 2 }
    ensures { result ≡ (if bit == 1 then b else a) }
{
    let Scalar { high, low } = a;
    Scalar {
        high: select_compared(high, b.high, bit),
        low: select_compared(low, b.low, bit),
    }
}

/// The remainder of a number below 2 L.
fn reduced(a: Scalar) -> Scalar
    requires { number a < 2 * order }
    ensures { number result ≡ number a % order }
{
    select_scalar(less_order(a), a, is_below_order(a))
}

/// The sum of two numbers.
fn sum_of(a: Scalar, b: Scalar) -> Scalar
    requires a { number a < order }
    requires b { number b < order }
    ensures { number result ≡ (number a + number b) % order }
{
    let low = a.low.wrapping_add(b.low);
    reduced(Scalar {
        high: a.high + b.high + is_less(low, a.low),
        low,
    })
}

/// Twice the first number, and the second where the bit is 1. The sum is made in either case.
fn double_and_add(a: Scalar, b: Scalar, bit: u64) -> Scalar
    requires bit { bit < 2 }
    requires a { number a < order }
    requires b { number b < order }
    ensures { number result ≡ (2 * number a + bit * number b) % order }
{
    let twice = sum_of(a, a);
    select_scalar(twice, sum_of(twice, b), u128::from(bit))
}

/// The number of these bytes, the lowest first, times the other.
#[tactic(auto, using(crate::specs::Scalar::times_none, crate::specs::Scalar::times_more), unfolding(sshcurve::specs::Scalar::number_in))]
fn times(bytes: &[u8], b: Scalar) -> Scalar
    requires bytes { length bytes.now ≤ 64 }
    requires b { number b < order }
    ensures { number result ≡ number_in bytes.now * number b % order }
{
    let bits = 8 * bytes.len();
    let mut product = Scalar { high: 0, low: 0 };
    for i in 0..bits {
        let next = double_and_add(product, b, bit_at(bytes, bits - 1 - i));
        product = next;
    }
    product
}

/// Twice the number, and the bit.
fn double_and_bit(a: Scalar, bit: u64) -> Scalar
    requires bit { bit < 2 }
    requires a { number a < order }
    ensures { number result ≡ (2 * number a + bit) % order }
{
    reduced(Scalar {
        high: a.high * 2 + a.low / HIGHEST_BIT,
        low: a.low % HIGHEST_BIT * 2 + u128::from(bit),
    })
}

/// The number of these bytes, the lowest first.
#[tactic(auto, using(crate::specs::Scalar::from_none, crate::specs::Scalar::from_more), unfolding(sshcurve::specs::Scalar::number_in))]
pub(crate) fn scalar_from(bytes: &[u8]) -> Scalar
    requires { length bytes.now ≤ 64 }
    ensures { number result ≡ number_in bytes.now % order }
{
    let bits = 8 * bytes.len();
    let mut sum = Scalar { high: 0, low: 0 };
    for i in 0..bits {
        let next = double_and_bit(sum, bit_at(bytes, bits - 1 - i));
        sum = next;
    }
    sum
}

/// The number of these bytes times the second, and the third.
pub(crate) fn times_plus(bytes: &[u8], b: Scalar, c: Scalar) -> Scalar
    requires bytes { length bytes.now ≤ 64 }
    requires b { number b < order }
    requires c { number c < order }
    ensures { number result ≡ (number_in bytes.now * number b + number c) % order }
{
    sum_of(times(bytes, b), c)
}

/// 32 bytes of two halves, the lowest first.
#[tactic(auto, unfolding(sshcurve::specs::Scalar::bytes_of_halves))]
fn bytes_of_halves(low: u128, high: u128) -> [u8; 32]
    ensures { result ≡ bytes_of_halves low high }
{
    let mut bytes = [0; 32];
    bytes[0..16].copy_from_slice(&low.to_le_bytes());
    bytes[16..32].copy_from_slice(&high.to_le_bytes());
    bytes
}

/// The 32 bytes of a number, the lowest first.
#[tactic(auto, using(crate::specs::Scalar::encode_halves))]
pub(crate) fn encode_scalar(a: Scalar) -> [u8; 32]
    ensures { result ≡ encode_scalar (number a) }
{
    bytes_of_halves(a.low, a.high)
}

/// The number of two words.
#[inline(always)]
fn wide(low: u64, high: u64) -> u128
    ensures { result ≡ low + 2 ^ 64 * high }
{
    u128::from(low) + (u128::from(high) << 64)
}

/// Whether these bytes are those of a number below L (RFC 8032 section 5.1.7: s).
#[tactic(auto, unfolding(sshcurve::specs::Bits::number_of_32))]
pub(crate) fn is_reduced(bytes: &[u8]) -> bool
    requires { length bytes.now ≡ 32 }
    ensures { result ≡ nat_lt (number_of_32 bytes.now) order }
{
    let low = wide(word_at(bytes, 0), word_at(bytes, 8));
    let high = wide(word_at(bytes, 16), word_at(bytes, 24));
    is_below_order(Scalar { high, low }) == 1
}
