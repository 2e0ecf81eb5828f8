//! The method diffie-hellman-group14-sha256 (RFC 4253 section 8, RFC 8268), over group 14 (RFC 3526 section 3).

ghost use Rattle.std.specs.Prelude.{◌≡◌, ◌<◌, ◌≤◌, ◌+◌, ◌*◌, ◌%◌, ◌^◌, ◌==◌, if◌then◌else◌, nat_lt, true, IfOk, Some, None, ℕ, drop, length, option_map, slice_index};
ghost use Rattle.sshsuite.specs.Group14.{bytes_high, generator, group14_share, group14_shared, is_positive_body, is_within, number_body, number_high, peer_number, power, prime, secret_body, secret_with};
ghost use Rattle.sshsuite.specs.LongNumbers.{number_of, weight};

use crate::bits::bit_at;
use crate::long_numbers::{is_below, read_words, select_words};
use crate::montgomery::product;
use crate::mpint::mpint_body;
use sshwire::Memory;
use std::alloc::Global;

/// A number below 2^2048.
type Number = [u64; 32];

/// The prime of group 14 (RFC 3526 section 3).
const PRIME: Number = [
    0xffffffffffffffff,
    0x15728e5a8aacaa68,
    0x15d2261898fa0510,
    0x3995497cea956ae5,
    0xde2bcbf695581718,
    0xb5c55df06f4c52c9,
    0x9b2783a2ec07a28f,
    0xe39e772c180e8603,
    0x32905e462e36ce3b,
    0xf1746c08ca18217c,
    0x670c354e4abc9804,
    0x9ed529077096966d,
    0x1c62f356208552bb,
    0x83655d23dca3ad96,
    0x69163fa8fd24cf5f,
    0x98da48361c55d39a,
    0xc2007cb8a163bf05,
    0x49286651ece45b3d,
    0xae9f24117c4b1fe6,
    0xee386bfb5a899fa5,
    0x0bff5cb6f406b7ed,
    0xf44c42e9a637ed6b,
    0xe485b576625e7ec6,
    0x4fe1356d6d51c245,
    0x302b0a6df25f1437,
    0xef9519b3cd3a431b,
    0x514a08798e3404dd,
    0x020bbea63b139b22,
    0x29024e088a67cc74,
    0xc4c6628b80dc1cd1,
    0xc90fdaa22168c234,
    0xffffffffffffffff,
];

/// The prime less one.
const PRIME_LESS_ONE: Number = [
    0xfffffffffffffffe,
    0x15728e5a8aacaa68,
    0x15d2261898fa0510,
    0x3995497cea956ae5,
    0xde2bcbf695581718,
    0xb5c55df06f4c52c9,
    0x9b2783a2ec07a28f,
    0xe39e772c180e8603,
    0x32905e462e36ce3b,
    0xf1746c08ca18217c,
    0x670c354e4abc9804,
    0x9ed529077096966d,
    0x1c62f356208552bb,
    0x83655d23dca3ad96,
    0x69163fa8fd24cf5f,
    0x98da48361c55d39a,
    0xc2007cb8a163bf05,
    0x49286651ece45b3d,
    0xae9f24117c4b1fe6,
    0xee386bfb5a899fa5,
    0x0bff5cb6f406b7ed,
    0xf44c42e9a637ed6b,
    0xe485b576625e7ec6,
    0x4fe1356d6d51c245,
    0x302b0a6df25f1437,
    0xef9519b3cd3a431b,
    0x514a08798e3404dd,
    0x020bbea63b139b22,
    0x29024e088a67cc74,
    0xc4c6628b80dc1cd1,
    0xc90fdaa22168c234,
    0xffffffffffffffff,
];

/// 2^2048 modulo the prime.
const UNIT: Number = [
    0x0000000000000001,
    0xea8d71a575535597,
    0xea2dd9e76705faef,
    0xc66ab683156a951a,
    0x21d434096aa7e8e7,
    0x4a3aa20f90b3ad36,
    0x64d87c5d13f85d70,
    0x1c6188d3e7f179fc,
    0xcd6fa1b9d1c931c4,
    0x0e8b93f735e7de83,
    0x98f3cab1b54367fb,
    0x612ad6f88f696992,
    0xe39d0ca9df7aad44,
    0x7c9aa2dc235c5269,
    0x96e9c05702db30a0,
    0x6725b7c9e3aa2c65,
    0x3dff83475e9c40fa,
    0xb6d799ae131ba4c2,
    0x5160dbee83b4e019,
    0x11c79404a576605a,
    0xf400a3490bf94812,
    0x0bb3bd1659c81294,
    0x1b7a4a899da18139,
    0xb01eca9292ae3dba,
    0xcfd4f5920da0ebc8,
    0x106ae64c32c5bce4,
    0xaeb5f78671cbfb22,
    0xfdf44159c4ec64dd,
    0xd6fdb1f77598338b,
    0x3b399d747f23e32e,
    0x36f0255dde973dcb,
    0x0000000000000000,
];

/// 2^4096 modulo the prime.
const UNIT_SQUARE: Number = [
    0x477122ce125fb664,
    0xb03548fb9b38d313,
    0x4c2153ff6fd412c1,
    0x2a092b50873f9bc6,
    0xbbc71629fcb7f5f9,
    0x4bec06e136bd84e7,
    0x27ba725a6b020cb1,
    0xf8115426ed939eeb,
    0x4bc1b1878a0e30d9,
    0x5620820e258633ff,
    0x074ed6ab785a3071,
    0xf228105f81f1cb61,
    0x570e436f4e2e6f7f,
    0x5ca52ff7d7450bd9,
    0x552272d275f10a7e,
    0xac2b7925739c7978,
    0xa2f88257325b54d0,
    0xbc821c9de8d72bd5,
    0xdbd442b3866d2986,
    0x9478951b70c4b2ce,
    0x5d998fb394910c76,
    0xf273b2937e300867,
    0x8c106bbe38569f92,
    0xf83c92cb14e992c5,
    0xd85d6e7eed6880dd,
    0xeb5b276fbe06a1df,
    0x2a492090fa11e105,
    0x63bdd96d19ea00be,
    0x272382970a1698ab,
    0x8a3a686c9240c974,
    0x3ed8570366613000,
    0x0cd37a33628b3197,
];

/// The prime times this, and 1, is a multiple of 2^64.
const INVERSE: u64 = 1;

const ONE: Number = [
    1, 0, 0, 0, 0, 0, 0, 0, 0, 0, 0, 0, 0, 0, 0, 0, 0, 0, 0, 0, 0, 0, 0, 0, 0, 0, 0, 0, 0, 0, 0, 0,
];

/// The generator.
const TWO: Number = [
    2, 0, 0, 0, 0, 0, 0, 0, 0, 0, 0, 0, 0, 0, 0, 0, 0, 0, 0, 0, 0, 0, 0, 0, 0, 0, 0, 0, 0, 0, 0, 0,
];

/// The product of two numbers and of one through 2^2048, modulo the prime.
fn times(a: &Number, b: &Number) -> Number
    requires { number_of b.now < prime }
    ensures remainder { weight 32 * number_of result % prime ≡ number_of a.now * number_of b.now % prime }
    ensures below { number_of result < prime }
{
    let mut out = [0; 32];
    product(&mut out, a, b, &PRIME, INVERSE);
    out
}

/// The square, and where the bit is 1 times the factor: the product is made in either case.
fn power_step(power: &Number, factor: &Number, bit: u64) -> Number
    requires power { number_of power.now < prime }
    requires factor { number_of factor.now < prime }
    requires bit { bit < 2 }
    ensures powers { (x y : ℕ) → number_of power.now ≡ weight 32 * x % prime → number_of factor.now ≡ weight 32 * y % prime
        → number_of result ≡ weight 32 * (x * x * y ^ bit) % prime }
    ensures below { number_of result < prime }
{
    let mut square = times(power, power);
    let product = times(&square, factor);
    select_words(&mut square, &product, bit);
    square
}

/// The power modulo the prime, by the number of these bytes, the lowest first: for each bit a square and a product. What is
/// multiplied is 2^2048 times the powers.
fn power(base: &Number, exponent: &[u8]) -> Number
    requires base { number_of base.now < prime }
    requires exponent { length exponent.now ≡ 32 }
    ensures { number_of result ≡ power (number_of base.now) exponent.now }
{
    let factor = times(base, &UNIT_SQUARE);
    let bits = 8 * exponent.len();
    let mut power = UNIT;
    for i in 0..bits {
        let next = power_step(&power, &factor, bit_at(exponent, bits - 1 - i));
        power = next;
    }
    times(&power, &ONE)
}

/// Whether the number is from 2 to p - 2.
fn is_within(number: &Number) -> bool
    ensures { result ≡ is_within (number_of number.now) }
{
    is_below(&ONE, number) == 1 && is_below(number, &PRIME_LESS_ONE) == 1
}

/// The 256 bytes of a number, the highest first.
fn bytes_high(number: &Number) -> [u8; 256]
    ensures { result ≡ bytes_high (number_of number.now) }
{
    let mut bytes = [0; 256];
    for i in 0..32 {
        let start = 248 - 8 * i;
        bytes[start..start + 8].copy_from_slice(&number[i].to_be_bytes());
    }
    bytes
}

/// The number of 256 bytes, the highest first.
fn number_of_bytes(bytes: &[u8; 256]) -> Number
    ensures { number_of result ≡ number_high bytes.now }
{
    let mut number = [0; 32];
    read_words(&mut number, bytes);
    number
}

/// 256 bytes, of which zeros stand before these for what they are short of.
fn filled_before(bytes: &[u8]) -> [u8; 256]
    requires { length bytes.now ≤ 256 }
    ensures { number_high result ≡ number_high bytes.now }
{
    let mut filled = [0; 256];
    filled[256 - bytes.len()..].copy_from_slice(bytes);
    filled
}

/// The number as the body of an mpint.
#[tactic(auto, unfolding(crate::specs::Group14::number_body))]
fn number_body(alloc: Global, number: &Number) -> Result<Vec<u8>, Memory>
    ensures { IfOk result (λ v. v.items ≡ number_body (number_of number.now)) }
{
    mpint_body(alloc, &bytes_high(number))
}

/// Whether these are the body of an mpint of a positive number, and the shortest.
#[tactic(auto, unfolding(crate::specs::Group14::is_positive_body))]
pub(crate) fn is_positive_body(body: &[u8]) -> bool
    ensures { result ≡ is_positive_body body.now }
{
    match body {
        [] => false,
        [b] => 0 < *b && *b < 128,
        [b, c, ..] => *b < 128 && (0 < *b || 128 <= *c),
    }
}

/// The bytes after the first.
fn after_first(bytes: &[u8]) -> &[u8]
    requires { 0 < length bytes.now }
    ensures { result.now ≡ drop 1 bytes.now }
{
    &bytes[1..]
}

/// The body without the zero before its first byte, where one stands there.
fn digits_of(body: &[u8]) -> &[u8]
    requires { is_positive_body body.now ≡ true }
    ensures number { number_high result.now ≡ number_high body.now }
    ensures some { 0 < length result.now }
    ensures first { 0 < slice_index result.now 0 }
{
    if body[0] == 0 {
        after_first(body)
    } else {
        body
    }
}

/// The number of a body, where it is below 2^2048.
fn number_in_body(body: &[u8]) -> Option<Number>
    requires { is_positive_body body.now ≡ true }
    ensures { option_map number_of result ≡ (if nat_lt (number_high body.now) (weight 32) then Some (number_high body.now) else None) }
{
    let digits = digits_of(body);
    if digits.len() > 256 {
        return None;
    }
    Some(number_of_bytes(&filled_before(digits)))
}

/// The number, where it is from 2 to p - 2.
fn share_number(number: Number) -> Option<Number>
    ensures { option_map number_of result ≡ (if is_within (number_of number) then Some (number_of number) else None) }
{
    if is_within(&number) {
        Some(number)
    } else {
        None
    }
}

/// The number of a peer's share, where it is from 2 to p - 2. A share is no secret.
fn peer_number(peer: &[u8]) -> Option<Number>
    ensures { option_map number_of result ≡ peer_number peer.now }
{
    if !is_positive_body(peer) {
        return None;
    }
    match number_in_body(peer) {
        Some(number) => share_number(number),
        None => None,
    }
}

/// The share of these random bytes: the generator to their number.
#[tactic(auto, unfolding(crate::specs::Group14::group14_share))]
pub(crate) fn group14_share(alloc: Global, random: &[u8]) -> Result<Vec<u8>, Memory>
    requires { length random.now ≡ 32 }
    ensures { IfOk result (λ v. v.items ≡ group14_share random.now) }
{
    number_body(alloc, &power(&TWO, random))
}

/// The body of the shared secret's mpint, where it is from 2 to p - 2, as each is whose share was in the range.
#[tactic(auto, unfolding(crate::specs::Group14::secret_body))]
fn secret_body(alloc: Global, secret: &Number) -> Result<Option<Vec<u8>>, Memory>
    ensures { IfOk result (λ o. option_map (λ v. v.items) o ≡ secret_body (number_of secret.now)) }
{
    if is_within(secret) {
        let body = number_body(alloc, secret)?;
        Ok(Some(body))
    } else {
        Ok(None)
    }
}

/// The shared secret of these random bytes and the peer's share; none where that is refused.
#[tactic(auto, unfolding(crate::specs::Group14::group14_shared, crate::specs::Group14::secret_with))]
pub(crate) fn group14_shared(
    alloc: Global,
    random: &[u8],
    peer: &[u8],
) -> Result<Option<Vec<u8>>, Memory>
    requires { length random.now ≡ 32 }
    ensures { IfOk result (λ o. option_map (λ v. v.items) o ≡ group14_shared random.now peer.now) }
{
    match peer_number(peer) {
        Some(number) => secret_body(alloc, &power(&number, random)),
        None => Ok(None),
    }
}
