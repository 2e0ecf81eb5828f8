//! Poly1305 (RFC 8439 section 2.5), in five limbs of 26 bits, the lowest first.

ghost use Rattle.std.specs.Prelude.{◌≡◌, ◌<◌, ◌≤◌, ◌∷◌, ◌++◌, ◌+◌, ◌-◌, ◌/◌, ◌^◌, length, replicate};
ghost use Rattle.sshsuite.specs.Poly1305.{accumulated, add, block_limbs, canonical, carried, clamped_r, dot, limbs_of, mul, packed, s_of, sum_to, tag_of};

use crate::bits::word_at;

/// What a limb is counted in: 2^26.
const RADIX: u64 = 0x4000000;

/// A number below 2^130, by limbs.
type Limbs = [u64; 5];

/// The limbs of two words, and of what stands above them.
#[tactic(auto, unfolding(crate::specs::Poly1305::limbs_of))]
fn limbs_of(low: u64, high: u64, above: u64) -> Limbs
    ensures { result ≡ limbs_of low high above }
{
    [
        low % RADIX,
        (low >> 26) % RADIX,
        ((low >> 52) | (high << 12)) % RADIX,
        (high >> 14) % RADIX,
        (high >> 40) | above,
    ]
}

/// The sum of the products at each place.
#[tactic(auto, unfolding(crate::specs::Poly1305::dot))]
#[inline(always)]
fn dot(a: Limbs, b: Limbs) -> u64
    ensures { result ≡ dot a b }
{
    let [a0, a1, a2, a3, a4] = a;
    let [b0, b1, b2, b3, b4] = b;
    a0.wrapping_mul(b0)
        .wrapping_add(a1.wrapping_mul(b1))
        .wrapping_add(a2.wrapping_mul(b2))
        .wrapping_add(a3.wrapping_mul(b3))
        .wrapping_add(a4.wrapping_mul(b4))
}

/// The limbs of five sums.
#[tactic(auto, unfolding(crate::specs::Poly1305::carried))]
#[inline(always)]
fn carried(sums: Limbs) -> Limbs
    ensures { result ≡ carried sums }
{
    let [c0, c1, c2, c3, c4] = sums;
    let c1 = c1.wrapping_add(c0 / RADIX);
    let c2 = c2.wrapping_add(c1 / RADIX);
    let c3 = c3.wrapping_add(c2 / RADIX);
    let c4 = c4.wrapping_add(c3 / RADIX);
    let d0 = (c0 % RADIX).wrapping_add((c4 / RADIX).wrapping_mul(5));
    [
        d0 % RADIX,
        (c1 % RADIX).wrapping_add(d0 / RADIX),
        c2 % RADIX,
        c3 % RADIX,
        c4 % RADIX,
    ]
}

/// The product of two numbers modulo 2^130 - 5. What goes beyond the fifth limb counts five times at the lowest.
#[tactic(auto, unfolding(crate::specs::Poly1305::mul))]
fn mul(a: Limbs, b: Limbs) -> Limbs
    ensures { result ≡ mul a b }
{
    let [b0, b1, b2, b3, b4] = b;
    let (s1, s2) = (b1.wrapping_mul(5), b2.wrapping_mul(5));
    let (s3, s4) = (b3.wrapping_mul(5), b4.wrapping_mul(5));
    carried([
        dot(a, [b0, s4, s3, s2, s1]),
        dot(a, [b1, b0, s4, s3, s2]),
        dot(a, [b2, b1, b0, s4, s3]),
        dot(a, [b3, b2, b1, b0, s4]),
        dot(a, [b4, b3, b2, b1, b0]),
    ])
}

/// The sum of two numbers, limb by limb.
#[tactic(auto, unfolding(crate::specs::Poly1305::add))]
fn add(a: Limbs, b: Limbs) -> Limbs
    ensures { result ≡ add a b }
{
    let [a0, a1, a2, a3, a4] = a;
    let [b0, b1, b2, b3, b4] = b;
    [
        a0.wrapping_add(b0),
        a1.wrapping_add(b1),
        a2.wrapping_add(b2),
        a3.wrapping_add(b3),
        a4.wrapping_add(b4),
    ]
}

/// r: the first 16 bytes of the key, of which some bits are left out.
#[tactic(auto, unfolding(crate::specs::Poly1305::clamped_r))]
fn clamped_r(key: &[u8]) -> Limbs
    requires { length key.now ≡ 32 }
    ensures { result ≡ clamped_r key.now }
{
    let low = word_at(key, 0) & 0x0ffffffc0fffffff;
    let high = word_at(key, 8) & 0x0ffffffc0ffffffc;
    limbs_of(low, high, 0)
}

/// A block of fewer than 16 bytes with the byte 1 and zeros after it.
fn padded(block: &[u8]) -> [u8; 16]
    requires { length block.now < 16 }
    ensures { result ≡ block.now ++ 1 ∷ replicate (15 - length block.now) 0 }
{
    let mut padded = [0; 16];
    padded[..block.len()].copy_from_slice(block);
    padded[block.len()] = 1;
    padded
}

/// The limbs of a block, and of the byte 1 after it.
#[tactic(auto, unfolding(crate::specs::Poly1305::block_limbs))]
fn block_limbs(block: &[u8]) -> Limbs
    requires { length block.now ≤ 16 }
    ensures { result ≡ block_limbs block.now }
{
    if block.len() == 16 {
        limbs_of(word_at(block, 0), word_at(block, 8), 1 << 24)
    } else {
        let padded = padded(block);
        limbs_of(word_at(&padded, 0), word_at(&padded, 8), 0)
    }
}

/// The sum so far and a block, times the factor.
#[tactic(auto, unfolding(crate::specs::Poly1305::accumulated))]
fn accumulated(sum: Limbs, factor: Limbs, block: &[u8]) -> Limbs
    requires { length block.now ≤ 16 }
    ensures { result ≡ accumulated sum factor block.now }
{
    mul(add(sum, block_limbs(block)), factor)
}

/// The sum of all blocks.
#[tactic(auto, using(crate::specs::Poly1305::sum_none, crate::specs::Poly1305::sum_more), unfolding(crate::specs::Poly1305::block_at))]
fn sum_of(input: &[u8], factor: Limbs) -> Limbs
    requires { length input.now < 2 ^ 32 }
    ensures { result ≡ sum_to input.now factor ((length input.now + 15) / 16) }
{
    let mut sum = [0, 0, 0, 0, 0];
    for i in 0..input.len().div_ceil(16) {
        let start = 16 * i;
        let end = (start + 16).min(input.len());
        let next = accumulated(sum, factor, &input[start..end]);
        sum = next;
    }
    sum
}

/// The limbs less 2^130 - 5 where they are more.
#[tactic(auto, unfolding(crate::specs::Poly1305::canonical, crate::specs::Limbs::reduced_once))]
fn canonical(h: Limbs) -> Limbs
    ensures { result ≡ canonical h }
{
    let [h0, h1, h2, h3, h4] = h;
    let over = h0.wrapping_add(5) / RADIX;
    let over = h1.wrapping_add(over) / RADIX;
    let over = h2.wrapping_add(over) / RADIX;
    let over = h3.wrapping_add(over) / RADIX;
    let over = h4.wrapping_add(over) / RADIX;
    let l0 = h0.wrapping_add(over.wrapping_mul(5));
    let l1 = h1.wrapping_add(l0 / RADIX);
    let l2 = h2.wrapping_add(l1 / RADIX);
    let l3 = h3.wrapping_add(l2 / RADIX);
    let l4 = h4.wrapping_add(l3 / RADIX);
    [l0 % RADIX, l1 % RADIX, l2 % RADIX, l3 % RADIX, l4 % RADIX]
}

/// The number below 2^128 of five limbs.
#[tactic(auto, unfolding(crate::specs::Poly1305::packed))]
fn packed(l: Limbs) -> u128
    ensures { result ≡ packed l }
{
    let [l0, l1, l2, l3, l4] = l;
    u128::from(l0)
        | (u128::from(l1) << 26)
        | (u128::from(l2) << 52)
        | (u128::from(l3) << 78)
        | (u128::from(l4) << 104)
}

/// s: the last 16 bytes of the key, which are added at the end.
#[tactic(auto, unfolding(crate::specs::Poly1305::s_of))]
fn s_of(key: &[u8]) -> u128
    requires { length key.now ≡ 32 }
    ensures { result ≡ s_of key.now }
{
    u128::from(word_at(key, 16)) | (u128::from(word_at(key, 24)) << 64)
}

/// The tag of the input by a key that is used once.
#[tactic(auto, unfolding(crate::specs::Poly1305::tag_of))]
pub(crate) fn tag_of(key: &[u8], input: &[u8]) -> [u8; 16]
    requires key { length key.now ≡ 32 }
    requires input { length input.now < 2 ^ 32 }
    ensures { result ≡ tag_of key.now input.now }
{
    let sum = sum_of(input, clamped_r(key));
    packed(canonical(carried(carried(sum))))
        .wrapping_add(s_of(key))
        .to_le_bytes()
}
