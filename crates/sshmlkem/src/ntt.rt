//! The number-theoretic transform, products of transforms, and sums (FIPS 203 section 4.3). As written, no branch and no index
//! depends on a number of a polynomial.

ghost use Rattle.std.specs.Prelude.{◌≡◌, ◌<◌, ◌≤◌, ◌+◌, ◌-◌, ◌*◌, ◌/◌, ◌^◌, slice_index};
ghost use Rattle.sshmlkem.specs.Ntt.{add, add_product, backward_layer, backward_pair, forward_layer, forward_pair, inverse_ntt, ntt, place, scaled, subtract, zetas};

use crate::field::{Polynomial, difference, product, sum};

/// 17 to the power BitRev7(i), modulo q (FIPS 203 appendix A).
const ZETAS: [u16; 128] = [
    1, 1729, 2580, 3289, 2642, 630, 1897, 848, 1062, 1919, 193, 797, 2786, 3260, 569, 1746, 296,
    2447, 1339, 1476, 3046, 56, 2240, 1333, 1426, 2094, 535, 2882, 2393, 2879, 1974, 821, 289, 331,
    3253, 1756, 1197, 2304, 2277, 2055, 650, 1977, 2513, 632, 2865, 33, 1320, 1915, 2319, 1435,
    807, 452, 1438, 2868, 1534, 2402, 2647, 2617, 1481, 648, 2474, 3110, 1227, 910, 17, 2761, 583,
    2649, 1637, 723, 2288, 1100, 1409, 2662, 3281, 233, 756, 2156, 3015, 3050, 1703, 1651, 2789,
    1789, 1847, 952, 1461, 2687, 939, 2308, 2437, 2388, 733, 2337, 268, 641, 1584, 2298, 2037,
    3220, 375, 2549, 2090, 1645, 1063, 319, 2773, 757, 2099, 561, 2466, 2594, 2804, 1092, 403,
    1026, 1143, 2150, 2775, 886, 1722, 1212, 1874, 1029, 2110, 2935, 885, 2154,
];

/// 17 to the power 2 BitRev7(i) + 1, modulo q (FIPS 203 appendix A).
const GAMMAS: [u16; 128] = [
    17, 3312, 2761, 568, 583, 2746, 2649, 680, 1637, 1692, 723, 2606, 2288, 1041, 1100, 2229, 1409,
    1920, 2662, 667, 3281, 48, 233, 3096, 756, 2573, 2156, 1173, 3015, 314, 3050, 279, 1703, 1626,
    1651, 1678, 2789, 540, 1789, 1540, 1847, 1482, 952, 2377, 1461, 1868, 2687, 642, 939, 2390,
    2308, 1021, 2437, 892, 2388, 941, 733, 2596, 2337, 992, 268, 3061, 641, 2688, 1584, 1745, 2298,
    1031, 2037, 1292, 3220, 109, 375, 2954, 2549, 780, 2090, 1239, 1645, 1684, 1063, 2266, 319,
    3010, 2773, 556, 757, 2572, 2099, 1230, 561, 2768, 2466, 863, 2594, 735, 2804, 525, 1092, 2237,
    403, 2926, 1026, 2303, 1143, 2186, 2150, 1179, 2775, 554, 886, 2443, 1722, 1607, 1212, 2117,
    1874, 1455, 1029, 2300, 2110, 1219, 2935, 394, 885, 2444, 2154, 1175,
];

/// The index of the first number of pair k, in a layer whose pairs are 2^s apart.
#[inline(always)]
#[tactic(auto, using(crate::proofs::NttLemmas::block_whole, crate::proofs::NttLemmas::pair_below))]
fn place(s: u32, k: usize) -> usize
    requires low { 1 ≤ s }
    requires high { s ≤ 7 }
    requires k { k < 128 }
    ensures place { result ≡ k + k / 2 ^ s * 2 ^ s }
    ensures below { result + 2 ^ s < 256 }
{
    k + ((k >> s) << s)
}

/// The distance of the two numbers of a pair.
#[inline(always)]
#[tactic(auto, using(crate::proofs::NttLemmas::distance_whole))]
fn distance(s: u32) -> usize
    requires low { 1 ≤ s }
    requires high { s ≤ 7 }
    ensures { result ≡ 2 ^ s }
{
    1 << s
}

/// The power of 17 for pair k of a layer (FIPS 203 algorithm 9, line 5).
#[inline(always)]
#[tactic(auto, using(crate::proofs::NttLemmas::forward_below))]
fn forward_zeta(s: u32, k: usize) -> u16
    requires low { 1 ≤ s }
    requires high { s ≤ 7 }
    requires k { k < 128 }
    ensures { result ≡ slice_index zetas (128 / 2 ^ s + k / 2 ^ s) }
{
    ZETAS[(128 >> s) + (k >> s)]
}

/// The power of 17 for pair k of a layer of the inverse (FIPS 203 algorithm 10, line 5).
#[inline(always)]
#[tactic(auto, using(crate::proofs::NttLemmas::backward_above, crate::proofs::NttLemmas::backward_below))]
fn backward_zeta(s: u32, k: usize) -> u16
    requires low { 1 ≤ s }
    requires high { s ≤ 7 }
    requires k { k < 128 }
    ensures { result ≡ slice_index zetas (256 / 2 ^ s - 1 - k / 2 ^ s) }
{
    ZETAS[(256 >> s) - 1 - (k >> s)]
}

/// Transforms pair k of a layer whose pairs are 2^s apart (FIPS 203 algorithm 9, lines 8 to 10).
#[inline(always)]
#[tactic(auto, unfolding(crate::specs::Ntt::forward_pair, crate::specs::Ntt::place))]
fn forward_pair(f: &mut Polynomial, s: u32, k: usize)
    requires low { 1 ≤ s }
    requires high { s ≤ 7 }
    requires k { k < 128 }
    ensures { f.new ≡ forward_pair s f.old k }
{
    let i = place(s, k);
    let j = i + distance(s);
    let first = f[i];
    let t = product(f[j], forward_zeta(s, k));
    f[j] = difference(first, t);
    f[i] = sum(first, t);
}

/// Transforms the 128 pairs of a layer, which are 2^s apart (FIPS 203 algorithm 9, lines 3 to 13, of one `len`).
#[tactic(auto, using(sshkeccak::specs::Repeated::repeated_none, sshkeccak::specs::Repeated::repeated_more), unfolding(crate::specs::Ntt::forward_layer))]
fn forward_layer(f: &mut Polynomial, s: u32)
    requires low { 1 ≤ s }
    requires high { s ≤ 7 }
    ensures { f.new ≡ forward_layer f.old s }
{
    for k in 0..128 {
        forward_pair(f, s, k);
    }
}

/// Replaces a polynomial by its transform (FIPS 203 algorithm 9, NTT).
#[tactic(auto, unfolding(crate::specs::Ntt::ntt))]
pub(crate) fn ntt(f: &mut Polynomial)
    ensures { f.new ≡ ntt f.old }
{
    forward_layer(f, 7);
    forward_layer(f, 6);
    forward_layer(f, 5);
    forward_layer(f, 4);
    forward_layer(f, 3);
    forward_layer(f, 2);
    forward_layer(f, 1);
}

/// Transforms pair k of a layer of the inverse, whose pairs are 2^s apart (FIPS 203 algorithm 10, lines 8 to 10).
#[inline(always)]
#[tactic(auto, unfolding(crate::specs::Ntt::backward_pair, crate::specs::Ntt::place))]
fn backward_pair(f: &mut Polynomial, s: u32, k: usize)
    requires low { 1 ≤ s }
    requires high { s ≤ 7 }
    requires k { k < 128 }
    ensures { f.new ≡ backward_pair s f.old k }
{
    let i = place(s, k);
    let j = i + distance(s);
    let (first, second) = (f[i], f[j]);
    f[i] = sum(first, second);
    f[j] = product(difference(second, first), backward_zeta(s, k));
}

/// Transforms the 128 pairs of a layer of the inverse, which are 2^s apart (FIPS 203 algorithm 10, lines 3 to 13, of one
/// `len`).
#[tactic(auto, using(sshkeccak::specs::Repeated::repeated_none, sshkeccak::specs::Repeated::repeated_more), unfolding(crate::specs::Ntt::backward_layer))]
fn backward_layer(f: &mut Polynomial, s: u32)
    requires low { 1 ≤ s }
    requires high { s ≤ 7 }
    ensures { f.new ≡ backward_layer f.old s }
{
    for k in 0..128 {
        backward_pair(f, s, k);
    }
}

/// Multiplies each number by 3303, the inverse of 128 modulo q (FIPS 203 algorithm 10, line 14).
#[tactic(auto, using(sshkeccak::specs::Repeated::repeated_none, sshkeccak::specs::Repeated::repeated_more), unfolding(crate::specs::Ntt::scaled, crate::specs::Ntt::scaled_at))]
fn scale(f: &mut Polynomial)
    ensures { f.new ≡ scaled f.old }
{
    for i in 0..256 {
        f[i] = product(f[i], 3303);
    }
}

/// Replaces a transform by its polynomial (FIPS 203 algorithm 10, the inverse NTT).
#[tactic(auto, unfolding(crate::specs::Ntt::inverse_ntt))]
pub(crate) fn inverse_ntt(f: &mut Polynomial)
    ensures { f.new ≡ inverse_ntt f.old }
{
    backward_layer(f, 1);
    backward_layer(f, 2);
    backward_layer(f, 3);
    backward_layer(f, 4);
    backward_layer(f, 5);
    backward_layer(f, 6);
    backward_layer(f, 7);
    scale(f);
}

/// Adds the product of two transforms to a third (FIPS 203 algorithms 11 and 12, MultiplyNTTs and BaseCaseMultiply).
#[tactic(auto, using(sshkeccak::specs::Repeated::repeated_none, sshkeccak::specs::Repeated::repeated_more), unfolding(crate::specs::Ntt::add_product, crate::specs::Ntt::with_product))]
pub(crate) fn add_product(h: &mut Polynomial, f: &Polynomial, g: &Polynomial)
    ensures { h.new ≡ add_product h.old f.now g.now }
{
    for i in 0..128 {
        let (a0, a1) = (f[2 * i], f[2 * i + 1]);
        let (b0, b1) = (g[2 * i], g[2 * i + 1]);
        let (h0, h1) = (h[2 * i], h[2 * i + 1]);
        let low = sum(product(a0, b0), product(product(a1, b1), GAMMAS[i]));
        let high = sum(product(a0, b1), product(a1, b0));
        h[2 * i] = sum(h0, low);
        h[2 * i + 1] = sum(h1, high);
    }
}

/// Adds a polynomial to another, number by number (FIPS 203 section 2.4.5).
#[tactic(auto, using(sshkeccak::specs::Repeated::repeated_none, sshkeccak::specs::Repeated::repeated_more), unfolding(crate::specs::Ntt::add, crate::specs::Ntt::sum_at))]
pub(crate) fn add(f: &mut Polynomial, g: &Polynomial)
    ensures { f.new ≡ add f.old g.now }
{
    for i in 0..256 {
        f[i] = sum(f[i], g[i]);
    }
}

/// Subtracts a polynomial from another, number by number (FIPS 203 section 2.4.5).
#[tactic(auto, using(sshkeccak::specs::Repeated::repeated_none, sshkeccak::specs::Repeated::repeated_more), unfolding(crate::specs::Ntt::subtract, crate::specs::Ntt::difference_at))]
pub(crate) fn subtract(f: &mut Polynomial, g: &Polynomial)
    ensures { f.new ≡ subtract f.old g.now }
{
    for i in 0..256 {
        f[i] = difference(f[i], g[i]);
    }
}
