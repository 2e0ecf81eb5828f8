//! Products of polynomials over GF(2), each a number whose bit k is the factor of the kth power: by products of numbers
//! whose bits stand so far apart that no carry of one place comes to the next. No branch, index or choice depends on a number.

ghost use Rattle.std.specs.Prelude.{◌≡◌, ◌*◌, ◌/◌, ◌%◌, ◌^◌};
ghost use Rattle.sshsuite.specs.Carryless.{carryless, fifths};

/// Each fifth bit of a word, from the lowest on: 13 of them, so at each place 13 products of such bits at most come together.
const FIFTHS: u64 = 0x1084210842108421;

/// Each fifth bit of a product of two words.
const WIDE_FIFTHS: u128 = 0x21084210842108421084210842108421;

/// 2^64.
const WORD: u128 = 0x10000000000000000;

/// A product of two numbers of 128 bits, as polynomials.
#[derive(Clone, Copy)]
pub(crate) struct BlockProduct {
    pub(crate) high: u128,
    pub(crate) low: u128,
}

/// The product of two words, as numbers.
#[inline(always)]
fn product(a: u64, b: u64) -> u128
    ensures { result ≡ a * b }
{
    u128::from(a) * u128::from(b)
}

/// Each fifth bit of a word, from the lowest on, from the one above it on, and so on.
#[inline(always)]
#[tactic(auto, unfolding(crate::specs::Carryless::fifths))]
fn fifths(x: u64) -> [u64; 5]
    ensures { result ≡ fifths x }
{
    [
        x & FIFTHS,
        (x >> 1) & FIFTHS,
        (x >> 2) & FIFTHS,
        (x >> 3) & FIFTHS,
        (x >> 4) & FIFTHS,
    ]
}

/// The product of two words, as polynomials: the products that belong to one place come together, and of their sum the
/// lowest of each five bits count.
#[inline(always)]
#[tactic(auto, using(crate::proofs::PlacesLemmas::words_are))]
fn word_product(x: u64, y: u64) -> u128
    ensures { result ≡ carryless x y }
{
    let [a0, a1, a2, a3, a4] = fifths(x);
    let [b0, b1, b2, b3, b4] = fifths(y);
    let c0 = product(a0, b0);
    let c1 = product(a0, b1) ^ product(a1, b0);
    let c2 = product(a0, b2) ^ product(a1, b1) ^ product(a2, b0);
    let c3 = product(a0, b3) ^ product(a1, b2) ^ product(a2, b1) ^ product(a3, b0);
    let c4 = product(a0, b4)
        ^ product(a1, b3)
        ^ product(a2, b2)
        ^ product(a3, b1)
        ^ product(a4, b0);
    let c5 = product(a1, b4) ^ product(a2, b3) ^ product(a3, b2) ^ product(a4, b1);
    let c6 = product(a2, b4) ^ product(a3, b3) ^ product(a4, b2);
    let c7 = product(a3, b4) ^ product(a4, b3);
    let c8 = product(a4, b4);
    (c0 & WIDE_FIFTHS)
        ^ ((c1 & WIDE_FIFTHS) << 1)
        ^ ((c2 & WIDE_FIFTHS) << 2)
        ^ ((c3 & WIDE_FIFTHS) << 3)
        ^ ((c4 & WIDE_FIFTHS) << 4)
        ^ ((c5 & WIDE_FIFTHS) << 5)
        ^ ((c6 & WIDE_FIFTHS) << 6)
        ^ ((c7 & WIDE_FIFTHS) << 7)
        ^ ((c8 & WIDE_FIFTHS) << 8)
}

/// The product of two numbers of 128 bits, as polynomials, by three products of words: that of the sums of both halves,
/// less the two of the halves, is the sum of the other two.
#[inline(always)]
#[tactic(auto, using(crate::proofs::BlockProductLemmas::high_half, crate::proofs::BlockProductLemmas::low_half))]
pub(crate) fn block_product(x: u128, y: u128) -> BlockProduct
    ensures high { result.high ≡ carryless x y / 2 ^ 128 }
    ensures low { result.low ≡ carryless x y % 2 ^ 128 }
{
    let (x0, x1) = ((x % WORD) as u64, (x / WORD) as u64);
    let (y0, y1) = ((y % WORD) as u64, (y / WORD) as u64);
    let low = word_product(x0, y0);
    let high = word_product(x1, y1);
    let middle = word_product(x0 ^ x1, y0 ^ y1) ^ low ^ high;
    BlockProduct {
        high: high ^ (middle >> 64),
        low: low ^ (middle << 64),
    }
}
