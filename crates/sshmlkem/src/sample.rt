//! Polynomials that are drawn from seeds (FIPS 203 section 4.2.2).
//!
//! The matrix is public, and so is the seed that it is drawn from: which of its numbers are taken shows in the time. As
//! written, no branch and no index depends on a secret seed.

ghost use Rattle.std.specs.Prelude.{◌≡◌, ◌<◌, ◌∷◌, [], ◌++◌, length};
ghost use Rattle.sshmlkem.specs.Sample.{accepted_data, centred, drawn, drawn_next, noise, offered, offered_block, sample_cbd, sample_ntt};

use crate::bytes::joined;
use crate::codec::{first_12, second_12};
use crate::field::{Polynomial, reduced};
use sshkeccak::{Lanes, shake128_block, shake128_next, shake128_start, shake256_128};

/// What SampleNTT has taken so far: `count` numbers, and zeros after them.
#[derive(Clone, Copy)]
pub(crate) struct Taken {
    pub(crate) numbers: Polynomial,
    pub(crate) count: usize,
    /// The state of SHAKE128 that holds the block which was read last.
    pub(crate) state: Lanes,
}

/// Takes a number if it is below q and fewer than 256 are taken (FIPS 203 algorithm 7, lines 8 to 15).
#[inline(always)]
#[tactic(auto, unfolding(crate::specs::Sample::offered))]
fn offer(t: &mut Taken, n: u16)
    ensures { t.new ≡ offered t.old n }
{
    if n < 3329 && t.count < 256 {
        t.numbers[t.count] = n;
        t.count += 1;
    }
}

/// Takes from the 112 numbers of 12 bits in a block (FIPS 203 algorithm 7, lines 5 to 15).
#[tactic(auto, using(sshkeccak::specs::Repeated::repeated_none, sshkeccak::specs::Repeated::repeated_more), unfolding(crate::specs::Sample::offered_block, crate::specs::Sample::offered_three))]
fn offer_block(t: &mut Taken, block: &[u8; 168])
    ensures { t.new ≡ offered_block t.old block.now }
{
    for i in 0..56 {
        let (a, b, c) = (block[3 * i], block[3 * i + 1], block[3 * i + 2]);
        offer(t, first_12(a, b));
        offer(t, second_12(b, c));
    }
}

/// Takes from the next block of SHAKE128.
#[tactic(auto, unfolding(crate::specs::Sample::drawn))]
fn draw_block(t: &mut Taken)
    ensures { t.new ≡ drawn t.old }
{
    t.state = shake128_next(t.state);
    let block = shake128_block(&t.state);
    offer_block(t, &block);
}

/// Takes from the next block of SHAKE128, if fewer than 256 numbers are taken.
#[tactic(auto, unfolding(crate::specs::Sample::drawn_next))]
fn draw(t: &mut Taken, _i: u32)
    ensures { t.new ≡ drawn_next t.old _i }
{
    if t.count < 256 {
        draw_block(t);
    }
}

/// The first 256 numbers of 12 bits below q in an output of SHAKE128 (FIPS 203 algorithm 7). It reads at most 840 bytes, which
/// are 280 steps; FIPS 203 appendix B allows that bound. Zeros follow where these have fewer than 256 such numbers: FIPS 203
/// gives less than 2^-261 for that.
#[tactic(auto, using(sshkeccak::specs::Repeated::repeated_none, sshkeccak::specs::Repeated::repeated_more), unfolding(crate::specs::Sample::accepted_data))]
fn accepted(start: Lanes) -> Polynomial
    ensures { result ≡ accepted_data start }
{
    let mut t = Taken {
        numbers: [0; 256],
        count: 0,
        state: start,
    };
    offer_block(&mut t, &shake128_block(&start));
    for i in 0..4 {
        draw(&mut t, i);
    }
    t.numbers
}

/// An entry of the matrix: SampleNTT of the seed and two bytes (FIPS 203 algorithm 7; algorithm 13, line 5).
#[tactic(auto, unfolding(crate::specs::Sample::sample_ntt))]
pub(crate) fn sample_ntt(seed: &[u8; 32], column: u8, row: u8) -> Polynomial
    ensures { result ≡ sample_ntt seed.now column row }
{
    accepted(shake128_start(&joined::<34>(seed, &[column, row])))
}

/// The seed, followed by a byte.
pub(crate) fn after_seed(seed: &[u8; 32], n: u8) -> [u8; 33]
    ensures { result ≡ seed.now ++ n ∷ [] }
{
    joined(seed, &[n])
}

/// The sum of the two lowest bits less the sum of the two others, modulo q (FIPS 203 algorithm 8, lines 3 to 5). `bits` is
/// below 16.
#[inline(always)]
#[tactic(auto, unfolding(crate::specs::Sample::centred))]
fn centred(bits: u8) -> u16
    ensures { result ≡ centred bits }
{
    let first = u32::from(bits) % 2 + u32::from(bits) / 2 % 2;
    let second = u32::from(bits) / 4 % 2 + u32::from(bits) / 8 % 2;
    reduced(first + 3329 - second)
}

/// A polynomial of small numbers out of 128 bytes (FIPS 203 algorithm 8, SamplePolyCBD, where eta is 2).
#[tactic(auto, using(sshkeccak::specs::Repeated::repeated_none, sshkeccak::specs::Repeated::repeated_more), unfolding(crate::specs::Sample::sample_cbd, crate::specs::Sample::with_two))]
fn sample_cbd(bytes: &[u8; 128]) -> Polynomial
    ensures { result ≡ sample_cbd bytes.now }
{
    let mut f = [0; 256];
    for i in 0..128 {
        f[2 * i] = centred(bytes[i] % 16);
        f[2 * i + 1] = centred(bytes[i] / 16);
    }
    f
}

/// The polynomial of small numbers that a seed and a byte give, by PRF (FIPS 203 section 4.1; algorithm 13, line 9).
#[tactic(auto, unfolding(crate::specs::Sample::noise))]
pub(crate) fn noise(seed: &[u8; 32], n: u8) -> Polynomial
    ensures { result ≡ noise seed.now n }
{
    sample_cbd(&shake256_128(&after_seed(seed, n)))
}
