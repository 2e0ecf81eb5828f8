//! GHASH (NIST SP 800-38D section 6.4): a block is a number of 128 bits, whose bit 0 is the highest.

ghost use Rattle.std.specs.Prelude.{◌≡◌, ◌<◌, ◌*◌, ◌^◌, length};
ghost use Rattle.sshsuite.specs.Ghash.{ghash, hashed, padded_block, times};

use crate::aes::number_at;
use crate::bits::filled_up;
use crate::carryless::block_product;

/// The product of two blocks (section 6.3): that of polynomials, whose lowest power is a block's highest bit, modulo
/// x^128 + x^7 + x^2 + x + 1. No branch, index or choice depends on a block.
#[tactic(auto, using(crate::proofs::ReducedLemmas::halves_are))]
fn times(x: u128, y: u128) -> u128
    ensures { result ≡ times x y }
{
    let product = block_product(x, y);
    let above = (product.high << 1) ^ (product.low >> 127);
    let below = product.low << 1;
    let folded = below ^ (below << 127) ^ (below << 126) ^ (below << 121);
    above ^ folded ^ (folded >> 1) ^ (folded >> 2) ^ (folded >> 7)
}

/// The block with this number, with zeros after the last bytes.
#[tactic(auto, unfolding(crate::specs::Ghash::padded_block))]
fn padded_block(input: &[u8], i: usize) -> u128
    requires short { length input.now < 2 ^ 32 }
    requires within { 16 * i < length input.now }
    ensures { result ≡ padded_block input.now i }
{
    let start = 16 * i;
    let end = (start + 16).min(input.len());
    number_at(&filled_up(&input[start..end]), 0)
}

/// The sum so far and all blocks, each times the key.
#[tactic(auto, using(crate::specs::Ghash::hash_none, crate::specs::Ghash::hash_more), unfolding(crate::specs::Ghash::hashed))]
fn hashed(key: u128, sum: u128, input: &[u8]) -> u128
    requires { length input.now < 2 ^ 32 }
    ensures { result ≡ hashed key sum input.now }
{
    let mut sum = sum;
    for i in 0..input.len().div_ceil(16) {
        sum = times(sum ^ padded_block(input, i), key);
    }
    sum
}

/// The hash of the additional data and of the sealed bytes, each filled up to blocks, and of their lengths
/// in bits (section 7.1, steps 4 and 5).
#[tactic(auto, unfolding(crate::specs::Ghash::ghash))]
pub(crate) fn ghash(key: u128, additional: &[u8], sealed: &[u8]) -> u128
    requires additional { length additional.now < 2 ^ 32 }
    requires sealed { length sealed.now < 2 ^ 32 }
    ensures { result ≡ ghash key additional.now sealed.now }
{
    let sum = hashed(key, hashed(key, 0, additional), sealed);
    let lens = ((additional.len() as u128 * 8) << 64) + sealed.len() as u128 * 8;
    times(sum ^ lens, key)
}
