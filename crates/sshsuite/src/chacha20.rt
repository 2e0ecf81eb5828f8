//! The key stream of chacha20-poly1305@openssh.com: ChaCha20 with a counter and a nonce of 64 bits each.

ghost use Rattle.std.specs.Prelude.{◌≡◌, ◌<◌, ◌^◌, IfOk, length};
ghost use Rattle.sshsuite.specs.KeyStream.{filled, generator, stream};

use rand_chacha::ChaCha20Rng;
use rand_core::{Rng, SeedableRng};
use sshwire::Memory;
use std::alloc::Global;

/// How many words a block has.
const BLOCK_WORDS: u128 = 16;

/// The generator of the stream for the packet with this number, from a block on. The nonce is the number
/// as 8 bytes, the highest first.
#[tactic(auto, unfolding(crate::specs::KeyStream::generator))]
fn generator(key: [u8; 32], seq: u32, block: u32) -> ChaCha20Rng
    ensures { result ≡ generator key seq block }
{
    let mut generator = ChaCha20Rng::from_seed(key);
    generator.set_stream(u64::from(seq).swap_bytes());
    generator.set_word_pos(BLOCK_WORDS * u128::from(block));
    generator
}

/// Fills a slice by the generator.
fn fill(generator: ChaCha20Rng, bytes: &mut [u8])
    ensures { bytes.new ≡ filled generator (length bytes.old) }
{
    let mut generator = generator;
    generator.fill_bytes(bytes);
}

/// So many bytes of the stream.
#[tactic(auto, unfolding(crate::specs::KeyStream::stream))]
pub(crate) fn stream(
    alloc: Global,
    key: [u8; 32],
    seq: u32,
    block: u32,
    len: usize,
) -> Result<Vec<u8>, Memory>
    ensures { IfOk result (λ v. v.items ≡ stream key seq block len) }
{
    let mut bytes = vec![in alloc; 0u8; len]?;
    fill(generator(key, seq, block), &mut bytes);
    Ok(bytes)
}

/// The first four bytes of the stream.
#[tactic(auto, unfolding(crate::specs::KeyStream::stream))]
pub(crate) fn first_four(key: [u8; 32], seq: u32) -> [u8; 4]
    ensures { result ≡ stream key seq 0 4 }
{
    let mut bytes = [0; 4];
    fill(generator(key, seq, 0), &mut bytes);
    bytes
}
