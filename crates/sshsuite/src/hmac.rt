//! HMAC by SHA-256 and by SHA-512 (RFC 2104), of a packet and its number (RFC 4253 section 6.4, RFC 6668).

ghost use Rattle.std.specs.Prelude.{◌≡◌, ◌≤◌, ◌++◌, length, replicate};
ghost use Rattle.sha2.specs.Sha256.{sha256};
ghost use Rattle.sha2.specs.Sha512.{sha512};
ghost use Rattle.sshwire.specs.Types.{uint32};
ghost use Rattle.sshsuite.specs.Hmac.{block_key, filled, hmac_sha256, hmac_sha512};
ghost use Rattle.sshwire.specs.Masks.{xored};

use crate::bits::xor_with;
use crate::hashes::{hash_256, hash_512};
use sha2::{Digest, Sha256, Sha512};

/// What the key's block is XORed with for the inner hash, and for the outer one.
const INNER: u8 = 0x36;

const OUTER: u8 = 0x5c;

/// These bytes with zeros after them.
fn filled<const N: usize>(bytes: &[u8]) -> [u8; N]
    requires { length bytes.now ≤ N }
    ensures { result ≡ filled N bytes.now }
{
    let mut block = [0; N];
    block[..bytes.len()].copy_from_slice(bytes);
    block
}

/// A block XOR this byte in each place.
fn padded<const N: usize>(block: &[u8; N], pad: u8) -> [u8; N]
    ensures { result ≡ xored block.now (replicate N pad) }
{
    let mut padded = *block;
    xor_with(&mut padded, &[pad; N]);
    padded
}

/// The block of a key for SHA-256.
#[tactic(auto, unfolding(crate::specs::Hmac::block_key))]
fn block_of_64(key: &[u8]) -> [u8; 64]
    ensures { result ≡ block_key sha256 64 key.now }
{
    if key.len() > 64 {
        filled(&Sha256::digest(key))
    } else {
        filled(key)
    }
}

/// The block of a key for SHA-512.
#[tactic(auto, unfolding(crate::specs::Hmac::block_key))]
fn block_of_128(key: &[u8]) -> [u8; 128]
    ensures { result ≡ block_key sha512 128 key.now }
{
    if key.len() > 128 {
        filled(&Sha512::digest(key))
    } else {
        filled(key)
    }
}

/// The HMAC by SHA-256 of a number and a packet.
#[tactic(auto, unfolding(crate::specs::Hmac::hmac))]
pub(crate) fn hmac_sha256(key: &[u8], seq: u32, packet: &[u8]) -> [u8; 32]
    ensures { result ≡ hmac_sha256 key.now (uint32 seq ++ packet.now) }
{
    let block = block_of_64(key);
    let inner = hash_256(&padded(&block, INNER), &seq.to_be_bytes(), packet);
    hash_256(&padded(&block, OUTER), &[], &inner)
}

/// The HMAC by SHA-512 of a number and a packet.
#[tactic(auto, unfolding(crate::specs::Hmac::hmac))]
pub(crate) fn hmac_sha512(key: &[u8], seq: u32, packet: &[u8]) -> [u8; 64]
    ensures { result ≡ hmac_sha512 key.now (uint32 seq ++ packet.now) }
{
    let block = block_of_128(key);
    let inner = hash_512(&padded(&block, INNER), &seq.to_be_bytes(), packet);
    hash_512(&padded(&block, OUTER), &[], &inner)
}
