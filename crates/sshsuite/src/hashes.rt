//! Hashes of three parts, one after the other.

ghost use Rattle.std.specs.Prelude.{◌≡◌, ◌++◌};
ghost use Rattle.sha2.specs.Sha256.{sha256};
ghost use Rattle.sha2.specs.Sha512.{sha512};

use sha2::{Digest, Sha256, Sha512};

/// SHA-256 of three parts.
pub(crate) fn hash_256(first: &[u8], second: &[u8], third: &[u8]) -> [u8; 32]
    ensures { result ≡ sha256 (first.now ++ (second.now ++ third.now)) }
{
    let mut hasher = Sha256::new();
    hasher.update(first);
    hasher.update(second);
    hasher.update(third);
    hasher.finalize()
}

/// SHA-512 of three parts.
pub(crate) fn hash_512(first: &[u8], second: &[u8], third: &[u8]) -> [u8; 64]
    ensures { result ≡ sha512 (first.now ++ (second.now ++ third.now)) }
{
    let mut hasher = Sha512::new();
    hasher.update(first);
    hasher.update(second);
    hasher.update(third);
    hasher.finalize()
}
