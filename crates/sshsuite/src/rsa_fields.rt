//! The fields of keys and signatures by RSA, and their encoded messages.

ghost use Rattle.std.specs.Prelude.{◌≡◌, ◌≢◌, ◌≤◌, IfErr, IfOk, ◌+◌, ◌++◌, length};
ghost use Rattle.sshwire.specs.TypeReadings.{Gives};
ghost use Rattle.sshsuite.specs.Rsa.{digest_info, digits, encoded, is_rsa, is_rsa_256, is_rsa_512, key_in, signature_in};

use sha2::{Digest, Sha256, Sha512};
use sshwire::{Memory, Reader, WireFault};
use std::alloc::Global;

/// The name in a public key, by whatever hash it verifies (RFC 8332 section 3).
const KEY_NAME: &str = "ssh-rsa";

/// DigestInfo up to a digest by SHA-256 (RFC 8017 section 9.2, note 1).
const INFO_256: [u8; 19] = [
    0x30, 0x31, 0x30, 0x0d, 0x06, 0x09, 0x60, 0x86, 0x48, 0x01, 0x65, 0x03, 0x04, 0x02, 0x01, 0x05,
    0x00, 0x04, 0x20,
];

/// DigestInfo up to a digest by SHA-512.
const INFO_512: [u8; 19] = [
    0x30, 0x51, 0x30, 0x0d, 0x06, 0x09, 0x60, 0x86, 0x48, 0x01, 0x65, 0x03, 0x04, 0x02, 0x03, 0x05,
    0x00, 0x04, 0x40,
];

/// Whether this is the name of rsa-sha2-256.
#[tactic(auto, unfolding(crate::specs::Rsa::is_rsa_256))]
fn is_rsa_256(alg: &str) -> bool
    ensures { result ≡ is_rsa_256 alg.now }
{
    alg == "rsa-sha2-256"
}

/// Whether this is the name of rsa-sha2-512.
#[tactic(auto, unfolding(crate::specs::Rsa::is_rsa_512))]
fn is_rsa_512(alg: &str) -> bool
    ensures { result ≡ is_rsa_512 alg.now }
{
    alg == "rsa-sha2-512"
}

/// Whether this is a name of signatures by RSA.
#[tactic(auto, unfolding(crate::specs::Rsa::is_rsa))]
pub(crate) fn is_rsa(alg: &str) -> bool
    ensures { result ≡ is_rsa alg.now }
{
    is_rsa_256(alg) || is_rsa_512(alg)
}

/// The bodies of e and n in a public key. `NotCanonical` where it has another name, or bytes after n.
#[tactic(auto, unfolding(crate::specs::Rsa::key_in))]
pub(crate) fn key_in(blob: &[u8]) -> Result<(&[u8], &[u8]), WireFault>
    ensures exact { Gives (λ x. (x.0.now, x.1.now)) result (key_in blob.now) }
    ensures no_memory { IfErr result (λ e. e ≢ WireFault.Memory) }
{
    let mut reader = Reader::new(blob);
    let name = reader.string()?;
    let exponent = reader.string()?;
    let modulus = reader.string()?;
    if name == KEY_NAME.as_bytes() && reader.rest().is_empty() {
        Ok((exponent, modulus))
    } else {
        Err(WireFault::NotCanonical)
    }
}

/// s in a signature of this algorithm. `NotCanonical` where it has another name, or bytes after s.
#[tactic(auto, unfolding(crate::specs::Rsa::signature_in))]
pub(crate) fn signature_in<'a>(alg: &str, found: &'a [u8]) -> Result<&'a [u8], WireFault>
    ensures exact { Gives (λ s. s.now) result (signature_in alg.now found.now) }
    ensures no_memory { IfErr result (λ e. e ≢ WireFault.Memory) }
{
    let mut reader = Reader::new(found);
    let name = reader.string()?;
    let own = reader.string()?;
    if name == alg.as_bytes() && reader.rest().is_empty() {
        Ok(own)
    } else {
        Err(WireFault::NotCanonical)
    }
}

/// The digest of the input as DigestInfo has it.
#[tactic(auto, unfolding(crate::specs::Rsa::digest_info))]
pub(crate) fn digest_info(alloc: Global, alg: &str, input: &[u8]) -> Result<Vec<u8>, Memory>
    ensures value { IfOk result (λ v. v.items ≡ digest_info alg.now input.now) }
    ensures short { IfOk result (λ v. length v.items ≤ 83) }
{
    if is_rsa_512(alg) {
        joined(alloc, &INFO_512, &Sha512::digest(input))
    } else {
        joined(alloc, &INFO_256, &Sha256::digest(input))
    }
}

/// The bytes of both.
fn joined(alloc: Global, first: &[u8], second: &[u8]) -> Result<Vec<u8>, Memory>
    ensures { IfOk result (λ v. v.items ≡ first.now ++ second.now) }
{
    let mut both = Vec::from_slice(alloc, first)?;
    both.extend_from_slice(second)?;
    Ok(both)
}

/// The encoded message, of so many bytes.
#[tactic(auto, unfolding(crate::specs::Rsa::encoded))]
pub(crate) fn encoded(alloc: Global, size: usize, info: &[u8]) -> Result<Vec<u8>, Memory>
    requires { length info.now + 3 ≤ size }
    ensures value { IfOk result (λ v. v.items ≡ encoded size info.now) }
    ensures long { IfOk result (λ v. length v.items ≡ size) }
{
    let mut message = Vec::from_slice(alloc, &[0, 1])?;
    message.resize(size - info.len() - 1, 255)?;
    message.push(0)?;
    message.extend_from_slice(info)?;
    Ok(message)
}

/// The bytes of a positive number, by its mpint's body.
#[tactic(auto, unfolding(crate::specs::Rsa::digits))]
pub(crate) fn digits_of(body: &[u8]) -> &[u8]
    ensures { result.now ≡ digits body.now }
{
    match body {
        [0, bytes @ ..] => bytes,
        _ => body,
    }
}
