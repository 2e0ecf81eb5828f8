//! Ed25519 (RFC 8032 section 5.1).

ghost use Rattle.std.specs.Prelude.{◌≡◌, IfOk, Some, drop, length, take};
ghost use Rattle.sha2.specs.Sha512.{sha512};
ghost use Rattle.sshsuite.specs.Ed25519.{is_signature, public_key, signature, verifies};
ghost use Rattle.sshcurve.specs.Ed25519Numbers.{prefix_of, secret_scalar};

use crate::bits::{first_half, second_half};
use crate::curve25519::clamped;
use crate::edwards25519::{
    Point, add_points, decode_point, encode_point, multiply_base, multiply_base_public,
    multiply_public, negate,
};
use crate::hashes::hash_512;
use crate::scalar::{encode_scalar, is_reduced, scalar_from, times_plus};
use sha2::{Digest, Sha512};
use sshwire::Memory;
use std::alloc::Global;

/// SHA-512 of the private key, in whose halves are the secret scalar and the prefix (RFC 8032 section
/// 5.1.5).
fn expanded(private_key: &[u8]) -> [u8; 64]
    ensures { result ≡ sha512 private_key.now }
{
    Sha512::digest(private_key)
}

/// The secret scalar of a private key, as 32 bytes.
#[tactic(auto, unfolding(sshcurve::specs::Ed25519Numbers::secret_scalar))]
fn secret_scalar(private_key: &[u8]) -> [u8; 32]
    ensures { result ≡ secret_scalar private_key.now }
{
    clamped(first_half(&expanded(private_key)))
}

/// What a private key's nonces are made of.
#[tactic(auto, unfolding(sshcurve::specs::Ed25519Numbers::prefix_of))]
fn prefix_of(private_key: &[u8]) -> [u8; 32]
    ensures { result ≡ prefix_of private_key.now }
{
    second_half(&expanded(private_key))
}

/// The public key of a private key (RFC 8032 section 5.1.5).
#[tactic(auto, unfolding(crate::specs::Ed25519::public_key))]
pub(crate) fn public_key(private_key: &[u8]) -> [u8; 32]
    ensures { result ≡ public_key private_key.now }
{
    encode_point(multiply_base(&secret_scalar(private_key)))
}

/// The signature of the input, of 64 bytes (RFC 8032 section 5.1.6), by a private key and its public key: by another
/// one the private key would come to light.
#[tactic(auto, unfolding(sshcurve::specs::Ed25519Numbers::hash_of, crate::specs::Ed25519::signature))]
pub(crate) fn signature(
    alloc: Global,
    private_key: &[u8],
    key: &[u8],
    input: &[u8],
) -> Result<Vec<u8>, Memory>
    requires { key.now ≡ public_key private_key.now }
    ensures value { IfOk result (λ v. v.items ≡ signature private_key.now input.now) }
    ensures long { IfOk result (λ v. length v.items ≡ 64) }
{
    let nonce = scalar_from(&hash_512(&prefix_of(private_key), input, &[]));
    let point = encode_point(multiply_base(&encode_scalar(nonce)));
    let challenge = scalar_from(&hash_512(&point, key, input));
    let answer = encode_scalar(times_plus(&secret_scalar(private_key), challenge, nonce));
    let mut signature = Vec::from_slice(alloc, &point)?;
    signature.extend_from_slice(&answer)?;
    Ok(signature)
}

/// Whether the signature is that of the input by this public key (RFC 8032 section 5.1.7): not where the
/// key is no point's, or where s isn't below L.
#[tactic(auto, unfolding(crate::specs::Ed25519::is_signature, crate::specs::Ed25519::verifies))]
pub(crate) fn is_signature(key: &[u8], input: &[u8], signature: &[u8]) -> bool
    requires key { length key.now ≡ 32 }
    requires signature { length signature.now ≡ 64 }
    ensures { result ≡ is_signature key.now input.now signature.now }
{
    let (point, answer) = signature.split_at(32);
    match decode_point(key) {
        Some(p) => verifies(p, key, input, point, answer),
        None => false,
    }
}

/// Whether the two halves of a signature, R and s, are those of the input by the key of this point: s B is
/// R and k times the point. All of it is public.
#[tactic(auto, unfolding(sshcurve::specs::Ed25519Numbers::hash_of, crate::specs::Ed25519::verifies))]
fn verifies(p: Point, key: &[u8], input: &[u8], point: &[u8], answer: &[u8]) -> bool
    requires { length answer.now ≡ 32 }
    ensures { result ≡ verifies (Some p) key.now input.now point.now answer.now }
{
    let challenge = encode_scalar(scalar_from(&hash_512(point, key, input)));
    let sum = add_points(
        multiply_base_public(answer),
        multiply_public(&challenge, negate(p)),
    );
    is_reduced(answer) && encode_point(sum).as_slice() == point
}
