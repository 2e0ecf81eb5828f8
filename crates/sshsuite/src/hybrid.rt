//! mlkem768x25519-sha256 (draft-ietf-sshm-mlkem-hybrid-kex): ML-KEM-768 and X25519 at once.

ghost use Rattle.std.specs.Prelude.{◌≡◌, ◌<◌, ◌^◌, ◌++◌, IfOk, length, option_map};
ghost use Rattle.sshpacket.specs.Suite.{response_data};
ghost use Rattle.sshsuite.specs.Hybrid.{both_secrets, hybrid_respond, hybrid_share, hybrid_shared};

use crate::constant_time::is_equal;
use crate::curve25519::{BASE_POINT, x25519};
use crate::expansion::{Purpose, expanded};
use sha2::{Digest, Sha256};
use sshmlkem::{decapsulate, encapsulate, generate, is_encapsulation_key};
use sshpacket::Response;
use sshwire::Memory;
use std::alloc::Global;

/// Bytes of ML-KEM, and after them those of X25519.
fn joined(alloc: Global, first: &[u8], second: &[u8; 32]) -> Result<Vec<u8>, Memory>
    requires { length first.now < 2 ^ 32 }
    ensures { IfOk result (λ v. v.items ≡ first.now ++ second.now) }
{
    let mut share = Vec::from_slice(alloc, first)?;
    share.extend_from_slice(second)?;
    Ok(share)
}

/// The client's share.
#[tactic(auto, unfolding(crate::specs::Hybrid::hybrid_share))]
pub(crate) fn hybrid_share(alloc: Global, random: &[u8]) -> Result<Vec<u8>, Memory>
    requires { length random.now ≡ 32 }
    ensures { IfOk result (λ v. v.items ≡ hybrid_share random.now) }
{
    let keys = generate(
        &expanded(random, Purpose::HybridClient, 0),
        &expanded(random, Purpose::HybridClient, 1),
    );
    let own = x25519(expanded(random, Purpose::HybridClient, 2), &BASE_POINT);
    joined(alloc, &keys.encapsulation_key, &own)
}

/// Both secrets.
fn pair_of(secret: &[u8; 32], classical: &[u8; 32]) -> [u8; 64]
    ensures { result ≡ secret.now ++ classical.now }
{
    let mut input = [0; 64];
    let (front, back) = input.split_at_mut(32);
    front.copy_from_slice(secret);
    back.copy_from_slice(classical);
    input
}

/// What both secrets come to; none where that of X25519 is zero.
#[tactic(auto, unfolding(crate::specs::Hybrid::both_secrets))]
fn both_secrets(
    alloc: Global,
    secret: &[u8; 32],
    classical: &[u8; 32],
) -> Result<Option<Vec<u8>>, Memory>
    ensures { IfOk result (λ o. option_map (λ v. v.items) o ≡ both_secrets secret.now classical.now) }
{
    if is_equal(classical, &[0; 32]) {
        return Ok(None);
    }
    let digest = Sha256::digest(&pair_of(secret, classical));
    let shared = Vec::from_slice(alloc, &digest)?;
    Ok(Some(shared))
}

/// The client's shared secret; none where the server's share has another length, or that of X25519 is zero.
#[tactic(auto, unfolding(crate::specs::Hybrid::hybrid_shared))]
pub(crate) fn hybrid_shared(
    alloc: Global,
    random: &[u8],
    peer: &[u8],
) -> Result<Option<Vec<u8>>, Memory>
    requires { length random.now ≡ 32 }
    ensures { IfOk result (λ o. option_map (λ v. v.items) o ≡ hybrid_shared random.now peer.now) }
{
    if peer.len() != 1120 {
        return Ok(None);
    }
    let (ciphertext, point) = peer.split_at(1088);
    let keys = generate(
        &expanded(random, Purpose::HybridClient, 0),
        &expanded(random, Purpose::HybridClient, 1),
    );
    let secret = decapsulate(&keys.decapsulation_key, ciphertext);
    let classical = x25519(expanded(random, Purpose::HybridClient, 2), point);
    both_secrets(alloc, &secret, &classical)
}

/// The server's share and its shared secret; none where the client's share has another length, or its key isn't reduced, or the
/// secret of X25519 is zero.
#[tactic(auto, unfolding(crate::specs::Hybrid::hybrid_respond, crate::specs::Hybrid::response_of))]
pub(crate) fn hybrid_respond(
    alloc: Global,
    random: &[u8],
    peer: &[u8],
) -> Result<Option<Response>, Memory>
    requires { length random.now ≡ 32 }
    ensures { IfOk result (λ o. option_map (λ r. response_data r) o ≡ hybrid_respond random.now peer.now) }
{
    if peer.len() != 1216 {
        return Ok(None);
    }
    let (ek, point) = peer.split_at(1184);
    if !is_encapsulation_key(ek) {
        return Ok(None);
    }
    let made = encapsulate(ek, &expanded(random, Purpose::HybridServer, 0));
    let classical = x25519(expanded(random, Purpose::HybridServer, 2), point);
    let Some(shared) = both_secrets(alloc, &made.secret, &classical)? else {
        return Ok(None);
    };
    let own = x25519(expanded(random, Purpose::HybridServer, 2), &BASE_POINT);
    let share = joined(alloc, &made.ciphertext, &own)?;
    Ok(Some(Response { share, shared }))
}
