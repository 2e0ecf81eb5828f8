//! What is hashed, signed and used as keys.

ghost use Rattle.std.specs.Prelude.{◌≡◌, ◌+◌, ◌<◌, ◌≤◌, ◌-◌, ◌^◌, IfOk, length, take};
ghost use Rattle.sshwire.specs.Types.{IsName};
ghost use Rattle.sshpacket.specs.declared.limits.TheConstants.{DIGEST_LIMIT};
ghost use Rattle.sshneg.specs.Derivations.{derived, enc_letter, exchange_size, exchange_text, grown, hash_with, iv_letter, key, mac_letter, signed_text, source_size};
ghost use Rattle.sshneg.specs.ExchangeView.{exchange_data, key_material_data};

use crate::side::Side;
use sshmsg::SSH_MSG_USERAUTH_REQUEST;
use sshpacket::{KeyParts, Keys, Suite};
use sshwire::{Memory, put_boolean, put_string};
use std::alloc::Global;

/// What both sides know of a key exchange (RFC 4253 section 8). It can't be printed, since it holds
/// the shared secret.
#[derive(Drop)]
pub struct Exchange<'a> {
    /// V_C: the client's version line without CR LF.
    pub client_version: &'a [u8],
    /// V_S: the server's.
    pub server_version: &'a [u8],
    /// I_C: the payload of the client's KEXINIT.
    pub client_kexinit: &'a [u8],
    /// I_S: the payload of the server's.
    pub server_kexinit: &'a [u8],
    /// K_S: the server's host key.
    pub host_key: &'a [u8],
    /// e: the client's share, as the body of its mpint or as bytes.
    pub client_share: &'a [u8],
    /// f: the server's share.
    pub server_share: &'a [u8],
    /// K: the shared secret.
    pub shared: &'a [u8],
}

/// What keys are made of (RFC 4253 section 7.2). It can't be printed, since it is secret.
#[derive(Drop)]
pub struct KeyMaterial<'a> {
    /// The key exchange method.
    pub kex: &'a str,
    /// K: the shared secret.
    pub shared: &'a [u8],
    /// H: the exchange hash.
    pub hash: &'a [u8],
    /// The session identifier, which is the first exchange hash.
    pub session: &'a [u8],
}

/// The input of the exchange hash (RFC 4253 section 8). `Memory` where an allocation failed.
///
/// The caller's condition is that the parts have fewer than 2^31 bytes together.
#[tactic(auto, unfolding(crate::specs::Derivations::exchange_text))]
pub fn exchange_input(alloc: Global, exchange: &Exchange<'_>) -> Result<Vec<u8>, Memory>
    requires { exchange_size (exchange_data exchange.now) < 2 ^ 31 }
    ensures { IfOk result (λ v. v.items ≡ exchange_text (exchange_data exchange.now)) }
{
    let mut out = Vec::new(alloc);
    put_string(&mut out, exchange.client_version)?;
    put_string(&mut out, exchange.server_version)?;
    put_string(&mut out, exchange.client_kexinit)?;
    put_string(&mut out, exchange.server_kexinit)?;
    put_string(&mut out, exchange.host_key)?;
    put_string(&mut out, exchange.client_share)?;
    put_string(&mut out, exchange.server_share)?;
    put_string(&mut out, exchange.shared)?;
    Ok(out)
}

/// What a publickey request signs (RFC 4252 section 7). `Memory` where an allocation failed.
///
/// The caller's condition is that the parts have fewer than 2^31 bytes together.
#[tactic(auto, unfolding(crate::specs::Derivations::signed_text))]
pub fn signed_request(
    alloc: Global,
    session: &[u8],
    user: &str,
    service: &[u8],
    algorithm: &str,
    key: &[u8],
) -> Result<Vec<u8>, Memory>
    requires { length session.now + length user.now + length service.now + length algorithm.now + length key.now < 2 ^ 31 }
    ensures { IfOk result (λ v. v.items ≡ signed_text session.now user.now service.now algorithm.now key.now) }
{
    let mut out = Vec::new(alloc);
    put_string(&mut out, session)?;
    out.push(SSH_MSG_USERAUTH_REQUEST)?;
    put_string(&mut out, user.as_bytes())?;
    put_string(&mut out, service)?;
    put_string(&mut out, b"publickey")?;
    put_boolean(&mut out, true)?;
    put_string(&mut out, algorithm.as_bytes())?;
    put_string(&mut out, key)?;
    Ok(out)
}

/// The keys of the direction in which this side sends (RFC 4253 section 7.2), as long as the suite
/// asks for. `Memory` where an allocation failed.
///
/// The caller's conditions are that the names are names, and that the parts have fewer than 2^31
/// bytes together.
#[tactic(auto, unfolding(crate::specs::Derivations::derived))]
pub fn keys_of<S: Suite>(
    alloc: Global,
    suite: &S,
    material: &KeyMaterial<'_>,
    sender: Side,
    cipher: &str,
    mac: &str,
) -> Result<Keys, Memory>
    requires kex { IsName material.now.kex.now }
    requires cipher { IsName cipher.now }
    requires mac { IsName mac.now }
    requires short { source_size (key_material_data material.now) < 2 ^ 31 }
    ensures { IfOk result (λ keys. keys ≡ derived (S.meaning suite.now) (key_material_data material.now) sender cipher.now mac.now) }
{
    let lens = suite.key_lens(cipher, mac);
    let iv = key_of(alloc, suite, material, iv_letter(sender), lens.iv)?;
    let enc = key_of(alloc, suite, material, enc_letter(sender), lens.enc)?;
    let mac_key = key_of(alloc, suite, material, mac_letter(sender), lens.mac)?;
    let cipher = String::from_str(alloc, cipher)?;
    let mac = String::from_str(alloc, mac)?;
    Ok(Keys::new(KeyParts {
        cipher,
        mac,
        iv,
        enc,
        mac_key,
    }))
}

/// The letter of the initialisation vector.
fn iv_letter(sender: Side) -> u8
    ensures { result ≡ iv_letter sender }
{
    match sender {
        Side::Client => b'A',
        Side::Server => b'B',
    }
}

/// The letter of the encryption key.
fn enc_letter(sender: Side) -> u8
    ensures { result ≡ enc_letter sender }
{
    match sender {
        Side::Client => b'C',
        Side::Server => b'D',
    }
}

/// The letter of the integrity key.
fn mac_letter(sender: Side) -> u8
    ensures { result ≡ mac_letter sender }
{
    match sender {
        Side::Client => b'E',
        Side::Server => b'F',
    }
}

/// The key of this letter and length.
#[tactic(auto, unfolding(crate::specs::Derivations::key))]
fn key_of<S: Suite>(
    alloc: Global,
    suite: &S,
    material: &KeyMaterial<'_>,
    letter: u8,
    len: u8,
) -> Result<Vec<u8>, Memory>
    requires kex { IsName material.now.kex.now }
    requires short { source_size (key_material_data material.now) < 2 ^ 31 }
    ensures { IfOk result (λ v. v.items ≡ key (S.meaning suite.now) (key_material_data material.now) letter len) }
{
    let mut after = Vec::new(alloc);
    after.push(letter)?;
    after.extend_from_slice(material.session)?;
    let first = hash_of(alloc, suite, material, &after)?;
    let mut bytes = grow(alloc, suite, material, first, len)?;
    bytes.truncate(usize::from(len));
    Ok(bytes)
}

/// Appends hashes until there are so many bytes.
#[tactic(auto, using(crate::proofs::KeyLemmas::grows_start, crate::proofs::KeyLemmas::grows_on, crate::proofs::KeyLemmas::grows_stays))]
fn grow<S: Suite>(
    alloc: Global,
    suite: &S,
    material: &KeyMaterial<'_>,
    first: Vec<u8>,
    len: u8,
) -> Result<Vec<u8>, Memory>
    requires kex { IsName material.now.kex.now }
    requires short { source_size (key_material_data material.now) < 2 ^ 31 }
    requires first { length first.items ≤ DIGEST_LIMIT }
    ensures { IfOk result (λ v. take len v.items ≡ take len (grown (S.meaning suite.now) (key_material_data material.now) first.items len)) }
{
    let mut bytes = first;
    for _ in 0..len {
        if bytes.len() < usize::from(len) {
            let more = hash_of(alloc, suite, material, &bytes)?;
            bytes.extend_from_slice(&more)?;
        }
    }
    Ok(bytes)
}

/// The hash of the shared secret, the exchange hash and what follows.
fn hash_of<S: Suite>(
    alloc: Global,
    suite: &S,
    material: &KeyMaterial<'_>,
    after: &[u8],
) -> Result<Vec<u8>, Memory>
    requires kex { IsName material.now.kex.now }
    requires short { length material.now.shared.now + length material.now.hash.now + length after.now < 2 ^ 32 - 4 }
    ensures hash { IfOk result (λ v. v.items ≡ hash_with (S.meaning suite.now) (key_material_data material.now) after.now) }
    ensures short { IfOk result (λ v. length v.items ≤ DIGEST_LIMIT) }
{
    let mut input = Vec::new(alloc);
    put_string(&mut input, material.shared)?;
    input.extend_from_slice(material.hash)?;
    input.extend_from_slice(after)?;
    suite.digest(alloc, material.kex, &input)
}
