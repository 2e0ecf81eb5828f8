//! Algorithms that are deployed, as a suite.

ghost use Rattle.std.specs.Prelude.{◌≡◌, ◌<◌, ◌≤◌, ◌^◌, IfOk, drop, length, option_map};
ghost use Rattle.sshsuite.specs.Deployed.{aes_length, deployed, is_curve25519, is_ed25519, is_group14, is_held, is_hybrid, is_verified, share, shared, shared_secret, verify, wrapped};
ghost use Rattle.sshsuite.specs.DeployedLaws.{deployed_lawful};

use crate::chacha20::stream;
use crate::cipher_names::{is_ctr, is_gcm, is_short_key};
use crate::constant_time::is_equal;
use crate::curve25519::{BASE_POINT, x25519};
use crate::ed25519::{is_signature, public_key, signature};
use crate::expansion::{Purpose, expanded};
use crate::group14::{group14_share, group14_shared};
use crate::hybrid::{hybrid_respond, hybrid_share, hybrid_shared};
use crate::mpint::mpint_body;
use crate::rsa::rsa_verify;
use crate::rsa_fields::is_rsa;
use crate::{ctr, gcm, sealing};
use sha2::{Digest, Sha256};
use sshpacket::{
    Capability, KeyLens, Keys, Need, Response, ShareForm, Suite, copy_public_key, leading_uint32,
};
use sshwire::{Memory, put_string};
use std::alloc::Global;

/// The name of the algorithm of host keys and users' keys (RFC 8709 section 4).
const ED25519: &str = "ssh-ed25519";

/// A suite of algorithms that are deployed: the key exchanges mlkem768x25519-sha256 (draft-ietf-sshm-mlkem-hybrid-kex), which holds
/// against whoever breaks one of ML-KEM-768 and X25519 later, curve25519-sha256 (RFC 8731), also under the
/// name curve25519-sha256@libssh.org, and diffie-hellman-group14-sha256 (RFC 8268) for older peers, keys of ssh-ed25519
/// (RFC 8709), signatures of rsa-sha2-256 and rsa-sha2-512 (RFC 8332) by others' keys, the ciphers
/// chacha20-poly1305@openssh.com (OpenSSH PROTOCOL.chacha20poly1305), aes256-gcm@openssh.com and aes128-gcm@openssh.com (RFC 5647 as
/// OpenSSH PROTOCOL section 1.6 has it), aes256-ctr and aes128-ctr (RFC 4344 section 4), and for these two the MACs hmac-sha2-256 and
/// hmac-sha2-512 (RFC 6668) and hmac-sha2-256-etm@openssh.com and hmac-sha2-512-etm@openssh.com (OpenSSH PROTOCOL section 1.5).
///
/// It holds the private keys of ssh-ed25519 that are the 32 bytes of RFC 8032 section 5.1.5. By RSA it verifies and doesn't
/// sign. What it doesn't hold stands for a key that is held elsewhere: `blob` takes bytes that begin with a name, as a
/// string, for its public key, and tells nothing of others ([`copy_public_key`]); and whoever runs the endpoint is asked for
/// its signatures. `sign` answers as ssh-ed25519 whatever the name, by the hash of
/// whatever bytes; an endpoint calls it for keys that are held alone. Taken are moduli of 2048 to 8192 bits and odd
/// exponents from 3 to below 2^24.
///
/// [`Inventory`](sshpacket::Inventory) tells which names these are, so that a config that lists another one is refused. Of other names:
///
/// - A key exchange method that it doesn't know needs a host key that encrypts, and a host key algorithm that
///   it doesn't know can neither sign nor encrypt: so no choice comes to one. A share of such a method is
///   refused.
/// - A signature of an algorithm that it doesn't know is never valid.
/// - Every other cipher is chacha20-poly1305@openssh.com. Beside aes256-ctr and aes128-ctr every other MAC is hmac-sha2-256; beside
///   the other ciphers, which have a tag of their own, every MAC is left out.
///
/// The ciphers by AES go on from packet to packet ([`advance`](Suite::advance)): the nonce of -gcm is raised by one, the counter of
/// -ctr by the packet's blocks.
///
/// Under a MAC without -etm, and under chacha20-poly1305@openssh.com, the length of a packet is deciphered and judged before its tag, as
/// RFC 4253 section 6 has it. So whoever changes the length on the way sees by what the endpoint does whether the changed one may be a
/// packet's, and after how many bytes it is refused. A changed bit changes that bit of the length; of the rest of the clear text nothing
/// is told. With -etm and -gcm the length stands in clear. Lists have -ctr last, and of the MACs -etm first.
///
/// Of exchanges, signatures and AES itself what it computes is proved to be the RFCs' and FIPS 197's
/// ([`deployed_law`](crate::deployed_law), [`rsa_law`](crate::rsa_law), [`aes_law`](crate::aes_law)), down to numbers; counter mode and HMAC
/// are written as their definitions are; SHA-256, SHA-512 and ChaCha20 are the kit's. Two ends by curve25519-sha256 come to one shared secret
/// ([`curve25519_law`](crate::curve25519_law)); by diffie-hellman-group14-sha256 they do if no share is refused
/// ([`group14_law`](crate::group14_law)). What is signed by a key that the suite holds is verified ([`signature_law`](crate::signature_law)).
///
/// Each method draws of the random bytes of an exchange by SHAKE256 of them and a byte of its own: so a share that was sent
/// by one method tells nothing of what another draws, also where a guess was wrong and both are sent.
///
/// By mlkem768x25519-sha256 two ends come to one shared secret if the noise of ML-KEM between their random bytes is small
/// ([`hybrid_law`](crate::hybrid_law)). For a few random bytes it isn't, and then the client finds the signature wrong (F11).
///
/// No branch and no index depends on a secret, as the code is written; no contract promises it of what a
/// compiler makes. What time does tell is how many zeros a shared secret begins with, since it goes as an
/// mpint into the exchange hash (RFC 8731 section 3.1, RFC 4253 section 8). How long a verification takes tells of its arguments, which
/// are all public. Nothing is wiped.
#[derive(Clone, Copy, Debug)]
pub struct DeployedSuite;

impl Suite for DeployedSuite {
    ghost meaning = { λ _. deployed };

    fn need(&self, kex: &str) -> Need {
        if is_curve25519(kex) || is_group14(kex) || is_hybrid(kex) {
            Need::Signature
        } else {
            Need::Encryption
        }
    }

    fn can(&self, host_key: &str) -> Capability {
        Capability {
            signature: is_ed25519(host_key) || is_rsa(host_key),
            encryption: false,
        }
    }

    fn block(&self, cipher: &str) -> u8 {
        if is_ctr(cipher) || is_gcm(cipher) {
            16
        } else {
            8
        }
    }

    fn tag_len(&self, cipher: &str, mac: &str) -> u8 {
        if is_ctr(cipher) {
            ctr::tag_length(mac)
        } else {
            sealing::TAG_LEN as u8
        }
    }

    fn counts_length(&self, cipher: &str, mac: &str) -> bool {
        is_ctr(cipher) && !ctr::covers_sealed(mac)
    }

    fn key_lens(&self, cipher: &str, mac: &str) -> KeyLens {
        if is_ctr(cipher) {
            KeyLens {
                iv: 16,
                enc: aes_length(cipher),
                mac: ctr::tag_length(mac),
            }
        } else if is_gcm(cipher) {
            KeyLens {
                iv: 12,
                enc: aes_length(cipher),
                mac: 0,
            }
        } else {
            KeyLens {
                iv: 0,
                enc: 64,
                mac: 0,
            }
        }
    }

    fn seal(&self, alloc: Global, keys: &Keys, seq: u32, packet: &[u8]) -> Result<Vec<u8>, Memory> {
        let cipher = keys.cipher();
        if is_ctr(cipher) {
            ctr::seal(alloc, keys, seq, packet)
        } else if is_gcm(cipher) {
            gcm::seal(alloc, is_short_key(cipher), keys.iv(), keys.enc(), packet)
        } else {
            sealing::seal(alloc, keys.enc(), seq, packet)
        }
    }

    fn head(&self, keys: &Keys, seq: u32, first: [u8; 4]) -> u32 {
        if is_ctr(keys.cipher()) {
            ctr::head(keys, first)
        } else if is_gcm(keys.cipher()) {
            leading_uint32(&first)
        } else {
            sealing::head(keys.enc(), seq, first)
        }
    }

    fn unseal(
        &self,
        alloc: Global,
        keys: &Keys,
        seq: u32,
        sealed: &[u8],
    ) -> Result<Option<Vec<u8>>, Memory> {
        let cipher = keys.cipher();
        if is_ctr(cipher) {
            ctr::unseal(alloc, keys, seq, sealed)
        } else if is_gcm(cipher) {
            gcm::unseal(alloc, is_short_key(cipher), keys.iv(), keys.enc(), sealed)
        } else {
            sealing::unseal(alloc, keys.enc(), seq, sealed)
        }
    }

    fn advance(&self, keys: &mut Keys, len: usize) {
        if is_ctr(keys.cipher()) {
            ctr::advance(keys, len)
        } else if is_gcm(keys.cipher()) {
            gcm::advance(keys)
        }
    }

    fn padding(&self, alloc: Global, seed: &[u8], seq: u32, len: u8) -> Result<Vec<u8>, Memory> {
        stream(alloc, Sha256::digest(seed), seq, 0, usize::from(len))
    }

    fn share_form(&self, kex: &str) -> ShareForm {
        if is_group14(kex) {
            ShareForm::Mpint
        } else if is_hybrid(kex) {
            ShareForm::Hybrid
        } else {
            ShareForm::OctetString
        }
    }

    fn public(&self, alloc: Global, kex: &str, random: &[u8]) -> Result<Vec<u8>, Memory> {
        share(alloc, kex, random)
    }

    fn shared(
        &self,
        alloc: Global,
        kex: &str,
        random: &[u8],
        peer: &[u8],
    ) -> Result<Option<Vec<u8>>, Memory> {
        shared(alloc, kex, random, peer)
    }

    #[tactic(auto, unfolding(crate::specs::Deployed::respond))]
    fn respond(
        &self,
        alloc: Global,
        kex: &str,
        random: &[u8],
        peer: &[u8],
    ) -> Result<Option<Response>, Memory> {
        if is_hybrid(kex) {
            return hybrid_respond(alloc, random, peer);
        }
        let Some(shared) = shared(alloc, kex, random, peer)? else {
            return Ok(None);
        };
        let share = share(alloc, kex, random)?;
        Ok(Some(Response { share, shared }))
    }

    fn digest(&self, alloc: Global, _kex: &str, input: &[u8]) -> Result<Vec<u8>, Memory> {
        Ok(Vec::from_slice(alloc, &Sha256::digest(input))?)
    }

    fn blob(&self, alloc: Global, algorithm: &str, private_key: &[u8]) -> Result<Vec<u8>, Memory> {
        if is_held(algorithm, private_key) {
            wrapped(alloc, &public_key(private_key))
        } else {
            copy_public_key(alloc, private_key)
        }
    }

    fn holds(&self, algorithm: &str, private_key: &[u8]) -> bool {
        is_held(algorithm, private_key)
    }

    fn sign(
        &self,
        alloc: Global,
        _alg: &str,
        private_key: &[u8],
        input: &[u8],
    ) -> Result<Vec<u8>, Memory> {
        wrapped(
            alloc,
            &signature(alloc, private_key, &public_key(private_key), input)?,
        )
    }

    fn verify(
        &self,
        alloc: Global,
        algorithm: &str,
        blob: &[u8],
        input: &[u8],
        found: &[u8],
    ) -> Result<bool, Memory> {
        verify(alloc, algorithm, blob, input, found)
    }

    ghost lawful = { λ _. deployed_lawful };
}

/// Whether this is a name of curve25519-sha256: that of RFC 8731, or the one that was in use before it.
#[tactic(auto, unfolding(crate::specs::Deployed::is_curve25519))]
fn is_curve25519(kex: &str) -> bool
    ensures { result ≡ is_curve25519 kex.now }
{
    kex == "curve25519-sha256" || kex == "curve25519-sha256@libssh.org"
}

/// Whether this is the name of diffie-hellman-group14-sha256.
#[tactic(auto, unfolding(crate::specs::Deployed::is_group14))]
fn is_group14(kex: &str) -> bool
    ensures { result ≡ is_group14 kex.now }
{
    kex == "diffie-hellman-group14-sha256"
}

/// Whether this is the name of mlkem768x25519-sha256.
#[tactic(auto, unfolding(crate::specs::Deployed::is_hybrid))]
fn is_hybrid(kex: &str) -> bool
    ensures { result ≡ is_hybrid kex.now }
{
    kex == "mlkem768x25519-sha256"
}

/// How many bytes a key of AES has.
fn aes_length(cipher: &str) -> u8
    ensures { result ≡ aes_length cipher.now }
{
    if is_short_key(cipher) { 16 } else { 32 }
}

/// Whether these bytes are a private key of ssh-ed25519, which has 32.
#[tactic(auto, unfolding(crate::specs::Deployed::is_held))]
pub(crate) fn is_held(algorithm: &str, private_key: &[u8]) -> bool
    ensures { result ≡ is_held algorithm.now private_key.now }
{
    is_ed25519(algorithm) && private_key.len() == 32
}

/// Whether this is the name of ssh-ed25519.
#[tactic(auto, unfolding(crate::specs::Deployed::is_ed25519))]
fn is_ed25519(algorithm: &str) -> bool
    ensures { result ≡ is_ed25519 algorithm.now }
{
    algorithm == ED25519
}

/// The share of these random bytes (RFC 4253 section 8, RFC 7748 section 6.1).
#[tactic(auto, unfolding(crate::specs::Deployed::share))]
fn share(alloc: Global, kex: &str, random: &[u8]) -> Result<Vec<u8>, Memory>
    requires { length random.now ≡ 32 }
    ensures { IfOk result (λ v. v.items ≡ share kex.now random.now) }
{
    if is_group14(kex) {
        group14_share(alloc, &expanded(random, Purpose::Group14, 0))
    } else if is_hybrid(kex) {
        hybrid_share(alloc, random)
    } else {
        Ok(Vec::from_slice(
            alloc,
            &x25519(expanded(random, Purpose::Curve25519, 0), &BASE_POINT),
        )?)
    }
}

/// The shared secret as the body of an mpint; none where the method isn't known or refuses the peer's share: of
/// curve25519-sha256 one that isn't 32 bytes, or gives zero.
#[tactic(auto, unfolding(crate::specs::Deployed::shared))]
fn shared(alloc: Global, kex: &str, random: &[u8], peer: &[u8]) -> Result<Option<Vec<u8>>, Memory>
    requires { length random.now ≡ 32 }
    ensures { IfOk result (λ o. option_map (λ v. v.items) o ≡ shared kex.now random.now peer.now) }
{
    if is_group14(kex) {
        group14_shared(alloc, &expanded(random, Purpose::Group14, 0), peer)
    } else if is_hybrid(kex) {
        hybrid_shared(alloc, random, peer)
    } else if is_curve25519(kex) && peer.len() == 32 {
        shared_secret(
            alloc,
            x25519(expanded(random, Purpose::Curve25519, 0), peer),
        )
    } else {
        Ok(None)
    }
}

/// The number that is shared, where it isn't zero, which is what comes of each share of small order (RFC
/// 7748 section 6.1, RFC 8731 section 3).
#[tactic(auto, unfolding(crate::specs::Deployed::shared_secret))]
fn shared_secret(alloc: Global, secret: [u8; 32]) -> Result<Option<Vec<u8>>, Memory>
    ensures { IfOk result (λ o. option_map (λ v. v.items) o ≡ shared_secret secret) }
{
    if is_equal(&secret, &[0; 32]) {
        return Ok(None);
    }
    let body = mpint_body(alloc, &secret)?;
    Ok(Some(body))
}

/// The name of the algorithm and the bytes, each as a string: a public key or a signature (RFC 8709
/// sections 4 and 6).
#[tactic(auto, unfolding(crate::specs::Deployed::wrapped))]
pub(crate) fn wrapped(alloc: Global, bytes: &[u8]) -> Result<Vec<u8>, Memory>
    requires { length bytes.now < 2 ^ 32 }
    ensures { IfOk result (λ v. v.items ≡ wrapped bytes.now) }
{
    let mut out = Vec::new(alloc);
    put_string(&mut out, ED25519.as_bytes())?;
    put_string(&mut out, bytes)?;
    Ok(out)
}

/// Whether a blob and a signature of the right lengths are what they are to be.
#[tactic(auto, unfolding(crate::specs::Deployed::is_verified))]
fn is_verified(alloc: Global, blob: &[u8], input: &[u8], found: &[u8]) -> Result<bool, Memory>
    requires blob { length blob.now ≡ 51 }
    requires found { length found.now ≡ 83 }
    ensures { IfOk result (λ b. b ≡ is_verified blob.now input.now found.now) }
{
    let (_, key) = blob.split_at(19);
    let (_, own) = found.split_at(19);
    let is_blob = wrapped(alloc, key)?.as_slice() == blob;
    let is_found = wrapped(alloc, own)?.as_slice() == found;
    let is_signed = is_signature(key, input, own);
    Ok(is_blob && (is_found && is_signed))
}

/// Whether the signature is that of the input by the key of this blob, both of this algorithm.
#[tactic(auto, unfolding(crate::specs::Deployed::verify))]
fn verify(
    alloc: Global,
    algorithm: &str,
    blob: &[u8],
    input: &[u8],
    found: &[u8],
) -> Result<bool, Memory>
    ensures { IfOk result (λ b. b ≡ verify algorithm.now blob.now input.now found.now) }
{
    if is_rsa(algorithm) {
        rsa_verify(alloc, algorithm, blob, input, found)
    } else if is_ed25519(algorithm) && blob.len() == 51 && found.len() == 83 {
        is_verified(alloc, blob, input, found)
    } else {
        Ok(false)
    }
}
