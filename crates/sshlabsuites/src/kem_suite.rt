//! A second suite of algorithms for tests, over SHA-256, in the other mode. It is insecure.

ghost use Rattle.std.specs.Prelude.{◌≡◌, ◌^◌, ◌+◌, ◌<◌, ◌≤◌, ◌∷◌, IfOk, drop, length, take};
ghost use Rattle.sshlabsuites.specs.Kem.{counted_iv, crossed, kem, kem_answer, kem_number, kem_tag};
ghost use Rattle.sshwire.specs.Masks.{xored};
ghost use Rattle.sshlabsuites.specs.KemLaws.{kem_agreeing, kem_lawful};

use crate::lab_suite::{LabSuite, masked, xor_with};
use sha2::{Digest, Sha256};
use sshpacket::{
    AgreeingSuite, Capability, KeyLens, Keys, Need, Response, ShareForm, Suite, leading_uint32,
};
use sshwire::Memory;
use sshwire::owned::beside;
use std::alloc::Global;

/// How many bytes a tag has.
const TAG_LEN: usize = 16;

/// How many bytes an initialisation vector has.
const IV_LEN: usize = 12;

/// A suite for tests alone. **It is insecure.** It is all that [`LabSuite`](crate::LabSuite) isn't:
/// packet_length stands in clear, is covered by the tag and doesn't count towards the multiple;
/// a cipher whose name ends with `go` goes on from packet to packet;
/// shares are bytes, and the server's depends on the client's, as in a key encapsulation. Blocks,
/// padding, hashes and host keys are `LabSuite`'s.
#[derive(Clone, Copy, Debug)]
pub struct KemSuite;

impl Suite for KemSuite {
    ghost meaning = { λ _. kem };

    fn need(&self, _kex: &str) -> Need {
        Need::Signature
    }

    fn can(&self, _host_key: &str) -> Capability {
        Capability {
            signature: true,
            encryption: false,
        }
    }

    fn block(&self, cipher: &str) -> u8 {
        LabSuite.block(cipher)
    }

    fn tag_len(&self, _cipher: &str, _mac: &str) -> u8 {
        TAG_LEN as u8
    }

    fn counts_length(&self, _cipher: &str, _mac: &str) -> bool {
        false
    }

    fn key_lens(&self, _cipher: &str, _mac: &str) -> KeyLens {
        KeyLens {
            iv: IV_LEN as u8,
            enc: 64,
            mac: 0,
        }
    }

    #[tactic(auto, unfolding(crate::specs::Kem::kem_seal))]
    fn seal(&self, alloc: Global, keys: &Keys, seq: u32, packet: &[u8]) -> Result<Vec<u8>, Memory> {
        let mut sealed = crossed(alloc, keys, seq, packet)?;
        let tag = tag(keys, seq, &sealed);
        sealed.extend_from_slice(&tag)?;
        Ok(sealed)
    }

    fn head(&self, _keys: &Keys, _seq: u32, first: [u8; 4]) -> u32 {
        leading_uint32(&first)
    }

    #[tactic(auto, unfolding(crate::specs::Kem::kem_unseal, crate::specs::Kem::kem_checked))]
    fn unseal(
        &self,
        alloc: Global,
        keys: &Keys,
        seq: u32,
        sealed: &[u8],
    ) -> Result<Option<Vec<u8>>, Memory> {
        if sealed.len() < 4 + TAG_LEN {
            return Ok(None);
        }
        let (covered, found) = sealed.split_at(sealed.len() - TAG_LEN);
        if found == tag(keys, seq, covered).as_slice() {
            Ok(Some(crossed(alloc, keys, seq, covered)?))
        } else {
            Ok(None)
        }
    }

    #[tactic(auto, unfolding(crate::specs::Kem::kem_next_iv))]
    fn advance(&self, keys: &mut Keys, len: usize) {
        if keys.cipher().as_bytes().ends_with(b"go") && keys.iv().len() == IV_LEN {
            let next = counted_iv(keys.iv(), len);
            keys.set_iv(&next);
        }
    }

    fn padding(&self, alloc: Global, seed: &[u8], seq: u32, len: u8) -> Result<Vec<u8>, Memory> {
        LabSuite.padding(alloc, seed, seq, len)
    }

    fn share_form(&self, _kex: &str) -> ShareForm {
        ShareForm::Hybrid
    }

    fn public(&self, alloc: Global, _kex: &str, random: &[u8]) -> Result<Vec<u8>, Memory> {
        prefixed(alloc, 2, random)
    }

    #[tactic(auto, unfolding(crate::specs::Kem::kem_shared))]
    fn shared(
        &self,
        alloc: Global,
        _kex: &str,
        random: &[u8],
        peer: &[u8],
    ) -> Result<Option<Vec<u8>>, Memory> {
        if peer.len() != 33 || peer[0] != 3 {
            return Ok(None);
        }
        let own = prefixed(alloc, 2, random)?;
        let shared = number_with(alloc, random, &own, peer)?;
        Ok(Some(shared))
    }

    #[tactic(auto, unfolding(crate::specs::Kem::kem_respond))]
    fn respond(
        &self,
        alloc: Global,
        _kex: &str,
        random: &[u8],
        peer: &[u8],
    ) -> Result<Option<Response>, Memory> {
        if peer.len() != 33 || peer[0] != 2 {
            return Ok(None);
        }
        let share = answer_to(alloc, random, peer)?;
        let shared = number_of(alloc, random, peer, &share);
        let (share, shared) = beside(share, shared)?;
        Ok(Some(Response { share, shared }))
    }

    fn digest(&self, alloc: Global, kex: &str, input: &[u8]) -> Result<Vec<u8>, Memory> {
        LabSuite.digest(alloc, kex, input)
    }

    fn blob(&self, alloc: Global, algorithm: &str, private_key: &[u8]) -> Result<Vec<u8>, Memory> {
        LabSuite.blob(alloc, algorithm, private_key)
    }

    fn holds(&self, _alg: &str, _secret: &[u8]) -> bool {
        true
    }

    fn sign(
        &self,
        alloc: Global,
        algorithm: &str,
        private_key: &[u8],
        input: &[u8],
    ) -> Result<Vec<u8>, Memory> {
        LabSuite.sign(alloc, algorithm, private_key, input)
    }

    fn verify(
        &self,
        alloc: Global,
        algorithm: &str,
        blob: &[u8],
        input: &[u8],
        found: &[u8],
    ) -> Result<bool, Memory> {
        LabSuite.verify(alloc, algorithm, blob, input, found)
    }

    ghost lawful = { λ _. kem_lawful };
}

impl AgreeingSuite for KemSuite {
    ghost agrees = { λ _. kem_agreeing };
}

/// The client's number: of the server's random bytes, which its share masks, and both shares.
fn number_with(alloc: Global, random: &[u8], own: &[u8], peer: &[u8]) -> Result<Vec<u8>, Memory>
    requires some { 0 < length peer.now }
    requires long { length peer.now ≤ length random.now + 1 }
    ensures { IfOk result (λ number. number.items ≡ kem_number (xored (drop 1 peer.now) random.now) own.now peer.now) }
{
    let mut secret = Vec::from_slice(alloc, &peer[1..])?;
    xor_with(&mut secret, random);
    number_of(alloc, &secret, own, peer)
}

/// The server's share, which answers the client's: its random bytes, masked by the client's.
fn answer_to(alloc: Global, random: &[u8], peer: &[u8]) -> Result<Vec<u8>, Memory>
    requires some { 0 < length peer.now }
    requires long { length random.now < length peer.now }
    ensures { IfOk result (λ share. share.items ≡ kem_answer random.now peer.now) }
{
    let mut masked = Vec::from_slice(alloc, random)?;
    xor_with(&mut masked, &peer[1..]);
    prefixed(alloc, 3, &masked)
}

/// A byte, and these after it.
fn prefixed(alloc: Global, first: u8, bytes: &[u8]) -> Result<Vec<u8>, Memory>
    ensures { IfOk result (λ all. all.items ≡ first ∷ bytes.now) }
{
    let mut all = Vec::new(alloc);
    all.push(first)?;
    all.extend_from_slice(bytes)?;
    Ok(all)
}

/// The shared secret, as its own.
fn number_of(alloc: Global, random: &[u8], client: &[u8], server: &[u8]) -> Result<Vec<u8>, Memory>
    ensures { IfOk result (λ number. number.items ≡ kem_number random.now client.now server.now) }
{
    Ok(Vec::from_slice(alloc, &shared_secret(random, client, server))?)
}

/// The vector after a packet of so many bytes: they are added to the number that its last four bytes are, in 32 bits.
#[tactic(auto, unfolding(crate::specs::Kem::counted_iv))]
fn counted_iv(iv: &[u8], len: usize) -> [u8; 12]
    requires { length iv.now ≡ 12 }
    ensures { result ≡ counted_iv iv.now len }
{
    let count = leading_uint32(&iv[8..]).wrapping_add((len % 0x100000000) as u32);
    let mut next = [0; 12];
    next.copy_from_slice(iv);
    next[8..].copy_from_slice(&count.to_be_bytes());
    next
}

/// The first four bytes as they are, and the others XOR the key stream.
#[tactic(auto, unfolding(crate::specs::Kem::crossed))]
fn crossed(alloc: Global, keys: &Keys, seq: u32, bytes: &[u8]) -> Result<Vec<u8>, Memory>
    requires { length bytes.now < 2 ^ 32 }
    ensures { IfOk result (λ v. v.items ≡ crossed keys.now seq bytes.now) }
{
    let mut crossed = Vec::from_slice(alloc, first_four(bytes))?;
    crossed.extend_from_slice(&masked(alloc, keys, seq, after_four(bytes))?)?;
    Ok(crossed)
}

/// The first four bytes, or all where there are fewer.
fn first_four(bytes: &[u8]) -> &[u8]
    ensures { result.now ≡ take 4 bytes.now }
{
    if bytes.len() < 4 { bytes } else { &bytes[..4] }
}

/// What stands after them.
fn after_four(bytes: &[u8]) -> &[u8]
    ensures { result.now ≡ drop 4 bytes.now }
{
    if bytes.len() < 4 { &[] } else { &bytes[4..] }
}

/// The tag of a masked packet with this number.
#[tactic(auto, unfolding(crate::specs::Kem::kem_tag))]
fn tag(keys: &Keys, seq: u32, covered: &[u8]) -> [u8; 16]
    ensures { result ≡ kem_tag keys.now seq covered.now }
{
    let mut hasher = Sha256::new();
    hasher.update(keys.enc());
    hasher.update(seq.to_be_bytes());
    hasher.update(covered);
    let digest = hasher.finalize();
    let mut tag = [0; 16];
    tag.copy_from_slice(&digest[..16]);
    tag
}

/// The shared secret.
#[tactic(auto, unfolding(crate::specs::Kem::kem_number))]
fn shared_secret(random: &[u8], client: &[u8], server: &[u8]) -> [u8; 32]
    ensures { result ≡ kem_number random.now client.now server.now }
{
    let mut hasher = Sha256::new();
    hasher.update(random);
    hasher.update(client);
    hasher.update(server);
    hasher.finalize()
}
