//! A suite of algorithms for tests, over SHA-256. It is insecure.

ghost use Rattle.std.specs.Prelude.{◌≡◌, List, Some, ℕ, ◌^◌, ◌<◌, ◌≤◌, ◌++◌, IfOk, length};
ghost use Rattle.sha2.specs.Sha256.{sha256};
ghost use Rattle.sshwire.specs.Types.{IsName};
ghost use Rattle.sshlabsuites.specs.Lab.{block_input, blocks_for, lab, lab_blob, masked, signature_by, stream, tag};
ghost use Rattle.sshwire.specs.Masks.{xored};
ghost use Rattle.sshpacket.specs.Suite.{AnswersAsDiffieHellman};
ghost use Rattle.sshlabsuites.specs.LabLaws.{lab_agreeing, lab_lawful};

use sha2::{Digest, Sha256};
use sshpacket::{
    AgreeingSuite, Capability, KeyLens, Keys, Need, Response, ShareForm, Suite, leading_uint32,
};
use sshwire::{Memory, put_string};
use std::alloc::Global;

/// How many bytes a tag has, and a block of a stream.
const HASH_LEN: usize = 32;

/// A suite for tests alone. **It is insecure**: a share of the key exchange shows the random bytes
/// that it was made of, and whoever knows a blob can sign for it.
///
/// The names decide: a key exchange method that begins with `x` needs a host key that encrypts, a
/// host key algorithm that begins with `e` can, and a cipher that ends with `16` has blocks of 16
/// bytes, every other one of 8.
#[derive(Clone, Copy, Debug)]
pub struct LabSuite;

impl Suite for LabSuite {
    ghost meaning = { λ _. lab };

    fn need(&self, kex: &str) -> Need {
        if kex.as_bytes().starts_with(b"x") {
            Need::Encryption
        } else {
            Need::Signature
        }
    }

    fn can(&self, host_key: &str) -> Capability {
        Capability {
            signature: true,
            encryption: host_key.as_bytes().starts_with(b"e"),
        }
    }

    fn block(&self, cipher: &str) -> u8 {
        if cipher.as_bytes().ends_with(b"16") {
            16
        } else {
            8
        }
    }

    fn tag_len(&self, _cipher: &str, _mac: &str) -> u8 {
        HASH_LEN as u8
    }

    fn counts_length(&self, _cipher: &str, _mac: &str) -> bool {
        true
    }

    fn key_lens(&self, _cipher: &str, _mac: &str) -> KeyLens {
        KeyLens {
            iv: 16,
            enc: 48,
            mac: 32,
        }
    }

    #[tactic(auto, unfolding(crate::specs::Lab::lab_seal))]
    fn seal(&self, alloc: Global, keys: &Keys, seq: u32, packet: &[u8]) -> Result<Vec<u8>, Memory> {
        let mut sealed = masked(alloc, keys, seq, packet)?;
        sealed.extend_from_slice(&tag(keys, seq, packet))?;
        Ok(sealed)
    }

    #[tactic(auto, unfolding(crate::specs::Lab::lab_head, crate::specs::Lab::masked, crate::specs::Lab::key_stream, crate::specs::Lab::stream))]
    fn head(&self, keys: &Keys, seq: u32, first: [u8; 4]) -> u32 {
        let mut first = first;
        xor_with(&mut first, &stream_block(keys.enc(), keys.iv(), seq, 0));
        leading_uint32(&first)
    }

    #[tactic(auto, unfolding(crate::specs::Lab::lab_unseal, crate::specs::Lab::checked))]
    fn unseal(
        &self,
        alloc: Global,
        keys: &Keys,
        seq: u32,
        sealed: &[u8],
    ) -> Result<Option<Vec<u8>>, Memory> {
        if sealed.len() < 4 + HASH_LEN {
            return Ok(None);
        }
        let (front, found) = sealed.split_at(sealed.len() - HASH_LEN);
        let clear = masked(alloc, keys, seq, front)?;
        if found == tag(keys, seq, &clear).as_slice()
            && leading_uint32(&clear) as usize + 4 == clear.len()
        {
            Ok(Some(clear))
        } else {
            Ok(None)
        }
    }

    fn advance(&self, _keys: &mut Keys, _len: usize) {}

    #[tactic(auto, unfolding(crate::specs::Lab::lab_padding))]
    fn padding(&self, alloc: Global, seed: &[u8], seq: u32, len: u8) -> Result<Vec<u8>, Memory> {
        let mut padding = stream(alloc, seed, &[], seq, usize::from(len))?;
        padding.truncate(usize::from(len));
        Ok(padding)
    }

    fn share_form(&self, _kex: &str) -> ShareForm {
        ShareForm::Mpint
    }

    fn public(&self, alloc: Global, _kex: &str, random: &[u8]) -> Result<Vec<u8>, Memory> {
        let mut share = Vec::new(alloc);
        share.push(1)?;
        share.extend_from_slice(random)?;
        Ok(share)
    }

    #[tactic(auto, unfolding(crate::specs::Lab::lab_shared))]
    fn shared(
        &self,
        alloc: Global,
        _kex: &str,
        random: &[u8],
        peer: &[u8],
    ) -> Result<Option<Vec<u8>>, Memory> {
        if peer.len() != 33 || peer[0] != 1 {
            return Ok(None);
        }
        let mut body = Vec::from_slice(alloc, peer)?;
        xor_with(&mut body[1..], random);
        Ok(Some(body))
    }

    fn respond(
        &self,
        alloc: Global,
        kex: &str,
        random: &[u8],
        peer: &[u8],
    ) -> Result<Option<Response>, Memory> {
        let Some(shared) = self.shared(alloc, kex, random, peer)? else {
            return Ok(None);
        };
        let share = self.public(alloc, kex, random)?;
        Ok(Some(Response { share, shared }))
    }

    fn digest(&self, alloc: Global, _kex: &str, input: &[u8]) -> Result<Vec<u8>, Memory> {
        Ok(Vec::from_slice(alloc, &Sha256::digest(input))?)
    }

    fn blob(&self, alloc: Global, algorithm: &str, private_key: &[u8]) -> Result<Vec<u8>, Memory> {
        blob(alloc, algorithm, private_key)
    }

    fn holds(&self, _alg: &str, _secret: &[u8]) -> bool {
        true
    }

    #[tactic(auto, using(crate::specs::LabLaws::blob_length))]
    fn sign(
        &self,
        alloc: Global,
        algorithm: &str,
        private_key: &[u8],
        input: &[u8],
    ) -> Result<Vec<u8>, Memory> {
        let blob = blob(alloc, algorithm, private_key)?;
        Ok(Vec::from_slice(alloc, &signature(&blob, input))?)
    }

    fn verify(
        &self,
        _alloc: Global,
        _alg: &str,
        blob: &[u8],
        input: &[u8],
        found: &[u8],
    ) -> Result<bool, Memory> {
        Ok(found == signature(blob, input).as_slice())
    }

    ghost lawful = { λ _. lab_lawful };
}

impl AgreeingSuite for LabSuite {
    ghost agrees = { λ _. lab_agreeing };
}

/// The law of the lab suite's key exchange: each side's shared secret with the other's share is the
/// same, and is there; and the server answers with its own share and number.
pub fn lab_law()
    ensures agreed { (kex a b : List ℕ) → length a ≡ 32 → length b ≡ 32 → lab.shared kex a (lab.share kex b) ≡ lab.shared kex b (lab.share kex a) }
    ensures present { (kex a b : List ℕ) → length a ≡ 32 → length b ≡ 32 → (body : List ℕ) × (lab.shared kex a (lab.share kex b) ≡ Some body) }
    ensures answers { (kex : List ℕ) → AnswersAsDiffieHellman lab kex }
{}

/// The public key of a private key: the name of the algorithm and the hash of the private key.
#[tactic(auto, using(crate::specs::LabLaws::blob_length), unfolding(crate::specs::Lab::lab_blob))]
pub(crate) fn blob(alloc: Global, algorithm: &str, private_key: &[u8]) -> Result<Vec<u8>, Memory>
    requires { IsName algorithm.now }
    ensures value { IfOk result (λ v. v.items ≡ lab_blob algorithm.now private_key.now) }
    ensures short { IfOk result (λ v. length v.items < 2 ^ 32) }
{
    let mut out = Vec::new(alloc);
    put_string(&mut out, algorithm.as_bytes())?;
    put_string(&mut out, &Sha256::digest(private_key))?;
    Ok(out)
}

/// The signature of the input by the key of this blob.
#[tactic(auto, unfolding(crate::specs::Lab::signature_by))]
fn signature(blob: &[u8], input: &[u8]) -> [u8; 32]
    requires blob { length blob.now < 2 ^ 32 }
    requires input { length input.now < 2 ^ 32 }
    ensures { result ≡ signature_by blob.now input.now }
{
    let mut hasher = Sha256::new();
    hasher.update((blob.len() as u32).to_be_bytes());
    hasher.update(blob);
    hasher.update((input.len() as u32).to_be_bytes());
    hasher.update(input);
    hasher.finalize()
}

/// The tag of a clear packet with this number.
#[tactic(auto, unfolding(crate::specs::Lab::tag))]
fn tag(keys: &Keys, seq: u32, clear: &[u8]) -> [u8; 32]
    ensures { result ≡ tag keys.now seq clear.now }
{
    let mut hasher = Sha256::new();
    hasher.update(keys.mac_key());
    hasher.update(seq.to_be_bytes());
    hasher.update(clear);
    hasher.finalize()
}

/// The bytes of the packet with this number, XOR the key stream.
#[tactic(auto, unfolding(crate::specs::Lab::masked, crate::specs::Lab::key_stream))]
pub(crate) fn masked(alloc: Global, keys: &Keys, seq: u32, bytes: &[u8]) -> Result<Vec<u8>, Memory>
    requires { length bytes.now < 2 ^ 32 }
    ensures { IfOk result (λ v. v.items ≡ masked keys.now seq bytes.now) }
{
    let mask = stream(alloc, keys.enc(), keys.iv(), seq, bytes.len())?;
    let mut masked = Vec::from_slice(alloc, bytes)?;
    xor_with(&mut masked, &mask);
    Ok(masked)
}

/// As many blocks as cover so many bytes, of the stream of a seed in two parts and a packet's number.
#[tactic(auto, using(crate::specs::Masks::stream_none, crate::specs::Masks::stream_more, crate::specs::Masks::stream_length))]
fn stream(alloc: Global, front: &[u8], back: &[u8], seq: u32, len: usize) -> Result<Vec<u8>, Memory>
    requires { len < 2 ^ 32 }
    ensures value { IfOk result (λ v. v.items ≡ stream (front.now ++ back.now) seq (blocks_for len)) }
    ensures covers { IfOk result (λ v. len ≤ length v.items) }
{
    let mut blocks = Vec::new(alloc);
    for index in 0..len.div_ceil(HASH_LEN) as u32 {
        blocks.extend_from_slice(&stream_block(front, back, seq, index))?;
    }
    Ok(blocks)
}

/// One block of the stream of a seed in two parts and a packet's number.
fn stream_block(front: &[u8], back: &[u8], seq: u32, index: u32) -> [u8; 32]
    ensures { result ≡ sha256 (block_input (front.now ++ back.now) seq index) }
{
    let mut hasher = Sha256::new();
    hasher.update(front);
    hasher.update(back);
    hasher.update(seq.to_be_bytes());
    hasher.update(index.to_be_bytes());
    hasher.finalize()
}

/// Each byte becomes itself XOR the byte at its place in the mask.
pub(crate) fn xor_with(bytes: &mut [u8], mask: &[u8])
    requires { length bytes.old ≤ length mask.now }
    ensures { bytes.new ≡ xored bytes.old mask.now }
{
    for i in 0..bytes.len() {
        bytes[i] ^= mask[i];
    }
}
