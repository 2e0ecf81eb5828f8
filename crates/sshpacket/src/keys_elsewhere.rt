//! A suite whose keys are held elsewhere.

ghost use Rattle.std.specs.Prelude.{◌≡◌, IfOk};
ghost use Rattle.sshpacket.specs.KeysElsewhere.{begins_with_name, elsewhere, public_part};
ghost use Rattle.sshpacket.specs.KeysElsewhereLaws.{elsewhere_lawful};

use crate::inventory::Inventory;
use crate::keys::Keys;
use crate::limits::BLOB_LIMIT;
use crate::suite::{Capability, KeyLens, Need, Response, Suite};
use sshwire::{Memory, Reader, ShareForm, as_name};
use std::alloc::Global;

/// A suite that does as another, and holds no private key: where a config has a private key there stands the public key, and
/// whoever runs an endpoint is asked for each signature.
#[derive(Clone, Copy)]
pub struct KeysElsewhere<S: Suite> {
    /// The suite that does all but signing.
    pub suite: S,
}

impl<S: Suite> Suite for KeysElsewhere<S> {
    ghost meaning = { λ e. elsewhere (S.meaning e.suite) };

    fn need(&self, kex: &str) -> Need {
        self.suite.need(kex)
    }

    fn can(&self, host_key: &str) -> Capability {
        self.suite.can(host_key)
    }

    fn block(&self, cipher: &str) -> u8 {
        self.suite.block(cipher)
    }

    fn tag_len(&self, cipher: &str, mac: &str) -> u8 {
        self.suite.tag_len(cipher, mac)
    }

    fn counts_length(&self, cipher: &str, mac: &str) -> bool {
        self.suite.counts_length(cipher, mac)
    }

    fn key_lens(&self, cipher: &str, mac: &str) -> KeyLens {
        self.suite.key_lens(cipher, mac)
    }

    fn seal(&self, alloc: Global, keys: &Keys, seq: u32, packet: &[u8]) -> Result<Vec<u8>, Memory> {
        self.suite.seal(alloc, keys, seq, packet)
    }

    fn head(&self, keys: &Keys, seq: u32, first: [u8; 4]) -> u32 {
        self.suite.head(keys, seq, first)
    }

    fn unseal(
        &self,
        alloc: Global,
        keys: &Keys,
        seq: u32,
        sealed: &[u8],
    ) -> Result<Option<Vec<u8>>, Memory> {
        self.suite.unseal(alloc, keys, seq, sealed)
    }

    fn advance(&self, keys: &mut Keys, len: usize) {
        self.suite.advance(keys, len)
    }

    fn padding(&self, alloc: Global, seed: &[u8], seq: u32, len: u8) -> Result<Vec<u8>, Memory> {
        self.suite.padding(alloc, seed, seq, len)
    }

    fn share_form(&self, kex: &str) -> ShareForm {
        self.suite.share_form(kex)
    }

    fn public(&self, alloc: Global, kex: &str, random: &[u8]) -> Result<Vec<u8>, Memory> {
        self.suite.public(alloc, kex, random)
    }

    fn shared(
        &self,
        alloc: Global,
        kex: &str,
        random: &[u8],
        peer: &[u8],
    ) -> Result<Option<Vec<u8>>, Memory> {
        self.suite.shared(alloc, kex, random, peer)
    }

    fn respond(
        &self,
        alloc: Global,
        kex: &str,
        random: &[u8],
        peer: &[u8],
    ) -> Result<Option<Response>, Memory> {
        self.suite.respond(alloc, kex, random, peer)
    }

    fn digest(&self, alloc: Global, kex: &str, input: &[u8]) -> Result<Vec<u8>, Memory> {
        self.suite.digest(alloc, kex, input)
    }

    fn blob(&self, alloc: Global, _alg: &str, private_key: &[u8]) -> Result<Vec<u8>, Memory> {
        copy_public_key(alloc, private_key)
    }

    fn holds(&self, _alg: &str, _secret: &[u8]) -> bool {
        false
    }

    fn sign(
        &self,
        alloc: Global,
        algorithm: &str,
        private_key: &[u8],
        input: &[u8],
    ) -> Result<Vec<u8>, Memory> {
        self.suite.sign(alloc, algorithm, private_key, input)
    }

    fn verify(
        &self,
        alloc: Global,
        algorithm: &str,
        blob: &[u8],
        input: &[u8],
        signature: &[u8],
    ) -> Result<bool, Memory> {
        self.suite.verify(alloc, algorithm, blob, input, signature)
    }

    ghost lawful = { λ e. elsewhere_lawful (S.meaning e.suite) (S.lawful e.suite) };
}

/// What `Inventory` of the suite says that does all but signing.
impl<S: Inventory> Inventory for KeysElsewhere<S> {
    ghost inventory = { λ e. S.inventory e.suite };

    fn has_cipher(&self, cipher: &str) -> bool {
        self.suite.has_cipher(cipher)
    }

    fn has_mac(&self, mac: &str) -> bool {
        self.suite.has_mac(mac)
    }

    fn has_kex(&self, kex: &str) -> bool {
        self.suite.has_kex(kex)
    }
}

/// A copy of the public key that stands in a config for a private key which is held elsewhere: what is longer than a public
/// key ([`BLOB_LIMIT`](crate::BLOB_LIMIT)) is cut. Of bytes that don't begin with a name, as a string, as each public key does
/// (RFC 4253 section 6.6), nothing is copied, so that a private key in a form that the suite doesn't know is told to nobody.
/// Answers `Memory` where an allocation failed.
pub fn copy_public_key(alloc: Global, public_key: &[u8]) -> Result<Vec<u8>, Memory>
    ensures { IfOk result (λ v. v.items ≡ public_part public_key.now) }
{
    if !begins_with_name(public_key) {
        return Ok(Vec::new(alloc));
    }
    let len = public_key.len().min(BLOB_LIMIT);
    Ok(Vec::from_slice(alloc, &public_key[..len])?)
}

/// Whether the string at the front of these bytes is a name.
#[tactic(auto, unfolding(crate::specs::KeysElsewhere::begins_with_name))]
fn begins_with_name(bytes: &[u8]) -> bool
    ensures { result ≡ begins_with_name bytes.now }
{
    sshwire::names_law();
    match Reader::new(bytes).string() {
        Ok(name) => as_name(name).is_some(),
        Err(_) => false,
    }
}
