//! The same suite, for private keys whose public keys are known.

ghost use Rattle.std.specs.Prelude.{◌≡◌};
ghost use Rattle.sshsuite.specs.Deployed.{deployed};
ghost use Rattle.sshsuite.specs.DeployedLaws.{deployed_lawful};
ghost use Rattle.sshsuite.specs.Ed25519.{public_key};

use crate::deployed_suite::{DeployedSuite, is_held, wrapped};
use crate::ed25519::{public_key, signature};
use crate::key_pair::KeyPair;
use sshpacket::{Capability, KeyLens, Keys, Need, Response, ShareForm, Suite, copy_public_key};
use sshwire::Memory;
use std::alloc::Global;

/// The suite [`DeployedSuite`] with the key pairs of its owner. It answers the same, and doesn't compute anew the
/// public key of a private key that is in one of the pairs: so a server that keeps one suite for many connections
/// computes its public key once, where [`DeployedSuite`] computes it twice in each key exchange.
///
/// What the time of `blob` and of `sign` tells is which pair has the private key, if one has it, and nothing more of it.
#[derive(Clone, Copy)]
pub struct KeyedSuite<'a> {
    /// The pairs, in the order in which they are looked through.
    pub pairs: &'a [KeyPair],
}

impl KeyedSuite<'_> {
    /// The public key of a private key: that of its pair, or computed where no pair has it.
    fn public_key(&self, private_key: &[u8]) -> [u8; 32]
        ensures { result ≡ public_key private_key.now }
    {
        if private_key.len() == 32 {
            for pair in self.pairs {
                if let Some(key) = pair.public_key_of(private_key) {
                    return key;
                }
            }
        }
        public_key(private_key)
    }
}

impl Suite for KeyedSuite<'_> {
    ghost meaning = { λ _. deployed };

    fn need(&self, kex: &str) -> Need {
        DeployedSuite.need(kex)
    }

    fn can(&self, host_key: &str) -> Capability {
        DeployedSuite.can(host_key)
    }

    fn block(&self, cipher: &str) -> u8 {
        DeployedSuite.block(cipher)
    }

    fn tag_len(&self, cipher: &str, mac: &str) -> u8 {
        DeployedSuite.tag_len(cipher, mac)
    }

    fn counts_length(&self, cipher: &str, mac: &str) -> bool {
        DeployedSuite.counts_length(cipher, mac)
    }

    fn key_lens(&self, cipher: &str, mac: &str) -> KeyLens {
        DeployedSuite.key_lens(cipher, mac)
    }

    fn seal(&self, alloc: Global, keys: &Keys, seq: u32, packet: &[u8]) -> Result<Vec<u8>, Memory> {
        DeployedSuite.seal(alloc, keys, seq, packet)
    }

    fn head(&self, keys: &Keys, seq: u32, first: [u8; 4]) -> u32 {
        DeployedSuite.head(keys, seq, first)
    }

    fn unseal(
        &self,
        alloc: Global,
        keys: &Keys,
        seq: u32,
        sealed: &[u8],
    ) -> Result<Option<Vec<u8>>, Memory> {
        DeployedSuite.unseal(alloc, keys, seq, sealed)
    }

    fn advance(&self, keys: &mut Keys, len: usize) {
        DeployedSuite.advance(keys, len)
    }

    fn padding(&self, alloc: Global, seed: &[u8], seq: u32, len: u8) -> Result<Vec<u8>, Memory> {
        DeployedSuite.padding(alloc, seed, seq, len)
    }

    fn share_form(&self, kex: &str) -> ShareForm {
        DeployedSuite.share_form(kex)
    }

    fn public(&self, alloc: Global, kex: &str, random: &[u8]) -> Result<Vec<u8>, Memory> {
        DeployedSuite.public(alloc, kex, random)
    }

    fn shared(
        &self,
        alloc: Global,
        kex: &str,
        random: &[u8],
        peer: &[u8],
    ) -> Result<Option<Vec<u8>>, Memory> {
        DeployedSuite.shared(alloc, kex, random, peer)
    }

    fn respond(
        &self,
        alloc: Global,
        kex: &str,
        random: &[u8],
        peer: &[u8],
    ) -> Result<Option<Response>, Memory> {
        DeployedSuite.respond(alloc, kex, random, peer)
    }

    fn digest(&self, alloc: Global, kex: &str, input: &[u8]) -> Result<Vec<u8>, Memory> {
        DeployedSuite.digest(alloc, kex, input)
    }

    fn blob(&self, alloc: Global, algorithm: &str, private_key: &[u8]) -> Result<Vec<u8>, Memory> {
        if is_held(algorithm, private_key) {
            wrapped(alloc, &self.public_key(private_key))
        } else {
            copy_public_key(alloc, private_key)
        }
    }

    fn holds(&self, algorithm: &str, private_key: &[u8]) -> bool {
        is_held(algorithm, private_key)
    }

    fn sign(
        &self,
        alloc: Global,
        _alg: &str,
        private_key: &[u8],
        input: &[u8],
    ) -> Result<Vec<u8>, Memory> {
        let key = self.public_key(private_key);
        wrapped(alloc, &signature(alloc, private_key, &key, input)?)
    }

    fn verify(
        &self,
        alloc: Global,
        algorithm: &str,
        blob: &[u8],
        input: &[u8],
        found: &[u8],
    ) -> Result<bool, Memory> {
        DeployedSuite.verify(alloc, algorithm, blob, input, found)
    }

    ghost lawful = { λ _. deployed_lawful };
}
