//! A suite of which is counted what it is asked for.

use sshpacket::{Capability, KeyLens, Keys, Need, Response, ShareForm, Suite};
use sshwire::Memory;
use std::alloc::Global;
use std::cell::Cell;

/// How often a suite was asked.
#[derive(Drop)]
pub(crate) struct Counts {
    /// For a signature.
    pub(crate) signed: Cell<u32>,
    /// Whether a signature is right.
    pub(crate) verified: Cell<u32>,
    /// For a server's share and its shared secret.
    pub(crate) responded: Cell<u32>,
    /// For a hash.
    pub(crate) digested: Cell<u32>,
}

impl Counts {
    /// Never.
    fn new() -> Counts {
        Counts {
            signed: Cell::new(0),
            verified: Cell::new(0),
            responded: Cell::new(0),
            digested: Cell::new(0),
        }
    }

    /// The same counts.
    pub(crate) fn copied(&self) -> Counts {
        Counts {
            signed: Cell::new(self.signed.get()),
            verified: Cell::new(self.verified.get()),
            responded: Cell::new(self.responded.get()),
            digested: Cell::new(self.digested.get()),
        }
    }

    /// Counts on from these.
    pub(crate) fn put_back(&self, counts: &Counts) {
        self.signed.set(counts.signed.get());
        self.verified.set(counts.verified.get());
        self.responded.set(counts.responded.get());
        self.digested.set(counts.digested.get());
    }

    /// Counts from 0 again.
    pub(crate) fn reset(&self) {
        self.signed.set(0);
        self.verified.set(0);
        self.responded.set(0);
        self.digested.set(0);
    }
}

/// Counts once more.
fn count(cell: &Cell<u32>) {
    cell.set(cell.get().saturating_add(1));
}

/// A suite that answers as another does, and counts how often it is asked.
#[derive(Drop)]
pub(crate) struct CountedSuite<S: Suite> {
    pub(crate) suite: S,
    pub(crate) counts: Counts,
}

impl<S: Suite> CountedSuite<S> {
    /// A suite that answers as this one, and was asked nothing.
    pub(crate) fn new(suite: S) -> CountedSuite<S> {
        CountedSuite {
            suite,
            counts: Counts::new(),
        }
    }
}

impl<S: Suite> Suite for CountedSuite<S> {
    ghost meaning = { λ counted. S.meaning counted.suite };

    fn need(&self, kex: &str) -> Need {
        self.suite.need(kex)
    }

    fn can(&self, host_key: &str) -> Capability {
        self.suite.can(host_key)
    }

    fn block(&self, cipher: &str) -> u8 {
        self.suite.block(cipher)
    }

    fn tag_len(&self, cipher: &str, mac: &str) -> u8 {
        self.suite.tag_len(cipher, mac)
    }

    fn counts_length(&self, cipher: &str, mac: &str) -> bool {
        self.suite.counts_length(cipher, mac)
    }

    fn key_lens(&self, cipher: &str, mac: &str) -> KeyLens {
        self.suite.key_lens(cipher, mac)
    }

    fn seal(&self, alloc: Global, keys: &Keys, seq: u32, packet: &[u8]) -> Result<Vec<u8>, Memory> {
        self.suite.seal(alloc, keys, seq, packet)
    }

    fn head(&self, keys: &Keys, seq: u32, first: [u8; 4]) -> u32 {
        self.suite.head(keys, seq, first)
    }

    fn unseal(
        &self,
        alloc: Global,
        keys: &Keys,
        seq: u32,
        sealed: &[u8],
    ) -> Result<Option<Vec<u8>>, Memory> {
        self.suite.unseal(alloc, keys, seq, sealed)
    }

    fn advance(&self, keys: &mut Keys, len: usize) {
        self.suite.advance(keys, len)
    }

    fn padding(&self, alloc: Global, seed: &[u8], seq: u32, len: u8) -> Result<Vec<u8>, Memory> {
        self.suite.padding(alloc, seed, seq, len)
    }

    fn share_form(&self, kex: &str) -> ShareForm {
        self.suite.share_form(kex)
    }

    fn public(&self, alloc: Global, kex: &str, random: &[u8]) -> Result<Vec<u8>, Memory> {
        self.suite.public(alloc, kex, random)
    }

    fn shared(
        &self,
        alloc: Global,
        kex: &str,
        random: &[u8],
        peer: &[u8],
    ) -> Result<Option<Vec<u8>>, Memory> {
        self.suite.shared(alloc, kex, random, peer)
    }

    fn respond(
        &self,
        alloc: Global,
        kex: &str,
        random: &[u8],
        peer: &[u8],
    ) -> Result<Option<Response>, Memory> {
        count(&self.counts.responded);
        self.suite.respond(alloc, kex, random, peer)
    }

    fn digest(&self, alloc: Global, kex: &str, input: &[u8]) -> Result<Vec<u8>, Memory> {
        count(&self.counts.digested);
        self.suite.digest(alloc, kex, input)
    }

    fn blob(&self, alloc: Global, algorithm: &str, private_key: &[u8]) -> Result<Vec<u8>, Memory> {
        self.suite.blob(alloc, algorithm, private_key)
    }

    fn holds(&self, algorithm: &str, private_key: &[u8]) -> bool {
        self.suite.holds(algorithm, private_key)
    }

    fn sign(
        &self,
        alloc: Global,
        algorithm: &str,
        private_key: &[u8],
        input: &[u8],
    ) -> Result<Vec<u8>, Memory> {
        count(&self.counts.signed);
        self.suite.sign(alloc, algorithm, private_key, input)
    }

    fn verify(
        &self,
        alloc: Global,
        algorithm: &str,
        blob: &[u8],
        input: &[u8],
        signature: &[u8],
    ) -> Result<bool, Memory> {
        count(&self.counts.verified);
        self.suite.verify(alloc, algorithm, blob, input, signature)
    }

    ghost lawful = { λ counted. S.lawful counted.suite };
}
