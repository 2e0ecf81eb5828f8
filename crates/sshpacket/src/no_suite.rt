//! The suite of a reader that has no keys.

ghost use Rattle.sshpacket.specs.NoSuite.{no_suite};
ghost use Rattle.sshpacket.specs.NoSuiteLaws.{no_suite_lawful};

use crate::keys::Keys;
use crate::protection::leading_uint32;
use crate::suite::{Capability, KeyLens, Need, Response, Suite};
use sshwire::{Memory, ShareForm};
use std::alloc::Global;

/// A suite that a reader without keys is handed, and asks for nothing. It seals and opens nothing, and verifies
/// nothing: each call that would make something answers that memory ran out.
pub(crate) struct NoSuite;

impl Suite for NoSuite {
    ghost meaning = { λ _. no_suite };

    fn need(&self, _kex: &str) -> Need {
        Need::Signature
    }

    fn can(&self, _host_key: &str) -> Capability {
        Capability {
            signature: false,
            encryption: false,
        }
    }

    fn block(&self, _cipher: &str) -> u8 {
        8
    }

    fn tag_len(&self, _cipher: &str, _mac: &str) -> u8 {
        0
    }

    fn counts_length(&self, _cipher: &str, _mac: &str) -> bool {
        true
    }

    fn key_lens(&self, _cipher: &str, _mac: &str) -> KeyLens {
        KeyLens {
            iv: 0,
            enc: 0,
            mac: 0,
        }
    }

    fn seal(
        &self,
        _alloc: Global,
        _keys: &Keys,
        _seq: u32,
        _packet: &[u8],
    ) -> Result<Vec<u8>, Memory> {
        Err(Memory)
    }

    fn head(&self, _keys: &Keys, _seq: u32, first: [u8; 4]) -> u32 {
        leading_uint32(&first)
    }

    fn unseal(
        &self,
        _alloc: Global,
        _keys: &Keys,
        _seq: u32,
        _sealed: &[u8],
    ) -> Result<Option<Vec<u8>>, Memory> {
        Err(Memory)
    }

    fn advance(&self, _keys: &mut Keys, _len: usize) {}

    fn padding(
        &self,
        _alloc: Global,
        _seed: &[u8],
        _seq: u32,
        _len: u8,
    ) -> Result<Vec<u8>, Memory> {
        Err(Memory)
    }

    fn share_form(&self, _kex: &str) -> ShareForm {
        ShareForm::OctetString
    }

    fn public(&self, _alloc: Global, _kex: &str, _random: &[u8]) -> Result<Vec<u8>, Memory> {
        Err(Memory)
    }

    fn shared(
        &self,
        _alloc: Global,
        _kex: &str,
        _random: &[u8],
        _peer: &[u8],
    ) -> Result<Option<Vec<u8>>, Memory> {
        Err(Memory)
    }

    fn respond(
        &self,
        _alloc: Global,
        _kex: &str,
        _random: &[u8],
        _peer: &[u8],
    ) -> Result<Option<Response>, Memory> {
        Err(Memory)
    }

    fn digest(&self, _alloc: Global, _kex: &str, _input: &[u8]) -> Result<Vec<u8>, Memory> {
        Err(Memory)
    }

    fn blob(&self, _alloc: Global, _alg: &str, _secret: &[u8]) -> Result<Vec<u8>, Memory> {
        Err(Memory)
    }

    fn holds(&self, _alg: &str, _secret: &[u8]) -> bool {
        true
    }

    fn sign(
        &self,
        _alloc: Global,
        _alg: &str,
        _secret: &[u8],
        _input: &[u8],
    ) -> Result<Vec<u8>, Memory> {
        Err(Memory)
    }

    fn verify(
        &self,
        _alloc: Global,
        _alg: &str,
        _blob: &[u8],
        _input: &[u8],
        _signature: &[u8],
    ) -> Result<bool, Memory> {
        Err(Memory)
    }

    ghost lawful = { λ _. no_suite_lawful };
}
