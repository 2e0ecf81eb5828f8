//! The names of the ciphers by AES, and the round keys of their keys.

ghost use Rattle.std.specs.Prelude.{◌≡◌, ◌≤◌, length, take};
ghost use Rattle.sshsuite.specs.CipherNames.{is_ctr, is_gcm, is_short_key, keys_by};

use crate::aes::{round_keys, short_round_keys};
use crate::sealing::whole_key;

/// Whether this is a name of AES in Galois/Counter Mode.
#[tactic(auto, unfolding(crate::specs::CipherNames::is_gcm))]
pub(crate) fn is_gcm(cipher: &str) -> bool
    ensures { result ≡ is_gcm cipher.now }
{
    cipher == "aes128-gcm@openssh.com" || cipher == "aes256-gcm@openssh.com"
}

/// Whether this is a name of AES in counter mode.
#[tactic(auto, unfolding(crate::specs::CipherNames::is_ctr))]
pub(crate) fn is_ctr(cipher: &str) -> bool
    ensures { result ≡ is_ctr cipher.now }
{
    cipher == "aes128-ctr" || cipher == "aes256-ctr"
}

/// Whether this is a name of AES with keys of 16 bytes; every other one has 32.
#[tactic(auto, unfolding(crate::specs::CipherNames::is_short_key))]
pub(crate) fn is_short_key(cipher: &str) -> bool
    ensures { result ≡ is_short_key cipher.now }
{
    cipher == "aes128-gcm@openssh.com" || cipher == "aes128-ctr"
}

/// The round keys of a key: 11 or 15.
#[derive(Clone, Copy)]
pub(crate) struct RoundKeys {
    keys: [u128; 15],
    count: usize,
    ghost counted: { count ≤ 15 },
}

impl RoundKeys {
    /// Them all.
    pub(crate) fn as_slice(&self) -> &[u128]
        ensures keys { result.now ≡ take self.now.count self.now.keys }
        ensures length { length result.now ≡ self.now.count }
    {
        &self.keys[..self.count]
    }
}

/// The round keys of an encryption key, of which zeros stand for what is short.
#[tactic(auto, unfolding(crate::specs::CipherNames::keys_by))]
pub(crate) fn keys_by(is_short: bool, enc: &[u8]) -> RoundKeys
    ensures keys { take result.count result.keys ≡ keys_by is_short enc.now }
    ensures some { 2 ≤ result.count }
{
    let key = whole_key(enc);
    if is_short {
        let mut keys = [0; 15];
        keys[..11].copy_from_slice(&short_round_keys(&key));
        RoundKeys { keys, count: 11 }
    } else {
        RoundKeys {
            keys: round_keys(&key),
            count: 15,
        }
    }
}
