//! What a player is given.

use sshneg::Side;
use std::alloc::Global;

/// What a player is given beside its check. It can't be printed, since it holds a private key.
#[derive(Clone, Copy)]
pub struct Setting<'a> {
    /// The user in whose name a client asks.
    pub user: &'a str,
    /// The user's password; empty where there is none.
    pub password: &'a [u8],
    /// The private key of ssh-ed25519, 32 bytes: a client's user key, a server's host key.
    pub own_key: &'a [u8],
    /// Random bytes of this connection alone.
    pub random: &'a [u8; 128],
    /// The ciphers that the own KEXINIT lists, with commas between.
    pub ciphers: &'a str,
    /// The MACs that it lists.
    pub macs: &'a str,
    /// The number of the message that a check of the sweep sends.
    pub number: u8,
}

impl<'a> Setting<'a> {
    /// Of the random bytes, the part from which the share of the key exchange is made.
    pub(crate) fn exchange_random(&self) -> &'a [u8] {
        let random = self.random;
        random.get(..32).unwrap_or(&[])
    }

    /// The part for another share.
    pub(crate) fn other_random(&self) -> &'a [u8] {
        let random = self.random;
        random.get(32..64).unwrap_or(&[])
    }

    /// A private key that is nobody's.
    pub(crate) fn stranger(&self) -> &'a [u8] {
        let random = self.random;
        random.get(64..96).unwrap_or(&[])
    }

    /// The cookie of the own KEXINIT.
    pub(crate) fn cookie(&self) -> &'a [u8] {
        let random = self.random;
        random.get(96..112).unwrap_or(&[])
    }
}

/// What a play doesn't change.
#[derive(Clone, Copy)]
pub(crate) struct Given<'a> {
    pub(crate) alloc: Global,
    /// The player's side.
    pub(crate) side: Side,
    /// What has to be so for the check to mean something.
    pub(crate) needs: &'a str,
    pub(crate) setting: Setting<'a>,
}
