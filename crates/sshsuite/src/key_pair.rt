//! Private keys beside their public keys.

ghost use Rattle.std.specs.Prelude.{◌≡◌, None, Some, if◌then◌else◌, length};
ghost use Rattle.std.specs.Str.{bytes_eq};
ghost use Rattle.sshsuite.specs.Ed25519.{public_key};

use crate::constant_time::is_equal;
use crate::ed25519::public_key;
use std::marker::Model;

/// A private key of ssh-ed25519 and its public key (RFC 8032 section 5.1.5), which is computed where the pair is
/// made, and never again.
///
/// Contracts see the private key. It can't be printed, since that is secret.
#[derive(Drop)]
pub struct KeyPair {
    private: [u8; 32],
    public: [u8; 32],
}

impl Model for KeyPair {
    ghost use Rattle.std.specs.Prelude.{◌≡◌, ℕ, List};
    ghost use Rattle.sshsuite.specs.Ed25519.{public_key};

    ghost Value = { List ℕ };

    ghost view = { λ p. p.private };

    ghost invariant = { λ p. p.public ≡ public_key p.private };
}

impl KeyPair {
    /// The pair of this private key. It takes no memory.
    pub fn new(private_key: [u8; 32]) -> KeyPair
        ensures { result ≡ private_key }
    {
        KeyPair {
            private: private_key,
            public: public_key(&private_key),
        }
    }

    /// The public key, where the private key is the pair's. What the time tells is whether it is.
    pub(crate) fn public_key_of(&self, private_key: &[u8]) -> Option<[u8; 32]>
        requires { length private_key.now ≡ 32 }
        ensures { result ≡ (if bytes_eq self.now private_key.now then Some (public_key private_key.now) else None) }
    {
        if is_equal(&self.private, private_key) {
            Some(self.public)
        } else {
            None
        }
    }
}
