//! The keys of one direction.

ghost use Rattle.std.specs.Prelude.{◌≡◌, length};
ghost use Rattle.sshwire.specs.Types.{IsName};

use std::marker::Model;

/// What [`Keys`] are made of, each part by its name (RFC 4253 section 7.2). They can't be printed, since
/// they are secret.
#[derive(Drop)]
pub struct KeyParts {
    /// The name of the cipher.
    pub cipher: String,
    /// The name of the MAC.
    pub mac: String,
    /// The initialisation vector.
    pub iv: Vec<u8>,
    /// The encryption key.
    pub enc: Vec<u8>,
    /// The integrity key.
    pub mac_key: Vec<u8>,
}

/// The algorithms and keys of one direction (RFC 4253 section 7.2): the names of the cipher and of
/// the MAC, the initialisation vector and the two keys.
///
/// Contracts see them as byte lists. They can't be printed, since they are secret.
#[derive(Drop)]
pub struct Keys {
    cipher: String,
    mac: String,
    iv: Vec<u8>,
    enc: Vec<u8>,
    mac_key: Vec<u8>,
}

impl Model for Keys {
    ghost use Rattle.std.specs.Prelude.{string_bytes};
    ghost use Rattle.sshpacket.specs.KeysData.{KeysData};
    ghost use Rattle.sshpacket.specs.KeyNames.{HasNames};

    ghost Value = { KeysData };

    ghost view = { λ k. record { cipher = string_bytes k.cipher; mac = string_bytes k.mac; iv = k.iv.items; enc = k.enc.items; mac_key = k.mac_key.items } };

    ghost invariant = { λ k. HasNames (string_bytes k.cipher) (string_bytes k.mac) };
}

impl Keys {
    ghost use Rattle.std.specs.Prelude.{string_bytes};

    /// Keys of these parts. The caller's condition is that the names are names (RFC 4251 section 6).
    /// It takes no memory.
    pub fn new(parts: KeyParts) -> Keys
        requires cipher { IsName (string_bytes parts.cipher) }
        requires mac { IsName (string_bytes parts.mac) }
        ensures { result ≡ record { cipher = string_bytes parts.cipher; mac = string_bytes parts.mac; iv = parts.iv.items; enc = parts.enc.items; mac_key = parts.mac_key.items } }
    {
        Keys {
            cipher: parts.cipher,
            mac: parts.mac,
            iv: parts.iv,
            enc: parts.enc,
            mac_key: parts.mac_key,
        }
    }

    /// The name of the cipher.
    pub fn cipher(&self) -> &str
        ensures cipher { result.now ≡ self.now.cipher }
        ensures name { IsName self.now.cipher }
    {
        &self.cipher
    }

    /// The name of the MAC.
    pub fn mac(&self) -> &str
        ensures mac { result.now ≡ self.now.mac }
        ensures name { IsName self.now.mac }
    {
        &self.mac
    }

    /// The initialisation vector.
    pub fn iv(&self) -> &[u8]
        ensures { result.now ≡ self.now.iv }
    {
        &self.iv
    }

    /// Puts another initialisation vector of the same length in its place. It takes no memory.
    pub fn set_iv(&mut self, iv: &[u8])
        requires { length iv.now ≡ length self.old.iv }
        ensures { self.new ≡ record self.old { iv = iv.now } }
    {
        self.iv.as_mut_slice().copy_from_slice(iv);
    }

    /// The encryption key.
    pub fn enc(&self) -> &[u8]
        ensures { result.now ≡ self.now.enc }
    {
        &self.enc
    }

    /// The integrity key.
    pub fn mac_key(&self) -> &[u8]
        ensures { result.now ≡ self.now.mac_key }
    {
        &self.mac_key
    }
}
