//! What a suite says that it has.

ghost use Rattle.std.specs.Prelude.{◌≡◌};
ghost use Rattle.sshwire.specs.Types.{IsName};
ghost use Rattle.sshpacket.specs.Inventory.{InventoryData};

use crate::suite::Suite;

/// A suite that says what it has. [`Suite`] gives every name a behaviour, also one that the suite doesn't know; this tells
/// which names it knows, so that a config that lists another one is refused before a connection is made.
///
/// Whether it has a host key algorithm is told by [`Suite::can`]: it has those that sign; whether it has a private key, by
/// [`Suite::holds`]. An inventory has no laws. One
/// that says yes to what the suite doesn't have refuses less, and nothing that is proved of an endpoint rests on it.
pub trait Inventory: Suite {
    ghost inventory: { Self → InventoryData };

    /// Whether the suite has this cipher.
    fn has_cipher(&self, cipher: &str) -> bool
        requires { IsName cipher.now }
        ensures { result ≡ (inventory self.now).has_cipher cipher.now };

    /// Whether the suite has this MAC. A suite whose ciphers all have a tag of their own uses none, and may say yes to every name.
    fn has_mac(&self, mac: &str) -> bool
        requires { IsName mac.now }
        ensures { result ≡ (inventory self.now).has_mac mac.now };

    /// Whether the suite has this key exchange method.
    fn has_kex(&self, kex: &str) -> bool
        requires { IsName kex.now }
        ensures { result ≡ (inventory self.now).has_kex kex.now };
}
