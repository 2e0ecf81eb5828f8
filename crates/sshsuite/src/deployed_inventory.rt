//! What the suite says that it has.

ghost use Rattle.std.specs.Prelude.{◌≡◌};
ghost use Rattle.sshsuite.specs.DeployedInventory.{deployed_inventory};

use crate::deployed_suite::DeployedSuite;
use crate::keyed_suite::KeyedSuite;
use sshpacket::Inventory;

/// The ciphers chacha20-poly1305@openssh.com, aes256-gcm@openssh.com, aes128-gcm@openssh.com, aes256-ctr and aes128-ctr; the MACs
/// hmac-sha2-256-etm@openssh.com, hmac-sha2-512-etm@openssh.com, hmac-sha2-256 and hmac-sha2-512, of which the last two ciphers use one;
/// and the methods mlkem768x25519-sha256, curve25519-sha256, under both of its names, and diffie-hellman-group14-sha256.
impl Inventory for DeployedSuite {
    ghost inventory = { λ _. deployed_inventory };

    fn has_cipher(&self, cipher: &str) -> bool {
        cipher == "chacha20-poly1305@openssh.com"
            || cipher == "aes256-gcm@openssh.com"
            || cipher == "aes128-gcm@openssh.com"
            || cipher == "aes256-ctr"
            || cipher == "aes128-ctr"
    }

    fn has_mac(&self, mac: &str) -> bool {
        mac == "hmac-sha2-256-etm@openssh.com"
            || mac == "hmac-sha2-512-etm@openssh.com"
            || mac == "hmac-sha2-256"
            || mac == "hmac-sha2-512"
    }

    fn has_kex(&self, kex: &str) -> bool {
        kex == "mlkem768x25519-sha256"
            || kex == "curve25519-sha256"
            || kex == "curve25519-sha256@libssh.org"
            || kex == "diffie-hellman-group14-sha256"
    }
}

/// What [`DeployedSuite`] has.
impl Inventory for KeyedSuite<'_> {
    ghost inventory = { λ _. deployed_inventory };

    fn has_cipher(&self, cipher: &str) -> bool {
        DeployedSuite.has_cipher(cipher)
    }

    fn has_mac(&self, mac: &str) -> bool {
        DeployedSuite.has_mac(mac)
    }

    fn has_kex(&self, kex: &str) -> bool {
        DeployedSuite.has_kex(kex)
    }
}
