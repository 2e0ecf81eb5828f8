//! What the insecure suites say that they have.

ghost use Rattle.std.specs.Prelude.{◌≡◌};
ghost use Rattle.sshlabsuites.specs.LabInventory.{lab_inventory};

use crate::kem_suite::KemSuite;
use crate::lab_suite::LabSuite;
use sshpacket::Inventory;

/// Every name, since the suite has an answer for each, but the cipher and the MAC `none`: it encrypts and puts a tag under every name.
impl Inventory for LabSuite {
    ghost inventory = { λ _. lab_inventory };

    fn has_cipher(&self, cipher: &str) -> bool {
        cipher != "none"
    }

    fn has_mac(&self, mac: &str) -> bool {
        mac != "none"
    }

    fn has_kex(&self, _kex: &str) -> bool {
        true
    }
}

/// What [`LabSuite`] has.
impl Inventory for KemSuite {
    ghost inventory = { λ _. lab_inventory };

    fn has_cipher(&self, cipher: &str) -> bool {
        LabSuite.has_cipher(cipher)
    }

    fn has_mac(&self, mac: &str) -> bool {
        LabSuite.has_mac(mac)
    }

    fn has_kex(&self, kex: &str) -> bool {
        LabSuite.has_kex(kex)
    }
}
