//! Strict key exchange (OpenSSH PROTOCOL, section 1.10).

ghost use Rattle.std.specs.Prelude.{◌↔◌, IsTrue};
ghost use Rattle.sshmsg.specs.View.{kexinit_data};
ghost use Rattle.sshneg.specs.Markers.{IsStrict};

use crate::markers::strict_marker;
use crate::side::Side;
use sshmsg::KexInit;

/// Whether an endpoint of this role is strict: it is willing to be, and the peer's KEXINIT has the
/// peer's marker, wherever it stands in the kex list. Takes no memory.
pub fn strict_of(own_flag: bool, own_role: Side, peer: &KexInit<'_>) -> bool
    ensures { IsTrue result ↔ IsStrict own_flag own_role (kexinit_data peer.now) }
{
    own_flag
        && peer
            .kex_algorithms
            .contains(strict_marker(own_role.other()))
}
