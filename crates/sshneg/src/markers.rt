//! Names of a kex list that are no method: the markers of RFC 8308 section 2.1 and of the OpenSSH
//! strict key exchange.

ghost use Rattle.std.specs.Prelude.{◌≡◌};
ghost use Rattle.sshneg.specs.Markers.{is_marker, strict_marker};

use crate::side::Side;

/// Whether a name of a kex list is a marker, and so no method. Takes no memory.
pub fn is_marker(name: &str) -> bool
    ensures { result ≡ is_marker name.now }
{
    name == "ext-info-c"
        || name == "ext-info-s"
        || name == "kex-strict-c-v00@openssh.com"
        || name == "kex-strict-s-v00@openssh.com"
}

/// The marker by which a side of this role says that it can be strict (OpenSSH PROTOCOL section
/// 1.10). Takes no memory.
pub fn strict_marker(role: Side) -> &'static str
    ensures { result.now ≡ strict_marker role }
{
    match role {
        Side::Client => "kex-strict-c-v00@openssh.com",
        Side::Server => "kex-strict-s-v00@openssh.com",
    }
}
