//! Why a link seals or opens no packet.

ghost use Rattle.std.specs.Prelude.{◌≡◌};
ghost use Rattle.sshcore.specs.declared.link_fault.LinkFault.TheVariants as fault;
ghost use Rattle.sshcore.specs.Linked.{fault_by};

use sshpacket::PacketFault;
use sshwire::Memory;
use std::error::Error;
use std::fmt;

/// Why a link seals or opens no packet.
#[derive(Clone, Copy, Debug, PartialEq, Eq)]
pub enum LinkFault {
    /// The payload has no byte, or more than `PAYLOAD_LIMIT` (RFC 4253 section 6.1). The next one may do.
    Payload,
    /// `LINK_LIMIT` packets were sealed, or opened, or some of `LINK_BYTES_LIMIT` bytes or more were sealed, so no other one is in this
    /// direction.
    UsedUp,
    /// What came is no packet (RFC 4253 section 6); it is never `PacketFault::Memory`. The link opens nothing
    /// any more.
    Packet(PacketFault),
    /// An allocation failed. A payload may be sealed later; a link that was to open opens nothing any more.
    Memory,
}

impl fmt::Display for LinkFault {
    fn fmt<W: fmt::Write>(&self, f: &mut fmt::Formatter<W>) -> fmt::Result {
        match self {
            LinkFault::Payload => f.write_str("a payload has 1 to 32768 bytes"),
            LinkFault::UsedUp => f.write_str("keys used up"),
            LinkFault::Packet(fault) => write!(f, "{fault}"),
            LinkFault::Memory => f.write_str("out of memory"),
        }
    }
}

impl Error for LinkFault {}

impl From<Memory> for LinkFault {
    ghost from_gives = { λ _ e. e ≡ fault.Memory };

    fn from(_e: Memory) -> LinkFault {
        LinkFault::Memory
    }
}

/// What a link tells of a fault of its reader.
pub(crate) fn told_fault(fault: PacketFault) -> LinkFault
    ensures { result ≡ fault_by fault }
{
    match fault {
        PacketFault::Memory => LinkFault::Memory,
        _ => LinkFault::Packet(fault),
    }
}
