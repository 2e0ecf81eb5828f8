//! Why bytes are no packet.

ghost use Rattle.std.specs.Prelude.{◌≡◌};
ghost use Rattle.sshpacket.specs.declared.fault.PacketFault.TheVariants as fault;

use sshwire::Memory;
use std::error::Error;
use std::fmt;

/// Why the bytes of a direction are no packet (RFC 4253 section 6).
#[derive(Clone, Copy, Debug, PartialEq, Eq)]
pub enum PacketFault {
    /// P1: a packet_length that isn't taken.
    Length,
    /// P2: fewer than 4 bytes of padding, or more than there is room for.
    Padding,
    /// P3: an empty payload.
    Empty,
    /// P4: the tag isn't that of the packet.
    Mac,
    /// P5: an allocation failed.
    Memory,
}

impl fmt::Display for PacketFault {
    fn fmt<W: fmt::Write>(&self, f: &mut fmt::Formatter<W>) -> fmt::Result {
        let text = match self {
            PacketFault::Length => "bad packet length",
            PacketFault::Padding => "bad padding length",
            PacketFault::Empty => "empty payload",
            PacketFault::Mac => "bad tag",
            PacketFault::Memory => "out of memory",
        };
        f.write_str(text)
    }
}

impl Error for PacketFault {}

impl From<Memory> for PacketFault {
    ghost from_gives = { λ _ e. e ≡ fault.Memory };

    fn from(_e: Memory) -> PacketFault {
        PacketFault::Memory
    }
}
