//! Why bytes can't be read or written at this layer.

ghost use Rattle.std.specs.Prelude.{◌≡◌};
ghost use Rattle.sshwire.specs.declared.fault.WireFault.TheVariants as fault;

use std::alloc::{AllocError, AllocFailed};
use std::error::Error;
use std::fmt;

/// An allocation failed: out of memory.
#[derive(Clone, Copy, Debug, PartialEq, Eq)]
pub struct Memory;

impl fmt::Display for Memory {
    fn fmt<W: fmt::Write>(&self, f: &mut fmt::Formatter<W>) -> fmt::Result {
        write!(f, "out of memory")
    }
}

impl Error for Memory {}

impl From<AllocError> for Memory {
    fn from(_e: AllocError) -> Memory {
        Memory
    }
}

impl<T: Drop> From<AllocFailed<T>> for Memory {
    fn from(_e: AllocFailed<T>) -> Memory {
        Memory
    }
}

/// Why bytes are no text of the wanted type or line.
#[derive(Clone, Copy, Debug, PartialEq, Eq)]
pub enum WireFault {
    /// V1: the bytes end before the value does (RFC 4251 section 5).
    Short,
    /// V2: a name is empty, longer than 64 bytes, or has a byte outside 33 to 126 or a comma. RFC
    /// 4251 section 6 says it of algorithm and method names; here it holds of every name (profile).
    Name,
    /// V3: an mpint has a leading byte that it doesn't need (RFC 4251 section 5).
    NotCanonical,
    /// V4: a NUL in a line, or a line that begins with `SSH-` and isn't a version line of
    /// protoversion 2.0 (RFC 4253 section 4.2; that 1.99 is refused is profile). Also bytes that
    /// are parsed as a version line and are none. A `PeerLineReader` takes those of its form.
    Line,
    /// V5: a line is longer than 255 bytes with its LF (RFC 4253 section 4.2; for other lines than
    /// the version line it is profile).
    TooLong,
    /// V6: more other lines stand before the version line than are accepted (profile).
    TooManyLines,
    /// V7: an allocation failed.
    Memory,
}

impl fmt::Display for WireFault {
    fn fmt<W: fmt::Write>(&self, f: &mut fmt::Formatter<W>) -> fmt::Result {
        let text = match self {
            WireFault::Short => "the bytes end within a value",
            WireFault::Name => "not a name",
            WireFault::NotCanonical => "an mpint with a needless leading byte",
            WireFault::Line => "not a version line",
            WireFault::TooLong => "a line of more than 255 bytes",
            WireFault::TooManyLines => "too many lines before the version line",
            WireFault::Memory => "out of memory",
        };
        write!(f, "{text}")
    }
}

impl Error for WireFault {}

impl From<Memory> for WireFault {
    ghost from_gives = { λ _ e. e ≡ fault.Memory };

    fn from(_e: Memory) -> WireFault {
        WireFault::Memory
    }
}
