//! Why no endpoint is made of a record.

use sshwire::Memory;

/// The version of the records that this crate writes and reads.
pub const RECORD_VERSION: u32 = 4;

/// How many bytes a record has at most. As a rule it has 2,000; the longest have the peer's KEXINIT, an unfinished packet, and a host
/// key, or a user's name and key, each of up to 35,000 bytes.
pub const RECORD_LIMIT: usize = 160_000;

/// Why no endpoint is made of a record.
#[derive(Clone, Copy, Debug, PartialEq, Eq)]
pub enum RecordFault {
    /// An allocation failed: the call may be made again.
    Memory,
    /// It is a record of another version than [`RECORD_VERSION`].
    Version,
    /// It isn't the record of an endpoint of this role that fits this config and this suite, as this version of the crate writes
    /// it.
    Unreadable,
}

impl From<Memory> for RecordFault {
    fn from(_: Memory) -> RecordFault {
        RecordFault::Memory
    }
}
