//! Why a program doesn't begin, or doesn't go on.

ghost use Rattle.std.specs.Prelude.{◌≤◌};

use sshidentity::FileFault;
use sshwire::Memory;
use std::alloc::{AllocError, AllocFailed};
use std::fmt;

/// Why a program ends early. Its text is what the program prints after its own name.
#[derive(Clone, Copy)]
pub enum ProgramFault {
    /// An allocation failed.
    Memory,
    /// Standard input can't be read.
    Read,
    /// Standard output can't be written, though the peer is there.
    Write,
    /// No random bytes are to be had.
    Random,
    /// A word isn't UTF-8.
    NotText,
    /// A file that an option names can't be used.
    File(FileFault),
}

impl ProgramFault {
    /// The exit status: 2 for words and files of another form, 3 for out of memory, 4 for a failed read or write.
    pub fn status(&self) -> u8
        ensures failed { 2 ≤ result }
    {
        match self {
            ProgramFault::Memory => 3,
            ProgramFault::Read | ProgramFault::Write | ProgramFault::Random => 4,
            ProgramFault::File(FileFault::Unreadable(_)) => 4,
            ProgramFault::File(_) | ProgramFault::NotText => 2,
        }
    }
}

impl fmt::Display for ProgramFault {
    fn fmt<W: fmt::Write>(&self, f: &mut fmt::Formatter<W>) -> fmt::Result {
        match self {
            ProgramFault::Memory => f.write_str("out of memory"),
            ProgramFault::Read => f.write_str("read failed"),
            ProgramFault::Write => f.write_str("write failed"),
            ProgramFault::Random => f.write_str("no random bytes"),
            ProgramFault::NotText => f.write_str("a word isn't UTF-8"),
            ProgramFault::File(fault) => write!(f, "{fault}"),
        }
    }
}

impl From<Memory> for ProgramFault {
    fn from(_: Memory) -> ProgramFault {
        ProgramFault::Memory
    }
}

impl From<AllocError> for ProgramFault {
    fn from(_: AllocError) -> ProgramFault {
        ProgramFault::Memory
    }
}

impl<T: Drop> From<AllocFailed<T>> for ProgramFault {
    fn from(_: AllocFailed<T>) -> ProgramFault {
        ProgramFault::Memory
    }
}

impl From<FileFault> for ProgramFault {
    fn from(fault: FileFault) -> ProgramFault {
        match fault {
            FileFault::Memory => ProgramFault::Memory,
            _ => ProgramFault::File(fault),
        }
    }
}
