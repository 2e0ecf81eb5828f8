//! Why the program doesn't begin, or doesn't go on.

use sshcore::{ConfigFault, LinkFault};
use sshidentity::FileFault;
use sshprogram::ProgramFault;
use sshwire::{Memory, WireFault};
use std::alloc::{AllocError, AllocFailed};
use std::fmt;

/// Why the program ends without an end of its endpoint.
#[derive(Clone, Copy)]
pub(crate) enum Fault {
    /// It has no memory, file or bytes, as any program.
    Program(ProgramFault),
    /// Words that don't fit each other.
    Words,
    /// The parts are refused.
    Config(ConfigFault),
    /// The suite hasn't all that the parts name, by this code.
    Suite(&'static str),
    /// What the peer sent after authentication can't be read.
    Session,
    /// The file that this option names can't be written.
    Unwritable(&'static str),
}

impl Fault {
    /// The exit status: 2 for words, files and parts, 3 for out of memory, 4 for a failed read or write.
    pub(crate) fn status(&self) -> u8 {
        match self {
            Fault::Program(ProgramFault::File(_)) => 2,
            Fault::Program(fault) => fault.status(),
            Fault::Session => 4,
            _ => 2,
        }
    }
}

impl fmt::Display for Fault {
    fn fmt<W: fmt::Write>(&self, f: &mut fmt::Formatter<W>) -> fmt::Result {
        match self {
            Fault::Program(fault) => write!(f, "{fault}"),
            Fault::Words => f.write_str("bad words; sshauth --help prints them"),
            Fault::Config(fault) => { write!(f, "the settings are refused: {fault}") }
            Fault::Suite(code) => write!(
                f,
                "the settings are refused: {code}: the suite hasn't all that they name"
            ),
            Fault::Session => f.write_str("the peer's packet can't be read"),
            Fault::Unwritable(option) => write!(f, "the file of --{option} can't be written"),
        }
    }
}

impl From<ProgramFault> for Fault {
    fn from(fault: ProgramFault) -> Fault {
        Fault::Program(fault)
    }
}

impl From<Memory> for Fault {
    fn from(_: Memory) -> Fault {
        Fault::Program(ProgramFault::Memory)
    }
}

impl From<AllocError> for Fault {
    fn from(_: AllocError) -> Fault {
        Fault::Program(ProgramFault::Memory)
    }
}

impl<T: Drop> From<AllocFailed<T>> for Fault {
    fn from(_: AllocFailed<T>) -> Fault {
        Fault::Program(ProgramFault::Memory)
    }
}

impl From<FileFault> for Fault {
    fn from(fault: FileFault) -> Fault {
        Fault::Program(ProgramFault::from(fault))
    }
}

impl From<ConfigFault> for Fault {
    fn from(fault: ConfigFault) -> Fault {
        match fault {
            ConfigFault::Memory => Fault::Program(ProgramFault::Memory),
            _ => Fault::Config(fault),
        }
    }
}

impl From<LinkFault> for Fault {
    fn from(fault: LinkFault) -> Fault {
        match fault {
            LinkFault::Memory => Fault::Program(ProgramFault::Memory),
            _ => Fault::Session,
        }
    }
}

impl From<WireFault> for Fault {
    fn from(fault: WireFault) -> Fault {
        match fault {
            WireFault::Memory => Fault::Program(ProgramFault::Memory),
            _ => Fault::Session,
        }
    }
}
