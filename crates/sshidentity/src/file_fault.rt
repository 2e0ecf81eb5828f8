//! Why a file that an option names can't be used.

use crate::fault::IdentityFault;
use sshwire::Memory;
use std::alloc::AllocError;
use std::fmt;

/// Why a file can't be used. Each but the first has the name of the option that names the file, without its two minus signs.
#[derive(Clone, Copy)]
pub enum FileFault {
    /// An allocation failed.
    Memory,
    /// The file can't be read.
    Unreadable(&'static str),
    /// The file isn't what it has to be.
    Form(&'static str),
    /// The file has no key that can be used.
    Key(&'static str, KeyFault),
}

impl fmt::Display for FileFault {
    fn fmt<W: fmt::Write>(&self, f: &mut fmt::Formatter<W>) -> fmt::Result {
        match self {
            FileFault::Memory => f.write_str("out of memory"),
            FileFault::Unreadable(option) => write!(f, "the file of --{option} can't be read"),
            FileFault::Form(option) => write!(
                f,
                "the file of --{option} hasn't the form that it needs"
            ),
            FileFault::Key(option, fault) => write!(f, "the file of --{option} {}", fault.words()),
        }
    }
}

impl From<Memory> for FileFault {
    fn from(_: Memory) -> FileFault {
        FileFault::Memory
    }
}

impl From<AllocError> for FileFault {
    fn from(_: AllocError) -> FileFault {
        FileFault::Memory
    }
}

/// Why a file has no key that can be used.
#[derive(Clone, Copy)]
pub enum KeyFault {
    /// There is no private key in its text.
    Identity(IdentityFault),
    /// Others than its owner may use it.
    Readable,
    /// Its public key is of another kind than its line says.
    Contradicts,
    /// Its line's public key can't be read.
    Blob,
}

impl KeyFault {
    /// What is told of the file, after its name.
    pub fn words(&self) -> &'static str {
        match self {
            KeyFault::Identity(fault) => fault.words(),
            KeyFault::Readable => "may be read or written by others than its owner",
            KeyFault::Contradicts => "has a public key of another kind than its line says",
            KeyFault::Blob => "has a public key that can't be read",
        }
    }
}
