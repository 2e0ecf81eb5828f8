//! Why a recording isn't told.

ghost use Rattle.std.specs.Prelude.{◌≡◌};
ghost use Rattle.sshlab.specs.declared.tool_fault.ToolFault.TheVariants as fault;

use sshwire::Memory;
use thiserror::Error;

/// Why an engine has no answer, or couldn't write it.
#[derive(Clone, Copy, Debug, Error, PartialEq, Eq)]
pub enum ToolFault {
    /// X1: a read failed.
    #[error("read failed")]
    Read,
    /// X2: a write failed, or took no byte of some.
    #[error("write failed")]
    Write,
    /// X3: an allocation failed.
    #[error("out of memory")]
    Memory,
    /// X4: the first line of the recording that has none of the forms; lines are counted from 1.
    #[error("recording line {0}")]
    Recording(u32),
    /// X5: the input is longer than 1048576 bytes.
    #[error("input too long")]
    TooLong,
}

impl From<Memory> for ToolFault {
    ghost from_gives = { λ _ e. e ≡ fault.Memory };

    fn from(_e: Memory) -> ToolFault {
        ToolFault::Memory
    }
}
