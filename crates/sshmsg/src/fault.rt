//! Why a payload is no message.

use std::error::Error;
use std::fmt;

/// Why a payload spells no message that is known here.
#[derive(Clone, Copy, Debug, PartialEq, Eq)]
pub enum MsgFault {
    /// M1: no message has this number.
    Unrecognised(u8),
    /// M2: a message has this number, and the payload doesn't spell it, or bytes stand after it;
    /// 0 for no bytes at all.
    Malformed(u8),
    /// M3: an allocation failed.
    Memory,
}

impl fmt::Display for MsgFault {
    fn fmt<W: fmt::Write>(&self, f: &mut fmt::Formatter<W>) -> fmt::Result {
        match self {
            MsgFault::Unrecognised(number) => write!(f, "unrecognised message {number}"),
            MsgFault::Malformed(number) => write!(f, "malformed message {number}"),
            MsgFault::Memory => write!(f, "out of memory"),
        }
    }
}

impl Error for MsgFault {}
