//! Why a check isn't played to its end.

use crate::blocks::{Block, number_of};
use crate::escapes::put_shown;
use sshchecks::{CheckFault, PlayFault};
use sshprogram::{ProgramFault, REFUSED};
use sshwire::TextBuffer;
use std::io::Write;

/// Why a check isn't played to its end.
#[derive(Clone, Copy)]
pub(crate) enum Stop<'a> {
    /// The program can't go on.
    Fault(ProgramFault),
    /// This line isn't one of a check.
    Line(&'a str),
    /// It sends a number, and no word says which.
    NoNumber,
}

impl From<ProgramFault> for Stop<'_> {
    fn from(fault: ProgramFault) -> Self {
        Stop::Fault(fault)
    }
}

impl<'a> From<CheckFault<'a>> for Stop<'a> {
    fn from(fault: CheckFault<'a>) -> Stop<'a> {
        match fault {
            CheckFault::Memory => Stop::Fault(ProgramFault::Memory),
            CheckFault::Form(line) => Stop::Line(line),
        }
    }
}

impl<'a> From<PlayFault<'a>> for Stop<'a> {
    fn from(fault: PlayFault<'a>) -> Stop<'a> {
        match fault {
            PlayFault::Memory => Stop::Fault(ProgramFault::Memory),
            PlayFault::Form(line) => Stop::Line(line),
        }
    }
}

/// Tells which line of the file of checks is refused, and answers the exit status.
pub(crate) fn stopped(
    rt: &HostRuntime,
    text: &str,
    block: &Block<'_>,
    stop: Stop<'_>,
) -> Result<u8, ProgramFault> {
    match stop {
        Stop::Fault(fault) => Err(fault),
        Stop::Line(line) => {
            let mut told = TextBuffer::new(rt.alloc());
            let number = number_of(text, block, line);
            write!(
                told,
                "sshconform: line {number} of the file of --checks isn't one of a check: "
            );
            put_shown(&mut told, line.as_bytes());
            told.push('\n');
            let _ = rt.stderr().write_all(told.finish()?.as_bytes());
            Ok(REFUSED)
        }
        Stop::NoNumber => {
            let _ = writeln!(
                rt.stderr(),
                "sshconform: a check of the sweep needs --number"
            );
            Ok(REFUSED)
        }
    }
}
