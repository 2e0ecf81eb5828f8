//! Why the program's words get no answer.

ghost use Rattle.std.specs.Prelude.{◌≡◌};
ghost use Rattle.sshlab.specs.Statuses.{status_of};
ghost use Rattle.sshlab.specs.declared.command_fault.CommandFault.TheVariants as command;

use crate::scenario::ScenarioFault;
use crate::tool_fault::ToolFault;
use std::fmt;
use thiserror::Error;

/// The status of bad words or input.
const BAD_INPUT: u8 = 2;

/// The status for out of memory.
const NO_MEMORY: u8 = 3;

/// The status of a read or a write that failed.
const BROKEN: u8 = 4;

/// Why the words get no answer.
#[derive(Clone, Copy, Debug, Error)]
pub(crate) enum CommandFault {
    /// The words have none of the forms that there are.
    #[error("bad words")]
    Words,
    /// A softwareversion that no version line has.
    #[error("bad version")]
    Version,
    /// Not deliveries with commas between.
    #[error("bad schedule")]
    Schedule,
    /// The input is no scenario.
    #[error("{0}")]
    Scenario(ScenarioFault),
    /// The input or the output failed, or the input is no recording.
    #[error("{0}")]
    Tool(ToolFault),
    /// An allocation failed.
    #[error("out of memory")]
    Memory,
}

impl From<ToolFault> for CommandFault {
    ghost from_gives = { λ fault e. e ≡ command.Tool fault };

    fn from(fault: ToolFault) -> CommandFault {
        CommandFault::Tool(fault)
    }
}

impl CommandFault {
    /// The exit status.
    pub(crate) fn status(self) -> u8
        ensures { result ≡ status_of self }
    {
        match self {
            CommandFault::Scenario(ScenarioFault::Memory)
            | CommandFault::Tool(ToolFault::Memory)
            | CommandFault::Memory => NO_MEMORY,
            CommandFault::Tool(ToolFault::Read | ToolFault::Write) => BROKEN,
            _ => BAD_INPUT,
        }
    }
}
