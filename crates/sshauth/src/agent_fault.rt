//! Why an agent makes no signature.

use sshwire::Memory;
use std::alloc::AllocError;
use std::fmt;

/// Why there is no signature by a key that an agent holds.
#[derive(Clone, Copy)]
pub(crate) enum AgentFault {
    /// An allocation failed.
    Memory,
    /// No request can be made: the algorithm is no name, or the key or what is to be signed is too long.
    Request,
    /// Requests can't be written.
    Unwritable,
    /// Responses can't be read.
    Unreadable,
    /// The responses end within one, or before.
    Cut,
    /// The response is longer than one that is read.
    Long,
    /// The agent refuses the request.
    Refused,
    /// The response is another message than a signature.
    Other,
    /// What stands in the response isn't one string.
    Form,
    /// The signature is longer than one that is sent.
    LongSignature,
    /// The signature isn't one by the key, of what was to be signed.
    Unverified,
}

impl AgentFault {
    /// What is told of the agent.
    fn words(&self) -> &'static str {
        match self {
            AgentFault::Memory => "out of memory",
            AgentFault::Request => "no request can be made for it",
            AgentFault::Unwritable => "the file of --agent-requests can't be written",
            AgentFault::Unreadable => "the file of --agent-responses can't be read",
            AgentFault::Cut => "its response is cut off",
            AgentFault::Long => "its response is too long",
            AgentFault::Refused => "it refuses the request",
            AgentFault::Other => "its response is another message",
            AgentFault::Form => "its response can't be read",
            AgentFault::LongSignature => "its signature is too long",
            AgentFault::Unverified => "its signature is wrong",
        }
    }
}

impl fmt::Display for AgentFault {
    fn fmt<W: fmt::Write>(&self, f: &mut fmt::Formatter<W>) -> fmt::Result {
        f.write_str(self.words())
    }
}

impl From<Memory> for AgentFault {
    fn from(_: Memory) -> AgentFault {
        AgentFault::Memory
    }
}

impl From<AllocError> for AgentFault {
    fn from(_: AllocError) -> AgentFault {
        AgentFault::Memory
    }
}
