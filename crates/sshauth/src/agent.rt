//! An agent, which holds private keys and signs by them, over two files.

ghost use Rattle.std.specs.Prelude.{◌≡◌, ◌<◌, ◌^◌, IfOk, OnOk, length, true};
ghost use Rattle.sshsuite.specs.Deployed.{deployed};
ghost use Rattle.sshwire.specs.Types.{IsName};

use crate::agent_fault::AgentFault;
use crate::agent_messages::{fits, sign_request, signature_in};
use crate::fault::Fault;
use crate::files::check_private;
use sshidentity::FileFault;
use sshpacket::{SIGNATURE_LIMIT, Suite};
use sshprogram::ProgramFault;
use sshsuite::DeployedSuite;
use sshwire::as_name;
use std::alloc::Global;
use std::fs::{File, OpenOptions};
use std::io::{ErrorKind, Read, Write};

/// The options that name the two files.
pub(crate) const REQUESTS: &str = "agent-requests";

pub(crate) const RESPONSES: &str = "agent-responses";

/// The longest response that is read: 16 KiB.
const RESPONSE_LIMIT: usize = 16384;

/// The two files of an agent: requests are written to one, and responses are read from the other.
#[derive(Clone, Copy)]
pub(crate) struct Agent<'a> {
    pub(crate) requests: &'a str,
    pub(crate) responses: &'a str,
}

impl Agent<'_> {
    /// Refuses files that aren't there, or that others may use: who writes a request has the agent sign.
    pub(crate) fn check(&self, rt: &HostRuntime) -> Result<(), Fault> {
        check_private(rt, REQUESTS, self.requests, Fault::Unwritable(REQUESTS))?;
        check_private(
            rt,
            RESPONSES,
            self.responses,
            Fault::Program(ProgramFault::File(FileFault::Unreadable(RESPONSES))),
        )
    }

    /// The agent's signature of the input by the key of this blob. It is verified, where the suite verifies by this algorithm.
    pub(crate) fn sign(
        &self,
        rt: &HostRuntime,
        algorithm: &str,
        blob: &[u8],
        input: &[u8],
    ) -> Result<Vec<u8>, AgentFault>
        ensures verified { IfOk result (λ signature. (deployed.can algorithm.now).signature ≡ true
            → deployed.verify algorithm.now blob.now input.now signature.items ≡ true) }
    {
        let name = match as_name(algorithm.as_bytes()) {
            Some(name) if fits(blob, input) => name,
            _ => return Err(AgentFault::Request),
        };
        let request = sign_request(rt.alloc(), name, blob, input)?;
        self.send(rt, &request)?;
        let response = self.receive(rt)?;
        let signature = signature_in(&response)?;
        check_signature(rt.alloc(), name, blob, input, signature)?;
        Ok(Vec::from_slice(rt.alloc(), signature)?)
    }

    /// Writes a request.
    fn send(&self, rt: &HostRuntime, request: &[u8]) -> Result<(), AgentFault> {
        let Ok(mut file) = OpenOptions::new().write(true).open(rt, self.requests) else {
            return Err(AgentFault::Unwritable);
        };
        file.write_all(request).map_err(|_| AgentFault::Unwritable)
    }

    /// Reads a response, whose length stands in front.
    fn receive(&self, rt: &HostRuntime) -> Result<Vec<u8>, AgentFault> {
        let Ok(mut file) = OpenOptions::new().read(true).open(rt, self.responses) else {
            return Err(AgentFault::Unreadable);
        };
        let mut head = [0u8; 4];
        fill(&mut file, &mut head)?;
        let length = u32::from_be_bytes(head) as usize;
        if length > RESPONSE_LIMIT {
            return Err(AgentFault::Long);
        }
        let mut room = [0u8; RESPONSE_LIMIT];
        fill(&mut file, &mut room[..length])?;
        Ok(Vec::from_slice(rt.alloc(), &room[..length])?)
    }
}

/// Fills the room with the next bytes of the file.
fn fill(file: &mut File, room: &mut [u8]) -> Result<(), AgentFault> {
    match file.read_exact(room) {
        Ok(()) => Ok(()),
        Err(error) if error.kind() == ErrorKind::UnexpectedEof => Err(AgentFault::Cut),
        Err(_) => Err(AgentFault::Unreadable),
    }
}

/// Refuses a signature that is too long, or, where the suite verifies by this algorithm, is wrong.
fn check_signature(
    alloc: Global,
    algorithm: &str,
    blob: &[u8],
    input: &[u8],
    signature: &[u8],
) -> Result<(), AgentFault>
    requires named { IsName algorithm.now }
    requires blob { length blob.now < 2 ^ 32 }
    requires input { length input.now < 2 ^ 32 }
    ensures verified { OnOk result ((deployed.can algorithm.now).signature ≡ true
        → deployed.verify algorithm.now blob.now input.now signature.now ≡ true) }
{
    if signature.len() > SIGNATURE_LIMIT {
        return Err(AgentFault::LongSignature);
    }
    let verifies = DeployedSuite.can(algorithm).signature;
    if verifies && !DeployedSuite.verify(alloc, algorithm, blob, input, signature)? {
        return Err(AgentFault::Unverified);
    }
    Ok(())
}
