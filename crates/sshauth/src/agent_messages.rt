//! Messages between this program and an agent (draft-ietf-sshm-ssh-agent).

ghost use Rattle.std.specs.Prelude.{◌≤◌, ◌↔◌, IsTrue, length};
ghost use Rattle.sshpacket.specs.declared.limits.TheConstants.{BLOB_LIMIT, PACKET_LIMIT};

use crate::agent_fault::AgentFault;
use sshpacket::{BLOB_LIMIT, PACKET_LIMIT};
use sshwire::{ByteBuffer, Reader};
use std::alloc::Global;

/// Numbers of messages: SSH_AGENT_FAILURE, SSH_AGENTC_SIGN_REQUEST and SSH_AGENT_SIGN_RESPONSE.
const FAILURE: u8 = 5;

const SIGN_REQUEST: u8 = 13;

const SIGN_RESPONSE: u8 = 14;

/// Flags of a request, which name the hash by which a key of RSA signs: SSH_AGENT_RSA_SHA2_256 and SSH_AGENT_RSA_SHA2_512.
const RSA_SHA2_256: u32 = 2;

const RSA_SHA2_512: u32 = 4;

/// How many bytes a request has beside its key and its input: the number of the message, two lengths, and the flags.
const BESIDES: usize = 13;

/// The request of a signature of the input by the key of this blob, with its length in front.
pub(crate) fn sign_request(
    alloc: Global,
    algorithm: &str,
    blob: &[u8],
    input: &[u8],
) -> Result<Vec<u8>, AgentFault>
    requires blob { length blob.now ≤ BLOB_LIMIT }
    requires input { length input.now ≤ PACKET_LIMIT }
{
    let mut request = ByteBuffer::new(alloc);
    request.put_u32((BESIDES + blob.len() + input.len()) as u32);
    request.put(&[SIGN_REQUEST]);
    request.put_string(blob);
    request.put_string(input);
    request.put_u32(flags_of(algorithm));
    Ok(request.finish()?)
}

/// Whether a key and an input aren't too long for a request.
pub(crate) fn fits(blob: &[u8], input: &[u8]) -> bool
    ensures { IsTrue result ↔ ((length blob.now ≤ BLOB_LIMIT) × (length input.now ≤ PACKET_LIMIT)) }
{
    blob.len() <= BLOB_LIMIT && input.len() <= PACKET_LIMIT
}

/// The flags by which a key of RSA signs by this algorithm; a key of another kind has none.
fn flags_of(algorithm: &str) -> u32 {
    match algorithm {
        "rsa-sha2-256" | "rsa-sha2-256-cert-v01@openssh.com" => RSA_SHA2_256,
        "rsa-sha2-512" | "rsa-sha2-512-cert-v01@openssh.com" => RSA_SHA2_512,
        _ => 0,
    }
}

/// The signature in a response, which stands here without its length.
pub(crate) fn signature_in(response: &[u8]) -> Result<&[u8], AgentFault> {
    match response.split_first() {
        Some((&SIGN_RESPONSE, body)) => only_string(body),
        Some((&FAILURE, _)) => Err(AgentFault::Refused),
        _ => Err(AgentFault::Other),
    }
}

/// The string that the bytes are, with none after it.
fn only_string(bytes: &[u8]) -> Result<&[u8], AgentFault> {
    let mut reader = Reader::new(bytes);
    match reader.string() {
        Ok(signature) if reader.rest().is_empty() => Ok(signature),
        _ => Err(AgentFault::Form),
    }
}
