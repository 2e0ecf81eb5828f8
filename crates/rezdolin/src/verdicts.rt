//! Whether a signature that was made elsewhere is one.

ghost use Rattle.sshsuite.specs.Deployed.{deployed};
ghost use Rattle.rezdolin.specs.Verdicts.{IsVerdict};

use crate::inputs::{ANSWER_NO, ANSWER_YES};
use sshpacket::Suite;
use sshsuite::DeployedSuite;
use sshwire::as_name;
use std::alloc::Global;

/// The longest key, input and signature that are looked at: 2^32 - 1 bytes, since each is a string (RFC 4251 section 5).
const STRING_LIMIT: usize = 0xffff_ffff;

/// Whether a signature is that of the input by this public key and this algorithm: [`ANSWER_YES`] or [`ANSWER_NO`]; 0 where it wasn't
/// looked at, since the suite verifies no such algorithm, something is too long, or memory ran out.
pub(crate) fn verdict(
    alloc: Global,
    algorithm: &[u8],
    key: &[u8],
    input: &[u8],
    signature: &[u8],
) -> u32
    ensures { IsVerdict deployed algorithm.now key.now input.now signature.now result }
{
    let Some(name) = as_name(algorithm) else {
        return 0;
    };
    if !DeployedSuite.can(name).signature
        || key.len() > STRING_LIMIT
        || input.len() > STRING_LIMIT
        || signature.len() > STRING_LIMIT
    {
        return 0;
    }
    match DeployedSuite.verify(alloc, name, key, input, signature) {
        Ok(true) => ANSWER_YES,
        Ok(false) => ANSWER_NO,
        Err(_) => 0,
    }
}
