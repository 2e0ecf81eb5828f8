//! Base64 digits, as public keys in files are spelled.

ghost use Rattle.std.specs.Prelude.{◌≡◌, IfOk, option_map};
ghost use Rattle.sshauth.specs.Spelled.{spelled};

use base64::DecodeAllocError;
use base64::engine::general_purpose::STANDARD;
use sshprogram::ProgramFault;
use std::alloc::Global;

/// The bytes that the digits spell (RFC 4648 section 4), if they spell some.
pub(crate) fn base64_of(alloc: Global, digits: &[u8]) -> Result<Option<Vec<u8>>, ProgramFault>
    ensures { IfOk result (λ found. option_map (λ bytes. bytes.items) found ≡ spelled digits.now) }
{
    match STANDARD.decode(alloc, digits) {
        Ok(bytes) => Ok(Some(bytes)),
        Err(DecodeAllocError::OutOfMemory) => Err(ProgramFault::Memory),
        Err(_) => Ok(None),
    }
}
