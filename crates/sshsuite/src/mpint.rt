//! Numbers as mpints.

ghost use Rattle.std.specs.Prelude.{◌≡◌, ◌<◌, ◌≤◌, IfOk, drop, length};
ghost use Rattle.sshsuite.specs.MpintBody.{mpint_body};

use sshwire::Memory;
use std::alloc::Global;

/// The shortest body of an mpint whose number these bytes are, the highest first (RFC 8731 section 3.1).
pub(crate) fn mpint_body(alloc: Global, bytes: &[u8]) -> Result<Vec<u8>, Memory>
    ensures { IfOk result (λ v. v.items ≡ mpint_body bytes.now) }
{
    let mut body = Vec::new(alloc);
    for (i, b) in bytes.iter().enumerate() {
        if *b != 0 {
            if *b >= 128 {
                body.push(0)?;
            }
            body.extend_from_slice(&bytes[i..])?;
            return Ok(body);
        }
    }
    Ok(body)
}
