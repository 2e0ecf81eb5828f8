//! The peer's bytes, over standard input and output.

use sshprogram::ProgramFault;
use std::io::{ErrorKind, Read, Write};

/// How many bytes are read at once.
pub(crate) const CHUNK: usize = 16384;

/// Writes the bytes, and answers whether the peer is there. One that has gone is no fault.
pub(crate) fn send(rt: &HostRuntime, bytes: &[u8]) -> Result<bool, ProgramFault> {
    let mut output = rt.stdout();
    if let Err(error) = output.write_all(bytes) {
        return gone_by(error.kind());
    }
    match output.flush() {
        Ok(()) => Ok(true),
        Err(error) => gone_by(error.kind()),
    }
}

/// That the peer has gone, where a write fails so.
fn gone_by(kind: ErrorKind) -> Result<bool, ProgramFault> {
    if is_gone(kind) {
        Ok(false)
    } else {
        Err(ProgramFault::Write)
    }
}

/// Reads bytes, and answers how many: none where the input has ended, also by a reset.
pub(crate) fn receive(rt: &HostRuntime, chunk: &mut [u8; CHUNK]) -> Result<usize, ProgramFault> {
    match rt.stdin().read(chunk.as_mut_slice()) {
        Ok(count) => Ok(count),
        Err(error) if is_gone(error.kind()) => Ok(0),
        Err(_) => Err(ProgramFault::Read),
    }
}

/// Whether a read or a write fails so where the other end is closed.
fn is_gone(kind: ErrorKind) -> bool {
    matches!(
        kind,
        ErrorKind::BrokenPipe
            | ErrorKind::ConnectionReset
            | ErrorKind::ConnectionAborted
            | ErrorKind::NotConnected
    )
}
