//! Files that a program's options name, read whole.

ghost use Rattle.std.specs.Prelude.{◌≡◌, IfOk, length};

use crate::file_fault::{FileFault, KeyFault};
use crate::identity_in;
use std::fs;
use std::fs::Metadata;
use std::io::ErrorKind;
use std::os::unix::fs::PermissionsExt;
use std::rt::Files;

/// The bits of a file's mode by which others than its owner may read, write or run it.
const OTHERS: u32 = 0o077;

/// The bytes of the file that the option names.
pub fn bytes_of<R: Files + AllocGlobal>(
    rt: &R,
    option: &'static str,
    path: &str,
) -> Result<Vec<u8>, FileFault> {
    match fs::read(rt, path) {
        Ok(bytes) => Ok(bytes),
        Err(error) if error.kind() == ErrorKind::OutOfMemory => Err(FileFault::Memory),
        Err(_) => Err(FileFault::Unreadable(option)),
    }
}

/// The bytes of a file that is text, as text.
pub fn text_in<'a>(option: &'static str, bytes: &'a [u8]) -> Result<&'a str, FileFault> {
    match str::from_utf8(bytes) {
        Ok(text) => Ok(text),
        Err(_) => Err(FileFault::Form(option)),
    }
}

/// The first line of the file that the option names, without its end: an empty one is refused, since it would be a password
/// that anyone has.
pub fn first_line<R: Files + AllocGlobal>(
    rt: &R,
    option: &'static str,
    path: &str,
) -> Result<Vec<u8>, FileFault> {
    let bytes = bytes_of(rt, option, path)?;
    let line = bytes.split(|byte| *byte == b'\n').next().unwrap_or(&[]);
    let line = line.strip_suffix(b"\r").unwrap_or(line);
    if line.is_empty() {
        return Err(FileFault::Form(option));
    }
    Ok(Vec::from_slice(rt.alloc(), line)?)
}

/// The private key of ssh-ed25519 in the text of the file that the option names, the 32 bytes of RFC 8032 section 5.1.5, or why
/// there is none that can be used. A file that others than its owner may use has none.
pub fn private_key<R: Files + AllocGlobal>(
    rt: &R,
    option: &'static str,
    path: &str,
    text: &str,
) -> Result<Result<Vec<u8>, KeyFault>, FileFault>
    ensures length { IfOk result (λ found. IfOk found (λ key. length key.items ≡ 32)) }
{
    let key = match identity_in(rt.alloc(), text)? {
        Ok(key) => key,
        Err(fault) => return Ok(Err(KeyFault::Identity(fault))),
    };
    match fs::metadata(rt, path) {
        Ok(metadata) if is_private(&metadata) => Ok(Ok(key)),
        Ok(_) => Ok(Err(KeyFault::Readable)),
        Err(_) => Err(FileFault::Unreadable(option)),
    }
}

/// Whether the owner alone may read, write or run the file.
pub fn is_private(metadata: &Metadata) -> bool {
    metadata.permissions().mode() & OTHERS == 0
}
