//! Files that may lack, and files of an agent.

use crate::fault::Fault;
use sshidentity::{FileFault, KeyFault, is_private};
use sshprogram::ProgramFault;
use std::fs;
use std::io::ErrorKind;

/// The bytes of the file that the option names, if it is there.
pub(crate) fn bytes_if_there(
    rt: &HostRuntime,
    option: &'static str,
    path: &str,
) -> Result<Option<Vec<u8>>, ProgramFault> {
    match fs::read(rt, path) {
        Ok(bytes) => Ok(Some(bytes)),
        Err(error) if error.kind() == ErrorKind::NotFound => Ok(None),
        Err(error) if error.kind() == ErrorKind::OutOfMemory => Err(ProgramFault::Memory),
        Err(_) => Err(ProgramFault::File(FileFault::Unreadable(option))),
    }
}

/// Refuses a file of the option that others than its owner may read or write, and by this fault one that isn't there, or is a directory.
pub(crate) fn check_private(
    rt: &HostRuntime,
    option: &'static str,
    path: &str,
    otherwise: Fault,
) -> Result<(), Fault> {
    match fs::metadata(rt, path) {
        Ok(metadata) if metadata.is_dir() => Err(otherwise),
        Ok(metadata) if !is_private(&metadata) => {
            Err(Fault::from(FileFault::Key(option, KeyFault::Readable)))
        }
        Ok(_) => Ok(()),
        Err(_) => Err(otherwise),
    }
}
