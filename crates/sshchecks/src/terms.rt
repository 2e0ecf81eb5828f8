//! Terms of an act, which stand for bytes.

use crate::fault::PlayFault;
use sshterms::{Names, TermFault};
use std::alloc::Global;

/// How many bytes terms may spell at most.
pub(crate) const BYTES_LIMIT: usize = 300_000;

/// The bytes of terms with blanks between, of an act with this line.
pub(crate) fn bytes_of<'a>(
    alloc: Global,
    names: &Names,
    line: &'a str,
    terms: &str,
) -> Result<Vec<u8>, PlayFault<'a>> {
    sshterms::bytes_of(alloc, names, terms, BYTES_LIMIT).map_err(|fault| match fault {
        TermFault::Memory => PlayFault::Memory,
        _ => PlayFault::Form(line),
    })
}
