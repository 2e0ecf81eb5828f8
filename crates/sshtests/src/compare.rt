//! What has to be equal, and parts of bytes.

use std::process::Abort;

/// The bytes have to be the wanted ones.
pub(crate) fn same(rt: &impl Abort, found: &[u8], wanted: &[u8]) {
    assert_eq!(rt; found, wanted);
}

/// The count has to be the wanted one.
pub(crate) fn same_count(rt: &impl Abort, found: usize, wanted: usize) {
    assert_eq!(rt; found, wanted);
}

/// The first so many bytes, or none where there are fewer.
pub(crate) fn prefix_of(bytes: &[u8], count: usize) -> &[u8] {
    bytes.get(..count).unwrap_or(&[])
}
