//! Which host key algorithms a client lists.

use crate::key_lines::RSA_FRONT;
use crate::parts::ALGORITHM;

/// The algorithms of RSA host keys.
const RSA_ALGORITHMS: &str = "rsa-sha2-512,rsa-sha2-256";

/// The algorithms of all host keys that can be verified.
pub(crate) const ALL_ALGORITHMS: &str = "ssh-ed25519,rsa-sha2-512,rsa-sha2-256";

/// Whether a public key is one of RSA.
pub(crate) fn is_rsa_key(blob: &[u8]) -> bool {
    blob.starts_with(RSA_FRONT)
}

/// The host key algorithms of the keys that a client trusts, since it takes no other host key.
pub(crate) fn algorithms_of(keys: &[Vec<u8>]) -> &'static str {
    let some_rsa = keys.iter().any(|key| is_rsa_key(key));
    let all_rsa = keys.iter().all(|key| is_rsa_key(key));
    match (some_rsa, all_rsa) {
        (false, _) => ALGORITHM,
        (true, true) => RSA_ALGORITHMS,
        (true, false) => ALL_ALGORITHMS,
    }
}
