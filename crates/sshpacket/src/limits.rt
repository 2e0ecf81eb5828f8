//! Limits of packets and of what a suite answers.

/// The most bytes of a packet with its tag that are read (RFC 4253 section 6.1).
pub const PACKET_LIMIT: usize = 35000;

/// The most bytes of a cipher's block that a suite answers (profile; RFC 4253 section 6 gives only the
/// least alignment, 8). Padding then fits the one byte of its length.
pub const BLOCK_LIMIT: usize = 64;

/// The most bytes of a tag that a suite answers (profile), as many as HMAC-SHA-512 has.
pub const TAG_LIMIT: usize = 64;

/// The most bytes of an initialisation vector, of an encryption key and of an integrity key that a
/// suite asks for, each (profile; RFC 4253 section 7.2 makes keys of any length).
pub const KEY_LIMIT: usize = 64;

/// The most bytes of a key exchange method's hash that a suite answers (profile), as many as SHA-512
/// has.
pub const DIGEST_LIMIT: usize = 64;

/// The most bytes of a public key that a suite answers (profile).
pub const BLOB_LIMIT: usize = 8192;

/// The most bytes of a share and of a shared secret that a suite answers (profile).
pub const SHARE_LIMIT: usize = 4096;

/// The most bytes of a signature that a suite answers (profile), the name of its algorithm and both
/// lengths included, as RFC 4253 section 6.6 wraps it: ML-DSA-87 has 4627 without them.
pub const SIGNATURE_LIMIT: usize = 8192;
