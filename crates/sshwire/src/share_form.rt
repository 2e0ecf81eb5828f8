//! How the values of a key exchange stand in messages.

/// How the shares of a key exchange method, the client's e and the server's f alike, stand in its
/// messages and in what is hashed.
#[derive(Clone, Copy, Debug, PartialEq, Eq)]
pub enum ShareForm {
    /// Shares and the shared secret are positive numbers, each an mpint (RFC 4253 section 8), as in
    /// diffie-hellman-group14-sha256.
    Mpint,
    /// Shares are bytes, each a string, while the shared secret is a number, an mpint (RFC 5656
    /// section 4, RFC 8731 section 3), as in curve25519-sha256.
    OctetString,
    /// Shares are bytes, and what both sides share is bytes too, as in mlkem768x25519-sha256 and
    /// sntrup761x25519-sha512, which join a curve with a method of another kind.
    Hybrid,
}
