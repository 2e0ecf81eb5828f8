//! What is asked of whoever runs an endpoint before a packet can be answered.

use crate::decisions::Proof;

/// What a packet asks before it can be answered.
///
/// It has no `Debug`: passwords are never printed.
#[derive(Clone, Copy)]
pub enum Question<'q> {
    /// Whether this public key is trusted as the server's host key (RFC 4253 section 8). A client asks it, once, before the
    /// server's signature is verified.
    HostKey {
        /// The name of the algorithm that was chosen. It isn't compared with the one inside the blob.
        algorithm: &'q str,
        /// The public key, as the server sent it.
        blob: &'q [u8],
    },
    /// Whether what a request of authentication claims is accepted for this user (RFC 4252 section 5), or whether the key of a
    /// query would do (section 7). A server asks it after it has verified the signature of a signed request: of one whose
    /// signature is wrong nothing is asked. So a yes to a request accepts the user, unless methods are required that aren't
    /// completed yet (section 5.1). It is asked of the method `none` too, whatever methods the server lists: answer no to
    /// `Proof::None` where nobody is accepted without a proof.
    User {
        /// The number of the request, of requests and queries counted from 1.
        number: u32,
        /// The name of the user, as the request has it.
        user: &'q str,
        /// The name of the service, which is one that the server has.
        service: &'q str,
        /// What the request claims, or the key of a query.
        proof: Proof<'q>,
        /// Whether the request has a signature by the key, which has been verified. False of `none`, of a password, and of a query:
        /// a yes to a query authenticates nobody.
        signed: bool,
    },
    /// A signature by a key that the suite doesn't hold: of a client's request (RFC 4252 section 7), or of the exchange hash at a
    /// server (RFC 4253 section 8). Answered by [`answer_signature`](crate::AskingEndpoint::answer_signature).
    Signature {
        /// How many attempts of a client's plan are left after this one; at a server 0.
        number: usize,
        /// The name of the algorithm.
        algorithm: &'q str,
        /// The public key.
        blob: &'q [u8],
        /// What is to be signed.
        input: &'q [u8],
    },
}
