//! What whoever runs an endpoint decides.

ghost use Rattle.std.specs.Prelude.{◌≡◌, IfOk, option_map};
ghost use Rattle.sshcore.specs.EndpointParts.{DecisionsData};
ghost use Rattle.sshcore.specs.EndpointPartsView.{proof_data};

use crate::notice::Notice;
use sshwire::Memory;
use std::alloc::Global;

/// What a request claims of its user (RFC 4252), or the key that a query asks about.
///
/// It has no `Debug`: passwords are never printed.
#[derive(Clone, Copy)]
pub enum Proof<'a> {
    /// Nothing: the method `none` (RFC 4252 section 5.2).
    None,
    /// A password that the user's side knows, any bytes (RFC 4252 section 8).
    Password(&'a [u8]),
    /// A key (RFC 4252 section 7): of a signed request, whose signature has been verified, or of a query, which has none. Which of
    /// the two it is, [`Question::User`](crate::Question::User) tells, and [`Decisions::user`] doesn't. A yes says that this key is
    /// accepted for this user: a signed request is then successful, and a query never.
    Key {
        /// The name of the key's algorithm, as the request has it, with which the suite signs. An endpoint compares
        /// it with no other: that it fits the names inside the key and the signature is for the suite's `verify` to
        /// see. So decide by the whole blob.
        algorithm: &'a str,
        /// The public key, as the request has it.
        blob: &'a [u8],
    },
}

/// The decisions of whoever runs an endpoint, and what it is told. Each answer is a function of its arguments alone.
///
/// So what reads a clock, keeps a count of its own, or looks into a directory that changes while a session lasts is no
/// lawful `Decisions`. Who has one takes the answers once, before the endpoint is made, and hands in a value
/// that holds them; the next connection may get another.
pub trait Decisions {
    ghost policy: { Self → DecisionsData };

    /// Whether the public key of this algorithm is trusted as the server's host key (RFC 4253 section
    /// 8). The algorithm is the one that was chosen; its name isn't compared with the one inside the blob,
    /// and the server's signature is verified afterwards.
    fn host_key(&self, algorithm: &str, blob: &[u8]) -> bool
        ensures { result ≡ (policy self.now).host_key algorithm.now blob.now };

    /// Whether what a request claims is accepted for this user, of requests and queries counted from 1 (RFC 4252 section 5); of a
    /// query whether its key would do (section 7). Of a signed request it is asked after the signature has been verified, and not
    /// at all if it is wrong. A yes to a request accepts the user, unless methods are required that aren't completed yet (section 5.1).
    /// It is asked of the method `none` too, whatever methods the server lists: say no to `Proof::None` where nobody is accepted
    /// without a proof.
    fn user(&self, request_number: u32, user: &str, service: &str, proof: &Proof<'_>) -> bool
        ensures { result ≡ (policy self.now).user request_number user.now service.now (proof_data proof.now) };

    /// A signature of the input by the key of this algorithm and blob, which the suite doesn't hold (RFC 4252 section 7, RFC
    /// 4253 section 8), with the name of its format in front (RFC 4253 section 6.6); none where none is made. A client asks
    /// for that of an attempt, with the number of attempts that are left of its plan after it, by which two equal attempts
    /// are two questions; a server for that of its exchange, with the number 0. One of more than 8192 bytes is as none.
    fn signature(
        &self,
        alloc: Global,
        number: usize,
        algorithm: &str,
        blob: &[u8],
        input: &[u8],
    ) -> Result<Option<Vec<u8>>, Memory>
        ensures { IfOk result (λ o. option_map (λ v. v.items) o ≡ (policy self.now).signature number algorithm.now blob.now input.now) };

    /// Is told what the peer tells people: by a message before that asks or is answered, or by a line before the version line. It
    /// can't change what is answered. Does nothing, unless whoever decides has a body of its own.
    fn notice(&self, notice: Notice<'_>) {
        let _ = notice;
    }
}
