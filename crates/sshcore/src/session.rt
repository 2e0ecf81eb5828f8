//! What an authenticated endpoint hands over.

ghost use Rattle.std.specs.Prelude.{◌≡◌, if◌then◌else◌, None, Some};
ghost use Rattle.sshneg.specs.declared.side.Side.TheVariants.{Client, Server};
ghost use Rattle.sshpacket.specs.KeysData.{KeysData};
ghost use Rattle.sshcore.specs.declared.end.Agreed.{Agreed};

use crate::end::Agreed;
use crate::link::Link;
use crate::state::CompletedMethods;
use sshneg::Side;
use sshpacket::Keys;
use std::alloc::Global;

/// The keys of one direction, and the sequence number of its next packet (RFC 4253 section 6.4): with both the
/// direction goes on.
///
/// It has no `Debug`: keys are never printed.
#[derive(Drop)]
pub struct Direction {
    /// The keys of the next packet: those of the exchange (RFC 4253 section 7.2), advanced with each packet since
    /// the key switch.
    pub keys: Keys,
    /// The sequence number of the next packet.
    pub sequence_number: u32,
}

/// A user's public key (RFC 4252 section 7).
#[derive(Debug, Drop)]
pub struct UserKey {
    /// The name of its algorithm, as the request had it.
    pub algorithm: String,
    /// The public key.
    pub blob: Vec<u8>,
}

/// How a user was accepted, as a server has judged it. It speaks of the unbroken run of requests for the user
/// and the service that ended with SUCCESS; where neither is here, the user was accepted by the method `none`. No
/// password is kept.
#[derive(Debug, Drop)]
pub struct Accepted {
    /// Whether a password succeeded (RFC 4252 section 8).
    pub password: bool,
    /// The key of the last signed request that was successful, if one was (RFC 4252 section 7).
    pub key: Option<UserKey>,
}

/// What goes on after authentication: what both sides agreed on, what a later exchange and the files of
/// known hosts and of authorized keys ask for, and both directions.
///
/// [`into_link`](Session::into_link) makes of it what opens all that the peer sends next, from the first byte
/// after the packet that ended the endpoint, and seals what is sent next. It has no `Debug`: keys are never
/// printed.
#[derive(Drop)]
pub struct Session {
    /// What both sides agreed on.
    pub agreed: Agreed,
    /// The text of the own version line, without CR LF: V_C of a client, V_S of a server (RFC 4253 section
    /// 8). A later exchange hashes it again (section 9).
    pub own_version: Vec<u8>,
    /// The text of the peer's version line.
    pub peer_version: Vec<u8>,
    /// The server's public host key, K_S (RFC 4253 section 8), of the algorithm `agreed.host_key`: at a
    /// client the one that the decisions trusted and whose signature was verified, at a server its own.
    pub host_key: Vec<u8>,
    /// How the user was accepted; None at a client.
    pub accepted: Option<Accepted>,
    /// What the peer sends.
    pub incoming: Direction,
    /// What is sent to the peer.
    pub outgoing: Direction,
}

impl Session {
    ghost use Rattle.std.specs.Prelude.{◌<◌, ◌^◌};
    ghost use Rattle.sshpacket.specs.Suite.{SuiteData};
    ghost use Rattle.sshcore.specs.Linked.{BeginsBy, LinkWaits, incoming_of, outgoing_of, sent_by};

    /// The link of both directions, with a padding seed of the caller's own: 32 random bytes that served nothing
    /// else. What else the session has is given up. Takes no memory.
    pub fn into_link(self, alloc: Global, seed: [u8; 32]) -> Link
        ensures seals { outgoing_of result ≡ sent_by self.outgoing seed }
        ensures in_range { (outgoing_of result).number < 2 ^ 32 }
        ensures opens { BeginsBy self.incoming (incoming_of result) }
        ensures waits { (m : SuiteData) → LinkWaits m (incoming_of result) }
    {
        Link::new(alloc, self.incoming, self.outgoing, seed)
    }
}

/// The session of this, with these keys and numbers, where it is agreed and both directions have keys; of the version lines the
/// own one is the first.
pub(crate) fn session_of(
    agreed: Option<Agreed>,
    versions: (Vec<u8>, Vec<u8>),
    host_key: Vec<u8>,
    accepted: Option<Accepted>,
    incoming: (Option<Keys>, u32),
    outgoing: (Option<Keys>, u32),
) -> Option<Session>
    ensures whole { (end : Agreed) (a b : KeysData) → agreed ≡ Some end → incoming.0 ≡ Some a → outgoing.0 ≡ Some b → result ≡ Some (record {
      agreed = end;
      own_version = versions.0;
      peer_version = versions.1;
      host_key = host_key;
      accepted = accepted;
      incoming = record { keys = a; sequence_number = incoming.1 };
      outgoing = record { keys = b; sequence_number = outgoing.1 };
    }) }
    ensures none { agreed ≡ None → result ≡ None }
{
    match (agreed, incoming.0, outgoing.0) {
        (Some(agreed), Some(incoming_keys), Some(outgoing_keys)) => Some(Session {
            agreed,
            own_version: versions.0,
            peer_version: versions.1,
            host_key,
            accepted,
            incoming: Direction {
                keys: incoming_keys,
                sequence_number: incoming.1,
            },
            outgoing: Direction {
                keys: outgoing_keys,
                sequence_number: outgoing.1,
            },
        }),
        _ => None,
    }
}

/// How the user was accepted, by what is completed and the key of the last signed request that was successful; a client
/// doesn't say.
pub(crate) fn accepted_by(
    role: Side,
    completed: &CompletedMethods,
    key: Option<UserKey>,
) -> Option<Accepted>
    ensures client { role ≡ Client → result ≡ None }
    ensures server { role ≡ Server → result ≡ Some (record { password = completed.now.password; key = if completed.now.publickey then key else None }) }
{
    match role {
        Side::Client => None,
        Side::Server => Some(Accepted {
            password: completed.password,
            key: key_if(completed.publickey, key),
        }),
    }
}

/// The key, where its method is completed.
fn key_if(completed: bool, key: Option<UserKey>) -> Option<UserKey>
    ensures { result ≡ (if completed then key else None) }
{
    if completed { key } else { None }
}
