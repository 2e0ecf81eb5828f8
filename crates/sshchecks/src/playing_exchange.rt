//! The key exchange, from both sides.

use crate::agreement::Lists;
use crate::fault::PlayFault;
use crate::known::{Sides, without_end};
use crate::own::Own;
use crate::own_keys::{
    Known, Secrets, derived, has_signed, name_requests, shared_of, wrapped_signature,
};
use crate::peer::{Came, Peer};
use crate::progress::Progress;
use crate::sending::Sending;
use crate::settings::Given;
use crate::terms::bytes_of;
use sshmsg::SSH_MSG_KEX_ECDH_REPLY;
use sshneg::Side;
use sshpacket::Keys;
use sshterms::Names;
use sshwire::{ByteBuffer, Reader};
use std::alloc::Global;

/// The parts of an exchange in which both sides may differ.
#[derive(Clone, Copy)]
struct Shares<'b> {
    host_key: &'b [u8],
    client: &'b [u8],
    server: &'b [u8],
    shared: &'b [u8],
}

/// The fields of a server's reply.
#[derive(Clone, Copy)]
struct Reply<'b> {
    host_key: &'b [u8],
    share: &'b [u8],
    signature: &'b [u8],
}

/// The keys of both directions.
#[derive(Drop)]
pub(crate) struct BothKeys {
    /// Of what the player sends.
    out: Keys,
    /// Of what the peer sends.
    back: Keys,
}

/// Makes keys those from NEWKEYS on; the check is over where an exchange came to none.
pub(crate) fn take_keys<'a>(
    sending: &mut Sending,
    peer: &mut Peer,
    made: Result<Option<BothKeys>, PlayFault<'a>>,
) -> Result<Progress, PlayFault<'a>> {
    match made {
        Ok(Some(keys)) => {
            sending.set_next(keys.out);
            peer.incoming.set_next(keys.back);
            Ok(Progress::Done)
        }
        Ok(None) => Ok(Progress::Over("garbled")),
        Err(fault) => Err(fault),
    }
}

/// Reads the server's reply: the host key's signature is verified, where it is one of ed25519.
pub(crate) fn read_reply<'a>(
    given: &Given<'a>,
    own: &mut Own,
    sides: &Sides,
    sending: &mut Sending,
    peer: &mut Peer,
) -> Result<Progress, PlayFault<'a>> {
    match peer.payload_with(given.alloc, SSH_MSG_KEX_ECDH_REPLY)? {
        Came::Nothing(progress) => Ok(progress),
        Came::Payload(payload) => {
            let keys = reply_keys(given, own, sides, &reply_in(&payload));
            drop(payload);
            take_keys(sending, peer, keys)
        }
    }
}

/// The fields of a reply; those that aren't there are empty.
fn reply_in(payload: &[u8]) -> Reply<'_> {
    let mut reader = Reader::new(payload.get(1..).unwrap_or(&[]));
    Reply {
        host_key: reader.string().unwrap_or(&[]),
        share: reader.string().unwrap_or(&[]),
        signature: reader.string().unwrap_or(&[]),
    }
}

/// The keys of a reply; none where it is refused.
fn reply_keys<'a>(
    given: &Given<'a>,
    own: &mut Own,
    sides: &Sides,
    reply: &Reply<'_>,
) -> Result<Option<BothKeys>, PlayFault<'a>> {
    match shared_of(given.alloc, given.setting.exchange_random(), reply.share)? {
        Some(shared) => verified_keys(given, own, sides, reply, &shared),
        None => Ok(None),
    }
}

/// The keys of a reply with this shared secret; none where the signature isn't the host key's.
fn verified_keys<'a>(
    given: &Given<'a>,
    own: &mut Own,
    sides: &Sides,
    reply: &Reply<'_>,
    shared: &[u8],
) -> Result<Option<BothKeys>, PlayFault<'a>> {
    let shares = Shares {
        host_key: reply.host_key,
        client: sent_share(&own.names),
        server: reply.share,
        shared,
    };
    match hash_of(given, own, sides, &shares)? {
        Some(hash) => {
            let is_signed = has_signed(given.alloc, reply.host_key, &hash, reply.signature);
            signed_keys(given, own, sides, is_signed, shared, &hash)
        }
        None => Ok(None),
    }
}

/// The share that counts as sent.
fn sent_share(names: &Names) -> &[u8] {
    match names.find("sent") {
        Some(share) => share,
        None => names.bytes("share"),
    }
}

/// The keys of a hash that is signed; none of another.
fn signed_keys<'a>(
    given: &Given<'a>,
    own: &mut Own,
    sides: &Sides,
    is_signed: Result<bool, PlayFault<'a>>,
    shared: &[u8],
    hash: &[u8],
) -> Result<Option<BothKeys>, PlayFault<'a>> {
    if is_signed? {
        keys_by(given, own, sides, shared, hash)
    } else {
        Ok(None)
    }
}

/// Sends the server's reply.
pub(crate) fn send_reply<'a>(
    given: &Given<'a>,
    own: &mut Own,
    sides: &Sides,
    sending: &mut Sending,
    peer: &mut Peer,
    line: &'a str,
    out: &mut Vec<u8>,
) -> Result<Progress, PlayFault<'a>> {
    let keys = own_keys(given, own, sides);
    let progress = take_keys(sending, peer, keys)?;
    let payload = own_reply(given, &own.names)?;
    sending.put(given.alloc, line, &payload, out)?;
    Ok(progress)
}

/// The payload of the server's reply, with a signature of the exchange hash.
fn own_reply<'a>(given: &Given<'a>, names: &Names) -> Result<Vec<u8>, PlayFault<'a>> {
    let signature = wrapped_signature(given.alloc, given.setting.own_key, names.bytes("hash"))?;
    let mut payload = ByteBuffer::new(given.alloc);
    payload.put(&[SSH_MSG_KEX_ECDH_REPLY]);
    payload.put_string(names.bytes("blob"));
    payload.put_string(names.bytes("share"));
    payload.put_string(&signature);
    Ok(payload.finish()?)
}

/// The keys of an exchange by the own host key and share.
fn own_keys<'a>(
    given: &Given<'a>,
    own: &mut Own,
    sides: &Sides,
) -> Result<Option<BothKeys>, PlayFault<'a>> {
    let host_key = Vec::from_slice(given.alloc, own.names.bytes("blob"))?;
    let share = Vec::from_slice(given.alloc, own.names.bytes("share"))?;
    exchange_as_server(given, own, sides, false, &host_key, &share)
}

/// The same by those that terms spell.
pub(crate) fn bent_exchange<'a>(
    given: &Given<'a>,
    own: &mut Own,
    sides: &Sides,
    line: &'a str,
    zero: bool,
    blob: &str,
    share: &str,
) -> Result<Option<BothKeys>, PlayFault<'a>> {
    let host_key = bytes_of(given.alloc, &own.names, line, blob)?;
    let share = bytes_of(given.alloc, &own.names, line, share)?;
    exchange_as_server(given, own, sides, zero, &host_key, &share)
}

/// Hash and keys as if the own host key and share were these; the shared secret is 0 or what both shares come to.
fn exchange_as_server<'a>(
    given: &Given<'a>,
    own: &mut Own,
    sides: &Sides,
    zero: bool,
    host_key: &[u8],
    share: &[u8],
) -> Result<Option<BothKeys>, PlayFault<'a>> {
    let shared = server_shared(given, &own.names, zero)?;
    let shares = Shares {
        host_key,
        client: own.names.bytes("peer"),
        server: share,
        shared: &shared,
    };
    let hash = hash_of(given, own, sides, &shares);
    hash_keys(given, own, sides, &shared, hash)
}

/// The shared secret of a server: 0, or what both shares come to.
fn server_shared<'a>(
    given: &Given<'a>,
    names: &Names,
    zero: bool,
) -> Result<Vec<u8>, PlayFault<'a>> {
    let random = given.setting.exchange_random();
    match shared_of(given.alloc, random, names.bytes("peer"))? {
        Some(shared) if !zero => Ok(shared),
        _ => Ok(Vec::new(given.alloc)),
    }
}

/// The keys by the hash of an exchange, where there is one.
fn hash_keys<'a>(
    given: &Given<'a>,
    own: &mut Own,
    sides: &Sides,
    shared: &[u8],
    hash: Result<Option<Vec<u8>>, PlayFault<'a>>,
) -> Result<Option<BothKeys>, PlayFault<'a>> {
    match hash? {
        Some(hash) => keys_by(given, own, sides, shared, &hash),
        None => Ok(None),
    }
}

/// The hash of an exchange; none where a part of it is too long.
fn hash_of<'a>(
    given: &Given<'a>,
    own: &Own,
    sides: &Sides,
    shares: &Shares<'_>,
) -> Result<Option<Vec<u8>>, PlayFault<'a>> {
    let known = Known {
        side: given.side,
        own_version: without_end(&own.line),
        peer_version: without_end(&sides.peer_line),
        own_kexinit: sides.own_kexinit_or(own.names.bytes("kexinit")),
        peer_kexinit: &sides.peer_kexinit,
        host_key: shares.host_key,
        client_share: shares.client,
        server_share: shares.server,
        shared: shares.shared,
    };
    known.hash(given.alloc)
}

/// Names the hash of an exchange and what is made of it, and makes the keys.
fn keys_by<'a>(
    given: &Given<'a>,
    own: &mut Own,
    sides: &Sides,
    shared: &[u8],
    hash: &[u8],
) -> Result<Option<BothKeys>, PlayFault<'a>> {
    name_hash(given, &mut own.names, hash)?;
    derive(given, &own.names, sides, shared, hash)
}

/// Names the hash of an exchange, the session identifier, which is the first hash, and the valid requests.
fn name_hash<'a>(given: &Given<'a>, names: &mut Names, hash: &[u8]) -> Result<(), PlayFault<'a>> {
    if names.find("session").is_none() {
        names.set_copy(given.alloc, "session", hash)?;
    }
    names.set_copy(given.alloc, "hash", hash)?;
    name_requests(given.alloc, names, &given.setting)
}

/// Keys of both directions; none where no cipher is agreed on.
fn derive<'a>(
    given: &Given<'a>,
    names: &Names,
    sides: &Sides,
    shared: &[u8],
    hash: &[u8],
) -> Result<Option<BothKeys>, PlayFault<'a>> {
    let secrets = Secrets {
        shared,
        hash,
        session: names.bytes("session"),
    };
    let (alloc, side, peer) = (given.alloc, given.side, &sides.peer_lists);
    let own = Lists::read(alloc, sides.own_kexinit_or(names.bytes("kexinit")))?;
    match side {
        Side::Client => both_keys(alloc, &own, peer, side, &secrets),
        Side::Server => both_keys(alloc, peer, &own, side, &secrets),
    }
}

/// The keys of what a side sends, and of what it receives.
fn both_keys<'a>(
    alloc: Global,
    client: &Lists,
    server: &Lists,
    side: Side,
    secrets: &Secrets<'_>,
) -> Result<Option<BothKeys>, PlayFault<'a>> {
    match derived(alloc, client, server, side, secrets)? {
        Some(out) => with_back(out, derived(alloc, client, server, side.other(), secrets)),
        None => Ok(None),
    }
}

/// Both keys, where there are those of what a side receives.
fn with_back<'a>(
    out: Keys,
    back: Result<Option<Keys>, PlayFault<'a>>,
) -> Result<Option<BothKeys>, PlayFault<'a>> {
    match back {
        Ok(Some(back)) => Ok(Some(BothKeys { out, back })),
        Ok(None) => Ok(None),
        Err(fault) => Err(fault),
    }
}
