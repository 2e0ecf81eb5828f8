//! Own keys and shares, signatures, and what an exchange comes to.

ghost use Rattle.std.specs.Prelude.{◌<◌, ◌^◌, IsTrue};
ghost use Rattle.sshneg.specs.Derivations.{exchange_size};
ghost use Rattle.sshneg.specs.ExchangeView.{exchange_data};

use crate::agreement::{Lists, protection_of};
use crate::fault::PlayFault;
use crate::settings::Setting;
use crate::terms::BYTES_LIMIT;
use sshmsg::SSH_MSG_USERAUTH_REQUEST;
use sshneg::{Exchange, KeyMaterial, Side, exchange_input, keys_of};
use sshpacket::{Keys, Suite};
use sshsuite::DeployedSuite;
use sshterms::Names;
use sshwire::{ByteBuffer, Memory};
use std::alloc::Global;

/// The one method of the exchange, and the one algorithm of own keys.
pub(crate) const KEX: &str = "curve25519-sha256";

pub(crate) const KEY: &str = "ssh-ed25519";

/// How many bytes a private key has.
const KEY_LEN: usize = 32;

/// How many bytes a signature of ed25519 has.
const SIGNATURE_LEN: usize = 64;

/// The order of the group, lowest byte first (RFC 8032 section 5.1).
const ORDER: [u8; 32] = [
    0xed, 0xd3, 0xf5, 0x5c, 0x1a, 0x63, 0x12, 0x58, 0xd6, 0x9c, 0xf7, 0xa2, 0xde, 0xf9, 0xde, 0x14,
    0, 0, 0, 0, 0, 0, 0, 0, 0, 0, 0, 0, 0, 0, 0, 0x10,
];

/// The public key of a private one.
pub(crate) fn blob_of<'a>(alloc: Global, key: &[u8]) -> Result<Vec<u8>, PlayFault<'a>> {
    if key.len() != KEY_LEN {
        return Ok(Vec::new(alloc));
    }
    Ok(DeployedSuite.blob(alloc, KEY, key)?)
}

/// A share of random bytes.
pub(crate) fn share_of<'a>(alloc: Global, random: &[u8]) -> Result<Vec<u8>, PlayFault<'a>> {
    if random.len() != KEY_LEN {
        return Ok(Vec::new(alloc));
    }
    Ok(DeployedSuite.public(alloc, KEX, random)?)
}

/// What the own random bytes and a peer's share come to; none where it is refused.
pub(crate) fn shared_of<'a>(
    alloc: Global,
    random: &[u8],
    peer: &[u8],
) -> Result<Option<Vec<u8>>, PlayFault<'a>> {
    if random.len() != KEY_LEN || peer.len() > BYTES_LIMIT {
        return Ok(None);
    }
    Ok(DeployedSuite.shared(alloc, KEX, random, peer)?)
}

/// The signature of bytes by a private key, as a message has it: with its name and lengths.
pub(crate) fn wrapped_signature<'a>(
    alloc: Global,
    key: &[u8],
    input: &[u8],
) -> Result<Vec<u8>, PlayFault<'a>> {
    if key.len() != KEY_LEN || input.len() > BYTES_LIMIT {
        return Ok(Vec::new(alloc));
    }
    Ok(DeployedSuite.sign(alloc, KEY, key, input)?)
}

/// The bytes of the signature alone.
pub(crate) fn signature_of<'a>(
    alloc: Global,
    key: &[u8],
    input: &[u8],
) -> Result<Vec<u8>, PlayFault<'a>> {
    let wrapped = wrapped_signature(alloc, key, input)?;
    let start = wrapped.len().saturating_sub(SIGNATURE_LEN);
    Ok(Vec::from_slice(alloc, wrapped.get(start..).unwrap_or(&[]))?)
}

/// Whether a host key of ed25519 has signed these bytes; one of another algorithm isn't asked.
pub(crate) fn has_signed<'a>(
    alloc: Global,
    blob: &[u8],
    input: &[u8],
    signature: &[u8],
) -> Result<bool, PlayFault<'a>> {
    if blob.get(4..15) != Some(KEY.as_bytes()) {
        return Ok(true);
    }
    if blob.len() > BYTES_LIMIT || input.len() > BYTES_LIMIT || signature.len() > BYTES_LIMIT {
        return Ok(false);
    }
    Ok(DeployedSuite.verify(alloc, KEY, blob, input, signature)?)
}

/// S + L in place of S, of a signature (RFC 8032 section 5.1.7 refuses it).
pub(crate) fn wrap(signature: &mut [u8]) {
    let mut carry = 0u16;
    for (byte, own) in signature.iter_mut().skip(32).zip(ORDER.iter()) {
        let sum = u16::from(*byte) + u16::from(*own) + carry.min(1);
        *byte = (sum & 0xff) as u8;
        carry = sum >> 8;
    }
}

/// What both sides know of an exchange.
#[derive(Clone, Copy)]
pub(crate) struct Known<'a> {
    pub(crate) side: Side,
    pub(crate) own_version: &'a [u8],
    pub(crate) peer_version: &'a [u8],
    pub(crate) own_kexinit: &'a [u8],
    pub(crate) peer_kexinit: &'a [u8],
    pub(crate) host_key: &'a [u8],
    pub(crate) client_share: &'a [u8],
    pub(crate) server_share: &'a [u8],
    pub(crate) shared: &'a [u8],
}

impl<'a> Known<'a> {
    /// The exchange hash (RFC 4253 section 8); none where a part is too long.
    pub(crate) fn hash<'b>(&self, alloc: Global) -> Result<Option<Vec<u8>>, PlayFault<'b>> {
        let own = (self.own_version, self.own_kexinit);
        let peer = (self.peer_version, self.peer_kexinit);
        let (client, server) = match self.side {
            Side::Client => (own, peer),
            Side::Server => (peer, own),
        };
        let exchange = Exchange {
            client_version: client.0,
            server_version: server.0,
            client_kexinit: client.1,
            server_kexinit: server.1,
            host_key: self.host_key,
            client_share: self.client_share,
            server_share: self.server_share,
            shared: self.shared,
        };
        if !is_short(&exchange) {
            return Ok(None);
        }
        let input = exchange_input(alloc, &exchange)?;
        if input.len() > 8 * BYTES_LIMIT + 100 {
            return Ok(None);
        }
        Ok(Some(DeployedSuite.digest(alloc, KEX, &input)?))
    }
}

/// Whether each part of an exchange has a length that can be hashed.
fn is_short(exchange: &Exchange<'_>) -> bool
    ensures { IsTrue result → exchange_size (exchange_data exchange.now) < 2 ^ 31 }
{
    exchange.client_version.len() <= BYTES_LIMIT
        && exchange.server_version.len() <= BYTES_LIMIT
        && exchange.client_kexinit.len() <= BYTES_LIMIT
        && exchange.server_kexinit.len() <= BYTES_LIMIT
        && exchange.host_key.len() <= BYTES_LIMIT
        && exchange.client_share.len() <= BYTES_LIMIT
        && exchange.server_share.len() <= BYTES_LIMIT
        && exchange.shared.len() <= BYTES_LIMIT
}

/// What keys are made of.
#[derive(Clone, Copy)]
pub(crate) struct Secrets<'a> {
    pub(crate) shared: &'a [u8],
    pub(crate) hash: &'a [u8],
    pub(crate) session: &'a [u8],
}

/// The keys of what a side sends (RFC 4253 section 7.2); none where no cipher is agreed on.
pub(crate) fn derived<'a>(
    alloc: Global,
    client: &Lists,
    server: &Lists,
    sender: Side,
    secrets: &Secrets<'_>,
) -> Result<Option<Keys>, PlayFault<'a>> {
    let (shared, hash, session) = (secrets.shared, secrets.hash, secrets.session);
    let Some((cipher, mac)) = protection_of(client, server, sender) else {
        return Ok(None);
    };
    if shared.len() > BYTES_LIMIT || hash.len() > BYTES_LIMIT || session.len() > BYTES_LIMIT {
        return Ok(None);
    }
    let material = KeyMaterial {
        kex: KEX,
        shared,
        hash,
        session,
    };
    Ok(Some(keys_of(alloc, &DeployedSuite, &material, sender, cipher, mac)?))
}

/// The payload of a valid request by the own key, and of a query for it (RFC 4252 section 7), named. The session identifier
/// has its name.
pub(crate) fn name_requests<'a>(
    alloc: Global,
    names: &mut Names,
    setting: &Setting<'_>,
) -> Result<(), PlayFault<'a>> {
    let blob = blob_of(alloc, setting.own_key)?;
    name_both(alloc, names, setting, &blob)
}

/// Names both payloads, for the blob of the own key.
fn name_both<'a>(
    alloc: Global,
    names: &mut Names,
    setting: &Setting<'_>,
    blob: &[u8],
) -> Result<(), PlayFault<'a>> {
    let query = request(alloc, setting.user, blob, false).finish()?;
    names.set(alloc, "query", query)?;
    let signature = request_signature(alloc, setting, names.bytes("session"), blob)?;
    let mut signed = request(alloc, setting.user, blob, true);
    signed.put_string(&signature);
    Ok(names.set(alloc, "good", signed.finish()?)?)
}

/// The signature of the session identifier and a request's fields (RFC 4252 section 7).
fn request_signature<'a>(
    alloc: Global,
    setting: &Setting<'_>,
    session: &[u8],
    blob: &[u8],
) -> Result<Vec<u8>, PlayFault<'a>> {
    let input = signed_input(alloc, setting.user, session, blob)?;
    wrapped_signature(alloc, setting.own_key, &input)
}

/// What is signed: the session identifier as a string, and a request's fields.
fn signed_input(alloc: Global, user: &str, session: &[u8], blob: &[u8]) -> Result<Vec<u8>, Memory> {
    let mut input = ByteBuffer::new(alloc);
    input.put_string(session);
    put_request(&mut input, user, blob, true);
    input.finish()
}

/// The fields of a request up to the key; the flag says whether a signature follows.
fn request(alloc: Global, user: &str, blob: &[u8], is_signed: bool) -> ByteBuffer {
    let mut out = ByteBuffer::new(alloc);
    put_request(&mut out, user, blob, is_signed);
    out
}

/// Puts them.
fn put_request(out: &mut ByteBuffer, user: &str, blob: &[u8], is_signed: bool) {
    out.put(&[SSH_MSG_USERAUTH_REQUEST]);
    out.put_string(user.as_bytes());
    out.put_string(b"ssh-connection");
    out.put_string(b"publickey");
    out.put_boolean(is_signed);
    out.put_string(KEY.as_bytes());
    out.put_string(blob);
}
