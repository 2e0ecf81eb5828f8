//! The payloads that an endpoint sends.

ghost use Rattle.std.specs.Prelude.{◌≡◌, ◌<◌, ◌≤◌, ◌+◌, ◌∷◌, [], IfOk, drop, length, map, string_bytes};
ghost use Rattle.sshwire.specs.declared.limits.TheConstants.{PAYLOAD_LIMIT};
ghost use Rattle.sshwire.specs.Types.{IsName, names_body};
ghost use Rattle.sshmsg.specs.MessageData as content;
ghost use Rattle.sshmsg.specs.View.{message_data};
ghost use Rattle.sshmsg.specs.Written.{written_message};
ghost use Rattle.sshpacket.specs.declared.limits.TheConstants.{BLOB_LIMIT, SIGNATURE_LIMIT};
ghost use Rattle.sshpacket.specs.Suite.{FitsShare};
ghost use Rattle.sshcore.specs.EndpointConfig.{config_data};
ghost use Rattle.sshcore.specs.Exchange.{own_kexinit};
ghost use Rattle.sshcore.specs.MadePayloads.{IsMade};
ghost use Rattle.sshcore.specs.declared.config_parts.TheConstants.{LIST_LIMIT};
ghost use Rattle.sshcore.specs.Work.{init_for, init_in, reply_in, server_sig_algs, userauth};

use crate::config::Config;
use crate::config_kexinit::list_of;
use crate::config_version::bytes_law;
use sshmsg::{Extension, Message, write};
use sshpacket::{ShareForm, Suite};
use sshwire::{Memory, Mpint};
use std::alloc::Global;

/// The name of the service of authentication (RFC 4252 section 4).
pub(crate) const USERAUTH: &[u8] = b"ssh-userauth";

/// The payload of a message that fits one. Answers `Memory` where an allocation failed, as each function below.
pub(crate) fn payload_of(alloc: Global, message: &Message<'_>) -> Result<Vec<u8>, Memory>
    requires { length (written_message (message_data message.now)) ≤ PAYLOAD_LIMIT }
    ensures { IfOk result (λ made. IsMade (written_message (message_data message.now)) made.items) }
{
    let mut payload = Vec::new(alloc);
    write(message, &mut payload)?;
    bytes_law(&payload);
    Ok(payload)
}

/// The same of a message that is given up: so a message is looked into for that here, once.
pub(crate) fn payload_from(alloc: Global, message: Message<'_>) -> Result<Vec<u8>, Memory>
    requires { length (written_message (message_data message)) ≤ PAYLOAD_LIMIT }
    ensures { IfOk result (λ made. IsMade (written_message (message_data message.entry)) made.items) }
{
    payload_of(alloc, &message)
}

/// The payload of the KEXINIT of a config (RFC 4253 section 7.1).
pub(crate) fn kexinit_payload(alloc: Global, config: &Config<'_>) -> Result<Vec<u8>, Memory>
    ensures { IfOk result (λ made. IsMade (own_kexinit (config_data config.now)) made.items) }
{
    let kexinit = config.kexinit()?;
    payload_from(alloc, Message::KexInit(Box::new(alloc, kexinit)?))
}

/// The payload of a client's first message of an exchange by this method (RFC 4253 section 8, RFC 5656
/// section 4).
pub(crate) fn init_payload<S: Suite>(
    alloc: Global,
    config: &Config<'_>,
    suite: &S,
    kex: &str,
) -> Result<Vec<u8>, Memory>
    requires { IsName kex.now }
    ensures { IfOk result (λ made. IsMade (init_for (S.meaning suite.now) (config_data config.now) kex.now) made.items) }
{
    let share = suite.public(alloc, kex, config.exchange_random())?;
    share_payload(alloc, suite.share_form(kex), &share)
}

/// The payload that tells a client the algorithms of users' keys (RFC 8308 section 3.1).
pub(crate) fn extensions_payload(alloc: Global, names: &[String]) -> Result<Vec<u8>, Memory>
    requires { length (names_body (map string_bytes names.now)) ≤ LIST_LIMIT }
    ensures { IfOk result (λ made. IsMade (written_message (content.ExtInfo ((server_sig_algs, names_body (map string_bytes names.now)) ∷ []))) made.items) }
{
    sshmsg::lengths_law();
    sshwire::names_law();
    let mut list = Vec::new(alloc);
    list_of(alloc, names)?.write(&mut list)?;
    let mut extensions = Vec::new(alloc);
    extensions.push(Extension {
        name: b"server-sig-algs",
        value: body_of(&list),
    })?;
    payload_from(alloc, Message::ExtInfo { extensions })
}

/// What stands after a string's length (RFC 4251 section 5).
fn body_of(string: &[u8]) -> &[u8]
    ensures { result.now ≡ drop 4 string.now }
{
    if string.len() < 4 { &[] } else { &string[4..] }
}

/// The payload that gives a client's share in this form.
fn share_payload(alloc: Global, form: ShareForm, share: &[u8]) -> Result<Vec<u8>, Memory>
    requires { FitsShare form share.now }
    ensures { IfOk result (λ made. IsMade (written_message (init_in form share.now)) made.items) }
{
    sshwire::types_law();
    sshmsg::lengths_law();
    match form {
        ShareForm::Mpint => payload_from(
            alloc,
            Message::KexdhInit {
                e: Mpint::new(share).unwrap(),
            },
        ),
        ShareForm::OctetString | ShareForm::Hybrid => payload_from(
            alloc,
            Message::KexEcdhInit {
                client_share: share,
            },
        ),
    }
}

/// The payload of a server's answer to the client's share, in this form.
pub(crate) fn reply_payload(
    alloc: Global,
    form: ShareForm,
    host_key: &[u8],
    share: &[u8],
    signature: &[u8],
) -> Result<Vec<u8>, Memory>
    requires share { FitsShare form share.now }
    requires host_key { length host_key.now ≤ BLOB_LIMIT }
    requires signature { length signature.now ≤ SIGNATURE_LIMIT }
    ensures { IfOk result (λ made. IsMade (written_message (reply_in form host_key.now share.now signature.now)) made.items) }
{
    sshwire::types_law();
    sshmsg::lengths_law();
    match form {
        ShareForm::Mpint => payload_from(
            alloc,
            Message::KexdhReply {
                host_key,
                f: Mpint::new(share).unwrap(),
                signature,
            },
        ),
        ShareForm::OctetString | ShareForm::Hybrid => payload_from(
            alloc,
            Message::KexEcdhReply {
                host_key,
                server_share: share,
                signature,
            },
        ),
    }
}
