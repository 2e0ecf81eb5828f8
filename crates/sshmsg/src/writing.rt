//! Writes a message as a payload, and tells how long that is.

ghost use Rattle.sshwire.specs.declared.limits.TheConstants.{PAYLOAD_LIMIT};
ghost use Rattle.std.specs.Prelude.{◌≡◌, ◌≤◌, ◌++◌, ◌∷◌, [], OnErr, OnOk, if◌then◌else◌, is_ok, length, string_bytes, take};
ghost use Rattle.sshwire.specs.Types.{string};
ghost use Rattle.sshwire.specs.declared.share_form.ShareForm.{ShareForm};
ghost use Rattle.sshmsg.specs.MessageData as content;
ghost use Rattle.sshmsg.specs.Lists.{AreFour, AreLists, AreTwo, four_written, lists_written, two_written};
ghost use Rattle.sshmsg.specs.Lengths.{IsCapped};
ghost use Rattle.sshmsg.specs.Messages.{Spells};
ghost use Rattle.sshmsg.specs.View.{kexinit_data, message_data, method_data, pair_of, pairs_of};
ghost use Rattle.sshmsg.specs.Written.{IsMessageOf, IsMethod, IsWellFormed, method_fields, pair_written, pairs_written, written_message};

use crate::fits::{ext_info_len, kexinit_len, request_len, string_len, three_len, two_len};
use crate::message::{Extension, KexInit, Message, Method};
use crate::numbers::{
    SSH_MSG_DEBUG, SSH_MSG_DISCONNECT, SSH_MSG_EXT_INFO, SSH_MSG_IGNORE, SSH_MSG_KEX_ECDH_INIT,
    SSH_MSG_KEX_ECDH_REPLY, SSH_MSG_KEXDH_INIT, SSH_MSG_KEXDH_REPLY, SSH_MSG_KEXINIT,
    SSH_MSG_NEWKEYS, SSH_MSG_SERVICE_ACCEPT, SSH_MSG_SERVICE_REQUEST, SSH_MSG_UNIMPLEMENTED,
    SSH_MSG_USERAUTH_BANNER, SSH_MSG_USERAUTH_FAILURE, SSH_MSG_USERAUTH_PK_OK,
    SSH_MSG_USERAUTH_REQUEST, SSH_MSG_USERAUTH_SUCCESS,
};
use sshwire::{Memory, Mpint, NameList, put_boolean, put_string, put_u32};

/// Appends the payload of a message (RFC 4253, RFC 4252, RFC 8308): booleans as 0 or 1, the reserved
/// word of a KEXINIT as 0.
///
/// The caller's condition is that the message [`fits`](Message::fits). Where an allocation failed the vector
/// is unchanged; room is asked for once.
pub fn write(message: &Message<'_>, out: &mut Vec<u8>) -> Result<(), Memory>
    requires { length (written_message (message_data message.now)) ≤ PAYLOAD_LIMIT }
    ensures appends { out.new.items ≡ (if is_ok result then out.old.items ++ written_message (message_data message.now) else out.old.items) }
    // What is appended spells the message under each form that has it, and so is read again as it.
    ensures spells { OnOk result ((form : ShareForm) → IsMessageOf form (message_data message.now)
        → Spells form (message_data message.now) (written_message (message_data message.now))) }
{
    crate::law::written_law();
    let start = out.len();
    out.reserve(message.room())?;
    if put_message(out, message).is_err() {
        out.truncate(start);
        return Err(Memory);
    }
    Ok(())
}

/// Appends a message; where an allocation failed a prefix of it may stand there, as with every function below.
#[tactic(auto, unfolding(crate::specs::Written::written_message))]
fn put_message(out: &mut Vec<u8>, message: &Message<'_>) -> Result<(), Memory>
    requires { length (written_message (message_data message.now)) ≤ PAYLOAD_LIMIT }
    ensures ok { OnOk result (out.new.items ≡ out.old.items ++ written_message (message_data message.now)) }
    ensures well { OnOk result (IsWellFormed (message_data message.now)) }
    ensures err { OnErr result (take (length out.old.items) out.new.items ≡ out.old.items) }
{
    match message {
        Message::Disconnect {
            reason,
            description,
            language,
        } => put_disconnect(out, *reason, description, language),
        Message::Ignore { content } => put_one_string(out, SSH_MSG_IGNORE, content),
        Message::Unimplemented { sequence_number } => put_unimplemented(out, *sequence_number),
        Message::Debug {
            always_display,
            text,
            language,
        } => put_debug(out, *always_display, text, language),
        Message::ServiceRequest { service } => put_one_string(
            out,
            SSH_MSG_SERVICE_REQUEST,
            service,
        ),
        Message::ServiceAccept { service } => put_one_string(out, SSH_MSG_SERVICE_ACCEPT, service),
        Message::ExtInfo { extensions } => put_ext_info(out, extensions),
        Message::KexInit(kexinit) => put_kexinit(out, kexinit),
        Message::NewKeys => put_number(out, SSH_MSG_NEWKEYS),
        Message::KexdhInit { e } => put_one_string(out, SSH_MSG_KEXDH_INIT, e.body()),
        Message::KexdhReply {
            host_key,
            f,
            signature,
        } => put_three_strings(out, SSH_MSG_KEXDH_REPLY, host_key, f.body(), signature),
        Message::KexEcdhInit { client_share } => put_one_string(
            out,
            SSH_MSG_KEX_ECDH_INIT,
            client_share,
        ),
        Message::KexEcdhReply {
            host_key,
            server_share,
            signature,
        } => put_three_strings(
            out,
            SSH_MSG_KEX_ECDH_REPLY,
            host_key,
            server_share,
            signature,
        ),
        Message::UserauthRequest {
            user,
            service,
            method,
        } => put_userauth_request(out, user, service, method),
        Message::UserauthFailure {
            methods,
            partial_success,
        } => put_userauth_failure(out, methods, *partial_success),
        Message::UserauthSuccess => put_number(out, SSH_MSG_USERAUTH_SUCCESS),
        Message::UserauthBanner { text, language } => put_two_strings(
            out,
            SSH_MSG_USERAUTH_BANNER,
            text,
            language,
        ),
        Message::UserauthPkOk { algorithm, key } => put_two_strings(
            out,
            SSH_MSG_USERAUTH_PK_OK,
            algorithm,
            key,
        ),
    }
}

/// The length of the payload, or some length above the limit where its own is.
#[tactic(auto, unfolding(crate::specs::Written::written_message), using(crate::proofs::LengthLemmas::exactly, crate::proofs::LengthLemmas::failure_length))]
pub(crate) fn message_len(message: &Message<'_>) -> u128
    ensures { IsCapped result (length (written_message (message_data message.now))) }
{
    match message {
        Message::Disconnect {
            description,
            language,
            ..
        } => two_len(5, description, language),
        Message::Ignore { content } => string_len(1, content),
        Message::Unimplemented { .. } => 5,
        Message::Debug { text, language, .. } => two_len(2, text, language),
        Message::ServiceRequest { service } => string_len(1, service),
        Message::ServiceAccept { service } => string_len(1, service),
        Message::ExtInfo { extensions } => ext_info_len(extensions),
        Message::KexInit(kexinit) => kexinit_len(kexinit),
        Message::NewKeys => 1,
        Message::KexdhInit { e } => string_len(1, e.body()),
        Message::KexdhReply {
            host_key,
            f,
            signature,
        } => three_len(1, host_key, f.body(), signature),
        Message::KexEcdhInit { client_share } => string_len(1, client_share),
        Message::KexEcdhReply {
            host_key,
            server_share,
            signature,
        } => three_len(1, host_key, server_share, signature),
        Message::UserauthRequest {
            user,
            service,
            method,
        } => request_len(user.as_bytes(), service, method),
        Message::UserauthFailure { methods, .. } => 2 + methods.written_len() as u128,
        Message::UserauthSuccess => 1,
        Message::UserauthBanner { text, language } => two_len(1, text, language),
        Message::UserauthPkOk { algorithm, key } => two_len(1, algorithm, key),
    }
}

fn put_number(out: &mut Vec<u8>, number: u8) -> Result<(), Memory>
    ensures ok { OnOk result (out.new.items ≡ out.old.items ++ number ∷ []) }
    ensures err { OnErr result (take (length out.old.items) out.new.items ≡ out.old.items) }
{
    out.push(number)?;
    Ok(())
}

/// A message whose one field is a string.
fn put_one_string(out: &mut Vec<u8>, number: u8, bytes: &[u8]) -> Result<(), Memory>
    requires { length (number ∷ string bytes.now) ≤ PAYLOAD_LIMIT }
    ensures ok { OnOk result (out.new.items ≡ out.old.items ++ number ∷ string bytes.now) }
    ensures err { OnErr result (take (length out.old.items) out.new.items ≡ out.old.items) }
{
    out.push(number)?;
    put_string(out, bytes)
}

/// A message whose two fields are strings.
fn put_two_strings(out: &mut Vec<u8>, number: u8, first: &[u8], second: &[u8]) -> Result<(), Memory>
    requires { length (number ∷ (string first.now ++ string second.now)) ≤ PAYLOAD_LIMIT }
    ensures ok { OnOk result (out.new.items ≡ out.old.items ++ number ∷ (string first.now ++ string second.now)) }
    ensures err { OnErr result (take (length out.old.items) out.new.items ≡ out.old.items) }
{
    out.push(number)?;
    put_pair(out, first, second)
}

/// A message whose three fields are strings.
fn put_three_strings(
    out: &mut Vec<u8>,
    number: u8,
    first: &[u8],
    second: &[u8],
    third: &[u8],
) -> Result<(), Memory>
    requires { length (number ∷ (string first.now ++ (string second.now ++ string third.now))) ≤ PAYLOAD_LIMIT }
    ensures ok { OnOk result (out.new.items ≡ out.old.items ++ number ∷ (string first.now ++ (string second.now ++ string third.now))) }
    ensures err { OnErr result (take (length out.old.items) out.new.items ≡ out.old.items) }
{
    put_two_strings(out, number, first, second)?;
    put_string(out, third)
}

/// Two strings, one after the other.
fn put_pair(out: &mut Vec<u8>, first: &[u8], second: &[u8]) -> Result<(), Memory>
    requires { length (string first.now ++ string second.now) ≤ PAYLOAD_LIMIT }
    ensures ok { OnOk result (out.new.items ≡ out.old.items ++ (string first.now ++ string second.now)) }
    ensures err { OnErr result (take (length out.old.items) out.new.items ≡ out.old.items) }
{
    put_string(out, first)?;
    put_string(out, second)
}

#[tactic(auto, unfolding(crate::specs::Written::written_message))]
fn put_disconnect(
    out: &mut Vec<u8>,
    reason: u32,
    description: &[u8],
    language: &[u8],
) -> Result<(), Memory>
    requires { length (written_message (content.Disconnect reason description.now language.now)) ≤ PAYLOAD_LIMIT }
    ensures ok { OnOk result (out.new.items ≡ out.old.items ++ written_message (content.Disconnect reason description.now language.now)) }
    ensures well { OnOk result (IsWellFormed (content.Disconnect reason description.now language.now)) }
    ensures err { OnErr result (take (length out.old.items) out.new.items ≡ out.old.items) }
{
    out.push(SSH_MSG_DISCONNECT)?;
    put_u32(out, reason)?;
    put_string(out, description)?;
    put_string(out, language)
}

#[tactic(auto, unfolding(crate::specs::Written::written_message))]
fn put_unimplemented(out: &mut Vec<u8>, sequence_number: u32) -> Result<(), Memory>
    ensures ok { OnOk result (out.new.items ≡ out.old.items ++ written_message (content.Unimplemented sequence_number)) }
    ensures well { OnOk result (IsWellFormed (content.Unimplemented sequence_number)) }
    ensures err { OnErr result (take (length out.old.items) out.new.items ≡ out.old.items) }
{
    out.push(SSH_MSG_UNIMPLEMENTED)?;
    put_u32(out, sequence_number)
}

#[tactic(auto, unfolding(crate::specs::Written::written_message))]
fn put_debug(
    out: &mut Vec<u8>,
    always_display: bool,
    text: &[u8],
    language: &[u8],
) -> Result<(), Memory>
    requires { length (written_message (content.Debug always_display text.now language.now)) ≤ PAYLOAD_LIMIT }
    ensures ok { OnOk result (out.new.items ≡ out.old.items ++ written_message (content.Debug always_display text.now language.now)) }
    ensures well { OnOk result (IsWellFormed (content.Debug always_display text.now language.now)) }
    ensures err { OnErr result (take (length out.old.items) out.new.items ≡ out.old.items) }
{
    out.push(SSH_MSG_DEBUG)?;
    put_boolean(out, always_display)?;
    put_string(out, text)?;
    put_string(out, language)
}

#[tactic(auto, unfolding(crate::specs::Written::written_message))]
fn put_kexinit(out: &mut Vec<u8>, kexinit: &KexInit<'_>) -> Result<(), Memory>
    ensures ok { OnOk result (out.new.items ≡ out.old.items ++ written_message (content.KexInit (kexinit_data kexinit.now))) }
    ensures well { OnOk result (IsWellFormed (content.KexInit (kexinit_data kexinit.now))) }
    ensures err { OnErr result (take (length out.old.items) out.new.items ≡ out.old.items) }
{
    let cookie = kexinit.cookie;
    out.push(SSH_MSG_KEXINIT)?;
    out.extend_from_slice(cookie)?;
    put_lists(out, kexinit)?;
    put_boolean(out, kexinit.first_kex_packet_follows)?;
    put_u32(out, 0)?;
    Ok(())
}

/// The ten lists of a KEXINIT.
fn put_lists(out: &mut Vec<u8>, kexinit: &KexInit<'_>) -> Result<(), Memory>
    ensures ok { OnOk result (out.new.items ≡ out.old.items ++ lists_written (kexinit_data kexinit.now)) }
    ensures well { OnOk result (AreLists (kexinit_data kexinit.now)) }
    ensures err { OnErr result (take (length out.old.items) out.new.items ≡ out.old.items) }
{
    put_two_lists(
        out,
        &kexinit.kex_algorithms,
        &kexinit.server_host_key_algorithms,
    )?;
    put_four_lists(
        out,
        &kexinit.encryption_client_to_server,
        &kexinit.encryption_server_to_client,
        &kexinit.mac_client_to_server,
        &kexinit.mac_server_to_client,
    )?;
    put_four_lists(
        out,
        &kexinit.compression_client_to_server,
        &kexinit.compression_server_to_client,
        &kexinit.languages_client_to_server,
        &kexinit.languages_server_to_client,
    )
}

/// Four lists, one after the other.
fn put_four_lists(
    out: &mut Vec<u8>,
    first: &NameList,
    second: &NameList,
    third: &NameList,
    fourth: &NameList,
) -> Result<(), Memory>
    ensures ok { OnOk result (out.new.items ≡ out.old.items ++ four_written ((first.now, second.now), (third.now, fourth.now))) }
    ensures well { OnOk result (AreFour ((first.now, second.now), (third.now, fourth.now))) }
    ensures err { OnErr result (take (length out.old.items) out.new.items ≡ out.old.items) }
{
    put_two_lists(out, first, second)?;
    put_two_lists(out, third, fourth)
}

/// Two lists, one after the other.
fn put_two_lists(out: &mut Vec<u8>, first: &NameList, second: &NameList) -> Result<(), Memory>
    ensures ok { OnOk result (out.new.items ≡ out.old.items ++ two_written (first.now, second.now)) }
    ensures well { OnOk result (AreTwo (first.now, second.now)) }
    ensures err { OnErr result (take (length out.old.items) out.new.items ≡ out.old.items) }
{
    first.write(out)?;
    second.write(out)
}

#[tactic(auto, unfolding(crate::specs::Written::written_message))]
fn put_userauth_failure(
    out: &mut Vec<u8>,
    methods: &NameList,
    partial_success: bool,
) -> Result<(), Memory>
    ensures ok { OnOk result (out.new.items ≡ out.old.items ++ written_message (content.UserauthFailure methods.now partial_success)) }
    ensures well { OnOk result (IsWellFormed (content.UserauthFailure methods.now partial_success)) }
    ensures err { OnErr result (take (length out.old.items) out.new.items ≡ out.old.items) }
{
    out.push(SSH_MSG_USERAUTH_FAILURE)?;
    methods.write(out)?;
    put_boolean(out, partial_success)
}

#[tactic(auto, unfolding(crate::specs::Written::written_message))]
fn put_userauth_request(
    out: &mut Vec<u8>,
    user: &str,
    service: &[u8],
    method: &Method<'_>,
) -> Result<(), Memory>
    requires { length (written_message (content.UserauthRequest user.now service.now (method_data method.now))) ≤ PAYLOAD_LIMIT }
    ensures ok { OnOk result (out.new.items ≡ out.old.items ++ written_message (content.UserauthRequest user.now service.now (method_data method.now))) }
    ensures well { OnOk result (IsWellFormed (content.UserauthRequest user.now service.now (method_data method.now))) }
    ensures err { OnErr result (take (length out.old.items) out.new.items ≡ out.old.items) }
{
    put_three_strings(
        out,
        SSH_MSG_USERAUTH_REQUEST,
        user.as_bytes(),
        service,
        method.name(),
    )?;
    put_method_fields(out, method)
}

/// Appends the fields of a method, which stand after its name.
fn put_method_fields(out: &mut Vec<u8>, method: &Method<'_>) -> Result<(), Memory>
    requires { length (method_fields (method_data method.now)) ≤ PAYLOAD_LIMIT }
    ensures ok { OnOk result (out.new.items ≡ out.old.items ++ method_fields (method_data method.now)) }
    ensures well { IsMethod (method_data method.now) }
    ensures err { OnErr result (take (length out.old.items) out.new.items ≡ out.old.items) }
{
    match method {
        Method::None => Ok(()),
        Method::Password { password } => put_password(out, password),
        Method::PasswordChange { old, new } => put_password_change(out, old, new),
        Method::PublicKey {
            algorithm,
            key,
            signature,
        } => put_publickey(out, algorithm, key, signature),
        Method::PublicKeyQuery { algorithm, key } => put_publickey_query(out, algorithm, key),
        Method::Other(other) => put_bytes(out, other.fields()),
    }
}

fn put_password(out: &mut Vec<u8>, password: &[u8]) -> Result<(), Memory>
    requires { length (method_fields (content.Password password.now)) ≤ PAYLOAD_LIMIT }
    ensures ok { OnOk result (out.new.items ≡ out.old.items ++ method_fields (content.Password password.now)) }
    ensures err { OnErr result (take (length out.old.items) out.new.items ≡ out.old.items) }
{
    put_boolean(out, false)?;
    put_string(out, password)
}

fn put_password_change(out: &mut Vec<u8>, old: &[u8], new: &[u8]) -> Result<(), Memory>
    requires { length (method_fields (content.PasswordChange old.now new.now)) ≤ PAYLOAD_LIMIT }
    ensures ok { OnOk result (out.new.items ≡ out.old.items ++ method_fields (content.PasswordChange old.now new.now)) }
    ensures err { OnErr result (take (length out.old.items) out.new.items ≡ out.old.items) }
{
    put_boolean(out, true)?;
    put_pair(out, old, new)
}

fn put_publickey(
    out: &mut Vec<u8>,
    algorithm: &[u8],
    key: &[u8],
    signature: &[u8],
) -> Result<(), Memory>
    requires { length (method_fields (content.PublicKey algorithm.now key.now signature.now)) ≤ PAYLOAD_LIMIT }
    ensures ok { OnOk result (out.new.items ≡ out.old.items ++ method_fields (content.PublicKey algorithm.now key.now signature.now)) }
    ensures err { OnErr result (take (length out.old.items) out.new.items ≡ out.old.items) }
{
    put_boolean(out, true)?;
    put_pair(out, algorithm, key)?;
    put_string(out, signature)
}

fn put_publickey_query(out: &mut Vec<u8>, algorithm: &[u8], key: &[u8]) -> Result<(), Memory>
    requires { length (method_fields (content.PublicKeyQuery algorithm.now key.now)) ≤ PAYLOAD_LIMIT }
    ensures ok { OnOk result (out.new.items ≡ out.old.items ++ method_fields (content.PublicKeyQuery algorithm.now key.now)) }
    ensures err { OnErr result (take (length out.old.items) out.new.items ≡ out.old.items) }
{
    put_boolean(out, false)?;
    put_pair(out, algorithm, key)
}

fn put_bytes(out: &mut Vec<u8>, bytes: &[u8]) -> Result<(), Memory>
    ensures ok { OnOk result (out.new.items ≡ out.old.items ++ bytes.now) }
    ensures err { OnErr result (take (length out.old.items) out.new.items ≡ out.old.items) }
{
    out.extend_from_slice(bytes)?;
    Ok(())
}

#[tactic(auto, unfolding(crate::specs::Written::written_message))]
fn put_ext_info(out: &mut Vec<u8>, extensions: &[Extension<'_>]) -> Result<(), Memory>
    requires { length (written_message (content.ExtInfo (pairs_of extensions.now))) ≤ PAYLOAD_LIMIT }
    ensures ok { OnOk result (out.new.items ≡ out.old.items ++ written_message (content.ExtInfo (pairs_of extensions.now))) }
    ensures well { OnOk result (IsWellFormed (content.ExtInfo (pairs_of extensions.now))) }
    ensures err { OnErr result (take (length out.old.items) out.new.items ≡ out.old.items) }
{
    let count = extensions.len() as u32;
    out.push(SSH_MSG_EXT_INFO)?;
    put_u32(out, count)?;
    put_extensions(out, extensions)
}

/// Appends pairs of a name and a value.
fn put_extensions(out: &mut Vec<u8>, extensions: &[Extension<'_>]) -> Result<(), Memory>
    requires { length (pairs_written (pairs_of extensions.now)) ≤ PAYLOAD_LIMIT }
    ensures ok { OnOk result (out.new.items ≡ out.old.items ++ pairs_written (pairs_of extensions.now)) }
    ensures err { OnErr result (take (length out.old.items) out.new.items ≡ out.old.items) }
{
    for extension in extensions {
        put_pair(out, extension.name, extension.value)?;
    }
    Ok(())
}
