//! Reads a payload as a message.

ghost use Rattle.std.specs.Prelude.{◌≡◌, ◌≢◌, ℕ, IfErr, IfOk, List, Ok, []};
ghost use Rattle.sshwire.specs.declared.share_form.ShareForm.TheVariants.{Mpint};
ghost use Rattle.sshmsg.specs.MessageData.{debug, disconnect, form_of, ignore, init_of, kex_ecdh_init, kex_ecdh_reply, kexdh_init, kexdh_reply, MessageData, method_form, password, publickey, reply_of, service_accept, service_request, unimplemented, userauth_banner, userauth_pk_ok, userauth_request, userauth_success, UserauthRequest};
ghost use Rattle.sshmsg.specs.Form.{Reserved, bytes_at, field_at, form_at, utf8_at};
ghost use Rattle.sshmsg.specs.Messages.{Spells, in_form, message_in};
ghost use Rattle.sshmsg.specs.Numbers.{HasNoList};
ghost use Rattle.sshmsg.specs.View.{Goes, IsOutOfMemory, MessageAnswer, ReadsForm, message_data, method_data};

use crate::fault::MsgFault;
use crate::lists::{read_ext_info, read_kexinit, read_userauth_failure};
use crate::message::{Message, Method, OtherMethod};
use crate::numbers::{
    SSH_MSG_DEBUG, SSH_MSG_DISCONNECT, SSH_MSG_EXT_INFO, SSH_MSG_IGNORE, SSH_MSG_KEXDH_INIT,
    SSH_MSG_KEXDH_REPLY, SSH_MSG_KEXINIT, SSH_MSG_NEWKEYS, SSH_MSG_SERVICE_ACCEPT,
    SSH_MSG_SERVICE_REQUEST, SSH_MSG_UNIMPLEMENTED, SSH_MSG_USERAUTH_BANNER,
    SSH_MSG_USERAUTH_FAILURE, SSH_MSG_USERAUTH_PK_OK, SSH_MSG_USERAUTH_REQUEST,
    SSH_MSG_USERAUTH_SUCCESS,
};
use sshwire::{Reader, ShareForm, WireFault};
use std::alloc::Global;
use std::str;

/// Reads a payload, which is the number of a message and its fields (RFC 4253, RFC 4252, RFC 8308).
/// The message lends what it says out of the payload.
///
/// Answers `Unrecognised` with the number where no message here has it, `Malformed` with the number
/// where one has it and the payload doesn't spell it or goes on after it, `Malformed(0)` for no
/// bytes. It takes memory for EXT_INFO, KEXINIT and USERAUTH_FAILURE alone, whose lists are owned:
/// `Memory` comes where the payload spells one of them and an allocation failed.
pub fn read<'a>(alloc: Global, payload: &'a [u8]) -> Result<Message<'a>, MsgFault>
    ensures found { IfOk result (λ m. Spells Mpint (message_data m) payload.now) }
    ensures only { (m : MessageData) → Spells Mpint m payload.now → MessageAnswer result (Ok m) }
    ensures exact { MessageAnswer result (message_in Mpint payload.now) }
    ensures memory { IsOutOfMemory result (message_in Mpint payload.now) }
{
    read_exchange(alloc, payload, ShareForm::Mpint)
}

/// Reads a payload as [`read`] does, in an exchange whose shares have this form: where it is
/// `OctetString` or `Hybrid`, 30 and 31 are KEX_ECDH_INIT and KEX_ECDH_REPLY (RFC 5656 section 4,
/// RFC 8731), whose shares may be any bytes.
pub fn read_exchange<'a>(
    alloc: Global,
    payload: &'a [u8],
    form: ShareForm,
) -> Result<Message<'a>, MsgFault>
    ensures found { IfOk result (λ m. Spells form (message_data m) payload.now) }
    ensures only { (m : MessageData) → Spells form m payload.now → MessageAnswer result (Ok m) }
    ensures exact { MessageAnswer result (message_in form payload.now) }
    ensures memory { IsOutOfMemory result (message_in form payload.now) }
{
    crate::law::messages_law();
    read_payload(alloc, payload, form)
}

#[tactic(auto, unfolding(crate::specs::Messages::message_in))]
fn read_payload<'a>(
    alloc: Global,
    payload: &'a [u8],
    form: ShareForm,
) -> Result<Message<'a>, MsgFault>
    ensures exact { MessageAnswer result (message_in form payload.now) }
    ensures memory { IsOutOfMemory result (message_in form payload.now) }
{
    let Some((number, fields)) = payload.split_first() else {
        return Err(MsgFault::Malformed(0));
    };
    match *number {
        SSH_MSG_EXT_INFO => read_ext_info(alloc, fields),
        SSH_MSG_KEXINIT => read_kexinit(alloc, fields),
        SSH_MSG_USERAUTH_FAILURE => read_userauth_failure(alloc, fields),
        number => read_lent(number, fields, form),
    }
}

/// Reads the fields of a message that holds no list.
fn read_lent<'a>(number: u8, fields: &'a [u8], form: ShareForm) -> Result<Message<'a>, MsgFault>
    requires { HasNoList number }
    ensures exact { MessageAnswer result (in_form number fields.now (form_of form number)) }
    ensures no_memory { IfErr result (λ e. e ≢ MsgFault.Memory) }
{
    let mut reader = Reader::new(fields);
    match read_numbered(number, form, &mut reader) {
        None => Err(MsgFault::Unrecognised(number)),
        Some(Ok(message)) => {
            if reader.rest().is_empty() {
                Ok(message)
            } else {
                Err(MsgFault::Malformed(number))
            }
        }
        Some(Err(_)) => Err(MsgFault::Malformed(number)),
    }
}

/// Reads the fields of the message with this number that holds no list, if there is one.
#[tactic(auto, unfolding(crate::specs::MessageData::form_of))]
fn read_numbered<'a>(
    number: u8,
    form: ShareForm,
    reader: &mut Reader<'a>,
) -> Option<Result<Message<'a>, WireFault>>
    requires { HasNoList number }
    ensures { ReadsForm (form_of form number) reader.old reader.new result }
{
    match number {
        SSH_MSG_DISCONNECT => Some(read_disconnect(reader)),
        SSH_MSG_IGNORE => Some(read_ignore(reader)),
        SSH_MSG_UNIMPLEMENTED => Some(read_unimplemented(reader)),
        SSH_MSG_DEBUG => Some(read_debug(reader)),
        SSH_MSG_SERVICE_REQUEST => Some(read_service_request(reader)),
        SSH_MSG_SERVICE_ACCEPT => Some(read_service_accept(reader)),
        SSH_MSG_NEWKEYS => Some(Ok(Message::NewKeys)),
        SSH_MSG_KEXDH_INIT => Some(read_init(form, reader)),
        SSH_MSG_KEXDH_REPLY => Some(read_reply(form, reader)),
        SSH_MSG_USERAUTH_REQUEST => Some(read_userauth_request(reader)),
        SSH_MSG_USERAUTH_SUCCESS => Some(Ok(Message::UserauthSuccess)),
        SSH_MSG_USERAUTH_BANNER => Some(read_userauth_banner(reader)),
        SSH_MSG_USERAUTH_PK_OK => Some(read_userauth_pk_ok(reader)),
        _ => None,
    }
}

fn read_disconnect<'a>(reader: &mut Reader<'a>) -> Result<Message<'a>, WireFault>
    ensures { Goes message_data result reader.new (form_at disconnect reader.old) }
{
    let reason = reader.u32()?;
    let description = reader.string()?;
    let language = reader.string()?;
    Ok(Message::Disconnect {
        reason,
        description,
        language,
    })
}

fn read_ignore<'a>(reader: &mut Reader<'a>) -> Result<Message<'a>, WireFault>
    ensures { Goes message_data result reader.new (form_at ignore reader.old) }
{
    let content = reader.string()?;
    Ok(Message::Ignore { content })
}

fn read_unimplemented<'a>(reader: &mut Reader<'a>) -> Result<Message<'a>, WireFault>
    ensures { Goes message_data result reader.new (form_at unimplemented reader.old) }
{
    let sequence_number = reader.u32()?;
    Ok(Message::Unimplemented { sequence_number })
}

fn read_debug<'a>(reader: &mut Reader<'a>) -> Result<Message<'a>, WireFault>
    ensures { Goes message_data result reader.new (form_at debug reader.old) }
{
    let always_display = reader.boolean()?;
    let text = reader.string()?;
    let language = reader.string()?;
    Ok(Message::Debug {
        always_display,
        text,
        language,
    })
}

fn read_service_request<'a>(reader: &mut Reader<'a>) -> Result<Message<'a>, WireFault>
    ensures { Goes message_data result reader.new (form_at service_request reader.old) }
{
    let service = reader.string()?;
    Ok(Message::ServiceRequest { service })
}

fn read_service_accept<'a>(reader: &mut Reader<'a>) -> Result<Message<'a>, WireFault>
    ensures { Goes message_data result reader.new (form_at service_accept reader.old) }
{
    let service = reader.string()?;
    Ok(Message::ServiceAccept { service })
}

/// The client's share.
fn read_init<'a>(form: ShareForm, reader: &mut Reader<'a>) -> Result<Message<'a>, WireFault>
    ensures { Goes message_data result reader.new (form_at (init_of form) reader.old) }
{
    match form {
        ShareForm::Mpint => read_kexdh_init(reader),
        ShareForm::OctetString => read_kex_ecdh_init(reader),
        ShareForm::Hybrid => read_kex_ecdh_init(reader),
    }
}

/// The server's host key, share and signature.
fn read_reply<'a>(form: ShareForm, reader: &mut Reader<'a>) -> Result<Message<'a>, WireFault>
    ensures { Goes message_data result reader.new (form_at (reply_of form) reader.old) }
{
    match form {
        ShareForm::Mpint => read_kexdh_reply(reader),
        ShareForm::OctetString => read_kex_ecdh_reply(reader),
        ShareForm::Hybrid => read_kex_ecdh_reply(reader),
    }
}

fn read_kexdh_init<'a>(reader: &mut Reader<'a>) -> Result<Message<'a>, WireFault>
    ensures { Goes message_data result reader.new (form_at kexdh_init reader.old) }
{
    let e = reader.mpint()?;
    Ok(Message::KexdhInit { e })
}

fn read_kexdh_reply<'a>(reader: &mut Reader<'a>) -> Result<Message<'a>, WireFault>
    ensures { Goes message_data result reader.new (form_at kexdh_reply reader.old) }
{
    let host_key = reader.string()?;
    let f = reader.mpint()?;
    let signature = reader.string()?;
    Ok(Message::KexdhReply {
        host_key,
        f,
        signature,
    })
}

fn read_kex_ecdh_init<'a>(reader: &mut Reader<'a>) -> Result<Message<'a>, WireFault>
    ensures { Goes message_data result reader.new (form_at kex_ecdh_init reader.old) }
{
    let client_share = reader.string()?;
    Ok(Message::KexEcdhInit { client_share })
}

fn read_kex_ecdh_reply<'a>(reader: &mut Reader<'a>) -> Result<Message<'a>, WireFault>
    ensures { Goes message_data result reader.new (form_at kex_ecdh_reply reader.old) }
{
    let host_key = reader.string()?;
    let server_share = reader.string()?;
    let signature = reader.string()?;
    Ok(Message::KexEcdhReply {
        host_key,
        server_share,
        signature,
    })
}

fn read_userauth_banner<'a>(reader: &mut Reader<'a>) -> Result<Message<'a>, WireFault>
    ensures { Goes message_data result reader.new (form_at userauth_banner reader.old) }
{
    let text = reader.string()?;
    let language = reader.string()?;
    Ok(Message::UserauthBanner { text, language })
}

fn read_userauth_pk_ok<'a>(reader: &mut Reader<'a>) -> Result<Message<'a>, WireFault>
    ensures { Goes message_data result reader.new (form_at userauth_pk_ok reader.old) }
{
    let algorithm = reader.string()?;
    let key = reader.string()?;
    Ok(Message::UserauthPkOk { algorithm, key })
}

#[tactic(auto, unfolding(crate::specs::MessageData::userauth_request))]
fn read_userauth_request<'a>(reader: &mut Reader<'a>) -> Result<Message<'a>, WireFault>
    ensures { Goes message_data result reader.new (form_at userauth_request reader.old) }
{
    let user = read_user(reader)?;
    let service = reader.string()?;
    let name = reader.string()?;
    let method = read_method(name, reader)?;
    Ok(Message::UserauthRequest {
        user,
        service,
        method,
    })
}

/// Reads the fields of the method with this name.
fn read_method<'a>(name: &'a [u8], reader: &mut Reader<'a>) -> Result<Method<'a>, WireFault>
    ensures { (user service : List ℕ) → Goes (λ m. UserauthRequest user service (method_data m)) result reader.new
        (form_at (method_form user service name.now) reader.old) }
{
    if name == b"none".as_slice() {
        return Ok(Method::None);
    }
    if name == b"password".as_slice() {
        return read_password(reader);
    }
    if name == b"publickey".as_slice() {
        return read_publickey(reader);
    }
    let fields = reader.rest();
    *reader = Reader::new(&[]);
    Ok(Method::Other(OtherMethod::new(name, fields)))
}

#[tactic(auto, unfolding(crate::specs::MessageData::password))]
fn read_password<'a>(reader: &mut Reader<'a>) -> Result<Method<'a>, WireFault>
    ensures { (user service : List ℕ) → Goes (λ m. UserauthRequest user service (method_data m)) result reader.new
        (form_at (password user service) reader.old) }
{
    if reader.boolean()? {
        let old = reader.string()?;
        let new = reader.string()?;
        return Ok(Method::PasswordChange { old, new });
    }
    let password = reader.string()?;
    Ok(Method::Password { password })
}

#[tactic(auto, unfolding(crate::specs::MessageData::publickey))]
fn read_publickey<'a>(reader: &mut Reader<'a>) -> Result<Method<'a>, WireFault>
    ensures { (user service : List ℕ) → Goes (λ m. UserauthRequest user service (method_data m)) result reader.new
        (form_at (publickey user service) reader.old) }
{
    let signed = reader.boolean()?;
    let algorithm = reader.string()?;
    let key = reader.string()?;
    if !signed {
        return Ok(Method::PublicKeyQuery { algorithm, key });
    }
    let signature = reader.string()?;
    Ok(Method::PublicKey {
        algorithm,
        key,
        signature,
    })
}

/// A string of UTF-8 text.
#[tactic(auto, using(crate::proofs::UserLemmas::no_string, crate::proofs::UserLemmas::is_text, crate::proofs::UserLemmas::no_text))]
fn read_user<'a>(reader: &mut Reader<'a>) -> Result<&'a str, WireFault>
    ensures { Goes (λ user. user.now) result reader.new (utf8_at reader.old) }
{
    let bytes = reader.string()?;
    match str::from_utf8(bytes) {
        Ok(user) => Ok(user),
        Err(_) => Err(WireFault::Name),
    }
}
