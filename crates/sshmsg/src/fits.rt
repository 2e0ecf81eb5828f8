//! How long the payload of a message is: whether it fits, and how long its parts are.

ghost use Rattle.sshwire.specs.declared.limits.TheConstants.{PAYLOAD_LIMIT};
ghost use Rattle.std.specs.Prelude.{◌≡◌, ◌≤◌, ◌<◌, ◌+◌, ◌^◌, ◌++◌, length, nat_le};
ghost use Rattle.sshwire.specs.Types.{string};
ghost use Rattle.sshmsg.specs.MessageData as content;
ghost use Rattle.sshmsg.specs.Lengths.{IsCapped};
ghost use Rattle.sshmsg.specs.View.{kexinit_data, message_data, method_data, pair_of, pairs_of};
ghost use Rattle.sshmsg.specs.MessageData.{method_name};
ghost use Rattle.sshmsg.specs.Written.{method_fields, pair_written, pairs_written, written_message};

use crate::message::{Extension, KexInit, Message, Method};
use crate::writing::message_len;
use sshwire::PAYLOAD_LIMIT;

impl<'a> Message<'a> {
    /// Whether the payload that [`write`](crate::write) appends has at most 32768 bytes. Takes no
    /// memory.
    #[tactic(auto, using(crate::proofs::LengthLemmas::capped_limit))]
    pub fn fits(&self) -> bool
        ensures { result ≡ nat_le (length (written_message (message_data self.now))) PAYLOAD_LIMIT }
    {
        message_len(self) <= PAYLOAD_LIMIT as u128
    }

    /// How much room to ask for before the message is written: that of its payload.
    #[tactic(auto, using(crate::proofs::LengthLemmas::capped_exact))]
    pub(crate) fn room(&self) -> usize
        requires { length (written_message (message_data self.now)) ≤ PAYLOAD_LIMIT }
        ensures { result ≡ length (written_message (message_data self.now)) }
    {
        message_len(self) as usize
    }
}

/// So many bytes, and a string.
pub(crate) fn string_len(before: u8, bytes: &[u8]) -> u128
    ensures len { result ≡ before + length (string bytes.now) }
    ensures bounded { result < 2 ^ 65 }
{
    before as u128 + 4 + bytes.len() as u128
}

/// So many bytes, and two strings.
pub(crate) fn two_len(before: u8, first: &[u8], second: &[u8]) -> u128
    ensures len { result ≡ before + length (string first.now ++ string second.now) }
    ensures bounded { result < 2 ^ 66 }
{
    string_len(before, first) + string_len(0, second)
}

/// So many bytes, and three strings.
pub(crate) fn three_len(before: u8, first: &[u8], second: &[u8], third: &[u8]) -> u128
    ensures len { result ≡ before + length (string first.now ++ (string second.now ++ string third.now)) }
    ensures bounded { result < 2 ^ 67 }
{
    string_len(before, first) + two_len(0, second, third)
}

#[tactic(auto, unfolding(crate::specs::Written::written_message))]
pub(crate) fn kexinit_len(kexinit: &KexInit<'_>) -> u128
    ensures { result ≡ length (written_message (content.KexInit (kexinit_data kexinit.now))) }
{
    let cookie = kexinit.cookie;
    let cookie_len = cookie.as_slice().len() as u128;
    let algorithms = kexinit.kex_algorithms.written_len() as u128
        + kexinit.server_host_key_algorithms.written_len() as u128
        + kexinit.encryption_client_to_server.written_len() as u128
        + kexinit.encryption_server_to_client.written_len() as u128
        + kexinit.mac_client_to_server.written_len() as u128
        + kexinit.mac_server_to_client.written_len() as u128
        + kexinit.compression_client_to_server.written_len() as u128
        + kexinit.compression_server_to_client.written_len() as u128
        + kexinit.languages_client_to_server.written_len() as u128
        + kexinit.languages_server_to_client.written_len() as u128;
    6 + cookie_len + algorithms
}

/// The length of a USERAUTH_REQUEST.
pub(crate) fn request_len(user: &[u8], service: &[u8], method: &Method<'_>) -> u128
    ensures { result ≡ length (written_message (content.UserauthRequest user.now service.now (method_data method.now))) }
{
    two_len(1, user, service) + method_len(method)
}

/// The name of a method and its fields.
fn method_len(method: &Method<'_>) -> u128
    ensures len { result ≡ length (string (method_name (method_data method.now)) ++ method_fields (method_data method.now)) }
    ensures bounded { result < 2 ^ 68 }
{
    match method {
        Method::None => 8,
        Method::Password { password } => string_len(13, password),
        Method::PasswordChange { old, new } => two_len(13, old, new),
        Method::PublicKey {
            algorithm,
            key,
            signature,
        } => three_len(14, algorithm, key, signature),
        Method::PublicKeyQuery { algorithm, key } => two_len(14, algorithm, key),
        Method::Other(other) => string_len(0, other.name()) + other.fields().len() as u128,
    }
}

/// The length of an EXT_INFO, or some length above the limit where its own is.
#[tactic(auto, using(crate::proofs::LengthLemmas::too_long, crate::proofs::LengthLemmas::length_more, crate::proofs::LengthLemmas::length_all))]
pub(crate) fn ext_info_len(extensions: &[Extension<'_>]) -> u128
    ensures { IsCapped result (length (written_message (content.ExtInfo (pairs_of extensions.now)))) }
{
    let mut len = 5;
    for extension in extensions {
        if len > PAYLOAD_LIMIT as u128 {
            return len;
        }
        len += two_len(0, extension.name, extension.value);
    }
    len
}
