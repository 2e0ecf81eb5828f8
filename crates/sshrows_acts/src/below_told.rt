//! What a message tells, as text: its number, and its fields.

use crate::below_texts::{put_digits, put_names, put_parts};
use crate::texts::yes_or_no;
use sshmsg::{Extension, KexInit, Message, Method};
use sshwire::{NameList, TextBuffer};
use std::alloc::{AllocError, Global};

/// The number of the message, and its fields in their order.
pub(crate) fn text_of_message(alloc: Global, message: &Message<'_>) -> Result<String, AllocError> {
    let mut text = TextBuffer::new(alloc);
    put_message(alloc, &mut text, message);
    text.finish()
}

/// Appends the same.
fn put_message(alloc: Global, text: &mut TextBuffer, message: &Message<'_>) {
    match message {
        Message::Disconnect {
            reason,
            description,
            language,
        } => {
            write!(text, "1 {reason}");
            put_parts(alloc, text, &[description, language]);
        }
        Message::Ignore { content } => put_with(alloc, text, "2", &[content]),
        Message::Unimplemented { sequence_number } => write!(text, "3 {sequence_number}"),
        Message::Debug {
            always_display,
            text: shown,
            language,
        } => {
            write!(text, "4 {}", yes_or_no(*always_display));
            put_parts(alloc, text, &[shown, language]);
        }
        Message::ServiceRequest { service } => put_with(alloc, text, "5", &[service]),
        Message::ServiceAccept { service } => put_with(alloc, text, "6", &[service]),
        Message::ExtInfo { extensions } => put_extensions(alloc, text, extensions),
        _ => put_exchange(alloc, text, message),
    }
}

/// Appends these words, and the bytes of each part.
fn put_with(alloc: Global, text: &mut TextBuffer, words: &str, parts: &[&[u8]]) {
    text.push_str(words);
    put_parts(alloc, text, parts);
}

/// Appends a message of the key exchange.
fn put_exchange(alloc: Global, text: &mut TextBuffer, message: &Message<'_>) {
    match message {
        Message::KexInit(kexinit) => put_kexinit(alloc, text, kexinit),
        Message::NewKeys => text.push_str("21"),
        Message::KexdhInit { e } => put_with(alloc, text, "30 mpint", &[e.body()]),
        Message::KexdhReply {
            host_key,
            f,
            signature,
        } => put_with(alloc, text, "31 mpint", &[host_key, f.body(), signature]),
        Message::KexEcdhInit { client_share } => {
            put_with(alloc, text, "30 octets", &[client_share]);
        }
        Message::KexEcdhReply {
            host_key,
            server_share,
            signature,
        } => put_with(
            alloc,
            text,
            "31 octets",
            &[host_key, server_share, signature],
        ),
        _ => put_authentication(alloc, text, message),
    }
}

/// Appends a message of authentication.
fn put_authentication(alloc: Global, text: &mut TextBuffer, message: &Message<'_>) {
    match message {
        Message::UserauthRequest {
            user,
            service,
            method,
        } => {
            put_with(alloc, text, "50", &[user.as_bytes(), service]);
            put_method(alloc, text, method);
        }
        Message::UserauthFailure {
            methods,
            partial_success,
        } => {
            text.push_str("51");
            put_names(text, methods);
            put_flag(text, *partial_success);
        }
        Message::UserauthSuccess => text.push_str("52"),
        Message::UserauthBanner {
            text: shown,
            language,
        } => put_with(alloc, text, "53", &[shown, language]),
        Message::UserauthPkOk { algorithm, key } => {
            put_with(alloc, text, "60", &[algorithm, key]);
        }
        _ => text.push_str("a message without a text"),
    }
}

/// Appends the method with its fields.
fn put_method(alloc: Global, text: &mut TextBuffer, method: &Method<'_>) {
    match method {
        Method::None => text.push_str(" none"),
        Method::Password { password } => put_with(alloc, text, " password", &[password]),
        Method::PasswordChange { old, new } => put_with(alloc, text, " change", &[old, new]),
        Method::PublicKey {
            algorithm,
            key,
            signature,
        } => put_with(alloc, text, " publickey", &[algorithm, key, signature]),
        Method::PublicKeyQuery { algorithm, key } => {
            put_with(alloc, text, " query", &[algorithm, key]);
        }
        Method::Other(other) => {
            put_with(alloc, text, " other", &[other.name(), other.fields()]);
        }
    }
}

/// Appends the name and the value of each extension.
fn put_extensions(alloc: Global, text: &mut TextBuffer, extensions: &[Extension<'_>]) {
    text.push_str("7");
    for extension in extensions {
        put_digits(alloc, text, extension.name);
        put_digits(alloc, text, extension.value);
    }
}

/// Appends the cookie, the ten lists and the flag.
fn put_kexinit(alloc: Global, text: &mut TextBuffer, kexinit: &KexInit<'_>) {
    put_with(alloc, text, "20", &[kexinit.cookie.as_slice()]);
    put_names(text, &kexinit.kex_algorithms);
    put_names(text, &kexinit.server_host_key_algorithms);
    put_names(text, &kexinit.encryption_client_to_server);
    put_names(text, &kexinit.encryption_server_to_client);
    put_names(text, &kexinit.mac_client_to_server);
    put_names(text, &kexinit.mac_server_to_client);
    put_names(text, &kexinit.compression_client_to_server);
    put_names(text, &kexinit.compression_server_to_client);
    put_names(text, &kexinit.languages_client_to_server);
    put_names(text, &kexinit.languages_server_to_client);
    put_flag(text, kexinit.first_kex_packet_follows);
}

/// Appends a blank, and `yes` or `no`.
fn put_flag(text: &mut TextBuffer, flag: bool) {
    write!(text, " {}", yes_or_no(flag));
}
