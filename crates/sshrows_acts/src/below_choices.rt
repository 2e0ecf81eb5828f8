//! Rows of choices, guesses and strictness.

use crate::stop::Stop;
use crate::terms::bytes_of;
use crate::texts::{flag_of, same_text, wrong, yes_or_no};
use crate::words::{Line, split_word};
use sshlabsuites::LabSuite;
use sshmsg::{KexInit, Message, MsgFault, read};
use sshneg::{Chosen, Side, choose, guess_right, strict_of};
use sshterms::Names;
use std::alloc::{AllocError, Global};

/// Judges what is chosen over two payloads, the client's first.
pub(crate) fn judge_choice(
    alloc: Global,
    names: &Names,
    line: &Line<'_>,
    terms: &str,
    lines: &[Line<'_>],
) -> Result<(), Stop> {
    let (client, server) = split_word(terms);
    let client = bytes_of(alloc, names, line, client)?;
    let server = bytes_of(alloc, names, line, server)?;
    judge_payloads(alloc, line, &client, &server, lines)
}

/// Judges what is chosen over these payloads.
fn judge_payloads(
    alloc: Global,
    line: &Line<'_>,
    client: &[u8],
    server: &[u8],
    lines: &[Line<'_>],
) -> Result<(), Stop> {
    let client = kexinit_of(alloc, line, client)?;
    let server = kexinit_of(alloc, line, server)?;
    judge_all(alloc, lines, &client, &server)
}

/// Judges what is chosen over these messages.
fn judge_all(
    alloc: Global,
    lines: &[Line<'_>],
    client: &KexInit<'_>,
    server: &KexInit<'_>,
) -> Result<(), Stop> {
    for line in lines {
        judge(alloc, line, client, server)?;
    }
    Ok(())
}

/// The KEXINIT that the payload spells.
fn kexinit_of<'a>(
    alloc: Global,
    line: &Line<'_>,
    payload: &'a [u8],
) -> Result<Box<KexInit<'a>>, Stop> {
    match read(alloc, payload) {
        Ok(Message::KexInit(kexinit)) => Ok(kexinit),
        Err(MsgFault::Memory) => Err(Stop::Refused),
        _ => wrong(alloc, line, "choose", "a KEXINIT", "none"),
    }
}

/// Judges one line: `chosen POSITIONS`, `none FIELD`, `guess YN`, or `strict ROLE YN YN`.
fn judge(
    alloc: Global,
    line: &Line<'_>,
    client: &KexInit<'_>,
    server: &KexInit<'_>,
) -> Result<(), Stop> {
    let (word, rest) = line.head();
    match word {
        "chosen" | "none" => {
            let found = text_of_choice(alloc, client, server)?;
            same_text(alloc, line, "chosen", line.text, &found)
        }
        "guess" => {
            let found = yes_or_no(guess_right(client, server));
            same_text(alloc, line, "guess", rest, found)
        }
        "strict" => judge_strict(alloc, line, client, server, rest),
        _ => wrong(alloc, line, "line", "a word of a choice", word),
    }
}

/// `ROLE YN YN`: whether a side of this role that is willing, or not, is strict with its peer.
fn judge_strict(
    alloc: Global,
    line: &Line<'_>,
    client: &KexInit<'_>,
    server: &KexInit<'_>,
    rest: &str,
) -> Result<(), Stop> {
    let (role, rest) = split_word(rest);
    let (willing, wanted) = split_word(rest);
    let willing = flag_of(alloc, line, willing)?;
    let strict = match role_of(alloc, line, role)? {
        Side::Client => strict_of(willing, Side::Client, server),
        Side::Server => strict_of(willing, Side::Server, client),
    };
    same_text(alloc, line, "strict", wanted, yes_or_no(strict))
}

/// The role that the word names.
pub(crate) fn role_of(alloc: Global, line: &Line<'_>, word: &str) -> Result<Side, Stop> {
    match word {
        "client" => Ok(Side::Client),
        "server" => Ok(Side::Server),
        _ => wrong(alloc, line, "role", "client or server", word),
    }
}

/// What is chosen, or the first field without a choice.
fn text_of_choice(
    alloc: Global,
    client: &KexInit<'_>,
    server: &KexInit<'_>,
) -> Result<String, AllocError> {
    match choose(client, server, &LabSuite) {
        Ok(chosen) => text_of_chosen(alloc, &chosen),
        Err(field) => format!(in alloc; "none {field}"),
    }
}

/// The positions, from 0: methods, host key algorithms, ciphers, MACs and compressions, to the server first.
fn text_of_chosen(alloc: Global, chosen: &Chosen) -> Result<String, AllocError> {
    let mut text = String::from_str(alloc, "chosen")?;
    for position in [
        chosen.kex,
        chosen.host_key,
        chosen.encryption_client_to_server,
        chosen.encryption_server_to_client,
        chosen.mac_client_to_server,
        chosen.mac_server_to_client,
        chosen.compression_client_to_server,
        chosen.compression_server_to_client,
    ] {
        put_number(alloc, &mut text, position)?;
    }
    Ok(text)
}

/// Appends a blank and the number.
fn put_number(alloc: Global, text: &mut String, number: usize) -> Result<(), AllocError> {
    let digits = format!(in alloc; " {number}")?;
    text.push_str(&digits)
}
