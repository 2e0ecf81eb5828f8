//! Rows of what is hashed, what is signed, and keys.

ghost use Rattle.std.specs.Prelude.{◌<◌, ◌^◌, length};

use crate::below_choices::role_of;
use crate::below_texts::text_with;
use crate::stop::Stop;
use crate::terms::bytes_of;
use crate::texts::{same_bytes, same_text, wrong};
use crate::words::{Line, split_word};
use sshlabsuites::LabSuite;
use sshneg::{Exchange, KeyMaterial, Side, exchange_input, keys_of, signed_request};
use sshterms::Names;
use sshwire::as_name;
use std::alloc::Global;

/// Bytes that terms have named by numbers.
type Parts = Vec<Vec<u8>>;

/// Judges derivations by lines: `part TERMS` names the next part, and the other words take all that were
/// named since the last of them.
pub(crate) fn judge_derivations(
    alloc: Global,
    names: &Names,
    lines: &[Line<'_>],
) -> Result<(), Stop> {
    let mut parts = Vec::new(alloc);
    judge_all(alloc, names, lines, &mut parts)
}

/// Names and judges, line by line.
fn judge_all(
    alloc: Global,
    names: &Names,
    lines: &[Line<'_>],
    parts: &mut Parts,
) -> Result<(), Stop> {
    for line in lines {
        let (word, rest) = line.head();
        if word == "part" {
            add_part(alloc, names, line, parts, rest)?;
        } else {
            judge(alloc, names, line, parts, word, rest)?;
            parts.clear();
        }
    }
    Ok(())
}

/// Names the next part.
fn add_part(
    alloc: Global,
    names: &Names,
    line: &Line<'_>,
    parts: &mut Parts,
    terms: &str,
) -> Result<(), Stop> {
    let bytes = bytes_of(alloc, names, line, terms)?;
    if bytes.len() > 1000000 {
        return wrong(alloc, line, "term", "bytes", "too many bytes");
    }
    parts.push(bytes)?;
    Ok(())
}

/// The part of this number, from 0, or no bytes.
fn part(parts: &Parts, number: usize) -> &[u8]
    ensures { length result.now < 2 ^ 20 }
{
    match parts.get(number) {
        Some(part) if part.len() < 1048576 => part,
        _ => &[],
    }
}

/// `exchange TERMS`, `signed TERMS` or `keys ROLE CIPHER MAC IV ENC MACKEY`.
fn judge(
    alloc: Global,
    names: &Names,
    line: &Line<'_>,
    parts: &Parts,
    word: &str,
    rest: &str,
) -> Result<(), Stop> {
    match word {
        "exchange" => {
            let found = exchange_of(alloc, parts)?;
            judge_bytes(alloc, names, line, "exchange", rest, &found)
        }
        "signed" => {
            let found = signed_of(alloc, line, parts)?;
            judge_bytes(alloc, names, line, "signed", rest, &found)
        }
        "keys" => judge_keys(alloc, line, parts, rest),
        _ => wrong(alloc, line, "line", "a word of derivations", word),
    }
}

/// The terms have to be these bytes.
fn judge_bytes(
    alloc: Global,
    names: &Names,
    line: &Line<'_>,
    what: &'static str,
    terms: &str,
    found: &[u8],
) -> Result<(), Stop> {
    let wanted = bytes_of(alloc, names, line, terms)?;
    same_bytes(alloc, line, what, &wanted, found)
}

/// What is hashed of eight parts.
fn exchange_of(alloc: Global, parts: &Parts) -> Result<Vec<u8>, Stop> {
    let exchange = Exchange {
        client_version: part(parts, 0),
        server_version: part(parts, 1),
        client_kexinit: part(parts, 2),
        server_kexinit: part(parts, 3),
        host_key: part(parts, 4),
        client_share: part(parts, 5),
        server_share: part(parts, 6),
        shared: part(parts, 7),
    };
    Ok(exchange_input(alloc, &exchange)?)
}

/// What is signed of five parts: session, user, service, algorithm and key.
fn signed_of(alloc: Global, line: &Line<'_>, parts: &Parts) -> Result<Vec<u8>, Stop> {
    let user = std::str::from_utf8(part(parts, 1));
    let algorithm = as_name(part(parts, 3));
    match (user, algorithm) {
        (Ok(user), Some(algorithm)) => Ok(signed_request(
            alloc,
            part(parts, 0),
            user,
            part(parts, 2),
            algorithm,
            part(parts, 4),
        )?),
        _ => wrong(alloc, line, "signed", "a user and a name", "none"),
    }
}

/// The keys of four parts (method, shared secret, hash and session) for a sender, a cipher and a MAC.
fn judge_keys(alloc: Global, line: &Line<'_>, parts: &Parts, words: &str) -> Result<(), Stop> {
    let (role, words) = split_word(words);
    let (cipher, words) = split_word(words);
    let (mac, _) = split_word(words);
    let sender = role_of(alloc, line, role)?;
    let found = text_of_keys(alloc, line, parts, sender, cipher, mac)?;
    same_text(alloc, line, "keys", words, &found)
}

/// The MAC, and the keys in digits.
fn text_of_keys(
    alloc: Global,
    line: &Line<'_>,
    parts: &Parts,
    sender: Side,
    cipher: &str,
    mac: &str,
) -> Result<String, Stop> {
    let kex = as_name(part(parts, 0));
    let (Some(kex), Some(cipher), Some(mac)) = (
        kex,
        as_name(cipher.as_bytes()),
        as_name(mac.as_bytes()),
    ) else {
        return wrong(alloc, line, "keys", "three names", "none");
    };
    let material = KeyMaterial {
        kex,
        shared: part(parts, 1),
        hash: part(parts, 2),
        session: part(parts, 3),
    };
    let keys = keys_of(alloc, &LabSuite, &material, sender, cipher, mac)?;
    Ok(text_with(alloc, mac, &[keys.iv(), keys.enc(), keys.mac_key()])?)
}
