//! Parts of configs, by lines whose terms say what no line of a scenario can.

use crate::stop::Stop;
use crate::terms::{bytes_of, text_of};
use crate::texts::{number_of, wrong};
use crate::words::{Line, split_word};
use sshcore::{Attempt, ClientParts, Credential, HostKey, PeerReading, ServerParts, SideParts};
use sshlabsuites::{lab_client_parts, lab_server_parts};
use sshterms::Names;
use std::alloc::Global;

/// The parts of the lab's client, changed by lines.
pub(crate) fn client_by(
    alloc: Global,
    names: &Names,
    lines: &[Line<'_>],
) -> Result<Box<ClientParts>, Stop> {
    let mut parts = Box::new(alloc, lab_client_parts(alloc)?)?;
    set_client_by(alloc, names, lines, &mut parts)?;
    Ok(parts)
}

/// Changes a client's parts by lines.
fn set_client_by(
    alloc: Global,
    names: &Names,
    lines: &[Line<'_>],
    parts: &mut ClientParts,
) -> Result<(), Stop> {
    for line in lines {
        set_client(alloc, names, line, parts)?;
    }
    Ok(())
}

/// The parts of the lab's server, changed by lines.
pub(crate) fn server_by(
    alloc: Global,
    names: &Names,
    lines: &[Line<'_>],
) -> Result<Box<ServerParts>, Stop> {
    let mut parts = Box::new(alloc, lab_server_parts(alloc)?)?;
    set_server_by(alloc, names, lines, &mut parts)?;
    Ok(parts)
}

/// Changes a server's parts by lines.
fn set_server_by(
    alloc: Global,
    names: &Names,
    lines: &[Line<'_>],
    parts: &mut ServerParts,
) -> Result<(), Stop> {
    for line in lines {
        set_server(alloc, names, line, parts)?;
    }
    Ok(())
}

/// Changes a part of a client.
fn set_client(
    alloc: Global,
    names: &Names,
    line: &Line<'_>,
    parts: &mut ClientParts,
) -> Result<(), Stop> {
    let (word, rest) = line.head();
    match word {
        "hostkeys" => set_list(
            alloc,
            names,
            line,
            &mut parts.server_host_key_algorithms,
            rest,
        ),
        "try" => add_attempt(alloc, names, line, &mut parts.plan, rest),
        _ => set_side(alloc, names, line, &mut parts.side),
    }
}

/// Changes a part of a server.
fn set_server(
    alloc: Global,
    names: &Names,
    line: &Line<'_>,
    parts: &mut ServerParts,
) -> Result<(), Stop> {
    let (word, rest) = line.head();
    match word {
        "hostkeys" => set_host_keys(alloc, names, line, &mut parts.host_keys, rest),
        "services" => set_list(alloc, names, line, &mut parts.services, rest),
        "methods" => set_list(alloc, names, line, &mut parts.methods, rest),
        "required" => set_list(alloc, names, line, &mut parts.required, rest),
        "signatures" => set_list(alloc, names, line, &mut parts.signature_algorithms, rest),
        _ => set_side(alloc, names, line, &mut parts.side),
    }
}

/// Changes a part that both sides have.
fn set_side(
    alloc: Global,
    names: &Names,
    line: &Line<'_>,
    side: &mut SideParts,
) -> Result<(), Stop> {
    let (word, rest) = line.head();
    match word {
        "version" => {
            side.softwareversion = text_of(alloc, names, line, rest)?;
            Ok(())
        }
        "comments" => {
            side.comments = Some(text_of(alloc, names, line, rest)?);
            Ok(())
        }
        "ignored" => {
            side.ignored_limit = Some(number_of(alloc, line, rest)?);
            Ok(())
        }
        "reading" => {
            side.reading = reading_of(alloc, line, rest)?;
            Ok(())
        }
        _ => match list_in(side, word) {
            Some(list) => set_list(alloc, names, line, list, rest),
            None => wrong(alloc, line, "line", "a part of a config", word),
        },
    }
}

/// By which grammar the peer's version line is read.
fn reading_of(alloc: Global, line: &Line<'_>, word: &str) -> Result<PeerReading, Stop> {
    match word {
        "strict" => Ok(PeerReading::Strict),
        "deployed" => Ok(PeerReading::Deployed),
        _ => wrong(alloc, line, "line", "strict or deployed", word),
    }
}

/// A list that both sides have.
fn list_in<'a>(side: &'a mut SideParts, word: &str) -> Option<&'a mut Vec<String>> {
    match word {
        "kex" => Some(&mut side.kex_algorithms),
        "cipher_cs" => Some(&mut side.encryption_client_to_server),
        "cipher_sc" => Some(&mut side.encryption_server_to_client),
        "mac_cs" => Some(&mut side.mac_client_to_server),
        "mac_sc" => Some(&mut side.mac_server_to_client),
        _ => None,
    }
}

/// Makes it the list whose names the terms spell, one each; nothing spells the empty one.
fn set_list(
    alloc: Global,
    names: &Names,
    line: &Line<'_>,
    list: &mut Vec<String>,
    terms: &str,
) -> Result<(), Stop> {
    list.clear();
    if terms.is_empty() {
        return Ok(());
    }
    for term in terms.split(' ') {
        list.push(text_of(alloc, names, line, term)?)?;
    }
    Ok(())
}

/// Makes them host keys of the algorithms that the terms spell, each with the private key 00.
fn set_host_keys(
    alloc: Global,
    names: &Names,
    line: &Line<'_>,
    keys: &mut Vec<HostKey>,
    terms: &str,
) -> Result<(), Stop> {
    keys.clear();
    if terms.is_empty() {
        return Ok(());
    }
    for term in terms.split(' ') {
        keys.push(host_key_of(alloc, names, line, term)?)?;
    }
    Ok(())
}

/// A host key of this algorithm.
fn host_key_of(alloc: Global, names: &Names, line: &Line<'_>, term: &str) -> Result<HostKey, Stop> {
    let algorithm = text_of(alloc, names, line, term)?;
    let private_key = Vec::from_slice(alloc, &[0x00])?;
    Ok(HostKey {
        algorithm,
        private_key,
    })
}

/// Adds an attempt to the plan.
fn add_attempt(
    alloc: Global,
    names: &Names,
    line: &Line<'_>,
    plan: &mut Vec<Attempt>,
    terms: &str,
) -> Result<(), Stop> {
    plan.push(attempt_of(alloc, names, line, terms)?)?;
    Ok(())
}

/// `USER SERVICE none`, or `USER SERVICE publickey ALGORITHM KEY` and the same with `query`, each a term.
fn attempt_of(alloc: Global, names: &Names, line: &Line<'_>, terms: &str) -> Result<Attempt, Stop> {
    let (user, rest) = split_word(terms);
    let (service, rest) = split_word(rest);
    let user = text_of(alloc, names, line, user)?;
    let service = text_of(alloc, names, line, service)?;
    Ok(Attempt {
        user,
        service,
        credential: credential_of(alloc, names, line, rest)?,
    })
}

/// `none`, `publickey ALGORITHM KEY` or `query ALGORITHM KEY`.
fn credential_of(
    alloc: Global,
    names: &Names,
    line: &Line<'_>,
    terms: &str,
) -> Result<Credential, Stop> {
    let (method, rest) = split_word(terms);
    let (algorithm, key) = split_word(rest);
    match method {
        "none" => Ok(Credential::None),
        "publickey" | "query" => {
            let algorithm = text_of(alloc, names, line, algorithm)?;
            Ok(Credential::PublicKey {
                algorithm,
                private_key: bytes_of(alloc, names, line, key)?,
                ask: method == "query",
            })
        }
        _ => wrong(alloc, line, "line", "none, publickey or query", method),
    }
}
