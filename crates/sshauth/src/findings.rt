//! What a probe tells of a server, as text.

use crate::clear_stream::Sent;
use crate::host_keys::is_rsa_key;
use crate::refused::{LISTS, put_refused};
use crate::report::Ended;
use base64::engine::general_purpose::{STANDARD, STANDARD_NO_PAD};
use sha2::{Digest, Sha256};
use sshcore::End;
use sshmsg::{KexInit, Message, MsgFault, read};
use sshneg::{Chosen, Side, choose, strict_of};
use sshprogram::ProgramFault;
use sshsuite::DeployedSuite;
use sshwire::{NameList, TextBuffer};
use std::alloc::{AllocError, Global};

/// What a probe has found.
#[derive(Clone, Copy)]
pub(crate) struct Findings<'a> {
    /// The name by which the server goes.
    pub(crate) host: &'a str,
    /// Whether the probe was willing to be strict.
    pub(crate) strict: bool,
    pub(crate) ours: &'a Sent,
    pub(crate) theirs: &'a Sent,
    /// The server's public host key, whose signature was verified.
    pub(crate) host_key: &'a Option<Vec<u8>>,
    /// What the server has told people since the last call, a line for each.
    pub(crate) notices: &'a str,
}

/// What was told of a server before.
#[derive(Clone, Copy)]
pub(crate) struct Told {
    version: bool,
    kexinit: bool,
    refused: bool,
    host_key: bool,
}

impl Told {
    /// Nothing yet.
    pub(crate) fn new() -> Told {
        Told {
            version: false,
            kexinit: false,
            refused: false,
            host_key: false,
        }
    }
}

/// The lines of the report that are new: one `HOST KIND KEY`, of `ssh-ed25519` or `ssh-rsa`, and lines `# WORD VALUE` of all else, so
/// that the report is a file of host keys too.
pub(crate) fn lines_of(
    alloc: Global,
    findings: &Findings<'_>,
    told: &mut Told,
) -> Result<String, ProgramFault> {
    let mut text = TextBuffer::new(alloc);
    put_notices(&mut text, findings.notices);
    if let Some(version) = &findings.theirs.version
        && !told.version
    {
        told.version = true;
        writeln!(text, "# version {version}");
    }
    if let Some(payload) = &findings.theirs.kexinit
        && !told.kexinit
    {
        told.kexinit = true;
        put_kexinit(alloc, &mut text, payload, findings)?;
    }
    if let Some(refused) = &findings.theirs.refused
        && !told.refused
    {
        told.refused = true;
        put_refused(&mut text, refused);
    }
    if let Some(key) = findings.host_key
        && !told.host_key
    {
        told.host_key = true;
        put_key(alloc, &mut text, findings.host, key);
    }
    Ok(text.finish()?)
}

/// The last line: how the endpoint ended, and where this side has disconnected, after how many bytes.
pub(crate) fn end_line(alloc: Global, end: &End, came: usize) -> Result<String, AllocError> {
    let mut text = TextBuffer::new(alloc);
    write!(text, "# end {}", Ended(end));
    if matches!(end, End::Disconnected(_)) {
        write!(text, ", after {came} bytes");
    }
    text.push('\n');
    text.finish()
}

/// Puts the lines of what the server has told people.
fn put_notices(text: &mut TextBuffer, notices: &str) {
    for line in notices.lines() {
        writeln!(text, "# {line}");
    }
}

/// Puts what is told of the server's KEXINIT: its lists, and what these come to with ours.
fn put_kexinit(
    alloc: Global,
    text: &mut TextBuffer,
    payload: &[u8],
    findings: &Findings<'_>,
) -> Result<(), ProgramFault> {
    let Some(theirs) = kexinit_in(alloc, payload)? else {
        return Ok(());
    };
    put_lists(text, &theirs);
    if let Some(payload) = &findings.ours.kexinit
        && let Some(ours) = kexinit_in(alloc, payload)?
    {
        put_choice(text, &ours, &theirs);
    }
    let strict = strict_of(findings.strict, Side::Client, &theirs);
    writeln!(text, "# strict {}", yes_or_no(strict));
    let post_quantum = theirs.kex_algorithms.names().any(is_post_quantum);
    writeln!(text, "# post-quantum {}", yes_or_no(post_quantum));
    Ok(())
}

/// The word for a flag.
fn yes_or_no(flag: bool) -> &'static str {
    if flag { "yes" } else { "no" }
}

/// Whether a method of key exchange holds against a quantum computer too: it has ML-KEM (draft-ietf-sshm-mlkem-hybrid-kex), or Streamlined
/// NTRU Prime as OpenSSH has it.
fn is_post_quantum(name: &str) -> bool {
    name.starts_with("mlkem") || name.starts_with("sntrup761x25519-sha512")
}

/// The KEXINIT that a payload spells, if it is one.
fn kexinit_in<'a>(
    alloc: Global,
    payload: &'a [u8],
) -> Result<Option<Box<KexInit<'a>>>, ProgramFault> {
    match read(alloc, payload) {
        Ok(Message::KexInit(kexinit)) => Ok(Some(kexinit)),
        Err(MsgFault::Memory) => Err(ProgramFault::Memory),
        _ => Ok(None),
    }
}

/// Puts the lists, those of languages left out, by the names that they have in RFC 4253 section 7.1.
fn put_lists(text: &mut TextBuffer, kexinit: &KexInit<'_>) {
    let lists = [
        &kexinit.kex_algorithms,
        &kexinit.server_host_key_algorithms,
        &kexinit.encryption_client_to_server,
        &kexinit.encryption_server_to_client,
        &kexinit.mac_client_to_server,
        &kexinit.mac_server_to_client,
        &kexinit.compression_client_to_server,
        &kexinit.compression_server_to_client,
    ];
    for (word, list) in LISTS.iter().zip(lists.iter()) {
        put_list(text, word, list);
    }
}

/// Puts a line with a list, its names with commas between.
fn put_list(text: &mut TextBuffer, word: &str, list: &NameList) {
    write!(text, "# {word} ");
    for (place, name) in list.names().enumerate() {
        if place > 0 {
            text.push(',');
        }
        text.push_str(name);
    }
    text.push('\n');
}

/// Puts the algorithms that both lists come to, or the first field that has none.
fn put_choice(text: &mut TextBuffer, ours: &KexInit<'_>, theirs: &KexInit<'_>) {
    match choose(ours, theirs, &DeployedSuite) {
        Ok(chosen) => put_chosen(text, ours, &chosen),
        Err(field) => writeln!(text, "# no_common {field}"),
    }
}

/// Puts the algorithms that are chosen.
fn put_chosen(text: &mut TextBuffer, ours: &KexInit<'_>, chosen: &Chosen) {
    put_name(text, "kex", &ours.kex_algorithms, chosen.kex);
    put_name(
        text,
        "hostkey",
        &ours.server_host_key_algorithms,
        chosen.host_key,
    );
    put_name(
        text,
        "cipher_cs",
        &ours.encryption_client_to_server,
        chosen.encryption_client_to_server,
    );
    put_name(
        text,
        "cipher_sc",
        &ours.encryption_server_to_client,
        chosen.encryption_server_to_client,
    );
    put_name(
        text,
        "mac_cs",
        &ours.mac_client_to_server,
        chosen.mac_client_to_server,
    );
    put_name(
        text,
        "mac_sc",
        &ours.mac_server_to_client,
        chosen.mac_server_to_client,
    );
}

/// Puts the name at a place of a list as chosen.
fn put_name(text: &mut TextBuffer, field: &str, list: &NameList, place: usize) {
    let name = list.name_at(place).unwrap_or("");
    writeln!(text, "# chosen {field} {name}");
}

/// Puts the host key as `ssh-keyscan` does, and its fingerprint as `ssh-keygen -l` does.
fn put_key(alloc: Global, text: &mut TextBuffer, host: &str, key: &[u8]) {
    let kind = if is_rsa_key(key) {
        "ssh-rsa"
    } else {
        "ssh-ed25519"
    };
    write!(text, "{host} {kind} ");
    text.push_made(STANDARD.encode(alloc, key));
    text.push_str("\n# fingerprint SHA256:");
    text.push_made(STANDARD_NO_PAD.encode(alloc, &Sha256::digest(key)));
    text.push('\n');
}
