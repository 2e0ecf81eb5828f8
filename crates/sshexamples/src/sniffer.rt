//! It reads a recording (docs/SSHLAB.md) and prints what the two sides will choose by their first KEXINITs. It has no
//! endpoint: lines, packets and messages are read, and `choose` chooses.
//!
//! As the `src/main.rt` of a program `hello` this file needs one line more, and crates.txt another:
//!
//!     fn main(rt: HostRuntime) -> anyhow::Result<()> { print_choice(&rt, &std::io::read_to_string(rt.alloc(), rt.stdin())?) }
//!
//!     hello: sshlabsuites sshmsg sshneg sshpacket sshwire anyhow hex
#![tactic(auto)]

use anyhow::{Context, bail};
use sshlabsuites::KemSuite;
use sshmsg::{KexInit, Message, SSH_MSG_KEXINIT, read};
use sshneg::{Chosen, Side, choose, strict_of};
use sshpacket::{PacketReader, PacketStep};
use sshwire::{LineForm, NameList, OTHER_LINE_LIMIT, PeerLineReader, PeerStep, ReadBy};
use std::alloc::Global;

/// Two answers of a suite are asked for: what a method needs of the host key, and what a host key algorithm can do. In
/// this one of the lab each method needs one that signs, and each signs.
const SUITE: KemSuite = KemSuite;

/// Prints what the sides of a recording will choose.
pub(crate) fn print_choice(rt: &HostRuntime, text: &str) -> anyhow::Result<()> {
    let client = payload_of(rt.alloc(), text, Side::Client).context("the client's KEXINIT")?;
    let server = payload_of(rt.alloc(), text, Side::Server).context("the server's KEXINIT")?;
    tell(rt, &client, &server)
}

/// The payload of a side's first KEXINIT.
fn payload_of(alloc: Global, text: &str, side: Side) -> anyhow::Result<Vec<u8>> {
    let mark = match side {
        Side::Client => "c ",
        Side::Server => "s ",
    };
    let stream = stream_of(alloc, text, mark)?;
    let mut packets = PacketReader::new(alloc);
    find_kexinit(alloc, &mut packets, after_version(alloc, &stream, side)?)
}

/// What a side sent: the bytes of the lines that begin with its mark, one after the other.
fn stream_of(alloc: Global, text: &str, mark: &str) -> anyhow::Result<Vec<u8>> {
    let mut stream = Vec::new(alloc);
    for line in text.lines() {
        if let Some(digits) = line.strip_prefix(mark) {
            let piece = hex::decode(alloc, digits.as_bytes())?;
            stream.extend_from_slice(&piece)?;
        }
    }
    Ok(stream)
}

/// What stands after the version line of what this side sent, which is read as deployed peers write it. A server may send
/// lines before it.
fn after_version(alloc: Global, stream: &[u8], side: Side) -> anyhow::Result<&[u8]> {
    let (others, by) = match side {
        Side::Client => (0, ReadBy::Server),
        Side::Server => (OTHER_LINE_LIMIT, ReadBy::Client),
    };
    let mut lines = PeerLineReader::new(alloc, others, LineForm::Deployed(by));
    match lines.feed(stream)? {
        PeerStep::Done { used, .. } => Ok(stream.get(used..).unwrap_or(&[])),
        PeerStep::More => bail!("no version line"),
    }
}

/// The payload of the first KEXINIT among packets in clear.
fn find_kexinit(alloc: Global, reader: &mut PacketReader, bytes: &[u8]) -> anyhow::Result<Vec<u8>> {
    let mut rest = bytes;
    for _ in 0..u64::MAX {
        match reader.next(&SUITE, rest)? {
            PacketStep::More => break,
            PacketStep::Payload { payload, used, .. } => {
                if payload.first().copied() == Some(SSH_MSG_KEXINIT) {
                    return Ok(Vec::from_slice(alloc, payload)?);
                }
                rest = rest.get(used..).unwrap_or(&[]);
            }
        }
    }
    bail!("none came")
}

/// Tells what both payloads come to.
fn tell(rt: &HostRuntime, client: &[u8], server: &[u8]) -> anyhow::Result<()> {
    let client = kexinit_in(rt.alloc(), client)?;
    let server = kexinit_in(rt.alloc(), server)?;
    tell_choice(rt, &client, &server)
}

/// The KEXINIT that a payload spells.
fn kexinit_in(alloc: Global, payload: &[u8]) -> anyhow::Result<Box<KexInit<'_>>> {
    match read(alloc, payload)? {
        Message::KexInit(kexinit) => Ok(kexinit),
        _ => bail!("another message"),
    }
}

/// Tells what both choose, or the first field that has no choice, and whether both are strict.
fn tell_choice(rt: &HostRuntime, client: &KexInit<'_>, server: &KexInit<'_>) -> anyhow::Result<()> {
    match choose(client, server, &SUITE) {
        Ok(chosen) => tell_names(rt, client, &chosen)?,
        Err(field) => println!(rt; "nothing in common: {field}")?,
    }
    let is_willing = strict_of(true, Side::Client, server); // the server is
    let strict = strict_of(is_willing, Side::Server, client);
    println!(rt; "strict {}", if strict { "yes" } else { "no" })?;
    Ok(())
}

/// Tells the names, each by its place in the client's list; cs is from client to server, sc back.
fn tell_names(rt: &HostRuntime, client: &KexInit<'_>, chosen: &Chosen) -> anyhow::Result<()> {
    let host_key = chosen.host_key;
    tell_name(rt, "kex", &client.kex_algorithms, chosen.kex)?;
    tell_name(rt, "hostkey", &client.server_host_key_algorithms, host_key)?;
    let cs = chosen.encryption_client_to_server;
    let sc = chosen.encryption_server_to_client;
    tell_name(rt, "cipher_cs", &client.encryption_client_to_server, cs)?;
    tell_name(rt, "cipher_sc", &client.encryption_server_to_client, sc)?;
    let (cs, sc) = (chosen.mac_client_to_server, chosen.mac_server_to_client);
    tell_name(rt, "mac_cs", &client.mac_client_to_server, cs)?;
    tell_name(rt, "mac_sc", &client.mac_server_to_client, sc)
}

fn tell_name(rt: &HostRuntime, field: &str, list: &NameList, place: usize) -> anyhow::Result<()> {
    let name = list.name_at(place).unwrap_or("");
    println!(rt; "{field} {name}")?;
    Ok(())
}
