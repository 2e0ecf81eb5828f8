//! It reads what one side sent, as it was captured (lines, its version line, packets in clear), and prints its version and
//! the lists of its first KEXINIT. It has no suite: bytes are read as lines, as packets and as a message, each by one
//! layer alone.
//!
//! As the `src/main.rt` of a program `hello` this file needs one line more, and crates.txt another:
//!
//!     fn main(rt: HostRuntime) -> anyhow::Result<()> { print_kexinit(&rt, &std::fs::read(&rt, "/dev/stdin")?) }
//!
//!     hello: sshmsg sshpacket sshwire anyhow
#![tactic(auto)]

use anyhow::bail;
use sshmsg::{KexInit, Message, SSH_MSG_KEXINIT, read};
use sshpacket::{ClearReader, PacketStep};
use sshwire::{LineForm, NameList, OTHER_LINE_LIMIT, PeerLineReader, PeerStep, ReadBy};

/// Prints what the bytes begin with: a version line, and a KEXINIT.
pub(crate) fn print_kexinit(rt: &HostRuntime, bytes: &[u8]) -> anyhow::Result<()> {
    let packets = after_version(rt, bytes)?;
    let mut reader = ClearReader::new(rt.alloc());
    find_kexinit(rt, &mut reader, packets)
}

/// What stands after the version line, which is printed. It is read as deployed servers write it.
fn after_version<'a>(rt: &HostRuntime, bytes: &'a [u8]) -> anyhow::Result<&'a [u8]> {
    let form = LineForm::Deployed(ReadBy::Client);
    let mut lines = PeerLineReader::new(rt.alloc(), OTHER_LINE_LIMIT, form);
    match lines.feed(bytes)? {
        PeerStep::Done { version, used } => {
            println!(rt; "version {version}")?;
            Ok(bytes.get(used..).unwrap_or(&[]))
        }
        PeerStep::More => bail!("no version line"),
    }
}

/// Prints the first KEXINIT among packets in clear.
fn find_kexinit(rt: &HostRuntime, reader: &mut ClearReader, bytes: &[u8]) -> anyhow::Result<()> {
    let mut rest = bytes;
    for _ in 0..u64::MAX {
        match reader.next(rest)? {
            PacketStep::More => break,
            PacketStep::Payload { payload, used, .. } => {
                if payload.first().copied() == Some(SSH_MSG_KEXINIT) {
                    return tell(rt, payload);
                }
                rest = rest.get(used..).unwrap_or(&[]);
            }
        }
    }
    bail!("no KEXINIT")
}

/// Prints the KEXINIT that a payload spells.
fn tell(rt: &HostRuntime, payload: &[u8]) -> anyhow::Result<()> {
    match read(rt.alloc(), payload)? {
        Message::KexInit(kexinit) => tell_lists(rt, &kexinit),
        _ => bail!("another message"),
    }
}

/// Prints its lists by their names in RFC 4253 section 7.1; cs is from client to server, sc back.
fn tell_lists(rt: &HostRuntime, kexinit: &KexInit<'_>) -> anyhow::Result<()> {
    tell_list(rt, "kex", &kexinit.kex_algorithms)?;
    tell_list(rt, "hostkey", &kexinit.server_host_key_algorithms)?;
    tell_list(rt, "cipher_cs", &kexinit.encryption_client_to_server)?;
    tell_list(rt, "cipher_sc", &kexinit.encryption_server_to_client)?;
    tell_list(rt, "mac_cs", &kexinit.mac_client_to_server)?;
    tell_list(rt, "mac_sc", &kexinit.mac_server_to_client)?;
    tell_list(rt, "compression_cs", &kexinit.compression_client_to_server)?;
    tell_list(rt, "compression_sc", &kexinit.compression_server_to_client)?;
    tell_list(rt, "languages_cs", &kexinit.languages_client_to_server)?;
    tell_list(rt, "languages_sc", &kexinit.languages_server_to_client)
}

fn tell_list(rt: &HostRuntime, field: &str, list: &NameList) -> anyhow::Result<()> {
    print!(rt; "{field}")?;
    for name in list.names() {
        print!(rt; " {name}")?;
    }
    println!(rt)?;
    Ok(())
}
