//! It prints the packet in clear of a DISCONNECT, in digits. Its description is the first line of the input, its padding
//! the least, of zeros. It has no suite: the message and its packet are written, each by one layer alone.
//!
//! As the `src/main.rt` of a program `hello` this file needs one line more, and crates.txt another:
//!
//!     fn main(rt: HostRuntime) -> anyhow::Result<()> { print_packet(&rt, &std::io::read_to_string(rt.alloc(), rt.stdin())?) }
//!
//!     hello: sshmsg sshpacket sshwire anyhow hex
#![tactic(auto)]

use anyhow::{Context, ensure};
use sshmsg::{Message, SSH_DISCONNECT_PROTOCOL_ERROR, write};
use sshpacket::{padding_len, write_with_padding};
use sshwire::PAYLOAD_LIMIT;

/// Prints the packet of a DISCONNECT with this text's first line.
pub(crate) fn print_packet(rt: &HostRuntime, text: &str) -> anyhow::Result<()> {
    let description = text.lines().next().context("a line is the description")?;
    let payload = disconnect(rt, description)?;
    let packet = packet_of(rt, &payload)?;
    let digits = hex::encode(rt.alloc(), &packet)?;
    println!(rt; "{digits}")?;
    Ok(())
}

/// The payload of a DISCONNECT (RFC 4253 section 11.1).
fn disconnect(rt: &HostRuntime, description: &str) -> anyhow::Result<Vec<u8>> {
    let message = Message::Disconnect {
        reason: SSH_DISCONNECT_PROTOCOL_ERROR,
        description: description.as_bytes(),
        language: b"",
    };
    ensure!(message.fits(), "too long for a payload");
    let mut payload = Vec::new(rt.alloc());
    write(&message, &mut payload)?;
    Ok(payload)
}

/// Its packet in clear, with the least padding (RFC 4253 section 6).
fn packet_of(rt: &HostRuntime, payload: &[u8]) -> anyhow::Result<Vec<u8>> {
    ensure!(
        !payload.is_empty() && payload.len() <= PAYLOAD_LIMIT,
        "no payload"
    );
    let padding = vec![in rt.alloc(); 0; padding_len(8, payload.len()).into()]?;
    let mut packet = Vec::new(rt.alloc());
    write_with_padding(rt.alloc(), payload, &padding, &mut packet)?;
    Ok(packet)
}
