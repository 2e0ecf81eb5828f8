//! What `show` prints of a recording.

use crate::recorded_stream::{ClearPackets, RecordedStream, StreamEnd};
use crate::recording::Recording;
use crate::report::write_hex;
use sshmsg::{
    SSH_MSG_DEBUG, SSH_MSG_DISCONNECT, SSH_MSG_EXT_INFO, SSH_MSG_IGNORE, SSH_MSG_KEXDH_INIT,
    SSH_MSG_KEXDH_REPLY, SSH_MSG_KEXINIT, SSH_MSG_NEWKEYS, SSH_MSG_SERVICE_ACCEPT,
    SSH_MSG_SERVICE_REQUEST, SSH_MSG_UNIMPLEMENTED, SSH_MSG_USERAUTH_BANNER,
    SSH_MSG_USERAUTH_FAILURE, SSH_MSG_USERAUTH_PK_OK, SSH_MSG_USERAUTH_REQUEST,
    SSH_MSG_USERAUTH_SUCCESS,
};
use sshwire::{Memory, OTHER_LINE_LIMIT};
use std::alloc::Global;
use std::fmt;

/// The streams of both sides.
#[derive(Drop)]
pub(crate) struct Listing<'a> {
    alloc: Global,
    pub(crate) client: RecordedStream<'a>,
    pub(crate) server: RecordedStream<'a>,
}

impl<'a> Listing<'a> {
    /// Reads what both sides of a recording sent. Answers `Memory` only where an allocation failed.
    pub(crate) fn of(alloc: Global, recording: &'a Recording) -> Result<Listing<'a>, Memory> {
        Ok(Listing {
            alloc,
            client: RecordedStream::read(alloc, &recording.client, 0)?,
            server: RecordedStream::read(alloc, &recording.server, OTHER_LINE_LIMIT)?,
        })
    }
}

impl fmt::Display for Listing<'_> {
    /// Writes a line for each line and each clear packet of the client, then of the server.
    fn fmt<W: fmt::Write>(&self, f: &mut fmt::Formatter<W>) -> fmt::Result {
        write_stream(self.alloc, f, "client", &self.client)?;
        write_stream(self.alloc, f, "server", &self.server)
    }
}

fn write_stream<W: fmt::Write>(
    alloc: Global,
    f: &mut fmt::Formatter<W>,
    side: &str,
    stream: &RecordedStream<'_>,
) -> fmt::Result {
    write_lines(alloc, f, side, &stream.lines)?;
    if let Some(version) = &stream.version {
        writeln!(f, "{side} version {version}")?;
    }
    write_packets(f, side, &stream.clear)?;
    match stream.end {
        StreamEnd::Sealed(count) => writeln!(f, "{side} sealed {count}"),
        StreamEnd::Partial(count) => writeln!(f, "{side} partial {count}"),
        StreamEnd::Refused(fault) => writeln!(f, "{side} refused {fault}"),
    }
}

fn write_lines<W: fmt::Write>(
    alloc: Global,
    f: &mut fmt::Formatter<W>,
    side: &str,
    lines: &[&[u8]],
) -> fmt::Result {
    for line in lines {
        write!(f, "{side} line ")?;
        write_hex_or_dash(alloc, f, line)?;
        f.write_str("\n")?;
    }
    Ok(())
}

/// Two digits in lower case for each byte, `-` for no bytes.
fn write_hex_or_dash<W: fmt::Write>(
    alloc: Global,
    f: &mut fmt::Formatter<W>,
    bytes: &[u8],
) -> fmt::Result {
    if bytes.is_empty() {
        return f.write_str("-");
    }
    write_hex(alloc, f, bytes)
}

fn write_packets<W: fmt::Write>(
    f: &mut fmt::Formatter<W>,
    side: &str,
    clear: &ClearPackets,
) -> fmt::Result {
    for (place, packet) in clear.packets.iter().enumerate() {
        let (number, len) = (packet.number, packet.payload_len);
        let name = message_name(number);
        writeln!(f, "{side} {place} {number} {name} {len}")?;
    }
    Ok(())
}

/// The name of a message by its number.
fn message_name(number: u8) -> &'static str {
    match number {
        SSH_MSG_DISCONNECT => "DISCONNECT",
        SSH_MSG_IGNORE => "IGNORE",
        SSH_MSG_UNIMPLEMENTED => "UNIMPLEMENTED",
        SSH_MSG_DEBUG => "DEBUG",
        SSH_MSG_SERVICE_REQUEST => "SERVICE_REQUEST",
        SSH_MSG_SERVICE_ACCEPT => "SERVICE_ACCEPT",
        SSH_MSG_EXT_INFO => "EXT_INFO",
        SSH_MSG_KEXINIT => "KEXINIT",
        SSH_MSG_NEWKEYS => "NEWKEYS",
        SSH_MSG_KEXDH_INIT => "KEXDH_INIT",
        SSH_MSG_KEXDH_REPLY => "KEXDH_REPLY",
        SSH_MSG_USERAUTH_REQUEST => "USERAUTH_REQUEST",
        SSH_MSG_USERAUTH_FAILURE => "USERAUTH_FAILURE",
        SSH_MSG_USERAUTH_SUCCESS => "USERAUTH_SUCCESS",
        SSH_MSG_USERAUTH_BANNER => "USERAUTH_BANNER",
        SSH_MSG_USERAUTH_PK_OK => "USERAUTH_PK_OK",
        _ => "UNKNOWN",
    }
}
