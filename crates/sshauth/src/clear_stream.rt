//! What one side of a connection sends in clear.

use crate::refused::Refused;
use sshmsg::{Message, MsgFault, SSH_MSG_KEXINIT, read_exchange};
use sshpacket::{PacketFault, PacketReader, PacketStep};
use sshprogram::ProgramFault;
use sshsuite::DeployedSuite;
use sshwire::{LineForm, PeerLineReader, PeerStep, PeerVersion, ReadBy, ShareForm, WireFault};
use std::alloc::{AllocError, Global};

/// Reads what one side sends, from its first byte to its NEWKEYS. Of what came it holds what is told of it, and an
/// unfinished line or packet.
#[derive(Drop)]
pub(crate) struct ClearStream {
    lines: PeerLineReader,
    packets: PacketReader,
    pub(crate) sent: Sent,
}

/// What a side has sent in clear.
#[derive(Drop)]
pub(crate) struct Sent {
    /// Its version line.
    pub(crate) version: Option<PeerVersion>,
    /// The payload of its first KEXINIT.
    pub(crate) kexinit: Option<Vec<u8>>,
    /// The line or the KEXINIT that is refused. What stands after it isn't read.
    pub(crate) refused: Option<Refused>,
    /// The public host key in its last reply of a key exchange.
    pub(crate) host_key: Option<Vec<u8>>,
    /// Whether NEWKEYS came. What stands after it is sealed.
    pub(crate) new_keys: bool,
}

impl ClearStream {
    /// The stream of a side before whose version line so many other lines may stand. The version line is read as
    /// deployed servers write it.
    pub(crate) fn new(alloc: Global, other_lines: u32) -> ClearStream {
        ClearStream {
            lines: PeerLineReader::new(alloc, other_lines, LineForm::Deployed(ReadBy::Client)),
            packets: PacketReader::new(alloc),
            sent: Sent {
                version: None,
                kexinit: None,
                refused: None,
                host_key: None,
                new_keys: false,
            },
        }
    }

    /// Reads all of a piece.
    pub(crate) fn receive_all(&mut self, alloc: Global, piece: &[u8]) -> Result<(), ProgramFault> {
        let mut rest = piece;
        for _ in 0..u64::MAX {
            if rest.is_empty() {
                break;
            }
            let used = self.receive(alloc, rest)?;
            rest = rest.get(used..).unwrap_or(&[]);
        }
        Ok(())
    }

    /// Reads of a piece the lines up to the version line, or one packet, and answers how many bytes these are: all
    /// where more is to come, after NEWKEYS, and from a refusal on.
    pub(crate) fn receive(&mut self, alloc: Global, piece: &[u8]) -> Result<usize, ProgramFault> {
        if self.sent.new_keys || self.sent.refused.is_some() {
            return Ok(piece.len());
        }
        if !self.lines.is_done() {
            let begun = Vec::from_slice(alloc, self.lines.unfinished())?;
            return self.receive_lines(begun, piece);
        }
        match self.packets.next(&DeployedSuite, piece) {
            Ok(PacketStep::Payload { payload, used, .. }) => {
                self.sent.keep(alloc, payload)?;
                Ok(used)
            }
            Ok(PacketStep::More) => Ok(piece.len()),
            Err(PacketFault::Memory) => Err(ProgramFault::Memory),
            Err(_) => Ok(piece.len()),
        }
    }

    /// Reads lines, of which the first has begun with these bytes.
    fn receive_lines(&mut self, begun: Vec<u8>, piece: &[u8]) -> Result<usize, ProgramFault> {
        if self.lines.is_done() {
            return Ok(piece.len());
        }
        match self.lines.feed(piece) {
            Ok(PeerStep::Done { version, used }) => {
                self.sent.version = Some(version);
                Ok(used)
            }
            Ok(PeerStep::More) => Ok(piece.len()),
            Err(WireFault::Memory) => Err(ProgramFault::Memory),
            Err(fault) => {
                self.keep_line(begun, piece, fault)?;
                Ok(piece.len())
            }
        }
    }

    /// Keeps the line that is refused: the last of what was taken of the piece.
    fn keep_line(
        &mut self,
        begun: Vec<u8>,
        piece: &[u8],
        fault: WireFault,
    ) -> Result<(), ProgramFault> {
        let taken = piece.get(..self.lines.taken()).unwrap_or(piece);
        let line = last_line(begun, taken)?;
        self.sent.refused = Some(Refused::Line { fault, line });
        Ok(())
    }
}

/// The last line of a line that has begun and of the bytes after it, without the LF at their end.
fn last_line(begun: Vec<u8>, taken: &[u8]) -> Result<Vec<u8>, AllocError> {
    let mut line = begun;
    let lines = taken.strip_suffix(b"\n").unwrap_or(taken);
    for (place, part) in lines.split(|byte| *byte == b'\n').enumerate() {
        if place > 0 {
            line.clear();
        }
        line.extend_from_slice(part)?;
    }
    Ok(line)
}

impl Sent {
    /// Keeps what is told of a payload. One that can't be read is for the endpoint to refuse; of these a KEXINIT is kept.
    fn keep(&mut self, alloc: Global, payload: &[u8]) -> Result<(), ProgramFault> {
        let read = read_exchange(alloc, payload, ShareForm::OctetString);
        let kept = self.keep_read(alloc, payload, &read);
        drop(read);
        kept
    }

    /// The same of a payload that was read so.
    fn keep_read(
        &mut self,
        alloc: Global,
        payload: &[u8],
        read: &Result<Message<'_>, MsgFault>,
    ) -> Result<(), ProgramFault> {
        match read {
            Ok(Message::KexInit(_)) => {
                if self.kexinit.is_none() {
                    self.kexinit = Some(Vec::from_slice(alloc, payload)?);
                }
            }
            Ok(Message::KexEcdhReply { host_key, .. }) => {
                self.host_key = Some(Vec::from_slice(alloc, host_key)?);
            }
            Ok(Message::NewKeys) => self.new_keys = true,
            Err(MsgFault::Malformed(SSH_MSG_KEXINIT)) => {
                self.refused = Some(Refused::KexInit(Vec::from_slice(alloc, payload)?));
            }
            Err(MsgFault::Memory) => return Err(ProgramFault::Memory),
            _ => {}
        }
        Ok(())
    }
}
