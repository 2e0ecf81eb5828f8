//! The packets of a recorded stream that can be read without keys.

ghost use Rattle.std.specs.Prelude.{◌≤◌, IfOk, IfSome, length};

use crate::recorded_stream::{ClearPacket, ClearPackets, Stop, StreamEnd, StreamFault};
use sshlabsuites::LabSuite;
use sshmsg::{MsgFault, SSH_MSG_KEXINIT, SSH_MSG_NEWKEYS, read};
use sshpacket::{PacketReader, PacketStep};
use sshwire::Memory;
use sshwire::owned::beside;
use std::alloc::Global;

impl ClearPackets {
    pub(crate) fn new(alloc: Global) -> ClearPackets {
        ClearPackets {
            packets: Vec::new(alloc),
            kexinit: None,
            alloc,
        }
    }

    /// The packets of a stream up to its first NEWKEYS, and what stands after them.
    pub(crate) fn of(alloc: Global, bytes: &[u8]) -> Result<(ClearPackets, StreamEnd), Memory> {
        let mut clear = ClearPackets::new(alloc);
        let end = clear.read(bytes);
        beside(clear, end)
    }

    /// Reads the packets of a stream up to its first NEWKEYS, and answers what stands after them.
    pub(crate) fn read(&mut self, bytes: &[u8]) -> Result<StreamEnd, Memory> {
        let mut reader = PacketReader::new(self.alloc);
        let end = self.read_packets(&mut reader, bytes);
        told(end)
    }

    fn read_packets(&mut self, reader: &mut PacketReader, bytes: &[u8]) -> Result<StreamEnd, Stop> {
        let mut rest = bytes;
        while let Some((number, used)) = self.read_packet(reader, rest)? {
            rest = &rest[used..];
            if number == SSH_MSG_NEWKEYS {
                return Ok(StreamEnd::Sealed(rest.len()));
            }
        }
        Ok(StreamEnd::Partial(rest.len()))
    }

    /// Reads the next packet. Answers the number of its message, and how many bytes it has; None where it
    /// isn't all there.
    fn read_packet(
        &mut self,
        reader: &mut PacketReader,
        bytes: &[u8],
    ) -> Result<Option<(u8, usize)>, Stop>
        ensures { IfOk result (λ found. IfSome found (λ packet. (1 ≤ packet.1) × (packet.1 ≤ length bytes.now))) }
    {
        match reader.next(&LabSuite, bytes)? {
            PacketStep::More => Ok(None),
            PacketStep::Payload { payload, used, .. } => {
                let number = number_of(self.alloc, payload)?;
                self.keep(number, payload)?;
                Ok(Some((number, used)))
            }
        }
    }

    /// Keeps what is told of a packet.
    fn keep(&mut self, number: u8, payload: &[u8]) -> Result<(), Memory> {
        if number == SSH_MSG_KEXINIT && self.kexinit.is_none() {
            self.kexinit = Some(Vec::from_slice(self.alloc, payload)?);
        }
        self.packets.push(ClearPacket {
            number,
            payload_len: payload.len(),
        })?;
        Ok(())
    }
}

/// What stands after packets, where they ended so.
fn told(end: Result<StreamEnd, Stop>) -> Result<StreamEnd, Memory> {
    match end {
        Ok(end) => Ok(end),
        Err(Stop::Refused(fault)) => Ok(StreamEnd::Refused(fault)),
        Err(Stop::Memory) => Err(Memory),
    }
}

/// The number of a payload's message, which may be one that isn't known here.
fn number_of(alloc: Global, payload: &[u8]) -> Result<u8, Stop> {
    match read(alloc, payload).err() {
        None => Ok(payload.first().copied().unwrap_or(0)),
        Some(MsgFault::Unrecognised(number)) => Ok(number),
        Some(MsgFault::Malformed(number)) => Err(Stop::Refused(StreamFault::Malformed(number))),
        Some(MsgFault::Memory) => Err(Stop::Memory),
    }
}
