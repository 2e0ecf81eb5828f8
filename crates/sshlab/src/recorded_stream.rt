//! What a recorded stream spells, as far as it can be read without keys.

use sshmsg::read;
use sshpacket::PacketFault;
use sshwire::owned::beside;
use sshwire::{LineReader, LineStep, Memory, VersionLine, WireFault};
use std::alloc::Global;
use std::fmt;

/// What one side sent, up to its first NEWKEYS.
#[derive(Drop)]
pub(crate) struct RecordedStream<'a> {
    /// The lines before the version line, without their LF.
    pub(crate) lines: Vec<&'a [u8]>,
    /// The version line, if it came.
    pub(crate) version: Option<VersionLine>,
    /// The clear packets after it.
    pub(crate) clear: ClearPackets,
    /// What stands after all of these.
    pub(crate) end: StreamEnd,
}

/// The clear packets of a stream that could be read, in their order.
#[derive(Drop)]
pub(crate) struct ClearPackets {
    pub(crate) packets: Vec<ClearPacket>,
    /// The payload of the first KEXINIT among them.
    pub(crate) kexinit: Option<Vec<u8>>,
    pub(crate) alloc: Global,
}

/// A clear packet.
#[derive(Clone, Copy, Debug, PartialEq, Eq)]
pub(crate) struct ClearPacket {
    /// The number of its message.
    pub(crate) number: u8,
    /// How many bytes its payload has.
    pub(crate) payload_len: usize,
}

/// What stands after the lines and packets that could be read.
#[derive(Clone, Copy, Debug, PartialEq, Eq)]
pub(crate) enum StreamEnd {
    /// NEWKEYS was the last packet, and so many bytes stand after it.
    Sealed(usize),
    /// So many bytes of a line or packet that isn't all there.
    Partial(usize),
    /// Bytes that nothing can be read from.
    Refused(StreamFault),
}

/// Why bytes of a stream are refused.
#[derive(Clone, Copy, Debug, PartialEq, Eq)]
pub(crate) enum StreamFault {
    /// They are no version line, or lines before it that aren't taken.
    Line(WireFault),
    /// They are no packet.
    Packet(PacketFault),
    /// Their packet's message has this number, and its payload doesn't spell it.
    Malformed(u8),
}

impl fmt::Display for StreamFault {
    /// Writes the code of the fault; for a malformed message its number follows.
    fn fmt<W: fmt::Write>(&self, f: &mut fmt::Formatter<W>) -> fmt::Result {
        match self {
            StreamFault::Line(fault) => f.write_str(line_code(*fault)),
            StreamFault::Packet(fault) => f.write_str(packet_code(*fault)),
            StreamFault::Malformed(number) => write!(f, "M2 {number}"),
        }
    }
}

fn line_code(fault: WireFault) -> &'static str {
    match fault {
        WireFault::Short => "V1",
        WireFault::Name => "V2",
        WireFault::NotCanonical => "V3",
        WireFault::Line => "V4",
        WireFault::TooLong => "V5",
        WireFault::TooManyLines => "V6",
        WireFault::Memory => "V7",
    }
}

fn packet_code(fault: PacketFault) -> &'static str {
    match fault {
        PacketFault::Length => "P1",
        PacketFault::Padding => "P2",
        PacketFault::Empty => "P3",
        PacketFault::Mac => "P4",
        PacketFault::Memory => "P5",
    }
}

/// Why a stream isn't read on.
pub(crate) enum Stop {
    /// Bytes are refused.
    Refused(StreamFault),
    /// An allocation failed.
    Memory,
}

impl From<Memory> for Stop {
    fn from(_e: Memory) -> Stop {
        Stop::Memory
    }
}

impl From<PacketFault> for Stop {
    fn from(fault: PacketFault) -> Stop {
        match fault {
            PacketFault::Memory => Stop::Memory,
            _ => Stop::Refused(StreamFault::Packet(fault)),
        }
    }
}

impl<'a> RecordedStream<'a> {
    /// Reads what a side sent, of whose lines so many may stand before the version line. Answers `Memory`
    /// only where an allocation failed.
    pub(crate) fn read(
        alloc: Global,
        bytes: &'a [u8],
        others: u32,
    ) -> Result<RecordedStream<'a>, Memory> {
        let mut reader = LineReader::new(alloc, others);
        let step = reader.feed(bytes);
        let (judged, after) = bytes.split_at(reader.taken());
        RecordedStream::of_step(alloc, step, judged, after, reader.buffered())
    }

    /// What stands in a stream whose lines ended so. Of its bytes some were judged as lines, and so many of these
    /// are of a line that isn't all there; others stand after them.
    fn of_step(
        alloc: Global,
        step: Result<LineStep, WireFault>,
        judged: &'a [u8],
        after: &[u8],
        unfinished: usize,
    ) -> Result<RecordedStream<'a>, Memory> {
        match step {
            Ok(LineStep::Done { version, .. }) => {
                RecordedStream::of_version(alloc, version, judged, after)
            }
            Ok(LineStep::More) => {
                let end = StreamEnd::Partial(unfinished);
                RecordedStream::of_lines(alloc, whole_lines(alloc, judged), end)
            }
            Err(WireFault::Memory) => Err(Memory),
            Err(fault) => {
                let end = StreamEnd::Refused(StreamFault::Line(fault));
                RecordedStream::of_lines(alloc, lines_before_last(alloc, judged), end)
            }
        }
    }

    /// A stream with a version line, which ends the judged bytes.
    fn of_version(
        alloc: Global,
        version: VersionLine,
        judged: &'a [u8],
        after: &[u8],
    ) -> Result<RecordedStream<'a>, Memory> {
        let lines = lines_before_last(alloc, judged);
        let head = beside(version, lines)?;
        let packets = ClearPackets::of(alloc, after);
        let ((version, lines), (clear, end)) = beside(head, packets)?;
        Ok(RecordedStream {
            lines,
            version: Some(version),
            clear,
            end,
        })
    }

    /// A stream of lines alone.
    fn of_lines(
        alloc: Global,
        lines: Result<Vec<&'a [u8]>, Memory>,
        end: StreamEnd,
    ) -> Result<RecordedStream<'a>, Memory> {
        Ok(RecordedStream {
            lines: lines?,
            version: None,
            clear: ClearPackets::new(alloc),
            end,
        })
    }
}

/// The lines before the one that the last byte ends, or is refused in.
fn lines_before_last(alloc: Global, bytes: &[u8]) -> Result<Vec<&[u8]>, Memory> {
    match bytes.split_last() {
        Some((_, before)) => whole_lines(alloc, before),
        None => Ok(Vec::new(alloc)),
    }
}

/// The lines that an LF ends, without it.
fn whole_lines(alloc: Global, bytes: &[u8]) -> Result<Vec<&[u8]>, Memory> {
    let mut lines = Vec::new(alloc);
    let mut rest = bytes;
    while let Some(end) = rest.iter().position(|byte| *byte == b'\n') {
        lines.push(&rest[..end])?;
        rest = &rest[end + 1..];
    }
    Ok(lines)
}
