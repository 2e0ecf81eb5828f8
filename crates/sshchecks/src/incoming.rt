//! What a peer sends.

ghost use Rattle.sshchecks.specs.declared.incoming.TheConstants.{CAME_LIMIT};
ghost use Rattle.std.specs.Prelude.{◌≡◌, ◌+◌, ◌≤◌, ◌↔◌, IfOk, IsTrue, length};

use crate::fault::PlayFault;
use sshpacket::{Keys, PacketFault, PacketReader, PacketStep};
use sshsuite::DeployedSuite;
use std::alloc::Global;

/// How many bytes a player takes of a peer.
pub const CAME_LIMIT: usize = 1 << 20;

/// How many bytes a line may have that isn't at its end.
const LINE_LIMIT: usize = 70_000;

/// How many bytes of a packet say how long it is.
const FIRST: usize = 4;

/// How many lines may stand before the version line.
const LINES_LIMIT: u32 = 1024;

/// The peer's direction.
#[derive(Drop)]
pub(crate) struct Incoming {
    packets: PacketReader,
    /// The keys from the peer's NEWKEYS on.
    next_keys: Option<Keys>,
    /// What came and isn't read.
    pending: Vec<u8>,
    /// How many lines stood before the version line.
    lines: u32,
    /// Whether words came in the place of a packet.
    words: bool,
    /// How many bytes came.
    pub(crate) came: usize,
    /// Whether nothing more comes.
    pub(crate) ended: bool,
    ghost bound: { came ≤ CAME_LIMIT },
    ghost held: { length pending.items ≤ came },
}

/// What is read.
#[derive(Drop)]
pub(crate) enum Front {
    /// A version line with what ends it, or a payload.
    Whole(Vec<u8>),
    /// It isn't all there.
    More,
    /// It can't be read.
    Garbled,
}

impl Incoming {
    /// Nothing yet.
    pub(crate) fn new(alloc: Global) -> Incoming {
        Incoming {
            packets: PacketReader::new(alloc),
            next_keys: None,
            pending: Vec::new(alloc),
            lines: 0,
            words: false,
            came: 0,
            ended: false,
        }
    }

    /// Takes what came, up to `CAME_LIMIT` bytes in all; answers whether that was all of it.
    pub(crate) fn receive<'a>(&mut self, piece: &[u8]) -> Result<bool, PlayFault<'a>>
        ensures whole { IfOk result (λ whole. IsTrue whole ↔ (self.old.came + length piece.now ≤ CAME_LIMIT)) }
        ensures came { IfOk result (λ whole. IsTrue whole → self.new.came ≡ self.old.came + length piece.now) }
    {
        let left = CAME_LIMIT - self.came;
        let taken = piece.get(..left).unwrap_or(piece);
        self.pending.extend_from_slice(taken)?;
        self.came += taken.len();
        Ok(taken.len() == piece.len())
    }

    /// Drops so many bytes of what isn't read.
    fn drop_front<'a>(&mut self, alloc: Global, count: usize) -> Result<(), PlayFault<'a>> {
        let rest = rest_of(alloc, &self.pending, count)?;
        self.pending = rest;
        Ok(())
    }

    /// The version line: lines before it are passed over.
    pub(crate) fn line<'a>(&mut self, alloc: Global) -> Result<Front, PlayFault<'a>> {
        for _ in 0..LINES_LIMIT {
            let Some(len) = line_len(&self.pending) else {
                let is_long = self.pending.len() > LINE_LIMIT;
                return Ok(if is_long { Front::Garbled } else { Front::More });
            };
            let line = front_of(alloc, &self.pending, len)?;
            self.drop_front(alloc, len)?;
            if line.starts_with(b"SSH-") {
                return Ok(Front::Whole(line));
            }
            self.lines = self.lines.saturating_add(1);
            if self.lines > LINES_LIMIT {
                break;
            }
        }
        Ok(Front::Garbled)
    }

    /// The next payload. Where words come in the place of a packet in clear, as some peers end, none follows.
    pub(crate) fn payload<'a>(&mut self, alloc: Global) -> Result<Front, PlayFault<'a>> {
        if self.packets.keys().is_none() && self.packets.is_idle() {
            if self.pending.len() < FIRST && !self.ended {
                return Ok(Front::More);
            }
            self.words = self.words || are_words(&self.pending);
        }
        if self.words {
            let count = self.pending.len();
            self.drop_front(alloc, count)?;
            return Ok(Front::More);
        }
        let (front, used) = match self.packets.next(&DeployedSuite, &self.pending) {
            Ok(PacketStep::Payload { payload, used, .. }) => {
                (Front::Whole(Vec::from_slice(alloc, payload)?), used)
            }
            Ok(PacketStep::More) => (Front::More, self.pending.len()),
            Err(PacketFault::Memory) => return Err(PlayFault::Memory),
            Err(_) => (Front::Garbled, self.pending.len()),
        };
        self.drop_front(alloc, used)?;
        Ok(front)
    }

    /// The keys from the peer's NEWKEYS on.
    pub(crate) fn set_next(&mut self, keys: Keys) {
        self.next_keys = Some(keys);
    }

    /// The peer's NEWKEYS came: what follows is opened by the next keys, where there are some. Answers whether there were.
    pub(crate) fn switch(&mut self, strict: bool) -> bool {
        if !self.packets.is_idle() {
            return false;
        }
        match self.next_keys.take() {
            Some(keys) => {
                self.packets.use_keys(keys, strict);
                true
            }
            None => false,
        }
    }
}

/// Whether the first bytes are of a text, which no packet_length is.
fn are_words(bytes: &[u8]) -> bool {
    match bytes.get(..FIRST) {
        Some(first) => first.iter().all(|byte| *byte >= 9 && *byte < 127),
        None => false,
    }
}

/// How many bytes the first line has with its LF, if it is all there.
fn line_len(bytes: &[u8]) -> Option<usize> {
    let place = bytes.iter().position(|byte| *byte == b'\n')?;
    Some(place.saturating_add(1))
}

/// A copy of the first bytes; of none where there are fewer.
fn front_of<'a>(alloc: Global, bytes: &[u8], len: usize) -> Result<Vec<u8>, PlayFault<'a>> {
    Ok(Vec::from_slice(alloc, bytes.get(..len).unwrap_or(&[]))?)
}

/// A copy of what stands after the first bytes; of nothing where there are fewer.
fn rest_of<'a>(alloc: Global, bytes: &[u8], len: usize) -> Result<Vec<u8>, PlayFault<'a>>
    ensures { IfOk result (λ rest. length rest.items ≤ length bytes.now) }
{
    Ok(Vec::from_slice(alloc, bytes.get(len..).unwrap_or(&[]))?)
}
