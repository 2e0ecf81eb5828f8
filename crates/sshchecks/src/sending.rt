//! Packets that are sent, bent or not.

use crate::bends::{Bend, Bends};
use crate::fault::PlayFault;
use crate::terms::BYTES_LIMIT;
use sshpacket::{Keys, Suite};
use sshsuite::DeployedSuite;
use sshwire::{ByteBuffer, Memory};
use std::alloc::Global;

/// The block in clear (RFC 4253 section 6).
const CLEAR_BLOCK: u8 = 8;

/// How many bytes a packet that is left out has without its tag.
const SKIPPED: usize = 32;

/// The own direction.
#[derive(Drop)]
pub(crate) struct Sending {
    keys: Option<Keys>,
    /// The keys from the own NEWKEYS on.
    next_keys: Option<Keys>,
    /// The number of the next packet.
    number: u32,
    /// The number of the packet that an act put last.
    pub(crate) last: u32,
    /// Whether numbers go on at the own NEWKEYS.
    keeps_numbers: bool,
    bends: Bends,
}

/// A packet, and what a reader takes of it.
#[derive(Drop)]
pub(crate) struct Made {
    pub(crate) packet: Vec<u8>,
    /// The payload by the packet's own padding_length.
    pub(crate) taken: Vec<u8>,
}

impl Sending {
    /// The beginning: in clear, number 0.
    pub(crate) fn new() -> Sending {
        Sending {
            keys: None,
            next_keys: None,
            number: 0,
            last: 0,
            keeps_numbers: false,
            bends: Bends::none(),
        }
    }

    /// The next packet of a payload, with the keys as they stand.
    pub(crate) fn next<'a>(
        &mut self,
        alloc: Global,
        line: &'a str,
        payload: &[u8],
    ) -> Result<Made, PlayFault<'a>> {
        let clear = match &self.keys {
            Some(keys) => {
                let block = DeployedSuite.block(keys.cipher());
                let counts = DeployedSuite.counts_length(keys.cipher(), keys.mac());
                clear_packet(alloc, line, payload, block, counts, self.bends)?
            }
            None => clear_packet(alloc, line, payload, CLEAR_BLOCK, true, self.bends)?,
        };
        let taken = payload_in(alloc, &clear)?;
        let packet = self.seal(alloc, clear)?;
        self.bends = Bends::none();
        self.number = self.number.wrapping_add(1);
        Ok(Made { packet, taken })
    }

    /// The next packet alone.
    pub(crate) fn packet<'a>(
        &mut self,
        alloc: Global,
        line: &'a str,
        payload: &[u8],
    ) -> Result<Vec<u8>, PlayFault<'a>> {
        let made = self.next(alloc, line, payload)?;
        Ok(made.packet)
    }

    /// Appends the next packet.
    pub(crate) fn put<'a>(
        &mut self,
        alloc: Global,
        line: &'a str,
        payload: &[u8],
        out: &mut Vec<u8>,
    ) -> Result<(), PlayFault<'a>> {
        let packet = self.packet(alloc, line, payload)?;
        let put = out.extend_from_slice(&packet);
        drop(packet);
        Ok(put?)
    }

    /// Appends the next packet, of a message of one string.
    pub(crate) fn put_message<'a>(
        &mut self,
        alloc: Global,
        line: &'a str,
        number: u8,
        text: &[u8],
        out: &mut Vec<u8>,
    ) -> Result<(), PlayFault<'a>> {
        let payload = message(alloc, number, text)?;
        self.put(alloc, line, &payload, out)
    }

    /// The packet in clear of a payload, whatever the keys; its number isn't used.
    pub(crate) fn frame<'a>(
        &mut self,
        alloc: Global,
        line: &'a str,
        payload: &[u8],
    ) -> Result<Vec<u8>, PlayFault<'a>> {
        let packet = clear_packet(alloc, line, payload, CLEAR_BLOCK, true, self.bends)?;
        self.bends = Bends::none();
        Ok(packet)
    }

    /// Seals a packet with the next number, and makes the keys those of the next one.
    fn seal<'a>(&mut self, alloc: Global, clear: Vec<u8>) -> Result<Vec<u8>, PlayFault<'a>> {
        if clear.len() > 2 * BYTES_LIMIT {
            return Ok(clear);
        }
        let number = self.number;
        match &mut self.keys {
            None => Ok(clear),
            Some(keys) => {
                let sealed = DeployedSuite.seal(alloc, keys, number, &clear)?;
                DeployedSuite.advance(keys, sealed.len());
                Ok(sealed)
            }
        }
    }

    /// The keys from the own NEWKEYS on.
    pub(crate) fn set_next(&mut self, keys: Keys) {
        self.next_keys = Some(keys);
    }

    /// The own NEWKEYS is sent: what follows is sealed by the next keys, where there are some.
    pub(crate) fn switch(&mut self, strict: bool) {
        if let Some(keys) = self.next_keys.take() {
            self.keys = Some(keys);
            if strict && !self.keeps_numbers {
                self.number = 0;
            }
        }
    }

    /// The next packet is one that an act puts.
    pub(crate) fn note_last(&mut self) {
        self.last = self.number;
    }

    /// Bends the next packet.
    pub(crate) fn bend(&mut self, bend: Bend) {
        self.bends = self.bends.with(bend);
    }

    /// Numbers go on at the own NEWKEYS.
    pub(crate) fn keep_numbers(&mut self) {
        self.keeps_numbers = true;
    }

    /// The next number is 0.
    pub(crate) fn zero(&mut self) {
        self.number = 0;
    }

    /// As if a packet had been sent that isn't.
    pub(crate) fn skip(&mut self) {
        self.number = self.number.wrapping_add(1);
        if let Some(keys) = &mut self.keys {
            let tag = DeployedSuite.tag_len(keys.cipher(), keys.mac());
            DeployedSuite.advance(keys, SKIPPED + usize::from(tag));
        }
    }
}

/// The payload of a message of one string.
fn message(alloc: Global, number: u8, text: &[u8]) -> Result<Vec<u8>, Memory> {
    let mut payload = ByteBuffer::new(alloc);
    payload.put(&[number]);
    payload.put_string(text);
    payload.finish()
}

/// The least padding of a payload for a block, where packet_length counts or not (RFC 4253 section 6).
fn least_padding(len: usize, block: u8, counts: bool) -> u8 {
    let block = usize::from(block.max(CLEAR_BLOCK));
    let front = if counts { 5 } else { 1 };
    let rest = (front + len % block + 4) % block;
    let more = (block - rest) % block;
    (4 + more).min(255) as u8
}

/// The packet in clear of a payload, with zeros as padding.
fn clear_packet<'a>(
    alloc: Global,
    line: &'a str,
    payload: &[u8],
    block: u8,
    counts: bool,
    bends: Bends,
) -> Result<Vec<u8>, PlayFault<'a>> {
    if payload.len() > BYTES_LIMIT {
        return Err(PlayFault::Form(line));
    }
    let padding = least_padding(payload.len(), block, counts).saturating_add(bends.more);
    let length = 1 + payload.len() + usize::from(padding);
    let claimed = bends
        .length
        .unwrap_or(u32::try_from(length).unwrap_or(u32::MAX));
    let mut out = ByteBuffer::new(alloc);
    out.put_u32(claimed);
    out.put(&[bends.padding_length.unwrap_or(padding)]);
    out.put(payload);
    for _ in 0..padding {
        out.put(&[0]);
    }
    Ok(out.finish()?)
}

/// What a reader takes of a packet in clear by its padding_length, which may be bent; nothing where that is too great.
fn payload_in<'a>(alloc: Global, clear: &[u8]) -> Result<Vec<u8>, PlayFault<'a>> {
    let padding = usize::from(clear.get(4).copied().unwrap_or(0));
    let end = clear.len().saturating_sub(padding);
    Ok(Vec::from_slice(alloc, clear.get(5..end).unwrap_or(&[]))?)
}
