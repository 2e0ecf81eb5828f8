//! The packets of a session that goes on, by states that the program keeps.
//!
//! A state is the number of the next packet, how many were sealed or opened by it, how many bytes these had, the names of cipher and
//! MAC, and the keys (RFC 4253 sections 6.4 and 7.2). A call that seals or opens a packet raises the numbers in it, and puts the vector of
//! the next packet's keys in the place of the one before.

ghost use Rattle.std.specs.Prelude.{◌≡◌, ◌≤◌, ◌<◌, ◌^◌, ◌%◌, ◌+◌, ◌++◌, ◌↔◌, ℕ, [], List, IsTrue, IfOk, IfSome, OnErr, drop, length, take};
ghost use Rattle.sshpacket.specs.PacketReaderData.{ReaderWaits, packet_reader_data};
ghost use Rattle.sshpacket.specs.Parse.{protection};
ghost use Rattle.sshpacket.specs.ProtectedPacket.{IsProtectedPacket};
ghost use Rattle.sshpacket.specs.Suite.{advanced, next_keys};
ghost use Rattle.sshpacket.specs.Written.{IsWritten, written, written_sealed};
ghost use Rattle.sshwire.specs.declared.limits.TheConstants.{PAYLOAD_LIMIT};
ghost use Rattle.sshwire.specs.Types.{IsName, string, uint32};
ghost use Rattle.sshcore.specs.declared.link.TheConstants.{LINK_BYTES_LIMIT, LINK_LIMIT};
ghost use Rattle.sshsuite.specs.Deployed.{deployed};
ghost use Rattle.rezdolin.specs.Directions.{IsOpened, IsPut, IsSealed, IsStateBefore, keys_in, place_bytes, vector_place};
ghost use Rattle.rezdolin.specs.Records.{direction_bytes, state_bytes};

use crate::answers::BytesFault;
use crate::copying::is_copied;
use crate::drawn::is_uniform;
use crate::record::put_fields;
use byteorder::{BigEndian, ByteOrder};
use sshcore::{Direction, LINK_BYTES_LIMIT, LINK_LIMIT};
use sshpacket::{KeyParts, Keys, PacketFault, PacketReader, PacketStep, write_next};
use sshsuite::DeployedSuite;
use sshwire::{Memory, PAYLOAD_LIMIT, Reader, as_name, put_u32};
use std::alloc::Global;

/// A direction, and where it stands.
#[derive(Drop)]
struct State {
    keys: Keys,
    place: Place,
}

/// Where a direction stands.
#[derive(Clone, Copy)]
struct Place {
    /// The number of the next packet.
    number: u32,
    /// How many packets were sealed or opened by its state.
    count: u32,
    /// How many bytes they had.
    bytes: u64,
}

/// The bytes of a direction by which no packet has gone yet.
pub(crate) fn state_of(alloc: Global, direction: &Direction) -> Result<Vec<u8>, Memory>
    ensures { IfOk result (λ state. state.items ≡ direction_bytes direction.now) }
{
    let keys = &direction.keys;
    let fields: [&[u8]; 5] = [
        keys.cipher().as_bytes(),
        keys.mac().as_bytes(),
        keys.iv(),
        keys.enc(),
        keys.mac_key(),
    ];
    let mut state = Vec::new(alloc);
    put_u32(&mut state, direction.sequence_number)?;
    put_u32(&mut state, 0)?;
    put_u32(&mut state, 0)?;
    put_u32(&mut state, 0)?;
    put_fields(&fields, &mut state)?;
    Ok(state)
}

/// The state that these bytes are, if they are one.
fn state_in(alloc: Global, bytes: &[u8]) -> Result<Option<State>, Memory>
    ensures { IfOk result (λ found. IfSome found (λ state. bytes.now ≡ state_bytes state.place.number state.place.count state.place.bytes state.keys)) }
{
    let Some(parts) = parts_in(bytes) else {
        return Ok(None);
    };
    let keys = keys_of(alloc, &parts)?;
    Ok(Some(State {
        keys,
        place: parts.place,
    }))
}

/// What stands in the bytes of a state.
#[derive(Clone, Copy)]
struct StateParts<'a> {
    place: Place,
    cipher: &'a str,
    mac: &'a str,
    iv: &'a [u8],
    enc: &'a [u8],
    mac_key: &'a [u8],
}

/// What stands in these bytes, if they are those of a state.
#[tactic(auto, using(crate::proofs::DirectionLemmas::state_whole))]
fn parts_in(bytes: &[u8]) -> Option<StateParts<'_>>
    ensures parts { IfSome result (λ parts. bytes.now ≡ state_bytes parts.place.number parts.place.count parts.place.bytes (keys_in parts)) }
    ensures cipher { IfSome result (λ parts. IsName parts.cipher.now) }
    ensures mac { IfSome result (λ parts. IsName parts.mac.now) }
{
    let mut reader = Reader::new(bytes);
    let place = next_place(&mut reader)?;
    let cipher = next_field(&mut reader)?;
    let mac = next_field(&mut reader)?;
    let iv = next_field(&mut reader)?;
    let enc = next_field(&mut reader)?;
    let mac_key = next_field(&mut reader)?;
    if !reader.rest().is_empty() {
        return None;
    }
    let cipher = as_name(cipher)?;
    let mac = as_name(mac)?;
    Some(StateParts {
        place,
        cipher,
        mac,
        iv,
        enc,
        mac_key,
    })
}

/// The place at the front, if one stands there.
fn next_place(reader: &mut Reader<'_>) -> Option<Place>
    ensures { IfSome result (λ place. reader.old ≡ place_bytes place ++ reader.new) }
{
    let number = next_number(reader)?;
    let count = next_number(reader)?;
    let high = next_number(reader)?;
    let low = next_number(reader)?;
    let bytes = u64::from(high) * 0x100000000 + u64::from(low);
    Some(Place {
        number,
        count,
        bytes,
    })
}

/// The number at the front, if one stands there.
fn next_number(reader: &mut Reader<'_>) -> Option<u32>
    ensures { IfSome result (λ number. reader.old ≡ uint32 number ++ reader.new) }
{
    match reader.u32() {
        Ok(number) => Some(number),
        Err(_) => None,
    }
}

/// The string at the front, if one stands there.
fn next_field<'a>(reader: &mut Reader<'a>) -> Option<&'a [u8]>
    ensures { IfSome result (λ field. reader.old ≡ string field.now ++ reader.new) }
{
    match reader.string() {
        Ok(field) => Some(field),
        Err(_) => None,
    }
}

/// The keys of a state.
fn keys_of(alloc: Global, parts: &StateParts<'_>) -> Result<Keys, Memory>
    requires cipher { IsName parts.now.cipher.now }
    requires mac { IsName parts.now.mac.now }
    ensures { IfOk result (λ keys. keys ≡ keys_in parts.now) }
{
    let cipher = String::from_str(alloc, parts.cipher)?;
    let mac = String::from_str(alloc, parts.mac)?;
    let iv = Vec::from_slice(alloc, parts.iv)?;
    let enc = Vec::from_slice(alloc, parts.enc)?;
    let mac_key = Vec::from_slice(alloc, parts.mac_key)?;
    Ok(Keys::new(KeyParts {
        cipher,
        mac,
        iv,
        enc,
        mac_key,
    }))
}

/// A state that a packet can go by.
fn state_for_next(alloc: Global, bytes: &[u8]) -> Result<State, BytesFault>
    ensures { IfOk result (λ state. (bytes.now ≡ state_bytes state.place.number state.place.count state.place.bytes state.keys) × (state.place.count < LINK_LIMIT) × (state.place.bytes < LINK_BYTES_LIMIT)) }
{
    match state_in(alloc, bytes) {
        Ok(Some(state)) if is_left(state.place) => Ok(state),
        Ok(Some(_)) => Err(BytesFault::UsedUp),
        Ok(None) => Err(BytesFault::Unreadable),
        Err(_) => Err(BytesFault::Memory),
    }
}

/// Whether a packet may go on from there.
fn is_left(place: Place) -> bool
    ensures { IsTrue result ↔ ((place.count < LINK_LIMIT) × (place.bytes < LINK_BYTES_LIMIT)) }
{
    place.count < LINK_LIMIT && place.bytes < LINK_BYTES_LIMIT
}

/// Seals a payload into `out`, makes the state that of the next packet, and answers how many bytes the packet has. After
/// a fault all is as before.
pub(crate) fn seal(
    alloc: Global,
    state: &mut [u8],
    padding_seed: &[u8],
    payload: &[u8],
    out: &mut [u8],
) -> Result<usize, BytesFault>
    ensures sealed { IfOk result (λ len. IsSealed deployed state.old padding_seed.now payload.now out.old state.new len out.new) }
    ensures kept { OnErr result ((state.new ≡ state.old) × (out.new ≡ out.old)) }
{
    if padding_seed.len() != 32 {
        return Err(BytesFault::Unreadable);
    }
    if is_uniform(padding_seed) {
        return Err(BytesFault::Draws);
    }
    if payload.is_empty() || payload.len() > PAYLOAD_LIMIT {
        return Err(BytesFault::Payload);
    }
    let mut next = state_for_next(alloc, state)?;
    let packet = match sealed(
        alloc,
        &mut next.keys,
        next.place.number,
        padding_seed,
        payload,
    ) {
        Ok(packet) => packet,
        Err(_) => return Err(BytesFault::Memory),
    };
    if !is_copied(&packet, out) {
        return Err(BytesFault::Room(packet.len()));
    }
    let len = packet.len();
    raise(state, next.place, len, &next.keys);
    Ok(len)
}

/// The packet of a payload; the keys become those of the next one.
fn sealed(
    alloc: Global,
    keys: &mut Keys,
    number: u32,
    padding_seed: &[u8],
    payload: &[u8],
) -> Result<Vec<u8>, Memory>
    requires seed { length padding_seed.now ≡ 32 }
    requires some { 0 < length payload.now }
    requires short { length payload.now ≤ PAYLOAD_LIMIT }
    ensures sealed { IfOk result (λ packet. packet.items ≡ written_sealed deployed keys.old padding_seed.now number payload.now) }
    ensures next { IfOk result (λ packet. keys.new ≡ advanced deployed keys.old (length packet.items)) }
    ensures packet { IsWritten (deployed.counts_length keys.old.cipher keys.old.mac) (deployed.block keys.old.cipher) (deployed.tag_len keys.old.cipher keys.old.mac) payload.now
        (written deployed (deployed.counts_length keys.old.cipher keys.old.mac) (deployed.block keys.old.cipher) padding_seed.now number payload.now) }
{
    sshpacket::writing_law();
    let mut packet = Vec::new(alloc);
    write_next(
        alloc,
        &DeployedSuite,
        keys,
        number,
        payload,
        padding_seed,
        &mut packet,
    )?;
    Ok(packet)
}

/// What a packet was opened to.
#[derive(Clone, Copy)]
pub(crate) struct Opening {
    /// How many of the bytes received it had.
    pub(crate) used: usize,
    /// How many bytes its payload has.
    pub(crate) len: usize,
}

/// Opens the packet at the front of what was received into `out`, and makes the state that of the next packet. After a
/// fault all is as before.
pub(crate) fn open(
    alloc: Global,
    state: &mut [u8],
    received: &[u8],
    out: &mut [u8],
) -> Result<Opening, BytesFault>
    ensures opened { IfOk result (λ opening. IsOpened deployed state.old received.now out.old state.new opening.used opening.len out.new) }
    ensures kept { OnErr result ((state.new ≡ state.old) × (out.new ≡ out.old)) }
{
    let now = state_for_next(alloc, state)?;
    let place = now.place;
    let mut reader = PacketReader::with_keys(alloc, now.keys, place.number);
    let opening = opened(&mut reader, received, out)?;
    if let Some(keys) = reader.keys() {
        raise(state, place, opening.used, keys);
    }
    Ok(opening)
}

/// Opens the packet at the front of what was received into `out`; the reader's keys become those of the next one.
fn opened(reader: &mut PacketReader, received: &[u8], out: &mut [u8]) -> Result<Opening, BytesFault>
    requires waits { ReaderWaits deployed reader.old }
    requires begins { (packet_reader_data reader.old).held ≡ [] }
    ensures within { IfOk result (λ opening. opening.used ≤ length received.now) }
    ensures opened { IfOk result (λ opening. (payload : List ℕ) × IsPut payload out.old opening.len out.new
        × IsProtectedPacket (protection deployed (packet_reader_data reader.old).keys (packet_reader_data reader.old).seq) payload (take opening.used received.now)) }
    ensures next { IfOk result (λ opening. (packet_reader_data reader.new).keys ≡ next_keys deployed (packet_reader_data reader.old).keys opening.used) }
    ensures kept { OnErr result (out.new ≡ out.old) }
{
    match reader.next(&DeployedSuite, received) {
        Ok(PacketStep::Payload { payload, used, .. }) => {
            if is_copied(payload, out) {
                Ok(Opening {
                    used,
                    len: payload.len(),
                })
            } else {
                Err(BytesFault::Room(payload.len()))
            }
        }
        Ok(PacketStep::More) => Err(BytesFault::More),
        Err(PacketFault::Memory) => Err(BytesFault::Memory),
        Err(fault) => Err(BytesFault::Packet(fault)),
    }
}

/// Makes the bytes of a state those of the next packet's, after one of so many bytes: with its number, which after 2^32 - 1 is 0 (RFC
/// 4253 section 6.4), one packet more and these bytes, and the vector of its keys, which has as many bytes as the one that stands there.
fn raise(state: &mut [u8], place: Place, len: usize, keys: &Keys)
    requires count { place.count < LINK_LIMIT }
    requires bytes { place.bytes < LINK_BYTES_LIMIT }
    requires len { len < 2 ^ 63 }
    requires state { IsStateBefore place keys.now state.old }
    ensures { state.new ≡ state_bytes ((place.number + 1) % 2 ^ 32) (place.count + 1) (place.bytes + len) keys.now }
{
    let next = Place {
        number: place.number.wrapping_add(1),
        count: place.count + 1,
        bytes: place.bytes + len as u64,
    };
    put_place(state, next);
    put_vector(state, keys);
}

/// Puts a place into the bytes of a state.
fn put_place(state: &mut [u8], place: Place)
    requires { 16 ≤ length state.old }
    ensures { state.new ≡ place_bytes place ++ drop 16 state.old }
{
    BigEndian::write_u32(&mut state[..4], place.number);
    BigEndian::write_u32(&mut state[4..8], place.count);
    BigEndian::write_u32(&mut state[8..12], (place.bytes >> 32) as u32);
    BigEndian::write_u32(&mut state[12..16], (place.bytes % 0x100000000) as u32);
}

/// Puts the vector of these keys into the bytes of a state: it stands after its numbers, two names and three lengths.
fn put_vector(state: &mut [u8], keys: &Keys)
    requires { vector_place keys.now + length keys.now.iv ≤ length state.old }
    ensures { state.new ≡ take (vector_place keys.now) state.old ++ (keys.now.iv ++ drop (vector_place keys.now + length keys.now.iv) state.old) }
{
    let place = 28 + keys.cipher().len() + keys.mac().len();
    state[place..place + keys.iv().len()].copy_from_slice(keys.iv());
}
