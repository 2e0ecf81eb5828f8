//! Writes packets.

ghost use Rattle.sshwire.specs.declared.limits.TheConstants.{PAYLOAD_LIMIT};
ghost use Rattle.sshpacket.specs.declared.limits.TheConstants.{BLOCK_LIMIT};
ghost use Rattle.std.specs.Prelude.{◌≡◌, true, ℕ, ◌+◌, ◌<◌, ◌≤◌, ◌^◌, ◌++◌, IfOk, List, None, OnOk, if◌then◌else◌, is_ok, length};
ghost use Rattle.sshwire.specs.Types.{IsBytes};
ghost use Rattle.sshpacket.specs.Packet.{IsPacket, IsPadding, packet};
ghost use Rattle.sshpacket.specs.Parse.{parse_packet, protection, whole};
ghost use Rattle.sshpacket.specs.Suite.{SuiteData};
ghost use Rattle.sshpacket.specs.Written.{IsWritten, after_sealed, sealed_size, written, written_clear, written_sealed};

use crate::keys::Keys;
use crate::padding::least_padding_len;
use crate::suite::Suite;
use sshwire::{Memory, put_u32};
use std::alloc::Global;

/// Appends the packet of a payload in clear (RFC 4253 section 6), with this sequence number: the
/// padding is the least, and its bytes are the suite's for the seed and the number. Where an allocation
/// failed the vector is unchanged.
///
/// The caller's conditions are a payload of 1 to `PAYLOAD_LIMIT` bytes, and a seed of fewer than 2^32.
pub fn write_clear<S: Suite>(
    alloc: Global,
    suite: &S,
    seq: u32,
    payload: &[u8],
    seed: &[u8],
    out: &mut Vec<u8>,
) -> Result<(), Memory>
    requires some { 0 < length payload.now }
    requires payload { length payload.now ≤ PAYLOAD_LIMIT }
    requires seed { length seed.now < 2 ^ 32 }
    ensures appends { out.new.items ≡ (if is_ok result then out.old.items ++ written_clear (S.meaning suite.now) seed.now seq payload.now else out.old.items) }
    // What is appended is a packet of the payload with the least padding.
    ensures packet { IsWritten true 8 0 payload.now (written_clear (S.meaning suite.now) seed.now seq payload.now) }
{
    crate::packet_laws::writing_law();
    let clear = clear_packet(alloc, suite, true, 8, seq, payload, seed)?;
    out.extend_from_slice(&clear)?;
    Ok(())
}

/// Appends the packet of a payload, sealed with the keys, otherwise as [`write_clear`] does. The keys stay as they are: a
/// second packet sealed with them may have the key stream of the first, so [`write_next`] is for packets one after another.
pub fn write_sealed<S: Suite>(
    alloc: Global,
    suite: &S,
    keys: &Keys,
    seq: u32,
    payload: &[u8],
    seed: &[u8],
    out: &mut Vec<u8>,
) -> Result<(), Memory>
    requires some { 0 < length payload.now }
    requires payload { length payload.now ≤ PAYLOAD_LIMIT }
    requires seed { length seed.now < 2 ^ 32 }
    ensures appends { out.new.items ≡ (if is_ok result then out.old.items ++ written_sealed (S.meaning suite.now) keys.now seed.now seq payload.now else out.old.items) }
    // What is sealed is a packet of the payload with the least padding.
    ensures packet { IsWritten ((S.meaning suite.now).counts_length keys.now.cipher keys.now.mac) ((S.meaning suite.now).block keys.now.cipher) ((S.meaning suite.now).tag_len keys.now.cipher keys.now.mac) payload.now
        (written (S.meaning suite.now) ((S.meaning suite.now).counts_length keys.now.cipher keys.now.mac) ((S.meaning suite.now).block keys.now.cipher) seed.now seq payload.now) }
{
    sealed_is_packet(suite, keys, seq, payload, seed);
    let block = suite.block(keys.cipher());
    let counts = suite.counts_length(keys.cipher(), keys.mac());
    let clear = clear_packet(alloc, suite, counts, block, seq, payload, seed)?;
    let sealed = suite.seal(alloc, keys, seq, &clear)?;
    out.extend_from_slice(&sealed)?;
    Ok(())
}

/// Appends the packet of a payload as [`write_sealed`] does, and makes the keys those of the next packet. Where an
/// allocation failed the keys are as before, too.
pub fn write_next<S: Suite>(
    alloc: Global,
    suite: &S,
    keys: &mut Keys,
    seq: u32,
    payload: &[u8],
    seed: &[u8],
    out: &mut Vec<u8>,
) -> Result<(), Memory>
    requires some { 0 < length payload.now }
    requires payload { length payload.now ≤ PAYLOAD_LIMIT }
    requires seed { length seed.now < 2 ^ 32 }
    ensures appends { out.new.items ≡ (if is_ok result then out.old.items ++ written_sealed (S.meaning suite.now) keys.old seed.now seq payload.now else out.old.items) }
    ensures next { keys.new ≡ (if is_ok result then after_sealed (S.meaning suite.now) keys.old payload.now else keys.old) }
    ensures length { length keys.new.iv ≡ length keys.old.iv }
    // What is sealed is a packet of the payload with the least padding.
    ensures packet { IsWritten ((S.meaning suite.now).counts_length keys.old.cipher keys.old.mac) ((S.meaning suite.now).block keys.old.cipher) ((S.meaning suite.now).tag_len keys.old.cipher keys.old.mac) payload.now
        (written (S.meaning suite.now) ((S.meaning suite.now).counts_length keys.old.cipher keys.old.mac) ((S.meaning suite.now).block keys.old.cipher) seed.now seq payload.now) }
{
    let size = size_of(suite, keys, payload);
    write_sealed(alloc, suite, keys, seq, payload, seed, out)?;
    suite.advance(keys, size);
    Ok(())
}

/// How many bytes the sealed packet of a payload has with its tag.
#[tactic(auto, unfolding(crate::specs::Written::sealed_size))]
fn size_of<S: Suite>(suite: &S, keys: &Keys, payload: &[u8]) -> usize
    requires payload { length payload.now ≤ PAYLOAD_LIMIT }
    ensures { result ≡ sealed_size (S.meaning suite.now) keys.now payload.now }
{
    let block = suite.block(keys.cipher());
    let padding = least_padding_len(
        suite.counts_length(keys.cipher(), keys.mac()),
        block,
        payload.len(),
    );
    5 + payload.len() + usize::from(padding) + usize::from(suite.tag_len(keys.cipher(), keys.mac()))
}

/// What is sealed for a payload is a packet with the least padding.
fn sealed_is_packet<S: Suite>(suite: &S, keys: &Keys, seq: u32, payload: &[u8], seed: &[u8])
    requires some { 0 < length payload.now }
    requires payload { length payload.now ≤ PAYLOAD_LIMIT }
    ensures { IsWritten ((S.meaning suite.now).counts_length keys.now.cipher keys.now.mac) ((S.meaning suite.now).block keys.now.cipher) ((S.meaning suite.now).tag_len keys.now.cipher keys.now.mac) payload.now
        (written (S.meaning suite.now) ((S.meaning suite.now).counts_length keys.now.cipher keys.now.mac) ((S.meaning suite.now).block keys.now.cipher) seed.now seq payload.now) }
{
    crate::packet_laws::writing_law();
}

/// Appends the packet of a payload in clear with this padding (RFC 4253 section 6), for who has no suite.
/// Where an allocation failed the vector is unchanged.
///
/// The caller's conditions are a payload of 1 to `PAYLOAD_LIMIT` bytes, and padding of at most 255 bytes that
/// is allowed: with its first five bytes the packet is a multiple of 8, and has at least 16 bytes and at least
/// 4 of padding. The least is [`padding_len`](crate::padding_len) at a block of 8; each 8 bytes more are allowed
/// too. Its bytes should be random (RFC 4253 section 6), and no reader looks at them.
pub fn write_with_padding(
    alloc: Global,
    payload: &[u8],
    padding: &[u8],
    out: &mut Vec<u8>,
) -> Result<(), Memory>
    requires some { 0 < length payload.now }
    requires payload { length payload.now ≤ PAYLOAD_LIMIT }
    requires padding { IsPadding true 8 (length payload.now) (length padding.now) }
    requires short { length padding.now < 256 }
    ensures appends { out.new.items ≡ (if is_ok result then out.old.items ++ packet payload.now padding.now else out.old.items) }
    // What is appended is a packet of the payload, and is read again as it, whatever the suite and whatever follows.
    ensures packet { IsPacket true 8 0 payload.now (packet payload.now padding.now) }
    ensures again { (m : SuiteData) (seq : ℕ) (rest : List ℕ) → parse_packet (protection m None seq) (packet payload.now padding.now ++ rest) ≡ whole payload.now (length (packet payload.now padding.now)) }
{
    padded_is_packet(payload, padding);
    let packet = joined(alloc, payload, padding)?;
    out.extend_from_slice(&packet)?;
    Ok(())
}

/// A payload and allowed padding are a packet, which is read again.
fn padded_is_packet(payload: &[u8], padding: &[u8])
    requires some { 0 < length payload.now }
    requires payload { length payload.now ≤ PAYLOAD_LIMIT }
    requires padding { IsPadding true 8 (length payload.now) (length padding.now) }
    requires short { length padding.now < 256 }
    ensures packet { IsPacket true 8 0 payload.now (packet payload.now padding.now) }
    ensures again { (m : SuiteData) (seq : ℕ) (rest : List ℕ) → parse_packet (protection m None seq) (packet payload.now padding.now ++ rest) ≡ whole payload.now (length (packet payload.now padding.now)) }
{
    sshwire::types_law();
}

/// The packet of a payload in clear, for this block, where packet_length counts or not.
#[tactic(auto, unfolding(crate::specs::Written::written))]
fn clear_packet<S: Suite>(
    alloc: Global,
    suite: &S,
    counts: bool,
    block: u8,
    seq: u32,
    payload: &[u8],
    seed: &[u8],
) -> Result<Vec<u8>, Memory>
    requires block { block ≤ BLOCK_LIMIT }
    requires payload { length payload.now ≤ PAYLOAD_LIMIT }
    requires seed { length seed.now < 2 ^ 32 }
    ensures packet { IfOk result (λ v. v.items ≡ written (S.meaning suite.now) counts block seed.now seq payload.now) }
    ensures short { IfOk result (λ v. length v.items < 2 ^ 32) }
{
    let len = least_padding_len(counts, block, payload.len());
    let padding = suite.padding(alloc, seed, seq, len)?;
    joined(alloc, payload, &padding)
}

/// The packet of a payload and its padding.
fn joined(alloc: Global, payload: &[u8], padding: &[u8]) -> Result<Vec<u8>, Memory>
    requires payload { length payload.now ≤ PAYLOAD_LIMIT }
    requires padding { length padding.now < 256 }
    ensures packet { IfOk result (λ v. v.items ≡ packet payload.now padding.now) }
    ensures len { IfOk result (λ v. length v.items ≡ 5 + length payload.now + length padding.now) }
{
    let mut packet = Vec::with_capacity(alloc, 5 + payload.len() + padding.len())?;
    put_packet(&mut packet, payload, padding)?;
    Ok(packet)
}

/// Appends a packet; where an allocation failed a prefix of it may stand there.
#[tactic(auto, unfolding(crate::specs::Packet::length_field))]
fn put_packet(out: &mut Vec<u8>, payload: &[u8], padding: &[u8]) -> Result<(), Memory>
    requires payload { length payload.now ≤ PAYLOAD_LIMIT }
    requires padding { length padding.now < 256 }
    ensures packet { OnOk result (out.new.items ≡ out.old.items ++ packet payload.now padding.now) }
    ensures len { OnOk result (length out.new.items ≡ length out.old.items + (5 + length payload.now + length padding.now)) }
{
    let len = 1 + payload.len() + padding.len();
    put_u32(out, len as u32)?;
    out.push(padding.len() as u8)?;
    out.extend_from_slice(payload)?;
    out.extend_from_slice(padding)?;
    Ok(())
}
