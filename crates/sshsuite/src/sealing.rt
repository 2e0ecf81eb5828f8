//! chacha20-poly1305@openssh.com (OpenSSH PROTOCOL.chacha20poly1305).

ghost use Rattle.std.specs.Prelude.{◌≡◌, ◌<◌, ◌≤◌, ◌^◌, IfOk, drop, length, option_map, take};
ghost use Rattle.sshwire.specs.Masks.{xored};
ghost use Rattle.sshsuite.specs.Sealing.{checked, encrypted, filled_up, head, length_key, mask, payload_key, seal, tag, unseal, whole_key};

use crate::bits::{filled_up, first_half, second_half, xor_with};
use crate::chacha20::{first_four, stream};
use crate::constant_time::is_equal;
use crate::poly1305::tag_of;
use sshpacket::leading_uint32;
use sshwire::Memory;
use std::alloc::Global;

/// How many bytes a tag has.
pub(crate) const TAG_LEN: usize = 16;

/// 64 bytes of a key: zeros stand for what it is short of them.
#[tactic(auto, unfolding(crate::specs::Sealing::whole_key))]
pub(crate) fn whole_key(enc: &[u8]) -> [u8; 64]
    ensures { result ≡ whole_key enc.now }
{
    filled_up(&enc[..enc.len().min(64)])
}

/// The key for the packet after its length, and for the tag: the first 32 bytes (K_2).
#[tactic(auto, unfolding(crate::specs::Sealing::payload_key))]
fn payload_key(enc: &[u8]) -> [u8; 32]
    ensures { result ≡ payload_key enc.now }
{
    first_half(&whole_key(enc))
}

/// The key for the length: the last 32 bytes (K_1).
#[tactic(auto, unfolding(crate::specs::Sealing::length_key))]
fn length_key(enc: &[u8]) -> [u8; 32]
    ensures { result ≡ length_key enc.now }
{
    second_half(&whole_key(enc))
}

/// The mask of a packet of so many bytes with this number.
#[tactic(auto, unfolding(crate::specs::Sealing::mask))]
fn mask(alloc: Global, enc: &[u8], seq: u32, len: usize) -> Result<Vec<u8>, Memory>
    requires { 4 ≤ len }
    ensures { IfOk result (λ v. v.items ≡ mask enc.now seq len) }
{
    let mut mask = stream(alloc, length_key(enc), seq, 0, 4)?;
    let body = stream(alloc, payload_key(enc), seq, 1, len - 4)?;
    mask.extend_from_slice(&body)?;
    Ok(mask)
}

/// The packet with this number, in clear or not, the other way: its length by the one key, all that follows by
/// the other.
#[tactic(auto, using(crate::specs::SealingLaws::length_mask), unfolding(crate::specs::Sealing::encrypted))]
fn encrypted(alloc: Global, enc: &[u8], seq: u32, packet: &[u8]) -> Result<Vec<u8>, Memory>
    requires { 4 ≤ length packet.now }
    ensures { IfOk result (λ v. v.items ≡ encrypted enc.now seq packet.now) }
{
    let mask = mask(alloc, enc, seq, packet.len())?;
    let mut encrypted = Vec::from_slice(alloc, packet)?;
    xor_with(&mut encrypted, &mask);
    Ok(encrypted)
}

/// The tag of a sealed packet with this number.
#[tactic(auto, using(crate::specs::KeyStream::length_stream), unfolding(crate::specs::Sealing::tag))]
fn tag(alloc: Global, enc: &[u8], seq: u32, sealed: &[u8]) -> Result<[u8; 16], Memory>
    requires { length sealed.now < 2 ^ 32 }
    ensures { IfOk result (λ t. t ≡ tag enc.now seq sealed.now) }
{
    let key = stream(alloc, payload_key(enc), seq, 0, 32)?;
    Ok(tag_of(&key, sealed))
}

/// The sealed packet with its tag; nothing is sealed of what has no length.
#[tactic(auto, using(crate::specs::SealingLaws::length_encrypted), unfolding(crate::specs::Sealing::seal))]
pub(crate) fn seal(alloc: Global, enc: &[u8], seq: u32, packet: &[u8]) -> Result<Vec<u8>, Memory>
    requires { length packet.now < 2 ^ 32 }
    ensures { IfOk result (λ v. v.items ≡ seal enc.now seq packet.now) }
{
    if packet.len() < 4 {
        return Ok(Vec::new(alloc));
    }
    let mut sealed = encrypted(alloc, enc, seq, packet)?;
    let tag = tag(alloc, enc, seq, &sealed)?;
    sealed.extend_from_slice(&tag)?;
    Ok(sealed)
}

/// The length of a sealed packet.
#[tactic(auto, using(crate::specs::KeyStream::length_stream), unfolding(crate::specs::Sealing::head))]
pub(crate) fn head(enc: &[u8], seq: u32, first: [u8; 4]) -> u32
    ensures { result ≡ head enc.now seq first }
{
    let mut clear = first;
    xor_with(&mut clear, &first_four(length_key(enc), seq));
    leading_uint32(&clear)
}

/// The packet, where the tag is its own.
#[tactic(auto, unfolding(crate::specs::Sealing::checked))]
fn checked(
    alloc: Global,
    enc: &[u8],
    seq: u32,
    covered: &[u8],
    found: &[u8],
) -> Result<Option<Vec<u8>>, Memory>
    requires some { 4 ≤ length covered.now }
    requires short { length covered.now < 2 ^ 32 }
    requires found { length found.now ≡ 16 }
    ensures { IfOk result (λ o. option_map (λ v. v.items) o ≡ checked enc.now seq covered.now found.now) }
{
    let tag = tag(alloc, enc, seq, covered)?;
    if is_equal(found, &tag) {
        let clear = encrypted(alloc, enc, seq, covered)?;
        Ok(Some(clear))
    } else {
        Ok(None)
    }
}

/// The clear packet without its tag, where the tag is its own.
#[tactic(auto, unfolding(crate::specs::Sealing::unseal))]
pub(crate) fn unseal(
    alloc: Global,
    enc: &[u8],
    seq: u32,
    sealed: &[u8],
) -> Result<Option<Vec<u8>>, Memory>
    requires { length sealed.now < 2 ^ 32 }
    ensures { IfOk result (λ o. option_map (λ v. v.items) o ≡ unseal enc.now seq sealed.now) }
{
    if sealed.len() < 4 + TAG_LEN {
        return Ok(None);
    }
    let (covered, found) = sealed.split_at(sealed.len() - TAG_LEN);
    checked(alloc, enc, seq, covered, found)
}
