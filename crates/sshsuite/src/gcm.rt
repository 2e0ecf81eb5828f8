//! aes128-gcm@openssh.com and aes256-gcm@openssh.com (RFC 5647 as OpenSSH PROTOCOL section 1.6 has it; NIST SP 800-38D).

ghost use Rattle.std.specs.Prelude.{◌≡◌, ◌<◌, ◌≤◌, ◌^◌, ◌+◌, ◌%◌, IfOk, drop, length, option_map, take};
ghost use Rattle.sshsuite.specs.CounterMode.{stream_to};
ghost use Rattle.sshsuite.specs.Gcm.{checked, first_counter, first_eight, mask_by, next_iv, raised, seal, tag_by, unseal};
ghost use Rattle.sshwire.specs.Masks.{xored};

use crate::aes::number_at;
use crate::bits::xor_with;
use crate::cipher_names::keys_by;
use crate::constant_time::is_equal;
use crate::counter_mode::{BLOCK_LEN, stream};
use crate::ghash::ghash;
use crate::sealing::{TAG_LEN, whole_key};
use crate::sliced_aes::{SLICED, eight_ciphers};
use sshpacket::Keys;
use sshwire::Memory;
use std::alloc::Global;

/// How many bytes a vector has.
const IV_LEN: usize = 12;

/// The counter block 0 of a packet: the 12 bytes of the vector, and 4 of the counter (SP 800-38D section 7.1).
#[tactic(auto, unfolding(crate::specs::Gcm::first_counter))]
fn first_counter(iv: &[u8]) -> u128
    ensures { result ≡ first_counter iv.now }
{
    let n = number_at(&whole_key(iv), 0);
    n - n % 0x100000000
}

/// What a packet is sealed and opened with.
#[derive(Clone, Copy)]
struct Blocks<'a> {
    /// The round keys.
    keys: &'a [u128],
    /// The counter block 0.
    counter: u128,
    /// The first eight blocks that are encrypted: zeros, whose image is GHASH's key, counter block 1, whose image masks the tag, and those
    /// of the key stream's first six.
    first: [u128; SLICED],
}

/// The first eight blocks encrypted.
#[tactic(auto, using(crate::proofs::StreamLemmas::first_eight_is))]
fn first_eight(keys: &[u128], counter: u128) -> [u128; 8]
    requires { 2 ≤ length keys.now }
    ensures { result ≡ first_eight keys.now counter }
{
    eight_ciphers(
        keys,
        [
            0,
            counter.wrapping_add(1),
            counter.wrapping_add(2),
            counter.wrapping_add(3),
            counter.wrapping_add(4),
            counter.wrapping_add(5),
            counter.wrapping_add(6),
            counter.wrapping_add(7),
        ],
    )
}

/// What a packet is sealed and opened with.
fn blocks_of<'a>(keys: &'a [u128], iv: &[u8]) -> Blocks<'a>
    requires { 2 ≤ length keys.now }
    ensures keys { result.keys.now ≡ keys.now }
    ensures counter { result.counter ≡ first_counter iv.now }
    ensures first { result.first ≡ first_eight result.keys.now result.counter }
{
    let counter = first_counter(iv);
    let first = first_eight(keys, counter);
    Blocks {
        keys,
        counter,
        first,
    }
}

/// So many blocks of the key stream: the counter blocks from 2 on, encrypted (SP 800-38D section 7.1, step 3). The first six stand in
/// the first eight.
fn body_stream(alloc: Global, blocks: &Blocks<'_>, count: usize) -> Result<Vec<u8>, Memory>
    requires count { count < 2 ^ 32 }
    requires keys { 2 ≤ length blocks.now.keys.now }
    requires first { blocks.now.first ≡ first_eight blocks.now.keys.now blocks.now.counter }
    ensures { IfOk result (λ v. v.items ≡ stream_to blocks.now.keys.now ((blocks.now.counter + 2) % 2 ^ 128) count) }
{
    let second = blocks.counter.wrapping_add(2);
    stream(alloc, blocks.keys, second, 2, blocks.first, count)
}

/// The mask of a packet of so many bytes: its length stays as it is.
fn mask(alloc: Global, blocks: &Blocks<'_>, len: usize) -> Result<Vec<u8>, Memory>
    requires some { 4 ≤ len }
    requires short { len < 2 ^ 32 }
    requires keys { 2 ≤ length blocks.now.keys.now }
    requires first { blocks.now.first ≡ first_eight blocks.now.keys.now blocks.now.counter }
    ensures { IfOk result (λ v. v.items ≡ mask_by blocks.now.keys.now blocks.now.counter len) }
{
    let mut mask = vec![in alloc; 0u8; 4]?;
    let body = body_stream(alloc, blocks, (len - 4).div_ceil(BLOCK_LEN))?;
    mask.extend_from_slice(&body)?;
    Ok(mask)
}

/// A packet, in clear or not, the other way: its length stays as it is.
#[tactic(auto, using(crate::specs::GcmLaws::length_mask))]
fn encrypted(alloc: Global, blocks: &Blocks<'_>, packet: &[u8]) -> Result<Vec<u8>, Memory>
    requires some { 4 ≤ length packet.now }
    requires short { length packet.now < 2 ^ 32 }
    requires keys { 2 ≤ length blocks.now.keys.now }
    requires first { blocks.now.first ≡ first_eight blocks.now.keys.now blocks.now.counter }
    ensures { IfOk result (λ v. v.items ≡ xored packet.now (mask_by blocks.now.keys.now blocks.now.counter (length packet.now))) }
{
    let mask = mask(alloc, blocks, packet.len())?;
    let mut encrypted = Vec::from_slice(alloc, packet)?;
    xor_with(&mut encrypted, &mask);
    Ok(encrypted)
}

/// The tag of a sealed packet, whose length is the additional data (SP 800-38D section 7.1; RFC 5647 section 7.3).
fn tag(blocks: &Blocks<'_>, sealed: &[u8]) -> [u8; 16]
    requires some { 4 ≤ length sealed.now }
    requires short { length sealed.now < 2 ^ 32 }
    requires first { blocks.now.first ≡ first_eight blocks.now.keys.now blocks.now.counter }
    ensures { result ≡ tag_by blocks.now.keys.now blocks.now.counter sealed.now }
{
    let (additional, body) = sealed.split_at(4);
    let hash = ghash(blocks.first[0], additional, body);
    (blocks.first[1] ^ hash).to_be_bytes()
}

/// The sealed packet with its tag; nothing is sealed of what has no length.
#[tactic(auto, using(crate::specs::GcmLaws::length_encrypted), unfolding(crate::specs::Gcm::seal, crate::specs::Gcm::encrypted, crate::specs::Gcm::mask, crate::specs::Gcm::tag))]
pub(crate) fn seal(
    alloc: Global,
    is_short: bool,
    iv: &[u8],
    enc: &[u8],
    packet: &[u8],
) -> Result<Vec<u8>, Memory>
    requires { length packet.now < 2 ^ 32 }
    ensures { IfOk result (λ v. v.items ≡ seal is_short iv.now enc.now packet.now) }
{
    if packet.len() < 4 {
        return Ok(Vec::new(alloc));
    }
    let keys = keys_by(is_short, enc);
    let blocks = blocks_of(keys.as_slice(), iv);
    let mut sealed = encrypted(alloc, &blocks, packet)?;
    let tag = tag(&blocks, &sealed);
    sealed.extend_from_slice(&tag)?;
    Ok(sealed)
}

/// The packet, where the tag is its own.
#[tactic(auto, unfolding(crate::specs::Gcm::checked, crate::specs::Gcm::encrypted, crate::specs::Gcm::mask, crate::specs::Gcm::tag))]
fn checked(
    alloc: Global,
    is_short: bool,
    iv: &[u8],
    enc: &[u8],
    covered: &[u8],
    found: &[u8],
) -> Result<Option<Vec<u8>>, Memory>
    requires some { 4 ≤ length covered.now }
    requires short { length covered.now < 2 ^ 32 }
    requires found { length found.now ≡ 16 }
    ensures { IfOk result (λ o. option_map (λ v. v.items) o ≡ checked is_short iv.now enc.now covered.now found.now) }
{
    let keys = keys_by(is_short, enc);
    let blocks = blocks_of(keys.as_slice(), iv);
    if is_equal(found, &tag(&blocks, covered)) {
        let clear = encrypted(alloc, &blocks, covered)?;
        Ok(Some(clear))
    } else {
        Ok(None)
    }
}

/// The clear packet without its tag, where the tag is its own.
#[tactic(auto, unfolding(crate::specs::Gcm::unseal))]
pub(crate) fn unseal(
    alloc: Global,
    is_short: bool,
    iv: &[u8],
    enc: &[u8],
    sealed: &[u8],
) -> Result<Option<Vec<u8>>, Memory>
    requires { length sealed.now < 2 ^ 32 }
    ensures { IfOk result (λ o. option_map (λ v. v.items) o ≡ unseal is_short iv.now enc.now sealed.now) }
{
    if sealed.len() < 4 + TAG_LEN {
        return Ok(None);
    }
    let (covered, found) = sealed.split_at(sealed.len() - TAG_LEN);
    checked(alloc, is_short, iv, enc, covered, found)
}

/// The vector after this one, as a number, with four bytes of the counter: its last 8 bytes are a number, which is raised by one (RFC
/// 5647 section 7.1).
#[tactic(auto, unfolding(crate::specs::Gcm::raised))]
fn raised(iv: &[u8]) -> u128
    ensures { result ≡ raised iv.now }
{
    let n = number_at(&whole_key(iv), 0);
    let fixed = n >> 96;
    let count = ((n >> 32) + 1) % 0x10000000000000000;
    (fixed << 96) + (count << 32)
}

/// Makes the vector that of the next packet, where it has 12 bytes.
#[tactic(auto, unfolding(crate::specs::Gcm::next_iv))]
pub(crate) fn advance(keys: &mut Keys)
    ensures next { keys.new ≡ record keys.old { iv = next_iv keys.old.iv } }
    ensures length { length keys.new.iv ≡ length keys.old.iv }
{
    if keys.iv().len() == IV_LEN {
        let next = raised(keys.iv()).to_be_bytes();
        keys.set_iv(&next[..IV_LEN]);
    }
}
