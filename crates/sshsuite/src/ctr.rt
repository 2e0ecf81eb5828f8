//! aes128-ctr and aes256-ctr (RFC 4344 section 4) under hmac-sha2-256 and hmac-sha2-512 (RFC 6668), and under their forms of
//! OpenSSH that cover what is sealed (PROTOCOL section 1.5).

ghost use Rattle.std.specs.Prelude.{◌≡◌, ◌<◌, ◌≤◌, ◌^◌, IfOk, length, option_map};
ghost use Rattle.sshsuite.specs.CipherNames.{is_short_key, keys_by};
ghost use Rattle.sshsuite.specs.CounterMode.{stream_block};
ghost use Rattle.sshwire.specs.Masks.{xored};
ghost use Rattle.sshsuite.specs.Ctr.{checked, clear_length, counter_of, covers_sealed, crossed, head, is_by_sha512, mask, next_iv, seal, tag, tag_length, tag_over, unseal};

use crate::aes::{cipher, number_at};
use crate::bits::xor_with;
use crate::cipher_names::{is_short_key, keys_by};
use crate::constant_time::is_equal;
use crate::counter_mode::{BLOCK_LEN, stream};
use crate::hmac::{hmac_sha256, hmac_sha512};
use crate::sealing::whole_key;
use sshpacket::{Keys, leading_uint32};
use sshwire::Memory;
use std::alloc::Global;

/// How many bytes the length of a packet has.
const LENGTH_LEN: usize = 4;

/// Whether this MAC covers what is sealed, and not what is clear.
#[tactic(auto, unfolding(crate::specs::Ctr::covers_sealed))]
pub(crate) fn covers_sealed(mac: &str) -> bool
    ensures { result ≡ covers_sealed mac.now }
{
    mac == "hmac-sha2-256-etm@openssh.com" || mac == "hmac-sha2-512-etm@openssh.com"
}

/// Whether this MAC is by SHA-512; every other one is by SHA-256.
#[tactic(auto, unfolding(crate::specs::Ctr::is_by_sha512))]
fn is_by_sha512(mac: &str) -> bool
    ensures { result ≡ is_by_sha512 mac.now }
{
    mac == "hmac-sha2-512" || mac == "hmac-sha2-512-etm@openssh.com"
}

/// How many bytes a tag of this MAC has, and its key.
pub(crate) fn tag_length(mac: &str) -> u8
    ensures { result ≡ tag_length mac.now }
{
    if is_by_sha512(mac) { 64 } else { 32 }
}

/// How many bytes at the front of a packet stay in clear: its length, where the tag covers what is sealed.
fn clear_length(mac: &str) -> usize
    ensures { result ≡ clear_length mac.now }
{
    if covers_sealed(mac) { LENGTH_LEN } else { 0 }
}

/// The counter of a packet's first block: the vector as a number.
fn counter_of(iv: &[u8]) -> u128
    ensures { result ≡ counter_of iv.now }
{
    number_at(&whole_key(iv), 0)
}

/// The mask of a packet of so many bytes.
#[tactic(auto, unfolding(crate::specs::Ctr::mask))]
fn mask(alloc: Global, keys: &Keys, len: usize) -> Result<Vec<u8>, Memory>
    requires some { 4 ≤ len }
    requires short { len < 2 ^ 32 }
    ensures { IfOk result (λ v. v.items ≡ mask keys.now len) }
{
    let front = clear_length(keys.mac());
    let mut mask = vec![in alloc; 0u8; front]?;
    let round_keys = keys_by(is_short_key(keys.cipher()), keys.enc());
    let body = stream(
        alloc,
        round_keys.as_slice(),
        counter_of(keys.iv()),
        0,
        [0; 8],
        (len - front).div_ceil(BLOCK_LEN),
    )?;
    mask.extend_from_slice(&body)?;
    Ok(mask)
}

/// A packet, in clear or not, the other way.
#[tactic(auto, using(crate::specs::CtrLaws::length_mask), unfolding(crate::specs::Ctr::crossed))]
fn crossed(alloc: Global, keys: &Keys, packet: &[u8]) -> Result<Vec<u8>, Memory>
    requires some { 4 ≤ length packet.now }
    requires short { length packet.now < 2 ^ 32 }
    ensures { IfOk result (λ v. v.items ≡ crossed keys.now packet.now) }
{
    let mask = mask(alloc, keys, packet.len())?;
    let mut crossed = Vec::from_slice(alloc, packet)?;
    xor_with(&mut crossed, &mask);
    Ok(crossed)
}

/// The tag by these keys of what it covers, with the packet's number before it.
#[tactic(auto, unfolding(crate::specs::Ctr::tag_over))]
fn tag_over(alloc: Global, keys: &Keys, seq: u32, covered: &[u8]) -> Result<Vec<u8>, Memory>
    ensures tag { IfOk result (λ v. v.items ≡ tag_over keys.now seq covered.now) }
    ensures length { IfOk result (λ v. length v.items ≡ tag_length keys.now.mac) }
{
    if is_by_sha512(keys.mac()) {
        Ok(Vec::from_slice(alloc, &hmac_sha512(keys.mac_key(), seq, covered))?)
    } else {
        Ok(Vec::from_slice(alloc, &hmac_sha256(keys.mac_key(), seq, covered))?)
    }
}

/// The tag of a packet, which is so in clear, and so sealed.
fn tag(alloc: Global, keys: &Keys, seq: u32, clear: &[u8], sealed: &[u8]) -> Result<Vec<u8>, Memory>
    ensures tag { IfOk result (λ v. v.items ≡ tag keys.now seq clear.now sealed.now) }
    ensures length { IfOk result (λ v. length v.items ≡ tag_length keys.now.mac) }
{
    if covers_sealed(keys.mac()) {
        tag_over(alloc, keys, seq, sealed)
    } else {
        tag_over(alloc, keys, seq, clear)
    }
}

/// The sealed packet with its tag; nothing is sealed of what has no length.
#[tactic(auto, unfolding(crate::specs::Ctr::seal))]
pub(crate) fn seal(alloc: Global, keys: &Keys, seq: u32, packet: &[u8]) -> Result<Vec<u8>, Memory>
    requires { length packet.now < 2 ^ 32 }
    ensures { IfOk result (λ v. v.items ≡ seal keys.now seq packet.now) }
{
    if packet.len() < LENGTH_LEN {
        return Ok(Vec::new(alloc));
    }
    let mut sealed = crossed(alloc, keys, packet)?;
    let tag = tag(alloc, keys, seq, packet, &sealed)?;
    sealed.extend_from_slice(&tag)?;
    Ok(sealed)
}

/// The first four bytes of a sealed packet, which stand in its first block, in clear.
#[tactic(auto, unfolding(crate::specs::CounterMode::stream_block, crate::specs::CounterMode::stream_number))]
fn unmasked(keys: &Keys, first: [u8; 4]) -> [u8; 4]
    ensures { result ≡ xored first (stream_block (keys_by (is_short_key keys.now.cipher) keys.now.enc) (counter_of keys.now.iv) 0) }
{
    let round_keys = keys_by(is_short_key(keys.cipher()), keys.enc());
    let block = cipher(round_keys.as_slice(), counter_of(keys.iv()));
    let mut clear = first;
    xor_with(&mut clear, &block.to_be_bytes());
    clear
}

/// The length of a sealed packet: where the tag covers what is sealed it stands in clear, else in the first block.
#[tactic(auto, using(crate::proofs::CtrLemmas::head_in_clear, crate::proofs::CtrLemmas::head_in_block))]
pub(crate) fn head(keys: &Keys, first: [u8; 4]) -> u32
    ensures { result ≡ head keys.now first }
{
    if covers_sealed(keys.mac()) {
        leading_uint32(&first)
    } else {
        leading_uint32(&unmasked(keys, first))
    }
}

/// The packet, where the tag is its own.
#[tactic(auto, unfolding(crate::specs::Ctr::checked))]
fn checked(
    alloc: Global,
    keys: &Keys,
    seq: u32,
    sealed: &[u8],
    found: &[u8],
) -> Result<Option<Vec<u8>>, Memory>
    requires some { 4 ≤ length sealed.now }
    requires short { length sealed.now < 2 ^ 32 }
    requires found { length found.now ≡ tag_length keys.now.mac }
    ensures { IfOk result (λ o. option_map (λ v. v.items) o ≡ checked keys.now seq sealed.now found.now) }
{
    let clear = crossed(alloc, keys, sealed)?;
    let tag = tag(alloc, keys, seq, &clear, sealed)?;
    if is_equal(found, &tag) {
        Ok(Some(clear))
    } else {
        Ok(None)
    }
}

/// The clear packet without its tag, where the tag is its own.
#[tactic(auto, unfolding(crate::specs::Ctr::unseal))]
pub(crate) fn unseal(
    alloc: Global,
    keys: &Keys,
    seq: u32,
    sealed: &[u8],
) -> Result<Option<Vec<u8>>, Memory>
    requires { length sealed.now < 2 ^ 32 }
    ensures { IfOk result (λ o. option_map (λ v. v.items) o ≡ unseal keys.now seq sealed.now) }
{
    let tag_len = usize::from(tag_length(keys.mac()));
    if sealed.len() < LENGTH_LEN + tag_len {
        return Ok(None);
    }
    let (body, found) = sealed.split_at(sealed.len() - tag_len);
    checked(alloc, keys, seq, body, found)
}

/// Makes the vector that of the next packet, after one of so many bytes: its counter goes on by the packet's blocks.
#[tactic(auto, unfolding(crate::specs::Ctr::next_iv))]
pub(crate) fn advance(keys: &mut Keys, len: usize)
    ensures next { keys.new ≡ record keys.old { iv = next_iv keys.old len } }
    ensures length { length keys.new.iv ≡ length keys.old.iv }
{
    if keys.iv().len() == BLOCK_LEN {
        let uncounted = usize::from(tag_length(keys.mac())) + clear_length(keys.mac());
        let blocks = len.saturating_sub(uncounted) / BLOCK_LEN;
        let next = counter_of(keys.iv()).wrapping_add(blocks as u128);
        keys.set_iv(&next.to_be_bytes());
    }
}
