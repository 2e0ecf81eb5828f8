//! AES by keys of 16 and of 32 bytes (FIPS 197), without tables: a block is a number of 128 bits, the first byte the highest, and
//! all its bytes are worked on at once, so that no branch and no index depends on one.

ghost use Rattle.std.specs.Prelude.{◌≡◌, ◌<◌, ◌≤◌, ◌+◌, length};
ghost use Rattle.sshsuite.specs.SlicedAes.{joined, planes};
ghost use Rattle.sshsuite.specs.Aes.{cipher, doubled, highest_bits, last_round, last_word, mix_columns, next_key, next_pair, number_at, others_raised, round, round_keys, shift_rows, short_round_keys, sub_bytes, summed_words, turned_words};

use crate::s_box::{Planes, circuit};

/// The lowest bit of each byte.
pub(crate) const LOWEST: u128 = 0x01010101010101010101010101010101;

/// The number of 16 bytes at a place, the highest first.
#[tactic(auto, unfolding(crate::specs::Aes::number_at))]
pub(crate) fn number_at(bytes: &[u8], i: usize) -> u128
    requires { i + 16 ≤ length bytes.now }
    ensures { result ≡ number_at bytes.now i }
{
    u128::from_be_bytes([
        bytes[i],
        bytes[i + 1],
        bytes[i + 2],
        bytes[i + 3],
        bytes[i + 4],
        bytes[i + 5],
        bytes[i + 6],
        bytes[i + 7],
        bytes[i + 8],
        bytes[i + 9],
        bytes[i + 10],
        bytes[i + 11],
        bytes[i + 12],
        bytes[i + 13],
        bytes[i + 14],
        bytes[i + 15],
    ])
}

/// The highest bit of each byte, as its lowest.
#[tactic(auto, unfolding(crate::specs::Aes::highest_bits))]
#[inline(always)]
fn highest_bits(a: u128) -> u128
    ensures { result ≡ highest_bits a }
{
    (a >> 7) & LOWEST
}

/// The seven other bits of each byte, one place higher.
#[tactic(auto, unfolding(crate::specs::Aes::others_raised))]
#[inline(always)]
fn others_raised(a: u128) -> u128
    ensures { result ≡ others_raised a }
{
    (a & 0x7f7f7f7f7f7f7f7f7f7f7f7f7f7f7f7f) << 1
}

/// Each byte times x in GF(2^8), modulo x^8 + x^4 + x^3 + x + 1 (FIPS 197 section 4.2).
#[tactic(auto, unfolding(crate::specs::Aes::doubled))]
#[inline(always)]
fn doubled(a: u128) -> u128
    ensures { result ≡ doubled a }
{
    others_raised(a) ^ highest_bits(a).wrapping_mul(0x1b)
}

/// The bits of each byte apart: of each number, the lowest bit of each byte.
#[tactic(auto, unfolding(crate::specs::SlicedAes::planes))]
#[inline(always)]
fn planes(a: u128) -> Planes
    ensures { result ≡ planes a }
{
    [
        a & LOWEST,
        (a >> 1) & LOWEST,
        (a >> 2) & LOWEST,
        (a >> 3) & LOWEST,
        (a >> 4) & LOWEST,
        (a >> 5) & LOWEST,
        (a >> 6) & LOWEST,
        (a >> 7) & LOWEST,
    ]
}

/// The bytes of bits that stand apart.
#[tactic(auto, unfolding(crate::specs::SlicedAes::joined))]
#[inline(always)]
pub(crate) fn joined(p: Planes) -> u128
    ensures { result ≡ joined p }
{
    p[0] ^ (p[1] << 1)
        ^ (p[2] << 2)
        ^ (p[3] << 3)
        ^ (p[4] << 4)
        ^ (p[5] << 5)
        ^ (p[6] << 6)
        ^ (p[7] << 7)
}

/// The S-box of each byte (FIPS 197 section 5.1.1).
#[tactic(auto, using(crate::proofs::SlicedLemmas::by_circuit))]
fn sub_bytes(a: u128) -> u128
    ensures { result ≡ sub_bytes a }
{
    joined(circuit(planes(a))) ^ 0x63636363636363636363636363636363
}

/// The rows turned left, each by its number (FIPS 197 section 5.1.2).
#[tactic(auto, unfolding(crate::specs::Aes::shift_rows))]
#[inline(always)]
pub(crate) fn shift_rows(a: u128) -> u128
    ensures { result ≡ shift_rows a }
{
    (a & 0xff000000ff000000ff000000ff000000)
        | (a.rotate_left(32) & 0x00ff000000ff000000ff000000ff0000)
        | (a.rotate_left(64) & 0x0000ff000000ff000000ff000000ff00)
        | (a.rotate_left(96) & 0x000000ff000000ff000000ff000000ff)
}

/// The bytes of each word of 32 bits turned left by one place (FIPS 197 section 5.2: RotWord).
#[tactic(auto, unfolding(crate::specs::Aes::turned_words))]
#[inline(always)]
pub(crate) fn turned_words(a: u128) -> u128
    ensures { result ≡ turned_words a }
{
    ((a << 8) & 0xffffff00ffffff00ffffff00ffffff00)
        | ((a >> 24) & 0x000000ff000000ff000000ff000000ff)
}

/// The columns mixed, which are the words of 32 bits (FIPS 197 section 5.1.3).
#[tactic(auto, unfolding(crate::specs::Aes::mix_columns))]
fn mix_columns(a: u128) -> u128
    ensures { result ≡ mix_columns a }
{
    let b = turned_words(a);
    let c = turned_words(b);
    let d = turned_words(c);
    doubled(a ^ b) ^ b ^ c ^ d
}

/// A round but the last (FIPS 197 section 5.1).
#[tactic(auto, unfolding(crate::specs::Aes::round))]
fn round(state: u128, key: u128) -> u128
    ensures { result ≡ round state key }
{
    mix_columns(shift_rows(sub_bytes(state))) ^ key
}

/// The last round, in which no column is mixed (FIPS 197 section 5.1).
#[tactic(auto, unfolding(crate::specs::Aes::last_round))]
fn last_round(state: u128, key: u128) -> u128
    ensures { result ≡ last_round state key }
{
    shift_rows(sub_bytes(state)) ^ key
}

/// The last word of a round key, four times.
#[tactic(auto, unfolding(crate::specs::Aes::last_word))]
fn last_word(key: u128) -> u128
    ensures { result ≡ last_word key }
{
    (key % 0x100000000).wrapping_mul(0x00000001000000010000000100000001)
}

/// Each word of a round key XOR all before it.
#[tactic(auto, unfolding(crate::specs::Aes::summed_words))]
fn summed_words(key: u128) -> u128
    ensures { result ≡ summed_words key }
{
    let pairs = key ^ (key >> 32);
    pairs ^ (pairs >> 64)
}

/// The round key of AES-128 after one, with this round constant (FIPS 197 section 5.2).
#[tactic(auto, unfolding(crate::specs::Aes::next_key))]
fn next_key(key: u128, constant: u128) -> u128
    ensures { result ≡ next_key key constant }
{
    let added = sub_bytes(turned_words(last_word(key)))
        ^ constant.wrapping_mul(0x01000000010000000100000001000000);
    summed_words(key) ^ added
}

/// The two round keys of AES-256 after two, with this round constant (FIPS 197 section 5.2).
#[tactic(auto, unfolding(crate::specs::Aes::next_pair))]
fn next_pair(pair: [u128; 2], constant: u128) -> [u128; 2]
    ensures { result ≡ next_pair pair constant }
{
    let added = sub_bytes(turned_words(last_word(pair[1])))
        ^ constant.wrapping_mul(0x01000000010000000100000001000000);
    let first = summed_words(pair[0]) ^ added;
    let second = summed_words(pair[1]) ^ sub_bytes(last_word(first));
    [first, second]
}

/// The round keys of AES-256, by a key's first 32 bytes (FIPS 197 section 5.2).
#[tactic(auto, unfolding(crate::specs::Aes::round_keys))]
pub(crate) fn round_keys(key: &[u8]) -> [u128; 15]
    requires { 32 ≤ length key.now }
    ensures { result ≡ round_keys key.now }
{
    let p0 = [number_at(key, 0), number_at(key, 16)];
    let p1 = next_pair(p0, 1);
    let p2 = next_pair(p1, 2);
    let p3 = next_pair(p2, 4);
    let p4 = next_pair(p3, 8);
    let p5 = next_pair(p4, 16);
    let p6 = next_pair(p5, 32);
    let p7 = next_pair(p6, 64);
    [
        p0[0], p0[1], p1[0], p1[1], p2[0], p2[1], p3[0], p3[1], p4[0], p4[1], p5[0], p5[1], p6[0],
        p6[1], p7[0],
    ]
}

/// The round keys of AES-128, by a key's first 16 bytes (FIPS 197 section 5.2).
#[tactic(auto, unfolding(crate::specs::Aes::short_round_keys))]
pub(crate) fn short_round_keys(key: &[u8]) -> [u128; 11]
    requires { 16 ≤ length key.now }
    ensures { result ≡ short_round_keys key.now }
{
    let k0 = number_at(key, 0);
    let k1 = next_key(k0, 1);
    let k2 = next_key(k1, 2);
    let k3 = next_key(k2, 4);
    let k4 = next_key(k3, 8);
    let k5 = next_key(k4, 16);
    let k6 = next_key(k5, 32);
    let k7 = next_key(k6, 64);
    let k8 = next_key(k7, 128);
    let k9 = next_key(k8, 0x1b);
    let k10 = next_key(k9, 0x36);
    [k0, k1, k2, k3, k4, k5, k6, k7, k8, k9, k10]
}

/// A block encrypted by its round keys (FIPS 197 section 5.1), one more than there are rounds. How many these are tells
/// how long the key is, which is no secret.
#[tactic(auto, using(crate::specs::Aes::rounds_none, crate::specs::Aes::rounds_more), unfolding(crate::specs::Aes::cipher))]
pub(crate) fn cipher(keys: &[u128], block: u128) -> u128
    requires { 2 ≤ length keys.now }
    ensures { result ≡ cipher keys.now block }
{
    let mut state = block ^ keys[0];
    for i in 0..keys.len() - 2 {
        state = round(state, keys[i + 1]);
    }
    last_round(state, keys[keys.len() - 1])
}
