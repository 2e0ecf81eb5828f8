//! The sponge construction over Keccak-f[1600] (FIPS 202 section 4), and the hashes and extendable outputs that use it (section
//! 6). Inputs and outputs are whole bytes.

ghost use Rattle.std.specs.Prelude.{◌≡◌, ◌<◌, ◌≤◌, ◌+◌, ◌*◌, length, take};
ghost use Rattle.sshkeccak.specs.Sponge.{absorbed, bytes_of, filled_up, joined, lane_at, last_block, sha3_256, sha3_512, shake128_block, shake128_next, shake128_start, shake256_32, shake256_96, shake256_128, sponge};

use crate::keccak::{Lanes, keccak};

/// The rate of SHAKE128 in lanes of 8 bytes: 1344 bits.
const RATE_128: usize = 21;

/// The rate of SHA3-256 and SHAKE256 in lanes of 8 bytes: 1088 bits.
const RATE_256: usize = 17;

/// The rate of SHA3-512 in lanes of 8 bytes: 576 bits.
const RATE_512: usize = 9;

/// The byte after the input of a hash: its suffix 01 and the first bit of the padding (FIPS 202 sections 6.1 and B.2).
const HASH: u8 = 0x06;

/// The byte after the input of SHAKE: its suffix 1111 and the first bit of the padding (FIPS 202 sections 6.2 and B.2).
const EXTENDABLE: u8 = 0x1f;

/// The lane that eight bytes spell, from byte i on, the lowest first (FIPS 202 sections 3.1.2 and B.1).
#[inline(always)]
#[tactic(auto, unfolding(crate::specs::Sponge::lane_at))]
fn lane_at(bytes: &[u8], i: usize) -> u64
    requires { i + 8 ≤ length bytes.now }
    ensures { result ≡ lane_at bytes.now i }
{
    u64::from_le_bytes([
        bytes[i],
        bytes[i + 1],
        bytes[i + 2],
        bytes[i + 3],
        bytes[i + 4],
        bytes[i + 5],
        bytes[i + 6],
        bytes[i + 7],
    ])
}

/// Absorbs one block: adds its lanes to the first lanes of the state, and permutes (FIPS 202 section 4, algorithm 8, step 6).
/// The block has `lanes` lanes and begins at byte `at`.
#[tactic(auto, using(crate::specs::Repeated::repeated_none, crate::specs::Repeated::repeated_more), unfolding(crate::specs::Sponge::joined, crate::specs::Sponge::absorbed))]
fn absorbed(a: Lanes, bytes: &[u8], at: usize, lanes: usize) -> Lanes
    requires lanes { lanes ≤ 25 }
    requires bytes { at + 8 * lanes ≤ length bytes.now }
    ensures { result ≡ absorbed a bytes.now at lanes }
{
    let mut state = a;
    for i in 0..lanes {
        state[i] ^= lane_at(bytes, at + 8 * i);
    }
    keccak(state)
}

/// The bytes, followed by zeros up to 200 bytes.
#[tactic(auto, unfolding(crate::specs::Sponge::filled_up))]
fn filled_up(bytes: &[u8]) -> [u8; 200]
    requires { length bytes.now ≤ 200 }
    ensures { result ≡ filled_up bytes.now }
{
    let mut filled = [0; 200];
    filled[..bytes.len()].copy_from_slice(bytes);
    filled
}

/// The last block, of `rate` bytes: the rest of the input, the suffix, zeros and the last bit of the padding (FIPS 202 section
/// 5.1). The bytes after the first `rate` are zeros.
#[tactic(auto, unfolding(crate::specs::Sponge::last_block))]
fn last_block(rest: &[u8], rate: usize, suffix: u8) -> [u8; 200]
    requires rate { rate ≤ 200 }
    requires rest { length rest.now < rate }
    ensures { result ≡ last_block rest.now rate suffix }
{
    let mut block = filled_up(rest);
    block[rest.len()] = suffix;
    block[rate - 1] ^= 0x80;
    block
}

/// The state that has absorbed a whole input (FIPS 202 section 4, algorithm 8, steps 1 to 6).
#[tactic(auto, using(crate::specs::Repeated::repeated_none, crate::specs::Repeated::repeated_more), unfolding(crate::specs::Sponge::absorbed_next, crate::specs::Sponge::sponge))]
fn sponge(lanes: usize, suffix: u8, input: &[u8]) -> Lanes
    requires some { 0 < lanes }
    requires lanes { lanes ≤ 25 }
    ensures { result ≡ sponge lanes suffix input.now }
{
    let rate = 8 * lanes;
    let whole = input.len() / rate;
    let mut state = [0; 25];
    for i in 0..whole {
        let next = absorbed(state, input, rate * i, lanes);
        state = next;
    }
    let last = last_block(&input[rate * whole..], rate, suffix);
    absorbed(state, &last, 0, lanes)
}

/// The bytes of a state, the lowest of each lane first (FIPS 202 sections 3.1.3 and B.1).
#[tactic(auto, using(crate::specs::Repeated::repeated_none, crate::specs::Repeated::repeated_more), unfolding(crate::specs::Sponge::with_byte, crate::specs::Sponge::bytes_of))]
fn bytes_of(a: &Lanes) -> [u8; 200]
    ensures { result ≡ bytes_of a.now }
{
    let mut bytes = [0; 200];
    for i in 0..200 {
        bytes[i] = ((a[i / 8] >> (8 * (i % 8))) % 256) as u8;
    }
    bytes
}

/// The first N bytes.
fn first_bytes<const N: usize>(bytes: &[u8]) -> [u8; N]
    requires { N ≤ length bytes.now }
    ensures { result ≡ take N bytes.now }
{
    let mut first = [0; N];
    first.copy_from_slice(&bytes[..N]);
    first
}

/// SHA3-256 of an input of any length: a digest of 32 bytes (FIPS 202 section 6.1). It never fails and allocates nothing.
#[tactic(auto, unfolding(crate::specs::Sponge::sha3_256))]
pub fn sha3_256(input: &[u8]) -> [u8; 32]
    ensures { result ≡ sha3_256 input.now }
{
    first_bytes(&bytes_of(&sponge(RATE_256, HASH, input)))
}

/// SHA3-512 of an input of any length: a digest of 64 bytes (FIPS 202 section 6.1). It never fails and allocates nothing.
#[tactic(auto, unfolding(crate::specs::Sponge::sha3_512))]
pub fn sha3_512(input: &[u8]) -> [u8; 64]
    ensures { result ≡ sha3_512 input.now }
{
    first_bytes(&bytes_of(&sponge(RATE_512, HASH, input)))
}

/// The first 32 bytes of SHAKE256 of an input of any length (FIPS 202 section 6.2). It never fails and allocates nothing.
#[tactic(auto, unfolding(crate::specs::Sponge::shake256_32))]
pub fn shake256_32(input: &[u8]) -> [u8; 32]
    ensures { result ≡ shake256_32 input.now }
{
    first_bytes(&bytes_of(&sponge(RATE_256, EXTENDABLE, input)))
}

/// The first 96 bytes of SHAKE256 of an input of any length (FIPS 202 section 6.2). It never fails and allocates nothing.
#[tactic(auto, unfolding(crate::specs::Sponge::shake256_96))]
pub fn shake256_96(input: &[u8]) -> [u8; 96]
    ensures { result ≡ shake256_96 input.now }
{
    first_bytes(&bytes_of(&sponge(RATE_256, EXTENDABLE, input)))
}

/// The first 128 bytes of SHAKE256 of an input of any length (FIPS 202 section 6.2). It never fails and allocates nothing.
#[tactic(auto, unfolding(crate::specs::Sponge::shake256_128))]
pub fn shake256_128(input: &[u8]) -> [u8; 128]
    ensures { result ≡ shake256_128 input.now }
{
    first_bytes(&bytes_of(&sponge(RATE_256, EXTENDABLE, input)))
}

/// Starts SHAKE128 of an input of any length (FIPS 202 section 6.2). `shake128_block` of the returned state is the first 168
/// bytes of the output, and `shake128_next` goes on from it. It never fails and allocates nothing.
#[tactic(auto, unfolding(crate::specs::Sponge::shake128_start))]
pub fn shake128_start(input: &[u8]) -> Lanes
    ensures { result ≡ shake128_start input.now }
{
    sponge(RATE_128, EXTENDABLE, input)
}

/// The state for the next 168 bytes of an output of SHAKE128 (FIPS 202 section 4, algorithm 8, step 10).
#[tactic(auto, unfolding(crate::specs::Sponge::shake128_next))]
pub fn shake128_next(state: Lanes) -> Lanes
    ensures { result ≡ shake128_next state }
{
    keccak(state)
}

/// The 168 bytes of an output of SHAKE128 that a state holds (FIPS 202 section 4, algorithm 8, step 8).
#[tactic(auto, unfolding(crate::specs::Sponge::shake128_block))]
pub fn shake128_block(state: &Lanes) -> [u8; 168]
    ensures { result ≡ shake128_block state.now }
{
    first_bytes(&bytes_of(state))
}
