//! AES of eight blocks at once. Plane k has bit k of each byte of them all: at each byte's place those of the eight blocks, the first
//! lowest. So rows and columns are turned in a plane as in a block.

ghost use Rattle.std.specs.Prelude.{◌≡◌, ◌<◌, ◌≤◌, ◌*◌, ◌/◌, ◌%◌, ◌^◌, bit_and, length};
ghost use Rattle.sshsuite.specs.SlicedAes.{eight_ciphers, exchanged, gathered, images, key_planes, keyed, mixed_plane, mixed_planes, planes_after, shifted_planes, spread, turned_planes};

use crate::aes::{LOWEST, joined, shift_rows, turned_words};
use crate::s_box::{Planes, circuit};

/// How many blocks are worked on at once.
pub(crate) const SLICED: usize = 8;

/// All bits.
const ALL: u128 = 0xffffffffffffffffffffffffffffffff;

/// Of eight numbers the bit with this number of each byte, those of the first number lowest.
#[tactic(auto, unfolding(crate::specs::SlicedAes::gathered))]
#[inline(always)]
fn gathered(b: Planes, k: u32) -> u128
    requires { k < 8 }
    ensures { result ≡ gathered b k }
{
    joined([
        (b[0] >> k) & LOWEST,
        (b[1] >> k) & LOWEST,
        (b[2] >> k) & LOWEST,
        (b[3] >> k) & LOWEST,
        (b[4] >> k) & LOWEST,
        (b[5] >> k) & LOWEST,
        (b[6] >> k) & LOWEST,
        (b[7] >> k) & LOWEST,
    ])
}

/// Bits and blocks exchanged: of eight blocks their planes, of planes their blocks.
#[tactic(auto, unfolding(crate::specs::SlicedAes::exchanged))]
fn exchanged(b: Planes) -> Planes
    ensures { result ≡ exchanged b }
{
    [
        gathered(b, 0),
        gathered(b, 1),
        gathered(b, 2),
        gathered(b, 3),
        gathered(b, 4),
        gathered(b, 5),
        gathered(b, 6),
        gathered(b, 7),
    ]
}

/// The bit with this number of each byte of a round key, for eight blocks.
#[tactic(auto, unfolding(crate::specs::SlicedAes::spread))]
#[inline(always)]
fn spread(key: u128, k: u32) -> u128
    requires { k < 8 }
    ensures { result ≡ spread key k }
{
    ((key >> k) & LOWEST).wrapping_mul(0xff)
}

/// The planes of a round key.
#[tactic(auto, unfolding(crate::specs::SlicedAes::key_planes))]
#[inline(always)]
fn key_planes(key: u128) -> Planes
    ensures { result ≡ key_planes key }
{
    [
        spread(key, 0),
        spread(key, 1),
        spread(key, 2),
        spread(key, 3),
        spread(key, 4),
        spread(key, 5),
        spread(key, 6),
        spread(key, 7),
    ]
}

/// Planes XOR planes.
#[tactic(auto, unfolding(crate::specs::SlicedAes::keyed))]
#[inline(always)]
fn keyed(p: Planes, k: Planes) -> Planes
    ensures { result ≡ keyed p k }
{
    [
        p[0] ^ k[0],
        p[1] ^ k[1],
        p[2] ^ k[2],
        p[3] ^ k[3],
        p[4] ^ k[4],
        p[5] ^ k[5],
        p[6] ^ k[6],
        p[7] ^ k[7],
    ]
}

/// The S-box of all bytes (FIPS 197 section 5.1.1).
#[tactic(auto, unfolding(crate::specs::SlicedAes::images))]
#[inline(always)]
fn images(p: Planes) -> Planes
    ensures { result ≡ images p }
{
    let q = circuit(p);
    [
        q[0] ^ ALL,
        q[1] ^ ALL,
        q[2],
        q[3],
        q[4],
        q[5] ^ ALL,
        q[6] ^ ALL,
        q[7],
    ]
}

/// The rows turned (section 5.1.2).
#[tactic(auto, unfolding(crate::specs::SlicedAes::shifted_planes))]
#[inline(always)]
fn shifted_planes(p: Planes) -> Planes
    ensures { result ≡ shifted_planes p }
{
    [
        shift_rows(p[0]),
        shift_rows(p[1]),
        shift_rows(p[2]),
        shift_rows(p[3]),
        shift_rows(p[4]),
        shift_rows(p[5]),
        shift_rows(p[6]),
        shift_rows(p[7]),
    ]
}

/// All bytes of a plane those below them in their columns.
#[tactic(auto, unfolding(crate::specs::SlicedAes::turned_planes))]
#[inline(always)]
fn turned_planes(p: Planes) -> Planes
    ensures { result ≡ turned_planes p }
{
    [
        turned_words(p[0]),
        turned_words(p[1]),
        turned_words(p[2]),
        turned_words(p[3]),
        turned_words(p[4]),
        turned_words(p[5]),
        turned_words(p[6]),
        turned_words(p[7]),
    ]
}

/// A plane of mixed columns: of the bytes below, of the sums with these, and of the doubled sums.
#[tactic(auto, unfolding(crate::specs::SlicedAes::mixed_plane))]
#[inline(always)]
fn mixed_plane(b: u128, u: u128, doubled: u128) -> u128
    ensures { result ≡ mixed_plane b u doubled }
{
    doubled ^ b ^ turned_words(turned_words(u))
}

/// The columns mixed (section 5.1.3).
#[tactic(auto, unfolding(crate::specs::SlicedAes::mixed_planes))]
#[inline(always)]
fn mixed_planes(p: Planes) -> Planes
    ensures { result ≡ mixed_planes p }
{
    let b = turned_planes(p);
    let u = keyed(p, b);
    [
        mixed_plane(b[0], u[0], u[7]),
        mixed_plane(b[1], u[1], u[0] ^ u[7]),
        mixed_plane(b[2], u[2], u[1]),
        mixed_plane(b[3], u[3], u[2] ^ u[7]),
        mixed_plane(b[4], u[4], u[3] ^ u[7]),
        mixed_plane(b[5], u[5], u[4]),
        mixed_plane(b[6], u[6], u[5]),
        mixed_plane(b[7], u[7], u[6]),
    ]
}

/// Eight blocks encrypted by their round keys (section 5.1), one more than there are rounds.
#[tactic(auto, using(crate::specs::SlicedAes::planes_none, crate::specs::SlicedAes::planes_more), unfolding(crate::specs::SlicedAes::eight_ciphers))]
pub(crate) fn eight_ciphers(keys: &[u128], blocks: Planes) -> Planes
    requires { 2 ≤ length keys.now }
    ensures { result ≡ eight_ciphers keys.now blocks }
{
    let mut state = keyed(exchanged(blocks), key_planes(keys[0]));
    for i in 0..keys.len() - 2 {
        state = keyed(
            mixed_planes(shifted_planes(images(state))),
            key_planes(keys[i + 1]),
        );
    }
    exchanged(keyed(
        shifted_planes(images(state)),
        key_planes(keys[keys.len() - 1]),
    ))
}
