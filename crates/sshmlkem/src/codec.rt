//! Numbers of d bits as bytes, and bytes as numbers (FIPS 203 algorithms 5 and 6, ByteEncode and ByteDecode), for each d that
//! ML-KEM-768 uses. Numbers of 10, 4 and 1 bits are compressed before they are encoded, and decompressed after they are decoded
//! (FIPS 203 section 4.2.1). As written, no branch and no index depends on a number, but for the modulus check of a public key.

ghost use Rattle.std.specs.Prelude.{◌≡◌, ◌<◌, ◌*◌, ◌/◌, ◌%◌, ◌^◌, length};
ghost use Rattle.sshmlkem.specs.Codec.{are_reduced, byte_of_bits, compressed, decode_1, decode_10, decode_12, decode_4, decompressed, encode_1, encode_10, encode_12, encode_4, first_12, second_12};

use crate::field::{Polynomial, quotient, reduced};

/// The lowest byte of a number.
#[inline(always)]
fn byte(n: u16) -> u8
    ensures { result ≡ n % 256 }
{
    (n % 256) as u8
}

/// A number modulo q, compressed to 10 bits: the nearest of 2^10 steps (FIPS 203 formula 4.7).
#[inline(always)]
#[tactic(auto, unfolding(crate::specs::Codec::compressed))]
fn compressed_10(n: u16) -> u16
    ensures { result ≡ compressed 10 n }
{
    (quotient(u32::from(n) * 1024 + 1664) % 1024) as u16
}

/// The number modulo q that is nearest to a number of 10 bits, in steps (FIPS 203 formula 4.8).
#[inline(always)]
#[tactic(auto, unfolding(crate::specs::Codec::decompressed))]
fn decompressed_10(n: u16) -> u16
    requires { n < 1024 }
    ensures { result ≡ decompressed 10 n }
{
    reduced((u32::from(n) * 3329 + 512) / 1024)
}

/// A number modulo q, compressed to 4 bits: the nearest of 2^4 steps (FIPS 203 formula 4.7).
#[inline(always)]
#[tactic(auto, unfolding(crate::specs::Codec::compressed))]
fn compressed_4(n: u16) -> u16
    ensures { result ≡ compressed 4 n }
{
    (quotient(u32::from(n) * 16 + 1664) % 16) as u16
}

/// The number modulo q that is nearest to a number of 4 bits, in steps (FIPS 203 formula 4.8).
#[inline(always)]
#[tactic(auto, unfolding(crate::specs::Codec::decompressed))]
fn decompressed_4(n: u16) -> u16
    requires { n < 16 }
    ensures { result ≡ decompressed 4 n }
{
    reduced((u32::from(n) * 3329 + 8) / 16)
}

/// A number modulo q, compressed to one bit: the nearest of two steps (FIPS 203 formula 4.7).
#[inline(always)]
#[tactic(auto, unfolding(crate::specs::Codec::compressed))]
fn compressed_1(n: u16) -> u16
    ensures number { result ≡ compressed 1 n }
    ensures bit { result < 2 }
{
    (quotient(u32::from(n) * 2 + 1664) % 2) as u16
}

/// The number modulo q that is nearest to a bit, in steps (FIPS 203 formula 4.8).
#[inline(always)]
#[tactic(auto, unfolding(crate::specs::Codec::decompressed))]
fn decompressed_1(n: u16) -> u16
    requires { n < 2 }
    ensures { result ≡ decompressed 1 n }
{
    reduced((u32::from(n) * 3329 + 1) / 2)
}

/// Encodes 256 numbers of 12 bits each (FIPS 203 algorithm 5, for d = 12).
#[tactic(auto, using(sshkeccak::specs::Repeated::repeated_none, sshkeccak::specs::Repeated::repeated_more), unfolding(crate::specs::Codec::encode_12, crate::specs::Codec::with_encoded_12))]
pub(crate) fn encode_12(f: &Polynomial) -> [u8; 384]
    ensures { result ≡ encode_12 f.now }
{
    let mut bytes = [0; 384];
    for i in 0..128 {
        let (a, b) = (f[2 * i], f[2 * i + 1]);
        bytes[3 * i] = byte(a);
        bytes[3 * i + 1] = byte(a / 256 + b % 16 * 16);
        bytes[3 * i + 2] = byte(b / 16);
    }
    bytes
}

/// The first of the two numbers of 12 bits in three bytes, of which this takes two.
#[inline(always)]
#[tactic(auto, unfolding(crate::specs::Codec::first_12))]
pub(crate) fn first_12(a: u8, b: u8) -> u16
    ensures { result ≡ first_12 a b }
{
    u16::from(a) + u16::from(b) % 16 * 256
}

/// The second of the two numbers of 12 bits in three bytes, of which this takes the last two.
#[inline(always)]
#[tactic(auto, unfolding(crate::specs::Codec::second_12))]
pub(crate) fn second_12(b: u8, c: u8) -> u16
    ensures { result ≡ second_12 b c }
{
    u16::from(b) / 16 + u16::from(c) * 16
}

/// Decodes 256 numbers of 12 bits each, modulo q (FIPS 203 algorithm 6, for d = 12).
#[tactic(auto, using(sshkeccak::specs::Repeated::repeated_none, sshkeccak::specs::Repeated::repeated_more), unfolding(crate::specs::Codec::decode_12, crate::specs::Codec::with_decoded_12))]
pub(crate) fn decode_12(bytes: &[u8]) -> Polynomial
    requires { length bytes.now ≡ 384 }
    ensures { result ≡ decode_12 bytes.now }
{
    let mut f = [0; 256];
    for i in 0..128 {
        let (a, b, c) = (bytes[3 * i], bytes[3 * i + 1], bytes[3 * i + 2]);
        f[2 * i] = reduced(u32::from(first_12(a, b)));
        f[2 * i + 1] = reduced(u32::from(second_12(b, c)));
    }
    f
}

/// Whether each of 768 numbers of 12 bits is below q: the modulus check (FIPS 203 section 7.2). The bytes are a public key's.
#[tactic(auto, using(sshkeccak::specs::Repeated::repeated_none, sshkeccak::specs::Repeated::repeated_more), unfolding(crate::specs::Codec::are_reduced, crate::specs::Codec::is_reduced_too))]
pub(crate) fn are_reduced(bytes: &[u8]) -> bool
    requires { length bytes.now ≡ 1152 }
    ensures { result ≡ are_reduced bytes.now }
{
    let mut all = true;
    for i in 0..384 {
        let (a, b, c) = (bytes[3 * i], bytes[3 * i + 1], bytes[3 * i + 2]);
        all = all && (first_12(a, b) < 3329 && second_12(b, c) < 3329);
    }
    all
}

/// Compresses 256 numbers to 10 bits each, and encodes them (FIPS 203 algorithm 5, for d = 10).
#[tactic(auto, using(sshkeccak::specs::Repeated::repeated_none, sshkeccak::specs::Repeated::repeated_more), unfolding(crate::specs::Codec::encode_10, crate::specs::Codec::with_encoded_10))]
pub(crate) fn encode_10(f: &Polynomial) -> [u8; 320]
    ensures { result ≡ encode_10 f.now }
{
    let mut bytes = [0; 320];
    for i in 0..64 {
        let (a, b) = (compressed_10(f[4 * i]), compressed_10(f[4 * i + 1]));
        let (c, d) = (compressed_10(f[4 * i + 2]), compressed_10(f[4 * i + 3]));
        bytes[5 * i] = byte(a);
        bytes[5 * i + 1] = byte(a / 256 + b % 64 * 4);
        bytes[5 * i + 2] = byte(b / 64 + c % 16 * 16);
        bytes[5 * i + 3] = byte(c / 16 + d % 4 * 64);
        bytes[5 * i + 4] = byte(d / 4);
    }
    bytes
}

/// Decodes 256 numbers of 10 bits each, and decompresses them (FIPS 203 algorithm 6, for d = 10).
#[tactic(auto, using(sshkeccak::specs::Repeated::repeated_none, sshkeccak::specs::Repeated::repeated_more), unfolding(crate::specs::Codec::decode_10, crate::specs::Codec::with_decoded_10))]
pub(crate) fn decode_10(bytes: &[u8]) -> Polynomial
    requires { length bytes.now ≡ 320 }
    ensures { result ≡ decode_10 bytes.now }
{
    let mut f = [0; 256];
    for i in 0..64 {
        let (a, b) = (u16::from(bytes[5 * i]), u16::from(bytes[5 * i + 1]));
        let (c, d) = (u16::from(bytes[5 * i + 2]), u16::from(bytes[5 * i + 3]));
        let e = u16::from(bytes[5 * i + 4]);
        f[4 * i] = decompressed_10(a + b % 4 * 256);
        f[4 * i + 1] = decompressed_10(b / 4 + c % 16 * 64);
        f[4 * i + 2] = decompressed_10(c / 16 + d % 64 * 16);
        f[4 * i + 3] = decompressed_10(d / 64 + e * 4);
    }
    f
}

/// Compresses 256 numbers to 4 bits each, and encodes them (FIPS 203 algorithm 5, for d = 4).
#[tactic(auto, using(sshkeccak::specs::Repeated::repeated_none, sshkeccak::specs::Repeated::repeated_more), unfolding(crate::specs::Codec::encode_4, crate::specs::Codec::with_encoded_4))]
pub(crate) fn encode_4(f: &Polynomial) -> [u8; 128]
    ensures { result ≡ encode_4 f.now }
{
    let mut bytes = [0; 128];
    for i in 0..128 {
        let (a, b) = (compressed_4(f[2 * i]), compressed_4(f[2 * i + 1]));
        bytes[i] = byte(a % 16 + b % 16 * 16);
    }
    bytes
}

/// Decodes 256 numbers of 4 bits each, and decompresses them (FIPS 203 algorithm 6, for d = 4).
#[tactic(auto, using(sshkeccak::specs::Repeated::repeated_none, sshkeccak::specs::Repeated::repeated_more), unfolding(crate::specs::Codec::decode_4, crate::specs::Codec::with_decoded_4))]
pub(crate) fn decode_4(bytes: &[u8]) -> Polynomial
    requires { length bytes.now ≡ 128 }
    ensures { result ≡ decode_4 bytes.now }
{
    let mut f = [0; 256];
    for i in 0..128 {
        let a = u16::from(bytes[i]);
        f[2 * i] = decompressed_4(a % 16);
        f[2 * i + 1] = decompressed_4(a / 16);
    }
    f
}

/// The byte of the eight numbers from 8 i on, each compressed to one bit, the first the lowest (FIPS 203 algorithm 3).
#[inline(always)]
#[tactic(auto, unfolding(crate::specs::Codec::byte_of_bits))]
fn byte_of_bits(f: &Polynomial, i: usize) -> u8
    requires { i < 32 }
    ensures { result ≡ byte_of_bits f.now i }
{
    let low = compressed_1(f[8 * i])
        + compressed_1(f[8 * i + 1]) * 2
        + compressed_1(f[8 * i + 2]) * 4
        + compressed_1(f[8 * i + 3]) * 8;
    let high = compressed_1(f[8 * i + 4]) * 16
        + compressed_1(f[8 * i + 5]) * 32
        + compressed_1(f[8 * i + 6]) * 64
        + compressed_1(f[8 * i + 7]) * 128;
    byte(low + high)
}

/// Compresses 256 numbers to one bit each, and encodes them (FIPS 203 algorithm 5, for d = 1).
#[tactic(auto, using(sshkeccak::specs::Repeated::repeated_none, sshkeccak::specs::Repeated::repeated_more), unfolding(crate::specs::Codec::encode_1, crate::specs::Codec::with_encoded_1))]
pub(crate) fn encode_1(f: &Polynomial) -> [u8; 32]
    ensures { result ≡ encode_1 f.now }
{
    let mut bytes = [0; 32];
    for i in 0..32 {
        bytes[i] = byte_of_bits(f, i);
    }
    bytes
}

/// Decodes 256 numbers of one bit each, and decompresses them (FIPS 203 algorithm 6, for d = 1).
#[tactic(auto, using(sshkeccak::specs::Repeated::repeated_none, sshkeccak::specs::Repeated::repeated_more), unfolding(crate::specs::Codec::decode_1, crate::specs::Codec::with_number))]
pub(crate) fn decode_1(bytes: &[u8; 32]) -> Polynomial
    ensures { result ≡ decode_1 bytes.now }
{
    let mut f = [0; 256];
    for i in 0..256 {
        f[i] = decompressed_1(u16::from(bytes[i / 8] >> (i % 8)) % 2);
    }
    f
}
