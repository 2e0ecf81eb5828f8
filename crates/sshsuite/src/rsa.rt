//! Signatures of rsa-sha2-256 and rsa-sha2-512 (RFC 8332), which are RSASSA-PKCS1-v1_5 (RFC 8017 section 8.2): they are
//! verified, and none is made. All of it is public.

ghost use Rattle.std.specs.Prelude.{◌≡◌, ◌<◌, ◌≤◌, ◌%◌, ◌^◌, ◌==◌, IfOk, None, Some, false, if◌then◌else◌, length, option_map};
ghost use Rattle.sshsuite.specs.Group14.{number_high};
ghost use Rattle.sshsuite.specs.LongNumbers.{number_of};
ghost use Rattle.sshsuite.specs.Rsa.{is_exponent, is_modulus, is_signed, is_signed_by, rsa_verify};

use crate::group14::is_positive_body;
use crate::long_numbers::is_below;
use crate::public_power::{Number, is_power, number_of_bytes};
use crate::rsa_fields::{digest_info, digits_of, encoded, key_in, signature_in};
use sshwire::Memory;
use std::alloc::Global;

/// How many bytes the longest modulus has: 8192 bits.
const LONGEST: usize = 1024;

/// How many bytes the longest exponent has.
const EXPONENT_LEN: usize = 3;

/// 1024 bytes, of which zeros stand before these for what they are short of.
fn filled_before(bytes: &[u8]) -> [u8; LONGEST]
    requires { length bytes.now ≤ 1024 }
    ensures { number_high result ≡ number_high bytes.now }
{
    let mut filled = [0; LONGEST];
    filled[LONGEST - bytes.len()..].copy_from_slice(bytes);
    filled
}

/// The number of bytes, the highest first.
fn number_in(bytes: &[u8]) -> Number
    requires { length bytes.now ≤ 1024 }
    ensures { number_of result ≡ number_high bytes.now }
{
    number_of_bytes(&filled_before(bytes))
}

/// 2^2047, below which no modulus is.
fn least_modulus() -> Number
    ensures { number_of result ≡ 2 ^ 2047 }
{
    let mut number = [0; 128];
    number[31] = 0x8000000000000000;
    number
}

/// The number of at most four bytes.
fn small_number(bytes: &[u8]) -> u64
    requires { length bytes.now ≤ 4 }
    ensures { result ≡ number_high bytes.now }
{
    number_in(bytes)[0]
}

/// The exponent, where it is odd and from 3 to below 2^24: a peer chooses it, and each of its bits is work.
#[tactic(auto, unfolding(crate::specs::Rsa::is_exponent))]
fn exponent_in(digits: &[u8]) -> Option<u64>
    ensures { result ≡ (if is_exponent digits.now then Some (number_high digits.now) else None) }
{
    if digits.len() > EXPONENT_LEN {
        return None;
    }
    let exponent = small_number(digits);
    if exponent >= 3 && exponent % 2 == 1 {
        Some(exponent)
    } else {
        None
    }
}

/// Whether a number is odd.
fn is_odd(number: &Number) -> bool
    ensures { result ≡ (number_of number.now % 2 == 1) }
{
    number[0] % 2 == 1
}

/// The modulus, where it is odd and of 2048 to 8192 bits.
#[tactic(auto, unfolding(crate::specs::Rsa::is_modulus))]
fn modulus_in(digits: &[u8]) -> Option<Number>
    ensures { option_map number_of result ≡ (if is_modulus digits.now then Some (number_high digits.now) else None) }
{
    if digits.len() > LONGEST {
        return None;
    }
    let modulus = number_in(digits);
    if is_below(&modulus, &least_modulus()) == 0 && is_odd(&modulus) {
        Some(modulus)
    } else {
        None
    }
}

/// Whether s to the exponent is the encoded message.
#[tactic(auto, unfolding(crate::specs::Rsa::is_signed))]
fn is_signed(
    alloc: Global,
    exponent: u64,
    digits: &[u8],
    modulus: &Number,
    info: &[u8],
    own: &[u8],
) -> Result<bool, Memory>
    requires some { 0 < exponent }
    requires exponent { exponent < 2 ^ 32 }
    requires same { number_of modulus.now ≡ number_high digits.now }
    requires odd { number_of modulus.now % 2 ≡ 1 }
    requires long { 2 ^ 2047 ≤ number_of modulus.now }
    requires short { length digits.now ≤ 1024 }
    requires info { length info.now ≤ 83 }
    ensures { IfOk result (λ b. b ≡ is_signed exponent digits.now info.now own.now) }
{
    if own.len() > digits.len() {
        return Ok(false);
    }
    let own = number_in(own);
    if is_below(&own, modulus) == 0 {
        return Ok(false);
    }
    let message = encoded(alloc, digits.len(), info)?;
    Ok(is_power(&own, exponent, &number_in(&message), modulus))
}

/// Whether the signature is that of this exponent and of the modulus with these bytes, if they are one's.
fn is_signed_with(
    alloc: Global,
    exponent: u64,
    digits: &[u8],
    info: &[u8],
    own: &[u8],
) -> Result<bool, Memory>
    requires some { 0 < exponent }
    requires exponent { exponent < 2 ^ 32 }
    requires info { length info.now ≤ 83 }
    ensures { IfOk result (λ b. b ≡ (if is_modulus digits.now then is_signed exponent digits.now info.now own.now else false)) }
{
    match modulus_in(digits) {
        Some(modulus) => is_signed(alloc, exponent, digits, &modulus, info, own),
        None => Ok(false),
    }
}

/// Whether the signature is that of these bodies of e and n.
#[tactic(auto, unfolding(crate::specs::Rsa::is_signed_by))]
fn is_signed_by(
    alloc: Global,
    exponent: &[u8],
    modulus: &[u8],
    info: &[u8],
    own: &[u8],
) -> Result<bool, Memory>
    requires { length info.now ≤ 83 }
    ensures { IfOk result (λ b. b ≡ is_signed_by exponent.now modulus.now info.now own.now) }
{
    if !is_positive_body(exponent) || !is_positive_body(modulus) {
        return Ok(false);
    }
    match exponent_in(digits_of(exponent)) {
        Some(exponent) => is_signed_with(alloc, exponent, digits_of(modulus), info, own),
        None => Ok(false),
    }
}

/// Whether the signature is that of the input by the key of this blob, by the algorithm with this name. Its s may have
/// fewer bytes than the modulus, as some sign.
#[tactic(auto, unfolding(crate::specs::Rsa::rsa_verify, crate::specs::Rsa::verifies_by))]
pub(crate) fn rsa_verify(
    alloc: Global,
    alg: &str,
    blob: &[u8],
    input: &[u8],
    found: &[u8],
) -> Result<bool, Memory>
    ensures { IfOk result (λ b. b ≡ rsa_verify alg.now blob.now input.now found.now) }
{
    let Ok(key) = key_in(blob) else {
        return Ok(false);
    };
    let Ok(own) = signature_in(alg, found) else {
        return Ok(false);
    };
    let info = digest_info(alloc, alg, input)?;
    is_signed_by(alloc, key.0, key.1, &info, own)
}
