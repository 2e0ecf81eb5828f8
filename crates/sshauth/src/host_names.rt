//! Which names at the front of a line of known_hosts mean a host (sshd(8), "SSH_KNOWN_HOSTS FILE FORMAT").

ghost use Rattle.std.specs.Prelude.{◌≡◌, ◌++◌, ◌-◌, ◌||◌, IfOk, bit_xor, false, length, map, position, reverse};
ghost use Rattle.std.specs.List.{after_first, before_first, list_any, slice_get};
ghost use Rattle.std.specs.Option.{unwrap_or};
ghost use Rattle.std.specs.Char.{to_ascii_lowercase};
ghost use Rattle.sha1.specs.Sha1.{sha1};
ghost use Rattle.sshauth.specs.HostNames.{excludes, hmac_sha1, includes, is_bar, is_hash_of, is_hashed_name, is_like, matches, mean, padded, patterns_in};
ghost use Rattle.sshauth.specs.PatternRows.{first_row, next_row, row_after_any, row_after_one};

use crate::base64_digits::base64_of;
use sha1::Sha1;
use sshprogram::ProgramFault;
use sshwire::Memory;
use std::alloc::Global;

/// What hashed names begin with.
const HASHED: &[u8] = b"|1|";

/// The bytes of a block of SHA-1.
const BLOCK: usize = 64;

/// The bytes of a salt.
const SALT_LEN: usize = 20;

/// Whether the names mean the host: hashed ones its name in lower case; patterns with commas between, of which one means
/// it, and none of those with `!`.
#[tactic(auto, unfolding(crate::specs::HostNames::mean))]
pub(crate) fn mean(alloc: Global, names: &[u8], host: &[u8]) -> Result<bool, ProgramFault>
    ensures { IfOk result (λ meant. meant ≡ mean names.now host.now) }
{
    if names.starts_with(HASHED) {
        return is_hashed_name(alloc, &names[HASHED.len()..], host);
    }
    Ok(has_included(alloc, names, host)? && !has_excluded(alloc, names, host)?)
}

/// Whether one of the patterns without `!` means the host.
#[tactic(auto, using(crate::proofs::KeyLineLemmas::found_more))]
fn has_included(alloc: Global, names: &[u8], host: &[u8]) -> Result<bool, ProgramFault>
    ensures { IfOk result (λ found. found ≡ list_any (includes host.now) (patterns_in names.now)) }
{
    let mut found = false;
    for pattern in names.split(|byte| *byte == b',') {
        let included = includes(alloc, host, pattern)?;
        found = is_either(found, included);
    }
    Ok(found)
}

/// Whether one of those with `!` does.
#[tactic(auto, using(crate::proofs::KeyLineLemmas::found_more))]
fn has_excluded(alloc: Global, names: &[u8], host: &[u8]) -> Result<bool, ProgramFault>
    ensures { IfOk result (λ found. found ≡ list_any (excludes host.now) (patterns_in names.now)) }
{
    let mut found = false;
    for pattern in names.split(|byte| *byte == b',') {
        let excluded = excludes(alloc, host, pattern)?;
        found = is_either(found, excluded);
    }
    Ok(found)
}

/// Whether one of both is so.
fn is_either(one: bool, other: bool) -> bool
    ensures { result ≡ (one || other) }
{
    one || other
}

/// Whether it is a pattern without `!` that means the host.
fn includes(alloc: Global, host: &[u8], pattern: &[u8]) -> Result<bool, ProgramFault>
    ensures { IfOk result (λ found. found ≡ includes host.now pattern.now) }
{
    if pattern.starts_with(b"!") {
        return Ok(false);
    }
    Ok(matches(alloc, pattern, host)?)
}

/// Whether it is one with `!` that means the host after it.
fn excludes(alloc: Global, host: &[u8], pattern: &[u8]) -> Result<bool, ProgramFault>
    ensures { IfOk result (λ found. found ≡ excludes host.now pattern.now) }
{
    if pattern.starts_with(b"!") {
        return Ok(matches(alloc, &pattern[1..], host)?);
    }
    Ok(false)
}

/// Whether a text is one that the pattern means: `*` means any bytes, `?` any one, another byte itself, a letter in either
/// case. It takes as many steps as the product of both lengths.
fn matches(alloc: Global, pattern: &[u8], text: &[u8]) -> Result<bool, Memory>
    ensures { IfOk result (λ meant. meant ≡ matches pattern.now text.now) }
{
    let turned = reversed(alloc, text)?;
    // whether the end of the pattern so far means the last 0, 1, 2 .. bytes of the text
    let mut row = first_row(alloc, text)?;
    for byte in pattern.iter().rev() {
        row = next_row(alloc, *byte, &turned, &row)?;
    }
    Ok(last_of(&row))
}

/// The last answer of a row, if it has one.
fn last_of(row: &[bool]) -> bool
    ensures { result ≡ unwrap_or (slice_get row.now (length row.now - 1)) false }
{
    match row.last() {
        Some(meant) => *meant,
        None => false,
    }
}

/// The bytes, the last first.
fn reversed(alloc: Global, bytes: &[u8]) -> Result<Vec<u8>, Memory>
    ensures { IfOk result (λ v. v.items ≡ reverse bytes.now) }
{
    let mut reversed = Vec::from_slice(alloc, bytes)?;
    reversed.reverse();
    Ok(reversed)
}

/// What the pattern without bytes means: no bytes.
#[tactic(auto, using(crate::proofs::HostNameLemmas::no_next))]
fn first_row(alloc: Global, text: &[u8]) -> Result<Vec<bool>, Memory>
    ensures { IfOk result (λ v. v.items ≡ first_row text.now) }
{
    let mut row = Vec::new(alloc);
    row.push(true)?;
    for _ in text {
        row.push(false)?;
    }
    Ok(row)
}

/// What a pattern means with one byte more in front.
fn next_row(alloc: Global, byte: u8, text: &[u8], row: &[bool]) -> Result<Vec<bool>, Memory>
    ensures { IfOk result (λ v. v.items ≡ next_row byte text.now row.now) }
{
    if byte == b'*' {
        row_after_any(alloc, row)
    } else {
        row_after_one(alloc, byte, text, row)
    }
}

/// The same of `*`.
#[tactic(auto, using(crate::proofs::HostNameLemmas::row_after_any_next, crate::proofs::HostNameLemmas::found_in_next))]
fn row_after_any(alloc: Global, row: &[bool]) -> Result<Vec<bool>, Memory>
    ensures { IfOk result (λ v. v.items ≡ row_after_any false row.now) }
{
    let mut next = Vec::new(alloc);
    let mut found = false;
    for meant in row {
        found = is_either(found, *meant);
        next.push(found)?;
    }
    Ok(next)
}

/// The same of a byte that isn't `*`.
fn row_after_one(alloc: Global, byte: u8, text: &[u8], row: &[bool]) -> Result<Vec<bool>, Memory>
    ensures { IfOk result (λ v. v.items ≡ row_after_one byte text.now row.now) }
{
    let mut next = Vec::new(alloc);
    next.push(false)?;
    for (own, meant) in text.iter().zip(row) {
        next.push(is_like(byte, *own) && *meant)?;
    }
    Ok(next)
}

/// Whether a byte of a pattern, which is no `*`, means this byte.
fn is_like(pattern: u8, byte: u8) -> bool
    ensures { result ≡ is_like pattern byte }
{
    pattern == b'?' || pattern.to_ascii_lowercase() == byte.to_ascii_lowercase()
}

/// Whether a salt and a hash with a bar between, in base64, are those of the host.
fn is_hashed_name(alloc: Global, hashed: &[u8], host: &[u8]) -> Result<bool, ProgramFault>
    ensures { IfOk result (λ found. found ≡ is_hashed_name hashed.now host.now) }
{
    let (salt, hash) = cut_bar(hashed);
    let salt = base64_of(alloc, salt)?;
    let hash = base64_of(alloc, hash)?;
    match (salt, hash) {
        (Some(salt), Some(hash)) => is_hash_of(alloc, &salt, &hash, host),
        _ => Ok(false),
    }
}

/// What stands before the first bar and after it.
fn cut_bar(text: &[u8]) -> (&[u8], &[u8])
    ensures before { result.0.now ≡ before_first is_bar text.now }
    ensures after { result.1.now ≡ after_first is_bar text.now }
{
    match first_bar(text) {
        Some(place) => (&text[..place], &text[place + 1..]),
        None => (text, &[]),
    }
}

/// Where the first bar stands.
fn first_bar(text: &[u8]) -> Option<usize>
    ensures { result ≡ position is_bar text.now }
{
    text.iter().position(|byte| is_bar(*byte))
}

/// Whether a byte is a bar.
fn is_bar(byte: u8) -> bool
    ensures { result ≡ is_bar byte }
{
    byte == b'|'
}

/// Whether the hash is that of the host, by this salt.
fn is_hash_of(alloc: Global, salt: &[u8], hash: &[u8], host: &[u8]) -> Result<bool, ProgramFault>
    ensures { IfOk result (λ found. found ≡ is_hash_of salt.now hash.now host.now) }
{
    if salt.len() != SALT_LEN {
        return Ok(false);
    }
    let own = hmac_sha1(alloc, salt, &lowered(alloc, host)?)?;
    Ok(hash == own.as_slice())
}

/// A name in lower case.
fn lowered(alloc: Global, name: &[u8]) -> Result<Vec<u8>, Memory>
    ensures { IfOk result (λ v. v.items ≡ map to_ascii_lowercase name.now) }
{
    let mut lowered = Vec::new(alloc);
    for byte in name {
        lowered.push(byte.to_ascii_lowercase())?;
    }
    Ok(lowered)
}

/// HMAC by SHA-1 (RFC 2104), of a key as long as a salt.
fn hmac_sha1(alloc: Global, key: &[u8], text: &[u8]) -> Result<[u8; 20], Memory>
    requires { length key.now ≡ 20 }
    ensures { IfOk result (λ hash. hash ≡ hmac_sha1 key.now text.now) }
{
    let inner = padded(alloc, 0x36, key)?;
    let outer = padded(alloc, 0x5c, key)?;
    let digest = digest_of_two(&inner, text);
    Ok(digest_of_two(&outer, &digest))
}

/// The digest of a text that comes in two pieces.
fn digest_of_two(first: &[u8], second: &[u8]) -> [u8; 20]
    ensures { result ≡ sha1 (first.now ++ second.now) }
{
    let mut hasher = Sha1::new();
    hasher.update(first);
    hasher.update(second);
    hasher.finalize()
}

/// The key, filled up with zeros to a block, with this byte added to each of its bytes by exclusive or.
fn padded(alloc: Global, byte: u8, key: &[u8]) -> Result<Vec<u8>, Memory>
    requires { length key.now ≡ 20 }
    ensures { IfOk result (λ v. v.items ≡ padded byte key.now) }
{
    let mut filled = Vec::from_slice(alloc, key)?;
    filled.extend_from_slice(&[0; BLOCK - SALT_LEN])?;
    xored(alloc, byte, &filled)
}

/// The bytes, to each of which this one is added by exclusive or.
fn xored(alloc: Global, byte: u8, bytes: &[u8]) -> Result<Vec<u8>, Memory>
    ensures { IfOk result (λ v. v.items ≡ map (λ own. bit_xor own byte) bytes.now) }
{
    let mut xored = Vec::new(alloc);
    for own in bytes {
        xored.push(*own ^ byte)?;
    }
    Ok(xored)
}
