//! Terms, which stand for bytes.

ghost use Rattle.std.specs.Prelude.{◌≤◌, IfOk, length};

use crate::names::Names;
use hex::FromHexError;
use std::alloc::{AllocError, Global};

/// Why terms spell no bytes. All but the first have what is wrong.
#[derive(Clone, Copy, Debug, PartialEq, Eq)]
pub enum TermFault<'a> {
    /// An allocation failed.
    Memory,
    /// These aren't hexadecimal digits, two a byte.
    NotBytes(&'a str),
    /// This isn't the number of a repetition.
    NotNumber(&'a str),
    /// Nothing has this name.
    NoName(&'a str),
    /// The bytes of this name don't have these places.
    NoPlaces(&'a str),
    /// These terms spell more bytes than they may, or a repetition of this number would.
    Long(&'a str),
}

impl<'a> From<AllocError> for TermFault<'a> {
    fn from(_: AllocError) -> TermFault<'a> {
        TermFault::Memory
    }
}

/// The bytes of terms with blanks between, not more than the limit, or the fault of the first term that has one.
pub fn bytes_of<'a>(
    alloc: Global,
    names: &Names,
    terms: &'a str,
    limit: usize,
) -> Result<Vec<u8>, TermFault<'a>>
    ensures { IfOk result (λ bytes. length bytes.items ≤ limit) }
{
    let mut out = Vec::new(alloc);
    for term in terms.split(' ') {
        put_term(alloc, names, &mut out, term, limit)?;
    }
    if out.len() > limit {
        return Err(TermFault::Long(terms));
    }
    Ok(out)
}

/// Appends the bytes of a term, after a plus sign with their length before them.
fn put_term<'a>(
    alloc: Global,
    names: &Names,
    out: &mut Vec<u8>,
    term: &'a str,
    limit: usize,
) -> Result<(), TermFault<'a>> {
    match term.strip_prefix('+') {
        Some(inner) => put_string(out, &plain(alloc, names, inner, limit)?)?,
        None => out.extend_from_slice(&plain(alloc, names, term, limit)?)?,
    }
    Ok(())
}

/// Appends bytes with their length before them (RFC 4251 section 5, string). It fails only where memory does.
pub fn put_string(out: &mut Vec<u8>, bytes: &[u8]) -> Result<(), AllocError> {
    let len = u32::try_from(bytes.len()).unwrap_or(u32::MAX);
    out.extend_from_slice(&len.to_be_bytes())?;
    out.extend_from_slice(bytes)
}

/// The bytes of a term without a plus sign.
fn plain<'a>(
    alloc: Global,
    names: &Names,
    term: &'a str,
    limit: usize,
) -> Result<Vec<u8>, TermFault<'a>> {
    if let Some(text) = term.strip_prefix('\'') {
        return Ok(Vec::from_slice(alloc, text.as_bytes())?);
    }
    if let Some(part) = term.strip_prefix('$') {
        return Ok(Vec::from_slice(alloc, named(names, part)?)?);
    }
    match term.split_once('*') {
        Some((count, digits)) => repeated(alloc, count, digits, limit),
        None => decoded(alloc, term),
    }
}

/// Named bytes, or those from a place on, as `name:A`, or from place A up to B, as `name:A:B`.
fn named<'n, 'a>(names: &'n Names, part: &'a str) -> Result<&'n [u8], TermFault<'a>> {
    let (name, places) = part.split_once(':').unwrap_or((part, ""));
    let (start, end) = places.split_once(':').unwrap_or((places, ""));
    let bytes = names.find(name).ok_or(TermFault::NoName(name))?;
    let (start, end) = (place_of(start, 0), place_of(end, bytes.len()));
    bytes.get(start..end).ok_or(TermFault::NoPlaces(part))
}

/// The place that the word spells, or the other one where there is no word.
fn place_of(word: &str, otherwise: usize) -> usize {
    if word.is_empty() {
        return otherwise;
    }
    word.parse::<usize>().unwrap_or(usize::MAX)
}

/// So many times what the digits spell.
fn repeated<'a>(
    alloc: Global,
    count: &'a str,
    digits: &'a str,
    limit: usize,
) -> Result<Vec<u8>, TermFault<'a>> {
    let Ok(times) = count.parse::<u32>() else {
        return Err(TermFault::NotNumber(count));
    };
    let (bytes, times) = (decoded(alloc, digits)?, times as usize);
    if bytes.len().saturating_mul(times) > limit {
        return Err(TermFault::Long(count));
    }
    Ok(bytes.repeat(alloc, times)?)
}

/// The bytes that digits spell; `-` is none.
fn decoded<'a>(alloc: Global, digits: &'a str) -> Result<Vec<u8>, TermFault<'a>> {
    if digits == "-" {
        return Ok(Vec::new(alloc));
    }
    hex::decode(alloc, digits).map_err(|fault| match fault {
        FromHexError::OutOfMemory => TermFault::Memory,
        _ => TermFault::NotBytes(digits),
    })
}
