//! Which lines of a text give which public keys: authorized_keys and known_hosts (sshd(8)).

ghost use Rattle.std.specs.Prelude.{◌≡◌, ◌==◌, IfOk, map, not, option_map, position};
ghost use Rattle.std.specs.List.{slice_split};
ghost use Rattle.sshauth.specs.KeyLines.{after_word, first_line, first_word, front_of, is_blank, is_line, key_at, key_in, key_text, keys_in, means, unblanked};

use crate::base64_digits::base64_of;
use crate::host_names::mean;
use sshidentity::FileFault;
use sshprogram::ProgramFault;
use std::alloc::Global;

/// The words in front of a key.
const ED25519: &[u8] = b"ssh-ed25519";

const RSA: &[u8] = b"ssh-rsa";

/// What a key of each kind begins with (RFC 4253 section 6.6, RFC 8709 section 4).
const ED25519_FRONT: &[u8] = b"\x00\x00\x00\x0bssh-ed25519";

pub(crate) const RSA_FRONT: &[u8] = b"\x00\x00\x00\x07ssh-rsa";

/// The marks in front of a line of known_hosts: of a key that is revoked, and of a certification authority's.
const REVOKED: &[u8] = b"@revoked";

const AUTHORITY: &[u8] = b"@cert-authority";

/// Which lines of a text are looked for.
#[derive(Clone, Copy)]
pub(crate) enum KeyLine<'a> {
    /// `KIND KEY COMMENT`, where the kind is `ssh-ed25519` or `ssh-rsa`: of authorized_keys, without options.
    Authorized,
    /// `NAMES KIND KEY COMMENT`: of known_hosts, where the names mean this host.
    Known(&'a [u8]),
    /// `@revoked NAMES KIND KEY COMMENT`: of known_hosts, whatever the names.
    Revoked,
    /// `@cert-authority NAMES KIND KEY COMMENT`: of known_hosts, where the names mean this host.
    Authority(&'a [u8]),
}

/// The keys of the lines that are looked for, in their order. A text with such a line whose key can't be read, or is of another
/// kind than the line says, is refused as the file of this option.
pub(crate) fn keys_in(
    alloc: Global,
    option: &'static str,
    kind: KeyLine<'_>,
    text: &[u8],
) -> Result<Vec<Vec<u8>>, ProgramFault>
    ensures { IfOk result (λ keys. map (λ key. key.items) keys.items ≡ keys_in kind.entry text.now) }
{
    let mut keys = Vec::new(alloc);
    for line in text.split(|byte| *byte == b'\n') {
        if let Some(key) = key_in(alloc, option, kind, line)? {
            keys.push(key)?;
        }
    }
    Ok(keys)
}

/// How many lines stand before the first one that is looked for, whatever the kind of its key.
#[tactic(auto, using(crate::proofs::KeyLineLemmas::position_marks), unfolding(crate::specs::KeyLines::first_line))]
pub(crate) fn first_line(
    alloc: Global,
    kind: KeyLine<'_>,
    text: &[u8],
) -> Result<Option<usize>, ProgramFault>
    ensures { IfOk result (λ found. found ≡ first_line kind.entry text.now) }
{
    let marks = marks_of(alloc, kind, text)?;
    Ok(first_mark(&marks))
}

/// Where the first mark stands.
fn first_mark(marks: &[bool]) -> Option<usize>
    ensures { result ≡ position (λ mark. mark) marks.now }
{
    marks.iter().position(|mark| *mark)
}

/// Of each line, whether it is one that is looked for.
fn marks_of(alloc: Global, kind: KeyLine<'_>, text: &[u8]) -> Result<Vec<bool>, ProgramFault>
    ensures { IfOk result (λ marks. marks.items ≡ map (is_line kind.entry) (slice_split (λ byte. byte == 10) text.now)) }
{
    let mut marks = Vec::new(alloc);
    for line in text.split(|byte| *byte == b'\n') {
        marks.push(is_line(alloc, kind, line)?)?;
    }
    Ok(marks)
}

/// Whether a line is one that is looked for.
fn is_line(alloc: Global, kind: KeyLine<'_>, line: &[u8]) -> Result<bool, ProgramFault>
    ensures { IfOk result (λ found. found ≡ is_line kind.entry line.now) }
{
    Ok(key_text(alloc, kind, line)?.is_some())
}

/// The key of a line, if it is looked for.
#[tactic(auto, unfolding(crate::specs::KeyLines::key_in))]
fn key_in(
    alloc: Global,
    option: &'static str,
    kind: KeyLine<'_>,
    line: &[u8],
) -> Result<Option<Vec<u8>>, ProgramFault>
    ensures { IfOk result (λ found. option_map (λ key. key.items) found ≡ key_in kind.entry line.now) }
{
    match key_text(alloc, kind, line)? {
        Some(text) => key_at(alloc, option, text),
        None => Ok(None),
    }
}

/// What stands in a line where a key has to, if the line is looked for.
fn key_text<'a>(
    alloc: Global,
    kind: KeyLine<'_>,
    line: &'a [u8],
) -> Result<Option<&'a [u8]>, ProgramFault>
    ensures { IfOk result (λ found. option_map (λ text. text.now) found ≡ key_text kind.entry line.now) }
{
    let (word, after) = cut_word(line);
    let (second, rest) = cut_word(after);
    match kind {
        KeyLine::Authorized => Ok(Some(line)),
        KeyLine::Known(host) => Ok(means(alloc, word, host)?.then_some(after)),
        KeyLine::Revoked => Ok((word == REVOKED).then_some(rest)),
        KeyLine::Authority(host) => {
            Ok((word == AUTHORITY && means(alloc, second, host)?).then_some(rest))
        }
    }
}

/// Whether a word is names that mean the host. A mark, a comment and no word mean none.
fn means(alloc: Global, word: &[u8], host: &[u8]) -> Result<bool, ProgramFault>
    ensures { IfOk result (λ found. found ≡ means word.now host.now) }
{
    if word.is_empty() || word.starts_with(b"#") || word.starts_with(b"@") {
        return Ok(false);
    }
    mean(alloc, word, host)
}

/// The key at the front of a text, where a known kind stands there.
#[tactic(auto, unfolding(crate::specs::KeyLines::key_at))]
fn key_at(alloc: Global, option: &'static str, text: &[u8]) -> Result<Option<Vec<u8>>, ProgramFault>
    ensures { IfOk result (λ found. option_map (λ key. key.items) found ≡ key_at text.now) }
{
    let (kind, after) = cut_word(text);
    let Some(front) = front_of(kind) else {
        return Ok(None);
    };
    match base64_of(alloc, cut_word(after).0)? {
        Some(key) if key.starts_with(front) => Ok(Some(key)),
        _ => Err(ProgramFault::File(FileFault::Form(option))),
    }
}

/// What the bytes of a key of this kind begin with, if it is a known one.
fn front_of(kind: &[u8]) -> Option<&'static [u8]>
    ensures { option_map (λ front. front.now) result ≡ front_of kind.now }
{
    if kind == ED25519 {
        Some(ED25519_FRONT)
    } else if kind == RSA {
        Some(RSA_FRONT)
    } else {
        None
    }
}

/// The first word of a text, and what stands after it. No word is an empty one.
#[tactic(auto, unfolding(crate::specs::KeyLines::first_word, crate::specs::KeyLines::after_word))]
pub(crate) fn cut_word(text: &[u8]) -> (&[u8], &[u8])
    ensures word { result.0.now ≡ first_word text.now }
    ensures after { result.1.now ≡ after_word text.now }
{
    let text = unblanked(text);
    match first_blank(text) {
        Some(end) => text.split_at(end),
        None => (text, &[]),
    }
}

/// What a text is after its first blanks.
#[tactic(auto, unfolding(crate::specs::KeyLines::unblanked))]
fn unblanked(text: &[u8]) -> &[u8]
    ensures { result.now ≡ unblanked text.now }
{
    match first_unblank(text) {
        Some(start) => &text[start..],
        None => &[],
    }
}

/// Where the first blank stands.
fn first_blank(text: &[u8]) -> Option<usize>
    ensures { result ≡ position is_blank text.now }
{
    text.iter().position(|byte| is_blank(*byte))
}

/// Where the first byte stands that is none.
fn first_unblank(text: &[u8]) -> Option<usize>
    ensures { result ≡ position (λ byte. not (is_blank byte)) text.now }
{
    text.iter().position(|byte| !is_blank(*byte))
}

/// Whether a byte is a blank: space, tab, or CR, which may stand before LF.
fn is_blank(byte: u8) -> bool
    ensures { result ≡ is_blank byte }
{
    byte == b' ' || byte == b'\t' || byte == b'\r'
}
