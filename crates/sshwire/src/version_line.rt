//! The version line of RFC 4253 section 4.2.

ghost use Rattle.std.specs.Prelude.{◌≡◌, ◌++◌, ℕ, List, [], length, IfOk, IfErr, Err, Some, None, is_ok, option_map, true, if◌then◌else◌};
ghost use Rattle.std.specs.List.{after_first, before_first, list_all, position};
ghost use Rattle.sshwire.specs.Lines.{IsNoVersionLine, IsVersionText, IsWholeLine, text_in, version_line, version_text, with_lf};
ghost use Rattle.sshwire.specs.Reading.{Got, are_parts, is_space, is_comment_byte, is_part, is_software_and_comments, is_software_byte, is_version_line, is_version_text, reading};

use crate::fault::{Memory, WireFault};
use crate::limits::LINE_LIMIT;
use std::alloc::Global;
use std::fmt;
use std::marker::Model;

/// A version line: `SSH-2.0-softwareversion`, perhaps a space and comments, then CR LF
/// (RFC 4253 section 4.2).
///
/// Contracts see its text, which is the line without CR LF.
#[derive(Debug, Drop)]
pub struct VersionLine {
    line: Vec<u8>,
}

impl Model for VersionLine {
    ghost use Rattle.std.specs.Prelude.{List, ℕ};
    ghost use Rattle.sshwire.specs.Lines.{IsWholeLine, text_in};

    ghost Value = { List ℕ };

    ghost view = { λ v. text_in v.line.items };

    ghost invariant = { λ v. IsWholeLine v.line.items };
}

impl VersionLine {
    /// Reads one version line, CR LF included, which is all of `line`.
    ///
    /// Answers `TooLong` above 255 bytes, otherwise `Line` where `line` is no version line, and
    /// `Memory` where an allocation failed, which is taken only where `line` is one.
    pub fn parse(alloc: Global, line: &[u8]) -> Result<VersionLine, WireFault>
        ensures ok { IfOk result (λ text. IsVersionText text × (line.now ≡ version_line text)) }
        ensures err { IfErr result (IsNoVersionLine line.now) }
        ensures memory { result ≡ Err WireFault.Memory → IsWholeLine line.now }
    {
        if line.len() > LINE_LIMIT {
            return Err(WireFault::TooLong);
        }
        if !is_version_line(line) {
            return Err(WireFault::Line);
        }
        match Vec::from_slice(alloc, line) {
            Ok(line) => Ok(VersionLine { line }),
            Err(_) => Err(WireFault::Memory),
        }
    }

    /// The version line `SSH-2.0-softwareversion`, with a space and the comments where there are some.
    ///
    /// Answers `TooLong` above 255 bytes, CR LF included, otherwise `Line` where that is no version
    /// line (RFC 4253 section 4.2), and `Memory` where an allocation failed. What is judged is the text that
    /// the parts spell, so a softwareversion with a space is taken as one with comments.
    pub fn new(
        alloc: Global,
        softwareversion: &str,
        comments: Option<&str>,
    ) -> Result<VersionLine, WireFault>
        ensures sound { IfOk result (λ text. IsVersionText text
            × (text ≡ version_text softwareversion.now (option_map (λ c. c.now) comments.entry))) }
        ensures complete { IfErr result (IsNoVersionLine
            (version_line (version_text softwareversion.now (option_map (λ c. c.now) comments.entry)))) }
    {
        let line = spelled(alloc, softwareversion, comments)?;
        if line.len() > LINE_LIMIT {
            return Err(WireFault::TooLong);
        }
        match VersionLine::of_line(line) {
            Some(version) => Ok(version),
            None => Err(WireFault::Line),
        }
    }

    /// Whether a softwareversion and comments spell a version line of at most 255 bytes, CR LF included
    /// (RFC 4253 section 4.2), which [`new`](VersionLine::new) then answers where there is memory. Takes
    /// no memory.
    #[tactic(auto, using(crate::proofs::VersionParts::part_test, crate::proofs::VersionParts::parts_test))]
    pub fn is_spelled_by(softwareversion: &str, comments: Option<&str>) -> bool
        ensures { result ≡ is_version_text (version_text softwareversion.now (option_map (λ c. c.now) comments.entry)) }
    {
        let software = softwareversion.as_bytes();
        match comments {
            None => is_part(software),
            Some(comments) => are_parts(software, comments.as_bytes()),
        }
    }

    /// Appends the line, CR LF included. Where an allocation failed the vector is unchanged.
    pub fn write(&self, out: &mut Vec<u8>) -> Result<(), Memory>
        ensures appends { out.new.items ≡ (if is_ok result then out.old.items ++ version_line self.now else out.old.items) }
        // What is appended is read again, whatever follows.
        ensures again { (k : ℕ) (rest : List ℕ) → reading k [] (version_line self.now ++ rest) ≡ Got self.now rest }
    {
        out.extend_from_slice(&self.line)?;
        Ok(())
    }

    /// The line without CR LF.
    pub fn text(&self) -> &[u8]
        ensures text { result.now ≡ self.now }
        ensures version { IsVersionText self.now }
    {
        &self.line[..self.line.len() - 2]
    }

    /// The version line that these bytes are, CR LF included, or None.
    #[tactic(auto, using(crate::proofs::VersionText::whole_line_from_test))]
    pub(crate) fn of_line(line: Vec<u8>) -> Option<VersionLine>
        ensures { result ≡ (if is_version_line line.items then Some (text_in line.items) else None) }
    {
        if is_version_line(&line) {
            Some(VersionLine { line })
        } else {
            None
        }
    }

    /// The version line that these bytes and an LF after them are.
    #[tactic(auto, using(crate::proofs::VersionText::whole_line_from_test))]
    pub(crate) fn of_unfinished(mut line: Vec<u8>) -> Result<VersionLine, Memory>
        requires { is_version_line (with_lf line.items) ≡ true }
        ensures { IfOk result (λ text. text ≡ text_in (with_lf line.items)) }
    {
        line.push(b'\n')?;
        Ok(VersionLine { line })
    }
}

impl fmt::Display for VersionLine {
    /// Writes the line without CR LF.
    fn fmt<W: fmt::Write>(&self, f: &mut fmt::Formatter<W>) -> fmt::Result {
        for b in self.text() {
            f.write_char(char::from(*b))?;
        }
        Ok(())
    }
}

/// The parts of a version line one after another, CR LF included.
fn spelled(alloc: Global, softwareversion: &str, comments: Option<&str>) -> Result<Vec<u8>, Memory>
    ensures { IfOk result (λ line. line.items
        ≡ version_line (version_text softwareversion.now (option_map (λ c. c.now) comments.entry))) }
{
    let mut line = Vec::from_slice(alloc, b"SSH-2.0-")?;
    line.extend_from_slice(softwareversion.as_bytes())?;
    if let Some(comments) = comments {
        line.push(b' ')?;
        line.extend_from_slice(comments.as_bytes())?;
    }
    line.extend_from_slice(b"\r\n")?;
    Ok(line)
}

/// Whether the bytes are a version line, CR LF included.
#[tactic(auto, unfolding(crate::specs::Reading::is_version_line))]
fn is_version_line(line: &[u8]) -> bool
    ensures { result ≡ is_version_line line.now }
{
    line.ends_with(b"\r\n") && is_version_text(&line[..line.len() - 2])
}

/// Whether the bytes and an LF after them are a version line.
#[tactic(auto, using(crate::proofs::VersionText::unfinished_test))]
pub(crate) fn is_unfinished_version_line(line: &[u8]) -> bool
    ensures { result ≡ is_version_line (with_lf line.now) }
{
    line.ends_with(b"\r") && is_version_text(&line[..line.len() - 1])
}

/// Whether the bytes are the text of a version line.
#[tactic(auto, unfolding(crate::specs::Reading::is_version_text))]
fn is_version_text(text: &[u8]) -> bool
    ensures { result ≡ is_version_text text.now }
{
    if text.len() > LINE_LIMIT - 2 {
        return false;
    }
    text.starts_with(b"SSH-2.0-") && is_software_and_comments(&text[8..])
}

/// Whether the bytes are a softwareversion, and perhaps a space and comments.
#[tactic(auto, unfolding(crate::specs::Reading::is_software_and_comments))]
fn is_software_and_comments(bytes: &[u8]) -> bool
    ensures { result ≡ is_software_and_comments bytes.now }
{
    let (software, comments) = split_at_space(bytes);
    if software.is_empty() {
        return false;
    }
    are_software_bytes(software) && are_comment_bytes(comments)
}

/// Whether a softwareversion, without comments besides, is that of a version line.
fn is_part(software: &[u8]) -> bool
    ensures { result ≡ is_part software.now }
{
    // `SSH-2.0-` and CR LF have 10 bytes.
    software.len() <= LINE_LIMIT - 10 && is_software_and_comments(software)
}

/// Whether a softwareversion and comments are those of a version line.
fn are_parts(software: &[u8], comments: &[u8]) -> bool
    ensures { result ≡ are_parts software.now comments.now }
{
    if software.len() > LINE_LIMIT || comments.len() > LINE_LIMIT {
        return false;
    }
    // `SSH-2.0-`, the space and CR LF have 11 bytes.
    if software.len() + comments.len() > LINE_LIMIT - 11 {
        return false;
    }
    is_software_and_comments(software) && are_comment_bytes(comments)
}

/// What stands before the first space, and after it.
pub(crate) fn split_at_space(bytes: &[u8]) -> (&[u8], &[u8])
    ensures before { result.0.now ≡ before_first is_space bytes.now }
    ensures after { result.1.now ≡ after_first is_space bytes.now }
{
    match first_space(bytes) {
        Some(end) => (&bytes[..end], &bytes[end + 1..]),
        None => (bytes, &[]),
    }
}

fn first_space(bytes: &[u8]) -> Option<usize>
    ensures { result ≡ position is_space bytes.now }
{
    bytes.iter().position(|b| *b == b' ')
}

fn are_software_bytes(bytes: &[u8]) -> bool
    ensures { result ≡ list_all is_software_byte bytes.now }
{
    bytes.iter().all(|b| is_software_byte(*b))
}

pub(crate) fn are_comment_bytes(bytes: &[u8]) -> bool
    ensures { result ≡ list_all is_comment_byte bytes.now }
{
    bytes.iter().all(|b| is_comment_byte(*b))
}

fn is_software_byte(b: u8) -> bool
    ensures { result ≡ is_software_byte b }
{
    b.is_ascii_graphic() && b != b'-'
}

fn is_comment_byte(b: u8) -> bool
    ensures { result ≡ is_comment_byte b }
{
    b.is_ascii_graphic() || b == b' '
}
