//! The version line of a peer, as it was received.

ghost use Rattle.std.specs.Prelude.{◌≡◌, true};
ghost use Rattle.std.specs.List.{list_all};
ghost use Rattle.sshwire.specs.declared.line_form.ReadBy.{ReadBy};
ghost use Rattle.sshwire.specs.Lines.{IsDeployedText};
ghost use Rattle.sshwire.specs.Reading.{before_cr, has_protocol, is_deployed_after, is_deployed_byte, is_deployed_software, is_deployed_text, is_line_by};

use crate::limits::LINE_LIMIT;
use crate::line_form::{LineForm, ReadBy};
use crate::version_line::{are_comment_bytes, is_unfinished_version_line, split_at_space};
use std::fmt;
use std::marker::Model;

/// The text of a peer's version line as it came, without the CR LF or LF that ended it. It is what both
/// sides hash (RFC 4253 section 8).
#[derive(Debug, Drop)]
pub struct PeerVersion {
    text: Vec<u8>,
}

impl Model for PeerVersion {
    ghost use Rattle.std.specs.Prelude.{List, ℕ};
    ghost use Rattle.sshwire.specs.declared.line_form.ReadBy.{ReadBy};
    ghost use Rattle.sshwire.specs.Lines.{IsDeployedText};

    ghost Value = { List ℕ };

    ghost view = { λ v. v.text.items };

    // A client takes what any reader takes.
    ghost invariant = { λ v. IsDeployedText ReadBy.Client v.text.items };
}

impl PeerVersion {
    /// The line without what ended it: 9 to 253 bytes, `SSH-1.99-` included where the peer sent that. Takes
    /// no memory.
    pub fn text(&self) -> &[u8]
        ensures text { result.now ≡ self.now }
        ensures version { IsDeployedText ReadBy.Client self.now }
    {
        &self.text
    }

    /// The version of the line that these bytes and an LF after them are. Takes no memory.
    #[tactic(auto, using(crate::proofs::DeployedText::before_cr_cut))]
    pub(crate) fn of_unfinished(mut line: Vec<u8>) -> PeerVersion
        requires { is_deployed_text ReadBy.Client (before_cr line.items) ≡ true }
        ensures { result ≡ before_cr line.items }
    {
        line.truncate(before_cr(&line).len());
        PeerVersion { text: line }
    }
}

impl fmt::Display for PeerVersion {
    /// Writes the line without what ended it.
    fn fmt<W: fmt::Write>(&self, f: &mut fmt::Formatter<W>) -> fmt::Result {
        for b in self.text() {
            f.write_char(char::from(*b))?;
        }
        Ok(())
    }
}

/// Whether these bytes and an LF after them are a version line of this form.
pub(crate) fn is_line_by(form: LineForm, line: &[u8]) -> bool
    ensures { result ≡ is_line_by form line.now }
{
    match form {
        LineForm::Strict => is_unfinished_version_line(line),
        LineForm::Deployed(by) => is_deployed_text(by, before_cr(line)),
    }
}

/// A line without the CR that ends it, if one does.
#[tactic(auto, unfolding(crate::specs::Reading::before_cr))]
fn before_cr(line: &[u8]) -> &[u8]
    ensures { result.now ≡ before_cr line.now }
{
    if line.ends_with(b"\r") {
        &line[..line.len() - 1]
    } else {
        line
    }
}

/// Whether the bytes are the text of a deployed peer's version line.
#[tactic(auto, unfolding(crate::specs::Reading::is_deployed_text))]
fn is_deployed_text(by: ReadBy, text: &[u8]) -> bool
    ensures { result ≡ is_deployed_text by text.now }
{
    if text.len() > LINE_LIMIT - 2 {
        return false;
    }
    has_protocol(by, text)
}

/// Whether a softwareversion stands after `SSH-2.0-`, or, where a client reads, after `SSH-1.99-`
/// (RFC 4253 section 5.1).
fn has_protocol(by: ReadBy, text: &[u8]) -> bool
    ensures { result ≡ has_protocol by text.now }
{
    match by {
        ReadBy::Client => {
            is_deployed_after(b"SSH-2.0-", text) || is_deployed_after(b"SSH-1.99-", text)
        }
        ReadBy::Server => is_deployed_after(b"SSH-2.0-", text),
    }
}

/// Whether a softwareversion, and perhaps a space and comments, stands after these bytes.
#[tactic(auto, unfolding(crate::specs::Reading::is_deployed_after))]
fn is_deployed_after(protocol: &[u8], text: &[u8]) -> bool
    ensures { result ≡ is_deployed_after protocol.now text.now }
{
    text.starts_with(protocol) && is_deployed_software(&text[protocol.len()..])
}

/// Whether the bytes are a softwareversion, and perhaps a space and comments.
#[tactic(auto, unfolding(crate::specs::Reading::is_deployed_software))]
fn is_deployed_software(bytes: &[u8]) -> bool
    ensures { result ≡ is_deployed_software bytes.now }
{
    let (software, comments) = split_at_space(bytes);
    if software.is_empty() {
        return false;
    }
    are_deployed_bytes(software) && are_comment_bytes(comments)
}

fn are_deployed_bytes(bytes: &[u8]) -> bool
    ensures { result ≡ list_all is_deployed_byte bytes.now }
{
    bytes.iter().all(|b| b.is_ascii_graphic())
}
