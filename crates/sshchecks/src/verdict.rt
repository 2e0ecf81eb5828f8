//! What is told of what a peer did.

ghost use Rattle.std.specs.Prelude.{◌≡◌};
ghost use Rattle.sshchecks.specs.Verdicts.{is_among, verdict};

use crate::check::{Asked, Check};
use std::fmt;

/// What is told of a check.
#[derive(Clone, Copy, Debug, PartialEq, Eq)]
pub enum Verdict {
    /// The peer did what is expected.
    Keeps,
    /// It did something else.
    Deviates,
    /// It accepted or believed somebody who has shown nothing, or a known attack goes through.
    Hole,
    /// The check doesn't apply, the peer was only silent, or nothing is asked of it.
    Unclear,
}

impl fmt::Display for Verdict {
    fn fmt<W: fmt::Write>(&self, f: &mut fmt::Formatter<W>) -> fmt::Result {
        f.write_str(match self {
            Verdict::Keeps => "keeps",
            Verdict::Deviates => "deviates",
            Verdict::Hole => "hole",
            Verdict::Unclear => "unclear",
        })
    }
}

/// The verdict of a check on a peer that did what the word says.
pub fn verdict_of(check: &Check<'_>, did: &str) -> Verdict
    ensures { result ≡ verdict check.now.asked check.now.expect.now check.now.hole.now did.now }
{
    if is_among(check.expect, did) {
        return Verdict::Keeps;
    }
    if is_among(check.hole, did) {
        return Verdict::Hole;
    }
    if check.asked == Asked::Nothing || did == "not_here" || did == "silent" {
        return Verdict::Unclear;
    }
    Verdict::Deviates
}

/// Whether a word stands among words with `|` between.
fn is_among(words: &str, word: &str) -> bool
    ensures { result ≡ is_among words.now word.now }
{
    words.split('|').any(|own| own == word)
}
