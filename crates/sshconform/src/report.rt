//! What is told of a check that was played.

use crate::escapes::{put_array, put_key, put_member, put_shown};
use crate::judged::group_of;
use sshchecks::{Check, Verdict};
use sshwire::TextBuffer;
use std::alloc::{AllocError, Global};

/// What a peer did.
#[derive(Clone, Copy)]
pub(crate) struct Outcome<'a> {
    pub(crate) verdict: Verdict,
    /// The word of what it did.
    pub(crate) did: &'a str,
    /// The reason in its DISCONNECT.
    pub(crate) reason: Option<u32>,
    /// The act at which the check ended; empty where it came to its end.
    pub(crate) at: &'a str,
    /// How many bytes came.
    pub(crate) came: usize,
    /// Whether an UNIMPLEMENTED came, also where the word says something else.
    pub(crate) unimplemented: bool,
}

/// A line of text: the verdict, what the peer did, and what asks for what.
pub(crate) fn text_of(
    alloc: Global,
    check: &Check<'_>,
    outcome: &Outcome<'_>,
) -> Result<String, AllocError> {
    let mut line = TextBuffer::new(alloc);
    let verdict = outcome.verdict;
    write!(line, "{verdict} ");
    put_shown(&mut line, check.name.as_bytes());
    line.push_str(": ");
    put_shown(&mut line, outcome.did.as_bytes());
    if let Some(reason) = outcome.reason {
        write!(line, " (DISCONNECT {reason})");
    }
    if !outcome.at.is_empty() {
        line.push_str(" at `");
        put_shown(&mut line, outcome.at.as_bytes());
        line.push('`');
    }
    line.push_str("; ");
    line.push_str(check.asked.word());
    if !check.source.is_empty() {
        line.push(' ');
        put_shown(&mut line, check.source.as_bytes());
    }
    line.push('\n');
    line.finish()
}

/// The same as an object of JSON, in a line.
pub(crate) fn json_of(
    alloc: Global,
    check: &Check<'_>,
    outcome: &Outcome<'_>,
) -> Result<String, AllocError> {
    let mut line = TextBuffer::new(alloc);
    put_member(&mut line, "name", check.name);
    put_member(&mut line, "group", group_of(check.name));
    put_member(&mut line, "sent", check.about);
    put_member(&mut line, "asked", check.asked.word());
    put_member(&mut line, "source", check.source);
    put_array(&mut line, "expected", check.expect);
    put_member(&mut line, "did", outcome.did);
    put_key(&mut line, "reason");
    match outcome.reason {
        Some(reason) => write!(line, "{reason}"),
        None => line.push_str("null"),
    }
    put_member(&mut line, "at", outcome.at);
    put_key(&mut line, "came");
    let (came, verdict) = (outcome.came, outcome.verdict);
    write!(line, "{came}");
    put_key(&mut line, "unimplemented");
    line.push_str(if outcome.unimplemented {
        "true"
    } else {
        "false"
    });
    put_key(&mut line, "verdict");
    write!(line, "\"{verdict}\"");
    line.push_str("}\n");
    line.finish()
}
