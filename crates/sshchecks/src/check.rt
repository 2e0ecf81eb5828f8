//! A check, read of its lines.

use crate::acts::{Act, put_acts};
use crate::fault::CheckFault;
use sshneg::Side;
use std::alloc::Global;

/// What binds the peer to do what a check expects.
#[derive(Clone, Copy, Debug, PartialEq, Eq)]
pub enum Asked {
    /// A MUST of a standard.
    Must,
    /// A SHOULD of a standard.
    Should,
    /// Practice, which no standard asks.
    Practice,
    /// Nothing: what the peer does is only told.
    Nothing,
}

impl Asked {
    /// The word of the file.
    pub fn word(self) -> &'static str {
        match self {
            Asked::Must => "MUST",
            Asked::Should => "SHOULD",
            Asked::Practice => "practice",
            Asked::Nothing => "none",
        }
    }
}

/// One check.
#[derive(Drop)]
pub struct Check<'a> {
    /// Its name, with its group before a slash.
    pub name: &'a str,
    /// What is sent.
    pub about: &'a str,
    /// What binds the peer.
    pub asked: Asked,
    /// Where that stands.
    pub source: &'a str,
    /// The words of what is expected, with `|` between.
    pub expect: &'a str,
    /// The words of what would be a hole, in the same way.
    pub hole: &'a str,
    /// What has to be so for the check to mean something.
    pub needs: &'a str,
    /// What the project's own endpoint does by the strict reading, where the check names it.
    pub ours_strict: Option<&'a str>,
    /// The same by the deployed reading.
    pub ours_deployed: Option<&'a str>,
    /// What is done, in order.
    pub acts: Vec<Act<'a>>,
}

/// Reads the lines of one check, of which the first is `check NAME`. Empty lines and those that begin with `#` are passed
/// over. `side` is whose the player is: the client for checks of servers. Answers `Form` with the first line that isn't one
/// of a check, and `Memory` where an allocation failed.
pub fn read_check<'a>(
    alloc: Global,
    side: Side,
    text: &'a str,
) -> Result<Check<'a>, CheckFault<'a>> {
    let mut check = Check {
        name: "",
        about: "",
        asked: Asked::Nothing,
        source: "",
        expect: "",
        hole: "",
        needs: "",
        ours_strict: None,
        ours_deployed: None,
        acts: Vec::new(alloc),
    };
    for line in text.lines() {
        if !is_passed_over(line) && !put_head(&mut check, line) {
            put_acts(&mut check.acts, side, line, line)?;
        }
    }
    if check.name.is_empty() || check.expect.is_empty() || check.acts.is_empty() {
        return Err(CheckFault::Form(first_line(text)));
    }
    Ok(check)
}

/// The first line.
fn first_line(text: &str) -> &str {
    text.lines().next().unwrap_or("")
}

/// Whether a line says nothing.
fn is_passed_over(line: &str) -> bool {
    line.is_empty() || line.starts_with('#')
}

/// Takes a line of the head; answers false for others, and for all once an act came.
fn put_head<'a>(check: &mut Check<'a>, line: &'a str) -> bool {
    if !check.acts.is_empty() {
        return false;
    }
    let Some((word, rest)) = line.split_once(' ') else {
        return false;
    };
    match word {
        "check" => check.name = rest,
        "about" => check.about = rest,
        "asked" => return put_asked(check, rest),
        "expect" => check.expect = rest,
        "hole" => check.hole = rest,
        "needs" => check.needs = rest,
        "ours" => return put_ours(check, rest),
        "seen" => {}
        _ => return false,
    }
    true
}

/// Takes what binds the peer, and where that stands.
fn put_asked<'a>(check: &mut Check<'a>, rest: &'a str) -> bool {
    let (word, source) = match rest.split_once(' ') {
        Some((word, source)) => (word, source),
        None => (rest, ""),
    };
    check.source = source;
    check.asked = match word {
        "MUST" => Asked::Must,
        "SHOULD" => Asked::Should,
        "practice" => Asked::Practice,
        "none" => Asked::Nothing,
        _ => return false,
    };
    true
}

/// Takes what the own endpoint does.
fn put_ours<'a>(check: &mut Check<'a>, rest: &'a str) -> bool {
    match rest.split_once(' ') {
        Some(("strict", words)) => check.ours_strict = Some(words),
        Some(("deployed", words)) => check.ours_deployed = Some(words),
        _ => return false,
    }
    true
}

/// The lines of the first check of a text, and what stands after them; none where no check stands in it.
pub fn next_check(text: &str) -> Option<(&str, &str)> {
    let start = start_of(text, 0)?;
    let from = text.get(start..)?;
    match start_of(from, 1) {
        Some(end) => Some((from.get(..end)?, from.get(end..)?)),
        None => Some((from, "")),
    }
}

/// Where the first line that begins a check stands, from a place on.
fn start_of(text: &str, least: usize) -> Option<usize> {
    let mut place = 0usize;
    for line in text.split('\n') {
        if place >= least && line.starts_with("check ") {
            return Some(place);
        }
        place = place.saturating_add(line.len()).saturating_add(1);
    }
    None
}

/// The name of the check whose lines these are; empty where the first line names none.
pub fn name_in(text: &str) -> &str {
    first_line(text).strip_prefix("check ").unwrap_or("")
}
