//! The checks of a file, as text.

use sshchecks::{name_in, next_check};

/// The lines of a check in a file.
#[derive(Clone, Copy)]
pub(crate) struct Block<'a> {
    /// From its line `check` up to the next.
    pub(crate) lines: &'a str,
    /// What stands after it in the file.
    pub(crate) after: &'a str,
}

/// The first check of the text.
pub(crate) fn first_block(text: &str) -> Option<Block<'_>> {
    let (lines, after) = next_check(text)?;
    Some(Block { lines, after })
}

/// The check of this name in the text of a file.
pub(crate) fn block_named<'a>(text: &'a str, name: &str) -> Option<Block<'a>> {
    let mut rest = text;
    for _ in 0..u64::MAX {
        let block = first_block(rest)?;
        if name_in(block.lines) == name {
            return Some(block);
        }
        rest = block.after;
    }
    None
}

/// The number that a line of a check has in the file, from 1: that of the check's first line which is the same.
pub(crate) fn number_of(text: &str, block: &Block<'_>, line: &str) -> usize {
    let begin = text
        .len()
        .saturating_sub(block.after.len())
        .saturating_sub(block.lines.len());
    let before = text.as_bytes().get(..begin).unwrap_or(&[]);
    ends_in(before)
        .saturating_add(place_of(block.lines, line))
        .saturating_add(1)
}

/// How many lines end in the bytes.
fn ends_in(bytes: &[u8]) -> usize {
    bytes.iter().filter(|byte| **byte == b'\n').count()
}

/// The place of the first of the lines that is this one, from 0.
fn place_of(lines: &str, line: &str) -> usize {
    for (place, own) in lines.lines().enumerate() {
        if own.trim() == line.trim() {
            return place;
        }
    }
    0
}
