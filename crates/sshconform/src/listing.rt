//! The checks of a file, printed.

use crate::blocks::{Block, first_block};
use crate::escapes::{put_array, put_member, put_shown};
use crate::judged::group_of;
use crate::settings::Listed;
use crate::stop::{Stop, stopped};
use sshchecks::{Check, read_check};
use sshidentity::{bytes_of, text_in};
use sshprogram::ProgramFault;
use sshwire::TextBuffer;
use std::io::Write;

/// Prints the checks of a file on standard output, a line for each, and answers the exit status.
pub(crate) fn list(rt: &HostRuntime, listed: &Listed<'_>) -> Result<u8, ProgramFault> {
    let file = bytes_of(rt, "checks", listed.checks)?;
    let text = text_in("checks", &file)?;
    let mut rest = text;
    for _ in 0..u64::MAX {
        let Some(block) = first_block(rest) else {
            break;
        };
        if let Err(stop) = list_block(rt, listed, &block) {
            return stopped(rt, text, &block, stop);
        }
        rest = block.after;
    }
    Ok(0)
}

/// Prints a check.
fn list_block<'a>(
    rt: &HostRuntime,
    listed: &Listed<'_>,
    block: &Block<'a>,
) -> Result<(), Stop<'a>> {
    let check = read_check(rt.alloc(), listed.judged.other(), block.lines)?;
    let mut line = TextBuffer::new(rt.alloc());
    if listed.json {
        put_object(&mut line, &check);
    } else {
        put_row(&mut line, &check);
    }
    let line = line.finish().map_err(ProgramFault::from)?;
    let written = rt.stdout().write_all(line.as_bytes());
    written.map_err(|_| ProgramFault::Write)?;
    Ok(())
}

/// Puts a check as an object of JSON.
fn put_object(line: &mut TextBuffer, check: &Check<'_>) {
    put_member(line, "name", check.name);
    put_member(line, "group", group_of(check.name));
    put_member(line, "about", check.about);
    put_member(line, "asked", check.asked.word());
    put_member(line, "source", check.source);
    put_array(line, "expect", check.expect);
    put_array(line, "hole", check.hole);
    put_member(line, "needs", check.needs);
    line.push_str("}\n");
}

/// Puts a check as a row of a table.
fn put_row(line: &mut TextBuffer, check: &Check<'_>) {
    line.push('|');
    put_cell(line, check.name);
    put_cell(line, check.about);
    line.push(' ');
    line.push_str(check.asked.word());
    put_cell(line, check.source);
    put_choices(line, check.expect);
    put_choices(line, check.hole);
    line.push('\n');
}

/// Puts what a cell has, and the cell's end.
fn put_cell(line: &mut TextBuffer, text: &str) {
    if !text.is_empty() {
        line.push(' ');
    }
    for (place, part) in text.split('|').enumerate() {
        if place > 0 {
            line.push_str("\\|");
        }
        put_shown(line, part.as_bytes());
    }
    line.push_str(" |");
}

/// Puts a cell of words that stand with `|` between, with `or` in its place.
fn put_choices(line: &mut TextBuffer, words: &str) {
    for (place, word) in words.split('|').enumerate() {
        if place > 0 {
            line.push_str(" or");
        }
        if !word.is_empty() {
            line.push(' ');
        }
        put_shown(line, word.as_bytes());
    }
    line.push_str(" |");
}
