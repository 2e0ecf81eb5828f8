//! Rows of one payload.

use crate::below_texts::code_of_message;
use crate::below_told::text_of_message;
use crate::refusals::{refused, vector};
use crate::stop::Stop;
use crate::terms::bytes_of;
use crate::texts::{BEFORE, same_text, stands_after, wrong};
use crate::words::{Line, split_word};
use sshmsg::{Message, MsgFault, read_exchange, write};
use sshterms::Names;
use sshwire::ShareForm;
use std::alloc::Global;

/// Judges a payload by lines; in front of its terms stands the form of shares.
pub(crate) fn judge_message(
    alloc: Global,
    names: &Names,
    line: &Line<'_>,
    terms: &str,
    lines: &[Line<'_>],
) -> Result<(), Stop> {
    let (form, terms) = split_word(terms);
    let form = match form {
        "mpint" => ShareForm::Mpint,
        "octets" => ShareForm::OctetString,
        "hybrid" => ShareForm::Hybrid,
        _ => return wrong(alloc, line, "form", "mpint, octets or hybrid", form),
    };
    let payload = bytes_of(alloc, names, line, terms)?;
    judge_all(alloc, names, lines, &payload, form)
}

/// Judges a payload by lines.
fn judge_all(
    alloc: Global,
    names: &Names,
    lines: &[Line<'_>],
    payload: &[u8],
    form: ShareForm,
) -> Result<(), Stop> {
    for line in lines {
        judge(alloc, names, line, payload, form)?;
    }
    Ok(())
}

/// Judges one line.
fn judge(
    alloc: Global,
    names: &Names,
    line: &Line<'_>,
    payload: &[u8],
    form: ShareForm,
) -> Result<(), Stop> {
    if line.text == "cuts" {
        return judge_cuts(alloc, line, payload, form);
    }
    match message_of(alloc, payload, form)? {
        Ok(message) => judge_read(alloc, names, line, &message),
        Err(fault) => judge_refused(alloc, line, fault),
    }
}

/// The message that the payload spells, or why it spells none.
fn message_of<'a>(
    alloc: Global,
    payload: &'a [u8],
    form: ShareForm,
) -> Result<Result<Box<Message<'a>>, MsgFault>, Stop> {
    match read_exchange(alloc, payload, form) {
        Ok(message) => Ok(Ok(Box::new(alloc, message)?)),
        Err(MsgFault::Memory) => Err(Stop::Refused),
        Err(fault) => Ok(Err(fault)),
    }
}

/// The payload was refused, which has to be what the line says.
fn judge_refused(alloc: Global, line: &Line<'_>, fault: MsgFault) -> Result<(), Stop> {
    let found = code_of_message(alloc, fault)?;
    same_text(alloc, line, "message", line.text, &found)
}

/// `tells FIELDS`, `writes TERMS` or `too long`.
fn judge_read(
    alloc: Global,
    names: &Names,
    line: &Line<'_>,
    message: &Message<'_>,
) -> Result<(), Stop> {
    let (word, rest) = line.head();
    match word {
        "tells" => {
            let found = text_of_message(alloc, message)?;
            same_text(alloc, line, "told", rest, &found)
        }
        "writes" => {
            let wanted = bytes_of(alloc, names, line, rest)?;
            judge_written(alloc, line, message, &wanted)
        }
        "too" => {
            let found = if message.fits() { "fits" } else { "too long" };
            same_text(alloc, line, "message", line.text, found)
        }
        _ => wrong(alloc, line, "message", line.text, "read"),
    }
}

/// The message has to be written as these bytes, after what stood there.
fn judge_written(
    alloc: Global,
    line: &Line<'_>,
    message: &Message<'_>,
    wanted: &[u8],
) -> Result<(), Stop> {
    if !message.fits() {
        return wrong(alloc, line, "written", "bytes", "too long");
    }
    let mut out = Vec::from_slice(alloc, BEFORE)?;
    match write(message, &mut out) {
        Ok(()) => stands_after(alloc, line, "written", wanted, &out),
        Err(_) => Err(refused(alloc, line, vector(out.as_slice() == BEFORE))),
    }
}

/// Each beginning that is shorter has to be refused, and the payload with a byte after it.
fn judge_cuts(alloc: Global, line: &Line<'_>, payload: &[u8], form: ShareForm) -> Result<(), Stop> {
    cut(alloc, line, payload, form)?;
    let mut longer = Vec::from_slice(alloc, payload)?;
    longer.push(0)?;
    is_malformed(alloc, line, &longer, form)
}

/// Each beginning that is shorter has to be refused.
fn cut(alloc: Global, line: &Line<'_>, payload: &[u8], form: ShareForm) -> Result<(), Stop> {
    for len in 0..payload.len() {
        is_malformed(alloc, line, payload.get(..len).unwrap_or(&[]), form)?;
    }
    Ok(())
}

/// The bytes have to be refused as a malformed message of their number.
fn is_malformed(alloc: Global, line: &Line<'_>, bytes: &[u8], form: ShareForm) -> Result<(), Stop> {
    let number = bytes.first().copied().unwrap_or(0);
    match message_of(alloc, bytes, form)? {
        Err(MsgFault::Malformed(found)) if found == number => Ok(()),
        _ => wrong_cut(alloc, line, bytes.len()),
    }
}

/// A beginning of so many bytes was read, or refused otherwise.
fn wrong_cut(alloc: Global, line: &Line<'_>, len: usize) -> Result<(), Stop> {
    let found = format!(in alloc; "another answer to {len} bytes")?;
    wrong(alloc, line, "cut", "refused M2 by its number", &found)
}
