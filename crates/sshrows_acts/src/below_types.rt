//! Rows of data types.

use crate::below_texts::{code_of_wire, put_names, text_with};
use crate::refusals::{stopped, vector};
use crate::stop::Stop;
use crate::terms::bytes_of;
use crate::texts::{flag_of, number_of, same_bytes, same_text, wrong, yes_or_no};
use crate::words::{Line, split_word};
use sshterms::Names;
use sshwire::{
    BorrowedNameList, Mpint, NameList, Reader, TextBuffer, VersionLine, WireFault, as_name,
    put_boolean, put_mpint, put_string, put_u32,
};
use std::alloc::Global;

/// Judges a reader of these bytes by calls.
pub(crate) fn judge_reading(alloc: Global, bytes: &[u8], lines: &[Line<'_>]) -> Result<(), Stop> {
    let mut reader = Reader::new(bytes);
    for line in lines {
        judge_call(alloc, &mut reader, line)?;
    }
    Ok(())
}

/// Judges one call; one that is refused has to leave the reader as it was.
fn judge_call(alloc: Global, reader: &mut Reader<'_>, line: &Line<'_>) -> Result<(), Stop> {
    let before = reader.rest();
    let found = match text_of_call(alloc, reader, line) {
        Ok(found) => found,
        Err(stop) => return Err(stopped(alloc, line, stop, standing(before == reader.rest()))),
    };
    same_text(alloc, line, "read", line.text, &found)?;
    if line.text.starts_with("refused") {
        same_bytes(alloc, line, "rest", before, reader.rest())?;
    }
    Ok(())
}

/// How a reader stands after a refused call.
fn standing(is_unchanged: bool) -> &'static str {
    if is_unchanged {
        "V7, the reader as it was"
    } else {
        "V7, the reader changed"
    }
}

/// Makes the call of the line, `CALL VALUE` or `refused CODE CALL`, and tells what came of it.
fn text_of_call(alloc: Global, reader: &mut Reader<'_>, line: &Line<'_>) -> Result<String, Stop> {
    let (first, rest) = line.head();
    let (_, after) = split_word(rest);
    let call = if first == "refused" { after } else { first };
    match call {
        "boolean" => {
            let found = reader.boolean();
            told(alloc, "boolean", found.map(|value| yes_or_no(value)))
        }
        "u32" => told_number(alloc, reader.u32()),
        "string" => told_bytes(alloc, "string", reader.string()),
        "mpint" => told_bytes(alloc, "mpint", reader.mpint().map(|number| number.body())),
        "rest" => Ok(text_with(alloc, "rest", &[reader.rest()])?),
        _ => text_of_list_call(alloc, reader, line, call),
    }
}

/// The same of the two calls that read lists.
fn text_of_list_call(
    alloc: Global,
    reader: &mut Reader<'_>,
    line: &Line<'_>,
    call: &str,
) -> Result<String, Stop> {
    match call {
        "name_list" => told_names(alloc, reader.name_list(alloc)),
        "lent_list" => {
            let found = reader.borrowed_name_list();
            told_bytes(alloc, "lent_list", found.map(|list| list.body()))
        }
        _ => wrong(alloc, line, "line", "a call of a reader", call),
    }
}

/// The call and its value, or its refusal.
fn told(
    alloc: Global,
    call: &'static str,
    found: Result<&'static str, WireFault>,
) -> Result<String, Stop> {
    match found {
        Ok(value) => Ok(format!(in alloc; "{call} {value}")?),
        Err(fault) => refusal(alloc, call, fault),
    }
}

/// The refusal of a call.
fn refusal(alloc: Global, call: &'static str, fault: WireFault) -> Result<String, Stop> {
    let code = code_of_wire(fault)?;
    Ok(format!(in alloc; "refused {code} {call}")?)
}

/// The same of a uint32.
fn told_number(alloc: Global, found: Result<u32, WireFault>) -> Result<String, Stop> {
    match found {
        Ok(number) => Ok(format!(in alloc; "u32 {number}")?),
        Err(fault) => refusal(alloc, "u32", fault),
    }
}

/// The same of bytes.
fn told_bytes(
    alloc: Global,
    call: &'static str,
    found: Result<&[u8], WireFault>,
) -> Result<String, Stop> {
    match found {
        Ok(bytes) => Ok(text_with(alloc, call, &[bytes])?),
        Err(fault) => refusal(alloc, call, fault),
    }
}

/// The same of a list of names.
fn told_names(alloc: Global, found: Result<NameList, WireFault>) -> Result<String, Stop> {
    match found {
        Ok(list) => {
            let mut text = TextBuffer::new(alloc);
            text.push_str("name_list");
            put_names(&mut text, &list);
            Ok(text.finish()?)
        }
        Err(fault) => refusal(alloc, "name_list", fault),
    }
}

/// Puts values by calls, and judges what was put: `output TERMS`.
pub(crate) fn judge_putting(alloc: Global, names: &Names, lines: &[Line<'_>]) -> Result<(), Stop> {
    let mut out = Vec::new(alloc);
    for line in lines {
        let before = out.len();
        if let Err(stop) = put(alloc, names, line, &mut out) {
            return Err(stopped(alloc, line, stop, vector(out.len() == before)));
        }
    }
    Ok(())
}

/// Puts one value, or judges what was put.
fn put(alloc: Global, names: &Names, line: &Line<'_>, out: &mut Vec<u8>) -> Result<(), Stop> {
    let (call, rest) = line.head();
    match call {
        "boolean" => Ok(put_boolean(out, flag_of(alloc, line, rest)?)?),
        "u32" => Ok(put_u32(out, number_of(alloc, line, rest)?)?),
        _ => {
            let bytes = bytes_of(alloc, names, line, rest)?;
            put_bytes(alloc, line, call, &bytes, out)
        }
    }
}

/// The same of a value that is bytes.
fn put_bytes(
    alloc: Global,
    line: &Line<'_>,
    call: &str,
    bytes: &[u8],
    out: &mut Vec<u8>,
) -> Result<(), Stop> {
    if bytes.len() > 1000000 {
        return wrong(alloc, line, "term", "bytes", "too many bytes");
    }
    match call {
        "says" => same_bytes(alloc, line, "put", bytes, out),
        "string" => Ok(put_string(out, bytes)?),
        "mpint" => match Mpint::new(bytes) {
            Ok(number) => Ok(put_mpint(out, &number)?),
            Err(_) => wrong(alloc, line, "mpint", "a number", "none"),
        },
        "name_list" => put_list(alloc, line, bytes, out),
        _ => wrong(alloc, line, "line", "a call that puts", call),
    }
}

/// Puts the list of this body.
fn put_list(alloc: Global, line: &Line<'_>, body: &[u8], out: &mut Vec<u8>) -> Result<(), Stop> {
    if body.len() > 1000000 {
        return wrong(alloc, line, "term", "bytes", "too many bytes");
    }
    match NameList::parse(alloc, body) {
        Ok(list) => Ok(list.write(out)?),
        Err(WireFault::Memory) => Err(Stop::Refused),
        Err(_) => wrong(alloc, line, "name_list", "names", "none"),
    }
}

/// Judges bytes by themselves, a line each: `KIND ANSWER TERMS`.
pub(crate) fn judge_parsing(alloc: Global, names: &Names, lines: &[Line<'_>]) -> Result<(), Stop> {
    for line in lines {
        judge_parsed(alloc, names, line)?;
    }
    Ok(())
}

/// Judges bytes by themselves.
fn judge_parsed(alloc: Global, names: &Names, line: &Line<'_>) -> Result<(), Stop> {
    let (kind, rest) = line.head();
    let (wanted, terms) = split_word(rest);
    let bytes = bytes_of(alloc, names, line, terms)?;
    let found = parsed(alloc, line, kind, &bytes)?;
    same_text(alloc, line, "parsed", wanted, found)
}

/// `yes` where the bytes are of this kind, else `no` or the code of the refusal.
fn parsed(alloc: Global, line: &Line<'_>, kind: &str, bytes: &[u8]) -> Result<&'static str, Stop> {
    if bytes.len() > 1000000 {
        return wrong(alloc, line, "term", "bytes", "too many bytes");
    }
    match kind {
        "name" => Ok(yes_or_no(as_name(bytes).is_some())),
        "name_list" => answer_of(NameList::parse(alloc, bytes).err()),
        "lent_list" => answer_of(BorrowedNameList::new(bytes).err()),
        "mpint" => answer_of(Mpint::new(bytes).err()),
        "version" => answer_of(VersionLine::parse(alloc, bytes).err()),
        _ => wrong(alloc, line, "line", "a kind of bytes", kind),
    }
}

/// `yes` where nothing is refused.
fn answer_of(fault: Option<WireFault>) -> Result<&'static str, Stop> {
    match fault {
        None => Ok("yes"),
        Some(fault) => code_of_wire(fault),
    }
}
