//! The fields of a scenario's line.

ghost use Rattle.std.specs.Prelude.{◌≡◌, ◌≢◌, ◌<◌, Err, IfOk, None, Some, map, string_bytes};
ghost use Rattle.sshlab.specs.ScenarioFields.{bytes_of, flag_of, list_of, number_of, parts};
ghost use Rattle.sshlab.specs.declared.scenario_fields.LineFault.TheVariants as fault;

use crate::schedule::count_of;
use hex::FromHexError;
use sshwire::Memory;
use std::alloc::Global;

/// Why a line of a scenario isn't taken.
#[derive(Clone, Copy, Debug, PartialEq, Eq)]
pub(crate) enum LineFault {
    /// It has no form that there is.
    Form,
    /// An allocation failed.
    Memory,
}

impl From<Memory> for LineFault {
    ghost from_gives = { λ _ e. e ≡ fault.Memory };

    fn from(_e: Memory) -> LineFault {
        LineFault::Memory
    }
}

/// What stands between these characters of a text.
pub(crate) fn parts_of<'a>(
    alloc: Global,
    text: &'a str,
    between: char,
) -> Result<Vec<&'a str>, Memory>
    requires { between < 128 }
    ensures { IfOk result (λ found. map (λ part. part.now) found.items ≡ parts between text.now) }
{
    let mut found = Vec::new(alloc);
    let mut rest = text;
    while let Some((part, after)) = rest.split_once(between) {
        found.push(part)?;
        rest = after;
    }
    found.push(rest)?;
    Ok(found)
}

/// A field as text of its own.
pub(crate) fn text_of(alloc: Global, field: &str) -> Result<String, LineFault>
    ensures value { IfOk result (λ text. string_bytes text ≡ field.now) }
    ensures taken { result ≢ Err fault.Form }
{
    String::from_str(alloc, field).map_err(|_| LineFault::Memory)
}

/// The bytes that hexadecimal digits in either case spell; `-` is no bytes.
#[tactic(auto, unfolding(crate::specs::ScenarioFields::bytes_of))]
pub(crate) fn bytes_of(alloc: Global, field: &str) -> Result<Vec<u8>, LineFault>
    ensures value { IfOk result (λ bytes. bytes_of field.now ≡ Some bytes.items) }
    ensures form { result ≡ Err fault.Form → bytes_of field.now ≡ None }
{
    if field == "-" {
        return Ok(Vec::new(alloc));
    }
    match hex::decode(alloc, field) {
        Ok(bytes) => Ok(bytes),
        Err(FromHexError::OutOfMemory) => Err(LineFault::Memory),
        Err(_) => Err(LineFault::Form),
    }
}

/// The names between the commas; `-` is the empty list.
#[tactic(auto, unfolding(crate::specs::ScenarioFields::list_of))]
pub(crate) fn list_of(alloc: Global, field: &str) -> Result<Vec<String>, LineFault>
    ensures value { IfOk result (λ names. map string_bytes names.items ≡ list_of field.now) }
    ensures taken { result ≢ Err fault.Form }
{
    if field == "-" {
        return Ok(Vec::new(alloc));
    }
    let names = parts_of(alloc, field, ',').map_err(|_| LineFault::Memory)?;
    texts_of(alloc, &names).map_err(|_| LineFault::Memory)
}

/// Each of the fields as text of its own.
fn texts_of(alloc: Global, fields: &[&str]) -> Result<Vec<String>, Memory>
    ensures { IfOk result (λ texts. map string_bytes texts.items ≡ map (λ field. field.now) fields.now) }
{
    let mut texts = Vec::new(alloc);
    for field in fields {
        texts.push(String::from_str(alloc, field)?)?;
    }
    Ok(texts)
}

/// `yes` or `no`.
#[tactic(auto, unfolding(crate::specs::ScenarioFields::flag_of))]
pub(crate) fn flag_of(field: &str) -> Result<bool, LineFault>
    ensures value { IfOk result (λ flag. flag_of field.now ≡ Some flag) }
    ensures form { result ≡ Err fault.Form → flag_of field.now ≡ None }
{
    match field {
        "yes" => Ok(true),
        "no" => Ok(false),
        _ => Err(LineFault::Form),
    }
}

/// A number of one to ten digits, at most 4294967295.
pub(crate) fn number_of(field: &str) -> Result<u32, LineFault>
    ensures value { IfOk result (λ number. number_of field.now ≡ Some number) }
    ensures form { result ≡ Err fault.Form → number_of field.now ≡ None }
{
    count_of(field.as_bytes()).ok_or(LineFault::Form)
}
