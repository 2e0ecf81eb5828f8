//! Texts and lists that a program has put in, as parts of a config have them.

ghost use Rattle.std.specs.Prelude.{◌≡◌, IfErr, IfOk, map, option_map, string_bytes};
ghost use Rattle.std.specs.Str.{IsUtf8};
ghost use Rattle.rezdolin.specs.declared.texts.InputFault.TheVariants as fault;
ghost use Rattle.rezdolin.specs.Inputs.{between_commas, names_of, unless_empty};

use sshwire::Memory;
use std::alloc::{AllocError, AllocFailed, Global};

/// Why no parts come of what was put in.
#[derive(Clone, Copy)]
pub(crate) enum InputFault {
    /// A text isn't UTF-8, or a number is none of a method.
    Unreadable,
    /// An allocation failed.
    Memory,
}

impl From<Memory> for InputFault {
    ghost from_gives = { λ _ e. e ≡ fault.Memory };

    fn from(_: Memory) -> InputFault {
        InputFault::Memory
    }
}

impl From<AllocError> for InputFault {
    ghost from_gives = { λ _ e. e ≡ fault.Memory };

    fn from(_: AllocError) -> InputFault {
        InputFault::Memory
    }
}

impl<T: Drop> From<AllocFailed<T>> for InputFault {
    ghost from_gives = { λ _ e. e ≡ fault.Memory };

    fn from(_: AllocFailed<T>) -> InputFault {
        InputFault::Memory
    }
}

/// The bytes as a text.
pub(crate) fn text_of(alloc: Global, bytes: &[u8]) -> Result<String, InputFault>
    ensures text { IfOk result (λ text. string_bytes text ≡ bytes.now) }
    ensures unreadable { IfErr result (λ f. f ≡ fault.Unreadable → IsUtf8 bytes.now → ⊥) }
{
    match str::from_utf8(bytes) {
        Ok(text) => Ok(String::from_str(alloc, text)?),
        Err(_) => Err(InputFault::Unreadable),
    }
}

/// The bytes as a text, if there are some.
pub(crate) fn text_in(alloc: Global, bytes: &[u8]) -> Result<Option<String>, InputFault>
    ensures text { IfOk result (λ text. option_map string_bytes text ≡ unless_empty bytes.now) }
    ensures unreadable { IfErr result (λ f. f ≡ fault.Unreadable → IsUtf8 bytes.now → ⊥) }
{
    if bytes.is_empty() {
        return Ok(None);
    }
    Ok(Some(text_of(alloc, bytes)?))
}

/// The bytes as a vector, if there are some.
pub(crate) fn bytes_in(alloc: Global, bytes: &[u8]) -> Result<Option<Vec<u8>>, Memory>
    ensures { IfOk result (λ found. option_map (λ v. v.items) found ≡ unless_empty bytes.now) }
{
    if bytes.is_empty() {
        return Ok(None);
    }
    Ok(Some(Vec::from_slice(alloc, bytes)?))
}

/// The names of a list, which is its text.
pub(crate) fn names_of(alloc: Global, list: &[u8]) -> Result<Vec<String>, InputFault>
    ensures names { IfOk result (λ names. map string_bytes names.items ≡ names_of list.now) }
    ensures unreadable { IfErr result (λ f. f ≡ fault.Unreadable → IsUtf8 list.now → ⊥) }
{
    if list.is_empty() {
        return Ok(Vec::new(alloc));
    }
    match str::from_utf8(list) {
        Ok(text) => Ok(names_in(alloc, text)?),
        Err(_) => Err(InputFault::Unreadable),
    }
}

/// What stands between the commas of a text.
fn names_in(alloc: Global, text: &str) -> Result<Vec<String>, Memory>
    ensures { IfOk result (λ names. map string_bytes names.items ≡ between_commas text.now) }
{
    let mut names = Vec::new(alloc);
    for name in text.split(',') {
        names.push(String::from_str(alloc, name)?)?;
    }
    Ok(names)
}

/// Copies of these bytes, in order.
pub(crate) fn copies_of(alloc: Global, list: &[&[u8]]) -> Result<Vec<Vec<u8>>, Memory>
    ensures { IfOk result (λ copies. map (λ copy. copy.items) copies.items ≡ map (λ bytes. bytes.now) list.now) }
{
    let mut copies = Vec::new(alloc);
    for bytes in list {
        copies.push(Vec::from_slice(alloc, bytes)?)?;
    }
    Ok(copies)
}
