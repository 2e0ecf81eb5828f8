//! Writes the data types of RFC 4251 section 5 at the end of a vector.

ghost use Rattle.std.specs.Prelude.{◌≡◌, ◌<◌, ◌^◌, ◌++◌, length, is_ok, if◌then◌else◌};
ghost use Rattle.sshwire.specs.Types.{BooleanText, MpintText, StringText, Uint32Text, boolean, string, uint32};

use crate::fault::Memory;
use crate::mpint::Mpint;
use byteorder::{BigEndian, ByteOrder};

/// Appends 1 for true and 0 for false. Where an allocation failed the vector is unchanged.
pub fn put_boolean(out: &mut Vec<u8>, value: bool) -> Result<(), Memory>
    ensures appends { out.new.items ≡ (if is_ok result then out.old.items ++ boolean value else out.old.items) }
    // What is appended stands for the value, and so is read again, whatever follows.
    ensures spells { BooleanText value (boolean value) }
{
    out.push(u8::from(value))?;
    Ok(())
}

/// Appends four bytes, the most significant first. Where an allocation failed the vector is unchanged.
pub fn put_u32(out: &mut Vec<u8>, value: u32) -> Result<(), Memory>
    ensures appends { out.new.items ≡ (if is_ok result then out.old.items ++ uint32 value else out.old.items) }
    // What is appended stands for the number, and so is read again, whatever follows.
    ensures spells { Uint32Text value (uint32 value) }
{
    let mut bytes = [0u8; 4];
    BigEndian::write_u32(&mut bytes, value);
    out.extend_from_slice(&bytes)?;
    Ok(())
}

/// Appends the length and the bytes. Where an allocation failed the vector is unchanged.
pub fn put_string(out: &mut Vec<u8>, bytes: &[u8]) -> Result<(), Memory>
    requires { length bytes.now < 2 ^ 32 }
    ensures appends { out.new.items ≡ (if is_ok result then out.old.items ++ string bytes.now else out.old.items) }
    // What is appended stands for the bytes, and so is read again, whatever follows.
    ensures spells { StringText bytes.now (string bytes.now) }
{
    let start = out.len();
    put_u32(out, bytes.len() as u32)?;
    if out.extend_from_slice(bytes).is_err() {
        out.truncate(start);
        return Err(Memory);
    }
    Ok(())
}

/// Appends the number as a string. Where an allocation failed the vector is unchanged.
pub fn put_mpint(out: &mut Vec<u8>, value: &Mpint<'_>) -> Result<(), Memory>
    ensures appends { out.new.items ≡ (if is_ok result then out.old.items ++ string value.now else out.old.items) }
    // What is appended stands for the number, and so is read again, whatever follows.
    ensures spells { MpintText value.now (string value.now) }
{
    put_string(out, value.body())
}
