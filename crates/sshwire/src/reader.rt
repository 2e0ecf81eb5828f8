//! Reads the data types of RFC 4251 section 5 from the front of bytes.

ghost use Rattle.std.specs.Prelude.{◌≡◌, ◌≢◌, ◌<◌, ◌^◌, ℕ, IfErr, IfOk, List, length};
ghost use Rattle.sshwire.specs.Types.{BooleanText, IsBytes, MpintText, NameListText, StringText, Uint32Text};
ghost use Rattle.sshwire.specs.TypeReadings.{Gives, ReadsText, Takes, boolean_at, mpint_at, names_at, string_at, uint32_at};

use crate::borrowed_name_list::BorrowedNameList;
use crate::fault::WireFault;
use crate::mpint::Mpint;
use crate::name_list::NameList;
use byteorder::{BigEndian, ByteOrder};
use std::alloc::Global;
use std::marker::Model;

/// Reads values off the front of bytes. After a refusal it is unchanged.
///
/// Contracts see the bytes that are left.
#[derive(Debug, Drop)]
pub struct Reader<'a> {
    left: &'a [u8],
}

impl<'a> Model for Reader<'a> {
    ghost use Rattle.std.specs.Prelude.{List, ℕ};
    ghost use Rattle.sshwire.specs.Types.{IsBytes};

    ghost Value = { List ℕ };

    ghost view = { λ r. r.left.now };

    ghost invariant = { λ r. IsBytes r.left.now };
}

impl<'a> Reader<'a> {
    /// A reader of all these bytes. Takes no memory.
    pub fn new(bytes: &'a [u8]) -> Reader<'a>
        ensures { result ≡ bytes.now }
    {
        Reader { left: bytes }
    }

    /// One byte, where 0 is FALSE and every other byte TRUE. `Short` where there is none. Takes no
    /// memory.
    pub fn boolean(&mut self) -> Result<bool, WireFault>
        ensures reads { ReadsText BooleanText (λ v. v) result self.old self.new }
        ensures exact { Takes (λ v. v) result self.old self.new (boolean_at self.old) }
        ensures no_memory { IfErr result (λ e. e ≢ WireFault.Memory) }
    {
        let (value, rest) = read_boolean(self.left)?;
        self.left = rest;
        Ok(value)
    }

    /// Four bytes, the most significant first. `Short` where there are fewer. Takes no memory.
    pub fn u32(&mut self) -> Result<u32, WireFault>
        ensures reads { ReadsText Uint32Text (λ n. n) result self.old self.new }
        ensures exact { Takes (λ n. n) result self.old self.new (uint32_at self.old) }
        ensures no_memory { IfErr result (λ e. e ≢ WireFault.Memory) }
    {
        let (value, rest) = read_u32(self.left)?;
        self.left = rest;
        Ok(value)
    }

    /// A uint32 with a length, and that many bytes, which are lent. `Short` where there are fewer.
    /// Takes no memory.
    pub fn string(&mut self) -> Result<&'a [u8], WireFault>
        ensures reads { ReadsText StringText (λ s. s.now) result self.old self.new }
        ensures exact { Takes (λ s. s.now) result self.old self.new (string_at self.old) }
        ensures no_memory { IfErr result (λ e. e ≢ WireFault.Memory) }
        ensures short { IfOk result (λ s. length s.now < 2 ^ 32) }
    {
        let (value, rest) = read_string(self.left)?;
        self.left = rest;
        Ok(value)
    }

    /// A string whose body is the shortest of its number. `Short` where bytes are missing,
    /// `NotCanonical` for another body. Takes no memory.
    pub fn mpint(&mut self) -> Result<Mpint<'a>, WireFault>
        ensures reads { ReadsText MpintText (λ m. m) result self.old self.new }
        ensures exact { Takes (λ m. m) result self.old self.new (mpint_at self.old) }
        ensures no_memory { IfErr result (λ e. e ≢ WireFault.Memory) }
    {
        let (value, rest) = read_mpint(self.left)?;
        self.left = rest;
        Ok(value)
    }

    /// A string whose body is names with single commas between, which are lent. `Short` where bytes
    /// are missing, `Name` for another body. Takes no memory.
    pub fn borrowed_name_list(&mut self) -> Result<BorrowedNameList<'a>, WireFault>
        ensures reads { ReadsText NameListText (λ l. l) result self.old self.new }
        ensures exact { Takes (λ l. l) result self.old self.new (names_at self.old) }
        ensures no_memory { IfErr result (λ e. e ≢ WireFault.Memory) }
    {
        let (value, rest) = read_borrowed_name_list(self.left)?;
        self.left = rest;
        Ok(value)
    }

    /// A string whose body is names with single commas between. `Short` where bytes are missing,
    /// `Name` for another body, `Memory` where an allocation failed.
    pub fn name_list(&mut self, alloc: Global) -> Result<NameList, WireFault>
        ensures reads { ReadsText NameListText (λ l. l) result self.old self.new }
        ensures exact { Takes (λ l. l) result self.old self.new (names_at self.old) }
        // Memory is asked for only where a name-list stands there.
        ensures memory { IfErr result (λ e. e ≡ WireFault.Memory → (read : List (List ℕ) × List ℕ) × (names_at self.old ≡ Ok read)) }
    {
        let (value, rest) = read_name_list(alloc, self.left)?;
        self.left = rest;
        Ok(value)
    }

    /// The bytes that are left, without taking them. Takes no memory.
    pub fn rest(&self) -> &'a [u8]
        ensures rest { result.now ≡ self.now }
        ensures bytes { IsBytes self.now }
    {
        self.left
    }
}

fn read_boolean(bytes: &[u8]) -> Result<(bool, &[u8]), WireFault>
    ensures exact { Gives (λ x. (x.0, x.1.now)) result (boolean_at bytes.now) }
    ensures no_memory { IfErr result (λ e. e ≢ WireFault.Memory) }
{
    match bytes.split_first() {
        Some((byte, rest)) => Ok((*byte != 0, rest)),
        None => Err(WireFault::Short),
    }
}

#[tactic(auto, unfolding(crate::specs::TypeReadings::uint32_at))]
fn read_u32(bytes: &[u8]) -> Result<(u32, &[u8]), WireFault>
    ensures exact { Gives (λ x. (x.0, x.1.now)) result (uint32_at bytes.now) }
    ensures no_memory { IfErr result (λ e. e ≢ WireFault.Memory) }
{
    if bytes.len() < 4 {
        return Err(WireFault::Short);
    }
    Ok((BigEndian::read_u32(bytes), &bytes[4..]))
}

#[tactic(auto, unfolding(crate::specs::TypeReadings::string_at))]
fn read_string(bytes: &[u8]) -> Result<(&[u8], &[u8]), WireFault>
    ensures exact { Gives (λ x. (x.0.now, x.1.now)) result (string_at bytes.now) }
    ensures no_memory { IfErr result (λ e. e ≢ WireFault.Memory) }
    ensures short { IfOk result (λ x. length x.0.now < 2 ^ 32) }
{
    let (len, rest) = read_u32(bytes)?;
    let len = len as usize;
    if rest.len() < len {
        return Err(WireFault::Short);
    }
    Ok(rest.split_at(len))
}

#[tactic(auto, unfolding(crate::specs::TypeReadings::mpint_at))]
fn read_mpint(bytes: &[u8]) -> Result<(Mpint<'_>, &[u8]), WireFault>
    ensures exact { Gives (λ x. (x.0, x.1.now)) result (mpint_at bytes.now) }
    ensures no_memory { IfErr result (λ e. e ≢ WireFault.Memory) }
{
    let (body, rest) = read_string(bytes)?;
    let value = Mpint::new(body)?;
    Ok((value, rest))
}

#[tactic(auto, unfolding(crate::specs::TypeReadings::names_at))]
fn read_borrowed_name_list(bytes: &[u8]) -> Result<(BorrowedNameList<'_>, &[u8]), WireFault>
    ensures exact { Gives (λ x. (x.0, x.1.now)) result (names_at bytes.now) }
    ensures no_memory { IfErr result (λ e. e ≢ WireFault.Memory) }
{
    let (body, rest) = read_string(bytes)?;
    let value = BorrowedNameList::new(body)?;
    Ok((value, rest))
}

fn read_name_list(alloc: Global, bytes: &[u8]) -> Result<(NameList, &[u8]), WireFault>
    ensures exact { Gives (λ x. (x.0, x.1.now)) result (names_at bytes.now) }
    ensures memory { IfErr result (λ e. e ≡ WireFault.Memory → (read : List (List ℕ) × List ℕ) × (names_at bytes.now ≡ Ok read)) }
{
    let (value, rest) = read_borrowed_name_list(bytes)?;
    Ok((value.to_owned(alloc)?, rest))
}
