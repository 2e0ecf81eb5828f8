//! The name-list of RFC 4251 section 5, of names by section 6.

ghost use Rattle.std.specs.Prelude.{◌≡◌, ◌≢◌, ◌<◌, ◌^◌, ◌==◌, ◌++◌, ◌↔◌, ◌∷◌, ℕ, List, Contains, Err, IfErr, IfOk, IfSome, IsTrue, None, Ok, OnOk, Some, if◌then◌else◌, is_ok, length, map, option_map, slice_get, string_bytes};
ghost use Rattle.std.specs.List.{list_all, list_any};
ghost use Rattle.std.specs.Str.{bytes_eq};
ghost use Rattle.sshwire.specs.Types.{AreNames, IsName, NameListText, name_list, names_body};
ghost use Rattle.sshwire.specs.TypeReadings.{Gives, IsNameTable, ends_from, is_name, is_name_byte, names_in, names_of};
ghost use Rattle.sshwire.specs.Names.{names_left};

use crate::borrowed_name_list::BorrowedNameList;
use crate::fault::{Memory, WireFault};
use crate::limits::NAME_LIMIT;
use crate::names::Names;
use crate::put::put_string;
use std::alloc::Global;
use std::marker::Model;
use std::str;

/// Names with single commas between (RFC 4251 sections 5 and 6). A name may stand in it twice.
///
/// Contracts see the names.
#[derive(Debug, Drop)]
pub struct NameList {
    /// The names with commas between.
    text: String,
    /// Where in the text each name ends.
    ends: Vec<u32>,
}

impl Model for NameList {
    ghost use Rattle.std.specs.Prelude.{List, string_bytes, ℕ};
    ghost use Rattle.sshwire.specs.TypeReadings.{IsNameTable, names_of};

    ghost Value = { List (List ℕ) };

    ghost view = { λ l. names_of (string_bytes l.text) };

    ghost invariant = { λ l. IsNameTable (string_bytes l.text) l.ends.items };
}

impl NameList {
    /// The names of the body of a string, its length left out; no bytes are the empty list.
    ///
    /// Answers `Name` where the body isn't names with single commas between, each of 1 to 64 bytes
    /// from 33 to 126, and `Memory` where an allocation failed.
    pub fn parse(alloc: Global, body: &[u8]) -> Result<NameList, WireFault>
        requires { length body.now < 2 ^ 32 }
        ensures ok { IfOk result (λ names. AreNames names × (body.now ≡ names_body names)) }
        ensures err { IfErr result (λ e. e ≢ WireFault.Memory → (e ≡ WireFault.Name)
            × ((names : List (List ℕ)) → AreNames names → body.now ≡ names_body names → ⊥)) }
        ensures exact { Gives (λ names. names) result (names_in body.now) }
        // Memory is asked for only where names stand there.
        ensures memory { IfErr result (λ e. e ≡ WireFault.Memory → (names : List (List ℕ)) × (names_in body.now ≡ Ok names)) }
    {
        Ok(BorrowedNameList::new(body)?.to_owned(alloc)?)
    }

    /// The names of a body, of which there are so many: for more or fewer only room would be asked
    /// for more often.
    pub(crate) fn of_body(alloc: Global, body: &[u8], count: usize) -> Result<NameList, Memory>
        requires short { length body.now < 2 ^ 32 }
        requires names { names_in body.now ≡ Ok (names_of body.now) }
        ensures { IfOk result (λ list. list ≡ names_of body.now) }
    {
        Ok(NameList {
            text: text_of(alloc, body)?,
            ends: ends_of(alloc, body, count)?,
        })
    }

    /// The list of these names, in order.
    ///
    /// Answers `Name` where one of them is none (RFC 4251 section 6), and `Memory` where an allocation
    /// failed. Fewer than 2^25 names fit a string, whatever their lengths.
    pub fn from_names(alloc: Global, names: &[&str]) -> Result<NameList, WireFault>
        requires { length names.now < 2 ^ 25 }
        ensures sound { IfOk result (λ list. (list ≡ map (λ name. name.now) names.now) × AreNames list) }
        ensures complete { IfErr result (λ e. e ≢ WireFault.Memory → (e ≡ WireFault.Name)
            × (AreNames (map (λ name. name.now) names.now) → ⊥)) }
    {
        let mut text = String::new(alloc);
        for name in names {
            if !is_name(name.as_bytes()) {
                return Err(WireFault::Name);
            }
            push_name(&mut text, name)?;
        }
        let ends = ends_of(alloc, text.as_bytes(), names.len())?;
        Ok(NameList { text, ends })
    }

    /// Appends the whole string, its length included. Where an allocation failed the vector is unchanged.
    pub fn write(&self, out: &mut Vec<u8>) -> Result<(), Memory>
        ensures appends { out.new.items ≡ (if is_ok result then out.old.items ++ name_list self.now else out.old.items) }
        // What is appended stands for the names, and so is read again, whatever follows.
        ensures spells { NameListText self.now (name_list self.now) }
    {
        put_string(out, self.text.as_bytes())
    }

    /// How many bytes `write` appends. Takes no memory.
    pub fn written_len(&self) -> usize
        ensures { result ≡ length (name_list self.now) }
    {
        4 + self.text.len()
    }

    /// How many names there are. Takes no memory.
    pub fn len(&self) -> usize
        ensures count { result ≡ length self.now }
        ensures each { AreNames self.now }
        ensures short { length (names_body self.now) < 2 ^ 32 }
    {
        self.ends.len()
    }

    /// Whether there is no name. Takes no memory.
    pub fn is_empty(&self) -> bool
        ensures { result ≡ (length self.now == 0) }
    {
        self.ends.is_empty()
    }

    /// The names, in order. Takes no memory.
    pub fn names(&self) -> Names<'_>
        ensures left { names_left result ≡ self.now }
        ensures each { AreNames self.now }
        ensures few { length self.now < 2 ^ 32 }
    {
        // Where a field is read the prover sees what every list holds.
        let _ = &self.text;
        Names::new(self)
    }

    /// The name at a position, the first at 0, or None where the list is shorter. Takes no memory,
    /// and as long for each position.
    pub fn name_at(&self, position: usize) -> Option<&str>
        ensures exact { option_map (λ name. name.now) result ≡ slice_get self.now position }
        ensures sound { IfSome result (λ name. IsName name.now) }
    {
        if position < self.ends.len() {
            Some(name_between(&self.text, &self.ends, position))
        } else {
            None
        }
    }

    /// Whether a name stands in the list. Takes no memory.
    pub fn contains(&self, name: &str) -> bool
        ensures { IsTrue result ↔ Contains self.now name.now }
    {
        has_name(self, name)
    }
}

/// Whether one of the names is this one.
fn has_name(list: &NameList, name: &str) -> bool
    ensures { result ≡ list_any (λ own. bytes_eq name.now own) list.now }
{
    list.names().any(|own| name == own)
}

/// The name at a position of a text whose names end at these places.
fn name_between<'a>(text: &'a str, ends: &[u32], position: usize) -> &'a str
    requires table { IsNameTable text.now ends.now }
    requires within { position < length ends.now }
    ensures exact { slice_get (names_of text.now) position ≡ Some result.now }
    ensures sound { IsName result.now }
{
    let end = ends[position] as usize;
    if position == 0 {
        &text[..end]
    } else {
        &text[ends[position - 1] as usize + 1..end]
    }
}

/// The text that the body of names is.
fn text_of(alloc: Global, body: &[u8]) -> Result<String, Memory>
    requires { names_in body.now ≡ Ok (names_of body.now) }
    ensures { IfOk result (λ text. string_bytes text ≡ body.now) }
{
    let text = str::from_utf8(body).unwrap();
    Ok(String::from_str(alloc, text)?)
}

/// Where the names of a body end, of which there are so many.
fn ends_of(alloc: Global, body: &[u8], count: usize) -> Result<Vec<u32>, Memory>
    requires { length body.now < 2 ^ 32 }
    ensures { IfOk result (λ ends. ends.items ≡ ends_from 0 (names_of body.now)) }
{
    let mut ends = Vec::with_capacity(alloc, count)?;
    if body.is_empty() {
        return Ok(ends);
    }
    for (i, b) in body.iter().enumerate() {
        if *b == b',' {
            ends.push(i as u32)?;
        }
    }
    ends.push(body.len() as u32)?;
    Ok(ends)
}

/// Appends a name, after a comma where another stands before it.
fn push_name(text: &mut String, name: &str) -> Result<(), Memory>
    ensures { OnOk result (string_bytes text.new
        ≡ (if length (string_bytes text.old) == 0 then name.now else string_bytes text.old ++ 44 ∷ name.now)) }
{
    if !text.is_empty() {
        text.push(',')?;
    }
    text.push_str(name)?;
    Ok(())
}

/// The name that the bytes are (RFC 4251 section 6), or None where they are none. Takes no memory.
pub fn as_name(bytes: &[u8]) -> Option<&str>
    ensures sound { IfSome result (λ name. (name.now ≡ bytes.now) × IsName bytes.now) }
    ensures complete { result ≡ None → IsName bytes.now → ⊥ }
{
    if !is_name(bytes) {
        return None;
    }
    match str::from_utf8(bytes) {
        Ok(name) => Some(name),
        Err(_) => None,
    }
}

/// Whether the bytes are a name (RFC 4251 section 6).
fn is_name(bytes: &[u8]) -> bool
    ensures { result ≡ is_name bytes.now }
{
    if bytes.is_empty() || bytes.len() > NAME_LIMIT {
        return false;
    }
    are_name_bytes(bytes)
}

fn are_name_bytes(bytes: &[u8]) -> bool
    ensures { result ≡ list_all is_name_byte bytes.now }
{
    bytes.iter().all(|b| is_name_byte(*b))
}

pub(crate) fn is_name_byte(b: u8) -> bool
    ensures { result ≡ is_name_byte b }
{
    b.is_ascii_graphic() && b != b','
}
