//! The name-list of RFC 4251 section 5 as it stands in bytes that are lent.

ghost use Rattle.std.specs.Prelude.{◌≡◌, ◌≢◌, ◌<◌, ◌^◌, ℕ, List, Err, IfErr, IfOk, MatchOption, Ok, length};
ghost use Rattle.sshwire.specs.Types.{AreNames, names_body};
ghost use Rattle.sshwire.specs.TypeReadings.{Gives, names_in, names_of};

use crate::fault::{Memory, WireFault};
use crate::limits::NAME_LIMIT;
use crate::name_list::{NameList, is_name_byte};
use std::alloc::Global;
use std::marker::Model;

/// A name-list that is lent: names with single commas between (RFC 4251 sections 5 and 6). A name
/// may stand in it twice.
///
/// Contracts see the names.
#[derive(Debug, Drop)]
pub struct BorrowedNameList<'a> {
    body: &'a [u8],
    /// How many names they are.
    count: usize,
}

impl<'a> Model for BorrowedNameList<'a> {
    ghost use Rattle.std.specs.Prelude.{List, ℕ};
    ghost use Rattle.sshwire.specs.TypeReadings.{IsNamesBody, names_of};

    ghost Value = { List (List ℕ) };

    ghost view = { λ l. names_of l.body.now };

    ghost invariant = { λ l. IsNamesBody l.body.now l.count };
}

impl<'a> BorrowedNameList<'a> {
    /// The names of the body of a string, its length left out; no bytes are the empty list.
    ///
    /// Answers `Name` where the body isn't names with single commas between, each of 1 to 64 bytes
    /// from 33 to 126. Takes no memory.
    pub fn new(body: &'a [u8]) -> Result<BorrowedNameList<'a>, WireFault>
        requires { length body.now < 2 ^ 32 }
        ensures ok { IfOk result (λ names. AreNames names × (body.now ≡ names_body names)) }
        ensures err { IfErr result (λ e. (e ≡ WireFault.Name)
            × ((names : List (List ℕ)) → AreNames names → body.now ≡ names_body names → ⊥)) }
        ensures exact { Gives (λ names. names) result (names_in body.now) }
        ensures no_memory { IfErr result (λ e. e ≢ WireFault.Memory) }
    {
        match count_names(body) {
            Some(count) => Ok(BorrowedNameList { body, count }),
            None => Err(WireFault::Name),
        }
    }

    /// The same list, owned. Room is asked for once for the bytes and once for the places of the
    /// names. Answers `Memory` for want of it.
    pub fn to_owned(&self, alloc: Global) -> Result<NameList, Memory>
        ensures exact { IfOk result (λ list. list ≡ self.now) }
    {
        NameList::of_body(alloc, self.body, self.count)
    }

    /// The bytes of the names with commas between, as they are lent. Takes no memory.
    pub fn body(&self) -> &'a [u8]
        ensures body { result.now ≡ names_body self.now }
        ensures names { names_in result.now ≡ Ok self.now }
        ensures each { AreNames self.now }
        ensures short { length result.now < 2 ^ 32 }
    {
        self.body
    }
}

/// How many names the bytes are, or None where they aren't names with single commas between.
fn count_names(body: &[u8]) -> Option<usize>
    ensures { MatchOption result (names_in body.now ≡ Err WireFault.Name)
        (λ count. (names_in body.now ≡ Ok (names_of body.now)) × (count ≡ length (names_of body.now))) }
{
    if body.is_empty() {
        return Some(0);
    }
    let mut count = 0;
    let mut len = 0;
    for b in body {
        if *b == b',' {
            if len == 0 {
                return None;
            }
            count += 1;
            len = 0;
        } else {
            if len == NAME_LIMIT || !is_name_byte(*b) {
                return None;
            }
            len += 1;
        }
    }
    if len == 0 { None } else { Some(count + 1) }
}
