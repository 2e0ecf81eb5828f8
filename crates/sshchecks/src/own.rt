//! What a player has of its own: named bytes, the lists of its KEXINIT, and its version line.

use crate::fault::PlayFault;
use crate::kexinit::{METHODS, OwnLists};
use crate::own_keys::{blob_of, share_of};
use crate::settings::Given;
use crate::terms::bytes_of;
use sshneg::strict_marker;
use sshterms::Names;
use sshwire::TextBuffer;
use std::alloc::{AllocError, Global};

/// The own version line, where no act names another.
const LINE: &[u8] = b"SSH-2.0-conform_0.1\r\n";

/// How many names `$many` has.
const MANY: u32 = 4500;

/// What a player has of its own.
#[derive(Drop)]
pub(crate) struct Own {
    pub(crate) names: Names,
    lists: OwnLists,
    /// The own version line with what ends it.
    pub(crate) line: Vec<u8>,
}

impl Own {
    /// What it has before the first act.
    pub(crate) fn new<'a>(given: &Given<'a>) -> Result<Own, PlayFault<'a>> {
        let lists = OwnLists::new(given.alloc)?;
        let names = first_names(given, &lists)?;
        let line = Vec::from_slice(given.alloc, LINE)?;
        Ok(Own { names, lists, line })
    }

    /// Names the own KEXINIT as it stands.
    fn name_kexinit<'a>(&mut self, given: &Given<'a>) -> Result<(), PlayFault<'a>> {
        name_kexinit(given, &mut self.names, &self.lists)
    }

    /// Offers no strict marker.
    pub(crate) fn offer_plain<'a>(&mut self, given: &Given<'a>) -> Result<(), PlayFault<'a>> {
        self.lists.offer_plain();
        self.name_kexinit(given)
    }

    /// Puts the bytes of terms in the place of the own version line.
    pub(crate) fn set_line<'a>(
        &mut self,
        alloc: Global,
        line: &'a str,
        terms: &str,
    ) -> Result<(), PlayFault<'a>> {
        self.line = bytes_of(alloc, &self.names, line, terms)?;
        Ok(())
    }

    /// Puts the bytes of terms in the place of a list of the own KEXINIT, or of this and the next one.
    pub(crate) fn set_list<'a>(
        &mut self,
        given: &Given<'a>,
        line: &'a str,
        place: usize,
        both: bool,
        terms: &str,
    ) -> Result<(), PlayFault<'a>> {
        let list = bytes_of(given.alloc, &self.names, line, terms)?;
        self.lists.set(given.alloc, place, both, list)?;
        self.name_kexinit(given)
    }

    /// Puts the bytes of terms in the place of what stands after the lists.
    pub(crate) fn set_tail<'a>(
        &mut self,
        given: &Given<'a>,
        line: &'a str,
        terms: &str,
    ) -> Result<(), PlayFault<'a>> {
        let tail = bytes_of(given.alloc, &self.names, line, terms)?;
        self.lists.set_tail(tail);
        self.name_kexinit(given)
    }
}

/// What has a name before the first act.
fn first_names<'a>(given: &Given<'a>, lists: &OwnLists) -> Result<Names, PlayFault<'a>> {
    let mut names = Names::new(given.alloc);
    name_all(given, &mut names, lists)?;
    Ok(names)
}

/// Names all that has a name before the first act.
fn name_all<'a>(
    given: &Given<'a>,
    names: &mut Names,
    lists: &OwnLists,
) -> Result<(), PlayFault<'a>> {
    name_texts(given, names)?;
    name_keys(given, names)?;
    name_kexinit(given, names, lists)
}

/// Names what the setting has.
fn name_texts<'a>(given: &Given<'a>, names: &mut Names) -> Result<(), PlayFault<'a>> {
    let (alloc, setting) = (given.alloc, &given.setting);
    names.set_copy(alloc, "user", setting.user.as_bytes())?;
    names.set_copy(alloc, "password", setting.password)?;
    names.set_copy(alloc, "methods", METHODS.as_bytes())?;
    names.set_copy(alloc, "marker", strict_marker(given.side).as_bytes())?;
    names.set_copy(alloc, "ciphers", setting.ciphers.as_bytes())?;
    names.set_copy(alloc, "macs", setting.macs.as_bytes())?;
    names.set_copy(alloc, "number", &[setting.number])?;
    let many = many_names(alloc)?;
    Ok(names.set(alloc, "many", many)?)
}

/// Names keys and shares.
fn name_keys<'a>(given: &Given<'a>, names: &mut Names) -> Result<(), PlayFault<'a>> {
    let (alloc, setting) = (given.alloc, &given.setting);
    let blob = blob_of(alloc, setting.own_key)?;
    names.set(alloc, "blob", blob)?;
    let stranger = blob_of(alloc, setting.stranger())?;
    names.set(alloc, "stranger", stranger)?;
    let share = share_of(alloc, setting.exchange_random())?;
    names.set(alloc, "share", share)?;
    let other = share_of(alloc, setting.other_random())?;
    Ok(names.set(alloc, "other", other)?)
}

/// Names the own KEXINIT of these lists.
fn name_kexinit<'a>(
    given: &Given<'a>,
    names: &mut Names,
    lists: &OwnLists,
) -> Result<(), PlayFault<'a>> {
    let payload = lists.payload(given.alloc, given.side, &given.setting)?;
    Ok(names.set(given.alloc, "kexinit", payload)?)
}

/// Unknown names with commas between.
fn many_names(alloc: Global) -> Result<Vec<u8>, AllocError> {
    let mut names = TextBuffer::new(alloc);
    for count in 0..MANY {
        let sign = if count == 0 { "" } else { "," };
        write!(names, "{sign}k{count:04}");
    }
    Ok(names.finish()?.into_bytes())
}
