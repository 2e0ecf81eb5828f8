//! What is known of both sides.

use crate::agreement::Lists;
use crate::fault::PlayFault;
use sshneg::{Side, strict_marker};
use std::alloc::Global;

/// What is known of both sides.
#[derive(Drop)]
pub(crate) struct Sides {
    /// The peer's version line with what ends it.
    pub(crate) peer_line: Vec<u8>,
    /// The payload of the peer's KEXINIT.
    pub(crate) peer_kexinit: Vec<u8>,
    /// Its lists.
    pub(crate) peer_lists: Lists,
    /// The payload of the own KEXINIT that a step has sent, as a reader takes it; empty where none was.
    pub(crate) own_kexinit: Vec<u8>,
    /// Whether both offered their markers in their first KEXINITs.
    pub(crate) strict: bool,
    /// Whether the packet of the peer's wrong guess is due.
    pub(crate) guess_is_due: bool,
}

impl Sides {
    /// Nothing yet.
    pub(crate) fn new<'a>(alloc: Global) -> Result<Sides, PlayFault<'a>> {
        Ok(Sides {
            peer_line: Vec::new(alloc),
            peer_kexinit: Vec::new(alloc),
            peer_lists: Lists::read(alloc, &[])?,
            own_kexinit: Vec::new(alloc),
            strict: false,
            guess_is_due: false,
        })
    }

    /// The payload of the own KEXINIT that a step has sent, or else this one.
    pub(crate) fn own_kexinit_or<'b>(&'b self, otherwise: &'b [u8]) -> &'b [u8] {
        if self.own_kexinit.is_empty() {
            otherwise
        } else {
            self.own_kexinit.as_slice()
        }
    }

    /// Takes the payload of the peer's KEXINIT. `own` is the own one, `first` says that it is the first of the session.
    pub(crate) fn take_kexinit<'a>(
        &mut self,
        alloc: Global,
        side: Side,
        own: &[u8],
        payload: Vec<u8>,
        first: bool,
    ) -> Result<(), PlayFault<'a>> {
        let lists = Lists::read(alloc, &payload)?;
        let own = Lists::read(alloc, own)?;
        if first {
            let ours = own.has(0, strict_marker(side).as_bytes());
            self.strict = ours && lists.has(0, strict_marker(side.other()).as_bytes());
        }
        self.guess_is_due = lists.follows && !are_same_first(&lists, &own);
        self.peer_lists = lists;
        self.peer_kexinit = payload;
        Ok(())
    }
}

/// Whether a guess is right: both have the same method first, and the same host key algorithm (RFC 4253 section 7).
fn are_same_first(lists: &Lists, own: &Lists) -> bool {
    lists.first(0) == own.first(0) && lists.first(1) == own.first(1)
}

/// A line without what ends it.
pub(crate) fn without_end(line: &[u8]) -> &[u8] {
    let line = line.strip_suffix(b"\n").unwrap_or(line);
    line.strip_suffix(b"\r").unwrap_or(line)
}
