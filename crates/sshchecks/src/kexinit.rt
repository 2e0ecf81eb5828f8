//! The own KEXINIT, as the acts bend it.

use crate::agreement::LISTS;
use crate::fault::PlayFault;
use crate::settings::Setting;
use sshmsg::SSH_MSG_KEXINIT;
use sshneg::{Side, strict_marker};
use sshwire::ByteBuffer;
use std::alloc::Global;

/// The methods of the own KEXINIT.
pub(crate) const METHODS: &str = "curve25519-sha256,curve25519-sha256@libssh.org";

/// What the own KEXINIT has.
#[derive(Drop)]
pub(crate) struct OwnLists {
    /// Whether the own marker is offered.
    plain: bool,
    /// What acts have put in place of lists.
    bent: Vec<Option<Vec<u8>>>,
    /// What stands after them.
    tail: Vec<u8>,
}

impl OwnLists {
    /// An ordinary one's.
    pub(crate) fn new<'a>(alloc: Global) -> Result<OwnLists, PlayFault<'a>> {
        let mut bent = Vec::new(alloc);
        for _ in 0..LISTS {
            bent.push(None)?;
        }
        let tail = Vec::from_slice(alloc, &[0u8; 5])?;
        Ok(OwnLists {
            plain: false,
            bent,
            tail,
        })
    }

    /// Offers no marker.
    pub(crate) fn offer_plain(&mut self) {
        self.plain = true;
    }

    /// Puts bytes in the place of what stands after the lists.
    pub(crate) fn set_tail(&mut self, bytes: Vec<u8>) {
        self.tail = bytes;
    }

    /// Puts bytes in the place of a list, or of this and the next one.
    pub(crate) fn set<'a>(
        &mut self,
        alloc: Global,
        place: usize,
        both: bool,
        bytes: Vec<u8>,
    ) -> Result<(), PlayFault<'a>> {
        if both {
            let copy = Vec::from_slice(alloc, &bytes)?;
            self.set_one(place.saturating_add(1), copy);
        }
        self.set_one(place, bytes);
        Ok(())
    }

    /// Puts bytes in the place of one list.
    fn set_one(&mut self, place: usize, bytes: Vec<u8>) {
        if let Some(list) = self.bent.get_mut(place) {
            *list = Some(bytes);
        }
    }

    /// The payload.
    pub(crate) fn payload<'a>(
        &self,
        alloc: Global,
        side: Side,
        setting: &Setting<'_>,
    ) -> Result<Vec<u8>, PlayFault<'a>> {
        let mut out = ByteBuffer::new(alloc);
        out.put(&[SSH_MSG_KEXINIT]);
        out.put(setting.cookie());
        for (place, bent) in self.bent.iter().enumerate() {
            match bent {
                Some(list) => out.put_string(list),
                None if place == 0 && !self.plain => put_methods(&mut out, side),
                None => out.put_string(ordinary(setting, place).as_bytes()),
            }
        }
        out.put(&self.tail);
        Ok(out.finish()?)
    }
}

/// Puts the list of methods with the marker of the strict key exchange at its end.
fn put_methods(out: &mut ByteBuffer, side: Side) {
    let (methods, marker) = (METHODS.as_bytes(), strict_marker(side).as_bytes());
    out.put_u32((methods.len() + 1 + marker.len()) as u32);
    out.put(methods);
    out.put(b",");
    out.put(marker);
}

/// The list that an ordinary one has at a place.
fn ordinary<'a>(setting: &Setting<'a>, place: usize) -> &'a str {
    match place {
        0 => METHODS,
        1 => "ssh-ed25519",
        2 | 3 => setting.ciphers,
        4 | 5 => setting.macs,
        6 | 7 => "none",
        _ => "",
    }
}
