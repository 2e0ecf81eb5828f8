//! The lists of two KEXINITs, which may be bent, and what they come to.

ghost use Rattle.std.specs.Prelude.{IfSome};
ghost use Rattle.sshwire.specs.Types.{IsName};

use sshneg::Side;
use sshwire::{Reader, as_name};
use std::alloc::{AllocError, Global};

/// How many lists a KEXINIT has (RFC 4253 section 7.1).
pub(crate) const LISTS: usize = 10;

/// What stands before them: the number and the cookie.
const FRONT: usize = 17;

/// The lists of a KEXINIT as they stand, and what follows them.
#[derive(Drop)]
pub(crate) struct Lists {
    pub(crate) all: Vec<Vec<u8>>,
    pub(crate) follows: bool,
    /// Whether the payload is whole, and nothing stands after it.
    pub(crate) is_whole: bool,
}

impl Lists {
    /// The lists of a payload; those that aren't there are empty.
    pub(crate) fn read(alloc: Global, payload: &[u8]) -> Result<Lists, AllocError> {
        let mut reader = Reader::new(payload.get(FRONT..).unwrap_or(&[]));
        let mut all = Vec::new(alloc);
        for _ in 0..LISTS {
            let list = reader.string().unwrap_or(&[]);
            all.push(Vec::from_slice(alloc, list)?)?;
        }
        let follows = reader.boolean().unwrap_or(false);
        let is_whole = reader.u32().is_ok() && reader.rest().is_empty();
        Ok(Lists {
            all,
            follows,
            is_whole,
        })
    }

    /// The list at a place; none has none.
    pub(crate) fn at(&self, place: usize) -> &[u8] {
        match self.all.get(place) {
            Some(list) => list.as_slice(),
            None => &[],
        }
    }

    /// Whether the list at a place has this name.
    pub(crate) fn has(&self, place: usize, name: &[u8]) -> bool {
        has_name(self.at(place), name)
    }

    /// The first name of the list at a place.
    pub(crate) fn first(&self, place: usize) -> &[u8] {
        first_name(self.at(place))
    }
}

/// The first name of a list.
fn first_name(list: &[u8]) -> &[u8] {
    list.split(|byte| *byte == b',').next().unwrap_or(&[])
}

/// Whether a list has a name.
pub(crate) fn has_name(list: &[u8], name: &[u8]) -> bool {
    for own in list.split(|byte| *byte == b',') {
        if own == name {
            return true;
        }
    }
    false
}

/// The name that both lists come to (RFC 4253 section 7.1): the client's first that the server has, if it is one.
pub(crate) fn agreed<'a>(client: &'a [u8], server: &[u8]) -> Option<&'a str>
    ensures { IfSome result (λ name. IsName name.now) }
{
    for name in client.split(|byte| *byte == b',') {
        if has_name(server, name) {
            return as_name(name);
        }
    }
    None
}

/// The cipher and the MAC of what this side sends; a MAC that isn't agreed on is any name, since a cipher with a tag of its own has none.
pub(crate) fn protection_of<'a>(
    client: &'a Lists,
    server: &Lists,
    sender: Side,
) -> Option<(&'a str, &'a str)>
    ensures { IfSome result (λ names. (IsName names.0.now) × (IsName names.1.now)) }
{
    let place = match sender {
        Side::Client => 2,
        Side::Server => 3,
    };
    let cipher = agreed(client.at(place), server.at(place))?;
    let mac = agreed(client.at(place + 2), server.at(place + 2)).unwrap_or("none");
    Some((cipher, mac))
}
