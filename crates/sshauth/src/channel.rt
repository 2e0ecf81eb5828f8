//! One channel of a session, by messages made by hand, to show that the session goes on (RFC 4254).

use crate::channel_messages::open_failure;
use crate::fault::Fault;
use crate::report::tell;
use sshwire::Reader;

/// The most bytes of a command.
pub(crate) const COMMAND_LIMIT: usize = 1000;

/// What a server answers to whatever it is asked to do.
pub(crate) const GREETING: &[u8] = b"authenticated by rezdolin\n";

/// How many bytes the peer may send before more are granted, and how many in one message.
pub(crate) const WINDOW: u32 = 1 << 20;

pub(crate) const PACKET: u32 = 32768;

/// Numbers of messages (RFC 4250 section 4.1.2).
pub(crate) const DISCONNECT: u8 = 1;

pub(crate) const KEXINIT: u8 = 20;

pub(crate) const GLOBAL_REQUEST: u8 = 80;

pub(crate) const REQUEST_FAILURE: u8 = 82;

pub(crate) const OPEN: u8 = 90;

pub(crate) const CONFIRMATION: u8 = 91;

pub(crate) const OPEN_FAILURE: u8 = 92;

pub(crate) const WINDOW_ADJUST: u8 = 93;

pub(crate) const DATA: u8 = 94;

pub(crate) const EXTENDED_DATA: u8 = 95;

pub(crate) const CHANNEL_EOF: u8 = 96;

pub(crate) const CHANNEL_CLOSE: u8 = 97;

pub(crate) const REQUEST: u8 = 98;

pub(crate) const REQUEST_DONE: u8 = 99;

pub(crate) const REQUEST_REFUSED: u8 = 100;

/// The reason of a DISCONNECT that ends a session as it is wished.
pub(crate) const BY_APPLICATION: u32 = 11;

/// Reasons of CHANNEL_OPEN_FAILURE (RFC 4254 section 5.1).
pub(crate) const PROHIBITED: u32 = 1;

pub(crate) const UNKNOWN_TYPE: u32 = 3;

pub(crate) const SHORTAGE: u32 = 4;

/// What either side answers a message beside its channel: that a global request isn't done, and at a client that no
/// channel is opened to it.
pub(crate) fn reply_besides(
    rt: &HostRuntime,
    number: u8,
    reader: &mut Reader<'_>,
) -> Result<Option<Vec<u8>>, Fault> {
    match number {
        KEXINIT => {
            tell(rt, "the peer asks for new keys, which this program hasn't");
            Err(Fault::Session)
        }
        GLOBAL_REQUEST => {
            reader.string()?;
            if reader.boolean()? {
                Ok(Some(Vec::from_slice(rt.alloc(), &[REQUEST_FAILURE])?))
            } else {
                Ok(None)
            }
        }
        OPEN => {
            reader.string()?;
            let theirs = reader.u32()?;
            Ok(Some(open_failure(rt.alloc(), theirs, PROHIBITED)?))
        }
        _ => Ok(None),
    }
}
