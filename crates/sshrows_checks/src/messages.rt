//! Messages after authentication, made and answered by hand (RFC 4254).

use sshrows_acts::Stop;
use sshwire::{Memory, Reader, WireFault, put_string, put_u32};
use std::alloc::Global;

/// Numbers of messages (RFC 4250 section 4.1.2).
const DISCONNECT: u8 = 1;

const KEXINIT: u8 = 20;

const GLOBAL_REQUEST: u8 = 80;

const REQUEST_FAILURE: u8 = 82;

const OPEN: u8 = 90;

const OPEN_FAILURE: u8 = 92;

/// The reason of a CHANNEL_OPEN_FAILURE: administratively prohibited (RFC 4254 section 5.1).
const PROHIBITED: u32 = 1;

/// How many bytes may come on a channel before more are granted, and how many in one message.
const WINDOW: u32 = 1 << 20;

const PACKET: u32 = 32768;

/// What comes of a payload.
#[derive(Drop)]
pub(crate) enum Reply {
    /// It is passed over.
    Nothing,
    /// It is answered by this payload.
    Payload(Vec<u8>),
    /// The connection is closed.
    End,
}

/// What comes of a payload: no channel is opened, no global request is done, and there are no new keys.
pub(crate) fn reply_to(alloc: Global, payload: &[u8]) -> Result<Reply, Stop> {
    let Some((number, fields)) = payload.split_first() else {
        return Ok(Reply::End);
    };
    let reader = &mut Reader::new(fields);
    match *number {
        DISCONNECT | KEXINIT => Ok(Reply::End),
        GLOBAL_REQUEST => match wants_reply(reader) {
            Ok(true) => Ok(Reply::Payload(Vec::from_slice(alloc, &[REQUEST_FAILURE])?)),
            Ok(false) => Ok(Reply::Nothing),
            Err(_) => Ok(Reply::End),
        },
        OPEN => match channel_in(reader) {
            Ok(channel) => reply_of(open_failure(alloc, channel)),
            Err(_) => Ok(Reply::End),
        },
        _ => Ok(Reply::Nothing),
    }
}

/// The answer that was made.
fn reply_of(made: Result<Vec<u8>, Memory>) -> Result<Reply, Stop> {
    match made {
        Ok(payload) => Ok(Reply::Payload(payload)),
        Err(_) => Err(Stop::Memory),
    }
}

/// Whether a GLOBAL_REQUEST wants to be answered (section 4).
fn wants_reply(reader: &mut Reader<'_>) -> Result<bool, WireFault> {
    reader.string()?;
    reader.boolean()
}

/// The number that the channel of a CHANNEL_OPEN has at its sender (section 5.1).
fn channel_in(reader: &mut Reader<'_>) -> Result<u32, WireFault> {
    reader.string()?;
    reader.u32()
}

/// CHANNEL_OPEN_FAILURE (section 5.1).
fn open_failure(alloc: Global, channel: u32) -> Result<Vec<u8>, Memory> {
    let mut payload = Vec::from_slice(alloc, &[OPEN_FAILURE])?;
    put_u32(&mut payload, channel)?;
    put_u32(&mut payload, PROHIBITED)?;
    put_string(&mut payload, b"no channel is opened")?;
    put_string(&mut payload, b"")?;
    Ok(payload)
}

/// CHANNEL_OPEN of a session.
pub(crate) fn channel_open(alloc: Global) -> Result<Vec<u8>, Stop> {
    match session_open(alloc) {
        Ok(payload) => Ok(payload),
        Err(_) => Err(Stop::Memory),
    }
}

/// The same (section 6.1): the own channel is 0.
fn session_open(alloc: Global) -> Result<Vec<u8>, Memory> {
    let mut payload = Vec::from_slice(alloc, &[OPEN])?;
    put_string(&mut payload, b"session")?;
    put_u32(&mut payload, 0)?;
    put_u32(&mut payload, WINDOW)?;
    put_u32(&mut payload, PACKET)?;
    Ok(payload)
}
