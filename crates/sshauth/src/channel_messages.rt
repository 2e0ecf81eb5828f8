//! The messages of a channel, made by hand (RFC 4254).

use crate::channel::{
    BY_APPLICATION, COMMAND_LIMIT, CONFIRMATION, DATA, DISCONNECT, GREETING, OPEN, OPEN_FAILURE,
    PACKET, REQUEST, SHORTAGE, UNKNOWN_TYPE, WINDOW, WINDOW_ADJUST,
};
use crate::fault::Fault;
use sshwire::{ByteBuffer, Memory};
use std::alloc::Global;

/// A message that has the number of the peer's channel, and nothing after it.
pub(crate) fn of_channel(alloc: Global, number: u8, theirs: u32) -> Result<Vec<u8>, Memory> {
    begun(alloc, number, theirs).finish()
}

/// The number of a message, and the number of the peer's channel.
fn begun(alloc: Global, number: u8, theirs: u32) -> ByteBuffer {
    let mut payload = ByteBuffer::new(alloc);
    payload.put(&[number]);
    payload.put_u32(theirs);
    payload
}

/// CHANNEL_OPEN of a session (RFC 4254 section 5.1): the own channel is 0.
pub(crate) fn open(alloc: Global) -> Result<Vec<u8>, Memory> {
    let mut payload = ByteBuffer::new(alloc);
    payload.put(&[OPEN]);
    payload.put_string(b"session");
    payload.put_u32(0);
    payload.put_u32(WINDOW);
    payload.put_u32(PACKET);
    payload.finish()
}

/// CHANNEL_OPEN_CONFIRMATION.
pub(crate) fn confirmation(alloc: Global, theirs: u32) -> Result<Vec<u8>, Memory> {
    let mut payload = begun(alloc, CONFIRMATION, theirs);
    payload.put_u32(0);
    payload.put_u32(WINDOW);
    payload.put_u32(PACKET);
    payload.finish()
}

/// CHANNEL_OPEN_FAILURE with this reason.
pub(crate) fn open_failure(alloc: Global, theirs: u32, reason: u32) -> Result<Vec<u8>, Memory> {
    let mut payload = begun(alloc, OPEN_FAILURE, theirs);
    payload.put_u32(reason);
    match reason {
        UNKNOWN_TYPE => payload.put_string(b"unknown channel type"),
        SHORTAGE => payload.put_string(b"one channel at a time"),
        _ => payload.put_string(b"no channel is opened to a client"),
    }
    payload.put_string(b"");
    payload.finish()
}

/// CHANNEL_WINDOW_ADJUST (section 5.2): so many bytes more may come.
pub(crate) fn adjust(alloc: Global, theirs: u32, count: u32) -> Result<Vec<u8>, Memory> {
    let mut payload = begun(alloc, WINDOW_ADJUST, theirs);
    payload.put_u32(count);
    payload.finish()
}

/// A request to execute a command (section 6.5).
pub(crate) fn exec(alloc: Global, theirs: u32, command: &str) -> Result<Vec<u8>, Fault> {
    if command.len() > COMMAND_LIMIT {
        return Err(Fault::Words);
    }
    let mut payload = begun(alloc, REQUEST, theirs);
    payload.put_string(b"exec");
    payload.put_boolean(true);
    payload.put_string(command.as_bytes());
    Ok(payload.finish()?)
}

/// CHANNEL_DATA with the line that a server sends.
pub(crate) fn data(alloc: Global, theirs: u32) -> Result<Vec<u8>, Memory> {
    let mut payload = begun(alloc, DATA, theirs);
    payload.put_string(GREETING);
    payload.finish()
}

/// The exit status 0 (section 6.10).
pub(crate) fn status(alloc: Global, theirs: u32) -> Result<Vec<u8>, Memory> {
    let mut payload = begun(alloc, REQUEST, theirs);
    payload.put_string(b"exit-status");
    payload.put_boolean(false);
    payload.put_u32(0);
    payload.finish()
}

/// DISCONNECT by the application (RFC 4253 section 11.1).
pub(crate) fn farewell(alloc: Global) -> Result<Vec<u8>, Memory> {
    let mut payload = ByteBuffer::new(alloc);
    payload.put(&[DISCONNECT]);
    payload.put_u32(BY_APPLICATION);
    payload.put_string(b"");
    payload.put_string(b"");
    payload.finish()
}
