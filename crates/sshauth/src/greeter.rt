//! A server's channel, on which it answers a command or a shell by one line, and refuses all else.

use crate::channel::{
    CHANNEL_CLOSE, CHANNEL_EOF, DISCONNECT, OPEN, REQUEST, REQUEST_DONE, REQUEST_REFUSED, SHORTAGE,
    UNKNOWN_TYPE, reply_besides,
};
use crate::channel_answers::{OpenAnswer, RequestAnswer, open_answer, request_answer};
use crate::channel_messages::{confirmation, data, of_channel, open_failure, status};
use crate::fault::Fault;
use crate::report::tell;
use crate::session_stream::SessionStream;
use sshcore::Session;
use sshwire::{Memory, Reader};

/// The one channel that a server has at a time.
#[derive(Clone, Copy)]
struct Channel {
    /// The number that the client's side of it has.
    theirs: u32,
    /// Whether this side has closed it.
    is_closed: bool,
}

/// Takes one session at a time, answers by a line whatever it is to execute, and closes.
pub(crate) fn answer(rt: &HostRuntime, session: Box<Session>, after: Vec<u8>) -> Result<(), Fault> {
    let mut stream = SessionStream::new(rt, session, after)?;
    let done = answer_over(rt, &mut stream);
    drop(stream);
    done
}

/// The same over a stream that was opened.
fn answer_over(rt: &HostRuntime, stream: &mut SessionStream) -> Result<(), Fault> {
    let mut channel = None;
    for _ in 0..u64::MAX {
        let Some(payload) = stream.receive(rt)? else {
            tell(rt, "the input ended");
            return Ok(());
        };
        if payload.first() == Some(&DISCONNECT) {
            tell(rt, "the peer has disconnected");
            return Ok(());
        }
        receive(rt, stream, &payload, &mut channel)?;
    }
    Ok(())
}

/// Answers one message of the client.
fn receive(
    rt: &HostRuntime,
    stream: &mut SessionStream,
    payload: &[u8],
    channel: &mut Option<Channel>,
) -> Result<(), Fault> {
    let Some((number, fields)) = payload.split_first() else {
        return Ok(());
    };
    let reader = &mut Reader::new(fields);
    match (*number, *channel) {
        (OPEN, _) => receive_open(rt, stream, reader, channel),
        (REQUEST, Some(found)) if !found.is_closed => {
            let is_closed = receive_request(rt, stream, reader, found.theirs)?;
            *channel = Some(Channel { is_closed, ..found });
            Ok(())
        }
        (CHANNEL_CLOSE, Some(found)) => {
            *channel = None;
            if found.is_closed {
                return Ok(());
            }
            send_made(
                rt,
                stream,
                of_channel(rt.alloc(), CHANNEL_CLOSE, found.theirs),
            )
        }
        _ => match reply_besides(rt, *number, reader)? {
            Some(reply) => stream.send(rt, &reply),
            None => Ok(()),
        },
    }
}

/// Confirms a channel or refuses it.
fn receive_open(
    rt: &HostRuntime,
    stream: &mut SessionStream,
    reader: &mut Reader<'_>,
    channel: &mut Option<Channel>,
) -> Result<(), Fault> {
    let kind = reader.string()?;
    let theirs = reader.u32()?;
    let alloc = rt.alloc();
    match open_answer(kind, channel.is_some()) {
        OpenAnswer::Confirms => {
            let is_closed = false;
            *channel = Some(Channel { theirs, is_closed });
            send_made(rt, stream, confirmation(alloc, theirs))
        }
        OpenAnswer::UnknownType => {
            send_made(rt, stream, open_failure(alloc, theirs, UNKNOWN_TYPE))
        }
        OpenAnswer::Second => send_made(rt, stream, open_failure(alloc, theirs, SHORTAGE)),
    }
}

/// Answers a request on the channel, and answers whether the channel is closed then.
fn receive_request(
    rt: &HostRuntime,
    stream: &mut SessionStream,
    reader: &mut Reader<'_>,
    theirs: u32,
) -> Result<bool, Fault> {
    reader.u32()?;
    let answer = request_answer(reader.string()?);
    if reader.boolean()? {
        let number = match answer {
            RequestAnswer::Refuses => REQUEST_REFUSED,
            _ => REQUEST_DONE,
        };
        send_made(rt, stream, of_channel(rt.alloc(), number, theirs))?;
    }
    match answer {
        RequestAnswer::Finishes => {
            finish(rt, stream, theirs)?;
            Ok(true)
        }
        _ => Ok(false),
    }
}

/// Sends a line, the exit status 0 and the end of the channel.
fn finish(rt: &HostRuntime, stream: &mut SessionStream, theirs: u32) -> Result<(), Fault> {
    let alloc = rt.alloc();
    send_made(rt, stream, data(alloc, theirs))?;
    send_made(rt, stream, status(alloc, theirs))?;
    send_made(rt, stream, of_channel(alloc, CHANNEL_EOF, theirs))?;
    send_made(rt, stream, of_channel(alloc, CHANNEL_CLOSE, theirs))
}

/// Sends a payload, where it was made.
fn send_made(
    rt: &HostRuntime,
    stream: &mut SessionStream,
    made: Result<Vec<u8>, Memory>,
) -> Result<(), Fault> {
    let payload = made?;
    let sent = stream.send(rt, &payload);
    drop(payload);
    sent
}
