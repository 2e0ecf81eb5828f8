//! What is answered to a message of a channel (RFC 4254), without the bytes of it.

ghost use Rattle.std.specs.Prelude.{◌≡◌, ◌<◌, IfSome};
ghost use Rattle.sshauth.specs.Channels.{after_bytes, client_step, half_window, open_answer, request_answer};

use crate::channel::{
    CHANNEL_CLOSE, CONFIRMATION, DATA, DISCONNECT, EXTENDED_DATA, OPEN_FAILURE, REQUEST,
    REQUEST_DONE, REQUEST_REFUSED, WINDOW,
};

/// Where a client stands that has a command executed.
#[derive(Clone, Copy)]
pub(crate) enum Stage {
    /// It has asked for a channel.
    Opening,
    /// It has asked for its command.
    Asking,
    /// The server executes the command.
    Running,
}

/// What a client does about a message.
#[derive(Clone, Copy)]
pub(crate) enum ClientStep {
    /// It asks for its command.
    AskCommand,
    /// It ends the command's input.
    EndInput,
    /// It tells that there is no channel, and ends.
    NoChannel,
    /// It tells that the command is refused, and ends.
    NoCommand,
    /// It tells what the command writes on its standard output.
    TellOutput,
    /// The same of what it writes on its standard error.
    TellError,
    /// It looks for the end of the command in a request.
    LookForEnd,
    /// It ends, as the server has closed the channel.
    Leave,
    /// It tells why the server disconnects, and ends.
    Disconnected,
    /// What both sides do.
    Besides,
}

/// What a client does about a message of this number.
pub(crate) fn client_step(stage: Stage, number: u8) -> ClientStep
    ensures { result ≡ client_step stage number }
{
    match (stage, number) {
        (Stage::Opening, CONFIRMATION) => ClientStep::AskCommand,
        (Stage::Opening, OPEN_FAILURE) => ClientStep::NoChannel,
        (Stage::Asking, REQUEST_DONE) => ClientStep::EndInput,
        (Stage::Asking, REQUEST_REFUSED) => ClientStep::NoCommand,
        (Stage::Asking | Stage::Running, DATA) => ClientStep::TellOutput,
        (Stage::Asking | Stage::Running, EXTENDED_DATA) => ClientStep::TellError,
        (Stage::Asking | Stage::Running, REQUEST) => ClientStep::LookForEnd,
        (Stage::Asking | Stage::Running, CHANNEL_CLOSE) => ClientStep::Leave,
        (_, DISCONNECT) => ClientStep::Disconnected,
        _ => ClientStep::Besides,
    }
}

/// What a window is after bytes have come.
#[derive(Clone, Copy)]
pub(crate) struct Credit {
    /// How many bytes may come.
    pub(crate) left: u32,
    /// How many of them are granted anew.
    pub(crate) granted: u32,
}

/// What a window with so many bytes left is after so many have come; none where they are more. Where half of it or less would be
/// left, it is filled again.
pub(crate) fn after_bytes(left: u32, count: usize) -> Option<Credit>
    ensures exact { result ≡ after_bytes left count }
    ensures open { IfSome result (λ credit. half_window < credit.left) }
{
    if count > left as usize {
        return None;
    }
    let left = left - count as u32;
    if left > WINDOW / 2 {
        Some(Credit { left, granted: 0 })
    } else {
        Some(Credit {
            left: WINDOW,
            granted: WINDOW - left,
        })
    }
}

/// What a server answers to CHANNEL_OPEN.
#[derive(Clone, Copy)]
pub(crate) enum OpenAnswer {
    /// It confirms.
    Confirms,
    /// It refuses a channel that is no session.
    UnknownType,
    /// It refuses a second channel.
    Second,
}

/// What a server answers to CHANNEL_OPEN of this type, where it has a channel or not.
pub(crate) fn open_answer(kind: &[u8], has_one: bool) -> OpenAnswer
    ensures { result ≡ open_answer kind.now has_one }
{
    if kind != b"session".as_slice() {
        OpenAnswer::UnknownType
    } else if has_one {
        OpenAnswer::Second
    } else {
        OpenAnswer::Confirms
    }
}

/// What a server does about a request on its channel.
#[derive(Clone, Copy)]
pub(crate) enum RequestAnswer {
    /// It sends its line and closes the channel.
    Finishes,
    /// It takes it, and does nothing.
    Takes,
    /// It doesn't do that.
    Refuses,
}

/// What a server does about a request of this name.
pub(crate) fn request_answer(name: &[u8]) -> RequestAnswer
    ensures { result ≡ request_answer name.now }
{
    if name == b"exec".as_slice() || name == b"shell".as_slice() {
        RequestAnswer::Finishes
    } else if name == b"pty-req".as_slice() || name == b"env".as_slice() {
        RequestAnswer::Takes
    } else {
        RequestAnswer::Refuses
    }
}
