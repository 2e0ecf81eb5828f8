//! Steps of a session, each of one side.

use sshneg::Side;

/// A step: something that the player sends, or reads.
#[derive(Clone, Copy, Debug, PartialEq, Eq)]
pub enum Step {
    /// Sends the own version line (RFC 4253 section 4.2).
    SendVersion,
    /// Reads lines up to the peer's version line.
    ReadVersion,
    /// Sends KEXINIT (RFC 4253 section 7.1).
    SendKexInit,
    /// Reads the peer's KEXINIT.
    ReadKexInit,
    /// Sends the client's share (RFC 8731 section 3).
    SendInit,
    /// Reads the client's share.
    ReadInit,
    /// Sends the host key, the server's share and the signature.
    SendReply,
    /// Reads the same, and verifies the signature of an ed25519 key.
    ReadReply,
    /// Sends NEWKEYS (RFC 4253 section 7.3), after which the own keys are new.
    SendNewKeys,
    /// Reads NEWKEYS, after which the peer's keys are new.
    ReadNewKeys,
    /// Sends the request of the service, or its answer (RFC 4253 section 10).
    SendService,
    /// Reads the same.
    ReadService,
    /// A client's valid request by its key (RFC 4252 section 7), or a server's SUCCESS.
    SendAuth,
    /// The answer to the request, or the requests up to one that proves something.
    ReadAuth,
    /// Reads up to a message of what comes after authentication.
    ReadOn,
}

/// The steps that a word names at this side: one, or what is sent and read of one message of both.
pub(crate) fn steps_of(side: Side, word: &str) -> Option<(Step, Option<Step>)> {
    match word {
        "version" => Some((Step::SendVersion, Some(Step::ReadVersion))),
        "kexinit" => Some((Step::SendKexInit, Some(Step::ReadKexInit))),
        "newkeys" => Some((Step::SendNewKeys, Some(Step::ReadNewKeys))),
        _ => match side {
            Side::Client => client_steps(word),
            Side::Server => server_steps(word),
        },
    }
}

/// The same of words that mean something else at a server.
fn client_steps(word: &str) -> Option<(Step, Option<Step>)> {
    match word {
        "init" => Some((Step::SendInit, None)),
        "reply" => Some((Step::ReadReply, None)),
        "service" => Some((Step::SendService, Some(Step::ReadService))),
        "auth" => Some((Step::SendAuth, Some(Step::ReadAuth))),
        _ => half_of(word),
    }
}

/// The same of words that mean something else at a client.
fn server_steps(word: &str) -> Option<(Step, Option<Step>)> {
    match word {
        "init" => Some((Step::ReadInit, None)),
        "reply" => Some((Step::SendReply, None)),
        "service" => Some((Step::ReadService, Some(Step::SendService))),
        "auth" => Some((Step::ReadAuth, Some(Step::SendAuth))),
        "on" => Some((Step::ReadOn, None)),
        _ => half_of(word),
    }
}

/// The step that a word of one half names.
fn half_of(word: &str) -> Option<(Step, Option<Step>)> {
    let step = match word {
        "send-version" => Step::SendVersion,
        "read-version" => Step::ReadVersion,
        "send-kexinit" => Step::SendKexInit,
        "read-kexinit" => Step::ReadKexInit,
        "send-init" => Step::SendInit,
        "read-init" => Step::ReadInit,
        "send-reply" => Step::SendReply,
        "read-reply" => Step::ReadReply,
        "send-newkeys" => Step::SendNewKeys,
        "read-newkeys" => Step::ReadNewKeys,
        "send-service" => Step::SendService,
        "read-service" => Step::ReadService,
        "send-auth" => Step::SendAuth,
        "read-auth" => Step::ReadAuth,
        "read-on" => Step::ReadOn,
        _ => return None,
    };
    Some((step, None))
}
