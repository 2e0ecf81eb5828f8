//! What is told on standard error. A report that can't be written is left out.

use crate::fault::Fault;
use crate::notices::{Notices, put_line};
use sshcore::{Accepted, End, Session};
use sshneg::NoCommon;
use sshprogram::ProgramFault;
use sshwire::TextBuffer;
use std::fmt;
use std::io::Write;

/// What is told beside F8 of kex, since a method needs a host key algorithm of both lists (RFC 4253 section 7.1).
const HOST_KEYS: &str =
    "no method is common, or no host key algorithm; a client lists those of the keys that it trusts";

/// How an endpoint ended, in words.
#[derive(Clone, Copy)]
pub(crate) struct Ended<'a>(pub(crate) &'a End);

impl fmt::Display for Ended<'_> {
    fn fmt<W: fmt::Write>(&self, f: &mut fmt::Formatter<W>) -> fmt::Result {
        match self.0 {
            End::Authenticated(_) => f.write_str("authenticated"),
            End::Open => f.write_str("open"),
            End::Failed(fault) => write!(f, "failed {fault}"),
            End::Closed(reason) => write!(f, "closed {reason}: the peer has disconnected"),
            End::Disconnected(reason) => write!(f, "disconnected {reason}: by this side"),
        }
    }
}

/// Prints what the peer has told people since the last call.
pub(crate) fn notices(rt: &HostRuntime, notices: &Notices) {
    let _ = rt.stderr().write_all(notices.taken().as_bytes());
}

/// Prints how an endpoint ended that isn't authenticated.
pub(crate) fn end(rt: &HostRuntime, end: &End) {
    if !matches!(end, End::Authenticated(_)) {
        let _ = writeln!(rt.stderr(), "{}", Ended(end));
    }
    if let End::Failed(sshcore::Fault::NoCommon(NoCommon::Kex)) = end {
        tell(rt, HOST_KEYS);
    }
}

/// Prints who was authenticated, at a server how, and by which algorithms.
pub(crate) fn authenticated(rt: &HostRuntime, session: &Session) {
    let agreed = &session.agreed;
    let (user, kex, host_key) = (&agreed.user, &agreed.kex, &agreed.host_key);
    let cipher = &agreed.encryption_client_to_server;
    let strict = if agreed.strict {
        "strict"
    } else {
        "not strict"
    };
    let by = methods_of(&session.accepted);
    let _ = writeln!(
        rt.stderr(),
        "authenticated {user}{by}; {kex}, {host_key}, {cipher}, {strict}"
    );
}

/// By which methods a server was satisfied; nothing is known of them at a client.
fn methods_of(accepted: &Option<Accepted>) -> &'static str {
    match accepted {
        None => "",
        Some(accepted) => match (accepted.password, &accepted.key) {
            (true, Some(_)) => " by publickey and password",
            (true, None) => " by password",
            (false, Some(_)) => " by publickey",
            (false, None) => " by none",
        },
    }
}

/// Prints that a file is refused, by which a request was to be judged.
pub(crate) fn refused(rt: &HostRuntime, fault: &Fault) {
    let _ = writeln!(rt.stderr(), "{fault}");
}

/// Prints a line.
pub(crate) fn tell(rt: &HostRuntime, text: &str) {
    let _ = writeln!(rt.stderr(), "{text}");
}

/// Prints a line with a number.
pub(crate) fn tell_number(rt: &HostRuntime, text: &str, number: u32) {
    let _ = writeln!(rt.stderr(), "{text} {number}");
}

/// Prints a line with bytes of the peer.
pub(crate) fn tell_shown(rt: &HostRuntime, word: &str, bytes: &[u8]) -> Result<(), ProgramFault> {
    let mut line = TextBuffer::new(rt.alloc());
    put_line(&mut line, word, bytes);
    let _ = rt.stderr().write_all(line.finish()?.as_bytes());
    Ok(())
}
