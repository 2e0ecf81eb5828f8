//! An endpoint over standard input and output, which asks and is answered.

use crate::answers::{Answer, Answers};
use crate::fault::Fault;
use crate::host_keys::algorithms_of;
use crate::notices::Notices;
use crate::parts::{client_config, client_trust, draw, server_config, server_trust};
use crate::settings::Settings;
use crate::{command, greeter, report};
use sshcore::{AskingEndpoint, ClientConfig, End, Fed, ServerConfig, Session};
use sshprogram::ProgramFault;
use sshsuite::DeployedSuite;
use sshwire::Memory;
use std::io::{Read, Write};

/// How many bytes are read at once.
pub(crate) const CHUNK: usize = 16384;

/// An endpoint of this program.
type SuiteEndpoint<'a> = AskingEndpoint<'a, DeployedSuite, Notices>;

/// A session, and the bytes that came after the packet that ended the endpoint.
type Handed = Option<(Box<Session>, Vec<u8>)>;

/// The exit status of a session whose user wasn't authenticated.
const FAILED: u8 = 1;

/// A client, and what it asks for after SUCCESS. Answers the exit status: that of its command, where it has one.
pub(crate) fn client(rt: &HostRuntime, settings: &Settings<'_>) -> Result<u8, Fault> {
    check_agent(rt, settings)?;
    let trust = &client_trust(rt, settings)?;
    let config = client_config(rt, settings, algorithms_of(&trust.keys))?;
    match client_session(rt, &config, Answers { settings, trust })? {
        Some((session, after)) => command::ask(rt, session, after, settings.exec),
        None => Ok(FAILED),
    }
}

/// A server, and what it answers after SUCCESS. Answers the exit status.
pub(crate) fn server(rt: &HostRuntime, settings: &Settings<'_>) -> Result<u8, Fault> {
    check_agent(rt, settings)?;
    let config = server_config(rt, settings)?;
    let trust = &server_trust(rt, settings)?;
    match server_session(rt, &config, Answers { settings, trust })? {
        Some((session, after)) => {
            greeter::answer(rt, session, after)?;
            Ok(0)
        }
        None => Ok(FAILED),
    }
}

/// Refuses files of an agent that can't be used, where there is an agent.
fn check_agent(rt: &HostRuntime, settings: &Settings<'_>) -> Result<(), Fault> {
    match settings.agent {
        Some(agent) => agent.check(rt),
        None => Ok(()),
    }
}

/// A client's session.
fn client_session(
    rt: &HostRuntime,
    config: &ClientConfig,
    answers: Answers<'_>,
) -> Result<Handed, Fault> {
    let draws = draw(rt)?;
    let notices = &Notices::new(rt.alloc());
    let mut out = Vec::new(rt.alloc());
    let endpoint = AskingEndpoint::client(
        rt.alloc(),
        config,
        draws,
        &DeployedSuite,
        notices,
        &mut out,
    )?;
    hand_over(rt, endpoint, out, notices, answers)
}

/// A server's session.
fn server_session(
    rt: &HostRuntime,
    config: &ServerConfig,
    answers: Answers<'_>,
) -> Result<Handed, Fault> {
    let draws = draw(rt)?;
    let notices = &Notices::new(rt.alloc());
    let mut out = Vec::new(rt.alloc());
    let endpoint = AskingEndpoint::server(
        rt.alloc(),
        config,
        draws,
        &DeployedSuite,
        notices,
        &mut out,
    )?;
    hand_over(rt, endpoint, out, notices, answers)
}

/// What an endpoint hands over that has sent these bytes so far.
fn hand_over(
    rt: &HostRuntime,
    endpoint: SuiteEndpoint<'_>,
    out: Vec<u8>,
    notices: &Notices,
    answers: Answers<'_>,
) -> Result<Handed, Fault> {
    let (mut endpoint, mut out, mut after) = (endpoint, out, Vec::new(rt.alloc()));
    let carried = carry(rt, &mut endpoint, &mut out, notices, answers, &mut after);
    if let Err(fault) = carried {
        drop(endpoint);
        return Err(fault);
    }
    report::end(rt, endpoint.end());
    handed(rt, endpoint.into_session(), after)
}

/// What is handed over with a session, if there is one: what came after it.
fn handed(rt: &HostRuntime, session: Option<Session>, after: Vec<u8>) -> Result<Handed, Fault> {
    let Some(session) = session else {
        return Ok(None);
    };
    report::authenticated(rt, &session);
    let session = Box::new(rt.alloc(), session)?;
    Ok(Some((session, after)))
}

/// Gives the endpoint what comes and answers what it asks, until it has ended, and tells what the peer tells people.
fn carry(
    rt: &HostRuntime,
    endpoint: &mut SuiteEndpoint<'_>,
    out: &mut Vec<u8>,
    notices: &Notices,
    answers: Answers<'_>,
    after: &mut Vec<u8>,
) -> Result<(), Fault> {
    for _ in 0..u64::MAX {
        let sent = send(rt, out);
        out.clear();
        report::notices(rt, notices);
        if !matches!(endpoint.end(), End::Open) {
            return Ok(()); // a peer that has gone receives no farewell
        }
        sent?;
        match endpoint.question() {
            Some(question) => {
                let answer = answers.answer(rt, &question)?;
                give_answer(endpoint, answer, out)?;
            }
            None => *after = more(rt, endpoint)?,
        }
        let used = match endpoint.feed(after, out)? {
            Fed::Used(used) => used,
            Fed::Asks { used } => used,
        };
        *after = Vec::from_slice(rt.alloc(), after.get(used..).unwrap_or(&[]))?;
    }
    Ok(())
}

/// Gives the endpoint an answer.
fn give_answer(
    endpoint: &mut SuiteEndpoint<'_>,
    answer: Answer,
    out: &mut Vec<u8>,
) -> Result<(), Memory> {
    match answer {
        Answer::Decided(allowed) => endpoint.answer(allowed, out),
        Answer::Signed(Some(signature)) => endpoint.answer_signature(Some(&signature), out),
        Answer::Signed(None) => endpoint.answer_signature(None, out),
    }
}

/// What comes next: nothing where the input has ended, which the endpoint is told.
fn more(rt: &HostRuntime, endpoint: &mut SuiteEndpoint<'_>) -> Result<Vec<u8>, Fault> {
    let mut chunk = [0u8; CHUNK];
    let count = receive(rt, &mut chunk)?;
    if count == 0 {
        endpoint.end_of_input();
    }
    Ok(Vec::from_slice(rt.alloc(), chunk.get(..count).unwrap_or(&[]))?)
}

/// Writes the bytes.
pub(crate) fn send(rt: &HostRuntime, bytes: &[u8]) -> Result<(), ProgramFault> {
    let mut output = rt.stdout();
    match (output.write_all(bytes), output.flush()) {
        (Ok(()), Ok(())) => Ok(()),
        _ => Err(ProgramFault::Write),
    }
}

/// Reads bytes, and answers how many: none where the input has ended.
pub(crate) fn receive(rt: &HostRuntime, chunk: &mut [u8; CHUNK]) -> Result<usize, ProgramFault> {
    rt.stdin()
        .read(chunk.as_mut_slice())
        .map_err(|_| ProgramFault::Read)
}
