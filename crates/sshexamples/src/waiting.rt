//! A server that asks and waits, with many connections side by side, and beside it one whose answers are there at once. Each
//! line of its input is something that happens, in its order:
//!
//!     came NAME HEX           bytes came on a connection, in the place of a socket; an unknown name is a new one
//!     allow USER PASSWORD     the directory, a table here, has one user more
//!     answer                  the directory has looked after all that was asked of it
//!     at_once NAME HEX        a connection that asks the directory at once
//!
//! It prints what is asked and how each connection ends. Config and suite are the lab's, which is insecure, and the draws the
//! config's own, so that what was recorded is taken again: a real program draws for each connection (server.rt).
//!
//! As the `src/main.rt` of a program `hello` this file needs one line more, and crates.txt another:
//!
//!     fn main(rt: HostRuntime) -> anyhow::Result<()> { run_waiting(&rt, &std::io::read_to_string(rt.alloc(), rt.stdin())?) }
//!
//!     hello: sshcore sshlabsuites anyhow hex
#![tactic(auto)]

use anyhow::bail;
use sshcore::{AskingEndpoint, End, Fed, PeerReading, Proof, Question, ServerConfig, Silent};
use sshlabsuites::{LabSuite, lab_server_parts};
use std::alloc::{AllocError, Global};
use std::mem;

type Server<'a> = AskingEndpoint<'a, LabSuite, Silent>;

/// A connection: its server, what came after a question, what is to be sent, and what was asked.
#[derive(Drop)]
struct Connection<'a> {
    name: &'a str,
    server: Server<'a>,
    rest: Vec<u8>,
    out: Vec<u8>,
    asked: Option<Asked>,
}

/// What a server has asked, as the program's own: who wants to enter, and by which password, if by one.
#[derive(Drop)]
struct Asked {
    user: String,
    password: Option<Vec<u8>>,
}

/// Who may enter by which password.
#[derive(Drop)]
struct Directory<'a> {
    allowed: Vec<(&'a str, &'a str)>,
}

/// Lets happen what these lines say, over a config of the lab.
pub(crate) fn run_waiting(rt: &HostRuntime, lines: &str) -> anyhow::Result<()> {
    let config = lab_config(rt.alloc())?;
    happen_all(rt, &config, lines)
}

fn lab_config(alloc: Global) -> anyhow::Result<ServerConfig> {
    let mut parts = Box::new(alloc, lab_server_parts(alloc)?)?;
    parts.side.reading = PeerReading::Deployed;
    parts.side.ignored_limit = Some(1 << 20);
    let config = ServerConfig::new(alloc, Box::into_inner(parts))?;
    judged(&config)?;
    Ok(config)
}

/// That the suite has all that the config names, and holds its private keys.
fn judged(config: &ServerConfig) -> anyhow::Result<()> {
    match config.judge(&LabSuite) {
        Ok(()) => Ok(()),
        Err(fault) => bail!("{fault}"),
    }
}

/// What the lines say happens, one after the other.
fn happen_all(rt: &HostRuntime, config: &ServerConfig, lines: &str) -> anyhow::Result<()> {
    let mut directory = Directory {
        allowed: Vec::new(rt.alloc()),
    };
    let mut connections = Vec::new(rt.alloc());
    for line in lines.lines() {
        happen(rt, config, &mut connections, &mut directory, line)?;
    }
    Ok(())
}

/// What one line says happens.
fn happen<'a>(
    rt: &HostRuntime,
    config: &'a ServerConfig,
    connections: &mut Vec<Connection<'a>>,
    directory: &mut Directory<'a>,
    line: &'a str,
) -> anyhow::Result<()> {
    let (word, rest) = line.split_once(' ').unwrap_or((line, ""));
    let (name, text) = rest.split_once(' ').unwrap_or((rest, ""));
    match word {
        "came" => came(rt, config, connections, name, text),
        "allow" => Ok(directory.allowed.push((name, text))?),
        "answer" => answer_all(rt, connections, directory),
        "at_once" => at_once(rt, config, directory, name, text),
        _ => bail!("a line says came, allow, answer or at_once"),
    }
}

/// Bytes came on a connection.
fn came<'a>(
    rt: &HostRuntime,
    config: &'a ServerConfig,
    connections: &mut Vec<Connection<'a>>,
    name: &'a str,
    digits: &str,
) -> anyhow::Result<()> {
    let piece = hex::decode(rt.alloc(), digits.as_bytes())?;
    for connection in connections.iter_mut() {
        if connection.name == name {
            return receive(rt, connection, &piece);
        }
    }
    let mut connection = accept(rt.alloc(), config, name)?;
    let received = receive(rt, &mut connection, &piece);
    connections.push(connection)?;
    received
}

/// A new connection.
fn accept<'a>(
    alloc: Global,
    config: &'a ServerConfig,
    name: &'a str,
) -> anyhow::Result<Connection<'a>> {
    let mut out = Vec::new(alloc);
    let server = AskingEndpoint::server(
        alloc,
        config,
        config.draws(),
        &LabSuite,
        &Silent,
        &mut out,
    )?;
    Ok(Connection {
        name,
        server,
        rest: Vec::new(alloc),
        out,
        asked: None,
    })
}

/// Gives the server what came. What it asks is kept, and what came after that; so is what comes before the answer.
fn receive(rt: &HostRuntime, connection: &mut Connection<'_>, piece: &[u8]) -> anyhow::Result<()> {
    if connection.asked.is_some() {
        return Ok(connection.rest.extend_from_slice(piece)?);
    }
    match connection.server.feed(piece, &mut connection.out)? {
        Fed::Used(_) => tell_end(rt, connection.name, connection.server.end())?,
        Fed::Asks { used } => {
            let after = piece.get(used..).unwrap_or(&[]);
            connection.rest = Vec::from_slice(rt.alloc(), after)?;
            connection.asked = asked_by(rt.alloc(), &connection.server)?; // yours: hands it to who knows
            println!(rt; "{}: asks and waits", connection.name)?;
        }
    }
    connection.out.clear(); // yours: sends these bytes first
    Ok(())
}

/// What the server asks, as the program's own.
fn asked_by(alloc: Global, server: &Server<'_>) -> Result<Option<Asked>, AllocError> {
    let Some(Question::User { user, proof, .. }) = server.question() else {
        return Ok(None);
    };
    let password = match proof {
        Proof::Password(password) => Some(Vec::from_slice(alloc, password)?),
        _ => None,
    };
    let user = String::from_str(alloc, user)?;
    Ok(Some(Asked { user, password }))
}

/// The directory has looked: each connection that waits goes on.
fn answer_all(
    rt: &HostRuntime,
    connections: &mut [Connection<'_>],
    directory: &Directory<'_>,
) -> anyhow::Result<()> {
    for connection in connections {
        answer(rt, connection, directory)?;
    }
    Ok(())
}

/// Gives a connection that waits the answer, and then what came after what it asked.
fn answer(
    rt: &HostRuntime,
    connection: &mut Connection<'_>,
    directory: &Directory<'_>,
) -> anyhow::Result<()> {
    if let Some(asked) = connection.asked.take() {
        let may = may_enter(directory, &asked); // yours: the answer that came
        println!(rt; "{}: {} is answered {may}", connection.name, asked.user)?;
        connection.server.answer(may, &mut connection.out)?;
        let rest = mem::replace(&mut connection.rest, Vec::new(rt.alloc()));
        receive(rt, connection, &rest)?;
    }
    Ok(())
}

/// Whether the directory has the user with this password, as it stands now.
fn may_enter(directory: &Directory<'_>, asked: &Asked) -> bool {
    for (user, password) in &directory.allowed {
        let is_own = match &asked.password {
            Some(own) => own.as_slice() == password.as_bytes(),
            None => false,
        };
        if is_own && asked.user.as_str() == *user {
            return true;
        }
    }
    false
}

/// A connection whose answers are there at once.
fn at_once(
    rt: &HostRuntime,
    config: &ServerConfig,
    directory: &Directory<'_>,
    name: &str,
    digits: &str,
) -> anyhow::Result<()> {
    let piece = hex::decode(rt.alloc(), digits.as_bytes())?;
    let mut connection = accept(rt.alloc(), config, name)?;
    let told = receive_at_once(rt, &mut connection, directory, &piece);
    drop(connection);
    told
}

/// Gives the server what came, and each answer as soon as it asks.
fn receive_at_once(
    rt: &HostRuntime,
    connection: &mut Connection<'_>,
    directory: &Directory<'_>,
    piece: &[u8],
) -> anyhow::Result<()> {
    let mut rest = piece;
    for _ in 0..u64::MAX {
        match connection.server.feed(rest, &mut connection.out)? {
            Fed::Used(_) => break,
            Fed::Asks { used } => {
                rest = rest.get(used..).unwrap_or(&[]);
                let may = may_enter_now(rt.alloc(), &connection.server, directory)?;
                connection.server.answer(may, &mut connection.out)?;
            }
        }
    }
    connection.out.clear(); // yours: sends these bytes
    tell_end(rt, connection.name, connection.server.end())
}

/// Whether the directory has whom the server asks about.
fn may_enter_now(
    alloc: Global,
    server: &Server<'_>,
    directory: &Directory<'_>,
) -> Result<bool, AllocError> {
    match asked_by(alloc, server)? {
        Some(asked) => Ok(may_enter(directory, &asked)),
        None => Ok(false),
    }
}

/// Prints how a connection has ended.
fn tell_end(rt: &HostRuntime, name: &str, end: &End) -> anyhow::Result<()> {
    if !matches!(end, End::Open) {
        println!(rt; "{name}: {end}")?;
    }
    Ok(())
}
