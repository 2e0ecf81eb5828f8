//! A server of many connections over one config, in turns. Each line of its input is one, `NAME HEX`: what its client
//! sends, in the place of a socket. It prints how each ends. Each has draws of its own, so no client that was recorded is
//! accepted again. Config and suite are the lab's, which is insecure. A real program limits how many connections are open
//! and how long each may take to log in, and goes on with the sessions.
//!
//! As the `src/main.rt` of a program `hello` this file needs one line more, and crates.txt another:
//!
//!     fn main(rt: HostRuntime) -> anyhow::Result<()> { run_server(&rt, &std::io::read_to_string(rt.alloc(), rt.stdin())?) }
//!
//!     hello: sshcore sshlabsuites anyhow hex
#![tactic(auto)]

use anyhow::{Context, bail};
use sshcore::{Credential, Draws, End, Endpoint, PeerReading, ServerConfig};
use sshlabsuites::{LabDecisions, LabSuite, lab_server_parts};
use std::alloc::Global;
use std::random::RandomSource;

/// A connection, what its client will send, in digits, and what is to be sent to the client.
#[derive(Drop)]
struct Connection<'a> {
    server: Endpoint<'a, LabSuite, LabDecisions>,
    name: &'a str,
    socket: &'a [u8],
    out: Vec<u8>,
}

/// Serves all clients of these lines.
pub(crate) fn run_server(rt: &HostRuntime, lines: &str) -> anyhow::Result<()> {
    let mut decisions = LabDecisions::new(rt.alloc());
    decisions.allow("al", &Credential::None)?;
    let config = lab_config(rt.alloc())?;
    serve(rt, &config, &decisions, lines)
}

fn lab_config(alloc: Global) -> anyhow::Result<ServerConfig> {
    let mut parts = Box::new(alloc, lab_server_parts(alloc)?)?;
    parts.side.reading = PeerReading::Deployed;
    parts.side.ignored_limit = Some(1 << 20);
    let config = ServerConfig::new(alloc, Box::into_inner(parts))?;
    judged(&config)?;
    Ok(config)
}

/// That the suite has all that the config names, and holds its private keys.
fn judged(config: &ServerConfig) -> anyhow::Result<()> {
    match config.judge(&LabSuite) {
        Ok(()) => Ok(()),
        Err(fault) => bail!("{fault}"),
    }
}

/// Serves all connections until each has ended.
fn serve(
    rt: &HostRuntime,
    config: &ServerConfig,
    decisions: &LabDecisions,
    lines: &str,
) -> anyhow::Result<()> {
    let mut connections = Vec::new(rt.alloc());
    for line in lines.lines() {
        connections.push(accept(rt, config, decisions, line)?)?;
    }
    take_turns(rt, &mut connections)
}

/// A new connection. The config is the same for all, the draws are its own.
fn accept<'a>(
    rt: &HostRuntime,
    config: &'a ServerConfig,
    decisions: &'a LabDecisions,
    line: &'a str,
) -> anyhow::Result<Connection<'a>> {
    let (name, digits) = line.split_once(' ').context("a line is NAME HEX")?;
    let draws = draw(rt)?;
    let mut out = Vec::new(rt.alloc());
    let server = Endpoint::server_with(rt.alloc(), config, draws, &LabSuite, decisions, &mut out)?;
    Ok(Connection {
        server,
        name,
        socket: digits.as_bytes(),
        out,
    })
}

/// What is drawn for one connection.
fn draw(rt: &HostRuntime) -> anyhow::Result<Draws> {
    Ok(Draws {
        cookie: random(rt)?,
        exchange_random: random(rt)?,
        padding_seed: random(rt)?,
    })
}

fn random<const N: usize>(rt: &HostRuntime) -> anyhow::Result<[u8; N]> {
    let mut bytes = [0; N];
    rt.fill_bytes(&mut bytes)?;
    Ok(bytes)
}

/// Gives each connection its turn, again and again, until none is open.
fn take_turns(rt: &HostRuntime, connections: &mut [Connection<'_>]) -> anyhow::Result<()> {
    for _ in 0..u64::MAX {
        if !round(rt, connections)? {
            break;
        }
    }
    Ok(())
}

/// Gives each connection one turn, and answers whether one is still open.
fn round(rt: &HostRuntime, connections: &mut [Connection<'_>]) -> anyhow::Result<bool> {
    let mut is_open = false;
    for connection in connections {
        is_open |= turn(rt, connection)?;
    }
    Ok(is_open)
}

/// Receives what has come on a connection, and answers whether it is open then. Prints how it has ended by that.
fn turn(rt: &HostRuntime, connection: &mut Connection<'_>) -> anyhow::Result<bool> {
    if !matches!(connection.server.end(), End::Open) {
        return Ok(false);
    }
    let (digits, rest) = connection.socket.split_at(connection.socket.len().min(200));
    connection.socket = rest;
    let piece = hex::decode(rt.alloc(), digits)?; // yours: what came; no byte where the client has gone
    if piece.is_empty() {
        connection.server.end_of_input(); // it fails as F16
    }
    let _ = connection.server.feed(&piece, &mut connection.out); // running out of memory is its end, F15
    connection.out.clear(); // yours: sends these bytes first
    let (end, name) = (connection.server.end(), connection.name);
    let is_open = matches!(end, End::Open);
    if !is_open {
        println!(rt; "{name}: {end}")?;
    }
    Ok(is_open)
}
