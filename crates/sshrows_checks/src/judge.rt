//! Rows of checks: what a deviant peer sends to an endpoint of this project, and what the endpoint does about it. So the judge of
//! other implementations is judged itself.

use crate::parts::{client_config, random_bytes, server_config, setting_of};
use crate::peer::Peer;
use crate::play::play;
use crate::trust::{Trust, trust_of};
use crate::words::{Target, expectation_of, judge_word, target_of};
use sshchecks::{Check, CheckFault, read_check};
use sshcore::Endpoint;
use sshneg::Side;
use sshrows_acts::{Line, Stop, wrong};
use sshsuite::DeployedSuite;
use std::alloc::Global;

/// `conform ROLE READING [NUMBER]`, and after it the lines of a check, which is played to an endpoint of this role.
pub fn judge_check(
    alloc: Global,
    act: &Line<'_>,
    words: &str,
    lines: &[Line<'_>],
) -> Result<(), Stop> {
    let target = target_of(alloc, act, words)?;
    let text = text_of(alloc, lines)?;
    match read_check(alloc, target.role.other(), &text) {
        Ok(check) => judge_read(alloc, act, target, check),
        Err(CheckFault::Memory) => Err(Stop::Memory),
        Err(CheckFault::Form(line)) => wrong(alloc, act, "check", "a line of a check", line),
    }
}

/// The lines as one text.
fn text_of(alloc: Global, lines: &[Line<'_>]) -> Result<String, Stop> {
    let mut text = String::new(alloc);
    for line in lines {
        text.push_str(line.text)?;
        text.push_str("\n")?;
    }
    Ok(text)
}

/// Judges a check.
fn judge_read(alloc: Global, act: &Line<'_>, target: Target, check: Check<'_>) -> Result<(), Stop> {
    let mut check = check;
    check.expect = expectation_of(alloc, act, target, &check)?;
    let trust = trust_of(alloc)?;
    match target.role {
        Side::Client => judge_client(alloc, act, target, &check, &trust),
        Side::Server => judge_server(alloc, act, target, &check, &trust),
    }
}

/// Judges a check by a client.
fn judge_client(
    alloc: Global,
    act: &Line<'_>,
    target: Target,
    check: &Check<'_>,
    trust: &Trust,
) -> Result<(), Stop> {
    let config = client_config(alloc, act, target.reading)?;
    let mut sent = Vec::new(alloc);
    match Endpoint::client(alloc, &config, &DeployedSuite, trust, &mut sent) {
        Ok(endpoint) => {
            let peer = Peer::Endpoint(Box::new(alloc, endpoint)?);
            judge_peer(alloc, act, target, check, peer, sent)
        }
        Err(_) => Err(Stop::Memory),
    }
}

/// Judges a check by a server, which requires both methods where the check needs that.
fn judge_server(
    alloc: Global,
    act: &Line<'_>,
    target: Target,
    check: &Check<'_>,
    trust: &Trust,
) -> Result<(), Stop> {
    let requires_both = check.needs.split(' ').any(|need| need == "required");
    let config = server_config(alloc, act, target.reading, requires_both)?;
    let mut sent = Vec::new(alloc);
    match Endpoint::server(alloc, &config, &DeployedSuite, trust, &mut sent) {
        Ok(endpoint) => {
            let peer = Peer::Endpoint(Box::new(alloc, endpoint)?);
            judge_peer(alloc, act, target, check, peer, sent)
        }
        Err(_) => Err(Stop::Memory),
    }
}

/// Plays the check to an endpoint that has sent these bytes, and judges what it does.
fn judge_peer(
    alloc: Global,
    act: &Line<'_>,
    target: Target,
    check: &Check<'_>,
    peer: Peer<'_>,
    sent: Vec<u8>,
) -> Result<(), Stop> {
    let random = random_bytes();
    let setting = setting_of(&random, target.number.unwrap_or(0));
    let player = play(alloc, act, check, setting, target.role, peer, sent)?;
    judge_word(alloc, act, target, check, &player)
}
