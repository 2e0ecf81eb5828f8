//! A check that is played over standard input and output.

use crate::blocks::{Block, block_named};
use crate::judged::judged_check;
use crate::own_key::{Own, read_own};
use crate::report::{Outcome, json_of, text_of};
use crate::settings::Settings;
use crate::stop::{Stop, stopped};
use crate::stream::{CHUNK, receive, send};
use sshchecks::{Check, Player, Setting, Turn, Verdict, verdict_of};
use sshidentity::{bytes_of, text_in};
use sshprogram::{ProgramFault, REFUSED};
use std::io::Write;

/// Plays the check of a name, tells what the peer did, and answers the exit status.
pub(crate) fn play(rt: &HostRuntime, settings: &Settings<'_>) -> Result<u8, ProgramFault> {
    let file = bytes_of(rt, "checks", settings.checks)?;
    let text = text_in("checks", &file)?;
    let Some(block) = block_named(text, settings.check) else {
        let name = settings.check;
        let _ = writeln!(
            rt.stderr(),
            "sshconform: the file of --checks has no check {name}"
        );
        return Ok(REFUSED);
    };
    let own = read_own(rt, settings)?;
    play_block(rt, settings, text, &block, &own)
}

/// The same of the check of these lines.
fn play_block(
    rt: &HostRuntime,
    settings: &Settings<'_>,
    text: &str,
    block: &Block<'_>,
    own: &Own,
) -> Result<u8, ProgramFault> {
    match judged_check(rt.alloc(), settings, block) {
        Ok(check) => play_check(rt, settings, text, block, &check, own),
        Err(stop) => stopped(rt, text, block, stop),
    }
}

/// The same of a check.
fn play_check(
    rt: &HostRuntime,
    settings: &Settings<'_>,
    text: &str,
    block: &Block<'_>,
    check: &Check<'_>,
    own: &Own,
) -> Result<u8, ProgramFault> {
    let setting = own.setting(settings.number.unwrap_or(0));
    match play_by(rt, settings, check, setting) {
        Ok(verdict) => Ok(status_of(verdict)),
        Err(stop) => stopped(rt, text, block, stop),
    }
}

/// Plays a check by this setting, and tells what the peer did.
fn play_by<'a>(
    rt: &HostRuntime,
    settings: &Settings<'_>,
    check: &'a Check<'a>,
    setting: Setting<'a>,
) -> Result<Verdict, Stop<'a>> {
    let mut player = player_of(rt, settings, check, setting)?;
    carry(rt, &mut player)?;
    let verdict = tell(rt, settings, check, &player)?;
    Ok(verdict)
}

/// A player of a check. It is in a box, so that a proof doesn't look into all that it owns at each exit.
fn player_of<'a>(
    rt: &HostRuntime,
    settings: &Settings<'_>,
    check: &'a Check<'a>,
    setting: Setting<'a>,
) -> Result<Box<Player<'a>>, Stop<'a>> {
    let side = settings.judged.other();
    let player = Player::new(rt.alloc(), side, check, setting)?;
    match Box::new(rt.alloc(), player) {
        Ok(player) => Ok(player),
        Err(_) => Err(Stop::Fault(ProgramFault::Memory)),
    }
}

/// Carries bytes between the peer and a player until the check has ended. What a peer that has gone would be sent is left out, and what
/// it sent before is read.
fn carry<'a>(rt: &HostRuntime, player: &mut Player<'a>) -> Result<(), Stop<'a>> {
    let mut out = Vec::new(rt.alloc());
    let mut is_there = true;
    for _ in 0..u64::MAX {
        let turn = player.play(&mut out)?;
        if is_there && !out.is_empty() {
            is_there = send(rt, &out)?;
        }
        out.clear();
        match turn {
            Turn::Acted => {}
            Turn::Waits => take(rt, player)?,
            Turn::Done => break,
        }
    }
    Ok(())
}

/// Gives a player what comes next.
fn take<'a>(rt: &HostRuntime, player: &mut Player<'a>) -> Result<(), Stop<'a>> {
    let mut chunk = [0u8; CHUNK];
    let count = receive(rt, &mut chunk)?;
    if count == 0 {
        player.end_of_input();
        return Ok(());
    }
    player.receive(chunk.get(..count).unwrap_or(&[]))?;
    Ok(())
}

/// Tells what the peer did on standard error, and answers the verdict.
fn tell(
    rt: &HostRuntime,
    settings: &Settings<'_>,
    check: &Check<'_>,
    player: &Player<'_>,
) -> Result<Verdict, ProgramFault> {
    let did = player.did();
    let verdict = verdict_of(check, did);
    let outcome = Outcome {
        verdict,
        did,
        reason: player.reason(),
        at: player.at(),
        came: player.came(),
        unimplemented: player.is_unimplemented(),
    };
    let line = if settings.json {
        json_of(rt.alloc(), check, &outcome)?
    } else {
        text_of(rt.alloc(), check, &outcome)?
    };
    let written = rt.stderr().write_all(line.as_bytes());
    written.map_err(|_| ProgramFault::Write)?;
    Ok(verdict)
}

/// The exit status of a verdict.
fn status_of(verdict: Verdict) -> u8 {
    match verdict {
        Verdict::Keeps | Verdict::Unclear => 0,
        Verdict::Deviates => 1,
        Verdict::Hole => 5,
    }
}
