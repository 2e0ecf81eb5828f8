//! How a check is played in memory: each side is given what the other sends.

use crate::peer::Peer;
use sshchecks::{Check, PlayFault, Player, Setting, Turn};
use sshneg::Side;
use sshrows_acts::{Line, Stop, wrong};
use std::alloc::Global;

/// Plays a check to an endpoint of this role that has sent these bytes, until the check is done or neither side has more to
/// send. Answers the player then, in a box, so that a proof doesn't look into all that it owns at each exit.
pub(crate) fn play<'a>(
    alloc: Global,
    act: &Line<'_>,
    check: &'a Check<'a>,
    setting: Setting<'a>,
    role: Side,
    peer: Peer<'_>,
    answered: Vec<u8>,
) -> Result<Box<Player<'a>>, Stop> {
    let mut player = match Player::new(alloc, role.other(), check, setting) {
        Ok(player) => Box::new(alloc, player)?,
        Err(fault) => return unplayed(alloc, act, fault),
    };
    hand_over(alloc, act, &mut player, &answered, false)?;
    take_turns(alloc, act, &mut player, role, peer)?;
    Ok(player)
}

/// The check can't be played.
fn unplayed<T>(alloc: Global, act: &Line<'_>, fault: PlayFault<'_>) -> Result<T, Stop> {
    match fault {
        PlayFault::Memory => Err(Stop::Memory),
        PlayFault::Form(line) => wrong(alloc, act, "check", "an act that can be played", line),
    }
}

/// Gives the player what the endpoint has sent, and tells it where that was the last.
fn hand_over(
    alloc: Global,
    act: &Line<'_>,
    player: &mut Player<'_>,
    answered: &[u8],
    ends: bool,
) -> Result<(), Stop> {
    if let Err(fault) = player.receive(answered) {
        return unplayed(alloc, act, fault);
    }
    if ends {
        player.end_of_input();
    }
    Ok(())
}

/// Lets both sides take turns.
fn take_turns(
    alloc: Global,
    act: &Line<'_>,
    player: &mut Player<'_>,
    role: Side,
    peer: Peer<'_>,
) -> Result<(), Stop> {
    let mut peer = peer;
    for _ in 0..u32::MAX {
        let (mut sent, mut answered) = (Vec::new(alloc), Vec::new(alloc));
        let turn = match player.play(&mut sent) {
            Ok(turn) => turn,
            Err(fault) => return unplayed(alloc, act, fault),
        };
        let had_ended = peer.has_ended();
        peer = peer.given(alloc, role, &sent, &mut answered)?;
        let ends = peer.has_ended() && !had_ended;
        let is_over = match turn {
            Turn::Acted => false,
            Turn::Waits => answered.is_empty() && !ends,
            Turn::Done => true,
        };
        if is_over {
            break;
        }
        hand_over(alloc, act, player, &answered, ends)?;
    }
    Ok(())
}
