//! Rows of worlds and of predictions.

use sshcore::{Agreed, End, Fault};
use sshlab::Scenario;
use sshlabsuites::{LabDecisions, LabSuite};
use sshrows_acts::{
    Line, Stop, is_out_of_memory, number_of, refused, same_agreed, same_end, same_text, shows,
    split_word, wrong, yes_or_no,
};
use sshwire::Memory;
use sshworld::{Delivery, Side, World};
use std::alloc::Global;

/// A world of the lab.
type LabWorld<'a> = World<'a, LabSuite, LabDecisions>;

/// Judges a world of the scenario by lines.
pub(crate) fn judge_world(
    alloc: Global,
    scenario: &Scenario,
    lines: &[Line<'_>],
) -> Result<(), Stop> {
    let mut world = world_of(alloc, scenario)?;
    for line in lines {
        step(alloc, line, &mut world)?;
    }
    Ok(())
}

/// The world of the scenario.
fn world_of(alloc: Global, scenario: &Scenario) -> Result<Box<LabWorld<'_>>, Stop> {
    let (client, server) = (&scenario.client, &scenario.server);
    let world = World::new(alloc, client, server, &LabSuite, &scenario.decisions)?;
    Ok(Box::new(alloc, world)?)
}

/// Judges what is predicted by lines.
pub(crate) fn judge_prediction(
    alloc: Global,
    scenario: &Scenario,
    lines: &[Line<'_>],
) -> Result<(), Stop> {
    let ends = scenario.predict(alloc)?;
    judge_all_ends(alloc, lines, (&ends.0, &ends.1))
}

/// Judges how both sides stand by lines.
fn judge_all_ends(alloc: Global, lines: &[Line<'_>], ends: (&End, &End)) -> Result<(), Stop> {
    for line in lines {
        judge_ends(alloc, line, ends)?;
    }
    Ok(())
}

/// Does or judges one line.
fn step(alloc: Global, line: &Line<'_>, world: &mut LabWorld<'_>) -> Result<(), Stop> {
    let (word, rest) = line.head();
    match word {
        "move" => deliver(alloc, line, world, rest),
        "run" => run(alloc, line, world, rest),
        "rounds" => {
            let times = number_of(alloc, line, rest)?;
            let settled = world.settle(times);
            moved_by(alloc, line, world, settled)
        }
        "turns" => {
            let times = number_of(alloc, line, rest)?;
            let alternated = alternate(world, times);
            moved_by(alloc, line, world, alternated)
        }
        "complete" => same_text(alloc, line, "complete", rest, yes_or_no(world.complete())),
        _ => judge_ends(alloc, line, world.ends()),
    }
}

/// `SIDE COUNT MOVED`: a delivery, and how many bytes it has to move.
fn deliver(
    alloc: Global,
    line: &Line<'_>,
    world: &mut LabWorld<'_>,
    rest: &str,
) -> Result<(), Stop> {
    let (side, rest) = split_word(rest);
    let (count, wanted) = split_word(rest);
    let to = match side {
        "client" => Side::Client,
        "server" => Side::Server,
        _ => return wrong(alloc, line, "side", "client or server", side),
    };
    let count = number_of(alloc, line, count)?;
    let stood = stood_as(ends_from(world, to).1);
    match world.deliver(to, count) {
        Ok(moved) => shows(alloc, line, "moved", wanted, &moved),
        Err(_) => Err(refused_delivery(alloc, line, world, to, stood)),
    }
}

/// What stands after a refused delivery to this side, whose other side stood so before.
fn refused_delivery(
    alloc: Global,
    line: &Line<'_>,
    world: &mut LabWorld<'_>,
    to: Side,
    stood: Stood,
) -> Stop {
    let (receiver, other) = ends_from(world, to);
    let is_right = is_out_of_memory(receiver)
        && !is_out_of_memory(other)
        && stood_as(other) == stood
        && stays_failed(world, to);
    let stands = if is_right {
        "the receiver failed F15 for good, the other as it was"
    } else {
        "another end than the receiver's F15"
    };
    refused(alloc, line, stands)
}

/// Whether the side stays failed by running out of memory, whatever is delivered after that.
fn stays_failed(world: &mut LabWorld<'_>, side: Side) -> bool {
    let _ = world.deliver(side, 1);
    let _ = world.settle(2);
    is_out_of_memory(ends_from(world, side).0)
}

/// The end of the side, and that of the other.
fn ends_from<'a>(world: &'a LabWorld<'_>, side: Side) -> (&'a End, &'a End) {
    let (client, server) = world.ends();
    match side {
        Side::Client => (client, server),
        Side::Server => (server, client),
    }
}

/// An end, kept without memory.
#[derive(Clone, Copy, PartialEq, Eq)]
enum Stood {
    Open,
    /// What was agreed, folded into a number.
    Authenticated(usize),
    Failed(Fault),
    Closed(u32),
    Disconnected(u32),
}

/// An end as it is kept.
fn stood_as(end: &End) -> Stood {
    match end {
        End::Open => Stood::Open,
        End::Authenticated(agreed) => Stood::Authenticated(folded_agreed(agreed)),
        End::Failed(fault) => Stood::Failed(*fault),
        End::Closed(reason) => Stood::Closed(*reason),
        End::Disconnected(reason) => Stood::Disconnected(*reason),
    }
}

/// All that was agreed, folded into a number.
fn folded_agreed(agreed: &Agreed) -> usize {
    let texts = [
        agreed.user.as_bytes(),
        agreed.service.as_bytes(),
        agreed.kex.as_bytes(),
        agreed.host_key.as_bytes(),
        agreed.encryption_client_to_server.as_bytes(),
        agreed.encryption_server_to_client.as_bytes(),
        agreed.mac_client_to_server.as_bytes(),
        agreed.mac_server_to_client.as_bytes(),
        agreed.compression_client_to_server.as_bytes(),
        agreed.compression_server_to_client.as_bytes(),
        agreed.session.as_slice(),
    ];
    let mut number = agreed.strict as usize;
    for text in texts {
        number = folded(number, text);
    }
    number
}

/// Bytes and how many they are, folded into a number.
fn folded(before: usize, bytes: &[u8]) -> usize {
    let mut number = before;
    for byte in bytes {
        number = number.wrapping_mul(1_000_003).wrapping_add(*byte as usize);
    }
    number.wrapping_mul(1_000_003).wrapping_add(bytes.len())
}

/// What came of deliveries. Where one was refused memory, one side alone has to be failed by that, and stays so.
fn moved_by(
    alloc: Global,
    line: &Line<'_>,
    world: &mut LabWorld<'_>,
    moved: Result<(), Memory>,
) -> Result<(), Stop> {
    if moved.is_ok() {
        return Ok(());
    }
    let (client, server) = world.ends();
    let is_right = match (is_out_of_memory(client), is_out_of_memory(server)) {
        (true, false) => stays_failed(world, Side::Client),
        (false, true) => stays_failed(world, Side::Server),
        _ => false,
    };
    let stands = if is_right {
        "one side failed F15 for good"
    } else {
        "not one side failed F15 for good"
    };
    Err(refused(alloc, line, stands))
}

/// `SIDE COUNT SIDE COUNT ..`: a schedule, done by one call.
fn run(alloc: Global, line: &Line<'_>, world: &mut LabWorld<'_>, words: &str) -> Result<(), Stop> {
    let mut schedule = Vec::new(alloc);
    put_schedule(alloc, line, words, &mut schedule)?;
    let moved = world.run(&schedule);
    moved_by(alloc, line, world, moved)
}

/// Appends the deliveries that the words are.
fn put_schedule(
    alloc: Global,
    line: &Line<'_>,
    words: &str,
    schedule: &mut Vec<Delivery>,
) -> Result<(), Stop> {
    let mut to = Side::Client;
    for word in words.split(' ') {
        match word {
            "client" => to = Side::Client,
            "server" => to = Side::Server,
            _ => {
                let count = number_of(alloc, line, word)?;
                schedule.push(Delivery { to, count })?;
            }
        }
    }
    Ok(())
}

/// So many times, one byte to the server and one to the client.
fn alternate(world: &mut LabWorld<'_>, times: u32) -> Result<(), Memory> {
    for _ in 0..times {
        world.deliver(Side::Server, 1)?;
        world.deliver(Side::Client, 1)?;
    }
    Ok(())
}

/// `client END`, `server END`, `agreed client ..` or `agreed server ..`.
fn judge_ends(alloc: Global, line: &Line<'_>, ends: (&End, &End)) -> Result<(), Stop> {
    let (word, rest) = line.head();
    match word {
        "client" => same_end(alloc, line, "client", rest, ends.0),
        "server" => same_end(alloc, line, "server", rest, ends.1),
        "agreed" => judge_agreed(alloc, line, ends, rest),
        _ => wrong(alloc, line, "line", "a word of a world", word),
    }
}

/// What a side has agreed.
fn judge_agreed(
    alloc: Global,
    line: &Line<'_>,
    ends: (&End, &End),
    rest: &str,
) -> Result<(), Stop> {
    let (side, wanted) = split_word(rest);
    match side {
        "client" => same_agreed(alloc, line, wanted, ends.0),
        "server" => same_agreed(alloc, line, wanted, ends.1),
        _ => wrong(alloc, line, "side", "client or server", side),
    }
}
