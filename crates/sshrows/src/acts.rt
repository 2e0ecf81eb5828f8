//! The acts of rows.

use crate::worlds::{judge_prediction, judge_world};
use sshcore::Decisions;
use sshlab::{Scenario, ScenarioFault, TEXT_LIMIT};
use sshlabsuites::LabSuite;
use sshpacket::{KeysElsewhere, Suite};
use sshrows_acts::{
    Generous, Line, Names, Row, Stop, Way, judge_config, judge_endpoint, judge_waiting,
    nothing_after, same_text, shows, signing_of, split_word, wrong,
};
use sshrows_checks::judge_check;
use sshsuite::DeployedSuite;
use std::alloc::Global;

/// Judges the lines from the act on, an endpoint in this way.
pub(crate) fn act(
    alloc: Global,
    names: &Names,
    row: &Line<'_>,
    text: &[u8],
    lines: &[Line<'_>],
    way: Way,
) -> Result<(), Stop> {
    let Some((line, rest)) = lines.split_first() else {
        return wrong(alloc, row, "row", "an act", "none");
    };
    let (word, role) = line.head();
    if word == "config" {
        return judge_config(alloc, names, line, role, rest, way);
    }
    if word == "conform" {
        return judge_check(alloc, line, role, rest);
    }
    match scenario_of(alloc, row, text)? {
        Ok(scenario) => act_by(alloc, names, line, &scenario, rest, way),
        Err(fault) => {
            let wanted = if word == "refused" { role } else { "accepted" };
            shows(alloc, line, "config", wanted, &fault)?;
            nothing_after(alloc, rest)
        }
    }
}

/// The scenario of the text, or why it is refused.
fn scenario_of(
    alloc: Global,
    row: &Line<'_>,
    text: &[u8],
) -> Result<Result<Box<Scenario>, ScenarioFault>, Stop> {
    if text.len() > TEXT_LIMIT {
        return wrong(alloc, row, "row", "a scenario", "too many bytes");
    }
    match Scenario::parse(alloc, text) {
        Ok(scenario) => Ok(Ok(Box::new(alloc, scenario)?)),
        Err(ScenarioFault::Memory) => Err(Stop::Refused),
        Err(fault) => Ok(Err(fault)),
    }
}

/// The lab suite, whose private keys are held elsewhere.
const ELSEWHERE: KeysElsewhere<LabSuite> = KeysElsewhere { suite: LabSuite };

/// Does the act over an accepted scenario.
fn act_by(
    alloc: Global,
    names: &Names,
    line: &Line<'_>,
    scenario: &Scenario,
    rest: &[Line<'_>],
    way: Way,
) -> Result<(), Stop> {
    let (word, words) = line.head();
    let row = Row {
        names,
        act: line,
        lines: rest,
        way,
    };
    let decisions = &scenario.decisions;
    match (word, split_word(words).1) {
        ("begin", "") => begin(alloc, row, scenario, (LabSuite, decisions)),
        ("begin", "elsewhere") => {
            let (signing, row) = signing_of(alloc, row, decisions)?;
            begin(alloc, row, scenario, (ELSEWHERE, &signing))
        }
        ("generous", "") => begin(alloc, row, scenario, (LabSuite, &Generous)),
        ("deployed", "") => {
            let (signing, row) = signing_of(alloc, row, decisions)?;
            begin(alloc, row, scenario, (DeployedSuite, &signing))
        }
        ("waiting", "") => wait(alloc, row, scenario, LabSuite),
        ("waiting", "elsewhere") => wait(alloc, row, scenario, ELSEWHERE),
        ("waiting", "deployed") => wait(alloc, row, scenario, DeployedSuite),
        ("world", "") => judge_world(alloc, scenario, rest),
        ("predict", "") => judge_prediction(alloc, scenario, rest),
        ("accepted", "") => nothing_after(alloc, rest),
        _ => wrong(alloc, line, "config", words, "accepted"),
    }
}

/// Judges an endpoint of the scenario, over the suite and by these decisions.
fn begin<S: Suite + Drop, D: Decisions>(
    alloc: Global,
    row: Row<'_>,
    scenario: &Scenario,
    by: (S, &D),
) -> Result<(), Stop> {
    let (role, _) = split_word(row.act.head().1);
    match role {
        "client" => judge_endpoint(alloc, row, &scenario.client, by),
        "server" => judge_endpoint(alloc, row, &scenario.server, by),
        _ => same_text(alloc, row.act, "act", "client or server", role),
    }
}

/// Judges an endpoint of the scenario over the suite that asks and waits, and that the lines of the row answer.
fn wait<S: Suite + Drop>(
    alloc: Global,
    row: Row<'_>,
    scenario: &Scenario,
    suite: S,
) -> Result<(), Stop> {
    let (role, _) = split_word(row.act.head().1);
    let decisions = &scenario.decisions;
    match role {
        "client" => judge_waiting(alloc, row, &scenario.client, suite, decisions),
        "server" => judge_waiting(alloc, row, &scenario.server, suite, decisions),
        _ => same_text(alloc, row.act, "act", "client or server", role),
    }
}
