//! What the program's commands answer.

ghost use Rattle.std.specs.Prelude.{◌≡◌, ◌≢◌, ◌≤◌, ◌==◌, ◌↔◌, Err, IfErr, IfOk, Some, false, length, string_bytes, true};
ghost use Rattle.sshcore.specs.EndData.{end_data};
ghost use Rattle.sshworld.specs.Worlds.{Complete};
ghost use Rattle.sshlab.specs.Reports.{report_text};
ghost use Rattle.sshlab.specs.Statuses.{IsNoToolFault};
ghost use Rattle.sshlab.specs.Told.{IsToldOfInput, IsToldOfRun, PredictTells, RunTells, foretold};
ghost use Rattle.sshlab.specs.declared.command_fault.CommandFault.TheVariants as command;
ghost use Rattle.sshlab.specs.declared.scenario.TheConstants.{TEXT_LIMIT};
ghost use Rattle.sshlab.specs.declared.tool_fault.ToolFault.TheVariants as fault;

use crate::command_fault::CommandFault;
use crate::input::read_all;
use crate::program::{Answer, DONE, NOT_COMPLETE};
use crate::report::Report;
use crate::scenario::Scenario;
use crate::schedule::schedule_of;
use crate::streams::Source;
use sshcore::{Decisions, End};
use sshpacket::Suite;
use sshwire::{VersionLine, WireFault};
use sshworld::{World, greet};
use std::alloc::Global;
use std::fmt::Write;

/// The answer to `predict`.
pub(crate) fn read_prediction<I: Source>(
    alloc: Global,
    input: &mut I,
    session: bool,
) -> Result<Answer, CommandFault>
    requires { I.has_failed input.old ≡ false }
    ensures status { IfOk result (λ answer. answer.status ≤ 1) }
    ensures read { (result ≡ Err (command.Tool fault.Read)) ↔ (I.has_failed input.new ≡ true) }
    ensures unwritten { IfErr result (λ cause. cause ≢ command.Tool fault.Write) }
    ensures told { IfOk result (λ answer. IsToldOfInput (PredictTells session) (I.remaining input.old) (string_bytes answer.text) answer.status) }
{
    let text = read_all(alloc, input)?;
    prediction_of(alloc, &text, session)
}

/// The answer to `run`.
pub(crate) fn read_run<I: Source>(
    alloc: Global,
    input: &mut I,
    session: bool,
) -> Result<Answer, CommandFault>
    requires { I.has_failed input.old ≡ false }
    ensures status { IfOk result (λ answer. answer.status ≤ 1) }
    ensures read { (result ≡ Err (command.Tool fault.Read)) ↔ (I.has_failed input.new ≡ true) }
    ensures unwritten { IfErr result (λ cause. cause ≢ command.Tool fault.Write) }
    ensures told { IfOk result (λ answer. IsToldOfInput (RunTells session) (I.remaining input.old) (string_bytes answer.text) answer.status) }
{
    let text = read_all(alloc, input)?;
    run_of(alloc, &text, session)
}

/// How the sides of a scenario with this text end, without its deliveries.
fn prediction_of(alloc: Global, text: &[u8], session: bool) -> Result<Answer, CommandFault>
    requires { length text.now ≤ TEXT_LIMIT }
    ensures status { IfOk result (λ answer. answer.status ≤ 1) }
    ensures told { IfOk result (λ answer. PredictTells session text.now (string_bytes answer.text) answer.status) }
    ensures fault { IfErr result IsNoToolFault }
{
    let (client, server) = ends_of(alloc, text)?;
    let report = Report {
        alloc,
        client: &client,
        server: &server,
        complete: None,
        session,
    };
    printed(alloc, &report, DONE)
}

/// The ends of the sides of a scenario with this text, the client's end first.
fn ends_of(alloc: Global, text: &[u8]) -> Result<(End, End), CommandFault>
    requires { length text.now ≤ TEXT_LIMIT }
    ensures client { IfOk result (λ ends. end_data ends.0 ≡ (foretold text.now).client) }
    ensures server { IfOk result (λ ends. end_data ends.1 ≡ (foretold text.now).server) }
    ensures fault { IfErr result IsNoToolFault }
{
    match Scenario::parse(alloc, text) {
        Ok(scenario) => {
            let ends = scenario.predict(alloc);
            drop(scenario);
            match ends {
                Ok(ends) => Ok(ends),
                Err(_) => Err(CommandFault::Memory),
            }
        }
        Err(fault) => Err(CommandFault::Scenario(fault)),
    }
}

/// How the sides of a scenario with this text stand when its steps were done.
fn run_of(alloc: Global, text: &[u8], session: bool) -> Result<Answer, CommandFault>
    requires { length text.now ≤ TEXT_LIMIT }
    ensures status { IfOk result (λ answer. answer.status ≤ 1) }
    ensures told { IfOk result (λ answer. RunTells session text.now (string_bytes answer.text) answer.status) }
    ensures fault { IfErr result IsNoToolFault }
{
    match Scenario::parse(alloc, text) {
        Ok(scenario) => {
            let told = steps_told(alloc, &scenario, session);
            drop(scenario);
            told
        }
        Err(fault) => Err(CommandFault::Scenario(fault)),
    }
}

/// How the sides of a scenario stand when its steps were done.
fn steps_told(alloc: Global, scenario: &Scenario, session: bool) -> Result<Answer, CommandFault>
    ensures status { IfOk result (λ answer. answer.status ≤ 1) }
    ensures told { IfOk result (λ answer. IsToldOfRun scenario.now.client scenario.now.server scenario.now.decisions scenario.now.steps.items session (string_bytes answer.text) answer.status) }
    ensures fault { IfErr result IsNoToolFault }
{
    match scenario.run(alloc) {
        Ok(world) => {
            let told = world_told(alloc, &world, session);
            drop(world);
            told
        }
        Err(_) => Err(CommandFault::Memory),
    }
}

/// How the sides of a world stand, and whether nothing waits for either, which the status tells too.
fn world_told<S: Suite, D: Decisions>(
    alloc: Global,
    world: &World<'_, S, D>,
    session: bool,
) -> Result<Answer, CommandFault>
    ensures status { IfOk result (λ answer. answer.status ≤ 1) }
    ensures complete { IfOk result (λ answer. (answer.status ≡ 0) ↔ Complete world.now) }
    ensures text { IfOk result (λ answer. string_bytes answer.text ≡ report_text world.now.client.end world.now.server.end (Some (answer.status == 0)) session) }
    ensures fault { IfErr result IsNoToolFault }
{
    let (client, server) = world.ends();
    let complete = world.complete();
    let report = Report {
        alloc,
        client,
        server,
        complete: Some(complete),
        session,
    };
    let status = if complete { DONE } else { NOT_COMPLETE };
    printed(alloc, &report, status)
}

/// The report as text, with the status once it is written.
fn printed(alloc: Global, report: &Report<'_>, status: u8) -> Result<Answer, CommandFault>
    ensures status { IfOk result (λ answer. answer.status ≡ status) }
    ensures text { IfOk result (λ answer. string_bytes answer.text ≡ report_text (end_data report.now.client.now) (end_data report.now.server.now) report.now.complete report.now.session) }
    ensures fault { IfErr result IsNoToolFault }
{
    match report.to_string(alloc) {
        Ok(text) => Ok(Answer { text, status }),
        Err(_) => Err(CommandFault::Memory),
    }
}

/// What two sides with these softwareversions receive from each other.
pub(crate) fn greeting_of(
    alloc: Global,
    client: &str,
    server: &str,
    schedule: &str,
) -> Result<Answer, CommandFault>
    ensures status { IfOk result (λ answer. answer.status ≤ 1) }
    ensures fault { IfErr result IsNoToolFault }
{
    let client = line_of(alloc, client)?;
    let server = line_of(alloc, server)?;
    let schedule = schedule_of(alloc, schedule)?;
    let greeting = greet(alloc, &client, &server, &schedule).map_err(|_| CommandFault::Memory)?;
    let text = greeting.to_string(alloc).map_err(|_| CommandFault::Memory)?;
    let status = if greeting.complete {
        DONE
    } else {
        NOT_COMPLETE
    };
    Ok(Answer { text, status })
}

/// The written version line of a softwareversion, which has no comments.
fn line_of(alloc: Global, software: &str) -> Result<Vec<u8>, CommandFault>
    ensures { IfErr result IsNoToolFault }
{
    if software.contains(' ') {
        return Err(CommandFault::Version);
    }
    let line = format!(in alloc; "SSH-2.0-{software}\r\n").map_err(|_| CommandFault::Memory)?;
    let version = VersionLine::parse(alloc, line.as_bytes()).map_err(|fault| match fault {
        WireFault::Memory => CommandFault::Memory,
        _ => CommandFault::Version,
    })?;
    let mut written = Vec::new(alloc);
    version
        .write(&mut written)
        .map_err(|_| CommandFault::Memory)?;
    Ok(written)
}
