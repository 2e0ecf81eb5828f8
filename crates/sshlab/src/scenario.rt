//! Scenarios: a client and a server, what they decide, and what is delivered between them.
//!
//! The text of a scenario is lines with an LF after each, which the last may lack. It has at most 1048576
//! bytes, and a line at most 20000, from 32 to 126. Empty lines and those that begin with `#` say nothing.
//! Between the fields of any other line stand single spaces.
//!
//! - HEX is hexadecimal digits in either case, two a byte, or `-` for no bytes.
//! - LIST is names with commas between, or `-` for the empty list. YN is `yes` or `no`.
//! - N is one to ten digits, at most 4294967295. SIDE is `client` or `server`.
//! - PROOF is `none`, `password HEX` or `publickey ALG HEX`, with the private key.
//!
//! | Line, at most once for each side | Default |
//! |---|---|
//! | `SIDE version SOFTWARE` | `lab_1`, without comments |
//! | `SIDE kex LIST` | `a` |
//! | `SIDE cipher_cs LIST`, `SIDE cipher_sc LIST` (to the server, to the client) | `c` |
//! | `SIDE mac_cs LIST`, `SIDE mac_sc LIST` | `m` |
//! | `SIDE strict YN` | `yes` |
//! | `SIDE cookie HEX` | 16 bytes 00 of the client, ff of the server |
//! | `SIDE random HEX` | 32 bytes 11 of the client, 33 of the server |
//! | `SIDE seed HEX` | 32 bytes 22 of the client, 44 of the server |
//!
//! | Line, at most once | Default |
//! |---|---|
//! | `client hostkey LIST` | `h` |
//! | `client guess YN` | `no` |
//! | `server services LIST` | `ssh-connection` |
//! | `server methods LIST` | `password,publickey` |
//! | `server required LIST` (of its methods) | `-` |
//! | `server tries N` | 6 |
//! | `server banner HEX` | no banner |
//!
//! | Line, any number of times | Meaning |
//! |---|---|
//! | `client try USER SERVICE PROOF` | an attempt of the client's plan |
//! | `client try USER SERVICE query ALG HEX` | one by a key about which the server is asked first |
//! | `server hostkey ALG HEX` | a host key, with its private key; with no such line the server has the key 00 for `h` |
//! | `server notice HEX` | a line before the server's version line |
//! | `distrust ALG` | host keys of this algorithm aren't trusted |
//! | `allow USER PROOF` | the user is accepted who proves so to be this one |
//! | `deny N` | request N, from 1, is never accepted |
//! | `deliver SIDE N` | at most N of the waiting bytes go to the side |
//! | `settle N` | N rounds, at most 1000: all waiting bytes to the server, then all to the client |

ghost use Rattle.std.specs.Prelude.{◌≡◌, ◌≤◌, ◌⊎◌, IfErr, IfOk, OnOk, length};
ghost use Rattle.sshcore.specs.ConfigRules.{IsClient};
ghost use Rattle.sshcore.specs.ConfigView.{client_data, server_data};
ghost use Rattle.sshlab.specs.ScenarioDrafts.{drafted, no_lines};
ghost use Rattle.sshlab.specs.ScenarioFaults.{IsCause, IsClientRefusal, IsLineCause, IsServerRefusal};
ghost use Rattle.sshlab.specs.ScenarioParts.{client_of_lines, rules_of_lines, server_of_lines, steps_of_lines};
ghost use Rattle.sshlab.specs.ScenarioText.{CanBeRead, statements_in};
ghost use Rattle.sshlab.specs.TextLines.{lines};
ghost use Rattle.sshlab.specs.declared.scenario.TheConstants.{TEXT_LIMIT};

use crate::scenario_draft::{Draft, ScenarioParts};
use crate::scenario_fields::LineFault;
use crate::scenario_line::Step;
use sshcore::{ClientConfig, ClientParts, ConfigFault, End, ServerConfig, ServerParts};
use sshlabsuites::{LabDecisions, LabSuite};
use sshwire::Memory;
use sshwire::owned::{beside, once};
use sshworld::predict;
use std::alloc::Global;
use thiserror::Error;

/// The most bytes of a scenario's text.
pub const TEXT_LIMIT: usize = 1_048_576;

/// Two configs, what both sides decide, and what is delivered.
///
/// The head of this file has the lines of its text.
#[derive(Drop)]
pub struct Scenario {
    /// The client's config.
    pub client: ClientConfig,
    /// The server's config.
    pub server: ServerConfig,
    /// What both decide.
    pub decisions: LabDecisions,
    /// The deliveries, in the order of their lines.
    pub steps: Vec<Step>,
}

/// Why a text is no scenario.
#[derive(Clone, Copy, Debug, Error, PartialEq, Eq)]
pub enum ScenarioFault {
    /// The first line that has none of the forms, or stands where its like stood and may stand once;
    /// lines are counted from 1. It is told before a config's refusal.
    #[error("scenario line {0}")]
    Line(u32),
    /// The lines give no config of a client.
    #[error("client config {}", .0.code())]
    Client(ConfigFault),
    /// They give one of a client, and none of a server.
    #[error("server config {}", .0.code())]
    Server(ConfigFault),
    /// An allocation failed.
    #[error("out of memory")]
    Memory,
}

impl From<Memory> for ScenarioFault {
    ghost use Rattle.sshlab.specs.declared.scenario.ScenarioFault.TheVariants as fault;

    ghost from_gives = { λ _ e. e ≡ fault.Memory };

    fn from(_e: Memory) -> ScenarioFault {
        ScenarioFault::Memory
    }
}

impl Scenario {
    ghost use Rattle.sshcore.specs.EndData.{end_data};
    ghost use Rattle.sshlabsuites.specs.Lab.{lab};
    ghost use Rattle.sshlabsuites.specs.LabDecisionsData.{lab_policy};
    ghost use Rattle.sshworld.specs.Outcome.{outcome};

    /// Reads a scenario of at most 1048576 bytes.
    ///
    /// Answers the fault of the first bad line; if there is none, that of the client's config, and then
    /// that of the server's ([`ScenarioFault`] says what each tells); `Memory` only where an allocation failed.
    pub fn parse(alloc: Global, text: &[u8]) -> Result<Scenario, ScenarioFault>
        requires { length text.now ≤ TEXT_LIMIT }
        ensures read { IfOk result (λ scenario. CanBeRead (lines text.now)) }
        ensures client { IfOk result (λ scenario. scenario.client ≡ client_of_lines (statements_in (lines text.now))) }
        ensures server { IfOk result (λ scenario. scenario.server ≡ server_of_lines (statements_in (lines text.now))) }
        ensures decisions { IfOk result (λ scenario. scenario.decisions ≡ rules_of_lines (statements_in (lines text.now))) }
        ensures steps { IfOk result (λ scenario. scenario.steps.items ≡ steps_of_lines (statements_in (lines text.now))) }
        ensures refused { IfErr result (λ fault. IsCause (lines text.now) fault) }
    {
        let ScenarioParts {
            client,
            server,
            decisions,
            steps,
        } = parts_of_text(alloc, text)?;
        let configs = configs_of(alloc, client, server);
        let ((decisions, steps), (client, server)) = beside((decisions, steps), configs)?;
        Ok(Scenario {
            client,
            server,
            decisions,
            steps,
        })
    }

    /// How both sides end, the client's end first, where they use the lab suite and all that either
    /// sends reaches the other. Answers `Memory` only where an allocation failed.
    pub fn predict(&self, alloc: Global) -> Result<(End, End), Memory>
        ensures client { IfOk result (λ ends. end_data ends.0 ≡ (outcome lab (lab_policy self.now.decisions) self.now.client self.now.server).client) }
        ensures server { IfOk result (λ ends. end_data ends.1 ≡ (outcome lab (lab_policy self.now.decisions) self.now.client self.now.server).server) }
    {
        predict(
            alloc,
            &self.client,
            &self.server,
            &LabSuite,
            &self.decisions,
        )
    }
}

/// What the lines of a text give, before the configs are judged.
fn parts_of_text(alloc: Global, text: &[u8]) -> Result<ScenarioParts, ScenarioFault>
    requires { length text.now ≤ TEXT_LIMIT }
    ensures read { IfOk result (λ parts. CanBeRead (lines text.now)) }
    ensures client { IfOk result (λ parts. client_data parts.client ≡ client_of_lines (statements_in (lines text.now))) }
    ensures server { IfOk result (λ parts. server_data parts.server ≡ server_of_lines (statements_in (lines text.now))) }
    ensures decisions { IfOk result (λ parts. parts.decisions ≡ rules_of_lines (statements_in (lines text.now))) }
    ensures steps { IfOk result (λ parts. parts.steps.items ≡ steps_of_lines (statements_in (lines text.now))) }
    ensures refused { IfErr result (λ fault. IsLineCause (lines text.now) fault) }
{
    let mut draft = Draft::new(alloc)?;
    let read = read_lines(&mut draft, text);
    let whole = once(draft, read)?;
    Ok(whole.finish())
}

/// Reads the lines of a text, which have an LF between them.
fn read_lines(draft: &mut Draft, text: &[u8]) -> Result<(), ScenarioFault>
    requires within { length text.now ≤ TEXT_LIMIT }
    requires fresh { draft.old ≡ no_lines }
    ensures read { OnOk result (CanBeRead (lines text.now)) }
    ensures draft { OnOk result (draft.new ≡ drafted (statements_in (lines text.now))) }
    ensures refused { IfErr result (λ fault. IsLineCause (lines text.now) fault) }
{
    let mut number = 0u32;
    for line in text.split(|byte| *byte == b'\n') {
        number += 1;
        match draft.read(line) {
            Ok(()) => {}
            Err(LineFault::Form) => return Err(ScenarioFault::Line(number)),
            Err(LineFault::Memory) => return Err(ScenarioFault::Memory),
        }
    }
    Ok(())
}

/// Both configs. The client's refusal is told before the server's.
fn configs_of(
    alloc: Global,
    client: ClientParts,
    server: ServerParts,
) -> Result<(ClientConfig, ServerConfig), ScenarioFault>
    ensures client { IfOk result (λ configs. configs.0 ≡ client_data client) }
    ensures server { IfOk result (λ configs. configs.1 ≡ server_data server) }
    ensures refused { IfErr result (λ fault. IsClientRefusal (client_data client) fault
        ⊎ (IsClient (client_data client) × IsServerRefusal (server_data server) fault)) }
{
    let config = client_config(alloc, client);
    let (server, client) = beside(server, config)?;
    beside(client, server_config(alloc, server))
}

/// The client's config, whose refusal is the scenario's.
fn client_config(alloc: Global, parts: ClientParts) -> Result<ClientConfig, ScenarioFault>
    ensures accepted { IfOk result (λ config. (config ≡ client_data parts) × IsClient config) }
    ensures refused { IfErr result (λ fault. IsClientRefusal (client_data parts) fault) }
{
    match ClientConfig::new(alloc, parts) {
        Ok(config) => Ok(config),
        Err(ConfigFault::Memory) => Err(ScenarioFault::Memory),
        Err(fault) => Err(ScenarioFault::Client(fault)),
    }
}

/// The server's config, whose refusal is the scenario's.
fn server_config(alloc: Global, parts: ServerParts) -> Result<ServerConfig, ScenarioFault>
    ensures accepted { IfOk result (λ config. config ≡ server_data parts) }
    ensures refused { IfErr result (λ fault. IsServerRefusal (server_data parts) fault) }
{
    match ServerConfig::new(alloc, parts) {
        Ok(config) => Ok(config),
        Err(ConfigFault::Memory) => Err(ScenarioFault::Memory),
        Err(fault) => Err(ScenarioFault::Server(fault)),
    }
}
