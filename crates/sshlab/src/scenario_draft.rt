//! A scenario while its lines are read.

ghost use Rattle.std.specs.Prelude.{◌≡◌, ◌++◌, ◌∷◌, [], Err, IfOk, OnErr, OnOk, map};
ghost use Rattle.std.specs.List.{Contains};
ghost use Rattle.sshcore.specs.ConfigView.{client_data, credential_data, host_key_data, server_data};
ghost use Rattle.sshlab.specs.ScenarioDrafts.{after, after_line, allowing, no_lines};
ghost use Rattle.sshlab.specs.ScenarioParts.{can_be_proved, some_or};
ghost use Rattle.sshlab.specs.ScenarioText.{CanFollow};
ghost use Rattle.sshlab.specs.ScenarioView.{side_setting_data, statement_data};
ghost use Rattle.sshlab.specs.Scenarios.{OfSide};
ghost use Rattle.sshlab.specs.declared.scenario_fields.LineFault.TheVariants as fault;

use crate::scenario_fields::LineFault;
use crate::scenario_line::{SideSetting, Statement, Step, statement_of};
use crate::scenario_settings::{Setting, set_client, set_server, set_side, setting_of};
use sshcore::{ClientParts, Credential, HostKey, ServerParts};
use sshlabsuites::{LabDecisions, lab_client_parts, lab_server_parts};
use sshwire::owned::beside;
use sshwire::{Memory, as_name};
use sshworld::Side;
use std::alloc::Global;
use std::marker::Model;

/// What the lines that were read say, and the defaults elsewhere.
#[derive(Drop)]
pub(crate) struct Draft {
    client: ClientParts,
    /// Its host keys are the default until the end.
    server: ServerParts,
    /// The host keys of the lines, which take the default's place if there is one.
    host_keys: Vec<HostKey>,
    decisions: LabDecisions,
    steps: Vec<Step>,
    /// The settings that stood already.
    settings: Vec<(Side, Setting)>,
    alloc: Global,
}

/// What all lines together give.
#[derive(Drop)]
pub(crate) struct ScenarioParts {
    pub(crate) client: ClientParts,
    pub(crate) server: ServerParts,
    pub(crate) decisions: LabDecisions,
    pub(crate) steps: Vec<Step>,
}

impl Model for Draft {
    ghost use Rattle.std.specs.Prelude.{map};
    ghost use Rattle.sshcore.specs.ConfigView.{client_data, host_key_data, server_data};
    ghost use Rattle.sshlab.specs.ScenarioDrafts.{DraftData};

    ghost Value = { DraftData };

    ghost view = { λ d. record {
      client = client_data d.client;
      server = server_data d.server;
      host_keys = map host_key_data d.host_keys.items;
      rules = d.decisions;
      steps = d.steps.items;
      settings = d.settings.items;
    } };
}

impl Draft {
    /// What no lines say.
    pub(crate) fn new(alloc: Global) -> Result<Draft, Memory>
        ensures { IfOk result (λ draft. draft ≡ no_lines) }
    {
        let client = lab_client_parts(alloc)?;
        let (client, server) = beside(client, lab_server_parts(alloc))?;
        Ok(Draft {
            client,
            server,
            host_keys: Vec::new(alloc),
            decisions: LabDecisions::new(alloc),
            steps: Vec::new(alloc),
            settings: Vec::new(alloc),
            alloc,
        })
    }

    /// Reads one more line, without its LF. A bad line changes nothing; at `Memory` the draft is of no
    /// more use.
    pub(crate) fn read(&mut self, line: &[u8]) -> Result<(), LineFault>
        ensures read { OnOk result (CanFollow self.old.settings line.now × (self.new ≡ after_line self.old line.now)) }
        ensures form { result ≡ Err fault.Form → CanFollow self.old.settings line.now → ⊥ }
        ensures unchanged { result ≡ Err fault.Form → self.new ≡ self.old }
    {
        if let Some(statement) = statement_of(self.alloc, line)? {
            if let Some(setting) = setting_of(&statement) {
                self.note(setting)?;
            }
            self.accept(statement)?;
        }
        Ok(())
    }

    /// Notes that the setting stood, which is refused the second time.
    fn note(&mut self, setting: (Side, Setting)) -> Result<(), LineFault>
        ensures new { OnOk result (Contains self.old.settings setting → ⊥) }
        ensures noted { OnOk result (self.new ≡ record self.old { settings = self.old.settings ++ setting ∷ [] }) }
        ensures form { result ≡ Err fault.Form → Contains self.old.settings setting }
        ensures unchanged { OnErr result (self.new ≡ self.old) }
    {
        if self.settings.contains(&setting) {
            return Err(LineFault::Form);
        }
        self.settings.push(setting).map_err(|_| LineFault::Memory)
    }

    /// Puts the statement to what was stated before. At `Memory` nothing is changed.
    fn accept(&mut self, statement: Statement) -> Result<(), Memory>
        ensures done { OnOk result (self.new ≡ after self.old (statement_data statement)) }
        ensures memory { OnErr result (self.new ≡ self.old) }
    {
        match statement {
            Statement::Either(side, setting) => {
                self.set(side, setting);
                Ok(())
            }
            Statement::Client(setting) => {
                set_client(&mut self.client, setting);
                Ok(())
            }
            Statement::Server(setting) => {
                set_server(&mut self.server, setting);
                Ok(())
            }
            Statement::Try(attempt) => put(&mut self.client.plan, attempt),
            Statement::HostKey(key) => put(&mut self.host_keys, key),
            Statement::Notice(line) => put(&mut self.server.notice_lines, line),
            Statement::Distrust(algorithm) => self.decisions.distrust(&algorithm),
            Statement::Allow { user, credential } => {
                allow(&mut self.decisions, &user, &credential)
            }
            Statement::Deny(number) => self.decisions.deny(number),
            Statement::Step(step) => put(&mut self.steps, step),
        }
    }

    /// Puts a setting of both sides' kind in the place of what stood there.
    fn set(&mut self, side: Side, setting: SideSetting)
        ensures { self.new ≡ after self.old (OfSide side (side_setting_data setting)) }
    {
        match side {
            Side::Client => set_side(&mut self.client.side, setting),
            Side::Server => set_side(&mut self.server.side, setting),
        }
    }

    /// What was stated, with the host keys of the lines in the place of the default, if there is one.
    pub(crate) fn finish(self) -> ScenarioParts
        ensures client { client_data result.client ≡ self.client }
        ensures server { server_data result.server ≡ record self.server { host_keys = some_or self.server.host_keys self.host_keys } }
        ensures decisions { result.decisions ≡ self.rules }
        ensures steps { result.steps.items ≡ self.steps }
    {
        let Draft {
            client,
            server,
            host_keys,
            decisions,
            steps,
            ..
        } = self;
        ScenarioParts {
            client,
            server: with_keys(server, host_keys),
            decisions,
            steps,
        }
    }
}

/// The server's parts with these host keys in the place of its own, if there is one.
fn with_keys(server: ServerParts, host_keys: Vec<HostKey>) -> ServerParts
    ensures { server_data result ≡ record (server_data server) { host_keys = some_or (server_data server).host_keys (map host_key_data host_keys.items) } }
{
    if host_keys.is_empty() {
        return server;
    }
    ServerParts {
        host_keys,
        ..server
    }
}

/// Accepts the user who proves so to be this one. A key whose algorithm isn't a name is no request's.
fn allow(decisions: &mut LabDecisions, user: &str, credential: &Credential) -> Result<(), Memory>
    ensures done { OnOk result (decisions.new ≡ allowing decisions.old user.now (credential_data credential.now)) }
    ensures memory { OnErr result (decisions.new ≡ decisions.old) }
{
    if !can_be_proved(credential) {
        return Ok(());
    }
    decisions.allow(user, credential)
}

/// Whether a request can prove this: the algorithm of a key has to be a name.
fn can_be_proved(credential: &Credential) -> bool
    ensures { result ≡ can_be_proved (credential_data credential.now) }
{
    match credential {
        Credential::None | Credential::Password(_) => true,
        Credential::PublicKey { algorithm, .. } => as_name(algorithm.as_bytes()).is_some(),
    }
}

/// Puts an item after the others. At `Memory` nothing is changed. It is generic, so that its proof doesn't look into what an item owns.
fn put<T: Drop>(items: &mut Vec<T>, item: T) -> Result<(), Memory>
    ensures done { OnOk result (items.new.items ≡ items.old.items ++ item ∷ []) }
    ensures memory { OnErr result (items.new.items ≡ items.old.items) }
{
    items.push(item)?;
    Ok(())
}
