//! What a line of a scenario says.

ghost use Rattle.std.specs.Prelude.{◌≡◌, ◌==◌, Err, IfOk, None, Some, length, option_map};
ghost use Rattle.std.specs.List.{list_all, list_any};
ghost use Rattle.sshlab.specs.Scenarios.{is_line_byte, is_text, statement, statement_by, statement_in_fields, statement_of_client, statement_of_server, states_nothing};
ghost use Rattle.sshlab.specs.ScenarioView.{statement_data, texts};
ghost use Rattle.sshlab.specs.declared.scenario_fields.LineFault.TheVariants as fault;

use crate::line_words::{attempted_by, client_setting, credential_of, server_setting, step_by};
use crate::scenario_fields::{LineFault, bytes_of, number_of, parts_of, text_of};
use sshcore::{Attempt, Credential, HostKey};
use sshworld::{Delivery, Side};
use std::alloc::Global;

/// The most bytes of a line, without its LF.
const LINE_LIMIT: usize = 20000;

/// The most rounds of one `settle`.
pub(crate) const ROUND_LIMIT: u32 = 1000;

/// What happens in a world, by one line of a scenario.
#[derive(Clone, Copy, Debug, PartialEq, Eq)]
pub enum Step {
    /// A delivery to one side.
    Deliver(Delivery),
    /// So many rounds, at most 1000: in each all waiting bytes go to the server, then all waiting
    /// bytes to the client.
    Settle(u32),
}

/// What a line says that is neither empty nor a comment.
#[derive(Drop)]
pub(crate) enum Statement {
    /// A setting of both sides' kind, for one side.
    Either(Side, SideSetting),
    Client(ClientSetting),
    Server(ServerSetting),
    /// An attempt of the client's plan.
    Try(Attempt),
    /// A host key of the server.
    HostKey(HostKey),
    /// A notice line of the server.
    Notice(Vec<u8>),
    /// Host keys of this algorithm aren't trusted.
    Distrust(String),
    /// The user is accepted who proves so to be this one.
    Allow {
        user: String,
        credential: Credential,
    },
    /// The request of this number is never accepted.
    Deny(u32),
    Step(Step),
}

/// A setting that either side has, which stands at most once for each.
#[derive(Drop)]
pub(crate) enum SideSetting {
    Version(String),
    KexAlgorithms(Vec<String>),
    EncryptionClientToServer(Vec<String>),
    EncryptionServerToClient(Vec<String>),
    MacClientToServer(Vec<String>),
    MacServerToClient(Vec<String>),
    Strict(bool),
    Cookie(Vec<u8>),
    ExchangeRandom(Vec<u8>),
    PaddingSeed(Vec<u8>),
}

/// A setting of the client alone, which stands at most once.
#[derive(Drop)]
pub(crate) enum ClientSetting {
    HostKeyAlgorithms(Vec<String>),
    Guess(bool),
}

/// A setting of the server alone, which stands at most once.
#[derive(Drop)]
pub(crate) enum ServerSetting {
    Services(Vec<String>),
    Methods(Vec<String>),
    Required(Vec<String>),
    Tries(u32),
    Banner(Vec<u8>),
}

/// What a line without its LF says, and nothing if it is empty or a comment.
///
/// A comment begins with `#`. A line has at most 20000 bytes from 32 to 126, also where it is a comment.
pub(crate) fn statement_of(alloc: Global, line: &[u8]) -> Result<Option<Statement>, LineFault>
    ensures value { IfOk result (λ stated. statement line.now ≡ Some (option_map statement_data stated)) }
    ensures form { result ≡ Err fault.Form → statement line.now ≡ None }
{
    if !is_text(line) {
        return Err(LineFault::Form);
    }
    if states_nothing(line) {
        return Ok(None);
    }
    match str::from_utf8(line) {
        Ok(line) => Ok(Some(statement_in_fields(alloc, line)?)),
        Err(_) => Err(LineFault::Form),
    }
}

/// Whether a line is short enough, and has no byte but those from 32 to 126.
fn is_text(line: &[u8]) -> bool
    ensures { result ≡ is_text line.now }
{
    line.len() <= LINE_LIMIT && are_line_bytes(line)
}

fn are_line_bytes(bytes: &[u8]) -> bool
    ensures { result ≡ list_all is_line_byte bytes.now }
{
    bytes.iter().all(|byte| is_line_byte(*byte))
}

/// Whether a line may have the byte.
fn is_line_byte(byte: u8) -> bool
    ensures { result ≡ is_line_byte byte }
{
    (32..=126).contains(&byte)
}

/// Whether a line is empty or a comment.
fn states_nothing(line: &[u8]) -> bool
    ensures { result ≡ states_nothing line.now }
{
    line.is_empty() || line[0] == b'#'
}

/// What is stated by the fields between the blanks of a line.
fn statement_in_fields(alloc: Global, line: &str) -> Result<Statement, LineFault>
    ensures value { IfOk result (λ stated. statement_in_fields line.now ≡ Some (statement_data stated)) }
    ensures form { result ≡ Err fault.Form → statement_in_fields line.now ≡ None }
{
    let fields = parts_of(alloc, line, ' ')?;
    if has_empty(&fields) {
        return Err(LineFault::Form);
    }
    statement_by(alloc, &fields)
}

/// Whether a field is empty.
fn has_empty(fields: &[&str]) -> bool
    ensures { result ≡ list_any (λ field. length field.now == 0) fields.now }
{
    fields.iter().any(|field| field.is_empty())
}

/// What the fields of a line say.
#[tactic(auto, unfolding(crate::specs::Scenarios::statement_by))]
fn statement_by(alloc: Global, fields: &[&str]) -> Result<Statement, LineFault>
    ensures value { IfOk result (λ stated. statement_by (texts fields.now) ≡ Some (statement_data stated)) }
    ensures form { result ≡ Err fault.Form → statement_by (texts fields.now) ≡ None }
{
    match *fields {
        ["client", ref rest @ ..] => statement_of_client(alloc, rest),
        ["server", ref rest @ ..] => statement_of_server(alloc, rest),
        ["distrust", algorithm] => Ok(Statement::Distrust(text_of(alloc, algorithm)?)),
        ["allow", user, ref proof @ ..] => Ok(Statement::Allow {
            user: text_of(alloc, user)?,
            credential: credential_of(alloc, proof)?,
        }),
        ["deny", number] => Ok(Statement::Deny(number_of(number)?)),
        _ => Ok(Statement::Step(step_by(fields)?)),
    }
}

/// What is stated by the fields after `client`.
#[tactic(auto, unfolding(crate::specs::Scenarios::statement_of_client))]
fn statement_of_client(alloc: Global, fields: &[&str]) -> Result<Statement, LineFault>
    ensures value { IfOk result (λ stated. statement_of_client (texts fields.now) ≡ Some (statement_data stated)) }
    ensures form { result ≡ Err fault.Form → statement_of_client (texts fields.now) ≡ None }
{
    match *fields {
        ["try", user, service, ref proof @ ..] => Ok(Statement::Try(Attempt {
            user: text_of(alloc, user)?,
            service: text_of(alloc, service)?,
            credential: attempted_by(alloc, proof)?,
        })),
        [name, value] => client_setting(alloc, name, value),
        _ => Err(LineFault::Form),
    }
}

/// What is stated by the fields after `server`.
#[tactic(auto, unfolding(crate::specs::Scenarios::statement_of_server))]
fn statement_of_server(alloc: Global, fields: &[&str]) -> Result<Statement, LineFault>
    ensures value { IfOk result (λ stated. statement_of_server (texts fields.now) ≡ Some (statement_data stated)) }
    ensures form { result ≡ Err fault.Form → statement_of_server (texts fields.now) ≡ None }
{
    match *fields {
        ["hostkey", algorithm, private_key] => Ok(Statement::HostKey(HostKey {
            algorithm: text_of(alloc, algorithm)?,
            private_key: bytes_of(alloc, private_key)?,
        })),
        ["notice", line] => Ok(Statement::Notice(bytes_of(alloc, line)?)),
        [name, value] => server_setting(alloc, name, value),
        _ => Err(LineFault::Form),
    }
}
