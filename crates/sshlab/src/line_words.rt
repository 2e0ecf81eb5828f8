//! What the words of a scenario's line say.

ghost use Rattle.std.specs.Prelude.{◌≡◌, Err, IfOk, None, Some};
ghost use Rattle.sshcore.specs.ConfigView.{credential_data};
ghost use Rattle.sshlab.specs.ScenarioFields.{side_of};
ghost use Rattle.sshlab.specs.Scenarios.{attempting, client_value, proving, server_value, side_value, step};
ghost use Rattle.sshlab.specs.ScenarioView.{side_setting_data, statement_data, texts};
ghost use Rattle.sshlab.specs.declared.scenario_fields.LineFault.TheVariants as fault;

use crate::scenario_fields::{LineFault, bytes_of, flag_of, list_of, number_of, text_of};
use crate::scenario_line::{
    ClientSetting, ROUND_LIMIT, ServerSetting, SideSetting, Statement, Step,
};
use sshcore::Credential;
use sshworld::{Delivery, Side};
use std::alloc::Global;

/// What happens in a world, by the fields of a line.
#[tactic(auto, unfolding(crate::specs::Scenarios::step))]
pub(crate) fn step_by(fields: &[&str]) -> Result<Step, LineFault>
    ensures value { IfOk result (λ done. step (texts fields.now) ≡ Some done) }
    ensures form { result ≡ Err fault.Form → step (texts fields.now) ≡ None }
{
    match *fields {
        ["deliver", side, count] => Ok(Step::Deliver(Delivery {
            to: side_of(side)?,
            count: number_of(count)?,
        })),
        ["settle", rounds] => {
            let rounds = number_of(rounds)?;
            if rounds > ROUND_LIMIT {
                return Err(LineFault::Form);
            }
            Ok(Step::Settle(rounds))
        }
        _ => Err(LineFault::Form),
    }
}

/// `client` or `server`.
#[tactic(auto, unfolding(crate::specs::ScenarioFields::side_of))]
fn side_of(field: &str) -> Result<Side, LineFault>
    ensures value { IfOk result (λ side. side_of field.now ≡ Some side) }
    ensures form { result ≡ Err fault.Form → side_of field.now ≡ None }
{
    match field {
        "client" => Ok(Side::Client),
        "server" => Ok(Side::Server),
        _ => Err(LineFault::Form),
    }
}

/// How a user is proved by these fields: `none`, `password HEX` or `publickey ALG HEX`.
#[tactic(auto, unfolding(crate::specs::Scenarios::proving))]
pub(crate) fn credential_of(alloc: Global, fields: &[&str]) -> Result<Credential, LineFault>
    ensures value { IfOk result (λ credential. proving (texts fields.now) ≡ Some (credential_data credential)) }
    ensures form { result ≡ Err fault.Form → proving (texts fields.now) ≡ None }
{
    match *fields {
        ["none"] => Ok(Credential::None),
        ["password", password] => Ok(Credential::Password(bytes_of(alloc, password)?)),
        ["publickey", algorithm, private_key] => Ok(Credential::PublicKey {
            algorithm: text_of(alloc, algorithm)?,
            private_key: bytes_of(alloc, private_key)?,
            ask: false,
        }),
        _ => Err(LineFault::Form),
    }
}

/// How an attempt proves its user by these fields: as above, or `query ALG HEX`, by a key about which the
/// server is asked first.
#[tactic(auto, unfolding(crate::specs::Scenarios::attempting))]
pub(crate) fn attempted_by(alloc: Global, fields: &[&str]) -> Result<Credential, LineFault>
    ensures value { IfOk result (λ credential. attempting (texts fields.now) ≡ Some (credential_data credential)) }
    ensures form { result ≡ Err fault.Form → attempting (texts fields.now) ≡ None }
{
    match *fields {
        ["query", algorithm, private_key] => Ok(Credential::PublicKey {
            algorithm: text_of(alloc, algorithm)?,
            private_key: bytes_of(alloc, private_key)?,
            ask: true,
        }),
        _ => credential_of(alloc, fields),
    }
}

/// The setting of the client that has this name and value.
#[tactic(auto, unfolding(crate::specs::Scenarios::client_value))]
pub(crate) fn client_setting(alloc: Global, name: &str, value: &str) -> Result<Statement, LineFault>
    ensures value { IfOk result (λ stated. client_value name.now value.now ≡ Some (statement_data stated)) }
    ensures form { result ≡ Err fault.Form → client_value name.now value.now ≡ None }
{
    match name {
        "hostkey" => Ok(Statement::Client(ClientSetting::HostKeyAlgorithms(list_of(
            alloc, value,
        )?))),
        "guess" => Ok(Statement::Client(ClientSetting::Guess(flag_of(value)?))),
        _ => Ok(Statement::Either(Side::Client, side_setting(alloc, name, value)?)),
    }
}

/// The setting of the server that has this name and value.
#[tactic(auto, unfolding(crate::specs::Scenarios::server_value))]
pub(crate) fn server_setting(alloc: Global, name: &str, value: &str) -> Result<Statement, LineFault>
    ensures value { IfOk result (λ stated. server_value name.now value.now ≡ Some (statement_data stated)) }
    ensures form { result ≡ Err fault.Form → server_value name.now value.now ≡ None }
{
    match name {
        "services" => Ok(Statement::Server(ServerSetting::Services(list_of(alloc, value)?))),
        "methods" => Ok(Statement::Server(ServerSetting::Methods(list_of(alloc, value)?))),
        "required" => Ok(Statement::Server(ServerSetting::Required(list_of(alloc, value)?))),
        "tries" => Ok(Statement::Server(ServerSetting::Tries(number_of(value)?))),
        "banner" => Ok(Statement::Server(ServerSetting::Banner(bytes_of(alloc, value)?))),
        _ => Ok(Statement::Either(Side::Server, side_setting(alloc, name, value)?)),
    }
}

/// The setting of either side that has this name and value.
#[tactic(auto, unfolding(crate::specs::Scenarios::side_value))]
fn side_setting(alloc: Global, name: &str, value: &str) -> Result<SideSetting, LineFault>
    ensures value { IfOk result (λ set. side_value name.now value.now ≡ Some (side_setting_data set)) }
    ensures form { result ≡ Err fault.Form → side_value name.now value.now ≡ None }
{
    match name {
        "version" => Ok(SideSetting::Version(text_of(alloc, value)?)),
        "kex" => Ok(SideSetting::KexAlgorithms(list_of(alloc, value)?)),
        "cipher_cs" => Ok(SideSetting::EncryptionClientToServer(list_of(alloc, value)?)),
        "cipher_sc" => Ok(SideSetting::EncryptionServerToClient(list_of(alloc, value)?)),
        "mac_cs" => Ok(SideSetting::MacClientToServer(list_of(alloc, value)?)),
        "mac_sc" => Ok(SideSetting::MacServerToClient(list_of(alloc, value)?)),
        "strict" => Ok(SideSetting::Strict(flag_of(value)?)),
        "cookie" => Ok(SideSetting::Cookie(bytes_of(alloc, value)?)),
        "random" => Ok(SideSetting::ExchangeRandom(bytes_of(alloc, value)?)),
        "seed" => Ok(SideSetting::PaddingSeed(bytes_of(alloc, value)?)),
        _ => Err(LineFault::Form),
    }
}
