//! The settings of a scenario's sides.

ghost use Rattle.std.specs.Prelude.{◌≡◌};
ghost use Rattle.sshcore.specs.ConfigView.{client_data, server_data, side_data};
ghost use Rattle.sshlab.specs.ScenarioSettings.{client_setting, server_setting, setting_in, side_setting, with_client, with_server, with_side};
ghost use Rattle.sshlab.specs.ScenarioView.{client_setting_data, server_setting_data, side_setting_data, statement_data};

use crate::scenario_line::{ClientSetting, ServerSetting, SideSetting, Statement};
use sshcore::{ClientParts, ServerParts, SideParts};
use sshworld::Side;

/// A setting that stands at most once for its side.
#[derive(Clone, Copy, Debug, PartialEq, Eq)]
pub(crate) enum Setting {
    Version,
    KexAlgorithms,
    EncryptionClientToServer,
    EncryptionServerToClient,
    MacClientToServer,
    MacServerToClient,
    Strict,
    Cookie,
    ExchangeRandom,
    PaddingSeed,
    HostKeyAlgorithms,
    Guess,
    Services,
    Methods,
    Required,
    Tries,
    Banner,
}

/// The setting that a statement makes, with its side, if it makes one.
pub(crate) fn setting_of(statement: &Statement) -> Option<(Side, Setting)>
    ensures { result ≡ setting_in (statement_data statement.now) }
{
    match statement {
        Statement::Either(side, setting) => Some((*side, side_setting(setting))),
        Statement::Client(setting) => Some((Side::Client, client_setting(setting))),
        Statement::Server(setting) => Some((Side::Server, server_setting(setting))),
        _ => None,
    }
}

fn side_setting(setting: &SideSetting) -> Setting
    ensures { result ≡ side_setting (side_setting_data setting.now) }
{
    match setting {
        SideSetting::Version(_) => Setting::Version,
        SideSetting::KexAlgorithms(_) => Setting::KexAlgorithms,
        SideSetting::EncryptionClientToServer(_) => Setting::EncryptionClientToServer,
        SideSetting::EncryptionServerToClient(_) => Setting::EncryptionServerToClient,
        SideSetting::MacClientToServer(_) => Setting::MacClientToServer,
        SideSetting::MacServerToClient(_) => Setting::MacServerToClient,
        SideSetting::Strict(_) => Setting::Strict,
        SideSetting::Cookie(_) => Setting::Cookie,
        SideSetting::ExchangeRandom(_) => Setting::ExchangeRandom,
        SideSetting::PaddingSeed(_) => Setting::PaddingSeed,
    }
}

fn client_setting(setting: &ClientSetting) -> Setting
    ensures { result ≡ client_setting (client_setting_data setting.now) }
{
    match setting {
        ClientSetting::HostKeyAlgorithms(_) => Setting::HostKeyAlgorithms,
        ClientSetting::Guess(_) => Setting::Guess,
    }
}

fn server_setting(setting: &ServerSetting) -> Setting
    ensures { result ≡ server_setting (server_setting_data setting.now) }
{
    match setting {
        ServerSetting::Services(_) => Setting::Services,
        ServerSetting::Methods(_) => Setting::Methods,
        ServerSetting::Required(_) => Setting::Required,
        ServerSetting::Tries(_) => Setting::Tries,
        ServerSetting::Banner(_) => Setting::Banner,
    }
}

/// Puts the setting in the place of what stood there.
pub(crate) fn set_side(parts: &mut SideParts, setting: SideSetting)
    ensures { side_data parts.new ≡ with_side (side_data parts.old) (side_setting_data setting) }
{
    match setting {
        SideSetting::Version(text) => parts.softwareversion = text,
        SideSetting::KexAlgorithms(names) => parts.kex_algorithms = names,
        SideSetting::EncryptionClientToServer(names) => parts.encryption_client_to_server = names,
        SideSetting::EncryptionServerToClient(names) => parts.encryption_server_to_client = names,
        SideSetting::MacClientToServer(names) => parts.mac_client_to_server = names,
        SideSetting::MacServerToClient(names) => parts.mac_server_to_client = names,
        SideSetting::Strict(strict) => parts.strict = strict,
        SideSetting::Cookie(bytes) => parts.cookie = bytes,
        SideSetting::ExchangeRandom(bytes) => parts.exchange_random = bytes,
        SideSetting::PaddingSeed(bytes) => parts.padding_seed = bytes,
    }
}

/// Puts the client's setting in the place of what stood there.
pub(crate) fn set_client(parts: &mut ClientParts, setting: ClientSetting)
    ensures { client_data parts.new ≡ with_client (client_data parts.old) (client_setting_data setting) }
{
    match setting {
        ClientSetting::HostKeyAlgorithms(names) => parts.server_host_key_algorithms = names,
        ClientSetting::Guess(guess) => parts.guess = guess,
    }
}

/// Puts the server's setting in the place of what stood there.
pub(crate) fn set_server(parts: &mut ServerParts, setting: ServerSetting)
    ensures { server_data parts.new ≡ with_server (server_data parts.old) (server_setting_data setting) }
{
    match setting {
        ServerSetting::Services(names) => parts.services = names,
        ServerSetting::Methods(names) => parts.methods = names,
        ServerSetting::Required(names) => parts.required = names,
        ServerSetting::Tries(tries) => parts.tries = tries,
        ServerSetting::Banner(text) => parts.banner = Some(text),
    }
}
