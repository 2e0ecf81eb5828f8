//! Configs of what a program has put in.

ghost use Rattle.std.specs.Prelude.{◌≡◌, ◌≢◌, ℕ, IfErr, IfOk, map, string_bytes, true};
ghost use Rattle.std.specs.List.{AllByRecursion};
ghost use Rattle.std.specs.Str.{IsUtf8};
ghost use Rattle.sshcore.specs.ConfigRules.{IsClient, IsServer};
ghost use Rattle.sshcore.specs.ConfigView.{attempt_data, client_data, credential_data, host_key_data, server_data, side_data};
ghost use Rattle.sshcore.specs.SuiteFit.{client_names, server_names};
ghost use Rattle.rezdolin.specs.declared.parts.NoConfig.TheVariants as no;
ghost use Rattle.rezdolin.specs.declared.texts.InputFault.TheVariants as fault;
ghost use Rattle.rezdolin.specs.Inputs.{AreAttemptTexts, AreClientTexts, AreServerTexts, AreSideTexts, attempt_by, client_of, host_key_by, proving_by, reading_by, server_of, side_of, user_algorithms};
ghost use Rattle.rezdolin.specs.Refusals.{IsDeployed, IsFitClient, IsFitServer, IsUnfit, RefusesClient, RefusesServer, are_attempts_placed, are_keys_placed, is_attempt_placed, is_elsewhere, is_held, is_key_placed};

use crate::inputs::{
    AttemptInput, ClientInput, HostKeyInput, IGNORED_LIMIT, KEY_HERE, METHOD_NONE, METHOD_PASSWORD,
    METHOD_PUBLICKEY, METHOD_SIGNED, READING_STRICT, STRICT_YES, ServerInput, SideInput,
};
use crate::public_keys::is_public_key;
use crate::texts::{InputFault, bytes_in, copies_of, names_of, text_in, text_of};
use sshcore::{
    Attempt, ClientConfig, ClientParts, ConfigFault, Credential, HostKey, PeerReading,
    ServerConfig, ServerParts, SideParts,
};
use sshsuite::DeployedSuite;
use sshwire::Memory;
use std::alloc::Global;

/// Why there is no config.
#[derive(Clone, Copy)]
pub(crate) enum NoConfig {
    /// What was put in can't be read.
    Input(InputFault),
    /// The parts are refused.
    Parts(ConfigFault),
    /// The suite lacks something: 13 for an algorithm, 14 for a private key.
    Unfit(u32),
}

/// A client's config, for which the suite has each algorithm that is named.
pub(crate) fn client_config(
    alloc: Global,
    client: &ClientInput<'_>,
) -> Result<ClientConfig, NoConfig>
    ensures config { IfOk result (λ config. (config ≡ client_of client.now) × IsClient config × IsFitClient client.now) }
    ensures refused { IfErr result (λ f. RefusesClient client.now f) }
{
    match client_parts(alloc, client) {
        Ok(parts) => match ClientConfig::new(alloc, parts) {
            Ok(config) => fit_client(config, client.plan),
            Err(fault) => Err(NoConfig::Parts(fault)),
        },
        Err(fault) => Err(NoConfig::Input(fault)),
    }
}

/// A server's config, for which the suite has each algorithm that is named.
pub(crate) fn server_config(
    alloc: Global,
    server: &ServerInput<'_>,
) -> Result<ServerConfig, NoConfig>
    ensures config { IfOk result (λ config. (config ≡ server_of server.now) × IsServer config × IsFitServer server.now) }
    ensures refused { IfErr result (λ f. RefusesServer server.now f) }
{
    match server_parts(alloc, server) {
        Ok(parts) => match ServerConfig::new(alloc, parts) {
            Ok(config) => fit_server(config, server.host_keys),
            Err(fault) => Err(NoConfig::Parts(fault)),
        },
        Err(fault) => Err(NoConfig::Input(fault)),
    }
}

/// The same config, where the suite has all that it names, and the private keys are where their numbers tell.
fn fit_client(config: ClientConfig, plan: &[AttemptInput<'_>]) -> Result<ClientConfig, NoConfig>
    ensures config { IfOk result (λ same. (same ≡ config) × IsDeployed (client_names config) × (are_attempts_placed plan.now ≡ true)) }
    ensures unfit { IfErr result (λ f. (n : ℕ) × (f ≡ no.Unfit n) × IsUnfit (client_names config) (are_attempts_placed plan.now) n) }
{
    let number = match config.judge_names(&DeployedSuite) {
        Ok(()) if are_attempts_placed(plan) => return Ok(config),
        Ok(()) => UNFIT_KEY,
        Err(_) => UNFIT_NAME,
    };
    drop(config);
    Err(NoConfig::Unfit(number))
}

/// The same config, where the suite has all that it names, and the private keys are where their numbers tell.
fn fit_server(config: ServerConfig, keys: &[HostKeyInput<'_>]) -> Result<ServerConfig, NoConfig>
    ensures config { IfOk result (λ same. (same ≡ config) × IsDeployed (server_names config) × (are_keys_placed keys.now ≡ true)) }
    ensures unfit { IfErr result (λ f. (n : ℕ) × (f ≡ no.Unfit n) × IsUnfit (server_names config) (are_keys_placed keys.now) n) }
{
    let number = match config.judge_names(&DeployedSuite) {
        Ok(()) if are_keys_placed(keys) => return Ok(config),
        Ok(()) => UNFIT_KEY,
        Err(_) => UNFIT_NAME,
    };
    drop(config);
    Err(NoConfig::Unfit(number))
}

/// The number of an algorithm that the suite hasn't.
const UNFIT_NAME: u32 = 13;

/// The number of a private key that isn't where its number tells.
const UNFIT_KEY: u32 = 14;

/// Whether the suite holds each private key of a plan, and none of those that are elsewhere.
fn are_attempts_placed(plan: &[AttemptInput<'_>]) -> bool
    ensures { result ≡ are_attempts_placed plan.now }
{
    plan.iter().all(|attempt| is_attempt_placed(attempt))
}

/// Whether it does so of one.
fn is_attempt_placed(attempt: &AttemptInput<'_>) -> bool
    ensures { result ≡ is_attempt_placed attempt.now }
{
    match attempt.method {
        METHOD_PUBLICKEY => is_held(attempt.algorithm, attempt.secret),
        METHOD_SIGNED => is_elsewhere(attempt.algorithm, attempt.secret),
        _ => true,
    }
}

/// The same of host keys.
fn are_keys_placed(keys: &[HostKeyInput<'_>]) -> bool
    ensures { result ≡ are_keys_placed keys.now }
{
    keys.iter().all(|key| is_key_placed(key))
}

/// Whether it does so of one.
fn is_key_placed(key: &HostKeyInput<'_>) -> bool
    ensures { result ≡ is_key_placed key.now }
{
    if key.place == KEY_HERE {
        is_held(key.algorithm, key.key)
    } else {
        is_elsewhere(key.algorithm, key.key)
    }
}

/// Whether these bytes are a public key, and no private key that the suite holds.
fn is_elsewhere(algorithm: &[u8], key: &[u8]) -> bool
    ensures { result ≡ is_elsewhere algorithm.now key.now }
{
    is_public_key(key) && !is_held(algorithm, key)
}

/// Whether the suite holds this private key of this algorithm: 32 bytes of ssh-ed25519.
fn is_held(algorithm: &[u8], private_key: &[u8]) -> bool
    ensures { result ≡ is_held algorithm.now private_key.now }
{
    algorithm == b"ssh-ed25519".as_slice() && private_key.len() == 32
}

/// A client's parts.
fn client_parts(alloc: Global, client: &ClientInput<'_>) -> Result<ClientParts, InputFault>
    ensures parts { IfOk result (λ parts. client_data parts ≡ client_of client.now) }
    ensures unreadable { IfErr result (λ f. f ≡ fault.Unreadable → AreClientTexts client.now → ⊥) }
{
    let side = side_parts(alloc, &client.side)?;
    let server_host_key_algorithms = names_of(alloc, client.server_host_key_algorithms)?;
    let plan = plan_of(alloc, client.plan)?;
    Ok(ClientParts {
        side,
        server_host_key_algorithms,
        guess: client.guess == 1,
        plan,
    })
}

/// A client's plan.
fn plan_of(alloc: Global, attempts: &[AttemptInput<'_>]) -> Result<Vec<Attempt>, InputFault>
    ensures plan { IfOk result (λ plan. map attempt_data plan.items ≡ map attempt_by attempts.now) }
    ensures unreadable { IfErr result (λ f. f ≡ fault.Unreadable → AllByRecursion AreAttemptTexts attempts.now → ⊥) }
{
    let mut plan = Vec::new(alloc);
    for attempt in attempts {
        plan.push(attempt_data(alloc, attempt)?)?;
    }
    Ok(plan)
}

/// One attempt.
fn attempt_data(alloc: Global, attempt: &AttemptInput<'_>) -> Result<Attempt, InputFault>
    ensures attempt { IfOk result (λ made. attempt_data made ≡ attempt_by attempt.now) }
    ensures unreadable { IfErr result (λ f. f ≡ fault.Unreadable → AreAttemptTexts attempt.now → ⊥) }
{
    let user = text_of(alloc, attempt.user)?;
    let service = text_of(alloc, attempt.service)?;
    let credential = credential_of(alloc, attempt)?;
    Ok(Attempt {
        user,
        service,
        credential,
    })
}

/// How an attempt proves its user.
fn credential_of(alloc: Global, attempt: &AttemptInput<'_>) -> Result<Credential, InputFault>
    ensures credential { IfOk result (λ credential. credential_data credential ≡ proving_by attempt.now) }
    ensures unreadable { IfErr result (λ f. f ≡ fault.Unreadable → AreAttemptTexts attempt.now → ⊥) }
{
    match attempt.method {
        METHOD_NONE => Ok(Credential::None),
        METHOD_PASSWORD => Ok(Credential::Password(Vec::from_slice(alloc, attempt.secret)?)),
        METHOD_PUBLICKEY | METHOD_SIGNED => {
            let algorithm = text_of(alloc, attempt.algorithm)?;
            Ok(Credential::PublicKey {
                algorithm,
                private_key: Vec::from_slice(alloc, attempt.secret)?,
                ask: attempt.ask == 1,
            })
        }
        _ => Err(InputFault::Unreadable),
    }
}

/// A server's parts.
fn server_parts(alloc: Global, server: &ServerInput<'_>) -> Result<ServerParts, InputFault>
    ensures parts { IfOk result (λ parts. server_data parts ≡ server_of server.now) }
    ensures unreadable { IfErr result (λ f. f ≡ fault.Unreadable → AreServerTexts server.now → ⊥) }
{
    let side = side_parts(alloc, &server.side)?;
    let host_keys = host_keys_of(alloc, server.host_keys)?;
    let services = names_of(alloc, server.services)?;
    let methods = names_of(alloc, server.methods)?;
    let required = names_of(alloc, server.required)?;
    let signature_algorithms = user_algorithms(alloc)?;
    let banner = bytes_in(alloc, server.banner)?;
    let notice_lines = copies_of(alloc, server.notice_lines)?;
    Ok(ServerParts {
        side,
        host_keys,
        services,
        methods,
        required,
        signature_algorithms,
        tries: server.tries,
        banner,
        notice_lines,
    })
}

/// The algorithms of users' keys that a server tells.
fn user_algorithms(alloc: Global) -> Result<Vec<String>, Memory>
    ensures { IfOk result (λ names. map string_bytes names.items ≡ user_algorithms) }
{
    let mut names = Vec::new(alloc);
    names.push(String::from_str(alloc, "ssh-ed25519")?)?;
    names.push(String::from_str(alloc, "rsa-sha2-512")?)?;
    names.push(String::from_str(alloc, "rsa-sha2-256")?)?;
    Ok(names)
}

/// A server's host keys.
fn host_keys_of(alloc: Global, keys: &[HostKeyInput<'_>]) -> Result<Vec<HostKey>, InputFault>
    ensures keys { IfOk result (λ made. map host_key_data made.items ≡ map host_key_by keys.now) }
    ensures unreadable { IfErr result (λ f. f ≡ fault.Unreadable → AllByRecursion (λ (key : HostKeyInput). IsUtf8 key.algorithm.now) keys.now → ⊥) }
{
    let mut host_keys = Vec::new(alloc);
    for key in keys {
        host_keys.push(host_key_data(alloc, key)?)?;
    }
    Ok(host_keys)
}

/// One host key.
fn host_key_data(alloc: Global, key: &HostKeyInput<'_>) -> Result<HostKey, InputFault>
    ensures key { IfOk result (λ made. host_key_data made ≡ host_key_by key.now) }
    ensures unreadable { IfErr result (λ f. f ≡ fault.Unreadable → IsUtf8 key.now.algorithm.now → ⊥) }
{
    let algorithm = text_of(alloc, key.algorithm)?;
    Ok(HostKey {
        algorithm,
        private_key: Vec::from_slice(alloc, key.key)?,
    })
}

/// What both sides have.
fn side_parts(alloc: Global, side: &SideInput<'_>) -> Result<SideParts, InputFault>
    ensures side { IfOk result (λ parts. side_data parts ≡ side_of side.now) }
    ensures unreadable { IfErr result (λ f. f ≡ fault.Unreadable → AreSideTexts side.now → ⊥) }
{
    let softwareversion = text_of(alloc, side.softwareversion)?;
    let comments = text_in(alloc, side.comments)?;
    let kex_algorithms = names_of(alloc, side.kex_algorithms)?;
    let encryption_client_to_server = names_of(alloc, side.encryption_client_to_server)?;
    let encryption_server_to_client = names_of(alloc, side.encryption_server_to_client)?;
    let mac_client_to_server = names_of(alloc, side.mac_client_to_server)?;
    let mac_server_to_client = names_of(alloc, side.mac_server_to_client)?;
    let draws = drawn_of(alloc, side)?;
    Ok(SideParts {
        softwareversion,
        comments,
        reading: reading_by(side.reading),
        kex_algorithms,
        encryption_client_to_server,
        encryption_server_to_client,
        mac_client_to_server,
        mac_server_to_client,
        strict: side.strict == STRICT_YES,
        cookie: draws.cookie,
        exchange_random: draws.exchange_random,
        padding_seed: draws.padding_seed,
        ignored_limit: Some(IGNORED_LIMIT),
    })
}

/// By which grammar the peer's version line is read, by its number.
fn reading_by(number: u32) -> PeerReading
    ensures { result ≡ reading_by number }
{
    if number == READING_STRICT {
        PeerReading::Strict
    } else {
        PeerReading::Deployed
    }
}

/// What a side has drawn, of whatever lengths.
#[derive(Drop)]
struct Drawn {
    cookie: Vec<u8>,
    exchange_random: Vec<u8>,
    padding_seed: Vec<u8>,
}

/// Copies of what a side has drawn.
fn drawn_of(alloc: Global, side: &SideInput<'_>) -> Result<Drawn, Memory>
    ensures cookie { IfOk result (λ drawn. drawn.cookie.items ≡ side.now.cookie.now) }
    ensures random { IfOk result (λ drawn. drawn.exchange_random.items ≡ side.now.exchange_random.now) }
    ensures seed { IfOk result (λ drawn. drawn.padding_seed.items ≡ side.now.padding_seed.now) }
{
    let cookie = Vec::from_slice(alloc, side.cookie)?;
    let exchange_random = Vec::from_slice(alloc, side.exchange_random)?;
    let padding_seed = Vec::from_slice(alloc, side.padding_seed)?;
    Ok(Drawn {
        cookie,
        exchange_random,
        padding_seed,
    })
}
