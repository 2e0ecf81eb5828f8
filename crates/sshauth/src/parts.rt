//! What the configs are made of.

use crate::authorized::{HostKeys, authorized_keys, known_hosts};
use crate::fault::Fault;
use crate::host_keys::ALL_ALGORITHMS;
use crate::own_key::{OwnKey, own_key};
use crate::settings::Settings;
use crate::trust::Trust;
use sshcore::{
    Attempt, ClientConfig, ClientParts, ConfigFault, Credential, Draws, HostKey, PASSWORD_LIMIT,
    ServerConfig, ServerParts, SideParts, SuiteFault,
};
use sshidentity::{bytes_of, first_line};
use sshprogram::random;
use sshsuite::DeployedSuite;
use std::alloc::Global;

/// The one service (RFC 4254).
const SERVICE: &str = "ssh-connection";

/// The algorithm of private keys.
pub(crate) const ALGORITHM: &str = "ssh-ed25519";

/// How many bytes of packets that say nothing are taken before the end is F17: 1 MiB.
const IGNORED_LIMIT: u32 = 1 << 20;

/// A client's config that lists these host key algorithms.
pub(crate) fn client_config(
    rt: &HostRuntime,
    settings: &Settings<'_>,
    host_key_algorithms: &str,
) -> Result<Box<ClientConfig>, Fault> {
    let parts = client_parts(rt, settings, host_key_algorithms)?;
    let parts = Box::new(rt.alloc(), parts)?;
    let config = Box::new(
        rt.alloc(),
        ClientConfig::new(rt.alloc(), Box::into_inner(parts))?,
    )?;
    judged(match settings.agent {
        None => config.judge(&DeployedSuite),
        Some(_) => config.judge_names(&DeployedSuite),
    })?;
    Ok(config)
}

/// A server's config.
pub(crate) fn server_config(
    rt: &HostRuntime,
    settings: &Settings<'_>,
) -> Result<Box<ServerConfig>, Fault> {
    let parts = Box::new(rt.alloc(), server_parts(rt, settings)?)?;
    let config = Box::new(
        rt.alloc(),
        ServerConfig::new(rt.alloc(), Box::into_inner(parts))?,
    )?;
    judged(match settings.agent {
        None => config.judge(&DeployedSuite),
        Some(_) => config.judge_names(&DeployedSuite),
    })?;
    Ok(config)
}

/// That the suite has all that a config names, and holds its private keys, where there is no agent.
fn judged(fit: Result<(), SuiteFault<'_>>) -> Result<(), Fault> {
    match fit {
        Ok(()) => Ok(()),
        Err(fault) => Err(Fault::Suite(fault.code())),
    }
}

/// Whom a client trusts: the host of this name in its file.
pub(crate) fn client_trust(rt: &HostRuntime, settings: &Settings<'_>) -> Result<Trust, Fault> {
    let (Some(path), Some(host)) = (settings.known_hosts, settings.host) else {
        return Err(Fault::Words);
    };
    let HostKeys {
        keys,
        revoked,
        known,
        ..
    } = known_hosts(rt, "known-hosts", path, host)?;
    Ok(Trust {
        keys,
        known,
        revoked,
        user: String::from_str(rt.alloc(), settings.user)?,
        password: None,
    })
}

/// Whom a server trusts: the keys of its file, and the password.
pub(crate) fn server_trust(rt: &HostRuntime, settings: &Settings<'_>) -> Result<Trust, Fault> {
    let keys = match settings.authorized_keys {
        Some(path) => authorized_keys(rt, "authorized-keys", path)?,
        None => Vec::new(rt.alloc()),
    };
    let user = String::from_str(rt.alloc(), settings.user)?;
    Ok(Trust {
        keys,
        known: None,
        revoked: Vec::new(rt.alloc()),
        user,
        password: password_of(rt, settings)?,
    })
}

/// The password, where a file has one. A longer one than any that is accepted is refused.
fn password_of(rt: &HostRuntime, settings: &Settings<'_>) -> Result<Option<Vec<u8>>, Fault> {
    let Some(path) = settings.password_file else {
        return Ok(None);
    };
    let password = first_line(rt, "password-file", path)?;
    if password.len() > PASSWORD_LIMIT {
        return Err(Fault::Config(ConfigFault::Secret));
    }
    Ok(Some(password))
}

/// A client's parts.
fn client_parts(
    rt: &HostRuntime,
    settings: &Settings<'_>,
    host_key_algorithms: &str,
) -> Result<ClientParts, Fault> {
    let alloc = rt.alloc();
    let server_host_key_algorithms = names_of(alloc, host_key_algorithms)?;
    let plan = plan_of(rt, settings)?;
    Ok(ClientParts {
        side: side_of(alloc, settings)?,
        server_host_key_algorithms,
        guess: settings.guess,
        plan,
    })
}

/// A client's attempts: by its key, about which it asks first, and by its password; without both, by no proof.
fn plan_of(rt: &HostRuntime, settings: &Settings<'_>) -> Result<Vec<Attempt>, Fault> {
    let mut plan = Vec::new(rt.alloc());
    if let Some(path) = settings.identity {
        let credential = by_key(own_key(rt, settings, "identity", path)?);
        plan.push(attempt_of(rt.alloc(), settings, credential)?)?;
    }
    if let Some(password) = password_of(rt, settings)? {
        plan.push(attempt_of(rt.alloc(), settings, Credential::Password(password))?)?;
    }
    if plan.is_empty() {
        plan.push(attempt_of(rt.alloc(), settings, Credential::None)?)?;
    }
    Ok(plan)
}

/// A key by which a client proves its user, after the server was asked about it.
fn by_key(key: OwnKey) -> Credential {
    Credential::PublicKey {
        algorithm: key.algorithm,
        private_key: key.bytes,
        ask: true,
    }
}

/// An attempt by this credential.
fn attempt_of(
    alloc: Global,
    settings: &Settings<'_>,
    credential: Credential,
) -> Result<Attempt, Fault> {
    let user = String::from_str(alloc, settings.user)?;
    let service = String::from_str(alloc, SERVICE)?;
    Ok(Attempt {
        user,
        service,
        credential,
    })
}

/// A server's parts.
fn server_parts(rt: &HostRuntime, settings: &Settings<'_>) -> Result<ServerParts, Fault> {
    let alloc = rt.alloc();
    let host_keys = host_keys_of(rt, settings)?;
    let banner = banner_of(rt, settings)?;
    let (services, methods) = (
        names_of(alloc, SERVICE)?,
        names_of(alloc, settings.methods)?,
    );
    let required = match settings.required {
        Some(names) => names_of(alloc, names)?,
        None => Vec::new(alloc),
    };
    Ok(ServerParts {
        side: side_of(alloc, settings)?,
        host_keys,
        services,
        methods,
        required,
        signature_algorithms: names_of(alloc, ALL_ALGORITHMS)?,
        tries: settings.tries,
        banner,
        notice_lines: Vec::new(alloc),
    })
}

/// A server's one host key.
fn host_keys_of(rt: &HostRuntime, settings: &Settings<'_>) -> Result<Vec<HostKey>, Fault> {
    let Some(path) = settings.host_key else {
        return Err(Fault::Words);
    };
    let key = own_key(rt, settings, "host-key", path)?;
    let mut keys = Vec::new(rt.alloc());
    keys.push(HostKey {
        algorithm: key.algorithm,
        private_key: key.bytes,
    })?;
    Ok(keys)
}

/// What a server sends as BANNER, where a file has it.
fn banner_of(rt: &HostRuntime, settings: &Settings<'_>) -> Result<Option<Vec<u8>>, Fault> {
    match settings.banner {
        Some(path) => Ok(Some(bytes_of(rt, "banner", path)?)),
        None => Ok(None),
    }
}

/// What both sides have. Its own draws are zeros, since each connection has fresh ones.
fn side_of(alloc: Global, settings: &Settings<'_>) -> Result<SideParts, Fault> {
    let softwareversion = String::from_str(alloc, "rezdolin")?;
    let kex_algorithms = names_of(alloc, settings.kex)?;
    let encryption_client_to_server = names_of(alloc, settings.cipher)?;
    let encryption_server_to_client = names_of(alloc, settings.cipher)?;
    let mac_client_to_server = names_of(alloc, settings.mac)?;
    let mac_server_to_client = names_of(alloc, settings.mac)?;
    let cookie = Vec::from_slice(alloc, &[0; 16])?;
    let exchange_random = Vec::from_slice(alloc, &[0; 32])?;
    let padding_seed = Vec::from_slice(alloc, &[0; 32])?;
    Ok(SideParts {
        softwareversion,
        comments: None,
        reading: settings.reading,
        kex_algorithms,
        encryption_client_to_server,
        encryption_server_to_client,
        mac_client_to_server,
        mac_server_to_client,
        strict: settings.strict,
        cookie,
        exchange_random,
        padding_seed,
        ignored_limit: Some(IGNORED_LIMIT),
    })
}

/// The names between the commas.
fn names_of(alloc: Global, text: &str) -> Result<Vec<String>, Fault> {
    let mut names = Vec::new(alloc);
    for name in text.split(',') {
        names.push(String::from_str(alloc, name)?)?;
    }
    Ok(names)
}

/// Fresh draws for one connection, from the system's random source.
pub(crate) fn draw(rt: &HostRuntime) -> Result<Draws, Fault> {
    Ok(Draws {
        cookie: random(rt)?,
        exchange_random: random(rt)?,
        padding_seed: random(rt)?,
    })
}
