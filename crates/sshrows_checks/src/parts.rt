//! What the endpoints are made of that checks are played to, and what the players are given.

use sshchecks::Setting;
use sshcore::{
    Attempt, ClientConfig, ClientParts, ConfigFault, Credential, HostKey, PeerReading,
    ServerConfig, ServerParts, SideParts, SuiteFault,
};
use sshrows_acts::{Line, Stop, wrong};
use sshsuite::DeployedSuite;
use std::alloc::Global;

/// The one user.
pub(crate) const USER: &str = "alice";

/// The user's password.
pub(crate) const PASSWORD: &[u8] = b"good-pw";

/// The algorithm of the host key and of the user's.
pub(crate) const ALGORITHM: &str = "ssh-ed25519";

/// The player's private key: the user's at a server, the server's at a client.
pub(crate) const PLAYER_KEY: [u8; 32] = [0x70; 32];

/// The endpoint's.
const OWN_KEY: [u8; 32] = [0x6f; 32];

/// The one service.
const SERVICE: &str = "ssh-connection";

const KEX: &str = "curve25519-sha256,curve25519-sha256@libssh.org,diffie-hellman-group14-sha256";

const CIPHERS: &str = "chacha20-poly1305@openssh.com,aes256-gcm@openssh.com,aes256-ctr";

const MACS: &str = "hmac-sha2-256,hmac-sha2-512";

/// The two methods.
const METHODS: &str = "publickey,password";

/// How many bytes of packets that say nothing are taken.
const IGNORED_LIMIT: u32 = 1 << 20;

/// At which request a failure ends the session.
const TRIES: u32 = 6;

/// What a player is given that sends this number in a check of the sweep.
pub(crate) fn setting_of(random: &[u8; 128], number: u8) -> Setting<'_> {
    Setting {
        user: USER,
        password: PASSWORD,
        own_key: &PLAYER_KEY,
        random,
        ciphers: CIPHERS,
        macs: MACS,
        number,
    }
}

/// A player's random bytes, which are the same in each row: 0, 1, 2 and so on.
pub(crate) fn random_bytes() -> [u8; 128] {
    let mut bytes = [0; 128];
    let mut next = 0u8;
    for byte in bytes.iter_mut() {
        *byte = next;
        next = next.wrapping_add(1);
    }
    bytes
}

/// A client's config. It tries by its key, about which it asks first, and then by its password.
pub(crate) fn client_config(
    alloc: Global,
    act: &Line<'_>,
    reading: PeerReading,
) -> Result<Box<ClientConfig>, Stop> {
    let parts = Box::new(alloc, client_parts(alloc, reading)?)?;
    let config = match ClientConfig::new(alloc, Box::into_inner(parts)) {
        Ok(config) => Box::new(alloc, config)?,
        Err(fault) => return refused(alloc, act, fault),
    };
    fits(alloc, act, config.judge(&DeployedSuite))?;
    Ok(config)
}

/// A server's config, which may require both methods.
pub(crate) fn server_config(
    alloc: Global,
    act: &Line<'_>,
    reading: PeerReading,
    requires_both: bool,
) -> Result<Box<ServerConfig>, Stop> {
    let parts = Box::new(alloc, server_parts(alloc, reading, requires_both)?)?;
    let config = match ServerConfig::new(alloc, Box::into_inner(parts)) {
        Ok(config) => Box::new(alloc, config)?,
        Err(fault) => return refused(alloc, act, fault),
    };
    fits(alloc, act, config.judge(&DeployedSuite))?;
    Ok(config)
}

/// A config was refused.
fn refused<T>(alloc: Global, act: &Line<'_>, fault: ConfigFault) -> Result<T, Stop> {
    match fault {
        ConfigFault::Memory => Err(Stop::Memory),
        _ => wrong(alloc, act, "config", "accepted", fault.code()),
    }
}

/// The suite has all that a config names.
fn fits(alloc: Global, act: &Line<'_>, judged: Result<(), SuiteFault<'_>>) -> Result<(), Stop> {
    match judged {
        Ok(()) => Ok(()),
        Err(fault) => wrong(alloc, act, "suite", "fits", fault.code()),
    }
}

/// A client's parts.
fn client_parts(alloc: Global, reading: PeerReading) -> Result<ClientParts, Stop> {
    let mut plan = Vec::new(alloc);
    plan.push(attempt_of(alloc, own_key(alloc)?)?)?;
    let password = Credential::Password(Vec::from_slice(alloc, PASSWORD)?);
    plan.push(attempt_of(alloc, password)?)?;
    let server_host_key_algorithms = names_of(alloc, ALGORITHM)?;
    Ok(ClientParts {
        side: side_of(alloc, reading)?,
        server_host_key_algorithms,
        guess: false,
        plan,
    })
}

/// The endpoint's key as the user's, about which the server is asked first.
fn own_key(alloc: Global) -> Result<Credential, Stop> {
    let algorithm = String::from_str(alloc, ALGORITHM)?;
    Ok(Credential::PublicKey {
        algorithm,
        private_key: Vec::from_slice(alloc, &OWN_KEY)?,
        ask: true,
    })
}

/// An attempt by this credential.
fn attempt_of(alloc: Global, credential: Credential) -> Result<Attempt, Stop> {
    let user = String::from_str(alloc, USER)?;
    let service = String::from_str(alloc, SERVICE)?;
    Ok(Attempt {
        user,
        service,
        credential,
    })
}

/// A server's parts.
fn server_parts(
    alloc: Global,
    reading: PeerReading,
    requires_both: bool,
) -> Result<ServerParts, Stop> {
    let host_keys = host_keys_of(alloc)?;
    let (services, methods) = (names_of(alloc, SERVICE)?, names_of(alloc, METHODS)?);
    let signature_algorithms = names_of(alloc, ALGORITHM)?;
    let required = if requires_both {
        names_of(alloc, METHODS)?
    } else {
        Vec::new(alloc)
    };
    Ok(ServerParts {
        side: side_of(alloc, reading)?,
        host_keys,
        services,
        methods,
        required,
        signature_algorithms,
        tries: TRIES,
        banner: None,
        notice_lines: Vec::new(alloc),
    })
}

/// The endpoint's key as the one host key.
fn host_keys_of(alloc: Global) -> Result<Vec<HostKey>, Stop> {
    let mut keys = Vec::new(alloc);
    let algorithm = String::from_str(alloc, ALGORITHM)?;
    let private_key = Vec::from_slice(alloc, &OWN_KEY)?;
    keys.push(HostKey {
        algorithm,
        private_key,
    })?;
    Ok(keys)
}

/// What both sides have.
fn side_of(alloc: Global, reading: PeerReading) -> Result<SideParts, Stop> {
    let softwareversion = String::from_str(alloc, "rezdolin")?;
    let kex_algorithms = names_of(alloc, KEX)?;
    let encryption_client_to_server = names_of(alloc, CIPHERS)?;
    let encryption_server_to_client = names_of(alloc, CIPHERS)?;
    let mac_client_to_server = names_of(alloc, MACS)?;
    let mac_server_to_client = names_of(alloc, MACS)?;
    let cookie = Vec::from_slice(alloc, &[0x63; 16])?;
    let exchange_random = Vec::from_slice(alloc, &[0x65; 32])?;
    let padding_seed = Vec::from_slice(alloc, &[0x73; 32])?;
    Ok(SideParts {
        softwareversion,
        comments: None,
        reading,
        kex_algorithms,
        encryption_client_to_server,
        encryption_server_to_client,
        mac_client_to_server,
        mac_server_to_client,
        strict: true,
        cookie,
        exchange_random,
        padding_seed,
        ignored_limit: Some(IGNORED_LIMIT),
    })
}

/// The names between the commas.
fn names_of(alloc: Global, text: &str) -> Result<Vec<String>, Stop> {
    let mut names = Vec::new(alloc);
    for name in text.split(',') {
        names.push(String::from_str(alloc, name)?)?;
    }
    Ok(names)
}
