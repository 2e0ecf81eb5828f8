//! A client that authenticates by a password over standard input and output, and tells on standard error which host key it
//! met.
//!
//!     exec 3<>/dev/tcp/localhost/22    # of bash: a socket
//!     SSH_PASSWORD=secret sshexamples client al SHA256:HASH <&3 >&3    # the hash of a host key: ssh-keygen -lf
//!
//! A real program finds the host's key by the host's name, asks somebody where it has none, asks for the password where
//! nobody sees it, limits how long the server may take, and goes on with the session.
//!
//! As the `src/main.rt` of a program `hello` this file needs one line more, and crates.txt another:
//!
//!     fn main(rt: HostRuntime) -> anyhow::Result<()> { run_client(&rt, &env::args(&rt)?.skip(1).collect::<Vec<_>>(rt.alloc())?) }
//!
//!     hello status=1: sshcore sshsuite sshwire anyhow base64 sha2
#![tactic(auto)]

use anyhow::{Context, bail};
use base64::engine::general_purpose::STANDARD_NO_PAD;
use sha2::{Digest, Sha256};
use sshcore::{
    Attempt, ClientConfig, ClientParts, Credential, Decisions, End, Endpoint, PeerReading, Proof,
    SideParts,
};
use sshsuite::DeployedSuite;
use sshwire::Memory;
use std::alloc::Global;
use std::cell::Cell;
use std::env;
use std::io::{Read, Write};
use std::random::RandomSource;

type Client<'a> = Endpoint<'a, DeployedSuite, HostKeys>;

/// The hash of the host key that is trusted, and of the one that came, before its signature was verified.
#[derive(Drop)]
struct HostKeys {
    trusted: Vec<u8>,
    met: Cell<Option<[u8; 32]>>,
}

impl Decisions for HostKeys {
    ghost use Rattle.std.specs.Prelude.{None, false};
    ghost use Rattle.std.specs.Str.{bytes_eq};
    ghost use Rattle.sha2.specs.Sha256.{sha256};

    ghost policy = { λ keys. record {
      host_key = λ algorithm blob. bytes_eq keys.trusted.items (sha256 blob);
      user = λ number user service proof. false;
      signature = λ number algorithm blob input. None;
    } };

    fn host_key(&self, _algorithm: &str, blob: &[u8]) -> bool {
        let hash = Sha256::digest(blob);
        self.met.set(Some(hash));
        self.trusted.as_slice() == hash.as_slice()
    }

    fn user(&self, _request_number: u32, _user: &str, _service: &str, _proof: &Proof<'_>) -> bool {
        false // a server asks this
    }

    fn signature(
        &self,
        _alloc: Global,
        _number: usize,
        _algorithm: &str,
        _blob: &[u8],
        _input: &[u8],
    ) -> Result<Option<Vec<u8>>, Memory> {
        Ok(None) // the suite holds all keys
    }
}

/// Ciphers, of which the last two use a MAC.
const CIPHERS: &str =
    "chacha20-poly1305@openssh.com,aes256-gcm@openssh.com,aes128-gcm@openssh.com,aes256-ctr,aes128-ctr";

/// Their MACs: those that cover what is sealed come first.
const MACS: &str = "hmac-sha2-256-etm@openssh.com,hmac-sha2-256";

/// Authenticates as the user of the first word, where the host key has the hash of the second.
pub(crate) fn run_client(rt: &HostRuntime, words: &[String]) -> anyhow::Result<()> {
    let keys = HostKeys {
        trusted: trusted_hash(rt, word(words, 1)?)?,
        met: Cell::new(None),
    };
    let config = config_of(rt, word(words, 0)?)?;
    authenticate(rt, &config, &keys)
}

fn trusted_hash(rt: &HostRuntime, word: &str) -> anyhow::Result<Vec<u8>> {
    let digits = word.strip_prefix("SHA256:").context("no SHA256:HASH")?;
    Ok(STANDARD_NO_PAD.decode(rt.alloc(), digits.as_bytes())?)
}

fn config_of(rt: &HostRuntime, user: &str) -> anyhow::Result<ClientConfig> {
    let password = env::var(rt, "SSH_PASSWORD").context("SSH_PASSWORD")?;
    let parts = Box::new(rt.alloc(), parts_of(rt, user, &password)?)?;
    let config = ClientConfig::new(rt.alloc(), Box::into_inner(parts))?;
    judged(&config)?;
    Ok(config)
}

/// That the suite has all that the config names.
fn judged(config: &ClientConfig) -> anyhow::Result<()> {
    match config.judge(&DeployedSuite) {
        Ok(()) => Ok(()),
        Err(fault) => bail!("{fault}"),
    }
}

fn word(words: &[String], place: usize) -> anyhow::Result<&str> {
    let word = words.get(place).context("words: USER SHA256:HASH")?;
    Ok(word.as_str())
}

/// One attempt, over algorithms that OpenSSH and dropbear have. What is drawn here serves one connection; for more there
/// is `Endpoint::client_with`.
fn parts_of(rt: &HostRuntime, user: &str, password: &str) -> anyhow::Result<ClientParts> {
    let alloc = rt.alloc();
    let mut plan = Vec::new(alloc);
    plan.push(Attempt {
        user: String::from_str(alloc, user)?,
        service: String::from_str(alloc, "ssh-connection")?,
        credential: Credential::Password(Vec::from_slice(alloc, password.as_bytes())?),
    })?;
    Ok(ClientParts {
        side: SideParts {
            softwareversion: String::from_str(alloc, "example")?,
            comments: None,
            reading: PeerReading::Deployed,
            kex_algorithms: list(alloc, "mlkem768x25519-sha256,curve25519-sha256")?,
            encryption_client_to_server: list(alloc, CIPHERS)?,
            encryption_server_to_client: list(alloc, CIPHERS)?,
            mac_client_to_server: list(alloc, MACS)?,
            mac_server_to_client: list(alloc, MACS)?,
            strict: true,
            cookie: random(rt, 16)?,
            exchange_random: random(rt, 32)?,
            padding_seed: random(rt, 32)?,
            ignored_limit: Some(1 << 20),
        },
        server_host_key_algorithms: list(alloc, "ssh-ed25519")?,
        guess: false,
        plan,
    })
}

fn list(alloc: Global, names: &str) -> anyhow::Result<Vec<String>> {
    let mut list = Vec::new(alloc);
    for name in names.split(',') {
        list.push(String::from_str(alloc, name)?)?;
    }
    Ok(list)
}

fn random(rt: &HostRuntime, count: usize) -> anyhow::Result<Vec<u8>> {
    let mut bytes = vec![in rt.alloc(); 0; count]?;
    rt.fill_bytes(&mut bytes)?;
    Ok(bytes)
}

fn authenticate(rt: &HostRuntime, config: &ClientConfig, keys: &HostKeys) -> anyhow::Result<()> {
    let mut out = Vec::new(rt.alloc());
    let mut client = Endpoint::client(rt.alloc(), config, &DeployedSuite, keys, &mut out)?;
    let talked = talk(rt, &mut client, &mut out);
    talked.and(tell(rt, client.end(), keys))
}

/// Gives the client what comes until it has ended.
fn talk(rt: &HostRuntime, client: &mut Client<'_>, out: &mut Vec<u8>) -> anyhow::Result<()> {
    let mut chunk = [0; 16384];
    for _ in 0..u64::MAX {
        let sent = rt.stdout().write_all(out).and(rt.stdout().flush());
        out.clear();
        if !matches!(client.end(), End::Open) {
            break; // a server that has gone receives no farewell
        }
        sent?;
        let count = rt.stdin().read(&mut chunk)?;
        if count == 0 {
            client.end_of_input();
        }
        client.feed(chunk.get(..count).unwrap_or(&[]), out)?; // what it doesn't use is the session's
    }
    Ok(())
}

/// Tells which host key came, and how the client has ended.
fn tell(rt: &HostRuntime, end: &End, keys: &HostKeys) -> anyhow::Result<()> {
    if let Some(hash) = keys.met.get() {
        let digits = STANDARD_NO_PAD.encode(rt.alloc(), &hash)?;
        eprintln!(rt; "host key SHA256:{digits}")?;
    }
    match end {
        End::Authenticated(agreed) => eprintln!(rt; "authenticated {}", agreed.user)?,
        end => bail!("{end}"),
    }
    Ok(())
}
