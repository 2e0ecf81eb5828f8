//! The program's words.

use crate::agent::{Agent, REQUESTS, RESPONSES};
use crate::channel::COMMAND_LIMIT;
use crate::settings::{Job, Settings};
use sshcore::PeerReading;
use sshprogram::{NoWork, Options, Syntax, WordFault, first_word};
use std::alloc::Global;

/// The words of a client.
const CLIENT: Syntax = Syntax {
    job: "a client",
    options: &[
        "user",
        "strict",
        "kex",
        "cipher",
        "mac",
        "password-file",
        "identity",
        REQUESTS,
        RESPONSES,
        "known-hosts",
        "host",
        "reading",
        "guess",
        "exec",
    ],
    flags: &[],
    takes_subject: false,
};

/// Those of a probe.
const PROBE: Syntax = Syntax {
    job: "a probe",
    options: &["user", "strict", "kex", "cipher", "mac", "host", "report"],
    flags: &[],
    takes_subject: false,
};

/// Those of a server.
const SERVER: Syntax = Syntax {
    job: "a server",
    options: &[
        "user",
        "strict",
        "kex",
        "cipher",
        "mac",
        "password-file",
        "host-key",
        REQUESTS,
        RESPONSES,
        "authorized-keys",
        "banner",
        "methods",
        "required",
        "tries",
        "reading",
    ],
    flags: &[],
    takes_subject: false,
};

/// Methods of key exchange where no word names others: one that holds against a quantum computer too, both names of one that peers have
/// had for long, and one that older peers have.
const KEX: &str =
    "mlkem768x25519-sha256,curve25519-sha256,curve25519-sha256@libssh.org,diffie-hellman-group14-sha256";

/// All ciphers that the suite has, which are listed where no word names others: those with a tag of their own first.
const CIPHERS: &str =
    "chacha20-poly1305@openssh.com,aes256-gcm@openssh.com,aes128-gcm@openssh.com,aes256-ctr,aes128-ctr";

/// All MACs that the suite has, which the last two ciphers use, and each side has to choose one beside the others too: those that cover
/// what is sealed first.
const MACS: &str =
    "hmac-sha2-256-etm@openssh.com,hmac-sha2-512-etm@openssh.com,hmac-sha2-256,hmac-sha2-512";

/// What the words ask for, or why they ask for nothing.
pub(crate) fn read_words<'a>(
    alloc: Global,
    words: &'a [String],
) -> Result<Settings<'a>, NoWork<'a>> {
    let (first, rest) = first_word(words)?;
    let (job, syntax) = match first {
        "client" => (Job::Client, CLIENT),
        "server" => (Job::Server, SERVER),
        "probe" => (Job::Probe, PROBE),
        word => {
            let names = "client, server or probe";
            return Err(NoWork::Refused(WordFault::NoneOf { word, names }));
        }
    };
    let options = Options::read(alloc, rest, syntax)?;
    Ok(settings_of(job, &options)?)
}

/// What the options say. One that the job doesn't have has no value.
fn settings_of<'a>(job: Job, options: &Options<'a>) -> Result<Settings<'a>, WordFault<'a>> {
    check_needed(job, options)?;
    Ok(Settings {
        role: job,
        tries: tries_of(options.value("tries"))?,
        strict: options.yes_or_no("strict", true)?,
        reading: reading_of(options.value("reading"))?,
        guess: options.yes_or_no("guess", false)?,
        kex: options.names("kex", KEX, KEX)?,
        cipher: options.names("cipher", CIPHERS, CIPHERS)?,
        mac: options.names("mac", MACS, MACS)?,
        exec: short("exec", options.value("exec"))?,
        agent: agent_of(job, options)?,
        user: options.value("user").unwrap_or("nobody"),
        identity: options.value("identity"),
        password_file: options.value("password-file"),
        known_hosts: options.value("known-hosts"),
        host: options.value("host"),
        host_key: options.value("host-key"),
        authorized_keys: options.value("authorized-keys"),
        banner: options.value("banner"),
        methods: options.value("methods").unwrap_or("publickey,password"),
        required: options.value("required"),
        report: options.value("report"),
    })
}

/// Refuses words without an option that the job needs.
fn check_needed<'a>(job: Job, options: &Options<'a>) -> Result<(), WordFault<'a>> {
    let needed: &[&'static str] = match job {
        Job::Client => &["user", "known-hosts", "host"],
        Job::Server => &["user", "host-key"],
        Job::Probe => &["host"],
    };
    for option in needed {
        options.needed(option)?;
    }
    Ok(())
}

/// The agent, where both of its files are named. A client needs a key by which it signs, which an agent doesn't choose.
fn agent_of<'a>(job: Job, options: &Options<'a>) -> Result<Option<Agent<'a>>, WordFault<'a>> {
    let (option, other) = match (options.value(REQUESTS), options.value(RESPONSES)) {
        (None, None) => return Ok(None),
        (Some(_), None) => (REQUESTS, RESPONSES),
        (None, Some(_)) => (RESPONSES, REQUESTS),
        (Some(requests), Some(responses)) => {
            if !matches!(job, Job::Client) || options.value("identity").is_some() {
                return Ok(Some(Agent {
                    requests,
                    responses,
                }));
            }
            (REQUESTS, "identity")
        }
    };
    Err(WordFault::Alone { option, other })
}

/// A command, where it isn't too long.
fn short<'a>(option: &'a str, command: Option<&'a str>) -> Result<Option<&'a str>, WordFault<'a>> {
    let limit = COMMAND_LIMIT;
    match command {
        Some(command) if command.len() > limit => Err(WordFault::Long { option, limit }),
        _ => Ok(command),
    }
}

/// How many requests a server grants: six where no word says it.
fn tries_of(word: Option<&str>) -> Result<u32, WordFault<'_>> {
    match word {
        None => Ok(6),
        Some(value) => value.parse::<u32>().map_err(|_| WordFault::NoNumber {
            option: "tries",
            value,
            wanted: "a number",
        }),
    }
}

/// `strict` or `deployed`, which holds where no word says it.
fn reading_of(word: Option<&str>) -> Result<PeerReading, WordFault<'_>> {
    match word {
        None => Ok(PeerReading::Deployed),
        Some("strict") => Ok(PeerReading::Strict),
        Some("deployed") => Ok(PeerReading::Deployed),
        Some(name) => Err(WordFault::Other {
            option: "reading",
            name,
            all: "strict,deployed",
        }),
    }
}
