//! Rows of configs whose parts are made one by one.

use crate::endpoints::{Row, Way, judge_endpoint};
use crate::generous::Generous;
use crate::parts::{client_by, server_by};
use crate::stop::Stop;
use crate::terms::bytes_of;
use crate::texts::{nothing_after, same_bytes, same_text, shows, wrong};
use crate::words::{Line, split_word};
use sshcore::{ClientConfig, ClientParts, ConfigFault, ServerConfig, ServerParts, SuiteFault};
use sshlabsuites::{KemSuite, LabSuite};
use sshmsg::{KexInit, Message, write};
use sshpacket::{Inventory, KeysElsewhere};
use sshsuite::DeployedSuite;
use sshterms::Names;
use std::alloc::Global;

/// Judges a config of a client or a server: lines that change its parts, and after them what comes of it.
pub fn judge_config(
    alloc: Global,
    names: &Names,
    row: &Line<'_>,
    role: &str,
    lines: &[Line<'_>],
    way: Way,
) -> Result<(), Stop> {
    let place = lines.iter().position(|line| is_verdict(line.text));
    let parts = lines.get(..place.unwrap_or(0)).unwrap_or(&[]);
    let judged = lines.get(place.unwrap_or(0)..).unwrap_or(&[]);
    let Some((line, rest)) = judged.split_first() else {
        return wrong(alloc, row, "row", "what comes of the config", "none");
    };
    nothing_after_verdict(alloc, line, rest)?;
    match role {
        "client" => {
            let parts = client_by(alloc, names, parts)?;
            judge_client(alloc, names, line, parts, rest, way)
        }
        "server" => {
            let parts = server_by(alloc, names, parts)?;
            judge_server(alloc, names, line, parts, rest, way)
        }
        _ => same_text(alloc, row, "act", "client or server", role),
    }
}

/// No line stands after what comes of a config, but after `generous`.
fn nothing_after_verdict(alloc: Global, line: &Line<'_>, rest: &[Line<'_>]) -> Result<(), Stop> {
    if line.text == "generous" {
        return Ok(());
    }
    nothing_after(alloc, rest)
}

/// Judges what comes of a client's parts.
fn judge_client(
    alloc: Global,
    names: &Names,
    line: &Line<'_>,
    parts: Box<ClientParts>,
    lines: &[Line<'_>],
    way: Way,
) -> Result<(), Stop> {
    match client_config_of(alloc, parts)? {
        Ok(config) => accepted_client(alloc, names, line, &config, lines, way),
        Err(fault) => refused(alloc, line, &fault),
    }
}

/// Judges what comes of a server's parts.
fn judge_server(
    alloc: Global,
    names: &Names,
    line: &Line<'_>,
    parts: Box<ServerParts>,
    lines: &[Line<'_>],
    way: Way,
) -> Result<(), Stop> {
    match server_config_of(alloc, parts)? {
        Ok(config) => accepted_server(alloc, names, line, &config, lines, way),
        Err(fault) => refused(alloc, line, &fault),
    }
}

/// The config of these parts, or why they are refused.
fn client_config_of(
    alloc: Global,
    parts: Box<ClientParts>,
) -> Result<Result<Box<ClientConfig>, ConfigFault>, Stop> {
    match ClientConfig::new(alloc, Box::into_inner(parts)) {
        Ok(config) => Ok(Ok(Box::new(alloc, config)?)),
        Err(ConfigFault::Memory) => Err(Stop::Refused),
        Err(fault) => Ok(Err(fault)),
    }
}

/// The same of a server's.
fn server_config_of(
    alloc: Global,
    parts: Box<ServerParts>,
) -> Result<Result<Box<ServerConfig>, ConfigFault>, Stop> {
    match ServerConfig::new(alloc, Box::into_inner(parts)) {
        Ok(config) => Ok(Ok(Box::new(alloc, config)?)),
        Err(ConfigFault::Memory) => Err(Stop::Refused),
        Err(fault) => Ok(Err(fault)),
    }
}

/// Whether the line says what comes of a config.
fn is_verdict(text: &str) -> bool {
    let (word, _) = split_word(text);
    matches!(
        word,
        "refused" | "attempts" | "offered" | "kexinit" | "judged" | "named" | "generous"
    )
}

/// A config was refused, which has to be what the line says.
fn refused(alloc: Global, line: &Line<'_>, fault: &ConfigFault) -> Result<(), Stop> {
    match line.text.strip_prefix("refused ") {
        Some(wanted) => same_text(alloc, line, "config", wanted, fault.code()),
        None => same_text(alloc, line, "config", "accepted", fault.code()),
    }
}

/// A config was judged over a suite, or its names were: `fits`, or the refusal as it is printed.
fn same_fit(
    alloc: Global,
    line: &Line<'_>,
    wanted: &str,
    found: Result<(), SuiteFault<'_>>,
) -> Result<(), Stop> {
    match found {
        Ok(()) => same_text(alloc, line, "suite", wanted, "fits"),
        Err(fault) => shows(alloc, line, "suite", wanted, &fault),
    }
}

/// Judges a client's config over the suite whose name the line has, and without one over that of deployed algorithms.
fn judge_client_fit(
    alloc: Global,
    line: &Line<'_>,
    word: &str,
    rest: &str,
    config: &ClientConfig,
) -> Result<(), Stop> {
    let (suite, wanted) = split_word(rest);
    match suite {
        "lab" => same_fit(alloc, line, wanted, client_fit(config, word, &LabSuite)),
        "second" => same_fit(alloc, line, wanted, client_fit(config, word, &KemSuite)),
        "elsewhere" => {
            let suite = KeysElsewhere { suite: LabSuite };
            same_fit(alloc, line, wanted, client_fit(config, word, &suite))
        }
        _ => same_fit(alloc, line, rest, client_fit(config, word, &DeployedSuite)),
    }
}

/// Judges a client's config over a suite, or its names alone where the word is `named`.
fn client_fit<'a, S: Inventory>(
    config: &'a ClientConfig,
    word: &str,
    suite: &S,
) -> Result<(), SuiteFault<'a>> {
    match word {
        "named" => config.judge_names(suite),
        _ => config.judge(suite),
    }
}

/// Judges a server's config over such a suite.
fn judge_server_fit(
    alloc: Global,
    line: &Line<'_>,
    word: &str,
    rest: &str,
    config: &ServerConfig,
) -> Result<(), Stop> {
    let (suite, wanted) = split_word(rest);
    match suite {
        "lab" => same_fit(alloc, line, wanted, server_fit(config, word, &LabSuite)),
        "second" => same_fit(alloc, line, wanted, server_fit(config, word, &KemSuite)),
        "elsewhere" => {
            let suite = KeysElsewhere { suite: LabSuite };
            same_fit(alloc, line, wanted, server_fit(config, word, &suite))
        }
        _ => same_fit(alloc, line, rest, server_fit(config, word, &DeployedSuite)),
    }
}

/// Judges a server's config over a suite, or its names alone where the word is `named`.
fn server_fit<'a, S: Inventory>(
    config: &'a ServerConfig,
    word: &str,
    suite: &S,
) -> Result<(), SuiteFault<'a>> {
    match word {
        "named" => config.judge_names(suite),
        _ => config.judge(suite),
    }
}

/// A client's config was accepted: `attempts N`, `kexinit TERMS`, `judged TEXT`, `named TEXT`, or `generous` and the lines of an
/// endpoint.
fn accepted_client(
    alloc: Global,
    names: &Names,
    line: &Line<'_>,
    config: &ClientConfig,
    lines: &[Line<'_>],
    way: Way,
) -> Result<(), Stop> {
    let (word, rest) = line.head();
    match word {
        "attempts" => {
            shows(alloc, line, "attempts", rest, &config.attempts())?;
            shows(alloc, line, "plan", rest, &config.parts().plan.len())
        }
        "kexinit" => {
            let found = payload_of(alloc, config.kexinit()?)?;
            judge_kexinit(alloc, names, line, rest, &found)
        }
        "judged" | "named" => judge_client_fit(alloc, line, word, rest, config),
        "generous" => {
            let row = Row {
                names,
                act: line,
                lines,
                way,
            };
            judge_endpoint(alloc, row, config, (LabSuite, &Generous))
        }
        _ => wrong(alloc, line, "config", rest, "accepted"),
    }
}

/// A server's config was accepted: `offered N`, the number of its services, `kexinit TERMS`, `judged TEXT`, `named TEXT`,
/// or `generous` and the lines of an endpoint.
fn accepted_server(
    alloc: Global,
    names: &Names,
    line: &Line<'_>,
    config: &ServerConfig,
    lines: &[Line<'_>],
    way: Way,
) -> Result<(), Stop> {
    let (word, rest) = line.head();
    match word {
        "offered" => shows(alloc, line, "offered", rest, &config.parts().services.len()),
        "kexinit" => {
            let found = payload_of(alloc, config.kexinit()?)?;
            judge_kexinit(alloc, names, line, rest, &found)
        }
        "judged" | "named" => judge_server_fit(alloc, line, word, rest, config),
        "generous" => {
            let row = Row {
                names,
                act: line,
                lines,
                way,
            };
            judge_endpoint(alloc, row, config, (LabSuite, &Generous))
        }
        _ => wrong(alloc, line, "config", line.text, "accepted"),
    }
}

/// The payload of a config's KEXINIT.
fn payload_of(alloc: Global, kexinit: KexInit<'_>) -> Result<Vec<u8>, Stop> {
    let message = Message::KexInit(Box::new(alloc, kexinit)?);
    let mut payload = Vec::new(alloc);
    put_message(&message, &mut payload)?;
    Ok(payload)
}

/// Appends the message's payload, if it fits.
fn put_message(message: &Message<'_>, out: &mut Vec<u8>) -> Result<(), Stop> {
    if message.fits() {
        write(message, out)?;
    }
    Ok(())
}

/// The payload has to be these bytes.
fn judge_kexinit(
    alloc: Global,
    names: &Names,
    line: &Line<'_>,
    terms: &str,
    found: &[u8],
) -> Result<(), Stop> {
    let wanted = bytes_of(alloc, names, line, terms)?;
    same_bytes(alloc, line, "kexinit", &wanted, found)
}
