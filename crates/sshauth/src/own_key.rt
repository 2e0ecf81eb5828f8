//! The keys by which the program signs, or has an agent sign.

ghost use Rattle.std.specs.Prelude.{◌≡◌, IfOk, IfSome, false, string_bytes};
ghost use Rattle.sshwire.specs.Types.{IsName};
ghost use Rattle.sshsuite.specs.Deployed.{deployed};

use crate::base64_digits::base64_of;
use crate::key_lines::cut_word;
use crate::parts::ALGORITHM;
use crate::settings::Settings;
use sshcore::PRIVATE_KEY_LIMIT;
use sshidentity::{FileFault, IdentityFault, KeyFault, bytes_of, private_key, text_in};
use sshpacket::Suite;
use sshprogram::ProgramFault;
use sshsuite::DeployedSuite;
use sshwire::{Reader, as_name};
use std::alloc::Global;

/// A key of this side, as a config has it: a private key that the suite holds, or the public key of one that an agent holds.
#[derive(Drop)]
pub(crate) struct OwnKey {
    /// The name of the algorithm by which it signs.
    pub(crate) algorithm: String,
    pub(crate) bytes: Vec<u8>,
}

/// The key in the file that the option names: a private key, or, where there is an agent, a line `KIND KEY COMMENT`.
pub(crate) fn own_key(
    rt: &HostRuntime,
    settings: &Settings<'_>,
    option: &'static str,
    path: &str,
) -> Result<OwnKey, ProgramFault> {
    let file = bytes_of(rt, option, path)?;
    let text = text_in(option, &file)?;
    let found = match private_key(rt, option, path, text)? {
        Ok(bytes) => Ok(OwnKey {
            algorithm: String::from_str(rt.alloc(), ALGORITHM)?,
            bytes,
        }),
        Err(KeyFault::Identity(IdentityFault::Public)) if settings.agent.is_some() => public_key_in(
            rt.alloc(),
            text,
        )?,
        Err(fault) => Err(fault),
    };
    found.map_err(|fault| ProgramFault::File(FileFault::Key(option, fault)))
}

/// The public key of the one line that the text is, or why it has none. It is none of the suite's private keys.
fn public_key_in(alloc: Global, text: &str) -> Result<Result<OwnKey, KeyFault>, ProgramFault>
    ensures elsewhere { IfOk result (λ found. IfOk found (λ key. deployed.holds (string_bytes key.algorithm) key.bytes.items ≡ false)) }
{
    let line = text.trim();
    if line.contains('\n') {
        return Ok(Err(KeyFault::Identity(IdentityFault::Several)));
    }
    let (kind, after) = cut_word(line.as_bytes());
    let (Some(name), Some(blob)) = (signing_name(kind), base64_of(alloc, cut_word(after).0)?) else {
        return Ok(Err(KeyFault::Blob));
    };
    match Reader::new(&blob).string() {
        Ok(own) if own == kind => {}
        Ok(_) => return Ok(Err(KeyFault::Contradicts)),
        Err(_) => return Ok(Err(KeyFault::Blob)),
    }
    if blob.len() > PRIVATE_KEY_LIMIT || DeployedSuite.holds(name, &blob) {
        return Ok(Err(KeyFault::Blob));
    }
    let algorithm = String::from_str(alloc, name)?;
    Ok(Ok(OwnKey {
        algorithm,
        bytes: blob,
    }))
}

/// The name of the algorithm by which an agent signs by a key of this kind, if the kind is a name.
fn signing_name(kind: &[u8]) -> Option<&str>
    ensures named { IfSome result (λ name. IsName name.now) }
{
    match as_name(kind)? {
        "ssh-rsa" => Some("rsa-sha2-512"),
        "ssh-rsa-cert-v01@openssh.com" => Some("rsa-sha2-512-cert-v01@openssh.com"),
        name => Some(name),
    }
}
