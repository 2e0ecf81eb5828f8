//! Public keys in files: authorized_keys and known_hosts (sshd(8)).

ghost use Rattle.std.specs.Prelude.{◌≡◌, IfOk, map};
ghost use Rattle.sshauth.specs.KeyLines.{first_line, keys_in};

use crate::files::bytes_if_there;
use crate::key_lines::{KeyLine, first_line, keys_in};
use crate::report;
use sshidentity::bytes_of;
use sshprogram::ProgramFault;
use std::alloc::Global;

/// The keys of a file of authorized_keys: those of its lines `ssh-ed25519 KEY COMMENT` and `ssh-rsa KEY COMMENT`. A line with
/// options in front gives none.
pub(crate) fn authorized_keys(
    rt: &HostRuntime,
    option: &'static str,
    path: &str,
) -> Result<Vec<Vec<u8>>, ProgramFault> {
    let bytes = bytes_of(rt, option, path)?;
    keys_in(rt.alloc(), option, KeyLine::Authorized, &bytes)
}

/// What a text of known_hosts says of a host.
#[derive(Drop)]
pub(crate) struct HostKeys {
    /// The keys of the lines whose names mean the host.
    pub(crate) keys: Vec<Vec<u8>>,
    /// Those that are revoked, whatever the host.
    pub(crate) revoked: Vec<Vec<u8>>,
    /// How many lines stand before the first one whose names mean the host, whatever the kind of its key.
    pub(crate) known: Option<usize>,
    /// The same of a line of a certification authority of the host.
    pub(crate) authority: Option<usize>,
}

/// What a text of known_hosts says of a host. A text in which a key of the host, or one that is revoked, can't be read, is refused.
pub(crate) fn host_keys_in(
    alloc: Global,
    option: &'static str,
    text: &[u8],
    host: &[u8],
) -> Result<HostKeys, ProgramFault>
    ensures keys { IfOk result (λ found. map (λ key. key.items) found.keys.items ≡ keys_in (KeyLine.Known host.entry) text.now) }
    ensures revoked { IfOk result (λ found. map (λ key. key.items) found.revoked.items ≡ keys_in KeyLine.Revoked text.now) }
    ensures known { IfOk result (λ found. found.known ≡ first_line (KeyLine.Known host.entry) text.now) }
    ensures authority { IfOk result (λ found. found.authority ≡ first_line (KeyLine.Authority host.entry) text.now) }
{
    let keys = keys_in(alloc, option, KeyLine::Known(host), text)?;
    let revoked = keys_in(alloc, option, KeyLine::Revoked, text)?;
    let known = first_line(alloc, KeyLine::Known(host), text)?;
    let authority = first_line(alloc, KeyLine::Authority(host), text)?;
    Ok(HostKeys {
        keys,
        revoked,
        known,
        authority,
    })
}

/// What a file of known_hosts says of a host. One that isn't there says nothing, and that is told; so is a line of a
/// certification authority, since no certificate is read.
pub(crate) fn known_hosts(
    rt: &HostRuntime,
    option: &'static str,
    path: &str,
    host: &str,
) -> Result<HostKeys, ProgramFault> {
    let bytes = match bytes_if_there(rt, option, path)? {
        Some(bytes) => bytes,
        None => {
            report::tell(
                rt,
                "the file of --known-hosts isn't there, so it is taken as an empty one",
            );
            Vec::new(rt.alloc())
        }
    };
    let found = host_keys_in(rt.alloc(), option, &bytes, host.as_bytes())?;
    if let Some(before) = found.authority {
        tell_line(
            rt,
            before,
            "has the key of a certification authority, which isn't used",
        )?;
    }
    Ok(found)
}

/// Tells of a line of known_hosts, before which so many stand.
pub(crate) fn tell_line(rt: &HostRuntime, before: usize, what: &str) -> Result<(), ProgramFault> {
    let number = before.saturating_add(1);
    report::tell(
        rt,
        &format!(in rt.alloc(); "line {number} of known_hosts {what}")?,
    );
    Ok(())
}
