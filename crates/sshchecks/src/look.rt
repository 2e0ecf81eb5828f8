//! What is looked at of what a peer sent in clear.

use crate::agreement::Lists;
use sshneg::{Side, strict_marker};
use sshterms::Names;

/// What is looked at.
#[derive(Clone, Copy, Debug, PartialEq, Eq)]
pub enum Look {
    /// The form of the version line (RFC 4253 section 4.2).
    Version,
    /// The form of the KEXINIT (RFC 4253 section 7.1).
    KexInit,
    /// The strict marker (OpenSSH PROTOCOL section 1.10).
    Strict,
}

/// The most bytes of a version line.
const LINE_LIMIT: usize = 255;

/// The most bytes of a name.
const NAME_LIMIT: usize = 64;

/// What a line looks at.
pub(crate) fn look_of(rest: &str) -> Option<Look> {
    match rest {
        "version" => Some(Look::Version),
        "kexinit" => Some(Look::KexInit),
        "strict" => Some(Look::Strict),
        _ => None,
    }
}

/// What is seen of a line with what ends it, and of lists. `peer` is whose they are.
pub(crate) fn seen(look: Look, peer: Side, line: &[u8], lists: &Lists) -> &'static str {
    match look {
        Look::Version => yes_or_no(is_version_line(line)),
        Look::KexInit => yes_or_no(lists.is_whole && have_proper_names(lists)),
        Look::Strict if lists.has(0, strict_marker(peer).as_bytes()) => "yes",
        Look::Strict if can_be_cut(lists) => "no",
        Look::Strict => "nothing_to_cut",
    }
}

/// `yes` or `no`.
fn yes_or_no(flag: bool) -> &'static str {
    if flag { "yes" } else { "no" }
}

/// Whether a line has the form of the standard.
fn is_version_line(line: &[u8]) -> bool {
    let Some(text) = line.strip_suffix(b"\r\n") else {
        return false;
    };
    let Some(rest) = text.strip_prefix(b"SSH-2.0-") else {
        return false;
    };
    let software = rest.split(|byte| *byte == b' ').next().unwrap_or(&[]);
    line.len() <= LINE_LIMIT && !software.is_empty() && are_software_bytes(software)
}

/// Whether all are printable, and none is a minus.
fn are_software_bytes(bytes: &[u8]) -> bool {
    bytes
        .iter()
        .all(|byte| *byte > 32 && *byte < 127 && *byte != b'-')
}

/// Whether each name of each list is one.
fn have_proper_names(lists: &Lists) -> bool {
    for list in lists.all.iter() {
        if !list.is_empty() && !has_proper_names(list) {
            return false;
        }
    }
    true
}

/// Whether each name of a list is one.
fn has_proper_names(list: &[u8]) -> bool {
    for name in list.split(|byte| *byte == b',') {
        if name.is_empty() || name.len() > NAME_LIMIT || !are_name_bytes(name) {
            return false;
        }
    }
    true
}

/// Whether all are printable.
fn are_name_bytes(bytes: &[u8]) -> bool {
    bytes.iter().all(|byte| *byte > 32 && *byte < 127)
}

/// Whether packets can be cut off where nobody is strict (CVE-2023-48795): by the cipher of which that was shown, or by
/// a -cbc with a MAC over what is sealed.
fn can_be_cut(lists: &Lists) -> bool {
    can_be_cut_by(lists.at(2), lists.at(4)) || can_be_cut_by(lists.at(3), lists.at(5))
}

/// The same of one direction's lists.
fn can_be_cut_by(ciphers: &[u8], macs: &[u8]) -> bool {
    let chained = some_ends_with(ciphers, b"-cbc") && some_ends_with(macs, b"-etm@openssh.com");
    chained || some_ends_with(ciphers, b"chacha20-poly1305@openssh.com")
}

/// Whether a name of the list ends so.
fn some_ends_with(list: &[u8], end: &[u8]) -> bool {
    for name in list.split(|byte| *byte == b',') {
        if name.ends_with(end) {
            return true;
        }
    }
    false
}

/// Whether what a check needs of the peer's lists is so. `agreed` says whether both are strict.
pub(crate) fn is_so(need: &str, agreed: bool, lists: &Lists) -> bool {
    if need == "strict" {
        return agreed;
    }
    if let Some(name) = need.strip_prefix("kex:") {
        return lists.has(0, name.as_bytes());
    }
    if let Some(name) = need.strip_prefix("first:") {
        return lists.first(0) == name.as_bytes() && lists.first(1) == b"ssh-ed25519".as_slice();
    }
    true
}

/// Whether all that a check needs is so.
pub(crate) fn are_so(needs: &str, agreed: bool, lists: &Lists) -> bool {
    for need in needs.split(' ') {
        if !is_so(need, agreed, lists) {
            return false;
        }
    }
    true
}

/// Whether what a check needs of who plays it is so.
pub(crate) fn can_be_played(needs: &str, names: &Names) -> bool {
    for need in needs.split(' ') {
        if need == "password" && names.find("password").unwrap_or(&[]).is_empty() {
            return false;
        }
    }
    true
}
