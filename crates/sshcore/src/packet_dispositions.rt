//! A packet's line of the phase table.

ghost use Rattle.std.specs.Prelude.{◌≡◌, ◌==◌, false, true};
ghost use Rattle.sshmsg.specs.Numbers.{message_number};
ghost use Rattle.sshmsg.specs.declared.numbers.TheConstants.{SSH_MSG_USERAUTH_REQUEST, SSH_MSG_USERAUTH_SUCCESS};
ghost use Rattle.sshcore.specs.Phases.{leaving};
ghost use Rattle.sshcore.specs.Table.{disposition_by, is_ignorable, is_ignored, is_of_auth, is_of_method, is_ruled, is_unknown, takes_extensions};

use crate::phase_table::{Disposition, Phase};
use sshmsg::{
    SSH_MSG_DISCONNECT, SSH_MSG_EXT_INFO, SSH_MSG_KEXDH_INIT, SSH_MSG_KEXDH_REPLY, SSH_MSG_KEXINIT,
    SSH_MSG_NEWKEYS, SSH_MSG_SERVICE_ACCEPT, SSH_MSG_SERVICE_REQUEST, SSH_MSG_USERAUTH_BANNER,
    SSH_MSG_USERAUTH_FAILURE, SSH_MSG_USERAUTH_PK_OK, SSH_MSG_USERAUTH_REQUEST,
    SSH_MSG_USERAUTH_SUCCESS,
};
use sshneg::Side;

/// The number of the message in a payload; 0 for no bytes.
pub(crate) fn message_number(payload: &[u8]) -> u8
    ensures { result ≡ message_number payload.now }
{
    match payload.first() {
        Some(number) => *number,
        None => 0,
    }
}

/// The line of the phase table that decides on a packet with this number, in the order of the table.
/// `guess` says that the packet of a wrong guess is due, `waits` that a query waits for its answer.
#[tactic(auto, unfolding(crate::specs::Table::disposition_by))]
pub(crate) fn disposition_of(
    role: Side,
    phase: Phase,
    strict: bool,
    guess: bool,
    waits: bool,
    number: u8,
) -> Disposition
    ensures { result ≡ disposition_by role phase strict guess waits number }
{
    let ruled = is_ruled(phase, strict);
    let leaves = leaves(role, phase, number);
    if number == SSH_MSG_DISCONNECT {
        Disposition::Reads
    } else if guess && !ruled {
        Disposition::Drops
    } else if guess && is_of_method(number) {
        Disposition::Drops
    } else if ruled && (guess || !leaves) {
        Disposition::Deviates
    } else if leaves || is_of_auth(role, phase, waits, number) || is_ignored(number) {
        Disposition::Reads
    } else if number == SSH_MSG_EXT_INFO && takes_extensions(phase) {
        Disposition::Reads
    } else if is_unknown(number) {
        Disposition::Unknown
    } else {
        Disposition::Unexpected
    }
}

/// Whether strictness rules the packets of this phase (OpenSSH PROTOCOL section 1.10).
fn is_ruled(phase: Phase, strict: bool) -> bool
    ensures { result ≡ is_ruled phase strict }
{
    match phase {
        Phase::Exchange | Phase::NewKeys => strict,
        _ => false,
    }
}

/// Whether a message with this number leaves the phase.
fn leaves(role: Side, phase: Phase, number: u8) -> bool
    ensures { result ≡ (number == leaving role phase) }
{
    match (phase, role) {
        (Phase::KexInit, _) => number == SSH_MSG_KEXINIT,
        (Phase::Exchange, Side::Client) => number == SSH_MSG_KEXDH_REPLY,
        (Phase::Exchange, Side::Server) => number == SSH_MSG_KEXDH_INIT,
        (Phase::NewKeys, _) => number == SSH_MSG_NEWKEYS,
        (Phase::Service, Side::Client) => number == SSH_MSG_SERVICE_ACCEPT,
        (Phase::Service, Side::Server) => number == SSH_MSG_SERVICE_REQUEST,
        (Phase::Auth, Side::Client) => number == SSH_MSG_USERAUTH_SUCCESS,
        (Phase::Auth, Side::Server) => number == SSH_MSG_USERAUTH_REQUEST,
    }
}

/// Whether the message is one of authentication: a server receives requests, a client FAILUREs and banners,
/// and a PK_OK while a query waits (RFC 4252); a SUCCESS leaves the phase.
fn is_of_auth(role: Side, phase: Phase, waits: bool, number: u8) -> bool
    ensures { result ≡ is_of_auth role phase waits number }
{
    match (phase, role) {
        (Phase::Auth, Side::Client) => {
            number == SSH_MSG_USERAUTH_FAILURE
                || number == SSH_MSG_USERAUTH_BANNER
                || waits && number == SSH_MSG_USERAUTH_PK_OK
        }
        (Phase::Auth, Side::Server) => number == SSH_MSG_USERAUTH_REQUEST,
        _ => false,
    }
}

/// Whether the number is one of the key exchange method's own (RFC 4250 section 4.1.1).
fn is_of_method(number: u8) -> bool
    ensures { result ≡ is_of_method number }
{
    30 <= number && number <= 49
}

/// Whether the message may come at any time (RFC 4253 section 11).
fn is_ignored(number: u8) -> bool
    ensures { result ≡ is_ignored number }
{
    2 <= number && number <= 4
}

/// Whether EXT_INFO has a place (RFC 8308 section 2.4).
fn takes_extensions(phase: Phase) -> bool
    ensures { result ≡ takes_extensions phase }
{
    match phase {
        Phase::Service | Phase::Auth => true,
        _ => false,
    }
}

/// Whether messages with this number say nothing to an endpoint: what may come at any time, EXT_INFO, and
/// what has no meaning here.
pub(crate) fn is_ignorable(number: u8) -> bool
    ensures { result ≡ is_ignorable number }
{
    is_ignored(number) || number == SSH_MSG_EXT_INFO || is_unknown(number)
}

/// Whether the number has no meaning here, up to the end of authentication (RFC 4253 section 11.4).
fn is_unknown(number: u8) -> bool
    ensures { result ≡ is_unknown number }
{
    match number {
        8..=19 | 22..=29 | 32..=49 | 54..=59 | 61..=79 => true,
        _ => false,
    }
}
