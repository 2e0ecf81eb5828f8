//! What a peer is expected to do with a message that has its number alone.

ghost use Rattle.std.specs.Prelude.{◌≡◌, ◌==◌, false};
ghost use Rattle.sshcore.specs.Phases.{leaving};
ghost use Rattle.sshcore.specs.Table.{disposition_by, is_ignored, is_of_auth, is_ruled, is_unknown, takes_extensions};
ghost use Rattle.sshchecks.specs.Expected.{expected, may_wait, phase_at, strict_at, words_of};

use sshcore::{Disposition, Phase};
use sshmsg::{
    SSH_MSG_DISCONNECT, SSH_MSG_EXT_INFO, SSH_MSG_KEXDH_INIT, SSH_MSG_KEXDH_REPLY, SSH_MSG_KEXINIT,
    SSH_MSG_NEWKEYS, SSH_MSG_SERVICE_ACCEPT, SSH_MSG_SERVICE_REQUEST, SSH_MSG_USERAUTH_BANNER,
    SSH_MSG_USERAUTH_FAILURE, SSH_MSG_USERAUTH_REQUEST, SSH_MSG_USERAUTH_SUCCESS,
};
use sshneg::Side;

/// A place of a session in which each of the 256 numbers is sent, alone in its packet.
#[derive(Clone, Copy, Debug, PartialEq, Eq)]
pub enum Place {
    /// After KEXINIT, nobody strict.
    KexInit,
    /// After KEXINIT, both strict.
    KexInitStrict,
    /// Between the share and NEWKEYS, both strict.
    NewKeysStrict,
    /// After NEWKEYS.
    Service,
    /// After SERVICE_ACCEPT.
    Auth,
}

/// What is expected of the number that has its place there.
const ANYTHING: &str = "ends|goes_on|unimplemented|silent|garbled|FAILURE";

/// The words of what is expected there of a peer of this role, with `|` between: by the phase table, since a message
/// that has its number alone lacks the fields with which it would be read.
pub fn expected_at(peer: Side, place: Place, number: u8) -> &'static str
    ensures { result.now ≡ expected peer place number }
{
    let phase = phase_at(place);
    if number == leaving(peer, phase) || may_wait(peer, place, number) {
        return ANYTHING;
    }
    words_of(disposition_at(peer, phase, strict_at(place), number))
}

/// What an endpoint waits for at a place.
fn phase_at(place: Place) -> Phase
    ensures { result ≡ phase_at place }
{
    match place {
        Place::KexInit | Place::KexInitStrict => Phase::Exchange,
        Place::NewKeysStrict => Phase::NewKeys,
        Place::Service => Phase::Service,
        Place::Auth => Phase::Auth,
    }
}

/// Whether strictness was agreed at a place.
fn strict_at(place: Place) -> bool
    ensures { result ≡ strict_at place }
{
    match place {
        Place::KexInitStrict | Place::NewKeysStrict => true,
        _ => false,
    }
}

/// Whether the number means something to a client that waits for what is told of its query.
fn may_wait(role: Side, place: Place, number: u8) -> bool
    ensures { result ≡ may_wait role place number }
{
    match (role, place) {
        (Side::Client, Place::Auth) => number == 60,
        _ => false,
    }
}

/// What is expected by a line of the table.
fn words_of(disposition: Disposition) -> &'static str
    ensures { result.now ≡ words_of disposition }
{
    match disposition {
        Disposition::Unknown => "unimplemented",
        _ => "ends",
    }
}

/// The line of the phase table that decides on a message with this number, where no guess is due and no query waits.
#[tactic(auto, unfolding(sshcore::specs::Table::disposition_by))]
fn disposition_at(role: Side, phase: Phase, strict: bool, number: u8) -> Disposition
    ensures { result ≡ disposition_by role phase strict false false number }
{
    let leaves = number == leaving(role, phase);
    if number == SSH_MSG_DISCONNECT {
        Disposition::Reads
    } else if is_ruled(phase, strict) && !leaves {
        Disposition::Deviates
    } else if leaves || is_of_auth(role, phase, number) || is_ignored(number) {
        Disposition::Reads
    } else if number == SSH_MSG_EXT_INFO && takes_extensions(phase) {
        Disposition::Reads
    } else if is_unknown(number) {
        Disposition::Unknown
    } else {
        Disposition::Unexpected
    }
}

/// The number of the message that leaves a phase.
fn leaving(role: Side, phase: Phase) -> u8
    ensures { result ≡ leaving role phase }
{
    match (phase, role) {
        (Phase::KexInit, _) => SSH_MSG_KEXINIT,
        (Phase::Exchange, Side::Client) => SSH_MSG_KEXDH_REPLY,
        (Phase::Exchange, Side::Server) => SSH_MSG_KEXDH_INIT,
        (Phase::NewKeys, _) => SSH_MSG_NEWKEYS,
        (Phase::Service, Side::Client) => SSH_MSG_SERVICE_ACCEPT,
        (Phase::Service, Side::Server) => SSH_MSG_SERVICE_REQUEST,
        (Phase::Auth, Side::Client) => SSH_MSG_USERAUTH_SUCCESS,
        (Phase::Auth, Side::Server) => SSH_MSG_USERAUTH_REQUEST,
    }
}

/// Whether strictness rules the packets of this phase (OpenSSH PROTOCOL section 1.10).
fn is_ruled(phase: Phase, strict: bool) -> bool
    ensures { result ≡ is_ruled phase strict }
{
    match phase {
        Phase::Exchange | Phase::NewKeys => strict,
        _ => false,
    }
}

/// Whether the message is one of authentication, where no query waits.
fn is_of_auth(role: Side, phase: Phase, number: u8) -> bool
    ensures { result ≡ is_of_auth role phase false number }
{
    match (phase, role) {
        (Phase::Auth, Side::Client) => {
            number == SSH_MSG_USERAUTH_FAILURE || number == SSH_MSG_USERAUTH_BANNER
        }
        (Phase::Auth, Side::Server) => number == SSH_MSG_USERAUTH_REQUEST,
        _ => false,
    }
}

/// Whether the message may come at any time (RFC 4253 section 11).
fn is_ignored(number: u8) -> bool
    ensures { result ≡ is_ignored number }
{
    2 <= number && number <= 4
}

/// Whether EXT_INFO has a place (RFC 8308 section 2.4).
fn takes_extensions(phase: Phase) -> bool
    ensures { result ≡ takes_extensions phase }
{
    match phase {
        Phase::Service | Phase::Auth => true,
        _ => false,
    }
}

/// Whether the number has no meaning up to the end of authentication (RFC 4253 section 11.4, RFC 4250 section 4.1).
fn is_unknown(number: u8) -> bool
    ensures { result ≡ is_unknown number }
{
    8 <= number && number <= 19
        || 22 <= number && number <= 29
        || 32 <= number && number <= 49
        || 54 <= number && number <= 59
        || 61 <= number && number <= 79
}
