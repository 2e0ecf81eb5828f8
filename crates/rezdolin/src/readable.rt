//! Whether the numbers and the entries of a program can be read.
//!
//! A number that says nothing is refused, and so is an entry that would accept more than its writer means: of a forgotten
//! method, of an empty password, of no user.

ghost use Rattle.std.specs.Prelude.{◌≡◌, false, true};
ghost use Rattle.std.specs.List.{AllByRecursion};
ghost use Rattle.rezdolin.specs.Readable.{IsAttempt, IsClientRead, IsEntry, IsMethod, IsPeerReading, IsPlaced, IsServerRead, IsStrictness};

use crate::inputs::{
    AttemptInput, ClientInput, HostKeyInput, KEY_ELSEWHERE, KEY_HERE, METHOD_NONE, METHOD_PASSWORD,
    METHOD_PUBLICKEY, METHOD_SIGNED, READING_DEPLOYED, READING_STRICT, STRICT_NO, STRICT_YES,
    ServerInput, UserInput,
};
use sshcore::PASSWORD_LIMIT;

/// Whether the numbers of a client can be read.
pub(crate) fn is_client_read(client: &ClientInput<'_>) -> bool
    ensures yes { result ≡ true → IsClientRead client.now }
    ensures no { result ≡ false → IsClientRead client.now → ⊥ }
{
    is_strictness(client.side.strict)
        && is_peer_reading(client.side.reading)
        && client.guess <= 1
        && client.asks <= 1
        && are_attempts(client.plan, client.asks == 1)
}

/// Whether the numbers of a server, and the entries that it reads, can be read.
pub(crate) fn is_server_read(server: &ServerInput<'_>) -> bool
    ensures yes { result ≡ true → IsServerRead server.now }
    ensures no { result ≡ false → IsServerRead server.now → ⊥ }
{
    is_strictness(server.side.strict)
        && is_peer_reading(server.side.reading)
        && server.asks <= 1
        && are_keys(server.host_keys, server.asks == 1)
        && (server.asks == 1 || are_entries(server.users))
}

/// Whether the numbers of each attempt of a client can be read that asks, or doesn't.
fn are_attempts(plan: &[AttemptInput<'_>], asks: bool) -> bool
    ensures yes { result ≡ true → AllByRecursion (IsAttempt asks) plan.now }
    ensures no { result ≡ false → AllByRecursion (IsAttempt asks) plan.now → ⊥ }
{
    for attempt in plan {
        if !is_attempt(attempt, asks) {
            return false;
        }
    }
    true
}

/// Whether the place of each host key of a server can be read that asks, or doesn't.
fn are_keys(keys: &[HostKeyInput<'_>], asks: bool) -> bool
    ensures yes { result ≡ true → AllByRecursion (IsPlaced asks) keys.now }
    ensures no { result ≡ false → AllByRecursion (IsPlaced asks) keys.now → ⊥ }
{
    for key in keys {
        if !is_placed(key, asks) {
            return false;
        }
    }
    true
}

/// Whether the place of a host key can be read.
fn is_placed(key: &HostKeyInput<'_>, asks: bool) -> bool
    ensures yes { result ≡ true → IsPlaced asks key.now }
    ensures no { result ≡ false → IsPlaced asks key.now → ⊥ }
{
    key.place == KEY_HERE || (key.place == KEY_ELSEWHERE && asks)
}

/// Whether each entry can be read.
fn are_entries(users: &[UserInput<'_>]) -> bool
    ensures yes { result ≡ true → AllByRecursion IsEntry users.now }
    ensures no { result ≡ false → AllByRecursion IsEntry users.now → ⊥ }
{
    for entry in users {
        if !is_entry(entry) {
            return false;
        }
    }
    true
}

/// Whether a number says that a side is strict, or that it isn't.
fn is_strictness(number: u32) -> bool
    ensures yes { result ≡ true → IsStrictness number }
    ensures no { result ≡ false → IsStrictness number → ⊥ }
{
    number == STRICT_YES || number == STRICT_NO
}

/// Whether a number names a grammar of the peer's version line.
fn is_peer_reading(number: u32) -> bool
    ensures yes { result ≡ true → IsPeerReading number }
    ensures no { result ≡ false → IsPeerReading number → ⊥ }
{
    number == READING_DEPLOYED || number == READING_STRICT
}

/// Whether a number is one of a method.
fn is_method(number: u32) -> bool
    ensures yes { result ≡ true → IsMethod number }
    ensures no { result ≡ false → IsMethod number → ⊥ }
{
    number == METHOD_NONE || number == METHOD_PASSWORD || number == METHOD_PUBLICKEY
}

/// Whether the numbers of an attempt can be read.
fn is_attempt(attempt: &AttemptInput<'_>, asks: bool) -> bool
    ensures yes { result ≡ true → IsAttempt asks attempt.now }
    ensures no { result ≡ false → IsAttempt asks attempt.now → ⊥ }
{
    (is_method(attempt.method) || (attempt.method == METHOD_SIGNED && asks)) && attempt.ask <= 1
}

/// Whether an entry has a user, a method, and what the method wants: nothing, or some bytes, of a password no more than are looked at.
fn is_entry(entry: &UserInput<'_>) -> bool
    ensures yes { result ≡ true → IsEntry entry.now }
    ensures no { result ≡ false → IsEntry entry.now → ⊥ }
{
    !entry.user.is_empty()
        && is_method(entry.method)
        && entry.proof.is_empty() == (entry.method == METHOD_NONE)
        && (entry.method != METHOD_PASSWORD || entry.proof.len() <= PASSWORD_LIMIT)
}
