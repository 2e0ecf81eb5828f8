//! Judges which parts of configs have to have entries, and which are names, without memory.

ghost use Rattle.std.specs.Prelude.{◌≡◌};
ghost use Rattle.std.specs.List.{list_all};
ghost use Rattle.sshwire.specs.TypeReadings.{is_name};
ghost use Rattle.sshcore.specs.declared.config_fault.ConfigFault.TheVariants as fault;
ghost use Rattle.sshcore.specs.ConfigTests.{are_listed, are_methods, are_names, client_test, host_keys_are_named, is_attempt_named, is_listed, is_named, is_some, lists_are_names, lists_are_some, server_lists_are_names, server_test};

use crate::config_parts::{Attempt, ClientParts, Credential, HostKey, ServerParts, SideParts};
use sshneg::is_marker;
use sshwire::as_name;

pub(crate) fn client_lists_are_some(parts: &ClientParts) -> bool
    ensures { result ≡ client_test parts.now fault.EmptyList }
{
    lists_are_some(&parts.side, is_some(&parts.server_host_key_algorithms))
}

pub(crate) fn server_lists_are_some(parts: &ServerParts) -> bool
    ensures { result ≡ server_test parts.now fault.EmptyList }
{
    lists_are_some(&parts.side, !parts.host_keys.is_empty())
}

/// Whether each list of a side has a name, where it is known of the host key algorithms.
fn lists_are_some(side: &SideParts, host_keys: bool) -> bool
    ensures { result ≡ lists_are_some side.now host_keys }
{
    is_some(&side.kex_algorithms)
        && host_keys
        && is_some(&side.encryption_client_to_server)
        && is_some(&side.encryption_server_to_client)
        && is_some(&side.mac_client_to_server)
        && is_some(&side.mac_server_to_client)
}

pub(crate) fn is_some(names: &[String]) -> bool
    ensures { result ≡ is_some names.now }
{
    !names.is_empty()
}

pub(crate) fn client_names_are_names(parts: &ClientParts) -> bool
    ensures { result ≡ client_test parts.now fault.Name }
{
    lists_are_names(&parts.side, are_names(&parts.server_host_key_algorithms))
        && are_methods(&parts.side.kex_algorithms)
        && plan_is_named(&parts.plan)
}

pub(crate) fn server_names_are_names(parts: &ServerParts) -> bool
    ensures { result ≡ server_test parts.now fault.Name }
{
    server_lists_are_names(parts)
        && are_methods(&parts.side.kex_algorithms)
        && are_listed(&parts.methods)
        && are_listed(&parts.required)
}

fn server_lists_are_names(parts: &ServerParts) -> bool
    ensures { result ≡ server_lists_are_names parts.now }
{
    lists_are_names(&parts.side, host_keys_are_named(&parts.host_keys))
        && are_names(&parts.services)
        && are_names(&parts.methods)
        && are_names(&parts.required)
        && are_names(&parts.signature_algorithms)
}

/// Whether each entry of a side's lists is a name, where it is known of the host key algorithms.
fn lists_are_names(side: &SideParts, host_keys: bool) -> bool
    ensures { result ≡ lists_are_names side.now host_keys }
{
    are_names(&side.kex_algorithms)
        && host_keys
        && are_names(&side.encryption_client_to_server)
        && are_names(&side.encryption_server_to_client)
        && are_names(&side.mac_client_to_server)
        && are_names(&side.mac_server_to_client)
}

fn are_names(names: &[String]) -> bool
    ensures { result ≡ are_names names.now }
{
    names.iter().all(|name| is_name(name))
}

fn host_keys_are_named(keys: &[HostKey]) -> bool
    ensures { result ≡ host_keys_are_named keys.now }
{
    keys.iter().all(|key| is_name(&key.algorithm))
}

/// Whether no name of a kex list is a marker.
fn are_methods(names: &[String]) -> bool
    ensures { result ≡ are_methods names.now }
{
    names.iter().all(|name| !is_marker(name))
}

fn are_listed(names: &[String]) -> bool
    ensures { result ≡ are_listed names.now }
{
    names.iter().all(|name| is_listed(name))
}

/// Whether a server can list this method of requests.
fn is_listed(name: &str) -> bool
    ensures { result ≡ is_listed name.now }
{
    name == "password" || name == "publickey"
}

fn plan_is_named(plan: &[Attempt]) -> bool
    ensures { result ≡ list_all is_attempt_named plan.now }
{
    plan.iter().all(|attempt| is_attempt_named(attempt))
}

fn is_attempt_named(attempt: &Attempt) -> bool
    ensures { result ≡ is_attempt_named attempt.now }
{
    is_name(&attempt.service) && is_named(&attempt.credential)
}

/// Whether the algorithm of a credential, if it has one, is a name.
fn is_named(credential: &Credential) -> bool
    ensures { result ≡ is_named credential.now }
{
    match credential {
        Credential::PublicKey { algorithm, .. } => is_name(algorithm),
        _ => true,
    }
}

fn is_name(text: &str) -> bool
    ensures { result ≡ is_name text.now }
{
    sshwire::names_law();
    as_name(text.as_bytes()).is_some()
}
