//! Judges how long parts of configs are, without memory.

ghost use Rattle.std.specs.Prelude.{◌≡◌, length, nat_le, option_map, string_bytes};
ghost use Rattle.std.specs.List.{list_all};
ghost use Rattle.sshcore.specs.declared.config_parts.TheConstants.{BANNER_LIMIT, PRIVATE_KEY_LIMIT, USER_LIMIT};
ghost use Rattle.sshcore.specs.declared.config_fault.ConfigFault.TheVariants as fault;
ghost use Rattle.sshcore.specs.ConfigTests.{client_test, has_short_key, has_short_password, host_keys_are_short, is_short_banner, is_short_list, lists_are_short, server_test};

use crate::config_parts::{
    Attempt, BANNER_LIMIT, ClientParts, Credential, HostKey, LIST_LIMIT, PASSWORD_LIMIT,
    PLAN_LIMIT, PRIVATE_KEY_LIMIT, ServerParts, SideParts, USER_LIMIT,
};

pub(crate) fn client_lists_are_short(parts: &ClientParts) -> bool
    ensures { result ≡ client_test parts.now fault.ListTooLong }
{
    lists_are_short(
        &parts.side,
        is_short_list(&parts.server_host_key_algorithms),
    )
}

pub(crate) fn server_lists_are_short(parts: &ServerParts) -> bool
    ensures { result ≡ server_test parts.now fault.ListTooLong }
{
    lists_are_short(&parts.side, host_keys_are_short(&parts.host_keys))
        && is_short_list(&parts.services)
        && is_short_list(&parts.methods)
        && is_short_list(&parts.required)
        && is_short_list(&parts.signature_algorithms)
}

/// Whether the text of each of a side's lists is short enough, where it is known of the host key
/// algorithms.
fn lists_are_short(side: &SideParts, host_keys: bool) -> bool
    ensures { result ≡ lists_are_short side.now host_keys }
{
    is_short_list(&side.kex_algorithms)
        && host_keys
        && is_short_list(&side.encryption_client_to_server)
        && is_short_list(&side.encryption_server_to_client)
        && is_short_list(&side.mac_client_to_server)
        && is_short_list(&side.mac_server_to_client)
}

/// Whether the names with single commas between have at most 1000 bytes.
fn is_short_list(names: &[String]) -> bool
    ensures { result ≡ is_short_list names.now }
{
    sshwire::names_law();
    // Each name needs its bytes and a comma, but the last one none.
    let mut left = LIST_LIMIT + 1;
    for name in names {
        if name.len() >= left {
            return false;
        }
        left -= name.len() + 1;
    }
    true
}

/// The same of the algorithms of host keys.
fn host_keys_are_short(keys: &[HostKey]) -> bool
    ensures { result ≡ host_keys_are_short keys.now }
{
    sshwire::names_law();
    let mut left = LIST_LIMIT + 1;
    for key in keys {
        if key.algorithm.len() >= left {
            return false;
        }
        left -= key.algorithm.len() + 1;
    }
    true
}

pub(crate) fn client_users_are_short(parts: &ClientParts) -> bool
    ensures { result ≡ client_test parts.now fault.User }
{
    users_are_short(&parts.plan)
}

fn users_are_short(plan: &[Attempt]) -> bool
    ensures { result ≡ list_all (λ attempt. nat_le (length (string_bytes attempt.user)) USER_LIMIT) plan.now }
{
    plan.iter().all(|attempt| attempt.user.len() <= USER_LIMIT)
}

pub(crate) fn client_passwords_are_short(parts: &ClientParts) -> bool
    ensures { result ≡ client_test parts.now fault.Secret }
{
    passwords_are_short(&parts.plan)
}

fn passwords_are_short(plan: &[Attempt]) -> bool
    ensures { result ≡ list_all (λ attempt. has_short_password attempt.credential) plan.now }
{
    plan.iter()
        .all(|attempt| has_short_password(&attempt.credential))
}

fn has_short_password(credential: &Credential) -> bool
    ensures { result ≡ has_short_password credential.now }
{
    match credential {
        Credential::Password(password) => password.len() <= PASSWORD_LIMIT,
        _ => true,
    }
}

pub(crate) fn client_keys_are_short(parts: &ClientParts) -> bool
    ensures { result ≡ client_test parts.now fault.Blob }
{
    keys_are_short(&parts.plan)
}

fn keys_are_short(plan: &[Attempt]) -> bool
    ensures { result ≡ list_all (λ attempt. has_short_key attempt.credential) plan.now }
{
    plan.iter()
        .all(|attempt| has_short_key(&attempt.credential))
}

fn has_short_key(credential: &Credential) -> bool
    ensures { result ≡ has_short_key credential.now }
{
    match credential {
        Credential::PublicKey { private_key, .. } => private_key.len() <= PRIVATE_KEY_LIMIT,
        _ => true,
    }
}

pub(crate) fn plan_is_short(parts: &ClientParts) -> bool
    ensures { result ≡ client_test parts.now fault.Plan }
{
    parts.plan.len() <= PLAN_LIMIT
}

/// Whether private keys and the banner are short enough.
pub(crate) fn server_blobs_are_short(parts: &ServerParts) -> bool
    ensures { result ≡ server_test parts.now fault.Blob }
{
    host_keys_have_short_keys(&parts.host_keys) && is_short_banner(&parts.banner)
}

fn host_keys_have_short_keys(keys: &[HostKey]) -> bool
    ensures { result ≡ list_all (λ key. nat_le (length key.private_key.items) PRIVATE_KEY_LIMIT) keys.now }
{
    keys.iter()
        .all(|key| key.private_key.len() <= PRIVATE_KEY_LIMIT)
}

fn is_short_banner(banner: &Option<Vec<u8>>) -> bool
    ensures { result ≡ is_short_banner (option_map (λ text. text.items) banner.now) }
{
    match banner {
        Some(text) => text.len() <= BANNER_LIMIT,
        None => true,
    }
}
