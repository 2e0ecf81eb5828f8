//! Judges the parts of configs, without memory: one function for each rule, and the least refusal.

ghost use Rattle.std.specs.Prelude.{◌≡◌, map, string_bytes};
ghost use Rattle.std.specs.List.{list_all};
ghost use Rattle.sshneg.specs.ChoiceReadings.{is_in};
ghost use Rattle.sshcore.specs.declared.config_fault.ConfigFault.TheVariants as fault;
ghost use Rattle.sshcore.specs.ConfigTests.{are_distinct, are_notices, are_required, client_test, has_lengths, is_notice, is_notice_byte, is_some, is_version, refusal, server_test};

use crate::config::name_in;
use crate::config_fault::ConfigFault;
use crate::config_lengths::{
    client_keys_are_short, client_lists_are_short, client_passwords_are_short,
    client_users_are_short, plan_is_short, server_blobs_are_short, server_lists_are_short,
};
use crate::config_names::{
    client_lists_are_some, client_names_are_names, server_lists_are_some, server_names_are_names,
};
use crate::config_parts::{
    ClientParts, NOTICE_LIMIT, NOTICE_LINE_LIMIT, ServerParts, SideParts, TRIES_LIMIT,
};
use sshwire::VersionLine;

/// The least refusal of a client's parts, if there is one.
pub(crate) fn client_refusal(parts: &ClientParts) -> Option<ConfigFault>
    ensures { result ≡ refusal (client_test parts.now) }
{
    if !client_lists_are_some(parts) {
        return Some(ConfigFault::EmptyList);
    }
    if !client_names_are_names(parts) {
        return Some(ConfigFault::Name);
    }
    if !client_lists_are_short(parts) {
        return Some(ConfigFault::ListTooLong);
    }
    if !is_version(&parts.side) {
        return Some(ConfigFault::Line);
    }
    if !client_users_are_short(parts) {
        return Some(ConfigFault::User);
    }
    if !client_passwords_are_short(parts) {
        return Some(ConfigFault::Secret);
    }
    if !client_keys_are_short(parts) {
        return Some(ConfigFault::Blob);
    }
    if !plan_is_short(parts) {
        return Some(ConfigFault::Plan);
    }
    if !has_lengths(&parts.side) {
        return Some(ConfigFault::Random);
    }
    None
}

/// The least refusal of a server's parts, if there is one.
pub(crate) fn server_refusal(parts: &ServerParts) -> Option<ConfigFault>
    ensures { result ≡ refusal (server_test parts.now) }
{
    if !server_lists_are_some(parts) {
        return Some(ConfigFault::EmptyList);
    }
    if !server_names_are_names(parts) {
        return Some(ConfigFault::Name);
    }
    if !server_lists_are_short(parts) {
        return Some(ConfigFault::ListTooLong);
    }
    if !server_lines_are_lines(parts) {
        return Some(ConfigFault::Line);
    }
    if !server_blobs_are_short(parts) {
        return Some(ConfigFault::Blob);
    }
    if parts.tries < 1 || parts.tries > TRIES_LIMIT {
        return Some(ConfigFault::Tries);
    }
    if !has_lengths(&parts.side) {
        return Some(ConfigFault::Random);
    }
    if !server_required_are_methods(parts) {
        return Some(ConfigFault::Required);
    }
    None
}

/// Whether softwareversion and comments spell a version line.
fn is_version(side: &SideParts) -> bool
    ensures { result ≡ is_version side.now }
{
    match &side.comments {
        Some(comments) => VersionLine::is_spelled_by(
            &side.softwareversion,
            Some(comments.as_str()),
        ),
        None => VersionLine::is_spelled_by(&side.softwareversion, None),
    }
}

fn server_lines_are_lines(parts: &ServerParts) -> bool
    ensures { result ≡ server_test parts.now fault.Line }
{
    is_version(&parts.side)
        && parts.notice_lines.len() <= NOTICE_LIMIT
        && are_notices(&parts.notice_lines)
}

fn are_notices(lines: &[Vec<u8>]) -> bool
    ensures { result ≡ are_notices lines.now }
{
    lines.iter().all(|line| is_notice(line))
}

/// Whether the bytes can be a notice line, its CR LF left out.
fn is_notice(line: &[u8]) -> bool
    ensures { result ≡ is_notice line.now }
{
    line.len() <= NOTICE_LINE_LIMIT && are_notice_bytes(line) && !line.starts_with(b"SSH-")
}

fn are_notice_bytes(line: &[u8]) -> bool
    ensures { result ≡ list_all is_notice_byte line.now }
{
    line.iter().all(|b| is_notice_byte(*b))
}

fn is_notice_byte(b: u8) -> bool
    ensures { result ≡ is_notice_byte b }
{
    b.is_ascii_graphic() || b == b' '
}

fn server_required_are_methods(parts: &ServerParts) -> bool
    ensures { result ≡ server_test parts.now fault.Required }
{
    are_required(&parts.methods, &parts.required)
}

/// Whether each required method is one of the methods, and none stands twice.
fn are_required(methods: &[String], required: &[String]) -> bool
    ensures { result ≡ are_required (map string_bytes methods.now) (map string_bytes required.now) }
{
    are_in(methods, required) && are_distinct(required)
}

/// Whether all these names stand in this list.
fn are_in(names: &[String], required: &[String]) -> bool
    ensures { result ≡ list_all (λ own. is_in (map string_bytes names.now) (string_bytes own)) required.now }
{
    required.iter().all(|name| is_in(names, name))
}

fn is_in(names: &[String], name: &str) -> bool
    ensures { result ≡ is_in (map string_bytes names.now) name.now }
{
    name_in(names, name.as_bytes()).is_some()
}

/// Whether no name stands twice.
fn are_distinct(names: &[String]) -> bool
    ensures { result ≡ are_distinct (map string_bytes names.now) }
{
    match names.split_first() {
        None => true,
        Some((name, later)) => !is_in(later, name) && are_distinct(later),
    }
}

/// Whether cookie, exchange random and padding seed have their lengths.
fn has_lengths(side: &SideParts) -> bool
    ensures { result ≡ has_lengths side.now }
{
    side.cookie.len() == 16 && side.exchange_random.len() == 32 && side.padding_seed.len() == 32
}
