//! Builds the KEXINIT of accepted parts (RFC 4253 section 7.1).

ghost use Rattle.std.specs.Prelude.{◌≡◌, ◌+◌, ◌<◌, ◌^◌, ◌++◌, ◌∷◌, [], IfOk, codes, length, map, string_bytes};
ghost use Rattle.sshmsg.specs.View.{kexinit_data};
ghost use Rattle.sshcore.specs.ConfigParts.{key_algorithms, own_marker, side_offer};
ghost use Rattle.sshcore.specs.ConfigRules.{FitsKexInit};
ghost use Rattle.sshcore.specs.ConfigView.{host_key_data, side_data};

use crate::config_parts::{HostKey, SideParts};
use sshmsg::KexInit;
use sshneg::{Side, strict_marker};
use sshwire::{Memory, NameList};
use std::alloc::Global;

/// The lists of ciphers and MACs.
#[derive(Drop)]
struct Directions {
    encryption_client_to_server: NameList,
    encryption_server_to_client: NameList,
    mac_client_to_server: NameList,
    mac_server_to_client: NameList,
}

/// The lists that every config has alike.
#[derive(Drop)]
struct Alike {
    compression_client_to_server: NameList,
    compression_server_to_client: NameList,
    languages_client_to_server: NameList,
    languages_server_to_client: NameList,
}

/// The KEXINIT of a side of this role with this cookie and these host key algorithms, which announces a
/// guess or not. Answers `Memory` where an allocation failed, as each function below.
pub(crate) fn kexinit_of<'a>(
    alloc: Global,
    role: Side,
    side: &SideParts,
    cookie: &'a [u8; 16],
    host_keys: NameList,
    guess: bool,
) -> Result<KexInit<'a>, Memory>
    requires { FitsKexInit (side_data side.now) }
    ensures { IfOk result (λ k. kexinit_data k ≡ record (side_offer role (side_data side.now) host_keys guess) { cookie = cookie.now }) }
{
    let kex_algorithms = kex_list(alloc, role, side)?;
    let directions = directions_of(alloc, side)?;
    let alike = lists_alike(alloc)?;
    Ok(KexInit {
        cookie,
        kex_algorithms,
        server_host_key_algorithms: host_keys,
        encryption_client_to_server: directions.encryption_client_to_server,
        encryption_server_to_client: directions.encryption_server_to_client,
        mac_client_to_server: directions.mac_client_to_server,
        mac_server_to_client: directions.mac_server_to_client,
        compression_client_to_server: alike.compression_client_to_server,
        compression_server_to_client: alike.compression_server_to_client,
        languages_client_to_server: alike.languages_client_to_server,
        languages_server_to_client: alike.languages_server_to_client,
        first_kex_packet_follows: guess,
    })
}

/// The kex list with the marker, where the side is willing to be strict.
fn kex_list(alloc: Global, role: Side, side: &SideParts) -> Result<NameList, Memory>
    requires { length (side_data side.now).kex_algorithms + 1 < 2 ^ 25 }
    ensures { IfOk result (λ list. list ≡ (side_data side.now).kex_algorithms ++ own_marker role side.now.strict) }
{
    let mut texts = texts_of(alloc, &side.kex_algorithms)?;
    if side.strict {
        texts.push(strict_marker(role))?;
    }
    list_of_texts(alloc, &texts)
}

fn directions_of(alloc: Global, side: &SideParts) -> Result<Directions, Memory>
    requires { FitsKexInit (side_data side.now) }
    ensures cipher_in { IfOk result (λ lists. lists.encryption_client_to_server ≡ (side_data side.now).encryption_client_to_server) }
    ensures cipher_out { IfOk result (λ lists. lists.encryption_server_to_client ≡ (side_data side.now).encryption_server_to_client) }
    ensures mac_in { IfOk result (λ lists. lists.mac_client_to_server ≡ (side_data side.now).mac_client_to_server) }
    ensures mac_out { IfOk result (λ lists. lists.mac_server_to_client ≡ (side_data side.now).mac_server_to_client) }
{
    Ok(Directions {
        encryption_client_to_server: list_of(alloc, &side.encryption_client_to_server)?,
        encryption_server_to_client: list_of(alloc, &side.encryption_server_to_client)?,
        mac_client_to_server: list_of(alloc, &side.mac_client_to_server)?,
        mac_server_to_client: list_of(alloc, &side.mac_server_to_client)?,
    })
}

/// No compression and no languages.
fn lists_alike(alloc: Global) -> Result<Alike, Memory>
    ensures in_compression { IfOk result (λ lists. lists.compression_client_to_server ≡ codes "none" ∷ []) }
    ensures out_compression { IfOk result (λ lists. lists.compression_server_to_client ≡ codes "none" ∷ []) }
    ensures in_languages { IfOk result (λ lists. lists.languages_client_to_server ≡ []) }
    ensures out_languages { IfOk result (λ lists. lists.languages_server_to_client ≡ []) }
{
    Ok(Alike {
        compression_client_to_server: list_of_texts(alloc, &["none"])?,
        compression_server_to_client: list_of_texts(alloc, &["none"])?,
        languages_client_to_server: list_of_texts(alloc, &[])?,
        languages_server_to_client: list_of_texts(alloc, &[])?,
    })
}

/// The list of these names.
pub(crate) fn list_of(alloc: Global, names: &[String]) -> Result<NameList, Memory>
    requires { length names.now < 2 ^ 25 }
    ensures { IfOk result (λ list. list ≡ map string_bytes names.now) }
{
    let texts = texts_of(alloc, names)?;
    list_of_texts(alloc, &texts)
}

/// The list of the algorithms of host keys.
#[tactic(auto, using(crate::proofs::ConfigJudged::host_keys_mapped))]
pub(crate) fn list_of_host_keys(alloc: Global, keys: &[HostKey]) -> Result<NameList, Memory>
    requires { length keys.now < 2 ^ 25 }
    ensures { IfOk result (λ list. list ≡ key_algorithms (map host_key_data keys.now)) }
{
    let texts = texts_of_host_keys(alloc, keys)?;
    list_of_texts(alloc, &texts)
}

fn texts_of_host_keys<'a>(alloc: Global, keys: &'a [HostKey]) -> Result<Vec<&'a str>, Memory>
    ensures texts { IfOk result (λ texts. map (λ text. text.now) texts.items ≡ map (λ key. string_bytes key.algorithm) keys.now) }
    ensures count { IfOk result (λ texts. length texts.items ≡ length keys.now) }
{
    let mut texts = Vec::new(alloc);
    for key in keys {
        texts.push(key.algorithm.as_str())?;
    }
    Ok(texts)
}

fn texts_of<'a>(alloc: Global, names: &'a [String]) -> Result<Vec<&'a str>, Memory>
    ensures texts { IfOk result (λ texts. map (λ text. text.now) texts.items ≡ map string_bytes names.now) }
    ensures count { IfOk result (λ texts. length texts.items ≡ length names.now) }
{
    let mut texts = Vec::new(alloc);
    for name in names {
        texts.push(name.as_str())?;
    }
    Ok(texts)
}

/// The list of these names, of which it is known that they are some.
fn list_of_texts(alloc: Global, texts: &[&str]) -> Result<NameList, Memory>
    requires { length texts.now < 2 ^ 25 }
    ensures { IfOk result (λ list. list ≡ map (λ text. text.now) texts.now) }
{
    match NameList::from_names(alloc, texts) {
        Ok(list) => Ok(list),
        Err(_) => Err(Memory),
    }
}
