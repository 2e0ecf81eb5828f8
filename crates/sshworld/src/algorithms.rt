//! The names of the algorithms that are used.

ghost use Rattle.std.specs.Prelude.{◌≡◌, ◌<◌, IfOk, Some, length, string_bytes};
ghost use Rattle.std.specs.List.{slice_get};
ghost use Rattle.sshwire.specs.Types.{IsName};
ghost use Rattle.sshmsg.specs.View.{kexinit_data};
ghost use Rattle.sshneg.specs.Fields as fields;
ghost use Rattle.sshcore.specs.Chosen.{AreAt, AreNamed, ArePlaced};
ghost use Rattle.sshcore.specs.EndData.{agreed_data};
ghost use Rattle.sshworld.specs.AlgorithmsView.{agreed_with, algorithms_copied, algorithms_named};

use sshcore::{Agreed, Attempt};
use sshmsg::KexInit;
use sshneg::Chosen;
use sshwire::owned::beside;
use sshwire::{Memory, NameList};
use std::alloc::Global;

/// The algorithms of a choice (RFC 4253 section 7.1), by their names, which are lent out of the client's
/// KEXINIT.
#[derive(Clone, Copy)]
pub(crate) struct AlgorithmNames<'a> {
    pub(crate) kex: &'a str,
    pub(crate) host_key: &'a str,
    encryption_client_to_server: &'a str,
    encryption_server_to_client: &'a str,
    mac_client_to_server: &'a str,
    mac_server_to_client: &'a str,
    compression_client_to_server: &'a str,
    compression_server_to_client: &'a str,
}

/// Two names, copied.
#[derive(Drop)]
struct Pair {
    first: String,
    second: String,
}

/// The same names, copied.
#[derive(Drop)]
struct Copies {
    /// The key exchange method, and the algorithm of the server's host key.
    exchange: Pair,
    /// The cipher from client to server, and that of the other direction.
    encryption: Pair,
    /// The MACs alike.
    mac: Pair,
    /// Compression alike.
    compression: Pair,
}

/// The names at these positions of the client's lists.
pub(crate) fn algorithms_at<'a>(client: &'a KexInit<'_>, chosen: &Chosen) -> AlgorithmNames<'a>
    requires { ArePlaced (kexinit_data client.now) chosen.now }
    ensures at { (a : fields.AlgorithmsData) → AreAt (kexinit_data client.now) chosen.now a → algorithms_named result ≡ a }
    ensures names { AreNamed (algorithms_named result) }
{
    AlgorithmNames {
        kex: name_at(&client.kex_algorithms, chosen.kex),
        host_key: name_at(&client.server_host_key_algorithms, chosen.host_key),
        encryption_client_to_server: name_at(
            &client.encryption_client_to_server,
            chosen.encryption_client_to_server,
        ),
        encryption_server_to_client: name_at(
            &client.encryption_server_to_client,
            chosen.encryption_server_to_client,
        ),
        mac_client_to_server: name_at(&client.mac_client_to_server, chosen.mac_client_to_server),
        mac_server_to_client: name_at(&client.mac_server_to_client, chosen.mac_server_to_client),
        compression_client_to_server: name_at(
            &client.compression_client_to_server,
            chosen.compression_client_to_server,
        ),
        compression_server_to_client: name_at(
            &client.compression_server_to_client,
            chosen.compression_server_to_client,
        ),
    }
}

/// The name at a position of a list.
fn name_at(list: &NameList, position: usize) -> &str
    requires { position < length list.now }
    ensures stands { slice_get list.now position ≡ Some result.now }
    ensures name { IsName result.now }
{
    list.name_at(position).unwrap()
}

/// What is agreed with these algorithms, in this session, once this attempt has succeeded; all of it is
/// copied. Answers `Memory` where an allocation failed, as each function below.
pub(crate) fn agreed(
    alloc: Global,
    names: &AlgorithmNames<'_>,
    strict: bool,
    session: &[u8],
    attempt: &Attempt,
) -> Result<Agreed, Memory>
    ensures { IfOk result (λ agreed. agreed_data agreed ≡ agreed_with names.now strict session.now attempt.now) }
{
    let copies = copies_of(alloc, names)?;
    let asked = copy_pair(alloc, &attempt.user, &attempt.service);
    let front = beside(copies, asked)?;
    let session = copy_bytes(alloc, session);
    let ((copies, asked), session) = beside(front, session)?;
    Ok(Agreed {
        kex: copies.exchange.first,
        host_key: copies.exchange.second,
        encryption_client_to_server: copies.encryption.first,
        encryption_server_to_client: copies.encryption.second,
        mac_client_to_server: copies.mac.first,
        mac_server_to_client: copies.mac.second,
        compression_client_to_server: copies.compression.first,
        compression_server_to_client: copies.compression.second,
        strict,
        session,
        user: asked.first,
        service: asked.second,
    })
}

/// The names, copied.
fn copies_of(alloc: Global, names: &AlgorithmNames<'_>) -> Result<Copies, Memory>
    ensures { IfOk result (λ copies. algorithms_copied copies ≡ algorithms_named names.now) }
{
    let exchange = copy_pair(alloc, names.kex, names.host_key)?;
    let encryption = copy_pair(
        alloc,
        names.encryption_client_to_server,
        names.encryption_server_to_client,
    );
    let front = beside(exchange, encryption)?;
    let mac = copy_pair(
        alloc,
        names.mac_client_to_server,
        names.mac_server_to_client,
    );
    let front = beside(front, mac)?;
    let compression = copy_pair(
        alloc,
        names.compression_client_to_server,
        names.compression_server_to_client,
    );
    let (((exchange, encryption), mac), compression) = beside(front, compression)?;
    Ok(Copies {
        exchange,
        encryption,
        mac,
        compression,
    })
}

/// Two names, copied.
fn copy_pair(alloc: Global, first: &str, second: &str) -> Result<Pair, Memory>
    ensures first { IfOk result (λ pair. string_bytes pair.first ≡ first.now) }
    ensures second { IfOk result (λ pair. string_bytes pair.second ≡ second.now) }
{
    Ok(Pair {
        first: String::from_str(alloc, first)?,
        second: String::from_str(alloc, second)?,
    })
}

/// The bytes, copied.
fn copy_bytes(alloc: Global, bytes: &[u8]) -> Result<Vec<u8>, Memory>
    ensures { IfOk result (λ copy. copy.items ≡ bytes.now) }
{
    Ok(Vec::from_slice(alloc, bytes)?)
}
