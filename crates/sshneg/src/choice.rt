//! The choice of algorithms (RFC 4253 section 7.1).

ghost use Rattle.std.specs.Prelude.{◌≡◌, ◌&&◌, ◌<◌, ℕ, List, Some, find, length, not, option_map};
ghost use Rattle.std.specs.List.{list_any, position, slice_get};
ghost use Rattle.sshwire.specs.Types.{IsName};
ghost use Rattle.sshmsg.specs.View.{kexinit_data};
ghost use Rattle.sshneg.specs.declared.choice.NoCommon.TheVariants as field;
ghost use Rattle.sshneg.specs.Choice.{ChoiceAnswer, serves};
ghost use Rattle.sshneg.specs.Markers.{is_marker};
ghost use Rattle.sshneg.specs.Printed.{field_text};
ghost use Rattle.sshneg.specs.ChoiceReadings.{answer, answered, choice_of_directions, first_common, host_key_choice, is_in, kex_choice, position_in, positioned};

use crate::guess::{first_method, same_name};
use crate::markers::is_marker;
use sshmsg::KexInit;
use sshpacket::{Capability, Need, Suite};
use sshwire::NameList;
use std::error::Error;
use std::fmt;

/// The first field of a KEXINIT, in its order, that has no choice (RFC 4253 section 7.1): no name of
/// the client's is listed by the server and, for a method or a host key algorithm, of use. Prints
/// the field's name in the program's format.
#[derive(Clone, Copy, Debug, PartialEq, Eq)]
pub enum NoCommon {
    /// Key exchange methods.
    Kex,
    /// Algorithms of the server's host key.
    HostKey,
    /// Ciphers from client to server.
    EncryptionClientToServer,
    /// Ciphers from server to client.
    EncryptionServerToClient,
    /// MACs from client to server.
    MacClientToServer,
    /// MACs from server to client.
    MacServerToClient,
    /// Compression from client to server.
    CompressionClientToServer,
    /// Compression from server to client.
    CompressionServerToClient,
}

/// The algorithms that are used (RFC 4253 section 7.1). Each is told by where its name stands first in
/// the client's KEXINIT: a position in that list, from 0, to which markers count too.
#[derive(Clone, Copy, Debug, PartialEq, Eq)]
pub struct Chosen {
    /// The key exchange method.
    pub kex: usize,
    /// The algorithm of the server's host key.
    pub host_key: usize,
    /// The cipher from client to server.
    pub encryption_client_to_server: usize,
    /// The cipher from server to client.
    pub encryption_server_to_client: usize,
    /// The MAC from client to server.
    pub mac_client_to_server: usize,
    /// The MAC from server to client.
    pub mac_server_to_client: usize,
    /// The compression from client to server.
    pub compression_client_to_server: usize,
    /// The compression from server to client.
    pub compression_server_to_client: usize,
}

impl fmt::Display for NoCommon {
    ghost output = { λ no_common. Some (field_text no_common) };

    fn fmt<W: fmt::Write>(&self, f: &mut fmt::Formatter<W>) -> fmt::Result {
        f.write_str(field_text(*self))
    }
}

/// The field's name in the program's format.
fn field_text(field: NoCommon) -> &'static str
    ensures { result.now ≡ field_text field }
{
    match field {
        NoCommon::Kex => "kex",
        NoCommon::HostKey => "hostkey",
        NoCommon::EncryptionClientToServer => "cipher_cs",
        NoCommon::EncryptionServerToClient => "cipher_sc",
        NoCommon::MacClientToServer => "mac_cs",
        NoCommon::MacServerToClient => "mac_sc",
        NoCommon::CompressionClientToServer => "compression_cs",
        NoCommon::CompressionServerToClient => "compression_sc",
    }
}

impl Error for NoCommon {}

/// The algorithms that two KEXINITs come to (RFC 4253 section 7.1), or the first field, in the order
/// of a KEXINIT, that has none. Takes no memory.
pub fn choose<S: Suite>(
    client: &KexInit<'_>,
    server: &KexInit<'_>,
    suite: &S,
) -> Result<Chosen, NoCommon>
    ensures tells { ChoiceAnswer (S.meaning suite.now) (kexinit_data client.now) (kexinit_data server.now) result }
    ensures exact { result ≡ answer (S.meaning suite.now) (kexinit_data client.now) (kexinit_data server.now) }
{
    let kex = choose_kex(client, server, suite)?;
    let host_key = choose_host_key(client, server, kex, suite)?;
    choose_directions(client, server, kex, host_key)
}

/// The position of the key exchange method.
#[tactic(auto, using(crate::proofs::PositionLemmas::found_or))]
fn choose_kex<S: Suite>(
    client: &KexInit<'_>,
    server: &KexInit<'_>,
    suite: &S,
) -> Result<usize, NoCommon>
    ensures { result ≡ positioned field.Kex client.now.kex_algorithms (kex_choice (S.meaning suite.now) (kexinit_data client.now) (kexinit_data server.now)) }
{
    find_kex(client, server, suite).ok_or(NoCommon::Kex)
}

/// The position of the host key algorithm, where the method at this position of the client's list is
/// used.
#[tactic(auto, using(crate::proofs::PositionLemmas::found_or))]
fn choose_host_key<S: Suite>(
    client: &KexInit<'_>,
    server: &KexInit<'_>,
    kex: usize,
    suite: &S,
) -> Result<usize, NoCommon>
    requires { kex < length client.now.kex_algorithms }
    ensures { (name : List ℕ) → slice_get client.now.kex_algorithms kex ≡ Some name
        → result ≡ positioned field.HostKey client.now.server_host_key_algorithms (host_key_choice (S.meaning suite.now) (kexinit_data client.now) (kexinit_data server.now) name) }
{
    let need = need_at(&client.kex_algorithms, kex, suite);
    find_host_key(client, server, need, suite).ok_or(NoCommon::HostKey)
}

/// The choice with this method and this host key algorithm, or the first of the other six fields that
/// has none.
fn choose_directions(
    client: &KexInit<'_>,
    server: &KexInit<'_>,
    kex: usize,
    host_key: usize,
) -> Result<Chosen, NoCommon>
    ensures { (method algorithm : List ℕ) → kex ≡ position_in client.now.kex_algorithms method
        → host_key ≡ position_in client.now.server_host_key_algorithms algorithm
        → result ≡ answered (kexinit_data client.now) (choice_of_directions (kexinit_data client.now) (kexinit_data server.now) method algorithm) }
{
    Ok(Chosen {
        kex,
        host_key,
        encryption_client_to_server: choose_common(
            NoCommon::EncryptionClientToServer,
            &client.encryption_client_to_server,
            &server.encryption_client_to_server,
        )?,
        encryption_server_to_client: choose_common(
            NoCommon::EncryptionServerToClient,
            &client.encryption_server_to_client,
            &server.encryption_server_to_client,
        )?,
        mac_client_to_server: choose_common(
            NoCommon::MacClientToServer,
            &client.mac_client_to_server,
            &server.mac_client_to_server,
        )?,
        mac_server_to_client: choose_common(
            NoCommon::MacServerToClient,
            &client.mac_server_to_client,
            &server.mac_server_to_client,
        )?,
        compression_client_to_server: choose_common(
            NoCommon::CompressionClientToServer,
            &client.compression_client_to_server,
            &server.compression_client_to_server,
        )?,
        compression_server_to_client: choose_common(
            NoCommon::CompressionServerToClient,
            &client.compression_server_to_client,
            &server.compression_server_to_client,
        )?,
    })
}

/// The position of the first of the client's names that the server lists, or the field.
#[tactic(auto, using(crate::proofs::PositionLemmas::found_or))]
fn choose_common(field: NoCommon, client: &NameList, server: &NameList) -> Result<usize, NoCommon>
    ensures { result ≡ positioned field client.now (first_common client.now server.now) }
{
    find_common(client, server).ok_or(field)
}

/// The position of the key exchange method: the first of both sides where that is the same one, else
/// the first of the client's that is usable.
fn find_kex<S: Suite>(client: &KexInit<'_>, server: &KexInit<'_>, suite: &S) -> Option<usize>
    ensures { result ≡ option_map (λ name. position_in client.now.kex_algorithms name)
        (kex_choice (S.meaning suite.now) (kexinit_data client.now) (kexinit_data server.now)) }
{
    let names = &client.kex_algorithms;
    if same_name(
        first_method(&client.kex_algorithms),
        first_method(&server.kex_algorithms),
    ) {
        return first_unmarked(names);
    }
    let common = common_capability(
        &client.server_host_key_algorithms,
        &server.server_host_key_algorithms,
        suite,
    );
    first_usable(names, &server.kex_algorithms, common, suite)
}

/// The position of the first name that is a method.
fn first_unmarked(names: &NameList) -> Option<usize>
    ensures { result ≡ position (λ name. not (is_marker name)) names.now }
{
    names.names().position(|name| !is_marker(name))
}

/// The position of the first method of the client's that the server lists and that a host key
/// algorithm of both sides serves.
fn first_usable<S: Suite>(
    names: &NameList,
    server: &NameList,
    common: Capability,
    suite: &S,
) -> Option<usize>
    ensures { result ≡ position (λ name. not (is_marker name)
        && (is_in server.now name && serves ((S.meaning suite.now).need name) common)) names.now }
{
    for position in 0..names.len() {
        let name = names.name_at(position).unwrap();
        if is_usable(name, server, common, suite) {
            return Some(position);
        }
    }
    None
}

/// Whether a name is a method that the server lists and that is served.
fn is_usable<S: Suite>(name: &str, server: &NameList, common: Capability, suite: &S) -> bool
    requires { IsName name.now }
    ensures { result ≡ (not (is_marker name.now) && (is_in server.now name.now && serves ((S.meaning suite.now).need name.now) common)) }
{
    !is_marker(name) && lists(server, name) && serves(suite.need(name), common)
}

/// What the host key algorithms that both sides list are capable of together.
fn common_capability<S: Suite>(names: &NameList, server: &NameList, suite: &S) -> Capability
    ensures signature { result.signature ≡ list_any (λ name. is_in server.now name && ((S.meaning suite.now).can name).signature) names.now }
    ensures encryption { result.encryption ≡ list_any (λ name. is_in server.now name && ((S.meaning suite.now).can name).encryption) names.now }
{
    let mut common = Capability {
        signature: false,
        encryption: false,
    };
    for position in 0..names.len() {
        let name = names.name_at(position).unwrap();
        if lists(server, name) {
            let can = suite.can(name);
            common.signature |= can.signature;
            common.encryption |= can.encryption;
        }
    }
    common
}

/// What the method at this position of the client's list needs.
fn need_at<S: Suite>(names: &NameList, position: usize, suite: &S) -> Need
    requires { position < length names.now }
    ensures { (name : List ℕ) → slice_get names.now position ≡ Some name → result ≡ (S.meaning suite.now).need name }
{
    suite.need(names.name_at(position).unwrap())
}

/// The position of the first host key algorithm of the client's that the server lists and that has
/// what is needed.
fn find_host_key<S: Suite>(
    client: &KexInit<'_>,
    server: &KexInit<'_>,
    need: Need,
    suite: &S,
) -> Option<usize>
    ensures { result ≡ option_map (λ name. position_in client.now.server_host_key_algorithms name)
        (find (λ name. is_in server.now.server_host_key_algorithms name && serves need ((S.meaning suite.now).can name)) client.now.server_host_key_algorithms) }
{
    first_able(
        &client.server_host_key_algorithms,
        &server.server_host_key_algorithms,
        need,
        suite,
    )
}

/// The position of the first of these names that the server lists and that has what is needed.
fn first_able<S: Suite>(names: &NameList, server: &NameList, need: Need, suite: &S) -> Option<usize>
    ensures { result ≡ position (λ name. is_in server.now name && serves need ((S.meaning suite.now).can name)) names.now }
{
    for position in 0..names.len() {
        let name = names.name_at(position).unwrap();
        if is_able(name, server, need, suite) {
            return Some(position);
        }
    }
    None
}

/// Whether the server lists a host key algorithm that has what is needed.
fn is_able<S: Suite>(name: &str, server: &NameList, need: Need, suite: &S) -> bool
    requires { IsName name.now }
    ensures { result ≡ (is_in server.now name.now && serves need ((S.meaning suite.now).can name.now)) }
{
    lists(server, name) && serves(need, suite.can(name))
}

/// The position of the first of the client's names that the server lists.
fn find_common(client: &NameList, server: &NameList) -> Option<usize>
    ensures { result ≡ option_map (λ name. position_in client.now name) (first_common client.now server.now) }
{
    first_listed(client, server)
}

/// The position of the first of these names that the server lists.
fn first_listed(names: &NameList, server: &NameList) -> Option<usize>
    ensures { result ≡ position (λ name. is_in server.now name) names.now }
{
    names.names().position(|name| lists(server, name))
}

/// Whether a name stands in the list.
fn lists(list: &NameList, name: &str) -> bool
    ensures { result ≡ is_in list.now name.now }
{
    list.contains(name)
}

/// Whether a host key algorithm with these capabilities has what is needed.
fn serves(need: Need, capability: Capability) -> bool
    ensures { result ≡ serves need capability }
{
    match need {
        Need::Signature => capability.signature,
        Need::Encryption => capability.encryption,
    }
}
