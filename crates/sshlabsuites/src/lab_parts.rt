//! What the lab endpoints are made of by default.

ghost use Rattle.std.specs.Prelude.{◌≡◌, ◌∷◌, ◌++◌, [], IfOk, codes, map, replicate, string_bytes};
ghost use Rattle.sshcore.specs.ConfigView.{client_data, host_key_data, server_data, side_data};
ghost use Rattle.sshlabsuites.specs.LabConfigs.{lab_client, lab_host_key, lab_server, lab_side};

use sshcore::{ClientParts, HostKey, PeerReading, ServerParts, SideParts};
use sshwire::Memory;
use sshwire::owned::beside;
use std::alloc::Global;

/// The parts of a client whose plan is empty: the method `a`, the cipher `c`, the MAC `m` and the host
/// key algorithm `h`, strict, with no guess,
/// and lines are read by the letter; the cookie is 16 bytes 00, the exchange random 32 bytes 11
/// and the padding seed 32 bytes 22, all hexadecimal. Answers `Memory` where an allocation failed.
pub fn lab_client_parts(alloc: Global) -> Result<ClientParts, Memory>
    ensures { IfOk result (λ parts. client_data parts ≡ lab_client) }
{
    let side = lab_side(alloc, 0x00, 0x11, 0x22)?;
    let names = names_of(alloc, "h");
    let (side, server_host_key_algorithms) = beside(side, names)?;
    Ok(ClientParts {
        side,
        server_host_key_algorithms,
        guess: false,
        plan: Vec::new(alloc),
    })
}

/// The parts of a server with the same algorithms, strict: the private key of its host key `h` is the
/// byte 00, its service `ssh-connection`, and its methods `password` and `publickey`, none of them
/// required, with 6 tries, no banner and no notice lines; the cookie is 16 bytes ff, the exchange random 32 bytes 33 and the
/// padding seed 32 bytes 44, all hexadecimal. Answers `Memory` where an allocation failed.
pub fn lab_server_parts(alloc: Global) -> Result<ServerParts, Memory>
    ensures { IfOk result (λ parts. server_data parts ≡ lab_server) }
{
    let side = lab_side(alloc, 0xff, 0x33, 0x44)?;
    let host_keys = host_keys_of(alloc);
    let keys = beside(side, host_keys)?;
    let services = names_of(alloc, "ssh-connection");
    let services = beside(keys, services)?;
    let methods = methods_of(alloc);
    let (((side, host_keys), services), methods) = beside(services, methods)?;
    Ok(ServerParts {
        side,
        host_keys,
        services,
        methods,
        required: Vec::new(alloc),
        signature_algorithms: Vec::new(alloc),
        tries: 6,
        banner: None,
        notice_lines: Vec::new(alloc),
    })
}

/// What both sides have, with cookie, exchange random and padding seed of these bytes.
fn lab_side(alloc: Global, cookie: u8, random: u8, seed: u8) -> Result<SideParts, Memory>
    ensures { IfOk result (λ side. side_data side ≡ lab_side cookie random seed) }
{
    let softwareversion = text_of(alloc, "lab_1")?;
    let kex_algorithms = names_of(alloc, "a");
    let names = beside(softwareversion, kex_algorithms)?;
    let encryption = pair_of(alloc, "c");
    let names = beside(names, encryption)?;
    let mac = pair_of(alloc, "m");
    let names = beside(names, mac)?;
    let drawn = drawn_of(alloc, cookie, random, seed);
    let ((((softwareversion, kex_algorithms), encryption), mac), drawn) = beside(names, drawn)?;
    Ok(SideParts {
        softwareversion,
        comments: None,
        reading: PeerReading::Strict,
        kex_algorithms,
        encryption_client_to_server: encryption.0,
        encryption_server_to_client: encryption.1,
        mac_client_to_server: mac.0,
        mac_server_to_client: mac.1,
        strict: true,
        exchange_random: drawn.0,
        padding_seed: drawn.1,
        cookie: drawn.2,
        ignored_limit: None,
    })
}

/// The two methods, as a list.
fn methods_of(alloc: Global) -> Result<Vec<String>, Memory>
    ensures { IfOk result (λ names. map string_bytes names.items ≡ codes "password" ∷ codes "publickey" ∷ []) }
{
    let methods = names_of(alloc, "password")?;
    let other = text_of(alloc, "publickey");
    let (methods, other) = beside(methods, other)?;
    and(methods, other)
}

/// The one name, as a list.
fn names_of(alloc: Global, name: &str) -> Result<Vec<String>, Memory>
    ensures { IfOk result (λ names. map string_bytes names.items ≡ name.now ∷ []) }
{
    let name = text_of(alloc, name)?;
    alone(alloc, name)
}

/// The one name, as a list for each direction.
fn pair_of(alloc: Global, name: &str) -> Result<(Vec<String>, Vec<String>), Memory>
    ensures to_server { IfOk result (λ pair. map string_bytes pair.0.items ≡ name.now ∷ []) }
    ensures to_client { IfOk result (λ pair. map string_bytes pair.1.items ≡ name.now ∷ []) }
{
    let to_server = names_of(alloc, name)?;
    let to_client = names_of(alloc, name);
    beside(to_server, to_client)
}

/// The exchange random and the padding seed, 32 of each byte, and the cookie, 16 of it.
fn drawn_of(
    alloc: Global,
    cookie: u8,
    random: u8,
    seed: u8,
) -> Result<(Vec<u8>, Vec<u8>, Vec<u8>), Memory>
    ensures random { IfOk result (λ drawn. drawn.0.items ≡ replicate 32 random) }
    ensures seed { IfOk result (λ drawn. drawn.1.items ≡ replicate 32 seed) }
    ensures cookie { IfOk result (λ drawn. drawn.2.items ≡ replicate 16 cookie) }
{
    let random = bytes_of(alloc, random, 32)?;
    let seed = bytes_of(alloc, seed, 32);
    let secrets = beside(random, seed)?;
    let cookie = bytes_of(alloc, cookie, 16);
    let ((random, seed), cookie) = beside(secrets, cookie)?;
    Ok((random, seed, cookie))
}

/// The one host key, as a list.
fn host_keys_of(alloc: Global) -> Result<Vec<HostKey>, Memory>
    ensures { IfOk result (λ keys. map host_key_data keys.items ≡ lab_host_key ∷ []) }
{
    let algorithm = text_of(alloc, "h")?;
    let private_key = bytes_of(alloc, 0x00, 1);
    let (algorithm, private_key) = beside(algorithm, private_key)?;
    let key = HostKey {
        algorithm,
        private_key,
    };
    alone(alloc, key)
}

/// The text, as its own.
fn text_of(alloc: Global, text: &str) -> Result<String, Memory>
    ensures { IfOk result (λ copy. string_bytes copy ≡ text.now) }
{
    Ok(String::from_str(alloc, text)?)
}

/// So many of this byte.
fn bytes_of(alloc: Global, byte: u8, count: usize) -> Result<Vec<u8>, Memory>
    ensures { IfOk result (λ bytes. bytes.items ≡ replicate count byte) }
{
    Ok(vec![in alloc; byte; count]?)
}

/// A list of this value alone. It is generic, so that its proof doesn't look into what a value owns.
fn alone<T: Drop>(alloc: Global, value: T) -> Result<Vec<T>, Memory>
    ensures { IfOk result (λ list. list.items ≡ value ∷ []) }
{
    let mut list = Vec::new(alloc);
    list.push(value)?;
    Ok(list)
}

/// The list with one more value at its end.
fn and<T: Drop>(list: Vec<T>, value: T) -> Result<Vec<T>, Memory>
    ensures { IfOk result (λ longer. longer.items ≡ list.items ++ value ∷ []) }
{
    let mut list = list;
    list.push(value)?;
    Ok(list)
}
