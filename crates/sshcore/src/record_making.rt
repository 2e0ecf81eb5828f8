//! A paused endpoint made again from its record.
//!
//! What a record has is looked at wherever an endpoint stands on it, so that bytes which nobody wrote are refused, or make some
//! endpoint that fits its config and its suite.

ghost use Rattle.std.specs.Prelude.{[], ◌≡◌, ◌≤◌, IfOk, IfSome, IsUtf8, Some, is_some, length, option_map, string_bytes};
ghost use Rattle.sshwire.specs.declared.limits.TheConstants.{LINE_LIMIT};
ghost use Rattle.sshpacket.specs.declared.limits.TheConstants.{DIGEST_LIMIT, PACKET_LIMIT};
ghost use Rattle.sshcore.specs.declared.config_parts.TheConstants.{TRIES_LIMIT};
ghost use Rattle.sshcore.specs.EndData.{Open, end_data};
ghost use Rattle.sshcore.specs.Paused.{with_left};
ghost use Rattle.sshcore.specs.Phases.{past_kexinit};
ghost use Rattle.sshcore.specs.RecordMade.{FitsPhase, FitsState, FitsTries, HasCarriedTexts, IsAuthentication, IsCarriedSo, IsExchange, state_in};
ghost use Rattle.sshcore.specs.Work.{asks_for_extensions};
ghost use Rattle.sshwire.specs.Types.{IsName};
ghost use Rattle.sshcore.specs.Record.{HasKeyNames, HasNames, HasUserText, IsMadeSo};
ghost use Rattle.sshcore.specs.RecordView.{authentication_record, carried_record, exchange_record, lent_keys, lent_names, lent_user_key, record_data};
ghost use Rattle.sshcore.specs.StateData.{state_data, user_key_data};

use crate::config_parts::TRIES_LIMIT;
use crate::end::End;
use crate::kex_algorithms::{Algorithms, Directions};
use crate::kex_init::asks_in;
use crate::phase_table::Phase;
use crate::record_fault::RecordFault;
use crate::record_parts::{
    AuthenticationParts, CarriedParts, ExchangeParts, LentKeys, LentNames, LentUserKey, RecordParts,
};
use crate::session::UserKey;
use crate::state::{CompletedMethods, State};
use sshpacket::{DIGEST_LIMIT, KeyParts, Keys, PACKET_LIMIT};
use sshwire::{LINE_LIMIT, as_name};
use std::alloc::Global;

/// A copy of bytes, which are at most so many.
fn copied(alloc: Global, bytes: &[u8], limit: usize) -> Result<Vec<u8>, RecordFault>
    ensures short { IfOk result (λ v. length v.items ≤ limit) }
    ensures made { length bytes.now ≤ limit → IsMadeSo (λ v. v.items ≡ bytes.now) result }
{
    if bytes.len() > limit {
        return Err(RecordFault::Unreadable);
    }
    match Vec::from_slice(alloc, bytes) {
        Ok(copy) => Ok(copy),
        Err(_) => Err(RecordFault::Memory),
    }
}

/// A copy of a text.
fn copied_text(alloc: Global, text: &str) -> Result<String, RecordFault>
    ensures same { IfOk result (λ s. string_bytes s ≡ text.now) }
    ensures made { IsMadeSo (λ s. string_bytes s ≡ text.now) result }
{
    match String::from_str(alloc, text) {
        Ok(copy) => Ok(copy),
        Err(_) => Err(RecordFault::Memory),
    }
}

/// The name that these bytes are.
fn name_of(alloc: Global, bytes: &[u8]) -> Result<String, RecordFault>
    ensures name { IfOk result (λ s. IsName (string_bytes s)) }
    ensures made { IsName bytes.now → IsMadeSo (λ s. string_bytes s ≡ bytes.now) result }
{
    match as_name(bytes) {
        Some(name) => copied_text(alloc, name),
        None => Err(RecordFault::Unreadable),
    }
}

/// The text that these bytes are.
fn text_of(alloc: Global, bytes: &[u8]) -> Result<String, RecordFault>
    ensures made { IsUtf8 bytes.now → IsMadeSo (λ s. string_bytes s ≡ bytes.now) result }
{
    match str::from_utf8(bytes) {
        Ok(text) => copied_text(alloc, text),
        Err(_) => Err(RecordFault::Unreadable),
    }
}

/// The keys of one direction.
fn keys_of(alloc: Global, keys: &LentKeys<'_>) -> Result<Keys, RecordFault>
    ensures made { HasKeyNames (lent_keys keys.now) → IsMadeSo (λ k. k ≡ lent_keys keys.now) result }
{
    let cipher = name_of(alloc, keys.cipher)?;
    let mac = name_of(alloc, keys.mac)?;
    let iv = copied(alloc, keys.iv, usize::MAX)?;
    let enc = copied(alloc, keys.enc, usize::MAX)?;
    let mac_key = copied(alloc, keys.mac_key, usize::MAX)?;
    Ok(Keys::new(KeyParts {
        cipher,
        mac,
        iv,
        enc,
        mac_key,
    }))
}

/// The names of both directions.
fn directions_of(
    alloc: Global,
    client_to_server: &[u8],
    server_to_client: &[u8],
) -> Result<Directions, RecordFault>
    ensures to_server { IfOk result (λ d. IsName (string_bytes d.client_to_server)) }
    ensures to_client { IfOk result (λ d. IsName (string_bytes d.server_to_client)) }
    ensures made { IsName client_to_server.now → IsName server_to_client.now
        → IsMadeSo (λ d. (string_bytes d.client_to_server ≡ client_to_server.now) × (string_bytes d.server_to_client ≡ server_to_client.now)) result }
{
    let client_to_server = name_of(alloc, client_to_server)?;
    let server_to_client = name_of(alloc, server_to_client)?;
    Ok(Directions {
        client_to_server,
        server_to_client,
    })
}

/// The algorithms of a choice.
fn algorithms_of(alloc: Global, names: &LentNames<'_>) -> Result<Algorithms, RecordFault>
    ensures made { HasNames (lent_names names.now) → IsMadeSo (λ a. a ≡ lent_names names.now) result }
{
    let kex = name_of(alloc, names.kex)?;
    let host_key = name_of(alloc, names.host_key)?;
    let encryption = directions_of(
        alloc,
        names.encryption_client_to_server,
        names.encryption_server_to_client,
    )?;
    let mac = directions_of(
        alloc,
        names.mac_client_to_server,
        names.mac_server_to_client,
    )?;
    let compression = directions_of(
        alloc,
        names.compression_client_to_server,
        names.compression_server_to_client,
    )?;
    Ok(Algorithms::of(kex, host_key, encryption, mac, compression))
}

/// A user's public key.
fn user_key_of(alloc: Global, key: &LentUserKey<'_>) -> Result<UserKey, RecordFault>
    ensures made { HasUserText (lent_user_key key.now) → IsMadeSo (λ k. user_key_data (Some k) ≡ Some (lent_user_key key.now)) result }
{
    let algorithm = text_of(alloc, key.algorithm)?;
    let blob = copied(alloc, key.blob, usize::MAX)?;
    Ok(UserKey { algorithm, blob })
}

/// What is known of the exchange, in vectors of its own.
#[derive(Drop)]
struct ExchangeMade {
    version: Vec<u8>,
    kexinit: Vec<u8>,
    session: Vec<u8>,
    algorithms: Option<Algorithms>,
    /// Whether the KEXINIT asks for extensions.
    asks: bool,
}

/// The keys of one direction, where there are some.
pub(crate) fn optional_keys(
    alloc: Global,
    keys: Option<LentKeys<'_>>,
) -> Result<Option<Keys>, RecordFault>
    ensures made { IfSome (option_map lent_keys keys.entry) HasKeyNames → IsMadeSo (λ k. k ≡ option_map lent_keys keys.entry) result }
{
    match keys {
        None => Ok(None),
        Some(keys) => Ok(Some(keys_of(alloc, &keys)?)),
    }
}

/// The algorithms of a choice, where this phase has some.
fn chosen_algorithms(
    alloc: Global,
    names: Option<LentNames<'_>>,
    phase: Phase,
) -> Result<Option<Algorithms>, RecordFault>
    ensures chosen { IfOk result (λ a. is_some a ≡ past_kexinit phase) }
    ensures made { is_some (option_map lent_names names.entry) ≡ past_kexinit phase → IfSome (option_map lent_names names.entry) HasNames
        → IsMadeSo (λ a. a ≡ option_map lent_names names.entry) result }
{
    match (names, phase) {
        (None, Phase::KexInit) => Ok(None),
        (Some(_), Phase::KexInit) => Err(RecordFault::Unreadable),
        (Some(names), _) => Ok(Some(algorithms_of(alloc, &names)?)),
        (None, _) => Err(RecordFault::Unreadable),
    }
}

/// What is known of the exchange in this phase.
fn exchange_made(
    alloc: Global,
    exchange: &ExchangeParts<'_>,
    phase: Phase,
) -> Result<ExchangeMade, RecordFault>
    ensures version { IfOk result (λ x. length x.version.items ≤ LINE_LIMIT) }
    ensures kexinit { IfOk result (λ x. length x.kexinit.items ≤ PACKET_LIMIT) }
    ensures session { IfOk result (λ x. length x.session.items ≤ DIGEST_LIMIT) }
    ensures chosen { IfOk result (λ x. is_some x.algorithms ≡ past_kexinit phase) }
    ensures asks { IfOk result (λ x. x.asks ≡ asks_for_extensions x.kexinit.items) }
    ensures made { FitsPhase phase (exchange_record exchange.now) → IsMadeSo (IsExchange (exchange_record exchange.now)) result }
{
    let algorithms = chosen_algorithms(alloc, exchange.algorithms, phase)?;
    let version = copied(alloc, exchange.version, LINE_LIMIT)?;
    let kexinit = copied(alloc, exchange.kexinit, PACKET_LIMIT)?;
    let session = copied(alloc, exchange.session, DIGEST_LIMIT)?;
    let Ok(asks) = asks_in(alloc, &kexinit) else {
        return Err(RecordFault::Memory);
    };
    Ok(ExchangeMade {
        version,
        kexinit,
        session,
        algorithms,
        asks,
    })
}

/// What is known of authentication, in texts of its own.
#[derive(Drop)]
struct AuthenticationMade {
    request: u32,
    allowance: Option<u32>,
    completed: CompletedMethods,
}

/// What is known of authentication.
fn authentication_made(
    alloc: Global,
    authentication: &AuthenticationParts<'_>,
) -> Result<AuthenticationMade, RecordFault>
    ensures granted { IfOk result (λ a. a.request ≤ TRIES_LIMIT) }
    ensures made { FitsTries (authentication_record authentication.now) → IsMadeSo (IsAuthentication (authentication_record authentication.now)) result }
{
    if authentication.request > TRIES_LIMIT {
        return Err(RecordFault::Unreadable);
    }
    let user = text_of(alloc, authentication.user)?;
    let service = text_of(alloc, authentication.service)?;
    Ok(AuthenticationMade {
        request: authentication.request,
        allowance: authentication.allowance,
        completed: CompletedMethods {
            user,
            service,
            password: authentication.password,
            publickey: authentication.publickey,
        },
    })
}

/// What is carried along, in vectors of its own.
#[derive(Drop)]
struct CarriedMade {
    pending: Option<Keys>,
    own_version: Vec<u8>,
    host_key: Vec<u8>,
    user_key: Option<UserKey>,
}

/// A user's public key, where there is one.
fn optional_user_key(
    alloc: Global,
    key: Option<LentUserKey<'_>>,
) -> Result<Option<UserKey>, RecordFault>
    ensures made { IfSome (option_map lent_user_key key.entry) HasUserText → IsMadeSo (λ k. user_key_data k ≡ option_map lent_user_key key.entry) result }
{
    match key {
        None => Ok(None),
        Some(key) => Ok(Some(user_key_of(alloc, &key)?)),
    }
}

/// What is carried along.
fn carried_made(alloc: Global, carried: &CarriedParts<'_>) -> Result<CarriedMade, RecordFault>
    ensures made { HasCarriedTexts (carried_record carried.now) → IsMadeSo (IsCarriedSo (carried_record carried.now)) result }
{
    let pending = optional_keys(alloc, carried.pending)?;
    let own_version = copied(alloc, carried.own_version, usize::MAX)?;
    let host_key = copied(alloc, carried.host_key, usize::MAX)?;
    let user_key = optional_user_key(alloc, carried.user_key)?;
    Ok(CarriedMade {
        pending,
        own_version,
        host_key,
        user_key,
    })
}

/// What an endpoint keeps between two packets, without attempts.
pub(crate) fn state_of(
    alloc: Global,
    parts: &RecordParts<'_>,
) -> Result<State<'static>, RecordFault>
    ensures open { IfOk result (λ s. end_data s.end ≡ Open) }
    ensures confirmed { IfOk result (λ s. s.confirmed ≡ parts.now.confirmed) }
    ensures made { FitsState (record_data parts.now) → IsMadeSo (λ s. with_left [] (state_data s) ≡ state_in (record_data parts.now)) result }
{
    let exchange = exchange_made(alloc, &parts.exchange, parts.phase)?;
    let authentication = authentication_made(alloc, &parts.authentication)?;
    let carried = carried_made(alloc, &parts.carried)?;
    let keys_out = optional_keys(alloc, parts.sending.keys)?;
    Ok(State {
        alloc,
        end: End::Open,
        phase: parts.phase,
        guess: parts.guess,
        strict: parts.exchange.strict,
        first: parts.exchange.first,
        allowance: authentication.allowance,
        version: exchange.version,
        kexinit: exchange.kexinit,
        asks: exchange.asks,
        algorithms: exchange.algorithms,
        shares: parts.exchange.shares,
        session: exchange.session,
        request: authentication.request,
        left: &[],
        confirmed: parts.confirmed,
        completed: authentication.completed,
        pending: carried.pending,
        own_version: carried.own_version,
        host_key: carried.host_key,
        user_key: carried.user_key,
        keys_out,
        number_out: parts.sending.number,
    })
}
