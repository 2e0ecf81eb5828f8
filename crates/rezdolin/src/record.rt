//! The session that an authenticated endpoint hands over, as bytes.

ghost use Rattle.std.specs.Prelude.{◌≡◌, ◌++◌, IfOk, OnOk, map};
ghost use Rattle.sshwire.specs.Types.{string};
ghost use Rattle.rezdolin.specs.Records.{acceptance_fields, agreed_fields, direction_fields, flag, key_algorithm_of, key_blob_of, password_of, record_of, spelled, strings};

use crate::directions::state_of;
use sshcore::{Accepted, Session};
use sshwire::{Memory, put_string};
use std::alloc::Global;

/// The record of a session; no bytes where there is none.
pub(crate) fn record_of(alloc: Global, session: &Option<Session>) -> Result<Vec<u8>, Memory>
    ensures { IfOk result (λ v. v.items ≡ spelled session.now) }
{
    match session {
        Some(session) => session_record(alloc, session),
        None => Ok(Vec::new(alloc)),
    }
}

/// The record of a session: its fields, each as a string (RFC 4251 section 5).
fn session_record(alloc: Global, session: &Session) -> Result<Vec<u8>, Memory>
    ensures { IfOk result (λ v. v.items ≡ record_of session.now) }
{
    let mut out = Vec::new(alloc);
    put_directions(alloc, session, &mut out)?;
    put_agreed(session, &mut out)?;
    put_acceptance(session, &mut out)?;
    Ok(out)
}

/// Appends the states of both directions.
fn put_directions(alloc: Global, session: &Session, out: &mut Vec<u8>) -> Result<(), Memory>
    ensures { OnOk result (out.new.items ≡ out.old.items ++ strings (direction_fields session.now)) }
{
    let incoming = state_of(alloc, &session.incoming)?;
    put_field(&incoming, out)?;
    let outgoing = state_of(alloc, &session.outgoing)?;
    put_field(&outgoing, out)?;
    Ok(())
}

/// Appends what was agreed, and whom the peer showed itself to be.
fn put_agreed(session: &Session, out: &mut Vec<u8>) -> Result<(), Memory>
    ensures { OnOk result (out.new.items ≡ out.old.items ++ strings (agreed_fields session.now)) }
{
    let agreed = &session.agreed;
    let fields: [&[u8]; 14] = [
        &agreed.session,
        agreed.user.as_bytes(),
        agreed.service.as_bytes(),
        &session.own_version,
        &session.peer_version,
        &session.host_key,
        agreed.kex.as_bytes(),
        agreed.host_key.as_bytes(),
        agreed.encryption_client_to_server.as_bytes(),
        agreed.encryption_server_to_client.as_bytes(),
        agreed.mac_client_to_server.as_bytes(),
        agreed.mac_server_to_client.as_bytes(),
        agreed.compression_client_to_server.as_bytes(),
        agreed.compression_server_to_client.as_bytes(),
    ];
    put_fields(&fields, out)
}

/// Appends whether both sides are strict, and how the user was accepted.
#[tactic(auto, using(crate::proofs::RecordLemmas::four_puts))]
fn put_acceptance(session: &Session, out: &mut Vec<u8>) -> Result<(), Memory>
    ensures { OnOk result (out.new.items ≡ out.old.items ++ strings (acceptance_fields session.now)) }
{
    put_field(flag(session.agreed.strict), out)?;
    put_field(password_of(&session.accepted), out)?;
    put_field(key_algorithm_of(&session.accepted), out)?;
    put_field(key_blob_of(&session.accepted), out)
}

/// One byte, 1 for true and 0 for false.
fn flag(value: bool) -> &'static [u8]
    ensures { result.now ≡ flag value }
{
    if value { &[1] } else { &[0] }
}

/// At a server whether a password succeeded.
fn password_of(accepted: &Option<Accepted>) -> &'static [u8]
    ensures { result.now ≡ password_of accepted.now }
{
    match accepted {
        Some(accepted) => flag(accepted.password),
        None => &[],
    }
}

/// The algorithm of the user's key, where one was successful.
fn key_algorithm_of(accepted: &Option<Accepted>) -> &[u8]
    ensures { result.now ≡ key_algorithm_of accepted.now }
{
    match accepted {
        Some(Accepted { key: Some(key), .. }) => key.algorithm.as_bytes(),
        _ => &[],
    }
}

/// The user's public key, where one was successful.
fn key_blob_of(accepted: &Option<Accepted>) -> &[u8]
    ensures { result.now ≡ key_blob_of accepted.now }
{
    match accepted {
        Some(Accepted { key: Some(key), .. }) => &key.blob,
        _ => &[],
    }
}

/// Appends each field as a string, one after the other. Where an allocation failed some of them may stand there.
pub(crate) fn put_fields(fields: &[&[u8]], out: &mut Vec<u8>) -> Result<(), Memory>
    ensures { OnOk result (out.new.items ≡ out.old.items ++ strings (map (λ field. field.now) fields.now)) }
{
    for field in fields {
        put_field(field, out)?;
    }
    Ok(())
}

/// Appends a field as a string. One of 2^32 bytes or more, which no session has, is answered as running out of memory.
pub(crate) fn put_field(field: &[u8], out: &mut Vec<u8>) -> Result<(), Memory>
    ensures { OnOk result (out.new.items ≡ out.old.items ++ string field.now) }
{
    if field.len() > u32::MAX as usize {
        return Err(Memory);
    }
    put_string(out, field)
}
