//! The digest of all that a program puts in, by which a call tells whether that is what the call before was given.

ghost use Rattle.std.specs.Prelude.{◌≡◌, [], IfOk, OnOk};
ghost use Rattle.sha2.specs.Sha256.{sha256};
ghost use Rattle.sshcore.specs.RecordText.{Adds, bytes_text, number_text};
ghost use Rattle.rezdolin.specs.PartsText.{attempt_text, client_text, counted, host_key_text, key_text, server_text, side_text, unless_asks, user_text};

use crate::inputs::{AttemptInput, ClientInput, HostKeyInput, ServerInput, SideInput, UserInput};
use sha2::{Digest, Sha256};
use sshwire::{Memory, put_string, put_u32};
use std::alloc::Global;

/// The digest of a client's parts.
#[tactic(auto, using(crate::proofs::PartsLemmas::whole_text))]
pub(crate) fn client_digest(alloc: Global, client: &ClientInput<'_>) -> Result<[u8; 32], Memory>
    ensures { IfOk result (λ digest. digest ≡ sha256 (client_text client.now [])) }
{
    let mut text = Vec::new(alloc);
    put_client(&mut text, client)?;
    Ok(Sha256::digest(&text))
}

/// The digest of a server's parts.
#[tactic(auto, using(crate::proofs::PartsLemmas::whole_text))]
pub(crate) fn server_digest(alloc: Global, server: &ServerInput<'_>) -> Result<[u8; 32], Memory>
    ensures { IfOk result (λ digest. digest ≡ sha256 (server_text server.now [])) }
{
    let mut text = Vec::new(alloc);
    put_server(&mut text, server)?;
    Ok(Sha256::digest(&text))
}

/// Appends a number.
fn put_number(out: &mut Vec<u8>, value: u32) -> Result<(), Memory>
    ensures { OnOk result (Adds (number_text value) out.old.items out.new.items) }
{
    put_u32(out, value)
}

/// Appends bytes. 2^32 of them or more are answered as running out of memory.
fn put_bytes(out: &mut Vec<u8>, bytes: &[u8]) -> Result<(), Memory>
    ensures { OnOk result (Adds (bytes_text bytes.now) out.old.items out.new.items) }
{
    if bytes.len() > u32::MAX as usize {
        return Err(Memory);
    }
    put_string(out, bytes)
}

/// Appends how many entries follow. 2^32 of them or more are answered as running out of memory.
fn put_count(out: &mut Vec<u8>, count: usize) -> Result<(), Memory>
    ensures { OnOk result (Adds (number_text count) out.old.items out.new.items) }
{
    match u32::try_from(count) {
        Ok(count) => put_number(out, count),
        Err(_) => Err(Memory),
    }
}

/// Appends what both sides have.
fn put_side(out: &mut Vec<u8>, side: &SideInput<'_>) -> Result<(), Memory>
    ensures { OnOk result (Adds (side_text side.now) out.old.items out.new.items) }
{
    put_bytes(out, side.softwareversion)?;
    put_bytes(out, side.comments)?;
    put_bytes(out, side.kex_algorithms)?;
    put_bytes(out, side.encryption_client_to_server)?;
    put_bytes(out, side.encryption_server_to_client)?;
    put_bytes(out, side.mac_client_to_server)?;
    put_bytes(out, side.mac_server_to_client)?;
    put_bytes(out, side.cookie)?;
    put_bytes(out, side.exchange_random)?;
    put_bytes(out, side.padding_seed)?;
    put_number(out, side.strict)?;
    put_number(out, side.reading)
}

/// Appends a client's parts.
fn put_client(out: &mut Vec<u8>, client: &ClientInput<'_>) -> Result<(), Memory>
    ensures { OnOk result (Adds (client_text client.now) out.old.items out.new.items) }
{
    put_side(out, &client.side)?;
    put_bytes(out, client.server_host_key_algorithms)?;
    put_plan(out, client.plan)?;
    put_number(out, client.guess)?;
    put_number(out, client.asks)?;
    put_trusted(out, client.asks, client.trusted_host_keys)
}

/// Appends whom a client trusts, unless it asks.
#[tactic(auto, unfolding(crate::specs::PartsText::unless_asks))]
fn put_trusted(out: &mut Vec<u8>, asks: u32, keys: &[&[u8]]) -> Result<(), Memory>
    ensures { OnOk result (Adds (unless_asks asks (counted key_text keys.now)) out.old.items out.new.items) }
{
    if asks == 1 {
        return Ok(());
    }
    put_lent(out, keys)
}

/// Appends a server's parts.
fn put_server(out: &mut Vec<u8>, server: &ServerInput<'_>) -> Result<(), Memory>
    ensures { OnOk result (Adds (server_text server.now) out.old.items out.new.items) }
{
    put_side(out, &server.side)?;
    put_host_keys(out, server.host_keys)?;
    put_bytes(out, server.services)?;
    put_bytes(out, server.methods)?;
    put_bytes(out, server.required)?;
    put_bytes(out, server.banner)?;
    put_lent(out, server.notice_lines)?;
    put_number(out, server.tries)?;
    put_number(out, server.asks)?;
    put_accepted(out, server.asks, server.users)
}

/// Appends whom a server accepts, unless it asks.
#[tactic(auto, unfolding(crate::specs::PartsText::unless_asks))]
fn put_accepted(out: &mut Vec<u8>, asks: u32, users: &[UserInput<'_>]) -> Result<(), Memory>
    ensures { OnOk result (Adds (unless_asks asks (counted user_text users.now)) out.old.items out.new.items) }
{
    if asks == 1 {
        return Ok(());
    }
    put_users(out, users)
}

/// Appends attempts.
fn put_plan(out: &mut Vec<u8>, plan: &[AttemptInput<'_>]) -> Result<(), Memory>
    ensures { OnOk result (Adds (counted attempt_text plan.now) out.old.items out.new.items) }
{
    put_count(out, plan.len())?;
    for attempt in plan {
        put_attempt(out, attempt)?;
    }
    Ok(())
}

/// Appends an attempt.
fn put_attempt(out: &mut Vec<u8>, attempt: &AttemptInput<'_>) -> Result<(), Memory>
    ensures { OnOk result (Adds (attempt_text attempt.now) out.old.items out.new.items) }
{
    put_bytes(out, attempt.user)?;
    put_bytes(out, attempt.service)?;
    put_bytes(out, attempt.algorithm)?;
    put_bytes(out, attempt.secret)?;
    put_number(out, attempt.method)?;
    put_number(out, attempt.ask)
}

/// Appends lent bytes, one after the other.
fn put_lent(out: &mut Vec<u8>, list: &[&[u8]]) -> Result<(), Memory>
    ensures { OnOk result (Adds (counted key_text list.now) out.old.items out.new.items) }
{
    put_count(out, list.len())?;
    for bytes in list {
        put_bytes(out, bytes)?;
    }
    Ok(())
}

/// Appends host keys.
fn put_host_keys(out: &mut Vec<u8>, keys: &[HostKeyInput<'_>]) -> Result<(), Memory>
    ensures { OnOk result (Adds (counted host_key_text keys.now) out.old.items out.new.items) }
{
    put_count(out, keys.len())?;
    for key in keys {
        put_host_key(out, key)?;
    }
    Ok(())
}

/// Appends a host key.
fn put_host_key(out: &mut Vec<u8>, key: &HostKeyInput<'_>) -> Result<(), Memory>
    ensures { OnOk result (Adds (host_key_text key.now) out.old.items out.new.items) }
{
    put_bytes(out, key.algorithm)?;
    put_bytes(out, key.key)?;
    put_number(out, key.place)
}

/// Appends entries.
fn put_users(out: &mut Vec<u8>, users: &[UserInput<'_>]) -> Result<(), Memory>
    ensures { OnOk result (Adds (counted user_text users.now) out.old.items out.new.items) }
{
    put_count(out, users.len())?;
    for user in users {
        put_user(out, user)?;
    }
    Ok(())
}

/// Appends an entry.
fn put_user(out: &mut Vec<u8>, user: &UserInput<'_>) -> Result<(), Memory>
    ensures { OnOk result (Adds (user_text user.now) out.old.items out.new.items) }
{
    put_bytes(out, user.user)?;
    put_bytes(out, user.proof)?;
    put_number(out, user.method)
}
