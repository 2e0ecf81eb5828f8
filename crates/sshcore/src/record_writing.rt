//! Writes the record of a paused endpoint.

ghost use Rattle.std.specs.Prelude.{◌≡◌, ◌<◌, ◌^◌, ◌++◌, IfSome, OnOk, length, option_map};
ghost use Rattle.sshcore.specs.RecordText.{Adds, FitsAuthentication, FitsCarried, FitsExchange, FitsKeys, FitsNames, FitsReader, FitsRecord, FitsSending, FitsUserKey, IsShort, authentication_text, bytes_text, carried_text, exchange_text, flag_text, form_number, front_text, keys_text, names_text, number_text, option_text, phase_number, reader_text, record_text, role_number, sending_text, user_key_text, waits_text};
ghost use Rattle.sshcore.specs.RecordView.{authentication_record, carried_record, exchange_record, lent_keys, lent_names, lent_user_key, reader_record, record_data, sending_record};

use crate::phase_table::Phase;
use crate::record_fault::RECORD_VERSION;
use crate::record_parts::{
    AuthenticationParts, CarriedParts, ExchangeParts, LentKeys, LentNames, LentUserKey,
    ReaderParts, RecordParts, SendingParts,
};
use sshneg::Side;
use sshpacket::ShareForm;
use sshwire::{Memory, put_string, put_u32};

/// Appends a number.
fn put_number(out: &mut Vec<u8>, value: u32) -> Result<(), Memory>
    ensures { OnOk result (Adds (number_text value) out.old.items out.new.items) }
{
    put_u32(out, value)
}

/// Appends a flag.
fn put_flag(out: &mut Vec<u8>, value: bool) -> Result<(), Memory>
    ensures { OnOk result (Adds (flag_text value) out.old.items out.new.items) }
{
    put_number(out, u32::from(value))
}

/// Appends bytes. 2^32 of them or more, which no packet brings, are answered as running out of memory.
fn put_bytes(out: &mut Vec<u8>, bytes: &[u8]) -> Result<(), Memory>
    ensures adds { OnOk result (Adds (bytes_text bytes.now) out.old.items out.new.items) }
    ensures fits { OnOk result (IsShort bytes.now) }
{
    if bytes.len() > u32::MAX as usize {
        return Err(Memory);
    }
    put_string(out, bytes)
}

/// Appends keys, where there are some.
fn put_keys(out: &mut Vec<u8>, keys: Option<LentKeys<'_>>) -> Result<(), Memory>
    ensures adds { OnOk result (Adds (option_text keys_text (option_map lent_keys keys.entry)) out.old.items out.new.items) }
    ensures fits { OnOk result (IfSome (option_map lent_keys keys.entry) FitsKeys) }
{
    let Some(keys) = keys else {
        return put_number(out, 0);
    };
    put_number(out, 1)?;
    put_bytes(out, keys.cipher)?;
    put_bytes(out, keys.mac)?;
    put_bytes(out, keys.iv)?;
    put_bytes(out, keys.enc)?;
    put_bytes(out, keys.mac_key)
}

/// Appends the names of a choice, where there are some.
fn put_names(out: &mut Vec<u8>, names: Option<LentNames<'_>>) -> Result<(), Memory>
    ensures adds { OnOk result (Adds (option_text names_text (option_map lent_names names.entry)) out.old.items out.new.items) }
    ensures fits { OnOk result (IfSome (option_map lent_names names.entry) FitsNames) }
{
    let Some(names) = names else {
        return put_number(out, 0);
    };
    put_number(out, 1)?;
    put_bytes(out, names.kex)?;
    put_bytes(out, names.host_key)?;
    put_bytes(out, names.encryption_client_to_server)?;
    put_bytes(out, names.encryption_server_to_client)?;
    put_bytes(out, names.mac_client_to_server)?;
    put_bytes(out, names.mac_server_to_client)?;
    put_bytes(out, names.compression_client_to_server)?;
    put_bytes(out, names.compression_server_to_client)
}

/// Appends a user's key, where there is one.
fn put_user_key(out: &mut Vec<u8>, key: Option<LentUserKey<'_>>) -> Result<(), Memory>
    ensures adds { OnOk result (Adds (option_text user_key_text (option_map lent_user_key key.entry)) out.old.items out.new.items) }
    ensures fits { OnOk result (IfSome (option_map lent_user_key key.entry) FitsUserKey) }
{
    let Some(key) = key else {
        return put_number(out, 0);
    };
    put_number(out, 1)?;
    put_bytes(out, key.algorithm)?;
    put_bytes(out, key.blob)
}

/// Appends what is known of the exchange.
fn put_exchange(out: &mut Vec<u8>, exchange: &ExchangeParts<'_>) -> Result<(), Memory>
    ensures adds { OnOk result (Adds (exchange_text (exchange_record exchange.now)) out.old.items out.new.items) }
    ensures fits { OnOk result (FitsExchange (exchange_record exchange.now)) }
{
    put_number(out, number_of_form(exchange.shares))?;
    put_flag(out, exchange.strict)?;
    put_flag(out, exchange.first)?;
    put_bytes(out, exchange.version)?;
    put_bytes(out, exchange.kexinit)?;
    put_bytes(out, exchange.session)?;
    put_names(out, exchange.algorithms)
}

/// Appends a number, where there is one.
fn put_allowance(out: &mut Vec<u8>, allowance: Option<u32>) -> Result<(), Memory>
    ensures { OnOk result (Adds (option_text number_text allowance) out.old.items out.new.items) }
{
    match allowance {
        None => put_number(out, 0),
        Some(allowance) => {
            put_number(out, 1)?;
            put_number(out, allowance)
        }
    }
}

/// Appends what is known of authentication.
fn put_authentication(
    out: &mut Vec<u8>,
    authentication: &AuthenticationParts<'_>,
) -> Result<(), Memory>
    ensures adds { OnOk result (Adds (authentication_text (authentication_record authentication.now)) out.old.items out.new.items) }
    ensures fits { OnOk result (FitsAuthentication (authentication_record authentication.now)) }
{
    put_number(out, authentication.request)?;
    put_allowance(out, authentication.allowance)?;
    put_bytes(out, authentication.user)?;
    put_bytes(out, authentication.service)?;
    put_flag(out, authentication.password)?;
    put_flag(out, authentication.publickey)
}

/// Appends what is carried along.
fn put_carried(out: &mut Vec<u8>, carried: &CarriedParts<'_>) -> Result<(), Memory>
    ensures adds { OnOk result (Adds (carried_text (carried_record carried.now)) out.old.items out.new.items) }
    ensures fits { OnOk result (FitsCarried (carried_record carried.now)) }
{
    put_keys(out, carried.pending)?;
    put_bytes(out, carried.own_version)?;
    put_bytes(out, carried.host_key)?;
    put_user_key(out, carried.user_key)
}

/// Appends what packets are sent with.
fn put_sending(out: &mut Vec<u8>, sending: &SendingParts<'_>) -> Result<(), Memory>
    ensures adds { OnOk result (Adds (sending_text (sending_record sending.now)) out.old.items out.new.items) }
    ensures fits { OnOk result (FitsSending (sending_record sending.now)) }
{
    put_keys(out, sending.keys)?;
    put_number(out, sending.number)
}

/// Appends what bytes are read with.
fn put_reader(out: &mut Vec<u8>, reader: &ReaderParts<'_>) -> Result<(), Memory>
    ensures adds { OnOk result (Adds (reader_text (reader_record reader.now)) out.old.items out.new.items) }
    ensures fits { OnOk result (FitsReader (reader_record reader.now)) }
{
    match reader {
        ReaderParts::Lines { others, .. } => {
            put_number(out, 0)?;
            put_number(out, *others)
        }
        ReaderParts::Packets { keys, number, .. } => {
            put_number(out, 1)?;
            put_keys(out, *keys)?;
            put_number(out, *number)
        }
    }
}

/// Appends the payload of the packet that waits, where one does.
fn put_waiting(out: &mut Vec<u8>, waiting: Option<&[u8]>) -> Result<(), Memory>
    ensures adds { OnOk result (Adds (option_text bytes_text (option_map (λ payload. payload.now) waiting.entry)) out.old.items out.new.items) }
    ensures fits { OnOk result (IfSome (option_map (λ payload. payload.now) waiting.entry) IsShort) }
{
    let Some(payload) = waiting else {
        return put_number(out, 0);
    };
    put_number(out, 1)?;
    put_bytes(out, payload)
}

/// Appends what stands in front: the version of records, how many bytes more are wanted before anything comes of them, and the bytes of
/// the unfinished line or packet, those that were held and then those that came. 2^32 of them or more are answered as running out of
/// memory.
pub(crate) fn put_waits(
    out: &mut Vec<u8>,
    missing: u32,
    held: &[u8],
    more: &[u8],
) -> Result<(), Memory>
    ensures adds { OnOk result (Adds (waits_text missing (held.now ++ more.now)) out.old.items out.new.items) }
    ensures missing { missing < 2 ^ 32 }
    ensures held { OnOk result (IsShort (held.now ++ more.now)) }
{
    let Ok(len) = u32::try_from(held.len() + more.len()) else {
        return Err(Memory);
    };
    put_number(out, RECORD_VERSION)?;
    put_number(out, missing)?;
    put_number(out, len)?;
    out.extend_from_slice(held)?;
    out.extend_from_slice(more)?;
    Ok(())
}

/// Appends what stands before the parts: the role, how far its plan was made, and its phase.
fn put_front(out: &mut Vec<u8>, parts: &RecordParts<'_>) -> Result<(), Memory>
    ensures adds { OnOk result (Adds (front_text (record_data parts.now)) out.old.items out.new.items) }
    ensures fits { OnOk result (parts.now.left < 2 ^ 32) }
{
    put_number(out, number_of_role(parts.role))?;
    put_flag(out, parts.confirmed)?;
    put_number(out, parts.left)?;
    put_number(out, number_of_phase(parts.phase))?;
    put_flag(out, parts.guess)
}

/// Appends a record. Where an allocation failed a part of it may stand there.
pub(crate) fn put_record(out: &mut Vec<u8>, parts: &RecordParts<'_>) -> Result<(), Memory>
    ensures adds { OnOk result (Adds (record_text (record_data parts.now)) out.old.items out.new.items) }
    ensures fits { OnOk result (FitsRecord (record_data parts.now)) }
{
    put_waits(out, parts.missing, parts.reader.held(), &[])?;
    put_front(out, parts)?;
    put_exchange(out, &parts.exchange)?;
    put_authentication(out, &parts.authentication)?;
    put_carried(out, &parts.carried)?;
    put_sending(out, &parts.sending)?;
    put_reader(out, &parts.reader)?;
    put_waiting(out, parts.waiting)
}

/// The number of a role.
fn number_of_role(role: Side) -> u32
    ensures { result ≡ role_number role }
{
    match role {
        Side::Client => 0,
        Side::Server => 1,
    }
}

/// The number of a phase.
fn number_of_phase(phase: Phase) -> u32
    ensures { result ≡ phase_number phase }
{
    match phase {
        Phase::KexInit => 0,
        Phase::Exchange => 1,
        Phase::NewKeys => 2,
        Phase::Service => 3,
        Phase::Auth => 4,
    }
}

/// The number of a form of shares.
fn number_of_form(form: ShareForm) -> u32
    ensures { result ≡ form_number form }
{
    match form {
        ShareForm::Mpint => 0,
        ShareForm::OctetString => 1,
        ShareForm::Hybrid => 2,
    }
}
