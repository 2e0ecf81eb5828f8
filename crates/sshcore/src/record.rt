//! The record of a paused endpoint.

ghost use Rattle.std.specs.Prelude.{◌≡◌, IfOk, IfSome, IsUtf8, is_some, option_map, true};
ghost use Rattle.sshcore.specs.EndData.{Open};
ghost use Rattle.sshcore.specs.Paused.{paused_end};
ghost use Rattle.sshcore.specs.Record.{HasKeyNames, HasLine, HasNames, HasTexts, HasUserText, IsRecordOf, authentication_of, exchange_of, missing_by, payload_of, reader_of, record_of};
ghost use Rattle.sshcore.specs.RecordView.{authentication_record, carried_record, exchange_record, lent_keys, lent_names, reader_record, record_data, sending_record};
ghost use Rattle.sshcore.specs.StateData.{state_data};
ghost use Rattle.sshcore.specs.WaitingView.{waiting_of};

use crate::asking_paused::PausedEndpoint;
use crate::asking_waiting::Waiting;
use crate::end::End;
use crate::input::Input;
use crate::kex_algorithms::Algorithms;
use crate::record_fault::RECORD_LIMIT;
use crate::record_parts::{
    AuthenticationParts, CarriedParts, ExchangeParts, LentKeys, LentNames, LentUserKey,
    ReaderParts, RecordParts, SendingParts,
};
use crate::record_writing::put_record;
use crate::state::State;
use sshpacket::Keys;
use sshwire::Memory;
use std::alloc::Global;

/// Keys, lent.
fn lend_keys(keys: &Option<Keys>) -> Option<LentKeys<'_>>
    ensures same { option_map lent_keys result ≡ keys.now }
    ensures names { IfSome keys.now HasKeyNames }
{
    let keys = keys.as_ref()?;
    Some(LentKeys {
        cipher: keys.cipher().as_bytes(),
        mac: keys.mac().as_bytes(),
        iv: keys.iv(),
        enc: keys.enc(),
        mac_key: keys.mac_key(),
    })
}

/// The names of a choice, lent.
fn lend_names(algorithms: &Option<Algorithms>) -> Option<LentNames<'_>>
    ensures same { option_map lent_names result ≡ algorithms.now }
    ensures names { IfSome algorithms.now HasNames }
{
    let names = algorithms.as_ref()?.names();
    Some(LentNames {
        kex: names.kex.as_bytes(),
        host_key: names.host_key.as_bytes(),
        encryption_client_to_server: names.encryption_client_to_server.as_bytes(),
        encryption_server_to_client: names.encryption_server_to_client.as_bytes(),
        mac_client_to_server: names.mac_client_to_server.as_bytes(),
        mac_server_to_client: names.mac_server_to_client.as_bytes(),
        compression_client_to_server: names.compression_client_to_server.as_bytes(),
        compression_server_to_client: names.compression_server_to_client.as_bytes(),
    })
}

/// What is known of the exchange.
fn exchange_parts<'a>(state: &'a State<'_>) -> ExchangeParts<'a>
    ensures same { exchange_record result ≡ exchange_of state.now }
    ensures names { IfSome state.now.algorithms HasNames }
{
    ExchangeParts {
        shares: state.shares,
        strict: state.strict,
        first: state.first,
        version: &state.version,
        kexinit: &state.kexinit,
        session: &state.session,
        algorithms: lend_names(&state.algorithms),
    }
}

/// What is known of authentication.
fn authentication_parts<'a>(state: &'a State<'_>) -> AuthenticationParts<'a>
    ensures same { authentication_record result ≡ authentication_of state.now }
    ensures user { IsUtf8 (authentication_of state.now).completed.user }
    ensures service { IsUtf8 (authentication_of state.now).completed.service }
{
    AuthenticationParts {
        request: state.request,
        allowance: state.allowance,
        user: state.completed.user.as_bytes(),
        service: state.completed.service.as_bytes(),
        password: state.completed.password,
        publickey: state.completed.publickey,
    }
}

/// What is carried along.
fn carried_parts<'a>(state: &'a State<'_>) -> CarriedParts<'a>
    ensures same { carried_record result ≡ (state_data state.now).carried }
    ensures names { IfSome (state_data state.now).carried.pending HasKeyNames }
    ensures text { IfSome (state_data state.now).carried.user_key HasUserText }
{
    let user_key = match &state.user_key {
        None => None,
        Some(key) => Some(LentUserKey {
            algorithm: key.algorithm.as_bytes(),
            blob: &key.blob,
        }),
    };
    CarriedParts {
        pending: lend_keys(&state.pending),
        own_version: &state.own_version,
        host_key: &state.host_key,
        user_key,
    }
}

/// What packets are sent with.
fn sending_parts<'a>(state: &'a State<'_>) -> SendingParts<'a>
    ensures same { sending_record result ≡ (state_data state.now).sending }
    ensures names { IfSome (state_data state.now).sending.keys HasKeyNames }
{
    SendingParts {
        keys: lend_keys(&state.keys_out),
        number: state.number_out,
    }
}

/// What bytes are read with.
fn reader_parts(input: &Input) -> ReaderParts<'_>
    ensures same { reader_record result ≡ reader_of input.now }
    ensures line { HasLine (reader_of input.now) }
{
    match input {
        Input::Lines(reader) => ReaderParts::Lines {
            others: reader.others_left(),
            line: reader.unfinished(),
        },
        Input::Packets(reader) => ReaderParts::Packets {
            keys: lend_keys(reader.keys()),
            number: reader.sequence_number(),
            held: reader.unfinished(),
        },
    }
}

/// How many bytes more are wanted before anything comes of them.
fn missing_by(input: &Input, waiting: &Option<Waiting>) -> usize
    ensures { result ≡ missing_by input.now (waiting_of waiting.now) }
{
    match waiting {
        None => input.wanted(),
        Some(_) => 0,
    }
}

/// The payload of the packet that waits.
fn waiting_payload(waiting: &Option<Waiting>) -> Option<&[u8]>
    ensures { option_map (λ payload. payload.now) result ≡ option_map payload_of (waiting_of waiting.now) }
{
    match waiting {
        Some(waiting) => Some(&waiting.payload),
        None => None,
    }
}

impl<S> PausedEndpoint<S> {
    /// What its record has, where the number of attempts that are left can be written.
    fn parts(&self) -> Option<RecordParts<'_>>
        ensures same { IfSome result (λ r. record_data r ≡ record_of self.now) }
        ensures texts { IfSome result (λ r. HasTexts (record_of self.now)) }
    {
        let Ok(left) = u32::try_from(self.left) else {
            return None;
        };
        let Ok(missing) = u32::try_from(missing_by(&self.input, &self.waiting)) else {
            return None;
        };
        let state = &self.state;
        Some(RecordParts {
            missing,
            role: self.role,
            confirmed: state.confirmed,
            left,
            phase: state.phase,
            guess: state.guess,
            exchange: exchange_parts(state),
            authentication: authentication_parts(state),
            carried: carried_parts(state),
            sending: sending_parts(state),
            reader: reader_parts(&self.input),
            waiting: waiting_payload(&self.waiting),
        })
    }

    /// Its record: all that changes of it, as bytes, of which
    /// [`client_of_record`](PausedEndpoint::client_of_record) or
    /// [`server_of_record`](PausedEndpoint::server_of_record) makes the same endpoint again, in another process too. None where it
    /// has ended. Answers `Memory` where an allocation failed, and where the record would have more than [`RECORD_LIMIT`] bytes,
    /// which no session's should have; that isn't proved.
    ///
    /// It has the keys of both directions, and a password where a request with one waits: keep it from others, and overwrite it when
    /// it is of no use any more. What it was written into on the way is let go as it is. Of one record let one endpoint go on, and
    /// this one no further: two seal different packets with one key and one number.
    pub fn record(&self, alloc: Global) -> Result<Option<Vec<u8>>, Memory>
        ensures is { IfOk result (λ o. IfSome o (λ v. IsRecordOf v.items self.now)) }
        // One is written of each endpoint that is open.
        ensures open { IfOk result (λ o. paused_end self.now ≡ Open → is_some o ≡ true) }
    {
        match self.state.end {
            End::Open => {}
            _ => return Ok(None),
        }
        let Some(parts) = self.parts() else {
            return Err(Memory);
        };
        let mut out = Vec::new(alloc);
        put_record(&mut out, &parts)?;
        if out.len() > RECORD_LIMIT {
            return Err(Memory);
        }
        Ok(Some(out))
    }
}
