//! A paused endpoint made again from its record.

ghost use Rattle.std.specs.Prelude.{◌≡◌, ◌≢◌, ◌<◌, ◌^◌, ◌↔◌, Err, IfOk, IsTrue, List, ℕ};
ghost use Rattle.sshneg.specs.declared.side.Side.{Side};
ghost use Rattle.sshneg.specs.declared.side.Side.TheVariants.{Client, Server};
ghost use Rattle.sshcore.specs.EndData.{Open};
ghost use Rattle.sshcore.specs.EndpointConfig.{config_data, role_of};
ghost use Rattle.sshcore.specs.EndpointParts.{ConfigData, Setup, config_of_client, config_of_server};
ghost use Rattle.sshcore.specs.Exchanged.{HasForm};
ghost use Rattle.sshcore.specs.Paused.{FitsPaused, PausedAfter, PausedData, asked_paused, paused_end};
ghost use Rattle.sshcore.specs.MadeWith.{draws_in};
ghost use Rattle.sshcore.specs.Record.{IsMadeSo};
ghost use Rattle.sshcore.specs.RecordMade.{GoesOnFrom, IsReading, IsRecorded, IsSamePaused};
ghost use Rattle.sshcore.specs.RecordText.{number_text};
ghost use Rattle.sshcore.specs.declared.record_fault.RecordFault.TheVariants.{Version};
ghost use Rattle.sshcore.specs.declared.record_fault.TheConstants.{RECORD_VERSION};
ghost use Rattle.sshcore.specs.Redrawn.{redrawn_client, redrawn_server};
ghost use Rattle.sshcore.specs.StateData.{state_data};

use crate::asking_paused::{PausedEndpoint, last_of};
use crate::config::Config;
use crate::config_client::ClientConfig;
use crate::config_draws::Draws;
use crate::config_server::ServerConfig;
use crate::phase_table::Phase;
use crate::record_fault::RecordFault;
use crate::record_input::input_of;
use crate::record_making::state_of;
use crate::record_reading::{is_of_other_version, record_in};
use crate::record_waiting::waiting_by;
use crate::state::State;
use sshpacket::Suite;
use std::alloc::Global;

/// Whether what is kept has the suite's form of shares, and seals nothing before the exchange.
fn has_form<S: Suite>(suite: &S, state: &State<'_>) -> bool
    ensures { IsTrue result ↔ HasForm (S.meaning suite.now) (state_data state.now) }
{
    let is_clear = match state.phase {
        Phase::KexInit => state.keys_out.is_none(),
        Phase::Exchange => state.keys_out.is_none(),
        _ => true,
    };
    match &state.algorithms {
        None => is_clear,
        Some(algorithms) => is_clear && suite.share_form(algorithms.kex()) == state.shares,
    }
}

/// The endpoint with this config of which this is the record.
fn endpoint_of<S: Suite>(
    alloc: Global,
    text: &[u8],
    config: Config<'_>,
    suite: &S,
) -> Result<PausedEndpoint<S>, RecordFault>
    ensures fits { IfOk result (λ p. FitsPaused S.meaning (role_of config.entry) (config_data config.entry) suite.now p) }
    ensures open { IfOk result (λ p. paused_end p ≡ Open) }
    ensures draws { IfOk result (λ p. p.draws ≡ draws_in config.entry) }
    ensures version { (n : ℕ) (rest : List ℕ) → n < 2 ^ 32 → n ≢ RECORD_VERSION → text.now ≡ number_text n rest → result ≡ Err Version }
    ensures made { (p : PausedData S) → IsRecorded S.meaning (role_of config.entry) (config_data config.entry) suite.now text.now p
        → IsMadeSo (λ q. IsSamePaused (role_of config.entry) (config_data config.entry) p q) result }
{
    if is_of_other_version(text) {
        return Err(RecordFault::Version);
    }
    let Some(parts) = record_in(text) else {
        return Err(RecordFault::Unreadable);
    };
    if parts.role != config.role() {
        return Err(RecordFault::Unreadable);
    }
    let state = state_of(alloc, &parts)?;
    if !has_form(suite, &state) {
        return Err(RecordFault::Unreadable);
    }
    let left = parts.left as usize;
    let state = state.with_left(last_of(config.plan(), left), parts.confirmed);
    let input = input_of(alloc, &parts, suite, config.line_form())?;
    let waiting = waiting_by(&config, suite, &state, &input, parts.waiting)?;
    Ok(PausedEndpoint::with(config, suite, input, state, left, waiting))
}

impl<S: Suite> PausedEndpoint<S> {
    /// The client with this config, these draws and this suite of which this text is the record
    /// ([`record`](PausedEndpoint::record)). Other bytes are refused, or make some client that fits config and suite.
    ///
    /// Answers `Version` for a record of another version of this crate, `Unreadable` for bytes that are no record of such a client,
    /// `Memory` where an allocation failed.
    pub fn client_of_record(
        alloc: Global,
        text: &[u8],
        config: &ClientConfig,
        draws: Draws,
        suite: &S,
    ) -> Result<PausedEndpoint<S>, RecordFault>
        ensures fits { IfOk result (λ p. FitsPaused S.meaning Client (config_of_client (redrawn_client draws config.now)) suite.now p) }
        ensures open { IfOk result (λ p. paused_end p ≡ Open) }
        ensures draws { IfOk result (λ p. p.draws ≡ draws) }
        // What was written of an endpoint that fits them isn't refused, and is read as the same: it goes on from there.
        ensures goes_on { GoesOnFrom S.meaning Client (config_of_client (redrawn_client draws config.now)) suite.now text.now result }
        ensures made { (p : PausedData S) → IsRecorded S.meaning Client (config_of_client (redrawn_client draws config.now)) suite.now text.now p
            → IsMadeSo (λ q. IsSamePaused Client (config_of_client (redrawn_client draws config.now)) p q) result }
        ensures version { (n : ℕ) (rest : List ℕ) → n < 2 ^ 32 → n ≢ RECORD_VERSION → text.now ≡ number_text n rest → result ≡ Err Version }
    {
        endpoint_of(alloc, text, Config::Client(config, draws), suite)
    }

    /// The server with this config, these draws and this suite of which this text is the record
    /// ([`record`](PausedEndpoint::record)). Other bytes are refused, or make some server that fits config and suite.
    ///
    /// Answers `Version` for a record of another version of this crate, `Unreadable` for bytes that are no record of such a server,
    /// `Memory` where an allocation failed.
    pub fn server_of_record(
        alloc: Global,
        text: &[u8],
        config: &ServerConfig,
        draws: Draws,
        suite: &S,
    ) -> Result<PausedEndpoint<S>, RecordFault>
        ensures fits { IfOk result (λ p. FitsPaused S.meaning Server (config_of_server (redrawn_server draws config.now)) suite.now p) }
        ensures open { IfOk result (λ p. paused_end p ≡ Open) }
        ensures draws { IfOk result (λ p. p.draws ≡ draws) }
        // What was written of an endpoint that fits them isn't refused, and is read as the same: it goes on from there.
        ensures goes_on { GoesOnFrom S.meaning Server (config_of_server (redrawn_server draws config.now)) suite.now text.now result }
        ensures made { (p : PausedData S) → IsRecorded S.meaning Server (config_of_server (redrawn_server draws config.now)) suite.now text.now p
            → IsMadeSo (λ q. IsSamePaused Server (config_of_server (redrawn_server draws config.now)) p q) result }
        ensures version { (n : ℕ) (rest : List ℕ) → n < 2 ^ 32 → n ≢ RECORD_VERSION → text.now ≡ number_text n rest → result ≡ Err Version }
    {
        endpoint_of(alloc, text, Config::Server(config, draws), suite)
    }
}

/// The law of records: what is promised of an endpoint and of the one that was made of its record by
/// [`client_of_record`](PausedEndpoint::client_of_record) or [`server_of_record`](PausedEndpoint::server_of_record).
pub fn record_law<S: Suite>(one: &PausedEndpoint<S>, other: &PausedEndpoint<S>)
    // What the one has received and sent, the other has.
    ensures after { (setup : Setup) (h s : List ℕ) → IsSamePaused setup.role setup.config one.now other.now → PausedAfter setup one.now h s → PausedAfter setup other.now h s }
    // One that is open and has a history reads on, as `made` wants it.
    ensures reading { (setup : Setup) (h s : List ℕ) → PausedAfter setup one.now h s → paused_end one.now ≡ Open → IsReading one.now.input }
    // Both stand alike, and ask the same.
    ensures end { (role : Side) (config : ConfigData) → IsSamePaused role config one.now other.now → paused_end other.now ≡ paused_end one.now }
    ensures asks { (role : Side) (config : ConfigData) → IsSamePaused role config one.now other.now → asked_paused other.now ≡ asked_paused one.now }
{}
