//! An endpoint that asks, paused: so that many of them are kept beside one config.

ghost use Rattle.std.specs.Prelude.{◌≡◌, ◌-◌, ℕ, List, drop, length, map};
ghost use Rattle.std.specs.List.{AllByRecursion};
ghost use Rattle.sshneg.specs.declared.side.Side.TheVariants.{Client, Server};
ghost use Rattle.sshcore.specs.declared.config_draws.Draws.{Draws};
ghost use Rattle.sshcore.specs.Asking.{AskingAfter, asked_by, asking_end};
ghost use Rattle.sshcore.specs.AskingData.{AskingData, asking_setup};
ghost use Rattle.sshcore.specs.ConfigParts.{ClientData, ServerData};
ghost use Rattle.sshcore.specs.ConfigRules.{IsAttempt};
ghost use Rattle.sshcore.specs.ConfigView.{attempt_data};
ghost use Rattle.sshcore.specs.EndpointConfig.{config_data, role_of};
ghost use Rattle.sshcore.specs.EndpointParts.{DecisionsData, config_of_client, config_of_server, setup_with};
ghost use Rattle.sshcore.specs.MadeWith.{draws_in};
ghost use Rattle.sshcore.specs.Paused.{FitsPaused, IsPaused, IsResumed, PausedAfter, asked_paused, kept_by, kept_with, paused_end};
ghost use Rattle.sshcore.specs.Redrawn.{redrawn_client, redrawn_server};
ghost use Rattle.sshcore.specs.StateData.{state_data};
ghost use Rattle.sshcore.specs.Unread.{IsAskingEndpoint};
ghost use Rattle.sshcore.specs.WaitingView.{waiting_of};

use crate::asking_endpoint::AskingEndpoint;
use crate::asking_given::Listener;
use crate::asking_waiting::Waiting;
use crate::config::Config;
use crate::config_client::ClientConfig;
use crate::config_draws::Draws;
use crate::config_made_with::MadeWith;
use crate::config_parts::Attempt;
use crate::config_server::ServerConfig;
use crate::input::Input;
use crate::seen::Seen;
use crate::state::State;
use sshneg::Side;
use sshpacket::Suite;
use std::marker::Model;

/// An [`AskingEndpoint`] that is paused: all that changes of it, and nothing that it borrows. So whoever runs many of them keeps
/// them in a table beside the one config that they share, and resumes one when bytes come or an answer is there. Proofs know the
/// config and the suite that it had, and it may be resumed with no other. What is held has secrets, so there is no `Debug`.
#[derive(Drop)]
pub struct PausedEndpoint<S> {
    draws: Draws,
    pub(crate) role: Side,
    made: MadeWith,
    suite: Seen<S>,
    pub(crate) input: Input,
    pub(crate) state: State<'static>,
    /// How many attempts of the plan are left, from the one on that was made last.
    pub(crate) left: usize,
    pub(crate) waiting: Option<Waiting>,
}

impl<S> Model for PausedEndpoint<S> {
    ghost use Rattle.sshcore.specs.MadeWith.{configs_seen};
    ghost use Rattle.sshcore.specs.Paused.{PausedData};
    ghost use Rattle.sshcore.specs.WaitingView.{waiting_of};
    ghost use Rattle.sshcore.specs.AttemptProps.{IsAttempt-prop};
    ghost use Rattle.sshcore.specs.ConfigRules.{IsAttempt};
    ghost use Rattle.std.specs.Coded.{codes};
    ghost use Rattle.std.specs.List.{AllByRecursion-prop};

    ghost Value = { PausedData S };

    ghost coded = { Prim.hlevel (codes, AllByRecursion-prop IsAttempt IsAttempt-prop) };

    ghost view = { λ p. record {
      draws = p.draws;
      role = p.role;
      configs = configs_seen p.draws p.made;
      suites = p.suite.values;
      input = p.input;
      state = p.state;
      left = p.left;
      waiting = waiting_of p.waiting;
    } };
}

impl<S: Suite, L: Listener> AskingEndpoint<'_, S, L> {
    /// Pauses it, whether it waits or not, and gives back the config, the suite and the listener that it borrowed. Takes no
    /// memory. [`resume_client`](PausedEndpoint::resume_client) or [`resume_server`](PausedEndpoint::resume_server)
    /// goes on with it.
    pub fn pause(self) -> PausedEndpoint<S>
        ensures pauses { IsPaused self.entry result }
        // It may be resumed in this role, with this config and this suite.
        ensures fits { FitsPaused S.meaning self.entry.role self.entry.config self.entry.suite result }
        // Its draws are those by which this is its config.
        ensures client { (client : ClientData) (draws : Draws) → self.entry.config ≡ config_of_client (redrawn_client draws client) → result.draws ≡ draws }
        ensures server { (server : ServerData) (draws : Draws) → self.entry.config ≡ config_of_server (redrawn_server draws server) → result.draws ≡ draws }
        // So it may be resumed with the config and the suite that it was made with.
        ensures fits_client { (client : ClientData) (draws : Draws) (suite : S) → self.entry.role ≡ Client → self.entry.config ≡ config_of_client (redrawn_client draws client) → self.entry.suite ≡ suite
            → FitsPaused S.meaning Client (config_of_client (redrawn_client result.draws client)) suite result }
        ensures fits_server { (server : ServerData) (draws : Draws) (suite : S) → self.entry.role ≡ Server → self.entry.config ≡ config_of_server (redrawn_server draws server) → self.entry.suite ≡ suite
            → FitsPaused S.meaning Server (config_of_server (redrawn_server result.draws server)) suite result }
        // It has received and sent the same.
        ensures follows { (d : DecisionsData) (h s : List ℕ) → AskingAfter S.meaning d self.entry h s → PausedAfter (asking_setup S.meaning d self.entry) result h s }
        ensures end { paused_end result ≡ asking_end self.entry }
        ensures asks { asked_paused result ≡ asked_by self.entry }
    {
        let confirmed = !self.state.waits();
        let left = self.state.left.len();
        let role = self.config.role();
        let made = self.config.seen();
        PausedEndpoint {
            draws: self.config.into_draws(),
            role,
            made,
            suite: Seen::of(self.suite),
            input: self.input,
            state: self.state.with_left(&[], confirmed),
            left,
            waiting: self.waiting,
        }
    }
}

impl<S: Suite> PausedEndpoint<S> {
    /// Resumes a client with its config and its suite, those with which it was paused; the listener may be another. Takes no
    /// memory.
    pub fn resume_client<'a, L: Listener>(
        self,
        config: &'a ClientConfig,
        suite: &'a S,
        listener: &'a L,
    ) -> AskingEndpoint<'a, S, L>
        requires fits { FitsPaused S.meaning Client (config_of_client (redrawn_client self.draws config.now)) suite.now self }
        ensures resumes { IsResumed Client (config_of_client (redrawn_client self.draws config.now)) suite.now self result }
        // It has received and sent the same.
        ensures follows { (d : DecisionsData) (h s : List ℕ)
            → PausedAfter (setup_with (S.meaning suite.now) d Client (config_of_client (redrawn_client self.draws config.now))) self h s → AskingAfter S.meaning d result h s }
        ensures end { asking_end result ≡ paused_end self }
        ensures asks { asked_by result ≡ asked_paused self }
    {
        resumed(
            Config::Client(config, self.draws),
            suite,
            listener,
            self.input,
            self.state,
            self.left,
            self.waiting,
        )
    }

    /// Resumes a server with its config and its suite, those with which it was paused; the listener may be another. Takes no
    /// memory.
    pub fn resume_server<'a, L: Listener>(
        self,
        config: &'a ServerConfig,
        suite: &'a S,
        listener: &'a L,
    ) -> AskingEndpoint<'a, S, L>
        requires fits { FitsPaused S.meaning Server (config_of_server (redrawn_server self.draws config.now)) suite.now self }
        ensures resumes { IsResumed Server (config_of_server (redrawn_server self.draws config.now)) suite.now self result }
        // It has received and sent the same.
        ensures follows { (d : DecisionsData) (h s : List ℕ)
            → PausedAfter (setup_with (S.meaning suite.now) d Server (config_of_server (redrawn_server self.draws config.now))) self h s → AskingAfter S.meaning d result h s }
        ensures end { asking_end result ≡ paused_end self }
        ensures asks { asked_by result ≡ asked_paused self }
    {
        resumed(
            Config::Server(config, self.draws),
            suite,
            listener,
            self.input,
            self.state,
            self.left,
            self.waiting,
        )
    }
}

impl<S: Suite> PausedEndpoint<S> {
    /// The paused endpoint of these parts, of whose plan so many attempts are left.
    pub(crate) fn with(
        config: Config<'_>,
        suite: &S,
        input: Input,
        state: State<'_>,
        left: usize,
        waiting: Option<Waiting>,
    ) -> PausedEndpoint<S>
        requires fits { IsAskingEndpoint (S.meaning suite.now) (role_of config) (config_data config) (kept_with (config_data config).plan state left) input (waiting_of waiting) }
        ensures fits { FitsPaused S.meaning (role_of config.entry) (config_data config.entry) suite.now result }
        ensures same { (result.input ≡ input) × (result.waiting ≡ waiting_of waiting) }
        ensures draws { result.draws ≡ draws_in config.entry }
        ensures kept { kept_by (config_data config.entry) result ≡ kept_with (config_data config.entry).plan state.entry left }
    {
        let confirmed = state.confirmed;
        let role = config.role();
        let made = config.seen();
        PausedEndpoint {
            draws: config.into_draws(),
            role,
            made,
            suite: Seen::of(suite),
            input,
            state: state.with_left(&[], confirmed),
            left,
            waiting,
        }
    }
}

/// An endpoint with this config, of whose plan so many attempts are left.
fn resumed<'a, S: Suite, L: Listener>(
    config: Config<'a>,
    suite: &'a S,
    listener: &'a L,
    input: Input,
    state: State<'static>,
    left: usize,
    waiting: Option<Waiting>,
) -> AskingEndpoint<'a, S, L>
    requires fits { IsAskingEndpoint (S.meaning suite.now) (role_of config) (config_data config) (kept_with (config_data config).plan state left) input (waiting_of waiting) }
    ensures same { (result.role ≡ role_of config.entry) × (result.config ≡ config_data config.entry) × (result.suite ≡ suite.now) × (result.input ≡ input) × (result.waiting ≡ waiting_of waiting) }
    ensures kept { state_data result.state ≡ kept_with (config_data config.entry).plan state.entry left }
{
    let confirmed = state.confirmed;
    let state = state.with_left(last_of(config.plan(), left), confirmed);
    AskingEndpoint {
        config,
        suite,
        listener,
        input,
        state,
        waiting,
    }
}

/// The last of these attempts, so many of them.
pub(crate) fn last_of<'a>(plan: &'a [Attempt], left: usize) -> &'a [Attempt]
    requires accepted { AllByRecursion IsAttempt (map attempt_data plan.now) }
    ensures last { map attempt_data result.now ≡ drop (length (map attempt_data plan.now) - left) (map attempt_data plan.now) }
    ensures accepted { AllByRecursion IsAttempt (map attempt_data result.now) }
{
    &plan[plan.len().saturating_sub(left)..]
}
