//! What an endpoint keeps between two packets.

ghost use Rattle.std.specs.Prelude.{◌≡◌, ◌≤◌, None, Some, false, is_some, length, map, true};
ghost use Rattle.std.specs.List.{AllByRecursion, AllByRecursion-prop};
ghost use Rattle.sshwire.specs.declared.limits.TheConstants.{LINE_LIMIT};
ghost use Rattle.sshpacket.specs.declared.limits.TheConstants.{DIGEST_LIMIT, PACKET_LIMIT};
ghost use Rattle.sshcore.specs.declared.config_parts.TheConstants.{TRIES_LIMIT};
ghost use Rattle.sshcore.specs.AttemptProps.{IsAttempt-prop};
ghost use Rattle.sshcore.specs.ConfigRules.{IsAttempt};
ghost use Rattle.sshcore.specs.ConfigView.{attempt_data};
ghost use Rattle.sshcore.specs.Phases.{past_kexinit};
ghost use Rattle.sshcore.specs.Work.{asks_for_extensions};
ghost use Rattle.sshcore.specs.EndData.{Open, end_data};

use crate::config::Config;
use crate::config_parts::Attempt;
use crate::end::End;
use crate::kex_algorithms::Algorithms;
use crate::phase_table::Phase;
use crate::session::UserKey;
use sshpacket::{Keys, ShareForm};
use std::alloc::Global;

/// Which of the methods that can be required are completed, and for whom.
#[derive(Drop)]
pub(crate) struct CompletedMethods {
    /// The user of the last successful request.
    pub(crate) user: String,
    /// The service of the last successful request.
    pub(crate) service: String,
    pub(crate) password: bool,
    pub(crate) publickey: bool,
}

/// What an endpoint keeps between two packets, besides its reader.
#[derive(Drop)]
pub(crate) struct State<'a> {
    pub(crate) alloc: Global,
    pub(crate) end: End,
    pub(crate) phase: Phase,
    /// Whether the packet of a wrong guess is due.
    pub(crate) guess: bool,
    pub(crate) strict: bool,
    /// Whether no payload was received.
    pub(crate) first: bool,
    /// How many bytes of packets that say nothing may still come, from NEWKEYS on and where there is a
    /// limit.
    pub(crate) allowance: Option<u32>,
    /// The text of the peer's version line.
    pub(crate) version: Vec<u8>,
    /// The payload of the peer's KEXINIT.
    pub(crate) kexinit: Vec<u8>,
    /// Whether that asks for extensions (RFC 8308 section 2.1).
    pub(crate) asks: bool,
    pub(crate) algorithms: Option<Algorithms>,
    /// The form of shares in 30 and 31.
    pub(crate) shares: ShareForm,
    /// The session identifier.
    pub(crate) session: Vec<u8>,
    /// The number of the next request of authentication, from 1 (RFC 4252 section 5).
    pub(crate) request: u32,
    /// What is left of a client's plan, from the attempt on that was made last, or is made first.
    pub(crate) left: &'a [Attempt],
    /// Whether the query of the first of them was answered by PK_OK.
    pub(crate) confirmed: bool,
    /// What the requests that a server received have completed.
    pub(crate) completed: CompletedMethods,
    /// The keys of what is received, from the exchange up to NEWKEYS.
    pub(crate) pending: Option<Keys>,
    /// The text of the own version line, from the exchange on.
    pub(crate) own_version: Vec<u8>,
    /// The server's public host key, from the exchange on.
    pub(crate) host_key: Vec<u8>,
    /// The key of the last signed request that was successful.
    pub(crate) user_key: Option<UserKey>,
    /// The keys of what is sent.
    pub(crate) keys_out: Option<Keys>,
    /// The number of the next packet that is sent.
    pub(crate) number_out: u32,
    ghost version_short: { length version.items ≤ LINE_LIMIT },
    ghost kexinit_short: { length kexinit.items ≤ PACKET_LIMIT },
    ghost asked: { asks ≡ asks_for_extensions kexinit.items },
    ghost chosen: { is_some algorithms ≡ past_kexinit phase },
    ghost session_short: { length session.items ≤ DIGEST_LIMIT },
    ghost granted: { end_data end ≡ Open → request ≤ TRIES_LIMIT },
    ghost accepted: { AllByRecursion IsAttempt (map attempt_data left.now) } by { AllByRecursion-prop IsAttempt IsAttempt-prop (map attempt_data left.now) },
}

impl<'a> State<'a> {
    ghost use Rattle.sshcore.specs.EndpointConfig.{config_data};
    ghost use Rattle.sshcore.specs.Paused.{with_left};
    ghost use Rattle.sshcore.specs.StateData.{begun, left_of, state_data};
    ghost use Rattle.sshcore.specs.Plan.{is_waiting};

    /// Before any byte.
    #[tactic(auto, using(crate::proofs::ExtensionLemmas::none_asked))]
    pub(crate) fn new(alloc: Global, config: &Config<'a>) -> State<'a>
        ensures { state_data result ≡ begun (config_data config.now) }
    {
        State {
            alloc,
            end: End::Open,
            phase: Phase::KexInit,
            guess: false,
            strict: false,
            first: true,
            allowance: None,
            version: Vec::new(alloc),
            kexinit: Vec::new(alloc),
            asks: false,
            algorithms: None,
            shares: ShareForm::Mpint,
            session: Vec::new(alloc),
            request: 1,
            left: config.plan(),
            confirmed: false,
            completed: CompletedMethods {
                user: String::new(alloc),
                service: String::new(alloc),
                password: false,
                publickey: false,
            },
            pending: None,
            own_version: Vec::new(alloc),
            host_key: Vec::new(alloc),
            user_key: None,
            keys_out: None,
            number_out: 0,
        }
    }

    /// The same with these attempts left, of which the first is confirmed or not.
    pub(crate) fn with_left<'b>(self, left: &'b [Attempt], confirmed: bool) -> State<'b>
        requires accepted { AllByRecursion IsAttempt (map attempt_data left.now) }
        ensures same { state_data result ≡ with_left (left_of confirmed (map attempt_data left.now)) (state_data self.entry) }
        ensures confirmed { result.confirmed ≡ confirmed }
    {
        State {
            alloc: self.alloc,
            end: self.end,
            phase: self.phase,
            guess: self.guess,
            strict: self.strict,
            first: self.first,
            allowance: self.allowance,
            version: self.version,
            kexinit: self.kexinit,
            asks: self.asks,
            algorithms: self.algorithms,
            shares: self.shares,
            session: self.session,
            request: self.request,
            left,
            confirmed,
            completed: self.completed,
            pending: self.pending,
            own_version: self.own_version,
            host_key: self.host_key,
            user_key: self.user_key,
            keys_out: self.keys_out,
            number_out: self.number_out,
        }
    }

    /// Whether a query waits for its answer: the first of the attempts that are left asks, and wasn't
    /// confirmed.
    pub(crate) fn waits(&self) -> bool
        ensures { result ≡ is_waiting (state_data self.now).known.left }
    {
        match self.left.first() {
            None => false,
            Some(attempt) => !self.confirmed && attempt.credential.asks(),
        }
    }
}
