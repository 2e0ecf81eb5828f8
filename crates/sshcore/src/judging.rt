//! What a packet is to an endpoint: its line of the phase table, its message, and what that asks. Nothing changes here.

ghost use Rattle.std.specs.Prelude.{◌≡◌, ◌≤◌, IfOk, IfSome, Ok, Some, false, length, map, option_map, true};
ghost use Rattle.std.specs.List.{AllByRecursion};
ghost use Rattle.sshmsg.specs.MessageData.{MessageData};
ghost use Rattle.sshmsg.specs.Messages.{Spells};
ghost use Rattle.sshmsg.specs.Numbers.{message_number};
ghost use Rattle.sshmsg.specs.View.{message_data, method_data};
ghost use Rattle.sshneg.specs.declared.side.Side.TheVariants.{Server};
ghost use Rattle.sshpacket.specs.declared.limits.TheConstants.{PACKET_LIMIT};
ghost use Rattle.sshcore.specs.declared.phase_table.Disposition.TheVariants as disposition;
ghost use Rattle.sshcore.specs.declared.phase_table.Phase.TheVariants as phase;
ghost use Rattle.sshcore.specs.Authenticating.{FitsMethod};
ghost use Rattle.sshcore.specs.ConfigRules.{IsAttempt};
ghost use Rattle.sshcore.specs.ConfigView.{attempt_data};
ghost use Rattle.sshcore.specs.EndData.{Open, end_data};
ghost use Rattle.sshcore.specs.EndpointConfig.{config_data, role_of};
ghost use Rattle.sshcore.specs.Exchange.{share_read};
ghost use Rattle.sshcore.specs.IgnoredLimit.{overspends};
ghost use Rattle.sshcore.specs.Plan.{is_waiting, next_after};
ghost use Rattle.sshcore.specs.StateData.{left_of, state_data};
ghost use Rattle.sshcore.specs.Table.{disposition_by};
ghost use Rattle.sshcore.specs.Attempts.{answers_query, attempt_step, failure_step, pk_ok_step};
ghost use Rattle.sshcore.specs.Judging.{FitsAttempt, FitsPending, IsJudged, KeepsReply, KeepsRequest, KeepsShare, SkipsTo, is_at_once, pending_in};
ghost use Rattle.sshcore.specs.Questions.{HostKeyQuestion};
ghost use Rattle.sshcore.specs.QuestionsView.{pending_question};
ghost use Rattle.sshcore.specs.Requests.{request_step};
ghost use Rattle.sshcore.specs.Step.{asked_in};
ghost use Rattle.sshcore.specs.Work.{accept_step, init_step, step};

use crate::auth_client_attempts::next_attempts;
use crate::config::Config;
use crate::config_parts::{Attempt, Credential};
use crate::end::Fault;
use crate::packet_dispositions::{disposition_of, message_number};
use crate::payloads::USERAUTH;
use crate::pending::Pending;
use crate::phase_table::Disposition;
use crate::state::State;
use sshmsg::{Message, Method, MsgFault, read_exchange};
use sshneg::signed_request;
use sshpacket::Suite;
use sshwire::{Memory, NameList};

/// What a packet is to an endpoint.
#[derive(Drop)]
pub(crate) enum Judged<'m> {
    /// It is dropped unread, as the packet of a wrong guess (RFC 4253 section 7).
    Drops,
    /// The endpoint fails so.
    Fails(Fault),
    /// It isn't understood (RFC 4253 section 11.4).
    Unknown,
    /// A message that is answered at once.
    Reads(Message<'m>),
    /// A message that is answered once somebody has decided.
    Asks(Message<'m>, Pending),
}

impl Judged<'_> {
    /// Whether it asks nothing.
    pub(crate) fn is_at_once(&self) -> bool
        ensures { result ≡ is_at_once self.now }
    {
        match self {
            Judged::Asks(..) => false,
            _ => true,
        }
    }

    /// What it asks, with all that its answer needs.
    pub(crate) fn pending(self) -> Option<Pending>
        ensures { result ≡ pending_in self.entry }
    {
        match self {
            Judged::Asks(_message, pending) => Some(pending),
            Judged::Reads(_message) => None,
            Judged::Drops | Judged::Fails(_) | Judged::Unknown => None,
        }
    }
}

impl State<'_> {
    /// What a packet is, by its line of the phase table. One that says nothing is taken only within what may still come
    /// of such.
    pub(crate) fn judge<'m, S: Suite>(
        &self,
        config: &Config<'_>,
        suite: &S,
        payload: &'m [u8],
    ) -> Result<Judged<'m>, Memory>
        requires open { end_data self.now.end ≡ Open }
        requires short { length payload.now ≤ PACKET_LIMIT }
        ensures { IfOk result (λ judged. IsJudged (S.meaning suite.now) (role_of config.now) (config_data config.now) (state_data self.now) payload.now judged) }
    {
        sshmsg::numbers_law();
        let number = message_number(payload);
        let waits = self.waits();
        let disposition = disposition_of(
            config.role(),
            self.phase,
            self.strict,
            self.guess,
            waits,
            number,
        );
        if self.takes_too_much(disposition, payload) {
            return Ok(Judged::Fails(Fault::TooMuchIgnored));
        }
        match disposition {
            Disposition::Reads => self.judge_message(config, suite, payload),
            Disposition::Drops => Ok(Judged::Drops),
            Disposition::Deviates => Ok(Judged::Fails(Fault::Strict(number))),
            Disposition::Unknown => Ok(Judged::Unknown),
            Disposition::Unexpected => Ok(Judged::Fails(Fault::Unexpected(number))),
        }
    }

    /// What a packet is that has a place; `Malformed` where it can't be read.
    fn judge_message<'m, S: Suite>(
        &self,
        config: &Config<'_>,
        suite: &S,
        payload: &'m [u8],
    ) -> Result<Judged<'m>, Memory>
        requires short { length payload.now ≤ PACKET_LIMIT }
        requires reads { disposition_by (role_of config.now) self.now.phase self.now.strict self.now.guess (is_waiting (state_data self.now).known.left) (message_number payload.now) ≡ disposition.Reads }
        requires within { overspends (state_data self.now).known.allowance payload.now ≡ false }
        ensures { IfOk result (λ judged. IsJudged (S.meaning suite.now) (role_of config.now) (config_data config.now) (state_data self.now) payload.now judged) }
    {
        match read_exchange(self.alloc, payload, self.shares) {
            Err(fault) => match fault {
                MsgFault::Memory => Err(Memory),
                _ => Ok(Judged::Fails(Fault::Malformed(message_number(payload)))),
            },
            Ok(message) => match self.pending_of(config, suite, payload, &message)? {
                Some(pending) => Ok(Judged::Asks(message, pending)),
                None => Ok(Judged::Reads(message)),
            },
        }
    }

    /// What a message asks before it is answered.
    fn pending_of<S: Suite>(
        &self,
        config: &Config<'_>,
        suite: &S,
        payload: &[u8],
        message: &Message<'_>,
    ) -> Result<Option<Pending>, Memory>
        requires short { length payload.now ≤ PACKET_LIMIT }
        requires reads { disposition_by (role_of config.now) self.now.phase self.now.strict self.now.guess (is_waiting (state_data self.now).known.left) (message_number payload.now) ≡ disposition.Reads }
        requires spelled { Spells self.now.shares (message_data message.now) payload.now }
        ensures asks { IfOk result (λ o. option_map pending_question o
            ≡ asked_in (step (S.meaning suite.now) (role_of config.now) (config_data config.now) (state_data self.now).known (message_data message.now))) }
        ensures fits { IfOk result (λ o. IfSome o (FitsPending (S.meaning suite.now) (role_of config.now) (config_data config.now) (state_data self.now).known (message_data message.now))) }
    {
        sshmsg::messages_law();
        sshmsg::numbers_law();
        sshmsg::lengths_law();
        match message {
            Message::KexdhReply {
                host_key,
                f,
                signature,
            } => self.pending_reply(host_key, f.body(), signature),
            Message::KexEcdhReply {
                host_key,
                server_share,
                signature,
            } => self.pending_reply(host_key, server_share, signature),
            Message::UserauthRequest {
                user,
                service,
                method,
            } => self.pending_request(config, suite, user, service, method),
            Message::KexdhInit { e } => self.pending_init(config, suite, e.body()),
            Message::KexEcdhInit { client_share } => self.pending_init(config, suite, client_share),
            Message::ServiceAccept { service } => self.pending_accept(suite, service),
            Message::UserauthFailure { methods, .. } => self.pending_next(suite, methods),
            Message::UserauthPkOk { algorithm, key } => {
                self.pending_confirmed(suite, algorithm, key)
            }
            _ => Ok(None),
        }
    }

    /// The first attempt is made once the service is accepted.
    fn pending_accept<S: Suite>(&self, suite: &S, service: &[u8]) -> Result<Option<Pending>, Memory>
        ensures asks { IfOk result (λ o. option_map pending_question o ≡ asked_in (accept_step (S.meaning suite.now) (state_data self.now).known service.now)) }
        ensures fits { IfOk result (λ o. IfSome o (FitsAttempt 0 false)) }
    {
        if service != USERAUTH {
            return Ok(None);
        }
        self.pending_attempt(suite, self.left, self.confirmed, 0, false)
    }

    /// The next attempt is made whose method is listed; those before it are skipped.
    fn pending_next<S: Suite>(
        &self,
        suite: &S,
        methods: &NameList,
    ) -> Result<Option<Pending>, Memory>
        ensures asks { IfOk result (λ o. option_map pending_question o ≡ asked_in (failure_step (S.meaning suite.now) (state_data self.now).known methods.now)) }
        ensures fits { IfOk result (λ o. IfSome o (SkipsTo (next_after methods.now (state_data self.now).known.left) (state_data self.now).known.left)) }
    {
        let next = next_attempts(self.left, methods);
        let skipped = self.left.len() - next.len();
        self.pending_attempt(suite, next, false, skipped, false)
    }

    /// The attempt of a query is made once its key would do.
    fn pending_confirmed<S: Suite>(
        &self,
        suite: &S,
        algorithm: &[u8],
        key: &[u8],
    ) -> Result<Option<Pending>, Memory>
        ensures asks { IfOk result (λ o. option_map pending_question o ≡ asked_in (pk_ok_step (S.meaning suite.now) (state_data self.now).known algorithm.now key.now)) }
        ensures fits { IfOk result (λ o. IfSome o (λ p. FitsAttempt 0 true p × (answers_query (S.meaning suite.now) algorithm.now key.now (state_data self.now).known.left ≡ true))) }
    {
        if !self.is_about(suite, algorithm, key)? {
            return Ok(None);
        }
        self.pending_attempt(suite, self.left, true, 0, true)
    }

    /// A server's answer: whether its host key is trusted is asked first.
    fn pending_reply(
        &self,
        host_key: &[u8],
        share: &[u8],
        signature: &[u8],
    ) -> Result<Option<Pending>, Memory>
        requires at { self.now.phase ≡ phase.Exchange }
        ensures asks { IfOk result (λ o. option_map pending_question o ≡ Some (HostKeyQuestion (state_data self.now).known.algorithms.host_key host_key.now)) }
        ensures fits { IfOk result (λ o. IfSome o (KeepsReply host_key.now share.now signature.now)) }
    {
        let algorithms = self.algorithms.as_ref().unwrap();
        let algorithm = String::from_str(self.alloc, algorithms.host_key())?;
        let host_key = Vec::from_slice(self.alloc, host_key)?;
        let share = Vec::from_slice(self.alloc, share)?;
        let signature = Vec::from_slice(self.alloc, signature)?;
        Ok(Some(Pending::Reply {
            algorithm,
            host_key,
            share,
            signature,
        }))
    }

    /// A client's share: the exchange hash is signed elsewhere where the suite doesn't hold the host key.
    fn pending_init<S: Suite>(
        &self,
        config: &Config<'_>,
        suite: &S,
        share: &[u8],
    ) -> Result<Option<Pending>, Memory>
        requires at { self.now.phase ≡ phase.Exchange }
        requires server { role_of config.now ≡ Server }
        requires short { length share.now ≤ PACKET_LIMIT }
        ensures asks { IfOk result (λ o. (message : MessageData) → share_read (Ok message) ≡ share.now
            → option_map pending_question o ≡ asked_in (init_step (S.meaning suite.now) Server (config_data config.now) (state_data self.now).known message)) }
        ensures fits { IfOk result (λ o. IfSome o (KeepsShare (S.meaning suite.now) (role_of config.now) (config_data config.now) (state_data self.now).known share.now)) }
    {
        let algorithms = self.algorithms.as_ref().unwrap();
        if suite.holds(algorithms.host_key(), config.secret(algorithms.host_key())) {
            return Ok(None);
        }
        match self.prepare_init(config, suite, share)? {
            None => Ok(None),
            Some(prepared) => {
                let algorithm = String::from_str(self.alloc, algorithms.host_key())?;
                Ok(Some(Pending::Init {
                    algorithm,
                    prepared,
                }))
            }
        }
    }

    /// A request: nothing is asked for a service that the server doesn't have, nor of what proves nothing.
    fn pending_request<S: Suite>(
        &self,
        config: &Config<'_>,
        suite: &S,
        user: &str,
        service: &[u8],
        method: &Method<'_>,
    ) -> Result<Option<Pending>, Memory>
        requires user { length user.now ≤ PACKET_LIMIT }
        requires method { FitsMethod (method_data method.now) }
        ensures asks { IfOk result (λ o. option_map pending_question o
            ≡ asked_in (request_step (S.meaning suite.now) (config_data config.now) (state_data self.now).known user.now service.now (method_data method.now))) }
        ensures fits { IfOk result (λ o. IfSome o (KeepsRequest (config_data config.now) (state_data self.now).known user.now service.now (method_data method.now))) }
    {
        let Some(service) = config.service(service) else {
            return Ok(None);
        };
        match self.claim_of(config, suite, user, service, method)? {
            None => Ok(None),
            Some(claim) => {
                let user = String::from_str(self.alloc, user)?;
                let service = String::from_str(self.alloc, service)?;
                Ok(Some(Pending::Request {
                    number: self.request,
                    user,
                    service,
                    claim,
                }))
            }
        }
    }

    /// The first of these attempts, which is made next: it is signed elsewhere where the suite doesn't hold its key.
    fn pending_attempt<S: Suite>(
        &self,
        suite: &S,
        left: &[Attempt],
        confirmed: bool,
        skipped: usize,
        confirms: bool,
    ) -> Result<Option<Pending>, Memory>
        requires accepted { AllByRecursion IsAttempt (map attempt_data left.now) }
        ensures asks { IfOk result (λ o. option_map pending_question o ≡ asked_in (attempt_step (S.meaning suite.now) (state_data self.now).known.session (left_of confirmed (map attempt_data left.now)))) }
        ensures fits { IfOk result (λ o. IfSome o (FitsAttempt skipped confirms)) }
    {
        sshneg::exchange_law();
        let Some((attempt, later)) = left.split_first() else {
            return Ok(None);
        };
        match &attempt.credential {
            Credential::PublicKey {
                algorithm,
                private_key,
                ask,
            } => {
                if (*ask && !confirmed) || suite.holds(algorithm, private_key) {
                    return Ok(None);
                }
                let blob = suite.blob(self.alloc, algorithm, private_key)?;
                let service = attempt.service.as_bytes();
                let input = signed_request(
                    self.alloc,
                    &self.session,
                    &attempt.user,
                    service,
                    algorithm,
                    &blob,
                )?;
                let algorithm = String::from_str(self.alloc, algorithm)?;
                Ok(Some(Pending::Attempt {
                    skipped,
                    confirms,
                    number: later.len(),
                    algorithm,
                    blob,
                    input,
                }))
            }
            _ => Ok(None),
        }
    }
}
