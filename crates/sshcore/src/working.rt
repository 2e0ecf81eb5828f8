//! What a message that has a place does, by the phase that it has it in.

ghost use Rattle.std.specs.Prelude.{◌≡◌, ◌≤◌, IfOk, None, OnOk, false, length, true};
ghost use Rattle.sshmsg.specs.Messages.{Spells};
ghost use Rattle.sshmsg.specs.Numbers.{message_number, number_of};
ghost use Rattle.sshmsg.specs.View.{message_data};
ghost use Rattle.sshpacket.specs.declared.limits.TheConstants.{PACKET_LIMIT};
ghost use Rattle.sshcore.specs.declared.end.Fault.TheVariants as fault;
ghost use Rattle.sshcore.specs.declared.phase_table.Disposition.TheVariants as disposition;
ghost use Rattle.sshcore.specs.Comes.{Comes, ComesPlainly};
ghost use Rattle.sshcore.specs.EndpointConfig.{config_data, role_of, setup_of};
ghost use Rattle.sshcore.specs.EndpointParts.{DecisionsData};
ghost use Rattle.sshcore.specs.EndData.{Failed, Open, by_input, end_data};
ghost use Rattle.sshcore.specs.Exchanged.{HasForm};
ghost use Rattle.sshcore.specs.StateData.{state_data};
ghost use Rattle.sshcore.specs.Authenticating.{IsOfRequests};
ghost use Rattle.sshcore.specs.Plan.{is_waiting};
ghost use Rattle.sshcore.specs.Table.{disposition_by, is_of_method};
ghost use Rattle.sshcore.specs.Step.{asked_in};
ghost use Rattle.sshcore.specs.Work.{step, work};

use crate::config::Config;
use crate::end::End;
use crate::lent::set;
use crate::packet_dispositions::message_number;
use crate::reply::{Answers, Reply};
use crate::state::State;
use sshmsg::Message;
use sshpacket::Suite;
use sshwire::Memory;

impl State<'_> {
    /// Answers a message that has a place and asks nothing (RFC 4253 sections 7 to 11, RFC 4252).
    pub(crate) fn work<S: Suite>(
        &mut self,
        config: &Config<'_>,
        suite: &S,
        payload: &[u8],
        message: &Message<'_>,
    ) -> Result<Reply, Memory>
        requires open { end_data self.old.end ≡ Open }
        requires short { length payload.now ≤ PACKET_LIMIT }
        requires reads { disposition_by (role_of config.now) self.old.phase self.old.strict self.old.guess (is_waiting (state_data self.old).known.left) (message_number payload.now) ≡ disposition.Reads }
        requires spelled { Spells self.old.shares (message_data message.now) payload.now }
        requires calm { asked_in (step (S.meaning suite.now) (role_of config.now) (config_data config.now) (state_data self.old).known (message_data message.now)) ≡ None }
        ensures comes { IfOk result (λ reply. (d : DecisionsData) → HasForm (S.meaning suite.now) (state_data self.old)
            → Comes (setup_of (S.meaning suite.now) d config.now) (state_data self.old) (state_data self.new) payload.now reply
            (work (setup_of (S.meaning suite.now) d config.now) (state_data self.old).known (message_data message.now))) }
        ensures kept { OnOk result (by_input (end_data self.new.end) ≡ true) }
    {
        sshmsg::messages_law();
        sshmsg::numbers_law();
        match message {
            Message::KexdhInit { .. }
            | Message::KexdhReply { .. }
            | Message::KexEcdhInit { .. }
            | Message::KexEcdhReply { .. } => self.work_exchange(config, suite, payload, message),
            _ => Ok(
                self.work_plainly(config, suite, payload, message)?
                    .into_reply(),
            ),
        }
    }

    /// Answers a message that has a place, asks nothing, and is none of the method of key exchange: so it switches no keys.
    fn work_plainly<S: Suite>(
        &mut self,
        config: &Config<'_>,
        suite: &S,
        payload: &[u8],
        message: &Message<'_>,
    ) -> Result<Answers, Memory>
        requires open { end_data self.old.end ≡ Open }
        requires short { length payload.now ≤ PACKET_LIMIT }
        requires reads { disposition_by (role_of config.now) self.old.phase self.old.strict self.old.guess (is_waiting (state_data self.old).known.left) (message_number payload.now) ≡ disposition.Reads }
        requires spelled { Spells self.old.shares (message_data message.now) payload.now }
        requires other { is_of_method (number_of (message_data message.now)) ≡ false }
        requires calm { asked_in (step (S.meaning suite.now) (role_of config.now) (config_data config.now) (state_data self.old).known (message_data message.now)) ≡ None }
        ensures comes { IfOk result (λ answers. (d : DecisionsData)
            → ComesPlainly (setup_of (S.meaning suite.now) d config.now) (state_data self.old) (state_data self.new) payload.now answers
            (work (setup_of (S.meaning suite.now) d config.now) (state_data self.old).known (message_data message.now))) }
        ensures kept { OnOk result (by_input (end_data self.new.end) ≡ true) }
    {
        sshmsg::messages_law();
        sshmsg::numbers_law();
        match message {
            Message::Disconnect { reason, .. } => {
                set(&mut self.end, End::Closed(*reason));
                Ok(Answers::none(self.alloc))
            }
            Message::KexInit(peer) => self.receive_kexinit(config, suite, payload, peer),
            Message::NewKeys => {
                self.receive_new_keys(config);
                Ok(Answers::none(self.alloc))
            }
            Message::ServiceRequest { service } => self.receive_service_request(config, service),
            Message::ServiceAccept { service } => self.receive_service_accept(suite, service),
            Message::UserauthRequest { .. }
            | Message::UserauthFailure { .. }
            | Message::UserauthSuccess
            | Message::UserauthPkOk { .. } => self.work_auth(config, suite, payload, message),
            _ => {
                self.count(payload);
                Ok(Answers::none(self.alloc))
            }
        }
    }

    /// Answers a client's share, in either form (RFC 4253 section 8, RFC 5656 section 4). A server's answer always asks.
    fn work_exchange<S: Suite>(
        &mut self,
        config: &Config<'_>,
        suite: &S,
        payload: &[u8],
        message: &Message<'_>,
    ) -> Result<Reply, Memory>
        requires open { end_data self.old.end ≡ Open }
        requires short { length payload.now ≤ PACKET_LIMIT }
        requires reads { disposition_by (role_of config.now) self.old.phase self.old.strict self.old.guess (is_waiting (state_data self.old).known.left) (message_number payload.now) ≡ disposition.Reads }
        requires spelled { Spells self.old.shares (message_data message.now) payload.now }
        requires exchange { is_of_method (number_of (message_data message.now)) ≡ true }
        requires calm { asked_in (step (S.meaning suite.now) (role_of config.now) (config_data config.now) (state_data self.old).known (message_data message.now)) ≡ None }
        ensures comes { IfOk result (λ reply. (d : DecisionsData) → HasForm (S.meaning suite.now) (state_data self.old)
            → Comes (setup_of (S.meaning suite.now) d config.now) (state_data self.old) (state_data self.new) payload.now reply
            (work (setup_of (S.meaning suite.now) d config.now) (state_data self.old).known (message_data message.now))) }
        ensures kept { OnOk result (by_input (end_data self.new.end) ≡ true) }
    {
        sshmsg::messages_law();
        sshmsg::numbers_law();
        sshmsg::lengths_law();
        match message {
            Message::KexdhInit { e } => self.receive_init(config, suite, e.body()),
            Message::KexEcdhInit { client_share } => {
                self.receive_init(config, suite, client_share)
            }
            _ => unreachable!(),
        }
    }

    /// Answers a message of authentication that asks nothing (RFC 4252 sections 5 and 5.1).
    fn work_auth<S: Suite>(
        &mut self,
        config: &Config<'_>,
        suite: &S,
        payload: &[u8],
        message: &Message<'_>,
    ) -> Result<Answers, Memory>
        requires open { end_data self.old.end ≡ Open }
        requires short { length payload.now ≤ PACKET_LIMIT }
        requires reads { disposition_by (role_of config.now) self.old.phase self.old.strict self.old.guess (is_waiting (state_data self.old).known.left) (message_number payload.now) ≡ disposition.Reads }
        requires spelled { Spells self.old.shares (message_data message.now) payload.now }
        requires auth { IsOfRequests (number_of (message_data message.now)) }
        requires calm { asked_in (step (S.meaning suite.now) (role_of config.now) (config_data config.now) (state_data self.old).known (message_data message.now)) ≡ None }
        ensures comes { IfOk result (λ answers. (d : DecisionsData)
            → ComesPlainly (setup_of (S.meaning suite.now) d config.now) (state_data self.old) (state_data self.new) payload.now answers
            (work (setup_of (S.meaning suite.now) d config.now) (state_data self.old).known (message_data message.now))) }
        ensures kept { OnOk result (by_input (end_data self.new.end) ≡ true) }
    {
        sshmsg::messages_law();
        sshmsg::numbers_law();
        sshmsg::lengths_law();
        match message {
            Message::UserauthRequest {
                user,
                service,
                method,
            } => self.receive_request(config, suite, user, service, method),
            Message::UserauthFailure { methods, .. } => self.receive_failure(suite, methods),
            Message::UserauthSuccess => self.receive_success(),
            Message::UserauthPkOk { algorithm, key } => {
                self.receive_pk_ok(suite, algorithm, key)
            }
            _ => unreachable!(),
        }
    }
}
