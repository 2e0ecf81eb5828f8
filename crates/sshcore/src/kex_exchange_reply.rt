//! The server's answer of an exchange at a client (RFC 4253 section 8).

ghost use Rattle.std.specs.Prelude.{◌≡◌, ◌≤◌, ◌<◌, ◌∷◌, [], IfOk, Ok, OnOk, Some, is_some, length, true};
ghost use Rattle.sshmsg.specs.MessageData as content;
ghost use Rattle.sshmsg.specs.Written.{written_message};
ghost use Rattle.sshpacket.specs.declared.limits.TheConstants.{DIGEST_LIMIT, PACKET_LIMIT, SHARE_LIMIT};
ghost use Rattle.sshneg.specs.declared.side.Side.TheVariants.{Client};
ghost use Rattle.sshneg.specs.ExchangeEnd.{exchange_hash};
ghost use Rattle.sshcore.specs.declared.end.Fault.TheVariants as fault;
ghost use Rattle.sshcore.specs.declared.phase_table.Phase.TheVariants as phase;
ghost use Rattle.sshcore.specs.EndpointConfig.{config_data, role_of};
ghost use Rattle.sshcore.specs.EndData.{Failed, Open, by_input, end_data};
ghost use Rattle.sshcore.specs.Exchange.{host_key_read, share_read};
ghost use Rattle.sshcore.specs.Exchanged.{AcceptsReply, HasForm, JudgesReply, ReceivesExchange, client_shares, exchanged};
ghost use Rattle.sshcore.specs.StateData.{state_data};
ghost use Rattle.sshcore.specs.EndpointParts.{DecisionsData};
ghost use Rattle.sshcore.specs.Step.{settled};
ghost use Rattle.sshcore.specs.Work.{reply_step, userauth};

use crate::config::Config;
use crate::end::Fault;
use crate::kex_exchange::{KexReply, Shares, switching};
use crate::payloads::USERAUTH;
use crate::reply::{Answers, Reply};
use crate::state::State;
use sshmsg::Message;
use sshneg::Exchange;
use sshpacket::Suite;
use sshwire::Memory;
use std::alloc::Global;

impl State<'_> {
    ghost use Rattle.sshmsg.specs.MessageData.{MessageData};

    /// A client receives the server's share, whose host key is trusted or not (else `HostKey`): it
    /// makes the shared secret (`Exchange` where the suite gives none), then verifies the signature of
    /// the exchange hash (else `Signature`); then it sends NEWKEYS and requests the service.
    pub(crate) fn receive_reply<S: Suite>(
        &mut self,
        config: &Config<'_>,
        suite: &S,
        reply: &KexReply<'_>,
        trusted: bool,
    ) -> Result<Reply, Memory>
        requires open { end_data self.old.end ≡ Open }
        requires at { self.old.phase ≡ phase.Exchange }
        requires client { role_of config.now ≡ Client }
        requires host_key { length reply.now.host_key.now ≤ PACKET_LIMIT }
        requires share { length reply.now.share.now ≤ PACKET_LIMIT }
        requires signature { length reply.now.signature.now ≤ PACKET_LIMIT }
        ensures receives { IfOk result (λ made. (d : DecisionsData) (message : MessageData) → d.host_key (state_data self.old).known.algorithms.host_key reply.now.host_key.now ≡ trusted
            → share_read (Ok message) ≡ reply.now.share.now → host_key_read (Ok message) ≡ reply.now.host_key.now → HasForm (S.meaning suite.now) (state_data self.old)
            → ReceivesExchange (S.meaning suite.now) Client (config_data config.now) (state_data self.old) (state_data self.new) made message
            (settled d (reply_step (S.meaning suite.now) Client (config_data config.now) (state_data self.old).known message reply.now.signature.now))) }
        ensures kept { OnOk result (by_input (end_data self.new.end) ≡ true) }
    {
        if !trusted {
            return self.fail_reply(Fault::HostKey);
        }
        let algorithms = self.algorithms.as_ref().unwrap();
        let random = config.exchange_random();
        match suite.shared(self.alloc, algorithms.kex(), random, reply.share)? {
            None => self.fail_reply(Fault::Exchange),
            Some(shared) => self.judge_reply(config, suite, reply, &shared),
        }
    }

    /// Judges the signature of the exchange hash, and answers.
    fn judge_reply<S: Suite>(
        &mut self,
        config: &Config<'_>,
        suite: &S,
        reply: &KexReply<'_>,
        shared: &[u8],
    ) -> Result<Reply, Memory>
        requires open { end_data self.old.end ≡ Open }
        requires at { self.old.phase ≡ phase.Exchange }
        requires host_key { length reply.now.host_key.now ≤ PACKET_LIMIT }
        requires share { length reply.now.share.now ≤ PACKET_LIMIT }
        requires signature { length reply.now.signature.now ≤ PACKET_LIMIT }
        requires shared { length shared.now ≤ SHARE_LIMIT }
        ensures judges { IfOk result (λ made. JudgesReply (S.meaning suite.now) (role_of config.now) (config_data config.now) (state_data self.old) (state_data self.new)
            (client_shares (S.meaning suite.now) (config_data config.now) (state_data self.old).known reply.now.host_key.now reply.now.share.now shared.now)
            reply.now.signature.now made) }
        ensures kept { OnOk result (by_input (end_data self.new.end) ≡ true) }
    {
        let hash = self.reply_hash(config, suite, reply, shared)?;
        let algorithms = self.algorithms.as_ref().unwrap();
        let host_key = algorithms.host_key();
        if !suite.verify(self.alloc, host_key, reply.host_key, &hash, reply.signature)? {
            return self.fail_reply(Fault::Signature);
        }
        let key = Vec::from_slice(self.alloc, reply.host_key)?;
        self.accept_reply(config, suite, shared, hash, key)
    }

    /// The exchange hash at a client.
    fn reply_hash<S: Suite>(
        &self,
        config: &Config<'_>,
        suite: &S,
        reply: &KexReply<'_>,
        shared: &[u8],
    ) -> Result<Vec<u8>, Memory>
        requires chosen { is_some self.now.algorithms ≡ true }
        requires host_key { length reply.now.host_key.now ≤ PACKET_LIMIT }
        requires share { length reply.now.share.now ≤ PACKET_LIMIT }
        requires shared { length shared.now ≤ SHARE_LIMIT }
        ensures hash { IfOk result (λ hash. hash.items ≡ exchange_hash (S.meaning suite.now) (state_data self.now).known.algorithms.kex
            (exchanged (role_of config.now) (config_data config.now) (state_data self.now).known
            (client_shares (S.meaning suite.now) (config_data config.now) (state_data self.now).known reply.now.host_key.now reply.now.share.now shared.now))) }
        ensures short { IfOk result (λ hash. length hash.items ≤ DIGEST_LIMIT) }
    {
        let algorithms = self.algorithms.as_ref().unwrap();
        let random = config.exchange_random();
        let own = suite.public(self.alloc, algorithms.kex(), random)?;
        let shares = Shares {
            host_key: reply.host_key,
            client_share: &own,
            server_share: reply.share,
            shared,
        };
        self.hash(config, suite, &shares)
    }

    /// Answers by NEWKEYS and the request of the service, and stands after the exchange.
    fn accept_reply<S: Suite>(
        &mut self,
        config: &Config<'_>,
        suite: &S,
        shared: &[u8],
        hash: Vec<u8>,
        host_key: Vec<u8>,
    ) -> Result<Reply, Memory>
        requires at { self.old.phase ≡ phase.Exchange }
        requires hash { length hash.items ≤ DIGEST_LIMIT }
        requires shared { length shared.now ≤ SHARE_LIMIT }
        ensures { IfOk result (λ made. AcceptsReply (S.meaning suite.now) (role_of config.now) (config_data config.now) (state_data self.old) (state_data self.new) host_key.items shared.now hash.items made) }
    {
        let keys = self.both_keys(config, suite, shared, &hash)?;
        let request = service_request(self.alloc)?;
        let made = switching(Answers::none(self.alloc), keys.outgoing, request);
        self.stand_after_exchange(config, hash, host_key, keys.incoming)?;
        Ok(made)
    }
}

/// The request of the service of authentication.
fn service_request(alloc: Global) -> Result<Answers, Memory>
    ensures { IfOk result (λ answers. answers ≡ written_message (content.ServiceRequest userauth) ∷ []) }
{
    sshmsg::lengths_law();
    Answers::message(alloc, Message::ServiceRequest { service: USERAUTH })
}
