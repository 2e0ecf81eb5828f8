//! Phase exchange: the peer's share (RFC 4253 section 8, RFC 5656 section 4).

ghost use Rattle.std.specs.Prelude.{◌≡◌, ◌≤◌, ◌<◌, IfOk, IfSome, List, None, Ok, OnOk, Some, is_some, length, option_map, true, ℕ, Bool};
ghost use Rattle.sshpacket.specs.declared.limits.TheConstants.{DIGEST_LIMIT, PACKET_LIMIT, SHARE_LIMIT, SIGNATURE_LIMIT};
ghost use Rattle.sshpacket.specs.Suite.{FitsShare, ResponseData, response_data};
ghost use Rattle.sshneg.specs.declared.side.Side.TheVariants.{Server};
ghost use Rattle.sshcore.specs.declared.end.Fault.TheVariants as fault;
ghost use Rattle.sshcore.specs.declared.phase_table.Phase.TheVariants as phase;
ghost use Rattle.sshcore.specs.EndpointConfig.{config_data, role_of};
ghost use Rattle.sshcore.specs.EndData.{Failed, Open, by_input, end_data};
ghost use Rattle.sshcore.specs.EndpointParts.{DecisionsData};
ghost use Rattle.sshcore.specs.Exchange.{secret_of, share_read};
ghost use Rattle.sshcore.specs.Exchanged.{AnswersInit, HasForm, ReceivesExchange, exchange_of_message};
ghost use Rattle.sshcore.specs.Prepared.{FitsPrepared, IsPrepared, IsPreparedBy};
ghost use Rattle.sshcore.specs.StateData.{state_data, with_exchange};
ghost use Rattle.sshcore.specs.PlainPayload.{IsPlainPayload};
ghost use Rattle.sshcore.specs.Step.{asked_in, settled};
ghost use Rattle.sshcore.specs.Work.{init_step, signed_reply, told_by};

use crate::config::Config;
use crate::end::Fault;
use crate::payloads::{extensions_payload, reply_payload};
use crate::pending::Prepared;
use crate::phase_table::Phase;
use crate::reply::{Answers, Reply, Switch};
use crate::state::State;
use sshneg::Exchange;
use sshpacket::{Keys, Response, Suite};
use sshwire::Memory;

/// A server's answer as a client has received it.
#[derive(Drop)]
pub(crate) struct KexReply<'a> {
    pub(crate) host_key: &'a [u8],
    pub(crate) share: &'a [u8],
    pub(crate) signature: &'a [u8],
}

/// What the two sides have given and come to, besides version lines and KEXINITs.
#[derive(Drop)]
pub(crate) struct Shares<'a> {
    pub(crate) host_key: &'a [u8],
    pub(crate) client_share: &'a [u8],
    pub(crate) server_share: &'a [u8],
    pub(crate) shared: &'a [u8],
}

/// The keys of both directions.
#[derive(Drop)]
pub(crate) struct BothKeys {
    pub(crate) incoming: Keys,
    pub(crate) outgoing: Keys,
}

impl State<'_> {
    ghost use Rattle.sshmsg.specs.MessageData.{MessageData};

    /// A server receives the client's share and asks nothing: it answers with its own share and the signature of the exchange
    /// hash, then with NEWKEYS. Fails as `Exchange` where the suite gives no shared secret: nothing else asks nothing where the
    /// suite doesn't hold the host key.
    pub(crate) fn receive_init<S: Suite>(
        &mut self,
        config: &Config<'_>,
        suite: &S,
        share: &[u8],
    ) -> Result<Reply, Memory>
        requires open { end_data self.old.end ≡ Open }
        requires at { self.old.phase ≡ phase.Exchange }
        requires server { role_of config.now ≡ Server }
        requires short { length share.now ≤ PACKET_LIMIT }
        ensures receives { IfOk result (λ reply. (d : DecisionsData) (message : MessageData) → share_read (Ok message) ≡ share.now
            → asked_in (init_step (S.meaning suite.now) Server (config_data config.now) (state_data self.old).known message) ≡ None → HasForm (S.meaning suite.now) (state_data self.old)
            → ReceivesExchange (S.meaning suite.now) Server (config_data config.now) (state_data self.old) (state_data self.new) reply message
            (settled d (init_step (S.meaning suite.now) Server (config_data config.now) (state_data self.old).known message))) }
        ensures kept { OnOk result (by_input (end_data self.new.end) ≡ true) }
    {
        let name = self.algorithms.as_ref().unwrap().host_key();
        if !suite.holds(name, config.secret(name)) {
            return self.fail_reply(Fault::Exchange);
        }
        match self.prepare_init(config, suite, share)? {
            None => self.fail_reply(Fault::Exchange),
            Some(prepared) => {
                let signature = self.sign_init(config, suite, &prepared)?;
                self.answer_init(config, suite, &prepared, Some(&signature))
            }
        }
    }

    /// What a server answers to this share, but for the signature: its own share and the shared secret, its host key, and the
    /// exchange hash. None where the suite gives no shared secret.
    pub(crate) fn prepare_init<S: Suite>(
        &self,
        config: &Config<'_>,
        suite: &S,
        share: &[u8],
    ) -> Result<Option<Prepared>, Memory>
        requires chosen { is_some self.now.algorithms ≡ true }
        requires short { length share.now ≤ PACKET_LIMIT }
        ensures { IfOk result (λ o. IsPreparedBy (S.meaning suite.now) (role_of config.now) (config_data config.now) (state_data self.now).known share.now o) }
    {
        answer_law(config, suite);
        match self.respond(config, suite, share)? {
            None => Ok(None),
            Some(response) => {
                let name = self.algorithms.as_ref().unwrap().host_key();
                let host_key = suite.blob(self.alloc, name, config.secret(name))?;
                let shares = Shares {
                    host_key: &host_key,
                    client_share: share,
                    server_share: &response.share,
                    shared: &response.shared,
                };
                let hash = self.hash(config, suite, &shares)?;
                Ok(Some(Prepared {
                    response,
                    host_key,
                    hash,
                }))
            }
        }
    }

    /// The server's share and the shared secret.
    fn respond<S: Suite>(
        &self,
        config: &Config<'_>,
        suite: &S,
        share: &[u8],
    ) -> Result<Option<Response>, Memory>
        requires chosen { is_some self.now.algorithms ≡ true }
        requires short { length share.now ≤ PACKET_LIMIT }
        ensures { IfOk result (λ o. option_map (λ r. response_data r) o
            ≡ (S.meaning suite.now).respond (state_data self.now).known.algorithms.kex (config_data config.now).random share.now) }
    {
        let algorithms = self.algorithms.as_ref().unwrap();
        let random = config.exchange_random();
        suite.respond(self.alloc, algorithms.kex(), random, share)
    }

    /// The signature of the exchange hash by the host key.
    fn sign_init<S: Suite>(
        &self,
        config: &Config<'_>,
        suite: &S,
        prepared: &Prepared,
    ) -> Result<Vec<u8>, Memory>
        requires chosen { is_some self.now.algorithms ≡ true }
        requires short { length prepared.now.hash.items ≤ DIGEST_LIMIT }
        ensures signed { IfOk result (λ v. v.items ≡ (S.meaning suite.now).sign (state_data self.now).known.algorithms.host_key
            (secret_of (config_data config.now).host_keys (state_data self.now).known.algorithms.host_key) prepared.now.hash.items) }
        ensures short { IfOk result (λ v. length v.items ≤ SIGNATURE_LIMIT) }
    {
        let name = self.algorithms.as_ref().unwrap().host_key();
        suite.sign(self.alloc, name, config.secret(name), &prepared.hash)
    }

    /// Answers a client's share with this signature, NEWKEYS and what a client that asks is told. Fails as `Exchange` where
    /// no signature was made.
    pub(crate) fn answer_init<S: Suite>(
        &mut self,
        config: &Config<'_>,
        suite: &S,
        prepared: &Prepared,
        signature: Option<&[u8]>,
    ) -> Result<Reply, Memory>
        requires open { end_data self.old.end ≡ Open }
        requires at { self.old.phase ≡ phase.Exchange }
        requires server { role_of config.now ≡ Server }
        requires fits { FitsPrepared (S.meaning suite.now) (state_data self.old).known prepared.now }
        requires signature { IfSome signature (λ s. length s.now ≤ SIGNATURE_LIMIT) }
        ensures receives { IfOk result (λ reply. (message : MessageData) (share : List ℕ) → share_read (Ok message) ≡ share
            → IsPrepared (S.meaning suite.now) (role_of config.now) (config_data config.now) (state_data self.old).known share prepared.now → HasForm (S.meaning suite.now) (state_data self.old)
            → ReceivesExchange (S.meaning suite.now) Server (config_data config.now) (state_data self.old) (state_data self.new) reply message
            (signed_reply (config_data config.now) (state_data self.old).known
            (exchange_of_message (S.meaning suite.now) Server (config_data config.now) (state_data self.old).known message) (option_map (λ s. s.now) signature.entry))) }
        ensures kept { OnOk result (by_input (end_data self.new.end) ≡ true) }
    {
        let Some(signature) = signature else {
            return self.fail_reply(Fault::Exchange);
        };
        let form = suite.share_form(self.algorithms.as_ref().unwrap().kex());
        let share = &prepared.response.share;
        let answer = reply_payload(self.alloc, form, &prepared.host_key, share, signature)?;
        self.finish_exchange(config, suite, prepared, answer)
    }

    /// Answers by this payload, NEWKEYS and what a client that asks is told, and stands after the exchange.
    fn finish_exchange<S: Suite>(
        &mut self,
        config: &Config<'_>,
        suite: &S,
        prepared: &Prepared,
        answer: Vec<u8>,
    ) -> Result<Reply, Memory>
        requires at { self.old.phase ≡ phase.Exchange }
        requires answer { IsPlainPayload answer.items }
        requires hash { length prepared.now.hash.items ≤ DIGEST_LIMIT }
        requires shared { length prepared.now.response.shared.items ≤ SHARE_LIMIT }
        ensures { IfOk result (λ reply. AnswersInit (S.meaning suite.now) (role_of config.now) (config_data config.now) (state_data self.old) (state_data self.new)
            prepared.now.host_key.items prepared.now.response.shared.items prepared.now.hash.items answer.items reply) }
    {
        let keys = self.both_keys(config, suite, &prepared.response.shared, &prepared.hash)?;
        let answers = Answers::one(self.alloc, answer)?;
        let told = self.extensions(config)?;
        let hash = Vec::from_slice(self.alloc, &prepared.hash)?;
        let host_key = Vec::from_slice(self.alloc, &prepared.host_key)?;
        let reply = switching(answers, keys.outgoing, told);
        self.stand_after_exchange(config, hash, host_key, keys.incoming)?;
        Ok(reply)
    }

    /// What a client that asks is told: the algorithms of users' keys, if the server has a list of them (RFC 8308 sections
    /// 2.4 and 3.1).
    fn extensions(&self, config: &Config<'_>) -> Result<Answers, Memory>
        ensures { IfOk result (λ answers. answers ≡ told_by (config_data config.now) (state_data self.now).known) }
    {
        let names = config.signature_algorithms();
        if names.is_empty() || !self.asks {
            return Ok(Answers::none(self.alloc));
        }
        let payload = extensions_payload(self.alloc, names)?;
        Answers::one(self.alloc, payload)
    }

    /// Goes on to phase newkeys, with the session identifier, the server's public host key and the keys of
    /// what is received.
    pub(crate) fn stand_after_exchange(
        &mut self,
        config: &Config<'_>,
        hash: Vec<u8>,
        host_key: Vec<u8>,
        incoming: Keys,
    ) -> Result<(), Memory>
        requires at { self.old.phase ≡ phase.Exchange }
        requires short { length hash.items ≤ DIGEST_LIMIT }
        ensures { OnOk result (state_data self.new ≡ record (state_data self.old) {
          phase = phase.NewKeys;
          known = record (state_data self.old).known { session = hash.items };
          carried = with_exchange (config_data config.now) incoming host_key.items (state_data self.old).carried;
        }) }
    {
        self.own_version = Vec::from_slice(self.alloc, config.version().text())?;
        self.host_key = host_key;
        self.session = hash;
        self.pending = Some(incoming);
        self.phase = Phase::NewKeys;
        Ok(())
    }
}

/// A reply that goes over to new keys after these answers, with what is sent by them.
pub(crate) fn switching(answers: Answers, keys: Keys, after: Answers) -> Reply
    ensures { result ≡ record { answers = answers; switch = Some (record { keys = keys; answers = after }) } }
{
    Reply {
        answers,
        switch: Some(Switch {
            keys,
            answers: after,
        }),
    }
}

/// The law of a server's answer: its share has the method's form, and the shared secret is short.
pub(crate) fn answer_law<S: Suite>(config: &Config<'_>, suite: &S)
    ensures share { (kex share : List ℕ) (r : ResponseData) → (S.meaning suite.now).respond kex (config_data config.now).random share ≡ Some r
        → FitsShare ((S.meaning suite.now).share_form kex) r.share }
    ensures shared { (kex share : List ℕ) (r : ResponseData) → (S.meaning suite.now).respond kex (config_data config.now).random share ≡ Some r
        → length r.shared ≤ SHARE_LIMIT }
{
    config.exchange_random();
}
