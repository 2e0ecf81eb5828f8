//! What an endpoint does with a packet that asks nothing, and with an answer.

ghost use Rattle.std.specs.Prelude.{◌≡◌, ◌≤◌, IfOk, List, None, OnOk, false, length, true, ℕ};
ghost use Rattle.sshmsg.specs.MessageData.{MessageData};
ghost use Rattle.sshmsg.specs.Messages.{Spells};
ghost use Rattle.sshpacket.specs.declared.limits.TheConstants.{PACKET_LIMIT};
ghost use Rattle.sshpacket.specs.Suite.{SuiteData};
ghost use Rattle.sshneg.specs.declared.side.Side.{Side};
ghost use Rattle.sshcore.specs.declared.end.Fault.TheVariants as fault;
ghost use Rattle.sshcore.specs.Brings.{Brings, Works, received_one};
ghost use Rattle.sshcore.specs.Comes.{Comes, ComesTo};
ghost use Rattle.sshcore.specs.EndpointConfig.{config_data, role_of, setup_of};
ghost use Rattle.sshcore.specs.EndpointParts.{ConfigData, DecisionsData, setup_with};
ghost use Rattle.sshcore.specs.EndData.{Failed, Open, by_input, end_data};
ghost use Rattle.sshcore.specs.Exchanged.{HasForm};
ghost use Rattle.sshcore.specs.Judging.{IsJudged, IsPending, is_at_once, is_unread};
ghost use Rattle.sshcore.specs.Questions.{decided, taken};
ghost use Rattle.sshcore.specs.QuestionsView.{answer_data, pending_question};
ghost use Rattle.sshcore.specs.StateData.{state_data};
ghost use Rattle.sshcore.specs.Work.{work};

use crate::asking_given::{Answer, is_yes, signature_in};
use crate::auth_client_payloads::AskedKey;
use crate::config::Config;
use crate::judging::Judged;
use crate::kex_exchange::KexReply;
use crate::pending::Pending;
use crate::reply::{Answers, Reply};
use crate::state::State;
use sshpacket::Suite;
use sshwire::Memory;

impl State<'_> {
    /// Receives a packet with this number that was judged so and asks nothing, and sends the reply.
    pub(crate) fn receive<S: Suite>(
        &mut self,
        config: &Config<'_>,
        suite: &S,
        judged: &Judged<'_>,
        payload: &[u8],
        packet: u32,
        sent: &mut Vec<u8>,
    ) -> Result<(), Memory>
        requires open { end_data self.old.end ≡ Open }
        requires short { length payload.now ≤ PACKET_LIMIT }
        requires judged { IsJudged (S.meaning suite.now) (role_of config.now) (config_data config.now) (state_data self.old) payload.now judged.now }
        requires calm { is_at_once judged.now ≡ true }
        ensures brings { OnOk result ((d : DecisionsData) → HasForm (S.meaning suite.now) (state_data self.old)
            → Brings (setup_of (S.meaning suite.now) d config.now) (state_data self.old) (state_data self.new) packet payload.now sent.old.items sent.new.items) }
        ensures kept { OnOk result (by_input (end_data self.new.end) ≡ true) }
    {
        let reply = self.reply_to(config, suite, judged, payload, packet)?;
        self.send_reply(config, suite, reply, sent)
    }

    /// The reply to a packet that was judged so and asks nothing.
    fn reply_to<S: Suite>(
        &mut self,
        config: &Config<'_>,
        suite: &S,
        judged: &Judged<'_>,
        payload: &[u8],
        packet: u32,
    ) -> Result<Reply, Memory>
        requires open { end_data self.old.end ≡ Open }
        requires short { length payload.now ≤ PACKET_LIMIT }
        requires judged { IsJudged (S.meaning suite.now) (role_of config.now) (config_data config.now) (state_data self.old) payload.now judged.now }
        requires calm { is_at_once judged.now ≡ true }
        ensures comes { IfOk result (λ reply. (d : DecisionsData) → HasForm (S.meaning suite.now) (state_data self.old)
            → ComesTo (setup_of (S.meaning suite.now) d config.now) (state_data self.old) (state_data self.new) packet payload.now reply) }
        ensures kept { OnOk result (by_input (end_data self.new.end) ≡ true) }
    {
        sshmsg::messages_law();
        match judged {
            Judged::Reads(message) => self.work(config, suite, payload, message),
            _ => Ok(self.reply_unread(judged, payload, packet)?.into_reply()),
        }
    }

    /// What is sent to a packet that was judged so, and isn't read as a message.
    fn reply_unread(
        &mut self,
        judged: &Judged<'_>,
        payload: &[u8],
        packet: u32,
    ) -> Result<Answers, Memory>
        requires open { end_data self.old.end ≡ Open }
        requires short { length payload.now ≤ PACKET_LIMIT }
        requires unread { is_unread judged.now ≡ true }
        ensures comes { IfOk result (λ answers. (m : SuiteData) (role : Side) (config : ConfigData) (d : DecisionsData)
            → IsJudged m role config (state_data self.old) payload.now judged.now
            → ComesTo (setup_with m d role config) (state_data self.old) (state_data self.new) packet payload.now (record { answers = answers; switch = None })) }
        ensures kept { OnOk result ((m : SuiteData) (role : Side) (config : ConfigData) → IsJudged m role config (state_data self.old) payload.now judged.now → by_input (end_data self.new.end) ≡ true) }
    {
        match judged {
            Judged::Drops => {
                self.drop_guess();
                Ok(Answers::none(self.alloc))
            }
            Judged::Fails(fault) => self.fail(*fault),
            Judged::Unknown => self.tell_unknown(payload, packet),
            Judged::Reads(_) | Judged::Asks(..) => unreachable!(),
        }
    }

    /// Drops the packet of a wrong guess unread (RFC 4253 section 7).
    fn drop_guess(&mut self)
        ensures { state_data self.new ≡ record (state_data self.old) { guess = false; known = received_one (state_data self.old).known } }
    {
        self.guess = false;
        self.first = false;
    }

    /// Answers a packet that asked, by this answer, and sends the reply.
    pub(crate) fn answer<S: Suite>(
        &mut self,
        config: &Config<'_>,
        suite: &S,
        pending: &Pending,
        answer: Answer<'_>,
        sent: &mut Vec<u8>,
    ) -> Result<(), Memory>
        requires open { end_data self.old.end ≡ Open }
        requires asks { (payload : List ℕ) × (message : MessageData) × IsPending (S.meaning suite.now) (role_of config.now) (config_data config.now) (state_data self.old) payload message pending.now }
        // All decisions that answer so answer the packet so.
        ensures works { OnOk result ((payload : List ℕ) (message : MessageData) (d : DecisionsData)
            → IsPending (S.meaning suite.now) (role_of config.now) (config_data config.now) (state_data self.old) payload message pending.now
            → decided d (pending_question pending.now) ≡ taken (pending_question pending.now) (answer_data answer.entry) → HasForm (S.meaning suite.now) (state_data self.old)
            → Works (setup_of (S.meaning suite.now) d config.now) (state_data self.old) (state_data self.new) payload sent.old.items sent.new.items
            (work (setup_of (S.meaning suite.now) d config.now) (state_data self.old).known message)) }
        ensures kept { OnOk result (by_input (end_data self.new.end) ≡ true) }
    {
        let reply = self.reply_by(config, suite, pending, answer)?;
        self.send_reply(config, suite, reply, sent)
    }

    /// The reply to a packet that asked, by this answer.
    fn reply_by<S: Suite>(
        &mut self,
        config: &Config<'_>,
        suite: &S,
        pending: &Pending,
        answer: Answer<'_>,
    ) -> Result<Reply, Memory>
        requires open { end_data self.old.end ≡ Open }
        requires asks { (payload : List ℕ) × (message : MessageData) × IsPending (S.meaning suite.now) (role_of config.now) (config_data config.now) (state_data self.old) payload message pending.now }
        ensures comes { IfOk result (λ reply. (payload : List ℕ) (message : MessageData) (d : DecisionsData)
            → IsPending (S.meaning suite.now) (role_of config.now) (config_data config.now) (state_data self.old) payload message pending.now
            → decided d (pending_question pending.now) ≡ taken (pending_question pending.now) (answer_data answer.entry) → HasForm (S.meaning suite.now) (state_data self.old)
            → Comes (setup_of (S.meaning suite.now) d config.now) (state_data self.old) (state_data self.new) payload reply
            (work (setup_of (S.meaning suite.now) d config.now) (state_data self.old).known message)) }
        ensures kept { OnOk result (by_input (end_data self.new.end) ≡ true) }
    {
        sshmsg::messages_law();
        sshmsg::numbers_law();
        match pending {
            Pending::Reply {
                host_key,
                share,
                signature,
                ..
            } => {
                let reply = KexReply {
                    host_key,
                    share,
                    signature,
                };
                self.receive_reply(config, suite, &reply, is_yes(answer))
            }
            Pending::Init { prepared, .. } => {
                self.answer_init(config, suite, prepared, signature_in(answer))
            }
            Pending::Request {
                user,
                service,
                claim,
                ..
            } => {
                let answers = self.decide(config, user, service, claim, is_yes(answer))?;
                Ok(answers.into_reply())
            }
            Pending::Attempt {
                skipped,
                confirms,
                algorithm,
                blob,
                ..
            } => {
                let key = AskedKey { algorithm, blob };
                let signature = signature_in(answer);
                let answers = self.answer_attempt(*skipped, *confirms, key, signature)?;
                Ok(answers.into_reply())
            }
        }
    }
}
