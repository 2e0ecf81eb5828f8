//! How a reply is sent: packet by packet, with the keys and the number at hand.

ghost use Rattle.std.specs.Prelude.{◌≡◌, ◌<◌, ◌≤◌, ◌++◌, ◌∷◌, Bool, None, OnOk, length, map};
ghost use Rattle.std.specs.List.{AllByRecursion};
ghost use Rattle.sshwire.specs.declared.limits.TheConstants.{PAYLOAD_LIMIT};
ghost use Rattle.sshmsg.specs.MessageData as content;
ghost use Rattle.sshmsg.specs.Written.{written_message};
ghost use Rattle.sshpacket.specs.KeysData.{KeysData};
ghost use Rattle.sshcore.specs.Brings.{Gives};
ghost use Rattle.sshcore.specs.Comes.{SwitchesTo};
ghost use Rattle.sshcore.specs.Directions.{spelled_by};
ghost use Rattle.sshcore.specs.EndpointConfig.{config_data};
ghost use Rattle.sshcore.specs.EndData.{end_data};
ghost use Rattle.sshcore.specs.Output.{with_newkeys, with_packet};
ghost use Rattle.sshcore.specs.PlainPayload.{IsPlainPayload};
ghost use Rattle.sshcore.specs.ReplyView.{answers_of, replied};
ghost use Rattle.sshcore.specs.StateData.{state_data};

use crate::config::Config;
use crate::payloads::payload_of;
use crate::reply::{Answers, Reply, Switch};
use crate::state::State;
use sshmsg::Message;
use sshpacket::{Keys, Suite, write_clear, write_next};
use sshwire::Memory;

impl State<'_> {
    /// Sends a reply: its answers, and where keys are switched NEWKEYS with what follows it. Packets of an endpoint's
    /// payloads are made in this file alone.
    pub(crate) fn send_reply<S: Suite>(
        &mut self,
        config: &Config<'_>,
        suite: &S,
        reply: Reply,
        sent: &mut Vec<u8>,
    ) -> Result<(), Memory>
        ensures gives { OnOk result ((strict : Bool) (next : KeysData) → SwitchesTo reply.switch strict next (state_data self.old)
            → Gives (S.meaning suite.now) (config_data config.now).seed strict next (state_data self.old) (state_data self.new) sent.old.items sent.new.items
            (replied (answers_of reply) (end_data self.old.end))) }
        ensures stays { OnOk result (state_data self.new ≡ record (state_data self.old) { sending = (state_data self.new).sending }) }
    {
        let Reply { answers, switch } = reply;
        self.send_answers(config, suite, &answers, sent)?;
        match switch {
            None => Ok(()),
            Some(switch) => self.send_switch(config, suite, switch, sent),
        }
    }

    /// Sends answers that switch no keys.
    pub(crate) fn send_answers<S: Suite>(
        &mut self,
        config: &Config<'_>,
        suite: &S,
        answers: &Answers,
        sent: &mut Vec<u8>,
    ) -> Result<(), Memory>
        ensures gives { OnOk result ((strict : Bool) (next : KeysData)
            → Gives (S.meaning suite.now) (config_data config.now).seed strict next (state_data self.old) (state_data self.new) sent.old.items sent.new.items
            (replied answers.now (end_data self.old.end))) }
        ensures plain { AllByRecursion IsPlainPayload answers.now }
        ensures stays { OnOk result (state_data self.new ≡ record (state_data self.old) { sending = (state_data self.new).sending }) }
    {
        for payload in answers.payloads() {
            self.send(config, suite, payload, sent)?;
        }
        Ok(())
    }

    /// Sends NEWKEYS, and with the new keys what follows it.
    fn send_switch<S: Suite>(
        &mut self,
        config: &Config<'_>,
        suite: &S,
        switch: Switch,
        sent: &mut Vec<u8>,
    ) -> Result<(), Memory>
        ensures gives { OnOk result ((strict : Bool) (next : KeysData) → switch.keys ≡ next → self.old.strict ≡ strict → self.old.keys_out ≡ None
            → Gives (S.meaning suite.now) (config_data config.now).seed strict next (state_data self.old) (state_data self.new) sent.old.items sent.new.items
            (replied (written_message content.NewKeys ∷ switch.answers) (end_data self.old.end))) }
        ensures stays { OnOk result (state_data self.new ≡ record (state_data self.old) { sending = (state_data self.new).sending }) }
    {
        self.send_new_keys(config, suite, switch.keys, sent)?;
        self.send_answers(config, suite, &switch.answers, sent)
    }

    /// Sends NEWKEYS; what follows is sent with these keys (RFC 4253 section 7.3), from number 0 where the
    /// endpoint is strict (OpenSSH PROTOCOL section 1.10).
    fn send_new_keys<S: Suite>(
        &mut self,
        config: &Config<'_>,
        suite: &S,
        keys: Keys,
        sent: &mut Vec<u8>,
    ) -> Result<(), Memory>
        ensures spells { OnOk result (sent.new.items ≡ sent.old.items
            ++ spelled_by (S.meaning suite.now) (state_data self.old).sending.keys (config_data config.now).seed (state_data self.old).sending.number (written_message content.NewKeys)) }
        ensures switches { OnOk result (state_data self.new ≡ record (state_data self.old) { sending = with_newkeys (state_data self.old).known.strict keys (state_data self.old).sending }) }
    {
        sshmsg::lengths_law();
        let payload = payload_of(self.alloc, &Message::NewKeys)?;
        self.send(config, suite, &payload, sent)?;
        self.keys_out = Some(keys);
        if self.strict {
            self.number_out = 0;
        }
        Ok(())
    }

    /// Sends a payload in a packet.
    fn send<S: Suite>(
        &mut self,
        config: &Config<'_>,
        suite: &S,
        payload: &[u8],
        sent: &mut Vec<u8>,
    ) -> Result<(), Memory>
        requires some { 0 < length payload.now }
        requires short { length payload.now ≤ PAYLOAD_LIMIT }
        ensures spells { OnOk result (sent.new.items ≡ sent.old.items
            ++ spelled_by (S.meaning suite.now) (state_data self.old).sending.keys (config_data config.now).seed (state_data self.old).sending.number payload.now) }
        ensures counts { OnOk result (state_data self.new ≡ record (state_data self.old) { sending = with_packet (S.meaning suite.now) payload.now (state_data self.old).sending }) }
    {
        let seed = config.padding_seed();
        match &mut self.keys_out {
            None => write_clear(self.alloc, suite, self.number_out, payload, seed, sent)?,
            Some(keys) => {
                write_next(
                    self.alloc,
                    suite,
                    keys,
                    self.number_out,
                    payload,
                    seed,
                    sent,
                )?
            }
        }
        self.number_out = self.number_out.wrapping_add(1);
        Ok(())
    }
}
