//! What a step sends: its answers, and NEWKEYS with what follows it.

ghost use Rattle.std.specs.Prelude.{◌≡◌, ◌≤◌, ◌==◌, ◌++◌, ◌∷◌, [], IfOk, None, OnOk, false, length, map};
ghost use Rattle.std.specs.List.{AllByRecursion};
ghost use Rattle.sshwire.specs.declared.limits.TheConstants.{PAYLOAD_LIMIT};
ghost use Rattle.sshmsg.specs.Numbers.{number_of};
ghost use Rattle.sshmsg.specs.View.{message_data};
ghost use Rattle.sshmsg.specs.Written.{written_message};
ghost use Rattle.sshmsg.specs.declared.numbers.TheConstants.{SSH_MSG_NEWKEYS};
ghost use Rattle.sshcore.specs.PlainPayload.{IsPlainPayload};

use crate::payloads::payload_from;
use sshmsg::Message;
use sshpacket::Keys;
use sshwire::Memory;
use std::alloc::Global;
use std::marker::Model;

/// The answers to a message: payloads that are sent in order. Each fits a packet, and none is NEWKEYS.
///
/// Contracts see the payloads.
#[derive(Drop)]
pub(crate) struct Answers {
    payloads: Vec<Vec<u8>>,
}

impl Model for Answers {
    ghost use Rattle.std.specs.Prelude.{List, map, ℕ};
    ghost use Rattle.std.specs.List.{AllByRecursion};
    ghost use Rattle.sshcore.specs.PlainPayload.{IsPlainPayload};

    ghost Value = { List (List ℕ) };

    ghost view = { λ a. map (λ p. p.items) a.payloads.items };

    ghost invariant = { λ a. AllByRecursion IsPlainPayload (map (λ p. p.items) a.payloads.items) };
}

/// NEWKEYS: the keys of what is sent after it, and that (RFC 4253 section 7.3).
#[derive(Drop)]
pub(crate) struct Switch {
    pub(crate) keys: Keys,
    pub(crate) answers: Answers,
}

/// What a step sends: its answers; and where the exchange is over, NEWKEYS.
#[derive(Drop)]
pub(crate) struct Reply {
    pub(crate) answers: Answers,
    pub(crate) switch: Option<Switch>,
}

impl Answers {
    /// No answer.
    pub(crate) fn none(alloc: Global) -> Answers
        ensures { result ≡ [] }
    {
        Answers {
            payloads: Vec::new(alloc),
        }
    }

    /// This payload alone. Answers `Memory` where an allocation failed, as each function below.
    pub(crate) fn one(alloc: Global, payload: Vec<u8>) -> Result<Answers, Memory>
        requires { IsPlainPayload payload.items }
        ensures { IfOk result (λ answers. answers ≡ payload.items ∷ []) }
    {
        let mut answers = Answers::none(alloc);
        answers.push(payload)?;
        Ok(answers)
    }

    /// This message alone, which is no NEWKEYS and fits a payload.
    pub(crate) fn message(alloc: Global, message: Message<'_>) -> Result<Answers, Memory>
        requires short { length (written_message (message_data message)) ≤ PAYLOAD_LIMIT }
        requires plain { (number_of (message_data message) == SSH_MSG_NEWKEYS) ≡ false }
        ensures { IfOk result (λ answers. answers ≡ written_message (message_data message.entry) ∷ []) }
    {
        let mut answers = Answers::none(alloc);
        answers.push_message(alloc, message)?;
        Ok(answers)
    }

    /// The payloads, of which none switches keys.
    pub(crate) fn payloads(&self) -> &[Vec<u8>]
        ensures payloads { map (λ p. p.items) result.now ≡ self.now }
        ensures plain { AllByRecursion IsPlainPayload self.now }
    {
        &self.payloads
    }

    /// These answers alone, with no change of keys.
    pub(crate) fn into_reply(self) -> Reply
        ensures { result ≡ record { answers = self; switch = None } }
    {
        Reply {
            answers: self,
            switch: None,
        }
    }

    /// One message more, which is no NEWKEYS and fits a payload.
    pub(crate) fn push_message(&mut self, alloc: Global, message: Message<'_>) -> Result<(), Memory>
        requires short { length (written_message (message_data message)) ≤ PAYLOAD_LIMIT }
        requires plain { (number_of (message_data message) == SSH_MSG_NEWKEYS) ≡ false }
        ensures { OnOk result (self.new ≡ self.old ++ written_message (message_data message.entry) ∷ []) }
    {
        self.push(payload_from(alloc, message)?)
    }

    /// One payload more.
    pub(crate) fn push(&mut self, payload: Vec<u8>) -> Result<(), Memory>
        requires { IsPlainPayload payload.items }
        ensures { OnOk result (self.new ≡ self.old ++ payload.items ∷ []) }
    {
        self.payloads.push(payload)?;
        Ok(())
    }
}
