//! What an endpoint sends where it fails, and to a message that it does not know (RFC 4253 section 11).

ghost use Rattle.std.specs.Prelude.{◌≡◌, ◌<◌, ◌≤◌, ◌∷◌, [], IfOk, None, OnOk, Some, length};
ghost use Rattle.sshmsg.specs.MessageData as content;
ghost use Rattle.sshmsg.specs.Written.{written_message};
ghost use Rattle.sshpacket.specs.declared.limits.TheConstants.{PACKET_LIMIT};
ghost use Rattle.sshcore.specs.EndData.{Open, disconnect, end_data, reason_of};

use crate::end::{End, Fault};
use crate::lent::set;
use crate::reply::{Answers, Reply};
use crate::state::State;
use sshmsg::{
    Message, SSH_DISCONNECT_HOST_KEY_NOT_VERIFIABLE, SSH_DISCONNECT_KEY_EXCHANGE_FAILED,
    SSH_DISCONNECT_MAC_ERROR, SSH_DISCONNECT_NO_MORE_AUTH_METHODS_AVAILABLE,
    SSH_DISCONNECT_PROTOCOL_ERROR, SSH_DISCONNECT_SERVICE_NOT_AVAILABLE,
};
use sshwire::Memory;
use std::alloc::Global;

impl<'a> State<'a> {
    ghost use Rattle.sshcore.specs.declared.end.Fault.TheVariants as fault;
    ghost use Rattle.sshcore.specs.Brings.{received_counted};
    ghost use Rattle.sshcore.specs.EndData.{Failed, fails, goes};
    ghost use Rattle.sshcore.specs.Exchanged.{FailsBy};
    ghost use Rattle.sshcore.specs.ReplyView.{replied};
    ghost use Rattle.sshcore.specs.StateData.{state_data};

    /// Fails, and answers what the peer is told of it (RFC 4253 section 11.1).
    pub(crate) fn fail(&mut self, fault: Fault) -> Result<Answers, Memory>
        ensures gives { IfOk result (λ answers. replied answers (end_data self.new.end) ≡ fails fault) }
        ensures stays { OnOk result (state_data self.new ≡ record (state_data self.old) { end = Failed fault }) }
        ensures ends { OnOk result (end_data self.new.end ≡ Failed fault) }
    {
        let answers = farewell(self.alloc, fault)?;
        set(&mut self.end, End::Failed(fault));
        Ok(answers)
    }

    /// Fails, with a reply that switches no keys.
    pub(crate) fn fail_reply(&mut self, fault: Fault) -> Result<Reply, Memory>
        ensures fails { IfOk result (λ reply. FailsBy (state_data self.old) (state_data self.new) fault reply) }
        ensures ends { OnOk result (end_data self.new.end ≡ Failed fault) }
    {
        Ok(self.fail(fault)?.into_reply())
    }

    /// Tells the peer that a packet with this number wasn't understood (RFC 4253 section 11.4). Its payload
    /// counts, if it says nothing.
    pub(crate) fn tell_unknown(&mut self, payload: &[u8], packet: u32) -> Result<Answers, Memory>
        requires open { end_data self.old.end ≡ Open }
        requires short { length payload.now ≤ PACKET_LIMIT }
        ensures gives { IfOk result (λ answers. replied answers (end_data self.new.end) ≡ goes (written_message (content.Unimplemented packet) ∷ [])) }
        ensures stays { OnOk result (state_data self.new ≡ record (state_data self.old) { known = received_counted (state_data self.old).known payload.now }) }
    {
        sshmsg::lengths_law();
        self.count(payload);
        let unknown = Message::Unimplemented {
            sequence_number: packet,
        };
        Answers::message(self.alloc, unknown)
    }
}

/// The DISCONNECT of a failure, where the peer is told of it.
fn farewell(alloc: Global, fault: Fault) -> Result<Answers, Memory>
    ensures { IfOk result (λ answers. answers ≡ disconnect fault) }
{
    sshmsg::lengths_law();
    match reason_of(fault) {
        None => Ok(Answers::none(alloc)),
        Some(reason) => Answers::message(
            alloc,
            Message::Disconnect {
                reason,
                description: b"",
                language: b"",
            },
        ),
    }
}

/// The reason of the DISCONNECT that a failure sends (RFC 4253 section 11.1), or none where nothing is
/// sent.
fn reason_of(fault: Fault) -> Option<u32>
    ensures { result ≡ reason_of fault }
{
    match fault {
        Fault::Version | Fault::Memory | Fault::Cut => None,
        Fault::Length | Fault::Padding => Some(SSH_DISCONNECT_PROTOCOL_ERROR),
        Fault::Malformed(_) | Fault::Unexpected(_) | Fault::Strict(_) => {
            Some(SSH_DISCONNECT_PROTOCOL_ERROR)
        }
        Fault::TooMuchIgnored => Some(SSH_DISCONNECT_PROTOCOL_ERROR),
        Fault::Mac => Some(SSH_DISCONNECT_MAC_ERROR),
        Fault::NoCommon(_) | Fault::Exchange | Fault::Signature => {
            Some(SSH_DISCONNECT_KEY_EXCHANGE_FAILED)
        }
        Fault::HostKey => Some(SSH_DISCONNECT_HOST_KEY_NOT_VERIFIABLE),
        Fault::Service => Some(SSH_DISCONNECT_SERVICE_NOT_AVAILABLE),
        Fault::TooManyTries | Fault::NoMoreMethods => {
            Some(SSH_DISCONNECT_NO_MORE_AUTH_METHODS_AVAILABLE)
        }
    }
}
