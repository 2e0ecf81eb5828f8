//! Phase service: the request of the service of authentication, and its answer (RFC 4253 section 10).

ghost use Rattle.std.specs.Prelude.{◌≡◌, ◌≤◌, ◌++◌, ◌∷◌, IfOk, None, OnOk, length, true};
ghost use Rattle.sshmsg.specs.MessageData as content;
ghost use Rattle.sshmsg.specs.Written.{written_message};
ghost use Rattle.sshneg.specs.declared.side.Side.TheVariants.{Client, Server};
ghost use Rattle.sshcore.specs.declared.end.Fault.TheVariants as fault;
ghost use Rattle.sshcore.specs.declared.phase_table.Phase.TheVariants as phase;
ghost use Rattle.sshcore.specs.Brings.{IsOngoing, StandsAt, received_one};
ghost use Rattle.sshcore.specs.EndpointConfig.{config_data, role_of};
ghost use Rattle.sshcore.specs.EndData.{Failed, Open, by_input, end_data, goes};
ghost use Rattle.sshcore.specs.ReplyView.{replied};
ghost use Rattle.sshcore.specs.StateData.{state_data};
ghost use Rattle.sshcore.specs.EndpointParts.{DecisionsData};
ghost use Rattle.sshcore.specs.Step.{asked_in, settled};
ghost use Rattle.sshcore.specs.Work.{accept_step, banner_by, service_reply, userauth};

use crate::config::Config;
use crate::end::Fault;
use crate::payloads::USERAUTH;
use crate::phase_table::Phase;
use crate::reply::Answers;
use crate::state::State;
use sshmsg::{Message, SSH_MSG_SERVICE_ACCEPT};
use sshpacket::Suite;
use sshwire::Memory;
use std::alloc::Global;

impl State<'_> {
    /// A server receives the request: it accepts `ssh-userauth` and sends its banner (RFC 4252 section 5.4);
    /// else it fails as `Service`.
    pub(crate) fn receive_service_request(
        &mut self,
        config: &Config<'_>,
        service: &[u8],
    ) -> Result<Answers, Memory>
        requires open { end_data self.old.end ≡ Open }
        requires at { self.old.phase ≡ phase.Service }
        ensures gives { IfOk result (λ answers. replied answers (end_data self.new.end) ≡ service_reply (config_data config.now) service.now) }
        ensures carries { OnOk result ((state_data self.new).carried ≡ (state_data self.old).carried) }
        ensures stands { OnOk result (IsOngoing (state_data self.new).end
            → StandsAt (state_data self.new) phase.Auth (state_data self.old).guess (received_one (state_data self.old).known)) }
        ensures unsent { OnOk result ((state_data self.new).sending ≡ (state_data self.old).sending) }
        ensures kept { OnOk result (by_input (end_data self.new.end) ≡ true) }
    {
        if service != USERAUTH {
            return self.fail(Fault::Service);
        }
        let answers = accept_with_banner(self.alloc, config)?;
        self.phase = Phase::Auth;
        self.first = false;
        Ok(answers)
    }

    /// A client is told that the service is accepted: it makes the first attempt of its plan; where the
    /// service isn't `ssh-userauth` it fails as `Unexpected(6)`.
    pub(crate) fn receive_service_accept<S: Suite>(
        &mut self,
        suite: &S,
        service: &[u8],
    ) -> Result<Answers, Memory>
        requires open { end_data self.old.end ≡ Open }
        requires at { self.old.phase ≡ phase.Service }
        requires calm { asked_in (accept_step (S.meaning suite.now) (state_data self.old).known service.now) ≡ None }
        ensures gives { IfOk result (λ answers. (d : DecisionsData) → replied answers (end_data self.new.end) ≡ settled d (accept_step (S.meaning suite.now) (state_data self.old).known service.now)) }
        ensures carries { OnOk result ((state_data self.new).carried ≡ (state_data self.old).carried) }
        ensures stands { OnOk result (IsOngoing (state_data self.new).end
            → StandsAt (state_data self.new) phase.Auth (state_data self.old).guess (received_one (state_data self.old).known)) }
        ensures unsent { OnOk result ((state_data self.new).sending ≡ (state_data self.old).sending) }
        ensures kept { OnOk result (by_input (end_data self.new.end) ≡ true) }
    {
        if service != USERAUTH {
            let fault = Fault::Unexpected(SSH_MSG_SERVICE_ACCEPT);
            return self.fail(fault);
        }
        self.phase = Phase::Auth;
        self.first = false;
        self.make_attempt(suite)
    }
}

/// SERVICE_ACCEPT of the service of authentication, and a server's banner, if it has one.
fn accept_with_banner(alloc: Global, config: &Config<'_>) -> Result<Answers, Memory>
    ensures { IfOk result (λ answers. answers ≡ written_message (content.ServiceAccept userauth) ∷ banner_by (config_data config.now).banner) }
{
    sshmsg::lengths_law();
    let accept = Message::ServiceAccept { service: USERAUTH };
    let mut answers = Answers::message(alloc, accept)?;
    add_banner(alloc, config, &mut answers)?;
    Ok(answers)
}

/// Adds a server's banner, if it has one.
fn add_banner(alloc: Global, config: &Config<'_>, answers: &mut Answers) -> Result<(), Memory>
    ensures { OnOk result (answers.new ≡ answers.old ++ banner_by (config_data config.now).banner) }
{
    sshmsg::lengths_law();
    match config.banner() {
        None => Ok(()),
        Some(text) => {
            let banner = Message::UserauthBanner {
                text,
                language: b"",
            };
            answers.push_message(alloc, banner)
        }
    }
}
