//! How a server answers a request of authentication (RFC 4252 sections 5.1 and 7).

ghost use Rattle.std.specs.Prelude.{◌≡◌, ◌<◌, ◌≤◌, ◌∷◌, [], IfOk, OnOk, length, true};
ghost use Rattle.sshwire.specs.declared.limits.TheConstants.{NAME_LIMIT};
ghost use Rattle.sshmsg.specs.MessageData as content;
ghost use Rattle.sshmsg.specs.Written.{written_message};
ghost use Rattle.sshpacket.specs.declared.limits.TheConstants.{BLOB_LIMIT};
ghost use Rattle.sshcore.specs.declared.config_parts.TheConstants.{TRIES_LIMIT};
ghost use Rattle.sshcore.specs.declared.end.Fault.TheVariants as fault;
ghost use Rattle.sshcore.specs.declared.phase_table.Phase.TheVariants as phase;
ghost use Rattle.sshcore.specs.Attempts.{agreed_by};
ghost use Rattle.sshcore.specs.Authenticating.{one_request};
ghost use Rattle.sshcore.specs.Brings.{IsOngoing};
ghost use Rattle.sshcore.specs.EndpointConfig.{config_data};
ghost use Rattle.sshcore.specs.EndData.{Authenticated, Failed, Open, by_input, end_data, goes};
ghost use Rattle.sshcore.specs.StateData.{state_data};
ghost use Rattle.sshcore.specs.ReplyView.{replied};
ghost use Rattle.sshcore.specs.Requests.{more_reply};

use crate::config::Config;
use crate::config_kexinit::list_of;
use crate::end::Fault;
use crate::reply::Answers;
use crate::state::State;
use sshmsg::Message;
use sshpacket::BLOB_LIMIT;
use sshwire::Memory;

impl State<'_> {
    /// Refuses a request, or fails as `TooManyTries` at the last one that is granted.
    pub(crate) fn refuse_more(
        &mut self,
        config: &Config<'_>,
        partial: bool,
    ) -> Result<Answers, Memory>
        requires open { end_data self.old.end ≡ Open }
        ensures gives { IfOk result (λ answers. replied answers (end_data self.new.end) ≡ more_reply (config_data config.now) (state_data self.old).known (content.UserauthFailure (config_data config.now).methods partial)) }
        ensures stays { OnOk result (IsOngoing (state_data self.new).end → state_data self.new ≡ record (state_data self.old) {
          known = one_request (state_data self.old).known;
        }) }
        ensures unsent { OnOk result ((state_data self.new).sending ≡ (state_data self.old).sending) }
        ensures kept { OnOk result (by_input (end_data self.new.end) ≡ true) }
    {
        if self.request >= config.tries() {
            return self.fail(Fault::TooManyTries);
        }
        self.refuse(config, partial)
    }

    /// Sends SUCCESS; the user is authenticated for this service.
    pub(crate) fn succeed(&mut self, user: &str, service: &str) -> Result<Answers, Memory>
        requires open { end_data self.old.end ≡ Open }
        requires at { self.old.phase ≡ phase.Auth }
        ensures gives { IfOk result (λ answers. replied answers (end_data self.new.end) ≡ record { answers = written_message content.UserauthSuccess ∷ []; end = Authenticated (agreed_by (state_data self.old).known user.now service.now) }) }
        ensures stays { OnOk result (state_data self.new ≡ record (state_data self.old) {
          end = Authenticated (agreed_by (state_data self.old).known user.now service.now);
          known = one_request (state_data self.old).known;
        }) }
    {
        sshmsg::lengths_law();
        self.authenticate(user, service)?;
        self.count_request();
        Answers::message(self.alloc, Message::UserauthSuccess)
    }

    /// Sends FAILURE with the methods that may go on, and whether the request succeeded as one of several.
    pub(crate) fn refuse(&mut self, config: &Config<'_>, partial: bool) -> Result<Answers, Memory>
        requires open { end_data self.old.end ≡ Open }
        requires granted { self.old.request < TRIES_LIMIT }
        ensures gives { IfOk result (λ answers. replied answers (end_data self.new.end) ≡ goes (written_message (content.UserauthFailure (config_data config.now).methods partial) ∷ [])) }
        ensures stays { OnOk result (state_data self.new ≡ record (state_data self.old) {
          known = one_request (state_data self.old).known;
        }) }
    {
        sshmsg::lengths_law();
        sshwire::names_law();
        let methods = list_of(self.alloc, config.methods())?;
        self.count_request();
        let refusal = Message::UserauthFailure {
            methods,
            partial_success: partial,
        };
        Answers::message(self.alloc, refusal)
    }

    /// Sends PK_OK.
    pub(crate) fn confirm(&mut self, algorithm: &str, key: &[u8]) -> Result<Answers, Memory>
        requires open { end_data self.old.end ≡ Open }
        requires granted { self.old.request < TRIES_LIMIT }
        requires algorithm { length algorithm.now ≤ NAME_LIMIT }
        requires key { length key.now ≤ BLOB_LIMIT }
        ensures gives { IfOk result (λ answers. replied answers (end_data self.new.end) ≡ goes (written_message (content.UserauthPkOk algorithm.now key.now) ∷ [])) }
        ensures stays { OnOk result (state_data self.new ≡ record (state_data self.old) {
          known = one_request (state_data self.old).known;
        }) }
    {
        sshmsg::lengths_law();
        self.count_request();
        let confirmation = Message::UserauthPkOk {
            algorithm: algorithm.as_bytes(),
            key,
        };
        Answers::message(self.alloc, confirmation)
    }
}
