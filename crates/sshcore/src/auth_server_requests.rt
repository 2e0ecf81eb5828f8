//! Phase auth at a server: requests of authentication (RFC 4252).

ghost use Rattle.std.specs.Prelude.{◌≡◌, ◌&&◌, ◌<◌, ◌≤◌, IfOk, None, OnOk, Some, false, length, not, string_bytes, true};
ghost use Rattle.sshwire.specs.declared.limits.TheConstants.{NAME_LIMIT};
ghost use Rattle.sshmsg.specs.MessageData as content;
ghost use Rattle.sshmsg.specs.View.{method_data};
ghost use Rattle.sshpacket.specs.declared.limits.TheConstants.{BLOB_LIMIT};
ghost use Rattle.sshcore.specs.declared.config_parts.TheConstants.{TRIES_LIMIT};
ghost use Rattle.sshcore.specs.declared.end.Fault.TheVariants as fault;
ghost use Rattle.sshcore.specs.declared.phase_table.Phase.TheVariants as phase;
ghost use Rattle.sshcore.specs.Authenticating.{FitsClaim, HasName, claimed_reply, claims, counted_request, one_request, tried_key};
ghost use Rattle.sshcore.specs.Brings.{IsOngoing};
ghost use Rattle.sshcore.specs.EndpointConfig.{config_data};
ghost use Rattle.sshcore.specs.EndpointParts.{DecisionsData};
ghost use Rattle.sshcore.specs.EndData.{Failed, Open, by_input, end_data};
ghost use Rattle.sshcore.specs.StateData.{state_data};
ghost use Rattle.sshcore.specs.CompletedMethods.{is_complete};
ghost use Rattle.sshcore.specs.QuestionsView.{claim_method};
ghost use Rattle.sshcore.specs.ReplyView.{replied};
ghost use Rattle.sshcore.specs.Requests.{is_last_try, more_reply, query_reply, request_step, tried_reply};
ghost use Rattle.sshcore.specs.Step.{asked_in, settled};
ghost use Rattle.sshcore.specs.Tries.{tried_with};

use crate::config::Config;
use crate::end::Fault;
use crate::pending::Claim;
use crate::reply::Answers;
use crate::state::State;
use sshmsg::Method;
use sshpacket::Suite;
use sshwire::Memory;

impl State<'_> {
    /// A server receives a request that asks nothing: it fails as `Service` where it doesn't have the service; else the
    /// request is one that was tried in vain, and is answered by FAILURE, or at the last try fails as `TooManyTries` (RFC
    /// 4252 sections 5, 5.1 and 7).
    pub(crate) fn receive_request<S: Suite>(
        &mut self,
        config: &Config<'_>,
        suite: &S,
        user: &str,
        service: &[u8],
        method: &Method<'_>,
    ) -> Result<Answers, Memory>
        requires open { end_data self.old.end ≡ Open }
        requires at { self.old.phase ≡ phase.Auth }
        requires calm { asked_in (request_step (S.meaning suite.now) (config_data config.now) (state_data self.old).known user.now service.now (method_data method.now)) ≡ None }
        ensures gives { IfOk result (λ answers. (d : DecisionsData) → replied answers (end_data self.new.end) ≡ settled d (request_step (S.meaning suite.now) (config_data config.now) (state_data self.old).known user.now service.now (method_data method.now))) }
        ensures stays { OnOk result (IsOngoing (state_data self.new).end → state_data self.new ≡ record (state_data self.old) {
          known = counted_request (state_data self.old).known (tried_with user.now service.now (method_data method.now) false);
        }) }
        ensures unsent { OnOk result ((state_data self.new).sending ≡ (state_data self.old).sending) }
        ensures kept { OnOk result (by_input (end_data self.new.end) ≡ true) }
    {
        let _ = suite;
        let _ = method;
        let Some(service) = config.service(service) else {
            return self.fail(Fault::Service);
        };
        self.forget_others(user, service);
        self.refuse_more(config, false)
    }

    /// A server answers a request for a service that it has, by whether what it claims is accepted: a query by PK_OK or FAILURE,
    /// any other as it was tried (RFC 4252 sections 5, 5.1 and 7).
    pub(crate) fn decide(
        &mut self,
        config: &Config<'_>,
        user: &str,
        service: &str,
        claim: &Claim,
        allowed: bool,
    ) -> Result<Answers, Memory>
        requires open { end_data self.old.end ≡ Open }
        requires at { self.old.phase ≡ phase.Auth }
        requires fits { FitsClaim (config_data config.now) (state_data self.old).known (claim_method claim.now) }
        ensures gives { IfOk result (λ answers. replied answers (end_data self.new.end) ≡ claimed_reply (config_data config.now) (state_data self.old).known user.now service.now (claim_method claim.now) allowed) }
        ensures stays { OnOk result (IsOngoing (state_data self.new).end → state_data self.new ≡ record (state_data self.old) {
          end = (state_data self.new).end;
          known = counted_request (state_data self.old).known (tried_with user.now service.now (claim_method claim.now) (claims (claim_method claim.now) && allowed));
          carried = tried_key (state_data self.old).carried (claim_method claim.now) (claims (claim_method claim.now) && allowed);
        }) }
        ensures unsent { OnOk result ((state_data self.new).sending ≡ (state_data self.old).sending) }
        ensures kept { OnOk result (by_input (end_data self.new.end) ≡ true) }
    {
        if let Claim::Query { algorithm, blob } = claim {
            return self.answer_query(config, user, service, algorithm, blob, allowed);
        }
        self.decide_claim(config, user, service, claim, allowed)
    }

    /// A server answers a request that is no query, for a service that it has, by whether it is successful: keeps its key
    /// and its method if it is, else forgets what was completed for others (RFC 4252 section 5.1).
    fn decide_claim(
        &mut self,
        config: &Config<'_>,
        user: &str,
        service: &str,
        claim: &Claim,
        successful: bool,
    ) -> Result<Answers, Memory>
        requires open { end_data self.old.end ≡ Open }
        requires at { self.old.phase ≡ phase.Auth }
        requires named { HasName (claim_method claim.now) }
        ensures gives { IfOk result (λ answers. replied answers (end_data self.new.end) ≡ tried_reply (config_data config.now) (state_data self.old).known user.now service.now (claim_method claim.now) successful) }
        ensures stays { OnOk result (IsOngoing (state_data self.new).end → state_data self.new ≡ record (state_data self.old) {
          end = (state_data self.new).end;
          known = counted_request (state_data self.old).known (tried_with user.now service.now (claim_method claim.now) successful);
          carried = tried_key (state_data self.old).carried (claim_method claim.now) successful;
        }) }
        ensures unsent { OnOk result ((state_data self.new).sending ≡ (state_data self.old).sending) }
        ensures kept { OnOk result (by_input (end_data self.new.end) ≡ true) }
    {
        if successful {
            self.keep_key(claim)?;
            return self.receive_successful(config, user, service, claim);
        }
        self.forget_others(user, service);
        self.refuse_more(config, false)
    }

    /// A server answers a query for a service that it has, which isn't the last try, by whether its key would do: by PK_OK or
    /// FAILURE (RFC 4252 section 7).
    fn answer_query(
        &mut self,
        config: &Config<'_>,
        user: &str,
        service: &str,
        algorithm: &str,
        key: &[u8],
        would: bool,
    ) -> Result<Answers, Memory>
        requires open { end_data self.old.end ≡ Open }
        requires more { is_last_try (config_data config.now) (state_data self.old).known ≡ false }
        requires algorithm { length algorithm.now ≤ NAME_LIMIT }
        requires key { length key.now ≤ BLOB_LIMIT }
        ensures gives { IfOk result (λ answers. replied answers (end_data self.new.end) ≡ query_reply (config_data config.now) algorithm.now key.now would) }
        ensures stays { OnOk result (state_data self.new ≡ record (state_data self.old) {
          known = counted_request (state_data self.old).known (tried_with user.now service.now (content.PublicKeyQuery algorithm.now key.now) false);
        }) }
        ensures kept { OnOk result (by_input (end_data self.new.end) ≡ true) }
    {
        tries_law(config);
        self.forget_others(user, service);
        if would {
            self.confirm(algorithm, key)
        } else {
            self.refuse(config, false)
        }
    }

    /// A server receives a successful request for a service that it has: the user is authenticated if all required
    /// methods are completed, else it goes on (RFC 4252 section 5.1).
    fn receive_successful(
        &mut self,
        config: &Config<'_>,
        user: &str,
        service: &str,
        claim: &Claim,
    ) -> Result<Answers, Memory>
        requires open { end_data self.old.end ≡ Open }
        requires at { self.old.phase ≡ phase.Auth }
        ensures gives { IfOk result (λ answers. replied answers (end_data self.new.end) ≡ tried_reply (config_data config.now) (state_data self.old).known user.now service.now (claim_method claim.now) true) }
        ensures stays { OnOk result (IsOngoing (state_data self.new).end → state_data self.new ≡ record (state_data self.old) {
          end = (state_data self.new).end;
          known = counted_request (state_data self.old).known (tried_with user.now service.now (claim_method claim.now) true);
        }) }
        ensures unsent { OnOk result ((state_data self.new).sending ≡ (state_data self.old).sending) }
        ensures kept { OnOk result (by_input (end_data self.new.end) ≡ true) }
    {
        self.forget_others(user, service);
        self.complete_method(user, service, claim)?;
        if self.is_complete(config) {
            return self.succeed(user, service);
        }
        self.refuse_more(config, true)
    }

    /// Counts a request.
    pub(crate) fn count_request(&mut self)
        requires counted { self.old.request ≤ TRIES_LIMIT }
        requires more { end_data self.old.end ≡ Open → self.old.request < TRIES_LIMIT }
        ensures { state_data self.new ≡ record (state_data self.old) { known = one_request (state_data self.old).known } }
    {
        self.request += 1;
        self.first = false;
    }
}

/// The law of a server's tries: there are at most so many.
fn tries_law(config: &Config<'_>)
    ensures { (config_data config.now).tries ≤ TRIES_LIMIT }
{
    config.tries();
}
