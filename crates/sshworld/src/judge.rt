//! How a server judges the requests that a client offers (RFC 4252).

ghost use Rattle.std.specs.Prelude.{◌≡◌, ◌≤◌, ◌+◌, IfOk, List, length, map, option_map, string_bytes};
ghost use Rattle.std.specs.List.{AllByRecursion, list_any};
ghost use Rattle.std.specs.Str.{bytes_eq};
ghost use Rattle.sshneg.specs.ChoiceReadings.{is_in};
ghost use Rattle.sshcore.specs.declared.config_parts.TheConstants.{PLAN_LIMIT};
ghost use Rattle.sshcore.specs.ConfigParts as config_parts;
ghost use Rattle.sshcore.specs.ConfigRules.{IsAttempt};
ghost use Rattle.sshcore.specs.ConfigView.{attempt_data};
ghost use Rattle.sshworld.specs.JudgedView.{IsAfter, IsSoFar, ends_among, how_of};
ghost use Rattle.sshworld.specs.Judging.{is_proved, is_usable, proved_by};
ghost use Rattle.sshworld.specs.Offered.{requests_for};
ghost use Rattle.sshworld.specs.Verdicts.{ends_by, verdict};

use crate::progress::Progress;
use sshcore::{Attempt, ClientConfig, Credential, Decisions, Proof, ServerConfig};
use sshpacket::Suite;
use sshwire::Memory;
use std::alloc::Global;

/// How the requests of a plan end.
#[derive(Clone, Copy)]
pub(crate) enum Judged<'a> {
    /// A request is for a service that the server doesn't have.
    Unknown,
    /// A request of this attempt is accepted.
    Success(&'a Attempt),
    /// A request is the last that the server grants, and isn't accepted.
    Limit,
    /// No request is left.
    Exhausted,
}

/// How the requests of the client's plan end (RFC 4252 section 5): the plan is gone through once, and
/// the requests of each attempt that is made are judged. Answers `Memory` where an allocation failed, as each
/// function below.
pub(crate) fn judge<'a, S: Suite, D: Decisions>(
    alloc: Global,
    client: &'a ClientConfig,
    server: &ServerConfig,
    suite: &S,
    decisions: &D,
) -> Result<Judged<'a>, Memory>
    ensures { IfOk result (λ judged. how_of judged ≡ (verdict (S.meaning suite.now) (D.policy decisions.now) client.now server.now).how) }
{
    let mut progress = Progress::new();
    for attempt in plan_of(client) {
        if progress.requests == 0 || lists(server, attempt.credential.method()) {
            let judged = judge_attempt(alloc, server, suite, decisions, &mut progress, attempt)?;
            if let Some(judged) = judged {
                return Ok(judged);
            }
        }
    }
    Ok(Judged::Exhausted)
}

/// The attempts of a client's plan.
fn plan_of(client: &ClientConfig) -> &[Attempt]
    ensures plan { map attempt_data result.now ≡ client.now.plan }
    ensures accepted { AllByRecursion IsAttempt (map attempt_data result.now) }
    ensures few { length result.now ≤ PLAN_LIMIT }
{
    &client.parts().plan
}

/// How the requests of this attempt end those made before them, if one does: its query, if it asks, and
/// then itself, if the query is confirmed (RFC 4252 section 7).
fn judge_attempt<'a, S: Suite, D: Decisions>(
    alloc: Global,
    server: &ServerConfig,
    suite: &S,
    decisions: &D,
    progress: &mut Progress<'a>,
    attempt: &'a Attempt,
) -> Result<Option<Judged<'a>>, Memory>
    requires attempt { IsAttempt (attempt_data attempt.now) }
    requires few { progress.old.requests ≤ 126 }
    ensures ends { IfOk result (λ judged. (made : List config_parts.AttemptData)
        → IsSoFar (S.meaning suite.now) (D.policy decisions.now) server.now made progress.old
        → option_map how_of judged ≡ ends_among (ends_by (S.meaning suite.now) (D.policy decisions.now) server.now) made
        (requests_for (S.meaning suite.now) (D.policy decisions.now) server.now made (attempt_data attempt.now))) }
    ensures after { IfOk result (λ judged. (made : List config_parts.AttemptData)
        → IsSoFar (S.meaning suite.now) (D.policy decisions.now) server.now made progress.old
        → IsAfter (S.meaning suite.now) (D.policy decisions.now) server.now made
        (requests_for (S.meaning suite.now) (D.policy decisions.now) server.now made (attempt_data attempt.now)) judged progress.new) }
    ensures few { progress.new.requests ≤ progress.old.requests + 2 }
{
    let proved = is_proved(
        alloc,
        server,
        suite,
        decisions,
        progress.requests + 1,
        attempt,
    )?;
    if !attempt.credential.asks() {
        return Ok(progress.judge_request(server, attempt, proved));
    }
    let judged = progress.judge_request(server, attempt, false);
    if judged.is_some() || !proved {
        return Ok(judged);
    }
    let proved = is_proved(
        alloc,
        server,
        suite,
        decisions,
        progress.requests + 1,
        attempt,
    )?;
    Ok(progress.judge_request(server, attempt, proved))
}

/// Whether the request of this number is proved: its method may be used, and the decision is yes. The
/// decision is asked of nothing else.
fn is_proved<S: Suite, D: Decisions>(
    alloc: Global,
    server: &ServerConfig,
    suite: &S,
    decisions: &D,
    number: u32,
    attempt: &Attempt,
) -> Result<bool, Memory>
    requires { IsAttempt (attempt_data attempt.now) }
    ensures { IfOk result (λ proved. proved ≡ is_proved (S.meaning suite.now) (D.policy decisions.now) server.now number (attempt_data attempt.now)) }
{
    if !is_usable(server, suite, attempt) {
        return Ok(false);
    }
    decide(alloc, suite, decisions, number, attempt)
}

/// Whether a request that proves this may be accepted: `none` always, any other where the server lists
/// its method, and one by a key where the suite signs with the algorithm.
fn is_usable<S: Suite>(server: &ServerConfig, suite: &S, attempt: &Attempt) -> bool
    requires { IsAttempt (attempt_data attempt.now) }
    ensures { result ≡ is_usable (S.meaning suite.now) server.now.methods (attempt_data attempt.now).proving }
{
    match &attempt.credential {
        Credential::None => true,
        Credential::Password(_) => lists(server, "password"),
        Credential::PublicKey { algorithm, .. } => {
            lists(server, "publickey") && suite.can(algorithm).signature
        }
    }
}

/// The decision on the request of this number (RFC 4252 sections 5.2, 7 and 8).
fn decide<S: Suite, D: Decisions>(
    alloc: Global,
    suite: &S,
    decisions: &D,
    number: u32,
    attempt: &Attempt,
) -> Result<bool, Memory>
    requires { IsAttempt (attempt_data attempt.now) }
    ensures { IfOk result (λ yes. yes ≡ (D.policy decisions.now).user number (attempt_data attempt.now).user (attempt_data attempt.now).service
        (proved_by (S.meaning suite.now) (attempt_data attempt.now).proving)) }
{
    let (user, service) = (&attempt.user, &attempt.service);
    match &attempt.credential {
        Credential::None => Ok(decisions.user(number, user, service, &Proof::None)),
        Credential::Password(password) => {
            Ok(decisions.user(number, user, service, &Proof::Password(password)))
        }
        Credential::PublicKey {
            algorithm,
            private_key,
            ..
        } => {
            let blob = suite.blob(alloc, algorithm, private_key)?;
            let proof = Proof::Key {
                algorithm,
                blob: &blob,
            };
            Ok(decisions.user(number, user, service, &proof))
        }
    }
}

/// Whether the server lists this method (RFC 4252 section 5.1).
fn lists(server: &ServerConfig, method: &str) -> bool
    ensures { result ≡ is_in server.now.methods method.now }
{
    has(&server.parts().methods, method)
}

/// Whether a name stands among these.
pub(crate) fn has(names: &[String], name: &str) -> bool
    ensures { result ≡ is_in (map string_bytes names.now) name.now }
{
    is_one_of(names, name)
}

/// Whether a name is one of these.
fn is_one_of(names: &[String], name: &str) -> bool
    ensures { result ≡ list_any (λ own. bytes_eq name.now (string_bytes own)) names.now }
{
    names.iter().any(|own| name == own.as_str())
}
