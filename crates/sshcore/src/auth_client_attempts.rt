//! Phase auth at a client: the attempts of its plan and what the server answers (RFC 4252).

ghost use Rattle.std.specs.Prelude.{◌≡◌, ◌==◌, ◌&&◌, ◌||◌, ◌≤◌, ◌∷◌, [], true, false, Bool, IfOk, IfSome, List, None, OnOk, drop, length, map, option_map};
ghost use Rattle.sshwire.specs.declared.limits.TheConstants.{NAME_LIMIT};
ghost use Rattle.sshmsg.specs.MessageData.{UserauthRequest};
ghost use Rattle.sshmsg.specs.Written.{written_message};
ghost use Rattle.sshneg.specs.ChoiceReadings.{is_in};
ghost use Rattle.sshpacket.specs.declared.limits.TheConstants.{BLOB_LIMIT, SIGNATURE_LIMIT};
ghost use Rattle.sshcore.specs.declared.end.Fault.TheVariants as fault;
ghost use Rattle.sshcore.specs.declared.phase_table.Phase.TheVariants as phase;
ghost use Rattle.sshcore.specs.Attempts.{answers_query, attempt_step, failure_step, pk_ok_step, signed_method, success_reply};
ghost use Rattle.sshcore.specs.Authenticating.{confirmed_attempt, failed_attempt};
ghost use Rattle.sshcore.specs.Brings.{IsOngoing, received_one};
ghost use Rattle.sshcore.specs.ConfigParts.{AttemptData};
ghost use Rattle.sshcore.specs.ConfigView.{attempt_data, credential_data};
ghost use Rattle.sshcore.specs.EndData.{Failed, Open, by_input, end_data, goes};
ghost use Rattle.sshcore.specs.EndpointParts.{DecisionsData};
ghost use Rattle.sshcore.specs.ReplyView.{replied};
ghost use Rattle.sshcore.specs.StateData.{left_of, state_data};
ghost use Rattle.sshcore.specs.Step.{asked_in, settled};
ghost use Rattle.sshcore.specs.Phases.{past_kexinit};
ghost use Rattle.sshcore.specs.Plan.{confirmed, next_after, next_listed, proving_name};

use crate::auth_client_payloads::{AskedKey, answered_payload, is_asked, next_payload};
use crate::config_parts::Attempt;
use crate::end::Fault;
use crate::phase_table::Phase;
use crate::reply::Answers;
use crate::state::State;
use sshmsg::{SSH_MSG_USERAUTH_PK_OK, SSH_MSG_USERAUTH_SUCCESS};
use sshpacket::Suite;
use sshwire::{Memory, NameList};

impl State<'_> {
    /// Makes the first of the attempts that are left (RFC 4252 section 5); fails as `NoMoreMethods`
    /// where there is none.
    pub(crate) fn make_attempt<S: Suite>(&mut self, suite: &S) -> Result<Answers, Memory>
        requires open { end_data self.old.end ≡ Open }
        requires calm { asked_in (attempt_step (S.meaning suite.now) (state_data self.old).known.session (state_data self.old).known.left) ≡ None }
        ensures gives { IfOk result (λ answers. (d : DecisionsData) → replied answers (end_data self.new.end) ≡ settled d (attempt_step (S.meaning suite.now) (state_data self.old).known.session (state_data self.old).known.left)) }
        ensures stays { OnOk result (state_data self.new ≡ record (state_data self.old) { end = (state_data self.new).end }) }
        ensures kept { OnOk result (by_input (end_data self.new.end) ≡ true) }
    {
        match self.left.split_first() {
            None => self.fail(Fault::NoMoreMethods),
            Some((attempt, _later)) => {
                let request = next_payload(
                    self.alloc,
                    suite,
                    &self.session,
                    self.confirmed,
                    attempt,
                )?;
                Answers::one(self.alloc, request)
            }
        }
    }

    /// A client receives FAILURE: it makes the next attempt whose method is listed; those that it skips
    /// aren't made later (RFC 4252 section 5.1). Fails as `NoMoreMethods` where none is left.
    pub(crate) fn receive_failure<S: Suite>(
        &mut self,
        suite: &S,
        methods: &NameList,
    ) -> Result<Answers, Memory>
        requires open { end_data self.old.end ≡ Open }
        requires calm { asked_in (failure_step (S.meaning suite.now) (state_data self.old).known methods.now) ≡ None }
        ensures gives { IfOk result (λ answers. (d : DecisionsData) → replied answers (end_data self.new.end) ≡ settled d (failure_step (S.meaning suite.now) (state_data self.old).known methods.now)) }
        ensures stays { OnOk result (state_data self.new ≡ record (state_data self.old) {
          end = (state_data self.new).end;
          known = failed_attempt (state_data self.old).known methods.now;
        }) }
        ensures kept { OnOk result (by_input (end_data self.new.end) ≡ true) }
    {
        self.left = next_attempts(self.left, methods);
        self.confirmed = false;
        self.first = false;
        self.make_attempt(suite)
    }

    /// A client receives PK_OK: the attempt of the query is made itself, if the key is the one that was asked
    /// about; else it is unexpected (RFC 4252 section 7).
    pub(crate) fn receive_pk_ok<S: Suite>(
        &mut self,
        suite: &S,
        algorithm: &[u8],
        key: &[u8],
    ) -> Result<Answers, Memory>
        requires open { end_data self.old.end ≡ Open }
        requires calm { asked_in (pk_ok_step (S.meaning suite.now) (state_data self.old).known algorithm.now key.now) ≡ None }
        ensures gives { IfOk result (λ answers. (d : DecisionsData) → replied answers (end_data self.new.end) ≡ settled d (pk_ok_step (S.meaning suite.now) (state_data self.old).known algorithm.now key.now)) }
        ensures stays { OnOk result (IsOngoing (state_data self.new).end → state_data self.new ≡ record (state_data self.old) {
          end = (state_data self.new).end;
          known = confirmed_attempt (state_data self.old).known;
        }) }
        ensures unsent { OnOk result ((state_data self.new).sending ≡ (state_data self.old).sending) }
        ensures kept { OnOk result (by_input (end_data self.new.end) ≡ true) }
    {
        if !self.is_about(suite, algorithm, key)? {
            let unexpected = Fault::Unexpected(SSH_MSG_USERAUTH_PK_OK);
            return self.fail(unexpected);
        }
        self.confirmed = true;
        self.first = false;
        self.make_attempt(suite)
    }

    /// Makes an attempt, after skipping so many, by the signature that was asked for; without one it is made by `none`.
    pub(crate) fn answer_attempt(
        &mut self,
        skipped: usize,
        confirms: bool,
        key: AskedKey<'_>,
        signature: Option<&[u8]>,
    ) -> Result<Answers, Memory>
        requires open { end_data self.old.end ≡ Open }
        requires late { past_kexinit self.old.phase ≡ true }
        requires algorithm { length key.algorithm.now ≤ NAME_LIMIT }
        requires blob { length key.blob.now ≤ BLOB_LIMIT }
        requires signature { IfSome signature (λ s. length s.now ≤ SIGNATURE_LIMIT) }
        ensures gives { IfOk result (λ answers. (a : AttemptData) (later : List AttemptData) → left_of confirms (drop skipped (state_data self.old).known.left) ≡ a ∷ later
            → replied answers (end_data self.new.end)
            ≡ goes (written_message (UserauthRequest a.user a.service (signed_method key.entry.algorithm.now key.entry.blob.now (option_map (λ s. s.now) signature.entry))) ∷ [])) }
        ensures stays { OnOk result (state_data self.new ≡ record (state_data self.old) {
          phase = phase.Auth;
          known = record (state_data self.old).known { left = left_of confirms (drop skipped (state_data self.old).known.left); first = false };
        }) }
    {
        self.move_on(skipped, confirms);
        match self.left.first() {
            None => Ok(Answers::none(self.alloc)),
            Some(attempt) => {
                let request = answered_payload(self.alloc, attempt, key, signature)?;
                Answers::one(self.alloc, request)
            }
        }
    }

    /// Goes on to an attempt, after skipping so many; of the first that is left the query may have been confirmed.
    fn move_on(&mut self, skipped: usize, confirms: bool)
        requires { past_kexinit self.old.phase ≡ true }
        ensures { state_data self.new ≡ record (state_data self.old) {
          phase = phase.Auth;
          known = record (state_data self.old).known { left = left_of confirms (drop skipped (state_data self.old).known.left); first = false };
        } }
    {
        self.left = attempts_after(self.left, skipped);
        self.confirmed = is_confirmed(confirms, self.confirmed, skipped);
        self.phase = Phase::Auth;
        self.first = false;
    }

    /// Whether the query that waits for its answer is about this key.
    pub(crate) fn is_about<S: Suite>(
        &self,
        suite: &S,
        algorithm: &[u8],
        key: &[u8],
    ) -> Result<bool, Memory>
        ensures { IfOk result (λ about. about ≡ answers_query (S.meaning suite.now) algorithm.now key.now (state_data self.now).known.left) }
    {
        match self.left.first() {
            None => Ok(false),
            Some(attempt) => {
                if self.confirmed {
                    return Ok(false);
                }
                is_asked(self.alloc, suite, attempt, algorithm, key)
            }
        }
    }

    /// A client receives SUCCESS: the user of the attempt that was made last is authenticated (RFC 4252
    /// section 5.1). Fails as `Unexpected(52)` where none was made.
    pub(crate) fn receive_success(&mut self) -> Result<Answers, Memory>
        requires open { end_data self.old.end ≡ Open }
        requires at { self.old.phase ≡ phase.Auth }
        ensures gives { IfOk result (λ answers. replied answers (end_data self.new.end) ≡ success_reply (state_data self.old).known) }
        ensures stays { OnOk result (IsOngoing (state_data self.new).end
            → state_data self.new ≡ record (state_data self.old) { end = (state_data self.new).end; known = received_one (state_data self.old).known }) }
        ensures unsent { OnOk result ((state_data self.new).sending ≡ (state_data self.old).sending) }
        ensures kept { OnOk result (by_input (end_data self.new.end) ≡ true) }
    {
        match self.left.first() {
            None => {
                let fault = Fault::Unexpected(SSH_MSG_USERAUTH_SUCCESS);
                self.fail(fault)
            }
            Some(attempt) => {
                self.authenticate(&attempt.user, &attempt.service)?;
                Ok(Answers::none(self.alloc))
            }
        }
    }
}

/// Whether the query of the first attempt that is left has been confirmed, after skipping so many.
fn is_confirmed(confirms: bool, confirmed: bool, skipped: usize) -> bool
    ensures { result ≡ (confirms || (confirmed && (skipped == 0))) }
{
    confirms || confirmed && skipped == 0
}

/// The attempts after so many.
fn attempts_after(attempts: &[Attempt], skipped: usize) -> &[Attempt]
    ensures { map attempt_data result.now ≡ drop skipped (map attempt_data attempts.now) }
{
    if skipped < attempts.len() {
        &attempts[skipped..]
    } else {
        &[]
    }
}

/// The attempts after the first, from the next one on whose method is listed.
pub(crate) fn next_attempts<'a>(attempts: &'a [Attempt], listed: &NameList) -> &'a [Attempt]
    ensures { map attempt_data result.now ≡ next_after listed.now (map attempt_data attempts.now) }
{
    match attempts.split_first() {
        None => attempts,
        Some((_, later)) => from_listed(later, listed),
    }
}

/// These attempts from the first one on whose method is listed.
fn from_listed<'a>(attempts: &'a [Attempt], listed: &NameList) -> &'a [Attempt]
    ensures { map attempt_data result.now ≡ next_listed listed.now (map attempt_data attempts.now) }
{
    let found = attempts
        .iter()
        .position(|attempt| is_listed(attempt, listed));
    match found {
        None => &[],
        Some(place) => &attempts[place..],
    }
}

/// Whether the method of an attempt is listed.
fn is_listed(attempt: &Attempt, listed: &NameList) -> bool
    ensures { result ≡ is_in listed.now (proving_name (credential_data attempt.now.credential)) }
{
    listed.contains(attempt.credential.method())
}
