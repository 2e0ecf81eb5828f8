//! The payloads of a client's attempts (RFC 4252 sections 5.2, 7 and 8).

ghost use Rattle.std.specs.Prelude.{◌≡◌, ◌≤◌, [], true, false, IfOk, IfSome, length, option_map};
ghost use Rattle.sshwire.specs.declared.limits.TheConstants.{NAME_LIMIT};
ghost use Rattle.sshwire.specs.Types.{IsName};
ghost use Rattle.sshmsg.specs.MessageData as content;
ghost use Rattle.sshmsg.specs.View.{method_data};
ghost use Rattle.sshmsg.specs.Written.{written_message};
ghost use Rattle.sshneg.specs.Derivations.{signed_text};
ghost use Rattle.sshpacket.specs.declared.limits.TheConstants.{BLOB_LIMIT, DIGEST_LIMIT, SIGNATURE_LIMIT};
ghost use Rattle.sshcore.specs.declared.config_parts.TheConstants.{PRIVATE_KEY_LIMIT};
ghost use Rattle.sshcore.specs.Attempts.{is_asked, own_request, signed_method};
ghost use Rattle.sshcore.specs.Authenticating.{FitsRequest};
ghost use Rattle.sshcore.specs.ConfigRules.{IsAttempt};
ghost use Rattle.sshcore.specs.ConfigView.{attempt_data, credential_data};
ghost use Rattle.sshcore.specs.MadePayloads.{IsMade};
ghost use Rattle.sshcore.specs.Plan.{confirmed, first_made};

use crate::config_parts::{Attempt, Credential};
use crate::payloads::payload_from;
use sshmsg::{Message, Method};
use sshneg::signed_request;
use sshpacket::Suite;
use sshwire::Memory;
use std::alloc::Global;

/// A user's key that somebody else signs with.
#[derive(Clone, Copy)]
pub(crate) struct AskedKey<'k> {
    pub(crate) algorithm: &'k str,
    pub(crate) blob: &'k [u8],
}

/// The payload of the request that an attempt makes next (RFC 4252 section 5), in the session of this
/// identifier: its query, if it asks one that wasn't confirmed (section 7), else itself, signed by the suite.
pub(crate) fn next_payload<S: Suite>(
    alloc: Global,
    suite: &S,
    session: &[u8],
    confirmed: bool,
    attempt: &Attempt,
) -> Result<Vec<u8>, Memory>
    requires attempt { IsAttempt (attempt_data attempt.now) }
    requires session { length session.now ≤ DIGEST_LIMIT }
    ensures { IfOk result (λ made. IsMade (own_request (S.meaning suite.now) session.now (first_made confirmed (attempt_data attempt.now))) made.items) }
{
    match &attempt.credential {
        Credential::None => method_payload(alloc, attempt, Method::None),
        Credential::Password(password) => {
            method_payload(alloc, attempt, Method::Password { password })
        }
        Credential::PublicKey {
            algorithm,
            private_key,
            ask,
        } => {
            if *ask && !confirmed {
                query_payload(alloc, suite, attempt, algorithm, private_key)
            } else {
                signed_payload(alloc, suite, session, attempt, algorithm, private_key)
            }
        }
    }
}

/// The payload of the query whether a key would do (RFC 4252 section 7).
fn query_payload<S: Suite>(
    alloc: Global,
    suite: &S,
    attempt: &Attempt,
    algorithm: &str,
    private_key: &[u8],
) -> Result<Vec<u8>, Memory>
    requires attempt { IsAttempt (attempt_data attempt.now) }
    requires named { IsName algorithm.now }
    requires key { length private_key.now ≤ PRIVATE_KEY_LIMIT }
    ensures { IfOk result (λ made. IsMade (written_message (content.UserauthRequest (attempt_data attempt.now).user (attempt_data attempt.now).service
        (content.PublicKeyQuery algorithm.now ((S.meaning suite.now).blob algorithm.now private_key.now)))) made.items) }
{
    let key = suite.blob(alloc, algorithm, private_key)?;
    let method = Method::PublicKeyQuery {
        algorithm: algorithm.as_bytes(),
        key: &key,
    };
    method_payload(alloc, attempt, method)
}

/// The payload of the request that the suite signs by a key, in the session of this identifier (RFC 4252 section 7).
fn signed_payload<S: Suite>(
    alloc: Global,
    suite: &S,
    session: &[u8],
    attempt: &Attempt,
    algorithm: &str,
    private_key: &[u8],
) -> Result<Vec<u8>, Memory>
    requires attempt { IsAttempt (attempt_data attempt.now) }
    requires named { IsName algorithm.now }
    requires key { length private_key.now ≤ PRIVATE_KEY_LIMIT }
    requires session { length session.now ≤ DIGEST_LIMIT }
    ensures { IfOk result (λ made. IsMade (written_message (content.UserauthRequest (attempt_data attempt.now).user (attempt_data attempt.now).service
        (content.PublicKey algorithm.now ((S.meaning suite.now).blob algorithm.now private_key.now)
        ((S.meaning suite.now).sign algorithm.now private_key.now
        (signed_text session.now (attempt_data attempt.now).user (attempt_data attempt.now).service algorithm.now ((S.meaning suite.now).blob algorithm.now private_key.now)))))) made.items) }
{
    sshneg::exchange_law();
    let key = suite.blob(alloc, algorithm, private_key)?;
    let service = attempt.service.as_bytes();
    let input = signed_request(alloc, session, &attempt.user, service, algorithm, &key)?;
    let signature = suite.sign(alloc, algorithm, private_key, &input)?;
    let method = Method::PublicKey {
        algorithm: algorithm.as_bytes(),
        key: &key,
        signature: &signature,
    };
    method_payload(alloc, attempt, method)
}

/// The payload of the request of an attempt by a key that somebody else signs with: by this signature; without one by `none`.
pub(crate) fn answered_payload(
    alloc: Global,
    attempt: &Attempt,
    key: AskedKey<'_>,
    signature: Option<&[u8]>,
) -> Result<Vec<u8>, Memory>
    requires attempt { IsAttempt (attempt_data attempt.now) }
    requires algorithm { length key.algorithm.now ≤ NAME_LIMIT }
    requires blob { length key.blob.now ≤ BLOB_LIMIT }
    requires signature { IfSome signature (λ s. length s.now ≤ SIGNATURE_LIMIT) }
    ensures { IfOk result (λ made. IsMade (written_message (content.UserauthRequest (attempt_data attempt.now).user (attempt_data attempt.now).service
        (signed_method key.entry.algorithm.now key.entry.blob.now (option_map (λ s. s.now) signature.entry)))) made.items) }
{
    match signature {
        None => method_payload(alloc, attempt, Method::None),
        Some(signature) => {
            let method = Method::PublicKey {
                algorithm: key.algorithm.as_bytes(),
                key: key.blob,
                signature,
            };
            method_payload(alloc, attempt, method)
        }
    }
}

/// Whether it was asked if this key would do.
pub(crate) fn is_asked<S: Suite>(
    alloc: Global,
    suite: &S,
    attempt: &Attempt,
    algorithm: &[u8],
    key: &[u8],
) -> Result<bool, Memory>
    requires { IsAttempt (attempt_data attempt.now) }
    ensures { IfOk result (λ asked. asked ≡ is_asked (S.meaning suite.now) (credential_data attempt.now.credential) algorithm.now key.now) }
{
    match &attempt.credential {
        Credential::PublicKey {
            algorithm: own,
            private_key,
            ask,
        } => {
            if !*ask || algorithm != own.as_bytes() {
                return Ok(false);
            }
            let blob = suite.blob(alloc, own, private_key)?;
            Ok(key == blob.as_slice())
        }
        _ => Ok(false),
    }
}

/// The payload of the request of an attempt by this method.
fn method_payload(alloc: Global, attempt: &Attempt, method: Method<'_>) -> Result<Vec<u8>, Memory>
    requires attempt { IsAttempt (attempt_data attempt.now) }
    requires fits { FitsRequest (method_data method) }
    ensures { IfOk result (λ made. IsMade (written_message (content.UserauthRequest (attempt_data attempt.now).user (attempt_data attempt.now).service (method_data method.entry))) made.items) }
{
    sshmsg::lengths_law();
    let message = Message::UserauthRequest {
        user: &attempt.user,
        service: attempt.service.as_bytes(),
        method,
    };
    payload_from(alloc, message)
}
