//! The ends that the requests of two configs come to.

ghost use Rattle.std.specs.Prelude.{◌≡◌, ◌≤◌, IfOk, Ok, length, map};
ghost use Rattle.sshcore.specs.declared.config_parts.TheConstants.{PRIVATE_KEY_LIMIT};
ghost use Rattle.sshcore.specs.Chosen.{AreNamed};
ghost use Rattle.sshcore.specs.ConfigView.{attempt_data, host_key_data};
ghost use Rattle.sshcore.specs.EndData.{Authenticated, end_data};
ghost use Rattle.sshcore.specs.Exchange.{secret_of};
ghost use Rattle.sshworld.specs.Agreement.{agreed, host_key_of_server};
ghost use Rattle.sshworld.specs.JudgedView.{how_of};
ghost use Rattle.sshworld.specs.AlgorithmsView.{agreed_with, algorithms_named};
ghost use Rattle.sshworld.specs.Outcome.{case_of_how, ends_of_case};
ghost use Rattle.sshworld.specs.Verdicts.{verdict};

use crate::algorithms::{AlgorithmNames, agreed};
use crate::drawn::{DrawnClient, DrawnServer};
use crate::judge::{Judged, judge};
use crate::session::session;
use sshcore::{Attempt, Decisions, End, Fault, HostKey, ServerConfig};
use sshmsg::{SSH_DISCONNECT_NO_MORE_AUTH_METHODS_AVAILABLE, SSH_DISCONNECT_SERVICE_NOT_AVAILABLE};
use sshpacket::Suite;
use sshwire::Memory;
use sshwire::owned::beside;
use std::alloc::Global;

/// How both end, where the client trusts the host key and the requests end so.
pub(crate) fn predict_judged<S: Suite>(
    alloc: Global,
    client: &DrawnClient<'_>,
    server: &DrawnServer<'_>,
    suite: &S,
    names: &AlgorithmNames<'_>,
    host_key: &[u8],
    judged: &Judged<'_>,
) -> Result<(End, End), Memory>
    requires names { AreNamed (algorithms_named names.now) }
    requires host_key { host_key.now ≡ host_key_of_server (S.meaning suite.now) server.now names.now.host_key.now }
    ensures client { IfOk result (λ ends. end_data ends.0 ≡ (ends_of_case (case_of_how (S.meaning suite.now) client.now server.now (algorithms_named names.now) (how_of judged.now))).client) }
    ensures server { IfOk result (λ ends. end_data ends.1 ≡ (ends_of_case (case_of_how (S.meaning suite.now) client.now server.now (algorithms_named names.now) (how_of judged.now))).server) }
{
    match *judged {
        Judged::Unknown => {
            let reason = SSH_DISCONNECT_SERVICE_NOT_AVAILABLE;
            Ok((End::Closed(reason), End::Failed(Fault::Service)))
        }
        Judged::Success(attempt) => {
            authenticated(alloc, client, server, suite, names, host_key, attempt)
        }
        Judged::Limit => {
            let reason = SSH_DISCONNECT_NO_MORE_AUTH_METHODS_AVAILABLE;
            Ok((End::Closed(reason), End::Failed(Fault::TooManyTries)))
        }
        Judged::Exhausted => {
            let reason = SSH_DISCONNECT_NO_MORE_AUTH_METHODS_AVAILABLE;
            Ok((End::Failed(Fault::NoMoreMethods), End::Closed(reason)))
        }
    }
}

/// How both end, where this attempt succeeds: with one agreement.
fn authenticated<S: Suite>(
    alloc: Global,
    client: &DrawnClient<'_>,
    server: &DrawnServer<'_>,
    suite: &S,
    names: &AlgorithmNames<'_>,
    host_key: &[u8],
    attempt: &Attempt,
) -> Result<(End, End), Memory>
    requires names { AreNamed (algorithms_named names.now) }
    requires host_key { host_key.now ≡ host_key_of_server (S.meaning suite.now) server.now names.now.host_key.now }
    ensures client { IfOk result (λ ends. end_data ends.0 ≡ Authenticated (agreed (S.meaning suite.now) client.now server.now (algorithms_named names.now) (attempt_data attempt.now))) }
    ensures server { IfOk result (λ ends. end_data ends.1 ≡ Authenticated (agreed (S.meaning suite.now) client.now server.now (algorithms_named names.now) (attempt_data attempt.now))) }
{
    let session = session(alloc, client, server, suite, names, host_key)?;
    let strict = client.side().strict && server.side().strict;
    both_agreed(alloc, names, strict, &session, attempt)
}

/// How both end that have agreed on these.
fn both_agreed(
    alloc: Global,
    names: &AlgorithmNames<'_>,
    strict: bool,
    session: &[u8],
    attempt: &Attempt,
) -> Result<(End, End), Memory>
    ensures client { IfOk result (λ ends. end_data ends.0 ≡ Authenticated (agreed_with names.now strict session.now attempt.now)) }
    ensures server { IfOk result (λ ends. end_data ends.1 ≡ Authenticated (agreed_with names.now strict session.now attempt.now)) }
{
    let of_client = agreed(alloc, names, strict, session, attempt)?;
    let of_server = agreed(alloc, names, strict, session, attempt);
    let (of_client, of_server) = beside(of_client, of_server)?;
    Ok((End::Authenticated(of_client), End::Authenticated(of_server)))
}

/// The server's public host key: that of its first private key of the chosen algorithm.
pub(crate) fn host_key<S: Suite>(
    alloc: Global,
    server: &DrawnServer<'_>,
    suite: &S,
    names: &AlgorithmNames<'_>,
) -> Result<Vec<u8>, Memory>
    requires { AreNamed (algorithms_named names.now) }
    ensures { IfOk result (λ blob. blob.items ≡ host_key_of_server (S.meaning suite.now) server.now names.now.host_key.now) }
{
    let secret = secret(server.config(), names.host_key);
    suite.blob(alloc, names.host_key, secret)
}

/// How the requests of the client's plan end, which no draws decide.
pub(crate) fn judge_drawn<'a, S: Suite, D: Decisions>(
    alloc: Global,
    client: &DrawnClient<'a>,
    server: &DrawnServer<'_>,
    suite: &S,
    decisions: &D,
) -> Result<Judged<'a>, Memory>
    ensures { IfOk result (λ judged. how_of judged ≡ (verdict (S.meaning suite.now) (D.policy decisions.now) client.now server.now).how) }
{
    judge(alloc, client.config(), server.config(), suite, decisions)
}

/// The private key of the server's first host key of this algorithm, or no bytes.
fn secret<'a>(server: &'a ServerConfig, algorithm: &str) -> &'a [u8]
    ensures secret { result.now ≡ secret_of server.now.host_keys algorithm.now }
    ensures short { length result.now ≤ PRIVATE_KEY_LIMIT }
{
    secret_in(&server.parts().host_keys, algorithm)
}

/// The private key of the first of these keys that has this algorithm, or no bytes.
fn secret_in<'a>(keys: &'a [HostKey], algorithm: &str) -> &'a [u8]
    ensures { result.now ≡ secret_of (map host_key_data keys.now) algorithm.now }
{
    match keys.iter().find(|key| algorithm == key.algorithm.as_str()) {
        Some(key) => &key.private_key,
        None => &[],
    }
}
