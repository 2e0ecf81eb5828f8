//! What comes of two configs, without messages.

ghost use Rattle.std.specs.Prelude.{◌≡◌, IfOk, Ok};
ghost use Rattle.sshmsg.specs.View.{kexinit_data};
ghost use Rattle.sshcore.specs.Chosen.{AreNamed};
ghost use Rattle.sshcore.specs.ConfigParts.{client_offer, server_offer};
ghost use Rattle.sshcore.specs.EndData.{end_data};
ghost use Rattle.sshcore.specs.Redrawn.{redrawn_client, redrawn_server};
ghost use Rattle.sshworld.specs.AlgorithmsView.{algorithms_named};
ghost use Rattle.sshworld.specs.Outcome.{case_of_choice, ends_of_case, outcome};

use crate::algorithms::{AlgorithmNames, algorithms_at};
use crate::drawn::{DrawnClient, DrawnServer, again};
use crate::predicted_ends::{host_key, judge_drawn, predict_judged};
use sshcore::{ClientConfig, Decisions, Draws, End, Fault, HostKey, ServerConfig};
use sshmsg::{KexInit, SSH_DISCONNECT_HOST_KEY_NOT_VERIFIABLE};
use sshneg::choose;
use sshpacket::Suite;
use sshwire::Memory;
use std::alloc::Global;

/// How a client and a server of these configs end, the client's end first: without a message, where
/// both use this suite and these decisions, and all that either sends reaches the other.
///
/// Its premise is that the two understand each other (`AreCompatible`): both come to one shared secret,
/// and the keys sign. It isn't looked at here: where it doesn't hold, two endpoints may end otherwise. So
/// they may where either ran out of memory, or its input ends before.
///
/// The algorithms are chosen (RFC 4253 section 7.1). The client decides on the server's host key, which
/// is its first one with the chosen algorithm (RFC 4253 section 8). Then the server judges the requests
/// of the client's plan, one after another (RFC 4252 section 5). Where one succeeds, both have agreed on
/// the algorithms, strictness (OpenSSH PROTOCOL section 1.10), the session identifier (RFC 4253 section
/// 7.2), the user and the service.
///
/// Answers `Memory` only where an allocation failed.
pub fn predict<S: Suite, D: Decisions>(
    alloc: Global,
    client: &ClientConfig,
    server: &ServerConfig,
    suite: &S,
    decisions: &D,
) -> Result<(End, End), Memory>
    ensures outcome { IfOk result (λ ends. (end_data ends.0 ≡ (outcome (S.meaning suite.now) (D.policy decisions.now) client.now server.now).client)
        × (end_data ends.1 ≡ (outcome (S.meaning suite.now) (D.policy decisions.now) client.now server.now).server)) }
{
    let (client_draws, server_draws) = (client.draws(), server.draws());
    predict_with(
        alloc,
        client,
        &client_draws,
        server,
        &server_draws,
        suite,
        decisions,
    )
}

/// The same of these configs with these draws, each in place of the config's own.
pub fn predict_with<S: Suite, D: Decisions>(
    alloc: Global,
    client: &ClientConfig,
    client_draws: &Draws,
    server: &ServerConfig,
    server_draws: &Draws,
    suite: &S,
    decisions: &D,
) -> Result<(End, End), Memory>
    ensures outcome { IfOk result (λ ends. (end_data ends.0 ≡ (outcome (S.meaning suite.now) (D.policy decisions.now) (redrawn_client client_draws.now client.now) (redrawn_server server_draws.now server.now)).client)
        × (end_data ends.1 ≡ (outcome (S.meaning suite.now) (D.policy decisions.now) (redrawn_client client_draws.now client.now) (redrawn_server server_draws.now server.now)).server)) }
{
    let client = DrawnClient::new(client, again(client_draws));
    let server = DrawnServer::new(server, again(server_draws));
    predict_drawn(alloc, &client, &server, suite, decisions)
}

/// How both end. Answers `Memory` where an allocation failed, as each function below.
fn predict_drawn<S: Suite, D: Decisions>(
    alloc: Global,
    client: &DrawnClient<'_>,
    server: &DrawnServer<'_>,
    suite: &S,
    decisions: &D,
) -> Result<(End, End), Memory>
    ensures outcome { IfOk result (λ ends. (end_data ends.0 ≡ (outcome (S.meaning suite.now) (D.policy decisions.now) client.now server.now).client)
        × (end_data ends.1 ≡ (outcome (S.meaning suite.now) (D.policy decisions.now) client.now server.now).server)) }
{
    let of_client = client.kexinit()?;
    let ends = predict_offered(alloc, client, server, suite, decisions, &of_client);
    drop(of_client);
    ends
}

/// How both end, where the client's KEXINIT is this one.
fn predict_offered<S: Suite, D: Decisions>(
    alloc: Global,
    client: &DrawnClient<'_>,
    server: &DrawnServer<'_>,
    suite: &S,
    decisions: &D,
    of_client: &KexInit<'_>,
) -> Result<(End, End), Memory>
    requires { kexinit_data of_client.now ≡ client_offer client.now }
    ensures outcome { IfOk result (λ ends. (end_data ends.0 ≡ (outcome (S.meaning suite.now) (D.policy decisions.now) client.now server.now).client)
        × (end_data ends.1 ≡ (outcome (S.meaning suite.now) (D.policy decisions.now) client.now server.now).server)) }
{
    let of_server = server.kexinit()?;
    let ends = predict_between(
        alloc, client, server, suite, decisions, of_client, &of_server,
    );
    drop(of_server);
    ends
}

/// How both end, where these are their KEXINITs.
fn predict_between<S: Suite, D: Decisions>(
    alloc: Global,
    client: &DrawnClient<'_>,
    server: &DrawnServer<'_>,
    suite: &S,
    decisions: &D,
    of_client: &KexInit<'_>,
    of_server: &KexInit<'_>,
) -> Result<(End, End), Memory>
    requires client { kexinit_data of_client.now ≡ client_offer client.now }
    requires server { kexinit_data of_server.now ≡ server_offer server.now }
    ensures outcome { IfOk result (λ ends. (end_data ends.0 ≡ (outcome (S.meaning suite.now) (D.policy decisions.now) client.now server.now).client)
        × (end_data ends.1 ≡ (outcome (S.meaning suite.now) (D.policy decisions.now) client.now server.now).server)) }
{
    sshneg::choice_law();
    match choose(of_client, of_server, suite) {
        Err(field) => {
            let fault = Fault::NoCommon(field);
            Ok((End::Failed(fault), End::Failed(fault)))
        }
        Ok(chosen) => {
            let names = algorithms_at(of_client, &chosen);
            predict_chosen(alloc, client, server, suite, decisions, &names)
        }
    }
}

/// How both end, where these algorithms are chosen.
fn predict_chosen<S: Suite, D: Decisions>(
    alloc: Global,
    client: &DrawnClient<'_>,
    server: &DrawnServer<'_>,
    suite: &S,
    decisions: &D,
    names: &AlgorithmNames<'_>,
) -> Result<(End, End), Memory>
    requires { AreNamed (algorithms_named names.now) }
    ensures client { IfOk result (λ ends. end_data ends.0 ≡ (ends_of_case (case_of_choice (S.meaning suite.now) (D.policy decisions.now) client.now server.now (Ok (algorithms_named names.now)))).client) }
    ensures server { IfOk result (λ ends. end_data ends.1 ≡ (ends_of_case (case_of_choice (S.meaning suite.now) (D.policy decisions.now) client.now server.now (Ok (algorithms_named names.now)))).server) }
{
    let host_key = host_key(alloc, server, suite, names)?;
    if !decisions.host_key(names.host_key, &host_key) {
        let reason = SSH_DISCONNECT_HOST_KEY_NOT_VERIFIABLE;
        return Ok((End::Failed(Fault::HostKey), End::Closed(reason)));
    }
    let judged = judge_drawn(alloc, client, server, suite, decisions)?;
    predict_judged(alloc, client, server, suite, names, &host_key, &judged)
}
