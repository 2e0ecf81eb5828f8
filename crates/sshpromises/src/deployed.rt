//! The headline for deployed algorithms: no premise is left on what they do.

ghost use Rattle.std.specs.Prelude.{◌≡◌, ◌↔◌, IfOk, IsTrue, List, Ok, string_bytes, true, ℕ};
ghost use Rattle.std.specs.List.{AllByRecursion, list_all};
ghost use Rattle.sshneg.specs.ChoiceReadings.{choice};
ghost use Rattle.sshneg.specs.Fields.{AlgorithmsData};
ghost use Rattle.sshcore.specs.ConfigParts.{AttemptData, ClientData, ServerData, client_offer, server_offer};
ghost use Rattle.sshcore.specs.EndpointParts.{DecisionsData};
ghost use Rattle.sshcore.specs.Endpoints.{endpoint_end};
ghost use Rattle.sshcore.specs.Exchange.{secret_of};
ghost use Rattle.sshcore.specs.SuiteFit.{IsFit, client_asked, server_asked};
ghost use Rattle.sshsuite.specs.Deployed.{deployed, is_curve25519};
ghost use Rattle.sshsuite.specs.DeployedInventory.{deployed_inventory};
ghost use Rattle.sshsuite.specs.declared.deployed_suite.DeployedSuite.{DeployedSuite};
ghost use Rattle.sshworld.specs.Compatible.{AreCompatible};
ghost use Rattle.sshworld.specs.Headline.{Headline};
ghost use Rattle.sshworld.specs.Held.{IsHeld};
ghost use Rattle.sshworld.specs.Outcome.{outcome};
ghost use Rattle.sshpromises.specs.Claims.{HasRunByHand};
ghost use Rattle.sshpromises.specs.Deployed.{CanAgree};

use crate::by_hand::run_by_hand;
use sshcore::{ClientConfig, Decisions, Endpoint, ServerConfig};
use sshneg::{choice_law, markers_law};
use sshsuite::{DeployedSuite, curve25519_law, group14_law, hybrid_law, signature_law};
use sshwire::Memory;
use sshworld::Delivery;
use std::alloc::Global;

/// The law of compatible configs: they are, if both ends can come to one shared secret by the chosen method, and the suite holds
/// the keys. Takes no memory.
pub fn compatible_law()
    ensures { (d : DecisionsData) (client : ClientData) (server : ServerData)
        → ((a : AlgorithmsData) → choice deployed (client_offer client) (server_offer server) ≡ Ok a → CanAgree a.kex client.side.random server.side.random)
        → ((a : AlgorithmsData) → choice deployed (client_offer client) (server_offer server) ≡ Ok a
        → deployed.holds a.host_key (secret_of server.host_keys a.host_key) ≡ true)
        → AllByRecursion (λ (attempt : AttemptData). IsHeld deployed attempt.proving) client.plan
        → AreCompatible deployed d client server }
{
    curve25519_law();
    group14_law();
    hybrid_law();
    signature_law();
}

/// The law of configs that fit: they are compatible, if the suite fits both, as `judge` says it, and both ends can come to one
/// shared secret by each method that the client lists. Takes no memory.
pub fn fit_law()
    ensures { (d : DecisionsData) (client : ClientData) (server : ServerData)
        → AllByRecursion (λ (name : List ℕ). CanAgree name client.side.random server.side.random) client.side.kex_algorithms
        → IsFit deployed deployed_inventory (client_asked client) → IsFit deployed deployed_inventory (server_asked server)
        → AreCompatible deployed d client server }
{
    compatible_law();
    choice_law();
    markers_law();
}

/// A client and a server over the deployed suite, run by a schedule as `run_by_hand` does: the suite fits both configs, as
/// `judge` says it, and each method that the client lists is curve25519-sha256, by either of its names.
pub fn run_deployed<'a, D: Decisions>(
    alloc: Global,
    client: &'a ClientConfig,
    server: &'a ServerConfig,
    suite: &'a DeployedSuite,
    decisions: &'a D,
    schedule: &[Delivery],
) -> Result<
    (
        (
            Endpoint<'a, DeployedSuite, D>,
            Endpoint<'a, DeployedSuite, D>,
        ),
        bool,
    ),
    Memory,
>
    requires by_curve25519 { AllByRecursion (λ (name : List ℕ). is_curve25519 name ≡ true) client.now.side.kex_algorithms }
    requires client_fits { IsFit deployed deployed_inventory (client_asked client.now) }
    requires server_fits { IsFit deployed deployed_inventory (server_asked server.now) }
    // All deliveries of the schedule were done, from two new endpoints on.
    ensures ran { IfOk result (λ ran. HasRunByHand (λ (_ : DeployedSuite). deployed) D.policy client.now server.now suite.now decisions.now schedule.now ran.0.0 ran.0.1 (IsTrue ran.1)) }
    ensures headline { IfOk result (λ ran. Headline (outcome deployed (D.policy decisions.now) client.now server.now) (endpoint_end ran.0.0) (endpoint_end ran.0.1) (IsTrue ran.1)) }
{
    run_any_deployed(alloc, client, server, suite, decisions, schedule)
}

/// The same, whichever methods the client lists, if both ends can come to one shared secret by each of them: by
/// curve25519-sha256 they can; by mlkem768x25519-sha256 they can if the noise of ML-KEM between the random bytes of both configs is
/// small; by diffie-hellman-group14-sha256 they can if no share is refused.
pub fn run_any_deployed<'a, D: Decisions>(
    alloc: Global,
    client: &'a ClientConfig,
    server: &'a ServerConfig,
    suite: &'a DeployedSuite,
    decisions: &'a D,
    schedule: &[Delivery],
) -> Result<
    (
        (
            Endpoint<'a, DeployedSuite, D>,
            Endpoint<'a, DeployedSuite, D>,
        ),
        bool,
    ),
    Memory,
>
    requires can_agree { AllByRecursion (λ (name : List ℕ). CanAgree name client.now.side.random server.now.side.random) client.now.side.kex_algorithms }
    requires client_fits { IsFit deployed deployed_inventory (client_asked client.now) }
    requires server_fits { IsFit deployed deployed_inventory (server_asked server.now) }
    // All deliveries of the schedule were done, from two new endpoints on.
    ensures ran { IfOk result (λ ran. HasRunByHand (λ (_ : DeployedSuite). deployed) D.policy client.now server.now suite.now decisions.now schedule.now ran.0.0 ran.0.1 (IsTrue ran.1)) }
    ensures headline { IfOk result (λ ran. Headline (outcome deployed (D.policy decisions.now) client.now server.now) (endpoint_end ran.0.0) (endpoint_end ran.0.1) (IsTrue ran.1)) }
{
    fit_law();
    run_by_hand(alloc, client, server, suite, decisions, schedule)
}

/// Whether each method that a client lists is curve25519-sha256, as `run_deployed` asks. Takes no memory.
pub fn lists_curve25519(client: &ClientConfig) -> bool
    ensures { IsTrue result ↔ AllByRecursion (λ (name : List ℕ). is_curve25519 name ≡ true) client.now.side.kex_algorithms }
{
    are_curve25519(&client.parts().side.kex_algorithms)
}

/// Whether each of these names is one of curve25519-sha256.
fn are_curve25519(names: &[String]) -> bool
    ensures { result ≡ list_all (λ name. is_curve25519 (string_bytes name)) names.now }
{
    names.iter().all(|name| is_curve25519(name))
}

/// Whether this is a name of curve25519-sha256.
#[tactic(auto, unfolding(sshsuite::specs::Deployed::is_curve25519))]
fn is_curve25519(kex: &str) -> bool
    ensures { result ≡ is_curve25519 kex.now }
{
    kex == "curve25519-sha256" || kex == "curve25519-sha256@libssh.org"
}
