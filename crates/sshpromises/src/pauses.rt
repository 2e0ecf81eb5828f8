//! What is promised of endpoints that are paused.

ghost use Rattle.std.specs.Prelude.{◌≡◌, ℕ, List};
ghost use Rattle.sshneg.specs.declared.side.Side.TheVariants.{Client, Server};
ghost use Rattle.sshcore.specs.declared.config_draws.Draws.{Draws};
ghost use Rattle.sshcore.specs.AskedQuestions.{AnsweredData};
ghost use Rattle.sshcore.specs.Asking.{IsSameAsking};
ghost use Rattle.sshcore.specs.Dialogue.{Dialogue, IsRested};
ghost use Rattle.sshcore.specs.EndpointParts.{config_of_client, config_of_server};
ghost use Rattle.sshcore.specs.Redrawn.{redrawn_client, redrawn_server};

use sshcore::{AskingEndpoint, ClientConfig, Listener, ServerConfig};
use sshpacket::Suite;

/// A client that asks, wherever it is paused, and resumed with the config and the suite with which it was made: it goes on
/// in the same dialogue. Its draws are its own, and the listener may be another.
pub fn rested_client<'a, S: Suite, L: Listener, M: Listener>(
    endpoint: AskingEndpoint<'_, S, L>,
    config: &'a ClientConfig,
    suite: &'a S,
    listener: &'a M,
) -> AskingEndpoint<'a, S, M>
    requires role { endpoint.role ≡ Client }
    requires config { (draws : Draws) × (endpoint.config ≡ config_of_client (redrawn_client draws config.now)) }
    requires suite { endpoint.suite ≡ suite.now }
    ensures rests { IsRested S.meaning endpoint.entry result }
    ensures same { IsSameAsking endpoint.entry result }
    ensures goes_on { (answers : List AnsweredData) (h s : List ℕ) → Dialogue S.meaning endpoint.entry answers h s → Dialogue S.meaning result answers h s }
{
    endpoint.pause().resume_client(config, suite, listener)
}

/// The same of a server that asks.
pub fn rested_server<'a, S: Suite, L: Listener, M: Listener>(
    endpoint: AskingEndpoint<'_, S, L>,
    config: &'a ServerConfig,
    suite: &'a S,
    listener: &'a M,
) -> AskingEndpoint<'a, S, M>
    requires role { endpoint.role ≡ Server }
    requires config { (draws : Draws) × (endpoint.config ≡ config_of_server (redrawn_server draws config.now)) }
    requires suite { endpoint.suite ≡ suite.now }
    ensures rests { IsRested S.meaning endpoint.entry result }
    ensures same { IsSameAsking endpoint.entry result }
    ensures goes_on { (answers : List AnsweredData) (h s : List ℕ) → Dialogue S.meaning endpoint.entry answers h s → Dialogue S.meaning result answers h s }
{
    endpoint.pause().resume_server(config, suite, listener)
}
