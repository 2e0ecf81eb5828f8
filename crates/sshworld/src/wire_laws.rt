//! The law of two endpoints whose bytes a caller carries itself.

ghost use Rattle.std.specs.Prelude.{ℕ, Vec, []};
ghost use Rattle.std.specs.Global.{Global};
ghost use Rattle.sshneg.specs.declared.side.Side.TheVariants as role;
ghost use Rattle.sshcore.specs.ConfigParts.{ClientData, ServerData};
ghost use Rattle.sshcore.specs.ConfigRules.{IsClient, IsServer};
ghost use Rattle.sshcore.specs.EndpointData.{EndpointData};
ghost use Rattle.sshcore.specs.Endpoints.{EndpointMade, endpoint_end};
ghost use Rattle.sshcore.specs.EndpointParts.{config_of_client, config_of_server};
ghost use Rattle.sshworld.specs.Headline.{Headline};
ghost use Rattle.sshworld.specs.Outcome.{outcome};
ghost use Rattle.sshworld.specs.Compatible.{AreCompatible};
ghost use Rattle.sshworld.specs.Wire.{AreOnWire, HaveUsedAll, UsesMore, WireEnd};

use crate::link_laws::{below_law, course_receiving_law};
use sshcore::Decisions;
use sshpacket::Suite;

/// The law of a wire: two endpoints that were made of two configs, and of which each is fed with the next bytes that the
/// other has sent, end as the outcome of the configs has it, in whatever order and pieces that is done. Takes no memory.
pub fn wire_law<S: Suite, D: Decisions>()
    // Two endpoints that are made are on a wire.
    ensures begins { (client_config : ClientData) (server_config : ServerData) (suite : S) (decisions : D) (client server : EndpointData S D) (client_sent server_sent : Vec ℕ Global)
        → IsClient client_config → IsServer server_config
        → EndpointMade S.meaning D.policy role.Client (config_of_client client_config) suite decisions client [] client_sent.items
        → EndpointMade S.meaning D.policy role.Server (config_of_server server_config) suite decisions server [] server_sent.items
        → AreOnWire S.meaning D.policy client_config server_config suite decisions (record { endpoint = client; sent = client_sent; used = 0 }) (record { endpoint = server; sent = server_sent; used = 0 }) }
    // They stay on it, whichever of them uses more.
    ensures client_uses { (client_config : ClientData) (server_config : ServerData) (suite : S) (decisions : D) (client server new : WireEnd S D) (count : ℕ)
        → AreOnWire S.meaning D.policy client_config server_config suite decisions client server → UsesMore S.meaning D.policy server.sent.items count client new
        → AreOnWire S.meaning D.policy client_config server_config suite decisions new server }
    ensures server_uses { (client_config : ClientData) (server_config : ServerData) (suite : S) (decisions : D) (client server new : WireEnd S D) (count : ℕ)
        → AreOnWire S.meaning D.policy client_config server_config suite decisions client server → UsesMore S.meaning D.policy client.sent.items count server new
        → AreOnWire S.meaning D.policy client_config server_config suite decisions client new }
    // Where they understand each other, each that has ended has the end of the outcome; and where each that is open has used all
    // that the other has sent, both have ended.
    ensures ends { (client_config : ClientData) (server_config : ServerData) (suite : S) (decisions : D) (client server : WireEnd S D)
        → AreCompatible (S.meaning suite) (D.policy decisions) client_config server_config
        → AreOnWire S.meaning D.policy client_config server_config suite decisions client server
        → Headline (outcome (S.meaning suite) (D.policy decisions) client_config server_config) (endpoint_end client.endpoint) (endpoint_end server.endpoint) (HaveUsedAll client server) }
{
    below_law();
    course_receiving_law();
}
