//! The law of sessions.

ghost use Rattle.std.specs.Prelude.{◌≡◌, ℕ, List, take};
ghost use Rattle.sshcore.specs.declared.session.Session.{Session};
ghost use Rattle.sshcore.specs.ConfigParts.{ClientData, ServerData};
ghost use Rattle.sshcore.specs.ConfigRules.{IsClient, IsServer};
ghost use Rattle.sshcore.specs.EndData.{AgreedData, Authenticated};
ghost use Rattle.sshcore.specs.EndpointData.{EndpointData, endpoint_setup};
ghost use Rattle.sshcore.specs.Endpoints.{endpoint_end};
ghost use Rattle.sshcore.specs.Sessions.{IsSession};
ghost use Rattle.sshworld.specs.Conversed.{EachReplies};
ghost use Rattle.sshworld.specs.Joined.{AreCrosswise, AreJoined};
ghost use Rattle.sshworld.specs.Compatible.{AreCompatible};
ghost use Rattle.sshworld.specs.Worlds.{WorldData};

use crate::link_laws::{below_law, course_receiving_law};
use sshcore::Decisions;
use sshpacket::Suite;

/// The law of sessions: of two endpoints that are joined and understand each other, and that both ended
/// authenticated, each has received all that the other has sent, and what they hand over matches
/// crosswise. Takes no memory.
pub fn session_law<S: Suite, D: Decisions>()
    // Each has received all that the other has sent, and both agreed on the same.
    ensures received { (client_config : ClientData) (server_config : ServerData) (client server : EndpointData S D) (client_received client_sent server_received server_sent : List ℕ)
        → IsClient client_config → IsServer server_config → AreCompatible (S.meaning client.suite) (D.policy client.decisions) client_config server_config
        → AreJoined S.meaning D.policy client_config server_config client server client_received client_sent server_received server_sent
        → (a b : AgreedData) → endpoint_end client ≡ Authenticated a → endpoint_end server ≡ Authenticated b
        → (client_received ≡ server_sent) × (server_received ≡ client_sent) × (a ≡ b) }
    // The sessions of what both have received and sent match crosswise.
    ensures crosswise { (client_config : ClientData) (server_config : ServerData) (client server : EndpointData S D) (client_received client_sent server_received server_sent : List ℕ)
        → IsClient client_config → IsServer server_config → AreCompatible (S.meaning client.suite) (D.policy client.decisions) client_config server_config
        → (j : AreJoined S.meaning D.policy client_config server_config client server client_received client_sent server_received server_sent)
        → (a b : AgreedData) → endpoint_end client ≡ Authenticated a → endpoint_end server ≡ Authenticated b
        → (one other : Session) → IsSession (endpoint_setup S.meaning D.policy client) j.client_after.units j.client_after.answers j.client_after.sizes a one
        → IsSession (endpoint_setup S.meaning D.policy server) j.server_after.units j.server_after.answers j.server_after.sizes b other → AreCrosswise one other }
    // The two endpoints of a world that ended authenticated are joined so.
    ensures worlds { (w : WorldData S D) (a b : AgreedData) → EachReplies S.meaning D.policy w → w.client.end ≡ Authenticated a → w.server.end ≡ Authenticated b
        → (client : EndpointData S D) × (server : EndpointData S D) × (endpoint_end client ≡ w.client.end) × (endpoint_end server ≡ w.server.end) × (client.suite ≡ w.suite) × (client.decisions ≡ w.decisions)
        × AreJoined S.meaning D.policy w.client_config w.server_config client server (take w.client.used w.server.sent) w.client.sent (take w.server.used w.client.sent) w.server.sent }
{
    below_law();
    course_receiving_law();
    sshmsg::numbers_law();
    sshneg::markers_law();
}
