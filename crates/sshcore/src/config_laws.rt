//! What the layers above may rest on: what is true of each accepted config.

ghost use Rattle.std.specs.Prelude.{◌+◌, ◌≤◌, Contains, length};
ghost use Rattle.sshwire.specs.declared.limits.TheConstants.{PAYLOAD_LIMIT};
ghost use Rattle.sshmsg.specs.MessageData.{KexInit};
ghost use Rattle.sshmsg.specs.Written.{IsOffer, written_message};
ghost use Rattle.sshneg.specs.declared.side.Side.{Side};
ghost use Rattle.sshneg.specs.Markers.{strict_marker};
ghost use Rattle.sshcore.specs.declared.config_parts.TheConstants.{LIST_LIMIT};
ghost use Rattle.sshcore.specs.ConfigParts.{ClientData, ServerData, client_offer, server_offer};
ghost use Rattle.sshcore.specs.declared.config_draws.Draws.{Draws};
ghost use Rattle.sshcore.specs.ConfigRules.{FitsKexInit, IsClient, IsServer};
ghost use Rattle.sshcore.specs.Redrawn.{AreDraws, redrawn_client, redrawn_server};

use crate::config_draws::Draws;
use crate::config_version::bytes_law;

/// The law of configs: the KEXINIT of an accepted config is well-formed and fits a payload, no marker of
/// strictness stands in the kex list that is configured, and a config is accepted with any draws. Takes no
/// memory.
pub fn config_law()
    ensures client_offer { (client : ClientData) → IsClient client → IsOffer (client_offer client) }
    ensures server_offer { (server : ServerData) → IsServer server → IsOffer (server_offer server) }
    ensures client_fits { (client : ClientData) → IsClient client → length (written_message (KexInit (client_offer client))) ≤ PAYLOAD_LIMIT }
    ensures server_fits { (server : ServerData) → IsServer server → length (written_message (KexInit (server_offer server))) ≤ PAYLOAD_LIMIT }
    ensures client_unmarked { (client : ClientData) → IsClient client → (role : Side) → Contains client.side.kex_algorithms (strict_marker role) → ⊥ }
    ensures server_unmarked { (server : ServerData) → IsServer server → (role : Side) → Contains server.side.kex_algorithms (strict_marker role) → ⊥ }

    // Lists have so few names that they fit the fields of a KEXINIT.
    ensures client_few { (client : ClientData) → IsClient client → FitsKexInit client.side × (length client.host_key_algorithms ≤ LIST_LIMIT + 1) }
    ensures server_few { (server : ServerData) → IsServer server → FitsKexInit server.side × (length server.host_keys ≤ LIST_LIMIT + 1) }

    // A config that is accepted is so with any draws.
    ensures client_redrawn { (draws : Draws) (client : ClientData) → AreDraws draws → IsClient client → IsClient (redrawn_client draws client) }
    ensures server_redrawn { (draws : Draws) (server : ServerData) → AreDraws draws → IsServer server → IsServer (redrawn_server draws server) }
{
    sshwire::names_law();
    sshmsg::lengths_law();
}

/// The law of draws: they have their lengths, and are bytes. Takes no memory.
pub fn draws_law(draws: &Draws)
    ensures { AreDraws draws.now }
{
    bytes_law(&draws.cookie);
    bytes_law(&draws.exchange_random);
    bytes_law(&draws.padding_seed);
}
