//! The law of following a course.

ghost use Rattle.std.specs.Prelude.{◌≡◌, ◌⊎◌, true};
ghost use Rattle.sshneg.specs.declared.side.Side.TheVariants.{Client, Server};
ghost use Rattle.sshpacket.specs.Suite.{IsAgreeing, IsLawful, SuiteData};
ghost use Rattle.sshcore.specs.ConfigParts.{ClientData, ServerData};
ghost use Rattle.sshcore.specs.ConfigRules.{IsClient, IsServer};
ghost use Rattle.sshcore.specs.Counting.{switched_out};
ghost use Rattle.sshcore.specs.EndpointParts.{DecisionsData, config_of_client, config_of_server};
ghost use Rattle.sshworld.specs.Follows.{BothFollow, BothKeep};
ghost use Rattle.sshworld.specs.Placed.{BothInPlace, HaveSameKeys, sent_by_client, sent_by_server};
ghost use Rattle.sshworld.specs.Compatible.{AreCompatible};
ghost use Rattle.sshworld.specs.Wordings.{wording_of};

use crate::course_laws::course_law;

/// The law of following: of two accepted configs whose ends understand each other, each side replies to
/// all that the other sends in their course as its own part of the course has it. Takes no memory.
pub fn follows_law()
    ensures follows { (m : SuiteData) (d : DecisionsData) (client : ClientData) (server : ServerData) → IsLawful m → AreCompatible m d client server
        → IsClient client → IsServer server → BothFollow m d client server (wording_of m d client server) }
    // All that either side sends is in its place where the other receives it.
    ensures places { (m : SuiteData) (d : DecisionsData) (client : ClientData) (server : ServerData) → IsLawful m → AreCompatible m d client server
        → IsClient client → IsServer server → BothInPlace m d client server }
    // Where either sends NEWKEYS at all, both come to the same keys, and are strict alike.
    ensures keys { (m : SuiteData) (d : DecisionsData) (client : ClientData) (server : ServerData) → IsLawful m → AreCompatible m d client server
        → IsClient client → IsServer server → (switched_out (sent_by_client m d client server) ≡ true) ⊎ (switched_out (sent_by_server m d client server) ≡ true)
        → HaveSameKeys m Client Server (config_of_client client) (config_of_server server) (sent_by_client m d client server) (sent_by_server m d client server) }
    // A suite of which all ends agree, and which holds all keys and signs by them, lets any two understand each other.
    ensures compatible { (m : SuiteData) (d : DecisionsData) (client : ClientData) (server : ServerData) → IsAgreeing m
        → IsClient client → IsServer server → AreCompatible m d client server }
{
    sshmsg::written_law();
    sshpacket::shares_law();
    sshcore::config_law();
}

/// The law of keeping to a course: of two accepted configs whose ends understand each other, each side
/// stands in its part, whatever prefix it has received of what the other sends. Takes no memory.
pub fn keeps_law()
    ensures keeps { (m : SuiteData) (d : DecisionsData) (client : ClientData) (server : ServerData) → IsLawful m → AreCompatible m d client server
        → IsClient client → IsServer server → BothKeep m d client server (wording_of m d client server) }
{
    follows_law();
    course_law();
}
