//! What worlds and the law of sessions rest on.

ghost use Rattle.sshpacket.specs.Suite.{IsLawful, SuiteData};
ghost use Rattle.sshcore.specs.ConfigParts.{ClientData, ServerData};
ghost use Rattle.sshcore.specs.ConfigRules.{IsClient, IsServer};
ghost use Rattle.sshcore.specs.EndpointParts.{DecisionsData};
ghost use Rattle.sshworld.specs.CourseReceived.{BothReceive};
ghost use Rattle.sshworld.specs.Laws.{Laws};
ghost use Rattle.sshworld.specs.Compatible.{AreCompatible};
ghost use Rattle.sshworld.specs.Wordings.{wording_of};

use crate::following::{follows_law, keeps_law};

/// What the crates below publish on which worlds and the law of sessions rest. Takes no memory.
pub(crate) fn below_law()
    ensures laws { Laws }
{
    sshpacket::writing_law();
    sshpacket::parser_by_law();
    sshpacket::stream_law();
    sshcore::history_law();
}

/// The law of receiving: of two accepted configs whose ends understand each other, each receives all
/// that the other sends in their course. Takes no memory.
pub(crate) fn course_receiving_law()
    ensures receive { (m : SuiteData) (d : DecisionsData) (client : ClientData) (server : ServerData) → IsLawful m → AreCompatible m d client server
        → IsClient client → IsServer server → BothReceive m d client server (wording_of m d client server) }
{
    follows_law();
    keeps_law();
}
