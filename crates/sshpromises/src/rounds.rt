//! How many rounds are enough for two endpoints whose bytes a caller carries itself.

ghost use Rattle.std.specs.Prelude.{◌≤◌, ◌+◌, ℕ};
ghost use Rattle.sshcore.specs.ConfigParts.{ClientData, ServerData};
ghost use Rattle.sshworld.specs.Compatible.{AreCompatible};
ghost use Rattle.sshworld.specs.Offered.{most_requests};
ghost use Rattle.sshworld.specs.Wire.{AreOnWire, HaveUsedAll, WireEnd};
ghost use Rattle.sshpromises.specs.Claims.{RoundsByHand};

use sshcore::Decisions;
use sshpacket::Suite;
use sshworld::{follows_law, keeps_law};

/// The law of rounds: from wherever two endpoints stand on a wire that understand each other, four rounds more than the
/// client's plan has requests at the most use all that either sends. Takes no memory.
pub fn rounds_law<S: Suite, D: Decisions>()
    ensures { (client_config : ClientData) (server_config : ServerData) (suite : S) (decisions : D) (old_client old_server client server : WireEnd S D) (rounds : ℕ)
        → AreCompatible (S.meaning suite) (D.policy decisions) client_config server_config
        → AreOnWire S.meaning D.policy client_config server_config suite decisions old_client old_server
        → RoundsByHand S.meaning D.policy rounds old_client old_server client server → most_requests client_config.plan + 4 ≤ rounds → HaveUsedAll client server }
{
    sshpacket::writing_law();
    sshpacket::parser_by_law();
    sshpacket::stream_law();
    sshcore::history_law();
    follows_law();
    keeps_law();
}
