//! What the layers above may rest on.

ghost use Rattle.std.specs.Prelude.{◌≡◌, ◌↔◌, [], List, Option};
ghost use Rattle.sshpacket.specs.Suite.{SuiteData};
ghost use Rattle.sshcore.specs.ConfigParts.{AttemptData, ClientData, ServerData};
ghost use Rattle.sshcore.specs.EndpointParts.{DecisionsData};
ghost use Rattle.sshworld.specs.Offered.{offered};
ghost use Rattle.sshworld.specs.VerdictLaw.{IsVerdict};
ghost use Rattle.sshworld.specs.Verdicts.{How, Verdict, ends_by, verdict, verdict_after};

/// The law of verdicts: a verdict tells the least request that ends authentication, and how it does;
/// or that none does. Takes no memory.
#[tactic(auto, using(crate::proofs::VerdictLemmas::is_verdict))]
pub fn verdict_law()
    // The function has the verdict, and there is no other.
    ensures is { (ends : List AttemptData → AttemptData → Option How) (requests : List AttemptData) → IsVerdict ends requests (verdict_after ends [] requests) }
    ensures only { (ends : List AttemptData → AttemptData → Option How) (requests : List AttemptData) (v : Verdict) → IsVerdict ends requests v → v ≡ verdict_after ends [] requests }
    // So it is of what a client offers to a server.
    ensures offered { (m : SuiteData) (d : DecisionsData) (client : ClientData) (server : ServerData) (v : Verdict)
        → IsVerdict (ends_by m d server) (offered m d server client.plan) v ↔ (v ≡ verdict m d client server) }
{}
