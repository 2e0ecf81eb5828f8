//! The law of the headline.

ghost use Rattle.std.specs.Prelude.{◌≡◌, ◌≢◌, ◌↔◌, ◌+◌, ◌<◌, ◌≤◌, ℕ, [], ◌∷◌, None, length};
ghost use Rattle.sshneg.specs.declared.side.Side.TheVariants as role;
ghost use Rattle.sshpacket.specs.Places.{IsPrefix};
ghost use Rattle.sshpacket.specs.Suite.{SuiteData};
ghost use Rattle.sshcore.specs.ConfigParts.{ClientData, ServerData, version_of};
ghost use Rattle.sshcore.specs.EndData.{AgreedData, Authenticated, EndData, Open};
ghost use Rattle.sshcore.specs.EndpointParts.{DecisionsData, client_setup, config_of_client, config_of_server, server_setup};
ghost use Rattle.sshcore.specs.Replies.{Replies};
ghost use Rattle.sshcore.specs.Work.{making};
ghost use Rattle.sshworld.specs.Course.{Part, sent_after};
ghost use Rattle.sshworld.specs.Follows.{BothKeep, IsInPart, part_of_client};
ghost use Rattle.sshworld.specs.Headline.{AreInCourse, EndAs, HaveReceivedAll, Told};
ghost use Rattle.sshworld.specs.Offered.{most_requests};
ghost use Rattle.sshworld.specs.Outcome.{outcome};
ghost use Rattle.sshworld.specs.Rounds.{groups_sent};
ghost use Rattle.sshworld.specs.Wording.{Wording};

/// The law of the headline: two sides in their course end as the outcome of their configs gives, and
/// where each has received all, both have ended. Takes no memory.
#[tactic(auto)]
pub fn headline_law()
    // Where each side stands in its part whatever it received of the other's, two sides are in their course when they
    // are made.
    ensures begins { (m : SuiteData) (d : DecisionsData) (client : ClientData) (server : ServerData) (w : Wording) → BothKeep m d client server w
        → AreInCourse m d client server w (record { units = []; answers = making m role.Client (config_of_client client); end = Open })
        (record { units = []; answers = making m role.Server (config_of_server server); end = Open }) }
    // They stay in it when the client receives more of what the server has sent, and when the server receives more of
    // the client's.
    ensures client_receives { (m : SuiteData) (d : DecisionsData) (client : ClientData) (server : ServerData) (w : Wording) (of_client of_server new : Told)
        → BothKeep m d client server w → AreInCourse m d client server w of_client of_server
        → IsPrefix of_client.units new.units → IsPrefix new.units (version_of server.side ∷ of_server.answers)
        → Replies (client_setup m d client) new.units None new.answers new.end → AreInCourse m d client server w new of_server }
    ensures server_receives { (m : SuiteData) (d : DecisionsData) (client : ClientData) (server : ServerData) (w : Wording) (of_client of_server new : Told)
        → BothKeep m d client server w → AreInCourse m d client server w of_client of_server
        → IsPrefix of_server.units new.units → IsPrefix new.units (version_of client.side ∷ of_client.answers)
        → Replies (server_setup m d server) new.units None new.answers new.end → AreInCourse m d client server w of_client new }
    // A side in its part that has ended has received and sent all that its part has.
    ensures all { (part : Part) (told : Told) → IsInPart part told.units told.answers told.end → told.end ≢ Open
        → (length told.units ≡ part.receives) × (told.answers ≡ sent_after part part.receives) }
    // Each of two sides in their course that has ended has the end of the outcome.
    ensures ends { (m : SuiteData) (d : DecisionsData) (client : ClientData) (server : ServerData) (w : Wording) (of_client of_server : Told)
        → AreInCourse m d client server w of_client of_server → EndAs (outcome m d client server) of_client.end of_server.end }
    // Where each that is open has received all that the other has sent, neither is open.
    ensures ended { (m : SuiteData) (d : DecisionsData) (client : ClientData) (server : ServerData) (w : Wording) (of_client of_server : Told)
        → AreInCourse m d client server w of_client of_server → HaveReceivedAll client server of_client of_server → (of_client.end ≢ Open) × (of_server.end ≢ Open) }
    // By the outcome the client is authenticated exactly if the server is, and what they agreed on is the same.
    ensures one { (m : SuiteData) (d : DecisionsData) (client : ClientData) (server : ServerData) (a : AgreedData)
        → ((outcome m d client server).client ≡ Authenticated a) ↔ ((outcome m d client server).server ≡ Authenticated a) }
    ensures both { (m : SuiteData) (d : DecisionsData) (client : ClientData) (server : ServerData) (client_end server_end : EndData) (a : AgreedData)
        → EndAs (outcome m d client server) client_end server_end → client_end ≢ Open → server_end ≢ Open
        → (client_end ≡ Authenticated a) ↔ (server_end ≡ Authenticated a) }
    // A side in its part that has sent more payloads than before has sent something in more groups.
    ensures groups { (part : Part) (old new : Told) → IsInPart part old.units old.answers old.end → IsInPart part new.units new.answers new.end
        → length old.answers < length new.answers → groups_sent part.group (length old.units) < groups_sent part.group (length new.units) }
    // A client sends something in few groups after its first.
    ensures few { (m : SuiteData) (d : DecisionsData) (client : ClientData) (server : ServerData) (w : Wording) (told : Told)
        → IsInPart (part_of_client m d client server w) told.units told.answers told.end
        → groups_sent (part_of_client m d client server w).group (length told.units) ≤ most_requests client.plan + 3 }
{}
