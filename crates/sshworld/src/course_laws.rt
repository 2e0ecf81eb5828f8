//! The law of courses.

ghost use Rattle.std.specs.Prelude.{◌≡◌, ◌+◌, ◌≤◌, ℕ, List, false, length};
ghost use Rattle.std.specs.List.{AllByRecursion};
ghost use Rattle.sshpacket.specs.Suite.{SuiteData};
ghost use Rattle.sshcore.specs.ConfigParts.{AttemptData, ClientData, ServerData};
ghost use Rattle.sshcore.specs.EndpointParts.{DecisionsData};
ghost use Rattle.sshcore.specs.Plan.{asks};
ghost use Rattle.sshworld.specs.Course.{Way, client_part, server_part, way_of};
ghost use Rattle.sshworld.specs.Follows.{BothFollow, BothKeep};
ghost use Rattle.sshworld.specs.Guesses.{Guess, guess_of};
ghost use Rattle.sshworld.specs.Offered.{most_requests, offered};
ghost use Rattle.sshworld.specs.Outcome.{BothEnds, outcome};
ghost use Rattle.sshworld.specs.Rounds.{Fit, IsCourse, after_rounds, all_received, groups_sent, requests_of};
ghost use Rattle.sshworld.specs.VerdictLaw.{IsCounted};
ghost use Rattle.sshworld.specs.Verdicts.{verdict};
ghost use Rattle.sshworld.specs.Wording.{Wording};

/// The law of courses: the two parts of a course fit, so neither side ever waits for the other, and
/// few rounds are enough for both to end. Takes no memory.
#[tactic(auto, using(crate::proofs::FitLemmas::fits, crate::proofs::CourseLaws::of_outcome, crate::proofs::GroupsSentLemmas::groups, crate::proofs::GroupsSentLemmas::bound, crate::proofs::CountLemmas::counted_offered, crate::proofs::CourseLaws::few_of_way, crate::proofs::CourseLaws::few_groups, crate::proofs::CourseLaws::few_rounds, crate::proofs::CountLemmas::most_twice, crate::proofs::CountLemmas::most_once))]
pub fn course_law()
    // Whatever the payloads, the guess, the way and the ends are, the two parts fit.
    ensures fit { (w : Wording) (guess : Guess) (way : Way) (ends : BothEnds) → Fit (client_part w guess way ends) (server_part w guess way ends) }
    // After its first group a client sends something in so many groups as there are requests, and in three more at most.
    ensures groups { (w : Wording) (guess : Guess) (way : Way) (ends : BothEnds)
        → groups_sent (client_part w guess way ends).group (client_part w guess way ends).receives ≤ requests_of way + 3 }
    // After four rounds more than there are requests each side has received all that it receives.
    ensures rounds { (w : Wording) (guess : Guess) (way : Way) (ends : BothEnds) (r : ℕ) → requests_of way + 4 ≤ r
        → after_rounds (client_part w guess way ends) (server_part w guess way ends) r ≡ all_received (client_part w guess way ends) (server_part w guess way ends) }
    // Of two configs the parts are a course, and no part ends open.
    ensures course { (m : SuiteData) (d : DecisionsData) (client : ClientData) (server : ServerData) (w : Wording)
        → IsCourse (client_part w (guess_of client server) (way_of m d client server) (outcome m d client server))
        (server_part w (guess_of client server) (way_of m d client server) (outcome m d client server)) }
    // The verdict counts the requests that are made of those that are offered.
    ensures counted { (m : SuiteData) (d : DecisionsData) (client : ClientData) (server : ServerData)
        → IsCounted (length (offered m d server client.plan)) (verdict m d client server) }
    // So a course has no more requests than the attempts of the plan have, and the bounds hold of these: two of an attempt that asks
    // first, one of any other.
    ensures twice { (plan : List AttemptData) → most_requests plan ≤ length plan + length plan }
    ensures once { (plan : List AttemptData) → AllByRecursion (λ (attempt : AttemptData). asks attempt.proving ≡ false) plan → most_requests plan ≡ length plan }
    ensures requests { (m : SuiteData) (d : DecisionsData) (client : ClientData) (server : ServerData) → requests_of (way_of m d client server) ≤ most_requests client.plan }
    ensures attempts { (m : SuiteData) (d : DecisionsData) (client : ClientData) (server : ServerData) (w : Wording) (guess : Guess) (ends : BothEnds)
        → groups_sent (client_part w guess (way_of m d client server) ends).group (client_part w guess (way_of m d client server) ends).receives ≤ most_requests client.plan + 3 }
    ensures settled { (m : SuiteData) (d : DecisionsData) (client : ClientData) (server : ServerData) (w : Wording) (guess : Guess) (ends : BothEnds) (r : ℕ)
        → most_requests client.plan + 4 ≤ r
        → after_rounds (client_part w guess (way_of m d client server) ends) (server_part w guess (way_of m d client server) ends) r
        ≡ all_received (client_part w guess (way_of m d client server) ends) (server_part w guess (way_of m d client server) ends) }
    // An endpoint that answers and stands as its part has it, at each place of what the other sends, has sent what its
    // part has it send, and is open until it has received all that it receives.
    ensures keeps { (m : SuiteData) (d : DecisionsData) (client : ClientData) (server : ServerData) (w : Wording)
        → BothFollow m d client server w → BothKeep m d client server w }
{}
