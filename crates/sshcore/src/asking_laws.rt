//! What the layers above may rest on: what endpoints ask, and which decisions give the answers.

ghost use Rattle.std.specs.List.{AllByRecursion};
ghost use Rattle.std.specs.Prelude.{◌≡◌, ◌≢◌, ℕ, false, true, List, [], ◌∷◌, ◌++◌, map, None, Some};
ghost use Rattle.sshcore.specs.declared.end.Fault.TheVariants as fault;
ghost use Rattle.sshcore.specs.Asking.{AskingAfter, IsSameAsking, asked_by, asking_end};
ghost use Rattle.sshcore.specs.AskingBeside.{IsBeside};
ghost use Rattle.sshcore.specs.AskingData.{WaitingData, asking_setup};
ghost use Rattle.sshcore.specs.Authenticated.{IsAuthenticated};
ghost use Rattle.sshcore.specs.Before.{strict_at};
ghost use Rattle.sshcore.specs.Dialogue.{Dialogue};
ghost use Rattle.sshcore.specs.Directions.{payloads_in};
ghost use Rattle.sshcore.specs.EndData.{AgreedData, Authenticated, Disconnected, Failed, Open, by_owner};
ghost use Rattle.sshcore.specs.Endpoints.{EndpointAfter, endpoint_end};
ghost use Rattle.sshcore.specs.StrictClause.{KeepsStrict};
ghost use Rattle.sshcore.specs.StrictSequence.{BeginsStrictly};
ghost use Rattle.sshpacket.specs.Places.{IsPrefix};
ghost use Rattle.sshpacket.specs.Stream.{Units};
ghost use Rattle.sshpacket.specs.Suite.{SuiteData};
ghost use Rattle.sshneg.specs.declared.side.Side.{Side};
ghost use Rattle.sshcore.specs.AskedQuestions.{AnsweredData, ComesLater, GiveAll, IsAskedOnce, IsTaken, asked, question_after, questions_at};
ghost use Rattle.sshcore.specs.EndpointParts.{ConfigData, DecisionsData, Setup, setup_with};
ghost use Rattle.sshcore.specs.QuestionAt.{question_at};
ghost use Rattle.sshcore.specs.Questions.{QuestionData};
ghost use Rattle.sshcore.specs.Standing.{Sits};
ghost use Rattle.sshcore.specs.StateData.{StateData};

use crate::asking_endpoint::AskingEndpoint;
use crate::asking_given::Listener;
use crate::decisions::Decisions;
use crate::endpoint::Endpoint;
use crate::law::{authentication_law, history_law, strict_law};
use sshpacket::Suite;

/// The law of questions: whatever an endpoint received, each question is asked once, so that some decisions give
/// all the answers; and what is asked doesn't depend on the answers (RFC 4253 section 8, RFC 4252 sections 5 and 7).
/// Takes no memory.
pub fn questions_law()
    // A host key is asked at most once, and the numbers of requests rise.
    ensures once { (setup : Setup) (version : List ℕ) (before : Units) → IsAskedOnce (questions_at setup version before) }
    // Whatever was answered to questions that are asked once, some decisions give these answers.
    ensures answers { (answers : List AnsweredData) → IsAskedOnce (map (λ (a : AnsweredData). a.question) answers) → AllByRecursion IsTaken answers → (d : DecisionsData) × GiveAll d answers }
    // What payloads ask is the same under any decisions.
    ensures same { (m : SuiteData) (role : Side) (config : ConfigData) (d e : DecisionsData) (version : List ℕ) (before : Units)
        → questions_at (setup_with m d role config) version before ≡ questions_at (setup_with m e role config) version before }
    // Nothing is asked before the first payload, and with each more what that asks.
    ensures nothing { (setup : Setup) (version : List ℕ) → questions_at setup version [] ≡ [] }
    ensures more { (setup : Setup) (version : List ℕ) (before : Units) (payload : List ℕ)
        → questions_at setup version (before ++ payload ∷ []) ≡ questions_at setup version before ++ asked (question_after setup version before payload) }
    // What a packet asks of an endpoint that stands after these payloads is what it asks after them.
    ensures stands { (setup : Setup) (version : List ℕ) (before : Units) (payload : List ℕ) (old : StateData)
        → Sits setup version before old.phase old.guess old.known
        → question_at setup.suite setup.role setup.config old payload ≡ question_after setup version before payload }
{
    sshmsg::numbers_law();
}

/// The law of asking endpoints: what [`endpoint_law`](crate::endpoint_law) says holds of them under any decisions, those that gave
/// all the answers; and a question that is asked after more was received comes later, so that whoever keeps all answers
/// has decisions that give them, by `answers` of [`questions_law`]. Takes no memory.
pub fn asking_law<S: Suite, L: Listener, M: Listener>(
    one: &AskingEndpoint<'_, S, L>,
    other: &AskingEndpoint<'_, S, M>,
)
    // Two endpoints of one role, config and suite, which wait for no answer, each used a prefix of one input, all of it where it
    // is open; and neither was ended by its owner.
    ensures joined { IsSameAsking one.now other.now → one.now.waiting ≡ None → other.now.waiting ≡ None
        → by_owner (asking_end one.now) ≡ false → by_owner (asking_end other.now) ≡ false
        → (d : DecisionsData) (h g s t x y : List ℕ) → AskingAfter S.meaning d one.now h s → AskingAfter S.meaning d other.now g t
        → h ++ x ≡ g ++ y → (asking_end one.now ≡ Open → x ≡ []) → (asking_end other.now ≡ Open → y ≡ [])
        → (h ≡ g) × (s ≡ t) × (asking_end one.now ≡ asking_end other.now) }
    // The same of what was received before an owner's end.
    ensures joined_received { IsSameAsking one.now other.now → one.now.waiting ≡ None → other.now.waiting ≡ None
        → (d : DecisionsData) (h g s t x y : List ℕ) (a : AskingAfter S.meaning d one.now h s) (b : AskingAfter S.meaning d other.now g t)
        → h ++ x ≡ g ++ y → (a.stands.received_end ≡ Open → x ≡ []) → (b.stands.received_end ≡ Open → y ≡ [])
        → (h ≡ g) × (s ≡ t) × (a.stands.received_end ≡ b.stands.received_end) }
    // What an open endpoint has sent, which may wait, is the front of what one that waits for no answer has sent to more.
    ensures front { IsSameAsking one.now other.now → asking_end one.now ≡ Open → other.now.waiting ≡ None
        → (d : DecisionsData) (h more s t : List ℕ) → AskingAfter S.meaning d one.now h s → AskingAfter S.meaning d other.now (h ++ more) t → IsPrefix s t }
    // Where a packet waits, its question is what its payload asks after those that were received before.
    ensures asks { (d : DecisionsData) (h s : List ℕ) (a : AskingAfter S.meaning d one.now h s) (w : WaitingData) → one.now.waiting ≡ Some w → asking_end one.now ≡ Open
        → (version : List ℕ) × (before : Units) × (a.stands.units ≡ version ∷ before)
        × (question_after (asking_setup S.meaning d one.now) version before w.payload ≡ Some w.question) }
    // After more was received, a question that comes later is asked.
    ensures later { IsSameAsking one.now other.now → (d : DecisionsData) (h more s t : List ℕ) → AskingAfter S.meaning d one.now h s → AskingAfter S.meaning d other.now (h ++ more) t
        → more ≢ [] → (question other_question : QuestionData) → asked_by one.now ≡ Some question → asked_by other.now ≡ Some other_question → ComesLater question other_question }
    // An endpoint stands as what it received left it, or was ended by its owner where that left it open.
    ensures received { (d : DecisionsData) (h s : List ℕ) (a : AskingAfter S.meaning d one.now h s) → by_owner (asking_end one.now) ≡ false → a.stands.received_end ≡ asking_end one.now }
    ensures cut { (d : DecisionsData) (h s : List ℕ) (a : AskingAfter S.meaning d one.now h s) → asking_end one.now ≡ Failed fault.Cut → a.stands.received_end ≡ Open }
    ensures left { (d : DecisionsData) (h s : List ℕ) (a : AskingAfter S.meaning d one.now h s) (reason : ℕ) → asking_end one.now ≡ Disconnected reason → a.stands.received_end ≡ Open }
    // What was received keeps strictness, whoever sent it, and whatever is decided.
    ensures strict { (d : DecisionsData) (h s : List ℕ) (a : AskingAfter S.meaning d one.now h s) → KeepsStrict one.now.role one.now.config a.stands.units a.stands.received_end }
    // By what was received, and by the decisions, the user was accepted, where an endpoint ended authenticated; and one that is
    // strict was given a strict sequence first.
    ensures authenticated { (d : DecisionsData) (h s : List ℕ) (a : AskingAfter S.meaning d one.now h s) (g : AgreedData) → asking_end one.now ≡ Authenticated g
        → IsAuthenticated (asking_setup S.meaning d one.now) a.stands.units g
        × (strict_at one.now.role one.now.config (payloads_in a.stands.units) ≡ true → BeginsStrictly one.now.role one.now.config.offer (payloads_in a.stands.units)) }
{
    sshmsg::numbers_law();
    sshpacket::parser_by_law();
    sshpacket::stream_law();
    history_law();
    strict_law();
    authentication_law();
    one.question();
    other.question();
}

/// The law of an asking endpoint beside one that asks at once: where all its answers are those that the other's decisions give, it
/// uses the same bytes, sends the same and ends the same. Takes no memory.
pub fn beside_law<S: Suite, L: Listener, D: Decisions>(
    asking: &AskingEndpoint<'_, S, L>,
    endpoint: &Endpoint<'_, S, D>,
)
    // Of one role, config and suite, the one waiting for no answer, each used a prefix of one input, all of it where it is open;
    // and neither was ended by its owner.
    ensures joined { IsBeside asking.now endpoint.now → asking.now.waiting ≡ None
        → by_owner (asking_end asking.now) ≡ false → by_owner (endpoint_end endpoint.now) ≡ false
        → (h g s t x y : List ℕ) → AskingAfter S.meaning (D.policy endpoint.now.decisions) asking.now h s → EndpointAfter S.meaning D.policy endpoint.now g t
        → h ++ x ≡ g ++ y → (asking_end asking.now ≡ Open → x ≡ []) → (endpoint_end endpoint.now ≡ Open → y ≡ [])
        → (h ≡ g) × (s ≡ t) × (asking_end asking.now ≡ endpoint_end endpoint.now) }
    // So it is where its caller gave the answers that the other's decisions give.
    ensures answered { IsBeside asking.now endpoint.now → asking.now.waiting ≡ None
        → by_owner (asking_end asking.now) ≡ false → by_owner (endpoint_end endpoint.now) ≡ false
        → (answers : List AnsweredData) (h g s t x y : List ℕ) → Dialogue S.meaning asking.now answers h s → GiveAll (D.policy endpoint.now.decisions) answers
        → EndpointAfter S.meaning D.policy endpoint.now g t
        → h ++ x ≡ g ++ y → (asking_end asking.now ≡ Open → x ≡ []) → (endpoint_end endpoint.now ≡ Open → y ≡ [])
        → (h ≡ g) × (s ≡ t) × (asking_end asking.now ≡ endpoint_end endpoint.now) }
    // What it has sent while it is open, and waits, is the front of what the other has sent to more.
    ensures front { IsBeside asking.now endpoint.now → asking_end asking.now ≡ Open
        → (h more s t : List ℕ) → AskingAfter S.meaning (D.policy endpoint.now.decisions) asking.now h s → EndpointAfter S.meaning D.policy endpoint.now (h ++ more) t → IsPrefix s t }
{
    sshmsg::numbers_law();
    sshpacket::parser_by_law();
    sshpacket::stream_law();
    history_law();
}

/// The law of dialogues: whatever answers an asking endpoint was given, some decisions give them all, and under all decisions that
/// do it has used and sent these bytes, and stands, as one that asks at once. Takes no memory.
pub fn dialogue_law<S: Suite, L: Listener>(endpoint: &AskingEndpoint<'_, S, L>)
    // Each question was asked once.
    ensures once { (answers : List AnsweredData) (h s : List ℕ) → Dialogue S.meaning endpoint.now answers h s → IsAskedOnce (map (λ (a : AnsweredData). a.question) answers) }
    // Some decisions give the answers, and it stands by them.
    ensures some { (answers : List AnsweredData) (h s : List ℕ) → Dialogue S.meaning endpoint.now answers h s
        → (d : DecisionsData) × GiveAll d answers × AskingAfter S.meaning d endpoint.now h s }
    // It stands so by all decisions that give them.
    ensures all { (answers : List AnsweredData) (h s : List ℕ) → Dialogue S.meaning endpoint.now answers h s
        → (d : DecisionsData) → GiveAll d answers → AskingAfter S.meaning d endpoint.now h s }
{
    sshmsg::numbers_law();
    sshpacket::parser_by_law();
    sshpacket::stream_law();
}
