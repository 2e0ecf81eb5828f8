//! What the layers above may rest on: what a choice is, which names of a kex list are methods, that
//! keys are as long as the suite asks for, and that both ends of an exchange make the same keys.

ghost use Rattle.std.specs.Prelude.{◌≡◌, ◌+◌, ◌≤◌, ◌∷◌, ◌++◌, ◌↔◌, ℕ, Bool, Contains, Err, List, Ok, Result, Some, [], codes, false, length, take, true};
ghost use Rattle.sshwire.specs.Types.{AreNames, IsName};
ghost use Rattle.sshmsg.specs.MessageData.{KexInit, KexInitData};
ghost use Rattle.sshmsg.specs.Written.{IsWellFormed, written_message};
ghost use Rattle.sshpacket.specs.Suite.{Agrees, IsLawful, ResponseData, Signs, SuiteData};
ghost use Rattle.sshneg.specs.declared.side.Side.TheVariants.{Client, Server};
ghost use Rattle.sshneg.specs.declared.choice.Chosen.{Chosen};
ghost use Rattle.sshneg.specs.declared.choice.NoCommon.{NoCommon};
ghost use Rattle.sshneg.specs.declared.side.Side.{Side};
ghost use Rattle.sshneg.specs.Choice.{AreFirstMethods, ArePositions, HasChoice, IsChoice, IsFirstWithout, IsKex, ChoiceAnswer, serves};
ghost use Rattle.sshneg.specs.ChoiceLaw.{AreEarliest, AreListed, OfferAlike, OfferSame, StandsAt};
ghost use Rattle.sshneg.specs.ChoiceReadings.{answer, choice, positions};
ghost use Rattle.sshneg.specs.Derivations.{ExchangeData, KeyMaterialData, derived, exchange_size, exchange_text, grown, hash_with, key, signed_text};
ghost use Rattle.sshneg.specs.ExchangeEnd.{HaveOneSource, IsOneExchange, KexEnd, answer_by, choice_at, choice_in, exchange_by, offer_in, source_of_end, source_with};
ghost use Rattle.sshneg.specs.Fields.{AlgorithmsData, list_of, name_of, position_of};
ghost use Rattle.sshneg.specs.Strictness.{is_right_guess, is_strict, marked_list};
ghost use Rattle.sshneg.specs.Markers.{IsRightGuess, IsStrict, first_name, is_marker, methods, other, strict_marker};

use sshpacket::AgreeingSuite;

/// The law of choices (RFC 4253 section 7.1): what the answer of `choose` says, for any two KEXINITs
/// and any suite. `choice` is the choice as a function of what both sides offer, by names.
pub fn choice_law()
    // An answer tells the choice exactly where it is `answer`, which has the positions of the names that `choice` has.
    ensures tells { (m : SuiteData) (client server : KexInitData) (r : Result Chosen NoCommon) → ChoiceAnswer m client server r ↔ (r ≡ answer m client server) }
    ensures answers { (m : SuiteData) (client server : KexInitData) (chosen : Chosen) → (answer m client server ≡ Ok chosen)
        ↔ ((a : AlgorithmsData) × (choice m client server ≡ Ok a) × (chosen ≡ positions client a)) }
    ensures refuses { (m : SuiteData) (client server : KexInitData) (f : NoCommon) → (answer m client server ≡ Err f) ↔ (choice m client server ≡ Err f) }
    // The function answers names exactly where they are a choice in all fields, and a field exactly where it is the first
    // without one.
    ensures names { (m : SuiteData) (client server : KexInitData) (a : AlgorithmsData) → (choice m client server ≡ Ok a) ↔ IsChoice m client server a }
    ensures without { (m : SuiteData) (client server : KexInitData) (f : NoCommon) → (choice m client server ≡ Err f) ↔ IsFirstWithout m client server f }
    // There is at most one method. There is a choice in all fields exactly where each field has one.
    ensures one_kex { (m : SuiteData) (client server : KexInitData) (kex other : List ℕ) → IsKex m client server kex → IsKex m client server other → kex ≡ other }
    ensures exists { (m : SuiteData) (client server : KexInitData) → ((f : NoCommon) → HasChoice m client server f) ↔ ((a : AlgorithmsData) × IsChoice m client server a) }
    // The names stand on both lists. The method is no marker, and the host key algorithm has what it needs.
    ensures listed { (m : SuiteData) (client server : KexInitData) (a : AlgorithmsData) → IsChoice m client server a → AreListed client server a }
    ensures method { (m : SuiteData) (client server : KexInitData) (a : AlgorithmsData) → IsChoice m client server a → is_marker a.kex ≡ false }
    ensures able { (m : SuiteData) (client server : KexInitData) (a : AlgorithmsData) → IsChoice m client server a → serves (m.need a.kex) (m.can a.host_key) ≡ true }
    // No earlier name of the client's could have been used.
    ensures earliest { (m : SuiteData) (client server : KexInitData) (a : AlgorithmsData) (chosen : Chosen) → IsChoice m client server a
        → ArePositions client a chosen → AreEarliest m client server a chosen }
    // The order of the server's names never matters, but for which of its methods is first.
    ensures order { (m : SuiteData) (client server other : KexInitData) → OfferAlike server other → choice m client server ≡ choice m client other }
    // Only the client's algorithms and their order matter of what it offers, no marker and nothing else.
    ensures offered { (m : SuiteData) (client other server : KexInitData) → OfferSame client other → choice m client server ≡ choice m other server }
    // Where both sides' first methods are the same, a choice uses it; so a right guess guesses the method that is used.
    ensures guessed { (m : SuiteData) (client server : KexInitData) (a : AlgorithmsData) → IsRightGuess client server → IsChoice m client server a
        → first_name (methods client.kex_algorithms) ≡ Some a.kex }
    ensures same_first { (m : SuiteData) (client server : KexInitData) (a : AlgorithmsData) (kex : List ℕ) → AreFirstMethods client server kex
        → IsChoice m client server a → a.kex ≡ kex }
    // The positions are those of the first places, and the names stand there.
    ensures placed { (m : SuiteData) (client server : KexInitData) (a : AlgorithmsData) (chosen : Chosen) → IsChoice m client server a
        → ArePositions client a chosen ↔ (chosen ≡ positions client a) }
    ensures stands { (client : KexInitData) (a : AlgorithmsData) (chosen : Chosen) → ArePositions client a chosen
        → (f : NoCommon) → StandsAt (list_of f client) (name_of f a) (position_of f chosen) }
    ensures well { (m : SuiteData) (client server : KexInitData) (a : AlgorithmsData) → IsChoice m client server a
        → (f : NoCommon) → AreNames (list_of f client) → IsName (name_of f a) }
{}

/// The law of markers (RFC 8308 section 2.1, OpenSSH PROTOCOL section 1.10).
#[tactic(auto, using(crate::proofs::ChoiceOrder::marker, crate::proofs::ChoiceOrder::added, crate::proofs::ChoiceOrder::unmarked))]
pub fn markers_law()
    ensures strict { (role : Side) → is_marker (strict_marker role) ≡ true }
    ensures extensions { (is_marker (codes "ext-info-c") ≡ true) × (is_marker (codes "ext-info-s") ≡ true) }
    // The methods of a list are its names that are no markers.
    ensures method { (names : List (List ℕ)) (name : List ℕ) → Contains (methods names) name ↔ (Contains names name × (is_marker name ≡ false)) }
    // A marker changes no method, wherever it is added. Where there is none every name is a method.
    ensures added { (marker : List ℕ) (before after : List (List ℕ)) → is_marker marker ≡ true → methods (before ++ marker ∷ after) ≡ methods (before ++ after) }
    ensures unmarked { (names : List (List ℕ)) → ((name : List ℕ) → Contains names name → is_marker name ≡ false) → methods names ≡ names }
    // Strictness and a right guess are decided by a test of flag, role and offers.
    ensures strictness { (flag : Bool) (role : Side) (peer : KexInitData) → (is_strict flag role peer ≡ true) ↔ IsStrict flag role peer }
    ensures right { (client server : KexInitData) → (is_right_guess client server ≡ true) ↔ IsRightGuess client server }
    // Of two endpoints that put their own marker after methods: the methods are the same, and strictness is both flags.
    ensures own_methods { (flag : Bool) (role : Side) (names : List (List ℕ)) → ((name : List ℕ) → Contains names name → is_marker name ≡ false)
        → methods (marked_list role flag names) ≡ names }
    ensures both_flags { (flag other_flag : Bool) (role : Side) (names : List (List ℕ)) (peer : KexInitData)
        → ((name : List ℕ) → Contains names name → is_marker name ≡ false) → peer.kex_algorithms ≡ marked_list (other role) other_flag names
        → IsStrict flag role peer ↔ ((flag ≡ true) × (other_flag ≡ true)) }
{}

/// The law of derived keys (RFC 4253 sections 7.2 and 8). Each key is as long as the suite asks for,
/// and both ends of an exchange make their keys of the same material.
pub fn derivation_law()
    // The initialisation vector, the encryption key and the integrity key of either direction have the lengths that the suite
    // asks for.
    ensures iv { (m : SuiteData) → IsLawful m → (x : KeyMaterialData) (sender : Side) (cipher mac : List ℕ)
        → length (derived m x sender cipher mac).iv ≡ (m.key_lens cipher mac).iv }
    ensures enc { (m : SuiteData) → IsLawful m → (x : KeyMaterialData) (sender : Side) (cipher mac : List ℕ)
        → length (derived m x sender cipher mac).enc ≡ (m.key_lens cipher mac).enc }
    ensures mac { (m : SuiteData) → IsLawful m → (x : KeyMaterialData) (sender : Side) (cipher mac : List ℕ)
        → length (derived m x sender cipher mac).mac_key ≡ (m.key_lens cipher mac).mac }
    // As few hashes as reach the length give the key.
    ensures hashes { (m : SuiteData) → IsLawful m → (x : KeyMaterialData) (letter len n : ℕ) → n ≤ len
        → len ≤ length (grown m x (hash_with m x (letter ∷ x.session)) n)
        → key m x letter len ≡ take len (grown m x (hash_with m x (letter ∷ x.session)) n) }
    // The two ends of one exchange by a method, whose random bytes agree under it, each make their keys of one and the same
    // source: the client of what it has itself, the server of what it has itself. So what either seals with, by its own source,
    // is what the other unseals with, by its own, in both directions and under every cipher and mac.
    ensures both { (m : SuiteData) (kex : List ℕ) (client server : KexEnd) → Agrees m kex client.random server.random
        → IsOneExchange m kex client server → HaveOneSource m (source_with m Client kex client) (source_with m Server kex server) }
    // The same where each end finds the method itself, in the KEXINIT that it sent and the one that it received.
    ensures ends { (m : SuiteData) (kex : List ℕ) (client server : KexEnd) (a : AlgorithmsData)
        → choice_in m client.kexinit server.kexinit ≡ Ok a → a.kex ≡ kex
        → Agrees m kex client.random server.random → IsOneExchange m kex client server
        → HaveOneSource m (source_of_end m Client client) (source_of_end m Server server) }
{}

/// The law of what both ends of an exchange have (RFC 4253 sections 7.1 and 8), and of the lengths of
/// what they hash and sign (RFC 4253 section 8, RFC 4252 section 7).
pub fn exchange_law()
    // A written KEXINIT offers what it was written for.
    ensures offered { (offer : KexInitData) → IsWellFormed (KexInit offer) → offer_in (written_message (KexInit offer)) ≡ Some offer }
    // So two written KEXINITs have the choice of what they were written for.
    ensures chosen { (m : SuiteData) (client server : KexInitData) → IsWellFormed (KexInit client) → IsWellFormed (KexInit server)
        → choice_in m (written_message (KexInit client)) (written_message (KexInit server)) ≡ choice m client server }
    // Both ends of one exchange make one choice, that of the two KEXINITs as sent.
    ensures choices { (m : SuiteData) (kex : List ℕ) (client server : KexEnd) → IsOneExchange m kex client server
        → (choice_at m Client client ≡ choice_in m client.kexinit server.kexinit)
        × (choice_at m Server server ≡ choice_in m client.kexinit server.kexinit) }
    // Where their random bytes agree under the method, both come to one answer, which is the server's share and the
    // shared secret: the client from the share that it has received, the server from the client's.
    ensures answers { (m : SuiteData) (kex : List ℕ) (client server : KexEnd) → Agrees m kex client.random server.random
        → IsOneExchange m kex client server → (r : ResponseData) × (answer_by Client m kex client.random client.peer_share ≡ Some r)
        × (answer_by Server m kex server.random server.peer_share ≡ Some r) }
    // And both hash the same, whatever the answer is.
    ensures hashed { (m : SuiteData) (kex : List ℕ) (client server : KexEnd) → IsOneExchange m kex client server
        → (r : ResponseData) → exchange_by m Client kex client r ≡ exchange_by m Server kex server r }
    // The input of the exchange hash is as long as its eight parts and the four bytes of each one's length.
    ensures text_length { (x : ExchangeData) → length (exchange_text x) ≡ exchange_size x + 32 }
    // What a publickey request signs is as long as its parts, the five lengths of four bytes each, the message's number, the
    // boolean, and `publickey` with its length.
    ensures signed_length { (session user service algorithm key : List ℕ) → length (signed_text session user service algorithm key)
        ≡ length session + length user + length service + length algorithm + length key + 35 }
{
    sshmsg::written_law();
}

/// What the two ends of a suite whose ends agree come to.
pub fn agreement_law<S: AgreeingSuite>(suite: &S, kex: &str, client: &[u8], server: &[u8])
    requires client { length client.now ≡ 32 }
    requires server { length server.now ≡ 32 }
    // Under every method any random bytes of a client and of a server agree, so both ends of one exchange have one key source.
    ensures agrees { Agrees (S.meaning suite.now) kex.now client.now server.now }
    // Every key signs.
    ensures signs { (alg secret : List ℕ) → Signs (S.meaning suite.now) alg secret }
    // A client that reads the share of the server's answer has the same answer: that share, and the same shared secret.
    ensures one { (r : ResponseData) → (S.meaning suite.now).respond kex.now server.now ((S.meaning suite.now).share kex.now client.now) ≡ Some r
        → answer_by Client (S.meaning suite.now) kex.now client.now r.share ≡ Some r }
{}
