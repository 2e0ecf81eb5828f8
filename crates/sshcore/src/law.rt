//! What the layers above may rest on.

ghost use Rattle.std.specs.Prelude.{◌≡◌, ◌⊎◌, ℕ, ◌+◌, ◌<◌, ◌≤◌, ◌%◌, ◌^◌, ◌==◌, Bool, true, false, if◌then◌else◌, List, [], ◌∷◌, ◌++◌, length, take, Option, None, Some};
ghost use Rattle.std.specs.List.{AllByRecursion};
ghost use Rattle.sshwire.specs.declared.share_form.ShareForm.{ShareForm};
ghost use Rattle.sshmsg.specs.declared.numbers.TheConstants.{SSH_MSG_DISCONNECT, SSH_MSG_NEWKEYS, SSH_MSG_USERAUTH_REQUEST};
ghost use Rattle.sshmsg.specs.MessageData.{KexInitData};
ghost use Rattle.sshmsg.specs.Numbers.{message_number};
ghost use Rattle.sshpacket.specs.Parse.{Refusal, refused, unfinished, whole};
ghost use Rattle.sshpacket.specs.Places.{IsPrefix, flat_places};
ghost use Rattle.sshpacket.specs.Stream.{IsIncremental, Sent, Units};
ghost use Rattle.sshpacket.specs.Suite.{SuiteData};
ghost use Rattle.sshneg.specs.declared.side.Side.{Side};
ghost use Rattle.sshneg.specs.declared.side.Side.TheVariants.{Server};
ghost use Rattle.sshneg.specs.ExchangeEnd.{offer_in};
ghost use Rattle.sshcore.specs.declared.phase_table.Disposition.TheVariants as disposition;
ghost use Rattle.sshcore.specs.declared.phase_table.Phase.{Phase};
ghost use Rattle.sshcore.specs.declared.phase_table.Phase.TheVariants as phase;
ghost use Rattle.sshcore.specs.Authenticated.{IsAuthenticated};
ghost use Rattle.sshcore.specs.Before.{count_kept, kept, wrong_guess};
ghost use Rattle.sshcore.specs.Counting.{number_in, number_out, switched_out};
ghost use Rattle.sshcore.specs.Directions.{parsers, payloads_in, spells};
ghost use Rattle.sshcore.specs.EndData.{AgreedData, Authenticated, EndData, Failed, Open, disconnect};
ghost use Rattle.sshcore.specs.Exchange.{keys_at, keys_by};
ghost use Rattle.sshcore.specs.History.{AllFit, BrokenOff, History, IsOneHistory, IsReady};
ghost use Rattle.sshcore.specs.KnownBefore.{Known};
ghost use Rattle.sshcore.specs.EndpointParts.{ConfigData, DecisionsData, Setup, setup_with};
ghost use Rattle.sshcore.specs.Phases.{leaving, next_phase, past_exchange, past_newkeys};
ghost use Rattle.sshcore.specs.Plan.{is_waiting};
ghost use Rattle.sshcore.specs.ConfigRules.{IsListed};
ghost use Rattle.sshcore.specs.CompletedMethods.{IsRun, Tried, are_completed, completed_after, completed_after_one, is_complete, none_completed, run_of};
ghost use Rattle.sshcore.specs.Replies.{Ends, StaysOpen, answers_at, disposition_reply, end_at, fault_of, reply_at};
ghost use Rattle.sshcore.specs.Standing.{LeavesNone, Sits, after_exchange, after_offer, after_payload, exchange_received, nothing_known};
ghost use Rattle.sshcore.specs.StrictClause.{KeepsStrict};
ghost use Rattle.sshcore.specs.Table.{disposition_by};
ghost use Rattle.sshcore.specs.Work.{making};

/// The law of strictness (OpenSSH PROTOCOL section 1.10): an endpoint that received these units and
/// ended so, or stands open, keeps it, whoever sent them.
pub fn strict_law()
    ensures keeps { (setup : Setup) (units : Units) (refusal : Option Refusal) (end : EndData)
        → Ends setup units refusal end → KeepsStrict setup.role setup.config units end }
{
    sshmsg::numbers_law();
    sshneg::markers_law();
}

/// The law of authentication: an endpoint that ends authenticated has received its last payload in phase
/// auth, and agreed on what the payloads before have given. At a server that was a request for a
/// service that it has, and successful; at a client the answer to the attempt that it made last.
pub fn authentication_law()
    ensures authenticated { (setup : Setup) (units : Units) (refusal : Option Refusal) (a : AgreedData)
        → Ends setup units refusal (Authenticated a) → IsAuthenticated setup units a }
    // While a server stays open, fewer requests stood than it grants, so the number of the next one is among those that it grants.
    ensures granted { (m : SuiteData) (d : DecisionsData) (config : ConfigData) (version : List ℕ) (before : Units) → 1 ≤ config.tries
        → StaysOpen (setup_with m d Server config) (version ∷ before) → count_kept Server config.offer SSH_MSG_USERAUTH_REQUEST before < config.tries }
{
    sshmsg::numbers_law();
    sshneg::markers_law();
}

/// The law of required methods: what a server keeps of the methods that are completed tells which of them
/// were completed in the unbroken run of requests for one user and one service (RFC 4252 section 5.1).
pub fn completed_methods_law()
    // The run, and no other.
    ensures run { (user service : List ℕ) (tried : List Tried) → IsRun user service tried (run_of user service tried) }
    ensures only { (user service : List ℕ) (tried run : List Tried) → IsRun user service tried run → run ≡ run_of user service tried }
    // After a successful request all required methods are completed exactly if requests of its run were successful for
    // them all.
    ensures kept { (tried : List Tried) (t : Tried) (successful : List ℕ) (required : List (List ℕ)) → t.successful ≡ Some successful → AllByRecursion IsListed required
        → is_complete required (completed_after_one (completed_after none_completed tried) t) ≡ are_completed required t.user t.service (tried ++ t ∷ []) }
{}

/// The law of standing: where an endpoint stands between two payloads, what the next one brings there,
/// and where it stands after it.
pub fn standing_law()
    // Before anything but the peer's version line was received.
    ensures begins { (setup : Setup) (version : List ℕ) → Sits setup version [] phase.KexInit false (nothing_known setup.config version) }
    // What a payload brings is what its line of the phase table says.
    ensures replies { (setup : Setup) (version : List ℕ) (before : Units) (payload : List ℕ) (p : Phase) (guess : Bool) (known : Known)
        → Sits setup version before p guess known → reply_at setup version before payload
        ≡ disposition_reply setup known (number_in setup.role setup.config before) (disposition_by setup.role p known.strict guess (is_waiting known.left) (message_number payload)) payload }

    // After the peer's KEXINIT; after the packet of a wrong guess; after the exchange message; after every other message that
    // leaves a phase; and after one that leaves none.
    ensures offers { (setup : Setup) (version : List ℕ) (before : Units) (payload : List ℕ) (peer : KexInitData) (known : Known)
        → Sits setup version before phase.KexInit false known → offer_in payload ≡ Some peer
        → Sits setup version (before ++ payload ∷ []) phase.Exchange (wrong_guess setup.role setup.config.offer (Some peer)) (after_offer setup.suite setup.role setup.config known payload peer) }
    ensures drops { (setup : Setup) (version : List ℕ) (before : Units) (payload : List ℕ) (p : Phase) (known : Known)
        → Sits setup version before p true known → (message_number payload == SSH_MSG_DISCONNECT) ≡ false
        → Sits setup version (before ++ payload ∷ []) p false (record known { first = false }) }
    ensures exchanges { (setup : Setup) (version : List ℕ) (before : Units) (payload : List ℕ) (known : Known)
        → Sits setup version before phase.Exchange false known → message_number payload ≡ leaving setup.role phase.Exchange
        → Sits setup version (before ++ payload ∷ []) phase.NewKeys false (after_exchange setup.suite setup.role setup.config known payload) }
    ensures leaves { (setup : Setup) (version : List ℕ) (before : Units) (payload : List ℕ) (p : Phase) (known : Known)
        → Sits setup version before p false known → past_exchange p ≡ true → message_number payload ≡ leaving setup.role p
        → Sits setup version (before ++ payload ∷ []) (next_phase p) false (after_payload setup.suite setup.decisions setup.config known payload) }
    ensures stays { (setup : Setup) (version : List ℕ) (before : Units) (payload : List ℕ) (p : Phase) (known : Known)
        → Sits setup version before p false known → LeavesNone setup.role (message_number payload)
        → Sits setup version (before ++ payload ∷ []) p false (after_payload setup.suite setup.decisions setup.config known payload) }

    // A number that is read or unknown where no guess is due, and neither closes nor leaves the phase, leaves none.
    ensures quiet { (role : Side) (p : Phase) (strict waits : Bool) (n : ℕ) → (n == SSH_MSG_DISCONNECT) ≡ false → (n == leaving role p) ≡ false
        → (disposition_by role p strict false waits n ≡ disposition.Reads) ⊎ (disposition_by role p strict false waits n ≡ disposition.Unknown) → LeavesNone role n }

    // Before a choice nothing depends on the form of shares.
    ensures formless { (setup : Setup) (known : Known) (packet : ℕ) (payload : List ℕ) (form : ShareForm)
        → disposition_reply setup (record known { shares = form }) packet (disposition_by setup.role phase.KexInit known.strict false (is_waiting known.left) (message_number payload)) payload
        ≡ disposition_reply setup known packet (disposition_by setup.role phase.KexInit known.strict false (is_waiting known.left) (message_number payload)) payload }

    // The keys with which both directions begin come of the exchange message, and stay.
    ensures makes_keys { (setup : Setup) (version : List ℕ) (before : Units) (payload : List ℕ) (known : Known)
        → Sits setup version before phase.Exchange false known → message_number payload ≡ leaving setup.role phase.Exchange → (sender : Side)
        → keys_at setup.suite setup.role setup.config version (before ++ payload ∷ []) sender ≡ keys_by setup.suite known.algorithms (exchange_received setup.suite setup.role setup.config known payload) sender }
    ensures keeps_keys { (setup : Setup) (version : List ℕ) (before : Units) (payload : List ℕ) (p : Phase) (guess : Bool) (known : Known)
        → Sits setup version before p guess known → past_exchange p ≡ true → (sender : Side)
        → keys_at setup.suite setup.role setup.config version (before ++ payload ∷ []) sender ≡ keys_at setup.suite setup.role setup.config version before sender }

    // After the key switch a strict endpoint counts packets anew; after every other packet it counts one more.
    ensures counts_anew { (setup : Setup) (version : List ℕ) (before : Units) (payload : List ℕ) (known : Known)
        → Sits setup version before phase.NewKeys false known → message_number payload ≡ SSH_MSG_NEWKEYS
        → number_in setup.role setup.config (before ++ payload ∷ []) ≡ (if known.strict then 0 else (number_in setup.role setup.config before + 1) % 2 ^ 32) }
    ensures counts_on { (setup : Setup) (version : List ℕ) (before : Units) (payload : List ℕ) (p : Phase) (guess : Bool) (known : Known)
        → Sits setup version before p guess known → (past_newkeys p ≡ true) ⊎ (kept setup.role setup.config.offer SSH_MSG_NEWKEYS before payload ≡ false)
        → number_in setup.role setup.config (before ++ payload ∷ []) ≡ (number_in setup.role setup.config before + 1) % 2 ^ 32 }
{
    sshmsg::numbers_law();
    sshneg::markers_law();
}

/// The law of sending: the key switch and the number of the next packet that is sent, before anything
/// and with one payload more (RFC 4253 sections 6.4 and 7.3, OpenSSH PROTOCOL section 1.10).
pub fn sending_law()
    ensures nothing { (strict : Bool) → (switched_out [] ≡ false) × (number_out strict [] ≡ 0) }
    ensures switches { (sent : Units) (payload : List ℕ)
        → switched_out (sent ++ payload ∷ []) ≡ (if switched_out sent then true else message_number payload == SSH_MSG_NEWKEYS) }
    ensures counts { (strict : Bool) (sent : Units) (payload : List ℕ)
        → number_out strict (sent ++ payload ∷ []) ≡ (if switched_out sent then (number_out strict sent + 1) % 2 ^ 32
        else if message_number payload == SSH_MSG_NEWKEYS then (if strict then 0 else (number_out strict sent + 1) % 2 ^ 32)
        else (number_out strict sent + 1) % 2 ^ 32) }

    // Before the key switch strictness doesn't matter.
    ensures unswitched { (strict other : Bool) (sent : Units) → switched_out sent ≡ false → number_out strict sent ≡ number_out other sent }

    // What was sent stays spelled as it is when more is received, once both directions have their keys.
    ensures stays { (m : SuiteData) (role : Side) (config : ConfigData) (units more answers : Units) (s : List ℕ)
        → (switched_out answers ≡ true → IsReady role config (payloads_in units))
        → Sent (spells m role config units) s (config.version ∷ answers) → Sent (spells m role config (units ++ more)) s (config.version ∷ answers) }
{}

/// The law of histories: what an endpoint has received and sent, before any byte and with each piece more;
/// and that its input decides the bytes that it uses and all the rest, in whatever pieces it came.
///
/// After a history in which the endpoint stands open a piece brings more of an unfinished unit, a
/// refusal, or a unit with its answers. That NEWKEYS is sent only where the exchange was received comes of
/// the definitions; that the answers fit packets is for the code to see to.
pub fn history_law()
    ensures parsers { (m : SuiteData) (role : Side) (config : ConfigData) (units : Units) (sizes : List ℕ) → IsIncremental (parsers m role config units sizes) }
    ensures begins { (setup : Setup) → AllFit (making setup.suite setup.role setup.config)
        → History setup [] [] [] None (making setup.suite setup.role setup.config) Open [] (flat_places (spells setup.suite setup.role setup.config []) [] (setup.config.version ∷ making setup.suite setup.role setup.config)) }
    ensures part { (setup : Setup) (units : Units) (sizes rest : List ℕ) (answers : Units) (h s : List ℕ)
        → History setup units sizes rest None answers Open h s → (piece : List ℕ) → parsers setup.suite setup.role setup.config units sizes (rest ++ piece) ≡ unfinished
        → History setup units sizes (rest ++ piece) None answers Open (h ++ piece) s }
    ensures refusal { (setup : Setup) (units : Units) (sizes rest : List ℕ) (answers : Units) (h s : List ℕ)
        → History setup units sizes rest None answers Open h s → (piece : List ℕ) (used : ℕ) (r : Refusal) → used ≤ length piece
        → parsers setup.suite setup.role setup.config units sizes (rest ++ piece) ≡ refused r (length rest + used) → AllFit (disconnect (fault_of r))
        → History setup units sizes (rest ++ take used piece) (Some r) (answers ++ disconnect (fault_of r)) (Failed (fault_of r)) (h ++ take used piece)
        (s ++ flat_places (spells setup.suite setup.role setup.config units) (setup.config.version ∷ answers) (disconnect (fault_of r))) }
    ensures unit { (setup : Setup) (units : Units) (sizes rest : List ℕ) (answers : Units) (h s : List ℕ)
        → History setup units sizes rest None answers Open h s → (piece u : List ℕ) (used : ℕ) → used ≤ length piece
        → parsers setup.suite setup.role setup.config units sizes (rest ++ piece) ≡ whole u (length rest + used) → AllFit (answers_at setup units u)
        → History setup (units ++ u ∷ []) (sizes ++ (length rest + used) ∷ []) [] None (answers ++ answers_at setup units u) (end_at setup units u) (h ++ take used piece)
        (s ++ flat_places (spells setup.suite setup.role setup.config (units ++ u ∷ [])) (setup.config.version ∷ answers) (answers_at setup units u)) }

    // Where memory runs out: before anything was sent, or after some of the answers to a unit.
    ensures broken { (setup : Setup) (units : Units) (sizes rest : List ℕ) (r : Option Refusal) (answers : Units) (end : EndData) (h s : List ℕ)
        → History setup units sizes rest r answers end h s → BrokenOff setup h s }
    ensures breaks { (setup : Setup) (units : Units) (sizes rest : List ℕ) (answers : Units) (h s : List ℕ)
        → History setup units sizes rest None answers Open h s → (piece u : List ℕ) (used : ℕ) (some : Units) → used ≤ length piece
        → parsers setup.suite setup.role setup.config units sizes (rest ++ piece) ≡ whole u (length rest + used) → IsPrefix some (answers_at setup units u)
        → BrokenOff setup (h ++ take used piece) (s ++ flat_places (spells setup.suite setup.role setup.config (units ++ u ∷ [])) (setup.config.version ∷ answers) some) }

    // The bytes used decide the units, the rest, the answers, the end and the bytes sent. And one input decides the bytes used: an
    // endpoint uses some bytes at the front of its input, and all of them while it stands open.
    ensures one { (setup : Setup) (units other_units : Units) (sizes other_sizes rest other_rest : List ℕ) (r other_r : Option Refusal)
        (answers other_answers : Units) (end other_end : EndData) (h s t : List ℕ)
        → History setup units sizes rest r answers end h s → History setup other_units other_sizes other_rest other_r other_answers other_end h t
        → IsOneHistory units other_units rest other_rest r other_r answers other_answers end other_end s t }
    ensures joined { (setup : Setup) (units other_units : Units) (sizes other_sizes rest other_rest : List ℕ) (r other_r : Option Refusal)
        (answers other_answers : Units) (end other_end : EndData) (h g s t x y : List ℕ)
        → History setup units sizes rest r answers end h s → History setup other_units other_sizes other_rest other_r other_answers other_end g t
        → h ++ x ≡ g ++ y → (end ≡ Open → x ≡ []) → (other_end ≡ Open → y ≡ [])
        → (h ≡ g) × IsOneHistory units other_units rest other_rest r other_r answers other_answers end other_end s t }
{
    sshmsg::numbers_law();
    sshneg::markers_law();
    sshpacket::parser_by_law();
    sshpacket::stream_law();
}
