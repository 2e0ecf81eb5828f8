//! What the layers above may rest on: links of one session.

ghost use Rattle.std.specs.Prelude.{◌≡◌, ◌≢◌, ◌⊎◌, ℕ, ◌+◌, ◌<◌, ◌^◌, ◌++◌, Err, List, Ok, Result, length};
ghost use Rattle.sshwire.specs.Types.{IsBytes};
ghost use Rattle.sshpacket.specs.Suite.{IsLawful, SuiteData};
ghost use Rattle.sshpacket.specs.Written.{sealed_size};
ghost use Rattle.sshpacket.specs.declared.reader.PacketStep.{PacketStep};
ghost use Rattle.sshcore.specs.declared.link_fault.LinkFault.{LinkFault};
ghost use Rattle.sshcore.specs.declared.link_fault.LinkFault.TheVariants as fault;
ghost use Rattle.sshcore.specs.declared.session.Direction.{Direction};
ghost use Rattle.sshcore.specs.Linked.{AreLinked, BeginsBy, CanSeal, Incoming, LinkLeaves, OnlyOpenAnswer, Opens, Outgoing, raised, raised_by, sealed_by, sent_by};

/// The law of links: what one link of a session seals, the link of the peer's session opens, and no number
/// comes again. Takes no memory.
pub fn link_law()
    // Links that are made of a direction that both sessions have alike are linked in it.
    ensures begins { (direction : Direction) (seed : List ℕ) (i : Incoming) → direction.sequence_number < 2 ^ 32 → BeginsBy direction i → AreLinked (sent_by direction seed) i }
    // Of two that are linked, the one's packet is opened by the other as its payload, with its number, whatever follows
    // it, unless memory runs out; and they stay linked.
    ensures opens { (m : SuiteData) → IsLawful m → (o : Outgoing) (i : Incoming) → AreLinked o i → (payload rest : List ℕ) → IsBytes payload → CanSeal o payload
        → (result : Result PacketStep LinkFault) → OnlyOpenAnswer m i (sealed_by m o payload ++ rest) result
        → Opens payload o.number (length (sealed_by m o payload)) result ⊎ (result ≡ Err fault.Memory) }
    ensures goes_on { (m : SuiteData) (o : Outgoing) (i new : Incoming) → AreLinked o i → (piece : List ℕ) (step : PacketStep) (payload : List ℕ) (seq used : ℕ)
        → Opens payload seq used (Ok step) → used ≡ sealed_size m o.keys payload → LinkLeaves m i piece (Ok step) new → AreLinked (raised m payload o) new }
    ensures size { (m : SuiteData) → IsLawful m → (o : Outgoing) (payload : List ℕ) → o.number < 2 ^ 32 → IsBytes payload → CanSeal o payload
        → length (sealed_by m o payload) ≡ sealed_size m o.keys payload }
    // Of 2^32 packets one after another no two have the same number.
    ensures counts { (m : SuiteData) (o : Outgoing) (ps : List (List ℕ)) → (raised_by m ps o).sealed ≡ o.sealed + length ps }
    ensures fresh { (m : SuiteData) (o : Outgoing) (ps qs : List (List ℕ)) → o.number < 2 ^ 32 → length ps < length qs → length qs < length ps + 2 ^ 32
        → (raised_by m ps o).number ≢ (raised_by m qs o).number }
{
    sshpacket::packet_law();
    sshpacket::writing_law();
}
