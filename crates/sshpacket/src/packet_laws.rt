//! What the layers above may rest on: packets as a claim and as a function are one, and what is
//! written is read again.

ghost use Rattle.sshwire.specs.declared.limits.TheConstants.{PAYLOAD_LIMIT};
ghost use Rattle.sshpacket.specs.declared.limits.TheConstants.{BLOCK_LIMIT, TAG_LIMIT};
ghost use Rattle.std.specs.Prelude.{◌≡◌, Bool, true, ◌<◌, ◌≤◌, ◌^◌, ◌++◌, ℕ, List, Option, None, Some, length};
ghost use Rattle.sshwire.specs.Types.{IsBytes};
ghost use Rattle.sshpacket.specs.Parse.{Parse, ProtectionData, parse_packet, protection, whole};
ghost use Rattle.sshpacket.specs.KeysData.{KeysData};
ghost use Rattle.sshpacket.specs.Packet.{IsPacket};
ghost use Rattle.sshpacket.specs.Suite.{IsLawful, ResponseData, SuiteData, all_advanced, has_number_shares, shares_number};
ghost use Rattle.sshpacket.specs.Shares.{IsShare};
ghost use Rattle.sshpacket.specs.ProtectedPacket.{IsFaithful, IsProtectedPacket, PacketMeans};
ghost use Rattle.sshpacket.specs.Written.{IsWritten, after_all, sealed_size, written, written_clear, written_sealed};

/// The law of packets (RFC 4253 section 6): what is read at the front of bytes is what stands there,
/// and nothing else.
pub fn packet_law()
    // In clear and with the keys of any suite, what is unsealed has the length that was read.
    ensures faithful { (m : SuiteData) → IsLawful m → (keys : Option KeysData) (seq : ℕ) → seq < 2 ^ 32 → IsFaithful (protection m keys seq) }
    ensures found { (w : ProtectionData) (bytes : List ℕ) → IsFaithful w → IsBytes bytes → PacketMeans w bytes (parse_packet w bytes) }
    ensures only { (w : ProtectionData) (bytes : List ℕ) → IsFaithful w → IsBytes bytes → (answer : Parse) → PacketMeans w bytes answer → parse_packet w bytes ≡ answer }
    // In clear a protected packet is a packet.
    ensures unit { (m : SuiteData) (seq : ℕ) (payload bytes : List ℕ) → IsPacket true 8 0 payload bytes → IsProtectedPacket (protection m None seq) payload bytes }
    ensures packet { (m : SuiteData) (seq : ℕ) (payload bytes : List ℕ) → IsProtectedPacket (protection m None seq) payload bytes → IsPacket true 8 0 payload bytes }
{
    sshwire::types_law();
    sshwire::bytes_law();
}

/// The law of writing: a written packet is one, with the least padding, of bytes, and is read again
/// as its payload, whatever follows.
pub fn writing_law()
    ensures written { (m : SuiteData) → IsLawful m → (counts : Bool) (block tag : ℕ) (seed : List ℕ) (seq : ℕ) (payload : List ℕ) → block ≤ BLOCK_LIMIT → tag ≤ TAG_LIMIT
        → 0 < length payload → length payload ≤ PAYLOAD_LIMIT → IsWritten counts block tag payload (written m counts block seed seq payload) }
    ensures bytes { (m : SuiteData) → IsLawful m → (counts : Bool) (block : ℕ) (seed : List ℕ) (seq : ℕ) (payload : List ℕ) → block ≤ BLOCK_LIMIT → IsBytes payload
        → IsBytes (written m counts block seed seq payload) }
    ensures clear { (m : SuiteData) → IsLawful m → (seed : List ℕ) (seq : ℕ) (payload rest : List ℕ) → 0 < length payload → length payload ≤ PAYLOAD_LIMIT
        → parse_packet (protection m None seq) (written_clear m seed seq payload ++ rest) ≡ whole payload (length (written_clear m seed seq payload)) }
    ensures sealed { (m : SuiteData) → IsLawful m → (keys : KeysData) (seed : List ℕ) (seq : ℕ) (payload rest : List ℕ) → seq < 2 ^ 32 → IsBytes payload
        → 0 < length payload → length payload ≤ PAYLOAD_LIMIT
        → parse_packet (protection m (Some keys) seq) (written_sealed m keys seed seq payload ++ rest) ≡ whole payload (length (written_sealed m keys seed seq payload)) }
    ensures size { (m : SuiteData) → IsLawful m → (keys : KeysData) (seed : List ℕ) (seq : ℕ) (payload : List ℕ) → seq < 2 ^ 32 → IsBytes payload
        → 0 < length payload → length payload ≤ PAYLOAD_LIMIT → length (written_sealed m keys seed seq payload) ≡ sealed_size m keys payload }
{
    sshwire::types_law();
    sshwire::bytes_law();
}

/// The law of keys that advance: those of a suite that leaves the initialisation vector as it is stay the same, whatever
/// was received and sent with them.
pub fn advancing_law()
    ensures opened { (m : SuiteData) → ((keys : KeysData) (len : ℕ) → m.next_iv keys len ≡ keys.iv) → (keys : KeysData) (sizes : List ℕ) → all_advanced m keys sizes ≡ keys }
    ensures sealed { (m : SuiteData) → ((keys : KeysData) (len : ℕ) → m.next_iv keys len ≡ keys.iv) → (keys : KeysData) (payloads : List (List ℕ)) → after_all m keys payloads ≡ keys }
{}

/// The law of shares: what a suite makes of random bytes and of a peer's share are bytes, at most
/// `SHARE_LIMIT` of them, and the shortest body of an mpint where the method's form asks for one.
pub fn shares_law()
    ensures share { (m : SuiteData) → IsLawful m → (kex a : List ℕ) → length a ≡ 32 → IsBytes a → IsShare (has_number_shares (m.share_form kex)) (m.share kex a) }
    ensures shared { (m : SuiteData) → IsLawful m → (kex a peer body : List ℕ) → length a ≡ 32 → IsBytes a → IsBytes peer
        → m.shared kex a peer ≡ Some body → IsShare (shares_number (m.share_form kex)) body }
    ensures response { (m : SuiteData) → IsLawful m → (kex a peer : List ℕ) (r : ResponseData) → length a ≡ 32 → IsBytes a → IsBytes peer
        → m.respond kex a peer ≡ Some r → IsShare (has_number_shares (m.share_form kex)) r.share × IsShare (shares_number (m.share_form kex)) r.shared }
{
    sshwire::types_law();
}
