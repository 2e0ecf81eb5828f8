//! How one packet is judged.

ghost use Rattle.sshpacket.specs.declared.limits.TheConstants.{PACKET_LIMIT};
ghost use Rattle.sshpacket.specs.declared.room.TheConstants.{ROOM_KEPT};
ghost use Rattle.std.specs.Prelude.{◌≡◌, ◌≢◌, ◌+◌, ◌<◌, ◌≤◌, ◌^◌, ℕ, Err, IfErr, IfOk, IfSome, IsOk, None, Ok, Some, [], drop, false, length, take, true};
ghost use Rattle.sshpacket.specs.Parse.{OfPacket, is_length, opened, refused, protection, whole};
ghost use Rattle.sshpacket.specs.Packet.{number};

use crate::fault::PacketFault;
use crate::keys::Keys;
use crate::limits::PACKET_LIMIT;
use crate::padding::counted;
use crate::room::give_up;
use crate::suite::Suite;
use bytes::BytesMut;
use sshwire::{Memory, Reader};
use std::alloc::Global;
use std::mem;

/// How the packet at hand is protected (RFC 4253 section 6): in clear, or sealed by a suite with these
/// keys and the packet's number.
#[derive(Drop)]
pub(crate) struct Protection<'a, S: Suite> {
    pub(crate) suite: &'a S,
    pub(crate) keys: &'a Option<Keys>,
    pub(crate) seq: u32,
}

/// A packet that was opened.
#[derive(Drop)]
pub(crate) struct Opened {
    /// The packet in clear.
    pub(crate) packet: BytesMut,
    /// How many bytes of payload stand in it, after the first five.
    pub(crate) payload_len: usize,
    ghost within: { payload_len + 5 ≤ length packet.items },
}

impl<'a, S: Suite> Protection<'a, S> {
    ghost use Rattle.sshpacket.specs.ReaderSteps.{Counts, Opens, Unseals};

    /// The length of the packet with its tag, by its first four bytes; none where packet_length isn't
    /// taken.
    pub(crate) fn packet_len(&self, first: [u8; 4]) -> Option<usize>
        ensures some { IfSome result (λ len. Counts (protection (S.meaning self.now.suite.now) self.now.keys.now self.now.seq) first len) }
        ensures none { result ≡ None → (let w = protection (S.meaning self.now.suite.now) self.now.keys.now self.now.seq in is_length w.counts w.block w.tag (w.head first) ≡ false) }
        ensures bound { IfSome result (λ len. (12 ≤ len) × (len ≤ PACKET_LIMIT)) }
    {
        match self.keys {
            None => packet_len(true, 8, 0, leading_uint32(&first)),
            Some(keys) => packet_len(
                self.suite.counts_length(keys.cipher(), keys.mac()),
                self.suite.block(keys.cipher()),
                self.suite.tag_len(keys.cipher(), keys.mac()),
                self.suite.head(keys, self.seq, first),
            ),
        }
    }

    /// Opens the packet, of which all is there, and which is held no longer then: its tag is judged
    /// first, then the padding, then that the payload isn't empty.
    pub(crate) fn open(&self, alloc: Global, held: &mut BytesMut) -> Result<Opened, PacketFault>
        requires { length held.old.items < 2 ^ 32 }
        ensures opens { Opens (protection (S.meaning self.now.suite.now) self.now.keys.now self.now.seq) held.old.items result }
        ensures items { held.new.items ≡ [] }
        ensures room { held.new.spare ≤ ROOM_KEPT }
    {
        let packet = self.unseal(alloc, held)?;
        let payload_len = payload_len(packet.as_slice())?;
        Ok(Opened {
            packet,
            payload_len,
        })
    }

    /// The packet in clear, which is held no longer then. One that was sent in clear isn't copied.
    fn unseal(&self, alloc: Global, held: &mut BytesMut) -> Result<BytesMut, PacketFault>
        requires { length held.old.items < 2 ^ 32 }
        ensures unseals { Unseals (protection (S.meaning self.now.suite.now) self.now.keys.now self.now.seq) held.old.items result }
        ensures items { held.new.items ≡ [] }
        ensures room { held.new.spare ≤ ROOM_KEPT }
    {
        let Some(keys) = self.keys else {
            return Ok(mem::replace(held, BytesMut::new(alloc)));
        };
        let answer = self.suite.unseal(alloc, keys, self.seq, held.as_slice());
        give_up(alloc, held);
        judged(answer)
    }
}

/// What the suite's answer says of the packet. It is given no allocator: after the answer nothing asks
/// for memory, so none is wanting then.
fn judged(answer: Result<Option<Vec<u8>>, Memory>) -> Result<BytesMut, PacketFault>
    ensures clear { IfOk answer (λ unsealed. IfSome unsealed (λ clear. IsOk result × IfOk result (λ packet. packet.items ≡ clear.items))) }
    ensures mac { answer ≡ Ok None → result ≡ Err PacketFault.Mac }
    ensures memory { IfErr answer (λ _. result ≡ Err PacketFault.Memory) }
{
    match answer {
        Ok(Some(clear)) => Ok(BytesMut::from_vec(clear)),
        Ok(None) => Err(PacketFault::Mac),
        Err(Memory) => Err(PacketFault::Memory),
    }
}

/// The uint32 in the first four bytes (RFC 4251 section 5), as packet_length stands in a packet; 0 where
/// there are fewer. It takes no memory.
#[tactic(auto, unfolding(crate::specs::Packet::number))]
pub fn leading_uint32(bytes: &[u8]) -> u32
    ensures { result ≡ number bytes.now }
{
    match Reader::new(bytes).u32() {
        Ok(number) => number,
        Err(_) => 0,
    }
}

/// The length of a packet with its tag; none where packet_length isn't taken.
fn packet_len(counts: bool, block: u8, tag: u8, packet_length: u32) -> Option<usize>
    ensures some { IfSome result (λ len. (is_length counts block tag packet_length ≡ true) × (len ≡ 4 + packet_length + tag)) }
    ensures none { result ≡ None → is_length counts block tag packet_length ≡ false }
    ensures bound { IfSome result (λ len. (12 ≤ len) × (len ≤ PACKET_LIMIT)) }
{
    let unit = usize::from(block.max(8));
    let counted = counted(counts);
    let after = packet_length as usize;
    let len = 4 + after + usize::from(tag);
    if after >= 8 + counted && len <= PACKET_LIMIT && (counted + after) % unit == 0 {
        Some(len)
    } else {
        None
    }
}

/// The length of the payload of a clear packet of which all is there (RFC 4253 section 6).
#[tactic(auto, using(crate::proofs::Opening::opened_padding, crate::proofs::Opening::opened_empty, crate::proofs::Opening::opened_whole))]
fn payload_len(clear: &[u8]) -> Result<usize, PacketFault>
    ensures ok { IfOk result (λ n. (n + 5 ≤ length clear.now) × ((len : ℕ) → opened clear.now len ≡ whole (take n (drop 5 clear.now)) len)) }
    ensures err { IfErr result (λ f. (f ≢ PacketFault.Memory) × ((len : ℕ) → opened clear.now len ≡ refused (OfPacket f) len)) }
{
    let padding = match clear.get(4) {
        Some(padding) => usize::from(*padding),
        None => 0,
    };
    let packet_length = clear.len().saturating_sub(4);
    if padding < 4 || padding >= packet_length {
        return Err(PacketFault::Padding);
    }
    if padding + 1 == packet_length {
        return Err(PacketFault::Empty);
    }
    Ok(packet_length - padding - 1)
}
