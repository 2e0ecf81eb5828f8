//! What goes on after authentication: payloads are sealed and opened by the keys of a session.

use crate::link_fault::{LinkFault, told_fault};
use crate::session::Direction;
use sshpacket::{Keys, PacketReader, PacketStep, Suite, write_next};
use sshwire::PAYLOAD_LIMIT;
use std::alloc::Global;

/// The most packets that a link seals, and the most that it opens: 2^31 (profile).
///
/// That is half of all sequence numbers: the other half is for the packets that went before with the same
/// keys, while the user was authenticated. So where those were at most 2^31 in a direction no number comes again
/// under one key, also where the first of a link isn't 0 and numbers begin anew after 2^32 - 1.
///
/// Nothing counts the packets that went before: a peer may send IGNORE as long as it is let, and each message
/// that isn't known is answered by an UNIMPLEMENTED. But a packet with a tag of 16 bytes has 28 bytes at the
/// least, so 2^31 of them have 56 GiB. Who bounds the bytes or the time up to SUCCESS, as a server has to,
/// bounds them.
///
/// New keys are asked for long before: by RFC 4253 section 9 after a gigabyte or an hour, by RFC 4344 section
/// 3.1 after 2^31 packets. They aren't made here: end the connection then.
pub const LINK_LIMIT: u32 = 0x8000_0000;

/// Once the packets that a link has sealed have so many bytes it seals no more: 2^35 (profile).
///
/// They are 2^31 blocks of 16 bytes, half of the 2^32 after which RFC 4344 section 3.2 wants new keys of a cipher with such blocks: the
/// other half is for the packets that went before with the same keys, and for the last of a link. The bytes that are opened the peer
/// has to bound.
pub const LINK_BYTES_LIMIT: u64 = 0x8_0000_0000;

/// Both directions of a session: it seals payloads for the peer, and opens what the peer sends.
///
/// Each packet that is sealed has the next number, and so does each that is opened, so no caller counts. What
/// stands in a payload is nothing to a link: KEXINIT (20) and NEWKEYS (21) are payloads as any other, and no
/// new keys come of them. It has no `Debug`: keys are never printed.
#[derive(Drop)]
pub struct Link {
    alloc: Global,
    /// What the next packet is sealed with.
    keys: Keys,
    /// The number of the next packet that is sealed.
    number: u32,
    /// What padding is made of.
    seed: [u8; 32],
    /// How many packets were sealed.
    sealed: u32,
    /// How many bytes they had.
    sealed_bytes: u64,
    reader: PacketReader,
    /// How many packets the reader had come to the end of before it was last asked.
    opened: u32,
}

impl Link {
    ghost use Rattle.std.specs.Borrow.{sem};
    ghost use Rattle.std.specs.Io.BufRead.{Rests};
    ghost use Rattle.std.specs.Prelude.{◌≡◌, ◌<◌, ◌≤◌, ◌^◌, ◌++◌, Err, IfErr, IfOk, IfSome, None, OnOk, if◌then◌else◌, is_ok, length};
    ghost use Rattle.sshpacket.specs.declared.limits.TheConstants.{PACKET_LIMIT};
    ghost use Rattle.sshpacket.specs.PacketReaderData.{Uses, last_used, packet_reader_data};
    ghost use Rattle.sshpacket.specs.Suite.{SuiteData};
    ghost use Rattle.sshcore.specs.declared.link_fault.LinkFault.TheVariants as fault;
    ghost use Rattle.sshcore.specs.Linked.{BeginsBy, CanSeal, IsSealed, LinkLeaves, LinkWaits, OnlyOpenAnswer, OpenAnswer, SealRefused, fault_by, incoming_of, outgoing_of, raised, sealed_by, sent_by};
    ghost use Rattle.sshcore.specs.contracts.link.Link.{the_row};

    /// A link that opens by the first direction and seals by the second, which are those of a session
    /// ([`Session::into_link`](crate::Session::into_link) is the same). Padding is made of the seed, which is 32
    /// random bytes that served nothing else. Takes no memory.
    #[tactic(auto, unfolding(crate::specs::Linked::outgoing_of, crate::specs::Linked::incoming_of))]
    pub fn new(alloc: Global, incoming: Direction, outgoing: Direction, seed: [u8; 32]) -> Link
        ensures seals { outgoing_of result ≡ sent_by outgoing seed }
        ensures in_range { (outgoing_of result).number < 2 ^ 32 }
        ensures opens { BeginsBy incoming (incoming_of result) }
        ensures waits { (m : SuiteData) → LinkWaits m (incoming_of result) }
    {
        Link {
            alloc,
            keys: outgoing.keys,
            number: outgoing.sequence_number,
            seed,
            sealed: 0,
            sealed_bytes: 0,
            reader: PacketReader::with_keys(alloc, incoming.keys, incoming.sequence_number),
            opened: 0,
        }
    }

    /// Appends the packet of a payload of 1 to `PAYLOAD_LIMIT` bytes, sealed, raises the number of the next
    /// one (RFC 4253 sections 6 and 6.4), and makes the keys those of the next one. After an error all is as
    /// before: `Payload` of another length, `UsedUp` where `LINK_LIMIT` packets were sealed, or some of `LINK_BYTES_LIMIT` bytes or
    /// more, `Memory` where an allocation failed.
    #[tactic(auto, unfolding(crate::specs::Linked::outgoing_of, crate::specs::Linked::incoming_of))]
    pub fn seal<S: Suite>(
        &mut self,
        suite: &S,
        payload: &[u8],
        out: &mut Vec<u8>,
    ) -> Result<(), LinkFault>
        ensures appends { out.new.items ≡ (if is_ok result then out.old.items ++ sealed_by (S.meaning suite.now) (outgoing_of self.old) payload.now else out.old.items) }
        // What is sealed is a packet of the payload with the least padding.
        ensures packet { OnOk result (IsSealed (S.meaning suite.now) (outgoing_of self.old) payload.now) }
        // The number goes up by one, and the keys advance, exactly where a packet was sealed; and what is opened stays as it is.
        ensures raises { outgoing_of self.new ≡ (if is_ok result then raised (S.meaning suite.now) payload.now (outgoing_of self.old) else outgoing_of self.old) }
        ensures incoming { incoming_of self.new ≡ incoming_of self.old }
        ensures can { OnOk result (CanSeal (outgoing_of self.old) payload.now) }
        ensures refused { IfErr result (λ f. SealRefused (outgoing_of self.old) payload.now f) }
    {
        if payload.is_empty() || payload.len() > PAYLOAD_LIMIT {
            return Err(LinkFault::Payload);
        }
        if self.sealed >= LINK_LIMIT || self.sealed_bytes >= LINK_BYTES_LIMIT {
            return Err(LinkFault::UsedUp);
        }
        let before = out.len();
        write_next(
            self.alloc,
            suite,
            &mut self.keys,
            self.number,
            payload,
            &self.seed,
            out,
        )?;
        self.number = self.number.wrapping_add(1);
        self.sealed += 1;
        self.sealed_bytes += (out.len() - before) as u64;
        Ok(())
    }

    /// Reads on with a piece of what the peer sends, however it is cut: first the bytes that the endpoint's
    /// `feed` didn't use, then all that comes. Answers a payload, lent until the next call, with its number and
    /// how many bytes of the piece were used (the rest is the front of the next piece), or that more bytes are
    /// wanted.
    ///
    /// `Packet` where what came is no packet, `Memory` where an allocation failed: either is answered for good, and
    /// nothing is opened any more. `UsedUp` where `LINK_LIMIT` packets were opened and none was refused. Where either
    /// is answered again all is as before.
    #[tactic(auto, unfolding(crate::specs::Linked::outgoing_of, crate::specs::Linked::incoming_of))]
    pub fn next<S: Suite>(&mut self, suite: &S, piece: &[u8]) -> Result<PacketStep<'_>, LinkFault>
        ensures used_up { LINK_LIMIT ≤ (incoming_of self.old).opened → (packet_reader_data (incoming_of self.old).reader).fault ≡ None → result ≡ Err fault.UsedUp }
        // Before that: a payload exactly where a packet of it stands at the front, a fault exactly where the
        // packet there is refused, unless memory runs out.
        ensures tells { (incoming_of self.old).opened < LINK_LIMIT → LinkWaits (S.meaning suite.now) (incoming_of self.old) → OpenAnswer (S.meaning suite.now) (incoming_of self.old) piece.now result }
        ensures only { (incoming_of self.old).opened < LINK_LIMIT → LinkWaits (S.meaning suite.now) (incoming_of self.old) → OnlyOpenAnswer (S.meaning suite.now) (incoming_of self.old) piece.now result }
        // What was refused is refused so for good, at the limit too.
        ensures again { IfSome (packet_reader_data (incoming_of self.old).reader).fault (λ f. result ≡ Err (fault_by f)) }
        // In every state: a packet uses some bytes of the piece, and no more than it has.
        ensures uses { IfOk result (λ step. Uses (length piece.now) step) }
        // How the link is left: what it seals with stays as it is.
        ensures* after { sem 𝓛 (Rests the_row self.entry (λ new.
            (outgoing_of new ≡ outgoing_of self.old)
            × IfSome (packet_reader_data (incoming_of self.old).reader).fault (λ f. incoming_of new ≡ incoming_of self.old)
            × (LINK_LIMIT ≤ (incoming_of self.old).opened → incoming_of new ≡ incoming_of self.old)
            × ((incoming_of self.old).opened < LINK_LIMIT → LinkWaits (S.meaning suite.now) (incoming_of self.old) → LinkLeaves (S.meaning suite.now) (incoming_of self.old) piece.now result (incoming_of new)))) }
    {
        if let Some(fault) = self.reader.fault() {
            return Err(told_fault(fault));
        }
        let opened = self.opened();
        if opened >= LINK_LIMIT as u64 {
            return Err(LinkFault::UsedUp);
        }
        self.opened = opened as u32;
        match self.reader.next(suite, piece) {
            Ok(step) => Ok(step),
            Err(fault) => Err(told_fault(fault)),
        }
    }

    /// How many packets were sealed, at most `LINK_LIMIT`. Takes no memory.
    #[tactic(auto, unfolding(crate::specs::Linked::outgoing_of))]
    pub fn sealed(&self) -> u32
        ensures { result ≡ (outgoing_of self.now).sealed }
    {
        self.sealed
    }

    /// How many bytes the packets had that were sealed. Takes no memory.
    #[tactic(auto, unfolding(crate::specs::Linked::outgoing_of))]
    pub fn sealed_bytes(&self) -> u64
        ensures { result ≡ (outgoing_of self.now).bytes }
    {
        self.sealed_bytes
    }

    /// How many packets were opened; one that was refused counts too. Takes no memory.
    #[tactic(auto, unfolding(crate::specs::Linked::incoming_of))]
    pub fn opened(&self) -> u64
        ensures { result ≡ (incoming_of self.now).opened }
    {
        if self.reader.is_idle() && self.reader.taken() > 0 {
            self.opened as u64 + 1
        } else {
            self.opened as u64
        }
    }

    /// How many bytes of the piece were used when something was last opened or refused; at a refusal those up to
    /// the byte that decided it. Takes no memory.
    #[tactic(auto, unfolding(crate::specs::Linked::incoming_of))]
    pub fn taken(&self) -> usize
        ensures { result ≡ last_used (incoming_of self.now).reader }
    {
        self.reader.taken()
    }

    /// How many bytes of the unfinished packet are held, at most `PACKET_LIMIT`. Takes no memory.
    #[tactic(auto, unfolding(crate::specs::Linked::incoming_of))]
    pub fn buffered(&self) -> usize
        ensures held { result ≡ length (packet_reader_data (incoming_of self.now).reader).held }
        ensures bound { result ≤ PACKET_LIMIT }
    {
        self.reader.buffered()
    }
}
