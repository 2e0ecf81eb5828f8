//! Reads packets in clear off a stream, however it is cut, without a suite.

ghost use Rattle.sshpacket.specs.declared.limits.TheConstants.{PACKET_LIMIT};
ghost use Rattle.std.specs.Prelude.{◌≡◌, ◌+◌, ◌++◌, ◌≤◌, ◌↔◌, Err, IfErr, IfOk, IfSome, IsTrue, None, Some, [], length};
ghost use Rattle.std.specs.Borrow.{sem};
ghost use Rattle.std.specs.Io.BufRead.{Rests};
ghost use Rattle.sshpacket.specs.Parse.{protection};
ghost use Rattle.sshpacket.specs.ProtectedPacket.{PacketMeans};
ghost use Rattle.sshpacket.specs.Suite.{SuiteData};
ghost use Rattle.sshpacket.specs.ClearReaderData.{ClearWaits, packets_of};
ghost use Rattle.sshpacket.specs.PacketReaderData.{HoldsNothingAfter, KeepsLittle, OnlyPacketAnswer, ParseAnswer, PacketAnswer, ReaderLeaves, ReaderWaits, Uses, ahead, last_used, packet_reader_data};

use crate::fault::PacketFault;
use crate::no_suite::NoSuite;
use crate::reader::{PacketReader, PacketStep};
use std::alloc::Global;

/// Reads packets off the stream of one direction before keys are set (RFC 4253 section 6), in any pieces:
/// a [`PacketReader`] that has no keys and needs no [`Suite`](crate::Suite).
///
/// In a stream of SSH that is what stands after the version line, up to and with NEWKEYS.
#[derive(Drop)]
pub struct ClearReader {
    packets: PacketReader,
}

impl ClearReader {
    ghost use Rattle.sshpacket.specs.contracts.clear_reader.ClearReader.{the_row};

    /// A reader at the beginning of the packets: number 0, nothing held. It takes no memory.
    #[tactic(auto, unfolding(crate::specs::ClearReaderData::packets_of))]
    pub fn new(alloc: Global) -> ClearReader
        ensures state { packet_reader_data (packets_of result) ≡ record { keys = None; seq = 0; held = []; fault = None } }
        ensures taken { last_used (packets_of result) ≡ 0 }
        ensures waits { ClearWaits result }
    {
        ClearReader {
            packets: PacketReader::new(alloc),
        }
    }

    /// Reads on with a piece of the stream, as [`PacketReader::next`] does without keys.
    ///
    /// `Length` once the first four bytes of a packet are there, where they are none that is taken; `Padding`
    /// and `Empty` once all of it is; `Memory` where an allocation failed. `Mac` never comes. After a fault the
    /// same fault is answered for good and nothing is used.
    ///
    /// What is promised holds where the reader waits (`ClearWaits`), as `new` and every answer that is no fault
    /// leave it.
    #[tactic(auto, unfolding(crate::specs::ClearReaderData::packets_of))]
    pub fn next(&mut self, piece: &[u8]) -> Result<PacketStep<'_>, PacketFault>
        // A payload exactly where a packet of it stands at the front, a fault exactly where the
        // packet there is refused, unless memory runs out. Whatever the suite: none is asked.
        ensures tells { ClearWaits self.old → (m : SuiteData) → PacketAnswer m (packet_reader_data (packets_of self.old)) piece.now result }
        ensures only { ClearWaits self.old → (m : SuiteData) → OnlyPacketAnswer m (packet_reader_data (packets_of self.old)) piece.now result }
        ensures again { IfSome (packet_reader_data (packets_of self.old)).fault (λ f. result ≡ Err f) }
        // In every state: a packet uses some bytes of the piece, and no more than it has.
        ensures uses { IfOk result (λ step. Uses (length piece.now) step) }
        // The same as a function of what the reader holds.
        ensures answers { ClearWaits self.old → (m : SuiteData) → ParseAnswer m (packet_reader_data (packets_of self.old)) piece.now result }
        // How the reader is left. In every state: nothing is held after a payload; a refusal is kept, with the
        // number; what was read is given up where no other packet comes, and large room.
        ensures* after { sem 𝓛 (Rests the_row self.entry (λ new.
            (ClearWaits self.old → (m : SuiteData) → ReaderLeaves m (packet_reader_data (packets_of self.old)) piece.now result (packets_of new))
            × (ClearWaits self.old → IfOk result (λ _. ClearWaits new))
            × IfSome (packet_reader_data (packets_of self.old)).fault (λ f. (packet_reader_data (packets_of new) ≡ packet_reader_data (packets_of self.old)) × (last_used (packets_of new) ≡ 0))
            × (last_used (packets_of new) ≤ length piece.now)
            × HoldsNothingAfter result (packet_reader_data (packets_of new))
            × IfErr result (λ f. packet_reader_data (packets_of new) ≡ record (packet_reader_data (packets_of self.old)) { held = []; fault = Some f })
            × KeepsLittle result (packets_of new))) }
    {
        match self.packets.next(&NoSuite, piece) {
            Ok(step) => Ok(step),
            Err(fault) => Err(fault),
        }
    }

    /// How many bytes of the piece the last call of `next` used; at a refusal up to the byte that
    /// decided it, 0 where a fault was found before. It takes no memory.
    #[tactic(auto, unfolding(crate::specs::ClearReaderData::packets_of))]
    pub fn taken(&self) -> usize
        ensures { result ≡ last_used (packets_of self.now) }
    {
        self.packets.taken()
    }

    /// How many bytes of the unfinished packet are held: at most `PACKET_LIMIT`, 0 once a fault was
    /// found. It takes no memory.
    #[tactic(auto, unfolding(crate::specs::ClearReaderData::packets_of))]
    pub fn buffered(&self) -> usize
        ensures held { result ≡ length (packet_reader_data (packets_of self.now)).held }
        ensures bound { result ≤ PACKET_LIMIT }
        ensures faulted { IfSome (packet_reader_data (packets_of self.now)).fault (λ _. result ≡ 0) }
    {
        self.packets.buffered()
    }

    /// Whether no byte of an unfinished packet is held. It takes no memory.
    #[tactic(auto, unfolding(crate::specs::ClearReaderData::packets_of))]
    pub fn is_idle(&self) -> bool
        ensures { IsTrue result ↔ ((packet_reader_data (packets_of self.now)).held ≡ []) }
    {
        self.packets.is_idle()
    }

    /// The packet reader that it is, which may be given keys: it goes on where this one stands. It takes no
    /// memory.
    #[tactic(auto, unfolding(crate::specs::ClearReaderData::packets_of))]
    pub fn into_reader(self) -> PacketReader
        ensures { result ≡ packets_of self }
    {
        self.packets
    }
}
