//! Reads packets off a stream, however it is cut.

ghost use Rattle.sshpacket.specs.declared.limits.TheConstants.{PACKET_LIMIT};
ghost use Rattle.sshpacket.specs.declared.room.TheConstants.{ROOM_KEPT};
ghost use Rattle.std.specs.Prelude.{◌≡◌, ◌≢◌, ◌+◌, ◌++◌, ◌<◌, ◌≤◌, ◌^◌, ℕ, Err, IfErr, IfOk, IfSome, List, None, Ok, OnErr, Some, drop, length, take};
ghost use Rattle.std.specs.Option.{ForSome};
ghost use Rattle.sshwire.specs.Types.{IsBytes};
ghost use Rattle.sshpacket.specs.Parse.{Parse, parse_packet, unfinished, protection};
ghost use Rattle.sshpacket.specs.ProtectedPacket.{IsFaithful, PacketMeans};
ghost use Rattle.sshpacket.specs.Suite.{next_keys};
ghost use Rattle.sshpacket.specs.ReaderSteps.{FillsBody, FillsPacket, Fills, FilledSome, HasRoom, KeepsRoom, OpensFilled, GatheredRoom, ReadsOn, needed};

use crate::fault::PacketFault;
use crate::keys::Keys;
use crate::protection::{Opened, Protection};
use crate::room::{give_up, make_room};
use crate::suite::Suite;
use bytes::BytesMut;
use sshwire::Memory;
use std::alloc::Global;

/// What a piece brought.
#[derive(Drop)]
pub enum PacketStep<'a> {
    /// The packet isn't all there: all of the piece was used.
    More,
    /// A packet was read, and so many bytes of the piece were used.
    Payload {
        /// The payload, lent until the next call.
        payload: &'a [u8],
        /// The packet's sequence number.
        seq: u32,
        /// How many bytes of the piece were used.
        used: usize,
    },
}

/// Reads packets off the stream of one direction (RFC 4253 section 6), in any pieces.
///
/// In clear until keys are set. It holds the bytes of the one unfinished packet and nothing older: the
/// bytes of a packet that was read are given up at the next call. Room is asked for by the packet's
/// length; after a packet and a fault room for at most `ROOM_KEPT` bytes more is kept.
#[derive(Drop)]
pub struct PacketReader {
    alloc: Global,
    /// The bytes of the unfinished packet.
    unfinished: BytesMut,
    /// How many bytes it must have before more of it is judged.
    target: usize,
    /// The packet that was read last, in clear.
    packet: BytesMut,
    keys: Option<Keys>,
    /// The number of the next packet.
    seq: u32,
    fault: Option<PacketFault>,
    taken: usize,
    ghost room: { length unfinished.items < target },
    ghost header: { 4 ≤ target },
    ghost bound: { target ≤ PACKET_LIMIT },
    ghost none_held: { ForSome fault (λ _. (length unfinished.items ≡ 0) × (unfinished.spare ≤ ROOM_KEPT)) },
}

impl PacketReader {
    ghost use Rattle.std.specs.Prelude.{[], ◌%◌, ◌↔◌, IsTrue, if◌then◌else◌};
    ghost use Rattle.std.specs.Borrow.{sem};
    ghost use Rattle.std.specs.Io.BufRead.{Rests};
    ghost use Rattle.sshpacket.specs.KeysData.{KeysData};
    ghost use Rattle.sshpacket.specs.Suite.{SuiteData};
    ghost use Rattle.sshpacket.specs.PacketReaderData.{Advances, HoldsNothingAfter, IsStep, KeepsLittle, OnlyPacketAnswer, ParseAnswer, PacketAnswer, ReaderLeaves, PacketReaderData, ReaderWaits, Uses, ahead, kept, last_used, missing_of, spare_room, packet_reader_data};
    ghost use Rattle.sshpacket.specs.contracts.reader.PacketReader.{the_row};

    /// A reader at the beginning of the stream: no keys, number 0, nothing held. It takes no memory.
    pub fn new(alloc: Global) -> PacketReader
        ensures state { packet_reader_data result ≡ record { keys = None; seq = 0; held = []; fault = None } }
        ensures taken { last_used result ≡ 0 }
        ensures waits { (m : SuiteData) → ReaderWaits m result }
    {
        PacketReader::going_on(alloc, None, 0)
    }

    /// A reader of what goes on with these keys, the next packet having this number: for a stream
    /// whose beginning another reader has read. It takes no memory.
    pub fn with_keys(alloc: Global, keys: Keys, seq: u32) -> PacketReader
        ensures state { packet_reader_data result ≡ record { keys = Some keys; seq = seq; held = []; fault = None } }
        ensures taken { last_used result ≡ 0 }
        ensures waits { (m : SuiteData) → ReaderWaits m result }
    {
        PacketReader::going_on(alloc, Some(keys), seq)
    }

    /// A reader of what goes on with these keys, or in clear where there are none, the next packet having this number. It
    /// takes no memory.
    #[tactic(auto, unfolding(crate::specs::PacketReaderData::packet_reader_data, crate::specs::PacketReaderData::last_used, crate::specs::PacketReaderData::target_len), using(crate::proofs::WaitLemmas::waits_empty))]
    pub fn going_on(alloc: Global, keys: Option<Keys>, seq: u32) -> PacketReader
        ensures state { packet_reader_data result ≡ record { keys = keys; seq = seq; held = []; fault = None } }
        ensures taken { last_used result ≡ 0 }
        ensures waits { (m : SuiteData) → ReaderWaits m result }
    {
        PacketReader {
            alloc,
            unfinished: BytesMut::new(alloc),
            target: 4,
            packet: BytesMut::new(alloc),
            keys,
            seq,
            fault: None,
            taken: 0,
        }
    }

    /// Reads on with a piece of the stream.
    ///
    /// The length of a packet is judged once its first four bytes are there, the rest once all of it
    /// is: the tag, then the padding, then that the payload isn't empty. `Memory` where an allocation
    /// failed. After a fault the same fault is answered for good and nothing is used.
    ///
    /// What is promised holds where the reader waits for this suite, as `new`, `with_keys`, `use_keys`
    /// and every answer that is no fault leave it: a suite isn't changed in the middle of a packet.
    pub fn next<S: Suite>(&mut self, suite: &S, piece: &[u8]) -> Result<PacketStep<'_>, PacketFault>
        // A payload exactly where a packet of it stands at the front, a fault exactly where the packet
        // there is refused, unless memory runs out.
        ensures tells { ReaderWaits (S.meaning suite.now) self.old → PacketAnswer (S.meaning suite.now) (packet_reader_data self.old) piece.now result }
        ensures only { ReaderWaits (S.meaning suite.now) self.old → OnlyPacketAnswer (S.meaning suite.now) (packet_reader_data self.old) piece.now result }
        ensures again { IfSome (packet_reader_data self.old).fault (λ f. result ≡ Err f) }
        // In every state: a packet uses some bytes of the piece, and no more than it has.
        ensures uses { IfOk result (λ step. Uses (length piece.now) step) }
        // The same as a function of what the reader holds, and what stands at the front by the standard.
        ensures answers { ReaderWaits (S.meaning suite.now) self.old → ParseAnswer (S.meaning suite.now) (packet_reader_data self.old) piece.now result }
        ensures means { PacketMeans (protection (S.meaning suite.now) (packet_reader_data self.old).keys (packet_reader_data self.old).seq) ((packet_reader_data self.old).held ++ piece.now) (ahead (S.meaning suite.now) (packet_reader_data self.old) piece.now) }
        // How the reader is left. In every state: nothing is held after a payload; a refusal is kept, with
        // the keys and the number; what was read is given up where no other packet comes, and large room.
        ensures* after { sem 𝓛 (Rests the_row self.entry (λ new.
            (ReaderWaits (S.meaning suite.now) self.old → ReaderLeaves (S.meaning suite.now) (packet_reader_data self.old) piece.now result new)
            × IfSome (packet_reader_data self.old).fault (λ f. (packet_reader_data new ≡ packet_reader_data self.old) × (last_used new ≡ 0))
            × (last_used new ≤ length piece.now)
            × HoldsNothingAfter result (packet_reader_data new)
            × IfErr result (λ f. packet_reader_data new ≡ record (packet_reader_data self.old) { held = []; fault = Some f })
            × KeepsLittle result new)) }
    {
        front_means(
            suite,
            &self.keys,
            self.seq,
            self.unfinished.as_slice(),
            piece,
        );
        let seq = self.seq;
        match self.advance(suite, piece) {
            Err(fault) => Err(fault),
            Ok(None) => Ok(PacketStep::More),
            Ok(Some(payload_len)) => Ok(self.step(payload_len, seq)),
        }
    }

    /// Reads on, and answers the length of the payload of a packet that was read.
    #[tactic(auto, unfolding(crate::specs::PacketReaderData::packet_reader_data, crate::specs::PacketReaderData::last_used, crate::specs::PacketReaderData::target_len, crate::specs::PacketReaderData::kept, crate::specs::PacketReaderData::spare_room))]
    fn advance<S: Suite>(&mut self, suite: &S, piece: &[u8]) -> Result<Option<usize>, PacketFault>
        ensures advances { ReaderWaits (S.meaning suite.now) self.old → Advances (S.meaning suite.now) (packet_reader_data self.old) piece.now result self.new }
        ensures taken { last_used self.new ≤ length piece.now }
        ensures some { IfOk result (λ len. IfSome len (λ _. (0 < last_used self.new) × ((packet_reader_data self.new).held ≡ []) × (spare_room self.new ≤ ROOM_KEPT))) }
        ensures room { IfOk result (λ len. IfSome len (λ n. n + 5 ≤ length self.new.packet.items)) }
        ensures again { IfSome (packet_reader_data self.old).fault (λ f. (result ≡ Err f) × (packet_reader_data self.new ≡ packet_reader_data self.old) × (last_used self.new ≡ 0)) }
        // In every state: without a packet none is kept, and a refusal is kept with the keys and the number.
        ensures given_up { result ≡ Ok None → kept self.new ≡ 0 }
        ensures kept { IfErr result (λ f. (packet_reader_data self.new ≡ record (packet_reader_data self.old) { held = []; fault = Some f }) × (kept self.new ≡ 0) × (spare_room self.new ≤ ROOM_KEPT)) }
    {
        // The packet that was read last is given up.
        self.packet = BytesMut::new(self.alloc);
        self.taken = 0;
        if let Some(fault) = self.fault {
            return Err(fault);
        }
        let before = self.unfinished.len();
        let guard = Protection {
            suite,
            keys: &self.keys,
            seq: self.seq,
        };
        let (taken, read) = read_on(self.alloc, &guard, &mut self.unfinished, self.target, piece);
        self.taken = taken;
        match read {
            Ok(Gathered::Part { target }) => {
                self.target = target;
                Ok(None)
            }
            Ok(Gathered::Whole(opened)) => {
                self.packet = opened.packet;
                self.target = 4;
                self.seq = self.seq.wrapping_add(1);
                go_on(suite, &mut self.keys, before + taken);
                Ok(Some(opened.payload_len))
            }
            Err(fault) => {
                give_up(self.alloc, &mut self.unfinished);
                self.target = 4;
                self.fault = Some(fault);
                Err(fault)
            }
        }
    }

    /// The packet that was read last.
    fn step(&self, payload_len: usize, seq: u32) -> PacketStep<'_>
        requires { payload_len + 5 ≤ length self.now.packet.items }
        ensures { IsStep (take payload_len (drop 5 self.now.packet.items)) seq self.now.taken result }
    {
        PacketStep::Payload {
            payload: &self.packet.as_slice()[5..5 + payload_len],
            seq,
            used: self.taken,
        }
    }

    /// The keys and the number of the next packet, with which another reader goes on; what is held of an
    /// unfinished packet is dropped. It takes no memory.
    #[tactic(auto, unfolding(crate::specs::PacketReaderData::packet_reader_data))]
    pub fn into_keys(self) -> (Option<Keys>, u32)
        ensures keys { result.0 ≡ (packet_reader_data self).keys }
        ensures number { result.1 ≡ (packet_reader_data self).seq }
    {
        (self.keys, self.seq)
    }

    /// The keys; none in clear. It takes no memory.
    #[tactic(auto, unfolding(crate::specs::PacketReaderData::packet_reader_data))]
    pub fn keys(&self) -> &Option<Keys>
        ensures { result.now ≡ (packet_reader_data self.now).keys }
    {
        &self.keys
    }

    /// The sequence number of the next packet. It takes no memory.
    #[tactic(auto, unfolding(crate::specs::PacketReaderData::packet_reader_data))]
    pub fn sequence_number(&self) -> u32
        ensures { result ≡ (packet_reader_data self.now).seq }
    {
        self.seq
    }

    /// The bytes that are held of the unfinished packet. It takes no memory.
    #[tactic(auto, unfolding(crate::specs::PacketReaderData::packet_reader_data))]
    pub fn unfinished(&self) -> &[u8]
        ensures { result.now ≡ (packet_reader_data self.now).held }
    {
        self.unfinished.as_slice()
    }

    /// How many bytes of the piece the last call of `next` used; at a refusal up to the byte that
    /// decided it, 0 where a fault was found before. It takes no memory.
    #[tactic(auto, unfolding(crate::specs::PacketReaderData::last_used))]
    pub fn taken(&self) -> usize
        ensures { result ≡ last_used self.now }
    {
        self.taken
    }

    /// How many bytes of the unfinished packet are held: at most `PACKET_LIMIT`, 0 once a fault was
    /// found. It takes no memory.
    #[tactic(auto, unfolding(crate::specs::PacketReaderData::packet_reader_data))]
    pub fn buffered(&self) -> usize
        ensures held { result ≡ length (packet_reader_data self.now).held }
        ensures bound { result ≤ PACKET_LIMIT }
        ensures faulted { IfSome (packet_reader_data self.now).fault (λ _. result ≡ 0) }
    {
        self.unfinished.len()
    }

    /// How many bytes more are wanted before more of the packet is judged: up to the end of its length field, and then up to its own
    /// end. With fewer it stays unfinished. At least 1, and at most `PACKET_LIMIT`; once a fault was found the number means nothing.
    /// It takes no memory.
    #[tactic(auto, unfolding(crate::specs::PacketReaderData::packet_reader_data, crate::specs::PacketReaderData::target_len), using(crate::proofs::WaitLemmas::fewer_unfinished))]
    pub fn missing(&self) -> usize
        ensures missing { result ≡ missing_of self.now }
        ensures bounds { (0 < result) × (result ≤ PACKET_LIMIT) }
        ensures fewer { (m : SuiteData) (piece : List ℕ) → ReaderWaits m self.now → length piece < result → ahead m (packet_reader_data self.now) piece ≡ unfinished }
    {
        self.target - self.unfinished.len()
    }

    /// The fault that was found, which is answered for good; none as long as packets are read. It takes no memory.
    #[tactic(auto, unfolding(crate::specs::PacketReaderData::packet_reader_data))]
    pub fn fault(&self) -> Option<PacketFault>
        ensures { result ≡ (packet_reader_data self.now).fault }
    {
        self.fault
    }

    /// Whether no byte of an unfinished packet is held, so that keys may be set. It takes no memory.
    #[tactic(auto, unfolding(crate::specs::PacketReaderData::packet_reader_data))]
    pub fn is_idle(&self) -> bool
        ensures { IsTrue result ↔ ((packet_reader_data self.now).held ≡ []) }
    {
        self.unfinished.as_slice().is_empty()
    }

    /// Sets the keys with which the next packet is opened. `reset` says whether it has number 0, as
    /// under strict key exchange; else numbers go on. It takes no memory.
    ///
    /// The caller's condition is that no byte of an unfinished packet is held, as after each payload.
    #[tactic(auto, unfolding(crate::specs::PacketReaderData::packet_reader_data, crate::specs::PacketReaderData::last_used, crate::specs::PacketReaderData::target_len), using(crate::proofs::WaitLemmas::waits_empty, crate::proofs::WaitLemmas::none_held))]
    pub fn use_keys(&mut self, keys: Keys, reset: bool)
        requires { (packet_reader_data self.old).held ≡ [] }
        ensures state { packet_reader_data self.new ≡ record (packet_reader_data self.old) { keys = Some keys; seq = if reset then 0 else (packet_reader_data self.old).seq } }
        ensures taken { last_used self.new ≡ last_used self.old }
        ensures waits { (packet_reader_data self.old).fault ≡ None → (m : SuiteData) → ReaderWaits m self.new }
    {
        self.keys = Some(keys);
        self.target = 4;
        if reset {
            self.seq = 0;
        }
    }
}

/// The keys of the next packet, after one of so many bytes.
fn go_on<S: Suite>(suite: &S, keys: &mut Option<Keys>, len: usize)
    ensures { keys.new ≡ next_keys (S.meaning suite.now) keys.old len }
{
    if let Some(keys) = keys {
        suite.advance(keys, len);
    }
}

/// What the front of the bytes reads as is what stands there, and nothing else does.
fn front_means<S: Suite>(suite: &S, keys: &Option<Keys>, seq: u32, held: &[u8], piece: &[u8])
    ensures faithful { IsFaithful (protection (S.meaning suite.now) keys.now seq) }
    ensures bytes { IsBytes (held.now ++ piece.now) }
    ensures means { PacketMeans (protection (S.meaning suite.now) keys.now seq) (held.now ++ piece.now) (parse_packet (protection (S.meaning suite.now) keys.now seq) (held.now ++ piece.now)) }
    ensures only { (answer : Parse) → PacketMeans (protection (S.meaning suite.now) keys.now seq) (held.now ++ piece.now) answer
        → parse_packet (protection (S.meaning suite.now) keys.now seq) (held.now ++ piece.now) ≡ answer }
{
    crate::packet_laws::packet_law();
    sshwire::bytes_law();
}

/// What came of the packet at hand and a piece.
#[derive(Drop)]
enum Gathered {
    /// The packet isn't all there; once so many bytes of it are, more can be judged.
    Part { target: usize },
    /// It is, and was opened.
    Whole(Opened),
}

/// Reads on with a piece: fills the packet at hand, and opens it once all of it is there. Answers how
/// many bytes of the piece were used, too.
fn read_on<S: Suite>(
    alloc: Global,
    guard: &Protection<'_, S>,
    held: &mut BytesMut,
    target: usize,
    piece: &[u8],
) -> (usize, Result<Gathered, PacketFault>)
    requires room { length held.old.items < target }
    requires bound { target ≤ PACKET_LIMIT }
    ensures reads { let w = protection (S.meaning guard.now.suite.now) guard.now.keys.now guard.now.seq in
        parse_packet w held.old.items ≡ unfinished → target ≡ needed w held.old.items → ReadsOn w held.old.items piece.now held.new.items result.0 result.1 }
    ensures taken { result.0 ≤ length piece.now }
    ensures room { IfOk result.1 (λ read. GatheredRoom held.new.items result.0 read) }
    ensures spare { IfOk result.1 (λ read. KeepsRoom held.new.spare read) }
{
    let before = held.len();
    let filled = fill_packet(guard, held, target, piece);
    let taken = held.len() - before;
    (taken, open_filled(alloc, guard, held, filled))
}

/// What came of the bytes of the packet at hand.
#[derive(Drop)]
enum Filled {
    /// The packet isn't all there; once so many bytes of it are, more can be judged.
    Part { target: usize },
    /// It is.
    Whole,
}

/// Appends bytes of the piece up to the end of the packet, and judges its length once four bytes are
/// there.
fn fill_packet<S: Suite>(
    guard: &Protection<'_, S>,
    held: &mut BytesMut,
    target: usize,
    piece: &[u8],
) -> Result<Filled, PacketFault>
    requires room { length held.old.items < target }
    requires bound { target ≤ PACKET_LIMIT }
    ensures fills { let w = protection (S.meaning guard.now.suite.now) guard.now.keys.now guard.now.seq in
        parse_packet w held.old.items ≡ unfinished → target ≡ needed w held.old.items → FillsPacket w held.old.items piece.now held.new.items result }
    ensures room { IfOk result (λ filled. HasRoom (length held.new.items) filled) }
    ensures grows { (length held.old.items ≤ length held.new.items) × (length held.new.items ≤ length held.old.items + length piece.now) }
    ensures whole { IfOk result (λ filled. FilledSome (length held.old.items) (length held.new.items) filled) }
{
    if held.len() >= 4 {
        return fill_body(held, target, piece);
    }
    let used = fill(held, 4, piece)?;
    let Some(first) = first_four(held.as_slice()) else {
        return Ok(Filled::Part { target: 4 });
    };
    match guard.packet_len(first) {
        Some(len) => fill_body(held, len, after(piece, used)),
        None => Err(PacketFault::Length),
    }
}

/// Appends bytes of the piece up to the length of the packet.
fn fill_body(held: &mut BytesMut, len: usize, piece: &[u8]) -> Result<Filled, PacketFault>
    requires headed { 4 ≤ length held.old.items }
    requires room { length held.old.items < len }
    requires bound { len ≤ PACKET_LIMIT }
    ensures fills { FillsBody len piece.now held.old.items held.new.items result }
    ensures room { IfOk result (λ filled. HasRoom (length held.new.items) filled) }
    ensures grows { (length held.old.items ≤ length held.new.items) × (length held.new.items ≤ length held.old.items + length piece.now) }
    ensures whole { IfOk result (λ filled. FilledSome (length held.old.items) (length held.new.items) filled) }
{
    fill(held, len, piece)?;
    if held.len() < len {
        return Ok(Filled::Part { target: len });
    }
    Ok(Filled::Whole)
}

/// Appends as many bytes of the piece as are missing to so many. Room for all that is missing is asked
/// for at once.
fn fill(held: &mut BytesMut, target: usize, piece: &[u8]) -> Result<usize, Memory>
    requires room { length held.old.items ≤ target }
    requires bound { target ≤ PACKET_LIMIT }
    ensures ok { IfOk result (λ used. Fills target piece.now held.old.items held.new.items used) }
    ensures err { OnErr result (held.new.items ≡ held.old.items) }
{
    let missing = target - held.len();
    make_room(held, missing)?;
    let used = missing.min(piece.len());
    held.extend_reserved(&piece[..used]);
    Ok(used)
}

/// The first four bytes, where there are so many.
fn first_four(bytes: &[u8]) -> Option<[u8; 4]>
    ensures some { IfSome result (λ first. (first ≡ take 4 bytes.now) × (4 ≤ length bytes.now)) }
    ensures none { result ≡ None → length bytes.now < 4 }
{
    bytes.first_chunk::<4>().copied()
}

/// The bytes from a place on.
fn after(bytes: &[u8], start: usize) -> &[u8]
    requires { start ≤ length bytes.now }
    ensures { result.now ≡ drop start bytes.now }
{
    &bytes[start..]
}

/// Takes the packet out of the buffer and opens it, where all of it is there.
fn open_filled<S: Suite>(
    alloc: Global,
    guard: &Protection<'_, S>,
    held: &mut BytesMut,
    filled: Result<Filled, PacketFault>,
) -> Result<Gathered, PacketFault>
    requires { IfOk filled (λ filled. HasRoom (length held.old.items) filled) }
    ensures opens { OpensFilled (protection (S.meaning guard.now.suite.now) guard.now.keys.now guard.now.seq) held.old.items held.new.items filled result }
    ensures spare { IfOk result (λ read. KeepsRoom held.new.spare read) }
{
    match filled {
        Err(fault) => Err(fault),
        Ok(Filled::Part { target }) => Ok(Gathered::Part { target }),
        Ok(Filled::Whole) => match guard.open(alloc, held) {
            Ok(opened) => Ok(Gathered::Whole(opened)),
            Err(fault) => Err(fault),
        },
    }
}
