//! What an endpoint reads its bytes with.

ghost use Rattle.std.specs.Prelude.{◌≡◌, ◌≢◌, ◌+◌, ◌*◌, ◌<◌, ◌≤◌, ℕ, Bool, IfOk, IfSome, List, None, OnOk, length, take, true};
ghost use Rattle.sshwire.specs.Feeding.{StandsOpen};
ghost use Rattle.sshwire.specs.LineReaderData.{Finished, PeerLineReaderData};
ghost use Rattle.sshwire.specs.declared.fault.WireFault.TheVariants as wire;
ghost use Rattle.sshpacket.specs.declared.fault.PacketFault.TheVariants as packet;
ghost use Rattle.sshpacket.specs.KeysData.{KeysData};
ghost use Rattle.sshpacket.specs.Parse.{OfPacket};
ghost use Rattle.sshpacket.specs.PacketReaderData.{packet_reader_data};
ghost use Rattle.sshpacket.specs.declared.reader.PacketReader.{PacketReader};
ghost use Rattle.sshpacket.specs.declared.limits.TheConstants.{PACKET_LIMIT};
ghost use Rattle.sshcore.specs.declared.end.Fault.TheVariants as failed;
ghost use Rattle.sshcore.specs.declared.input.Input.TheVariants as input;
ghost use Rattle.sshcore.specs.Brings.{Gives};
ghost use Rattle.sshcore.specs.EndpointConfig.{config_data};
ghost use Rattle.sshcore.specs.EndData.{Failed, Open, end_data, fails};
ghost use Rattle.sshcore.specs.Inputs.{Begins, held_by};
ghost use Rattle.sshcore.specs.Record.{wanted};
ghost use Rattle.sshcore.specs.ReceivesLines.{EndsBy, MayReadOn, ReceivesLines, used_by};
ghost use Rattle.sshcore.specs.Replies.{fault_of};
ghost use Rattle.sshcore.specs.StateData.{state_data};

use crate::config::Config;
use crate::end::{End, Fault};
use crate::lent::set;
use crate::state::State;
use sshneg::Side;
use sshpacket::{Keys, PacketFault, PacketReader, Suite};
use sshwire::{LineForm, Memory, OTHER_LINE_LIMIT, PeerLineReader, PeerStep, WireFault};
use std::alloc::Global;

/// What an endpoint reads its bytes with: lines first, then packets.
#[derive(Drop)]
pub(crate) enum Input {
    Lines(PeerLineReader),
    Packets(PacketReader),
}

impl Input {
    /// Before any byte. A client accepts 20 other lines before the version line, a server none (profile);
    /// the form says which line that is.
    pub(crate) fn new(alloc: Global, role: Side, form: LineForm) -> Input
        ensures { Begins role form result }
    {
        let others = match role {
            Side::Client => OTHER_LINE_LIMIT,
            Side::Server => 0,
        };
        Input::Lines(PeerLineReader::new(alloc, others, form))
    }

    /// How many bytes of the unfinished line or packet are held.
    pub(crate) fn buffered(&self) -> usize
        ensures held { result ≡ held_by self.now }
        ensures bound { result ≤ PACKET_LIMIT }
    {
        match self {
            Input::Lines(reader) => reader.buffered(),
            Input::Packets(reader) => reader.buffered(),
        }
    }

    /// How many bytes more are wanted before anything comes of them: 0 of lines, of which each byte is looked at.
    pub(crate) fn wanted(&self) -> usize
        ensures { result ≡ wanted self.now }
    {
        match self {
            Input::Lines(_) => 0,
            Input::Packets(reader) => reader.missing(),
        }
    }

    /// The keys of what the peer sends, and the number of its next packet; before packets there are no keys,
    /// and the number is 0.
    pub(crate) fn into_keys(self) -> (Option<Keys>, u32)
        ensures keys { (reader : PacketReader) → self ≡ input.Packets reader → result.0 ≡ (packet_reader_data reader).keys }
        ensures number { (reader : PacketReader) → self ≡ input.Packets reader → result.1 ≡ (packet_reader_data reader).seq }
        ensures before { (reader : PeerLineReaderData) → self ≡ input.Lines reader → result ≡ (None, 0) }
    {
        match self {
            Input::Lines(_) => (None, 0),
            Input::Packets(reader) => reader.into_keys(),
        }
    }
}

/// What came of lines, with the bytes used: the version line hasn't come, a line was refused, or the
/// version line has come.
#[derive(Clone, Copy)]
pub(crate) enum Received {
    Part(usize),
    Refused(usize),
    Whole(usize),
}

impl Received {
    /// The bytes used.
    pub(crate) fn used(self) -> usize
        ensures { result ≡ used_by self }
    {
        match self {
            Received::Part(used) | Received::Refused(used) | Received::Whole(used) => used,
        }
    }
}

/// Reads on up to the end of the version line; fails as `Version` where a line is refused.
pub(crate) fn receive_lines(
    reader: &mut PeerLineReader,
    state: &mut State<'_>,
    piece: &[u8],
) -> Result<Received, Memory>
    requires open { end_data state.old.end ≡ Open }
    requires some { 0 < length piece.now }
    requires reads { reader.old.state.progress ≢ Finished }
    ensures lines { IfOk result (λ received. (k : ℕ) (bytes : List ℕ) → StandsOpen k bytes reader.old.state.progress
        → ReceivesLines reader.old.form k bytes reader.new.state (state_data state.old) (state_data state.new) piece.now received) }
    ensures reads { IfOk result (λ received. MayReadOn received reader.new.state.progress) }
    ensures form { reader.new.form ≡ reader.old.form }
    ensures used { IfOk result (λ received. used_by received ≤ length piece.now) }
    ensures ends { IfOk result (λ received. EndsBy received (used_by received) (length piece.now) (end_data state.new.end)) }
    // Nothing changes but how the endpoint stands and the text of the version line.
    ensures same { OnOk result (state_data state.new ≡ record (state_data state.old) {
      end = end_data state.new.end;
      known = record (state_data state.old).known { version = (state_data state.new).known.version };
    }) }
{
    match reader.feed(piece) {
        Ok(PeerStep::More) => Ok(Received::Part(piece.len())),
        Ok(PeerStep::Done { version, .. }) => {
            state.version = Vec::from_slice(state.alloc, version.text())?;
            Ok(Received::Whole(reader.taken()))
        }
        Err(fault) => {
            fail_line(state, fault)?;
            Ok(Received::Refused(reader.taken()))
        }
    }
}

/// Fails as a refused line asks for; nothing is sent (profile), and running out of memory is answered.
fn fail_line(state: &mut State<'_>, fault: WireFault) -> Result<(), Memory>
    ensures fails { OnOk result (state_data state.new ≡ record (state_data state.old) { end = Failed failed.Version }) }
    ensures refused { OnOk result (fault ≢ wire.Memory) }
{
    match fault {
        WireFault::Memory => Err(Memory),
        _ => {
            set(&mut state.end, End::Failed(Fault::Version));
            Ok(())
        }
    }
}

/// Fails as a refused packet asks for; running out of memory is answered.
pub(crate) fn fail_packet<S: Suite>(
    state: &mut State<'_>,
    config: &Config<'_>,
    suite: &S,
    fault: PacketFault,
    sent: &mut Vec<u8>,
) -> Result<(), Memory>
    ensures gives { OnOk result ((strict : Bool) (next : KeysData)
        → Gives (S.meaning suite.now) (config_data config.now).seed strict next (state_data state.old) (state_data state.new) sent.old.items sent.new.items (fails (fault_of (OfPacket fault)))) }
    ensures ends { OnOk result (end_data state.new.end ≡ Failed (fault_of (OfPacket fault))) }
    ensures refused { OnOk result (fault ≢ packet.Memory) }
{
    let Some(fault) = fault_of(fault) else {
        return Err(Memory);
    };
    let answers = state.fail(fault)?;
    state.send_answers(config, suite, &answers, sent)
}

/// The failure of a refused packet; none where memory ran out.
fn fault_of(fault: PacketFault) -> Option<Fault>
    ensures { IfSome result (λ found. (found ≡ fault_of (OfPacket fault)) × (fault ≢ packet.Memory)) }
{
    match fault {
        PacketFault::Length => Some(Fault::Length),
        PacketFault::Padding | PacketFault::Empty => Some(Fault::Padding),
        PacketFault::Mac => Some(Fault::Mac),
        PacketFault::Memory => None,
    }
}
