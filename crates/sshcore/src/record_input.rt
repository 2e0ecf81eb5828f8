//! What an endpoint reads its bytes with, made again from a record.

ghost use Rattle.std.specs.Prelude.{◌≡◌, IfOk, None, option_map};
ghost use Rattle.sshwire.specs.LineReaderData.{Waits};
ghost use Rattle.sshwire.specs.Lines.{IsUnfinished};
ghost use Rattle.sshpacket.specs.PacketReaderData.{ReaderWaits, packet_reader_data};
ghost use Rattle.sshpacket.specs.Parse.{parse_packet, protection, unfinished};
ghost use Rattle.sshcore.specs.Inputs.{CanRead};
ghost use Rattle.sshcore.specs.Record.{HasLine, IsMadeSo};
ghost use Rattle.sshcore.specs.RecordMade.{IsInputOf, IsReaderOf, missing_in};
ghost use Rattle.sshcore.specs.RecordView.{reader_record};

use crate::input::Input;
use crate::record_fault::RecordFault;
use crate::record_making::optional_keys;
use crate::record_parts::{ReaderParts, RecordParts};
use sshpacket::{Keys, PacketFault, PacketReader, PacketStep, Suite};
use sshwire::{LineForm, PeerLineReader};
use std::alloc::Global;

/// A reader of lines that accepts so many others, and holds this unfinished one.
fn lines_of(
    alloc: Global,
    others: u32,
    form: LineForm,
    line: &[u8],
) -> Result<PeerLineReader, RecordFault>
    ensures state { IfOk result (λ r. (r.state.progress ≡ Waits others line.now) × (r.form ≡ form)) }
    ensures made { IsUnfinished line.now → IsMadeSo (λ r. (r.state.progress ≡ Waits others line.now) × (r.form ≡ form)) result }
{
    match PeerLineReader::going_on(alloc, others, form, line) {
        Ok(Some(reader)) => Ok(reader),
        Ok(None) => Err(RecordFault::Unreadable),
        Err(_) => Err(RecordFault::Memory),
    }
}

/// A reader of packets with these keys, of which the next has this number, and that holds these unfinished bytes.
fn packets_of<S: Suite>(
    alloc: Global,
    suite: &S,
    keys: Option<Keys>,
    number: u32,
    held: &[u8],
) -> Result<PacketReader, RecordFault>
    ensures waits { IfOk result (λ r. ReaderWaits (S.meaning suite.now) r) }
    ensures made { parse_packet (protection (S.meaning suite.now) keys number) held.now ≡ unfinished
        → IsMadeSo (λ r. packet_reader_data r ≡ record { keys = keys; seq = number; held = held.now; fault = None }) result }
{
    let mut reader = PacketReader::going_on(alloc, keys, number);
    match reader.next(suite, held) {
        Ok(PacketStep::More) => {}
        Ok(PacketStep::Payload { .. }) => return Err(RecordFault::Unreadable),
        Err(PacketFault::Memory) => return Err(RecordFault::Memory),
        Err(_) => return Err(RecordFault::Unreadable),
    }
    Ok(reader)
}

/// What bytes are read with. It wants as many bytes more as the record says; where a packet waits that is none.
pub(crate) fn input_of<S: Suite>(
    alloc: Global,
    parts: &RecordParts<'_>,
    suite: &S,
    form: LineForm,
) -> Result<Input, RecordFault>
    ensures reads { IfOk result (λ i. CanRead (S.meaning suite.now) i) }
    ensures made { HasLine (reader_record parts.now.reader) → IsReaderOf (S.meaning suite.now) (reader_record parts.now.reader)
        → parts.now.missing ≡ missing_in (S.meaning suite.now) (reader_record parts.now.reader) (option_map (λ payload. payload.now) parts.now.waiting)
        → IsMadeSo (IsInputOf form (reader_record parts.now.reader)) result }
{
    let input = reader_of(alloc, &parts.reader, suite, form)?;
    let missing = match parts.waiting {
        None => input.wanted(),
        Some(_) => 0,
    };
    if missing != parts.missing as usize {
        return Err(RecordFault::Unreadable);
    }
    Ok(input)
}

/// The reader that holds what the record says.
fn reader_of<S: Suite>(
    alloc: Global,
    parts: &ReaderParts<'_>,
    suite: &S,
    form: LineForm,
) -> Result<Input, RecordFault>
    ensures reads { IfOk result (λ i. CanRead (S.meaning suite.now) i) }
    ensures made { HasLine (reader_record parts.now) → IsReaderOf (S.meaning suite.now) (reader_record parts.now)
        → IsMadeSo (IsInputOf form (reader_record parts.now)) result }
{
    match parts {
        ReaderParts::Lines { others, line } => {
            Ok(Input::Lines(lines_of(alloc, *others, form, line)?))
        }
        ReaderParts::Packets { keys, number, held } => {
            let keys = optional_keys(alloc, *keys)?;
            Ok(Input::Packets(packets_of(alloc, suite, keys, *number, held)?))
        }
    }
}
