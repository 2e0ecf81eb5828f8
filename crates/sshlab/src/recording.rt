//! Recordings of what a client and a server sent each other.
//!
//! The text of a recording is lines with an LF after each, which the last may lack. It has at most 1048576
//! bytes. A line is `c HEX`, sent by the client, or `s HEX`, sent by the server; an empty one says nothing.
//! HEX is hexadecimal digits in either case, two for each of at least one byte. What a side sent is the bytes
//! of its lines in their order.

ghost use Rattle.std.specs.Prelude.{◌≡◌, ◌++◌, ◌≤◌, IfErr, IfOk, OnOk, Some, length, option_map, true};
ghost use Rattle.std.specs.List.{list_all};
ghost use Rattle.sshneg.specs.declared.side.Side.TheVariants.{Client, Server};
ghost use Rattle.sshlab.specs.Recordings.{IsRecordingCause, is_recorded, of_side, piece_of, sent, stream};
ghost use Rattle.sshlab.specs.TextLines.{lines};
ghost use Rattle.sshlab.specs.declared.scenario.TheConstants.{TEXT_LIMIT};

use crate::tool_fault::ToolFault;
use hex::FromHexError;
use sshwire::Memory;
use sshworld::Side;
use std::alloc::Global;

/// What each side sent.
#[derive(Drop)]
pub(crate) struct Recording {
    pub(crate) client: Vec<u8>,
    pub(crate) server: Vec<u8>,
    alloc: Global,
}

/// The side that sent a line of a recording, and the bytes that its digits spell.
///
/// The line comes without its LF. None is the answer to any other form, the empty line too. `Memory`
/// only where an allocation failed.
#[tactic(auto, unfolding(crate::specs::Recordings::piece_of))]
pub fn piece(alloc: Global, line: &[u8]) -> Result<Option<(Side, Vec<u8>)>, Memory>
    ensures { IfOk result (λ found. option_map (λ sent. (sent.0, sent.1.items)) found ≡ piece_of line.now) }
{
    let (side, digits) = match line {
        [b'c', b' ', digits @ ..] => (Side::Client, digits),
        [b's', b' ', digits @ ..] => (Side::Server, digits),
        _ => return Ok(None),
    };
    if digits.is_empty() {
        return Ok(None);
    }
    match hex::decode(alloc, digits) {
        Ok(bytes) => Ok(Some((side, bytes))),
        Err(FromHexError::OutOfMemory) => Err(Memory),
        Err(_) => Ok(None),
    }
}

impl Recording {
    /// Reads a recording of at most 1048576 bytes. Answers `Recording` with the number of the first line
    /// that has none of the forms, and `Memory` where an allocation failed.
    pub(crate) fn parse(alloc: Global, text: &[u8]) -> Result<Recording, ToolFault>
        requires { length text.now ≤ TEXT_LIMIT }
        ensures client { IfOk result (λ recording. recording.client.items ≡ stream Client text.now) }
        ensures server { IfOk result (λ recording. recording.server.items ≡ stream Server text.now) }
        ensures taken { OnOk result (list_all is_recorded (lines text.now) ≡ true) }
        ensures refused { IfErr result (λ fault. IsRecordingCause (lines text.now) fault) }
    {
        let mut recording = Recording {
            client: Vec::new(alloc),
            server: Vec::new(alloc),
            alloc,
        };
        recording.read_lines(text)?;
        Ok(recording)
    }

    /// Reads the lines of a text.
    fn read_lines(&mut self, text: &[u8]) -> Result<(), ToolFault>
        requires { length text.now ≤ TEXT_LIMIT }
        ensures client { OnOk result (self.new.client.items ≡ self.old.client.items ++ stream Client text.now) }
        ensures server { OnOk result (self.new.server.items ≡ self.old.server.items ++ stream Server text.now) }
        ensures taken { OnOk result (list_all is_recorded (lines text.now) ≡ true) }
        ensures refused { IfErr result (λ fault. IsRecordingCause (lines text.now) fault) }
    {
        let mut number = 0u32;
        for line in text.split(|byte| *byte == b'\n') {
            number += 1;
            if !self.read_line(line)? {
                return Err(ToolFault::Recording(number));
            }
        }
        Ok(())
    }

    /// Adds what a line says, and answers whether a recording may have it.
    fn read_line(&mut self, line: &[u8]) -> Result<bool, Memory>
        ensures taken { IfOk result (λ taken. taken ≡ is_recorded line.now) }
        ensures client { OnOk result (self.new.client.items ≡ self.old.client.items ++ sent Client line.now) }
        ensures server { OnOk result (self.new.server.items ≡ self.old.server.items ++ sent Server line.now) }
    {
        match piece(self.alloc, line)? {
            Some((side, bytes)) => {
                self.append(side, &bytes)?;
                Ok(true)
            }
            None => Ok(line.is_empty()),
        }
    }

    /// Adds bytes that a side sent.
    fn append(&mut self, side: Side, bytes: &[u8]) -> Result<(), Memory>
        ensures client { OnOk result (self.new.client.items ≡ self.old.client.items ++ of_side Client (Some (side, bytes.now))) }
        ensures server { OnOk result (self.new.server.items ≡ self.old.server.items ++ of_side Server (Some (side, bytes.now))) }
    {
        match side {
            Side::Client => self.client.extend_from_slice(bytes)?,
            Side::Server => self.server.extend_from_slice(bytes)?,
        }
        Ok(())
    }
}
