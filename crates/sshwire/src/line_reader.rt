//! Reads the lines at the start of a stream, up to the version line.

ghost use Rattle.std.specs.Prelude.{◌≡◌, ◌≢◌, ◌-◌, ◌≤◌, ◌↔◌, ℕ, IsTrue, List, [], ◌++◌, length, take, Err};
ghost use Rattle.sshwire.specs.LineReaderData.{Finished, Waits, held, unfinished};
ghost use Rattle.sshwire.specs.Reading.{reading};

use crate::fault::{Memory, WireFault};
use crate::limits::LINE_LIMIT;
use crate::line_form::LineForm;
use crate::peer_line_reader::PeerLineReader;
use crate::version_line::VersionLine;
use std::alloc::Global;
use std::marker::Model;

/// What a piece of the stream brought.
#[derive(Debug, Drop)]
pub enum LineStep {
    /// All bytes of the piece were used, and more are wanted.
    More,
    /// The version line has come.
    Done {
        /// The other side's version line.
        version: VersionLine,
        /// How many bytes of the piece were used, the LF of the version line included; the others
        /// weren't read.
        used: usize,
    },
}

/// Reads a stream up to its version line, in pieces of any length (RFC 4253 section 4.2).
///
/// It holds the bytes of the unfinished line and nothing older.
#[derive(Debug, Drop)]
pub struct LineReader {
    lines: PeerLineReader,
}

impl Model for LineReader {
    ghost use Rattle.sshwire.specs.LineReaderData.{LineReaderData};

    ghost Value = { LineReaderData };

    ghost use Rattle.sshwire.specs.Feeding.{IsInside, line_reader_data};

    ghost view = { line_reader_data };

    ghost invariant = { IsInside };
}

impl LineReader {
    ghost use Rattle.sshwire.specs.declared.fault.WireFault.{WireFault};
    ghost use Rattle.sshwire.specs.Feeding.{IsAgain, Leaves, NoneRefused, OnlyPreambleAnswer, FeedAnswer, StandsOpen, PreambleAnswer};
    ghost use Rattle.sshwire.specs.LineReaderData.{Refused};

    /// A reader that accepts so many other lines before the version line, and has read nothing. A
    /// client gives `OTHER_LINE_LIMIT`; a server takes none (RFC 4253 section 4.2).
    pub fn new(alloc: Global, others: u32) -> LineReader
        ensures state { result ≡ record { progress = Waits others []; taken = 0 } }
        ensures nothing { StandsOpen others [] result.progress }
    {
        LineReader {
            lines: PeerLineReader::new(alloc, others, LineForm::Strict),
        }
    }

    /// Reads the next bytes of the stream. Bytes after the version line aren't read. It may not be
    /// called once it has answered `Done`.
    ///
    /// Judges the bytes in order, and answers `Line` at a NUL, `TooLong` at byte 255 of a line where
    /// that is no LF, `Line` at the LF of a line that begins with `SSH-` and is no version line, and
    /// `TooManyLines` at the LF of the first other line too many (RFC 4253 section 4.2 gives the
    /// forms; the order is profile). `Memory` comes where an allocation failed, never at a byte that is
    /// refused itself; `taken` is then at most the piece. After a refusal it gives the same refusal for
    /// good and uses nothing.
    pub fn feed(&mut self, piece: &[u8]) -> Result<LineStep, WireFault>
        requires { self.old.progress ≢ Finished }

        // Whatever was received before, in whatever pieces: the answer is that of all bytes together.
        ensures tells { (k : ℕ) (received : List ℕ) → StandsOpen k received self.old.progress
            → PreambleAnswer k received piece.now result self.new }
        ensures only { (k : ℕ) (received : List ℕ) → StandsOpen k received self.old.progress
            → OnlyPreambleAnswer k received piece.now result }

        // Running out of memory never stands in place of a refusal: up to the last byte used none was due.
        ensures memory { (k : ℕ) (received : List ℕ) → StandsOpen k received self.old.progress
            → result ≡ Err WireFault.Memory → NoneRefused k (received ++ take self.new.taken piece.now) }

        ensures leaves { Leaves result self.new.progress }
        ensures taken { self.new.taken ≤ length piece.now }
        ensures again { (code : WireFault) → self.old.progress ≡ Refused code
            → IsAgain code result self.new }

        // The same as a function of what the reader holds.
        ensures reads { (left : ℕ) (line : List ℕ) → self.old.progress ≡ Waits left line
            → FeedAnswer (reading left line piece.now) piece.now result self.new }
    {
        self.advance(piece)
    }

    /// Whether the version line has come, and `feed` may not be called any more. Takes no memory.
    ///
    /// This loop reads a stream that comes in pieces:
    ///
    /// ```text
    /// let mut version = None;
    /// for piece in pieces {
    ///     if lines.is_done() {
    ///         break;
    ///     }
    ///     if let LineStep::Done { version: line, .. } = lines.feed(piece)? {
    ///         version = Some(line);
    ///     }
    /// }
    /// ```
    pub fn is_done(&self) -> bool
        ensures exact { IsTrue result ↔ (self.now.progress ≡ Finished) }
    {
        self.lines.is_done()
    }

    /// How many bytes the last call of `feed` used, the refused byte included; 0 before the first.
    pub fn taken(&self) -> usize
        ensures { result ≡ self.now.taken }
    {
        self.lines.taken()
    }

    /// How many bytes of the unfinished line are held; 0 once the reader has answered or refused.
    pub fn buffered(&self) -> usize
        ensures held { result ≡ held self.now.progress }
        ensures bound { result ≤ LINE_LIMIT - 1 }
    {
        self.lines.buffered()
    }

    /// The bytes of the unfinished line; none once the reader has answered or refused. Takes no memory.
    pub fn unfinished(&self) -> &[u8]
        ensures { result.now ≡ unfinished self.now.progress }
    {
        self.lines.unfinished()
    }

    /// Reads the next bytes after the unfinished line that is held.
    fn advance(&mut self, piece: &[u8]) -> Result<LineStep, WireFault>
        requires { self.old.progress ≢ Finished }
        ensures leaves { Leaves result self.new.progress }
        ensures taken { self.new.taken ≤ length piece.now }
        ensures again { (code : WireFault) → self.old.progress ≡ Refused code
            → IsAgain code result self.new }
        ensures reads { (left : ℕ) (line : List ℕ) → self.old.progress ≡ Waits left line
            → FeedAnswer (reading left line piece.now) piece.now result self.new }
    {
        match self.lines.take_line(piece) {
            Ok(None) => Ok(LineStep::More),
            Ok(Some(line)) => match VersionLine::of_unfinished(line) {
                Ok(version) => Ok(LineStep::Done {
                    version,
                    used: self.lines.taken(),
                }),
                Err(Memory) => {
                    self.lines.refuse(WireFault::Memory);
                    Err(WireFault::Memory)
                }
            },
            Err(fault) => Err(fault),
        }
    }
}
