//! Reads the lines at the start of a peer's stream by a form, up to the version line.

ghost use Rattle.std.specs.Prelude.{◌≡◌, ◌≢◌, ◌-◌, ◌≤◌, ◌↔◌, ℕ, IsTrue, List, [], ◌∷◌, ◌++◌, length, drop, take, true, None, Ok, Err, IfOk, IfSome};
ghost use Rattle.sshwire.specs.Lines.{IsUnfinished};
ghost use Rattle.sshwire.specs.LineReaderData.{Finished, Waits, held, others_left, unfinished};
ghost use Rattle.sshwire.specs.Reading.{ReadsTo, is_line_by, reading_by};

use crate::fault::{Memory, WireFault};
use crate::limits::LINE_LIMIT;
use crate::line_form::LineForm;
use crate::peer_version::{PeerVersion, is_line_by};
use std::alloc::Global;
use std::marker::Model;
use std::mem;

/// What a piece of a peer's stream brought.
#[derive(Debug, Drop)]
pub enum PeerStep {
    /// All bytes of the piece were used, and more are wanted.
    More,
    /// The version line has come.
    Done {
        /// The peer's version.
        version: PeerVersion,
        /// How many bytes of the piece were used, the LF of the version line included; the others
        /// weren't read.
        used: usize,
    },
}

/// How far a reader has come.
#[derive(Clone, Copy, Debug, PartialEq, Eq)]
enum Ending {
    Open,
    Done,
    Refused(WireFault),
}

/// Reads a peer's stream up to its version line by a form, in pieces of any length (RFC 4253 section 4.2).
///
/// It holds the bytes of the unfinished line and nothing older. By `LineForm::Strict` it reads what a
/// `LineReader` reads.
#[derive(Debug, Drop)]
pub struct PeerLineReader {
    alloc: Global,
    form: LineForm,
    left: u32,
    line: Vec<u8>,
    ending: Ending,
    taken: usize,
}

impl Model for PeerLineReader {
    ghost use Rattle.sshwire.specs.LineReaderData.{PeerLineReaderData};

    ghost Value = { PeerLineReaderData };

    ghost use Rattle.sshwire.specs.PeerLineReaderInside.{IsInside, peer_line_reader_data};

    ghost view = { peer_line_reader_data };

    ghost invariant = { IsInside };
}

impl PeerLineReader {
    ghost use Rattle.sshwire.specs.declared.fault.WireFault.{WireFault};
    ghost use Rattle.sshwire.specs.Feeding.{FeedAnswer, IsAgain, Leaves, NoneRefusedBy, OnlyPreambleAnswerBy, PreambleAnswerBy, StandsOpen, TakeAnswer, TakeLeaves, answer_of};
    ghost use Rattle.sshwire.specs.LineReaderData.{Refused};

    /// A reader that accepts so many other lines before the version line, takes that by this form, and has
    /// read nothing. A client gives `OTHER_LINE_LIMIT`; a server takes none (RFC 4253 section 4.2).
    pub fn new(alloc: Global, others: u32, form: LineForm) -> PeerLineReader
        ensures state { result ≡ record { state = record { progress = Waits others []; taken = 0 }; form = form } }
        ensures nothing { StandsOpen others [] result.state.progress }
    {
        PeerLineReader {
            alloc,
            form,
            left: others,
            line: Vec::new(alloc),
            ending: Ending::Open,
            taken: 0,
        }
    }

    /// A reader that accepts so many other lines before the version line, takes that by this form, and holds this
    /// unfinished line, as one did that has read further. None where it is no such line: where it has a NUL or an LF, or
    /// 255 bytes. `Memory` where an allocation failed.
    pub fn going_on(
        alloc: Global,
        others: u32,
        form: LineForm,
        line: &[u8],
    ) -> Result<Option<PeerLineReader>, Memory>
        ensures state { IfOk result (λ o. IfSome o (λ r. r ≡ record { state = record { progress = Waits others line.now; taken = 0 }; form = form })) }
        ensures none { IfOk result (λ o. o ≡ None → IsUnfinished line.now → ⊥) }
    {
        if !is_unfinished(line) {
            return Ok(None);
        }
        let line = Vec::from_slice(alloc, line)?;
        Ok(Some(PeerLineReader {
            alloc,
            form,
            left: others,
            line,
            ending: Ending::Open,
            taken: 0,
        }))
    }

    /// Reads the next bytes of the stream. Bytes after the version line aren't read. It may not be
    /// called once it has answered `Done`.
    ///
    /// Judges the bytes in the order of [`LineReader::feed`](crate::LineReader::feed), and answers the same
    /// refusals at the same places; what is a version line its form says. The version's text is what came,
    /// without the CR LF or LF that ended it. `Memory` comes where an allocation failed, never at a byte that
    /// is refused itself; `taken` is then at most the piece. After a refusal it gives the same refusal for
    /// good and uses nothing.
    pub fn feed(&mut self, piece: &[u8]) -> Result<PeerStep, WireFault>
        requires { self.old.state.progress ≢ Finished }

        // Whatever was received before, in whatever pieces: the answer is that of all bytes together.
        ensures tells { (k : ℕ) (received : List ℕ) → StandsOpen k received self.old.state.progress
            → PreambleAnswerBy self.old.form k received piece.now (answer_of result) self.new.state }
        ensures only { (k : ℕ) (received : List ℕ) → StandsOpen k received self.old.state.progress
            → OnlyPreambleAnswerBy self.old.form k received piece.now (answer_of result) }

        // Running out of memory never stands in place of a refusal: up to the last byte used none was due.
        ensures memory { (k : ℕ) (received : List ℕ) → StandsOpen k received self.old.state.progress
            → result ≡ Err WireFault.Memory → NoneRefusedBy self.old.form k (received ++ take self.new.state.taken piece.now) }

        ensures leaves { Leaves (answer_of result) self.new.state.progress }
        ensures form { self.new.form ≡ self.old.form }
        ensures taken { self.new.state.taken ≤ length piece.now }
        ensures again { (code : WireFault) → self.old.state.progress ≡ Refused code
            → IsAgain code (answer_of result) self.new.state }

        // The same as a function of what the reader holds.
        ensures reads { (left : ℕ) (line : List ℕ) → self.old.state.progress ≡ Waits left line
            → FeedAnswer (reading_by self.old.form left line piece.now) piece.now (answer_of result) self.new.state }
    {
        self.advance(piece)
    }

    /// Whether the version line has come, and `feed` may not be called any more. Takes no memory.
    pub fn is_done(&self) -> bool
        ensures exact { IsTrue result ↔ (self.now.state.progress ≡ Finished) }
    {
        self.ending == Ending::Done
    }

    /// How many bytes the last call of `feed` used, the refused byte included; 0 before the first.
    pub fn taken(&self) -> usize
        ensures { result ≡ self.now.state.taken }
    {
        self.taken
    }

    /// How many bytes of the unfinished line are held; 0 once the reader has answered or refused.
    pub fn buffered(&self) -> usize
        ensures held { result ≡ held self.now.state.progress }
        ensures bound { result ≤ LINE_LIMIT - 1 }
    {
        self.line.len()
    }

    /// How many other lines it still accepts; none once it has answered or refused. Takes no memory.
    pub fn others_left(&self) -> u32
        ensures left { result ≡ others_left self.now.state.progress }
        // What it holds is an unfinished line.
        ensures line { IsUnfinished (unfinished self.now.state.progress) }
    {
        match self.ending {
            Ending::Open => self.left,
            _ => 0,
        }
    }

    /// The bytes of the unfinished line; none once the reader has answered or refused. Takes no memory.
    pub fn unfinished(&self) -> &[u8]
        ensures { result.now ≡ unfinished self.now.state.progress }
    {
        &self.line
    }

    /// Reads the next bytes after the unfinished line that is held.
    fn advance(&mut self, piece: &[u8]) -> Result<PeerStep, WireFault>
        requires { self.old.state.progress ≢ Finished }
        ensures leaves { Leaves (answer_of result) self.new.state.progress }
        ensures form { self.new.form ≡ self.old.form }
        ensures taken { self.new.state.taken ≤ length piece.now }
        ensures again { (code : WireFault) → self.old.state.progress ≡ Refused code
            → IsAgain code (answer_of result) self.new.state }
        ensures reads { (left : ℕ) (line : List ℕ) → self.old.state.progress ≡ Waits left line
            → FeedAnswer (reading_by self.old.form left line piece.now) piece.now (answer_of result) self.new.state }
    {
        match self.take_line(piece) {
            Ok(None) => Ok(PeerStep::More),
            Ok(Some(line)) => Ok(PeerStep::Done {
                version: PeerVersion::of_unfinished(line),
                used: self.taken,
            }),
            Err(fault) => Err(fault),
        }
    }

    /// Reads the next bytes up to the end of the version line, and hands out what stands before its LF.
    pub(crate) fn take_line(&mut self, piece: &[u8]) -> Result<Option<Vec<u8>>, WireFault>
        requires { self.old.state.progress ≢ Finished }
        ensures line { IfOk result (λ taken. IfSome taken (λ line. is_line_by self.old.form line.items ≡ true)) }
        ensures leaves { TakeLeaves result self.new.state.progress }
        ensures form { self.new.form ≡ self.old.form }
        ensures taken { self.new.state.taken ≤ length piece.now }
        ensures again { (code : WireFault) → self.old.state.progress ≡ Refused code
            → (result ≡ Err code) × (self.new.state ≡ record { progress = Refused code; taken = 0 }) }
        ensures reads { (left : ℕ) (line : List ℕ) → self.old.state.progress ≡ Waits left line
            → TakeAnswer self.old.form (reading_by self.old.form left line piece.now) piece.now result self.new.state }
    {
        if let Ending::Refused(fault) = self.ending {
            self.taken = 0;
            return Err(fault);
        }
        let (taken, outcome) = take_bytes(
            self.alloc,
            self.form,
            &mut self.left,
            &mut self.line,
            piece,
        );
        self.taken = taken;
        match outcome {
            Ok(None) => Ok(None),
            Ok(Some(line)) => {
                self.ending = Ending::Done;
                Ok(Some(line))
            }
            Err(fault) => {
                self.ending = Ending::Refused(fault);
                self.line.clear();
                Err(fault)
            }
        }
    }

    /// Refuses for good, and holds nothing.
    pub(crate) fn refuse(&mut self, fault: WireFault)
        ensures { self.new ≡ record { state = record { progress = Refused fault; taken = self.old.state.taken }; form = self.old.form } }
    {
        self.ending = Ending::Refused(fault);
        self.line.clear();
    }
}

/// Whether these bytes may stand in a line before its LF, with room for that.
fn is_unfinished(line: &[u8]) -> bool
    ensures { IsTrue result ↔ IsUnfinished line.now }
{
    line.len() < LINE_LIMIT && line.iter().all(|b| *b != 0 && *b != b'\n')
}

/// Reads bytes until the version line or a refusal comes, and says how many it read.
fn take_bytes(
    alloc: Global,
    form: LineForm,
    left: &mut u32,
    line: &mut Vec<u8>,
    piece: &[u8],
) -> (usize, Result<Option<Vec<u8>>, WireFault>)
    requires { IsUnfinished line.old.items }
    ensures taken { result.0 ≤ length piece.now }
    ensures all { result.1 ≡ Ok None → result.0 ≡ length piece.now }
    ensures reads { ReadsTo form (reading_by form left.old line.old.items piece.now) left.new line.new.items
        (drop result.0 piece.now) result.1 }
{
    for (i, b) in piece.iter().enumerate() {
        match take_byte(alloc, form, left, line, *b) {
            Ok(None) => {}
            Ok(Some(taken)) => return (i + 1, Ok(Some(taken))),
            Err(fault) => return (i + 1, Err(fault)),
        }
    }
    (piece.len(), Ok(None))
}

/// Reads one byte.
fn take_byte(
    alloc: Global,
    form: LineForm,
    left: &mut u32,
    line: &mut Vec<u8>,
    b: u8,
) -> Result<Option<Vec<u8>>, WireFault>
    requires { IsUnfinished line.old.items }
    ensures { ReadsTo form (reading_by form left.old line.old.items (b ∷ [])) left.new line.new.items [] result }
{
    if b == 0 {
        return Err(WireFault::Line);
    }
    if b == b'\n' {
        return end_line(alloc, form, left, line);
    }
    if line.len() >= LINE_LIMIT - 1 {
        return Err(WireFault::TooLong);
    }
    match line.push(b) {
        Ok(()) => Ok(None),
        Err(_) => Err(WireFault::Memory),
    }
}

/// Reads the LF of the line.
fn end_line(
    alloc: Global,
    form: LineForm,
    left: &mut u32,
    line: &mut Vec<u8>,
) -> Result<Option<Vec<u8>>, WireFault>
    requires { IsUnfinished line.old.items }
    ensures { ReadsTo form (reading_by form left.old line.old.items (10 ∷ [])) left.new line.new.items [] result }
{
    if line.starts_with(b"SSH-") {
        if !is_line_by(form, line) {
            return Err(WireFault::Line);
        }
        return Ok(Some(mem::replace(line, Vec::new(alloc))));
    }
    if *left == 0 {
        return Err(WireFault::TooManyLines);
    }
    *left -= 1;
    line.clear();
    Ok(None)
}
