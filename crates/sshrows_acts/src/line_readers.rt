//! The readers of lines as rows judge them: one by the letter alone, and one by a form.

use crate::below_texts::text_with;
use crate::stop::Stop;
use sshwire::{LineReader, LineStep, PeerLineReader, PeerStep, WireFault};
use std::alloc::Global;
use std::fmt::Display;

/// What a reader answers to a piece.
#[derive(Drop)]
pub(crate) enum Answer {
    /// All bytes were used.
    More,
    /// The version line has come.
    Done(Version),
    /// A byte was refused.
    Refused(WireFault),
}

/// What a reader answers at the end of the version line.
#[derive(Drop)]
pub(crate) struct Version {
    /// How the reader stands: `version` and the text in digits.
    pub(crate) end: String,
    /// What the version prints.
    pub(crate) printed: String,
    /// How many bytes of the piece were used.
    pub(crate) used: usize,
}

/// What a reader's other calls answer.
#[derive(Clone, Copy)]
pub(crate) struct Standing<'a> {
    /// Whether the version line has come.
    pub(crate) is_done: bool,
    /// How many bytes the last piece had used.
    pub(crate) taken: usize,
    /// How many bytes of the unfinished line are held.
    pub(crate) buffered: usize,
    /// Those bytes.
    pub(crate) unfinished: &'a [u8],
}

/// A reader of lines that is judged.
pub(crate) trait ReadsLines {
    /// Gives it a piece; one that has the version line is given nothing, and answers nothing.
    fn read(&mut self, alloc: Global, piece: &[u8]) -> Result<Option<Answer>, Stop>;

    /// What its other calls answer.
    fn stands(&self) -> Standing<'_>;
}

impl ReadsLines for LineReader {
    fn read(&mut self, alloc: Global, piece: &[u8]) -> Result<Option<Answer>, Stop> {
        if self.is_done() {
            return Ok(None);
        }
        match self.feed(piece) {
            Ok(LineStep::More) => Ok(Some(Answer::More)),
            Ok(LineStep::Done { version, used }) => done(alloc, version.text(), &version, used),
            Err(fault) => Ok(Some(Answer::Refused(fault))),
        }
    }

    fn stands(&self) -> Standing<'_> {
        Standing {
            is_done: self.is_done(),
            taken: self.taken(),
            buffered: self.buffered(),
            unfinished: self.unfinished(),
        }
    }
}

impl ReadsLines for PeerLineReader {
    fn read(&mut self, alloc: Global, piece: &[u8]) -> Result<Option<Answer>, Stop> {
        if self.is_done() {
            return Ok(None);
        }
        match self.feed(piece) {
            Ok(PeerStep::More) => Ok(Some(Answer::More)),
            Ok(PeerStep::Done { version, used }) => done(alloc, version.text(), &version, used),
            Err(fault) => Ok(Some(Answer::Refused(fault))),
        }
    }

    fn stands(&self) -> Standing<'_> {
        Standing {
            is_done: self.is_done(),
            taken: self.taken(),
            buffered: self.buffered(),
            unfinished: self.unfinished(),
        }
    }
}

/// The answer at the end of a version line with this text.
fn done(
    alloc: Global,
    text: &[u8],
    version: &impl Display,
    used: usize,
) -> Result<Option<Answer>, Stop> {
    let end = text_with(alloc, "version", &[text])?;
    let printed = format!(in alloc; "{version}")?;
    Ok(Some(Answer::Done(Version { end, printed, used })))
}
