//! Words by which a program has nothing to do, and what it prints of them.

use crate::program_fault::ProgramFault;
use crate::word_fault::WordFault;
use std::io::Write;

/// The exit status of words that are refused.
pub const REFUSED: u8 = 2;

/// Why a program's words name no work.
#[derive(Clone, Copy)]
pub enum NoWork<'a> {
    /// There are no words.
    NoWords,
    /// They ask for the usage.
    Usage,
    /// One of them is refused, or one is missing.
    Refused(WordFault<'a>),
}

impl<'a> From<WordFault<'a>> for NoWork<'a> {
    fn from(fault: WordFault<'a>) -> NoWork<'a> {
        NoWork::Refused(fault)
    }
}

impl NoWork<'_> {
    /// Prints the usage where it is asked for. Else prints on standard error the usage, where there are no words, or which word
    /// is refused, after the program's name. Answers the exit status: 0 for a usage that is asked for, else `REFUSED`. Fails
    /// with `Write` where standard output can't be written, and with `Memory` where the words were refused for that.
    pub fn tell(&self, rt: &HostRuntime, program: &str, usage: &str) -> Result<u8, ProgramFault> {
        match self {
            NoWork::NoWords => {
                let _ = rt.stderr().write_all(usage.as_bytes());
                Ok(REFUSED)
            }
            NoWork::Usage => match rt.stdout().write_all(usage.as_bytes()) {
                Ok(()) => Ok(0),
                Err(_) => Err(ProgramFault::Write),
            },
            NoWork::Refused(WordFault::Memory) => Err(ProgramFault::Memory),
            NoWork::Refused(fault) => {
                let _ = writeln!(rt.stderr(), "{program}: {fault}");
                Ok(REFUSED)
            }
        }
    }
}

/// The first word, which names a job, and the words after it. Fails with `NoWords` where there is none, and with `Usage` where the
/// first word asks for that.
pub fn first_word(words: &[String]) -> Result<(&str, &[String]), NoWork<'_>> {
    match words.split_first() {
        None => Err(NoWork::NoWords),
        Some((first, _)) if is_help(first) => Err(NoWork::Usage),
        Some((first, rest)) => Ok((first, rest)),
    }
}

/// Whether the word asks for the usage.
pub(crate) fn is_help(word: &str) -> bool {
    word == "--help" || word == "-h"
}
