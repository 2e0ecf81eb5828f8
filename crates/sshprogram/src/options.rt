//! The options of a job, read from its words.

use crate::no_work::{NoWork, is_help};
use crate::word_fault::WordFault;
use std::alloc::Global;

/// The words that a job takes. Options and flags stand here without their two minus signs.
#[derive(Clone, Copy)]
pub struct Syntax {
    /// The job, as the text of a refused word names it.
    pub job: &'static str,
    /// The options, each of which has a value: the next word, or what stands after `=`.
    pub options: &'static [&'static str],
    /// The flags, which have no value.
    pub flags: &'static [&'static str],
    /// Whether one word may stand that belongs to no option.
    pub takes_subject: bool,
}

/// The words of a job, read by its syntax.
#[derive(Drop)]
pub struct Options<'a> {
    syntax: Syntax,
    subject: Option<&'a str>,
    given: Vec<Given<'a>>,
    /// The option whose value is the next word.
    open: Option<&'a str>,
}

/// An option and its value, or a flag and an empty one.
#[derive(Clone, Copy)]
struct Given<'a> {
    option: &'a str,
    value: &'a str,
}

impl<'a> Options<'a> {
    /// Reads the words of a job. Fails with `Usage` where one of them asks for that, and else with `Refused` for the first one that
    /// isn't of the syntax (`Unknown`), stands again (`Twice`, `Second`) or has no value (`NoValue`), or where an
    /// allocation failed (`Memory`). A word with two minus signs in front is no value of the option before it.
    pub fn read(
        alloc: Global,
        words: &'a [String],
        syntax: Syntax,
    ) -> Result<Options<'a>, NoWork<'a>> {
        if words.iter().any(|word| is_help(word)) {
            return Err(NoWork::Usage);
        }
        let mut options = Options {
            syntax,
            subject: None,
            given: Vec::new(alloc),
            open: None,
        };
        options.take_all(words)?;
        Ok(options)
    }

    /// Takes all words.
    fn take_all(&mut self, words: &'a [String]) -> Result<(), WordFault<'a>> {
        for word in words {
            self.take(word)?;
        }
        match self.open {
            Some(option) => Err(WordFault::NoValue(option)),
            None => Ok(()),
        }
    }

    /// Takes the next word.
    fn take(&mut self, word: &'a str) -> Result<(), WordFault<'a>> {
        match (self.open, word.strip_prefix("--")) {
            (Some(option), Some(_)) => Err(WordFault::NoValue(option)),
            (Some(option), None) => {
                self.open = None;
                self.put(option, word)
            }
            (None, Some(name)) => self.take_option(word, name),
            (None, None) => self.take_subject(word),
        }
    }

    /// Takes a word that belongs to no option.
    fn take_subject(&mut self, word: &'a str) -> Result<(), WordFault<'a>> {
        let job = self.syntax.job;
        if !self.syntax.takes_subject {
            return Err(WordFault::Unknown { job, word });
        }
        if self.subject.is_some() {
            return Err(WordFault::Second(word));
        }
        self.subject = Some(word);
        Ok(())
    }

    /// Takes a flag, or an option with its value if that stands in the same word.
    fn take_option(&mut self, word: &'a str, name: &'a str) -> Result<(), WordFault<'a>> {
        if has(self.syntax.flags, name) {
            return self.put(name, "");
        }
        let (option, value) = match name.split_once('=') {
            Some((option, value)) => (option, Some(value)),
            None => (name, None),
        };
        if !has(self.syntax.options, option) {
            let job = self.syntax.job;
            return Err(WordFault::Unknown { job, word });
        }
        match value {
            Some(value) => self.put(option, value),
            None => {
                self.open = Some(option);
                Ok(())
            }
        }
    }

    /// Puts an option that didn't stand before.
    fn put(&mut self, option: &'a str, value: &'a str) -> Result<(), WordFault<'a>> {
        if self.value(option).is_some() {
            return Err(WordFault::Twice(option));
        }
        match self.given.push(Given { option, value }) {
            Ok(()) => Ok(()),
            Err(_) => Err(WordFault::Memory),
        }
    }

    /// The value of an option, if it was given.
    pub fn value(&self, option: &str) -> Option<&'a str> {
        for one in &self.given {
            if one.option == option {
                return Some(one.value);
            }
        }
        None
    }

    /// Whether a flag was given.
    pub fn has_flag(&self, flag: &str) -> bool {
        self.value(flag).is_some()
    }

    /// The value of an option that the job needs. Fails with `Missing` where it wasn't given.
    pub fn needed(&self, option: &'static str) -> Result<&'a str, WordFault<'a>> {
        let job = self.syntax.job;
        self.value(option).ok_or(WordFault::Missing { job, option })
    }

    /// The word that belongs to no option, if it stands.
    pub fn subject(&self) -> Option<&'a str> {
        self.subject
    }

    /// The same, where the job needs it: what the subject says, as a text. Fails with `NoSubject` where it doesn't stand.
    pub fn needed_subject(&self, subject: &'static str) -> Result<&'a str, WordFault<'a>> {
        let job = self.syntax.job;
        self.subject.ok_or(WordFault::NoSubject { job, subject })
    }

    /// The names, with commas between, that are an option's value, or these where it wasn't given. Fails with `Other` for the first one
    /// that isn't in `all`.
    pub fn names(
        &self,
        option: &'static str,
        otherwise: &'static str,
        all: &'static str,
    ) -> Result<&'a str, WordFault<'a>> {
        let names = self.value(option).unwrap_or(otherwise);
        for name in names.split(',') {
            if !all.split(',').any(|own| own == name) {
                return Err(WordFault::Other { option, name, all });
            }
        }
        Ok(names)
    }

    /// Whether an option's value is `yes` and not `no`, or this where it wasn't given. Fails with `Other` for another value.
    pub fn yes_or_no(&self, option: &'static str, otherwise: bool) -> Result<bool, WordFault<'a>> {
        let all = "yes,no";
        match self.value(option) {
            None => Ok(otherwise),
            Some("yes") => Ok(true),
            Some("no") => Ok(false),
            Some(name) => Err(WordFault::Other { option, name, all }),
        }
    }
}

/// Whether the name is one of these.
fn has(names: &[&str], name: &str) -> bool {
    names.iter().any(|own| *own == name)
}
