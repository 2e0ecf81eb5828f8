//! Which word is refused, and why.

use std::fmt;

/// A word that a program doesn't take, or one that is missing. An `option` stands without its two minus signs, and a `job` as the
/// text names it. The text is what the program prints after its own name.
#[derive(Clone, Copy)]
pub enum WordFault<'a> {
    /// An allocation failed.
    Memory,
    /// The word is none of these.
    NoneOf {
        word: &'a str,
        names: &'a str,
    },
    /// The job has no such option.
    Unknown {
        job: &'a str,
        word: &'a str,
    },
    /// A word that belongs to no option stands after another.
    Second(&'a str),
    /// The job needs a word that belongs to no option: this.
    NoSubject {
        job: &'a str,
        subject: &'a str,
    },
    /// No value follows the option.
    NoValue(&'a str),
    /// The option stands twice.
    Twice(&'a str),
    /// The job needs this option.
    Missing {
        job: &'a str,
        option: &'a str,
    },
    /// The option needs this other one.
    Alone {
        option: &'a str,
        other: &'a str,
    },
    /// The option's value, or a name in it, is none of these.
    Other {
        option: &'a str,
        name: &'a str,
        all: &'a str,
    },
    /// The option's value isn't this, which tells of a number.
    NoNumber {
        option: &'a str,
        value: &'a str,
        wanted: &'a str,
    },
    /// The option's value has more bytes than this.
    Long {
        option: &'a str,
        limit: usize,
    },
}

impl fmt::Display for WordFault<'_> {
    fn fmt<W: fmt::Write>(&self, f: &mut fmt::Formatter<W>) -> fmt::Result {
        match self {
            WordFault::Memory => f.write_str("out of memory"),
            WordFault::NoneOf { word, names } => write!(f, "{word} isn't {names}"),
            WordFault::Unknown { job, word } => write!(f, "{word} isn't an option of {job}"),
            WordFault::Second(word) => write!(f, "{word} stands after another name"),
            WordFault::NoSubject { job, subject } => write!(f, "{job} needs {subject}"),
            WordFault::NoValue(option) => write!(f, "--{option} has no value"),
            WordFault::Twice(option) => write!(f, "--{option} stands twice"),
            WordFault::Missing { job, option } => write!(f, "{job} needs --{option}"),
            WordFault::Alone { option, other } => {
                write!(f, "--{option} stands without --{other}")
            }
            WordFault::Other { option, name, all } => {
                write!(f, "--{option}: {name} isn't one of {all}")
            }
            WordFault::NoNumber {
                option,
                value,
                wanted,
            } => write!(f, "--{option}: {value} isn't {wanted}"),
            WordFault::Long { option, limit } => {
                write!(f, "--{option} has more than {limit} bytes")
            }
        }
    }
}
