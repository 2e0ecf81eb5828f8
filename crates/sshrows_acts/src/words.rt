//! Lines, and the words that they are made of.

use crate::stop::Told;

/// A line of the input that says something.
#[derive(Clone, Copy)]
pub struct Line<'a> {
    /// Its number, from 1.
    pub number: u32,
    /// Its text.
    pub text: &'a str,
    /// Where is told what a row fails by.
    pub told: &'a Told,
}

impl<'a> Line<'a> {
    /// Its first word, and what stands after the blank.
    pub fn head(&self) -> (&'a str, &'a str) {
        split_word(self.text)
    }
}

/// The first word, and what stands after the blank; nothing where there is none.
pub fn split_word(text: &str) -> (&str, &str) {
    match text.split_once(' ') {
        Some((word, rest)) => (word, rest),
        None => (text, ""),
    }
}
