//! What the programs share: the options of a command line, which words of it are refused, and why a program ends early.
#![tactic(auto)]

mod no_work;
mod options;
mod program_fault;
mod system;
mod word_fault;

pub use no_work::{NoWork, REFUSED, first_word};
pub use options::{Options, Syntax};
pub use program_fault::ProgramFault;
pub use system::{random, words_of};
pub use word_fault::WordFault;
