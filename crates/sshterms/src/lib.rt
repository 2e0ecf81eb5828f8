//! Terms, by which rows and checks spell bytes, and the bytes that they name. docs/ROWS.md has their forms.
#![tactic(auto)]

mod names;
mod terms;

pub use names::Names;
pub use terms::{TermFault, bytes_of, put_string};
