//! What the program `sshrows` judges rows by, but for those of scenarios: the lines of a row and the bytes that they
//! name, endpoints, configs, and all that stands below an endpoint. docs/ROWS.md has the lines.
//!
//! It stands on no scenario, so it is proved beside the crate that reads them.
#![tactic(auto)]

mod asked;
mod below;
mod below_choices;
mod below_derivations;
mod below_lines;
mod below_messages;
mod below_packets;
mod below_suites;
mod below_texts;
mod below_told;
mod below_types;
mod below_written;
mod configs;
mod counted_suite;
mod endpoint_steps;
mod endpoints;
mod generous;
mod handed;
mod judged;
mod line_readers;
mod linked;
mod parts;
mod recorded;
mod refusals;
mod renewing;
mod signing;
mod stop;
mod terms;
mod texts;
mod words;

pub use below::{is_below, judge_below};
pub use configs::judge_config;
pub use endpoints::{Configures, Row, Way, judge_endpoint, judge_waiting};
pub use generous::Generous;
pub use refusals::{is_out_of_memory, refused};
pub use signing::{Signing, signing_of};
pub use sshterms::Names;
pub use stop::{Refusal, Stop, Told, Wrong};
pub use terms::{bytes_of, digest_of, xor_of};
pub use texts::{
    nothing_after, number_of, same_agreed, same_end, same_text, shows, wrong, yes_or_no,
};
pub use words::{Line, split_word};
