//! Rows of checks: what a deviant peer sends to an endpoint of this project, and what the endpoint does about it. So the judge
//! of other implementations is judged itself. docs/ROWS.md has the lines.
#![tactic(auto)]

mod judge;
mod messages;
mod parts;
mod peer;
mod play;
mod trust;
mod words;

pub use judge::judge_check;
