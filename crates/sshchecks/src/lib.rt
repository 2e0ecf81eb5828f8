//! Checks of other implementations of SSH: what a deviant peer sends, what is asked of who receives it, and what that one did.
//!
//! A check is data: lines that [`read_check`] reads (docs/CONFORM.md has their form). A [`Player`] plays it: bytes of the
//! peer go in, in any pieces, bytes to send come out, and at the end a word of what the peer did, which
//! [`verdict_of`] judges. It stands on the layers below an endpoint and has none itself, since an endpoint doesn't deviate.
#![tactic(auto)]

mod acts;
mod agreement;
mod bends;
mod check;
mod fault;
mod incoming;
mod kexinit;
mod known;
mod look;
mod noted;
mod own;
mod own_keys;
mod pairs;
mod peer;
mod player;
mod playing_acts;
mod playing_exchange;
mod playing_steps;
mod progress;
mod sending;
mod settings;
mod steps;
mod sweep;
mod terms;
mod verdict;

pub use acts::{Act, Work};
pub use check::{Asked, Check, name_in, next_check, read_check};
pub use fault::{CheckFault, PlayFault};
pub use incoming::CAME_LIMIT;
pub use player::{Player, Turn};
pub use settings::Setting;
pub use steps::Step;
pub use sweep::{Place, expected_at};
pub use verdict::{Verdict, verdict_of};
