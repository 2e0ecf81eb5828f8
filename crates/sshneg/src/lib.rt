//! What two sides of SSH agree on, and what they derive from it (RFC 4253 sections 7 and 8).
//!
//! Alone it tells what two KEXINITs come to ([`choose`]), whether a side is strict ([`strict_of`]) and whether a guess
//! was right ([`guess_right`]), and gives the input of the exchange hash and the keys ([`exchange_input`], [`keys_of`]):
//! for sniffers, for who audits configs, and for makers of test vectors. It asks a suite what an algorithm needs and
//! can do, and for hashes.
#![tactic(auto)]

mod choice;
mod derivations;
mod guess;
mod law;
mod markers;
mod side;
mod strict;

pub use choice::{Chosen, NoCommon, choose};
pub use derivations::{Exchange, KeyMaterial, exchange_input, keys_of, signed_request};
pub use guess::guess_right;
pub use law::{agreement_law, choice_law, derivation_law, exchange_law, markers_law};
pub use markers::{is_marker, strict_marker};
pub use side::Side;
pub use strict::strict_of;
