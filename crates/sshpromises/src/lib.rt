//! What a user of the library may conclude: each promise is proved from the public clauses of `sshworld`, `sshcore` and
//! `sshsuite` alone, as a caller sees them; only the law of rounds cites lemmas of `sshworld` besides. No program needs
//! this crate; it is the shortest way to read what the clauses come to.
#![tactic(auto)]

mod by_hand;
mod deployed;
mod pauses;
mod rounds;
mod sessions;
mod worlds;

pub use by_hand::{run_agreeing, run_by_hand, settle_by_hand};
pub use deployed::{compatible_law, fit_law, lists_curve25519, run_any_deployed, run_deployed};
pub use pauses::{rested_client, rested_server};
pub use rounds::rounds_law;
pub use sessions::{hand_over, handed_by_world, into_links, joined_by_hand};
pub use worlds::{any_two, foretold, same_ends, schedule_ends, settled, settles_from_anywhere};
