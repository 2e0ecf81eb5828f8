//! Two endpoints of SSH, a client and a server, and what comes of them; and two readers of version lines, which
//! receive from each other by the same deliveries.
//!
//! Alone it foretells how a client and a server of two configs end, without running them ([`predict`]), and runs both
//! with bytes moved in any pieces ([`World`]): for who judges configs, and for tests of an endpoint or a suite.
#![tactic(auto)]

mod algorithms;
mod course_laws;
mod drawn;
mod following;
mod greetings;
mod headline_laws;
mod judge;
mod law;
mod link_laws;
mod node;
mod predicted_ends;
mod prediction;
mod progress;
mod session;
mod session_laws;
mod side;
mod wire_laws;
mod world;

pub use course_laws::course_law;
pub use following::{follows_law, keeps_law};
pub use greetings::{Greeting, Reception, greet};
pub use headline_laws::headline_law;
pub use law::verdict_law;
pub use prediction::{predict, predict_with};
pub use session_laws::session_law;
pub use side::Delivery;
pub use sshneg::Side;
pub use wire_laws::wire_law;
pub use world::World;
