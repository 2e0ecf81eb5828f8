//! What a lab stands on: two insecure suites of algorithms, decisions by lists, and the parts of endpoints
//! by default.
#![tactic(auto)]

mod kem_suite;
mod lab_decisions;
mod lab_inventory;
mod lab_parts;
mod lab_suite;

pub use kem_suite::KemSuite;
pub use lab_decisions::{LabDecisions, lab_decisions_law};
pub use lab_parts::{lab_client_parts, lab_server_parts};
pub use lab_suite::{LabSuite, lab_law};
