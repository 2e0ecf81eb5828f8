//! What the program `sshlab` does: its words, scenarios and recordings, and what it prints.
#![tactic(auto)]

mod clear_packets;
mod command_answers;
mod command_fault;
mod engines;
mod findings;
mod input;
mod line_words;
mod listing;
mod program;
mod recorded_stream;
mod recording;
mod report;
mod request;
mod scenario;
mod scenario_draft;
mod scenario_fields;
mod scenario_line;
mod scenario_run;
mod scenario_settings;
mod schedule;
mod streams;
mod tool_fault;
mod words;

pub use engines::{check, show};
pub use program::{refuse_words, tool};
pub use recording::piece;
pub use scenario::{Scenario, ScenarioFault, TEXT_LIMIT};
pub use scenario_line::Step;
pub use sshlabsuites::{
    KemSuite, LabDecisions, LabSuite, lab_client_parts, lab_decisions_law, lab_law,
    lab_server_parts,
};
pub use sshworld::{Delivery, Greeting, Reception, Side, greet};
pub use streams::{Broken, Sink, Source, StreamSink, StreamSource};
pub use tool_fault::ToolFault;
