//! The program `sshauth`: a client or a server that authenticates over standard input and output, by algorithms that
//! are deployed, or a client that only looks at a server. What it tells of itself goes to standard error. docs/SSHAUTH.md has its words.
#![tactic(auto)]

mod agent;
mod agent_fault;
mod agent_messages;
mod answers;
mod asked_groups;
mod authorized;
mod base64_digits;
mod channel;
mod channel_answers;
mod channel_messages;
mod clear_stream;
mod command;
mod fault;
mod files;
mod findings;
mod greeter;
mod groups;
mod host_keys;
mod host_names;
mod key_lines;
mod notices;
mod own_key;
mod parts;
mod probe;
mod refused;
mod remote_output;
mod report;
mod session_stream;
mod settings;
mod talk;
mod terminal;
mod trust;
mod usage;
mod words;

use crate::fault::Fault;
use crate::settings::{Job, Settings};
use crate::usage::USAGE;
use crate::words::read_words;
use sshprogram::words_of;
use std::io::Write;
use std::process::ExitCode;

fn main(rt: HostRuntime) -> ExitCode {
    match run(&rt) {
        Ok(status) => ExitCode::from(status),
        Err(fault) => {
            let _ = writeln!(rt.stderr(), "sshauth: {fault}");
            ExitCode::from(fault.status())
        }
    }
}

/// Does what the words ask for, and answers the exit status.
fn run(rt: &HostRuntime) -> Result<u8, Fault> {
    let words = words_of(rt)?;
    match read_words(rt.alloc(), &words) {
        Ok(settings) => work(rt, &settings),
        Err(no_work) => Ok(no_work.tell(rt, "sshauth", USAGE)?),
    }
}

/// Does a job, and answers the exit status.
fn work(rt: &HostRuntime, settings: &Settings<'_>) -> Result<u8, Fault> {
    match settings.role {
        Job::Client => talk::client(rt, settings),
        Job::Server => talk::server(rt, settings),
        Job::Probe => probe::probe(rt, settings),
    }
}
