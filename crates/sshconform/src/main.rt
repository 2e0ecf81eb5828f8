//! The program `sshconform`: plays one deviant peer to an implementation of SSH over standard input and output, and tells by which
//! sentence of which document the implementation failed. docs/CONFORM.md has its words.
#![tactic(auto)]

mod blocks;
mod escapes;
mod judged;
mod listing;
mod own_key;
mod play;
mod report;
mod settings;
mod stop;
mod stream;
mod usage;
mod words;

use crate::settings::Work;
use crate::usage::USAGE;
use crate::words::read_words;
use sshprogram::{ProgramFault, words_of};
use std::io::Write;
use std::process::ExitCode;

fn main(rt: HostRuntime) -> ExitCode {
    match run(&rt) {
        Ok(status) => ExitCode::from(status),
        Err(fault) => {
            let _ = writeln!(rt.stderr(), "sshconform: {fault}");
            ExitCode::from(fault.status())
        }
    }
}

/// Does what the words ask for, and answers the exit status.
fn run(rt: &HostRuntime) -> Result<u8, ProgramFault> {
    let words = words_of(rt)?;
    match read_words(rt.alloc(), &words) {
        Ok(Work::List(listed)) => listing::list(rt, &listed),
        Ok(Work::Play(settings)) => play::play(rt, &settings),
        Err(no_work) => no_work.tell(rt, "sshconform", USAGE),
    }
}
