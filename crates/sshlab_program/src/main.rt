//! The program `sshlab`: its words and standard streams, handed to the library.
#![tactic(auto)]

use sshlab::{StreamSink, StreamSource, refuse_words, tool};
use std::process::ExitCode;
use std::{env, io};

fn main(rt: HostRuntime) -> ExitCode {
    let mut faults = StreamSink::new(rt.stderr());
    let words = match words_of(&rt) {
        Ok(words) => words,
        Err(error) => return ExitCode::from(refuse_words(error, &mut faults)),
    };
    let mut input = StreamSource::new(rt.stdin());
    let mut output = StreamSink::new(rt.stdout());
    ExitCode::from(tool(rt.alloc(), &words, &mut input, &mut output, &mut faults))
}

/// The words after the program's name.
fn words_of(rt: &HostRuntime) -> io::Result<Vec<String>> {
    let mut words = Vec::new(rt.alloc());
    for word in env::args(rt)?.skip(1) {
        words.push(word)?;
    }
    Ok(words)
}
