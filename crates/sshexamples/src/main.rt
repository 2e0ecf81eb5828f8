//! The program `sshexamples`: examples to copy, each in a file of its own. Its words are an example and the file that it reads,
//! several times; `-` or no file is standard input. All words after `client` are the client's.
//!
//!     sshexamples sniffer < recording
#![tactic(auto)]

mod client;
mod kexinit;
mod packet;
mod server;
mod sniffer;
mod waiting;

use anyhow::bail;
use client::run_client;
use kexinit::print_kexinit;
use packet::print_packet;
use server::run_server;
use sniffer::print_choice;
use std::io::Read;
use std::{env, fs};
use waiting::run_waiting;

/// Runs each example that the words name. Before each but the first it prints which, so that it is seen that all before have
/// ended well.
fn main(rt: HostRuntime) -> anyhow::Result<()> {
    let words: Vec<String> = env::args(&rt)?.skip(1).collect(rt.alloc())?;
    let mut rest = run(&rt, &words)?;
    for _ in 0..words.len() {
        if let Some(example) = rest.first() {
            println!(rt; "{example}:")?;
            rest = run(&rt, rest)?;
        }
    }
    Ok(())
}

/// Runs the example that the first word names, and answers the words after its own.
fn run<'a>(rt: &HostRuntime, words: &'a [String]) -> anyhow::Result<&'a [String]> {
    let Some((example, rest)) = words.split_first() else {
        bail!("an example is asked for")
    };
    if example.as_str() == "client" {
        run_client(rt, rest)?;
        return Ok(&[]);
    }
    let file = rest.first().map_or("-", |file| file.as_str());
    run_on(rt, example, &input_of(rt, file)?)?;
    Ok(rest.get(1..).unwrap_or(&[]))
}

/// Runs an example on the bytes that it reads.
fn run_on(rt: &HostRuntime, example: &str, bytes: &[u8]) -> anyhow::Result<()> {
    match example {
        "kexinit" => print_kexinit(rt, bytes),
        "packet" => print_packet(rt, str::from_utf8(bytes)?),
        "server" => run_server(rt, str::from_utf8(bytes)?),
        "sniffer" => print_choice(rt, str::from_utf8(bytes)?),
        "waiting" => run_waiting(rt, str::from_utf8(bytes)?),
        _ => bail!("the examples are client, kexinit, packet, server, sniffer and waiting"),
    }
}

/// The bytes of the file, or of standard input.
fn input_of(rt: &HostRuntime, file: &str) -> anyhow::Result<Vec<u8>> {
    if file != "-" {
        return Ok(fs::read(rt, file)?);
    }
    let mut bytes = Vec::new(rt.alloc());
    rt.stdin().read_to_end(&mut bytes)?;
    Ok(bytes)
}
