//! Acts below the endpoint: messages, data types, lines, packets, choices and derivations.

use crate::below_choices::judge_choice;
use crate::below_derivations::judge_derivations;
use crate::below_lines::judge_receiving;
use crate::below_messages::judge_message;
use crate::below_packets::judge_packets;
use crate::below_suites::judge_suite;
use crate::below_types::{judge_parsing, judge_putting, judge_reading};
use crate::stop::Stop;
use crate::terms::bytes_of;
use crate::texts::wrong;
use crate::words::Line;
use sshlabsuites::{KemSuite, LabSuite};
use sshpacket::KeysElsewhere;
use sshsuite::DeployedSuite;
use sshterms::Names;
use std::alloc::Global;

/// Whether the word begins an act below the endpoint.
pub fn is_below(word: &str) -> bool {
    matches!(
        word,
        "message"
            | "reads"
            | "puts"
            | "parses"
            | "lines"
            | "packets"
            | "choose"
            | "derive"
            | "suite"
    )
}

/// Judges the lines from the act on, in pieces of at most so many bytes.
pub fn judge_below(
    alloc: Global,
    names: &Names,
    lines: &[Line<'_>],
    piece_len: usize,
) -> Result<(), Stop> {
    let Some((line, rest)) = lines.split_first() else {
        return Ok(());
    };
    let (word, terms) = line.head();
    match word {
        "message" => judge_message(alloc, names, line, terms, rest),
        "lines" => judge_receiving(alloc, names, line, terms, rest, piece_len),
        "packets" => packets(alloc, names, line, terms, rest, piece_len),
        "choose" => judge_choice(alloc, names, line, terms, rest),
        "suite" => calls(alloc, names, line, terms, rest),
        "derive" => judge_derivations(alloc, names, rest),
        _ => types(alloc, names, line, word, terms, rest),
    }
}

/// Judges data types.
fn types(
    alloc: Global,
    names: &Names,
    line: &Line<'_>,
    word: &str,
    terms: &str,
    lines: &[Line<'_>],
) -> Result<(), Stop> {
    match word {
        "reads" => {
            let bytes = bytes_of(alloc, names, line, terms)?;
            judge_reading(alloc, &bytes, lines)
        }
        "puts" => judge_putting(alloc, names, lines),
        _ => judge_parsing(alloc, names, lines),
    }
}

/// Judges packets over one of both suites.
fn packets(
    alloc: Global,
    names: &Names,
    line: &Line<'_>,
    suite: &str,
    lines: &[Line<'_>],
    piece_len: usize,
) -> Result<(), Stop> {
    match suite {
        "lab" => judge_packets(alloc, names, &LabSuite, lines, piece_len),
        "second" => judge_packets(alloc, names, &KemSuite, lines, piece_len),
        "deployed" => judge_packets(alloc, names, &DeployedSuite, lines, piece_len),
        _ => wrong(alloc, line, "suite", "lab, second or deployed", suite),
    }
}

/// Judges calls of one of the suites.
fn calls(
    alloc: Global,
    names: &Names,
    line: &Line<'_>,
    suite: &str,
    lines: &[Line<'_>],
) -> Result<(), Stop> {
    match suite {
        "lab" => judge_suite(alloc, names, &LabSuite, lines),
        "second" => judge_suite(alloc, names, &KemSuite, lines),
        "deployed" => judge_suite(alloc, names, &DeployedSuite, lines),
        "elsewhere" => {
            let suite = KeysElsewhere { suite: LabSuite };
            judge_suite(alloc, names, &suite, lines)
        }
        _ => wrong(
            alloc,
            line,
            "suite",
            "lab, second, deployed or elsewhere",
            suite,
        ),
    }
}
