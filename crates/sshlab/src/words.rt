//! The words of the program, read with `clap`.

ghost use Rattle.std.specs.Prelude.{◌≡◌, IfErr, IfOk, IsTrue, List, Ok, String, codes};
ghost use Rattle.std.specs.declared.alloc.Global.{Global};
ghost use Rattle.sshlab.specs.Statuses.{IsAsked, IsFirstWord, IsNoToolFault};

use crate::command_fault::CommandFault;
use crate::request::Request;
use clap::error::ErrorKind;
use clap::{Arg, ArgAction, ArgMatches, Command, Error};
use std::alloc::{AllocError, Global};

/// The one option that there is.
const SESSION: &str = "--session";

/// The name of that option.
const SESSION_NAME: &str = "session";

/// Reads the words, the program's name left out.
///
/// A word that begins with `-`, other than `--session`, is refused before anything else is judged.
pub(crate) fn request_of(alloc: Global, words: &[String]) -> Result<Request<'_>, CommandFault>
    ensures first { IfOk result (λ found. IsAsked words.now found) }
    ensures fault { IfErr result IsNoToolFault }
{
    if words.iter().any(|word| is_foreign_option(word)) {
        return Err(CommandFault::Words);
    }
    let matches = matches_of(alloc, words)?;
    found_in(words, &matches)
}

/// The words by the form that they have.
fn matches_of(alloc: Global, words: &[String]) -> Result<ArgMatches<'_>, CommandFault>
    ensures { IfErr result IsNoToolFault }
{
    match form_of(alloc)?.try_get_matches_from(words) {
        Ok(matches) => Ok(matches),
        Err(error) if error.kind() == ErrorKind::OutOfMemory => Err(CommandFault::Memory),
        Err(_) => Err(CommandFault::Words),
    }
}

/// The form of the words, or that memory ran out.
fn form_of<'a>(alloc: Global) -> Result<Command<'a>, CommandFault>
    ensures { IfErr result IsNoToolFault }
{
    command(alloc).map_err(|_| CommandFault::Memory)
}

/// What the words ask for, which have this form.
fn found_in<'a>(words: &[String], matches: &ArgMatches<'a>) -> Result<Request<'a>, CommandFault>
    ensures first { IfOk result (λ found. IsAsked words.now found) }
    ensures fault { IfErr result IsNoToolFault }
{
    match matches.subcommand() {
        Some((name, found)) if is_first(words, name) => asked_by(name, found),
        _ => Err(CommandFault::Words),
    }
}

/// What the words ask for whose first one is this.
fn asked_by<'a>(name: &str, found: &ArgMatches<'a>) -> Result<Request<'a>, CommandFault>
    ensures first { (words : List (String Global)) → IsFirstWord name.now words → IfOk result (λ found. IsAsked words found) }
    ensures fault { IfErr result IsNoToolFault }
{
    match name {
        "greet" => greet_of(found),
        "predict" => Ok(Request::Predict {
            session: found.get_flag(SESSION_NAME),
        }),
        "run" => Ok(Request::Run {
            session: found.get_flag(SESSION_NAME),
        }),
        "show" => Ok(Request::Show),
        "check" => Ok(Request::Check),
        _ => Err(CommandFault::Words),
    }
}

/// Whether this is the first of the words.
fn is_first(words: &[String], name: &str) -> bool
    ensures { IsTrue result → IsFirstWord name.now words.now }
{
    match words.first() {
        Some(word) => word.as_str() == name,
        None => false,
    }
}

/// The words of `greet`.
fn greet_of<'a>(greet: &ArgMatches<'a>) -> Result<Request<'a>, CommandFault>
    ensures first { (words : List (String Global)) → IsFirstWord (codes "greet") words → IfOk result (λ found. IsAsked words found) }
    ensures fault { IfErr result IsNoToolFault }
{
    match (
        greet.get_str("CLIENT"),
        greet.get_str("SERVER"),
        greet.get_str("SCHEDULE"),
    ) {
        (Some(client), Some(server), Some(schedule)) => Ok(Request::Greet {
            client,
            server,
            schedule,
        }),
        _ => Err(CommandFault::Words),
    }
}

fn is_foreign_option(word: &String) -> bool {
    word.starts_with('-') && word.as_str() != SESSION
}

/// The form of the words.
fn command<'a>(alloc: Global) -> Result<Command<'a>, AllocError> {
    let program = Command::new(alloc, "sshlab")
        .no_binary_name(true)
        .disable_help_subcommand(true)
        .disable_help_flag(true)
        .disable_version_flag(true)
        .subcommand_required(true);
    let program = with(Ok(program), of_greet(alloc));
    let program = with(program, of_scenario(alloc, "predict"));
    let program = with(program, of_scenario(alloc, "run"));
    let program = with(program, of_recording(alloc, "show"));
    with(program, of_recording(alloc, "check"))
}

/// The program's form with that of the words which begin so.
fn with<'a>(
    program: Result<Command<'a>, AllocError>,
    form: Result<Command<'a>, AllocError>,
) -> Result<Command<'a>, AllocError> {
    let (program, form) = each(program, form)?;
    program.subcommand(form)
}

/// Both values, where there are both; else the first fault.
fn each<A: Drop, B: Drop, E: Drop>(one: Result<A, E>, other: Result<B, E>) -> Result<(A, B), E>
    ensures { IfOk result (λ two. (one ≡ Ok two.0) × (other ≡ Ok two.1)) }
{
    match (one, other) {
        (Ok(one), Ok(other)) => Ok((one, other)),
        (Err(fault), _) | (_, Err(fault)) => Err(fault),
    }
}

/// The form of the words of `greet`: three, all required.
fn of_greet<'a>(alloc: Global) -> Result<Command<'a>, AllocError> {
    let greet = Command::new(alloc, "greet").disable_help_flag(true);
    let greet = required(alloc, greet, "CLIENT")?;
    let greet = required(alloc, greet, "SERVER")?;
    required(alloc, greet, "SCHEDULE")
}

/// The form with one required word more.
fn required<'a>(
    alloc: Global,
    form: Command<'a>,
    name: &'a str,
) -> Result<Command<'a>, AllocError> {
    form.arg(Arg::new(alloc, name).required(true))
}

/// The form of the words that ask for something of a recording: this one alone.
fn of_recording<'a>(alloc: Global, name: &'a str) -> Result<Command<'a>, AllocError> {
    Ok(Command::new(alloc, name).disable_help_flag(true))
}

/// The form of the words that ask for something of a scenario: this one, and perhaps `--session`.
fn of_scenario<'a>(alloc: Global, name: &'a str) -> Result<Command<'a>, AllocError> {
    let session = Arg::new(alloc, SESSION_NAME)
        .long(SESSION_NAME)
        .action(ArgAction::SetTrue);
    Command::new(alloc, name)
        .disable_help_flag(true)
        .arg(session)
}
