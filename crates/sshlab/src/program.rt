//! All that the program does with its words and streams.

ghost use Rattle.std.specs.Prelude.{◌≡◌, ◌≢◌, ◌≤◌, ◌↔◌, ◌||◌, ℕ, Bool, Err, IfErr, IfOk, OnErr, OnOk, codes, false, string_bytes, take, true};
ghost use Rattle.std.specs.Io.KnownBytes.{Appends, Keeps};
ghost use Rattle.std.specs.IoError.{error_kind};
ghost use Rattle.sshlab.specs.Statuses.{AsksForInput, IsFirstWord, IsGreet, status_of, words_status};
ghost use Rattle.sshlab.specs.Told.{IsAnswered, PredictTells, Prints, RunTells, Writes};
ghost use Rattle.sshlab.specs.declared.command_fault.CommandFault.TheVariants as command;
ghost use Rattle.sshlab.specs.declared.tool_fault.ToolFault.TheVariants as fault;

use crate::command_answers::{greeting_of, read_prediction, read_run};
use crate::command_fault::CommandFault;
use crate::engines::{check, show, write_text};
use crate::request::Request;
use crate::streams::{Sink, Source, write_all};
use crate::words::request_of;
use std::alloc::Global;
use std::fmt::Write;
use std::{fmt, io};

/// The status where all is done.
pub(crate) const DONE: u8 = 0;

/// The status where bytes still wait.
pub(crate) const NOT_COMPLETE: u8 = 1;

/// What the words are answered: the text for the output, and the status once it is written.
#[derive(Drop)]
pub(crate) struct Answer {
    pub(crate) text: String,
    pub(crate) status: u8,
}

/// Does all that the program does with its words, its name left out, and answers the exit status.
///
/// 0 is done, 1 not complete, 2 bad words or input, 3 out of memory, 4 a failed read or write. A
/// refusal is told on `faults` in one line; where that can't be written the status stays. The whole
/// input is read before it is judged, and the whole output is built before any of it is written.
pub fn tool<I: Source, O: Sink, E: Sink>(
    alloc: Global,
    words: &[String],
    input: &mut I,
    output: &mut O,
    faults: &mut E,
) -> u8
    requires input { I.has_failed input.old ≡ false }
    requires output { O.has_failed output.old ≡ false }
    requires faults { E.has_failed faults.old ≡ false }
    ensures status { result ≤ 4 }
    // Bad words, bad input and running out of memory leave the output as it was.
    ensures kept { 2 ≤ result → result ≤ 3 → Keeps (O.contents output.old) (O.contents output.new) }
    ensures broken { (result ≡ 4) ↔ ((I.has_failed input.new || O.has_failed output.new) ≡ true) }
    // Where a read failed, nothing is written.
    ensures unwritten { I.has_failed input.new ≡ true → output.new ≡ output.old }
    // No byte of the input is read unless the first word asks for a scenario or a recording.
    ensures unread { (AsksForInput words.now → ⊥) → input.new ≡ input.old }
    // Where the first word is `predict`, what is written tells of the scenario that the input is how both sides are to end.
    ensures predict { IsFirstWord (codes "predict") words.now → Prints PredictTells (I.remaining input.old) (O.contents output.old) (O.contents output.new) (O.has_failed output.new) result }
    // Where it is `run`, it tells how both sides stand in a world to which its steps lead, and whether that is complete: 0 exactly if so.
    ensures run { IsFirstWord (codes "run") words.now → Prints RunTells (I.remaining input.old) (O.contents output.old) (O.contents output.new) (O.has_failed output.new) result }
{
    match done(alloc, words, input, output) {
        Ok(status) => status,
        Err(fault) => refuse(fault, faults),
    }
}

/// Tells on `faults` why the program's words can't be had as text, and answers the exit status.
///
/// 3 is out of memory, 2 any other cause.
pub fn refuse_words<E: Sink>(error: io::Error, faults: &mut E) -> u8
    requires { E.has_failed faults.old ≡ false }
    ensures { result ≡ words_status (error_kind error) }
{
    let fault = match error.kind() {
        io::ErrorKind::OutOfMemory => CommandFault::Memory,
        _ => CommandFault::Words,
    };
    refuse(fault, faults)
}

/// Does what the words ask for, and answers the exit status.
fn done<I: Source, O: Sink>(
    alloc: Global,
    words: &[String],
    input: &mut I,
    output: &mut O,
) -> Result<u8, CommandFault>
    requires input { I.has_failed input.old ≡ false }
    requires output { O.has_failed output.old ≡ false }
    ensures status { IfOk result (λ status. status ≤ 1) }
    ensures read { (result ≡ Err (command.Tool fault.Read)) ↔ (I.has_failed input.new ≡ true) }
    ensures write { (result ≡ Err (command.Tool fault.Write)) ↔ (O.has_failed output.new ≡ true) }
    ensures unwritten { IfErr result (λ cause. cause ≢ command.Tool fault.Write → output.new ≡ output.old) }
    ensures unread { (AsksForInput words.now → ⊥) → input.new ≡ input.old }
    ensures predict { IsFirstWord (codes "predict") words.now → (session : Bool) × Writes (PredictTells session) (I.remaining input.old) (O.contents output.old) (O.contents output.new) result }
    ensures run { IsFirstWord (codes "run") words.now → (session : Bool) × Writes (RunTells session) (I.remaining input.old) (O.contents output.old) (O.contents output.new) result }
{
    let request = request_of(alloc, words)?;
    answered(alloc, request, input, output)
}

/// Does what is asked for, and answers the exit status.
fn answered<I: Source, O: Sink>(
    alloc: Global,
    request: Request<'_>,
    input: &mut I,
    output: &mut O,
) -> Result<u8, CommandFault>
    requires input { I.has_failed input.old ≡ false }
    requires output { O.has_failed output.old ≡ false }
    ensures status { IfOk result (λ status. status ≤ 1) }
    ensures read { (result ≡ Err (command.Tool fault.Read)) ↔ (I.has_failed input.new ≡ true) }
    ensures write { (result ≡ Err (command.Tool fault.Write)) ↔ (O.has_failed output.new ≡ true) }
    ensures unwritten { IfErr result (λ cause. cause ≢ command.Tool fault.Write → output.new ≡ output.old) }
    ensures unread { IsGreet request.entry → input.new ≡ input.old }
    ensures answered { IsAnswered request.entry (I.remaining input.old) (O.contents output.old) (O.contents output.new) result }
{
    match request {
        Request::Greet {
            client,
            server,
            schedule,
        } => {
            let greeting = greeting_of(alloc, client, server, schedule)?;
            print(&greeting, output)
        }
        Request::Predict { session } => {
            let prediction = read_prediction(alloc, input, session)?;
            print(&prediction, output)
        }
        Request::Run { session } => {
            let run = read_run(alloc, input, session)?;
            print(&run, output)
        }
        Request::Show => {
            show(alloc, input, output)?;
            Ok(DONE)
        }
        Request::Check => {
            let all_fine = check(alloc, input, output)?;
            Ok(if all_fine { DONE } else { NOT_COMPLETE })
        }
    }
}

/// Prints the answer, and answers the status.
fn print<O: Sink>(answer: &Answer, output: &mut O) -> Result<u8, CommandFault>
    requires { O.has_failed output.old ≡ false }
    ensures failed { (result ≡ Err (command.Tool fault.Write)) ↔ (O.has_failed output.new ≡ true) }
    ensures fault { IfErr result (λ cause. cause ≡ command.Tool fault.Write) }
    ensures status { IfOk result (λ status. status ≡ answer.now.status) }
    ensures whole { OnOk result (Appends (O.contents output.old) (O.contents output.new) (string_bytes answer.now.text)) }
    ensures prefix { OnErr result ((n : ℕ) × Appends (O.contents output.old) (O.contents output.new)
        (take n (string_bytes answer.now.text))) }
{
    write_text(&answer.text, output)?;
    Ok(answer.status)
}

/// Tells a fault in one line, and answers its status.
fn refuse<E: Sink>(fault: CommandFault, faults: &mut E) -> u8
    requires { E.has_failed faults.old ≡ false }
    ensures { result ≡ status_of fault }
{
    let _ = writeln!(FaultText { sink: faults }, "{fault}");
    fault.status()
}

/// Text for a sink.
#[derive(Drop)]
struct FaultText<'a, E> {
    sink: &'a mut E,
}

impl<E: Sink> fmt::Write for FaultText<'_, E> {
    fn write_str(&mut self, s: &str) -> fmt::Result {
        if self.sink.failed() {
            return Err(fmt::Error);
        }
        write_all(self.sink, s.as_bytes()).map_err(|_| fmt::Error)
    }
}
