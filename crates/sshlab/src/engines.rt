//! The engines of `sshlab show` and `sshlab check`: a recording is read, and what it shows is written.

ghost use Rattle.std.specs.Prelude.{◌≡◌, ◌≢◌, ◌≤◌, ◌↔◌, ℕ, List, Err, IfErr, IfSome, OnErr, OnOk, false, length, string_bytes, take, true};
ghost use Rattle.std.specs.Io.KnownBytes.{Appends};
ghost use Rattle.sshlab.specs.Engines.{Judges, WritesText};
ghost use Rattle.sshlab.specs.declared.scenario.TheConstants.{TEXT_LIMIT};
ghost use Rattle.sshlab.specs.declared.tool_fault.ToolFault.TheVariants as fault;

use crate::findings::Findings;
use crate::input::read_all;
use crate::listing::Listing;
use crate::recording::Recording;
use crate::streams::{Sink, Source, write_all};
use crate::tool_fault::ToolFault;
use sshwire::Memory;
use std::alloc::Global;

/// Writes what the streams of a recording spell, up to the first NEWKEYS of each.
///
/// The input is read to its end before any of it is judged, and all that is to be written is built before
/// the first write. Answers `Read` where a read failed, `TooLong` above 1048576 bytes, `Recording` where a
/// line has none of the forms, `Memory` where an allocation failed, and then nothing is written; `Write` where a
/// write failed, or took no byte of some, and then a prefix is.
pub fn show<I: Source, O: Sink>(
    alloc: Global,
    input: &mut I,
    output: &mut O,
) -> Result<(), ToolFault>
    requires input { I.has_failed input.old ≡ false }
    requires output { O.has_failed output.old ≡ false }
    // In this call a read failed, or a write did.
    ensures read { (result ≡ Err fault.Read) ↔ (I.has_failed input.new ≡ true) }
    ensures write { (result ≡ Err fault.Write) ↔ (O.has_failed output.new ≡ true) }
    ensures unwritten { IfErr result (λ cause. cause ≢ fault.Write → output.new ≡ output.old) }
    ensures written { (text : List ℕ) × WritesText (O.contents output.old) (O.contents output.new) result text }
    // Where the input's bytes are known: they are a recording, or are refused for their length or at their first bad line.
    ensures judges { IfSome (I.remaining input.old) (λ bytes. Judges bytes result) }
{
    let text = shown(alloc, input)?;
    write_text(&text, output)
}

/// Writes whether both sides of a recording are strict, and whether each one's stream is in order. Answers
/// whether both are.
///
/// The faults are those of [`show`].
pub fn check<I: Source, O: Sink>(
    alloc: Global,
    input: &mut I,
    output: &mut O,
) -> Result<bool, ToolFault>
    requires input { I.has_failed input.old ≡ false }
    requires output { O.has_failed output.old ≡ false }
    // In this call a read failed, or a write did.
    ensures read { (result ≡ Err fault.Read) ↔ (I.has_failed input.new ≡ true) }
    ensures write { (result ≡ Err fault.Write) ↔ (O.has_failed output.new ≡ true) }
    ensures unwritten { IfErr result (λ cause. cause ≢ fault.Write → output.new ≡ output.old) }
    ensures written { (text : List ℕ) × WritesText (O.contents output.old) (O.contents output.new) result text }
    // Where the input's bytes are known: they are a recording, or are refused for their length or at their first bad line.
    ensures judges { IfSome (I.remaining input.old) (λ bytes. Judges bytes result) }
{
    let judgement = judged(alloc, input)?;
    write_text(&judgement.text, output)?;
    Ok(judgement.all_fine)
}

/// What is told of a recording, and whether nothing speaks against either side.
#[derive(Drop)]
struct Judgement {
    text: String,
    all_fine: bool,
}

/// The text that `show` writes.
fn shown<I: Source>(alloc: Global, input: &mut I) -> Result<String, ToolFault>
    requires { I.has_failed input.old ≡ false }
    ensures read { (result ≡ Err fault.Read) ↔ (I.has_failed input.new ≡ true) }
    ensures fault { IfErr result (λ cause. cause ≢ fault.Write) }
    ensures judges { IfSome (I.remaining input.old) (λ bytes. Judges bytes result) }
{
    let text = read_all(alloc, input)?;
    shown_of(alloc, &text)
}

/// The text that `check` writes, and what it answers.
fn judged<I: Source>(alloc: Global, input: &mut I) -> Result<Judgement, ToolFault>
    requires { I.has_failed input.old ≡ false }
    ensures read { (result ≡ Err fault.Read) ↔ (I.has_failed input.new ≡ true) }
    ensures fault { IfErr result (λ cause. cause ≢ fault.Write) }
    ensures judges { IfSome (I.remaining input.old) (λ bytes. Judges bytes result) }
{
    let text = read_all(alloc, input)?;
    judged_of(alloc, &text)
}

/// What is shown of the recording with this text.
fn shown_of(alloc: Global, text: &[u8]) -> Result<String, ToolFault>
    requires { length text.now ≤ TEXT_LIMIT }
    ensures fault { IfErr result (λ cause. (cause ≢ fault.Read) × (cause ≢ fault.Write)) }
    ensures judges { Judges text.now result }
{
    let recording = Recording::parse(alloc, text)?;
    listed(alloc, &recording)
}

/// What is shown of a recording.
fn listed(alloc: Global, recording: &Recording) -> Result<String, ToolFault>
    ensures { IfErr result (λ cause. cause ≡ fault.Memory) }
{
    let listing = Listing::of(alloc, recording)?;
    listing.to_string(alloc).map_err(|_| ToolFault::Memory)
}

/// What is judged of the recording with this text.
fn judged_of(alloc: Global, text: &[u8]) -> Result<Judgement, ToolFault>
    requires { length text.now ≤ TEXT_LIMIT }
    ensures fault { IfErr result (λ cause. (cause ≢ fault.Read) × (cause ≢ fault.Write)) }
    ensures judges { Judges text.now result }
{
    let recording = Recording::parse(alloc, text)?;
    judgement_of(alloc, &recording)
}

/// What is judged of a recording.
fn judgement_of(alloc: Global, recording: &Recording) -> Result<Judgement, ToolFault>
    ensures { IfErr result (λ cause. cause ≡ fault.Memory) }
{
    let findings = findings_of(alloc, recording)?;
    match findings.to_string(alloc) {
        Ok(text) => Ok(Judgement {
            text,
            all_fine: findings.all_fine(),
        }),
        Err(_) => Err(ToolFault::Memory),
    }
}

/// What a recording shows.
fn findings_of(alloc: Global, recording: &Recording) -> Result<Findings, Memory> {
    let listing = Listing::of(alloc, recording)?;
    Findings::of(alloc, &listing)
}

/// Writes a text.
pub(crate) fn write_text<O: Sink>(text: &str, output: &mut O) -> Result<(), ToolFault>
    requires { O.has_failed output.old ≡ false }
    ensures failed { (result ≡ Err fault.Write) ↔ (O.has_failed output.new ≡ true) }
    ensures fault { IfErr result (λ cause. cause ≡ fault.Write) }
    ensures whole { OnOk result (Appends (O.contents output.old) (O.contents output.new) text.now) }
    ensures prefix { OnErr result ((n : ℕ) × Appends (O.contents output.old) (O.contents output.new) (take n text.now)) }
{
    match write_all(output, text.as_bytes()) {
        Ok(()) => Ok(()),
        Err(_) => Err(ToolFault::Write),
    }
}
