//! One call of an endpoint: it is made of its record, goes on, and its record is written again.

ghost use Rattle.std.specs.Prelude.{[], ◌≡◌, ◌≢◌, ◌≤◌, IfErr, IfOk, IfSome, IsSome, List, None, OnOk, false, length, option_map, take, true, ℕ};
ghost use Rattle.sshcore.specs.Asking.{Answered, AskingAfter, asked_by, asking_end};
ghost use Rattle.sshcore.specs.AskingData.{asking_setup};
ghost use Rattle.sshcore.specs.EndData.{Open, by_input};
ghost use Rattle.sshcore.specs.EndpointParts.{DecisionsData};
ghost use Rattle.sshcore.specs.Questions.{AnswerData, Decided, decided, taken, taken_by};
ghost use Rattle.rezdolin.specs.declared.parts_of.Parts.{Parts};
ghost use Rattle.rezdolin.specs.Frames.{framed};
ghost use Rattle.rezdolin.specs.Questions.{told_end, told_question};
ghost use Rattle.sshcore.specs.QuestionsView.{question_data};
ghost use Rattle.sshcore.specs.Record.{IsRecordOf};
ghost use Rattle.rezdolin.specs.CarriedOn.{CarriesOn, IsReadOn};
ghost use Rattle.rezdolin.specs.Endpoints.{Trusts, digest_of, means};
ghost use Rattle.rezdolin.specs.Steps.{Begins, ComesTo, Disconnects, GoesOn, Holds, IsAnswered, IsAnsweredBy, IsReply, ReadsOn, StandsNow, is_for};
ghost use Rattle.rezdolin.specs.declared.answers.TheConstants.{END_ASKS, END_OPEN};
ghost use Rattle.rezdolin.specs.declared.steps.NoStep.TheVariants as no;
ghost use Rattle.rezdolin.specs.StepsView.{IsReady, WhyNoAnswer, WhyNoLeave, WhyNoReply, WhyNot, WhyNotFrom, frame_step, record_step, reply_data};
ghost use Rattle.rezdolin.specs.Trust.{trust_policy};

use crate::answers::{END_ASKS, END_DISCONNECTED, END_OPEN, EndNumbers, end_numbers, numbers};
use crate::frame::{FrameFault, frame, frame_in, text_in};
use crate::inputs::{ANSWER_NO, ANSWER_NO_SIGNATURE, ANSWER_SIGNATURE, ANSWER_YES};
use crate::parts::NoConfig;
use crate::parts_of::{Config, Parts};
use crate::question::question_record;
use crate::record::record_of;
use crate::trust::Trust;
use sshcore::{AskingEndpoint, Decisions, End, Fed, PausedEndpoint, Question, RecordFault, Silent};
use sshsuite::DeployedSuite;
use sshwire::Memory;
use std::alloc::Global;

/// Why a call doesn't go on.
#[derive(Clone, Copy)]
pub(crate) enum NoStep {
    /// What was put in can't be read.
    Unreadable,
    /// A draw has bytes that are all equal.
    Draws,
    /// The parts make no config.
    Config(NoConfig),
    /// The record is none.
    Record,
    /// The record was written for other parts.
    Parts,
    /// Nothing is asked that this answers.
    Unasked,
    /// An allocation failed.
    Memory,
}

impl From<Memory> for NoStep {
    ghost from_gives = { λ _ e. e ≡ no.Memory };

    fn from(_: Memory) -> NoStep {
        NoStep::Memory
    }
}

impl From<NoConfig> for NoStep {
    ghost from_gives = { λ f e. e ≡ no.Config f };

    fn from(fault: NoConfig) -> NoStep {
        NoStep::Config(fault)
    }
}

impl From<FrameFault> for NoStep {
    ghost from_gives = { λ f e. e ≡ frame_step f };

    fn from(fault: FrameFault) -> NoStep {
        match fault {
            FrameFault::Record => NoStep::Record,
            FrameFault::Parts => NoStep::Parts,
        }
    }
}

impl From<RecordFault> for NoStep {
    ghost from_gives = { λ f e. e ≡ record_step f };

    fn from(fault: RecordFault) -> NoStep {
        match fault {
            RecordFault::Memory => NoStep::Memory,
            RecordFault::Version | RecordFault::Unreadable => NoStep::Record,
        }
    }
}

/// What a call came to.
#[derive(Drop)]
pub(crate) struct Came {
    /// How many bytes of the piece were used.
    pub(crate) used: usize,
    /// What the endpoint sends.
    pub(crate) sent: Vec<u8>,
    /// How it stands.
    pub(crate) end: EndNumbers,
    /// Its record in its frame; no bytes where it has ended.
    pub(crate) record: Vec<u8>,
    /// The record of its question, or of its session; no bytes where there is neither.
    pub(crate) told: Vec<u8>,
}

/// What a program answers.
#[derive(Clone, Copy)]
pub(crate) enum Reply<'a> {
    Decided(bool),
    Signed(Option<&'a [u8]>),
}

/// What a call has of its parts.
#[derive(Drop)]
struct Ready<'a> {
    config: Config,
    digest: [u8; 32],
    trust: Option<Trust<'a>>,
}

/// The config of the parts, their digest, and whom they trust.
fn prepare<'a>(alloc: Global, parts: &Parts<'a>) -> Result<Ready<'a>, NoStep>
    ensures ready { IfOk result (λ r. IsReady parts.now r) }
    ensures refused { IfErr result (λ f. WhyNot parts.now f) }
{
    if !parts.are_read() {
        return Err(NoStep::Unreadable);
    }
    if !parts.are_drawn() {
        return Err(NoStep::Draws);
    }
    let config = parts.config(alloc)?;
    let digest = parts.digest(alloc)?;
    let trust = parts.trust();
    Ok(Ready {
        config,
        digest,
        trust,
    })
}

/// An endpoint of these parts that has received nothing.
pub(crate) fn begun(alloc: Global, parts: &Parts<'_>) -> Result<Came, NoStep>
    ensures came { IfOk result (Begins parts.now) }
    ensures refused { IfErr result (λ f. WhyNot parts.now f) }
{
    let ready = prepare(alloc, parts)?;
    let came = begin(alloc, &ready);
    drop(ready);
    Ok(came?)
}

/// The same of what a call has of its parts.
fn begin(alloc: Global, ready: &Ready<'_>) -> Result<Came, Memory>
    ensures came { IfOk result (λ c. (parts : Parts) → IsReady parts ready.now → Begins parts c) }
{
    let mut sent = Vec::new(alloc);
    let endpoint = ready.config.begin(alloc, &mut sent)?;
    Ok(came_to(alloc, endpoint, &ready.digest, 0, sent)?)
}

/// An endpoint of these parts that goes on from its record with these bytes.
pub(crate) fn stepped(
    alloc: Global,
    parts: &Parts<'_>,
    record: &[u8],
    piece: &[u8],
) -> Result<Came, NoStep>
    ensures came { IfOk result (GoesOn parts.now «record».now piece.now) }
    ensures refused { IfErr result (λ f. WhyNotFrom parts.now «record».now f) }
{
    if let Some(came) = hold(alloc, record, piece)? {
        return Ok(came);
    }
    let ready = prepare(alloc, parts)?;
    let text = text_in(record, &ready.digest)?;
    let came = step(alloc, &ready, text, piece);
    drop(ready);
    came
}

/// What a call came to of whose bytes nothing comes but that they are held; none where something may come of them, and where there
/// are none, so that a step by no bytes looks at parts and record. This looks at no parts.
fn hold(alloc: Global, record: &[u8], piece: &[u8]) -> Result<Option<Came>, Memory>
    ensures { IfOk result (λ o. IfSome o (Holds «record».now piece.now)) }
{
    if piece.is_empty() {
        return Ok(None);
    }
    let Some(found) = frame_in(record) else {
        return Ok(None);
    };
    let text = PausedEndpoint::<DeployedSuite>::record_holding(alloc, found.text, piece)?;
    let Some(text) = text else {
        return Ok(None);
    };
    let record = frame(alloc, found.digest, &text)?;
    Ok(Some(Came {
        used: piece.len(),
        sent: Vec::new(alloc),
        end: numbers(END_OPEN, 0, 0),
        record,
        told: Vec::new(alloc),
    }))
}

/// The same of what a call has of its parts, and of the record out of its frame.
fn step(alloc: Global, ready: &Ready<'_>, text: &[u8], piece: &[u8]) -> Result<Came, NoStep>
    ensures came { IfOk result (λ c. (parts : Parts) (bytes : List ℕ) → IsReady parts ready.now → bytes ≡ framed ready.now.digest text.now → ReadsOn parts bytes piece.now c) }
    ensures refused { IfErr result (λ f. (parts : Parts) (bytes : List ℕ) → IsReady parts ready.now → bytes ≡ framed ready.now.digest text.now → WhyNotFrom parts bytes f) }
{
    let mut endpoint = ready.config.resume(alloc, text)?;
    let mut sent = Vec::new(alloc);
    let used = carry(&mut endpoint, &ready.trust, piece, &mut sent)?;
    Ok(came_to(alloc, endpoint, &ready.digest, used, sent)?)
}

/// An endpoint of these parts that goes on from its record with this answer.
pub(crate) fn answered(
    alloc: Global,
    parts: &Parts<'_>,
    record: &[u8],
    answer: u32,
    signature: &[u8],
) -> Result<Came, NoStep>
    ensures came { IfOk result (IsAnsweredBy parts.now «record».now answer signature.now) }
    ensures refused { IfErr result (λ f. WhyNoAnswer parts.now «record».now answer signature.now f) }
{
    let Some(reply) = reply_of(answer, signature) else {
        return Err(NoStep::Unreadable);
    };
    let ready = prepare(alloc, parts)?;
    let text = text_in(record, &ready.digest)?;
    let came = reply_to(alloc, &ready, text, reply);
    drop(ready);
    came
}

/// The same of what a call has of its parts, and of the record out of its frame.
fn reply_to(alloc: Global, ready: &Ready<'_>, text: &[u8], reply: Reply<'_>) -> Result<Came, NoStep>
    ensures came { IfOk result (λ c. (parts : Parts) (bytes : List ℕ) → IsReady parts ready.now → bytes ≡ framed ready.now.digest text.now
        → (c.used ≡ 0) × ComesTo parts (IsAnswered (reply_data reply.entry) (digest_of parts) bytes) [] c.sent.items c.end c.record.items c.told.items) }
    ensures refused { IfErr result (λ f. (parts : Parts) (bytes : List ℕ) → IsReady parts ready.now → bytes ≡ framed ready.now.digest text.now → WhyNoReply parts bytes (reply_data reply.entry) f) }
{
    let mut endpoint = ready.config.resume(alloc, text)?;
    if !is_for(&reply, &endpoint.question()) {
        drop(endpoint);
        return Err(NoStep::Unasked);
    }
    let mut sent = Vec::new(alloc);
    give(&mut endpoint, reply, &mut sent)?;
    Ok(came_to(alloc, endpoint, &ready.digest, 0, sent)?)
}

/// Gives an endpoint the answer to its question.
fn give(
    endpoint: &mut AskingEndpoint<'_, DeployedSuite, Silent>,
    reply: Reply<'_>,
    sent: &mut Vec<u8>,
) -> Result<(), Memory>
    ensures owned { OnOk result (by_input (asking_end endpoint.new) ≡ false → asking_end endpoint.old ≡ asking_end endpoint.new) }
    ensures given { is_for (reply_data reply.entry) (asked_by endpoint.old) ≡ true → OnOk result (Answered means (taken_by (asked_by endpoint.old) (reply_data reply.entry)) endpoint.old endpoint.new sent.old.items sent.new.items) }
{
    match reply {
        Reply::Decided(allowed) => endpoint.answer(allowed, sent),
        Reply::Signed(signature) => endpoint.answer_signature(signature, sent),
    }
}

/// An endpoint of these parts that is told to disconnect.
pub(crate) fn disconnected(
    alloc: Global,
    parts: &Parts<'_>,
    record: &[u8],
    reason: u32,
    description: &[u8],
) -> Result<Came, NoStep>
    ensures came { IfOk result (Disconnects parts.now «record».now reason description.now) }
    ensures refused { IfErr result (λ f. WhyNoLeave parts.now «record».now description.now f) }
{
    let Ok(description) = str::from_utf8(description) else {
        return Err(NoStep::Unreadable);
    };
    let ready = prepare(alloc, parts)?;
    let text = text_in(record, &ready.digest)?;
    let came = disconnect(alloc, &ready, text, reason, description);
    drop(ready);
    came
}

/// The same of what a call has of its parts, and of the record out of its frame.
fn disconnect(
    alloc: Global,
    ready: &Ready<'_>,
    text: &[u8],
    reason: u32,
    description: &str,
) -> Result<Came, NoStep>
    ensures came { IfOk result (λ c. (parts : Parts) (bytes : List ℕ) → IsReady parts ready.now → bytes ≡ framed ready.now.digest text.now → Disconnects parts bytes reason description.now c) }
    ensures refused { IfErr result (λ f. (parts : Parts) (bytes : List ℕ) → IsReady parts ready.now → bytes ≡ framed ready.now.digest text.now → WhyNotFrom parts bytes f) }
{
    let mut endpoint = ready.config.resume(alloc, text)?;
    let mut sent = Vec::new(alloc);
    endpoint.disconnect(reason, description, &mut sent)?;
    drop(endpoint);
    Ok(Came {
        used: 0,
        sent,
        end: numbers(END_DISCONNECTED, 0, reason),
        record: Vec::new(alloc),
        told: Vec::new(alloc),
    })
}

/// The answer of this number, and this signature where it is one.
fn reply_of(answer: u32, signature: &[u8]) -> Option<Reply<'_>>
    ensures reply { IfSome result (λ reply. IsReply answer signature.now (reply_data reply)) }
    ensures none { result ≡ None → (a : AnswerData) → IsReply answer signature.now a → ⊥ }
{
    match (answer, signature.is_empty()) {
        (ANSWER_YES, true) => Some(Reply::Decided(true)),
        (ANSWER_NO, true) => Some(Reply::Decided(false)),
        (ANSWER_SIGNATURE, false) => Some(Reply::Signed(Some(signature))),
        (ANSWER_NO_SIGNATURE, true) => Some(Reply::Signed(None)),
        _ => None,
    }
}

/// Whether an answer is of the question's kind.
fn is_for(reply: &Reply<'_>, question: &Option<Question<'_>>) -> bool
    ensures { result ≡ is_for (reply_data reply.now) (option_map question_data question.now) }
{
    match (reply, question) {
        (Reply::Decided(_), Some(Question::HostKey { .. } | Question::User { .. })) => true,
        (Reply::Signed(_), Some(Question::Signature { .. })) => true,
        _ => false,
    }
}

/// Reads on up to the next question that the program is asked, or all there is, and answers how many bytes were used.
fn carry(
    endpoint: &mut AskingEndpoint<'_, DeployedSuite, Silent>,
    trust: &Option<Trust<'_>>,
    piece: &[u8],
    sent: &mut Vec<u8>,
) -> Result<usize, Memory>
    ensures carried { IfOk result (λ used. (d : DecisionsData) → Trusts trust.now d → CarriesOn means d endpoint.old endpoint.new (take used piece.now) sent.old.items sent.new.items) }
    ensures within { IfOk result (λ used. used ≤ length piece.now) }
    ensures decided { IfOk result (λ used. IsSome trust.now → asked_by endpoint.new ≡ None) }
    ensures whole { IfOk result (λ used. asking_end endpoint.new ≡ Open → asked_by endpoint.new ≡ None → used ≡ length piece.now) }
{
    let Some(trust) = trust else {
        return read_on(endpoint, piece, sent);
    };
    decide(endpoint, trust, sent)?;
    let mut used = read_on(endpoint, piece, sent)?;
    for _ in 0..piece.len() {
        if endpoint.question().is_none() {
            return Ok(used);
        }
        decide(endpoint, trust, sent)?;
        used += read_on(endpoint, &piece[used..], sent)?;
    }
    Ok(used)
}

/// Answers the question by the lists.
fn decide(
    endpoint: &mut AskingEndpoint<'_, DeployedSuite, Silent>,
    trust: &Trust<'_>,
    sent: &mut Vec<u8>,
) -> Result<(), Memory>
    ensures carried { OnOk result ((d : DecisionsData) → d ≡ trust_policy trust.now.host_keys.now trust.now.users.now → CarriesOn means d endpoint.old endpoint.new [] sent.old.items sent.new.items) }
    ensures decided { OnOk result (asked_by endpoint.new ≡ None) }
{
    let allowed = match endpoint.question() {
        Some(question) => is_allowed(trust, &question),
        None => return Ok(()),
    };
    endpoint.answer(allowed, sent)
}

/// What the lists answer: to a question for a signature none.
fn is_allowed(trust: &Trust<'_>, question: &Question<'_>) -> bool
    ensures { taken (question_data question.now) (Decided result) ≡ decided (trust_policy trust.now.host_keys.now trust.now.users.now) (question_data question.now) }
{
    match question {
        Question::HostKey { algorithm, blob } => trust.host_key(algorithm, blob),
        Question::User {
            number,
            user,
            service,
            proof,
            ..
        } => trust.user(*number, user, service, proof),
        Question::Signature { .. } => false,
    }
}

/// Reads on up to the next question, or all there is.
fn read_on(
    endpoint: &mut AskingEndpoint<'_, DeployedSuite, Silent>,
    rest: &[u8],
    sent: &mut Vec<u8>,
) -> Result<usize, Memory>
    ensures read { IfOk result (λ used. IsReadOn means endpoint.old endpoint.new rest.now used sent.old.items sent.new.items) }
    ensures within { IfOk result (λ used. used ≤ length rest.now) }
{
    match endpoint.feed(rest, sent)? {
        Fed::Asks { used } => Ok(used),
        Fed::Used(used) => Ok(used),
    }
}

/// What a call came to whose endpoint stands so.
fn came_to(
    alloc: Global,
    endpoint: AskingEndpoint<'_, DeployedSuite, Silent>,
    digest: &[u8; 32],
    used: usize,
    sent: Vec<u8>,
) -> Result<Came, Memory>
    ensures stands { IfOk result (λ c. (d : DecisionsData) (h s : List ℕ) → AskingAfter means d endpoint.entry h s → by_input (asking_end endpoint.entry) ≡ true → StandsNow (asking_setup means d endpoint.entry) digest.now h s c.end c.record.items c.told.items) }
    ensures same { IfOk result (λ c. (c.used ≡ used) × (c.sent.items ≡ sent.items)) }
    ensures asks { IfOk result (λ c. asked_by endpoint.entry ≡ None → c.end.end ≢ END_ASKS) }
    ensures opens { IfOk result (λ c. c.end.end ≡ END_OPEN → (asking_end endpoint.entry ≡ Open) × (asked_by endpoint.entry ≡ None)) }
{
    match endpoint.end() {
        End::Open => still_open(alloc, endpoint, digest, used, sent),
        _ => ended(alloc, endpoint, used, sent),
    }
}

/// What a call came to whose endpoint is open.
fn still_open(
    alloc: Global,
    endpoint: AskingEndpoint<'_, DeployedSuite, Silent>,
    digest: &[u8; 32],
    used: usize,
    sent: Vec<u8>,
) -> Result<Came, Memory>
    requires open { asking_end endpoint ≡ Open }
    ensures stands { IfOk result (λ c. (d : DecisionsData) (h s : List ℕ) → AskingAfter means d endpoint.entry h s → by_input (asking_end endpoint.entry) ≡ true → StandsNow (asking_setup means d endpoint.entry) digest.now h s c.end c.record.items c.told.items) }
    ensures same { IfOk result (λ c. (c.used ≡ used) × (c.sent.items ≡ sent.items)) }
    ensures asks { IfOk result (λ c. asked_by endpoint.entry ≡ None → c.end.end ≢ END_ASKS) }
    ensures opens { IfOk result (λ c. c.end.end ≡ END_OPEN → (asking_end endpoint.entry ≡ Open) × (asked_by endpoint.entry ≡ None)) }
{
    // What may have failed is looked at when the endpoint is given up.
    let told = asked_of(alloc, &endpoint);
    let paused = endpoint.pause();
    let written = text_of(alloc, &paused);
    drop(paused);
    let asked = told?;
    let text = written?;
    let record = frame(alloc, digest, &text)?;
    Ok(Came {
        used,
        sent,
        end: asked.end,
        record,
        told: asked.told,
    })
}

/// The record of a paused endpoint that is open.
fn text_of(alloc: Global, paused: &PausedEndpoint<DeployedSuite>) -> Result<Vec<u8>, Memory>
    ensures { IfOk result (λ text. IsRecordOf text.items paused.now) }
{
    match paused.record(alloc)? {
        Some(text) => Ok(text),
        None => Err(Memory),
    }
}

/// How an open endpoint stands, and the record of its question; no bytes where it asks nothing.
#[derive(Drop)]
struct Asked {
    end: EndNumbers,
    told: Vec<u8>,
}

/// How an open endpoint stands, and what it asks.
fn asked_of(
    alloc: Global,
    endpoint: &AskingEndpoint<'_, DeployedSuite, Silent>,
) -> Result<Asked, Memory>
    ensures end { IfOk result (λ asked. asked.end ≡ told_end Open (asked_by endpoint.now)) }
    ensures told { IfOk result (λ asked. asked.told.items ≡ told_question (asked_by endpoint.now)) }
{
    match endpoint.question() {
        None => Ok(Asked {
            end: numbers(END_OPEN, 0, 0),
            told: Vec::new(alloc),
        }),
        Some(question) => Ok(Asked {
            end: numbers(END_ASKS, 0, 0),
            told: question_record(alloc, &question)?,
        }),
    }
}

/// What a call came to whose endpoint has ended.
fn ended(
    alloc: Global,
    endpoint: AskingEndpoint<'_, DeployedSuite, Silent>,
    used: usize,
    sent: Vec<u8>,
) -> Result<Came, Memory>
    requires closed { asking_end endpoint ≢ Open }
    ensures stands { IfOk result (λ c. (d : DecisionsData) (h s : List ℕ) → AskingAfter means d endpoint.entry h s → by_input (asking_end endpoint.entry) ≡ true → (digest : List ℕ) → StandsNow (asking_setup means d endpoint.entry) digest h s c.end c.record.items c.told.items) }
    ensures same { IfOk result (λ c. (c.used ≡ used) × (c.sent.items ≡ sent.items)) }
    ensures asks { IfOk result (λ c. asked_by endpoint.entry ≡ None → c.end.end ≢ END_ASKS) }
    ensures opens { IfOk result (λ c. c.end.end ≡ END_OPEN → (asking_end endpoint.entry ≡ Open) × (asked_by endpoint.entry ≡ None)) }
{
    let end = end_numbers(endpoint.end());
    let session = endpoint.into_session();
    let told = record_of(alloc, &session)?;
    Ok(Came {
        used,
        sent,
        end,
        record: Vec::new(alloc),
        told,
    })
}
