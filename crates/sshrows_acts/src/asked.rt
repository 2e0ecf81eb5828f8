//! What decisions are asked, and what they are told.

use crate::below_texts::{put_names, put_parts};
use crate::stop::Stop;
use crate::texts::{put_word, same_text, yes_or_no};
use crate::words::Line;
use sshcore::{Decisions, Listener, Notice, Proof};
use sshwire::{Memory, TextBuffer};
use std::alloc::{AllocError, Global};
use std::cell::{Cell, RefCell};

/// What was kept since it was judged last, in its order.
#[derive(Drop)]
pub(crate) struct StateData {
    /// A blank and words for each.
    text: RefCell<String>,
    /// Whether memory ran out for one.
    is_lost: Cell<bool>,
    pub(crate) alloc: Global,
}

impl StateData {
    /// Nothing yet.
    fn new(alloc: Global) -> StateData {
        StateData {
            text: RefCell::new(String::new(alloc)),
            is_lost: Cell::new(false),
            alloc,
        }
    }

    /// Keeps words.
    fn keep(&self, words: &str) -> Result<(), Stop> {
        match self.text.try_borrow_mut() {
            Ok(mut text) => Ok(write!(text, " {words}")?),
            Err(_) => Ok(()),
        }
    }

    /// What memory runs out for is lost, and its row isn't judged.
    fn note(&self, kept: Result<(), Stop>) {
        if kept.is_err() {
            self.is_lost.set(true);
        }
    }

    /// All that was kept; nothing is kept after it.
    fn taken(&self) -> String {
        match self.text.try_replace(String::new(self.alloc)) {
            Ok(text) => text,
            Err(_) => String::new(self.alloc),
        }
    }

    /// This has to be what was kept since the last call, with blanks between, or `nothing`.
    pub(crate) fn same(
        &self,
        line: &Line<'_>,
        what: &'static str,
        wanted: &str,
    ) -> Result<(), Stop> {
        if self.is_lost.get() {
            return Err(Stop::Memory);
        }
        let text = self.taken();
        let found = text.strip_prefix(' ').unwrap_or("nothing");
        same_text(self.alloc, line, what, wanted, found)
    }
}

/// What decisions were asked and told.
#[derive(Drop)]
pub struct Received {
    /// The questions: `host_key`, the number of a request, or `signature` with the number, the algorithm, the blob and the input.
    pub(crate) questions: StateData,
    /// The notices, each with its kind and its fields; none where no line of the row judges them.
    pub(crate) notices: StateData,
    is_told: bool,
}

impl Received {
    /// Nothing yet, for a row of these lines.
    pub(crate) fn new(alloc: Global, lines: &[Line<'_>]) -> Received {
        Received {
            questions: StateData::new(alloc),
            notices: StateData::new(alloc),
            is_told: lines.iter().any(|line| line.text.starts_with("told ")),
        }
    }
}

/// Keeps a question on the request with this number.
fn keep_number(questions: &StateData, request_number: u32) -> Result<(), Stop> {
    let word = format!(in questions.alloc; "{request_number}")?;
    questions.keep(&word)
}

/// Appends the words of a question for a signature: its number, the algorithm, the blob and the input.
pub(crate) fn put_signature(
    alloc: Global,
    text: &mut TextBuffer,
    number: usize,
    algorithm: &str,
    blob: &[u8],
    input: &[u8],
) {
    write!(text, "signature {number} {algorithm}");
    put_parts(alloc, text, &[blob, input]);
}

/// Keeps a question for a signature.
fn keep_signature(
    questions: &StateData,
    number: usize,
    algorithm: &str,
    blob: &[u8],
    input: &[u8],
) -> Result<(), Stop> {
    let mut words = TextBuffer::new(questions.alloc);
    put_signature(questions.alloc, &mut words, number, algorithm, blob, input);
    questions.keep(&words.finish()?)
}

/// Keeps a notice.
fn keep_notice(notices: &StateData, notice: Notice<'_>) -> Result<(), Stop> {
    let words = words_of(notices.alloc, notice)?;
    notices.keep(&words)
}

/// The kind of a notice and its fields.
fn words_of(alloc: Global, notice: Notice<'_>) -> Result<String, AllocError> {
    let mut words = TextBuffer::new(alloc);
    match notice {
        Notice::Disconnect {
            reason,
            description,
            language,
        } => {
            write!(words, "disconnect {reason}");
            put_parts(alloc, &mut words, &[description, language]);
        }
        Notice::Line { text } => {
            words.push_str("line");
            put_parts(alloc, &mut words, &[text]);
        }
        Notice::Debug { text, language } => {
            words.push_str("debug");
            put_parts(alloc, &mut words, &[text, language]);
        }
        Notice::Banner { text, language } => {
            words.push_str("banner");
            put_parts(alloc, &mut words, &[text, language]);
        }
        Notice::Failure {
            methods,
            partial_success,
        } => {
            words.push_str("failure");
            put_names(&mut words, methods);
            put_word(&mut words, yes_or_no(partial_success));
        }
    }
    words.finish()
}

/// Decisions of which is kept what they are asked and told.
#[derive(Drop)]
pub struct Asking<'a, D: Decisions> {
    pub(crate) decisions: &'a D,
    pub(crate) received: &'a Received,
}

impl<D: Decisions> Decisions for Asking<'_, D> {
    ghost policy = { λ asking. D.policy asking.decisions.now };

    fn host_key(&self, algorithm: &str, blob: &[u8]) -> bool {
        let questions = &self.received.questions;
        questions.note(questions.keep("host_key"));
        self.decisions.host_key(algorithm, blob)
    }

    fn user(&self, request_number: u32, user: &str, service: &str, proof: &Proof<'_>) -> bool {
        let questions = &self.received.questions;
        questions.note(keep_number(questions, request_number));
        self.decisions.user(request_number, user, service, proof)
    }

    fn signature(
        &self,
        alloc: Global,
        number: usize,
        algorithm: &str,
        blob: &[u8],
        input: &[u8],
    ) -> Result<Option<Vec<u8>>, Memory> {
        let questions = &self.received.questions;
        questions.note(keep_signature(questions, number, algorithm, blob, input));
        self.decisions
            .signature(alloc, number, algorithm, blob, input)
    }

    fn notice(&self, notice: Notice<'_>) {
        if self.received.is_told {
            let notices = &self.received.notices;
            notices.note(keep_notice(notices, notice));
        }
        self.decisions.notice(notice);
    }
}

impl<D: Decisions> Listener for Asking<'_, D> {
    fn notice(&self, notice: Notice<'_>) {
        Decisions::notice(self, notice);
    }
}
