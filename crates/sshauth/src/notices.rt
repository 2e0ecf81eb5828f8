//! What the peer tells people, kept as text until it is told.

use sshcore::{Decisions, Listener, Notice, Proof};
use sshwire::{Memory, NameList, TextBuffer};
use std::alloc::{AllocError, Global};
use std::cell::RefCell;

/// What the peer has told people, a line for each: `line TEXT` before its version line, `banner TEXT` for each line of
/// one, `debug TEXT`, `disconnect TEXT`, and after a FAILURE `methods NAMES` for those that can continue, or `partial success, methods NAMES`.
///
/// A byte that is no printable character of ASCII stands as `\xNN` in them, so none of them moves a terminal's
/// cursor (RFC 4251 section 9.2). A notice for which memory runs out is left out.
#[derive(Drop)]
pub(crate) struct Notices {
    lines: RefCell<String>,
    alloc: Global,
}

impl Notices {
    /// None yet.
    pub(crate) fn new(alloc: Global) -> Notices {
        Notices {
            lines: RefCell::new(String::new(alloc)),
            alloc,
        }
    }

    /// Keeps the lines of a notice.
    fn keep(&self, notice: Notice<'_>) {
        if let Ok(text) = text_of(self.alloc, notice) {
            let _ = self.append(&text);
        }
    }

    /// Appends lines.
    fn append(&self, text: &str) -> Result<(), AllocError> {
        match self.lines.try_borrow_mut() {
            Ok(mut lines) => lines.push_str(text),
            Err(_) => Ok(()),
        }
    }

    /// The lines that were kept; none is kept any more.
    pub(crate) fn taken(&self) -> String {
        match self.lines.try_replace(String::new(self.alloc)) {
            Ok(lines) => lines,
            Err(_) => String::new(self.alloc),
        }
    }
}

impl Listener for Notices {
    fn notice(&self, notice: Notice<'_>) {
        self.keep(notice);
    }
}

/// Decisions that keep what the peer tells people.
#[derive(Drop)]
pub(crate) struct Listening<'a, D: Decisions> {
    pub(crate) decisions: &'a D,
    pub(crate) notices: &'a Notices,
}

impl<D: Decisions> Decisions for Listening<'_, D> {
    ghost policy = { λ listening. D.policy listening.decisions.now };

    fn host_key(&self, algorithm: &str, blob: &[u8]) -> bool {
        self.decisions.host_key(algorithm, blob)
    }

    fn user(&self, request_number: u32, user: &str, service: &str, proof: &Proof<'_>) -> bool {
        self.decisions.user(request_number, user, service, proof)
    }

    fn signature(
        &self,
        alloc: Global,
        number: usize,
        algorithm: &str,
        blob: &[u8],
        input: &[u8],
    ) -> Result<Option<Vec<u8>>, Memory> {
        self.decisions
            .signature(alloc, number, algorithm, blob, input)
    }

    fn notice(&self, notice: Notice<'_>) {
        self.notices.keep(notice);
    }
}

/// The lines of a notice.
fn text_of(alloc: Global, notice: Notice<'_>) -> Result<String, AllocError> {
    let mut lines = TextBuffer::new(alloc);
    match notice {
        Notice::Disconnect { description, .. } => {
            put_lines(&mut lines, "disconnect", description);
        }
        Notice::Line { text } => put_lines(&mut lines, "line", text),
        Notice::Debug { text, .. } => put_lines(&mut lines, "debug", text),
        Notice::Banner { text, .. } => put_lines(&mut lines, "banner", text),
        Notice::Failure {
            methods,
            partial_success,
        } => put_methods(&mut lines, methods, partial_success),
    }
    lines.finish()
}

/// Puts a line for each line of the text that isn't empty.
fn put_lines(lines: &mut TextBuffer, word: &str, text: &[u8]) {
    for line in text.split(|byte| *byte == b'\n') {
        let line = line.strip_suffix(b"\r").unwrap_or(line);
        if !line.is_empty() {
            put_line(lines, word, line);
        }
    }
}

/// Puts a line.
pub(crate) fn put_line(lines: &mut TextBuffer, word: &str, text: &[u8]) {
    write!(lines, "{word} ");
    put_shown(lines, text);
    lines.push('\n');
}

/// Puts bytes of a peer: one that is no printable character of ASCII stands as `\xNN`.
pub(crate) fn put_shown(lines: &mut TextBuffer, text: &[u8]) {
    for byte in text {
        match byte {
            b' '..=b'~' => lines.push(char::from(*byte)),
            _ => write!(lines, "\\x{byte:02x}"),
        }
    }
}

/// Puts bytes of a peer between quotes. A quote or a backslash among them stands as `\xNN` too, so the text gives each
/// byte.
pub(crate) fn put_quoted(lines: &mut TextBuffer, text: &[u8]) {
    lines.push('"');
    for byte in text {
        match byte {
            b' ' | b'!' | b'#'..=b'[' | b']'..=b'~' => lines.push(char::from(*byte)),
            _ => write!(lines, "\\x{byte:02x}"),
        }
    }
    lines.push('"');
}

/// Puts the names of the methods that can continue, and whether the request was successful as one of several.
fn put_methods(lines: &mut TextBuffer, methods: &NameList, partial_success: bool) {
    if partial_success {
        lines.push_str("partial success, ");
    }
    lines.push_str("methods");
    for (place, name) in methods.names().enumerate() {
        let sign = if place == 0 { ' ' } else { ',' };
        write!(lines, "{sign}{name}");
    }
    lines.push('\n');
}
