//! What a server has sent in clear that is refused, as text.

use crate::notices::put_quoted;
use sshwire::{NAME_LIMIT, Reader, TextBuffer, WireFault, as_name};

/// The lists of a KEXINIT in their order, by the names that they have in RFC 4253 section 7.1.
pub(crate) const LISTS: &[&str] = &[
    "kex_algorithms",
    "server_host_key_algorithms",
    "encryption_algorithms_client_to_server",
    "encryption_algorithms_server_to_client",
    "mac_algorithms_client_to_server",
    "mac_algorithms_server_to_client",
    "compression_algorithms_client_to_server",
    "compression_algorithms_server_to_client",
    "languages_client_to_server",
    "languages_server_to_client",
];

/// How many bytes of a KEXINIT's payload stand before its lists: its number and the cookie.
const BEFORE_LISTS: usize = 17;

/// Why a part is refused that the payload doesn't have whole.
const CUT: &str = "the payload ends within";

/// The most bytes of a KEXINIT's part that are shown.
const SHOWN: usize = 1000;

/// What is refused.
#[derive(Drop)]
pub(crate) enum Refused {
    /// A line, up to the byte at which it is refused, without its LF.
    Line { fault: WireFault, line: Vec<u8> },
    /// The payload of a KEXINIT.
    KexInit(Vec<u8>),
}

/// Why a KEXINIT is refused.
#[derive(Clone, Copy)]
struct Flaw<'a> {
    why: &'static str,
    /// The part of it that is refused, and that part's bytes.
    part: &'static str,
    bytes: &'a [u8],
}

/// Puts a line of what is refused: why, and its bytes.
pub(crate) fn put_refused(text: &mut TextBuffer, refused: &Refused) {
    match refused {
        Refused::Line { fault, line } => put_refused_line(text, *fault, line),
        Refused::KexInit(payload) => put_refused_kexinit(text, payload),
    }
}

/// Puts why a line is refused, and the line.
fn put_refused_line(text: &mut TextBuffer, fault: WireFault, line: &[u8]) {
    text.push_str("# refused_line ");
    match (fault, line.last()) {
        (WireFault::Line, Some(0)) => text.push_str("a NUL in a line"),
        _ => write!(text, "{fault}"),
    }
    text.push_str(": ");
    put_quoted(text, line);
    text.push('\n');
}

/// Puts why a KEXINIT is refused, and the bytes of the part that is refused: the first of them where they are many.
fn put_refused_kexinit(text: &mut TextBuffer, payload: &[u8]) {
    let Flaw { why, part, bytes } = flaw_in(payload);
    let shown = bytes.get(..SHOWN).unwrap_or(bytes);
    write!(text, "# refused_kexinit {why} {part}: ");
    put_quoted(text, shown);
    if shown.len() < bytes.len() {
        write!(text, " (the first {SHOWN} of its {} bytes)", bytes.len());
    }
    text.push('\n');
}

/// The first part of a KEXINIT's payload that isn't as RFC 4253 section 7.1 has it.
fn flaw_in(payload: &[u8]) -> Flaw<'_> {
    let Some(lists) = payload.get(BEFORE_LISTS..) else {
        return Flaw {
            why: CUT,
            part: "its cookie",
            bytes: payload,
        };
    };
    let mut reader = Reader::new(lists);
    for list in LISTS {
        if reader.borrowed_name_list().is_err() {
            return flaw_at(list, &mut reader);
        }
    }
    Flaw {
        why: "not 5 bytes after",
        part: "its lists",
        bytes: reader.rest(),
    }
}

/// Why the list is refused that the reader reads next.
fn flaw_at<'a>(list: &'static str, reader: &mut Reader<'a>) -> Flaw<'a> {
    match reader.string() {
        Ok(bytes) => Flaw {
            why: flaw_of(bytes),
            part: list,
            bytes,
        },
        Err(_) => Flaw {
            why: CUT,
            part: list,
            bytes: reader.rest(),
        },
    }
}

/// Why bytes are refused that aren't names with single commas between (RFC 4251 sections 5 and 6).
fn flaw_of(bytes: &[u8]) -> &'static str {
    for name in bytes.split(|byte| *byte == b',') {
        if name.is_empty() {
            return "an empty name in";
        }
        if name.len() > NAME_LIMIT {
            return "a name of more than 64 bytes in";
        }
        if as_name(name).is_none() {
            return "a byte that no name may have in";
        }
    }
    "no list of names in"
}
