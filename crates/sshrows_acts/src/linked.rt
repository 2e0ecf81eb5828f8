//! What a session goes on with: payloads that a link seals and opens.

use crate::below_texts::code_of_packet;
use crate::refusals::{refused, stopped, vector};
use crate::stop::Stop;
use crate::terms::bytes_of;
use crate::texts::{BEFORE, same_bytes, same_text, shows, stands_after, wrong};
use crate::words::{Line, split_word};
use sshcore::{Link, LinkFault, Session};
use sshpacket::{PacketFault, PacketStep, Suite};
use sshterms::Names;
use std::alloc::Global;

/// The seed of padding in `link TERMS`, the first of these lines; any where there are none.
pub(crate) fn seed_of(alloc: Global, names: &Names, lines: &[Line<'_>]) -> Result<[u8; 32], Stop> {
    let Some(line) = lines.first() else {
        return Ok([0; 32]);
    };
    let (_, terms) = line.head();
    let bytes = bytes_of(alloc, names, line, terms)?;
    match bytes.first_chunk() {
        Some(seed) if bytes.len() == 32 => Ok(*seed),
        _ => wrong(alloc, line, "term", "32 bytes", terms),
    }
}

/// The link of what was handed over, where that is a session.
pub(crate) fn link_of(alloc: Global, session: Option<Session>, seed: [u8; 32]) -> Option<Link> {
    match session {
        Some(session) => Some(session.into_link(alloc, seed)),
        None => None,
    }
}

/// Judges a link by the lines after its first one. It is given pieces of at most so many bytes.
pub(crate) fn judge_link<S: Suite>(
    alloc: Global,
    names: &Names,
    suite: &S,
    link: &mut Option<Link>,
    lines: &[Line<'_>],
    piece_len: usize,
) -> Result<(), Stop> {
    let Some((first, steps)) = lines.split_first() else {
        return Ok(());
    };
    match link {
        None => wrong(alloc, first, "session", "one", "none"),
        Some(_) if steps.is_empty() => wrong(alloc, first, "row", "a line behind its link", "none"),
        Some(link) => go_on(alloc, names, suite, link, steps, piece_len),
    }
}

/// Judges a link by lines.
fn go_on<S: Suite>(
    alloc: Global,
    names: &Names,
    suite: &S,
    link: &mut Link,
    lines: &[Line<'_>],
    piece_len: usize,
) -> Result<(), Stop> {
    for line in lines {
        step(alloc, names, suite, link, line, piece_len)?;
    }
    Ok(())
}

/// Judges a link by one line.
fn step<S: Suite>(
    alloc: Global,
    names: &Names,
    suite: &S,
    link: &mut Link,
    line: &Line<'_>,
    piece_len: usize,
) -> Result<(), Stop> {
    let (word, rest) = line.head();
    match word {
        "seals" => judge_sealed(alloc, names, suite, link, line, rest),
        "opens" | "refuses" => {
            let (wanted, terms) = split_word(rest);
            let piece = bytes_of(alloc, names, line, terms)?;
            let mut came = Vec::new(alloc);
            let how = given(alloc, suite, link, line, &piece, piece_len, &mut came)?;
            judge_opened(alloc, names, line, word, wanted, how, &came)
        }
        "sealed" => shows(alloc, line, "sealed", rest, &link.sealed()),
        "opened" => shows(alloc, line, "opened", rest, &link.opened()),
        "held" => shows(alloc, line, "held", rest, &link.buffered()),
        _ => wrong(alloc, line, "line", "a word of a link", word),
    }
}

/// `seals PAYLOAD TERMS`: the packet of the payload has to be written as these bytes, after what stood there;
/// `seals PAYLOAD payload`: it has to be refused as no payload, and nothing written.
fn judge_sealed<S: Suite>(
    alloc: Global,
    names: &Names,
    suite: &S,
    link: &mut Link,
    line: &Line<'_>,
    rest: &str,
) -> Result<(), Stop> {
    let (payload, wanted) = split_word(rest);
    let payload = bytes_of(alloc, names, line, payload)?;
    let mut out = Vec::from_slice(alloc, BEFORE)?;
    match link.seal(suite, &payload, &mut out) {
        Ok(()) => {
            let wanted = bytes_of(alloc, names, line, wanted)?;
            stands_after(alloc, line, "written", &wanted, &out)
        }
        Err(LinkFault::Memory) => Err(refused(alloc, line, vector(out.as_slice() == BEFORE))),
        Err(fault) => {
            stands_after(alloc, line, "written", &[], &out)?;
            same_text(alloc, line, "sealed", wanted, name_of(fault))
        }
    }
}

/// How a refusal is called that is none of a packet.
fn name_of(fault: LinkFault) -> &'static str {
    match fault {
        LinkFault::Payload => "payload",
        _ => "used up",
    }
}

/// Gives the link the bytes in pieces, and appends payloads that it opens. Answers how that went; where it is refused
/// memory it has to say so again.
fn given<S: Suite>(
    alloc: Global,
    suite: &S,
    link: &mut Link,
    line: &Line<'_>,
    bytes: &[u8],
    piece_len: usize,
    came: &mut Vec<u8>,
) -> Result<&'static str, Stop> {
    match open_all(suite, link, bytes, piece_len, came) {
        Ok(how) => Ok(how),
        Err(stop) => Err(stopped(alloc, line, stop, answer_again(suite, link))),
    }
}

/// What the link answers to a further byte.
fn answer_again<S: Suite>(suite: &S, link: &mut Link) -> &'static str {
    match link.next(suite, &[0]) {
        Err(LinkFault::Memory) => "P5 for good",
        _ => "P5, and another answer behind it",
    }
}

/// Gives the link the bytes in pieces, and appends payloads that it opens: `all used`, or why it stopped.
fn open_all<S: Suite>(
    suite: &S,
    link: &mut Link,
    bytes: &[u8],
    piece_len: usize,
    came: &mut Vec<u8>,
) -> Result<&'static str, Stop> {
    for part in bytes.chunks(piece_len.max(1)) {
        match link.next(suite, part) {
            Ok(PacketStep::More) => {}
            Ok(PacketStep::Payload { payload, used, .. }) => {
                came.extend_from_slice(payload)?;
                if used < part.len() {
                    return Ok("bytes left");
                }
            }
            Err(fault) => return code_of(fault),
        }
    }
    Ok("all used")
}

/// How a refusal by a link is told.
fn code_of(fault: LinkFault) -> Result<&'static str, Stop> {
    match fault {
        LinkFault::Packet(fault) => code_of_packet(fault),
        LinkFault::Memory => code_of_packet(PacketFault::Memory),
        fault => Ok(name_of(fault)),
    }
}

/// `opens PAYLOAD TERMS`: it has to use these bytes, and to lend this payload; `-` for none.
/// `refuses CODE TERMS`: it has to refuse them so, and to lend nothing.
fn judge_opened(
    alloc: Global,
    names: &Names,
    line: &Line<'_>,
    word: &str,
    wanted: &str,
    how: &str,
    came: &[u8],
) -> Result<(), Stop> {
    if word == "refuses" {
        let code = how.strip_prefix("refused ").unwrap_or(how);
        same_text(alloc, line, "opened", wanted, code)?;
        return same_bytes(alloc, line, "opened", &[], came);
    }
    same_text(alloc, line, "opened", "all used", how)?;
    let wanted = bytes_of(alloc, names, line, wanted)?;
    same_bytes(alloc, line, "opened", &wanted, came)
}
