//! Rows of lines.

use crate::below_texts::code_of_wire;
use crate::line_readers::{Answer, ReadsLines, Standing, Version};
use crate::refusals::stopped;
use crate::stop::Stop;
use crate::terms::{bytes_of, count_of};
use crate::texts::{number_of, same_bytes, same_count, same_text, shows, wrong, yes_or_no};
use crate::words::{Line, split_word};
use sshterms::Names;
use sshwire::{LineForm, LineReader, PeerLineReader, ReadBy, WireFault};
use std::alloc::Global;

/// A reader of lines that is judged.
#[derive(Drop)]
struct Receiver<R: ReadsLines> {
    reader: R,
    /// How it stands by its last answer, unless it is open.
    end: Option<String>,
    /// What the version prints, once it has come.
    printed: String,
    /// How many bytes it is given at once, at most.
    piece_len: usize,
}

/// Judges a reader: `N` for one that takes so many other lines, and after that by which form. By the letter both kinds of
/// readers are judged by the same lines.
pub(crate) fn judge_receiving(
    alloc: Global,
    names: &Names,
    line: &Line<'_>,
    terms: &str,
    lines: &[Line<'_>],
    piece_len: usize,
) -> Result<(), Stop> {
    let (others, form) = split_word(terms);
    let others = number_of(alloc, line, others)?;
    let form = form_of(alloc, line, form)?;
    if form == LineForm::Strict {
        let reader = LineReader::new(alloc, others);
        judge_reader(alloc, names, lines, reader, piece_len)?;
    }
    let reader = PeerLineReader::new(alloc, others, form);
    judge_reader(alloc, names, lines, reader, piece_len)
}

/// The form of these words, of which there are none where lines are read by the letter.
fn form_of(alloc: Global, line: &Line<'_>, words: &str) -> Result<LineForm, Stop> {
    match words {
        "" => Ok(LineForm::Strict),
        "deployed client" => Ok(LineForm::Deployed(ReadBy::Client)),
        "deployed server" => Ok(LineForm::Deployed(ReadBy::Server)),
        _ => wrong(
            alloc,
            line,
            "form",
            "none, deployed client or deployed server",
            words,
        ),
    }
}

/// Judges this reader, in pieces of at most so many bytes.
fn judge_reader<R: ReadsLines + Drop>(
    alloc: Global,
    names: &Names,
    lines: &[Line<'_>],
    reader: R,
    piece_len: usize,
) -> Result<(), Stop> {
    let mut receiver = Receiver {
        reader,
        end: None,
        printed: String::new(alloc),
        piece_len,
    };
    steps(alloc, names, lines, &mut receiver)
}

/// Does or judges lines.
fn steps<R: ReadsLines>(
    alloc: Global,
    names: &Names,
    lines: &[Line<'_>],
    receiver: &mut Receiver<R>,
) -> Result<(), Stop> {
    for line in lines {
        step(alloc, names, line, receiver)?;
    }
    Ok(())
}

/// Does or judges one line.
fn step<R: ReadsLines>(
    alloc: Global,
    names: &Names,
    line: &Line<'_>,
    receiver: &mut Receiver<R>,
) -> Result<(), Stop> {
    let (word, rest) = line.head();
    match word {
        "feed" => {
            let piece = bytes_of(alloc, names, line, rest)?;
            let used = given(alloc, line, receiver, &piece)?;
            same_count(alloc, line, "used", piece.len(), used)
        }
        "part" => {
            let (count, terms) = split_word(rest);
            let piece = bytes_of(alloc, names, line, terms)?;
            let used = given(alloc, line, receiver, &piece)?;
            same_count(alloc, line, "used", count_of(count), used)
        }
        _ => judge(alloc, names, line, receiver),
    }
}

/// Judges how a reader stands.
fn judge<R: ReadsLines>(
    alloc: Global,
    names: &Names,
    line: &Line<'_>,
    receiver: &Receiver<R>,
) -> Result<(), Stop> {
    let standing = receiver.reader.stands();
    let (word, rest) = line.head();
    match word {
        "held" => shows(alloc, line, "held", rest, &standing.buffered),
        "end" => same_text(alloc, line, "end", rest, end_of(receiver)),
        "unfinished" => {
            let wanted = bytes_of(alloc, names, line, rest)?;
            same_bytes(alloc, line, "unfinished", &wanted, standing.unfinished)
        }
        "prints" => {
            let wanted = bytes_of(alloc, names, line, rest)?;
            same_bytes(alloc, line, "printed", &wanted, receiver.printed.as_bytes())
        }
        _ => wrong(alloc, line, "line", "a word of lines", word),
    }
}

/// How a reader stands by its last answer.
fn end_of<R: ReadsLines>(receiver: &Receiver<R>) -> &str {
    match &receiver.end {
        Some(end) => end,
        None => "open",
    }
}

/// Gives the reader the bytes, and answers how many it used. Where it is refused memory it has to say so again.
fn given<R: ReadsLines>(
    alloc: Global,
    line: &Line<'_>,
    receiver: &mut Receiver<R>,
    piece: &[u8],
) -> Result<usize, Stop> {
    match used_of(alloc, line, receiver, piece) {
        Ok(used) => Ok(used),
        Err(stop) => {
            let stands = answer_again(alloc, receiver);
            Err(stopped(alloc, line, stop, stands))
        }
    }
}

/// What the reader answers to a further byte.
fn answer_again<R: ReadsLines>(alloc: Global, receiver: &mut Receiver<R>) -> &'static str {
    match receiver.reader.read(alloc, &[0]) {
        Ok(None) => "V7, and it is done",
        Ok(Some(Answer::Refused(WireFault::Memory))) => "V7 for good",
        _ => "V7, and another answer behind it",
    }
}

/// Gives the reader the bytes in pieces, up to one that it doesn't use whole, and answers how many it used. No bytes are one
/// piece.
fn used_of<R: ReadsLines>(
    alloc: Global,
    line: &Line<'_>,
    receiver: &mut Receiver<R>,
    piece: &[u8],
) -> Result<usize, Stop> {
    if piece.is_empty() {
        return receive(alloc, line, receiver, piece);
    }
    let mut all = 0usize;
    for part in piece.chunks(receiver.piece_len.max(1)) {
        let used = receive(alloc, line, receiver, part)?;
        all = all.saturating_add(used);
        if used < part.len() {
            return Ok(all);
        }
    }
    Ok(all)
}

/// Gives the reader one piece, and answers how many bytes it used. It has the version line at most once.
fn receive<R: ReadsLines>(
    alloc: Global,
    line: &Line<'_>,
    receiver: &mut Receiver<R>,
    part: &[u8],
) -> Result<usize, Stop> {
    let Some(answer) = receiver.reader.read(alloc, part)? else {
        return Ok(0);
    };
    let is_done = matches!(answer, Answer::Done(_));
    let used = keep(alloc, receiver, answer, part.len())?;
    let standing = receiver.reader.stands();
    agrees(alloc, line, &standing, is_done, used)?;
    Ok(standing.taken)
}

/// Keeps how the reader stands by its answer to a piece of so many bytes, and tells how many the answer says were used; a
/// refusal doesn't say.
fn keep<R: ReadsLines>(
    alloc: Global,
    receiver: &mut Receiver<R>,
    answer: Answer,
    piece_len: usize,
) -> Result<Option<usize>, Stop> {
    match answer {
        Answer::More => {
            receiver.end = None;
            Ok(Some(piece_len))
        }
        Answer::Done(version) => {
            let Version { end, printed, used } = version;
            receiver.end = Some(end);
            receiver.printed = printed;
            Ok(Some(used))
        }
        Answer::Refused(fault) => {
            let code = code_of_wire(fault)?;
            receiver.end = Some(format!(in alloc; "refused {code}")?);
            Ok(None)
        }
    }
}

/// What a reader's other calls answer has to agree with its answer to a piece.
fn agrees(
    alloc: Global,
    line: &Line<'_>,
    standing: &Standing<'_>,
    is_done: bool,
    used: Option<usize>,
) -> Result<(), Stop> {
    let taken = used.unwrap_or(standing.taken);
    same_count(alloc, line, "taken", taken, standing.taken)?;
    let unfinished = standing.unfinished.len();
    same_count(alloc, line, "buffered", unfinished, standing.buffered)?;
    let (wanted, found) = (yes_or_no(is_done), yes_or_no(standing.is_done));
    same_text(alloc, line, "is_done", wanted, found)
}
