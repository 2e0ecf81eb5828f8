//! Rows of packets: what is read, and what is written.

use crate::below_texts::code_of_packet;
use crate::below_written::{judge_written, keys_of};
use crate::refusals::stopped;
use crate::stop::Stop;
use crate::terms::{bytes_of, count_of};
use crate::texts::{flag_of, same_bytes, same_count, same_text, shows, wrong};
use crate::words::{Line, split_word};
use sshpacket::{PacketFault, PacketReader, PacketStep, Suite};
use sshterms::{Names, put_string};
use std::alloc::Global;

/// A reader of packets that is judged, and what is written beside it.
#[derive(Drop)]
struct Receiver {
    reader: PacketReader,
    /// The payloads that came and weren't judged yet, each as a string.
    came: Vec<u8>,
    /// What it was refused by.
    end: &'static str,
    /// How many bytes it is given at once, at most.
    piece_len: usize,
}

/// Judges a reader, and what is written, by lines.
pub(crate) fn judge_packets<S: Suite>(
    alloc: Global,
    names: &Names,
    suite: &S,
    lines: &[Line<'_>],
    piece_len: usize,
) -> Result<(), Stop> {
    let mut receiver = Receiver {
        reader: PacketReader::new(alloc),
        came: Vec::new(alloc),
        end: "open",
        piece_len,
    };
    steps(alloc, names, suite, lines, &mut receiver)
}

/// Does or judges lines; after them all payloads that came have to be judged.
fn steps<S: Suite>(
    alloc: Global,
    names: &Names,
    suite: &S,
    lines: &[Line<'_>],
    receiver: &mut Receiver,
) -> Result<(), Stop> {
    for line in lines {
        step(alloc, names, suite, line, receiver)?;
    }
    match lines.last() {
        Some(line) => same_bytes(alloc, line, "came and not judged", &[], &receiver.came),
        None => Ok(()),
    }
}

/// Does or judges one line.
fn step<S: Suite>(
    alloc: Global,
    names: &Names,
    suite: &S,
    line: &Line<'_>,
    receiver: &mut Receiver,
) -> Result<(), Stop> {
    let (word, rest) = line.head();
    match word {
        "feed" => {
            let piece = bytes_of(alloc, names, line, rest)?;
            let used = given(alloc, suite, line, receiver, &piece)?;
            same_count(alloc, line, "used", piece.len(), used)
        }
        "part" => {
            let (count, terms) = split_word(rest);
            let piece = bytes_of(alloc, names, line, terms)?;
            let used = given(alloc, suite, line, receiver, &piece)?;
            same_count(alloc, line, "used", count_of(count), used)
        }
        "keys" => use_keys(alloc, names, line, receiver, rest),
        "clear" | "next" | "sealed" => judge_written(alloc, names, suite, line, word, rest),
        _ => look(alloc, names, line, receiver, word, rest),
    }
}

/// Judges how the reader stands.
fn look(
    alloc: Global,
    names: &Names,
    line: &Line<'_>,
    receiver: &mut Receiver,
    word: &str,
    rest: &str,
) -> Result<(), Stop> {
    match word {
        "came" => {
            let wanted = bytes_of(alloc, names, line, rest)?;
            same_bytes(alloc, line, "came", &wanted, &receiver.came)?;
            receiver.came.clear();
            Ok(())
        }
        "held" => shows(alloc, line, "held", rest, &receiver.reader.buffered()),
        "end" => same_text(alloc, line, "end", rest, receiver.end),
        _ => wrong(alloc, line, "line", "a word of packets", word),
    }
}

/// Gives the reader the bytes, and answers how many it used. Where it is refused memory it has to say so again.
fn given<S: Suite>(
    alloc: Global,
    suite: &S,
    line: &Line<'_>,
    receiver: &mut Receiver,
    piece: &[u8],
) -> Result<usize, Stop> {
    match used_of(suite, receiver, piece) {
        Ok(used) => Ok(used),
        Err(stop) => Err(stopped(alloc, line, stop, answer_again(suite, receiver))),
    }
}

/// What the reader answers to a further byte.
fn answer_again<S: Suite>(suite: &S, receiver: &mut Receiver) -> &'static str {
    match receiver.reader.next(suite, &[0]) {
        Err(PacketFault::Memory) => "P5 for good",
        _ => "P5, and another answer behind it",
    }
}

/// Gives the reader the bytes in pieces, up to one that it doesn't use whole, and answers how many it used.
fn used_of<S: Suite>(suite: &S, receiver: &mut Receiver, piece: &[u8]) -> Result<usize, Stop> {
    if piece.is_empty() {
        return receive(suite, receiver, piece);
    }
    let mut all = 0usize;
    for part in piece.chunks(receiver.piece_len.max(1)) {
        let used = receive_all(suite, receiver, part)?;
        all = all.saturating_add(used);
        if used < part.len() {
            return Ok(all);
        }
    }
    Ok(all)
}

/// Gives the reader a piece, packet by packet, up to where it uses nothing more.
fn receive_all<S: Suite>(suite: &S, receiver: &mut Receiver, part: &[u8]) -> Result<usize, Stop> {
    let mut all = 0usize;
    for _ in 0..part.len() {
        let left = part.get(all..).unwrap_or(&[]);
        let used = receive(suite, receiver, left)?;
        all = all.saturating_add(used);
        if used == 0 || used >= left.len() {
            return Ok(all);
        }
    }
    Ok(all)
}

/// Gives the reader what is left of a piece, up to the end of a packet.
fn receive<S: Suite>(suite: &S, receiver: &mut Receiver, left: &[u8]) -> Result<usize, Stop> {
    match receiver.reader.next(suite, left) {
        Ok(PacketStep::More) => {}
        Ok(PacketStep::Payload { payload, .. }) => {
            put_string(&mut receiver.came, payload)?;
        }
        Err(fault) => receiver.end = code_of_packet(fault)?,
    }
    Ok(receiver.reader.taken())
}

/// `keys RESET CIPHER MAC IV ENC MACKEY`: the reader has these keys from here on, if it holds nothing.
fn use_keys(
    alloc: Global,
    names: &Names,
    line: &Line<'_>,
    receiver: &mut Receiver,
    rest: &str,
) -> Result<(), Stop> {
    let (reset, terms) = split_word(rest);
    let reset = flag_of(alloc, line, reset)?;
    let (keys, _) = keys_of(alloc, names, line, terms)?;
    if !receiver.reader.is_idle() {
        return wrong(alloc, line, "held", "nothing", "a part of a packet");
    }
    receiver.reader.use_keys(keys, reset);
    Ok(())
}
