//! Lines that judge the record of an endpoint.

use crate::endpoint_steps::stopped_by;
use crate::endpoints::Subject;
use crate::judged::{Judged, Refused};
use crate::stop::Stop;
use crate::terms::bytes_of;
use crate::texts::{same_bytes, same_text, wrong};
use crate::words::{Line, split_word};
use sshterms::Names;
use std::alloc::{AllocError, Global};

/// Judges a line of records: `record`, `spoilt`, `cuts` or `takes`.
pub(crate) fn judge_record<E: Judged>(
    alloc: Global,
    names: &Names,
    line: &Line<'_>,
    talk: &mut Subject<'_, E>,
) -> Result<(), Stop> {
    let (word, rest) = line.head();
    if !talk.endpoint.has_records() {
        return wrong(alloc, line, "line", "a word of an endpoint", word);
    }
    if word == "takes" {
        return judge_taken(alloc, names, line, talk, rest);
    }
    let record = match talk.endpoint.record() {
        Ok(record) => record,
        Err(refused) => return stopped_by(alloc, line, talk, refused),
    };
    match record {
        None => judge_none(alloc, line, talk.last),
        Some(record) => judge_one(alloc, names, line, talk, &record),
    }
}

/// It has no record, which the line has to say, and be the last of its row: an endpoint that was paused after its end
/// doesn't go on.
fn judge_none(alloc: Global, line: &Line<'_>, last: u32) -> Result<(), Stop> {
    same_text(alloc, line, "record", line.text, "record none")?;
    if line.number == last {
        return Ok(());
    }
    wrong(alloc, line, "row", "no line behind this", "one")
}

/// Judges by a line the record that it has.
fn judge_one<E: Judged>(
    alloc: Global,
    names: &Names,
    line: &Line<'_>,
    talk: &mut Subject<'_, E>,
    record: &[u8],
) -> Result<(), Stop> {
    match line.head() {
        ("record", "none") => wrong(alloc, line, "record", "none", "one"),
        ("record", terms) => {
            let wanted = bytes_of(alloc, names, line, terms)?;
            same_bytes(alloc, line, "record", &wanted, record)
        }
        ("spoilt", words) => {
            let (mask, wanted) = split_word(words);
            let mask = mask_of(alloc, names, line, mask)?;
            judge_spoilt(alloc, line, talk, record, mask, wanted)
        }
        _ => judge_cuts(alloc, line, talk, record),
    }
}

/// The byte that the two digits spell.
fn mask_of(alloc: Global, names: &Names, line: &Line<'_>, word: &str) -> Result<u8, Stop> {
    let bytes = bytes_of(alloc, names, line, word)?;
    match (bytes.first(), bytes.len()) {
        (Some(mask), 1) => Ok(*mask),
        _ => wrong(alloc, line, "term", "a byte", word),
    }
}

/// Judges what these bytes make that are taken for a record: its letter, and terms.
fn judge_taken<E: Judged>(
    alloc: Global,
    names: &Names,
    line: &Line<'_>,
    talk: &mut Subject<'_, E>,
    words: &str,
) -> Result<(), Stop> {
    let (wanted, terms) = split_word(words);
    let bytes = bytes_of(alloc, names, line, terms)?;
    judge_letter(alloc, line, talk, &bytes, wanted)
}

/// Judges what bytes make that are taken for a record.
fn judge_letter<E: Judged>(
    alloc: Global,
    line: &Line<'_>,
    talk: &mut Subject<'_, E>,
    bytes: &[u8],
    wanted: &str,
) -> Result<(), Stop> {
    match talk.endpoint.remade(bytes) {
        Ok(found) => same_text(alloc, line, "made of a record", wanted, found),
        Err(refused) => stopped_by(alloc, line, talk, refused),
    }
}

/// Judges what the record makes with each of its bytes changed by the mask in turn.
fn judge_spoilt<E: Judged>(
    alloc: Global,
    line: &Line<'_>,
    talk: &mut Subject<'_, E>,
    record: &[u8],
    mask: u8,
    wanted: &str,
) -> Result<(), Stop> {
    let mut bytes = Vec::from_slice(alloc, record)?;
    match runs_of(alloc, &talk.endpoint, &mut bytes, mask) {
        Ok(runs) => same_text(alloc, line, "made of a spoilt record", wanted, &runs.text),
        Err(refused) => stopped_by(alloc, line, talk, refused),
    }
}

/// The letters of what the record makes with each of its bytes changed by the mask in turn.
fn runs_of<E: Judged>(
    alloc: Global,
    endpoint: &E,
    record: &mut [u8],
    mask: u8,
) -> Result<Runs, Refused> {
    let mut runs = Runs::new(alloc);
    for place in 0..record.len() {
        flip(record, place, mask);
        let letter = endpoint.remade(record)?;
        flip(record, place, mask);
        runs.add(alloc, letter)?;
    }
    runs.close(alloc)?;
    Ok(runs)
}

/// Changes the byte at this place by the mask.
fn flip(bytes: &mut [u8], place: usize, mask: u8) {
    if let Some(byte) = bytes.get_mut(place) {
        *byte ^= mask;
    }
}

/// Letters, each with how many of it stand one after the other.
#[derive(Drop)]
struct Runs {
    text: String,
    /// The letter of the run that isn't in the text yet, and how long that is.
    letter: &'static str,
    count: u32,
}

impl Runs {
    /// None.
    fn new(alloc: Global) -> Runs {
        Runs {
            text: String::new(alloc),
            letter: "",
            count: 0,
        }
    }

    /// One letter more.
    fn add(&mut self, alloc: Global, letter: &'static str) -> Result<(), AllocError> {
        if letter != self.letter {
            self.close(alloc)?;
            self.letter = letter;
        }
        self.count = self.count.saturating_add(1);
        Ok(())
    }

    /// Appends the last run to the text.
    fn close(&mut self, alloc: Global) -> Result<(), AllocError> {
        let (count, letter) = (self.count, self.letter);
        self.count = 0;
        if count == 0 {
            return Ok(());
        }
        let run = format!(in alloc; "{count}{letter}")?;
        self.text.push_str(&run)
    }
}

impl From<AllocError> for Refused {
    fn from(_: AllocError) -> Refused {
        Refused::Answer
    }
}

/// No part from the front on makes an endpoint, nor does the record with a byte after it.
fn judge_cuts<E: Judged>(
    alloc: Global,
    line: &Line<'_>,
    talk: &mut Subject<'_, E>,
    record: &[u8],
) -> Result<(), Stop> {
    let mut bytes = Vec::from_slice(alloc, record)?;
    bytes.push(0)?;
    judge_letter(alloc, line, talk, &bytes, "u")?;
    for len in 0..record.len() {
        let front = record.get(..len).unwrap_or(&[]);
        judge_letter(alloc, line, talk, front, "u")?;
    }
    Ok(())
}
