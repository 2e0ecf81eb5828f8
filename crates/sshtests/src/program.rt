//! Writes of `tool` that fail at some byte.

ghost use Rattle.std.specs.Prelude.{◌≡◌, false};

use crate::compare::{prefix_of, same, same_count};
use sshlab::{Broken, Sink, StreamSource, tool};
use std::alloc::{AllocError, Global};
use std::process::Abort;
use std::test::Fail;

/// What a full sink answers.
#[derive(Clone, Copy, Debug, PartialEq)]
pub(crate) enum WhenFull {
    Fails,
    TakesNone,
}

/// A sink that has room for so many bytes, and takes at most `step` of them a call.
#[derive(Drop)]
pub(crate) struct LimitedSink {
    pub(crate) bytes: Vec<u8>,
    room: usize,
    step: usize,
    full: WhenFull,
    pub(crate) failed: bool,
}

impl LimitedSink {
    /// As much room as is wanted.
    pub(crate) fn ample(alloc: Global) -> LimitedSink
        ensures { result.failed ≡ false }
    {
        LimitedSink::of(alloc, usize::MAX, usize::MAX, WhenFull::Fails)
    }

    pub(crate) fn of(alloc: Global, room: usize, step: usize, full: WhenFull) -> LimitedSink
        ensures { result.failed ≡ false }
    {
        LimitedSink {
            bytes: Vec::new(alloc),
            room,
            step,
            full,
            failed: false,
        }
    }
}

impl Sink for LimitedSink {
    ghost has_failed = { λ s. s.failed };

    fn write(&mut self, bytes: &[u8]) -> Result<usize, Broken> {
        let count = bytes.len().min(self.step).min(self.room);
        if count == 0 && !bytes.is_empty() {
            self.failed = true;
            return match self.full {
                WhenFull::Fails => Err(Broken),
                WhenFull::TakesNone => Ok(0),
            };
        }
        if self.bytes.extend_from_slice(&bytes[..count]).is_err() {
            self.failed = true;
            return Err(Broken);
        }
        self.room -= count;
        Ok(count)
    }

    fn failed(&self) -> bool {
        self.failed
    }
}

/// Words with bars between, as text.
pub(crate) fn words_of(alloc: Global, text: &str) -> Result<Vec<String>, AllocError> {
    let mut words = Vec::new(alloc);
    for word in text.split('|') {
        words.push(String::from_str(alloc, word)?)?;
    }
    Ok(words)
}

/// What `tool` answers to the words, with this text to read.
fn status_of(
    alloc: Global,
    words: &[String],
    text: &[u8],
    output: &mut LimitedSink,
    faults: &mut LimitedSink,
) -> u8
    requires output { output.old.failed ≡ false }
    requires faults { faults.old.failed ≡ false }
{
    let mut input = StreamSource::new(text);
    tool(alloc, words, &mut input, output, faults)
}

/// Words, what there is to read, and what is printed for them.
type Printed = (&'static str, &'static str, &'static str);

/// What is printed by an answer that is made of words, by one that is made of input, and by an engine.
const PRINTED: &[Printed] = &[
    (
        "greet|alpha|beta|s5,c99,s99",
        "",
        "client got SSH-2.0-beta\nserver got SSH-2.0-alpha\ncomplete yes\n",
    ),
    (
        "run",
        "settle 5",
        "client failed F14\nserver closed 14\ncomplete yes\n",
    ),
    (
        "show",
        "c 5353482d322e302d610d0a\nc 0000000c0a1500000000000000000000\nc ffff\n",
        "client version SSH-2.0-a\nclient 0 21 NEWKEYS 1\nclient sealed 2\nserver partial 0\n",
    ),
];

/// The output has to be printed up to what there is room for, and the failed write to be told.
fn breaks_at(
    rt: &impl Abort,
    alloc: Global,
    printed: &Printed,
    room: usize,
    full: WhenFull,
) -> Result<(), Fail> {
    let (words, text, wanted) = printed;
    let words = words_of(alloc, words)?;
    let mut output = LimitedSink::of(alloc, room, 7, full);
    let mut faults = LimitedSink::ample(alloc);
    let status = status_of(alloc, &words, text.as_bytes(), &mut output, &mut faults);
    same_count(rt, usize::from(status), 4);
    same(rt, &output.bytes, prefix_of(wanted.as_bytes(), room));
    same(rt, &faults.bytes, b"write failed\n");
    assert!(rt; output.failed());
    Ok(())
}

/// The output has to break wherever there is no more room.
fn breaks_anywhere(rt: &impl Abort, alloc: Global, printed: &Printed) -> Result<(), Fail> {
    for room in 0..printed.2.len() {
        breaks_at(rt, alloc, printed, room, WhenFull::Fails)?;
        breaks_at(rt, alloc, printed, room, WhenFull::TakesNone)?;
    }
    Ok(())
}

#[test]
fn tells_a_failed_write(rt: HostRuntime) -> Result<(), Fail> {
    let alloc = rt.alloc();
    for printed in PRINTED {
        breaks_anywhere(&rt, alloc, printed)?;
    }
    Ok(())
}
