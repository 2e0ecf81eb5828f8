//! How much of the input `tool` reads, by sources that fail after it, and what deliveries cost.

ghost use Rattle.std.specs.Prelude.{◌≡◌, false};

use crate::compare::{same, same_count};
use crate::program::{LimitedSink, WhenFull, words_of};
use sshlab::{Broken, Source, tool};
use std::alloc::Global;
use std::process::Abort;
use std::test::Fail;
use std::time::{CpuClock, Duration};

/// A source that gives at most `step` bytes of a text a call, and fails after it or ends there.
#[derive(Drop)]
struct TextSource<'a> {
    rest: &'a [u8],
    step: usize,
    fails: bool,
    failed: bool,
}

impl Source for TextSource<'_> {
    ghost has_failed = { λ s. s.failed };

    fn read(&mut self, buffer: &mut [u8]) -> Result<usize, Broken> {
        let count = self.rest.len().min(self.step).min(buffer.len());
        if count == 0 && self.fails {
            self.failed = true;
            return Err(Broken);
        }
        buffer[..count].copy_from_slice(&self.rest[..count]);
        self.rest = &self.rest[count..];
        Ok(count)
    }

    fn failed(&self) -> bool {
        self.failed
    }
}

/// What is written to the output and to the faults, and the status.
#[derive(Clone, Copy)]
struct Answered<'a> {
    output: &'a str,
    faults: &'a str,
    status: usize,
}

/// What is told where a read failed.
const READ_FAILED: Answered<'static> = Answered {
    output: "",
    faults: "read failed\n",
    status: 4,
};

/// The words have to be answered so from this source, with so much room for the output.
fn answers(
    rt: &impl Abort,
    alloc: Global,
    words: &str,
    source: &mut TextSource<'_>,
    room: usize,
    wanted: Answered<'_>,
) -> Result<(), Fail>
    requires { source.old.failed ≡ false }
{
    let words = words_of(alloc, words)?;
    let mut output = LimitedSink::of(alloc, room, 7, WhenFull::Fails);
    let mut faults = LimitedSink::ample(alloc);
    let status = tool(alloc, &words, source, &mut output, &mut faults);
    same(rt, &faults.bytes, wanted.faults.as_bytes());
    same(rt, &output.bytes, wanted.output.as_bytes());
    same_count(rt, usize::from(status), wanted.status);
    Ok(())
}

/// A text, and another one so many times after it.
fn text_of(alloc: Global, before: &str, repeated: &str, count: usize) -> Result<Vec<u8>, Fail> {
    let mut text = Vec::from_slice(alloc, before.as_bytes())?;
    for _ in 0..count {
        text.extend_from_slice(repeated.as_bytes())?;
    }
    Ok(text)
}

/// The lines by which `al` is accepted.
const AL: &str = "client try al ssh-connection none\nallow al none\n";

/// How much processor time it takes to run a scenario by which `al` is accepted.
fn time_of(rt: &(impl Abort + CpuClock), alloc: Global, text: &[u8]) -> Result<Duration, Fail> {
    let start = rt.thread_cpu_time()?;
    let wanted = Answered {
        output: "client authenticated al ssh-connection\nserver authenticated al ssh-connection\ncomplete yes\nkex a\nhostkey h\ncipher_cs c\ncipher_sc c\nmac_cs m\nmac_sc m\nstrict yes\n",
        faults: "",
        status: 0,
    };
    let mut source = TextSource {
        rest: text,
        step: usize::MAX,
        fails: false,
        failed: false,
    };
    answers(rt, alloc, "run", &mut source, usize::MAX, wanted)?;
    Ok(rt.thread_cpu_time()?.saturating_sub(start))
}

/// How often a scenario is run to see how little time it takes.
const ROUNDS: u32 = 10;

#[test]
fn ten_times_the_deliveries_cost_at_most_twelve_times(rt: HostRuntime) -> Result<(), Fail> {
    let alloc = rt.alloc();
    let deliveries = "deliver server 2\ndeliver client 2\n";
    let few = text_of(alloc, AL, deliveries, 500)?;
    let many = text_of(alloc, AL, deliveries, 5000)?;
    let mut of_few = Duration::MAX;
    let mut of_many = Duration::MAX;
    for _ in 0..ROUNDS {
        of_few = of_few.min(time_of(&rt, alloc, &few)?);
        of_many = of_many.min(time_of(&rt, alloc, &many)?);
    }
    assert!(rt; of_many <= of_few.saturating_mul(12));
    Ok(())
}

/// The words that read input.
const READING: &[&str] = &[
    "run",
    "run|--session",
    "predict",
    "predict|--session",
    "show",
    "check",
];

/// What is told of input that is too long.
const TOO_LONG: Answered<'static> = Answered {
    output: "",
    faults: "input too long\n",
    status: 2,
};

/// The words have to be answered so, and to leave so many bytes of the text unread; a read after the text
/// fails. There is no room for output, which isn't missed.
fn leaves(
    rt: &impl Abort,
    alloc: Global,
    words: &str,
    text: &[u8],
    wanted: Answered<'_>,
    left: usize,
) -> Result<(), Fail> {
    let mut source = TextSource {
        rest: text,
        step: 4000,
        fails: true,
        failed: false,
    };
    answers(rt, alloc, words, &mut source, 0, wanted)?;
    same_count(rt, source.rest.len(), left);
    Ok(())
}

/// All words that read input have to be answered so, and to leave so many bytes of the text unread.
fn all_leave(
    rt: &impl Abort,
    alloc: Global,
    text: &[u8],
    wanted: Answered<'_>,
    left: usize,
) -> Result<(), Fail> {
    for words in READING {
        leaves(rt, alloc, words, text, wanted, left)?;
    }
    Ok(())
}

#[test]
fn reads_nothing_after_the_first_byte_too_many(rt: HostRuntime) -> Result<(), Fail> {
    let alloc = rt.alloc();
    let text = text_of(alloc, "x", "\n", 1_048_676)?;
    all_leave(&rt, alloc, &text, TOO_LONG, 100)
}

#[test]
fn tells_a_failed_read_and_no_bad_line_before_it(rt: HostRuntime) -> Result<(), Fail> {
    let alloc = rt.alloc();
    all_leave(&rt, alloc, b"x\n", READ_FAILED, 0)?;
    all_leave(&rt, alloc, b"\n\nx\n\n", READ_FAILED, 0)
}
