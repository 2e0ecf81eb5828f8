//! Where the program's bytes come from and go to.

ghost use Rattle.std.specs.Prelude.{◌≡◌, ◌≤◌, ◌==◌, ◌&&◌, ◌||◌, ℕ, List, Bool, IfOk, None, Option, false, is_err, length, not};
ghost use Rattle.std.specs.Io.KnownBytes.{ReadConsumes, WriteAppends};
ghost use Rattle.sshlab.specs.Streams.{WritesPrefix, takes_none};

use std::io;

/// A read or a write failed.
#[derive(Clone, Copy, Debug, PartialEq, Eq)]
pub struct Broken;

/// Bytes to read.
pub trait Source {
    /// Whether a read has failed.
    ghost has_failed: { Self → Bool };

    /// The bytes that are left to read, where they are known.
    ghost remaining: { Self → Option (List ℕ) } = { λ _. None };

    /// Reads at most as many bytes as the slice has, and says how many; 0 for a slice that isn't
    /// empty is the end.
    fn read(&mut self, buffer: &mut [u8]) -> Result<usize, Broken>
        ensures count { IfOk result (λ n. n ≤ length buffer.old) }
        ensures bytes { ReadConsumes (remaining self.old) (remaining self.new) result buffer.new }
        ensures failed { has_failed self.new ≡ (has_failed self.old || is_err result) };

    /// Whether a read has failed.
    fn failed(&self) -> bool
        ensures { result ≡ has_failed self.now };
}

/// Takes bytes.
pub trait Sink {
    /// Whether a write has failed, or took no byte of some.
    ghost has_failed: { Self → Bool };

    /// The bytes that were taken, where they are known.
    ghost contents: { Self → Option (List ℕ) } = { λ _. None };

    /// Takes a prefix of the bytes, and says how many.
    fn write(&mut self, bytes: &[u8]) -> Result<usize, Broken>
        ensures count { IfOk result (λ n. n ≤ length bytes.now) }
        ensures bytes { WriteAppends (contents self.old) (contents self.new) result bytes.now }
        ensures failed { has_failed self.new
            ≡ (has_failed self.old || (is_err result || takes_none result (length bytes.now))) };

    /// Whether a write has failed, or took no byte of some.
    fn failed(&self) -> bool
        ensures { result ≡ has_failed self.now };
}

/// A reader of std as a `Source`. A read that was interrupted counts as failed.
#[derive(Drop)]
pub struct StreamSource<R> {
    reader: R,
    failed: bool,
}

impl<R: io::Read> StreamSource<R> {
    /// Nothing has failed yet.
    pub fn new(reader: R) -> StreamSource<R>
        ensures failed { result.failed ≡ false }
        ensures reader { result.reader ≡ reader }
    {
        StreamSource {
            reader,
            failed: false,
        }
    }
}

impl<R: io::Read> Source for StreamSource<R> {
    ghost has_failed = { λ s. s.failed };

    ghost remaining = { λ s. R.remaining s.reader };

    fn read(&mut self, buffer: &mut [u8]) -> Result<usize, Broken> {
        match self.reader.read(buffer) {
            Ok(count) => Ok(count),
            Err(_) => {
                self.failed = true;
                Err(Broken)
            }
        }
    }

    fn failed(&self) -> bool {
        self.failed
    }
}

/// A writer of std as a `Sink`. A write that was interrupted counts as failed.
#[derive(Drop)]
pub struct StreamSink<W> {
    writer: W,
    failed: bool,
}

impl<W: io::Write> StreamSink<W> {
    /// Nothing has failed yet.
    pub fn new(writer: W) -> StreamSink<W>
        ensures failed { result.failed ≡ false }
        ensures writer { result.writer ≡ writer }
    {
        StreamSink {
            writer,
            failed: false,
        }
    }
}

impl<W: io::Write> Sink for StreamSink<W> {
    ghost has_failed = { λ s. s.failed };

    ghost contents = { λ s. W.contents s.writer };

    fn write(&mut self, bytes: &[u8]) -> Result<usize, Broken> {
        match self.writer.write(bytes) {
            Ok(count) => {
                if count == 0 && !bytes.is_empty() {
                    self.failed = true;
                }
                Ok(count)
            }
            Err(_) => {
                self.failed = true;
                Err(Broken)
            }
        }
    }

    fn failed(&self) -> bool {
        self.failed
    }
}

/// Writes all of the bytes, or a prefix of them up to a write that fails or takes none of some.
pub(crate) fn write_all<S: Sink>(sink: &mut S, bytes: &[u8]) -> Result<(), Broken>
    requires { S.has_failed sink.old ≡ false }
    ensures failed { S.has_failed sink.new ≡ is_err result }
    ensures bytes { WritesPrefix (S.contents sink.old) (S.contents sink.new) result bytes.now }
{
    let mut rest = bytes;
    while !rest.is_empty() {
        let count = sink.write(rest)?;
        if count == 0 {
            return Err(Broken);
        }
        rest = &rest[count..];
    }
    Ok(())
}
