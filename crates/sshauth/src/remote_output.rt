//! What a remote command writes, told with a mark in front of each line.

use crate::notices::put_shown;
use sshprogram::ProgramFault;
use sshwire::TextBuffer;
use std::io::Write;

/// To which of its outputs a command writes.
#[derive(Clone, Copy)]
pub(crate) enum Stream {
    Output,
    Error,
}

/// Tells what a command writes: each line as `out TEXT` or `err TEXT`. A byte that is no printable character of ASCII
/// stands as `\xNN`, so nothing that a server sends looks like a line of this program's, or moves a terminal's cursor.
#[derive(Drop)]
pub(crate) struct RemoteOutput {
    /// The output whose last line isn't ended.
    unended: Option<Stream>,
}

impl RemoteOutput {
    /// Nothing was told yet.
    pub(crate) fn new() -> RemoteOutput {
        RemoteOutput { unended: None }
    }

    /// Tells bytes of an output. A line of the other one that isn't ended is ended first.
    pub(crate) fn tell(
        &mut self,
        rt: &HostRuntime,
        stream: Stream,
        bytes: &[u8],
    ) -> Result<(), ProgramFault> {
        let mut text = TextBuffer::new(rt.alloc());
        if self.is_of_other(stream) {
            text.push('\n');
            self.unended = None;
        }
        self.put(&mut text, stream, bytes);
        let _ = rt.stderr().write_all(text.finish()?.as_bytes());
        Ok(())
    }

    /// Ends a line that isn't ended, before something else is told.
    pub(crate) fn end_line(&mut self, rt: &HostRuntime) {
        if self.unended.is_some() {
            self.unended = None;
            let _ = rt.stderr().write_all(b"\n");
        }
    }

    /// Whether a line of the other output isn't ended.
    fn is_of_other(&self, stream: Stream) -> bool {
        match (self.unended, stream) {
            (Some(Stream::Output), Stream::Error) | (Some(Stream::Error), Stream::Output) => true,
            _ => false,
        }
    }

    /// Puts the lines of these bytes.
    fn put(&mut self, text: &mut TextBuffer, stream: Stream, bytes: &[u8]) {
        for (place, line) in bytes.split(|byte| *byte == b'\n').enumerate() {
            if place > 0 {
                self.put_piece(text, stream, &[]);
                text.push('\n');
                self.unended = None;
            }
            if !line.is_empty() {
                self.put_piece(text, stream, line);
            }
        }
    }

    /// Puts a piece of a line, at its front with the mark.
    fn put_piece(&mut self, text: &mut TextBuffer, stream: Stream, piece: &[u8]) {
        if self.unended.is_none() {
            text.push_str(mark_of(stream));
            self.unended = Some(stream);
        }
        put_shown(text, piece);
    }
}

/// What stands in front of a line of this output.
fn mark_of(stream: Stream) -> &'static str {
    match stream {
        Stream::Output => "out ",
        Stream::Error => "err ",
    }
}
