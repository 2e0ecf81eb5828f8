//! The terminal of whoever runs the program, where a person is asked.

ghost use Rattle.std.specs.Prelude.{◌≡◌, IfOk, not};
ghost use Rattle.std.specs.List.{filter};
ghost use Rattle.sshauth.specs.Typed.{is_answer, is_line_of, is_space};

use sshwire::Memory;
use std::alloc::Global;
use std::fs::OpenOptions;
use std::io::{Read, Write};

/// The terminal of the process, whatever its standard input and output are.
const TERMINAL: &str = "/dev/tty";

/// How many bytes of an answer are read at once; a terminal gives a line.
const LINE: usize = 64;

/// Puts a question at the terminal, which is opened for it, and answers whether the line that comes is this word, its spaces taken
/// out. A line that was typed before the question stood there is taken for its answer, so the word has to be one that only the
/// question tells. Where there is no terminal, it fails, or more of the line may follow, it isn't.
pub(crate) fn is_confirmed(rt: &HostRuntime, question: &str, word: &[u8]) -> Result<bool, Memory> {
    let opened = OpenOptions::new().read(true).write(true).open(rt, TERMINAL);
    let Ok(mut terminal) = opened else {
        return Ok(false);
    };
    let mut line = [0u8; LINE];
    match terminal.write_all(question.as_bytes()) {
        Ok(()) => match terminal.read(&mut line) {
            Ok(count) if count < LINE => {
                is_answer(rt.alloc(), line.get(..count).unwrap_or(&[]), word)
            }
            _ => Ok(false),
        },
        Err(_) => Ok(false),
    }
}

/// Whether the line is the word, with its end, once its spaces are taken out.
fn is_answer(alloc: Global, line: &[u8], word: &[u8]) -> Result<bool, Memory>
    ensures { IfOk result (λ answer. answer ≡ is_answer line.now word.now) }
{
    Ok(is_line_of(&without_spaces(alloc, line)?, word))
}

/// The line without its spaces.
fn without_spaces(alloc: Global, line: &[u8]) -> Result<Vec<u8>, Memory>
    ensures { IfOk result (λ rest. rest.items ≡ filter (λ byte. not (is_space byte)) line.now) }
{
    let mut rest = Vec::new(alloc);
    for byte in line {
        if !is_space(*byte) {
            rest.push(*byte)?;
        }
    }
    Ok(rest)
}

/// Whether a byte is a space or a tab.
fn is_space(byte: u8) -> bool
    ensures { result ≡ is_space byte }
{
    byte == b' ' || byte == b'\t'
}

/// Whether the line is the word, with its end.
fn is_line_of(line: &[u8], word: &[u8]) -> bool
    ensures { result ≡ is_line_of line.now word.now }
{
    match line.strip_prefix(word) {
        Some(rest) => rest.is_empty() || rest == b"\n".as_slice() || rest == b"\r\n".as_slice(),
        None => false,
    }
}
