//! Rows of the calls of a suite.

ghost use Rattle.std.specs.Prelude.{◌<◌, ◌^◌, IfOk, length};
ghost use Rattle.sshwire.specs.Types.{IsName};

use crate::below_written::keys_of;
use crate::stop::Stop;
use crate::terms::bytes_of;
use crate::texts::{number_of, same_bytes, same_text, wrong, yes_or_no};
use crate::words::{Line, split_word};
use sshpacket::{Keys, Response, Suite};
use sshterms::Names;
use sshwire::as_name;
use std::alloc::Global;

/// Judges calls of a suite, a line each.
pub(crate) fn judge_suite<S: Suite>(
    alloc: Global,
    names: &Names,
    suite: &S,
    lines: &[Line<'_>],
) -> Result<(), Stop> {
    for line in lines {
        judge(alloc, names, suite, line)?;
    }
    Ok(())
}

/// Judges one call.
fn judge<S: Suite>(alloc: Global, names: &Names, suite: &S, line: &Line<'_>) -> Result<(), Stop> {
    let (call, rest) = line.head();
    match call {
        "seal" | "unseal" => {
            let (keys, rest) = keys_of(alloc, names, line, rest)?;
            judge_sealing(alloc, names, suite, line, call, &keys, rest)
        }
        "public" | "shared" | "respond" => judge_exchange(alloc, names, suite, line, call, rest),
        "blob" | "sign" | "verify" => judge_signing(alloc, names, suite, line, call, rest),
        "holds" => judge_held(alloc, names, suite, line, rest),
        _ => wrong(alloc, line, "line", "a call of a suite", call),
    }
}

/// The row has failed by a term.
fn failed(alloc: Global, line: &Line<'_>, wanted: &str, found: &str) -> Stop {
    match wrong::<()>(alloc, line, "term", wanted, found) {
        Ok(()) => Stop::Wrong,
        Err(stop) => stop,
    }
}

/// The bytes of a term, which may not be too many.
fn input_of(alloc: Global, names: &Names, line: &Line<'_>, term: &str) -> Result<Vec<u8>, Stop>
    ensures { IfOk result (λ bytes. length bytes.items < 2 ^ 32) }
{
    let bytes = bytes_of(alloc, names, line, term)?;
    if bytes.len() > 1000000 {
        return Err(failed(alloc, line, "bytes", "too many bytes"));
    }
    Ok(bytes)
}

/// The word as a name.
fn name_of<'a>(alloc: Global, line: &Line<'_>, word: &'a str) -> Result<&'a str, Stop>
    ensures { IfOk result (λ name. IsName name.now) }
{
    match as_name(word.as_bytes()) {
        Some(name) => Ok(name),
        None => Err(failed(alloc, line, "a name", word)),
    }
}

/// The answer has to be these bytes, or `none`.
fn same_answer(
    alloc: Global,
    names: &Names,
    line: &Line<'_>,
    wanted: &str,
    found: &Option<Vec<u8>>,
) -> Result<(), Stop> {
    match found {
        None => same_text(alloc, line, "answer", wanted, "none"),
        Some(_) if wanted == "none" => wrong(alloc, line, "answer", wanted, "bytes"),
        Some(found) => {
            let wanted = bytes_of(alloc, names, line, wanted)?;
            same_bytes(alloc, line, "answer", &wanted, found)
        }
    }
}

/// `seal KEYS NUMBER PACKET SEALED` or `unseal KEYS NUMBER SEALED PACKET`.
fn judge_sealing<S: Suite>(
    alloc: Global,
    names: &Names,
    suite: &S,
    line: &Line<'_>,
    call: &str,
    keys: &Keys,
    words: &str,
) -> Result<(), Stop> {
    let (number, words) = split_word(words);
    let (input, wanted) = split_word(words);
    let number = number_of(alloc, line, number)?;
    let input = input_of(alloc, names, line, input)?;
    let found = match call {
        "seal" => Some(suite.seal(alloc, keys, number, &input)?),
        _ => suite.unseal(alloc, keys, number, &input)?,
    };
    same_answer(alloc, names, line, wanted, &found)
}

/// `public METHOD RANDOM SHARE`, `shared METHOD RANDOM SHARE NUMBER` or `respond METHOD RANDOM SHARE ANSWER`, where the answer is
/// the server's share and the shared secret after it.
fn judge_exchange<S: Suite>(
    alloc: Global,
    names: &Names,
    suite: &S,
    line: &Line<'_>,
    call: &str,
    words: &str,
) -> Result<(), Stop> {
    let (method, words) = split_word(words);
    let (random, words) = split_word(words);
    let method = name_of(alloc, line, method)?;
    let random = input_of(alloc, names, line, random)?;
    if random.len() != 32 {
        return wrong(alloc, line, "term", "32 bytes", "another number");
    }
    if call == "public" {
        let found = Some(suite.public(alloc, method, &random)?);
        return same_answer(alloc, names, line, words, &found);
    }
    let (peer, wanted) = split_word(words);
    let peer = input_of(alloc, names, line, peer)?;
    if call == "respond" {
        let found = match suite.respond(alloc, method, &random, &peer)? {
            None => None,
            Some(response) => {
                let Response { share, shared } = response;
                let mut both = share;
                both.extend_from_slice(&shared)?;
                Some(both)
            }
        };
        return same_answer(alloc, names, line, wanted, &found);
    }
    let found = suite.shared(alloc, method, &random, &peer)?;
    same_answer(alloc, names, line, wanted, &found)
}

/// `blob ALGORITHM SECRET BLOB`, `sign ALGORITHM SECRET INPUT SIGNATURE` or `verify ALGORITHM BLOB INPUT SIGNATURE YN`.
fn judge_signing<S: Suite>(
    alloc: Global,
    names: &Names,
    suite: &S,
    line: &Line<'_>,
    call: &str,
    words: &str,
) -> Result<(), Stop> {
    let (algorithm, words) = split_word(words);
    let (key, words) = split_word(words);
    let algorithm = name_of(alloc, line, algorithm)?;
    let key = input_of(alloc, names, line, key)?;
    if call == "blob" {
        let found = Some(suite.blob(alloc, algorithm, &key)?);
        return same_answer(alloc, names, line, words, &found);
    }
    let (input, words) = split_word(words);
    let input = input_of(alloc, names, line, input)?;
    if call == "sign" {
        let found = Some(suite.sign(alloc, algorithm, &key, &input)?);
        return same_answer(alloc, names, line, words, &found);
    }
    let (signature, wanted) = split_word(words);
    let signature = input_of(alloc, names, line, signature)?;
    let found = suite.verify(alloc, algorithm, &key, &input, &signature)?;
    same_text(alloc, line, "verified", wanted, yes_or_no(found))
}

/// `holds ALGORITHM SECRET YN`.
fn judge_held<S: Suite>(
    alloc: Global,
    names: &Names,
    suite: &S,
    line: &Line<'_>,
    words: &str,
) -> Result<(), Stop> {
    let (algorithm, words) = split_word(words);
    let (key, wanted) = split_word(words);
    let algorithm = name_of(alloc, line, algorithm)?;
    let key = input_of(alloc, names, line, key)?;
    let found = suite.holds(algorithm, &key);
    same_text(alloc, line, "held", wanted, yes_or_no(found))
}
