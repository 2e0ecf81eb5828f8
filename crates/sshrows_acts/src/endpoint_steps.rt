//! What a row of an endpoint does, step by step.

use crate::asked::put_signature;
use crate::below_texts::put_parts;
use crate::endpoints::Subject;
use crate::judged::{Judged, Refused, Reply};
use crate::recorded::judge_record;
use crate::refusals::{is_out_of_memory, refused_sending};
use crate::stop::Stop;
use crate::terms::{bytes_of, count_of, text_of};
use crate::texts::{
    BEFORE, flag_of, number_of, put_word, same_agreed, same_count, same_end, same_text, shows,
    stands_after, wrong, yes_or_no,
};
use crate::words::{Line, split_word};
use sshcore::{ChosenNames, Phase, Proof, Question};
use sshterms::Names;
use sshwire::TextBuffer;
use std::alloc::{AllocError, Global};
use std::cell::Cell;
use std::mem;

/// Judges one line.
pub(crate) fn step<E: Judged>(
    alloc: Global,
    names: &Names,
    line: &Line<'_>,
    talk: &mut Subject<'_, E>,
) -> Result<(), Stop> {
    let (word, rest) = line.head();
    match word {
        "feed" => {
            let piece = bytes_of(alloc, names, line, rest)?;
            feed(alloc, line, talk, &piece, piece.len())
        }
        "part" => {
            let (count, terms) = split_word(rest);
            let piece = bytes_of(alloc, names, line, terms)?;
            feed(alloc, line, talk, &piece, count_of(count))
        }
        "says" => {
            let wanted = bytes_of(alloc, names, line, rest)?;
            judge_sent(alloc, line, talk, &wanted)
        }
        "cut" => {
            talk.judged = false;
            talk.endpoint.end_of_input();
            Ok(())
        }
        "disconnect" => {
            let (reason, terms) = split_word(rest);
            let reason = number_of(alloc, line, reason)?;
            let description = text_of(alloc, names, line, terms)?;
            disconnect(alloc, line, talk, reason, &description)
        }
        "answer" => reply(alloc, names, line, talk, rest),
        "record" | "spoilt" | "cuts" | "takes" => judge_record(alloc, names, line, talk),
        _ => look(alloc, line, talk, word, rest),
    }
}

/// These bytes have to be what was sent since that was last judged.
fn judge_sent<E: Judged>(
    alloc: Global,
    line: &Line<'_>,
    talk: &mut Subject<'_, E>,
    wanted: &[u8],
) -> Result<(), Stop> {
    stands_after(alloc, line, "said", wanted, &talk.out)?;
    talk.out.truncate(BEFORE.len());
    Ok(())
}

/// Judges how the endpoint stands.
fn look<E: Judged>(
    alloc: Global,
    line: &Line<'_>,
    talk: &mut Subject<'_, E>,
    word: &str,
    rest: &str,
) -> Result<(), Stop> {
    match word {
        "end" => {
            talk.judged = true;
            same_end(alloc, line, "end", rest, talk.endpoint.end())
        }
        "held" => shows(alloc, line, "held", rest, &talk.endpoint.stands().0),
        "stands" => {
            let found = text_of_course(alloc, &talk.endpoint)?;
            same_text(alloc, line, "stands", rest, &found)
        }
        "agreed" => same_agreed(alloc, line, rest, talk.endpoint.end()),
        "asked" => talk.received.questions.same(line, "asked", rest),
        "told" => talk.received.notices.same(line, "told", rest),
        "question" => {
            let found = text_of_question(alloc, &talk.endpoint.question())?;
            same_text(alloc, line, "question", rest, &found)
        }
        "signed" => counted(alloc, line, "signed", rest, &talk.endpoint.counts().signed),
        "verified" => counted(
            alloc,
            line,
            "verified",
            rest,
            &talk.endpoint.counts().verified,
        ),
        "responded" => counted(
            alloc,
            line,
            "responded",
            rest,
            &talk.endpoint.counts().responded,
        ),
        "digested" => counted(
            alloc,
            line,
            "digested",
            rest,
            &talk.endpoint.counts().digested,
        ),
        _ => wrong(alloc, line, "line", "a word of an endpoint", word),
    }
}

/// Judges how often something was done since this was last judged.
fn counted(
    alloc: Global,
    line: &Line<'_>,
    what: &'static str,
    wanted: &str,
    count: &Cell<u32>,
) -> Result<(), Stop> {
    shows(alloc, line, what, wanted, &count.replace(0))
}

/// Gives the endpoint the bytes, of which it has to use so many.
fn feed<E: Judged>(
    alloc: Global,
    line: &Line<'_>,
    talk: &mut Subject<'_, E>,
    piece: &[u8],
    wanted: usize,
) -> Result<(), Stop> {
    talk.judged = false;
    match used_of(talk, piece) {
        Ok(found) => same_count(alloc, line, "used", wanted, found),
        Err(refused) => stopped_by(alloc, line, talk, refused),
    }
}

/// The row isn't judged to its end: the endpoint was refused memory, or what answers or renews it, or it isn't what its
/// record makes.
pub(crate) fn stopped_by<E: Judged>(
    alloc: Global,
    line: &Line<'_>,
    talk: &mut Subject<'_, E>,
    refused: Refused,
) -> Result<(), Stop> {
    match refused {
        Refused::Endpoint => Err(refused_call(alloc, line, talk)),
        Refused::Answer => Err(Stop::Memory),
        Refused::Record(found) => wrong(alloc, line, "record", "itself", found),
    }
}

/// Tells the endpoint to disconnect.
fn disconnect<E: Judged>(
    alloc: Global,
    line: &Line<'_>,
    talk: &mut Subject<'_, E>,
    reason: u32,
    description: &str,
) -> Result<(), Stop> {
    talk.judged = false;
    match talk.endpoint.disconnect(reason, description, &mut talk.out) {
        Ok(()) => Ok(()),
        Err(_) => Err(refused_call(alloc, line, talk)),
    }
}

/// Gives the endpoint the answer of these words: `yes` or `no`, `signature` with the bytes, or `unsigned`.
fn reply<E: Judged>(
    alloc: Global,
    names: &Names,
    line: &Line<'_>,
    talk: &mut Subject<'_, E>,
    words: &str,
) -> Result<(), Stop> {
    match split_word(words) {
        ("unsigned", "") => answer(alloc, line, talk, Reply::Signed(None)),
        ("signature", terms) => {
            let signature = bytes_of(alloc, names, line, terms)?;
            answer(alloc, line, talk, Reply::Signed(Some(&signature)))
        }
        _ => {
            let decided = flag_of(alloc, line, words)?;
            answer(alloc, line, talk, Reply::Decided(decided))
        }
    }
}

/// Gives the endpoint an answer.
fn answer<E: Judged>(
    alloc: Global,
    line: &Line<'_>,
    talk: &mut Subject<'_, E>,
    reply: Reply<'_>,
) -> Result<(), Stop> {
    talk.judged = false;
    match talk.endpoint.answer(reply, &mut talk.out) {
        Ok(true) => Ok(()),
        Ok(false) => wrong(alloc, line, "line", "a word of an endpoint", "answer"),
        Err(refused) => stopped_by(alloc, line, talk, refused),
    }
}

/// What stands after a refused `feed`, `answer` or `disconnect`: how the endpoint is failed, and what it sent up to there.
fn refused_call<E: Judged>(alloc: Global, line: &Line<'_>, talk: &mut Subject<'_, E>) -> Stop {
    let len = talk.out.len();
    let stands = if is_failed_for_good(talk) && talk.out.len() == len {
        "failed F15 for good"
    } else {
        "F15, and not for good"
    };
    refused_sending(line, stands, mem::replace(&mut talk.out, Vec::new(alloc)))
}

/// Whether it ended by running out of memory, and neither a byte more nor the end of its input changes that.
fn is_failed_for_good<E: Judged>(talk: &mut Subject<'_, E>) -> bool {
    let is_failed = is_out_of_memory(talk.endpoint.end());
    let used = talk.endpoint.feed(&[0], &mut talk.out);
    talk.endpoint.end_of_input();
    is_failed && matches!(used, Ok(0)) && is_out_of_memory(talk.endpoint.end())
}

/// Gives the endpoint the bytes in pieces, up to one that it doesn't use whole, and answers how many it used.
fn used_of<E: Judged>(talk: &mut Subject<'_, E>, piece: &[u8]) -> Result<usize, Refused> {
    if piece.is_empty() {
        return fed(talk, piece);
    }
    let mut all = 0usize;
    for part in piece.chunks(talk.piece_len.max(1)) {
        let used = fed(talk, part)?;
        all = all.saturating_add(used);
        if used < part.len() {
            return Ok(all);
        }
    }
    Ok(all)
}

/// Gives the endpoint one piece, and keeps how it stands after that.
fn fed<E: Judged>(talk: &mut Subject<'_, E>, piece: &[u8]) -> Result<usize, Refused> {
    let used = talk.endpoint.feed(piece, &mut talk.out)?;
    talk.stood = stood_after(talk.stood, talk.endpoint.stands());
    Ok(used)
}

/// How an endpoint stands, folded into how it stood after the pieces before.
fn stood_after(before: usize, (held, phase, strict): (usize, Phase, Option<bool>)) -> usize {
    let phase = match phase {
        Phase::KexInit => 0,
        Phase::Exchange => 1,
        Phase::NewKeys => 2,
        Phase::Service => 3,
        Phase::Auth => 4,
    };
    let strict = match strict {
        None => 0,
        Some(false) => 1,
        Some(true) => 2,
    };
    folded(folded(folded(before, held), phase), strict)
}

/// A number, folded into those before.
fn folded(before: usize, number: usize) -> usize {
    before.wrapping_mul(1_000_003).wrapping_add(number)
}

/// What it waits for, whether both sides are strict, and the names of the algorithms, or `none` where nothing is chosen.
fn text_of_course<E: Judged>(alloc: Global, endpoint: &E) -> Result<String, AllocError> {
    let (_, phase, strict) = endpoint.stands();
    let mut text = TextBuffer::new(alloc);
    text.push_str(word_of_phase(phase));
    let strict = match strict {
        None => "none",
        Some(strict) => yes_or_no(strict),
    };
    put_word(&mut text, strict);
    if let Some(names) = endpoint.algorithms() {
        put_chosen(&mut text, &names);
    }
    text.finish()
}

/// The word for what is waited for.
fn word_of_phase(phase: Phase) -> &'static str {
    match phase {
        Phase::KexInit => "kexinit",
        Phase::Exchange => "exchange",
        Phase::NewKeys => "newkeys",
        Phase::Service => "service",
        Phase::Auth => "auth",
    }
}

/// Appends the names of the algorithms.
fn put_chosen(text: &mut TextBuffer, names: &ChosenNames<'_>) {
    put_word(text, names.kex);
    put_word(text, names.host_key);
    put_word(text, names.encryption_client_to_server);
    put_word(text, names.encryption_server_to_client);
    put_word(text, names.mac_client_to_server);
    put_word(text, names.mac_server_to_client);
    put_word(text, names.compression_client_to_server);
    put_word(text, names.compression_server_to_client);
}

/// A question: `host_key` with the algorithm and the blob, `user` with the number, the user, the service and the proof, and
/// `signed` where a signature has been verified, or `signature` with the number, the algorithm, the blob and the input; or `nothing`.
fn text_of_question(alloc: Global, question: &Option<Question<'_>>) -> Result<String, AllocError> {
    let mut text = TextBuffer::new(alloc);
    match question {
        None => text.push_str("nothing"),
        Some(Question::HostKey { algorithm, blob }) => {
            write!(text, "host_key {algorithm}");
            put_parts(alloc, &mut text, &[blob]);
        }
        Some(
            Question::User {
                number,
                user,
                service,
                proof,
                signed,
            },
        ) => {
            write!(text, "user {number} {user} {service}");
            put_proof(alloc, &mut text, proof);
            if *signed {
                text.push_str(" signed");
            }
        }
        Some(
            Question::Signature {
                number,
                algorithm,
                blob,
                input,
            },
        ) => put_signature(alloc, &mut text, *number, algorithm, blob, input),
    }
    text.finish()
}

/// Appends a proof: `none`, `password` with its bytes, or `key` with the algorithm and the blob.
fn put_proof(alloc: Global, text: &mut TextBuffer, proof: &Proof<'_>) {
    match proof {
        Proof::None => text.push_str(" none"),
        Proof::Password(password) => {
            text.push_str(" password");
            put_parts(alloc, text, &[password]);
        }
        Proof::Key { algorithm, blob } => {
            write!(text, " key {algorithm}");
            put_parts(alloc, text, &[blob]);
        }
    }
}
