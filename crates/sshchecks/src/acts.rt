//! Acts, each of a line of a check.

use crate::bends::{Bend, bend_of};
use crate::fault::CheckFault;
use crate::look::{Look, look_of};
use crate::steps::{Step, steps_of};
use hex::FromHex;
use sshneg::Side;

/// How often a line may be played at most.
const TIMES_LIMIT: u32 = 6000;

/// What `ask` awaits after its payload.
const ANSWERS: &str = "51=FAILURE 51+=partial 52=SUCCESS 60=PK_OK";

/// What `try` awaits.
const ANY_ANSWER: &str = "51=- 52=SUCCESS 60=-";

/// An act, and its line.
#[derive(Clone, Copy)]
pub struct Act<'a> {
    /// The line of the check.
    pub line: &'a str,
    /// What is done.
    pub work: Work<'a>,
}

/// A place in named bytes.
#[derive(Clone, Copy, Debug, PartialEq, Eq)]
pub struct Spot {
    /// How many bytes from the front, or from the end.
    pub count: usize,
    /// Whether from the end.
    pub from_end: bool,
}

/// What an act does. Terms spell bytes; docs/CONFORM.md has them.
#[derive(Clone, Copy)]
pub enum Work<'a> {
    /// A step of the session.
    Step(Step),
    /// No strict marker is offered.
    Plain,
    /// The own version line is this.
    Line(&'a str),
    /// A list of the own KEXINIT, by its place from 0, or this and the next one.
    List {
        /// Its place.
        place: usize,
        /// Whether the next one has the same.
        both: bool,
        /// What it has.
        terms: &'a str,
    },
    /// What stands after the lists.
    Tail(&'a str),
    /// A bend of the next packet.
    Bend(Bend),
    /// Own numbers go on at own NEWKEYS.
    KeepNumbers,
    /// The own next number is 0.
    ZeroNumber,
    /// The own next number is one greater.
    SkipNumber,
    /// Names bytes.
    Name {
        /// The name.
        name: &'a str,
        /// The bytes.
        terms: &'a str,
    },
    /// A byte of named bytes XOR a mask.
    Turn {
        /// The name.
        name: &'a str,
        /// Which byte.
        spot: Spot,
        /// The mask.
        mask: u8,
    },
    /// Keeps a front of named bytes.
    Cut {
        /// The name.
        name: &'a str,
        /// Up to where.
        spot: Spot,
    },
    /// Names a signature.
    Sign {
        /// The name.
        name: &'a str,
        /// Whether by the key that is nobody's.
        by_stranger: bool,
        /// What is signed.
        terms: &'a str,
    },
    /// A named signature in its other form.
    Wrap(&'a str),
    /// Sends a payload.
    Put(&'a str),
    /// Makes a packet and names it.
    Seal {
        /// The name.
        name: &'a str,
        /// The payload.
        terms: &'a str,
    },
    /// Makes a packet in clear and names it.
    Frame {
        /// The name.
        name: &'a str,
        /// The payload.
        terms: &'a str,
    },
    /// Sends bytes.
    Raw(&'a str),
    /// Waits for messages by numbers, each with a word.
    Await(&'a str),
    /// Looks at what came.
    Look(Look),
    /// Goes on only if this is so.
    Needs(&'a str),
    /// The share that counts as sent.
    Sent(&'a str),
    /// Hash and keys of a server's bent reply.
    Exchange {
        /// Whether the shared secret is 0.
        zero: bool,
        /// The host key's blob.
        blob: &'a str,
        /// The share.
        share: &'a str,
    },
}

/// Appends the acts of a line.
pub(crate) fn put_acts<'a>(
    acts: &mut Vec<Act<'a>>,
    side: Side,
    line: &'a str,
    text: &'a str,
) -> Result<(), CheckFault<'a>> {
    match text.strip_prefix("times ") {
        Some(rest) => put_times(acts, side, line, rest),
        None => put_once(acts, side, line, text),
    }
}

/// Appends two acts.
fn put_both<'a>(
    acts: &mut Vec<Act<'a>>,
    line: &'a str,
    first: Work<'a>,
    second: Work<'a>,
) -> Result<(), CheckFault<'a>> {
    acts.push(Act { line, work: first })?;
    acts.push(Act { line, work: second })?;
    Ok(())
}

/// Appends steps.
fn put_steps<'a>(
    acts: &mut Vec<Act<'a>>,
    side: Side,
    line: &'a str,
    rest: &'a str,
) -> Result<(), CheckFault<'a>> {
    for word in rest.split(' ') {
        let Some((first, second)) = steps_of(side, word) else {
            return Err(CheckFault::Form(line));
        };
        let work = Work::Step(first);
        acts.push(Act { line, work })?;
        if let Some(step) = second {
            let work = Work::Step(step);
            acts.push(Act { line, work })?;
        }
    }
    Ok(())
}

/// Appends an act so many times.
fn put_times<'a>(
    acts: &mut Vec<Act<'a>>,
    side: Side,
    line: &'a str,
    rest: &'a str,
) -> Result<(), CheckFault<'a>> {
    let (count, text) = split_word(rest);
    let Ok(count) = count.parse::<u32>() else {
        return Err(CheckFault::Form(line));
    };
    if count > TIMES_LIMIT || text.starts_with("times ") {
        return Err(CheckFault::Form(line));
    }
    for _ in 0..count {
        put_once(acts, side, line, text)?;
    }
    Ok(())
}

/// Appends the acts of a line that is no repetition.
fn put_once<'a>(
    acts: &mut Vec<Act<'a>>,
    side: Side,
    line: &'a str,
    text: &'a str,
) -> Result<(), CheckFault<'a>> {
    let (word, rest) = split_word(text);
    match word {
        "play" => put_steps(acts, side, line, rest),
        "ask" => put_both(acts, line, Work::Put(rest), Work::Await(ANSWERS)),
        "try" => put_both(acts, line, Work::Put(rest), Work::Await(ANY_ANSWER)),
        "refuse" => put_both(acts, line, Work::Await("50=-"), Work::Put(rest)),
        _ => {
            let Some(work) = work_of(word, rest) else {
                return Err(CheckFault::Form(line));
            };
            acts.push(Act { line, work })?;
            Ok(())
        }
    }
}

/// The first word, and what stands after the blank; nothing where there is none.
pub(crate) fn split_word(text: &str) -> (&str, &str) {
    match text.split_once(' ') {
        Some((word, rest)) => (word, rest),
        None => (text, ""),
    }
}

/// The act that a line has with one word in front.
fn work_of<'a>(word: &str, rest: &'a str) -> Option<Work<'a>> {
    match word {
        "offer" if rest == "plain" => Some(Work::Plain),
        "line" => Some(Work::Line(rest)),
        "list" => list_of(rest),
        "tail" => Some(Work::Tail(rest)),
        "bend" => Some(Work::Bend(bend_of(rest)?)),
        "keep_numbers" => Some(Work::KeepNumbers),
        "zero_number" => Some(Work::ZeroNumber),
        "skip_number" => Some(Work::SkipNumber),
        "put" => Some(Work::Put(rest)),
        "raw" => Some(Work::Raw(rest)),
        "await" => Some(Work::Await(rest)),
        "look" => Some(Work::Look(look_of(rest)?)),
        "needs" => Some(Work::Needs(rest)),
        "sent" => Some(Work::Sent(rest)),
        "exchange" => exchange_of(rest),
        _ => named_work(word, rest),
    }
}

/// The same of those that name bytes.
fn named_work<'a>(word: &str, rest: &'a str) -> Option<Work<'a>> {
    let (name, terms) = split_word(rest);
    match word {
        "name" => Some(Work::Name { name, terms }),
        "seal" => Some(Work::Seal { name, terms }),
        "frame" => Some(Work::Frame { name, terms }),
        "wrap" => Some(Work::Wrap(name)),
        "turn" => turn_of(name, terms),
        "cut" => Some(Work::Cut {
            name,
            spot: spot_of(terms)?,
        }),
        "sign" => sign_of(name, terms),
        _ => None,
    }
}

/// A list of the own KEXINIT.
fn list_of(rest: &str) -> Option<Work<'_>> {
    let (field, terms) = split_word(rest);
    let (place, both) = match field {
        "kex" => (0, false),
        "hostkey" => (1, false),
        "cipher" => (2, true),
        "cipher_cs" => (2, false),
        "cipher_sc" => (3, false),
        "mac" => (4, true),
        "mac_cs" => (4, false),
        "mac_sc" => (5, false),
        "compression" => (6, true),
        "compression_cs" => (6, false),
        "compression_sc" => (7, false),
        "language_cs" => (8, false),
        "language_sc" => (9, false),
        _ => return None,
    };
    Some(Work::List { place, both, terms })
}

/// A bent reply's exchange.
fn exchange_of(rest: &str) -> Option<Work<'_>> {
    let (zero, rest) = match rest.strip_prefix("zero ") {
        Some(rest) => (true, rest),
        None => (false, rest),
    };
    let (blob, share) = rest.split_once(" ; ")?;
    Some(Work::Exchange { zero, blob, share })
}

/// A byte that is turned.
fn turn_of<'a>(name: &'a str, rest: &str) -> Option<Work<'a>> {
    let (place, mask) = split_word(rest);
    let spot = spot_of(place)?;
    let mask = mask_of(mask)?;
    Some(Work::Turn { name, spot, mask })
}

/// The byte that two hexadecimal digits spell.
fn mask_of(word: &str) -> Option<u8> {
    let [mask] = <[u8; 1]>::from_hex(word).ok()?;
    Some(mask)
}

/// A place that a word names.
fn spot_of(word: &str) -> Option<Spot> {
    match word.strip_prefix('-') {
        Some(count) => Some(Spot {
            count: count.parse::<usize>().ok()?,
            from_end: true,
        }),
        None => Some(Spot {
            count: word.parse::<usize>().ok()?,
            from_end: false,
        }),
    }
}

/// A signature.
fn sign_of<'a>(name: &'a str, rest: &'a str) -> Option<Work<'a>> {
    let (by, terms) = split_word(rest);
    let by_stranger = match by {
        "own" => false,
        "stranger" => true,
        _ => return None,
    };
    Some(Work::Sign {
        name,
        by_stranger,
        terms,
    })
}
