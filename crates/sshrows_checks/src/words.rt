//! What an act of a check names, and which words of what was done are right.

use sshchecks::{Asked, Check, Place, Player, Verdict, expected_at, verdict_of};
use sshcore::PeerReading;
use sshneg::Side;
use sshrows_acts::{Line, Stop, number_of, split_word, wrong};
use std::alloc::Global;

/// What stands for the words that a check of the sweep expects, which depend on the number that it sends.
const TABLE: &str = "table";

/// What a check is played to.
#[derive(Clone, Copy)]
pub(crate) struct Target {
    /// The endpoint's role.
    pub(crate) role: Side,
    /// By which grammar it reads the peer's version line.
    pub(crate) reading: PeerReading,
    /// The number that a check of the sweep sends.
    pub(crate) number: Option<u8>,
}

/// `ROLE READING [NUMBER]`.
pub(crate) fn target_of(alloc: Global, act: &Line<'_>, words: &str) -> Result<Target, Stop> {
    let (role, rest) = split_word(words);
    let (reading, number) = split_word(rest);
    let role = match role {
        "client" => Side::Client,
        "server" => Side::Server,
        _ => return wrong(alloc, act, "act", "client or server", role),
    };
    let reading = match reading {
        "strict" => PeerReading::Strict,
        "deployed" => PeerReading::Deployed,
        _ => return wrong(alloc, act, "act", "strict or deployed", reading),
    };
    Ok(Target {
        role,
        reading,
        number: byte_of(alloc, act, number)?,
    })
}

/// The byte that the word spells; none where there is no word.
fn byte_of(alloc: Global, act: &Line<'_>, word: &str) -> Result<Option<u8>, Stop> {
    if word.is_empty() {
        return Ok(None);
    }
    match u8::try_from(number_of(alloc, act, word)?) {
        Ok(number) => Ok(Some(number)),
        Err(_) => wrong(alloc, act, "act", "a number up to 255", word),
    }
}

/// The words that a check expects. Those of a check of the sweep are the phase table's, for the number of the act.
pub(crate) fn expectation_of<'a>(
    alloc: Global,
    act: &Line<'_>,
    target: Target,
    check: &Check<'a>,
) -> Result<&'a str, Stop> {
    match (check.expect == TABLE, target.number) {
        (true, Some(number)) => {
            let place = place_of(alloc, act, check.name)?;
            Ok(expected_at(target.role, place, number))
        }
        (true, None) => wrong(alloc, act, "act", "a number", "none"),
        (false, None) => Ok(check.expect),
        (false, Some(_)) => wrong(alloc, act, "act", "no number", "one"),
    }
}

/// The place of the sweep at which the check of this name sends its number.
fn place_of(alloc: Global, act: &Line<'_>, name: &str) -> Result<Place, Stop> {
    match name {
        "sweep/kexinit" => Ok(Place::KexInit),
        "sweep/kexinit-strict" => Ok(Place::KexInitStrict),
        "sweep/newkeys-strict" => Ok(Place::NewKeysStrict),
        "sweep/service" => Ok(Place::Service),
        "sweep/auth" => Ok(Place::Auth),
        _ => wrong(alloc, act, "check", "a place of the sweep", name),
    }
}

/// Judges what the endpoint did. It has to be what the check names for endpoints of this project with this reading; where it
/// names nothing, one of the words that are expected, or any word where no rule asks for one, or the check doesn't apply.
pub(crate) fn judge_word(
    alloc: Global,
    act: &Line<'_>,
    target: Target,
    check: &Check<'_>,
    player: &Player<'_>,
) -> Result<(), Stop> {
    let ours = match target.reading {
        PeerReading::Strict => check.ours_strict,
        PeerReading::Deployed => check.ours_deployed,
    };
    let did = player.did();
    let is_right = match ours {
        Some(words) => has_word(words, did),
        None => is_let_be(check, did),
    };
    if is_right {
        return Ok(());
    }
    let (name, at) = (check.name, player.at());
    let words = ours.unwrap_or(check.expect);
    let wanted = format!(in alloc; "{words} ({name})")?;
    let found = format!(in alloc; "{did} (at the line '{at}')")?;
    wrong(alloc, act, "did", &wanted, &found)
}

/// Whether it is one of the words, between which `|` stands.
fn has_word(words: &str, did: &str) -> bool {
    words.split('|').any(|word| word == did)
}

/// Whether the check's own words have nothing against what was done. An endpoint of this project is silent only where a check
/// names that for it: else one that answers nothing would keep each check that lets a peer be silent.
fn is_let_be(check: &Check<'_>, did: &str) -> bool {
    match verdict_of(check, did) {
        Verdict::Keeps => did != "silent",
        Verdict::Unclear => check.asked == Asked::Nothing || did == "not_here",
        _ => false,
    }
}
