//! What an act awaits: numbers of messages, each with a word.

use sshmsg::{
    SSH_MSG_DEBUG, SSH_MSG_EXT_INFO, SSH_MSG_IGNORE, SSH_MSG_UNIMPLEMENTED,
    SSH_MSG_USERAUTH_BANNER, SSH_MSG_USERAUTH_FAILURE,
};

/// GLOBAL_REQUEST (RFC 4254 section 4), which some send after SUCCESS.
const GLOBAL_REQUEST: u8 = 80;

/// What becomes of a message that came.
#[derive(Clone, Copy, Debug, PartialEq, Eq)]
pub(crate) enum Found<'a> {
    /// It was awaited: this is its word.
    Awaited(&'a str),
    /// It may come at any time.
    PassedOver,
    /// It isn't what was awaited.
    Other,
}

/// Whether a message with this number may come while another is awaited.
pub(crate) fn is_passed_over(number: u8) -> bool {
    matches!(
        number,
        SSH_MSG_IGNORE
            | SSH_MSG_UNIMPLEMENTED
            | SSH_MSG_DEBUG
            | SSH_MSG_EXT_INFO
            | SSH_MSG_USERAUTH_BANNER
            | GLOBAL_REQUEST
    )
}

/// What becomes of a payload by the pairs of an act. `last` is the number of the packet that was put last.
pub(crate) fn found_by<'a>(pairs: &'a str, payload: &[u8], last: u32) -> Found<'a> {
    let number = payload.first().copied().unwrap_or(0);
    if is_partial(payload) {
        if let Some(word) = word_in(pairs, "51+") {
            return Found::Awaited(word);
        }
    }
    for pair in pairs.split(' ') {
        if let Some((key, word)) = pair.split_once('=') {
            if is_meant(key, number, payload, last) {
                return Found::Awaited(word);
            }
        }
    }
    if is_passed_over(number) {
        Found::PassedOver
    } else {
        Found::Other
    }
}

/// The word that a key has among pairs.
fn word_in<'a>(pairs: &'a str, wanted: &str) -> Option<&'a str> {
    for pair in pairs.split(' ') {
        if let Some((key, word)) = pair.split_once('=') {
            if key == wanted {
                return Some(word);
            }
        }
    }
    None
}

/// Whether the key of a pair means a payload with this number.
fn is_meant(key: &str, number: u8, payload: &[u8], last: u32) -> bool {
    if key == "*" {
        return !is_passed_over(number);
    }
    if !is_number(key, number) {
        return false;
    }
    if number == SSH_MSG_UNIMPLEMENTED {
        return payload.get(1..5) == Some(last.to_be_bytes().as_slice());
    }
    true
}

/// Whether a word spells a number.
fn is_number(word: &str, number: u8) -> bool {
    word.parse::<u8>() == Ok(number)
}

/// Whether a FAILURE tells of partial success (RFC 4252 section 5.1).
fn is_partial(payload: &[u8]) -> bool {
    payload.first().copied() == Some(SSH_MSG_USERAUTH_FAILURE)
        && payload.last().copied().unwrap_or(0) != 0
}
