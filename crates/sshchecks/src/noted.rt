//! The word of what a peer did.

use crate::fault::PlayFault;
use crate::peer::number_of;
use crate::player::Turn;
use sshmsg::{SSH_MSG_DISCONNECT, SSH_MSG_UNIMPLEMENTED};
use std::alloc::Global;

/// What was noted of a peer.
#[derive(Drop)]
pub(crate) struct Noted {
    /// The words so far.
    pub(crate) word: String,
    /// Whether an UNIMPLEMENTED came.
    pub(crate) unimplemented: bool,
    /// The reason of its DISCONNECT.
    pub(crate) reason: Option<u32>,
    /// Whether the check is at its end.
    pub(crate) over: bool,
}

impl Noted {
    /// Nothing yet.
    pub(crate) fn new(alloc: Global) -> Noted {
        Noted {
            word: String::new(alloc),
            unimplemented: false,
            reason: None,
            over: false,
        }
    }

    /// Notes a word; `-` is none.
    pub(crate) fn note<'a>(&mut self, word: &str) -> Result<(), PlayFault<'a>> {
        if word == "-" {
            return Ok(());
        }
        if !self.word.is_empty() {
            self.word.push(',')?;
        }
        self.word.push_str(word)?;
        Ok(())
    }

    /// The check ends by this word, whatever was noted.
    pub(crate) fn end<'a>(&mut self, word: &str) -> Result<(), PlayFault<'a>> {
        self.word.clear();
        self.word.push_str(word)?;
        self.over = true;
        Ok(())
    }

    /// The same, as a turn.
    pub(crate) fn end_turn<'a>(&mut self, word: &str) -> Result<Turn, PlayFault<'a>> {
        self.end(word)?;
        Ok(Turn::Done)
    }

    /// Notes what a payload tells of the peer; answers whether it is a DISCONNECT.
    pub(crate) fn is_end(&mut self, payload: &[u8]) -> bool {
        let number = number_of(payload);
        if number == SSH_MSG_DISCONNECT {
            self.reason = reason_in(payload);
            return true;
        }
        if number == SSH_MSG_UNIMPLEMENTED {
            self.unimplemented = true;
        }
        false
    }

    /// All acts are done.
    pub(crate) fn finish<'a>(&mut self) -> Result<Turn, PlayFault<'a>> {
        if self.word.is_empty() {
            let word = if self.unimplemented {
                "unimplemented"
            } else {
                "goes_on"
            };
            return self.end_turn(word);
        }
        self.over = true;
        Ok(Turn::Done)
    }

    /// The word of what the peer did, once the check is at its end.
    pub(crate) fn did(&self) -> &str {
        if self.over {
            self.word.as_str()
        } else if self.unimplemented {
            "unimplemented"
        } else {
            "silent"
        }
    }
}

/// The reason of a DISCONNECT (RFC 4253 section 11.1).
fn reason_in(payload: &[u8]) -> Option<u32> {
    match payload.get(1..5)? {
        [a, b, c, d] => Some(u32::from_be_bytes([*a, *b, *c, *d])),
        _ => None,
    }
}
