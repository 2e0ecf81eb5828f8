//! What the peer sends, as acts wait for it.

use crate::fault::PlayFault;
use crate::incoming::{Front, Incoming};
use crate::noted::Noted;
use crate::pairs::{Found, found_by, is_passed_over};
use crate::player::Turn;
use crate::progress::{Progress, done};
use sshmsg::{
    SSH_MSG_NEWKEYS, SSH_MSG_SERVICE_ACCEPT, SSH_MSG_SERVICE_REQUEST, SSH_MSG_USERAUTH_FAILURE,
    SSH_MSG_USERAUTH_SUCCESS,
};
use sshneg::Side;
use std::alloc::Global;

/// The first number of what comes after authentication (RFC 4250 section 4.1.2).
const CONNECTION: u8 = 80;

/// What came for an act.
#[derive(Drop)]
pub(crate) enum Came {
    /// A payload.
    Payload(Vec<u8>),
    /// Nothing yet, or the check is over.
    Nothing(Progress),
}

/// The peer's direction, and what was noted of it.
#[derive(Drop)]
pub(crate) struct Peer {
    pub(crate) incoming: Incoming,
    pub(crate) noted: Noted,
}

impl Peer {
    /// Nothing yet.
    pub(crate) fn new(alloc: Global) -> Peer {
        Peer {
            incoming: Incoming::new(alloc),
            noted: Noted::new(alloc),
        }
    }

    /// Takes what the peer sent, if the check isn't over. It ends where that is more than is taken.
    pub(crate) fn receive<'a>(&mut self, piece: &[u8]) -> Result<(), PlayFault<'a>> {
        if self.noted.over || self.incoming.receive(piece)? {
            return Ok(());
        }
        self.noted.end("garbled")
    }

    /// The answer to an act that waits: the check ends where nothing more comes.
    pub(crate) fn wait<'a>(&mut self) -> Result<Turn, PlayFault<'a>> {
        if self.incoming.ended {
            self.noted.end_turn("ends")
        } else {
            Ok(Turn::Waits)
        }
    }

    /// The next payload that came.
    fn next_payload<'a>(&mut self, alloc: Global) -> Result<Came, PlayFault<'a>> {
        let front = self.incoming.payload(alloc)?;
        Ok(came_of(&mut self.noted, front))
    }

    /// Passes over the next payload.
    pub(crate) fn pass<'a>(&mut self, alloc: Global) -> Result<Progress, PlayFault<'a>> {
        match self.next_payload(alloc)? {
            Came::Nothing(progress) => Ok(progress),
            Came::Payload(_) => Ok(Progress::Done),
        }
    }

    /// The next payload with this number; what may come at any time is passed over, another ends the check.
    pub(crate) fn payload_with<'a>(
        &mut self,
        alloc: Global,
        wanted: u8,
    ) -> Result<Came, PlayFault<'a>> {
        for _ in 0..u32::MAX {
            match self.next_payload(alloc)? {
                Came::Nothing(progress) => return Ok(Came::Nothing(progress)),
                Came::Payload(payload) => {
                    let number = number_of(&payload);
                    if number == wanted {
                        return Ok(Came::Payload(payload));
                    }
                    if !is_passed_over(number) {
                        break;
                    }
                }
            }
        }
        Ok(Came::Nothing(Progress::Over("garbled")))
    }

    /// Reads up to a payload with this number, of which nothing else counts.
    fn read_number<'a>(&mut self, alloc: Global, wanted: u8) -> Result<Progress, PlayFault<'a>> {
        match self.payload_with(alloc, wanted)? {
            Came::Nothing(progress) => Ok(progress),
            Came::Payload(_) => Ok(Progress::Done),
        }
    }

    /// Waits for one of the messages of the pairs. `last` is the number of the packet that was put last.
    pub(crate) fn wait_for<'a>(
        &mut self,
        alloc: Global,
        pairs: &'a str,
        last: u32,
    ) -> Result<Progress, PlayFault<'a>> {
        for _ in 0..u32::MAX {
            match self.next_payload(alloc)? {
                Came::Nothing(progress) => return Ok(progress),
                Came::Payload(payload) => {
                    let found = found_by(pairs, &payload, last);
                    drop(payload);
                    match found {
                        Found::Awaited(word) => return done(self.noted.note(word)),
                        Found::PassedOver => {}
                        Found::Other => break,
                    }
                }
            }
        }
        Ok(Progress::Over("garbled"))
    }

    /// Reads NEWKEYS.
    pub(crate) fn read_newkeys<'a>(
        &mut self,
        alloc: Global,
        strict: bool,
    ) -> Result<Progress, PlayFault<'a>> {
        match self.read_number(alloc, SSH_MSG_NEWKEYS)? {
            Progress::Done if !self.incoming.switch(strict) => Ok(Progress::Over("garbled")),
            progress => Ok(progress),
        }
    }

    /// Reads the request of the service, or its answer. `side` is the player's.
    pub(crate) fn read_service<'a>(
        &mut self,
        alloc: Global,
        side: Side,
    ) -> Result<Progress, PlayFault<'a>> {
        match side {
            Side::Client => self.read_number(alloc, SSH_MSG_SERVICE_ACCEPT),
            Side::Server => self.read_number(alloc, SSH_MSG_SERVICE_REQUEST),
        }
    }

    /// Reads the answer to the valid request.
    pub(crate) fn read_answer<'a>(&mut self, alloc: Global) -> Result<Progress, PlayFault<'a>> {
        for _ in 0..u32::MAX {
            let number = match self.next_payload(alloc)? {
                Came::Nothing(progress) => return Ok(progress),
                Came::Payload(payload) => number_of(&payload),
            };
            match number {
                SSH_MSG_USERAUTH_SUCCESS => return Ok(Progress::Done),
                SSH_MSG_USERAUTH_FAILURE => return Ok(Progress::Over("FAILURE")),
                _ if is_passed_over(number) => {}
                _ => break,
            }
        }
        Ok(Progress::Over("garbled"))
    }

    /// Reads up to a message of what comes after authentication.
    pub(crate) fn read_on<'a>(&mut self, alloc: Global) -> Result<Progress, PlayFault<'a>> {
        for _ in 0..u32::MAX {
            let number = match self.next_payload(alloc)? {
                Came::Nothing(progress) => return Ok(progress),
                Came::Payload(payload) => number_of(&payload),
            };
            if number >= CONNECTION {
                return Ok(Progress::Done);
            }
        }
        Ok(Progress::Over("garbled"))
    }
}

/// What came for an act by what is read; what a payload tells of the peer is noted.
fn came_of(noted: &mut Noted, front: Front) -> Came {
    match front {
        Front::More => Came::Nothing(Progress::Waits),
        Front::Garbled => Came::Nothing(Progress::Over("garbled")),
        Front::Whole(payload) => {
            if noted.is_end(&payload) {
                Came::Nothing(Progress::Over("ends"))
            } else {
                Came::Payload(payload)
            }
        }
    }
}

/// The number of a message.
pub(crate) fn number_of(payload: &[u8]) -> u8 {
    payload.first().copied().unwrap_or(0)
}
