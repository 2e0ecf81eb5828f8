//! Plays a check.

ghost use Rattle.sshchecks.specs.declared.incoming.TheConstants.{CAME_LIMIT};
ghost use Rattle.std.specs.Prelude.{◌≤◌};

use crate::acts::Act;
use crate::check::Check;
use crate::fault::PlayFault;
use crate::known::Sides;
use crate::look::can_be_played;
use crate::own::Own;
use crate::peer::Peer;
use crate::playing_acts::do_act;
use crate::progress::Progress;
use crate::sending::Sending;
use crate::settings::{Given, Setting};
use sshneg::Side;
use std::alloc::Global;

/// What a call of [`Player::play`] came to.
#[derive(Clone, Copy, Debug, PartialEq, Eq)]
pub enum Turn {
    /// An act was done; what it appended should be sent before the next.
    Acted,
    /// More of the peer has to come.
    Waits,
    /// The check is at its end.
    Done,
}

/// A deviant peer that plays one check. It can't be printed, since it holds keys.
#[derive(Drop)]
pub struct Player<'a> {
    // Acts borrow these parts one by one: the proof of a function grows with what it borrows.
    check: &'a Check<'a>,
    given: Given<'a>,
    /// How many acts are done.
    next: usize,
    own: Own,
    sides: Sides,
    sending: Sending,
    peer: Peer,
}

impl<'a> Player<'a> {
    /// A player of a check that has sent nothing yet. `side` is its own: the client for checks of servers. Answers `Memory`
    /// where an allocation failed.
    pub fn new(
        alloc: Global,
        side: Side,
        check: &'a Check<'a>,
        setting: Setting<'a>,
    ) -> Result<Player<'a>, PlayFault<'a>> {
        let given = Given {
            alloc,
            side,
            needs: check.needs,
            setting,
        };
        let sides = Sides::new(alloc)?;
        let own = Own::new(&given)?;
        Ok(Player {
            check,
            given,
            next: 0,
            own,
            sides,
            sending: Sending::new(),
            peer: Peer::new(alloc),
        })
    }

    /// Does the next act, and appends what it sends. After `Acted` this should be sent, and `play` be called again; after
    /// `Waits` the peer has to send more ([`receive`](Player::receive), [`end_of_input`](Player::end_of_input)) first.
    /// Answers `Form` with the line of an act that can't be played, and `Memory` where an allocation failed.
    pub fn play(&mut self, out: &mut Vec<u8>) -> Result<Turn, PlayFault<'a>> {
        if self.peer.noted.over {
            return Ok(Turn::Done);
        }
        match self.next_act() {
            Some(act) => self.take_turn(&act, out),
            None => self.peer.noted.finish(),
        }
    }

    /// The act that isn't done.
    fn next_act(&self) -> Option<Act<'a>> {
        self.check.acts.get(self.next).copied()
    }

    /// Does an act, and counts it.
    fn take_turn(&mut self, act: &Act<'a>, out: &mut Vec<u8>) -> Result<Turn, PlayFault<'a>> {
        match self.act(act, out)? {
            Progress::Done => {
                self.next = self.next.saturating_add(1);
                Ok(Turn::Acted)
            }
            Progress::Waits => self.peer.wait(),
            Progress::Over(word) => self.peer.noted.end_turn(word),
        }
    }

    /// Does an act, the first one only if the check can be played.
    fn act(&mut self, act: &Act<'a>, out: &mut Vec<u8>) -> Result<Progress, PlayFault<'a>> {
        if self.next == 0 && !can_be_played(self.given.needs, &self.own.names) {
            return Ok(Progress::Over("not_here"));
        }
        do_act(
            &self.given,
            &mut self.own,
            &mut self.sides,
            &mut self.sending,
            &mut self.peer,
            act,
            out,
        )
    }

    /// Takes what the peer sent. Of more than `CAME_LIMIT` bytes in all no more is taken: the check ends by `garbled`.
    pub fn receive(&mut self, piece: &[u8]) -> Result<(), PlayFault<'a>> {
        self.peer.receive(piece)
    }

    /// The peer sends nothing more: what came before is still read.
    pub fn end_of_input(&mut self) {
        self.peer.incoming.ended = true;
    }

    /// The word of what the peer did, once the check is at its end; `silent` before that.
    pub fn did(&self) -> &str {
        self.peer.noted.did()
    }

    /// Whether an UNIMPLEMENTED came.
    pub fn is_unimplemented(&self) -> bool {
        self.peer.noted.unimplemented
    }

    /// The reason of the peer's DISCONNECT.
    pub fn reason(&self) -> Option<u32> {
        self.peer.noted.reason
    }

    /// The line of the act at which the check stands or ended; empty where all are done.
    pub fn at(&self) -> &'a str {
        match self.next_act() {
            Some(act) => act.line,
            None => "",
        }
    }

    /// How many bytes of the peer were taken: at most `CAME_LIMIT`.
    pub fn came(&self) -> usize
        ensures { result ≤ CAME_LIMIT }
    {
        self.peer.incoming.came
    }
}
