//! Endpoints as rows judge them: one that asks its decisions itself, and one that asks and waits, which decisions or the
//! lines of its row answer.

use crate::asked::Asking;
use crate::counted_suite::{CountedSuite, Counts};
use crate::endpoints::Configures;
use sshcore::{
    AskingEndpoint, ChosenNames, Decisions, End, Endpoint, Fed, Phase, Question, Session,
};
use sshpacket::Suite;
use sshwire::Memory;
use std::alloc::Global;

/// An endpoint that is judged.
pub(crate) trait Judged {
    /// Gives it bytes, and answers how many it used.
    fn feed(&mut self, piece: &[u8], out: &mut Vec<u8>) -> Result<usize, Refused>;

    /// Tells it that its input has ended.
    fn end_of_input(&mut self);

    /// Tells it to disconnect.
    fn disconnect(
        &mut self,
        reason: u32,
        description: &str,
        out: &mut Vec<u8>,
    ) -> Result<(), Memory>;

    /// How it stands.
    fn end(&self) -> &End;

    /// How many unfinished bytes it holds, what it waits for, and whether both sides are strict.
    fn stands(&self) -> (usize, Phase, Option<bool>);

    /// The names of the algorithms that both KEXINITs choose.
    fn algorithms(&self) -> Option<ChosenNames<'_>>;

    /// What it hands over.
    fn into_session(self) -> Option<Session>;

    /// What it asks the lines of its row.
    fn question(&self) -> Option<Question<'_>> {
        None
    }

    /// Gives it an answer of a line, and tells whether it takes one.
    fn answer(&mut self, _reply: Reply<'_>, _out: &mut Vec<u8>) -> Result<bool, Refused> {
        Ok(false)
    }

    /// Whether lines of its row may judge its record.
    fn has_records(&self) -> bool {
        false
    }

    /// Its record, of which it is made again and goes on. One that has ended has none, and doesn't go on.
    fn record(&mut self) -> Result<Option<Vec<u8>>, Refused> {
        Ok(None)
    }

    /// The letter of what an endpoint is that is made of these bytes.
    fn remade(&self, _bytes: &[u8]) -> Result<&'static str, Refused> {
        Ok("")
    }

    /// How often its suite was asked.
    fn counts(&self) -> &Counts;
}

/// Who was refused memory, or that an endpoint isn't what its record makes.
#[derive(Clone, Copy)]
pub(crate) enum Refused {
    /// The endpoint.
    Endpoint,
    /// What answers it, or renews it: the endpoint was told nothing.
    Answer,
    /// What came of its record in place of itself.
    Record(&'static str),
}

/// An answer: yes or no, or a signature or none.
#[derive(Clone, Copy)]
pub(crate) enum Reply<'r> {
    Decided(bool),
    Signed(Option<&'r [u8]>),
}

/// An endpoint that asks its decisions itself.
#[derive(Drop)]
pub(crate) struct Deciding<'a, S: Suite, D: Decisions> {
    pub(crate) endpoint: Endpoint<'a, CountedSuite<S>, Asking<'a, D>>,
    /// The suite that counts.
    pub(crate) suite: &'a CountedSuite<S>,
}

impl<S: Suite, D: Decisions> Judged for Deciding<'_, S, D> {
    fn feed(&mut self, piece: &[u8], out: &mut Vec<u8>) -> Result<usize, Refused> {
        match self.endpoint.feed(piece, out) {
            Ok(used) => Ok(used),
            Err(_) => Err(Refused::Endpoint),
        }
    }

    fn end_of_input(&mut self) {
        self.endpoint.end_of_input();
    }

    fn disconnect(
        &mut self,
        reason: u32,
        description: &str,
        out: &mut Vec<u8>,
    ) -> Result<(), Memory> {
        self.endpoint.disconnect(reason, description, out)
    }

    fn end(&self) -> &End {
        self.endpoint.end()
    }

    fn stands(&self) -> (usize, Phase, Option<bool>) {
        let endpoint = &self.endpoint;
        (endpoint.buffered(), endpoint.phase(), endpoint.is_strict())
    }

    fn algorithms(&self) -> Option<ChosenNames<'_>> {
        self.endpoint.algorithms()
    }

    fn into_session(self) -> Option<Session> {
        self.endpoint.into_session()
    }

    fn counts(&self) -> &Counts {
        &self.suite.counts
    }
}

/// An endpoint that asks and waits.
#[derive(Drop)]
pub(crate) struct Waiting<'a, C: Configures, S: Suite, D: Decisions> {
    pub(crate) endpoint: AskingEndpoint<'a, CountedSuite<S>, Asking<'a, D>>,
    pub(crate) config: &'a C,
    /// Who answers, and is told what the peer tells people.
    pub(crate) asking: &'a Asking<'a, D>,
    /// The suite that counts.
    pub(crate) suite: &'a CountedSuite<S>,
    /// Whether the lines of its row answer instead.
    pub(crate) by_row: bool,
    /// Whether it is made again of its record before all that it is given.
    pub(crate) renewed: bool,
}

impl<C: Configures, S: Suite, D: Decisions> Waiting<'_, C, S, D> {
    /// Gives it bytes up to its first question, and answers how many it used: more than there are, where what it
    /// answers isn't what it waits for.
    fn feed_once(&mut self, piece: &[u8], out: &mut Vec<u8>) -> Result<usize, Refused> {
        if self.renew_holding(piece)? {
            return Ok(piece.len());
        }
        let Ok(fed) = self.endpoint.feed(piece, out) else {
            return Err(Refused::Endpoint);
        };
        match (fed, self.endpoint.question()) {
            (Fed::Used(used), None) => Ok(used),
            (Fed::Asks { used }, Some(_)) => Ok(used),
            _ => Ok(usize::MAX),
        }
    }

    /// Answers what it asks by the decisions.
    fn decide(&mut self, out: &mut Vec<u8>) -> Result<(), Refused> {
        self.renew()?;
        let decided = match self.endpoint.question() {
            Some(question) => answer_of(self.asking, &question),
            None => return Ok(()),
        };
        let answered = match decided {
            Ok(Decided::Flag(flag)) => self.endpoint.answer(flag, out),
            Ok(Decided::Unsigned) => self.endpoint.answer_signature(None, out),
            Ok(Decided::Signed(signature)) => {
                self.endpoint.answer_signature(Some(&signature), out)
            }
            Err(_) => return Err(Refused::Answer),
        };
        match answered {
            Ok(()) => Ok(()),
            Err(_) => Err(Refused::Endpoint),
        }
    }
}

/// What decisions answer.
#[derive(Drop)]
enum Decided {
    Flag(bool),
    Unsigned,
    Signed(Vec<u8>),
}

/// What the decisions answer.
fn answer_of<D: Decisions>(
    asking: &Asking<'_, D>,
    question: &Question<'_>,
) -> Result<Decided, Memory> {
    match question {
        Question::HostKey { algorithm, blob } => {
            Ok(Decided::Flag(asking.host_key(algorithm, blob)))
        }
        Question::User {
            number,
            user,
            service,
            proof,
            ..
        } => Ok(Decided::Flag(asking.user(*number, user, service, proof))),
        Question::Signature {
            number,
            algorithm,
            blob,
            input,
        } => {
            let alloc: Global = asking.received.questions.alloc;
            match asking.signature(alloc, *number, algorithm, blob, input)? {
                None => Ok(Decided::Unsigned),
                Some(signature) => Ok(Decided::Signed(signature)),
            }
        }
    }
}

impl<C: Configures, S: Suite, D: Decisions> Judged for Waiting<'_, C, S, D> {
    fn feed(&mut self, piece: &[u8], out: &mut Vec<u8>) -> Result<usize, Refused> {
        if self.by_row {
            return self.feed_once(piece, out);
        }
        let mut all = 0usize;
        for _ in 0..u64::MAX {
            let used = self.feed_once(piece.get(all..).unwrap_or(&[]), out)?;
            all = all.saturating_add(used);
            if self.endpoint.question().is_none() {
                break;
            }
            self.decide(out)?;
        }
        Ok(all)
    }

    fn end_of_input(&mut self) {
        self.endpoint.end_of_input();
    }

    fn disconnect(
        &mut self,
        reason: u32,
        description: &str,
        out: &mut Vec<u8>,
    ) -> Result<(), Memory> {
        self.endpoint.disconnect(reason, description, out)
    }

    fn end(&self) -> &End {
        self.endpoint.end()
    }

    fn stands(&self) -> (usize, Phase, Option<bool>) {
        let endpoint = &self.endpoint;
        (endpoint.buffered(), endpoint.phase(), endpoint.is_strict())
    }

    fn algorithms(&self) -> Option<ChosenNames<'_>> {
        self.endpoint.algorithms()
    }

    fn into_session(self) -> Option<Session> {
        self.endpoint.into_session()
    }

    fn question(&self) -> Option<Question<'_>> {
        self.endpoint.question()
    }

    fn answer(&mut self, reply: Reply<'_>, out: &mut Vec<u8>) -> Result<bool, Refused> {
        if !self.by_row {
            return Ok(false);
        }
        self.renew()?;
        let answered = match reply {
            Reply::Decided(decided) => self.endpoint.answer(decided, out),
            Reply::Signed(signature) => self.endpoint.answer_signature(signature, out),
        };
        match answered {
            Ok(()) => Ok(true),
            Err(_) => Err(Refused::Endpoint),
        }
    }

    fn has_records(&self) -> bool {
        self.by_row
    }

    fn record(&mut self) -> Result<Option<Vec<u8>>, Refused> {
        self.record_again()
    }

    fn remade(&self, bytes: &[u8]) -> Result<&'static str, Refused> {
        match self.made_of(bytes)? {
            Ok(_) => Ok("m"),
            Err(other) => Ok(other.letter()),
        }
    }

    fn counts(&self) -> &Counts {
        &self.suite.counts
    }
}
