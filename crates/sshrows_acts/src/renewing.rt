//! Endpoints that are made again of their records.

use crate::asked::Asking;
use crate::counted_suite::CountedSuite;
use crate::endpoints::Configures;
use crate::judged::{Refused, Waiting};
use sshcore::{AskingEndpoint, Decisions, End, PausedEndpoint, RecordFault};
use sshpacket::Suite;
use std::alloc::Global;
use std::mem;

/// An endpoint that was made of a record.
#[derive(Drop)]
pub struct Again<'a, S: Suite, D: Decisions> {
    pub(crate) endpoint: AskingEndpoint<'a, S, Asking<'a, D>>,
    /// Its own record; none where it has ended.
    pub(crate) record: Option<Vec<u8>>,
}

/// What bytes make that are taken for a record, where that isn't an endpoint whose record they are.
#[derive(Clone, Copy)]
pub(crate) enum Remade {
    /// Nothing: they are a record of another version.
    Version,
    /// Nothing: they are no record.
    Unreadable,
    /// An endpoint with another record.
    Other,
}

impl Remade {
    /// Its letter.
    pub(crate) fn letter(self) -> &'static str {
        match self {
            Remade::Version => "v",
            Remade::Unreadable => "u",
            Remade::Other => "o",
        }
    }

    /// Its words.
    fn words(self) -> &'static str {
        match self {
            Remade::Version => "a record of another version",
            Remade::Unreadable => "no record",
            Remade::Other => "one with another record",
        }
    }
}

impl<'a, C: Configures, S: Suite, D: Decisions> Waiting<'a, C, S, D> {
    /// Makes it again of its record, where it is to be renewed and is open.
    pub(crate) fn renew(&mut self) -> Result<(), Refused> {
        if !self.renewed || !matches!(self.endpoint.end(), End::Open) {
            return Ok(());
        }
        match self.record_again()? {
            Some(_) => Ok(()),
            None => Err(Refused::Record("none")),
        }
    }

    /// The same before it is given these bytes. Where nothing comes of them but that they are held, it is made of the record that holds
    /// them: whether it was.
    pub(crate) fn renew_holding(&mut self, piece: &[u8]) -> Result<bool, Refused> {
        if !self.renewed || !matches!(self.endpoint.end(), End::Open) {
            return Ok(false);
        }
        let alloc: Global = self.asking.received.questions.alloc;
        let Some(record) = self.record_again()? else {
            return Err(Refused::Record("none"));
        };
        match PausedEndpoint::<CountedSuite<S>>::record_holding(alloc, &record, piece) {
            Ok(None) => Ok(false),
            Ok(Some(holding)) => {
                self.go_on_by(&holding)?;
                Ok(true)
            }
            Err(_) => Err(Refused::Answer),
        }
    }

    /// Its record, of which it is made again and goes on. One that has ended has none, and doesn't go on.
    pub(crate) fn record_again(&mut self) -> Result<Option<Vec<u8>>, Refused> {
        let alloc: Global = self.asking.received.questions.alloc;
        let paused = self.paused(alloc)?;
        match paused.record(alloc) {
            Ok(None) => Ok(None),
            Ok(Some(record)) => {
                self.go_on_by(&record)?;
                Ok(Some(record))
            }
            Err(_) => Err(Refused::Answer),
        }
    }

    /// Pauses it. In its place stands one that has received nothing.
    fn paused(&mut self, alloc: Global) -> Result<PausedEndpoint<CountedSuite<S>>, Refused> {
        let mut sent = Vec::new(alloc);
        match self
            .config
            .waiting(alloc, self.suite, self.asking, &mut sent)
        {
            Ok(other) => Ok(mem::replace(&mut self.endpoint, other).pause()),
            Err(_) => Err(Refused::Answer),
        }
    }

    /// Goes on by this record, which has to be its own again.
    fn go_on_by(&mut self, record: &[u8]) -> Result<(), Refused> {
        match self.made_of(record)? {
            Ok(endpoint) => {
                self.endpoint = endpoint;
                Ok(())
            }
            Err(other) => Err(Refused::Record(other.words())),
        }
    }

    /// The endpoint whose record these bytes are, or what they make instead. What the suite is asked for meanwhile isn't counted.
    pub(crate) fn made_of(
        &self,
        bytes: &[u8],
    ) -> Result<Result<AskingEndpoint<'a, CountedSuite<S>, Asking<'a, D>>, Remade>, Refused> {
        let alloc: Global = self.asking.received.questions.alloc;
        let counts = self.suite.counts.copied();
        let made = self.config.again(alloc, self.suite, self.asking, bytes);
        self.suite.counts.put_back(&counts);
        match made {
            Ok(Again { endpoint, record }) => {
                if record.as_deref() == Some(bytes) {
                    Ok(Ok(endpoint))
                } else {
                    Ok(Err(Remade::Other))
                }
            }
            Err(RecordFault::Version) => Ok(Err(Remade::Version)),
            Err(RecordFault::Unreadable) => Ok(Err(Remade::Unreadable)),
            Err(RecordFault::Memory) => Err(Refused::Answer),
        }
    }
}
