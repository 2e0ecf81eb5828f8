//! Rows of one endpoint.

use crate::asked::{Asking, Received};
use crate::counted_suite::CountedSuite;
use crate::endpoint_steps::step;
use crate::handed::judge_session;
use crate::judged::{Deciding, Judged, Waiting};
use crate::linked::{judge_link, link_of, seed_of};
use crate::refusals::refused_sending;
use crate::renewing::Again;
use crate::stop::Stop;
use crate::texts::{BEFORE, same_count, stands_after, wrong};
use crate::words::Line;
use sshcore::{
    AskingEndpoint, ClientConfig, Decisions, Endpoint, PausedEndpoint, RecordFault, ServerConfig,
    Session,
};
use sshpacket::Suite;
use sshterms::Names;
use sshwire::Memory;
use std::alloc::Global;

/// A config of which endpoints are made.
pub trait Configures {
    /// An endpoint of this config that asks these decisions itself.
    fn deciding<'a, S: Suite, D: Decisions>(
        &'a self,
        alloc: Global,
        suite: &'a S,
        asking: &'a Asking<'a, D>,
        out: &mut Vec<u8>,
    ) -> Result<Endpoint<'a, S, Asking<'a, D>>, Memory>;

    /// An endpoint of this config that asks and waits.
    fn waiting<'a, S: Suite, D: Decisions>(
        &'a self,
        alloc: Global,
        suite: &'a S,
        asking: &'a Asking<'a, D>,
        out: &mut Vec<u8>,
    ) -> Result<AskingEndpoint<'a, S, Asking<'a, D>>, Memory>;

    /// An endpoint of this config that asks and waits, made of a record.
    fn again<'a, S: Suite, D: Decisions>(
        &'a self,
        alloc: Global,
        suite: &'a S,
        asking: &'a Asking<'a, D>,
        record: &[u8],
    ) -> Result<Again<'a, S, D>, RecordFault>;
}

impl Configures for ClientConfig {
    fn deciding<'a, S: Suite, D: Decisions>(
        &'a self,
        alloc: Global,
        suite: &'a S,
        asking: &'a Asking<'a, D>,
        out: &mut Vec<u8>,
    ) -> Result<Endpoint<'a, S, Asking<'a, D>>, Memory> {
        Endpoint::client(alloc, self, suite, asking, out)
    }

    fn waiting<'a, S: Suite, D: Decisions>(
        &'a self,
        alloc: Global,
        suite: &'a S,
        asking: &'a Asking<'a, D>,
        out: &mut Vec<u8>,
    ) -> Result<AskingEndpoint<'a, S, Asking<'a, D>>, Memory> {
        AskingEndpoint::client(alloc, self, self.draws(), suite, asking, out)
    }

    fn again<'a, S: Suite, D: Decisions>(
        &'a self,
        alloc: Global,
        suite: &'a S,
        asking: &'a Asking<'a, D>,
        record: &[u8],
    ) -> Result<Again<'a, S, D>, RecordFault> {
        let paused = PausedEndpoint::client_of_record(alloc, record, self, self.draws(), suite)?;
        let record = paused.record(alloc)?;
        let endpoint = paused.resume_client(self, suite, asking);
        Ok(Again { endpoint, record })
    }
}

impl Configures for ServerConfig {
    fn deciding<'a, S: Suite, D: Decisions>(
        &'a self,
        alloc: Global,
        suite: &'a S,
        asking: &'a Asking<'a, D>,
        out: &mut Vec<u8>,
    ) -> Result<Endpoint<'a, S, Asking<'a, D>>, Memory> {
        Endpoint::server(alloc, self, suite, asking, out)
    }

    fn waiting<'a, S: Suite, D: Decisions>(
        &'a self,
        alloc: Global,
        suite: &'a S,
        asking: &'a Asking<'a, D>,
        out: &mut Vec<u8>,
    ) -> Result<AskingEndpoint<'a, S, Asking<'a, D>>, Memory> {
        AskingEndpoint::server(alloc, self, self.draws(), suite, asking, out)
    }

    fn again<'a, S: Suite, D: Decisions>(
        &'a self,
        alloc: Global,
        suite: &'a S,
        asking: &'a Asking<'a, D>,
        record: &[u8],
    ) -> Result<Again<'a, S, D>, RecordFault> {
        let paused = PausedEndpoint::server_of_record(alloc, record, self, self.draws(), suite)?;
        let record = paused.record(alloc)?;
        let endpoint = paused.resume_server(self, suite, asking);
        Ok(Again { endpoint, record })
    }
}

/// How an endpoint is judged.
#[derive(Clone, Copy)]
pub struct Way {
    /// How many bytes it is given at once, at most.
    pub piece_len: usize,
    /// Whether it is one that asks and waits, and is made again of its record before all that it is given.
    pub renewed: bool,
}

/// A row of an endpoint.
#[derive(Clone, Copy)]
pub struct Row<'a> {
    /// What names bytes in it.
    pub names: &'a Names,
    /// The line of its act.
    pub act: &'a Line<'a>,
    /// The lines after that.
    pub lines: &'a [Line<'a>],
    /// How the endpoint is judged.
    pub way: Way,
}

/// An endpoint that is judged.
#[derive(Drop)]
pub(crate) struct Subject<'a, E: Judged> {
    pub(crate) endpoint: E,
    /// What its decisions were asked and told since that was last judged.
    pub(crate) received: &'a Received,
    /// What it has sent since that was last judged, after bytes that stood there before.
    pub(crate) out: Vec<u8>,
    /// How many bytes it is given at once, at most.
    pub(crate) piece_len: usize,
    /// Whether its end was judged since it was last given something.
    pub(crate) judged: bool,
    /// How it stood after each piece, folded into a number: what it held, its phase, whether both sides were strict.
    pub(crate) stood: usize,
    /// The number of the last line of its row.
    pub(crate) last: u32,
}

/// Judges an endpoint of this config over the suite: first one that asks these decisions by itself, then one that asks and
/// waits, which they answer. What they are asked and told is kept, and how often the suite is asked is counted.
/// The second has to stand as the first after each piece. One that is renewed is judged alone.
pub fn judge_endpoint<C: Configures, S: Suite + Drop, D: Decisions>(
    alloc: Global,
    row: Row<'_>,
    config: &C,
    (suite, decisions): (S, &D),
) -> Result<(), Stop> {
    let received = &Received::new(alloc, row.lines);
    let asking = &Asking {
        decisions,
        received,
    };
    let suite = &CountedSuite::new(suite);
    if row.way.renewed {
        judge_asking(alloc, row, config, suite, asking, false)?;
        return Ok(());
    }
    let stood = judge_deciding(alloc, row, config, suite, asking)?;
    suite.counts.reset();
    row.act.told.asks.set(true);
    let stands = judge_asking(alloc, row, config, suite, asking, false)?;
    same_count(alloc, row.act, "how it stood", stood, stands)?;
    row.act.told.asks.set(false);
    Ok(())
}

/// Judges an endpoint of this config that asks these decisions by itself, and answers how it stood.
fn judge_deciding<'a, C: Configures, S: Suite, D: Decisions>(
    alloc: Global,
    row: Row<'_>,
    config: &'a C,
    suite: &'a CountedSuite<S>,
    asking: &'a Asking<'a, D>,
) -> Result<usize, Stop> {
    let mut out = Vec::from_slice(alloc, BEFORE)?;
    let made = match config.deciding(alloc, suite, asking, &mut out) {
        Ok(endpoint) => Ok(Deciding { endpoint, suite }),
        Err(_) => Err(Memory),
    };
    judge(alloc, row, suite, made, out, asking.received)
}

/// The same of one that asks and waits, which these decisions answer, or the lines of the row.
fn judge_asking<'a, C: Configures, S: Suite, D: Decisions>(
    alloc: Global,
    row: Row<'_>,
    config: &'a C,
    suite: &'a CountedSuite<S>,
    asking: &'a Asking<'a, D>,
    by_row: bool,
) -> Result<usize, Stop> {
    let mut out = Vec::from_slice(alloc, BEFORE)?;
    let made = match config.waiting(alloc, suite, asking, &mut out) {
        Ok(endpoint) => Ok(Waiting {
            endpoint,
            config,
            asking,
            suite,
            by_row,
            renewed: row.way.renewed,
        }),
        Err(_) => Err(Memory),
    };
    judge(alloc, row, suite, made, out, asking.received)
}

/// Judges an endpoint of this config that asks and waits, which the lines of the row answer. These decisions are told what the
/// peer tells people. How many signatures the suite makes and verifies is counted.
pub fn judge_waiting<C: Configures, S: Suite + Drop, D: Decisions>(
    alloc: Global,
    row: Row<'_>,
    config: &C,
    suite: S,
    decisions: &D,
) -> Result<(), Stop> {
    let received = &Received::new(alloc, row.lines);
    let asking = &Asking {
        decisions,
        received,
    };
    let suite = &CountedSuite::new(suite);
    judge_asking(alloc, row, config, suite, asking, true)?;
    Ok(())
}

/// Judges an endpoint that was made and has sent these bytes after those that stood there before, and answers how it stood.
fn judge<S: Suite, E: Judged + Drop>(
    alloc: Global,
    row: Row<'_>,
    suite: &S,
    made: Result<E, Memory>,
    out: Vec<u8>,
    received: &Received,
) -> Result<usize, Stop> {
    let Ok(endpoint) = made else {
        return Err(refused_sending(row.act, "no endpoint", out));
    };
    let subject = Subject {
        endpoint,
        received,
        out,
        piece_len: row.way.piece_len,
        judged: false,
        stood: 0,
        last: last_of(row.lines),
    };
    talk(alloc, row, suite, Box::new(alloc, subject)?)
}

/// Judges an endpoint by lines, what it hands over by those from the first of a session on, and what goes on with that by
/// those from the first of a link on.
fn talk<S: Suite, E: Judged + Drop>(
    alloc: Global,
    row: Row<'_>,
    suite: &S,
    subject: Box<Subject<'_, E>>,
) -> Result<usize, Stop> {
    let Row {
        names,
        act,
        lines,
        way,
    } = row;
    let mut subject = subject;
    let place = place_of(lines, "link");
    let linked = lines.get(place..).unwrap_or(&[]);
    let lines = lines.get(..place).unwrap_or(lines);
    let place = place_of(lines, "session");
    let steps = lines.get(..place).unwrap_or(lines);
    let handed = lines.get(place..).unwrap_or(&[]);
    talk_on(alloc, names, act, &mut subject, steps)?;
    let stood = subject.stood;
    let session = session_of(subject);
    let judged = judge_session(alloc, &session, handed);
    let seed = seed_of(alloc, names, linked);
    let mut link = link_of(alloc, session, seed.unwrap_or([0; 32]));
    let went_on = judge_link(alloc, names, suite, &mut link, linked, way.piece_len);
    drop(link);
    judged.and(seed.and(went_on))?;
    Ok(stood)
}

/// The number of the last line; 0 where there is none.
fn last_of(lines: &[Line<'_>]) -> u32 {
    match lines.last() {
        Some(line) => line.number,
        None => 0,
    }
}

/// The place of the first line that begins with this word; that after all lines where there is none.
fn place_of(lines: &[Line<'_>], word: &str) -> usize {
    for (place, line) in lines.iter().enumerate() {
        if line.head().0 == word {
            return place;
        }
    }
    lines.len()
}

/// What the endpoint hands over.
fn session_of<E: Judged + Drop>(subject: Box<Subject<'_, E>>) -> Option<Session> {
    let Subject { endpoint, .. } = Box::into_inner(subject);
    endpoint.into_session()
}

/// Judges an endpoint by lines, all that it sent and asked, and its end.
fn talk_on<E: Judged>(
    alloc: Global,
    names: &Names,
    row: &Line<'_>,
    subject: &mut Subject<'_, E>,
    lines: &[Line<'_>],
) -> Result<(), Stop> {
    for line in lines {
        step(alloc, names, line, subject)?;
    }
    finish(alloc, row, subject)
}

/// All that was sent and asked has to be judged, and the end; and all that was told, where a line judges some of it.
fn finish<E: Judged>(alloc: Global, row: &Line<'_>, talk: &Subject<'_, E>) -> Result<(), Stop> {
    stands_after(alloc, row, "said and not judged", &[], &talk.out)?;
    talk.received
        .questions
        .same(row, "asked and not judged", "nothing")?;
    talk.received
        .notices
        .same(row, "told and not judged", "nothing")?;
    if talk.judged {
        Ok(())
    } else {
        wrong(alloc, row, "row", "an end behind all that is fed", "none")
    }
}
