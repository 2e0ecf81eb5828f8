//! Two sides that receive each other's version line.

ghost use Rattle.std.specs.Prelude.{◌≡◌, ◌≢◌, ◌+◌, ◌≤◌, ◌++◌, ◌↔◌, ℕ, IfOk, IsTrue, List, OnOk, length, min, take};
ghost use Rattle.sshwire.specs.Feeding.{StandsOpen};
ghost use Rattle.sshwire.specs.LineReaderData.{Finished};
ghost use Rattle.sshworld.specs.Receivers.{Follows, HasAll, MayRead};
ghost use Rattle.sshworld.specs.Greetings.{Greets};

use crate::side::Delivery;
use sshneg::Side;
use sshwire::{LineReader, LineStep, Memory, OTHER_LINE_LIMIT, VersionLine, WireFault};
use std::alloc::Global;
use std::fmt;

/// How many other lines a server accepts before the version line: none (profile).
const SERVER_OTHERS: u32 = 0;

/// What one side has received from the other.
#[derive(Debug, Drop)]
pub enum Reception {
    /// The other's version line.
    Got(VersionLine),
    /// Bytes that no version line can follow: `Line`, `TooLong` or `TooManyLines`.
    Refused(WireFault),
    /// Neither yet, in this number of bytes that were moved to the side.
    Waiting(usize),
}

impl fmt::Display for Reception {
    fn fmt<W: fmt::Write>(&self, f: &mut fmt::Formatter<W>) -> fmt::Result {
        match self {
            Reception::Got(version) => write!(f, "got {version}"),
            Reception::Refused(fault) => write!(f, "refused: {fault}"),
            Reception::Waiting(count) => write!(f, "waiting {count}"),
        }
    }
}

/// What both sides have received after a schedule of deliveries.
#[derive(Debug, Drop)]
pub struct Greeting {
    /// What the client has received from the server.
    pub client: Reception,
    /// What the server has received from the client.
    pub server: Reception,
    /// Whether no bytes wait for a side that still receives.
    pub complete: bool,
}

impl fmt::Display for Greeting {
    /// Writes three lines: what each side has received, and whether nothing waits.
    fn fmt<W: fmt::Write>(&self, f: &mut fmt::Formatter<W>) -> fmt::Result {
        let client = &self.client;
        let server = &self.server;
        let complete = if self.complete { "yes" } else { "no" };
        writeln!(f, "client {client}")?;
        writeln!(f, "server {server}")?;
        writeln!(f, "complete {complete}")
    }
}

/// Moves the bytes that two sides send by the schedule to two line readers, and says what they received.
///
/// The client accepts 20 other lines before the version line, the server none (profile). Each
/// delivery moves the lesser of its count and the waiting bytes; bytes for a side that has ended
/// are dropped. Answers `Memory` where an allocation failed.
pub fn greet(
    alloc: Global,
    client: &[u8],
    server: &[u8],
    schedule: &[Delivery],
) -> Result<Greeting, Memory>
    ensures { IfOk result (Greets client.now server.now schedule.now) }
{
    let mut at_client = Receiver::new(alloc, OTHER_LINE_LIMIT);
    let mut at_server = Receiver::new(alloc, SERVER_OTHERS);
    for delivery in schedule {
        match delivery.to {
            Side::Client => at_client.deliver(server, delivery.count)?,
            Side::Server => at_server.deliver(client, delivery.count)?,
        }
    }
    let complete = is_complete(&at_client, &at_server, client, server);
    sshwire::reading_law();
    Ok(Greeting {
        client: at_client.into_reception(),
        server: at_server.into_reception(),
        complete,
    })
}

/// Whether nothing waits for either side.
fn is_complete(at_client: &Receiver, at_server: &Receiver, client: &[u8], server: &[u8]) -> bool
    ensures { IsTrue result ↔ (HasAll at_client.now.reception (length server.now)
        × HasAll at_server.now.reception (length client.now)) }
{
    at_client.nothing_waits(server) && at_server.nothing_waits(client)
}

/// A side while the schedule goes on.
#[derive(Drop)]
struct Receiver {
    reader: LineReader,
    reception: Reception,
    /// The bytes that were moved to it, those after its end included.
    moved: usize,
}

impl Receiver {
    ghost use Rattle.std.specs.Prelude.{◌<◌, ◌^◌, [], true};
    ghost use Rattle.sshworld.specs.Receivers.{ReceiverStands};

    fn new(alloc: Global, others: u32) -> Receiver
        ensures nothing { result.moved ≡ 0 }
        ensures may_read { MayRead result.reception result.reader.progress }
        ensures stands { ReceiverStands others [] result }
    {
        Receiver {
            reader: LineReader::new(alloc, others),
            reception: Reception::Waiting(0),
            moved: 0,
        }
    }

    /// Moves the lesser of `count` and what it hasn't been given of `sent`.
    fn deliver(&mut self, sent: &[u8], count: u32) -> Result<(), Memory>
        requires within { self.old.moved ≤ length sent.now }
        requires may_read { MayRead self.old.reception self.old.reader.progress }
        ensures may_read { OnOk result (MayRead self.new.reception self.new.reader.progress) }
        ensures moved { OnOk result (self.new.moved ≡ min (self.old.moved + count) (length sent.now)) }
        ensures stands { OnOk result ((k : ℕ) → ReceiverStands k (take self.old.moved sent.now) self.old
            → ReceiverStands k (take self.new.moved sent.now) self.new) }
    {
        let end = self.moved + (sent.len() - self.moved).min(count as usize);
        self.receive(&sent[self.moved..end])?;
        Ok(())
    }

    /// Takes the next bytes, and reads them unless it has ended.
    fn receive(&mut self, piece: &[u8]) -> Result<(), Memory>
        requires fits { self.old.moved + length piece.now < 2 ^ 64 }
        requires may_read { MayRead self.old.reception self.old.reader.progress }
        ensures may_read { OnOk result (MayRead self.new.reception self.new.reader.progress) }
        ensures moved { OnOk result (self.new.moved ≡ self.old.moved + length piece.now) }
        ensures stands { OnOk result ((k : ℕ) (received : List ℕ) → ReceiverStands k received self.old
            → ReceiverStands k (received ++ piece.now) self.new) }
    {
        sshwire::reading_law();
        self.moved += piece.len();
        if let Reception::Waiting(_) = self.reception {
            self.reception = reception_of(&mut self.reader, piece, self.moved)?;
        }
        Ok(())
    }

    /// Whether it has ended, or was given all of `sent`.
    fn nothing_waits(&self, sent: &[u8]) -> bool
        ensures { (result ≡ true) ↔ HasAll self.now.reception (length sent.now) }
    {
        match self.reception {
            Reception::Waiting(count) => count == sent.len(),
            _ => true,
        }
    }

    fn into_reception(self) -> Reception
        ensures { result ≡ self.reception }
    {
        let Receiver { reception, .. } = self;
        reception
    }
}

/// What a side has received once its reader is fed the piece, with which so many bytes were moved.
fn reception_of(reader: &mut LineReader, piece: &[u8], moved: usize) -> Result<Reception, Memory>
    requires { reader.old.progress ≢ Finished }
    ensures may_read { IfOk result (λ reception. MayRead reception reader.new.progress) }
    ensures follows { IfOk result (λ reception. (k : ℕ) (received : List ℕ) → moved ≡ length (received ++ piece.now)
        → StandsOpen k received reader.old.progress
        → Follows k (received ++ piece.now) reader.new.progress reception) }
{
    match reader.feed(piece) {
        Ok(LineStep::More) => Ok(Reception::Waiting(moved)),
        Ok(LineStep::Done { version, .. }) => Ok(Reception::Got(version)),
        Err(fault) => match fault {
            WireFault::Memory => Err(Memory),
            _ => Ok(Reception::Refused(fault)),
        },
    }
}
