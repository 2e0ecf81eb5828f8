//! What `check` prints of a recording.

use crate::listing::Listing;
use crate::recorded_stream::{RecordedStream, StreamEnd, StreamFault};
use crate::report::yes_or_no;
use sshmsg::{
    KexInit, Message, MsgFault, SSH_MSG_KEXDH_INIT, SSH_MSG_KEXDH_REPLY, SSH_MSG_KEXINIT,
    SSH_MSG_NEWKEYS, read,
};
use sshneg::{Side, guess_right, strict_of};
use sshwire::Memory;
use std::alloc::Global;
use std::fmt;

/// What a recording shows of strict key exchange.
#[derive(Clone, Copy, Debug)]
pub(crate) struct Findings {
    /// Whether both sides are strict, where that can be told.
    strict: Option<bool>,
    client: Finding,
    server: Finding,
}

/// What one side's stream shows.
#[derive(Clone, Copy, Debug, PartialEq, Eq)]
enum Finding {
    /// Bytes of it are refused.
    Refused(StreamFault),
    /// It ends before NEWKEYS.
    Partial,
    /// It has no KEXINIT before NEWKEYS.
    NoKexInit,
    /// This is its first packet that isn't the one that the strict sequence has at its place.
    Deviates {
        /// Its place, from 0.
        place: usize,
        /// The number of its message.
        number: u8,
    },
    /// None of these.
    Fine,
}

/// The numbers that packets of a side have up to NEWKEYS where both sides are strict (OpenSSH PROTOCOL
/// section 1.10).
#[derive(Clone, Copy)]
struct StrictSequence {
    /// The number of the side's key exchange message.
    exchange: u8,
    /// Whether a wrong guess's packet stands before it.
    wrong_guess: bool,
}

impl StrictSequence {
    /// Whether a packet at this place, counted from 0, may have this number.
    fn has(self, place: usize, number: u8) -> bool {
        match (place, self.wrong_guess) {
            (0, _) => number == SSH_MSG_KEXINIT,
            (1, true) => (30..=49).contains(&number),
            (1, false) | (2, true) => number == self.exchange,
            _ => number == SSH_MSG_NEWKEYS,
        }
    }
}

/// What both KEXINITs together say.
#[derive(Clone, Copy)]
struct Terms {
    /// Whether each has its side's marker.
    strict: bool,
    /// Whether both first guesses are the same.
    guess_right: bool,
    /// Whether the client says that its guess follows.
    client_guesses: bool,
    /// Whether the server does.
    server_guesses: bool,
}

impl Terms {
    fn of(client: &KexInit<'_>, server: &KexInit<'_>) -> Terms {
        Terms {
            strict: strict_of(true, Side::Server, client) && strict_of(true, Side::Client, server),
            guess_right: guess_right(client, server),
            client_guesses: client.first_kex_packet_follows,
            server_guesses: server.first_kex_packet_follows,
        }
    }

    /// The sequence that is asked of a side, if both are strict.
    fn sequence(self, role: Side) -> Option<StrictSequence> {
        let (exchange, guesses) = match role {
            Side::Client => (SSH_MSG_KEXDH_INIT, self.client_guesses),
            Side::Server => (SSH_MSG_KEXDH_REPLY, self.server_guesses),
        };
        self.strict.then_some(StrictSequence {
            exchange,
            wrong_guess: guesses && !self.guess_right,
        })
    }
}

impl Findings {
    /// Judges both streams. Answers `Memory` only where an allocation failed.
    pub(crate) fn of(alloc: Global, listing: &Listing<'_>) -> Result<Findings, Memory> {
        let terms = terms_of(alloc, listing)?;
        let client = terms.and_then(|terms| terms.sequence(Side::Client));
        let server = terms.and_then(|terms| terms.sequence(Side::Server));
        Ok(Findings {
            strict: terms.map(|terms| terms.strict),
            client: finding_of(&listing.client, client),
            server: finding_of(&listing.server, server),
        })
    }

    /// Whether nothing speaks against either side.
    pub(crate) fn all_fine(&self) -> bool {
        self.client == Finding::Fine && self.server == Finding::Fine
    }
}

/// What both first KEXINITs say, if there are two.
fn terms_of(alloc: Global, listing: &Listing<'_>) -> Result<Option<Terms>, Memory> {
    let (Some(client), Some(server)) = (
        &listing.client.clear.kexinit,
        &listing.server.clear.kexinit,
    ) else {
        return Ok(None);
    };
    match (kexinit_of(alloc, client)?, kexinit_of(alloc, server)?) {
        (Some(client), Some(server)) => Ok(Some(Terms::of(&client, &server))),
        _ => Ok(None),
    }
}

/// The KEXINIT that a payload spells, if it does.
fn kexinit_of(alloc: Global, payload: &[u8]) -> Result<Option<Box<KexInit<'_>>>, Memory> {
    match read(alloc, payload) {
        Ok(Message::KexInit(kexinit)) => Ok(Some(kexinit)),
        Err(MsgFault::Memory) => Err(Memory),
        _ => Ok(None),
    }
}

/// The first of what may be told of a stream.
fn finding_of(stream: &RecordedStream<'_>, sequence: Option<StrictSequence>) -> Finding {
    match stream.end {
        StreamEnd::Refused(fault) => Finding::Refused(fault),
        StreamEnd::Partial(_) => Finding::Partial,
        StreamEnd::Sealed(_) if stream.clear.kexinit.is_none() => Finding::NoKexInit,
        StreamEnd::Sealed(_) => match sequence {
            Some(sequence) => deviation_from(sequence, stream),
            None => Finding::Fine,
        },
    }
}

/// The first packet that the sequence doesn't have at its place.
fn deviation_from(sequence: StrictSequence, stream: &RecordedStream<'_>) -> Finding {
    for (place, packet) in stream.clear.packets.iter().enumerate() {
        let number = packet.number;
        if !sequence.has(place, number) {
            return Finding::Deviates { place, number };
        }
    }
    Finding::Fine
}

impl fmt::Display for Findings {
    /// Writes whether both are strict, then a line for the client and one for the server.
    fn fmt<W: fmt::Write>(&self, f: &mut fmt::Formatter<W>) -> fmt::Result {
        let strict = match self.strict {
            Some(strict) => yes_or_no(strict),
            None => "unknown",
        };
        let (client, server) = (self.client, self.server);
        writeln!(f, "strict {strict}")?;
        writeln!(f, "client {client}")?;
        writeln!(f, "server {server}")
    }
}

impl fmt::Display for Finding {
    fn fmt<W: fmt::Write>(&self, f: &mut fmt::Formatter<W>) -> fmt::Result {
        match self {
            Finding::Refused(fault) => write!(f, "refused {fault}"),
            Finding::Partial => f.write_str("partial"),
            Finding::NoKexInit => f.write_str("nokexinit"),
            Finding::Deviates { place, number } => write!(f, "deviates {place} {number}"),
            Finding::Fine => f.write_str("ok"),
        }
    }
}
