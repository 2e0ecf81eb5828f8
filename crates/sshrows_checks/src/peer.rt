//! An endpoint of this project that a check is played to, and the link that it goes on as.

use crate::messages::{Reply, channel_open, reply_to};
use crate::trust::Trust;
use sshcore::{End, Endpoint, Link, LinkFault};
use sshneg::Side;
use sshpacket::PacketStep;
use sshrows_acts::Stop;
use sshsuite::DeployedSuite;
use std::alloc::Global;

/// Of which the link makes padding.
const SEED: [u8; 32] = [0x6d; 32];

/// An endpoint of this project, up to its end.
#[derive(Drop)]
pub(crate) enum Peer<'a> {
    /// It isn't authenticated yet.
    Endpoint(Box<OwnEndpoint<'a>>),
    /// It is.
    Link(Box<Link>),
    /// It has closed the connection.
    Ended,
}

/// An endpoint over the deployed algorithms.
type OwnEndpoint<'a> = Endpoint<'a, DeployedSuite, Trust>;

impl<'a> Peer<'a> {
    /// Whether it has closed the connection.
    pub(crate) fn has_ended(&self) -> bool {
        matches!(self, Peer::Ended)
    }

    /// Gives it bytes, appends what it sends, and answers how it stands after that.
    pub(crate) fn given(
        self,
        alloc: Global,
        role: Side,
        piece: &[u8],
        sent: &mut Vec<u8>,
    ) -> Result<Peer<'a>, Stop> {
        match self {
            Peer::Endpoint(endpoint) => feed(alloc, role, endpoint, piece, sent),
            Peer::Link(link) => go_on(alloc, link, piece, sent),
            Peer::Ended => Ok(Peer::Ended),
        }
    }
}

/// Gives an endpoint bytes, and where it is authenticated by them its link the rest.
fn feed<'a>(
    alloc: Global,
    role: Side,
    endpoint: Box<OwnEndpoint<'a>>,
    piece: &[u8],
    sent: &mut Vec<u8>,
) -> Result<Peer<'a>, Stop> {
    let mut endpoint = endpoint;
    let Ok(used) = endpoint.feed(piece, sent) else {
        return Err(Stop::Memory);
    };
    if matches!(endpoint.end(), End::Open) {
        return Ok(Peer::Endpoint(endpoint));
    }
    let Some(session) = Box::into_inner(endpoint).into_session() else {
        return Ok(Peer::Ended);
    };
    let mut link = Box::new(alloc, session.into_link(alloc, SEED))?;
    if matches!(role, Side::Client) {
        seal(&mut link, &channel_open(alloc)?, sent)?;
    }
    go_on(alloc, link, piece.get(used..).unwrap_or(&[]), sent)
}

/// Appends the packet of a payload.
fn seal(link: &mut Link, payload: &[u8], sent: &mut Vec<u8>) -> Result<(), Stop> {
    match link.seal(&DeployedSuite, payload, sent) {
        Ok(()) => Ok(()),
        Err(_) => Err(Stop::Memory),
    }
}

/// Gives a link bytes, and answers each payload.
fn go_on<'a>(
    alloc: Global,
    link: Box<Link>,
    piece: &[u8],
    sent: &mut Vec<u8>,
) -> Result<Peer<'a>, Stop> {
    let mut link = link;
    let mut rest = piece;
    for _ in 0..u32::MAX {
        let (reply, used) = match link.next(&DeployedSuite, rest) {
            Ok(PacketStep::Payload { payload, used, .. }) => (reply_to(alloc, payload)?, used),
            Ok(PacketStep::More) => break,
            Err(LinkFault::Memory) => return Err(Stop::Memory),
            Err(_) => return Ok(Peer::Ended),
        };
        rest = rest.get(used..).unwrap_or(&[]);
        match reply {
            Reply::Nothing => {}
            Reply::Payload(payload) => seal(&mut link, &payload, sent)?,
            Reply::End => return Ok(Peer::Ended),
        }
    }
    Ok(Peer::Link(link))
}
