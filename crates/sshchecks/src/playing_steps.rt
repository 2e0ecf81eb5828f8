//! What each step sends or reads.

use crate::fault::PlayFault;
use crate::incoming::{Front, Incoming};
use crate::known::Sides;
use crate::own::Own;
use crate::peer::{Came, Peer};
use crate::playing_acts::goes_on_if;
use crate::playing_exchange::{read_reply, send_reply};
use crate::progress::{Progress, done};
use crate::sending::Sending;
use crate::settings::Given;
use crate::steps::Step;
use sshmsg::{
    SSH_MSG_KEX_ECDH_INIT, SSH_MSG_KEXINIT, SSH_MSG_NEWKEYS, SSH_MSG_SERVICE_ACCEPT,
    SSH_MSG_SERVICE_REQUEST, SSH_MSG_USERAUTH_FAILURE, SSH_MSG_USERAUTH_PK_OK,
    SSH_MSG_USERAUTH_REQUEST, SSH_MSG_USERAUTH_SUCCESS,
};
use sshneg::Side;
use sshterms::Names;
use sshwire::{ByteBuffer, Memory, Reader};
use std::alloc::Global;

/// The methods that a server names.
const METHODS: &[u8] = b"publickey,password";

/// The service of authentication (RFC 4252 section 4).
const SERVICE: &[u8] = b"ssh-userauth";

/// Does a step.
pub(crate) fn do_step<'a>(
    given: &Given<'a>,
    own: &mut Own,
    sides: &mut Sides,
    sending: &mut Sending,
    peer: &mut Peer,
    step: Step,
    line: &'a str,
    out: &mut Vec<u8>,
) -> Result<Progress, PlayFault<'a>> {
    match step {
        Step::ReadVersion => read_version(given.alloc, sides, &mut peer.incoming),
        Step::ReadKexInit => read_kexinit(given, &own.names, sides, peer),
        Step::ReadInit => read_init(given.alloc, &mut own.names, sides, peer),
        Step::ReadReply => read_reply(given, own, sides, sending, peer),
        Step::ReadNewKeys => peer.read_newkeys(given.alloc, sides.strict),
        Step::ReadService => peer.read_service(given.alloc, given.side),
        Step::ReadAuth => match given.side {
            Side::Client => peer.read_answer(given.alloc),
            Side::Server => read_requests(given.alloc, sending, peer, line, out),
        },
        Step::ReadOn => peer.read_on(given.alloc),
        Step::SendReply => send_reply(given, own, sides, sending, peer, line, out),
        _ => done(send(given, own, sides, sending, step, line, out)),
    }
}

/// A step that sends something.
fn send<'a>(
    given: &Given<'a>,
    own: &Own,
    sides: &mut Sides,
    sending: &mut Sending,
    step: Step,
    line: &'a str,
    out: &mut Vec<u8>,
) -> Result<(), PlayFault<'a>> {
    let alloc = given.alloc;
    match step {
        Step::SendVersion => Ok(out.extend_from_slice(&own.line)?),
        Step::SendKexInit => send_kexinit(alloc, &own.names, sides, sending, line, out),
        Step::SendNewKeys => send_newkeys(alloc, sides.strict, sending, line, out),
        Step::SendInit => {
            let share = own.names.bytes("share");
            sending.put_message(alloc, line, SSH_MSG_KEX_ECDH_INIT, share, out)
        }
        Step::SendService => {
            let number = match given.side {
                Side::Client => SSH_MSG_SERVICE_REQUEST,
                Side::Server => SSH_MSG_SERVICE_ACCEPT,
            };
            sending.put_message(alloc, line, number, SERVICE, out)
        }
        _ => match given.side {
            Side::Client => sending.put(alloc, line, own.names.bytes("good"), out),
            Side::Server => sending.put(alloc, line, &[SSH_MSG_USERAUTH_SUCCESS], out),
        },
    }
}

/// Sends NEWKEYS, after which the own keys are new.
fn send_newkeys<'a>(
    alloc: Global,
    strict: bool,
    sending: &mut Sending,
    line: &'a str,
    out: &mut Vec<u8>,
) -> Result<(), PlayFault<'a>> {
    sending.put(alloc, line, &[SSH_MSG_NEWKEYS], out)?;
    sending.switch(strict);
    Ok(())
}

/// Sends the own KEXINIT; what a reader takes of it is hashed.
fn send_kexinit<'a>(
    alloc: Global,
    names: &Names,
    sides: &mut Sides,
    sending: &mut Sending,
    line: &'a str,
    out: &mut Vec<u8>,
) -> Result<(), PlayFault<'a>> {
    let made = sending.next(alloc, line, names.bytes("kexinit"))?;
    let put = out.extend_from_slice(&made.packet);
    sides.own_kexinit = made.taken;
    Ok(put?)
}

/// Reads up to the peer's version line.
fn read_version<'a>(
    alloc: Global,
    sides: &mut Sides,
    incoming: &mut Incoming,
) -> Result<Progress, PlayFault<'a>> {
    match incoming.line(alloc)? {
        Front::Whole(line) => {
            sides.peer_line = line;
            Ok(Progress::Done)
        }
        Front::More => Ok(Progress::Waits),
        Front::Garbled => Ok(Progress::Over("garbled")),
    }
}

/// Reads the peer's KEXINIT, and asks whether the check means something.
fn read_kexinit<'a>(
    given: &Given<'a>,
    names: &Names,
    sides: &mut Sides,
    peer: &mut Peer,
) -> Result<Progress, PlayFault<'a>> {
    match peer.payload_with(given.alloc, SSH_MSG_KEXINIT)? {
        Came::Nothing(progress) => Ok(progress),
        Came::Payload(payload) => take_kexinit(given, names, sides, payload),
    }
}

/// Takes the payload of the peer's KEXINIT, the first one where there is no session yet.
fn take_kexinit<'a>(
    given: &Given<'a>,
    names: &Names,
    sides: &mut Sides,
    payload: Vec<u8>,
) -> Result<Progress, PlayFault<'a>> {
    let first = names.find("session").is_none();
    let own = names.bytes("kexinit");
    sides.take_kexinit(given.alloc, given.side, own, payload, first)?;
    Ok(goes_on_if(given.needs, sides))
}

/// Reads the client's share; the packet of its wrong guess is dropped.
fn read_init<'a>(
    alloc: Global,
    names: &mut Names,
    sides: &mut Sides,
    peer: &mut Peer,
) -> Result<Progress, PlayFault<'a>> {
    match pass_guess(alloc, sides, peer)? {
        Progress::Done => read_share(alloc, names, peer),
        progress => Ok(progress),
    }
}

/// Passes over the packet of a wrong guess, where it is due.
fn pass_guess<'a>(
    alloc: Global,
    sides: &mut Sides,
    peer: &mut Peer,
) -> Result<Progress, PlayFault<'a>> {
    if !sides.guess_is_due {
        return Ok(Progress::Done);
    }
    let progress = peer.pass(alloc)?;
    if matches!(progress, Progress::Done) {
        sides.guess_is_due = false;
    }
    Ok(progress)
}

/// Reads the client's share, and names it.
fn read_share<'a>(
    alloc: Global,
    names: &mut Names,
    peer: &mut Peer,
) -> Result<Progress, PlayFault<'a>> {
    match peer.payload_with(alloc, SSH_MSG_KEX_ECDH_INIT)? {
        Came::Nothing(progress) => Ok(progress),
        Came::Payload(payload) => {
            names.set_copy(alloc, "peer", share_in(&payload))?;
            Ok(Progress::Done)
        }
    }
}

/// The share in a payload; none where it isn't there.
fn share_in(payload: &[u8]) -> &[u8] {
    let mut reader = Reader::new(payload.get(1..).unwrap_or(&[]));
    reader.string().unwrap_or(&[])
}

/// Answers requests up to one that proves something.
fn read_requests<'a>(
    alloc: Global,
    sending: &mut Sending,
    peer: &mut Peer,
    line: &'a str,
    out: &mut Vec<u8>,
) -> Result<Progress, PlayFault<'a>> {
    for _ in 0..u32::MAX {
        let proved = match peer.payload_with(alloc, SSH_MSG_USERAUTH_REQUEST)? {
            Came::Nothing(progress) => return Ok(progress),
            Came::Payload(payload) => answer(alloc, sending, line, &payload, out),
        };
        if proved? {
            return Ok(Progress::Done);
        }
    }
    Ok(Progress::Over("garbled"))
}

/// Answers a request, unless it proves something; says whether it does.
fn answer<'a>(
    alloc: Global,
    sending: &mut Sending,
    line: &'a str,
    payload: &[u8],
    out: &mut Vec<u8>,
) -> Result<bool, PlayFault<'a>> {
    if proves(payload) {
        return Ok(true);
    }
    let reply = answer_to(alloc, payload)?;
    sending.put(alloc, line, &reply, out)?;
    Ok(false)
}

/// The answer to a request that proves nothing.
fn answer_to(alloc: Global, payload: &[u8]) -> Result<Vec<u8>, Memory> {
    let (method, fields) = method_in(payload);
    let mut reply = ByteBuffer::new(alloc);
    if method == b"publickey".as_slice() {
        reply.put(&[SSH_MSG_USERAUTH_PK_OK]);
        reply.put(fields.get(1..).unwrap_or(&[]));
    } else {
        reply.put(&[SSH_MSG_USERAUTH_FAILURE]);
        reply.put_string(METHODS);
        reply.put_boolean(false);
    }
    reply.finish()
}

/// The method of a request, and its fields.
fn method_in(payload: &[u8]) -> (&[u8], &[u8]) {
    let mut reader = Reader::new(payload.get(1..).unwrap_or(&[]));
    let _ = reader.string();
    let _ = reader.string();
    let method = reader.string().unwrap_or(&[]);
    (method, reader.rest())
}

/// Whether a request has a password or a signature.
fn proves(payload: &[u8]) -> bool {
    let (method, fields) = method_in(payload);
    if method == b"password".as_slice() {
        return true;
    }
    method == b"publickey".as_slice() && fields.first().copied().unwrap_or(0) != 0
}
