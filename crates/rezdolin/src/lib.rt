//! The door for programs in C, Rust, Python and other languages: a client or a server of SSH up to the authenticated
//! user, by the algorithms that are deployed, and the packets of the session that goes on.
//!
//! No handle crosses. What changes of an endpoint is a record, bytes that the program keeps: each call takes the one that the call
//! before has written, and the bytes that came, and writes what the endpoint sends and its next record. What stands after
//! authentication is kept by the program too, as bytes: the record of a session, and in it the state of each direction. So
//! no call leaves anything in memory, and calls of several threads share nothing.
//!
//! `include/rezdolin.h` at the top of the repository declares the calls for C.
#![tactic(auto)]

mod answers;
mod copying;
mod directions;
mod drawn;
mod frame;
mod inputs;
mod laws;
mod parts;
mod parts_digest;
mod parts_of;
mod public_keys;
mod question;
mod readable;
mod record;
mod steps;
mod telling;
mod texts;
mod trust;
mod verdicts;

ghost use Rattle.std.specs.Prelude.{◌≡◌, ◌≢◌, List, length, replicate, ℕ};
ghost use Rattle.sshsuite.specs.Deployed.{deployed};
ghost use Rattle.rezdolin.specs.Directions.{IsOpened, IsPut, IsSealed};
ghost use Rattle.rezdolin.specs.declared.parts_of.Parts.TheVariants as parts;
ghost use Rattle.rezdolin.specs.Steps.{Begins, Calls, Disconnects, GoesOn, IsAnsweredBy, IsBlob, emptied};
ghost use Rattle.rezdolin.specs.StepsView.{WhyNoAnswer, WhyNoLeave, WhyNot, WhyNotFrom};
ghost use Rattle.rezdolin.specs.Verdicts.{IsVerdict};

use crate::answers::{BytesAnswer, BytesFault, STATUS_ANSWERED, StepAnswer, no_bytes};
use crate::copying::{empty, is_copied};
use crate::directions::{open, seal};
use crate::inputs::{ClientInput, ServerInput};
use crate::parts_of::Parts;
use crate::steps::{answered, begun, disconnected, stepped};
use crate::telling::tell;
use crate::verdicts::verdict;
use sshidentity::identity_in;
use sshpacket::Suite;
use sshsuite::DeployedSuite;
use std::alloc::Global;

/// A client that has received nothing yet: `out` gets what it sends first, and `next` its record.
#[unsafe(no_mangle)]
pub extern "C" fn rezdolin_client_begin(
    alloc: Global,
    client: &ClientInput<'_>,
    next: &mut [u8],
    out: &mut [u8],
) -> StepAnswer
    ensures { (spare : List ℕ) × (length spare ≡ 0) × ((new_spare : List ℕ) × Calls (Begins (parts.Client client.entry)) (WhyNot (parts.Client client.entry)) result out.old next.old spare out.new next.new new_spare) }
{
    tell(&begun(alloc, &Parts::Client(client)), next, out, &mut [])
}

/// A client that goes on from its record with these bytes, of which there may be none: `out` gets what it sends, `next` its record, and
/// `told` the record of its question or of its session.
#[unsafe(no_mangle)]
pub extern "C" fn rezdolin_client_step(
    alloc: Global,
    client: &ClientInput<'_>,
    record: &[u8],
    piece: &[u8],
    next: &mut [u8],
    out: &mut [u8],
    told: &mut [u8],
) -> StepAnswer
    ensures { Calls (GoesOn (parts.Client client.entry) «record».now piece.now) (WhyNotFrom (parts.Client client.entry) «record».now) result out.old next.old (emptied told.old) out.new next.new told.new }
{
    empty(told);
    tell(
        &stepped(alloc, &Parts::Client(client), record, piece),
        next,
        out,
        told,
    )
}

/// A client that goes on from its record with the answer to its question, one of `ANSWER_`, with the signature where it is one.
#[unsafe(no_mangle)]
pub extern "C" fn rezdolin_client_answer(
    alloc: Global,
    client: &ClientInput<'_>,
    record: &[u8],
    answer: u32,
    signature: &[u8],
    next: &mut [u8],
    out: &mut [u8],
    told: &mut [u8],
) -> StepAnswer
    ensures { Calls (IsAnsweredBy (parts.Client client.entry) «record».now answer signature.now) (WhyNoAnswer (parts.Client client.entry) «record».now answer signature.now) result out.old next.old (emptied told.old) out.new next.new told.new }
{
    empty(told);
    tell(
        &answered(alloc, &Parts::Client(client), record, answer, signature),
        next,
        out,
        told,
    )
}

/// A client that is told to disconnect with this reason and description (RFC 4253 section 11.1): `out` gets the DISCONNECT, and there is
/// no record any more.
#[unsafe(no_mangle)]
pub extern "C" fn rezdolin_client_disconnect(
    alloc: Global,
    client: &ClientInput<'_>,
    record: &[u8],
    reason: u32,
    description: &[u8],
    out: &mut [u8],
) -> StepAnswer
    ensures { (spare other : List ℕ) × (new_spare new_other : List ℕ) × Calls (Disconnects (parts.Client client.entry) «record».now reason description.now) (WhyNoLeave (parts.Client client.entry) «record».now description.now) result out.old spare other out.new new_spare new_other }
{
    tell(
        &disconnected(alloc, &Parts::Client(client), record, reason, description),
        &mut [],
        out,
        &mut [],
    )
}

/// A server that has received nothing yet: `out` gets what it sends first, and `next` its record.
#[unsafe(no_mangle)]
pub extern "C" fn rezdolin_server_begin(
    alloc: Global,
    server: &ServerInput<'_>,
    next: &mut [u8],
    out: &mut [u8],
) -> StepAnswer
    ensures { (spare : List ℕ) × (length spare ≡ 0) × ((new_spare : List ℕ) × Calls (Begins (parts.Server server.entry)) (WhyNot (parts.Server server.entry)) result out.old next.old spare out.new next.new new_spare) }
{
    tell(&begun(alloc, &Parts::Server(server)), next, out, &mut [])
}

/// A server that goes on from its record with these bytes, of which there may be none: `out` gets what it sends, `next` its record, and
/// `told` the record of its question or of its session.
#[unsafe(no_mangle)]
pub extern "C" fn rezdolin_server_step(
    alloc: Global,
    server: &ServerInput<'_>,
    record: &[u8],
    piece: &[u8],
    next: &mut [u8],
    out: &mut [u8],
    told: &mut [u8],
) -> StepAnswer
    ensures { Calls (GoesOn (parts.Server server.entry) «record».now piece.now) (WhyNotFrom (parts.Server server.entry) «record».now) result out.old next.old (emptied told.old) out.new next.new told.new }
{
    empty(told);
    tell(
        &stepped(alloc, &Parts::Server(server), record, piece),
        next,
        out,
        told,
    )
}

/// A server that goes on from its record with the answer to its question, one of `ANSWER_`, with the signature where it is one.
#[unsafe(no_mangle)]
pub extern "C" fn rezdolin_server_answer(
    alloc: Global,
    server: &ServerInput<'_>,
    record: &[u8],
    answer: u32,
    signature: &[u8],
    next: &mut [u8],
    out: &mut [u8],
    told: &mut [u8],
) -> StepAnswer
    ensures { Calls (IsAnsweredBy (parts.Server server.entry) «record».now answer signature.now) (WhyNoAnswer (parts.Server server.entry) «record».now answer signature.now) result out.old next.old (emptied told.old) out.new next.new told.new }
{
    empty(told);
    tell(
        &answered(alloc, &Parts::Server(server), record, answer, signature),
        next,
        out,
        told,
    )
}

/// A server that is told to disconnect with this reason and description (RFC 4253 section 11.1): `out` gets the DISCONNECT, and there is
/// no record any more.
#[unsafe(no_mangle)]
pub extern "C" fn rezdolin_server_disconnect(
    alloc: Global,
    server: &ServerInput<'_>,
    record: &[u8],
    reason: u32,
    description: &[u8],
    out: &mut [u8],
) -> StepAnswer
    ensures { (spare other : List ℕ) × (new_spare new_other : List ℕ) × Calls (Disconnects (parts.Server server.entry) «record».now reason description.now) (WhyNoLeave (parts.Server server.entry) «record».now description.now) result out.old spare other out.new new_spare new_other }
{
    tell(
        &disconnected(alloc, &Parts::Server(server), record, reason, description),
        &mut [],
        out,
        &mut [],
    )
}

/// Overwrites bytes with zeros: secrets, or a record. A compiler can't leave the call out, since it doesn't see what it does.
#[unsafe(no_mangle)]
pub extern "C" fn rezdolin_wipe(bytes: &mut [u8])
    ensures { bytes.new ≡ replicate (length bytes.old) 0 }
{
    for index in 0..bytes.len() {
        bytes[index] = 0;
    }
}

/// The public key of a private key of ssh-ed25519 (the 32 bytes of RFC 8032 section 5.1.5), as a server sends it and a
/// client trusts it (RFC 8709 section 4).
#[unsafe(no_mangle)]
pub extern "C" fn rezdolin_public_key(
    alloc: Global,
    private_key: &[u8],
    out: &mut [u8],
) -> BytesAnswer
    ensures key { result.status ≡ STATUS_ANSWERED → IsBlob deployed private_key.now out.old result.len out.new }
    ensures kept { result.status ≢ STATUS_ANSWERED → out.new ≡ out.old }
{
    if private_key.len() != 32 {
        return no_bytes(BytesFault::Unreadable);
    }
    match DeployedSuite.blob(alloc, "ssh-ed25519", private_key) {
        Ok(blob) if is_copied(&blob, out) => written(0, blob.len()),
        Ok(blob) => no_bytes(BytesFault::Room(blob.len())),
        Err(_) => no_bytes(BytesFault::Memory),
    }
}

/// Whether a signature is that of the input by this public key and this algorithm (RFC 4253 section 6.6), whose name is that of the
/// signature: [`ANSWER_YES`](crate::inputs::ANSWER_YES) or [`ANSWER_NO`](crate::inputs::ANSWER_NO). It is 0 where the signature wasn't
/// looked at: the library verifies no such algorithm, something has more than 2^32 - 1 bytes, or memory ran out.
#[unsafe(no_mangle)]
pub extern "C" fn rezdolin_is_signed(
    alloc: Global,
    algorithm: &[u8],
    key: &[u8],
    input: &[u8],
    signature: &[u8],
) -> u32
    ensures { IsVerdict deployed algorithm.now key.now input.now signature.now result }
{
    verdict(alloc, algorithm, key, input, signature)
}

/// The private key in the text of a file as `ssh-keygen -t ed25519` writes it, without a passphrase: its 32 bytes, for an attempt or a
/// host key. Where there is none, `fault` says why, and the status is [`STATUS_IDENTITY`](crate::answers::STATUS_IDENTITY).
#[unsafe(no_mangle)]
pub extern "C" fn rezdolin_read_identity(alloc: Global, text: &[u8], out: &mut [u8]) -> BytesAnswer
    ensures length { result.status ≡ STATUS_ANSWERED → (key : List ℕ) × (length key ≡ 32) × IsPut key out.old result.len out.new }
    ensures kept { result.status ≢ STATUS_ANSWERED → out.new ≡ out.old }
{
    let Ok(text) = str::from_utf8(text) else {
        return no_bytes(BytesFault::Unreadable);
    };
    match identity_in(alloc, text) {
        Ok(Ok(key)) if is_copied(&key, out) => written(0, key.len()),
        Ok(Ok(key)) => no_bytes(BytesFault::Room(key.len())),
        Ok(Err(fault)) => no_bytes(BytesFault::Identity(fault)),
        Err(_) => no_bytes(BytesFault::Memory),
    }
}

/// Seals a payload of 1 to 32768 bytes by the state of the outgoing direction, and makes it that of the next packet. Where it
/// isn't answered all is as before.
#[unsafe(no_mangle)]
pub extern "C" fn rezdolin_seal(
    alloc: Global,
    state: &mut [u8],
    padding_seed: &[u8],
    payload: &[u8],
    out: &mut [u8],
) -> BytesAnswer
    ensures sealed { result.status ≡ STATUS_ANSWERED → IsSealed deployed state.old padding_seed.now payload.now out.old state.new result.len out.new }
    ensures kept { result.status ≢ STATUS_ANSWERED → (state.new ≡ state.old) × (out.new ≡ out.old) }
{
    match seal(alloc, state, padding_seed, payload, out) {
        Ok(len) => written(0, len),
        Err(fault) => no_bytes(fault),
    }
}

/// Opens the packet at the front of what was received, by the state of the incoming direction, and makes it that of the next
/// packet. `out` gets its payload; a room of 32768 bytes is always enough. Where it isn't answered all is as before.
#[unsafe(no_mangle)]
pub extern "C" fn rezdolin_open(
    alloc: Global,
    state: &mut [u8],
    received: &[u8],
    out: &mut [u8],
) -> BytesAnswer
    ensures opened { result.status ≡ STATUS_ANSWERED → IsOpened deployed state.old received.now out.old state.new result.used result.len out.new }
    ensures kept { result.status ≢ STATUS_ANSWERED → (state.new ≡ state.old) × (out.new ≡ out.old) }
{
    match open(alloc, state, received, out) {
        Ok(opening) => written(opening.used, opening.len),
        Err(fault) => no_bytes(fault),
    }
}

/// The answer where so many bytes were written.
fn written(used: usize, len: usize) -> BytesAnswer
    ensures { result ≡ record { status = STATUS_ANSWERED; fault = 0; used = used; len = len } }
{
    BytesAnswer {
        status: STATUS_ANSWERED,
        fault: 0,
        used,
        len,
    }
}
