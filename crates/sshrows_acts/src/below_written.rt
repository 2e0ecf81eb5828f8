//! Rows of packets that are written, and the keys that rows of packets name.

ghost use Rattle.std.specs.Prelude.{◌≡◌, ◌<◌, ◌≤◌, length, true};
ghost use Rattle.sshwire.specs.declared.limits.TheConstants.{PAYLOAD_LIMIT};

use crate::refusals::{stopped, vector};
use crate::stop::Stop;
use crate::terms::bytes_of;
use crate::texts::{BEFORE, number_of, same_bytes, stands_after, wrong};
use crate::words::{Line, split_word};
use sshpacket::{KeyParts, Keys, Suite, write_clear, write_next, write_sealed};
use sshterms::Names;
use sshwire::{PAYLOAD_LIMIT, as_name};
use std::alloc::Global;

/// The keys that five words are, and what stands after them.
pub(crate) fn keys_of<'a>(
    alloc: Global,
    names: &Names,
    line: &Line<'_>,
    words: &'a str,
) -> Result<(Keys, &'a str), Stop> {
    let (cipher, words) = split_word(words);
    let (mac, words) = split_word(words);
    let (iv, words) = split_word(words);
    let (enc, words) = split_word(words);
    let (mac_key, words) = split_word(words);
    let iv = bytes_of(alloc, names, line, iv)?;
    let enc = bytes_of(alloc, names, line, enc)?;
    let mac_key = bytes_of(alloc, names, line, mac_key)?;
    let keys = keys_with(alloc, line, (cipher, mac), iv, enc, mac_key)?;
    Ok((keys, words))
}

/// Keys for a cipher and a MAC, which have to be names.
fn keys_with(
    alloc: Global,
    line: &Line<'_>,
    algorithms: (&str, &str),
    iv: Vec<u8>,
    enc: Vec<u8>,
    mac_key: Vec<u8>,
) -> Result<Keys, Stop> {
    let (Some(cipher), Some(mac)) = (
        as_name(algorithms.0.as_bytes()),
        as_name(algorithms.1.as_bytes()),
    ) else {
        return wrong(alloc, line, "keys", "two names", "none");
    };
    let cipher = String::from_str(alloc, cipher)?;
    let mac = String::from_str(alloc, mac)?;
    Ok(Keys::new(KeyParts {
        cipher,
        mac,
        iv,
        enc,
        mac_key,
    }))
}

/// `clear NUMBER SEED PAYLOAD PACKET` or `sealed CIPHER MAC IV ENC MACKEY NUMBER SEED PAYLOAD PACKET`: the
/// packet of a payload has to be written as these bytes, after what stood there. `next`, with what `sealed` has and an IV: so,
/// too, and its keys have to go on with this vector.
pub(crate) fn judge_written<S: Suite>(
    alloc: Global,
    names: &Names,
    suite: &S,
    line: &Line<'_>,
    word: &str,
    rest: &str,
) -> Result<(), Stop> {
    if word == "clear" {
        let (packet, wanted) = packet_of(alloc, names, line, rest)?;
        return judge_packet(alloc, names, suite, line, None, &packet, wanted);
    }
    let (keys, rest) = keys_of(alloc, names, line, rest)?;
    let (packet, wanted) = packet_of(alloc, names, line, rest)?;
    if word == "next" {
        return judge_next(alloc, names, suite, line, keys, &packet, wanted);
    }
    judge_packet(alloc, names, suite, line, Some(&keys), &packet, wanted)
}

/// What a packet is written of.
#[derive(Drop)]
struct Packet {
    number: u32,
    seed: Vec<u8>,
    payload: Vec<u8>,
}

/// What `NUMBER SEED PAYLOAD` are, and what stands after them.
fn packet_of<'a>(
    alloc: Global,
    names: &Names,
    line: &Line<'_>,
    words: &'a str,
) -> Result<(Packet, &'a str), Stop> {
    let (number, words) = split_word(words);
    let (seed, words) = split_word(words);
    let (payload, words) = split_word(words);
    let number = number_of(alloc, line, number)?;
    let seed = bytes_of(alloc, names, line, seed)?;
    let payload = bytes_of(alloc, names, line, payload)?;
    let packet = Packet {
        number,
        seed,
        payload,
    };
    Ok((packet, words))
}

/// Judges what is written with these keys, or in clear.
fn judge_packet<S: Suite>(
    alloc: Global,
    names: &Names,
    suite: &S,
    line: &Line<'_>,
    keys: Option<&Keys>,
    packet: &Packet,
    wanted: &str,
) -> Result<(), Stop> {
    if !fits(packet) {
        return wrong(alloc, line, "term", "a payload", "none, or too many bytes");
    }
    let mut out = Vec::from_slice(alloc, BEFORE)?;
    let (number, payload, seed) = (packet.number, &packet.payload, &packet.seed);
    let written = match keys {
        None => write_clear(alloc, suite, number, payload, seed, &mut out),
        Some(keys) => write_sealed(alloc, suite, keys, number, payload, seed, &mut out),
    };
    match written {
        Ok(()) => {
            let wanted = bytes_of(alloc, names, line, wanted)?;
            stands_after(alloc, line, "written", &wanted, &out)
        }
        Err(memory) => Err(stopped(
            alloc,
            line,
            Stop::from(memory),
            vector(out.as_slice() == BEFORE),
        )),
    }
}

/// Judges what is written with these keys, and the vector with which they go on: `PACKET IV`. Where memory runs out both are
/// as before.
fn judge_next<S: Suite>(
    alloc: Global,
    names: &Names,
    suite: &S,
    line: &Line<'_>,
    keys: Keys,
    packet: &Packet,
    words: &str,
) -> Result<(), Stop> {
    if !fits(packet) {
        return wrong(alloc, line, "term", "a payload", "none, or too many bytes");
    }
    let mut keys = keys;
    let before = Vec::from_slice(alloc, keys.iv())?;
    let mut out = Vec::from_slice(alloc, BEFORE)?;
    let (number, payload, seed) = (packet.number, &packet.payload, &packet.seed);
    match write_next(alloc, suite, &mut keys, number, payload, seed, &mut out) {
        Ok(()) => {
            let (wanted, iv) = split_word(words);
            let wanted = bytes_of(alloc, names, line, wanted)?;
            stands_after(alloc, line, "written", &wanted, &out)?;
            let iv = bytes_of(alloc, names, line, iv)?;
            same_bytes(alloc, line, "next vector", &iv, keys.iv())
        }
        Err(memory) => {
            let kept = out.as_slice() == BEFORE && before.as_slice() == keys.iv();
            Err(stopped(alloc, line, Stop::from(memory), vector(kept)))
        }
    }
}

/// Whether this can be written: a payload has 1 to `PAYLOAD_LIMIT` bytes.
fn fits(packet: &Packet) -> bool
    ensures { result ≡ true → (0 < length packet.now.payload.items) × (length packet.now.payload.items ≤ PAYLOAD_LIMIT) × (length packet.now.seed.items ≤ PAYLOAD_LIMIT) }
{
    let (payload, seed) = (packet.payload.len(), packet.seed.len());
    payload > 0 && payload <= PAYLOAD_LIMIT && seed <= PAYLOAD_LIMIT
}
