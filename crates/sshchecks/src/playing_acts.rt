//! What each act does.

use crate::acts::{Act, Spot, Work};
use crate::fault::PlayFault;
use crate::known::Sides;
use crate::look::{Look, are_so, seen};
use crate::noted::Noted;
use crate::own::Own;
use crate::own_keys::{signature_of, wrap};
use crate::peer::Peer;
use crate::playing_exchange::{bent_exchange, take_keys};
use crate::playing_steps::do_step;
use crate::progress::{Progress, done};
use crate::sending::Sending;
use crate::settings::Given;
use crate::terms::bytes_of;
use sshneg::Side;
use sshterms::Names;
use std::alloc::Global;

/// Does an act.
pub(crate) fn do_act<'a>(
    given: &Given<'a>,
    own: &mut Own,
    sides: &mut Sides,
    sending: &mut Sending,
    peer: &mut Peer,
    act: &Act<'a>,
    out: &mut Vec<u8>,
) -> Result<Progress, PlayFault<'a>> {
    match act.work {
        Work::Step(step) => do_step(given, own, sides, sending, peer, step, act.line, out),
        Work::Await(pairs) => peer.wait_for(given.alloc, pairs, sending.last),
        Work::Needs(needs) => Ok(goes_on_if(needs, sides)),
        Work::Look(look) => look_at(given.side, sides, &mut peer.noted, look),
        Work::Exchange { zero, blob, share } => {
            let keys = bent_exchange(given, own, sides, act.line, zero, blob, share);
            take_keys(sending, peer, keys)
        }
        Work::Put(terms) => {
            done(put_terms(given.alloc, &mut own.names, sending, act.line, terms, out))
        }
        Work::Raw(terms) => done(put_raw(given.alloc, &own.names, act.line, terms, out)),
        _ => done(set(given, own, sending, act)),
    }
}

/// Whether the check goes on, by what it needs of the peer.
pub(crate) fn goes_on_if(needs: &str, sides: &Sides) -> Progress {
    if are_so(needs, sides.strict, &sides.peer_lists) {
        Progress::Done
    } else {
        Progress::Over("not_here")
    }
}

/// Notes what is seen of the peer. `side` is the player's.
fn look_at<'a>(
    side: Side,
    sides: &Sides,
    noted: &mut Noted,
    look: Look,
) -> Result<Progress, PlayFault<'a>> {
    let word = seen(look, side.other(), &sides.peer_line, &sides.peer_lists);
    done(noted.note(word))
}

/// Sends a payload of terms, and names it.
fn put_terms<'a>(
    alloc: Global,
    names: &mut Names,
    sending: &mut Sending,
    line: &'a str,
    terms: &str,
    out: &mut Vec<u8>,
) -> Result<(), PlayFault<'a>> {
    sending.note_last();
    let payload = bytes_of(alloc, names, line, terms)?;
    sending.put(alloc, line, &payload, out)?;
    Ok(names.set(alloc, "last", payload)?)
}

/// Sends the bytes of terms.
fn put_raw<'a>(
    alloc: Global,
    names: &Names,
    line: &'a str,
    terms: &str,
    out: &mut Vec<u8>,
) -> Result<(), PlayFault<'a>> {
    let bytes = bytes_of(alloc, names, line, terms)?;
    let put = out.extend_from_slice(&bytes);
    drop(bytes);
    Ok(put?)
}

/// Does an act that changes what comes after it.
fn set<'a>(
    given: &Given<'a>,
    own: &mut Own,
    sending: &mut Sending,
    act: &Act<'a>,
) -> Result<(), PlayFault<'a>> {
    match act.work {
        Work::Plain => own.offer_plain(given),
        Work::Line(terms) => own.set_line(given.alloc, act.line, terms),
        Work::List { place, both, terms } => own.set_list(given, act.line, place, both, terms),
        Work::Tail(terms) => own.set_tail(given, act.line, terms),
        _ => set_sending(given, &mut own.names, sending, act),
    }
}

/// The same of acts that change how packets are sent.
fn set_sending<'a>(
    given: &Given<'a>,
    names: &mut Names,
    sending: &mut Sending,
    act: &Act<'a>,
) -> Result<(), PlayFault<'a>> {
    match act.work {
        Work::Bend(bend) => sending.bend(bend),
        Work::KeepNumbers => sending.keep_numbers(),
        Work::ZeroNumber => sending.zero(),
        Work::SkipNumber => sending.skip(),
        _ => return set_name(given, names, sending, act),
    }
    Ok(())
}

/// The same of acts that name bytes.
fn set_name<'a>(
    given: &Given<'a>,
    names: &mut Names,
    sending: &mut Sending,
    act: &Act<'a>,
) -> Result<(), PlayFault<'a>> {
    let (alloc, line) = (given.alloc, act.line);
    let named = match act.work {
        Work::Name { name, terms } => (name, bytes_of(alloc, names, line, terms)),
        Work::Sent(terms) => ("sent", bytes_of(alloc, names, line, terms)),
        Work::Seal { name, terms } => (name, sealed(alloc, names, sending, line, terms)),
        Work::Frame { name, terms } => (name, framed(alloc, names, sending, line, terms)),
        Work::Sign {
            name,
            by_stranger,
            terms,
        } => (name, signed(given, names, line, by_stranger, terms)),
        _ => return bend_name(names, act),
    };
    Ok(names.set(alloc, named.0, named.1?)?)
}

/// The next packet of a payload of terms.
fn sealed<'a>(
    alloc: Global,
    names: &Names,
    sending: &mut Sending,
    line: &'a str,
    terms: &str,
) -> Result<Vec<u8>, PlayFault<'a>> {
    let payload = bytes_of(alloc, names, line, terms)?;
    sending.packet(alloc, line, &payload)
}

/// The packet in clear of a payload of terms.
fn framed<'a>(
    alloc: Global,
    names: &Names,
    sending: &mut Sending,
    line: &'a str,
    terms: &str,
) -> Result<Vec<u8>, PlayFault<'a>> {
    let payload = bytes_of(alloc, names, line, terms)?;
    sending.frame(alloc, line, &payload)
}

/// The signature of the bytes of terms by the own key, or by the one that is nobody's.
fn signed<'a>(
    given: &Given<'a>,
    names: &Names,
    line: &'a str,
    by_stranger: bool,
    terms: &str,
) -> Result<Vec<u8>, PlayFault<'a>> {
    let input = bytes_of(given.alloc, names, line, terms)?;
    let key = if by_stranger {
        given.setting.stranger()
    } else {
        given.setting.own_key
    };
    signature_of(given.alloc, key, &input)
}

/// The same of acts that bend named bytes.
fn bend_name<'a>(names: &mut Names, act: &Act<'a>) -> Result<(), PlayFault<'a>> {
    let (name, done) = match act.work {
        Work::Turn { name, spot, mask } => (name, Bent::Turn(spot, mask)),
        Work::Cut { name, spot } => (name, Bent::Cut(spot)),
        Work::Wrap(name) => (name, Bent::Wrap),
        _ => return Err(PlayFault::Form(act.line)),
    };
    let Some(bytes) = names.find_mut(name) else {
        return Err(PlayFault::Form(act.line));
    };
    if bend(bytes, done) {
        Ok(())
    } else {
        Err(PlayFault::Form(act.line))
    }
}

/// What is done to named bytes.
#[derive(Clone, Copy)]
enum Bent {
    Turn(Spot, u8),
    Cut(Spot),
    Wrap,
}

/// Bends bytes; answers false where the place isn't there.
fn bend(bytes: &mut Vec<u8>, bent: Bent) -> bool {
    match bent {
        Bent::Turn(spot, mask) => {
            let Some(place) = place_in(spot, bytes.len()) else {
                return false;
            };
            match bytes.get_mut(place) {
                Some(byte) => {
                    *byte ^= mask;
                    true
                }
                None => false,
            }
        }
        Bent::Cut(spot) => {
            let Some(place) = place_in(spot, bytes.len()) else {
                return false;
            };
            bytes.truncate(place);
            true
        }
        Bent::Wrap => {
            wrap(bytes);
            true
        }
    }
}

/// The place of a spot in so many bytes.
fn place_in(spot: Spot, len: usize) -> Option<usize> {
    if spot.count > len {
        return None;
    }
    if spot.from_end {
        Some(len - spot.count)
    } else {
        Some(spot.count)
    }
}
