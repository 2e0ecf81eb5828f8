//! A check of a file, as it is judged.

use crate::blocks::Block;
use crate::settings::Settings;
use crate::stop::Stop;
use sshchecks::{Check, Place, expected_at, read_check};
use sshneg::Side;
use std::alloc::Global;

/// The check of these lines. What is expected in the sweep is what the phase table says of the number.
pub(crate) fn judged_check<'a>(
    alloc: Global,
    settings: &Settings<'_>,
    block: &Block<'a>,
) -> Result<Check<'a>, Stop<'a>> {
    let mut check = read_check(alloc, settings.judged.other(), block.lines)?;
    if let Some(place) = place_of(check.name) {
        match settings.number {
            Some(number) => check.expect = expected_at(settings.judged, place, number),
            None => return Err(Stop::NoNumber),
        }
    }
    Ok(check)
}

/// The place of the sweep that a check's name says.
fn place_of(name: &str) -> Option<Place> {
    match name {
        "sweep/kexinit" => Some(Place::KexInit),
        "sweep/kexinit-strict" => Some(Place::KexInitStrict),
        "sweep/newkeys-strict" => Some(Place::NewKeysStrict),
        "sweep/service" => Some(Place::Service),
        "sweep/auth" => Some(Place::Auth),
        _ => None,
    }
}

/// The group that stands in front of a check's name.
pub(crate) fn group_of(name: &str) -> &str {
    match name.split_once('/') {
        Some((group, _)) => group,
        None => name,
    }
}
