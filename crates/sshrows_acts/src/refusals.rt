//! What stands after a judged call that was refused memory. It is told without memory.

use crate::stop::{Refusal, Stop};
use crate::texts::BEFORE;
use crate::words::Line;
use sshcore::{End, Fault};
use std::alloc::Global;

/// A judged call was refused memory, and this stands after it.
pub fn refused(alloc: Global, line: &Line<'_>, stands: &'static str) -> Stop {
    line.told.keep_refusal(Refusal {
        number: line.number,
        stands,
        sent: Vec::new(alloc),
        before: 0,
    });
    Stop::Refused
}

/// The same of an endpoint that has sent this since it was judged last, after bytes that have to stand there still.
pub(crate) fn refused_sending(line: &Line<'_>, stands: &'static str, sent: Vec<u8>) -> Stop {
    let stands = if sent.starts_with(BEFORE) {
        stands
    } else {
        "the bytes before are gone"
    };
    line.told.keep_refusal(Refusal {
        number: line.number,
        stands,
        sent,
        before: BEFORE.len(),
    });
    Stop::Refused
}

/// Where a row was stopped because a judged call was refused memory, this stands after it.
pub(crate) fn stopped(alloc: Global, line: &Line<'_>, stop: Stop, stands: &'static str) -> Stop {
    match stop {
        Stop::Refused => refused(alloc, line, stands),
        _ => stop,
    }
}

/// How a vector stands after a refused call that was to append to it.
pub(crate) fn vector(is_unchanged: bool) -> &'static str {
    if is_unchanged {
        "the vector as it was"
    } else {
        "the vector changed"
    }
}

/// Whether it ended by running out of memory.
pub fn is_out_of_memory(end: &End) -> bool {
    matches!(end, End::Failed(Fault::Memory))
}
