//! What is judged below the endpoint, as text.

use crate::stop::Stop;
use sshmsg::MsgFault;
use sshpacket::PacketFault;
use sshwire::{NameList, TextBuffer, WireFault};
use std::alloc::{AllocError, Global};

/// Appends a blank and the bytes in digits; `-` is none.
pub(crate) fn put_digits(alloc: Global, text: &mut TextBuffer, bytes: &[u8]) {
    text.push_str(" ");
    if bytes.is_empty() {
        text.push_str("-");
    } else {
        text.push_made(hex::encode(alloc, bytes));
    }
}

/// Appends a blank, `'`, and the names with commas between.
pub(crate) fn put_names(text: &mut TextBuffer, list: &NameList) {
    text.push_str(" '");
    for (place, name) in list.names().enumerate() {
        if place > 0 {
            text.push_str(",");
        }
        text.push_str(name);
    }
}

/// Appends the bytes of each part in digits, a blank before each.
pub(crate) fn put_parts(alloc: Global, text: &mut TextBuffer, parts: &[&[u8]]) {
    for part in parts {
        put_digits(alloc, text, part);
    }
}

/// These words, and the bytes of each part after them in digits.
pub(crate) fn text_with(alloc: Global, words: &str, parts: &[&[u8]]) -> Result<String, AllocError> {
    let mut text = TextBuffer::new(alloc);
    text.push_str(words);
    put_parts(alloc, &mut text, parts);
    text.finish()
}

/// The code of a fault of data types and lines.
pub(crate) fn code_of_wire(fault: WireFault) -> Result<&'static str, Stop> {
    match fault {
        WireFault::Short => Ok("V1"),
        WireFault::Name => Ok("V2"),
        WireFault::NotCanonical => Ok("V3"),
        WireFault::Line => Ok("V4"),
        WireFault::TooLong => Ok("V5"),
        WireFault::TooManyLines => Ok("V6"),
        WireFault::Memory => Err(Stop::Refused),
    }
}

/// The code of a fault of messages.
pub(crate) fn code_of_message(alloc: Global, fault: MsgFault) -> Result<String, Stop> {
    let (code, number) = match fault {
        MsgFault::Unrecognised(number) => ("M1", number),
        MsgFault::Malformed(number) => ("M2", number),
        MsgFault::Memory => return Err(Stop::Refused),
    };
    Ok(format!(in alloc; "refused {code} {number}")?)
}

/// The code of a fault of packets.
pub(crate) fn code_of_packet(fault: PacketFault) -> Result<&'static str, Stop> {
    match fault {
        PacketFault::Length => Ok("refused P1"),
        PacketFault::Padding => Ok("refused P2"),
        PacketFault::Empty => Ok("refused P3"),
        PacketFault::Mac => Ok("refused P4"),
        PacketFault::Memory => Err(Stop::Refused),
    }
}
