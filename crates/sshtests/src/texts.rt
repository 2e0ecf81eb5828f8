//! The texts of faults.

use sshmsg::MsgFault;
use sshpacket::PacketFault;
use sshwire::{Memory, WireFault};
use std::alloc::{AllocError, Global};
use std::fmt::Display;
use std::process::Abort;
use std::test::Fail;

/// What is shown has to have this text.
fn has_text(
    rt: &impl Abort,
    alloc: Global,
    shown: &impl Display,
    wanted: &str,
) -> Result<(), Fail> {
    let text = format!(in alloc; "{shown}")?;
    let text: &str = &text;
    assert_eq!(rt; text, wanted);
    Ok(())
}

#[test]
fn faults_of_data_types(rt: HostRuntime) -> Result<(), Fail> {
    let alloc = rt.alloc();
    for (fault, text) in [
        (WireFault::Short, "the bytes end within a value"),
        (WireFault::Name, "not a name"),
        (
            WireFault::NotCanonical,
            "an mpint with a needless leading byte",
        ),
        (WireFault::Line, "not a version line"),
        (WireFault::TooLong, "a line of more than 255 bytes"),
        (
            WireFault::TooManyLines,
            "too many lines before the version line",
        ),
        (WireFault::from(Memory), "out of memory"),
    ] {
        has_text(&rt, alloc, &fault, text)?;
    }
    has_text(&rt, alloc, &Memory::from(AllocError), "out of memory")
}

#[test]
fn faults_of_messages(rt: HostRuntime) -> Result<(), Fail> {
    let alloc = rt.alloc();
    has_text(
        &rt,
        alloc,
        &MsgFault::Unrecognised(60),
        "unrecognised message 60",
    )?;
    has_text(&rt, alloc, &MsgFault::Malformed(7), "malformed message 7")?;
    has_text(&rt, alloc, &MsgFault::Memory, "out of memory")
}

#[test]
fn faults_of_packets(rt: HostRuntime) -> Result<(), Fail> {
    let alloc = rt.alloc();
    has_text(&rt, alloc, &PacketFault::Length, "bad packet length")?;
    has_text(&rt, alloc, &PacketFault::Padding, "bad padding length")?;
    has_text(&rt, alloc, &PacketFault::Empty, "empty payload")?;
    has_text(&rt, alloc, &PacketFault::Mac, "bad tag")?;
    has_text(&rt, alloc, &PacketFault::Memory, "out of memory")
}
