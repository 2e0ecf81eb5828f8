//! What is printed of a message: no password and no signature.

use sshmsg::read;
use std::alloc::Global;
use std::process::Abort;
use std::test::Fail;

/// What is printed of the message that the payload spells has to be without this secret.
fn keeps_secret(rt: &impl Abort, alloc: Global, payload: &[u8], secret: &str) -> Result<(), Fail> {
    let message = read(alloc, payload)?;
    let text = format!(in alloc; "{message:?}")?;
    assert!(rt; !text.contains(secret));
    assert!(rt; text.contains("alice"));
    Ok(())
}

#[test]
fn prints_no_password_and_no_signature(rt: HostRuntime) -> Result<(), Fail> {
    let alloc = rt.alloc();
    for payload in [
        b"\x32\x00\x00\x00\x05alice\x00\x00\x00\x01s\x00\x00\x00\x08password\x00\x00\x00\x00\x01\x37".as_slice(),
        b"\x32\x00\x00\x00\x05alice\x00\x00\x00\x01s\x00\x00\x00\x08password\x01\x00\x00\x00\x01\x37\x00\x00\x00\x01\x37",
        b"\x32\x00\x00\x00\x05alice\x00\x00\x00\x01s\x00\x00\x00\x09publickey\x01\x00\x00\x00\x01h\x00\x00\x00\x01k\x00\x00\x00\x01\x37",
    ] {
        keeps_secret(&rt, alloc, payload, "55")?;
    }
    Ok(())
}
