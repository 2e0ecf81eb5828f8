//! What two sides receive from each other, where the bytes are any: `greet` of the program gives them version lines alone.

use crate::compare::same;
use sshlab::{Delivery, Side, greet};
use std::test::Fail;

/// A delivery to the server.
fn to_server(count: u32) -> Delivery {
    Delivery {
        to: Side::Server,
        count,
    }
}

/// A delivery to the client.
fn to_client(count: u32) -> Delivery {
    Delivery {
        to: Side::Client,
        count,
    }
}

#[test]
fn tells_a_refusal(rt: HostRuntime) -> Result<(), Fail> {
    let alloc = rt.alloc();
    let schedule = [to_server(2), to_client(13), to_server(9), to_client(0)];
    let client = b"n\nSSH-2.0-a\r\n";
    let server = b"n\nSSH-2.0-b\r\nmore";
    let greeting = greet(alloc, client, server, &schedule)?;
    let text = format!(in alloc; "{greeting}")?;
    let wanted =
        b"client got SSH-2.0-b\nserver refused: too many lines before the version line\ncomplete yes\n";
    same(&rt, text.as_bytes(), wanted);
    Ok(())
}
