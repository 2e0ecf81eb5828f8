//! What failures tell people.

ghost use Rattle.std.specs.Prelude.{◌≡◌};
ghost use Rattle.sshcore.specs.Codes.{config_code, fault_code};

use crate::config_fault::ConfigFault;
use crate::end::{End, Fault};
use std::error::Error;
use std::fmt;

impl Fault {
    /// The failure's code, `F1` to `F17`, without the number or the field that some have. Takes no memory.
    pub fn code(&self) -> &'static str
        ensures { result.now ≡ fault_code self.now }
    {
        match self {
            Fault::Version => "F1",
            Fault::Length => "F2",
            Fault::Padding => "F3",
            Fault::Mac => "F4",
            Fault::Malformed(_) => "F5",
            Fault::Unexpected(_) => "F6",
            Fault::Strict(_) => "F7",
            Fault::NoCommon(_) => "F8",
            Fault::Exchange => "F9",
            Fault::HostKey => "F10",
            Fault::Signature => "F11",
            Fault::Service => "F12",
            Fault::TooManyTries => "F13",
            Fault::NoMoreMethods => "F14",
            Fault::Memory => "F15",
            Fault::Cut => "F16",
            Fault::TooMuchIgnored => "F17",
        }
    }

    /// What happened, in words for people. Takes no memory.
    pub fn words(&self) -> &'static str {
        match self {
            Fault::Version => "the peer's version line, or a line before it, is refused",
            Fault::Length => "a packet has a length that isn't taken",
            Fault::Padding => "a packet has bad padding, or an empty payload",
            Fault::Mac => "a packet has a wrong tag",
            Fault::Malformed(_) => "a message can't be read",
            Fault::Unexpected(_) => "a message came where it has no use",
            Fault::Strict(_) => "a message came where strict key exchange requires another",
            Fault::NoCommon(_) => "both sides have no algorithm in common",
            Fault::Exchange => "the key exchange gives no shared number",
            Fault::HostKey => "the host key isn't trusted",
            Fault::Signature => "the server's signature is wrong",
            Fault::Service => "the service isn't there",
            Fault::TooManyTries => "too many requests were made",
            Fault::NoMoreMethods => "no attempt is left",
            Fault::Memory => "memory is wanting",
            Fault::Cut => "the input ended before",
            Fault::TooMuchIgnored => "more came that says nothing than is taken",
        }
    }
}

impl fmt::Display for Fault {
    fn fmt<W: fmt::Write>(&self, f: &mut fmt::Formatter<W>) -> fmt::Result {
        write!(f, "{}: {}", self.short(), self.words())
    }
}

impl Error for Fault {}

impl fmt::Display for End {
    fn fmt<W: fmt::Write>(&self, f: &mut fmt::Formatter<W>) -> fmt::Result {
        match self {
            End::Open => f.write_str("open"),
            End::Authenticated(_) => f.write_str("authenticated"),
            End::Failed(fault) => write!(f, "{fault}"),
            End::Closed(reason) => write!(f, "closed by the peer, reason {reason}"),
            End::Disconnected(reason) => write!(f, "disconnected by this side, reason {reason}"),
        }
    }
}

impl ConfigFault {
    /// The refusal's code, `C1` to `C12`. Takes no memory.
    pub fn code(&self) -> &'static str
        ensures { result.now ≡ config_code self.now }
    {
        match self {
            ConfigFault::EmptyList => "C1",
            ConfigFault::Name => "C2",
            ConfigFault::ListTooLong => "C3",
            ConfigFault::Line => "C4",
            ConfigFault::User => "C5",
            ConfigFault::Secret => "C6",
            ConfigFault::Blob => "C7",
            ConfigFault::Plan => "C8",
            ConfigFault::Tries => "C9",
            ConfigFault::Random => "C10",
            ConfigFault::Memory => "C11",
            ConfigFault::Required => "C12",
        }
    }

    /// What is wrong with the parts, in words for people. Takes no memory.
    pub fn words(&self) -> &'static str {
        match self {
            ConfigFault::EmptyList => "a list of algorithms is empty",
            ConfigFault::Name => "an entry of a list is no name that may stand there",
            ConfigFault::ListTooLong => "the text of a list has more than 1000 bytes",
            ConfigFault::Line => "a version or notice line can't be spelled",
            ConfigFault::User => "a user's name has more than 255 bytes",
            ConfigFault::Secret => "a password has more than 1024 bytes",
            ConfigFault::Blob => "a private key or a banner has more than 8192 bytes",
            ConfigFault::Plan => "the plan has more than 64 attempts",
            ConfigFault::Tries => "the tries aren't 1 to 20",
            ConfigFault::Random => "a draw hasn't the length that it must have",
            ConfigFault::Memory => "memory is wanting",
            ConfigFault::Required => "a required method isn't listed, or stands twice",
        }
    }
}

impl fmt::Display for ConfigFault {
    fn fmt<W: fmt::Write>(&self, f: &mut fmt::Formatter<W>) -> fmt::Result {
        write!(f, "{}: {}", self.code(), self.words())
    }
}

impl Error for ConfigFault {}
