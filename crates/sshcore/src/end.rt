//! How an endpoint ends.

ghost use Rattle.std.specs.Prelude.{◌≡◌, ◌≢◌, ℕ, None, Some};
ghost use Rattle.sshneg.specs.declared.choice.NoCommon.{NoCommon};
ghost use Rattle.sshcore.specs.declared.end.Agreed.{Agreed};
ghost use Rattle.sshcore.specs.declared.end.End.TheVariants as end;
ghost use Rattle.sshcore.specs.declared.end.Fault.TheVariants as faults;
ghost use Rattle.sshcore.specs.Printed.{fault_text};

use sshneg::NoCommon;
use std::fmt;

/// Why an endpoint failed. It prints a sentence with its code: `F10: the host key isn't trusted`.
#[derive(Clone, Copy, Debug, PartialEq, Eq)]
pub enum Fault {
    /// F1: a line is refused: the version line, or one before it.
    Version,
    /// F2: a packet_length that isn't taken.
    Length,
    /// F3: bad padding, or an empty payload.
    Padding,
    /// F4: a wrong tag.
    Mac,
    /// F5: a message of this number that can't be read.
    Malformed(u8),
    /// F6: a message of this number in a place where it has no use.
    Unexpected(u8),
    /// F7: a message of this number where strict key exchange requires another.
    Strict(u8),
    /// F8: no common algorithm in this field.
    NoCommon(NoCommon),
    /// F9: the suite gives no shared secret.
    Exchange,
    /// F10: the host key isn't trusted.
    HostKey,
    /// F11: the server's signature of the exchange hash is wrong.
    Signature,
    /// F12: a service that the server doesn't have.
    Service,
    /// F13: too many requests.
    TooManyTries,
    /// F14: no attempt is left.
    NoMoreMethods,
    /// F15: an allocation failed.
    Memory,
    /// F16: the input ended before.
    Cut,
    /// F17: more came that says nothing than the config's `ignored_limit` takes.
    TooMuchIgnored,
}

/// A failure as its code, with the number or the field that some have: it prints `F10`, `F7 20` or `F8 kex`, where the
/// failure itself prints a sentence.
#[derive(Clone, Copy)]
pub struct ShortFault {
    /// The failure.
    pub fault: Fault,
}

impl Fault {
    /// The failure as its code, with the number or the field that some have. Takes no memory.
    pub fn short(&self) -> ShortFault
        ensures { result.fault ≡ self.now }
    {
        ShortFault { fault: *self }
    }
}

impl fmt::Display for ShortFault {
    ghost output = { λ short. Some (fault_text short.fault) };

    fn fmt<W: fmt::Write>(&self, f: &mut fmt::Formatter<W>) -> fmt::Result {
        match &self.fault {
            Fault::Malformed(number) => write!(f, "F5 {number}"),
            Fault::Unexpected(number) => write!(f, "F6 {number}"),
            Fault::Strict(number) => write!(f, "F7 {number}"),
            Fault::NoCommon(field) => write!(f, "F8 {field}"),
            fault => f.write_str(code_of(fault)),
        }
    }
}

/// The code of a failure, which is all that is printed of one without a number and a field.
fn code_of(fault: &Fault) -> &'static str
    ensures { ((n : ℕ) → fault.now ≢ faults.Malformed n) → ((n : ℕ) → fault.now ≢ faults.Unexpected n) → ((n : ℕ) → fault.now ≢ faults.Strict n)
        → ((field : NoCommon) → fault.now ≢ faults.NoCommon field) → result.now ≡ fault_text fault.now }
{
    match fault {
        Fault::Version => "F1",
        Fault::Length => "F2",
        Fault::Padding => "F3",
        Fault::Mac => "F4",
        Fault::Malformed(_) => "F5",
        Fault::Unexpected(_) => "F6",
        Fault::Strict(_) => "F7",
        Fault::NoCommon(_) => "F8",
        Fault::Exchange => "F9",
        Fault::HostKey => "F10",
        Fault::Signature => "F11",
        Fault::Service => "F12",
        Fault::TooManyTries => "F13",
        Fault::NoMoreMethods => "F14",
        Fault::Memory => "F15",
        Fault::Cut => "F16",
        Fault::TooMuchIgnored => "F17",
    }
}

/// What both sides agreed on.
#[derive(Debug, Drop)]
pub struct Agreed {
    /// The key exchange method.
    pub kex: String,
    /// The algorithm of the server's host key.
    pub host_key: String,
    /// The cipher from client to server.
    pub encryption_client_to_server: String,
    /// The cipher from server to client.
    pub encryption_server_to_client: String,
    /// The MAC from client to server.
    pub mac_client_to_server: String,
    /// The MAC from server to client.
    pub mac_server_to_client: String,
    /// Compression from client to server.
    pub compression_client_to_server: String,
    /// Compression from server to client.
    pub compression_server_to_client: String,
    /// Whether both sides were strict.
    pub strict: bool,
    /// The session identifier.
    pub session: Vec<u8>,
    /// The user who was authenticated.
    pub user: String,
    /// The service that follows.
    pub service: String,
}

/// How an endpoint stands.
#[derive(Debug, Drop)]
pub enum End {
    /// It goes on.
    Open,
    /// The user is authenticated.
    Authenticated(Agreed),
    /// It failed.
    Failed(Fault),
    /// The peer sent a DISCONNECT with this reason.
    Closed(u32),
    /// Its owner ended it: a DISCONNECT with this reason was sent.
    Disconnected(u32),
}

impl End {
    /// What was agreed, where the user is authenticated.
    pub(crate) fn into_agreed(self) -> Option<Agreed>
        ensures some { (a : Agreed) → self ≡ end.Authenticated a → result ≡ Some a }
        ensures none { ((a : Agreed) → self ≢ end.Authenticated a) → result ≡ None }
    {
        match self {
            End::Authenticated(agreed) => Some(agreed),
            _ => None,
        }
    }
}
