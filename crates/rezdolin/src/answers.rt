//! What the calls answer.

ghost use Rattle.std.specs.Prelude.{◌≡◌, ◌≢◌};
ghost use Rattle.sshcore.specs.ConfigRules.{rule_number};
ghost use Rattle.sshcore.specs.EndData.{end_data};
ghost use Rattle.rezdolin.specs.Answers.{end_numbers, fault_numbers, field_number, lacks_room, no_config, no_endpoint, no_step, step_answer};

use crate::parts::NoConfig;
use crate::steps::{Came, NoStep};
use crate::texts::InputFault;
use sshcore::{ConfigFault, End, Fault};
use sshidentity::IdentityFault;
use sshneg::NoCommon;
use sshpacket::PacketFault;

/// The call was answered.
pub const STATUS_ANSWERED: u32 = 0;

/// Memory ran out, and nothing has changed: the same call may be made again.
pub const STATUS_MEMORY: u32 = 1;

/// The parts make no config.
pub const STATUS_CONFIG: u32 = 2;

/// What was put in can't be read.
pub const STATUS_UNREADABLE: u32 = 3;

/// A room is too small, and nothing has changed: the same call may be made again with more.
pub const STATUS_ROOM: u32 = 4;

/// The payload has no byte, or more than 32768.
pub const STATUS_PAYLOAD: u32 = 5;

/// 2^31 packets went in this direction.
pub const STATUS_USED_UP: u32 = 6;

/// What came is no packet. Nothing that comes after it can be opened.
pub const STATUS_PACKET: u32 = 7;

/// The packet isn't all there.
pub const STATUS_MORE: u32 = 8;

/// The record is none that this version of the library can read.
pub const STATUS_RECORD: u32 = 9;

/// The record was written for other parts than these, or for the other role, as its digest of the parts tells.
pub const STATUS_PARTS: u32 = 10;

/// Nothing is asked that this answers.
pub const STATUS_UNASKED: u32 = 11;

/// The text has no private key that can be used.
pub const STATUS_IDENTITY: u32 = 12;

/// A draw has bytes that are all equal, as those of a buffer are that nobody filled.
pub const STATUS_DRAWS: u32 = 13;

/// The endpoint goes on.
pub const END_OPEN: u32 = 0;

/// The user is authenticated.
pub const END_AUTHENTICATED: u32 = 1;

/// The endpoint failed.
pub const END_FAILED: u32 = 2;

/// The peer sent a DISCONNECT.
pub const END_CLOSED: u32 = 3;

/// The program has told the endpoint to disconnect.
pub const END_DISCONNECTED: u32 = 4;

/// The endpoint waits for the answer to its question.
pub const END_ASKS: u32 = 5;

/// A question of a client: whether the host key is trusted.
pub const ASKS_HOST_KEY: u32 = 0;

/// A question of a server: whether what a request claims is accepted, after its signature has been verified if it has one, or whether
/// the key of a query would do.
pub const ASKS_USER: u32 = 1;

/// A question for a signature by a key that the library doesn't hold.
pub const ASKS_SIGNATURE: u32 = 2;

/// What a call of an endpoint answers. Where its status isn't 0, all else is 0, but for `config`, and of 4 for the three lengths, which
/// say how much room there has to be.
#[repr(C)]
#[derive(Clone, Copy, Debug)]
pub struct StepAnswer {
    /// One of `STATUS_`.
    pub status: u32,
    /// Of refused parts: the number of the refusal, 1 for C1 to 14 for C14; else 0.
    pub config: u32,
    /// One of `END_`.
    pub end: u32,
    /// Of a failed endpoint: the number of the failure, 1 for F1; else 0.
    pub fault: u32,
    /// Of F5, F6 and F7: the number of the message. Of F8: the field without a choice, 1 to 8 in the order of the
    /// KEXINIT. Of an endpoint that was closed, or that disconnected: the reason. Else 0.
    pub detail: u32,
    /// How many bytes of the piece were used: all while it is open; where it asks, those up to the end of the packet that
    /// asks.
    pub used: usize,
    /// How many bytes the endpoint sends: they stand at the front of `out`.
    pub sent_len: usize,
    /// How many bytes its record has: they stand at the front of `next`. 0 where it has ended.
    pub record_len: usize,
    /// How many bytes stand at the front of `told`: the record of the question of an endpoint that asks, or of the session of an
    /// authenticated one; else 0.
    pub told_len: usize,
}

/// What a call answers that makes bytes.
#[repr(C)]
#[derive(Clone, Copy, Debug)]
pub struct BytesAnswer {
    /// One of `STATUS_`.
    pub status: u32,
    /// Of what is no packet: the number of the fault, 1 for P1. Of a text without a private key: why, 1 to 11. Else 0.
    pub fault: u32,
    /// How many of the bytes received were used.
    pub used: usize,
    /// How many bytes were written to `out`, or how many it would have to take.
    pub len: usize,
}

/// How an endpoint has ended, in numbers.
#[derive(Clone, Copy)]
pub(crate) struct EndNumbers {
    pub(crate) end: u32,
    pub(crate) fault: u32,
    pub(crate) detail: u32,
}

/// How an endpoint has ended, in numbers.
pub(crate) fn end_numbers(end: &End) -> EndNumbers
    ensures { result ≡ end_numbers (end_data end.now) }
{
    match end {
        End::Open => numbers(END_OPEN, 0, 0),
        End::Authenticated(_) => numbers(END_AUTHENTICATED, 0, 0),
        End::Failed(fault) => fault_numbers(fault),
        End::Closed(reason) => numbers(END_CLOSED, 0, *reason),
        End::Disconnected(reason) => numbers(END_DISCONNECTED, 0, *reason),
    }
}

/// A failure in numbers.
fn fault_numbers(fault: &Fault) -> EndNumbers
    ensures { result ≡ fault_numbers fault.now }
{
    match fault {
        Fault::Version => numbers(END_FAILED, 1, 0),
        Fault::Length => numbers(END_FAILED, 2, 0),
        Fault::Padding => numbers(END_FAILED, 3, 0),
        Fault::Mac => numbers(END_FAILED, 4, 0),
        Fault::Malformed(number) => numbers(END_FAILED, 5, u32::from(*number)),
        Fault::Unexpected(number) => numbers(END_FAILED, 6, u32::from(*number)),
        Fault::Strict(number) => numbers(END_FAILED, 7, u32::from(*number)),
        Fault::NoCommon(field) => numbers(END_FAILED, 8, field_number(field)),
        Fault::Exchange => numbers(END_FAILED, 9, 0),
        Fault::HostKey => numbers(END_FAILED, 10, 0),
        Fault::Signature => numbers(END_FAILED, 11, 0),
        Fault::Service => numbers(END_FAILED, 12, 0),
        Fault::TooManyTries => numbers(END_FAILED, 13, 0),
        Fault::NoMoreMethods => numbers(END_FAILED, 14, 0),
        Fault::Memory => numbers(END_FAILED, 15, 0),
        Fault::Cut => numbers(END_FAILED, 16, 0),
        Fault::TooMuchIgnored => numbers(END_FAILED, 17, 0),
    }
}

/// Three numbers.
pub(crate) fn numbers(end: u32, fault: u32, detail: u32) -> EndNumbers
    ensures { result ≡ record { end = end; fault = fault; detail = detail } }
{
    EndNumbers { end, fault, detail }
}

/// The number of a field of the KEXINIT, in its order.
fn field_number(field: &NoCommon) -> u32
    ensures { result ≡ field_number field.now }
{
    match field {
        NoCommon::Kex => 1,
        NoCommon::HostKey => 2,
        NoCommon::EncryptionClientToServer => 3,
        NoCommon::EncryptionServerToClient => 4,
        NoCommon::MacClientToServer => 5,
        NoCommon::MacServerToClient => 6,
        NoCommon::CompressionClientToServer => 7,
        NoCommon::CompressionServerToClient => 8,
    }
}

/// The number of a refusal of parts.
fn config_number(fault: ConfigFault) -> u32
    ensures { result ≡ rule_number fault }
{
    match fault {
        ConfigFault::EmptyList => 1,
        ConfigFault::Name => 2,
        ConfigFault::ListTooLong => 3,
        ConfigFault::Line => 4,
        ConfigFault::User => 5,
        ConfigFault::Secret => 6,
        ConfigFault::Blob => 7,
        ConfigFault::Plan => 8,
        ConfigFault::Tries => 9,
        ConfigFault::Random => 10,
        ConfigFault::Memory => 11,
        ConfigFault::Required => 12,
    }
}

/// The answer where a call doesn't go on.
pub(crate) fn no_step(fault: NoStep) -> StepAnswer
    ensures { result ≡ no_step fault }
{
    match fault {
        NoStep::Unreadable => unanswered(STATUS_UNREADABLE, 0),
        NoStep::Draws => unanswered(STATUS_DRAWS, 0),
        NoStep::Config(fault) => no_config(fault),
        NoStep::Record => unanswered(STATUS_RECORD, 0),
        NoStep::Parts => unanswered(STATUS_PARTS, 0),
        NoStep::Unasked => unanswered(STATUS_UNASKED, 0),
        NoStep::Memory => unanswered(STATUS_MEMORY, 0),
    }
}

/// The answer where there is no config.
fn no_config(fault: NoConfig) -> StepAnswer
    ensures { result ≡ no_config fault }
{
    match fault {
        NoConfig::Input(InputFault::Unreadable) => unanswered(STATUS_UNREADABLE, 0),
        NoConfig::Input(InputFault::Memory) => unanswered(STATUS_MEMORY, 0),
        NoConfig::Parts(ConfigFault::Memory) => unanswered(STATUS_MEMORY, 0),
        NoConfig::Parts(fault) => unanswered(STATUS_CONFIG, config_number(fault)),
        NoConfig::Unfit(number) => unanswered(STATUS_CONFIG, number),
    }
}

/// An answer without an endpoint.
fn unanswered(status: u32, config: u32) -> StepAnswer
    ensures { result ≡ no_endpoint status config }
{
    StepAnswer {
        status,
        config,
        end: END_OPEN,
        fault: 0,
        detail: 0,
        used: 0,
        sent_len: 0,
        record_len: 0,
        told_len: 0,
    }
}

/// The answer of an endpoint that has no room: how much of each it has to have.
pub(crate) fn no_room(came: &Came) -> StepAnswer
    ensures { result ≡ lacks_room came.now }
{
    StepAnswer {
        status: STATUS_ROOM,
        config: 0,
        end: END_OPEN,
        fault: 0,
        detail: 0,
        used: 0,
        sent_len: came.sent.len(),
        record_len: came.record.len(),
        told_len: came.told.len(),
    }
}

/// What a call came to.
pub(crate) fn step_answer(came: &Came) -> StepAnswer
    ensures { result ≡ step_answer came.now }
{
    StepAnswer {
        status: STATUS_ANSWERED,
        config: 0,
        end: came.end.end,
        fault: came.end.fault,
        detail: came.end.detail,
        used: came.used,
        sent_len: came.sent.len(),
        record_len: came.record.len(),
        told_len: came.told.len(),
    }
}

/// Why bytes aren't made.
#[derive(Clone, Copy)]
pub(crate) enum BytesFault {
    /// What was put in can't be read.
    Unreadable,
    /// The draw has bytes that are all equal.
    Draws,
    /// The payload has no byte, or too many.
    Payload,
    /// The direction is used up.
    UsedUp,
    /// The packet isn't all there.
    More,
    /// What came is no packet.
    Packet(PacketFault),
    /// The text has no private key that can be used.
    Identity(IdentityFault),
    /// There is no room for so many bytes.
    Room(usize),
    /// An allocation failed.
    Memory,
}

/// The answer where no bytes were made.
pub(crate) fn no_bytes(fault: BytesFault) -> BytesAnswer
    ensures status { result.status ≢ STATUS_ANSWERED }
{
    match fault {
        BytesFault::Unreadable => bytes_answer(STATUS_UNREADABLE, 0, 0),
        BytesFault::Draws => bytes_answer(STATUS_DRAWS, 0, 0),
        BytesFault::Payload => bytes_answer(STATUS_PAYLOAD, 0, 0),
        BytesFault::UsedUp => bytes_answer(STATUS_USED_UP, 0, 0),
        BytesFault::More => bytes_answer(STATUS_MORE, 0, 0),
        BytesFault::Packet(PacketFault::Length) => bytes_answer(STATUS_PACKET, 1, 0),
        BytesFault::Packet(PacketFault::Padding) => bytes_answer(STATUS_PACKET, 2, 0),
        BytesFault::Packet(PacketFault::Empty) => bytes_answer(STATUS_PACKET, 3, 0),
        BytesFault::Packet(PacketFault::Mac) => bytes_answer(STATUS_PACKET, 4, 0),
        BytesFault::Identity(fault) => bytes_answer(STATUS_IDENTITY, identity_number(fault), 0),
        BytesFault::Room(len) => bytes_answer(STATUS_ROOM, 0, len),
        BytesFault::Packet(PacketFault::Memory) | BytesFault::Memory => {
            bytes_answer(STATUS_MEMORY, 0, 0)
        }
    }
}

/// The number of why a text has no private key that can be used.
fn identity_number(fault: IdentityFault) -> u32 {
    match fault {
        IdentityFault::Form => 1,
        IdentityFault::Public => 2,
        IdentityFault::OtherForm => 3,
        IdentityFault::Encrypted => 4,
        IdentityFault::Rsa => 5,
        IdentityFault::Ecdsa => 6,
        IdentityFault::OtherKind => 7,
        IdentityFault::Several => 8,
        IdentityFault::Cut => 9,
        IdentityFault::Halves => 10,
        IdentityFault::Padding => 11,
    }
}

/// An answer without bytes.
fn bytes_answer(status: u32, fault: u32, len: usize) -> BytesAnswer
    ensures { result ≡ record { status = status; fault = fault; used = 0; len = len } }
{
    BytesAnswer {
        status,
        fault,
        used: 0,
        len,
    }
}
