//! What the record of a paused endpoint has, lent.

ghost use Rattle.std.specs.Prelude.{◌≡◌};
ghost use Rattle.sshcore.specs.RecordData.{held_in};
ghost use Rattle.sshcore.specs.RecordView.{reader_record};

use crate::phase_table::Phase;
use sshneg::Side;
use sshpacket::ShareForm;

/// The algorithms and keys of one direction.
#[derive(Clone, Copy)]
pub(crate) struct LentKeys<'a> {
    pub(crate) cipher: &'a [u8],
    pub(crate) mac: &'a [u8],
    pub(crate) iv: &'a [u8],
    pub(crate) enc: &'a [u8],
    pub(crate) mac_key: &'a [u8],
}

/// The names of a choice.
#[derive(Clone, Copy)]
pub(crate) struct LentNames<'a> {
    pub(crate) kex: &'a [u8],
    pub(crate) host_key: &'a [u8],
    pub(crate) encryption_client_to_server: &'a [u8],
    pub(crate) encryption_server_to_client: &'a [u8],
    pub(crate) mac_client_to_server: &'a [u8],
    pub(crate) mac_server_to_client: &'a [u8],
    pub(crate) compression_client_to_server: &'a [u8],
    pub(crate) compression_server_to_client: &'a [u8],
}

/// A user's public key.
#[derive(Clone, Copy)]
pub(crate) struct LentUserKey<'a> {
    pub(crate) algorithm: &'a [u8],
    pub(crate) blob: &'a [u8],
}

/// What is known of the exchange.
#[derive(Clone, Copy)]
pub(crate) struct ExchangeParts<'a> {
    pub(crate) shares: ShareForm,
    pub(crate) strict: bool,
    pub(crate) first: bool,
    pub(crate) version: &'a [u8],
    pub(crate) kexinit: &'a [u8],
    pub(crate) session: &'a [u8],
    pub(crate) algorithms: Option<LentNames<'a>>,
}

/// What is known of authentication.
#[derive(Clone, Copy)]
pub(crate) struct AuthenticationParts<'a> {
    pub(crate) request: u32,
    pub(crate) allowance: Option<u32>,
    pub(crate) user: &'a [u8],
    pub(crate) service: &'a [u8],
    pub(crate) password: bool,
    pub(crate) publickey: bool,
}

/// What is carried along.
#[derive(Clone, Copy)]
pub(crate) struct CarriedParts<'a> {
    pub(crate) pending: Option<LentKeys<'a>>,
    pub(crate) own_version: &'a [u8],
    pub(crate) host_key: &'a [u8],
    pub(crate) user_key: Option<LentUserKey<'a>>,
}

/// What packets are sent with.
#[derive(Clone, Copy)]
pub(crate) struct SendingParts<'a> {
    pub(crate) keys: Option<LentKeys<'a>>,
    pub(crate) number: u32,
}

/// What bytes are read with, and the unfinished ones.
#[derive(Clone, Copy)]
pub(crate) enum ReaderParts<'a> {
    /// Lines, of which so many others are still accepted.
    Lines {
        others: u32,
        line: &'a [u8],
    },
    /// Packets, of which the next has this number.
    Packets {
        keys: Option<LentKeys<'a>>,
        number: u32,
        held: &'a [u8],
    },
}

impl<'a> ReaderParts<'a> {
    /// The unfinished bytes.
    pub(crate) fn held(&self) -> &'a [u8]
        ensures { result.now ≡ held_in (reader_record self.now) }
    {
        match self {
            ReaderParts::Lines { line, .. } => line,
            ReaderParts::Packets { held, .. } => held,
        }
    }
}

/// All of it.
#[derive(Clone, Copy)]
pub(crate) struct RecordParts<'a> {
    /// How many bytes more are wanted before anything comes of them.
    pub(crate) missing: u32,
    pub(crate) role: Side,
    pub(crate) confirmed: bool,
    pub(crate) left: u32,
    pub(crate) phase: Phase,
    pub(crate) guess: bool,
    pub(crate) exchange: ExchangeParts<'a>,
    pub(crate) authentication: AuthenticationParts<'a>,
    pub(crate) carried: CarriedParts<'a>,
    pub(crate) sending: SendingParts<'a>,
    pub(crate) reader: ReaderParts<'a>,
    /// The payload of the packet that waits for its answer.
    pub(crate) waiting: Option<&'a [u8]>,
}
