//! The phases of an endpoint, and what the phase table says of a packet.

/// What an endpoint waits for.
#[derive(Clone, Copy, Debug, PartialEq, Eq)]
pub enum Phase {
    /// The peer's KEXINIT (RFC 4253 section 7.1).
    KexInit,
    /// The peer's share (RFC 4253 section 8).
    Exchange,
    /// The peer's NEWKEYS (RFC 4253 section 7.3).
    NewKeys,
    /// The request of the service or its answer (RFC 4253 section 10).
    Service,
    /// Authentication (RFC 4252).
    Auth,
}

/// What becomes of a packet.
#[derive(Clone, Copy, Debug, PartialEq, Eq)]
pub enum Disposition {
    /// It is read, and answered as its message is.
    Reads,
    /// It is dropped unread, as the packet of a wrong guess.
    Drops,
    /// It isn't what strict key exchange requires.
    Deviates,
    /// Its number has no meaning: that is told.
    Unknown,
    /// It has no use here.
    Unexpected,
}
