//! Limits of lines, names and payloads.

/// The most bytes that a line has, its CR LF or LF included (RFC 4253 section 4.2; for other lines
/// than the version line it is profile).
pub const LINE_LIMIT: usize = 255;

/// The most other lines that a client takes before the version line (profile; RFC 4253 section 4.2
/// gives no number).
pub const OTHER_LINE_LIMIT: u32 = 20;

/// The most bytes of a name (RFC 4251 section 6).
pub const NAME_LIMIT: usize = 64;

/// The most bytes of a payload that is sent, which every side takes (RFC 4253 section 6.1).
pub const PAYLOAD_LIMIT: usize = 32768;
