//! By which grammar version lines are read.

/// The role that reads lines.
#[derive(Clone, Copy, Debug, PartialEq, Eq)]
pub enum ReadBy {
    /// The side that connects.
    Client,
    /// The side that accepts.
    Server,
}

/// By which grammar version lines are read.
#[derive(Clone, Copy, Debug, PartialEq, Eq)]
pub enum LineForm {
    /// By the letter of RFC 4253 section 4.2, whichever role reads.
    Strict,
    /// As deployed peers write them: minus signs may stand in the softwareversion, LF alone may end the
    /// line, and a client takes `SSH-1.99-` as 2.0 (RFC 4253 section 5.1). Limits and all else are those
    /// of `Strict`.
    Deployed(ReadBy),
}
