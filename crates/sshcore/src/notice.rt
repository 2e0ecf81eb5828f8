//! What the peer tells people.

use crate::asking_given::Listener;
use sshmsg::Message;
use sshwire::{LINE_LIMIT, NameList};

/// What the peer tells people, for a log or to be shown: by a message, out of whose payload it is lent, or by a line
/// before its version line.
///
/// Texts are any bytes, as the peer sent them: whoever shows one filters control characters first (RFC 4251
/// section 9.2). A notice has no password, key or signature.
#[derive(Clone, Copy)]
pub enum Notice<'a> {
    /// A line before the version line, which a server may send (RFC 4253 section 4.2). The one that is refused since it is
    /// one too many is told too, as the last (at a server it is the first); no other refused line is.
    Line {
        /// The line, without its LF and a CR before that.
        text: &'a [u8],
    },
    /// The peer ends the connection (DISCONNECT, RFC 4253 section 11.1).
    Disconnect {
        /// The reason's code, as the end of the endpoint tells it too.
        reason: u32,
        /// Why, in words.
        description: &'a [u8],
        /// The words' language tag.
        language: &'a [u8],
    },
    /// Words that the peer wants to be shown in any case (DEBUG with always_display, RFC 4253 section 11.3).
    Debug {
        /// The words.
        text: &'a [u8],
        /// Their language tag.
        language: &'a [u8],
    },
    /// What a server sends to whoever logs in, before that (USERAUTH_BANNER, RFC 4252 section 5.4).
    Banner {
        /// The words.
        text: &'a [u8],
        /// Their language tag.
        language: &'a [u8],
    },
    /// A server hasn't accepted the last request (USERAUTH_FAILURE, RFC 4252 section 5.1).
    Failure {
        /// The methods that can continue.
        methods: &'a NameList,
        /// Whether the request was successful as one of several.
        partial_success: bool,
    },
}

/// Tells whoever runs the endpoint what a message tells people, if it says something.
pub(crate) fn give_notice<L: Listener>(listener: &L, message: &Message<'_>) {
    match message {
        Message::Disconnect {
            reason,
            description,
            language,
        } => listener.notice(Notice::Disconnect {
            reason: *reason,
            description,
            language,
        }),
        Message::Debug {
            always_display: true,
            text,
            language,
        } => listener.notice(Notice::Debug { text, language }),
        Message::UserauthBanner { text, language } => {
            listener.notice(Notice::Banner { text, language })
        }
        Message::UserauthFailure {
            methods,
            partial_success,
        } => listener.notice(Notice::Failure {
            methods,
            partial_success: *partial_success,
        }),
        _ => {}
    }
}

/// The bytes of a line before its LF.
#[derive(Clone, Copy)]
pub(crate) struct Gathered {
    bytes: [u8; LINE_LIMIT],
    len: usize,
}

impl Gathered {
    /// Appends a byte where it fits a line.
    fn push(&mut self, byte: u8) {
        if let Some(place) = self.bytes.get_mut(self.len) {
            *place = byte;
            self.len = self.len.saturating_add(1);
        }
    }

    /// The bytes so far.
    fn text(&self) -> &[u8] {
        self.bytes.get(..self.len).unwrap_or(&[])
    }
}

/// The bytes of a line that has begun.
pub(crate) fn line_of(begun: &[u8]) -> Gathered {
    let mut line = Gathered {
        bytes: [0; LINE_LIMIT],
        len: 0,
    };
    for byte in begun {
        line.push(*byte);
    }
    line
}

/// Tells whoever runs the endpoint the lines that end in these bytes, which were taken, but one that begins with `SSH-`:
/// it is the version line, or refused. Of the first, the line came before.
pub(crate) fn give_lines<L: Listener>(listener: &L, begun: Gathered, taken: &[u8]) {
    let mut line = begun;
    for byte in taken {
        if *byte != b'\n' {
            line.push(*byte);
        } else if !line.text().starts_with(b"SSH-") {
            give_line(listener, line.text());
            line.len = 0;
        }
    }
}

/// Tells whoever runs the endpoint a line before the version line.
fn give_line<L: Listener>(listener: &L, line: &[u8]) {
    let text = line.strip_suffix(b"\r").unwrap_or(line);
    listener.notice(Notice::Line { text });
}
