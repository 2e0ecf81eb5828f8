//! What is bent of a packet.

/// What is bent of the next packet (RFC 4253 section 6).
#[derive(Clone, Copy, Debug, PartialEq, Eq)]
pub(crate) struct Bends {
    /// So many bytes more of padding than the least.
    pub(crate) more: u8,
    /// What padding_length says, where it isn't the truth.
    pub(crate) padding_length: Option<u8>,
    /// What packet_length says, where it isn't the truth.
    pub(crate) length: Option<u32>,
}

/// A bend.
#[derive(Clone, Copy, Debug, PartialEq, Eq)]
pub enum Bend {
    /// Padding beyond the least.
    More(u8),
    /// The field padding_length.
    PaddingLength(u8),
    /// The field packet_length.
    Length(u32),
}

impl Bends {
    /// None.
    pub(crate) fn none() -> Bends {
        Bends {
            more: 0,
            padding_length: None,
            length: None,
        }
    }

    /// With one bend more.
    pub(crate) fn with(self, bend: Bend) -> Bends {
        let mut bends = self;
        match bend {
            Bend::More(count) => bends.more = count,
            Bend::PaddingLength(claimed) => bends.padding_length = Some(claimed),
            Bend::Length(claimed) => bends.length = Some(claimed),
        }
        bends
    }
}

/// The bend that a line has after its word.
pub(crate) fn bend_of(rest: &str) -> Option<Bend> {
    let (kind, count) = rest.split_once(' ')?;
    match kind {
        "more" => Some(Bend::More(count.parse::<u8>().ok()?)),
        "padding_length" => Some(Bend::PaddingLength(count.parse::<u8>().ok()?)),
        "length" => Some(Bend::Length(count.parse::<u32>().ok()?)),
        _ => None,
    }
}
