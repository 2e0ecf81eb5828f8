//! Groups of a fingerprint's characters that a person is asked for.

ghost use Rattle.std.specs.Prelude.{◌<◌};

/// Three of the groups that may be asked for, counted from zero.
#[derive(Clone, Copy)]
pub(crate) struct AskedGroups {
    pub(crate) first: u8,
    pub(crate) second: u8,
    pub(crate) third: u8,
    ghost ascending: { first < second × second < third },
    ghost below: { third < 10 },
}
