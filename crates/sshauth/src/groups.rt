//! The groups of a fingerprint's characters that a person types to trust a host key.

ghost use Rattle.std.specs.Prelude.{◌≡◌, ◌<◌, ◌==◌, IfOk, IfSome, IsFalse, option_map};
ghost use Rattle.sshauth.specs.Typed.{ascending, asked_groups, asked_word, drawn_group, group_of, groups_of, has_group, is_other};

use crate::asked_groups::AskedGroups;
use sshwire::Memory;
use std::alloc::Global;

/// How many characters a fingerprint has: SHA-256 in base64, without padding.
pub(crate) const DIGITS: usize = 43;

/// How many characters a group has. Only the last one has fewer.
pub(crate) const GROUP_LEN: usize = 4;

/// How many groups may be asked for: all but the last.
const GROUPS: u8 = 10;

/// A drawn byte below this means a group. It is a multiple of their number.
const MEANING: u8 = 250;

/// The groups that drawn bytes mean, if they mean three different ones.
pub(crate) fn asked_groups(drawn: &[u8]) -> Option<AskedGroups>
    ensures { option_map groups_of result ≡ asked_groups drawn.now }
{
    let one = drawn_group(&[], drawn)?;
    let two = drawn_group(&[one], drawn)?;
    let three = drawn_group(&[one, two], drawn)?;
    Some(in_order(one, two, three))
}

/// Three different groups in ascending order.
fn in_order(one: u8, two: u8, three: u8) -> AskedGroups
    requires below { one < 10 × two < 10 × three < 10 }
    requires second { IsFalse (one == two) }
    requires third { IsFalse (one == three) × IsFalse (two == three) }
    ensures { groups_of result ≡ ascending one two three }
{
    let first = one.min(two.min(three));
    let third = one.max(two.max(three));
    let second = one + two + three - first - third;
    AskedGroups {
        first,
        second,
        third,
    }
}

/// The first group that drawn bytes mean and that isn't taken, if they mean one.
#[tactic(auto, unfolding(crate::specs::Typed::drawn_group))]
fn drawn_group(taken: &[u8], drawn: &[u8]) -> Option<u8>
    ensures drawn { result ≡ drawn_group taken.now drawn.now }
    ensures below { IfSome result (λ group. group < 10) }
    ensures other { IfSome result (λ group. IsFalse (has_group taken.now group)) }
{
    let (byte, rest) = drawn.split_first()?;
    if is_other(taken, *byte) {
        return Some(*byte % GROUPS);
    }
    drawn_group(taken, rest)
}

/// Whether a drawn byte means a group that isn't taken.
fn is_other(taken: &[u8], byte: u8) -> bool
    ensures { result ≡ is_other taken.now byte }
{
    byte < MEANING && !has_group(taken, byte % GROUPS)
}

/// Whether the group is one of these.
fn has_group(groups: &[u8], group: u8) -> bool
    ensures { result ≡ has_group groups.now group }
{
    groups.iter().any(|own| *own == group)
}

/// The word that a person types who was asked for these groups.
pub(crate) fn asked_word(
    alloc: Global,
    digits: &[u8; DIGITS],
    groups: AskedGroups,
) -> Result<Vec<u8>, Memory>
    ensures { IfOk result (λ word. word.items ≡ asked_word digits.now groups) }
{
    let mut word = Vec::from_slice(alloc, group_of(digits, groups.first))?;
    word.extend_from_slice(group_of(digits, groups.second))?;
    word.extend_from_slice(group_of(digits, groups.third))?;
    Ok(word)
}

/// The characters of a group that may be asked for.
fn group_of(digits: &[u8; DIGITS], group: u8) -> &[u8]
    requires { group < 10 }
    ensures { result.now ≡ group_of digits.now group }
{
    &digits[GROUP_LEN * usize::from(group)..][..GROUP_LEN]
}
