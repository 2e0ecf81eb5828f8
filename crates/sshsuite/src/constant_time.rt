//! Choices and comparisons of secrets, with neither a branch nor an index that depends on one: by masks.
//!
//! The contracts say what is chosen; that a compiler makes no branch of a mask, no contract can say.

ghost use Rattle.std.specs.Prelude.{◌≡◌, ◌<◌, ◌==◌, if◌then◌else◌, length, slice_index};
ghost use Rattle.std.specs.Str.{bytes_eq};

/// The second word where the bit is 1, else the first.
#[inline(always)]
#[tactic(auto, using(crate::proofs::ConstantTimeLemmas::select_is))]
pub(crate) fn select(a: u64, b: u64, bit: u64) -> u64
    requires { bit < 2 }
    ensures { result ≡ (if bit == 1 then b else a) }
{
    a ^ (0u64.wrapping_sub(bit) & (a ^ b))
}

/// The second of two numbers of 128 bits where the bit is 1, else the first.
#[inline(always)]
#[tactic(auto, using(crate::proofs::ConstantTimeLemmas::select_wide_is))]
pub(crate) fn select_wide(a: u128, b: u128, bit: u128) -> u128
    requires { bit < 2 }
    ensures { result ≡ (if bit == 1 then b else a) }
{
    a ^ (0u128.wrapping_sub(bit) & (a ^ b))
}

/// As `select_wide`, where the bit comes of a comparison. It isn't inlined: a compiler that sees both might make a branch of
/// them.
#[inline(never)]
pub(crate) fn select_compared(a: u128, b: u128, bit: u128) -> u128
    requires { bit < 2 }
    ensures { result ≡ (if bit == 1 then b else a) }
{
    select_wide(a, b, bit)
}

/// Whether as many bytes are the same, in a time that doesn't tell where they differ.
#[tactic(auto, using(crate::proofs::ConstantTimeLemmas::differences_none, crate::proofs::ConstantTimeLemmas::differences_more))]
pub(crate) fn is_equal(a: &[u8], b: &[u8]) -> bool
    requires { length a.now ≡ length b.now }
    ensures { result ≡ bytes_eq a.now b.now }
{
    let mut difference = 0;
    for i in 0..a.len() {
        difference |= a[i] ^ b[i];
    }
    difference == 0
}

/// Whether presented bytes, such as a password, are the stored ones, in a time that doesn't tell where they differ: it goes
/// by the length of the presented bytes. Of the stored ones it may tell whether there are none, and no more of their length
/// than a remainder by it does. Takes no memory.
///
/// The contract says what is answered; of the time, no contract speaks.
#[tactic(auto, using(crate::proofs::SecretLemmas::told_none, crate::proofs::SecretLemmas::told_more))]
pub fn is_same_secret(stored: &[u8], presented: &[u8]) -> bool
    ensures { result ≡ bytes_eq stored.now presented.now }
{
    let mut difference = stored.len() ^ presented.len();
    for i in 0..presented.len() {
        difference |= usize::from(byte_around(stored, i) ^ presented[i]);
    }
    difference == 0
}

/// The byte at a place, counted around from the front again where the bytes end before; zero where there are none.
fn byte_around(bytes: &[u8], i: usize) -> u8
    ensures { i < length bytes.now → result ≡ slice_index bytes.now i }
{
    if bytes.is_empty() {
        0
    } else {
        bytes[i % bytes.len()]
    }
}
