//! Numbers of words of 64 bits, as many as one likes, the lowest first. No branch and no index depends on a word.

ghost use Rattle.std.specs.Prelude.{◌≡◌, ◌<◌, ◌+◌, ◌*◌, ◌/◌, ◌%◌, ◌^◌, ◌==◌, if◌then◌else◌, nat_lt, length, slice_index};
ghost use Rattle.sshsuite.specs.Group14.{number_high};
ghost use Rattle.sshsuite.specs.LongNumbers.{number_of, weight};

use crate::bits::high_word_at;
use crate::constant_time::select;

/// 2^64.
const WORD: u128 = 0x10000000000000000;

/// The lower word of two.
#[inline(always)]
pub(crate) fn low(sum: u128) -> u64
    ensures { result ≡ sum % 2 ^ 64 }
{
    (sum % WORD) as u64
}

/// The upper word of two.
#[inline(always)]
pub(crate) fn high(sum: u128) -> u64
    ensures { result ≡ sum / 2 ^ 64 }
{
    (sum / WORD) as u64
}

/// A product and two summands, which two words hold.
#[inline(always)]
fn product_sum(a: u64, b: u64, c: u64, d: u64) -> u128
    ensures { result ≡ a * b + c + d }
{
    u128::from(a) * u128::from(b) + u128::from(c) + u128::from(d)
}

/// Adds so many times a number of as many words, and gives what is carried out of the last word.
pub(crate) fn add_product(sum: &mut [u64], times: u64, number: &[u64]) -> u64
    requires { length sum.old ≡ length number.now }
    ensures { number_of sum.new + weight (length sum.old) * result ≡ number_of sum.old + times * number_of number.now }
{
    let mut carry = 0;
    for i in 0..sum.len() {
        let next = product_sum(times, number[i], sum[i], carry);
        sum[i] = low(next);
        carry = high(next);
    }
    carry
}

/// A word less another and less what was borrowed, and 2^64.
#[inline(always)]
fn word_difference(a: u64, b: u64, borrow: u64) -> u128
    requires { borrow < 2 }
    ensures { result + b + borrow ≡ a + 2 ^ 64 }
{
    u128::from(a) + WORD - u128::from(b) - u128::from(borrow)
}

/// 1 where a number is less than another of as many words, else 0.
pub(crate) fn is_below(a: &[u64], b: &[u64]) -> u64
    requires { length a.now ≡ length b.now }
    ensures { result ≡ (if nat_lt (number_of a.now) (number_of b.now) then 1 else 0) }
{
    let mut borrow = 0;
    for i in 0..a.len() {
        borrow = 1 - high(word_difference(a[i], b[i], borrow));
    }
    borrow
}

/// Subtracts a number of as many words where the bit is 1, and gives what is borrowed of the word after the last.
/// It isn't inlined, since the bit comes of a comparison: a compiler that saw both might make a branch of them.
#[inline(never)]
pub(crate) fn subtract_where(rest: &mut [u64], number: &[u64], bit: u64) -> u64
    requires long { length rest.old ≡ length number.now }
    requires bit { bit < 2 }
    ensures { number_of rest.new + bit * number_of number.now ≡ number_of rest.old + weight (length rest.old) * result }
{
    let mut borrow = 0;
    for i in 0..rest.len() {
        let next = word_difference(rest[i], select(0, number[i], bit), borrow);
        rest[i] = low(next);
        borrow = 1 - high(next);
    }
    borrow
}

/// Leaves out the lowest word, and puts one after the last.
pub(crate) fn shift_down(words: &mut [u64], last: u64)
    requires { 0 < length words.old }
    ensures { slice_index words.old 0 + 2 ^ 64 * number_of words.new ≡ number_of words.old + weight (length words.old) * last }
{
    let end = words.len() - 1;
    for i in 0..end {
        words[i] = words[i + 1];
    }
    words[end] = last;
}

/// Takes the words of the other number where the bit is 1. It isn't inlined, so that no compiler sees what the bit comes of.
#[inline(never)]
pub(crate) fn select_words(words: &mut [u64], other: &[u64], bit: u64)
    requires long { length words.old ≡ length other.now }
    requires bit { bit < 2 }
    ensures { words.new ≡ (if bit == 1 then other.now else words.old) }
{
    for i in 0..words.len() {
        words[i] = select(words[i], other[i], bit);
    }
}

/// Reads the number of bytes, the highest first, eight to a word.
pub(crate) fn read_words(words: &mut [u64], bytes: &[u8])
    requires { length bytes.now ≡ 8 * length words.old }
    ensures { number_of words.new ≡ number_high bytes.now }
{
    let count = words.len();
    for i in 0..count {
        words[i] = high_word_at(bytes, 8 * (count - 1 - i));
    }
}
