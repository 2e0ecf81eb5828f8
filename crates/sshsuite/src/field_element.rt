//! The field of 2^255 - 19 elements (RFC 7748 section 4.1), in five limbs of 51 bits, the lowest first.
//!
//! A limb is below 2^52, and may be a little above 2^51; one of a loose sum or difference, which isn't carried, is
//! below 2^54. What sums and products would lose above 128 bits is lost, but by these bounds nothing is
//! ([`field_law`](crate::field_law)).

ghost use Rattle.std.specs.Prelude.{◌≡◌, ◌<◌, ◌+◌, ◌*◌, ◌%◌, ◌^◌, ◌==◌, if◌then◌else◌, length};
ghost use Rattle.sshsuite.specs.Limbs.{mul128};
ghost use Rattle.sshsuite.specs.FieldElement.{above, add, canonical, carried, carried_once, decode, dot, eleventh, encode, inverse, less, limbs_of, loose_difference, loose_sum, mul, packed, root_power, scaled, squared, squares, sub, three, to_250, to_50, with_carry};

use crate::bits::{bytes_of_words, word_at};
use crate::constant_time::select;

/// An element, by limbs.
pub(crate) type Element = [u64; 5];

pub(crate) const ZERO: Element = [0, 0, 0, 0, 0];

pub(crate) const ONE: Element = [1, 0, 0, 0, 0];

/// What a limb is counted in: 2^51.
const RADIX: u64 = 0x8000000000000;

/// The same, for sums.
const WIDE_RADIX: u128 = 0x8000000000000;

/// 2^64.
const WORD: u128 = 0x10000000000000000;

/// The product of two limbs.
#[inline(always)]
fn product(a: u64, b: u64) -> u128
    ensures { result ≡ mul128 a b }
{
    u128::from(a).wrapping_mul(u128::from(b))
}

/// The sum of the products at each place.
#[inline(always)]
#[tactic(auto, unfolding(crate::specs::FieldElement::dot))]
fn dot(a: Element, b: Element) -> u128
    ensures { result ≡ dot a b }
{
    let [a0, a1, a2, a3, a4] = a;
    let [b0, b1, b2, b3, b4] = b;
    let (p0, p1, p2) = (product(a0, b0), product(a1, b1), product(a2, b2));
    let front = p0.wrapping_add(p1).wrapping_add(p2);
    let (p3, p4) = (product(a3, b3), product(a4, b4));
    front.wrapping_add(p3).wrapping_add(p4)
}

/// What is carried out of a sum: a word of it.
#[inline(always)]
fn above(sum: u128) -> u64
    ensures { result ≡ above sum }
{
    (sum / WIDE_RADIX % WORD) as u64
}

/// What a sum leaves at its place.
#[inline(always)]
fn below(sum: u128) -> u64
    ensures { result ≡ sum % 2 ^ 51 }
{
    (sum % WIDE_RADIX) as u64
}

/// The sum at a place, with what is carried out of the one before it.
#[inline(always)]
fn with_carry(sum: u128, before: u128) -> u128
    ensures { result ≡ with_carry sum before }
{
    sum.wrapping_add(u128::from(above(before)))
}

/// The limbs of five sums, each with what is carried out of the one before it.
#[inline(always)]
#[tactic(auto, unfolding(crate::specs::FieldElement::limbs_of))]
fn limbs_of(sums: [u128; 5]) -> Element
    ensures { result ≡ limbs_of sums }
{
    let [c0, c1, c2, c3, c4] = sums;
    let d0 = below(c0).wrapping_add(above(c4).wrapping_mul(19));
    let d1 = below(c1).wrapping_add(d0 / RADIX);
    [d0 % RADIX, d1, below(c2), below(c3), below(c4)]
}

/// The limbs of five sums.
#[inline(always)]
#[tactic(auto, unfolding(crate::specs::FieldElement::carried))]
fn carried(sums: [u128; 5]) -> Element
    ensures { result ≡ carried sums }
{
    let [c0, c1, c2, c3, c4] = sums;
    let c1 = with_carry(c1, c0);
    let c2 = with_carry(c2, c1);
    let c3 = with_carry(c3, c2);
    let c4 = with_carry(c4, c3);
    limbs_of([c0, c1, c2, c3, c4])
}

/// The limbs of five sums below 2^56: for these one pass of carries is enough.
#[inline(always)]
#[tactic(auto, unfolding(crate::specs::FieldElement::carried_once))]
fn carried_once(sums: [u64; 5]) -> Element
    ensures { result ≡ carried_once sums }
{
    let [c0, c1, c2, c3, c4] = sums;
    let c1 = c1.wrapping_add(c0 / RADIX);
    let c2 = c2.wrapping_add(c1 / RADIX);
    let c3 = c3.wrapping_add(c2 / RADIX);
    let c4 = c4.wrapping_add(c3 / RADIX);
    let c0 = (c0 % RADIX).wrapping_add((c4 / RADIX).wrapping_mul(19));
    [c0, c1 % RADIX, c2 % RADIX, c3 % RADIX, c4 % RADIX]
}

/// The sum of two elements, limb by limb: it isn't carried, and goes into sums and products alone.
#[inline(always)]
#[tactic(auto, unfolding(crate::specs::FieldElement::loose_sum))]
pub(crate) fn loose_sum(a: Element, b: Element) -> Element
    ensures { result ≡ loose_sum a b }
{
    let [a0, a1, a2, a3, a4] = a;
    let [b0, b1, b2, b3, b4] = b;
    [
        a0.wrapping_add(b0),
        a1.wrapping_add(b1),
        a2.wrapping_add(b2),
        a3.wrapping_add(b3),
        a4.wrapping_add(b4),
    ]
}

/// The sum of two elements.
#[tactic(auto, unfolding(crate::specs::FieldElement::add))]
pub(crate) fn add(a: Element, b: Element) -> Element
    ensures { result ≡ add a b }
{
    carried_once(loose_sum(a, b))
}

/// A limb more than any, less a limb.
#[inline(always)]
#[tactic(auto, unfolding(crate::specs::FieldElement::less))]
fn less(spare: u64, a: u64, b: u64) -> u64
    ensures { result ≡ less spare a b }
{
    spare.wrapping_add(a).wrapping_sub(b)
}

/// The difference of two elements, limb by limb: it isn't carried, and goes into sums and products alone. Twice the
/// field's size is added first, by limbs, each more than a limb of a product.
#[inline(always)]
#[tactic(auto, unfolding(crate::specs::FieldElement::loose_difference))]
pub(crate) fn loose_difference(a: Element, b: Element) -> Element
    ensures { result ≡ loose_difference a b }
{
    let [a0, a1, a2, a3, a4] = a;
    let [b0, b1, b2, b3, b4] = b;
    [
        less(4503599627370458, a0, b0),
        less(4503599627370494, a1, b1),
        less(4503599627370494, a2, b2),
        less(4503599627370494, a3, b3),
        less(4503599627370494, a4, b4),
    ]
}

/// The difference of two elements. Four times the field's size is added first, by limbs, each more than any limb.
#[tactic(auto, unfolding(crate::specs::FieldElement::sub))]
pub(crate) fn sub(a: Element, b: Element) -> Element
    ensures { result ≡ sub a b }
{
    let [a0, a1, a2, a3, a4] = a;
    let [b0, b1, b2, b3, b4] = b;
    carried_once([
        less(9007199254740916, a0, b0),
        less(9007199254740988, a1, b1),
        less(9007199254740988, a2, b2),
        less(9007199254740988, a3, b3),
        less(9007199254740988, a4, b4),
    ])
}

/// The product of two elements. What goes beyond the fifth limb counts nineteen times at the lowest. The order of the
/// products at a place is that in which a product's limbs are there.
#[inline(always)]
#[tactic(auto, unfolding(crate::specs::FieldElement::mul, crate::specs::FieldElement::carried))]
pub(crate) fn mul(a: Element, b: Element) -> Element
    ensures { result ≡ mul a b }
{
    let [a0, a1, a2, a3, a4] = a;
    let [b0, b1, b2, b3, b4] = b;
    let (s1, s2) = (b1.wrapping_mul(19), b2.wrapping_mul(19));
    let (s3, s4) = (b3.wrapping_mul(19), b4.wrapping_mul(19));
    let c0 = dot([a3, a2, a1, a0, a4], [s2, s3, s4, b0, s1]);
    let c1 = with_carry(dot([a4, a3, a2, a1, a0], [s2, s3, s4, b0, b1]), c0);
    let c2 = with_carry(dot([a0, a4, a3, a2, a1], [b2, s3, s4, b0, b1]), c1);
    let c3 = with_carry(dot([a1, a0, a4, a3, a2], [b2, b3, s4, b0, b1]), c2);
    let c4 = with_carry(dot([a2, a1, a0, a4, a3], [b2, b3, b4, b0, b1]), c3);
    limbs_of([c0, c1, c2, c3, c4])
}

/// The sum of three products.
#[inline(always)]
#[tactic(auto, unfolding(crate::specs::FieldElement::three))]
fn three(first: (u64, u64), second: (u64, u64), third: (u64, u64)) -> u128
    ensures { result ≡ three first.0 first.1 second.0 second.1 third.0 third.1 }
{
    let (p0, p1) = (product(first.0, first.1), product(second.0, second.1));
    let p2 = product(third.0, third.1);
    p0.wrapping_add(p1).wrapping_add(p2)
}

/// The product of an element and itself: each product of two limbs is made once, and counts twice.
#[inline(always)]
#[tactic(auto, unfolding(crate::specs::FieldElement::squared, crate::specs::FieldElement::carried))]
pub(crate) fn square(a: Element) -> Element
    ensures { result ≡ squared a }
{
    let [a0, a1, a2, a3, a4] = a;
    let (t0, t1, t2) = (a0.wrapping_mul(2), a1.wrapping_mul(2), a2.wrapping_mul(2));
    let (s3, s4, r4) = (
        a3.wrapping_mul(19),
        a4.wrapping_mul(19),
        a4.wrapping_mul(38),
    );
    let c0 = three((t2, s3), (a0, a0), (a1, r4));
    let c1 = with_carry(three((a3, s3), (a2, r4), (t0, a1)), c0);
    let c2 = with_carry(three((a3, r4), (t0, a2), (a1, a1)), c1);
    let c3 = with_carry(three((a4, s4), (t0, a3), (t1, a2)), c2);
    let c4 = with_carry(three((a2, a2), (t0, a4), (t1, a3)), c3);
    limbs_of([c0, c1, c2, c3, c4])
}

/// So many times the element.
#[inline(always)]
#[tactic(auto, unfolding(crate::specs::FieldElement::scaled))]
pub(crate) fn scale(a: Element, n: u32) -> Element
    ensures { result ≡ scaled a n }
{
    let [a0, a1, a2, a3, a4] = a;
    let n = u64::from(n);
    carried([
        product(a0, n),
        product(a1, n),
        product(a2, n),
        product(a3, n),
        product(a4, n),
    ])
}

/// Squared so many times.
#[tactic(auto, using(crate::specs::FieldElement::squares_none, crate::specs::FieldElement::squares_more))]
fn squares(a: Element, times: u32) -> Element
    ensures { result ≡ squares a times }
{
    let mut power = a;
    for _i in 0..times {
        let next = square(power);
        power = next;
    }
    power
}

/// The power eleven.
#[tactic(auto, unfolding(crate::specs::FieldElement::eleventh))]
fn eleventh(a: Element) -> Element
    ensures { result ≡ eleventh a }
{
    let two = square(a);
    let nine = mul(squares(two, 2), a);
    mul(nine, two)
}

/// The power 2^50 - 1.
#[tactic(auto, unfolding(crate::specs::FieldElement::to_50))]
fn to_50(a: Element) -> Element
    ensures { result ≡ to_50 a }
{
    let two = square(a);
    let nine = mul(squares(two, 2), a);
    let eleven = mul(nine, two);
    let to_5 = mul(square(eleven), nine);
    let to_10 = mul(squares(to_5, 5), to_5);
    let to_20 = mul(squares(to_10, 10), to_10);
    let to_40 = mul(squares(to_20, 20), to_20);
    mul(squares(to_40, 10), to_10)
}

/// The power 2^250 - 1.
#[tactic(auto, unfolding(crate::specs::FieldElement::to_250))]
fn to_250(a: Element) -> Element
    ensures { result ≡ to_250 a }
{
    let to_50 = to_50(a);
    let to_100 = mul(squares(to_50, 50), to_50);
    let to_200 = mul(squares(to_100, 100), to_100);
    mul(squares(to_200, 50), to_50)
}

/// The power 2^255 - 21: one through the element, and zero of zero.
#[tactic(auto, unfolding(crate::specs::FieldElement::inverse))]
pub(crate) fn inverse(a: Element) -> Element
    ensures { result ≡ inverse a }
{
    mul(squares(to_250(a), 5), eleventh(a))
}

/// The power 2^252 - 3 (RFC 8032 section 5.1.3).
#[tactic(auto, unfolding(crate::specs::FieldElement::root_power))]
pub(crate) fn root_power(a: Element) -> Element
    ensures { result ≡ root_power a }
{
    mul(squares(to_250(a), 2), a)
}

/// The element of 32 bytes, of which the highest bit is left out (RFC 7748 section 5).
#[tactic(auto, unfolding(crate::specs::FieldElement::decode))]
pub(crate) fn decode(bytes: &[u8]) -> Element
    requires { length bytes.now ≡ 32 }
    ensures { result ≡ decode bytes.now }
{
    let (w0, w1) = (word_at(bytes, 0), word_at(bytes, 8));
    let (w2, w3) = (word_at(bytes, 16), word_at(bytes, 24));
    [
        w0 % RADIX,
        ((w0 >> 51) | (w1 << 13)) % RADIX,
        ((w1 >> 38) | (w2 << 26)) % RADIX,
        ((w2 >> 25) | (w3 << 39)) % RADIX,
        (w3 >> 12) % RADIX,
    ]
}

/// The limbs less the field's size where they are more.
#[tactic(auto, unfolding(crate::specs::FieldElement::canonical, crate::specs::Limbs::reduced_once))]
fn canonical(a: Element) -> Element
    ensures { result ≡ canonical a }
{
    let [a0, a1, a2, a3, a4] = a;
    let over = a0.wrapping_add(19) / RADIX;
    let over = a1.wrapping_add(over) / RADIX;
    let over = a2.wrapping_add(over) / RADIX;
    let over = a3.wrapping_add(over) / RADIX;
    let over = a4.wrapping_add(over) / RADIX;
    let l0 = a0.wrapping_add(over.wrapping_mul(19));
    let l1 = a1.wrapping_add(l0 / RADIX);
    let l2 = a2.wrapping_add(l1 / RADIX);
    let l3 = a3.wrapping_add(l2 / RADIX);
    let l4 = a4.wrapping_add(l3 / RADIX);
    [l0 % RADIX, l1 % RADIX, l2 % RADIX, l3 % RADIX, l4 % RADIX]
}

/// Four words of five limbs.
#[tactic(auto, unfolding(crate::specs::FieldElement::packed))]
fn packed(l: Element) -> [u64; 4]
    ensures { result ≡ packed l }
{
    let [l0, l1, l2, l3, l4] = l;
    [
        l0 | (l1 << 51),
        (l1 >> 13) | (l2 << 38),
        (l2 >> 26) | (l3 << 25),
        (l3 >> 39) | (l4 << 12),
    ]
}

/// The 32 bytes of an element's number below 2^255 - 19, the lowest first.
#[tactic(auto, unfolding(crate::specs::FieldElement::encode))]
pub(crate) fn encode(a: Element) -> [u8; 32]
    ensures { result ≡ encode a }
{
    bytes_of_words(packed(canonical(add(a, ZERO))))
}

/// The second element where the bit is 1, else the first.
#[inline(always)]
pub(crate) fn select_element(a: Element, b: Element, bit: u64) -> Element
    requires { bit < 2 }
    ensures { result ≡ (if bit == 1 then b else a) }
{
    let [a0, a1, a2, a3, a4] = a;
    let [b0, b1, b2, b3, b4] = b;
    [
        select(a0, b0, bit),
        select(a1, b1, bit),
        select(a2, b2, bit),
        select(a3, b3, bit),
        select(a4, b4, bit),
    ]
}
