//! The function X25519 (RFC 7748 section 5).

ghost use Rattle.std.specs.Prelude.{◌≡◌, ◌<◌, length};
ghost use Rattle.sshsuite.specs.Curve25519.{affine, ladder, ladder_start, ladder_step, small_of, times_first, turned, x25519};
ghost use Rattle.sshcurve.specs.X25519Numbers.{clamped};

use crate::bits::bit_at;
use crate::field_element::{
    Element, ONE, ZERO, decode, encode, inverse, loose_difference, loose_sum, mul, scale,
    select_element, square,
};

/// (486662 - 2) / 4, which RFC 7748 calls a24.
const A24: u32 = 121665;

/// The u-coordinate of the base point (RFC 7748 section 4.1).
pub(crate) const BASE_POINT: [u8; 32] = [
    9, 0, 0, 0, 0, 0, 0, 0, 0, 0, 0, 0, 0, 0, 0, 0, 0, 0, 0, 0, 0, 0, 0, 0, 0, 0, 0, 0, 0, 0, 0, 0,
];

/// The two points of the Montgomery ladder, each by its u-coordinate x / z.
#[derive(Clone, Copy)]
pub(crate) struct LadderState {
    x2: Element,
    z2: Element,
    x3: Element,
    z3: Element,
}

/// The same points, in the other order where the bit is 1 (RFC 7748 section 5: cswap).
#[inline(always)]
fn swap_where(s: LadderState, bit: u64) -> LadderState
    requires { bit < 2 }
    ensures { result ≡ turned s bit }
{
    let LadderState { x2, z2, x3, z3 } = s;
    LadderState {
        x2: select_element(x2, x3, bit),
        z2: select_element(z2, z3, bit),
        x3: select_element(x3, x2, bit),
        z3: select_element(z3, z2, bit),
    }
}

/// Points that are in the order of the last bit, in that of the next.
#[inline(always)]
#[tactic(auto, using(crate::proofs::LadderLemmas::turned_further))]
fn swap_further(s: LadderState, last: u64, bit: u64) -> LadderState
    requires last { last < 2 }
    requires bit { bit < 2 }
    ensures { result ≡ turned (turned s last) bit }
{
    swap_where(s, (last + bit) % 2)
}

/// The number of an element, where it is below 2^32, as that of the base point is.
#[tactic(auto, unfolding(crate::specs::Curve25519::small_of))]
fn small_of(x: Element) -> Option<u32>
    ensures { result ≡ small_of x }
{
    let [x0, x1, x2, x3, x4] = x;
    if x1 == 0 && (x2 == 0 && (x3 == 0 && (x4 == 0 && x0 < 0x100000000))) {
        Some(x0 as u32)
    } else {
        None
    }
}

/// The product by the coordinate, which is by its number where that is small. A coordinate is no secret.
#[inline(always)]
#[tactic(auto, unfolding(crate::specs::Curve25519::times_first))]
fn times_first(x1: Element, small: Option<u32>, a: Element) -> Element
    ensures { result ≡ times_first x1 small a }
{
    match small {
        Some(n) => scale(a, n),
        None => mul(x1, a),
    }
}

/// The first point doubled, and the sum of both, whose difference has this coordinate. The order is that in which few
/// elements wait.
#[inline(always)]
#[tactic(auto, unfolding(crate::specs::Curve25519::ladder_step))]
fn ladder_step(s: LadderState, x1: Element, small: Option<u32>) -> LadderState
    ensures { result ≡ ladder_step s x1 small }
{
    let d = loose_difference(s.x3, s.z3);
    let a = loose_sum(s.x2, s.z2);
    let c = loose_sum(s.x3, s.z3);
    let b = loose_difference(s.x2, s.z2);
    let cb = mul(b, c);
    let (aa, bb) = (square(a), square(b));
    let x2 = mul(aa, bb);
    let da = mul(d, a);
    let sum = loose_sum(da, cb);
    let z3 = times_first(x1, small, square(loose_difference(da, cb)));
    let x3 = square(sum);
    let e = loose_difference(aa, bb);
    let z2 = mul(e, loose_sum(aa, scale(e, A24)));
    LadderState { x2, z2, x3, z3 }
}

/// A scalar of these bytes: a multiple of eight with the bit 254 (RFC 7748 section 5: decodeScalar25519).
#[tactic(auto, unfolding(sshcurve::specs::X25519Numbers::clamped))]
pub(crate) fn clamped(bytes: [u8; 32]) -> [u8; 32]
    ensures { result ≡ clamped bytes }
{
    let mut scalar = bytes;
    scalar[0] = scalar[0] - scalar[0] % 8;
    scalar[31] = scalar[31] % 64 + 64;
    scalar
}

/// The neutral element and the point, with which the ladder begins.
#[tactic(auto, unfolding(crate::specs::Curve25519::ladder_start))]
fn ladder_start(x1: Element) -> LadderState
    ensures { result ≡ ladder_start x1 }
{
    LadderState {
        x2: ONE,
        z2: ZERO,
        x3: x1,
        z3: ONE,
    }
}

/// The ladder over the bits of a scalar, the highest first. The points stay in the order that the last bit gave, so
/// they are swapped once for each bit, where it isn't the one before.
#[tactic(auto, using(crate::specs::Curve25519::ladder_none, crate::proofs::LadderLemmas::ladder_kept))]
fn ladder(scalar: [u8; 32], x1: Element) -> LadderState
    ensures { result ≡ ladder scalar x1 255 }
{
    let small = small_of(x1);
    let mut state = ladder_start(x1);
    let mut last = 0;
    for i in 0..255 {
        let bit = bit_at(&scalar, 254 - i);
        let next = ladder_step(swap_further(state, last, bit), x1, small);
        state = next;
        last = bit;
    }
    swap_where(state, last)
}

/// The u-coordinate of the first point, as bytes.
#[tactic(auto, unfolding(crate::specs::Curve25519::affine))]
fn affine(s: LadderState) -> [u8; 32]
    ensures { result ≡ affine s }
{
    encode(mul(s.x2, inverse(s.z2)))
}

/// The scalar times the point with this u-coordinate. Of bytes that aren't below 2^255 - 19 the remainder is
/// taken, as RFC 7748 section 5 has it.
#[tactic(auto, unfolding(crate::specs::Curve25519::x25519))]
pub(crate) fn x25519(scalar: [u8; 32], point: &[u8]) -> [u8; 32]
    requires { length point.now ≡ 32 }
    ensures { result ≡ x25519 scalar point.now }
{
    affine(ladder(clamped(scalar), decode(point)))
}
