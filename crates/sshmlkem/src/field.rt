//! Numbers modulo q = 3329 (FIPS 203 section 2.3). Nothing is divided by q, since the time of a division may depend on the
//! number that is divided: the quotient is a product with the inverse of q, shifted.

ghost use Rattle.std.specs.Prelude.{◌≡◌, ◌<◌, ◌/◌, ◌%◌, ◌^◌};
ghost use Rattle.sshmlkem.specs.Field.{difference, product, sum};

/// 256 numbers modulo q: the coefficients of a polynomial of R_q, or its transform in T_q (FIPS 203 section 2.4.4).
pub(crate) type Polynomial = [u16; 256];

/// The modulus q (FIPS 203 section 2.3).
const Q: u32 = 3329;

/// 2^40 / q, rounded up.
const INVERSE: u64 = 330282857;

/// Twenty times q, which is above every u16.
const SPARE: u32 = 66580;

/// The quotient of a number below 2^28 by q.
#[inline(always)]
pub(crate) fn quotient(n: u32) -> u32
    requires { n < 2 ^ 28 }
    ensures { result ≡ n / 3329 }
{
    (u64::from(n) * INVERSE / 0x10000000000) as u32
}

/// The remainder of a number below 2^28 modulo q.
#[inline(always)]
pub(crate) fn reduced(n: u32) -> u16
    requires { n < 2 ^ 28 }
    ensures { result ≡ n % 3329 }
{
    (n - quotient(n) * Q) as u16
}

/// The sum of two numbers modulo q.
#[inline(always)]
#[tactic(auto, unfolding(crate::specs::Field::sum))]
pub(crate) fn sum(a: u16, b: u16) -> u16
    ensures { result ≡ sum a b }
{
    reduced(u32::from(a) + u32::from(b))
}

/// The difference of two numbers modulo q.
#[inline(always)]
#[tactic(auto, unfolding(crate::specs::Field::difference))]
pub(crate) fn difference(a: u16, b: u16) -> u16
    ensures { result ≡ difference a b }
{
    reduced(u32::from(a) + SPARE - u32::from(b))
}

/// The product modulo q of a number and of another number's 12 lowest bits, which are all bits of a number below q.
#[inline(always)]
#[tactic(auto, using(crate::proofs::FieldLemmas::product_below), unfolding(crate::specs::Field::product))]
pub(crate) fn product(a: u16, b: u16) -> u16
    ensures { result ≡ product a b }
{
    reduced(u32::from(a) * (u32::from(b) % 4096))
}
