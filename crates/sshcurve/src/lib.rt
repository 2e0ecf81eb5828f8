//! The group of edwards25519 and what it says of X25519 (RFC 7748) and Ed25519 (RFC 8032). Each law is the contract of a
//! function that does nothing.
#![tactic(auto)]

ghost use Rattle.std.specs.Prelude.{◌≡◌, ◌≢◌, ◌<◌, true, List, length, slice_index, ℕ, Some};
ghost use Rattle.sshcurve.specs.Bits.{number_of_32};
ghost use Rattle.sshcurve.specs.Primes.{IsField};
ghost use Rattle.sshcurve.specs.FieldNumbers.{field, minus, plus, reciprocal, times};
ghost use Rattle.sshcurve.specs.EdwardsNumbers as numbers;
ghost use Rattle.sshcurve.specs.EdwardsNumbers.{Coordinates, added, base_multiple, base_numbers, bytes_of_point};
ghost use Rattle.sshcurve.specs.DecodingNumbers.{point_in};
ghost use Rattle.sshcurve.specs.Represents.{Represents, base};
ghost use Rattle.sshcurve.specs.Scalar.{number_in, order};
ghost use Rattle.sshcurve.specs.Curve.{Affine, OnCurve, sum, neutral, opposite, multiple};
ghost use Rattle.sshcurve.specs.X25519Numbers.{clamped, x25519_number};
ghost use Rattle.sshcurve.specs.Ed25519Numbers.{is_signed, key_of, signed};
ghost use Rattle.sshcurve.specs.Verification.{IsValid};

/// The law of primes:
/// * `coordinates`: 2^255 - 19, the field of both curves (RFC 7748 section 4.1, RFC 8032 section 5.1), is a prime
/// * `order`: so is L, the order of the base point (RFC 8032 section 5.1)
///
/// A prime is meant as in Fermat's theorem: modulo m, the power m - 1 of each number but 0 is 1.
pub fn prime_law()
    ensures coordinates { IsField field }
    ensures order { IsField order }
{}

/// The law of the group: the points of edwards25519 (RFC 8032 section 5.1), with the sum of section 3, are a commutative
/// group:
/// * `closed`: the sum of two points of the curve is one
/// * `commutes`: in either order it is the same
/// * `associates`: three points have one sum, whichever two are added first
/// * `neutral`: the sum of (0, 1) and a point is the point
/// * `opposite`: the sum of (-x, y) and (x, y) is (0, 1)
pub fn group_law()
    ensures closed { (p q : Affine) → OnCurve p → OnCurve q → OnCurve (sum p q) }
    ensures commutes { (p q : Affine) → OnCurve p → OnCurve q → sum p q ≡ sum q p }
    ensures associates { (p q r : Affine) → OnCurve p → OnCurve q → OnCurve r → sum (sum p q) r ≡ sum p (sum q r) }
    ensures neutral { (p : Affine) → OnCurve p → sum neutral p ≡ p }
    ensures opposite { (p : Affine) → OnCurve p → sum (opposite p) p ≡ neutral }
{}

/// The law of multiples: [n]P is P added n times (RFC 8032 section 2). Two ways compute it in extended coordinates, with the
/// formulas of section 5.1.4: doubling and adding, from the highest bit on, and for the base point B rows of bits over the
/// points [256^i]B (`base_multiple`). The laws and definitions of Ed25519 are by the first.
/// * `doubling`: doubling and adding gives [n]P, for the number n of 32 bytes and coordinates of any point P of the curve
/// * `rows`: rows give [n]B, for the number n of 32 bytes
/// * `base_multiple`: both ways give one encoding (section 5.1.2) of a multiple of the base point, for bytes of any length
/// * `verification`: so they do of [S]B - [k]A, which verification compares with R (section 5.1.7), for the point A that a key
///   decodes to (section 5.1.3)
pub fn multiple_law()
    ensures doubling { (bytes : List ℕ) (c : Coordinates) (p : Affine) → length bytes ≡ 32 → OnCurve p → Represents c p
        → Represents (numbers.multiple bytes c) (multiple (number_in bytes) p) }
    ensures rows { (bytes : List ℕ) → length bytes ≡ 32 → Represents (base_multiple bytes) (multiple (number_in bytes) base) }
    ensures base_multiple { (bytes : List ℕ) → bytes_of_point (base_multiple bytes) ≡ bytes_of_point (numbers.multiple bytes base_numbers) }
    ensures verification { (key : List ℕ) (a : Coordinates) → point_in key ≡ Some a → (answer k : List ℕ)
        → bytes_of_point (added (base_multiple answer) (numbers.multiple k (numbers.opposite a)))
        ≡ bytes_of_point (added (numbers.multiple answer base_numbers) (numbers.multiple k (numbers.opposite a))) }
{}

/// The law of X25519 for two ends whose scalars are any 32 bytes, clamped (RFC 7748 sections 5 and 6.1):
/// * `agreed`: each end's scalar with the other's public number gives the same shared secret
/// * `present`: the shared secret isn't 0, the value that section 6.1 lets an end refuse
/// * `by_table`: the public number is also (Z + Y) / (Z - Y) of the base point's multiple (the map of section 4.1), with one
///   inversion and no ladder
pub fn x25519_law()
    ensures agreed { (a b : List ℕ) → length a ≡ 32 → length b ≡ 32
        → x25519_number (clamped a) (x25519_number (clamped b) 9) ≡ x25519_number (clamped b) (x25519_number (clamped a) 9) }
    ensures present { (a b : List ℕ) → length a ≡ 32 → length b ≡ 32 → x25519_number (clamped a) (x25519_number (clamped b) 9) ≢ 0 }
    ensures by_table { (bytes : List ℕ) → length bytes ≡ 32
        → times (plus (base_multiple (clamped bytes)).z (base_multiple (clamped bytes)).y) (reciprocal (minus (base_multiple (clamped bytes)).z (base_multiple (clamped bytes)).y))
        ≡ x25519_number (clamped bytes) 9 }
{}

/// The law of Ed25519: the signature of any input by any private key (RFC 8032 section 5.1.6) is valid for its public key
/// (section 5.1.5), as section 5.1.7 verifies it, without the cofactor.
pub fn ed25519_law()
    ensures { (private_key input : List ℕ) → is_signed (key_of private_key) input (signed private_key input) ≡ true }
{}

/// The law of verification: for 64 bytes it accepts exactly the valid signatures, which are those of RFC 8032's equation
/// [S]B = R + [k]A in the group of the curve (section 5.1.7):
/// * `valid`: what it accepts is valid
/// * `accepted`: what is valid, it accepts
/// * `number`: S is one number: by its words, as it is compared with L, and by its bits, as B is multiplied
pub fn verification_law()
    ensures valid { (key input signature : List ℕ) → length signature ≡ 64 → is_signed key input signature ≡ true → IsValid key input signature }
    ensures accepted { (key input signature : List ℕ) → length signature ≡ 64 → IsValid key input signature → is_signed key input signature ≡ true }
    ensures number { (bytes : List ℕ) → length bytes ≡ 32 → ((i : ℕ) → slice_index bytes i < 256) → number_of_32 bytes ≡ number_in bytes }
{}
