//! The permutation Keccak-f[1600] (FIPS 202 section 3) of a state of 25 lanes, each a number of 64 bits. The lane in column x
//! and row y has the index x + 5 y.

ghost use Rattle.std.specs.Prelude.{◌≡◌, ◌<◌, ◌+◌, ◌∷◌, [], slice_index};
ghost use Rattle.sshkeccak.specs.Keccak.{added, chi, keccak, mixed, parity, pi, rho, round, theta};

/// The 25 lanes of a state, 1600 bits: the lane in column x and row y (FIPS 202 section 3.1) has the index x + 5 y.
pub type Lanes = [u64; 25];

/// The number of rounds of Keccak-f[1600] (FIPS 202 section 3.4).
const ROUNDS: usize = 24;

/// The constant of each round (FIPS 202 section 3.2.5).
const CONSTANTS: [u64; 24] = [
    0x0000000000000001,
    0x0000000000008082,
    0x800000000000808a,
    0x8000000080008000,
    0x000000000000808b,
    0x0000000080000001,
    0x8000000080008081,
    0x8000000000008009,
    0x000000000000008a,
    0x0000000000000088,
    0x0000000080008009,
    0x000000008000000a,
    0x000000008000808b,
    0x800000000000008b,
    0x8000000000008089,
    0x8000000000008003,
    0x8000000000008002,
    0x8000000000000080,
    0x000000000000800a,
    0x800000008000000a,
    0x8000000080008081,
    0x8000000000008080,
    0x0000000080000001,
    0x8000000080008008,
];

/// The parity of column x (FIPS 202 section 3.2.1, step 1 of theta).
#[inline(always)]
#[tactic(auto, unfolding(crate::specs::Keccak::parity))]
fn parity(a: &Lanes, x: usize) -> u64
    requires { x < 5 }
    ensures { result ≡ parity a.now x }
{
    a[x] ^ a[x + 5] ^ a[x + 10] ^ a[x + 15] ^ a[x + 20]
}

/// What theta adds to each of the five columns (FIPS 202 section 3.2.1, step 2 of theta).
#[inline(always)]
#[tactic(auto, unfolding(crate::specs::Keccak::added))]
fn added(a: &Lanes) -> [u64; 5]
    ensures { result ≡ added a.now 0 ∷ added a.now 1 ∷ added a.now 2 ∷ added a.now 3 ∷ added a.now 4 ∷ [] }
{
    let (c0, c1, c2) = (parity(a, 0), parity(a, 1), parity(a, 2));
    let (c3, c4) = (parity(a, 3), parity(a, 4));
    [
        c4 ^ c1.rotate_left(1),
        c0 ^ c2.rotate_left(1),
        c1 ^ c3.rotate_left(1),
        c2 ^ c4.rotate_left(1),
        c3 ^ c0.rotate_left(1),
    ]
}

/// Theta: adds the parities of two other columns to each bit (FIPS 202 section 3.2.1).
#[inline(always)]
#[tactic(auto, unfolding(crate::specs::Keccak::theta))]
fn theta(a: Lanes) -> Lanes
    ensures { result ≡ theta a }
{
    let [d0, d1, d2, d3, d4] = added(&a);
    [
        a[0] ^ d0,
        a[1] ^ d1,
        a[2] ^ d2,
        a[3] ^ d3,
        a[4] ^ d4,
        a[5] ^ d0,
        a[6] ^ d1,
        a[7] ^ d2,
        a[8] ^ d3,
        a[9] ^ d4,
        a[10] ^ d0,
        a[11] ^ d1,
        a[12] ^ d2,
        a[13] ^ d3,
        a[14] ^ d4,
        a[15] ^ d0,
        a[16] ^ d1,
        a[17] ^ d2,
        a[18] ^ d3,
        a[19] ^ d4,
        a[20] ^ d0,
        a[21] ^ d1,
        a[22] ^ d2,
        a[23] ^ d3,
        a[24] ^ d4,
    ]
}

/// Rho and then pi: rotates each lane and moves it to another place (FIPS 202 sections 3.2.2 and 3.2.3).
#[inline(always)]
#[tactic(auto, unfolding(crate::specs::Keccak::rho, crate::specs::Keccak::pi))]
fn rho_pi(a: Lanes) -> Lanes
    ensures { result ≡ pi (rho a) }
{
    [
        a[0].rotate_left(0),
        a[6].rotate_left(44),
        a[12].rotate_left(43),
        a[18].rotate_left(21),
        a[24].rotate_left(14),
        a[3].rotate_left(28),
        a[9].rotate_left(20),
        a[10].rotate_left(3),
        a[16].rotate_left(45),
        a[22].rotate_left(61),
        a[1].rotate_left(1),
        a[7].rotate_left(6),
        a[13].rotate_left(25),
        a[19].rotate_left(8),
        a[20].rotate_left(18),
        a[4].rotate_left(27),
        a[5].rotate_left(36),
        a[11].rotate_left(10),
        a[17].rotate_left(15),
        a[23].rotate_left(56),
        a[2].rotate_left(62),
        a[8].rotate_left(55),
        a[14].rotate_left(39),
        a[15].rotate_left(41),
        a[21].rotate_left(2),
    ]
}

/// One lane of chi: a lane and the two lanes after it in its row (FIPS 202 section 3.2.4).
#[inline(always)]
#[tactic(auto, unfolding(crate::specs::Keccak::mixed))]
fn mixed(a: u64, b: u64, c: u64) -> u64
    ensures { result ≡ mixed a b c }
{
    a ^ (!b & c)
}

/// Chi: mixes the lanes of each row (FIPS 202 section 3.2.4).
#[inline(always)]
#[tactic(auto, unfolding(crate::specs::Keccak::chi))]
fn chi(a: Lanes) -> Lanes
    ensures { result ≡ chi a }
{
    [
        mixed(a[0], a[1], a[2]),
        mixed(a[1], a[2], a[3]),
        mixed(a[2], a[3], a[4]),
        mixed(a[3], a[4], a[0]),
        mixed(a[4], a[0], a[1]),
        mixed(a[5], a[6], a[7]),
        mixed(a[6], a[7], a[8]),
        mixed(a[7], a[8], a[9]),
        mixed(a[8], a[9], a[5]),
        mixed(a[9], a[5], a[6]),
        mixed(a[10], a[11], a[12]),
        mixed(a[11], a[12], a[13]),
        mixed(a[12], a[13], a[14]),
        mixed(a[13], a[14], a[10]),
        mixed(a[14], a[10], a[11]),
        mixed(a[15], a[16], a[17]),
        mixed(a[16], a[17], a[18]),
        mixed(a[17], a[18], a[19]),
        mixed(a[18], a[19], a[15]),
        mixed(a[19], a[15], a[16]),
        mixed(a[20], a[21], a[22]),
        mixed(a[21], a[22], a[23]),
        mixed(a[22], a[23], a[24]),
        mixed(a[23], a[24], a[20]),
        mixed(a[24], a[20], a[21]),
    ]
}

/// A round: the five step mappings, of which iota adds the constant to lane 0 (FIPS 202 section 3.3).
#[inline(always)]
#[tactic(auto, unfolding(crate::specs::Keccak::round))]
fn round(a: Lanes, constant: u64) -> Lanes
    ensures { result ≡ round a constant }
{
    let mut next = chi(rho_pi(theta(a)));
    next[0] ^= constant;
    next
}

/// The permutation Keccak-f[1600] (FIPS 202 sections 3.3 and 3.4): 24 rounds.
#[tactic(auto, using(crate::specs::Keccak::rounds_none, crate::specs::Keccak::rounds_more), unfolding(crate::specs::Keccak::keccak))]
pub(crate) fn keccak(a: Lanes) -> Lanes
    ensures { result ≡ keccak a }
{
    let mut state = a;
    for i in 0..ROUNDS {
        let next = round(state, CONSTANTS[i]);
        state = next;
    }
    state
}
