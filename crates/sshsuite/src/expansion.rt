//! What the methods of key exchange draw of the random bytes of an exchange, so that none sees what another draws.

ghost use Rattle.std.specs.Prelude.{◌≡◌, ◌<◌, ◌*◌, ◌++◌, ◌∷◌, [], drop, length, take};
ghost use Rattle.sshsuite.specs.Expansion.{expanded, purpose_number};

use sshkeccak::shake256_96;

/// What random bytes are expanded for.
#[derive(Clone, Copy)]
pub(crate) enum Purpose {
    /// The seeds and the scalar of a client by mlkem768x25519-sha256.
    HybridClient,
    /// The seed and the scalar of a server by mlkem768x25519-sha256.
    HybridServer,
    /// The scalar of curve25519-sha256.
    Curve25519,
    /// The exponent of diffie-hellman-group14-sha256.
    Group14,
}

/// The byte that stands for it.
fn number_of(purpose: Purpose) -> u8
    ensures { result ≡ purpose_number purpose }
{
    match purpose {
        Purpose::HybridClient => 0,
        Purpose::HybridServer => 1,
        Purpose::Curve25519 => 2,
        Purpose::Group14 => 3,
    }
}

/// 32 bytes and one more.
fn with_byte(random: &[u8], byte: u8) -> [u8; 33]
    requires { length random.now ≡ 32 }
    ensures { result ≡ random.now ++ byte ∷ [] }
{
    let mut input = [0; 33];
    let (front, back) = input.split_at_mut(32);
    front.copy_from_slice(random);
    back[0] = byte;
    input
}

/// 32 bytes, from a place on.
fn part_of(bytes: &[u8; 96], i: usize) -> [u8; 32]
    requires { i < 3 }
    ensures { result ≡ take 32 (drop (32 * i) bytes.now) }
{
    let (_, rest) = bytes.split_at(32 * i);
    let (part, _) = rest.split_at(32);
    let mut array = [0; 32];
    array.copy_from_slice(part);
    array
}

/// Part i, one of three, of what 32 random bytes are expanded to for this purpose.
#[tactic(auto, unfolding(crate::specs::Expansion::expanded))]
pub(crate) fn expanded(random: &[u8], purpose: Purpose, i: usize) -> [u8; 32]
    requires random { length random.now ≡ 32 }
    requires i { i < 3 }
    ensures { result ≡ expanded random.now purpose i }
{
    part_of(&shake256_96(&with_byte(random, number_of(purpose))), i)
}
