//! ML-KEM-768 (FIPS 203 sections 6 and 7).

ghost use Rattle.std.specs.Prelude.{◌≡◌, ◌<◌, ◌≤◌, ◌+◌, length, true};
ghost use Rattle.sshmlkem.specs.Kem.{decapsulated, encapsulated, is_key, keys_of};

use crate::bytes::joined;
use crate::choice::{chosen, same};
use crate::codec::are_reduced;
use crate::pke;
use crate::pke::{first_half, second_half};
use sshkeccak::{sha3_256, sha3_512, shake256_32};

/// The keys of one side. Nothing here wipes them.
#[derive(Drop)]
pub struct KemKeys {
    /// The encapsulation key, which is public: 1184 bytes.
    pub encapsulation_key: [u8; 1184],
    /// The decapsulation key, which is secret: 2400 bytes.
    pub decapsulation_key: [u8; 2400],
}

/// A shared secret, and the ciphertext that gives it to the holder of the decapsulation key. Nothing here wipes it.
#[derive(Drop)]
pub struct Encapsulated {
    /// The shared secret: 32 bytes.
    pub secret: [u8; 32],
    /// The ciphertext, which is public: 1088 bytes.
    pub ciphertext: [u8; 1088],
}

/// The keys that two secret random seeds give (FIPS 203 algorithm 16, ML-KEM.KeyGen_internal). Never use a seed twice, nor for
/// anything else: the same seeds give the same keys. It never fails and allocates nothing.
#[tactic(auto, unfolding(crate::specs::Kem::keys_of))]
pub fn generate(d: &[u8; 32], z: &[u8; 32]) -> KemKeys
    ensures { result ≡ keys_of d.now z.now }
{
    let keys = pke::generate(d);
    let both = joined::<2336>(&keys.decryption_key, &keys.encryption_key);
    let digest = sha3_256(&keys.encryption_key);
    KemKeys {
        encapsulation_key: keys.encryption_key,
        decapsulation_key: joined(&both, &joined::<64>(&digest, z)),
    }
}

/// Whether a peer's bytes are an encapsulation key (FIPS 203 section 7.2): there are 1184, and each of the 768 numbers of 12
/// bits in the first 1152 is below q = 3329, which is the modulus check. `encapsulate` requires it.
#[tactic(auto, unfolding(crate::specs::Kem::is_key))]
pub fn is_encapsulation_key(bytes: &[u8]) -> bool
    ensures { result ≡ is_key bytes.now }
{
    if bytes.len() != 1184 {
        return false;
    }
    let (numbers, _) = bytes.split_at(1152);
    are_reduced(numbers)
}

/// Makes a shared secret, and the ciphertext that gives it to the holder of the decapsulation key (FIPS 203 algorithm 17,
/// ML-KEM.Encaps_internal). `message` is 32 secret random bytes: never use them twice, nor for anything else. Call
/// `is_encapsulation_key` before, which tests both premises. It never fails and allocates nothing.
#[tactic(auto, unfolding(crate::specs::Kem::encapsulated))]
pub fn encapsulate(key: &[u8], message: &[u8; 32]) -> Encapsulated
    requires length { length key.now ≡ 1184 }
    requires key { is_key key.now ≡ true }
    ensures { result ≡ encapsulated key.now message.now }
{
    let both = sha3_512(&joined::<64>(message, &sha3_256(key)));
    Encapsulated {
        secret: first_half(&both),
        ciphertext: pke::encrypt(key, message, &second_half(&both)),
    }
}

/// The shared secret of a ciphertext of 1088 bytes, by a decapsulation key of `generate` (FIPS 203 algorithm 18,
/// ML-KEM.Decaps_internal). There is no error for a ciphertext that wasn't made for this key: it gives 32 pseudo-random bytes,
/// of the key and the ciphertext, so that the other side has another secret (implicit rejection). The hash in the key isn't
/// compared with the encapsulation key in it (FIPS 203 section 7.3), since `generate` writes both. It never fails and allocates
/// nothing. As written, no branch and no index depends on whether the ciphertext was made for this key.
#[tactic(auto, unfolding(crate::specs::Kem::decapsulated))]
pub fn decapsulate(key: &[u8; 2400], ciphertext: &[u8]) -> [u8; 32]
    requires { length ciphertext.now ≡ 1088 }
    ensures { result ≡ decapsulated key.now ciphertext.now }
{
    let (decryption_key, rest) = key.split_at(1152);
    let (encryption_key, rest) = rest.split_at(1184);
    let (digest, z) = rest.split_at(32);
    let message = pke::decrypt(decryption_key, ciphertext);
    let both = sha3_512(&joined::<64>(&message, digest));
    let rejected = shake256_32(&joined::<1120>(z, ciphertext));
    let again = pke::encrypt(encryption_key, &message, &second_half(&both));
    chosen(same(ciphertext, &again), &first_half(&both), &rejected)
}
