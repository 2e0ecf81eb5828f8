//! What the calls compute, in the RFCs' own words: theorems on their meanings, each of which is the code
//! written again. No function of the crate calls them.

ghost use Rattle.sshpacket.specs.KeysElsewhere.{public_part};
ghost use Rattle.sshpacket.specs.Suite.{Agrees, ResponseData, Signs};
ghost use Rattle.std.specs.Prelude.{false, ◌≡◌, ◌↔◌, ◌<◌, ◌+◌, ◌*◌, ◌%◌, ◌^◌, List, Some, true, ℕ, bit_xor, length, slice_index};
ghost use Rattle.sshwire.specs.Types.{IsBytes};
ghost use Rattle.sshsuite.specs.Aes.{cipher, number_at, round_keys, short_round_keys};
ghost use Rattle.sshsuite.specs.AesBytes.{IsExpanded, IsShortSchedule, bit_of, block_of, byte_inverse, byte_mapped, byte_product, encrypted_state, key_state, mapped_bit, sample_key, short_sample_key, tag_additional, tag_key, tag_sealed};
ghost use Rattle.sshcurve.specs.Bits.{number_of_32};
ghost use Rattle.sshcurve.specs.X25519Numbers.{clamped, x25519_number};
ghost use Rattle.sshsuite.specs.Curve25519.{x25519};
ghost use Rattle.sshsuite.specs.PointNumbers.{AreAlike, HasCoordinates};
ghost use Rattle.sshcurve.specs.DecodingNumbers.{point_in};
ghost use Rattle.sshsuite.specs.Deployed.{deployed, is_curve25519, is_hybrid, wrapped};
ghost use Rattle.sshsuite.specs.DeployedNumbers.{share_bytes, shared_body};
ghost use Rattle.sshsuite.specs.Ed25519.{is_signature, public_key, signature};
ghost use Rattle.sshcurve.specs.Ed25519Numbers.{is_signed, key_of, signed};
ghost use Rattle.sshsuite.specs.Edwards25519.{decode_point, encode_point, multiply, multiply_base, table_point};
ghost use Rattle.sshcurve.specs.EdwardsNumbers.{Coordinates, base_at, base_multiple, bytes_of_point, multiple};
ghost use Rattle.sshcurve.specs.FieldBytes.{bytes_of_number};
ghost use Rattle.sshsuite.specs.FieldElement.{add, decode, encode, mul, scaled, squared, sub};
ghost use Rattle.sshsuite.specs.FieldValues.{AreBelow, value};
ghost use Rattle.sshcurve.specs.FieldNumbers.{field};
ghost use Rattle.sshsuite.specs.Poly1305.{tag_of};
ghost use Rattle.sshsuite.specs.Expansion.{expansion_input};
ghost use Rattle.sshsuite.specs.Ghash.{ghash};
ghost use Rattle.sshsuite.specs.Group14.{generator, group14_share, group14_shared, is_within, number_body, peer_number, power};
ghost use Rattle.sshsuite.specs.Hybrid.{hybrid_respond, hybrid_share, hybrid_shared};
ghost use Rattle.sshmlkem.specs.Noise.{are_small};
ghost use Rattle.sshsuite.specs.HybridAgreement.{Decrypts, KeepsMessage, hybrid_noise};
ghost use Rattle.sshsuite.specs.PolyNumbers.{mac};
ghost use Rattle.sshsuite.specs.Rsa.{digest_info, is_rsa, is_signed_by, key_blob, signature_blob};
ghost use Rattle.sshsuite.specs.declared.edwards25519.Point.{Point};
ghost use Rattle.sshsuite.specs.declared.expansion.Purpose.{Purpose};

use sshmlkem::{decryption_law, key_law};

/// The law of elements whose limbs are below 2^52: sums, differences, products, squares and products by a number
/// below 2^32 (`scaled`) have such limbs too, and are those modulo 2^255 - 19; limbs that are read of 32 bytes have the number of these without their
/// highest bit, and limbs are written as the bytes of their number modulo 2^255 - 19.
pub fn field_law()
    ensures sum { (a b : List ℕ) → AreBelow (2 ^ 52) a → AreBelow (2 ^ 52) b
        → AreBelow (2 ^ 52) (add a b) × (value (add a b) % field ≡ (value a + value b) % field) }
    ensures difference { (a b : List ℕ) → AreBelow (2 ^ 52) a → AreBelow (2 ^ 52) b
        → AreBelow (2 ^ 52) (sub a b) × ((value (sub a b) + value b) % field ≡ value a % field) }
    ensures product { (a b : List ℕ) → AreBelow (2 ^ 52) a → AreBelow (2 ^ 52) b
        → AreBelow (2 ^ 52) (mul a b) × (value (mul a b) % field ≡ value a * value b % field) }
    ensures square { (a : List ℕ) → AreBelow (2 ^ 52) a
        → AreBelow (2 ^ 52) (squared a) × (value (squared a) % field ≡ value a * value a % field) }
    ensures scaled { (a : List ℕ) (n : ℕ) → AreBelow (2 ^ 52) a → n < 2 ^ 32
        → AreBelow (2 ^ 52) (scaled a n) × (value (scaled a n) % field ≡ n * value a % field) }
    ensures decoded { (bytes : List ℕ) → IsBytes bytes
        → AreBelow (2 ^ 51) (decode bytes) × (value (decode bytes) ≡ number_of_32 bytes % 2 ^ 255) }
    ensures encoded { (a : List ℕ) → AreBelow (2 ^ 52) a → encode a ≡ bytes_of_number (value a % field) }
{}

/// The law of X25519: its 32 bytes are those of the number that RFC 7748 section 5 tells, in numbers modulo 2^255 -
/// 19, of the clamped scalar and of the number of the point's bytes without their highest bit.
pub fn x25519_law()
    ensures { (scalar point : List ℕ) → IsBytes point
        → x25519 scalar point ≡ bytes_of_number (x25519_number (clamped scalar) (number_of_32 point % 2 ^ 255 % field)) }
{}

/// The law of points: by limbs as in numbers modulo 2^255 - 19 a number times a point is what RFC 8032 section
/// 5.1.4 tells, and so are its bytes (section 5.1.2) and the point that is read of bytes (section 5.1.3). The points of the
/// table are the base point times 256^i (`base`), and a number times the base point is what is summed of them (`base_multiplied`).
pub fn point_law()
    ensures base { (i : ℕ) → i < 32 → HasCoordinates (table_point i) (base_at i) }
    ensures base_multiplied { (bytes : List ℕ) → HasCoordinates (multiply_base bytes) (base_multiple bytes) }
    ensures multiplied { (bytes : List ℕ) (p : Point) (n : Coordinates) → HasCoordinates p n
        → HasCoordinates (multiply bytes p) (multiple bytes n) }
    ensures encoded { (p : Point) (n : Coordinates) → HasCoordinates p n → encode_point p ≡ bytes_of_point n }
    ensures decoded { (bytes : List ℕ) → IsBytes bytes → AreAlike (decode_point bytes) (point_in bytes) }
{}

/// The law of Ed25519: public keys (`key`) and signatures (`signed`) are those of RFC 8032 section 5.1, in
/// numbers modulo 2^255 - 19 and modulo L, and so is which signatures are valid (`verified`).
pub fn ed25519_law()
    ensures key { (private_key : List ℕ) → public_key private_key ≡ key_of private_key }
    ensures signed { (private_key input : List ℕ) → signature private_key input ≡ signed private_key input }
    ensures verified { (key input found : List ℕ) → IsBytes key → is_signature key input found ≡ is_signed key input found }
{}

/// The law of Poly1305: a tag is that of RFC 8439 section 2.5, in numbers modulo 2^130 - 5.
pub fn poly1305_law()
    ensures { (key input : List ℕ) → IsBytes key → IsBytes input → tag_of key input ≡ mac key input }
{}

/// The law of AES: a block is a number of 16 bytes, the first the highest (`block`), and by a key of 32 bytes (`cipher`) or of
/// 16 (`short_cipher`) it is encrypted as FIPS 197 tells, byte by byte: by the 14 or 10 rounds of section 5.1, and for all words that
/// are the key's schedule of section 5.2. There the S-box is the inverse in GF(2^8) (`inverse`, and `zero` of zero) and then the
/// affine map, bit by bit (`affine`). The examples of appendix C.3 (`example`) and C.1 (`short_example`) come out.
pub fn aes_law()
    ensures block { (bytes : List ℕ) (i : ℕ) → number_at bytes i ≡ block_of 16 (λ k. slice_index bytes (i + k)) }
    ensures cipher { (key : List ℕ) (words : ℕ → ℕ → ℕ) (state : ℕ → ℕ) → IsExpanded (λ k. slice_index key k) words
        → ((n r : ℕ) → words n r < 2 ^ 8) → ((i : ℕ) → state i < 2 ^ 8)
        → cipher (round_keys key) (block_of 16 state) ≡ block_of 16 (encrypted_state 14 (key_state words) state) }
    ensures short_cipher { (key : List ℕ) (words : ℕ → ℕ → ℕ) (state : ℕ → ℕ) → IsShortSchedule (λ k. slice_index key k) words
        → ((n r : ℕ) → words n r < 2 ^ 8) → ((i : ℕ) → state i < 2 ^ 8)
        → cipher (short_round_keys key) (block_of 16 state) ≡ block_of 16 (encrypted_state 10 (key_state words) state) }
    ensures inverse { (b : ℕ) → 0 < b → b < 256 → byte_product b (byte_inverse b) ≡ 1 }
    ensures zero { byte_inverse 0 ≡ 0 }
    ensures affine { (b i : ℕ) → b < 256 → i < 8 → bit_of (byte_mapped b) i ≡ mapped_bit b i }
    ensures example { cipher (round_keys sample_key) 0x00112233445566778899aabbccddeeff ≡ 0x8ea2b7ca516745bfeafc49904b496089 }
    ensures short_example { cipher (short_round_keys short_sample_key) 0x00112233445566778899aabbccddeeff ≡ 0x69c4e0d86a7b0430d8cdb78070b4c55a }
{}

/// The law of GCM: the tag of test case 16 of its specification comes out, whose additional data and sealed bytes are no whole
/// blocks.
pub fn gcm_law()
    ensures { bit_xor (cipher (round_keys tag_key) 0xcafebabefacedbaddecaf88800000001) (ghash (cipher (round_keys tag_key) 0) tag_additional tag_sealed) ≡ 0x76fc6ece0f4e1768cddf8853bb2d551b }
{}

/// The law of diffie-hellman-group14-sha256: a share's body is read as its number (`read`), and two sides whose shares aren't
/// refused come to one shared secret (`agreed`), each by its random bytes and the other's share.
pub fn group14_law()
    ensures read { (n : ℕ) → is_within n ≡ true → peer_number (number_body n) ≡ Some n }
    ensures agreed { (client server : List ℕ) → is_within (power generator client) ≡ true → is_within (power generator server) ≡ true
        → group14_shared client (group14_share server) ≡ group14_shared server (group14_share client) }
{}

/// The law of what is drawn: for two purposes, and of two random byte strings, two inputs are expanded. So no method sees bytes that
/// another one draws.
pub fn draws_law()
    ensures apart { (random other : List ℕ) (one two : Purpose) → expansion_input random one ≡ expansion_input other two → (random ≡ other) × (one ≡ two) }
{}

/// The law of curve25519-sha256: two ends come to one shared secret, whatever their random bytes are. It is never all zeros, which would
/// be refused (RFC 7748 section 6.1).
pub fn curve25519_law()
    ensures agrees { (kex client server : List ℕ) → is_curve25519 kex ≡ true → Agrees deployed kex client server }
{
    x25519_law();
}

/// The law of ssh-ed25519: what is signed by a private key that the suite holds is verified by its public key.
pub fn signature_law()
    ensures signs { (alg secret : List ℕ) → deployed.holds alg secret ≡ true → Signs deployed alg secret }
{
    ed25519_law();
}

/// The law of mlkem768x25519-sha256: two ends come to one shared secret, if the noise of ML-KEM between their random bytes is small
/// (`agrees`): each of 256 numbers, which can be computed, less than a quarter of 3329 away from 0. It is enough that the client
/// decrypts the message that the server has encapsulated (`decrypts`), and it does so exactly if the noise keeps each bit of the
/// message (`exact`). So what a server answers to a client's share gives the client the server's secret (`answered`).
pub fn hybrid_law()
    ensures agrees { (kex client server : List ℕ) → is_hybrid kex ≡ true → are_small (hybrid_noise client server) ≡ true → Agrees deployed kex client server }
    ensures decrypts { (kex client server : List ℕ) → is_hybrid kex ≡ true → Decrypts client server → Agrees deployed kex client server }
    ensures exact { (client server : List ℕ) → Decrypts client server ↔ KeepsMessage client server }
    ensures answered { (client server : List ℕ) (response : ResponseData) → Decrypts client server
        → hybrid_respond server (hybrid_share client) ≡ Some response → hybrid_shared client response.share ≡ Some response.shared }
{
    x25519_law();
    key_law();
    decryption_law();
}

/// The law of rsa-sha2-256 and rsa-sha2-512: by a public key of RFC 4253 section 6.6 and a signature of RFC 8332 section 3 what
/// verifies is told of the bodies of e and n and of s, in numbers (`verified`), and by other bytes nothing verifies
/// (`nothing_else`).
pub fn rsa_law()
    ensures verified { (alg input e n s : List ℕ) → is_rsa alg ≡ true → length e < 2 ^ 32 → length n < 2 ^ 32 → length s < 2 ^ 32
        → deployed.verify alg (key_blob e n) input (signature_blob alg s) ≡ is_signed_by e n (digest_info alg input) s }
    ensures nothing_else { (alg blob input found : List ℕ) → is_rsa alg ≡ true → IsBytes blob → IsBytes found → deployed.verify alg blob input found ≡ true
        → (e n s : List ℕ) × (blob ≡ key_blob e n) × (found ≡ signature_blob alg s) }
{}

/// The law of the suite: its shares and what both sides share are those of RFC 8731, in numbers modulo 2^255 - 19, and of RFC
/// 4253 section 8, modulo the prime of group 14 (`share`, `shared`); its public keys and signatures are those of RFC 8709
/// (`key`, `signature`). What it doesn't hold is its own public key, if it begins with a name, and no key else (`elsewhere`).
pub fn deployed_law()
    ensures share { (kex random : List ℕ) → deployed.share kex random ≡ share_bytes kex random }
    ensures shared { (kex random peer : List ℕ) → IsBytes peer → deployed.shared kex random peer ≡ shared_body kex random peer }
    ensures key { (alg secret : List ℕ) → deployed.holds alg secret ≡ true → deployed.blob alg secret ≡ wrapped (key_of secret) }
    ensures elsewhere { (alg secret : List ℕ) → deployed.holds alg secret ≡ false → deployed.blob alg secret ≡ public_part secret }
    ensures signature { (alg secret input : List ℕ) → deployed.sign alg secret input ≡ wrapped (signed secret input) }
{}
