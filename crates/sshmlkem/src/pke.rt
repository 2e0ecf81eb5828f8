//! K-PKE, the encryption that ML-KEM is made of (FIPS 203 section 5), for k = 3. As written, no branch and no index depends on
//! a key to decrypt, on a message or on a secret seed.

ghost use Rattle.std.specs.Prelude.{◌≡◌, ◌<◌, ◌≤◌, ◌+◌, ◌∷◌, [], ◌++◌, drop, length, take};
ghost use Rattle.sshmlkem.specs.Pke.{column, decode_vector, decrypted, dot, encode_vector, encrypted, last_part, masked, noises, ntts, pke_keys, row, row_sum};

use crate::bytes::{array_of, joined};
use crate::codec::{
    decode_1, decode_4, decode_10, decode_12, encode_1, encode_4, encode_10, encode_12,
};
use crate::field::Polynomial;
use crate::ntt::{add, add_product, inverse_ntt, ntt, subtract};
use crate::sample::{after_seed, noise, sample_ntt};
use sshkeccak::sha3_512;

/// A vector of three polynomials, or of their transforms.
#[derive(Clone, Copy)]
pub(crate) struct Vector {
    pub(crate) first: Polynomial,
    pub(crate) second: Polynomial,
    pub(crate) third: Polynomial,
}

/// The keys of K-PKE.
#[derive(Drop)]
pub(crate) struct PkeKeys {
    /// The encryption key, which is public.
    pub(crate) encryption_key: [u8; 1184],
    /// The decryption key, which is secret.
    pub(crate) decryption_key: [u8; 1152],
}

/// The first 32 bytes of 64.
pub(crate) fn first_half(bytes: &[u8; 64]) -> [u8; 32]
    ensures { result ≡ take 32 bytes.now }
{
    let (half, _) = bytes.split_at(32);
    array_of(half)
}

/// The last 32 bytes of 64.
pub(crate) fn second_half(bytes: &[u8; 64]) -> [u8; 32]
    ensures { result ≡ drop 32 bytes.now }
{
    let (_, half) = bytes.split_at(32);
    array_of(half)
}

/// The inner product of two vectors of transforms (FIPS 203 section 2.4.7).
#[tactic(auto, unfolding(crate::specs::Pke::dot))]
fn dot(f: &Vector, g: &Vector) -> Polynomial
    ensures { result ≡ dot f.now g.now }
{
    let mut h = [0; 256];
    add_product(&mut h, &f.first, &g.first);
    add_product(&mut h, &f.second, &g.second);
    add_product(&mut h, &f.third, &g.third);
    h
}

/// Row i of the matrix, which `rho` gives (FIPS 203 algorithm 13, lines 3 to 7).
#[tactic(auto, unfolding(crate::specs::Pke::row))]
fn row(rho: &[u8; 32], i: u8) -> Vector
    ensures { result ≡ row rho.now i }
{
    Vector {
        first: sample_ntt(rho, 0, i),
        second: sample_ntt(rho, 1, i),
        third: sample_ntt(rho, 2, i),
    }
}

/// Column i of the matrix, which `rho` gives (FIPS 203 algorithm 14, lines 4 to 8).
#[tactic(auto, unfolding(crate::specs::Pke::column))]
fn column(rho: &[u8; 32], i: u8) -> Vector
    ensures { result ≡ column rho.now i }
{
    Vector {
        first: sample_ntt(rho, i, 0),
        second: sample_ntt(rho, i, 1),
        third: sample_ntt(rho, i, 2),
    }
}

/// Three polynomials of small numbers, by the bytes n, n + 1 and n + 2 (FIPS 203 algorithm 13, lines 8 to 15).
#[tactic(auto, unfolding(crate::specs::Pke::noises))]
fn noises(seed: &[u8; 32], n: u8) -> Vector
    requires { n < 250 }
    ensures { result ≡ noises seed.now n }
{
    Vector {
        first: noise(seed, n),
        second: noise(seed, n + 1),
        third: noise(seed, n + 2),
    }
}

/// Replaces each of three polynomials by its transform.
#[tactic(auto, unfolding(crate::specs::Pke::ntts))]
fn ntts(f: &mut Vector)
    ensures { f.new ≡ ntts f.old }
{
    ntt(&mut f.first);
    ntt(&mut f.second);
    ntt(&mut f.third);
}

/// Encodes three polynomials of 12 bits a number, one after the other.
#[tactic(auto, unfolding(crate::specs::Pke::encode_vector))]
fn encode_vector(f: &Vector) -> [u8; 1152]
    ensures { result ≡ encode_vector f.now }
{
    let front = joined::<768>(&encode_12(&f.first), &encode_12(&f.second));
    joined(&front, &encode_12(&f.third))
}

/// Decodes three polynomials of 12 bits a number.
#[tactic(auto, unfolding(crate::specs::Pke::decode_vector))]
fn decode_vector(bytes: &[u8]) -> Vector
    requires { length bytes.now ≡ 1152 }
    ensures { result ≡ decode_vector bytes.now }
{
    let (first, rest) = bytes.split_at(384);
    let (second, third) = rest.split_at(384);
    Vector {
        first: decode_12(first),
        second: decode_12(second),
        third: decode_12(third),
    }
}

/// The inner product of row i and the secret vector, plus its error (FIPS 203 algorithm 13, line 18).
#[tactic(auto, unfolding(crate::specs::Pke::row_sum))]
fn row_sum(rho: &[u8; 32], i: u8, s: &Vector, error: &Polynomial) -> Polynomial
    ensures { result ≡ row_sum rho.now i s.now error.now }
{
    let mut t = dot(&row(rho, i), s);
    add(&mut t, error);
    t
}

/// The keys that a secret seed gives (FIPS 203 algorithm 13, K-PKE.KeyGen).
#[tactic(auto, unfolding(crate::specs::Pke::pke_keys))]
pub(crate) fn generate(d: &[u8; 32]) -> PkeKeys
    ensures { result ≡ pke_keys d.now }
{
    let seeds = sha3_512(&after_seed(d, 3));
    let (rho, sigma) = (first_half(&seeds), second_half(&seeds));
    let mut s = noises(&sigma, 0);
    ntts(&mut s);
    let mut e = noises(&sigma, 3);
    ntts(&mut e);
    let t = Vector {
        first: row_sum(&rho, 0, &s, &e.first),
        second: row_sum(&rho, 1, &s, &e.second),
        third: row_sum(&rho, 2, &s, &e.third),
    };
    PkeKeys {
        encryption_key: joined(&encode_vector(&t), &rho),
        decryption_key: encode_vector(&s),
    }
}

/// Part i of a ciphertext, which is number i of the vector u (FIPS 203 algorithm 14, lines 19 and 22).
#[tactic(auto, unfolding(crate::specs::Pke::masked))]
fn masked(rho: &[u8; 32], y: &Vector, i: u8, error: &Polynomial) -> [u8; 320]
    ensures { result ≡ masked rho.now y.now i error.now }
{
    let mut u = dot(&column(rho, i), y);
    inverse_ntt(&mut u);
    add(&mut u, error);
    encode_10(&u)
}

/// The last part of a ciphertext, which is v (FIPS 203 algorithm 14, lines 20, 21 and 23).
#[tactic(auto, unfolding(crate::specs::Pke::last_part))]
fn last_part(t: &Vector, y: &Vector, error: &Polynomial, message: &[u8; 32]) -> [u8; 128]
    ensures { result ≡ last_part t.now y.now error.now message.now }
{
    let mut v = dot(t, y);
    inverse_ntt(&mut v);
    add(&mut v, error);
    add(&mut v, &decode_1(message));
    encode_4(&v)
}

/// Encrypts a message of 32 bytes by an encryption key and a secret seed (FIPS 203 algorithm 14, K-PKE.Encrypt).
#[tactic(auto, unfolding(crate::specs::Pke::encrypted))]
pub(crate) fn encrypt(encryption_key: &[u8], message: &[u8; 32], seed: &[u8; 32]) -> [u8; 1088]
    requires { length encryption_key.now ≡ 1184 }
    ensures { result ≡ encrypted encryption_key.now message.now seed.now }
{
    let (numbers, rho) = encryption_key.split_at(1152);
    let rho: [u8; 32] = array_of(rho);
    let t = decode_vector(numbers);
    let mut y = noises(seed, 0);
    ntts(&mut y);
    let e = noises(seed, 3);
    let front = joined::<640>(
        &masked(&rho, &y, 0, &e.first),
        &masked(&rho, &y, 1, &e.second),
    );
    let all = joined::<960>(&front, &masked(&rho, &y, 2, &e.third));
    joined(&all, &last_part(&t, &y, &noise(seed, 6), message))
}

/// Decrypts a ciphertext by a decryption key (FIPS 203 algorithm 15, K-PKE.Decrypt).
#[tactic(auto, unfolding(crate::specs::Pke::decrypted))]
pub(crate) fn decrypt(decryption_key: &[u8], ciphertext: &[u8]) -> [u8; 32]
    requires key { length decryption_key.now ≡ 1152 }
    requires ciphertext { length ciphertext.now ≡ 1088 }
    ensures { result ≡ decrypted decryption_key.now ciphertext.now }
{
    let (first, rest) = ciphertext.split_at(320);
    let (second, rest) = rest.split_at(320);
    let (third, last) = rest.split_at(320);
    let mut u = Vector {
        first: decode_10(first),
        second: decode_10(second),
        third: decode_10(third),
    };
    ntts(&mut u);
    let mut product = dot(&decode_vector(decryption_key), &u);
    inverse_ntt(&mut product);
    let mut w = decode_4(last);
    subtract(&mut w, &product);
    encode_1(&w)
}
