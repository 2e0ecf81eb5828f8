//! ML-KEM-768 (FIPS 203): a shared secret of 32 bytes that one side encapsulates by the other's public key.
//!
//! - **Randomness comes from the caller**, as seeds of 32 bytes. Each is used once.
//! - **Check a peer's key** by `is_encapsulation_key` before `encapsulate`.
//! - **A changed ciphertext isn't refused**: it gives another secret, and the protocol above has to compare.
//! - **Two honest sides come to different secrets** for less than one choice of seeds in 2^164 (FIPS 203 table 1).
//!   `decryption_law` says exactly for which seeds.
//!
//! Nothing allocates, and nothing wipes a secret. As written, no branch and no index depends on a secret, and every divisor is
//! a constant power of two. No contract says what a compiler makes of it.
#![tactic(auto)]

mod bytes;
mod choice;
mod codec;
mod field;
mod kem;
mod laws;
mod ntt;
mod pke;
mod sample;

pub use kem::{Encapsulated, KemKeys, decapsulate, encapsulate, generate, is_encapsulation_key};
pub use laws::{
    agreement_law, byte_encoding_law, decryption_law, encoding_law, key_law, mlkem_law,
    sampling_law, transform_law,
};
