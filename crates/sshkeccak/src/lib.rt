//! SHA-3 (FIPS 202): the hashes SHA3-256 and SHA3-512 and the extendable outputs SHAKE128 and SHAKE256, of whole bytes.
//!
//! Nothing allocates and nothing fails. As written, no branch, no index and no loop bound depends on the bytes of an input or
//! of a state, only on the input's length, and the only division is of that length. No contract says what a compiler makes of
//! it.
#![tactic(auto)]

mod keccak;
mod laws;
mod sponge;

pub use keccak::Lanes;
pub use laws::{keccak_law, sponge_law};
pub use sponge::{
    sha3_256, sha3_512, shake128_block, shake128_next, shake128_start, shake256_32, shake256_96,
    shake256_128,
};
