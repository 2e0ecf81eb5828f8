//! Algorithms that are deployed, as a suite: mlkem768x25519-sha256, curve25519-sha256, diffie-hellman-group14-sha256, ssh-ed25519, signatures of
//! rsa-sha2-256 and rsa-sha2-512 that are verified, chacha20-poly1305@openssh.com, and AES as -gcm and as -ctr with HMACs.
#![tactic(auto)]

mod aes;
mod bits;
mod carryless;
mod chacha20;
mod cipher_names;
mod constant_time;
mod counter_mode;
mod ctr;
mod curve25519;
mod deployed_inventory;
mod deployed_suite;
mod ed25519;
mod edwards25519;
mod expansion;
mod field_element;
mod gcm;
mod ghash;
mod group14;
mod hashes;
mod hmac;
mod hybrid;
mod key_pair;
mod keyed_suite;
mod laws;
mod long_numbers;
mod montgomery;
mod mpint;
mod poly1305;
mod public_power;
mod rsa;
mod rsa_fields;
mod s_box;
mod scalar;
mod sealing;
mod sliced_aes;

pub use constant_time::is_same_secret;
pub use deployed_suite::DeployedSuite;
pub use key_pair::KeyPair;
pub use keyed_suite::KeyedSuite;
pub use laws::{
    aes_law, curve25519_law, deployed_law, draws_law, ed25519_law, field_law, gcm_law, group14_law,
    hybrid_law, point_law, poly1305_law, rsa_law, signature_law, x25519_law,
};
