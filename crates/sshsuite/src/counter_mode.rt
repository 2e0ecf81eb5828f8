//! Counter mode (NIST SP 800-38A section 6.5): the blocks of a key stream are counters, one after another, encrypted.

ghost use Rattle.std.specs.Prelude.{◌≡◌, ◌<◌, ◌≤◌, ◌^◌, IfOk, length};
ghost use Rattle.sshsuite.specs.CounterMode.{HoldsFrom, eight_from, stream_to};

use crate::sliced_aes::{SLICED, eight_ciphers};
use sshwire::Memory;
use std::alloc::Global;

/// How many bytes a block has.
pub(crate) const BLOCK_LEN: usize = 16;

/// Eight blocks of the key stream from this counter on, from the one with this number on.
#[tactic(auto, using(crate::proofs::StreamLemmas::eight_from_is))]
fn eight_from(keys: &[u128], counter: u128, i: usize) -> [u128; 8]
    requires keys { 2 ≤ length keys.now }
    requires i { i < 2 ^ 32 }
    ensures { result ≡ eight_from keys.now counter i }
{
    let first = counter.wrapping_add(i as u128);
    eight_ciphers(
        keys,
        [
            first,
            first.wrapping_add(1),
            first.wrapping_add(2),
            first.wrapping_add(3),
            first.wrapping_add(4),
            first.wrapping_add(5),
            first.wrapping_add(6),
            first.wrapping_add(7),
        ],
    )
}

/// So many blocks of the key stream from this counter on. From a place other than 0 on the first ones stand in eight that were
/// made before.
pub(crate) fn stream(
    alloc: Global,
    keys: &[u128],
    counter: u128,
    place: usize,
    made: [u128; 8],
    count: usize,
) -> Result<Vec<u8>, Memory>
    requires keys { 2 ≤ length keys.now }
    requires place { place < 8 }
    requires count { count < 2 ^ 32 }
    requires made { 0 < place → HoldsFrom keys.now counter 0 place made }
    ensures { IfOk result (λ v. v.items ≡ stream_to keys.now counter count) }
{
    let mut bytes = Vec::new(alloc);
    let mut eight = made;
    for i in 0..count {
        let at = (i + place) % SLICED;
        if at == 0 {
            eight = eight_from(keys, counter, i);
        }
        bytes.extend_from_slice(&eight[at].to_be_bytes())?;
    }
    Ok(bytes)
}
