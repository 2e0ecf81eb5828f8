//! A comparison and a choice that depend on secrets, with neither a branch nor an index that depends on one.
//!
//! The contracts give the results; no contract says what a compiler makes of the code.

ghost use Rattle.std.specs.Prelude.{◌≡◌, ◌<◌, ◌==◌, if◌then◌else◌, length};
ghost use Rattle.std.specs.Str.{bytes_eq};

/// 1 where the byte is zero, else 0.
#[inline(always)]
#[tactic(auto, using(crate::proofs::ChoiceLemmas::zero_bit))]
fn is_zero(n: u8) -> u8
    ensures { result ≡ (if n == 0 then 1 else 0) }
{
    (1 - (u16::from(n) + 255) / 256) as u8
}

/// 1 where both have the same bytes, else 0. It goes over all bytes, also after the first that differ.
#[inline(never)]
#[tactic(auto, using(crate::proofs::ChoiceLemmas::differences_none, crate::proofs::ChoiceLemmas::differences_more))]
pub(crate) fn same(a: &[u8], b: &[u8]) -> u8
    requires { length a.now ≡ length b.now }
    ensures { result ≡ (if bytes_eq a.now b.now then 1 else 0) }
{
    let mut difference = 0;
    for i in 0..a.len() {
        difference |= a[i] ^ b[i];
    }
    is_zero(difference)
}

/// The first byte where the bit is 1, else the second.
#[inline(always)]
#[tactic(auto, using(crate::proofs::ChoiceLemmas::byte_choice))]
fn chosen_byte(bit: u8, a: u8, b: u8) -> u8
    requires { bit < 2 }
    ensures { result ≡ (if bit == 1 then a else b) }
{
    a.wrapping_mul(bit).wrapping_add(b.wrapping_mul(1 - bit))
}

/// The first bytes where the bit is 1, else the second. It reads both.
#[inline(never)]
#[tactic(auto, using(sshkeccak::specs::Repeated::repeated_none, sshkeccak::specs::Repeated::repeated_more, crate::proofs::ChoiceLemmas::choice_is), unfolding(crate::proofs::ChoiceLemmas::with_choice))]
pub(crate) fn chosen(bit: u8, a: &[u8; 32], b: &[u8; 32]) -> [u8; 32]
    requires { bit < 2 }
    ensures { result ≡ (if bit == 1 then a.now else b.now) }
{
    let mut bytes = [0; 32];
    for i in 0..32 {
        bytes[i] = chosen_byte(bit, a[i], b[i]);
    }
    bytes
}
