//! Bytes and the bits and words in them.

ghost use Rattle.std.specs.Prelude.{◌≡◌, ◌<◌, ◌≤◌, ◌+◌, ◌*◌, drop, length, take};
ghost use Rattle.sshcurve.specs.Bits.{bit_at, bytes_of_words, word_at};
ghost use Rattle.sshsuite.specs.Bits.{high_word_at};
ghost use Rattle.sshwire.specs.Masks.{xored};
ghost use Rattle.sshsuite.specs.Sealing.{filled_up};

/// The 64-bit word at a place of bytes, the lowest byte first.
#[tactic(auto, unfolding(sshcurve::specs::Bits::word_at))]
pub(crate) fn word_at(bytes: &[u8], i: usize) -> u64
    requires { i + 8 ≤ length bytes.now }
    ensures { result ≡ word_at bytes.now i }
{
    u64::from_le_bytes([
        bytes[i],
        bytes[i + 1],
        bytes[i + 2],
        bytes[i + 3],
        bytes[i + 4],
        bytes[i + 5],
        bytes[i + 6],
        bytes[i + 7],
    ])
}

/// The word at a place of bytes, the highest byte first.
#[tactic(auto, unfolding(crate::specs::Bits::high_word_at))]
pub(crate) fn high_word_at(bytes: &[u8], i: usize) -> u64
    requires { i + 8 ≤ length bytes.now }
    ensures { result ≡ high_word_at bytes.now i }
{
    u64::from_be_bytes([
        bytes[i],
        bytes[i + 1],
        bytes[i + 2],
        bytes[i + 3],
        bytes[i + 4],
        bytes[i + 5],
        bytes[i + 6],
        bytes[i + 7],
    ])
}

/// The bit at a place of bytes, counted from the lowest of the first byte: 0 or 1.
#[tactic(auto, unfolding(sshcurve::specs::Bits::bit_at))]
pub(crate) fn bit_at(bytes: &[u8], i: usize) -> u64
    requires { i < 8 * length bytes.now }
    ensures value { result ≡ bit_at bytes.now i }
    ensures small { result < 2 }
{
    u64::from((bytes[i / 8] >> (i % 8)) % 2)
}

/// The first half of 64 bytes.
pub(crate) fn first_half(bytes: &[u8]) -> [u8; 32]
    requires { length bytes.now ≡ 64 }
    ensures { result ≡ take 32 bytes.now }
{
    let mut half = [0; 32];
    half.copy_from_slice(&bytes[..32]);
    half
}

/// The second half of 64 bytes.
pub(crate) fn second_half(bytes: &[u8]) -> [u8; 32]
    requires { length bytes.now ≡ 64 }
    ensures { result ≡ drop 32 bytes.now }
{
    let mut half = [0; 32];
    half.copy_from_slice(&bytes[32..]);
    half
}

/// 32 bytes of four words, the lowest first.
#[tactic(auto, unfolding(sshcurve::specs::Bits::bytes_of_words))]
pub(crate) fn bytes_of_words(words: [u64; 4]) -> [u8; 32]
    ensures { result ≡ bytes_of_words words }
{
    let mut bytes = [0; 32];
    bytes[0..8].copy_from_slice(&words[0].to_le_bytes());
    bytes[8..16].copy_from_slice(&words[1].to_le_bytes());
    bytes[16..24].copy_from_slice(&words[2].to_le_bytes());
    bytes[24..32].copy_from_slice(&words[3].to_le_bytes());
    bytes
}

/// 64 bytes, of which zeros stand for what these are short of.
#[tactic(auto, unfolding(crate::specs::Sealing::filled_up))]
pub(crate) fn filled_up(bytes: &[u8]) -> [u8; 64]
    requires { length bytes.now ≤ 64 }
    ensures { result ≡ filled_up bytes.now }
{
    let mut filled = [0; 64];
    filled[..bytes.len()].copy_from_slice(bytes);
    filled
}

/// Each byte becomes itself XOR the byte at its place in the mask.
pub(crate) fn xor_with(bytes: &mut [u8], mask: &[u8])
    requires { length bytes.old ≤ length mask.now }
    ensures { bytes.new ≡ xored bytes.old mask.now }
{
    for i in 0..bytes.len() {
        bytes[i] ^= mask[i];
    }
}
