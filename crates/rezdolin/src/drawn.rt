//! Whether draws can be random bytes: those of a buffer that nobody filled are refused.

ghost use Rattle.std.specs.Prelude.{◌≡◌, false, true};
ghost use Rattle.rezdolin.specs.Drawn.{AreDrawn, IsUniform};

use crate::inputs::SideInput;
use sshsuite::is_same_secret;

/// Whether no draw of a side has bytes that are all equal.
pub(crate) fn are_drawn(side: &SideInput<'_>) -> bool
    ensures yes { result ≡ true → AreDrawn side.now }
    ensures no { result ≡ false → AreDrawn side.now → ⊥ }
{
    !is_uniform(side.cookie) && !is_uniform(side.exchange_random) && !is_uniform(side.padding_seed)
}

/// Whether there are bytes, and all are equal. Its time doesn't tell where they differ.
pub(crate) fn is_uniform(bytes: &[u8]) -> bool
    ensures yes { result ≡ true → IsUniform bytes.now }
    ensures no { result ≡ false → IsUniform bytes.now → ⊥ }
{
    match bytes.split_first() {
        Some((_, rest)) => is_same_secret(rest, &bytes[..rest.len()]),
        None => false,
    }
}
