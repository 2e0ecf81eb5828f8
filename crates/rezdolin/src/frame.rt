//! The frame round the record of an endpoint, by which a call tells whether its parts are those of the call before.

ghost use Rattle.std.specs.Prelude.{◌≡◌, ◌≢◌, ◌++◌, IfErr, IfOk, IfSome, List, MatchOption, None, length, ℕ};
ghost use Rattle.rezdolin.specs.declared.frame.FrameFault.TheVariants as frame;
ghost use Rattle.rezdolin.specs.Frames.{IsFrameFault, IsFrameOf, framed};

use sshsuite::is_same_secret;
use sshwire::Memory;
use std::alloc::Global;

/// The version of the frame, as a uint32.
const VERSION: [u8; 4] = [0, 0, 0, 1];

/// How many bytes a digest has.
const DIGEST_LEN: usize = 32;

/// Why there is no record in bytes that were handed in.
#[derive(Clone, Copy)]
pub(crate) enum FrameFault {
    /// They are no frame of this version.
    Record,
    /// The parts are others than those of the call that wrote them.
    Parts,
}

/// A frame: the digest of the parts, and the record.
#[derive(Clone, Copy)]
pub(crate) struct FrameParts<'a> {
    pub(crate) digest: &'a [u8],
    pub(crate) text: &'a [u8],
}

/// The frame that these bytes are.
pub(crate) fn frame_in(bytes: &[u8]) -> Option<FrameParts<'_>>
    ensures frame { IfSome result (λ f. (bytes.now ≡ framed f.digest.now f.text.now) × (length f.digest.now ≡ 32)) }
    ensures none { result ≡ None → (other : List ℕ) → IsFrameOf bytes.now other → ⊥ }
{
    let rest = after(bytes, &VERSION)?;
    if rest.len() < DIGEST_LEN {
        return None;
    }
    let (digest, text) = rest.split_at(DIGEST_LEN);
    Some(FrameParts { digest, text })
}

/// The record in a frame with this digest, which is of secrets: it is compared in a time that doesn't tell where it differs.
pub(crate) fn text_in<'a>(bytes: &'a [u8], digest: &[u8; 32]) -> Result<&'a [u8], FrameFault>
    ensures text { IfOk result (λ text. bytes.now ≡ framed digest.now text.now) }
    ensures refused { IfErr result (λ f. IsFrameFault bytes.now digest.now f) }
{
    let Some(frame) = frame_in(bytes) else {
        return Err(FrameFault::Record);
    };
    if !is_same_secret(frame.digest, digest) {
        return Err(FrameFault::Parts);
    }
    Ok(frame.text)
}

/// What follows these bytes where they stand in front.
fn after<'a>(bytes: &'a [u8], front: &[u8]) -> Option<&'a [u8]>
    ensures { MatchOption result ((rest : List ℕ) → bytes.now ≢ front.now ++ rest) (λ rest. bytes.now ≡ front.now ++ rest.now) }
{
    bytes.strip_prefix(front)
}

/// The record in its frame.
pub(crate) fn frame(alloc: Global, digest: &[u8], text: &[u8]) -> Result<Vec<u8>, Memory>
    ensures { IfOk result (λ v. v.items ≡ framed digest.now text.now) }
{
    let mut out = Vec::with_capacity(alloc, VERSION.len() + DIGEST_LEN + text.len())?;
    out.extend_from_slice(&VERSION)?;
    out.extend_from_slice(digest)?;
    out.extend_from_slice(text)?;
    Ok(out)
}
