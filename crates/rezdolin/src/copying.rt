//! Bytes into the room of a program.

ghost use Rattle.std.specs.Prelude.{◌≡◌, ◌≤◌, false, length, true};
ghost use Rattle.rezdolin.specs.Directions.{IsPut};
ghost use Rattle.rezdolin.specs.Steps.{emptied};

/// Makes the first field of a record that stands here empty: its length, four bytes, is 0, or as many of them as there is room
/// for.
pub(crate) fn empty(room: &mut [u8])
    ensures { room.new ≡ emptied room.old }
{
    let count = room.len().min(4);
    room[..count].copy_from_slice(&[0; 4][..count]);
}

/// Copies all of the bytes where there is room for them, and answers whether there was.
pub(crate) fn is_copied(from: &[u8], out: &mut [u8]) -> bool
    ensures put { result ≡ true → IsPut from.now out.old (length from.now) out.new }
    ensures no_room { result ≡ false → (length from.now ≤ length out.old → ⊥) × (out.new ≡ out.old) }
{
    if from.len() > out.len() {
        return false;
    }
    out[..from.len()].copy_from_slice(from);
    true
}
